//! Sets of packet numbers with one number less.
ghost use Rattle.std.specs.Prelude.{◌≡◌, ◌≤◌, ◌<◌, ◌+◌, ◌++◌, ◌&&◌, ◌==◌, not, ℕ, length, take};
ghost use Rattle.std.specs.Prelude.{drop, option_to_list, OnOk, OnErr};
ghost use Rattle.qa_base.specs.values.Events.{is_named};
ghost use Rattle.qa_packet_numbers.specs.Runs as defined;
ghost use Rattle.qa_packet_numbers.specs.Runs.{removed};

use crate::Ranges;
use qa_base::{PacketNumber, Span};
use std::alloc::AllocError;

impl Ranges {
    /// Takes the number out of the set, which need not have it. `AllocError` comes where it is out
    /// of memory, and leaves the set as it was.
    ///
    /// A binary search, and time that grows with the number of runs behind the one that had it.
    pub fn remove(&mut self, number: PacketNumber) -> Result<(), AllocError>
        ensures ok { OnOk result ((n : ℕ) → is_named self.new n
            ≡ (is_named self.old n && not (n == number))) }
        ensures exact { OnOk result (self.new ≡ removed number self.old) }
        ensures err { OnErr result (self.new ≡ self.old) }
    {
        let place = self.runs.partition_point(|run| run.hi() < number);
        match self.runs.get(place).copied() {
            Some(run) if run.lo() <= number => cut(&mut self.runs, place, run, number),
            _ => Ok(()),
        }
    }
}

/// What of the run stands below a number of it.
fn part_below(run: Span, number: PacketNumber) -> Option<Span>
    requires { number ≤ run.1 }
    ensures { result ≡ defined.part_below number run }
{
    if run.lo().get() < number.get() {
        let last = PacketNumber::new(number.get() - 1).unwrap();
        Span::new(run.lo(), last)
    } else {
        None
    }
}

/// What of the run stands above a number of it.
fn part_above(run: Span, number: PacketNumber) -> Option<Span>
    requires { run.0 ≤ number }
    ensures { result ≡ defined.part_above number run }
{
    if number.get() < run.hi().get() {
        let first = PacketNumber::new(number.get() + 1).unwrap();
        Span::new(first, run.hi())
    } else {
        None
    }
}

/// Puts what is left of a run without one of its numbers in the place of that run.
fn cut(
    runs: &mut Vec<Span>,
    place: usize,
    run: Span,
    number: PacketNumber,
) -> Result<(), AllocError>
    requires within { place < length runs.old.items }
    requires low { run.0 ≤ number }
    requires high { number ≤ run.1 }
    ensures ok { OnOk result (runs.new.items ≡ take place runs.old.items
        ++ (option_to_list (defined.part_below number run)
        ++ (option_to_list (defined.part_above number run) ++ drop (place + 1) runs.old.items))) }
    ensures err { OnErr result (runs.new.items ≡ runs.old.items) }
{
    match (part_below(run, number), part_above(run, number)) {
        (Some(below), Some(above)) => {
            runs.insert(place, below)?;
            runs[place + 1] = above;
        }
        (Some(part), None) => runs[place] = part,
        (None, Some(part)) => runs[place] = part,
        (None, None) => {
            runs.remove(place);
        }
    }
    Ok(())
}
