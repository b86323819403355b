//! Sets of packet numbers, kept as runs.
ghost use Rattle.std.specs.Prelude.{◌≡◌, ◌≤◌, ◌<◌, ◌↔◌, ℕ, List, [], ◌∷◌, ◌++◌, ◌-◌, length, take};
ghost use Rattle.std.specs.Prelude.{drop, find, slice_get, nat_le, true, false, IsTrue, OnOk};
ghost use Rattle.std.specs.Prelude.{OnErr};
ghost use Rattle.std.specs.List.{AllWithin};
ghost use Rattle.std.specs.List.Sorted.{IsPartitionPoint};
ghost use Rattle.qa_base.specs.machine.Numbers.{Names, has_range};
ghost use Rattle.qa_base.specs.values.Events.{is_named};
ghost use Rattle.qa_packet_numbers.specs.Runs as defined;
ghost use Rattle.qa_packet_numbers.specs.Runs.{AreApart, AreDistinct, HasEach, IsGreatest};
ghost use Rattle.qa_packet_numbers.specs.Runs.{inserted, run_count};

use qa_base::{PacketNumber, Span};
use std::alloc::{AllocError, Global};
use std::marker::Model;

/// A set of packet numbers, kept as its runs of consecutive numbers.
///
/// It takes memory for each run, and not for each number. Contracts see it as those runs in rising
/// order, and a number is in the set where it is in one of them.
#[derive(Drop)]
pub struct Ranges {
    pub(crate) runs: Vec<Span>,
}

impl Model for Ranges {
    ghost use Rattle.std.specs.Prelude.{ℕ, List};
    ghost use Rattle.qa_packet_numbers.specs.Runs.{AreApart};

    ghost Value = { List (ℕ × ℕ) };

    ghost view = { λ r. r.runs.items };

    ghost invariant = { λ r. AreApart r.runs.items };
}

impl Ranges {
    /// The empty set. Takes no memory.
    pub fn new(alloc: Global) -> Ranges
        ensures { result ≡ [] }
    {
        Ranges {
            runs: Vec::new(alloc),
        }
    }

    /// Adds the numbers of the span, of which the set may have some. `AllocError` comes where it is
    /// out of memory, and leaves the set as it was.
    ///
    /// At or behind the last run this takes amortised constant time; before it, time that grows
    /// with the number of runs.
    #[inline(always)]
    pub fn insert_range(&mut self, span: Span) -> Result<(), AllocError>
        ensures ok { OnOk result ((n : ℕ) → is_named self.new n ≡ is_named (span ∷ self.old) n) }
        ensures exact { OnOk result (self.new ≡ inserted span self.old) }
        ensures err { OnErr result (self.new ≡ self.old) }
    {
        // Numbers are sent in rising order, so that one mostly makes the last run longer.
        if let Some(run) = lengthened(&self.runs, span) {
            let last = self.runs.len() - 1;
            self.runs[last] = run;
            return Ok(());
        }
        self.insert_anywhere(span)
    }

    /// Adds the numbers of a span that may stand anywhere, as `insert_range` says.
    #[inline(never)]
    fn insert_anywhere(&mut self, span: Span) -> Result<(), AllocError>
        ensures ok { OnOk result ((n : ℕ) → is_named self.new n ≡ is_named (span ∷ self.old) n) }
        ensures exact { OnOk result (self.new ≡ inserted span self.old) }
        ensures err { OnErr result (self.new ≡ self.old) }
    {
        let first = count_before(&self.runs, span.lo());
        let (end, run) = reach(&self.runs, first, span);
        replace(&mut self.runs, first, end, run)
    }

    /// Whether the number is in the set, by a binary search.
    pub fn contains(&self, number: PacketNumber) -> bool
        ensures { result ≡ is_named self.now number }
    {
        self.run_from(number).is_some_and(|run| run.lo() <= number)
    }

    /// Whether each number of the span is in the set, by a binary search.
    pub fn covers(&self, span: Span) -> bool
        ensures each { IsTrue result ↔ HasEach self.now span }
        ensures numbers { (numbers : List ℕ) → Names self.now numbers
            → result ≡ has_range numbers span }
    {
        self.run_from(span.lo())
            .is_some_and(|run| is_within(span, run))
    }

    /// How many runs of consecutive numbers the set has, none of which can be made longer. The set
    /// keeps that many spans.
    #[tactic(auto, using(crate::proofs::Counts::counted))]
    pub fn runs(&self) -> u64
        ensures kept { result ≡ length self.now }
        ensures maximal { AreApart self.now }
        ensures count { (numbers : List ℕ) → Names self.now numbers → AreDistinct numbers
            → result ≡ run_count numbers }
    {
        self.runs.len() as u64
    }

    /// The greatest number of the set, or None where it is empty.
    #[tactic(auto, using(crate::proofs::Sets::greatest_is_last))]
    pub fn greatest(&self) -> Option<PacketNumber>
        ensures { IsGreatest self.now result }
    {
        self.runs.last().map(|run| run.hi())
    }

    /// The first run that does not end below the number.
    pub(crate) fn run_from(&self, number: PacketNumber) -> Option<Span>
        ensures run { result ≡ find (λ run. nat_le number run.1) self.now }
        ensures apart { AreApart self.now }
    {
        let place = self.runs.partition_point(|run| run.hi() < number);
        self.runs.get(place).copied()
    }
}

/// Whether the run ends before the number, and one at least is missing between them.
fn ends_before(run: Span, number: PacketNumber) -> bool
    ensures { result ≡ defined.ends_before run number }
{
    run.hi().get() + 1 < number.get()
}

/// Whether each number of the span is in the run.
fn is_within(span: Span, run: Span) -> bool
    ensures { result ≡ defined.is_within span run }
{
    run.lo() <= span.lo() && span.hi() <= run.hi()
}

/// One run from the least to the greatest number of two.
fn joined(a: Span, b: Span) -> Span
    ensures { result ≡ defined.joined a b }
{
    Span::new(a.lo().min(b.lo()), a.hi().max(b.hi())).unwrap()
}

/// What the last run becomes with the span, where the span begins directly behind it.
#[inline(always)]
fn lengthened(runs: &[Span], span: Span) -> Option<Span>
    ensures { result ≡ defined.lengthened span (slice_get runs.now (length runs.now - 1)) }
{
    match runs.last() {
        Some(last) if last.hi().get() + 1 == span.lo().get() => Span::new(last.lo(), span.hi()),
        _ => None,
    }
}

/// How many runs end before the number with one missing between them.
fn count_before(runs: &[Span], number: PacketNumber) -> usize
    requires apart { AreApart runs.now }
    ensures bound { result ≤ length runs.now }
    ensures point { IsPartitionPoint (λ run. defined.ends_before run number
        ≡ true) (λ run. defined.ends_before run number ≡ false) runs.now result }
{
    // Numbers are sent in rising order, so that the place is mostly at the end.
    match runs.last() {
        Some(last) if ends_before(*last, number) => runs.len(),
        Some(last) if last.lo() <= number => runs.len() - 1,
        _ => runs.partition_point(|run| ends_before(*run, number)),
    }
}

/// The run that the span makes with all that it touches from a place on, and where those end.
fn reach(runs: &[Span], first: usize, span: Span) -> (usize, Span)
    requires within { first ≤ length runs.now }
    requires reached { AllWithin (λ run. defined.ends_before run span.0
        ≡ false) runs.now first (length runs.now) }
    ensures from { first ≤ result.0 }
    ensures within { result.0 ≤ length runs.now }
    ensures joined { inserted span (drop first runs.now) ≡ result.1 ∷ drop result.0 runs.now }
{
    let mut end = first;
    let mut run = span;
    while end < runs.len() && !ends_before(run, runs[end].lo()) {
        run = joined(run, runs[end]);
        end += 1;
    }
    (end, run)
}

/// Puts a run in the place of those from `first` up to `end`.
fn replace(runs: &mut Vec<Span>, first: usize, end: usize, run: Span) -> Result<(), AllocError>
    requires order { first ≤ end }
    requires within { end ≤ length runs.old.items }
    ensures ok { OnOk result (runs.new.items
        ≡ take first runs.old.items ++ run ∷ drop end runs.old.items) }
    ensures err { OnErr result (runs.new.items ≡ runs.old.items) }
{
    if first == end {
        runs.insert(first, run)?;
        return Ok(());
    }
    runs[first] = run;
    // Where the new run stands for one run alone, none goes.
    if first + 1 < end {
        runs.drain(first + 1..end);
    }
    Ok(())
}
