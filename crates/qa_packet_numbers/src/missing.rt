//! The sets of some numbers, and which numbers that spans name are not among them.
ghost use Rattle.std.specs.Prelude.{◌≡◌, ◌&&◌, not, List, [], ◌∷◌, ℕ, IfOk};
ghost use Rattle.qa_base.specs.machine.Numbers.{Names, is_in};
ghost use Rattle.qa_base.specs.values.Events.{is_named};
ghost use Rattle.qa_packet_numbers.specs.Missing.{IsFirstMissing, first_outside, lesser, others};
ghost use Rattle.qa_packet_numbers.specs.Missing.{runs_of, unnamed};

use crate::Ranges;
use qa_base::{PacketNumber, Span};
use std::alloc::{AllocError, Global};

impl Ranges {
    /// The set of these numbers. `AllocError` comes where it is out of memory.
    pub fn of_numbers(alloc: Global, numbers: &[PacketNumber]) -> Result<Ranges, AllocError>
        ensures runs { IfOk result (λ set. set ≡ runs_of numbers.now) }
        ensures names { IfOk result (λ set. Names set numbers.now) }
    {
        let mut set = Ranges::new(alloc);
        for number in numbers {
            set.insert_range(alone(*number))?;
        }
        Ok(set)
    }

    /// The set of those of the numbers that no span names. `AllocError` comes where it is out of
    /// memory.
    ///
    /// A binary search for each number.
    pub fn of_unnamed(
        alloc: Global,
        spans: &[Span],
        numbers: &[PacketNumber],
    ) -> Result<Ranges, AllocError>
        ensures runs { IfOk result (λ set. set ≡ runs_of (unnamed spans.now numbers.now)) }
        ensures names { IfOk result (λ set. (n : ℕ) → is_named set n
            ≡ (is_in numbers.now n && not (is_named spans.now n))) }
    {
        let named = Ranges::of_spans(alloc, spans)?;
        let mut set = Ranges::new(alloc);
        for number in numbers {
            if !named.contains(*number) {
                set.insert_range(alone(*number))?;
            }
        }
        Ok(set)
    }

    /// The set of the numbers that some span names and that are none of these. `AllocError` comes
    /// where it is out of memory.
    ///
    /// A binary search for each span and for each number.
    pub fn of_others(
        alloc: Global,
        spans: &[Span],
        numbers: &[PacketNumber],
    ) -> Result<Ranges, AllocError>
        ensures runs { IfOk result (λ set. set ≡ others spans.now numbers.now) }
        ensures names { IfOk result (λ set. (n : ℕ) → is_named set n
            ≡ (is_named spans.now n && not (is_in numbers.now n))) }
    {
        let mut set = Ranges::new(alloc);
        for span in spans {
            set.insert_range(*span)?;
        }
        for number in numbers {
            set.remove(*number)?;
        }
        Ok(set)
    }

    /// The least number that some span names and the set does not have; None where it has them all.
    ///
    /// A binary search for each span.
    pub fn first_missing(&self, spans: &[Span]) -> Option<PacketNumber>
        ensures missing { IsFirstMissing self.now spans.now result }
        ensures outside { (numbers : List ℕ) → Names self.now numbers
            → result ≡ first_outside spans.now numbers }
    {
        let mut first: Option<PacketNumber> = None;
        for span in spans {
            first = least(first, self.missing_of(*span));
        }
        first
    }

    /// The least number of the span that the set does not have.
    fn missing_of(&self, span: Span) -> Option<PacketNumber>
        ensures { IsFirstMissing self.now (span ∷ []) result }
    {
        let Some(run) = self.run_from(span.lo()) else {
            return Some(span.lo());
        };
        if span.lo().get() < run.lo().get() {
            return Some(span.lo());
        }
        if run.hi().get() < span.hi().get() {
            PacketNumber::new(run.hi().get() + 1)
        } else {
            None
        }
    }
}

/// The span of one number.
fn alone(number: PacketNumber) -> Span
    ensures { result ≡ (number, number) }
{
    Span::new(number, number).unwrap()
}

/// The lesser of the two, where there are two.
fn least(a: Option<PacketNumber>, b: Option<PacketNumber>) -> Option<PacketNumber>
    ensures { result ≡ lesser a b }
{
    match (a, b) {
        (None, _) => b,
        (Some(_), None) => a,
        (Some(x), Some(y)) => Some(x.min(y)),
    }
}
