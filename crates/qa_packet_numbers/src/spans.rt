//! Sets of the numbers that spans name, and their runs.
ghost use Rattle.std.specs.Prelude.{◌≡◌, ℕ, IfOk};
ghost use Rattle.qa_base.specs.values.Events.{is_named};
ghost use Rattle.qa_packet_numbers.specs.Runs.{AreApart};

use crate::Ranges;
use qa_base::Span;
use std::alloc::{AllocError, Global};

impl Ranges {
    /// The numbers that some span names. The spans may overlap and stand in any order.
    /// `AllocError` comes where it is out of memory.
    ///
    /// Takes time and memory that grow with the number of spans where they rise or fall, and else
    /// the time of a sort.
    pub fn of_spans(alloc: Global, spans: &[Span]) -> Result<Ranges, AllocError>
        ensures { IfOk result (λ set. (n : ℕ) → is_named set n ≡ is_named spans.now n) }
    {
        // In rising order each span goes to the end of the set. Those of an acknowledgment fall,
        // and the sort turns spans that fall in one pass.
        let mut rising = spans.to_vec(alloc)?;
        rising.sort_unstable_by_key(|span| span.lo());
        let mut set = Ranges::new(alloc);
        for span in &rising {
            set.insert_range(*span)?;
        }
        Ok(set)
    }

    /// Its runs in rising order, with a number missing between each two.
    pub fn as_slice(&self) -> &[Span]
        ensures runs { result.now ≡ self.now }
        ensures apart { AreApart self.now }
    {
        &self.runs
    }
}
