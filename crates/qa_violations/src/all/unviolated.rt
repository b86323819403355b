//! What a header allowed at the events that violate nothing.
ghost use Rattle.std.specs.Prelude.{◌≡◌, ℕ, List, []};
ghost use Rattle.qa_violations.specs.all.Keeping.{CoversUnviolated};

use crate::all::tolerating::Tolerating;
use crate::allowed::Allowances;
use qa_format::Line;
use qa_ledger::{Explains, Tolerates};
use qa_why::Notes;
use std::alloc::AllocError;

/// What a header allowed the events of a trace that violate nothing.
#[derive(Drop)]
pub(crate) struct Unviolated {
    pub(crate) allowances: Allowances,
}

impl Unviolated {
    /// Of no lines. Takes no memory.
    pub(crate) fn new() -> Unviolated
        ensures { (name : List ℕ) → CoversUnviolated name result result [] }
    {
        Unviolated {
            allowances: Allowances::new(),
        }
    }
}

impl<L: Tolerates + Explains + Drop> Notes<Tolerating<L>> for Unviolated {
    ghost use Rattle.qa_violations.specs.all.Keeping.{CoversUnviolated};

    ghost covers = { CoversUnviolated };

    fn note(
        &mut self,
        _name: &str,
        n: u64,
        _line: &[u8],
        said: &Line,
        judge: Option<&Tolerating<L>>,
    ) -> Result<(), AllocError> {
        match judge {
            Some(judge) => {
                let counts = judge.latest().is_empty();
                self.allowances.note_said(n, said, counts, judge.ledger());
            }
            None => (),
        }
        Ok(())
    }
}
