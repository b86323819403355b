//! Why a judge that goes on past sender rules ends a trace.
use crate::all::tolerating::Tolerating;
use qa_base::{Event, Rule, TimeUnit};
use qa_ledger::{Cause, Explains, Owed, Tolerates};
use qa_why::Reasons;
use std::alloc::AllocError;

impl<L: Tolerates + Explains + Drop> Reasons for Tolerating<L> {
    fn reason(&self, event: &Event, rule: Rule) -> Result<Cause, AllocError> {
        self.cause(event, rule)
    }

    fn debt(&self) -> Result<Owed, AllocError> {
        self.owed()
    }

    fn time_unit(&self) -> TimeUnit {
        self.unit()
    }
}
