//! A judge that says why an event ends a trace.
ghost use Rattle.std.specs.Prelude.{◌≡◌, false, List, IfOk};
ghost use Rattle.qa_base.specs.declared.event.Event.{Event as AnEvent};
ghost use Rattle.qa_base.specs.values.Settings.{Settings};
ghost use Rattle.qa_ledger.specs.causes.Causes as causes;

use qa_base::{Event, Rule, TimeUnit};
use qa_check::Judge;
use qa_ledger::{Cause, Explains, Owed};
use std::alloc::AllocError;

/// A judge that says why an event breaks a rule, or why the end of a trace breaks V17.
///
/// Each ledger that `Explains` is one.
pub trait Reasons: Judge {
    /// The facts of the rule for an event after those that were admitted. `AllocError` comes where
    /// it is out of memory.
    fn reason(&self, event: &Event, rule: Rule) -> Result<Cause, AllocError>
        ensures { Self.has_failed self.now ≡ false → IfOk result (λ cause. (c : Settings)
            (h : List AnEvent) → Self.judges.stands self.now c h
            → cause ≡ causes.cause_of c h event.now rule) };

    /// What is owed after the events that were admitted. `AllocError` comes where it is out of
    /// memory.
    fn debt(&self) -> Result<Owed, AllocError>
        ensures { Self.has_failed self.now ≡ false → IfOk result (λ owed. (c : Settings)
            (h : List AnEvent) → Self.judges.stands self.now c h → owed ≡ causes.owed_now c h) };

    /// The unit of the trace's times.
    fn time_unit(&self) -> TimeUnit
        ensures { Self.has_failed self.now ≡ false → (c : Settings) (h : List AnEvent)
            → Self.judges.stands self.now c h → result ≡ c.unit };
}

/// A ledger says it by what it holds.
impl<L: Explains> Reasons for L {
    fn reason(&self, event: &Event, rule: Rule) -> Result<Cause, AllocError> {
        self.cause(event, rule)
    }

    fn debt(&self) -> Result<Owed, AllocError> {
        self.owed()
    }

    fn time_unit(&self) -> TimeUnit {
        self.unit()
    }
}
