//! A late timer as it is noted.
ghost use Rattle.std.specs.Prelude.{◌≡◌};
ghost use Rattle.qa_violations.specs.allowed.Lines as lines;

use qa_base::{Space, TimerKind};

/// A timer that should have fired before an event.
#[derive(Clone, Copy)]
pub(crate) struct Late {
    /// The line of the event, 1 for the first of the trace.
    pub(crate) line: u64,
    /// What the timer was set for.
    pub(crate) kind: TimerKind,
    /// In which packet number space.
    pub(crate) space: Space,
    /// How long before the event it should have fired, in the unit of the trace.
    pub(crate) amount: u128,
}

/// The later of the two; of equal ones the first.
pub(crate) fn later(found: Option<Late>, late: Late) -> Late
    ensures { result ≡ lines.later found late }
{
    match found {
        None => late,
        Some(first) => {
            if first.amount < late.amount {
                late
            } else {
                first
            }
        }
    }
}
