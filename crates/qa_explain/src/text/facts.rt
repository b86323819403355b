//! The facts of a cause, a line each.
ghost use Rattle.std.specs.Prelude.{◌≡◌, ◌++◌, OnOk, string_bytes};
ghost use Rattle.qa_explain.specs.text.Facts as text;

use crate::text::deadlines::{push_early, push_late, push_set};
use crate::text::reports::{push_collapse, push_metrics};
use crate::text::runs::{push_counted, push_differing, push_nameable, push_owed};
use crate::text::sending::{
    push_due_probe, push_greatest, push_probe, push_recovery, push_unsent, push_window,
};
use qa_base::Event;
use qa_ledger::Cause;
use std::alloc::AllocError;

/// Appends the facts of the cause by which the event breaks a rule, a line each.
#[tactic(auto, unfolding(crate::specs::text::Facts::facts_text))]
pub fn push_facts(out: &mut String, event: &Event, cause: &Cause) -> Result<(), AllocError>
    ensures { OnOk result (string_bytes out.new
        ≡ string_bytes out.old ++ text.facts_text event.now cause.now) }
{
    match cause {
        Cause::TimeBack { .. } | Cause::SpaceGone | Cause::TimerNotSet | Cause::NotConfirmed => {
            Ok(())
        }
        Cause::LossOwed { owed } | Cause::OwedAtEnd { owed } => push_owed(out, owed),
        Cause::LossNotOwed {
            owed,
            free,
            counted,
        } => {
            push_nameable(out, owed, free)?;
            push_counted(out, counted)
        }
        Cause::LossSet {
            owed,
            free,
            unnamed,
            unowed,
            counted,
        } => {
            push_nameable(out, owed, free)?;
            push_differing(out, unnamed, unowed)?;
            push_counted(out, counted)
        }
        Cause::NumberNotHigher { greatest } => push_greatest(out, event, *greatest),
        Cause::PastWindow {
            in_flight,
            window,
            overshoot,
        } => push_window(out, event, *in_flight, *window, *overshoot),
        Cause::PastProbe { allowance, spent } => push_probe(out, event, *allowance, *spent),
        Cause::PastRecovery { spent } => push_recovery(out, *spent),
        Cause::AckUnsent { unsent } => push_unsent(out, event, *unsent),
        Cause::TimerOther { due } => push_set(out, *due),
        Cause::TimerEarly { due, basis, .. } => push_early(out, *due, *basis),
        Cause::ProbeOwed { space } => push_due_probe(out, *space),
        Cause::Metric { held, by } => push_metrics(out, event, held, *by),
        Cause::TimerLate { due, since, limit } => push_late(out, event, *due, *since, *limit),
        Cause::CollapseMissing {
            least,
            acknowledged,
            slack,
            reported,
        } => push_collapse(out, *least, *acknowledged, *slack, *reported),
    }
}
