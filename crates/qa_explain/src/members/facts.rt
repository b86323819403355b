//! The facts of a cause.
ghost use Rattle.std.specs.Prelude.{◌≡◌, ◌++◌, OnOk};
ghost use Rattle.qa_explain.specs.members.Facts as text;

use crate::members::deadlines::{Deadline, SetTimer, push_due, push_early, push_late};
use crate::members::losses::{push_counted, push_differing, push_nameable, push_owed, push_space};
use crate::members::object::Object;
use crate::members::reports::{push_collapse, push_metrics};
use crate::members::sending::{push_packet_number, push_probe, push_recovery, push_window};
use qa_base::{Event, Ticks, TimeUnit};
use qa_ledger::Cause;
use std::alloc::AllocError;

/// V1: the time of the event before.
fn push_before(out: &mut Object, unit: TimeUnit, before: Option<Ticks>) -> Result<(), AllocError>
    ensures { OnOk result (out.new ≡ out.old ++ text.before unit before) }
{
    match before {
        None => out.some_amount("before", unit.name(), None),
        Some(before) => {
            let before = u128::from(before.get());
            out.some_amount("before", unit.name(), Some(before))
        }
    }
}

/// Writes the facts of the cause by which the event breaks a rule; times are in the unit.
#[tactic(auto, unfolding(crate::specs::members::Facts::facts))]
pub fn push_facts(
    out: &mut Object,
    unit: TimeUnit,
    event: &Event,
    cause: &Cause,
) -> Result<(), AllocError>
    ensures { OnOk result (out.new ≡ out.old ++ text.facts unit event.now cause.now) }
{
    match cause {
        Cause::SpaceGone | Cause::TimerNotSet | Cause::NotConfirmed => Ok(()),
        Cause::TimeBack { before } => push_before(out, unit, *before),
        Cause::LossOwed { owed } | Cause::OwedAtEnd { owed } => push_owed(out, owed),
        Cause::LossNotOwed {
            owed,
            free,
            counted,
        } => {
            push_nameable(out, owed, free)?;
            push_counted(out, "unowed_counted", *counted)
        }
        Cause::LossSet {
            owed,
            free,
            unnamed,
            unowed,
            counted,
        } => {
            push_nameable(out, owed, free)?;
            push_differing(out, unnamed, unowed)?;
            push_counted(out, "unowed_counted", *counted)
        }
        Cause::NumberNotHigher { greatest } => push_packet_number(out, "greatest_sent", *greatest),
        Cause::PastWindow {
            in_flight,
            window,
            overshoot,
        } => push_window(out, *in_flight, *window, *overshoot),
        Cause::PastProbe { allowance, spent } => push_probe(out, *allowance, *spent),
        Cause::PastRecovery { spent } => push_recovery(out, *spent),
        Cause::AckUnsent { unsent } => push_packet_number(out, "unsent", *unsent),
        Cause::TimerOther { due } => push_due(out, unit, *due),
        Cause::TimerEarly { due, basis, early } => {
            let deadline = Deadline {
                due: *due,
                basis: *basis,
            };
            push_early(out, unit, event, deadline, *early)
        }
        Cause::ProbeOwed { space } => push_space(out, "probe_space", *space),
        Cause::Metric { held, by } => push_metrics(out, unit, event, held, *by),
        Cause::TimerLate { due, since, limit } => {
            let timer = SetTimer {
                due: *due,
                since: *since,
            };
            push_late(out, unit, event, timer, *limit)
        }
        Cause::CollapseMissing {
            least,
            acknowledged,
            slack,
            reported,
        } => push_collapse(out, *least, *acknowledged, *slack, *reported),
    }
}
