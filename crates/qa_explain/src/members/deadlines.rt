//! Deadlines, and the times and amounts that make them.
ghost use Rattle.std.specs.Prelude.{◌≡◌, ◌++◌, OnOk};
ghost use Rattle.qa_explain.specs.members.Deadlines as text;

use crate::members::object::Object;
use crate::text::due_time;
use qa_base::{Due, Event, PacketNumber, Ticks, TimeUnit};
use qa_ledger::Basis;
use std::alloc::AllocError;

// ---- what the timer is set for

#[tactic(auto, unfolding(crate::specs::members::Deadlines::some_due))]
fn push_some_due(out: &mut Object, unit: TimeUnit, due: Due) -> Result<(), AllocError>
    ensures { OnOk result (out.new ≡ out.old ++ text.some_due unit due) }
{
    out.string("set_kind", due.kind.name())?;
    out.string("set_space", due.space.name())?;
    out.amount("deadline", unit.name(), due.time)
}

#[tactic(auto, unfolding(crate::specs::members::Deadlines::no_due))]
fn push_no_due(out: &mut Object, unit: TimeUnit) -> Result<(), AllocError>
    ensures { OnOk result (out.new ≡ out.old ++ text.no_due unit) }
{
    out.null("set_kind")?;
    out.null("set_space")?;
    out.some_amount("deadline", unit.name(), None)
}

/// Writes what the timer is set for, its time in the unit (V12; RFC 9002, A.8).
pub fn push_due(out: &mut Object, unit: TimeUnit, due: Option<Due>) -> Result<(), AllocError>
    ensures { OnOk result (out.new ≡ out.old ++ text.due_facts unit due) }
{
    match due {
        None => push_no_due(out, unit),
        Some(due) => push_some_due(out, unit, due),
    }
}

// ---- why then

/// From what a deadline counts, and from when.
#[tactic(auto, unfolding(crate::specs::members::Deadlines::origin))]
fn push_origin(out: &mut Object, unit: TimeUnit, words: &str, time: u64) -> Result<(), AllocError>
    ensures { OnOk result (out.new ≡ out.old ++ text.origin unit words.now time) }
{
    out.string("counts_from", words)?;
    out.amount("counts_from", unit.name(), u128::from(time))
}

/// What makes a loss delay behind a packet (RFC 9002, section 6.1.2), times in the unit of the
/// trace.
#[derive(Clone, Copy)]
struct PacketDelay {
    /// The packet's number.
    number: u64,
    /// The latest RTT.
    latest_rtt: u64,
    /// The smoothed RTT.
    smoothed_rtt: u64,
    /// The time threshold, in eighths of the RTT.
    eighths: u64,
}

#[tactic(auto, unfolding(crate::specs::members::Deadlines::packet_delay))]
fn push_packet_delay(out: &mut Object, unit: TimeUnit, delay: PacketDelay) -> Result<(), AllocError>
    ensures { OnOk result (out.new
        ≡ out.old ++ text.packet_delay unit delay.number delay.latest_rtt delay.smoothed_rtt
        delay.eighths) }
{
    out.number("packet", u128::from(delay.number))?;
    out.amount("latest_rtt", unit.name(), u128::from(delay.latest_rtt))?;
    out.amount("smoothed_rtt", unit.name(), u128::from(delay.smoothed_rtt))?;
    out.number("time_threshold_eighths", u128::from(delay.eighths))
}

/// What makes a probe timeout (RFC 9002, section 6.2.1), times in the unit of the trace.
#[derive(Clone, Copy)]
struct ProbeTimeout {
    /// The smoothed RTT.
    smoothed_rtt: u64,
    /// The variation of the RTT.
    rttvar: u64,
    /// How long the peer may delay its acknowledgments.
    peer_delay: u64,
    /// How many probe timeouts there were before it; each doubles it.
    pto_count: u64,
}

#[tactic(auto, unfolding(crate::specs::members::Deadlines::timeout))]
fn push_timeout(out: &mut Object, unit: TimeUnit, timeout: ProbeTimeout) -> Result<(), AllocError>
    ensures { OnOk result (out.new
        ≡ out.old ++ text.timeout unit timeout.smoothed_rtt timeout.rttvar timeout.peer_delay
        timeout.pto_count) }
{
    out.amount(
        "smoothed_rtt",
        unit.name(),
        u128::from(timeout.smoothed_rtt),
    )?;
    out.amount("rttvar", unit.name(), u128::from(timeout.rttvar))?;
    out.amount("max_ack_delay", unit.name(), u128::from(timeout.peer_delay))?;
    out.number("pto_count", u128::from(timeout.pto_count))
}

#[tactic(auto, unfolding(crate::specs::members::Deadlines::some_basis))]
fn push_some_basis(out: &mut Object, unit: TimeUnit, basis: Basis) -> Result<(), AllocError>
    ensures { OnOk result (out.new ≡ out.old ++ text.some_basis unit basis) }
{
    match basis {
        Basis::Packet {
            number,
            sent,
            latest_rtt,
            smoothed_rtt,
            eighths,
        } => {
            push_origin(out, unit, "packet", sent.get())?;
            let delay = PacketDelay {
                number: number.get(),
                latest_rtt,
                smoothed_rtt,
                eighths,
            };
            push_packet_delay(out, unit, delay)
        }
        Basis::Eliciting {
            sent,
            smoothed_rtt,
            rttvar,
            peer_delay,
            pto_count,
        } => {
            push_origin(out, unit, "ack-eliciting packet", sent.get())?;
            let timeout = ProbeTimeout {
                smoothed_rtt,
                rttvar,
                peer_delay,
                pto_count,
            };
            push_timeout(out, unit, timeout)
        }
        Basis::Kept {
            set,
            smoothed_rtt,
            rttvar,
            pto_count,
        } => {
            push_origin(out, unit, "timer set", set.get())?;
            let timeout = ProbeTimeout {
                smoothed_rtt,
                rttvar,
                peer_delay: 0,
                pto_count,
            };
            push_timeout(out, unit, timeout)
        }
    }
}

fn push_basis(out: &mut Object, unit: TimeUnit, basis: Option<Basis>) -> Result<(), AllocError>
    ensures { OnOk result (out.new ≡ out.old ++ text.basis_facts unit basis) }
{
    match basis {
        None => Ok(()),
        Some(basis) => push_some_basis(out, unit, basis),
    }
}

// ---- early and late

/// By how much something is off, and by how much it may be.
#[tactic(auto, unfolding(crate::specs::members::Deadlines::off_by))]
fn push_off_by(
    out: &mut Object,
    unit: TimeUnit,
    key: &str,
    by: u128,
    allowed: Option<u128>,
) -> Result<(), AllocError>
    ensures { OnOk result (out.new ≡ out.old ++ text.off_by unit key.now by allowed) }
{
    out.amount(key, unit.name(), by)?;
    out.some_amount("allowed", unit.name(), allowed)
}

/// What the timer is set for, and why then.
#[derive(Clone, Copy)]
pub(crate) struct Deadline {
    /// What it is set for.
    pub(crate) due: Option<Due>,
    /// Why then.
    pub(crate) basis: Option<Basis>,
}

/// What the timer is set for, and since when.
#[derive(Clone, Copy)]
pub(crate) struct SetTimer {
    /// What it is set for.
    pub(crate) due: Option<Due>,
    /// Since when.
    pub(crate) since: Ticks,
}

/// V13: what the timer is set for and why then, by how much it fired early, and by how much it may.
#[tactic(auto, unfolding(crate::specs::members::Deadlines::early_facts))]
pub(crate) fn push_early(
    out: &mut Object,
    unit: TimeUnit,
    event: &Event,
    deadline: Deadline,
    early: u64,
) -> Result<(), AllocError>
    ensures { OnOk result (out.new
        ≡ out.old ++ text.early_facts unit event.now deadline.due deadline.basis early) }
{
    let by = due_time(deadline.due).saturating_sub(u128::from(event.time().get()));
    push_due(out, unit, deadline.due)?;
    push_off_by(out, unit, "early", by, Some(u128::from(early)))?;
    push_basis(out, unit, deadline.basis)
}

/// V18: what the timer is set for and since when, by how much the event comes late, and by how much
/// it may.
#[tactic(auto, unfolding(crate::specs::members::Deadlines::late_facts))]
pub(crate) fn push_late(
    out: &mut Object,
    unit: TimeUnit,
    event: &Event,
    timer: SetTimer,
    limit: Option<u128>,
) -> Result<(), AllocError>
    ensures { OnOk result (out.new
        ≡ out.old ++ text.late_facts unit event.now timer.due timer.since limit) }
{
    let from = due_time(timer.due).max(u128::from(timer.since.get()));
    let by = u128::from(event.time().get()).saturating_sub(from);
    push_due(out, unit, timer.due)?;
    out.amount("set_since", unit.name(), u128::from(timer.since.get()))?;
    push_off_by(out, unit, "late", by, limit)
}
