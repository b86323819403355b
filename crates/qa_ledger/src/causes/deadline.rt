//! Why a deadline is what it is.
ghost use Rattle.std.specs.Prelude.{◌≡◌, List, option_map};
ghost use Rattle.qa_base.specs.declared.event.Event.{Event as AnEvent};
ghost use Rattle.qa_base.specs.machine.Timer as timers;
ghost use Rattle.qa_base.specs.values.Settings.{Settings, early, in_unit};
ghost use Rattle.qa_ledger.specs.causes.Causes as causes;

use crate::causes::cause::{Basis, Cause};
use crate::causes::facts::Facts;
use qa_base::{Due, Space, TimerKind};

/// The oldest packet of the space that is open and in flight, by which its loss time is decided.
fn packet_basis<S: Facts>(state: &S, space: Space) -> Option<Basis>
    ensures { (c : Settings) (h : List AnEvent) → S.tells state.now c h
        → result ≡ causes.packet_basis c h space }
{
    let held = state.totals();
    match state.oldest(space) {
        None => None,
        Some(oldest) => Some(Basis::Packet {
            number: oldest.number,
            sent: oldest.sent,
            latest_rtt: held.latest_rtt,
            smoothed_rtt: held.smoothed_rtt,
            eighths: state.header().time_threshold_eighths(),
        }),
    }
}

/// By how much the peer may delay its acknowledgments in the space (RFC 9002, section 6.2.1).
fn peer_delay<S: Facts>(state: &S, space: Space) -> u64
    ensures { (c : Settings) (h : List AnEvent) → S.tells state.now c h
        → result ≡ causes.peer_delay c space }
{
    match space {
        Space::App => state.header().max_ack_delay(),
        Space::Initial | Space::Handshake => 0,
    }
}

/// The last ack-eliciting packet of the space, by which its probe timeout is decided.
fn eliciting_basis<S: Facts>(state: &S, space: Space) -> Option<Basis>
    ensures { (c : Settings) (h : List AnEvent) → S.tells state.now c h
        → result ≡ causes.eliciting_basis c h space }
{
    let held = state.totals();
    let peer_delay = peer_delay(state, space);
    match state.last_eliciting(space) {
        None => None,
        Some(sent) => Some(Basis::Eliciting {
            sent,
            smoothed_rtt: held.smoothed_rtt,
            rttvar: held.rttvar,
            peer_delay,
            pto_count: held.pto_count,
        }),
    }
}

/// The last event that set the timer, by which that of a client is decided until it is validated.
fn kept_basis<S: Facts>(state: &S) -> Option<Basis>
    ensures { (c : Settings) (h : List AnEvent) → S.tells state.now c h
        → result ≡ causes.kept_basis c h }
{
    let held = state.totals();
    match state.last_set() {
        None => None,
        Some(set) => Some(Basis::Kept {
            set,
            smoothed_rtt: held.smoothed_rtt,
            rttvar: held.rttvar,
            pto_count: held.pto_count,
        }),
    }
}

/// Why a deadline is what it is.
fn basis_of<S: Facts>(state: &S, due: Option<Due>) -> Option<Basis>
    ensures { (c : Settings) (h : List AnEvent) → S.tells state.now c h
        → result ≡ causes.basis_of c h due }
{
    let due = due?;
    match due.kind {
        TimerKind::Loss => packet_basis(state, due.space),
        TimerKind::Pto => {
            if state.packet_deadline().is_some() {
                eliciting_basis(state, due.space)
            } else {
                kept_basis(state)
            }
        }
    }
}

/// V13: what the timer is set for, and why then.
pub(crate) fn timer_early<S: Facts>(state: &S) -> Cause
    ensures { (c : Settings) (h : List AnEvent) → S.tells state.now c h
        → result ≡ Cause.TimerEarly (timers.deadline c h)
        (causes.basis_of c h (timers.deadline c h)) (early c) }
{
    Cause::TimerEarly {
        due: state.deadline(),
        basis: basis_of(state, state.deadline()),
        early: state.header().timer_early(),
    }
}

/// By how much a timer may be late, in the unit of the trace.
fn late_limit<S: Facts>(state: &S) -> Option<u128>
    ensures { (c : Settings) (h : List AnEvent) → S.tells state.now c h
        → result ≡ option_map (in_unit c.unit) c.options.timer_late }
{
    let header = state.header();
    match header.options().timer_late {
        None => None,
        Some(limit) => Some(header.unit().of_microseconds(limit)),
    }
}

/// V18: the deadline by packets, since when it is set, and by how much the timer may be late.
pub(crate) fn timer_late<S: Facts>(state: &S) -> Cause
    ensures { (c : Settings) (h : List AnEvent) → S.tells state.now c h
        → result ≡ Cause.TimerLate (timers.packet_deadline c h) (causes.limited_since c h)
        (option_map (in_unit c.unit) c.options.timer_late) }
{
    Cause::TimerLate {
        due: state.packet_deadline(),
        since: state.set_since(),
        limit: late_limit(state),
    }
}
