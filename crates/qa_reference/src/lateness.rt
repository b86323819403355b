//! How late the timer is.
ghost use Rattle.std.specs.Prelude.{ℕ, ◌≡◌, ◌≤◌, take};
ghost use Rattle.qa_base.specs.machine.Breaches as breaches;
ghost use Rattle.qa_base.specs.machine.Packets.{history_of};
ghost use Rattle.qa_base.specs.machine.Timer as timers;

use crate::questions::{deadline, packet_deadline};
use qa_base::{Due, Event, Header, Ticks};

/// Whether an event, the last of those after it, leaves the deadline as it was.
fn keeps_deadline(header: &Header, before: &[Event], after: &[Event]) -> bool
    requires before { timers.pto_count header.now (history_of before.now) ≤ 40 }
    requires after { timers.pto_count header.now (history_of after.now) ≤ 40 }
    ensures { result ≡ timers.is_same_due (timers.deadline header.now (history_of before.now))
        (timers.deadline header.now (history_of after.now)) }
{
    Due::is_same(deadline(header, before), deadline(header, after))
}

/// The time since which the timer is set as it is, that of the event that made it so; 0 before any.
///
/// Asks for a PTO count of at most 40 after each of the events.
pub fn set_since(header: &Header, events: &[Event]) -> Ticks
    requires counted { (n : ℕ) → timers.pto_count header.now (history_of (take n events.now)) ≤ 40 }
    ensures { result ≡ timers.set_since header.now (history_of events.now) }
{
    let mut since = Ticks::of(0);
    for (place, event) in events.iter().enumerate() {
        if !keeps_deadline(header, &events[..place], &events[..place + 1]) {
            since = event.time();
        }
    }
    since
}

/// Whether a time is past a deadline by more than the limit, counted from the time since which the
/// timer is set where that is later.
///
/// That time takes the deadline after each event, so it is asked only past the deadline itself.
#[tactic(auto, using(crate::proofs::Late::late_is))]
fn is_past_due(header: &Header, events: &[Event], limit: u128, time: Ticks) -> bool
    requires counted { (n : ℕ) → timers.pto_count header.now (history_of (take n events.now)) ≤ 40 }
    ensures { result ≡ breaches.is_past_due limit
        (timers.set_since header.now (history_of events.now)) time
        (timers.packet_deadline header.now (history_of events.now)) }
{
    let last = u128::from(time.get()).saturating_sub(limit);
    match packet_deadline(header, events) {
        None => false,
        Some(due) => due.time < last && u128::from(set_since(header, events).get()) < last,
    }
}

/// Whether an event at this time shows that the timer was too late: the header has a limit, packets
/// set the timer, and the time is past their deadline by more than the limit, or past the time
/// since which the timer is set where that is later.
///
/// Asks for a PTO count of at most 40 after each of the events.
pub fn is_late(header: &Header, events: &[Event], time: Ticks) -> bool
    requires counted { (n : ℕ) → timers.pto_count header.now (history_of (take n events.now)) ≤ 40 }
    ensures { result ≡ breaches.is_late_by header.now
        (history_of events.now) time header.now.options.timer_late }
{
    match header.options().timer_late {
        None => false,
        Some(limit) => {
            let limit = header.unit().of_microseconds(limit);
            is_past_due(header, events, limit, time)
        }
    }
}
