//! By how much an event goes past what a rule asks, where its header allows that.
ghost use Rattle.std.specs.Prelude.{◌≡◌};
ghost use Rattle.qa_base.specs.machine.Window as windows;
ghost use Rattle.qa_violations.specs.allowed.Allowed as allowed;

use crate::allowed::before::Before;
use crate::table::{gap, past_collapse};
use qa_base::constants::minimum_window;
use qa_base::{Due, Event, Field, Header, MetricValues, Permission, SentPacket, Totals};
use qa_explain::text::{due_time, held_of, reported_of};

// ---- V7

/// By how many bytes a packet takes the bytes in flight past the window that its mark asks for.
fn packet_past_window(before: &Before, packet: &SentPacket) -> u128
    ensures { result ≡ allowed.packet_past_window before.now packet.now }
{
    if !packet.is_in_flight_by(Permission::Window) {
        return 0;
    }
    let sum = u128::from(before.totals.bytes_in_flight) + u128::from(packet.size);
    sum.saturating_sub(u128::from(before.totals.window))
}

/// The same of an event, which may be none of a packet.
pub(crate) fn past_window(before: &Before, event: &Event) -> u128
    ensures { result ≡ allowed.past_window before.now event.now }
{
    match event {
        Event::Sent(packet) => packet_past_window(before, packet),
        _ => 0,
    }
}

// ---- V13

/// How long before its deadline a timer fires.
pub(crate) fn early_by(before: &Before, event: &Event) -> u128
    ensures { result ≡ allowed.early_by before.now event.now }
{
    match event {
        Event::Timer { time, .. } => due_time(before.due).saturating_sub(u128::from(time.get())),
        _ => 0,
    }
}

// ---- V16

/// Whether the value is compared: the window and `ssthresh` are where they are NewReno's.
fn is_compared(header: &Header, field: Field) -> bool
    ensures { result ≡ allowed.is_compared header.now field }
{
    match field {
        Field::Window | Field::Ssthresh => !header.options().controller.is_reported(),
        _ => true,
    }
}

/// How far a reported value is from the machine's, where it is compared.
pub(crate) fn metric_off(
    header: &Header,
    values: &MetricValues,
    held: &Totals,
    field: Field,
) -> u128
    ensures { result ≡ allowed.metric_off header.now values.now held.now field }
{
    if !is_compared(header, field) {
        return 0;
    }
    gap(reported_of(field, values), held_of(field, held)).unwrap_or(0)
}

// ---- V18

/// How long past the deadline a time is, counted from the time since which it is set where that is
/// later.
fn past_due(due: &Option<Due>, since: u64, time: u64) -> u128
    ensures { result ≡ allowed.past_due due.now since time }
{
    match due {
        None => 0,
        Some(due) => u128::from(time).saturating_sub(due.time.max(u128::from(since))),
    }
}

/// How long before the event a timer that is set for packets should have fired.
pub(crate) fn late_by(before: &Before, event: &Event) -> u128
    ensures { result ≡ allowed.late_by before.now event.now }
{
    past_due(&before.packet_due, before.since, event.time().get())
}

// ---- V19

/// The window that the event reports.
fn window_in(event: &Event) -> Option<u64>
    ensures { result ≡ windows.window_in event.now }
{
    match event {
        Event::Metrics { values, .. } => values.window,
        _ => None,
    }
}

/// The reported window, where it is another than this.
fn unless_same(window: u64, reported: Option<u64>) -> Option<u64>
    ensures { result ≡ windows.unless_same window reported }
{
    match reported {
        Some(reported) if reported != window => Some(reported),
        _ => None,
    }
}

/// By how many bytes another window that is reported is above two datagrams and what was
/// acknowledged since persistent congestion.
pub(crate) fn past_collapse_by(header: &Header, before: &Before, event: &Event) -> u128
    ensures { result ≡ allowed.past_collapse_by header.now before.now event.now }
{
    if !header.options().controller.is_reported() {
        return 0;
    }
    let least = minimum_window(header.max_datagram_size());
    let reported = unless_same(before.totals.window, window_in(event));
    past_collapse(least, before.acknowledged, reported).unwrap_or(0)
}
