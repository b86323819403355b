//! The values that the structs of C say.
ghost use Rattle.std.specs.Prelude.{◌≡◌, ◌⊎◌, [], IfSome, IfOk, None, Some};
ghost use Rattle.qaudit_c.specs.Events as said;
ghost use Rattle.qaudit_c.specs.Numbers as numbers;

use crate::numbers::{permission_of, space_of, timer_of};
use crate::structs::{FiredTimer, Metrics, PacketRange, SentPacket};
use qa_base::{
    Event, MetricValues, PacketNumber, Permission, Space, Span, Spans, Ticks, TimerKind,
};
use std::alloc::AllocError;

/// The time, the space, the number and the leave of a packet that was sent, where each is in its
/// range.
#[inline(always)]
pub fn sent_values(packet: &SentPacket) -> Option<(Ticks, Space, PacketNumber, Permission)>
    ensures none { result ≡ None → said.sent_said packet.now ≡ None }
    ensures some { IfSome result (λ v. said.sent_said packet.now
        ≡ said.fitting (said.sent_event v.0 v.1 v.2 v.3 packet.now)) }
{
    let time = Ticks::new(packet.time)?;
    let space = space_of(packet.space)?;
    let number = PacketNumber::new(packet.number)?;
    let permission = permission_of(packet.permission)?;
    Some((time, space, number, permission))
}

/// The time, the kind and the space of a timer that fired, where each is in its range.
#[inline(always)]
pub fn timer_values(timer: &FiredTimer) -> Option<(Ticks, TimerKind, Space)>
    ensures none { result ≡ None → said.timer_said timer.now ≡ None }
    ensures some { IfSome result (λ v. said.timer_said timer.now
        ≡ said.fitting (Event.Timer v.0 v.1 v.2)) }
{
    let time = Ticks::new(timer.time)?;
    let kind = timer_of(timer.kind)?;
    let space = space_of(timer.space)?;
    Some((time, kind, space))
}

/// When and in which space something happened, where both are in their ranges.
#[inline(always)]
pub fn moment_of(time: u64, space: u32) -> Option<(Ticks, Space)>
    ensures none { result ≡ None
        → (said.time_of time ≡ None) ⊎ (numbers.space_numbered space ≡ None) }
    ensures some { IfSome result (λ v. (said.time_of time ≡ Some v.0)
        × (numbers.space_numbered space ≡ Some v.1)) }
{
    let time = Ticks::new(time)?;
    let space = space_of(space)?;
    Some((time, space))
}

/// The value, where it is there.
#[inline(always)]
pub fn given(has: bool, value: u64) -> Option<u64>
    ensures { result ≡ said.given has value }
{
    if has { Some(value) } else { None }
}

/// The values that are reported.
#[inline(always)]
pub fn values_of(metrics: &Metrics) -> MetricValues
    ensures { result ≡ said.values_of metrics.now }
{
    MetricValues {
        window: given(metrics.has_window, metrics.window),
        ssthresh: given(metrics.has_ssthresh, metrics.ssthresh),
        bytes_in_flight: given(metrics.has_bytes_in_flight, metrics.bytes_in_flight),
        latest_rtt: given(metrics.has_latest_rtt, metrics.latest_rtt),
        min_rtt: given(metrics.has_min_rtt, metrics.min_rtt),
        smoothed_rtt: given(metrics.has_smoothed_rtt, metrics.smoothed_rtt),
        rttvar: given(metrics.has_rttvar, metrics.rttvar),
    }
}

/// The span of a range of packet numbers.
#[inline(always)]
fn span_of(range: &PacketRange) -> Option<Span>
    ensures { result ≡ said.range_said range.now }
{
    if range.greatest < range.least || PacketNumber::MAX < range.greatest {
        return None;
    }
    let least = PacketNumber::new(range.least)?;
    let greatest = PacketNumber::new(range.greatest)?;
    Span::new(least, greatest)
}

/// The spans of the ranges, in their order, in an empty list that is lent; None where one is no
/// range of packet numbers.
#[inline(always)]
pub fn spans_of(lent: Spans, ranges: &[PacketRange]) -> Result<Option<Spans>, AllocError>
    requires { lent ≡ [] }
    ensures { IfOk result (λ spans. spans ≡ said.ranges_of ranges.now) }
{
    let mut spans = lent;
    spans.reserve(ranges.len())?;
    for range in ranges {
        let Some(span) = span_of(range) else {
            return Ok(None);
        };
        spans.push(span)?;
    }
    Ok(Some(spans))
}
