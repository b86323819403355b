//! The text of each event.
ghost use Rattle.std.specs.Prelude.{◌≡◌, ◌≤◌, ◌<◌, ◌^◌, ◌++◌, OnOk, true};
ghost use Rattle.std.specs.List.{AllByRecursion};
ghost use Rattle.qa_base.specs.values.Events.{fits};
ghost use Rattle.qa_base.specs.values.Limits.{max_packet_number, max_time};
ghost use Rattle.qa_fast_writer.specs.Members.{all_led, bare_pairs};
ghost use Rattle.qa_format.specs.declared.line.Line.TheVariants as lines;
ghost use Rattle.qa_format.specs.format.Proper.{AreWords, IsProperEvent, IsRange};
ghost use Rattle.qa_format.specs.format.Written.{event_pairs, written};

use crate::members::{
    put_flag, put_integer, put_kind, put_number, put_permission, put_ranges, put_space, put_time,
    put_timer_kind, report,
};
use qa_base::{
    Ack, Event, Field, Key, LineKind, MetricValues, SentPacket, Space, Spans, Ticks, TimerKind,
};
use std::alloc::AllocError;

/// Appends the text of the line of an event: one JSON object without white space and without LF,
/// as `write_line` of `qa_write` writes it.
///
/// Asks for an event that fits (`Event::fits`): no line says another. `AllocError` comes if it is
/// out of memory; what was appended by then is of no use.
pub fn push_event(event: &Event, out: &mut Vec<u8>) -> Result<(), AllocError>
    requires fitting { fits event.now ≡ true }
    ensures text { OnOk result (out.new.items
        ≡ out.old.items ++ written (lines.Event event.now)) }
    ensures proper { OnOk result (IsProperEvent event.now) }
{
    let begin = out.as_slice().len();
    put_event(event, out)?;
    out.extend_from_slice(b"}")?;
    // The first member has a comma before it, as the others have.
    out[begin] = b'{';
    Ok(())
}

/// Appends the members of an event.
fn put_event(event: &Event, out: &mut Vec<u8>) -> Result<(), AllocError>
    requires { fits event.now ≡ true }
    ensures text { OnOk result (out.new.items
        ≡ out.old.items ++ all_led (event_pairs event.now)) }
    ensures proper { OnOk result (IsProperEvent event.now) }
{
    match event {
        Event::Sent(packet) => put_sent(packet, out),
        Event::Ack(ack) => put_ack(ack, out),
        Event::Lost {
            time,
            space,
            ranges,
        } => put_lost(*time, *space, ranges, out),
        Event::Timer { time, kind, space } => put_timer(*time, *kind, *space, out),
        Event::Discard { time, space } => put_discard(*time, *space, out),
        Event::Confirmed { time } => put_bare(LineKind::Confirmed, *time, out),
        Event::Keys { time } => put_bare(LineKind::Keys, *time, out),
        Event::Metrics { time, values } => put_metrics(*time, values, out),
    }
}

/// Appends the members of a packet that was sent.
fn put_sent(packet: &SentPacket, out: &mut Vec<u8>) -> Result<(), AllocError>
    ensures text { OnOk result (out.new.items
        ≡ out.old.items ++ all_led (event_pairs (Event.Sent packet.now))) }
    ensures in_time { OnOk result (packet.now.time ≤ max_time) }
    ensures in_range { OnOk result (packet.now.number ≤ max_packet_number) }
{
    put_flag(out, Key::Eliciting, packet.eliciting)?;
    put_kind(out, LineKind::Sent)?;
    put_flag(out, Key::InFlight, packet.in_flight)?;
    put_permission(out, packet.permission)?;
    put_number(out, packet.number)?;
    put_integer(out, Key::Size, packet.size)?;
    put_space(out, packet.space)?;
    put_time(out, packet.time)
}

/// Appends the members of an acknowledgment.
fn put_ack(ack: &Ack, out: &mut Vec<u8>) -> Result<(), AllocError>
    ensures text { OnOk result (out.new.items
        ≡ out.old.items ++ all_led (event_pairs (Event.Ack ack.now))) }
    ensures in_time { OnOk result (ack.now.time ≤ max_time) }
    ensures are_ranges { OnOk result (AllByRecursion IsRange ack.now.ranges) }
    ensures in_word { OnOk result (ack.now.delay < 2 ^ 64) }
{
    put_integer(out, Key::Delay, ack.delay)?;
    put_kind(out, LineKind::Ack)?;
    put_flag(out, Key::Limited, ack.app_limited)?;
    put_ranges(out, &ack.ranges)?;
    put_space(out, ack.space)?;
    put_time(out, ack.time)
}

/// Appends the members of packets that were declared lost.
fn put_lost(time: Ticks, space: Space, ranges: &Spans, out: &mut Vec<u8>) -> Result<(), AllocError>
    ensures text { OnOk result (out.new.items
        ≡ out.old.items ++ all_led (event_pairs (Event.Lost time space ranges.now))) }
    ensures in_time { OnOk result (time ≤ max_time) }
    ensures are_ranges { OnOk result (AllByRecursion IsRange ranges.now) }
{
    put_kind(out, LineKind::Lost)?;
    put_ranges(out, ranges)?;
    put_space(out, space)?;
    put_time(out, time)
}

/// Appends the members of a timer that fired.
fn put_timer(
    time: Ticks,
    kind: TimerKind,
    space: Space,
    out: &mut Vec<u8>,
) -> Result<(), AllocError>
    ensures text { OnOk result (out.new.items
        ≡ out.old.items ++ all_led (event_pairs (Event.Timer time kind space))) }
    ensures in_time { OnOk result (time ≤ max_time) }
{
    put_kind(out, LineKind::Timer)?;
    put_timer_kind(out, kind)?;
    put_space(out, space)?;
    put_time(out, time)
}

/// Appends the members of keys that were discarded.
fn put_discard(time: Ticks, space: Space, out: &mut Vec<u8>) -> Result<(), AllocError>
    ensures text { OnOk result (out.new.items
        ≡ out.old.items ++ all_led (event_pairs (Event.Discard time space))) }
    ensures in_time { OnOk result (time ≤ max_time) }
{
    put_kind(out, LineKind::Discard)?;
    put_space(out, space)?;
    put_time(out, time)
}

/// Appends the members of an event that says nothing but its kind and its time.
fn put_bare(kind: LineKind, time: Ticks, out: &mut Vec<u8>) -> Result<(), AllocError>
    ensures text { OnOk result (out.new.items ≡ out.old.items ++ all_led (bare_pairs kind time)) }
    ensures in_time { OnOk result (time ≤ max_time) }
{
    put_kind(out, kind)?;
    put_time(out, time)
}

/// Appends the members of a sender's report: the values that it reports.
fn put_metrics(time: Ticks, values: &MetricValues, out: &mut Vec<u8>) -> Result<(), AllocError>
    ensures text { OnOk result (out.new.items
        ≡ out.old.items ++ all_led (event_pairs (Event.Metrics time values.now))) }
    ensures in_time { OnOk result (time ≤ max_time) }
    ensures are_words { OnOk result (AreWords values.now) }
{
    report(out, Field::BytesInFlight, values.bytes_in_flight)?;
    put_kind(out, LineKind::Metrics)?;
    report(out, Field::LatestRtt, values.latest_rtt)?;
    report(out, Field::MinRtt, values.min_rtt)?;
    report(out, Field::Rttvar, values.rttvar)?;
    report(out, Field::SmoothedRtt, values.smoothed_rtt)?;
    report(out, Field::Ssthresh, values.ssthresh)?;
    put_time(out, time)?;
    report(out, Field::Window, values.window)
}
