//! The text of a line.
ghost use Rattle.std.specs.Prelude.{◌≡◌, ◌≤◌, ◌<◌, ◌^◌, true, false, string_bytes, None, Some, Ok};
ghost use Rattle.std.specs.Prelude.{IfOk, OnOk, MatchOption};
ghost use Rattle.std.specs.List.{AllByRecursion};
ghost use Rattle.serde_json.specs.Data as json;
ghost use Rattle.serde_json.specs.View.{view, members_view};
ghost use Rattle.qa_base.specs.values.Events.{fits};
ghost use Rattle.qa_format.specs.format.Lines.{has_lf};
ghost use Rattle.qa_base.specs.values.Limits.{max_time, max_packet_number};
ghost use Rattle.qa_format.specs.format.Proper.{IsRange, IsWord, AreWords, IsProperEvent};
ghost use Rattle.qa_format.specs.format.Proper.{IsProperLine};
ghost use Rattle.qa_base.specs.declared.key.Key.TheVariants as key;
ghost use Rattle.qa_format.specs.format.Reading.{reading};
ghost use Rattle.qa_base.specs.values.Settings.{AreInRange};
ghost use Rattle.qa_format.specs.format.Written.{written, line_fits, object_of, header_pairs};
ghost use Rattle.qa_format.specs.format.Written.{event_pairs, integer_pairs, integer_pair, integer};
ghost use Rattle.qa_format.specs.format.Written.{string, boolean};
ghost use Rattle.qa_write.specs.Members.{with, with_settings, with_options, with_unit_and_choices};
ghost use Rattle.qa_write.specs.Members.{event_members, with_loss_choices};

use qa_base::{
    Ack, Event, Field, Header, Key, LineKind, MetricValues, Options, SentPacket, Space, Span,
    Spans, Ticks, TimerKind, Version,
};
use qa_format::Line;
use serde_json::{Map, Value, json};
use std::alloc::{AllocError, Global};

/// The text of a line: one JSON object without white space and without LF, or no byte for a blank
/// line.
///
/// The keys stand in ascending order of their bytes, and each key of the event's table is there,
/// also where its value is the default; only a value that a sender does not report is left out. So
/// each line has one text, and `read_line` reads it as that line. Asks for an event that fits
/// (`Event::fits`): no line says another.
/// `AllocError` comes where it is out of memory.
pub fn write_line(alloc: Global, line: &Line) -> Result<String, AllocError>
    requires fitting { line_fits line.now ≡ true }
    ensures text { IfOk result (λ text. string_bytes text ≡ written line.now) }
    ensures one_line { IfOk result (λ text. has_lf (string_bytes text) ≡ false) }
    ensures read_back { IfOk result (λ text. reading (string_bytes text) ≡ Ok line.now) }
{
    line_text(alloc, line)
}

/// The text of a line, whose values are then known to be in the ranges of their tables.
#[tactic(auto, using(crate::proofs::NoFloat::has_float_event))]
fn line_text(alloc: Global, line: &Line) -> Result<String, AllocError>
    requires fitting { line_fits line.now ≡ true }
    ensures text { IfOk result (λ text. string_bytes text ≡ written line.now) }
    ensures proper { OnOk result (IsProperLine line.now) }
{
    match line {
        Line::Blank => Ok(String::new(alloc)),
        Line::Header(header) => header_object(alloc, header)?.to_string(alloc),
        Line::Event(event) => event_object(alloc, event)?.to_string(alloc),
    }
}

/// The object of a header.
fn header_object(alloc: Global, header: &Header) -> Result<Value, AllocError>
    ensures object { IfOk result (λ v. view v ≡ object_of (header_pairs header.now)) }
    ensures proper { OnOk result (AreInRange header.now) }
{
    let mut map = Map::new(alloc);
    put_text(&mut map, alloc, Key::Event, LineKind::Header.name())?;
    put_settings(&mut map, alloc, header)?;
    put_options(&mut map, alloc, header)?;
    put_text(&mut map, alloc, Key::Role, header.role().name())?;
    put_unit_and_choices(&mut map, alloc, header)?;
    report(
        &mut map,
        alloc,
        Key::TimerLateUs,
        header.options().timer_late,
    )?;
    put_integer(&mut map, alloc, Key::Version, header.version().number())?;
    Ok(Value::Object(map))
}

/// Puts the numbers that a header of each version has.
fn put_settings(
    map: &mut Map<String, Value>,
    alloc: Global,
    header: &Header,
) -> Result<(), AllocError>
    ensures { OnOk result (members_view map.new.entries
        ≡ with_settings header.now (members_view map.old.entries)) }
{
    put_integer(map, alloc, Key::InitialRtt, header.initial_rtt())?;
    put_integer(map, alloc, Key::InitialWindow, header.initial_window())?;
    put_integer(map, alloc, Key::MaxAckDelay, header.max_ack_delay())?;
    put_integer(map, alloc, Key::MaxDatagramSize, header.max_datagram_size())
}

/// Puts the options that headers of versions 2 and 3 always say.
fn put_options(
    map: &mut Map<String, Value>,
    alloc: Global,
    header: &Header,
) -> Result<(), AllocError>
    ensures { OnOk result (members_view map.new.entries
        ≡ with_options header.now.version header.now.options (members_view map.old.entries)) }
{
    if header.version() == Version::One {
        return Ok(());
    }
    let options = header.options();
    put_flag(map, alloc, Key::RefreshMinRtt, options.refresh_min_rtt)?;
    put_integer(
        map,
        alloc,
        Key::ReportSlackBytes,
        options.report_slack_bytes,
    )?;
    put_integer(map, alloc, Key::ReportSlackUs, options.report_slack_us)
}

/// Puts what only a header of version 3 says of losses and of the RTT.
fn put_loss_choices(
    map: &mut Map<String, Value>,
    alloc: Global,
    options: &Options,
) -> Result<(), AllocError>
    ensures { OnOk result (members_view map.new.entries
        ≡ with_loss_choices options.now (members_view map.old.entries)) }
{
    put_flag(
        map,
        alloc,
        Key::LatestRttLessDelay,
        options.latest_rtt_less_delay,
    )?;
    put_text(map, alloc, Key::LossByNumber, options.loss_by_number.name())?;
    put_integer(map, alloc, Key::PacketThreshold, options.packet_threshold)?;
    put_flag(map, alloc, Key::RecoveryByOrder, options.recovery_by_order)?;
    put_flag(map, alloc, Key::ResetRtt, options.reset_rtt)?;
    let counts = options.threshold_counts.name();
    put_text(map, alloc, Key::ThresholdCounts, counts)?;
    put_integer(
        map,
        alloc,
        Key::TimeThresholdEighths,
        options.time_threshold_eighths,
    )
}

/// Puts the unit and the options that only a header of version 3 says.
fn put_unit_and_choices(
    map: &mut Map<String, Value>,
    alloc: Global,
    header: &Header,
) -> Result<(), AllocError>
    ensures { OnOk result (members_view map.new.entries
        ≡ with_unit_and_choices header.now.version header.now (members_view map.old.entries)) }
{
    if header.version() != Version::Three {
        return Ok(());
    }
    let options = header.options();
    put_loss_choices(map, alloc, &options)?;
    put_flag(
        map,
        alloc,
        Key::SampleElicitingOnly,
        options.sample_eliciting_only,
    )?;
    put_integer(map, alloc, Key::TimerEarlyUs, options.timer_early_us)?;
    put_text(map, alloc, Key::Unit, header.unit().name())?;
    put_text(map, alloc, Key::Window, options.controller.name())?;
    put_flag(map, alloc, Key::WindowOvershoot, options.window_overshoot)
}

/// Puts a text at a key.
fn put_text(
    map: &mut Map<String, Value>,
    alloc: Global,
    key: Key,
    text: &str,
) -> Result<(), AllocError>
    ensures { OnOk result (members_view map.new.entries
        ≡ with key (string text.now) (members_view map.old.entries)) }
{
    let value = Value::try_from_str(alloc, text)?;
    serde_json::put(map, alloc, key.name(), value)
}

/// Puts an integer at a key.
fn put_integer(
    map: &mut Map<String, Value>,
    alloc: Global,
    key: Key,
    value: u64,
) -> Result<(), AllocError>
    ensures { OnOk result (members_view map.new.entries
        ≡ with key (integer value) (members_view map.old.entries)) }
{
    serde_json::put(map, alloc, key.name(), Value::from(value))
}

/// Puts a boolean at a key.
fn put_flag(
    map: &mut Map<String, Value>,
    alloc: Global,
    key: Key,
    value: bool,
) -> Result<(), AllocError>
    ensures { OnOk result (members_view map.new.entries
        ≡ with key (boolean value) (members_view map.old.entries)) }
{
    serde_json::put(map, alloc, key.name(), Value::from(value))
}

/// The object of an event.
fn event_object(alloc: Global, event: &Event) -> Result<Value, AllocError>
    requires { fits event.now ≡ true }
    ensures object { IfOk result (λ v. view v ≡ object_of (event_pairs event.now)) }
    ensures proper { OnOk result (IsProperEvent event.now) }
{
    match event {
        Event::Sent(packet) => sent_object(alloc, packet),
        Event::Ack(ack) => ack_object(alloc, ack),
        Event::Lost {
            time,
            space,
            ranges,
        } => lost_object(alloc, *time, *space, ranges),
        Event::Timer { time, kind, space } => timer_object(alloc, *time, *kind, *space),
        Event::Discard { time, space } => discard_object(alloc, *time, *space),
        Event::Confirmed { time } => confirmed_object(alloc, *time),
        Event::Keys { time } => keys_object(alloc, *time),
        Event::Metrics { time, values } => metrics_object(alloc, *time, values),
    }
}

/// What each event says: its kind and its time.
fn event_map(alloc: Global, kind: LineKind, time: Ticks) -> Result<Map<String, Value>, AllocError>
    ensures members { IfOk result (λ map. members_view map.entries ≡ event_members kind time) }
    ensures in_time { OnOk result (time ≤ max_time) }
{
    let mut map = Map::new(alloc);
    put_text(&mut map, alloc, Key::Event, kind.name())?;
    put_integer(&mut map, alloc, Key::Time, time.get())?;
    Ok(map)
}

/// The object of a packet that was sent.
fn sent_object(alloc: Global, packet: &SentPacket) -> Result<Value, AllocError>
    ensures object { IfOk result (λ v. view v ≡ object_of (event_pairs (Event.Sent packet.now))) }
    ensures in_time { OnOk result (packet.now.time ≤ max_time) }
    ensures in_range { OnOk result (packet.now.number ≤ max_packet_number) }
{
    let mut map = event_map(alloc, LineKind::Sent, packet.time)?;
    put_flag(&mut map, alloc, Key::Eliciting, packet.eliciting)?;
    put_flag(&mut map, alloc, Key::InFlight, packet.in_flight)?;
    put_text(&mut map, alloc, Key::Leave, packet.permission.name())?;
    put_integer(&mut map, alloc, Key::Number, packet.number.get())?;
    put_integer(&mut map, alloc, Key::Size, packet.size)?;
    put_text(&mut map, alloc, Key::Space, packet.space.name())?;
    Ok(Value::Object(map))
}

/// The object of an acknowledgment.
fn ack_object(alloc: Global, ack: &Ack) -> Result<Value, AllocError>
    ensures object { IfOk result (λ v. view v ≡ object_of (event_pairs (Event.Ack ack.now))) }
    ensures in_time { OnOk result (ack.now.time ≤ max_time) }
    ensures are_ranges { OnOk result (AllByRecursion IsRange ack.now.ranges) }
    ensures in_word { OnOk result (ack.now.delay < 2 ^ 64) }
{
    let mut map = event_map(alloc, LineKind::Ack, ack.time)?;
    put_integer(&mut map, alloc, Key::Delay, ack.delay)?;
    put_flag(&mut map, alloc, Key::Limited, ack.app_limited)?;
    put_ranges(&mut map, alloc, &ack.ranges)?;
    put_text(&mut map, alloc, Key::Space, ack.space.name())?;
    Ok(Value::Object(map))
}

/// The object of packets that were declared lost.
fn lost_object(
    alloc: Global,
    time: Ticks,
    space: Space,
    ranges: &Spans,
) -> Result<Value, AllocError>
    ensures object { IfOk result (λ v. view v
        ≡ object_of (event_pairs (Event.Lost time space ranges.now))) }
    ensures in_time { OnOk result (time ≤ max_time) }
    ensures are_ranges { OnOk result (AllByRecursion IsRange ranges.now) }
{
    let mut map = event_map(alloc, LineKind::Lost, time)?;
    put_ranges(&mut map, alloc, ranges)?;
    put_text(&mut map, alloc, Key::Space, space.name())?;
    Ok(Value::Object(map))
}

/// Puts the list of the ranges at its key.
fn put_ranges(map: &mut Map<String, Value>, alloc: Global, ranges: &Spans) -> Result<(), AllocError>
    ensures put { OnOk result (members_view map.new.entries
        ≡ with key.Ranges (json.array (integer_pairs ranges.now)) (members_view map.old.entries)) }
    ensures are_ranges { OnOk result (AllByRecursion IsRange ranges.now) }
{
    let list = ranges_list(alloc, ranges)?;
    serde_json::put(map, alloc, Key::Ranges.name(), list)
}

/// The list of the ranges, each the list of its least and its greatest number, as the lines of a
/// trace have it. `AllocError` comes if it is out of memory.
pub fn ranges_list(alloc: Global, ranges: &Spans) -> Result<Value, AllocError>
    ensures list { IfOk result (λ v. view v ≡ json.array (integer_pairs ranges.now)) }
    ensures are_ranges { OnOk result (AllByRecursion IsRange ranges.now) }
{
    let mut list = Vec::new(alloc);
    for range in ranges.as_slice() {
        let pair = pair_of(alloc, *range)?;
        list.push(pair)?;
    }
    Ok(Value::Array(list))
}

/// The list of the least and the greatest number of a range.
fn pair_of(alloc: Global, range: Span) -> Result<Value, AllocError>
    ensures pair { IfOk result (λ v. view v ≡ integer_pair range) }
    ensures is_range { OnOk result (IsRange range) }
{
    json!(in alloc; [range.lo().get(), range.hi().get()])
}

/// The object of a timer that fired.
fn timer_object(
    alloc: Global,
    time: Ticks,
    kind: TimerKind,
    space: Space,
) -> Result<Value, AllocError>
    ensures object { IfOk result (λ v. view v
        ≡ object_of (event_pairs (Event.Timer time kind space))) }
    ensures in_time { OnOk result (time ≤ max_time) }
{
    let mut map = event_map(alloc, LineKind::Timer, time)?;
    put_text(&mut map, alloc, Key::Kind, kind.name())?;
    put_text(&mut map, alloc, Key::Space, space.name())?;
    Ok(Value::Object(map))
}

/// The object of keys that were discarded.
fn discard_object(alloc: Global, time: Ticks, space: Space) -> Result<Value, AllocError>
    ensures object { IfOk result (λ v. view v
        ≡ object_of (event_pairs (Event.Discard time space))) }
    ensures in_time { OnOk result (time ≤ max_time) }
{
    let mut map = event_map(alloc, LineKind::Discard, time)?;
    put_text(&mut map, alloc, Key::Space, space.name())?;
    Ok(Value::Object(map))
}

/// The object of a handshake that was confirmed.
fn confirmed_object(alloc: Global, time: Ticks) -> Result<Value, AllocError>
    ensures object { IfOk result (λ v. view v ≡ object_of (event_pairs (Event.Confirmed time))) }
    ensures in_time { OnOk result (time ≤ max_time) }
{
    let map = event_map(alloc, LineKind::Confirmed, time)?;
    Ok(Value::Object(map))
}

/// The object of Handshake keys that are there.
fn keys_object(alloc: Global, time: Ticks) -> Result<Value, AllocError>
    ensures object { IfOk result (λ v. view v ≡ object_of (event_pairs (Event.Keys time))) }
    ensures in_time { OnOk result (time ≤ max_time) }
{
    let map = event_map(alloc, LineKind::Keys, time)?;
    Ok(Value::Object(map))
}

/// The object of a sender's report, with the values that it reports.
fn metrics_object(alloc: Global, time: Ticks, values: &MetricValues) -> Result<Value, AllocError>
    ensures object { IfOk result (λ v. view v
        ≡ object_of (event_pairs (Event.Metrics time values.now))) }
    ensures in_time { OnOk result (time ≤ max_time) }
    ensures are_words { OnOk result (AreWords values.now) }
{
    let mut map = Map::new(alloc);
    report(
        &mut map,
        alloc,
        Key::Metric(Field::BytesInFlight),
        values.bytes_in_flight,
    )?;
    let name = Value::try_from_str(alloc, LineKind::Metrics.name())?;
    serde_json::put(&mut map, alloc, Key::Event.name(), name)?;
    report(
        &mut map,
        alloc,
        Key::Metric(Field::LatestRtt),
        values.latest_rtt,
    )?;
    report(&mut map, alloc, Key::Metric(Field::MinRtt), values.min_rtt)?;
    report(&mut map, alloc, Key::Metric(Field::Rttvar), values.rttvar)?;
    report(
        &mut map,
        alloc,
        Key::Metric(Field::SmoothedRtt),
        values.smoothed_rtt,
    )?;
    report(
        &mut map,
        alloc,
        Key::Metric(Field::Ssthresh),
        values.ssthresh,
    )?;
    serde_json::put(&mut map, alloc, Key::Time.name(), Value::from(time.get()))?;
    report(&mut map, alloc, Key::Metric(Field::Window), values.window)?;
    Ok(Value::Object(map))
}

/// Puts a value at its key, where there is one.
fn report(
    map: &mut Map<String, Value>,
    alloc: Global,
    key: Key,
    value: Option<u64>,
) -> Result<(), AllocError>
    ensures put { OnOk result (MatchOption value
        (members_view map.new.entries ≡ members_view map.old.entries)
        (λ n. members_view map.new.entries
        ≡ with key (integer n) (members_view map.old.entries))) }
    ensures is_word { OnOk result (IsWord value) }
{
    match value {
        Some(value) => put_integer(map, alloc, key, value),
        None => Ok(()),
    }
}
