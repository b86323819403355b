//! The keys of each kind of line, read in the order of their table, and what the line then says.
ghost use Rattle.std.specs.Prelude.{◌≡◌, IfOk};
ghost use Rattle.serde_json.specs.View.{view};
ghost use Rattle.qa_format.specs.format.Keys as keys;
ghost use Rattle.qa_format.specs.format.Tables as tables;
ghost use Rattle.qa_read.specs.Gives.{Gives};

use crate::fault::LineFault;
use crate::fields;
use crate::fields::both;
use crate::ranges::ranges;
use qa_base::constants::DEFAULT_TIME_THRESHOLD_EIGHTHS;
use qa_base::{
    Ack, ConnectionValues, Controller, Event, Field, Header, Key, LossByNumber, MetricValues,
    Options, PacketNumber, Permission, RangeFault, Role, SentPacket, Space, Spans, ThresholdCounts,
    Ticks, TimeUnit, TimerKind, Version,
};
use qa_format::Fault;
use serde_json::Value;
use std::alloc::{AllocError, Global};

// ---- the header

/// The unit of a header's times, and by whose window packets are judged. In another version than 3
/// their keys are looked at no more than any key that no table has.
fn unit_and_window(object: &Value) -> Result<(TimeUnit, Controller), Fault>
    ensures { result ≡ tables.unit_and_window (view object.now) }
{
    match fields::required_integer(Key::Version, object) {
        Ok(version) if version == Version::Three.number() => {
            both(fields::unit(object), fields::controller(object))
        }
        _ => Ok((TimeUnit::Microseconds, Controller::NewReno)),
    }
}

/// What stands at the keys of a header: version and role, the unit and whose window it is, the
/// greatest datagram size and delay, and the RTT and the window that it begins with.
type HeaderFields = (
    (u64, Role),
    (
        (TimeUnit, Controller),
        ((u64, Option<u64>), (Option<u64>, Option<u64>)),
    ),
);

fn header_fields(object: &Value) -> Result<HeaderFields, Fault>
    ensures { result ≡ tables.header_fields (view object.now) }
{
    let named = both(
        fields::required_integer(Key::Version, object),
        fields::role(object),
    );
    let most = both(
        fields::required_integer(Key::MaxDatagramSize, object),
        fields::optional_integer(Key::MaxAckDelay, object),
    );
    let initial = both(
        fields::optional_integer(Key::InitialRtt, object),
        fields::optional_integer(Key::InitialWindow, object),
    );
    let numbers = both(most, initial);
    let timed = both(unit_and_window(object), numbers);
    both(named, timed)
}

/// What stands at the keys of the options that versions 2 and 3 have: the limit and the refresh,
/// and the slack of times and of bytes.
type OptionFields = ((Option<u64>, bool), (u64, u64));

fn option_fields(object: &Value) -> Result<OptionFields, Fault>
    ensures { result ≡ tables.option_fields (view object.now) }
{
    let machine = both(
        fields::optional_integer(Key::TimerLateUs, object),
        fields::boolean_or_false(Key::RefreshMinRtt, object),
    );
    let slack = both(
        fields::integer_or_zero(Key::ReportSlackUs, object),
        fields::integer_or_zero(Key::ReportSlackBytes, object),
    );
    both(machine, slack)
}

/// What stands at the keys of the options that only version 3 has: those of the window and the
/// samples, the packet threshold and how early timers may be, the words, and what is said of a
/// reset of the RTT, of the latest one, of the time threshold and of recovery.
type ChoiceFields = (
    (bool, bool),
    ((u64, u64), (Words, ((bool, bool), (u64, bool)))),
);

/// What the words for losses by number and for what the packet threshold counts name, if anything.
type Words = (Option<LossByNumber>, Option<ThresholdCounts>);

fn choice_fields(object: &Value) -> Result<ChoiceFields, Fault>
    ensures { result ≡ tables.choice_fields (view object.now) }
{
    let flags = both(
        fields::boolean_or_false(Key::WindowOvershoot, object),
        fields::boolean_or_false(Key::SampleElicitingOnly, object),
    );
    let numbers = both(
        fields::packet_threshold(object),
        fields::integer_or_zero(Key::TimerEarlyUs, object),
    );
    let words = both(
        fields::loss_by_number(object),
        fields::threshold_counts(object),
    );
    let rtts = both(
        fields::boolean_or_false(Key::ResetRtt, object),
        fields::boolean_or_false(Key::LatestRttLessDelay, object),
    );
    let lasts = both(
        fields::time_threshold_eighths(object),
        fields::boolean_or_false(Key::RecoveryByOrder, object),
    );
    let delays = both(rtts, lasts);
    let behind = both(words, delays);
    let rest = both(numbers, behind);
    both(flags, rest)
}

/// The options of a header, and what is judged behind them: its words, and the time threshold in
/// eighths of the RTT.
type SaidOptions = (Options, (Words, u64));

/// What is judged behind the options of a header that says nothing of it.
const NOTHING_BEHIND: (Words, u64) = (
    (Some(LossByNumber::Must), Some(ThresholdCounts::Numbers)),
    DEFAULT_TIME_THRESHOLD_EIGHTHS,
);

/// The options of a header of version 2, which says nothing of what the sender chooses: losses by
/// number must be declared.
fn options_without_choices(object: &Value) -> Result<SaidOptions, Fault>
    ensures { result ≡ tables.version_two_options (view object.now) }
{
    let (machine, slack) = option_fields(object)?;
    let (timer_late, refresh_min_rtt) = machine;
    let (report_slack_us, report_slack_bytes) = slack;
    let options = Options {
        timer_late,
        refresh_min_rtt,
        report_slack_us,
        report_slack_bytes,
        ..Options::default()
    };
    Ok((options, NOTHING_BEHIND))
}

/// What stands at the keys of all options of version 3.
fn option_and_choice_fields(object: &Value) -> Result<(OptionFields, ChoiceFields), Fault>
    ensures { result ≡ keys.both (tables.option_fields (view object.now))
        (tables.choice_fields (view object.now)) }
{
    both(option_fields(object), choice_fields(object))
}

/// The options of a header of version 3, but for whose window it is, and what is judged behind
/// them.
fn options_with_choices(object: &Value) -> Result<SaidOptions, Fault>
    ensures { result ≡ tables.version_three_options (view object.now) }
{
    let ((machine, slack), (flags, (numbers, behind))) = option_and_choice_fields(object)?;
    let (timer_late, refresh_min_rtt) = machine;
    let (report_slack_us, report_slack_bytes) = slack;
    let (window_overshoot, sample_eliciting_only) = flags;
    let (packet_threshold, timer_early_us) = numbers;
    let (words, (rtts, (time_threshold_eighths, recovery_by_order))) = behind;
    let (reset_rtt, latest_rtt_less_delay) = rtts;
    let options = Options {
        timer_late,
        refresh_min_rtt,
        report_slack_us,
        report_slack_bytes,
        window_overshoot,
        sample_eliciting_only,
        packet_threshold,
        timer_early_us,
        reset_rtt,
        latest_rtt_less_delay,
        recovery_by_order,
        ..Options::default()
    };
    Ok((options, (words, time_threshold_eighths)))
}

/// The options of a header. A key that its version has not is looked at no more than any key that
/// no table has.
fn options(object: &Value) -> Result<SaidOptions, Fault>
    ensures { result ≡ tables.options (view object.now) }
{
    match fields::required_integer(Key::Version, object) {
        Ok(version) if version == Version::Two.number() => options_without_choices(object),
        Ok(version) if version == Version::Three.number() => options_with_choices(object),
        _ => Ok((Options::default(), NOTHING_BEHIND)),
    }
}

/// A header whose value is out of its range as a fault of the value's key.
fn out_of_range(made: Result<Header, RangeFault>) -> Result<Header, Fault>
    ensures { result ≡ tables.out_of_range made }
{
    match made {
        Ok(header) => Ok(header),
        Err(fault) => Err(Fault::OutOfRange(fault.0)),
    }
}

/// The header in the version of this number.
fn of_version(version: u64, options: Options, header: Header) -> Result<Header, Fault>
    ensures { result ≡ tables.of_version version options header }
{
    if version == Version::One.number() {
        return Ok(header);
    }
    if version == Version::Two.number() {
        return out_of_range(header.with(options));
    }
    if version == Version::Three.number() {
        return out_of_range(header.choosing(options));
    }
    Err(Fault::Version)
}

/// The header with the losses by number that its word names, if anything.
fn with_losses(losses: Option<LossByNumber>, header: Header) -> Result<Header, Fault>
    ensures { result ≡ tables.with_losses losses header }
{
    match losses {
        None => Err(Fault::OutOfRange(Key::LossByNumber)),
        Some(LossByNumber::Must) => Ok(header),
        Some(LossByNumber::May) => out_of_range(header.choosing(Options {
            loss_by_number: LossByNumber::May,
            ..header.options()
        })),
    }
}

/// The header with what its word says that the packet threshold counts, if anything.
fn with_counts(counts: Option<ThresholdCounts>, header: Header) -> Result<Header, Fault>
    ensures { result ≡ tables.with_counts counts header }
{
    match counts {
        None => Err(Fault::OutOfRange(Key::ThresholdCounts)),
        Some(ThresholdCounts::Numbers) => Ok(header),
        Some(ThresholdCounts::Packets) => out_of_range(header.choosing(Options {
            threshold_counts: ThresholdCounts::Packets,
            ..header.options()
        })),
    }
}

/// The header with a time threshold of so many eighths of the RTT.
fn with_eighths(eighths: u64, header: Header) -> Result<Header, Fault>
    ensures { result ≡ tables.with_eighths eighths header }
{
    if eighths == DEFAULT_TIME_THRESHOLD_EIGHTHS {
        return Ok(header);
    }
    out_of_range(header.choosing(Options {
        time_threshold_eighths: eighths,
        ..header.options()
    }))
}

/// What stands at all keys of a header.
fn header_values(object: &Value) -> Result<(HeaderFields, SaidOptions), Fault>
    ensures { result ≡ keys.both (tables.header_fields (view object.now))
        (tables.options (view object.now)) }
{
    both(header_fields(object), options(object))
}

/// The header of a trace.
#[tactic(auto, unfolding(qa_format::specs::format::Tables::header_of))]
pub fn header_of(object: &Value) -> Result<Header, Fault>
    ensures { result ≡ tables.header_of (view object.now) }
{
    let (fields, (options, ((losses, counts), eighths))) = header_values(object)?;
    let ((version, role), ((unit, controller), (most, initial))) = fields;
    let (max_datagram_size, max_ack_delay) = most;
    let (initial_rtt, initial_window) = initial;
    let values = ConnectionValues {
        role,
        max_datagram_size,
        max_ack_delay,
        initial_rtt,
        initial_window,
    };
    let options = Options {
        controller,
        ..options
    };
    let header = out_of_range(Header::in_unit(unit, values))?;
    let header = of_version(version, options, header)?;
    let header = with_losses(losses, header)?;
    let header = with_counts(counts, header)?;
    with_eighths(eighths, header)
}

// ---- packets

/// What stands at the keys of a sent line, in the order of their table.
type SentFields = (
    Ticks,
    (Space, (PacketNumber, (u64, (bool, (bool, Permission))))),
);

fn sent_fields(object: &Value) -> Result<SentFields, Fault>
    ensures { result ≡ tables.sent_fields (view object.now) }
{
    let rest = both(
        fields::required_boolean(Key::InFlight, object),
        fields::permission(object),
    );
    let rest = both(fields::required_boolean(Key::Eliciting, object), rest);
    let rest = both(fields::size(object), rest);
    let rest = both(fields::number(object), rest);
    let rest = both(fields::space(object), rest);
    both(fields::time(object), rest)
}

/// A packet that was sent.
#[tactic(auto, unfolding(qa_format::specs::format::Tables::sent_of))]
pub fn sent_of(object: &Value) -> Result<Event, LineFault>
    ensures { Gives (λ event. event) result (tables.sent_of (view object.now)) }
{
    let (time, (space, (number, (size, (eliciting, (in_flight, permission)))))) = sent_fields(
        object,
    )?;
    if eliciting && !in_flight {
        return Err(LineFault::Fault(Fault::FlagsClash));
    }
    Ok(Event::Sent(SentPacket {
        time,
        space,
        number,
        size,
        eliciting,
        in_flight,
        permission,
    }))
}

/// What stands at the keys of an ack line, in the order of their table.
type AckFields = (Ticks, (Space, (Spans, (u64, bool))));

fn ack_fields(alloc: Global, object: &Value) -> Result<Result<AckFields, Fault>, AllocError>
    ensures { IfOk result (λ fields. fields ≡ tables.ack_fields (view object.now)) }
{
    let ranges = ranges(alloc, object)?;
    let rest = both(
        fields::integer_or_zero(Key::Delay, object),
        fields::boolean_or_false(Key::Limited, object),
    );
    let rest = both(ranges, rest);
    let rest = both(fields::space(object), rest);
    Ok(both(fields::time(object), rest))
}

/// An acknowledgment that came.
#[tactic(auto, unfolding(qa_format::specs::format::Tables::ack_of))]
pub fn ack_of(alloc: Global, object: &Value) -> Result<Event, LineFault>
    ensures { Gives (λ event. event) result (tables.ack_of (view object.now)) }
{
    let (time, (space, (ranges, (delay, app_limited)))) = ack_fields(alloc, object)??;
    Ok(Event::Ack(Ack {
        time,
        space,
        ranges,
        delay,
        app_limited,
    }))
}

/// What stands at the keys of a lost line, in the order of their table.
type LostFields = (Ticks, (Space, Spans));

fn lost_fields(alloc: Global, object: &Value) -> Result<Result<LostFields, Fault>, AllocError>
    ensures { IfOk result (λ fields. fields ≡ tables.lost_fields (view object.now)) }
{
    let ranges = ranges(alloc, object)?;
    let rest = both(fields::space(object), ranges);
    Ok(both(fields::time(object), rest))
}

/// Packets that were declared lost.
#[tactic(auto, unfolding(qa_format::specs::format::Tables::lost_of))]
pub fn lost_of(alloc: Global, object: &Value) -> Result<Event, LineFault>
    ensures { Gives (λ event. event) result (tables.lost_of (view object.now)) }
{
    let (time, (space, ranges)) = lost_fields(alloc, object)??;
    Ok(Event::Lost {
        time,
        space,
        ranges,
    })
}

// ---- the timer and the handshake

/// What stands at the keys of a timer line, in the order of their table.
type TimerFields = (Ticks, (TimerKind, Space));

fn timer_fields(object: &Value) -> Result<TimerFields, Fault>
    ensures { result ≡ tables.timer_fields (view object.now) }
{
    let rest = both(fields::kind(object), fields::space(object));
    both(fields::time(object), rest)
}

/// The loss detection timer that fired.
#[tactic(auto, unfolding(qa_format::specs::format::Tables::timer_of))]
pub fn timer_of(object: &Value) -> Result<Event, LineFault>
    ensures { Gives (λ event. event) result (tables.timer_of (view object.now)) }
{
    let (time, (kind, space)) = timer_fields(object)?;
    Ok(Event::Timer { time, kind, space })
}

/// The keys of a space that were discarded.
#[tactic(auto, unfolding(qa_format::specs::format::Tables::discard_of))]
pub fn discard_of(object: &Value) -> Result<Event, LineFault>
    ensures { Gives (λ event. event) result (tables.discard_of (view object.now)) }
{
    let (time, space) = both(fields::time(object), fields::discarded_space(object))?;
    Ok(Event::Discard { time, space })
}

/// The handshake that was confirmed.
#[tactic(auto, unfolding(qa_format::specs::format::Tables::confirmed_of))]
pub fn confirmed_of(object: &Value) -> Result<Event, LineFault>
    ensures { Gives (λ event. event) result (tables.confirmed_of (view object.now)) }
{
    let time = fields::time(object)?;
    Ok(Event::Confirmed { time })
}

/// The keys of the Handshake space that came.
#[tactic(auto, unfolding(qa_format::specs::format::Tables::keys_of))]
pub fn keys_of(object: &Value) -> Result<Event, LineFault>
    ensures { Gives (λ event. event) result (tables.keys_of (view object.now)) }
{
    let time = fields::time(object)?;
    Ok(Event::Keys { time })
}

// ---- a report of the sender's state

/// The values that a metrics line reports.
fn metric_values(object: &Value) -> Result<MetricValues, Fault>
    ensures { result ≡ tables.metric_values (view object.now) }
{
    let flight = both(
        fields::metric(Field::Ssthresh, object),
        fields::metric(Field::BytesInFlight, object),
    );
    let windows = both(fields::metric(Field::Window, object), flight);
    let samples = both(
        fields::metric(Field::LatestRtt, object),
        fields::metric(Field::MinRtt, object),
    );
    let estimates = both(
        fields::metric(Field::SmoothedRtt, object),
        fields::metric(Field::Rttvar, object),
    );
    let (windows, (samples, estimates)) = both(windows, both(samples, estimates))?;
    let (window, (ssthresh, bytes_in_flight)) = windows;
    let (latest_rtt, min_rtt) = samples;
    let (smoothed_rtt, rttvar) = estimates;
    Ok(MetricValues {
        window,
        ssthresh,
        bytes_in_flight,
        latest_rtt,
        min_rtt,
        smoothed_rtt,
        rttvar,
    })
}

/// A report of the sender's state.
#[tactic(auto, unfolding(qa_format::specs::format::Tables::metrics_of))]
pub fn metrics_of(object: &Value) -> Result<Event, LineFault>
    ensures { Gives (λ event. event) result (tables.metrics_of (view object.now)) }
{
    let (time, values) = both(fields::time(object), metric_values(object))?;
    Ok(Event::Metrics { time, values })
}
