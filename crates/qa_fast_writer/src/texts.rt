//! The keys of a line, and the names that it has as values, in quotes.
#![tactic(auto, unfolding(json::specs::Print::escape_byte))]

ghost use Rattle.std.specs.Prelude.{◌≡◌};
ghost use Rattle.json.specs.Print.{quoted};
ghost use Rattle.qa_base.specs.declared.key.Key.TheVariants as keys;
ghost use Rattle.qa_base.specs.values.Names.{kind_name, line_kind_name, permission_name, space_name};
ghost use Rattle.qa_fast_writer.specs.Members.{before_value};

use qa_base::{Field, Key, LineKind, Permission, Space, TimerKind};

/// A comma, a key and its colon.
pub(crate) fn before(key: Key) -> &'static [u8]
    ensures { result.now ≡ before_value key }
{
    match key {
        Key::Event => b",\"event\":",
        Key::Version => b",\"version\":",
        Key::Role => b",\"role\":",
        Key::Unit => b",\"unit\":",
        Key::Window => b",\"window\":",
        Key::MaxDatagramSize => b",\"max_datagram_size\":",
        Key::MaxAckDelay => b",\"max_ack_delay\":",
        Key::InitialRtt => b",\"initial_rtt\":",
        Key::InitialWindow => b",\"initial_window\":",
        Key::TimerLateUs => b",\"timer_late_us\":",
        Key::RefreshMinRtt => b",\"refresh_min_rtt\":",
        Key::ReportSlackUs => b",\"report_slack_us\":",
        Key::ReportSlackBytes => b",\"report_slack_bytes\":",
        Key::WindowOvershoot => b",\"window_overshoot\":",
        Key::SampleElicitingOnly => b",\"sample_eliciting_only\":",
        Key::PacketThreshold => b",\"packet_threshold\":",
        Key::TimerEarlyUs => b",\"timer_early_us\":",
        Key::LossByNumber => b",\"loss_by_number\":",
        Key::ThresholdCounts => b",\"threshold_counts\":",
        Key::ResetRtt => b",\"reset_rtt\":",
        Key::LatestRttLessDelay => b",\"latest_rtt_less_delay\":",
        Key::TimeThresholdEighths => b",\"time_threshold_eighths\":",
        Key::RecoveryByOrder => b",\"recovery_by_order\":",
        Key::Time => b",\"time\":",
        Key::Space => b",\"space\":",
        Key::Number => b",\"number\":",
        Key::Size => b",\"size\":",
        Key::Eliciting => b",\"eliciting\":",
        Key::InFlight => b",\"in_flight\":",
        Key::Leave => b",\"leave\":",
        Key::Ranges => b",\"ranges\":",
        Key::Delay => b",\"delay\":",
        Key::Limited => b",\"limited\":",
        Key::Kind => b",\"kind\":",
        Key::Metric(field) => before_reported(field),
    }
}

/// A comma, the key of a reported value and its colon.
fn before_reported(field: Field) -> &'static [u8]
    ensures { result.now ≡ before_value (keys.Metric field) }
{
    match field {
        Field::Window => b",\"window\":",
        Field::Ssthresh => b",\"ssthresh\":",
        Field::BytesInFlight => b",\"bytes_in_flight\":",
        Field::LatestRtt => b",\"latest_rtt\":",
        Field::MinRtt => b",\"min_rtt\":",
        Field::SmoothedRtt => b",\"smoothed_rtt\":",
        Field::Rttvar => b",\"rttvar\":",
    }
}

/// The name of a kind of lines.
pub(crate) fn line_kind_in_quotes(kind: LineKind) -> &'static [u8]
    ensures { result.now ≡ quoted (line_kind_name kind) }
{
    match kind {
        LineKind::Header => b"\"header\"",
        LineKind::Sent => b"\"sent\"",
        LineKind::Ack => b"\"ack\"",
        LineKind::Lost => b"\"lost\"",
        LineKind::Timer => b"\"timer\"",
        LineKind::Discard => b"\"discard\"",
        LineKind::Confirmed => b"\"confirmed\"",
        LineKind::Keys => b"\"keys\"",
        LineKind::Metrics => b"\"metrics\"",
    }
}

/// The name of a space.
pub(crate) fn space_in_quotes(space: Space) -> &'static [u8]
    ensures { result.now ≡ quoted (space_name space) }
{
    match space {
        Space::Initial => b"\"initial\"",
        Space::Handshake => b"\"handshake\"",
        Space::App => b"\"app\"",
    }
}

/// The name of a leave by which a packet was sent.
pub(crate) fn permission_in_quotes(permission: Permission) -> &'static [u8]
    ensures { result.now ≡ quoted (permission_name permission) }
{
    match permission {
        Permission::Window => b"\"window\"",
        Permission::Probe => b"\"probe\"",
        Permission::Recovery => b"\"recovery\"",
    }
}

/// The name of a kind of timers.
pub(crate) fn timer_kind_in_quotes(kind: TimerKind) -> &'static [u8]
    ensures { result.now ≡ quoted (kind_name kind) }
{
    match kind {
        TimerKind::Loss => b"\"loss\"",
        TimerKind::Pto => b"\"pto\"",
    }
}
