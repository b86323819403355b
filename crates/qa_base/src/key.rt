//! The keys of a line.
use crate::rule::Field;
use thiserror::Error;

/// A key of a line that is read.
#[derive(Clone, Copy, Debug, PartialEq, Eq)]
pub enum Key {
    Event,
    Version,
    Role,
    Unit,
    /// The key of a header; a reported window has its own.
    Window,
    MaxDatagramSize,
    MaxAckDelay,
    InitialRtt,
    InitialWindow,
    TimerLateUs,
    RefreshMinRtt,
    ReportSlackUs,
    ReportSlackBytes,
    WindowOvershoot,
    SampleElicitingOnly,
    PacketThreshold,
    TimerEarlyUs,
    LossByNumber,
    ThresholdCounts,
    ResetRtt,
    LatestRttLessDelay,
    TimeThresholdEighths,
    RecoveryByOrder,
    Time,
    Space,
    Number,
    Size,
    Eliciting,
    InFlight,
    Leave,
    Ranges,
    Delay,
    Limited,
    Kind,
    /// The key of a reported value.
    Metric(Field),
}

impl Key {
    ghost use Rattle.std.specs.Prelude.{◌≡◌};
    ghost use Rattle.qa_base.specs.values.Names.{key_name};

    /// The key as it is written in a line.
    pub fn name(self) -> &'static str
        ensures { result.now ≡ key_name self }
    {
        match self {
            Key::Event => "event",
            Key::Version => "version",
            Key::Role => "role",
            Key::Unit => "unit",
            Key::Window => "window",
            Key::MaxDatagramSize => "max_datagram_size",
            Key::MaxAckDelay => "max_ack_delay",
            Key::InitialRtt => "initial_rtt",
            Key::InitialWindow => "initial_window",
            Key::TimerLateUs => "timer_late_us",
            Key::RefreshMinRtt => "refresh_min_rtt",
            Key::ReportSlackUs => "report_slack_us",
            Key::ReportSlackBytes => "report_slack_bytes",
            Key::WindowOvershoot => "window_overshoot",
            Key::SampleElicitingOnly => "sample_eliciting_only",
            Key::PacketThreshold => "packet_threshold",
            Key::TimerEarlyUs => "timer_early_us",
            Key::LossByNumber => "loss_by_number",
            Key::ThresholdCounts => "threshold_counts",
            Key::ResetRtt => "reset_rtt",
            Key::LatestRttLessDelay => "latest_rtt_less_delay",
            Key::TimeThresholdEighths => "time_threshold_eighths",
            Key::RecoveryByOrder => "recovery_by_order",
            Key::Time => "time",
            Key::Space => "space",
            Key::Number => "number",
            Key::Size => "size",
            Key::Eliciting => "eliciting",
            Key::InFlight => "in_flight",
            Key::Leave => "leave",
            Key::Ranges => "ranges",
            Key::Delay => "delay",
            Key::Limited => "limited",
            Key::Kind => "kind",
            Key::Metric(field) => field.name(),
        }
    }
}

/// A value of a header is outside its range: the key of the first such.
#[derive(Clone, Copy, Debug, PartialEq, Eq, Error)]
#[error("the value of {} is out of range", .0.name())]
pub struct RangeFault(pub Key);
