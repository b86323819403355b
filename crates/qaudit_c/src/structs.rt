//! The structs that C hands in: events and a header by their fields.

/// A packet that was sent.
#[repr(C)]
#[derive(Clone, Copy, PartialEq, Eq)]
pub struct SentPacket {
    pub time: u64,
    pub number: u64,
    pub size: u64,
    pub space: u32,
    pub permission: u32,
    pub eliciting: bool,
    pub in_flight: bool,
}

/// The packet numbers from `least` to `greatest`, both among them.
#[repr(C)]
#[derive(Clone, Copy, PartialEq, Eq)]
pub struct PacketRange {
    pub least: u64,
    pub greatest: u64,
}

/// An acknowledgment, beside its ranges.
#[repr(C)]
#[derive(Clone, Copy, PartialEq, Eq)]
pub struct Acknowledgment {
    pub time: u64,
    pub delay: u64,
    pub space: u32,
    pub app_limited: bool,
}

/// The timer that fired.
#[repr(C)]
#[derive(Clone, Copy, PartialEq, Eq)]
pub struct FiredTimer {
    pub time: u64,
    pub kind: u32,
    pub space: u32,
}

/// What a sender reports of itself; a value counts where its flag is set.
#[repr(C)]
#[derive(Clone, Copy, PartialEq, Eq)]
pub struct Metrics {
    pub time: u64,
    pub window: u64,
    pub ssthresh: u64,
    pub bytes_in_flight: u64,
    pub latest_rtt: u64,
    pub min_rtt: u64,
    pub smoothed_rtt: u64,
    pub rttvar: u64,
    pub has_window: bool,
    pub has_ssthresh: bool,
    pub has_bytes_in_flight: bool,
    pub has_latest_rtt: bool,
    pub has_min_rtt: bool,
    pub has_smoothed_rtt: bool,
    pub has_rttvar: bool,
}

/// A header; a value with a flag counts where the flag is set, and is the default elsewhere.
#[repr(C)]
#[derive(Clone, Copy, PartialEq, Eq)]
pub struct TraceHeader {
    pub max_datagram_size: u64,
    pub max_ack_delay: u64,
    pub initial_rtt: u64,
    pub initial_window: u64,
    pub timer_late_us: u64,
    pub timer_early_us: u64,
    pub report_slack_us: u64,
    pub report_slack_bytes: u64,
    pub packet_threshold: u64,
    pub time_threshold_eighths: u64,
    pub role: u32,
    pub unit: u32,
    pub window: u32,
    pub loss_by_number: u32,
    pub threshold_counts: u32,
    pub has_max_ack_delay: bool,
    pub has_initial_rtt: bool,
    pub has_initial_window: bool,
    pub has_timer_late_us: bool,
    pub has_packet_threshold: bool,
    pub has_time_threshold_eighths: bool,
    pub refresh_min_rtt: bool,
    pub window_overshoot: bool,
    pub sample_eliciting_only: bool,
    pub reset_rtt: bool,
    pub latest_rtt_less_delay: bool,
    pub recovery_by_order: bool,
}
