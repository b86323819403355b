//! The ranges of the format's numbers.

/// The most bytes of a packet, and the greatest maximum datagram size: what a UDP datagram can
/// carry (RFC 9000, section 18.2).
pub const MAX_PACKET_SIZE: u64 = 65527;

/// The least maximum datagram size, in bytes (RFC 9000, section 14).
pub const MIN_DATAGRAM_SIZE: u64 = 1200;

/// The greatest `max_ack_delay`, 2^14 - 1 milliseconds, in microseconds (RFC 9000, section 18.2).
pub const MAX_MAX_ACK_DELAY: u64 = 16_383_000;

/// The greatest initial RTT, 1,000 seconds, in microseconds.
pub const MAX_INITIAL_RTT: u64 = 1_000_000_000;

/// The least packet threshold (RFC 9002, section 6.1.1).
pub const MIN_PACKET_THRESHOLD: u64 = 3;

/// The greatest packet threshold, 2^16 - 1.
pub const MAX_PACKET_THRESHOLD: u64 = 65535;

/// The least time threshold in eighths of the RTT, which RFC 9002, section 6.1.2, recommends.
pub const MIN_TIME_THRESHOLD_EIGHTHS: u64 = 9;

/// The greatest time threshold in eighths of the RTT, four times the RTT.
pub const MAX_TIME_THRESHOLD_EIGHTHS: u64 = 32;

/// The greatest initial window, 2^32 - 1 bytes.
pub const MAX_INITIAL_WINDOW: u64 = 4_294_967_295;

/// The greatest limit for how late a timer may be, 10^15 microseconds.
pub const MAX_TIMER_LATE: u64 = 1_000_000_000_000_000;

/// The greatest tolerance for how early a timer may be, 1,000 seconds, in microseconds.
pub const MAX_TIMER_EARLY_US: u64 = 1_000_000_000;

/// The greatest slack of reported times, 1,000 seconds, in microseconds.
pub const MAX_REPORT_SLACK_US: u64 = 1_000_000_000;

/// The most bytes of a line, its LF not counted.
pub const MAX_LINE_LENGTH: usize = 65536;

/// The most lines of a trace, 2^32 - 1.
pub const MAX_LINES: u64 = 4_294_967_295;

/// The greatest slack of reported bytes, 2^32 - 1.
pub const MAX_REPORT_SLACK_BYTES: u64 = 4_294_967_295;
