//! The constants of RFC 9002 (A.2 and B.1), each with the RFC's name for it.
ghost use Rattle.std.specs.Prelude.{◌≡◌, ◌≤◌};
ghost use Rattle.qa_base.specs.values.Constants.{minimum_window as minimum_window_of};
ghost use Rattle.qa_base.specs.values.Limits.{max_packet_size};

// ---- loss detection (A.2)

/// `kPacketThreshold` where a header names none: a packet this many numbers below an acknowledged
/// one is lost (section 6.1.1).
pub const DEFAULT_PACKET_THRESHOLD: u64 = 3;

/// `kTimeThreshold` where a header names none is 9/8 of the RTT (section 6.1.2): so many parts ..
pub const DEFAULT_TIME_THRESHOLD_EIGHTHS: u64 = 9;

/// .. of an RTT that is divided by this.
pub const TIME_THRESHOLD_DIVISOR: u64 = 8;

/// `kGranularity`: a millisecond, in microseconds (section 6.1.2).
pub const GRANULARITY_US: u64 = 1000;

/// `kInitialRtt`: the RTT in microseconds that is assumed before the first sample (section 6.2.2).
pub const DEFAULT_INITIAL_RTT: u64 = 333_000;

// ---- congestion control (B.1)

/// `kInitialWindow` is this many datagrams (section 7.2) ..
pub const INITIAL_WINDOW_DATAGRAMS: u64 = 10;

/// .. but no more than this many bytes, or two datagrams where they are more.
pub const INITIAL_WINDOW_BYTES: u64 = 14_720;

/// `kMinimumWindow`: two datagrams, in bytes (section 7.2).
pub fn minimum_window(max_datagram_size: u64) -> u64
    requires { max_datagram_size ≤ max_packet_size }
    ensures { result ≡ minimum_window_of max_datagram_size }
{
    2 * max_datagram_size
}

/// `kLossReductionFactor` is 1/2 (section 7.3.2): what a loss divides the window by.
pub const LOSS_REDUCTION_DIVISOR: u64 = 2;

/// `kPersistentCongestionThreshold`: of how many probe timeouts persistent congestion is made
/// (section 7.6.1).
pub const PERSISTENT_CONGESTION_THRESHOLD: u64 = 3;

// ---- values that the RFCs give without a name

/// A probe timeout allows this many datagrams (section 6.2.4).
pub const PROBE_DATAGRAMS: u64 = 2;

/// The peer's `max_ack_delay` in microseconds where it sends none (RFC 9000, section 18.2).
pub const DEFAULT_MAX_ACK_DELAY: u64 = 25_000;
