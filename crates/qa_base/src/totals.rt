//! What is reported of the machine.

/// The state of the machine after the events that were admitted.
///
/// `window`, `ssthresh` and `bytes_in_flight` are in bytes, the four values of the RTT in the unit
/// of times.
#[derive(Clone, Copy, Debug, PartialEq, Eq)]
pub struct Totals {
    /// How many events were admitted.
    pub events: u64,
    /// The congestion window (RFC 9002, appendix B).
    pub window: u64,
    /// The slow start threshold, where there is one.
    pub ssthresh: Option<u64>,
    /// The sum of the sizes of open in-flight packets.
    pub bytes_in_flight: u64,
    /// The latest RTT sample; 0 before the first.
    pub latest_rtt: u64,
    /// The least RTT sample; 0 before the first.
    pub min_rtt: u64,
    /// The smoothed RTT.
    pub smoothed_rtt: u64,
    /// The variation of the RTT.
    pub rttvar: u64,
    /// How many probe timeouts there were since the last reset.
    pub pto_count: u64,
    /// How many packets are detected as lost and not yet declared.
    pub owed: u64,
}
