//! The detection of the last event (RFC 9002, A.10), which a Lost line behind it may complete.
use qa_base::{Space, Ticks};
use qa_recovery::{Reno, Rtt};

/// Of an event that looked for losses, what a Lost line directly behind it asks that declares
/// packets which the event left to the sender.
#[derive(Clone, Copy)]
pub struct Detection {
    /// The space in which it looked for losses.
    pub space: Space,
    /// As of when it looked for them, in the unit of the trace.
    pub looked: u64,
    /// When it happened, by which recovery is told.
    pub mark: Ticks,
    /// The estimate of the round-trip time by which it looked: with its own sample, and before what
    /// persistent congestion does to it.
    pub rtt: Rtt,
    /// NewReno before it.
    pub before: Reno,
    /// The bytes in flight that it newly acknowledged.
    pub acknowledged: u64,
    /// Above the numbers that lie below the largest acknowledged one by the packet threshold.
    pub far_end: u64,
}
