//! The facts of each rule.
use qa_base::{Controller, Due, PacketNumber, Space, Ticks, Totals};
use qa_packet_numbers::Ranges;

/// How far a packet lies below the largest acknowledged one, by the packets that were sent (RFC
/// 9002, section 6.1.1). It is told where the header has the packet threshold count those.
#[derive(Clone, Copy)]
pub struct Counted {
    /// The packet's number.
    pub number: PacketNumber,
    /// The largest acknowledged number of its space.
    pub largest: PacketNumber,
    /// How many packets of the space were sent with a number above it, up to that.
    pub packets: u64,
    /// The packet threshold.
    pub threshold: u64,
}

/// The packets that are owed as lost (RFC 9002, section 6.1).
#[derive(Drop)]
pub struct Owed {
    /// Their packet number space; None where nothing is owed.
    pub space: Option<Space>,
    /// Their numbers.
    pub numbers: Ranges,
    /// How far the first of them lies below the largest acknowledged packet.
    pub counted: Option<Counted>,
}

/// What the next Lost line may name beyond what is owed, where the header lets a sender spare such
/// packets (RFC 9002, section 6.1.1).
#[derive(Drop)]
pub struct Free {
    /// The space in which the last event looked for losses; None where it did not.
    pub space: Option<Space>,
    /// Their numbers.
    pub numbers: Ranges,
}

/// The oldest packet of a space that is open and in flight.
#[derive(Clone, Copy)]
pub struct Oldest {
    /// Its number.
    pub number: PacketNumber,
    /// When it was sent.
    pub sent: Ticks,
}

/// How a report is compared with the machine.
#[derive(Clone, Copy)]
pub struct Comparison {
    /// Whose window packets are judged by. One that the sender reports is compared with nothing,
    /// nor is its `ssthresh`.
    pub controller: Controller,
    /// By how much a reported number of bytes may differ.
    pub slack_bytes: u64,
    /// By how much a reported time may differ, in the unit of the trace.
    pub slack_time: u128,
}

/// Why a deadline is what it is. Times are in the unit of the trace.
#[derive(Clone, Copy)]
pub enum Basis {
    /// The loss delay behind the oldest packet of the space that is open and in flight: the time
    /// threshold of the greater of the two RTTs, and at least `kGranularity` (RFC 9002, section
    /// 6.1.2).
    Packet {
        /// The packet's number.
        number: PacketNumber,
        /// When it was sent.
        sent: Ticks,
        /// `latest_rtt`.
        latest_rtt: u64,
        /// `smoothed_rtt`.
        smoothed_rtt: u64,
        /// `kTimeThreshold` of the sender, in eighths of the RTT.
        eighths: u64,
    },
    /// A probe timeout behind the last ack-eliciting packet of the space (section 6.2.1).
    Eliciting {
        /// When the packet was sent.
        sent: Ticks,
        /// `smoothed_rtt`.
        smoothed_rtt: u64,
        /// `rttvar`.
        rttvar: u64,
        /// By how much the peer may delay its acknowledgments in the space.
        peer_delay: u64,
        /// The probe timeouts before it, for each of which it is doubled.
        pto_count: u64,
    },
    /// A probe timeout behind the last event that set the timer, which a client keeps until it is
    /// validated (section 6.2.2.1).
    Kept {
        /// When that event happened.
        set: Ticks,
        /// `smoothed_rtt`.
        smoothed_rtt: u64,
        /// `rttvar`.
        rttvar: u64,
        /// The probe timeouts before it, for each of which it is doubled.
        pto_count: u64,
    },
}

/// Why an event breaks a rule, or the end of a trace V17: the facts of that rule before the event.
/// Times are in the unit of the trace, sizes and windows in bytes.
#[derive(Drop)]
pub enum Cause {
    /// V1: the event before was later.
    TimeBack {
        /// The time of the event before; None before any.
        before: Option<Ticks>,
    },
    /// V2: a loss is owed.
    LossOwed {
        /// What is owed.
        owed: Owed,
    },
    /// V3: nothing is owed in the space of the Lost line, nor is it free.
    LossNotOwed {
        /// What is owed, in another space or none.
        owed: Owed,
        /// What is free, in another space or none; None where the header lets a sender spare
        /// nothing.
        free: Option<Free>,
        /// How far the first number of the line lies below the largest acknowledged packet.
        counted: Option<Counted>,
    },
    /// V4: the Lost line does not name all that is owed, or names what is neither owed nor free.
    LossSet {
        /// What is owed.
        owed: Owed,
        /// What is free; None where the header lets a sender spare nothing.
        free: Option<Free>,
        /// The numbers of it that the line does not name.
        unnamed: Ranges,
        /// The numbers that the line names and that are neither owed nor free.
        unowed: Ranges,
        /// How far the least of these lies below the largest acknowledged packet.
        counted: Option<Counted>,
    },
    /// V5: the keys of the space were discarded.
    SpaceGone,
    /// V6: a packet of the space has the number or a higher one.
    NumberNotHigher {
        /// The greatest number that was sent in the space; None before any.
        greatest: Option<PacketNumber>,
    },
    /// V7: the packet goes past the congestion window.
    PastWindow {
        /// The bytes in flight before it.
        in_flight: u64,
        /// The congestion window.
        window: u64,
        /// Whether the last packet may take the bytes in flight past the window.
        overshoot: bool,
    },
    /// V8: the probe is past what a probe timeout allows.
    PastProbe {
        /// The bytes that a probe timeout allows: two datagrams.
        allowance: u64,
        /// The bytes of probes since the last probe timeout; None before any.
        spent: Option<u128>,
    },
    /// V9: the packet is not the one of an entry into recovery.
    PastRecovery {
        /// The packets marked for recovery since the last entry into it; None before any.
        spent: Option<u64>,
    },
    /// V10: a number was never sent.
    AckUnsent {
        /// The least number that is acknowledged and was not sent.
        unsent: Option<PacketNumber>,
    },
    /// V11: no timer is set.
    TimerNotSet,
    /// V12: the timer is set for another cause or space.
    TimerOther {
        /// What it is set for.
        due: Option<Due>,
    },
    /// V13: the timer is set for later.
    TimerEarly {
        /// What it is set for.
        due: Option<Due>,
        /// Why then.
        basis: Option<Basis>,
        /// How much earlier it may go off.
        early: u64,
    },
    /// V14: the probe of the last probe timeout is due.
    ProbeOwed {
        /// The space of that probe timeout.
        space: Option<Space>,
    },
    /// V15: the handshake is not confirmed.
    NotConfirmed,
    /// V16: a reported value is not the machine's.
    Metric {
        /// What the machine holds.
        held: Totals,
        /// How they are compared.
        by: Comparison,
    },
    /// V17: a loss is owed at the end of the trace.
    OwedAtEnd {
        /// What is owed.
        owed: Owed,
    },
    /// V18: the timer should have gone off before.
    TimerLate {
        /// What it is set for by packets.
        due: Option<Due>,
        /// Since when it is set so; 0 where the header has no limit.
        since: Ticks,
        /// By how much it may be late; None: by any time.
        limit: Option<u128>,
    },
    /// V19: the reported window is too great behind persistent congestion.
    CollapseMissing {
        /// What persistent congestion leaves of the window: two datagrams.
        least: u64,
        /// The bytes that were newly acknowledged since; None where there is no such congestion.
        acknowledged: Option<u64>,
        /// By how many bytes a reported window may differ.
        slack: u64,
        /// The window that is reported, where it is another than the one before.
        reported: Option<u64>,
    },
}
