//! The keys at which the data of records is read, and what their values have to be.
ghost use Rattle.std.specs.Prelude.{◌≡◌};
ghost use Rattle.qa_base.specs.values.Limits.{in_range};
ghost use Rattle.qa_qlog.specs.Keys as keys;

use qa_base::PacketNumber;
use thiserror::Error;

/// The most bytes of a packet: those that a UDP datagram can carry (RFC 9000, section 18.2).
const MAX_SIZE: u64 = 65_527;
/// The largest `ack_delay_exponent` (RFC 9000, section 18.2).
const MAX_EXPONENT: u64 = 20;

/// A key at which the data of a record is read.
#[derive(Clone, Copy, Debug, PartialEq, Eq)]
pub enum Key {
    /// The number of a packet.
    PacketNumber,
    /// The size of a packet, at whatever key its draft has it.
    Length,
    /// How many bytes the frames of a packet have, or the data of one.
    PayloadLength,
    /// The length of a packet that its header says.
    HeaderLength,
    /// How many bytes a frame has without data.
    FrameLength,
    /// At which byte of its stream the data of a frame begin.
    Offset,
    /// The frames of a packet.
    Frames,
    /// The ranges of an ACK frame.
    AckedRanges,
    /// The delay of an ACK frame.
    AckDelay,
    /// How many packets with ECN-CE came, by an ACK frame.
    Ce,
    /// The packets that are lost.
    Packets,
    /// The traces of a document.
    Traces,
    /// The records of a trace.
    Events,
    /// The last sample of the round-trip time.
    LatestRtt,
    /// The least sample of the round-trip time.
    MinRtt,
    /// The smoothed round-trip time.
    SmoothedRtt,
    /// The variation of the round-trip time.
    RttVariance,
    /// The congestion window, at whatever key its draft has it.
    CongestionWindow,
    /// The slow start threshold.
    Ssthresh,
    /// The bytes in flight.
    BytesInFlight,
    /// How many probe timeouts came one after another.
    PtoCount,
    /// After how long a timer expires.
    Delta,
    /// How long an endpoint may delay acknowledgments.
    MaxAckDelay,
    /// By how many bits the delay of an ACK frame is shifted.
    AckDelayExponent,
    /// The round-trip time that is assumed before the first sample.
    InitialRtt,
    /// The size of a full packet.
    MaxDatagramSize,
    /// The congestion window of the first round trip.
    InitialCongestionWindow,
    /// The packet threshold.
    ReorderingThreshold,
    /// The time threshold, as a multiple of the round-trip time.
    TimeThreshold,
}

impl Key {
    /// The key, as most drafts write it.
    pub fn name(self) -> &'static str
        ensures { result.now ≡ keys.name_of self }
    {
        match self {
            Key::PacketNumber => "packet_number",
            Key::Length => "raw.length",
            Key::PayloadLength => "payload_length",
            Key::HeaderLength => "header.length",
            Key::FrameLength => "length",
            Key::Offset => "offset",
            Key::Frames => "frames",
            Key::AckedRanges => "acked_ranges",
            Key::AckDelay => "ack_delay",
            Key::Ce => "ce",
            Key::Packets => "packets",
            Key::Traces => "traces",
            Key::Events => "events",
            Key::LatestRtt => "latest_rtt",
            Key::MinRtt => "min_rtt",
            Key::SmoothedRtt => "smoothed_rtt",
            Key::RttVariance => "rtt_variance",
            Key::CongestionWindow => "congestion_window",
            Key::Ssthresh => "ssthresh",
            Key::BytesInFlight => "bytes_in_flight",
            Key::PtoCount => "pto_count",
            Key::Delta => "delta",
            Key::MaxAckDelay => "max_ack_delay",
            Key::AckDelayExponent => "ack_delay_exponent",
            Key::InitialRtt => "initial_rtt",
            Key::MaxDatagramSize => "max_datagram_size",
            Key::InitialCongestionWindow => "initial_congestion_window",
            Key::ReorderingThreshold => "reordering_threshold",
            Key::TimeThreshold => "time_threshold",
        }
    }

    /// The least whole number that it may have.
    fn least(self) -> u64
        ensures { result ≡ keys.least self }
    {
        match self {
            Key::Length => 1,
            _ => 0,
        }
    }

    /// The largest whole number that it may have.
    fn largest(self) -> u64
        ensures { result ≡ keys.largest self }
    {
        match self {
            Key::Length => MAX_SIZE,
            Key::PayloadLength | Key::HeaderLength | Key::FrameLength => MAX_SIZE,
            Key::AckDelayExponent => MAX_EXPONENT,
            Key::CongestionWindow | Key::Ssthresh | Key::BytesInFlight => u64::MAX,
            _ => PacketNumber::MAX,
        }
    }

    /// The number, if it may have that.
    pub(crate) fn ranged(self, number: u64) -> Option<u64>
        ensures { result ≡ in_range (keys.least self) (keys.largest self) number }
    {
        if self.least() <= number && number <= self.largest() {
            Some(number)
        } else {
            None
        }
    }
}

/// Why a record does not say what it has to.
#[derive(Clone, Copy, Debug, PartialEq, Eq, Error)]
pub enum NoValue {
    /// It has nothing at this key, or null.
    #[error("no {}", .0.name())]
    Missing(Key),
    /// Its value at this key is of another kind.
    #[error("{} is of another kind", .0.name())]
    OtherKind(Key),
    /// Its value at this key is no whole number of 64 bits.
    #[error("{} is no whole number of 64 bits", .0.name())]
    NotWhole(Key),
    /// Its value at this key is no number.
    #[error("{} is no number", .0.name())]
    NotANumber(Key),
    /// Its value at this key is a number whose first digit is far from the point.
    #[error("{} is a number of too many digits", .0.name())]
    TooManyDigits(Key),
    /// Its value at this key is a number out of range.
    #[error("{} is out of range", .0.name())]
    OutOfRange(Key),
}
