//! A packet as it is kept.
use crate::fate::Fate;
use qa_base::{PacketNumber, Space, Ticks};

/// A packet that was sent, and what became of it (RFC 9002, A.1.1). Its fields take 32 bytes in
/// this order.
#[derive(Clone, Copy)]
pub struct SentPacket {
    /// When it was sent.
    pub time: Ticks,
    /// Its number in its space.
    pub number: PacketNumber,
    /// Its size in bytes, 1 to 65527.
    pub size: u64,
    /// How many events came before it, so that recovery can be told by their order (section
    /// 7.3.2).
    pub place: u32,
    /// Its packet number space.
    pub space: Space,
    /// Whether it is ack-eliciting.
    pub eliciting: bool,
    /// Whether it counts toward the bytes in flight.
    pub in_flight: bool,
    /// What became of it.
    pub fate: Fate,
}

impl SentPacket {
    ghost use Rattle.std.specs.Prelude.{◌≡◌};
    ghost use Rattle.qa_sent_packets.specs.Fates.{flight_bytes, is_closed, is_flying, is_open};
    ghost use Rattle.qa_sent_packets.specs.Fates.{is_bare, is_owed, is_waiting};
    ghost use Rattle.qa_sent_packets.specs.BySpace.{awaiting_count};
    ghost use Rattle.qa_sent_packets.specs.Walks.{mark_of};

    /// When it was sent, by which recovery is told: its time, or the place of its line where the
    /// order of the lines decides (RFC 9002, section 7.3.2, B.5).
    pub fn mark(&self, by_order: bool) -> Ticks
        ensures { result ≡ mark_of by_order self.now }
    {
        if by_order {
            Ticks::of(u64::from(self.place))
        } else {
            self.time
        }
    }

    /// Whether it is open.
    pub(crate) fn is_open(&self) -> bool
        ensures { result ≡ is_open self.now.fate }
    {
        self.fate == Fate::Open
    }

    /// Whether it is owed.
    pub(crate) fn is_owed(&self) -> bool
        ensures { result ≡ is_owed self.now.fate }
    {
        self.fate == Fate::Owed
    }

    /// Whether it is neither open nor owed.
    pub(crate) fn is_closed(&self) -> bool
        ensures { result ≡ is_closed self.now }
    {
        !self.is_open() && !self.is_owed()
    }

    /// Whether it is open, and neither ack-eliciting nor in flight: nothing but an acknowledgment
    /// or a discard asks for it.
    pub(crate) fn is_bare(&self) -> bool
        ensures { result ≡ is_bare self.now }
    {
        self.is_open() && !(self.eliciting || self.in_flight)
    }

    /// Whether it is of the space, and an acknowledgment would still cover it.
    pub(crate) fn waits_in(&self, space: Space) -> bool
        ensures { result ≡ is_waiting space self.now }
    {
        self.space == space && self.fate != Fate::Acknowledged && self.fate != Fate::Discarded
    }

    /// Whether it is of the space, open and in flight.
    pub(crate) fn flies_in(&self, space: Space) -> bool
        ensures { result ≡ is_flying space self.now }
    {
        self.space == space && self.in_flight && self.is_open()
    }

    /// What it adds to the bytes in flight (RFC 9002, B.4).
    pub(crate) fn flight_bytes(&self) -> u64
        ensures { result ≡ flight_bytes self.now }
    {
        if self.in_flight && self.is_open() {
            self.size
        } else {
            0
        }
    }

    /// What it adds to the count of the open packets that are ack-eliciting.
    pub(crate) fn awaiting_count(&self) -> u64
        ensures { result ≡ awaiting_count self.now }
    {
        if self.eliciting && self.is_open() {
            1
        } else {
            0
        }
    }

    /// What it adds to the count of the packets that were declared lost.
    pub(crate) fn lost_count(&self) -> u64 {
        if self.fate == Fate::DeclaredLost {
            1
        } else {
            0
        }
    }
}
