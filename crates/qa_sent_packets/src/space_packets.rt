//! What is kept for one packet number space beside the packets.
use crate::packet::SentPacket;
use crate::unacknowledged::Unacknowledged;
use std::alloc::Global;

/// What is kept for one packet number space beside the packets. A packet's place is how many were
/// sent before it, over all spaces.
#[derive(Drop)]
pub(crate) struct SpacePackets {
    /// The places of the packets that an acknowledgment would still cover, by their numbers.
    pub(crate) unacknowledged: Unacknowledged,
    /// Before this place no packet of the space is open and in flight; the one at it is, or none
    /// is.
    pub(crate) next: u64,
    /// How many open packets of the space are ack-eliciting.
    pub(crate) awaiting: u64,
    /// The bytes of the open packets of the space that are in flight.
    pub(crate) in_flight: u64,
}

impl SpacePackets {
    ghost use Rattle.std.specs.Prelude.{◌≡◌, ◌+◌, ◌^◌, ◌<◌, ◌≤◌, []};
    ghost use Rattle.qa_sent_packets.specs.Fates.{flight_bytes};
    ghost use Rattle.qa_sent_packets.specs.BySpace.{awaiting_count};

    /// Of a space in which nothing was sent yet. Takes no memory.
    pub(crate) fn new(alloc: Global) -> SpacePackets
        ensures entries { result.unacknowledged.entries ≡ [] }
        ensures next { result.next ≡ 0 }
        ensures awaiting { result.awaiting ≡ 0 }
        ensures in_flight { result.in_flight ≡ 0 }
    {
        SpacePackets {
            unacknowledged: Unacknowledged::new(alloc),
            next: 0,
            awaiting: 0,
            in_flight: 0,
        }
    }

    /// A packet enters the sums, if it is open.
    pub(crate) fn put_on(&mut self, packet: &SentPacket)
        requires in_flight { self.old.in_flight + flight_bytes packet.now < 2 ^ 64 }
        requires awaiting { self.old.awaiting + awaiting_count packet.now < 2 ^ 64 }
        ensures entries { self.new.unacknowledged.entries ≡ self.old.unacknowledged.entries }
        ensures next { self.new.next ≡ self.old.next }
        ensures in_flight { self.new.in_flight ≡ self.old.in_flight + flight_bytes packet.now }
        ensures awaiting { self.new.awaiting ≡ self.old.awaiting + awaiting_count packet.now }
    {
        self.in_flight += packet.flight_bytes();
        self.awaiting += packet.awaiting_count();
    }

    /// A packet leaves the sums, which it is in if it is open.
    pub(crate) fn take_off(&mut self, packet: &SentPacket)
        requires in_flight { flight_bytes packet.now ≤ self.old.in_flight }
        requires awaiting { awaiting_count packet.now ≤ self.old.awaiting }
        ensures entries { self.new.unacknowledged.entries ≡ self.old.unacknowledged.entries }
        ensures next { self.new.next ≡ self.old.next }
        ensures in_flight { self.new.in_flight + flight_bytes packet.now ≡ self.old.in_flight }
        ensures awaiting { self.new.awaiting + awaiting_count packet.now ≡ self.old.awaiting }
    {
        self.in_flight -= packet.flight_bytes();
        self.awaiting -= packet.awaiting_count();
    }
}
