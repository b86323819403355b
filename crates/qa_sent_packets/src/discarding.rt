//! The keys of a space are discarded.
ghost use Rattle.std.specs.Prelude.{◌≡◌, ◌<◌, [], length, map, slice_index_or, slice_set};
ghost use Rattle.qa_sent_packets.specs.Steps.{discarded_in};
ghost use Rattle.qa_sent_packets.specs.declared.packet.SentPacket.{SentPacket};

use crate::fate::Fate;
use crate::packet::SentPacket;
use crate::space_packets::SpacePackets;
use qa_base::Space;
use std::collections::VecDeque;

impl SpacePackets {
    /// Lets go of all packets of the space, which stand before this place.
    pub(crate) fn clear(&mut self, end: u64)
        ensures entries { self.new.unacknowledged.entries ≡ [] }
        ensures next { self.new.next ≡ end }
        ensures awaiting { self.new.awaiting ≡ 0 }
        ensures in_flight { self.new.in_flight ≡ 0 }
    {
        self.unacknowledged.clear();
        self.next = end;
        self.awaiting = 0;
        self.in_flight = 0;
    }
}

/// Discards the packets of the space that were not acknowledged.
pub(crate) fn discard_all(packets: &mut VecDeque<SentPacket>, space: Space)
    ensures { packets.new.items ≡ map (discarded_in space) packets.old.items }
{
    for at in 0..packets.len() {
        discard_at(packets, space, at);
    }
}

/// Discards the packet at this index, if it is one of them.
pub(crate) fn discard_at(packets: &mut VecDeque<SentPacket>, space: Space, at: usize)
    requires { at < length packets.old.items }
    ensures { (p : SentPacket) → p ≡ slice_index_or packets.old.items at p
        → packets.new.items ≡ slice_set packets.old.items at (discarded_in space p) }
{
    let packet = &mut packets[at];
    if packet.waits_in(space) {
        packet.fate = Fate::Discarded;
    }
}
