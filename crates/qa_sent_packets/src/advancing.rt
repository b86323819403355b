//! Where the first packet of a space stands that is open and in flight.
ghost use Rattle.std.specs.Prelude.{◌≡◌, ◌≤◌, ◌<◌, ◌+◌, true, false, drop, length, take};
ghost use Rattle.qa_sent_packets.specs.Held.{FirstFlies, IsBehind, IsIndexed, IsSpacePackets};
ghost use Rattle.qa_sent_packets.specs.Held.{NoneFlies};
ghost use Rattle.qa_base.specs.values.Limits.{max_lines};

use crate::packet::SentPacket;
use crate::queue::PacketQueue;
use crate::space_packets::SpacePackets;
use qa_base::Space;
use std::collections::VecDeque;

/// Whether a search from the front ends at this index: the packet there is one that flies, or there
/// is none.
fn ends_at(packets: &VecDeque<SentPacket>, space: Space, at: usize) -> bool
    ensures ends { result ≡ true → FirstFlies space (drop at packets.now.items) }
    ensures within { result ≡ false → at < length packets.now.items }
    ensures passes { result ≡ false → NoneFlies space (take at packets.now.items)
        → NoneFlies space (take (at + 1) packets.now.items) }
{
    match packets.get(at) {
        None => true,
        Some(packet) => packet.flies_in(space),
    }
}

impl PacketQueue {
    /// Raises the space's `next` until the packet there flies or there is none. Each place is
    /// passed once in the life of a space, since `next` never falls.
    pub(crate) fn advance(&self, space_packets: &mut SpacePackets, space: Space)
        requires few { self.now.dropped + length self.now.packets.items ≤ max_lines }
        requires indexed { IsIndexed space self.now.dropped self.now.packets.items
            space_packets.old }
        requires behind { IsBehind space self.now.dropped self.now.packets.items
            space_packets.old.next }
        ensures { IsSpacePackets space self.now.dropped self.now.packets.items space_packets.new }
    {
        let mut at = (space_packets.next - self.dropped) as usize;
        while !ends_at(&self.packets, space, at) {
            at += 1;
        }
        space_packets.next = self.dropped + at as u64;
    }
}
