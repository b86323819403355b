//! Packets that are of no more use are dropped, and others are set aside.
ghost use Rattle.std.specs.Prelude.{◌≡◌, ◌≤◌, ◌+◌, ◌∷◌, ℕ, suc, true, drop, length, List};
ghost use Rattle.qa_base.specs.declared.space.Space.TheVariants as spaces;
ghost use Rattle.qa_base.specs.values.Limits.{max_lines};
ghost use Rattle.qa_sent_packets.specs.Dropping.{is_first_shed, is_shed};
ghost use Rattle.qa_sent_packets.specs.Held.{IsSpacePackets, unacknowledged_in};
ghost use Rattle.qa_sent_packets.specs.declared.packet.SentPacket.{SentPacket};

use crate::packet::SentPacket;
use crate::queue::PacketQueue;
use crate::space_packets::SpacePackets;
use qa_base::{PerSpace, Space};

/// Lets go of the first packet, which is closed or bare, in the queue and in what is kept for each
/// space.
pub(crate) fn let_go(queue: &mut PacketQueue, by_space: &mut PerSpace<SpacePackets>)
    requires first { is_first_shed queue.old.packets.items ≡ true }
    requires few { queue.old.dropped + length queue.old.packets.items ≤ max_lines }
    ensures dropped { queue.new.dropped ≡ queue.old.dropped + 1 }
    ensures packets { queue.new.packets.items ≡ drop 1 queue.old.packets.items }
    ensures initial { IsSpacePackets spaces.Initial queue.old.dropped queue.old.packets.items
        by_space.old.initial
        → IsSpacePackets spaces.Initial queue.new.dropped queue.new.packets.items
        by_space.new.initial }
    ensures handshake { IsSpacePackets spaces.Handshake queue.old.dropped queue.old.packets.items
        by_space.old.handshake
        → IsSpacePackets spaces.Handshake queue.new.dropped queue.new.packets.items
        by_space.new.handshake }
    ensures app { IsSpacePackets spaces.App queue.old.dropped queue.old.packets.items
        by_space.old.app
        → IsSpacePackets spaces.App queue.new.dropped queue.new.packets.items by_space.new.app }
{
    let packet = queue.packets[0];
    queue.packets.pop_front();
    queue.dropped += 1;
    let dropped = queue.dropped;
    by_space
        .initial
        .drop_first(Space::Initial, &packet, dropped);
    by_space
        .handshake
        .drop_first(Space::Handshake, &packet, dropped);
    by_space.app.drop_first(Space::App, &packet, dropped);
}

impl SpacePackets {
    /// Lets go of the first packet that is kept, which is closed or bare and may be of another
    /// space. `dropped` is the place of the one behind it.
    pub(crate) fn drop_first(&mut self, space: Space, packet: &SentPacket, dropped: u64)
        requires { is_shed packet.now ≡ true }
        ensures { (d : ℕ) (ps : List SentPacket) → dropped ≡ suc d
            → IsSpacePackets space d (packet.now ∷ ps) self.old
            → IsSpacePackets space dropped ps self.new }
    {
        self.forget(space, packet);
        self.next = self.next.max(dropped);
    }

    /// Lets go of the entry of the first packet that is kept, where it has one.
    fn forget(&mut self, space: Space, packet: &SentPacket)
        ensures entries { (d : ℕ) (ps : List SentPacket)
            → self.old.unacknowledged.entries ≡ unacknowledged_in space d (packet.now ∷ ps)
            → self.new.unacknowledged.entries ≡ unacknowledged_in space (suc d) ps }
        ensures next { self.new.next ≡ self.old.next }
        ensures awaiting { self.new.awaiting ≡ self.old.awaiting }
        ensures in_flight { self.new.in_flight ≡ self.old.in_flight }
    {
        if packet.waits_in(space) {
            self.unacknowledged.remove(packet.number.get());
        }
    }
}
