//! A packet that is sent: it is kept behind the others, and found by its number.
ghost use Rattle.std.specs.Prelude.{◌≡◌, ◌≤◌, ◌<◌, ◌+◌, [], ◌∷◌, ◌++◌, length, OnErr, OnOk};
ghost use Rattle.std.specs.List.{AllByRecursion};
ghost use Rattle.qa_base.specs.values.Limits.{max_lines, max_packet_size};
ghost use Rattle.qa_sent_packets.specs.Held.{IsBefore, IsSpacePackets};
ghost use Rattle.qa_sent_packets.specs.declared.fate.Fate.TheVariants.{Open};

use crate::packet::SentPacket;
use crate::queue::PacketQueue;
use crate::space_packets::SpacePackets;
use std::alloc::AllocError;

impl PacketQueue {
    /// Adds a packet to the packets and to what is kept of its space. Where it is out of memory,
    /// both say what they said.
    pub(crate) fn add(
        &mut self,
        space_packets: &mut SpacePackets,
        packet: SentPacket,
    ) -> Result<(), AllocError>
        requires open { packet.fate ≡ Open }
        requires small { packet.size ≤ max_packet_size }
        requires ordered { AllByRecursion (λ q. IsBefore packet q) self.old.packets.items }
        requires few { self.old.dropped + length self.old.packets.items < max_lines }
        requires sizes { AllByRecursion (λ p. p.size ≤ max_packet_size) self.old.packets.items }
        requires space_packets { IsSpacePackets packet.space self.old.dropped self.old.packets.items
            space_packets.old }
        ensures dropped { self.new.dropped ≡ self.old.dropped }
        ensures ok { OnOk result (self.new.packets.items ≡ self.old.packets.items ++ packet ∷ []) }
        ensures err { OnErr result (self.new.packets.items ≡ self.old.packets.items) }
        ensures space_packets { IsSpacePackets packet.space self.new.dropped self.new.packets.items
            space_packets.new }
    {
        let place = self.dropped + self.packets.len() as u64;
        self.packets.reserve(1)?;
        space_packets
            .unacknowledged
            .enter(packet.number.get(), place)?;
        // Where bytes are in flight, what is kept of the space stands at the first packet that
        // flies, and stays there.
        let flew = 0 < space_packets.in_flight;
        space_packets.put_on(&packet);
        self.packets.push_back_reserved(packet);
        if !flew {
            self.advance(space_packets, packet.space);
        }
        Ok(())
    }
}
