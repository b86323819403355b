//! Packets that the next Lost line may name beyond those that are owed.
ghost use Rattle.std.specs.Prelude.{◌≡◌};
ghost use Rattle.qa_sent_packets.specs.Free.{is_free_by};

use crate::packet::SentPacket;
use qa_base::Space;

/// Which packets the next Lost line may name beyond those that are owed: those of a space that are
/// open and in flight and have a number below the end. With an end of 0 there are none.
#[derive(Clone, Copy)]
pub struct FreePackets {
    /// Their space.
    pub space: Space,
    /// Above their numbers.
    pub end: u64,
}

impl FreePackets {
    /// Whether the packet is one of them.
    pub(crate) fn has(self, packet: &SentPacket) -> bool
        ensures { result ≡ is_free_by self packet.now }
    {
        packet.flies_in(self.space) && packet.number.get() < self.end
    }
}
