//! What is owed is declared lost.
ghost use Rattle.std.specs.Prelude.{◌≡◌, ◌<◌, length, map, slice_index_or, slice_set};
ghost use Rattle.qa_sent_packets.specs.Owing.{IsOwedPart};
ghost use Rattle.qa_sent_packets.specs.Steps.{declared};
ghost use Rattle.qa_sent_packets.specs.declared.packet.SentPacket.{SentPacket};

use crate::fate::Fate;
use crate::packet::SentPacket;
use std::collections::VecDeque;
use std::ops::Range;

/// Declares those in this part.
pub(crate) fn declare_in(packets: &mut VecDeque<SentPacket>, part: Range<usize>)
    requires { IsOwedPart part.start part.end packets.old.items }
    ensures { packets.new.items ≡ map declared packets.old.items }
{
    for at in part.start..part.end {
        declare_at(packets, at);
    }
}

/// Declares the packet at this index, if it is owed.
pub(crate) fn declare_at(packets: &mut VecDeque<SentPacket>, at: usize)
    requires { at < length packets.old.items }
    ensures { (p : SentPacket) → p ≡ slice_index_or packets.old.items at p
        → packets.new.items ≡ slice_set packets.old.items at (declared p) }
{
    let packet = &mut packets[at];
    if packet.is_owed() {
        packet.fate = Fate::DeclaredLost;
    }
}
