//! Whether a walk along named numbers comes by those that are owed, and by no others but free ones.
ghost use Rattle.std.specs.Prelude.{◌≡◌, ◌+◌, ◌∷◌, ◌↔◌, IfOk, IsTrue, List, true};
ghost use Rattle.qa_base.specs.machine.Numbers.{is_in};
ghost use Rattle.qa_base.specs.values.Events.{is_named};
ghost use Rattle.qa_sent_packets.specs.Free.{free_numbers, nameable_numbers};
ghost use Rattle.qa_sent_packets.specs.Naming.{AreNext, AreOnly, IsNextOf, IsWalk};
ghost use Rattle.qa_sent_packets.specs.Walks.{owed_numbers};
ghost use Rattle.qa_sent_packets.specs.declared.packet.SentPacket.{SentPacket};

use crate::free::FreePackets;
use crate::named::NamedNumbers;
use crate::packet::SentPacket;
use crate::packets::SentPackets;
use qa_base::{PacketNumber, Span};
use std::alloc::{AllocError, Global};
use std::collections::VecDeque;

impl SentPackets {
    /// Whether a free packet has this number.
    fn has_free_number(&self, free: FreePackets, number: u64) -> bool
        ensures { result ≡ is_in (free_numbers free self.now.packets) number }
    {
        if free.end <= number {
            return false;
        }
        let space_packets = self.by_space.of(free.space);
        match space_packets.unacknowledged.entry_at(number) {
            None => false,
            Some(entry) => free.has(&self.queue.packets[(entry.1 - self.queue.dropped) as usize]),
        }
    }

    /// Whether the walk comes by this number, and before it by no numbers but those of free
    /// packets. If so it stands behind the number then.
    fn comes_by(
        &self,
        free: FreePackets,
        spans: &[Span],
        named: &mut NamedNumbers,
        number: u64,
    ) -> bool
        requires { IsWalk spans.now named.old }
        ensures next { IsTrue result
            ↔ IsNextOf (is_named spans.now)
            (is_in (free_numbers free self.now.packets)) named.old.from number }
        ensures from { result ≡ true → named.new.from ≡ number + 1 }
        ensures walk { IsWalk spans.now named.new }
    {
        while let Some(first) = named.next(spans) {
            if first == number {
                return true;
            }
            if number < first || !self.has_free_number(free, first) {
                return false;
            }
        }
        false
    }

    /// Whether the walk comes by the number of this packet, if it is owed, and before it by no
    /// numbers but those of free packets. A packet that is not owed is passed over.
    pub(crate) fn comes_by_owed(
        &self,
        free: FreePackets,
        spans: &[Span],
        named: &mut NamedNumbers,
        packet: &SentPacket,
    ) -> bool
        requires { IsWalk spans.now named.old }
        ensures next { (ps : List SentPacket)
            → AreNext (is_named spans.now)
            (is_in (free_numbers free self.now.packets)) named.old.from
            (owed_numbers (packet.now ∷ ps))
            ↔ (IsTrue result
            × AreNext (is_named spans.now)
            (is_in (free_numbers free self.now.packets)) named.new.from (owed_numbers ps)) }
        ensures walk { IsWalk spans.now named.new }
    {
        if !packet.is_owed() {
            return true;
        }
        self.comes_by(free, spans, named, packet.number.get())
    }

    /// Whether the walk comes by no more numbers but those of free packets.
    pub(crate) fn are_free(&self, free: FreePackets, spans: &[Span], named: NamedNumbers) -> bool
        requires { IsWalk spans.now named }
        ensures { IsTrue result
            ↔ AreOnly (is_named spans.now) (is_in (free_numbers free self.now.packets)) named.from }
    {
        let mut named = named;
        while let Some(number) = named.next(spans) {
            if !self.has_free_number(free, number) {
                return false;
            }
        }
        true
    }
}

/// The numbers of the packets that are owed or free.
pub(crate) fn nameable_numbers_in(
    alloc: Global,
    packets: &VecDeque<SentPacket>,
    free: FreePackets,
) -> Result<Vec<PacketNumber>, AllocError>
    ensures { IfOk result (λ found. found.items ≡ nameable_numbers free packets.now.items) }
{
    let mut found = Vec::new(alloc);
    for packet in packets {
        if packet.is_owed() || free.has(packet) {
            found.push(packet.number)?;
        }
    }
    Ok(found)
}

/// The numbers of the packets that are free.
pub(crate) fn free_numbers_in(
    alloc: Global,
    packets: &VecDeque<SentPacket>,
    free: FreePackets,
) -> Result<Vec<PacketNumber>, AllocError>
    ensures { IfOk result (λ found. found.items ≡ free_numbers free packets.now.items) }
{
    let mut found = Vec::new(alloc);
    for packet in packets {
        if free.has(packet) {
            found.push(packet.number)?;
        }
    }
    Ok(found)
}
