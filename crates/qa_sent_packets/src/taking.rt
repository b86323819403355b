//! Packets that a Lost line names beyond those that are owed: they are owed from then on.
ghost use Rattle.std.specs.Prelude.{◌≡◌, ◌≤◌, ◌+◌, ℕ, List, length, map, true};
ghost use Rattle.qa_base.specs.machine.Numbers.{is_in};
ghost use Rattle.qa_base.specs.values.Events.{is_named};
ghost use Rattle.qa_base.specs.values.Limits.{max_lines};
ghost use Rattle.qa_sent_packets.specs.Free.{is_free_by, numbers_of, taken_by};
ghost use Rattle.qa_sent_packets.specs.Held.{AreLosses, AreOrdered, IsIndexed, IsSpacePackets};

use crate::fate::Fate;
use crate::free::FreePackets;
use crate::named::NamedNumbers;
use crate::packet::SentPacket;
use crate::packets::Losses;
use crate::queue::PacketQueue;
use crate::space_packets::SpacePackets;
use qa_base::Span;

impl PacketQueue {
    /// Takes the free packets that some span names as owed, in what is kept for their space, and
    /// raises its `next` to the first that is still in flight.
    pub(crate) fn take(
        &mut self,
        space_packets: &mut SpacePackets,
        losses: Losses,
        free: FreePackets,
        spans: &[Span],
    ) -> Losses
        requires few { self.old.dropped + length self.old.packets.items ≤ max_lines }
        requires space_packets { IsSpacePackets free.space self.old.dropped self.old.packets.items
            space_packets.old }
        requires ordered { AreOrdered self.old.packets.items }
        requires losses { AreLosses self.old.dropped self.old.packets.items losses }
        requires space { losses.space ≡ free.space }
        ensures dropped { self.new.dropped ≡ self.old.dropped }
        ensures packets { self.new.packets.items
            ≡ map (taken_by free spans.now) self.old.packets.items }
        ensures space_packets { IsSpacePackets free.space self.new.dropped self.new.packets.items
            space_packets.new }
        ensures losses { AreLosses self.new.dropped self.new.packets.items result }
    {
        let losses = self.take_all(space_packets, losses, free, spans);
        self.advance(space_packets, free.space);
        losses
    }

    /// Takes them, one number after another. Where nothing is free it looks at none.
    pub(crate) fn take_all(
        &mut self,
        space_packets: &mut SpacePackets,
        losses: Losses,
        free: FreePackets,
        spans: &[Span],
    ) -> Losses
        requires few { self.old.dropped + length self.old.packets.items ≤ max_lines }
        requires indexed { IsIndexed free.space self.old.dropped self.old.packets.items
            space_packets.old }
        requires ordered { AreOrdered self.old.packets.items }
        requires losses { AreLosses self.old.dropped self.old.packets.items losses }
        requires space { losses.space ≡ free.space }
        ensures dropped { self.new.dropped ≡ self.old.dropped }
        ensures packets { self.new.packets.items
            ≡ map (taken_by free spans.now) self.old.packets.items }
        ensures indexed { IsIndexed free.space self.new.dropped self.new.packets.items
            space_packets.new }
        ensures next { space_packets.new.next ≡ space_packets.old.next }
        ensures losses { AreLosses self.new.dropped self.new.packets.items result }
    {
        if free.end == 0 {
            return losses;
        }
        let mut losses = losses;
        let mut named = NamedNumbers::start(spans);
        while let Some(number) = named.next(spans) {
            losses = self.take_number(space_packets, losses, free, number);
        }
        losses
    }

    /// Takes the free packet with this number, if there is one.
    pub(crate) fn take_number(
        &mut self,
        space_packets: &mut SpacePackets,
        losses: Losses,
        free: FreePackets,
        number: u64,
    ) -> Losses
        requires few { self.old.dropped + length self.old.packets.items ≤ max_lines }
        requires indexed { IsIndexed free.space self.old.dropped self.old.packets.items
            space_packets.old }
        requires ordered { AreOrdered self.old.packets.items }
        requires losses { AreLosses self.old.dropped self.old.packets.items losses }
        requires space { losses.space ≡ free.space }
        ensures dropped { self.new.dropped ≡ self.old.dropped }
        ensures packets { (ranges : List (ℕ × ℕ)) → is_named ranges number ≡ true
            → map (taken_by free ranges) self.new.packets.items
            ≡ map (taken_by free ranges) self.old.packets.items }
        ensures left { (n : ℕ)
            → is_in (numbers_of (is_free_by free) self.new.packets.items) n ≡ true
            → (is_in (numbers_of (is_free_by free) self.old.packets.items) n ≡ true)
            × (n ≡ number → ⊥) }
        ensures long { length self.new.packets.items ≡ length self.old.packets.items }
        ensures ordered { AreOrdered self.new.packets.items }
        ensures indexed { IsIndexed free.space self.new.dropped self.new.packets.items
            space_packets.new }
        ensures next { space_packets.new.next ≡ space_packets.old.next }
        ensures losses { AreLosses self.new.dropped self.new.packets.items result }
        ensures space { result.space ≡ free.space }
    {
        match space_packets.unacknowledged.entry_at(number) {
            None => losses,
            Some(entry) => {
                let packet = &mut self.packets[(entry.1 - self.dropped) as usize];
                if !free.has(packet) {
                    return losses;
                }
                space_packets.take_off(packet);
                packet.fate = Fate::Owed;
                losses.with(entry.1)
            }
        }
    }
}
