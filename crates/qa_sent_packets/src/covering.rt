//! Acknowledgments: packets are acknowledged, and leave the entries and the sums of their space.
//! Those of them that were open are newly acknowledged.
ghost use Rattle.std.specs.Prelude.{◌≡◌, ◌≤◌, ◌<◌, ◌+◌, ◌++◌, ◌∷◌, [], ℕ, Some, filter, length};
ghost use Rattle.std.specs.Prelude.{map};
ghost use Rattle.std.specs.Vec.{vec_capacity, vec_len};
ghost use Rattle.qa_base.specs.machine.Numbers.{AreRanges};
ghost use Rattle.qa_sent_packets.specs.Covering.{AreApart, AreClear, HasRoom, count_in, covered_in};
ghost use Rattle.qa_sent_packets.specs.Covering.{first_between, is_new_in};
ghost use Rattle.qa_sent_packets.specs.Fates.{is_new, is_open};
ghost use Rattle.qa_sent_packets.specs.Held.{AreOrdered, IsIndexed};
ghost use Rattle.qa_sent_packets.specs.Naming.{turned};
ghost use Rattle.qa_sent_packets.specs.Steps.{covered_by};

use crate::fate::Fate;
use crate::named::NamedNumbers;
use crate::packet::SentPacket;
use crate::queue::PacketQueue;
use crate::space_packets::SpacePackets;
use qa_base::{Space, Span};

/// Adds the packet, if it is open.
pub(crate) fn push_open(found: &mut Vec<SentPacket>, packet: &SentPacket)
    requires { vec_len found.old < vec_capacity found.old }
    ensures items { found.new.items
        ≡ found.old.items ++ filter (λ p. is_open p.fate) (packet.now ∷ []) }
    ensures len { vec_len found.new ≤ vec_len found.old + 1 }
    ensures capacity { vec_capacity found.new ≡ vec_capacity found.old }
{
    if packet.is_open() {
        found.push_reserved(*packet);
    }
}

impl PacketQueue {
    /// Covers the packet at this place, which has this number, in what is kept for the space, and
    /// adds it to those found, if it was open.
    pub(crate) fn cover_one(
        &mut self,
        space_packets: &mut SpacePackets,
        space: Space,
        number: u64,
        place: u64,
        found: &mut Vec<SentPacket>,
    )
        requires indexed { IsIndexed space self.old.dropped self.old.packets.items
            space_packets.old }
        requires there { first_between number number space_packets.old.unacknowledged.entries
            ≡ Some (number, place) }
        requires room { vec_len found.old < vec_capacity found.old }
        ensures dropped { self.new.dropped ≡ self.old.dropped }
        ensures packets { (lo hi : ℕ) → lo ≤ number → number ≤ hi
            → map (covered_in space lo hi) self.new.packets.items
            ≡ map (covered_in space lo hi) self.old.packets.items }
        ensures new { (lo hi : ℕ)
            → first_between lo hi space_packets.old.unacknowledged.entries ≡ Some (number, place)
            → found.new.items ++ filter (is_new_in space lo hi) self.new.packets.items
            ≡ found.old.items ++ filter (is_new_in space lo hi) self.old.packets.items }
        ensures fewer { length space_packets.new.unacknowledged.entries + 1
            ≡ length space_packets.old.unacknowledged.entries }
        ensures counted { (lo hi : ℕ) → lo ≤ number → number ≤ hi
            → count_in lo hi space_packets.new.unacknowledged.entries + 1
            ≡ count_in lo hi space_packets.old.unacknowledged.entries }
        ensures left { (lo hi : ℕ) → count_in lo hi space_packets.new.unacknowledged.entries
            ≤ count_in lo hi space_packets.old.unacknowledged.entries }
        ensures len { vec_len found.new ≤ vec_len found.old + 1 }
        ensures capacity { vec_capacity found.new ≡ vec_capacity found.old }
        ensures indexed { IsIndexed space self.new.dropped self.new.packets.items
            space_packets.new }
        ensures next { space_packets.new.next ≡ space_packets.old.next }
    {
        let at = (place - self.dropped) as usize;
        let packet = &mut self.packets[at];
        push_open(found, packet);
        space_packets.take_off(packet);
        packet.fate = Fate::Acknowledged;
        space_packets.unacknowledged.remove(number);
    }

    /// Covers the packets of a span in what is kept for the space, one by one: each leaves the
    /// entries, and one that was open leaves the sums and is added to those found. Returns a number
    /// below which no entry is left of those from the begin of the span on.
    pub(crate) fn cover_span(
        &mut self,
        space_packets: &mut SpacePackets,
        space: Space,
        span: Span,
        found: &mut Vec<SentPacket>,
    ) -> u64
        requires indexed { IsIndexed space self.old.dropped self.old.packets.items
            space_packets.old }
        requires room { vec_len found.old
            + count_in span.0 span.1 space_packets.old.unacknowledged.entries
            ≤ vec_capacity found.old }
        ensures dropped { self.new.dropped ≡ self.old.dropped }
        ensures packets { self.new.packets.items
            ≡ map (covered_in space span.0 span.1) self.old.packets.items }
        ensures new { found.new.items
            ≡ found.old.items ++ filter (is_new_in space span.0 span.1) self.old.packets.items }
        ensures room { vec_len found.new ≤ vec_len found.old
            + count_in span.0 span.1 space_packets.old.unacknowledged.entries }
        ensures left { (lo hi : ℕ) → count_in lo hi space_packets.new.unacknowledged.entries
            ≤ count_in lo hi space_packets.old.unacknowledged.entries }
        ensures capacity { vec_capacity found.new ≡ vec_capacity found.old }
        ensures indexed { IsIndexed space self.new.dropped self.new.packets.items
            space_packets.new }
        ensures next { space_packets.new.next ≡ space_packets.old.next }
        ensures clear { AreClear span.0 result space_packets.new.unacknowledged.entries }
    {
        let lo = span.lo().get();
        let hi = span.hi().get();
        while let Some((number, place)) = space_packets.unacknowledged.first_from(lo) {
            if hi < number {
                return number;
            }
            self.cover_one(space_packets, space, number, place, found);
        }
        u64::MAX
    }

    /// The same, where no entry from the begin of the span on is below `least`: a span that ends
    /// below it is passed by one comparison. Returns such a number for whatever lies above the
    /// span.
    pub(crate) fn pass_span(
        &mut self,
        space_packets: &mut SpacePackets,
        space: Space,
        span: Span,
        least: u64,
        found: &mut Vec<SentPacket>,
    ) -> u64
        requires indexed { IsIndexed space self.old.dropped self.old.packets.items
            space_packets.old }
        requires room { vec_len found.old
            + count_in span.0 span.1 space_packets.old.unacknowledged.entries
            ≤ vec_capacity found.old }
        requires clear { AreClear span.0 least space_packets.old.unacknowledged.entries }
        ensures dropped { self.new.dropped ≡ self.old.dropped }
        ensures order { span.0 ≤ span.1 }
        ensures packets { self.new.packets.items
            ≡ map (covered_in space span.0 span.1) self.old.packets.items }
        ensures new { found.new.items
            ≡ found.old.items ++ filter (is_new_in space span.0 span.1) self.old.packets.items }
        ensures room { vec_len found.new ≤ vec_len found.old
            + count_in span.0 span.1 space_packets.old.unacknowledged.entries }
        ensures left { (lo hi : ℕ) → count_in lo hi space_packets.new.unacknowledged.entries
            ≤ count_in lo hi space_packets.old.unacknowledged.entries }
        ensures capacity { vec_capacity found.new ≡ vec_capacity found.old }
        ensures indexed { IsIndexed space self.new.dropped self.new.packets.items
            space_packets.new }
        ensures next { space_packets.new.next ≡ space_packets.old.next }
        ensures clear { (n : ℕ) → span.1 < n
            → AreClear n result space_packets.new.unacknowledged.entries }
    {
        let hi = span.hi().get();
        if hi < least {
            return least;
        }
        self.cover_span(space_packets, space, span, found)
    }

    /// Covers the packets that some span names in what is kept for the space, and adds those of
    /// them that were open to what was found. The spans rise, taken from the first to the last or,
    /// where they fall, from the last to the first.
    pub(crate) fn cover_spans(
        &mut self,
        space_packets: &mut SpacePackets,
        space: Space,
        spans: &[Span],
        falling: bool,
        found: &mut Vec<SentPacket>,
    )
        requires apart { AreApart (turned falling spans.now) }
        requires ranges { AreRanges (turned falling spans.now) }
        requires indexed { IsIndexed space self.old.dropped self.old.packets.items
            space_packets.old }
        requires ordered { AreOrdered self.old.packets.items }
        requires room { HasRoom (vec_len found.old)
            (vec_capacity found.old) space_packets.old.unacknowledged.entries
            (turned falling spans.now) }
        ensures dropped { self.new.dropped ≡ self.old.dropped }
        ensures packets { self.new.packets.items
            ≡ map (covered_by space (turned falling spans.now)) self.old.packets.items }
        ensures new { found.new.items
            ≡ found.old.items
            ++ filter (is_new space (turned falling spans.now)) self.old.packets.items }
        ensures indexed { IsIndexed space self.new.dropped self.new.packets.items
            space_packets.new }
        ensures next { space_packets.new.next ≡ space_packets.old.next }
    {
        let passed = space_packets.unacknowledged.passed(spans, falling);
        let mut least = 0;
        for at in passed..spans.len() {
            let span = NamedNumbers::nth(spans, falling, at);
            least = self.pass_span(space_packets, space, span, least, found);
        }
    }
}
