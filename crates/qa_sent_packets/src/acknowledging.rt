//! What an acknowledgment covers, and what of that it newly acknowledges.
ghost use Rattle.std.specs.Prelude.{◌≡◌, ◌≤◌, ◌+◌, ◌++◌, filter, length, map, reverse, true, OnErr};
ghost use Rattle.std.specs.Prelude.{min, sum_by, OnOk};
ghost use Rattle.std.specs.Vec.{vec_capacity, vec_len};
ghost use Rattle.qa_base.specs.machine.Numbers.{AreRanges};
ghost use Rattle.qa_base.specs.values.Limits.{max_lines};
ghost use Rattle.qa_sent_packets.specs.Covering.{width, AreApart, HasRoom};
ghost use Rattle.qa_sent_packets.specs.Fates.{is_new};
ghost use Rattle.qa_sent_packets.specs.Held.{wanted_room, AreOrdered, IsSpacePackets};
ghost use Rattle.qa_sent_packets.specs.Naming.{turned};
ghost use Rattle.qa_sent_packets.specs.Steps.{covered_by};

use crate::named::NamedNumbers;
use crate::packet::SentPacket;
use crate::queue::PacketQueue;
use crate::space_packets::SpacePackets;
use crate::spare::KEPT_ROOM;
use qa_base::{Space, Span};
use std::alloc::AllocError;

/// Whether each span ends below the one before it, as those of an acknowledgment mostly do.
pub fn are_falling(spans: &[Span]) -> bool
    ensures apart { result ≡ true → AreApart (reverse spans.now) }
    ensures each { AreApart (reverse spans.now) → result ≡ true }
    ensures ranges { AreRanges (reverse spans.now) }
{
    let mut falling = true;
    let mut next = 0;
    for at in 0..spans.len() {
        let span = NamedNumbers::nth(spans, true, at);
        falling = falling && next <= span.lo().get();
        next = span.hi().get() + 1;
    }
    falling
}

impl PacketQueue {
    /// Covers the packets that some span names in what is kept for the space, adds those of them
    /// that were open to what was found, and raises the space's `next` to the first that is still
    /// in flight. The spans rise, taken from the first to the last or, where they fall, from the
    /// last to the first.
    /// `AllocError` comes where it is out of memory, and leaves the packets as they were.
    pub(crate) fn acknowledge(
        &mut self,
        space_packets: &mut SpacePackets,
        space: Space,
        spans: &[Span],
        falling: bool,
        found: &mut Vec<SentPacket>,
    ) -> Result<(), AllocError>
        requires few { self.old.dropped + length self.old.packets.items ≤ max_lines }
        requires space_packets { IsSpacePackets space self.old.dropped self.old.packets.items
            space_packets.old }
        requires ordered { AreOrdered self.old.packets.items }
        requires apart { AreApart (turned falling spans.now) }
        requires ranges { AreRanges (turned falling spans.now) }
        ensures dropped { self.new.dropped ≡ self.old.dropped }
        ensures packets { OnOk result (self.new.packets.items
            ≡ map (covered_by space spans.now) self.old.packets.items) }
        ensures new { OnOk result (found.new.items
            ≡ found.old.items ++ filter (is_new space spans.now) self.old.packets.items) }
        ensures err { OnErr result (self.new.packets.items ≡ self.old.packets.items) }
        ensures space_packets { IsSpacePackets space self.new.dropped self.new.packets.items
            space_packets.new }
    {
        make_ready(space_packets, spans, falling, found)?;
        self.cover_spans(space_packets, space, spans, falling, found);
        self.advance(space_packets, space);
        Ok(())
    }
}

/// Takes the memory that an acknowledgment needs: for the entries that it passes over, which lie
/// below its highest span, and for those that it may find.
fn make_ready(
    space_packets: &mut SpacePackets,
    spans: &[Span],
    falling: bool,
    found: &mut Vec<SentPacket>,
) -> Result<(), AllocError>
    requires few { length space_packets.old.unacknowledged.entries ≤ max_lines }
    requires apart { AreApart (turned falling spans.now) }
    requires ranges { AreRanges (turned falling spans.now) }
    ensures entries { space_packets.new.unacknowledged.entries
        ≡ space_packets.old.unacknowledged.entries }
    ensures next { space_packets.new.next ≡ space_packets.old.next }
    ensures in_flight { space_packets.new.in_flight ≡ space_packets.old.in_flight }
    ensures awaiting { space_packets.new.awaiting ≡ space_packets.old.awaiting }
    ensures items { found.new.items ≡ found.old.items }
    ensures room { OnOk result
        (HasRoom (vec_len found.new)
        (vec_capacity found.new) space_packets.new.unacknowledged.entries
        (turned falling spans.now)) }
{
    if spans.is_empty() {
        return Ok(());
    }
    let highest = NamedNumbers::nth(spans, falling, spans.len() - 1);
    space_packets.unacknowledged.part(highest.lo().get())?;
    let most = space_packets.unacknowledged.most_to(highest.hi().get());
    found.reserve(room_for(spans, most))
}

/// For how many packets an acknowledgment takes room, where so many may be open up to its greatest
/// number: it finds no more than those, nor more than it names. How many it names is asked only
/// where there may be more than the room that is kept anyway.
fn room_for(spans: &[Span], most: usize) -> usize
    ensures { result ≡ wanted_room most (sum_by width spans.now) }
{
    if most <= KEPT_ROOM {
        return most;
    }
    count_up_to(spans, most as u64) as usize
}

/// How many numbers the spans name, counted for each span; or `most`, where that is less. It is a
/// function of its own, since few acknowledgments ask.
#[inline(never)]
fn count_up_to(spans: &[Span], most: u64) -> u64
    ensures { result ≡ min most (sum_by width spans.now) }
{
    let mut count = 0;
    for span in spans {
        let named = span.hi().get() - span.lo().get() + 1;
        count = most.min(named.saturating_add(count));
    }
    count
}
