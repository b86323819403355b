//! The packets that are kept, and where each can be found.
ghost use Rattle.qa_base.specs.declared.space.Space.TheVariants.{Initial, Handshake, App};
ghost use Rattle.qa_base.specs.machine.Numbers.{AreRanges, names_between};
ghost use Rattle.qa_base.specs.values.Events.{is_named};
ghost use Rattle.qa_base.specs.values.Limits.{max_lines, max_packet_size};
ghost use Rattle.qa_sent_packets.specs.Covering.{AreApart};
ghost use Rattle.qa_base.specs.values.PerSpace.{of_space};
ghost use Rattle.qa_sent_packets.specs.Dropping.{is_first_closed, Sheds};
ghost use Rattle.qa_sent_packets.specs.Fates.{is_new, is_owed, is_owed_in, flight_bytes};
ghost use Rattle.qa_sent_packets.specs.Fates.{is_awaiting, is_flying};
ghost use Rattle.qa_sent_packets.specs.Free.{AreOwedIn, free_numbers, is_free_by, nameable_numbers};
ghost use Rattle.qa_sent_packets.specs.Free.{taken_by};
ghost use Rattle.qa_sent_packets.specs.Held.{IsBefore, aside_count, kept_room, no_strays};
ghost use Rattle.qa_sent_packets.specs.Held.{unacknowledged_in};
ghost use Rattle.qa_sent_packets.specs.Naming.{turned};
ghost use Rattle.qa_sent_packets.specs.Owing.{IsOwedPart, first_space};
ghost use Rattle.qa_sent_packets.specs.Steps.{acknowledged, declared, discarded, found_by};
ghost use Rattle.qa_sent_packets.specs.Steps.{covered_by, newly_found};
ghost use Rattle.qa_sent_packets.specs.Walks as walks;
ghost use Rattle.qa_sent_packets.specs.Walks.{owed_numbers};
ghost use Rattle.qa_sent_packets.specs.declared.fate.Fate.TheVariants.{Open};
ghost use Rattle.qa_sent_packets.specs.declared.packet.SentPacket.{SentPacket};
ghost use Rattle.std.specs.List.{AllByRecursion, list_any};
ghost use Rattle.std.specs.Vec.{vec_capacity};
ghost use Rattle.std.specs.Prelude.{◌≡◌, [], ◌≤◌, ◌<◌, ◌+◌, ◌∷◌, ◌++◌, length, OnErr, OnOk, filter};
ghost use Rattle.std.specs.Prelude.{IfOk, false, Some, map, ◌&&◌, true, count_by, drop, None};
ghost use Rattle.std.specs.Prelude.{◌*◌, ◌^◌, find, is_none, nat_lt, not, reverse, sum_by};
ghost use Rattle.std.specs.Option.{option_copied};

use crate::declaring::declare_in;
use crate::detecting::Thresholds;
use crate::discarding::discard_all;
use crate::dropping::let_go;
use crate::free::FreePackets;
use crate::named::NamedNumbers;
use crate::naming::{free_numbers_in, nameable_numbers_in};
use crate::owing::{are_apart_in, last_owed_in, owed_numbers_in};
use crate::packet::SentPacket;
use crate::queue::PacketQueue;
use crate::space_packets::SpacePackets;
use crate::spare::Spare;
use crate::strays::{Strays, may_leave};
use qa_base::{PacketNumber, PerSpace, Space, Span, Ticks};
use std::alloc::{AllocError, Global};
use std::collections::VecDeque;
use std::marker::Model;
use std::ops::Range;

/// The packets that the last detection found lost, while they are owed.
#[derive(Clone, Copy)]
pub(crate) struct Losses {
    /// Their space.
    pub(crate) space: Space,
    /// How many they are.
    pub(crate) count: u64,
    /// None stands before this place,
    pub(crate) from: u64,
    /// and none at this place or behind it.
    pub(crate) to: u64,
}

impl Losses {
    ghost use Rattle.qa_sent_packets.specs.Free.{widened};

    /// With one more, at this place.
    pub(crate) fn with(self, place: u64) -> Losses
        requires count { self.count ≤ max_lines }
        requires place { place ≤ max_lines }
        ensures { result ≡ widened place self }
    {
        if self.count == 0 {
            return Losses {
                space: self.space,
                count: 1,
                from: place,
                to: place + 1,
            };
        }
        Losses {
            space: self.space,
            count: self.count + 1,
            from: self.from.min(place),
            to: self.to.max(place + 1),
        }
    }
}

/// Beyond so many packets the queue is crowded if most of them are settled.
const FEW_PACKETS: usize = 1_024;

/// The packets that were sent since the oldest that is still of use, in the order of sending.
///
/// Contracts see it as that list, how many packets stood before it, and those of them that are open
/// and were set aside. How the packets of a space are found and summed up is its own.
#[derive(Drop)]
pub struct SentPackets {
    pub(crate) alloc: Global,
    pub(crate) queue: PacketQueue,
    pub(crate) by_space: PerSpace<SpacePackets>,
    /// Those that were set aside, so that they keep none of the packets behind them.
    pub(crate) strays: PerSpace<Strays>,
    pub(crate) losses: Losses,
    /// About how many packets of the queue were declared lost. One that is acknowledged all the
    /// same counts until the queue is short.
    lost: u64,
    /// Memory for what the next acknowledgment finds.
    pub(crate) spare: Spare,
}

impl Model for SentPackets {
    ghost use Rattle.qa_sent_packets.specs.Held.{Held, IsSound};

    ghost Value = { Held };

    ghost view = { λ s. record {
      dropped = s.queue.dropped;
      packets = s.queue.packets.items;
      strays = s.strays;
    } };

    ghost invariant = { λ s. IsSound s.queue.dropped s.queue.packets.items s.losses s.by_space
        s.strays };
}

impl SentPackets {
    /// No packets. Takes no memory.
    pub fn new(alloc: Global) -> SentPackets
        ensures { result ≡ record { dropped = 0; packets = []; strays = no_strays } }
    {
        SentPackets {
            alloc,
            queue: PacketQueue {
                dropped: 0,
                packets: VecDeque::new(alloc),
            },
            by_space: PerSpace {
                initial: SpacePackets::new(alloc),
                handshake: SpacePackets::new(alloc),
                app: SpacePackets::new(alloc),
            },
            strays: PerSpace {
                initial: Strays::new(alloc),
                handshake: Strays::new(alloc),
                app: Strays::new(alloc),
            },
            losses: Losses {
                space: Space::Initial,
                count: 0,
                from: 0,
                to: 0,
            },
            lost: 0,
            spare: Spare::new(alloc),
        }
    }

    /// Keeps a packet that was just sent: it is open, its size is at most 65527 bytes, each packet
    /// kept was sent before it, also those of its space that were set aside, and fewer than
    /// 4,294,967,295 were ever kept. `AllocError` comes where it is out of memory, and leaves the
    /// packets as they were.
    pub fn push(&mut self, packet: SentPacket) -> Result<(), AllocError>
        requires open { packet.fate ≡ Open }
        requires small { packet.size ≤ max_packet_size }
        requires ordered { AllByRecursion (λ q. IsBefore packet q) self.old.packets }
        requires aside { AllByRecursion (λ q. q.number < packet.number)
            (of_space packet.space self.old.strays) }
        requires few { self.old.dropped + length self.old.packets < max_lines }
        ensures ok { OnOk result (self.new
            ≡ record {
              dropped = self.old.dropped;
              packets = self.old.packets ++ packet ∷ [];
              strays = self.old.strays;
            }) }
        ensures err { OnErr result (self.new ≡ self.old) }
    {
        let space_packets = self.by_space.of_mut(packet.space);
        self.queue.add(space_packets, packet)
    }

    /// Covers the packets of a space that some span names: an acknowledgment came for them. Those
    /// that are acknowledged, or discarded, stay what they are. What is found are those that were
    /// open, in the order of sending, which is that of their numbers. Nothing may be owed, and
    /// nothing stand in `found`.
    ///
    /// Each span begins above the end of the one before it; where they are said to be falling, as
    /// those of an acknowledgment mostly are, each ends below the one before it. Numbers that no
    /// packet has are passed over. It visits the packets alone that it covers or, once in their
    /// life, passes over, and takes a few steps for each span. `AllocError` comes where it is out
    /// of memory, and leaves the packets as they were.
    pub fn acknowledge(
        &mut self,
        space: Space,
        spans: &[Span],
        falling: bool,
        found: &mut Vec<SentPacket>,
    ) -> Result<(), AllocError>
        requires settled { AllByRecursion (λ p. is_owed p.fate ≡ false) self.old.packets }
        requires apart { AreApart (turned falling spans.now) }
        requires ranges { AreRanges (turned falling spans.now) }
        requires none { found.old.items ≡ [] }
        ensures ok { OnOk result (self.new ≡ acknowledged space spans.now self.old) }
        ensures found { OnOk result (found.new.items ≡ newly_found space spans.now self.old) }
        ensures err { OnErr result (self.new ≡ self.old) }
    {
        self.copy_strays(space, spans, falling, found)?;
        let copied = found.len();
        self.acknowledge_queue(space, spans, falling, found)?;
        self.forget_strays(space, &found[..copied]);
        Ok(())
    }

    /// The same in the queue, where what is found is added to what was found before.
    fn acknowledge_queue(
        &mut self,
        space: Space,
        spans: &[Span],
        falling: bool,
        found: &mut Vec<SentPacket>,
    ) -> Result<(), AllocError>
        requires settled { AllByRecursion (λ p. is_owed p.fate ≡ false) self.old.packets }
        requires apart { AreApart (turned falling spans.now) }
        requires ranges { AreRanges (turned falling spans.now) }
        ensures ok { OnOk result
            (self.new
            ≡ record {
              dropped = self.old.dropped;
              packets = map (covered_by space spans.now) self.old.packets;
              strays = self.old.strays;
            }) }
        ensures found { OnOk result (found.new.items
            ≡ found.old.items ++ filter (is_new space spans.now) self.old.packets) }
        ensures err { OnErr result (self.new ≡ self.old) }
    {
        let space_packets = self.by_space.of_mut(space);
        self.queue
            .acknowledge(space_packets, space, spans, falling, found)
    }

    /// An empty list for what an acknowledgment finds. It has the memory of the list that was
    /// handed back last, so that mostly an acknowledgment takes none.
    pub fn lend_list(&mut self) -> Vec<SentPacket>
        ensures empty { result.items ≡ [] }
        ensures small { vec_capacity result ≤ kept_room }
        ensures same { self.new ≡ self.old }
    {
        std::mem::replace(&mut self.spare, Spare::new(self.alloc)).into_list()
    }

    /// Takes such a list back, and keeps its memory alone, where that is for no more than 1,024
    /// packets.
    pub fn take_back(&mut self, list: Vec<SentPacket>)
        ensures { self.new ≡ self.old }
    {
        self.spare = Spare::of(self.alloc, list);
    }

    /// Looks for losses in a space: the packets in flight that are past a threshold are owed
    /// from now on.
    /// Nothing may be owed before.
    ///
    /// It walks from the first packet of the space in flight, and ends at the first that is in
    /// flight and past no threshold: since a space's numbers and times rise, none behind it is past
    /// one.
    pub fn detect(&mut self, space: Space, thresholds: &Thresholds)
        requires settled { AllByRecursion (λ p. is_owed p.fate ≡ false) self.old.packets }
        ensures { self.new ≡ record {
          dropped = self.old.dropped;
          packets = map (found_by space thresholds.entry.now) self.old.packets;
          strays = self.old.strays;
        } }
    {
        let space_packets = self.by_space.of_mut(space);
        self.losses = self.queue.detect(space_packets, space, thresholds);
    }

    /// Indexes outside of which no packet is owed. There are as many between them as the detection
    /// that found these losses passed, so a walk along them costs no more than the detection did.
    pub(crate) fn owed_part(&self) -> Range<usize>
        ensures { IsOwedPart result.start result.end self.now.packets }
    {
        let count = self.queue.packets.len() as u64;
        let end = self.losses.to.saturating_sub(self.queue.dropped).min(count);
        let start = self.losses.from.saturating_sub(self.queue.dropped).min(end);
        start as usize..end as usize
    }

    /// How many packets are owed.
    pub fn owed_count(&self) -> u64
        ensures { result ≡ count_by (λ p. is_owed p.fate) self.now.packets }
    {
        self.losses.count
    }

    /// The numbers of the packets that are owed, in the order of sending, which within their space
    /// is that of their numbers. `AllocError` comes where it is out of memory.
    pub fn owed_numbers(&self) -> Result<Vec<PacketNumber>, AllocError>
        ensures { IfOk result (λ found. found.items ≡ owed_numbers self.now.packets) }
    {
        owed_numbers_in(self.alloc, &self.queue.packets, self.owed_part())
    }

    /// The numbers of the packets that the next Lost line may name, which are owed or free, in the
    /// order of sending. `AllocError` comes where it is out of memory.
    pub fn nameable_numbers(&self, free: FreePackets) -> Result<Vec<PacketNumber>, AllocError>
        ensures { IfOk result (λ found. found.items ≡ nameable_numbers free self.now.packets) }
    {
        nameable_numbers_in(self.alloc, &self.queue.packets, free)
    }

    /// The numbers of those of them that are free, in the order of sending. `AllocError` comes
    /// where it is out of memory.
    pub fn free_numbers(&self, free: FreePackets) -> Result<Vec<PacketNumber>, AllocError>
        ensures { IfOk result (λ found. found.items ≡ free_numbers free self.now.packets) }
    {
        free_numbers_in(self.alloc, &self.queue.packets, free)
    }

    /// The space of the packets that are owed, which is one: a detection looks at the space of its
    /// acknowledgment alone (RFC 9002, A.10). None where nothing is owed.
    pub fn owed_space(&self) -> Option<Space>
        ensures { result ≡ first_space (walks.owed_of self.now.packets) }
    {
        if self.losses.count == 0 {
            return None;
        }
        Some(self.losses.space)
    }

    /// Whether a packet of the space is owed.
    pub fn owes_in(&self, space: Space) -> bool
        ensures { result ≡ list_any (is_owed_in space) self.now.packets }
    {
        0 < self.losses.count && space == self.losses.space
    }

    /// When the last of the packets was sent that are owed: its mark, by which a congestion
    /// controller tells whether they stand in recovery (RFC 9002, B.8). None where nothing is owed.
    #[inline(always)]
    pub fn last_owed(&self, by_order: bool) -> Option<Ticks>
        ensures { result ≡ walks.last_owed by_order None self.now.packets }
    {
        if self.losses.count == 0 {
            return None;
        }
        last_owed_in(&self.queue.packets, self.owed_part(), by_order)
    }

    /// Whether the losses that are owed establish persistent congestion (RFC 9002, section 7.6):
    /// two of them are ack-eliciting and were sent after the first RTT sample, at `first`, more
    /// than `limit` apart, and nothing that was sent between them was acknowledged.
    #[inline(always)]
    pub fn is_persistent(&self, limit: u64, first: Ticks) -> bool
        ensures { result ≡ walks.are_apart limit first None self.now.packets }
    {
        if self.losses.count == 0 {
            return false;
        }
        are_apart_in(&self.queue.packets, self.owed_part(), limit, first)
    }

    /// Whether a packet is free. Takes constant time.
    pub fn has_free(&self, free: FreePackets) -> bool
        ensures { result ≡ list_any (is_free_by free) self.now.packets }
    {
        self.flies_below(free.space, free.end)
    }

    /// Whether a packet of the space is open and in flight that has a number below this one. Takes
    /// constant time: the first in flight has, if any has.
    #[inline(always)]
    pub fn flies_below(&self, space: Space, end: u64) -> bool
        ensures { result
            ≡ list_any (λ p. is_flying space p && nat_lt p.number end) self.now.packets }
    {
        // What is kept stands in the order of sending.
        let _kept = self.queue.packets.len();
        match self.first_flying_ref(space) {
            None => false,
            Some(packet) => packet.number.get() < end,
        }
    }

    /// Whether the spans name all packets that are owed, and no others but those that are free.
    /// They may overlap, and stand in any order. What is owed has to be of the space of those.
    ///
    /// Takes no memory, and one walk along the packets that were passed by the detection that found
    /// these losses; a number that is named beside those of the losses is looked up. Where the
    /// spans rise or fall it walks along them once, however many numbers they have; else once for
    /// each stretch of numbers that it finds.
    pub fn names_losses(&self, spans: &[Span], free: FreePackets) -> bool
        requires { AreOwedIn free.space self.now.packets }
        ensures { result ≡ names_between spans.now (owed_numbers self.now.packets)
            (nameable_numbers free self.now.packets) }
    {
        let mut named = NamedNumbers::start(spans);
        for packet in self.queue.packets.range(self.owed_part()) {
            if !self.comes_by_owed(free, spans, &mut named, packet) {
                return false;
            }
        }
        self.are_free(free, spans, named)
    }

    /// The free packets that some span names are owed from now on; whether there are any. What is
    /// owed before has to be of their space. Takes no memory, and visits these packets alone.
    pub fn take(&mut self, spans: &[Span], free: FreePackets) -> bool
        requires { AreOwedIn free.space self.old.packets }
        ensures packets { self.new
            ≡ record {
              dropped = self.old.dropped;
              packets = map (taken_by free spans.now) self.old.packets;
              strays = self.old.strays;
            } }
        ensures any { result
            ≡ list_any (λ p. is_free_by free p && is_named spans.now p.number) self.old.packets }
    {
        let before = self.losses.count;
        let losses = Losses {
            space: free.space,
            ..self.losses
        };
        let space_packets = self.by_space.of_mut(free.space);
        self.losses = self.queue.take(space_packets, losses, free, spans);
        before < self.losses.count
    }

    /// The packets that are owed are declared lost: an acknowledgment would still cover them, but
    /// nothing is owed any more.
    pub fn declare_lost(&mut self)
        ensures { self.new ≡ record {
          dropped = self.old.dropped;
          packets = map declared self.old.packets;
          strays = self.old.strays;
        } }
    {
        let part = self.owed_part();
        declare_in(&mut self.queue.packets, part);
        self.lost = self.lost.saturating_add(self.losses.count);
        self.losses.count = 0;
        self.losses.to = self.losses.from;
    }

    /// The keys of a space are discarded: its packets that were not acknowledged leave the bytes in
    /// flight, and none of them is acknowledged any more (RFC 9002, section 6.4). Nothing may be
    /// owed.
    ///
    /// Walks along all packets that are kept.
    pub fn discard(&mut self, space: Space)
        requires settled { AllByRecursion (λ p. is_owed p.fate ≡ false) self.old.packets }
        ensures { self.new ≡ discarded space self.old }
    {
        self.strays.of_mut(space).clear();
        discard_all(&mut self.queue.packets, space);
        let end = self.queue.dropped + self.queue.packets.len() as u64;
        let space_packets = self.by_space.of_mut(space);
        space_packets.clear(end);
    }

    /// Drops the packets before the oldest that is still open or owed. Each packet is dropped once.
    ///
    /// Where there are more than 1,024 packets, most of them settled, an open one is set aside if
    /// it is the first and neither ack-eliciting nor in flight: it would keep all others until it
    /// is acknowledged, and it may never be. Where there is no memory to set it aside it stays.
    #[inline(always)]
    pub fn drop_closed(&mut self)
        ensures sheds { Sheds self.old self.new }
        ensures trimmed { is_first_closed self.new.packets ≡ false }
    {
        // Behind most events there is none, and few are kept.
        if self.is_first_closed() || FEW_PACKETS < self.queue.packets.len() {
            self.drop_front();
        }
    }

    /// Drops the first packets or sets them aside, until one has to stay.
    #[inline(never)]
    fn drop_front(&mut self)
        ensures sheds { Sheds self.old self.new }
        ensures trimmed { is_first_closed self.new.packets ≡ false }
    {
        while self.drop_first() {}
        if self.queue.packets.len() <= FEW_PACKETS {
            self.lost = 0;
        }
    }

    /// Whether there is a packet, and the first is neither open nor owed.
    #[inline(always)]
    fn is_first_closed(&self) -> bool
        ensures { result ≡ is_first_closed self.now.packets }
    {
        match self.queue.packets.front() {
            None => false,
            Some(packet) => packet.is_closed(),
        }
    }

    /// Whether there are many packets, most of which are acknowledged, discarded or declared lost.
    fn is_crowded(&self) -> bool {
        let count = self.queue.packets.len();
        FEW_PACKETS < count && self.entry_count().saturating_sub(self.lost) < count as u64 / 2
    }

    /// Drops the first packet or sets it aside, unless there is none or it has to stay. Whether it
    /// did.
    fn drop_first(&mut self) -> bool
        ensures sheds { result ≡ true → Sheds self.old self.new }
        ensures fewer { result ≡ true → length self.new.packets < length self.old.packets }
        ensures same { result ≡ false → self.new ≡ self.old }
        ensures closed { result ≡ false → is_first_closed self.old.packets ≡ false }
    {
        let crowded = self.is_crowded();
        match self.queue.packets.front() {
            None => false,
            Some(first) => {
                let packet = *first;
                self.shed_first(&packet, crowded)
            }
        }
    }

    /// The same, where there is one, by whether the queue is crowded.
    fn shed_first(&mut self, packet: &SentPacket, crowded: bool) -> bool
        requires { self.old.packets ≡ packet.now ∷ drop 1 self.old.packets }
        ensures sheds { result ≡ true → Sheds self.old self.new }
        ensures fewer { result ≡ true → length self.new.packets < length self.old.packets }
        ensures same { result ≡ false → self.new ≡ self.old }
        ensures closed { result ≡ false → is_first_closed self.old.packets ≡ false }
    {
        if !may_leave(&mut self.strays, packet, crowded) {
            return false;
        }
        let_go(&mut self.queue, &mut self.by_space);
        self.lost = self.lost.saturating_sub(packet.lost_count());
        true
    }

    /// The bytes of the packets of all spaces that are open and in flight (RFC 9002, B.2).
    pub fn bytes_in_flight(&self) -> u64
        ensures sum { result ≡ sum_by flight_bytes self.now.packets }
        ensures bound { result ≤ max_packet_size * 2 ^ 32 }
    {
        self.by_space.initial.in_flight
            + self.by_space.handshake.in_flight
            + self.by_space.app.in_flight
    }

    /// Whether a packet of the space is open and ack-eliciting, so that its acknowledgment is
    /// waited for (RFC 9002, section 6.2.1).
    #[inline(always)]
    pub fn awaits(&self, space: Space) -> bool
        ensures { result ≡ list_any (is_awaiting space) self.now.packets }
    {
        0 < self.by_space.of(space).awaiting
    }

    /// The first packet of the space that is open and in flight, by which the time is known when
    /// one is lost by its age (RFC 9002, section 6.1.2). None where there is none.
    #[inline(always)]
    pub fn first_flying(&self, space: Space) -> Option<SentPacket>
        ensures { result ≡ find (is_flying space) self.now.packets }
    {
        match self.first_flying_ref(space) {
            None => None,
            Some(packet) => Some(*packet),
        }
    }

    /// The same where it is kept, for whoever asks for little of it and needs no copy.
    #[inline(always)]
    pub fn first_flying_ref(&self, space: Space) -> Option<&SentPacket>
        ensures { option_copied result ≡ find (is_flying space) self.now.packets }
    {
        let at = (self.by_space.of(space).next - self.queue.dropped) as usize;
        match self.queue.packets.get(at) {
            None => None,
            Some(packet) => {
                if packet.flies_in(space) {
                    Some(packet)
                } else {
                    None
                }
            }
        }
    }

    /// Whether no packet of the space sets the loss detection timer: none is waited for, and none
    /// is open and in flight.
    #[inline(always)]
    pub fn is_idle(&self, space: Space) -> bool
        ensures { result ≡ (not (list_any (is_awaiting space) self.now.packets)
            && is_none (find (is_flying space) self.now.packets)) }
    {
        // A packet that is open would still be acknowledged.
        if self.by_space.of(space).unacknowledged.is_empty() {
            return true;
        }
        !self.awaits(space) && self.first_flying_ref(space).is_none()
    }

    /// How many entries there are by which acknowledgments find packets.
    fn entry_count(&self) -> u64
        ensures count { result
            ≡ length (unacknowledged_in Initial self.now.dropped self.now.packets)
            + length (unacknowledged_in Handshake self.now.dropped self.now.packets)
            + length (unacknowledged_in App self.now.dropped self.now.packets) }
        ensures bound { result ≤ length self.now.packets }
    {
        let by_space = &self.by_space;
        let entries = by_space.initial.unacknowledged.len()
            + by_space.handshake.unacknowledged.len()
            + by_space.app.unacknowledged.len();
        entries as u64
    }

    /// How many were set aside.
    fn aside_count(&self) -> u128
        ensures count { result ≡ aside_count self.now.strays }
        ensures small { result < 2 ^ 65 }
    {
        u128::from(self.strays.initial.len() as u64)
            + u128::from(self.strays.handshake.len() as u64)
            + u128::from(self.strays.app.len() as u64)
    }

    /// How much is kept: the packets, the entries by which an acknowledgment finds them, and the
    /// packets that were set aside. It is the sum of the lengths of the collections.
    pub fn kept_count(&self) -> u128
        ensures count { result ≡ length self.now.packets
            + (length (unacknowledged_in Initial self.now.dropped self.now.packets)
            + length (unacknowledged_in Handshake self.now.dropped self.now.packets)
            + length (unacknowledged_in App self.now.dropped self.now.packets))
            + aside_count self.now.strays }
        ensures bound { result ≤ 2 * length self.now.packets + aside_count self.now.strays }
        ensures small { result < 2 ^ 66 }
    {
        u128::from(self.queue.packets.len() as u64 + self.entry_count()) + self.aside_count()
    }
}
