//! Detection of losses (RFC 9002, section 6.1, A.10): a walk along the packets of a space.
ghost use Rattle.std.specs.Prelude.{◌≡◌, ◌≤◌, ◌<◌, ◌+◌, ℕ, false, true, count_by, drop};
ghost use Rattle.std.specs.Prelude.{length, map, slice_index_or, slice_set};
ghost use Rattle.qa_base.specs.machine.Detection.{is_old};
ghost use Rattle.qa_sent_packets.specs.Detection.{IsEnd, IsPassed, lost_in};
ghost use Rattle.qa_sent_packets.specs.Fates.{is_owed};
ghost use Rattle.qa_sent_packets.specs.Held.{AreLosses, AreOrdered, IsIndexed, IsSpacePackets};
ghost use Rattle.qa_sent_packets.specs.Owing.{NoneOwed};
ghost use Rattle.qa_sent_packets.specs.Steps.{found_by, is_past_threshold_by, packet_at};
ghost use Rattle.qa_sent_packets.specs.declared.packet.SentPacket.{SentPacket};
ghost use Rattle.qa_base.specs.values.Limits.{max_lines};

use crate::fate::Fate;
use crate::packet::SentPacket;
use crate::packets::Losses;
use crate::queue::PacketQueue;
use crate::space_packets::SpacePackets;
use qa_base::{Header, PacketNumber, Space};
use qa_recovery::Rtt;
use std::collections::VecDeque;
use std::marker::Model;

// The clauses below write `.entry.now` for what a reference to a `Thresholds` points to, since
// `.now` alone is its field.

/// By what a detection tells which packets are past a threshold.
#[derive(Clone, Copy)]
pub struct Thresholds {
    /// The header, for the packet threshold and the granularity.
    pub header: Header,
    /// The estimate of the round-trip time.
    pub rtt: Rtt,
    /// As of when it looks.
    pub now: u64,
    /// The largest acknowledged number of the space, if there is one.
    pub largest: Option<PacketNumber>,
    /// Above the numbers that lie below that by the packet threshold, whether numbers are counted
    /// or packets (RFC 9002, section 6.1.1).
    pub far_end: u64,
}

impl Model for Thresholds {
    ghost use Rattle.qa_sent_packets.specs.Steps as steps;

    ghost Value = { steps.Thresholds };

    ghost view = { λ l. record {
      header = l.header;
      rtt = l.rtt;
      now = l.now;
      largest = l.largest;
      far_end = l.far_end;
    } };

    ghost inverse = { λ l. record {
      header = l.header;
      rtt = l.rtt;
      now = l.now;
      largest = l.largest;
      far_end = l.far_end;
    } };
}

impl Thresholds {
    /// Whether the packet is below the largest acknowledged number, for long enough or, where such
    /// packets must be lost, by the packet threshold (RFC 9002, sections 6.1.1 and 6.1.2).
    fn is_past_threshold(&self, packet: &SentPacket) -> bool
        ensures { result ≡ is_past_threshold_by self.entry.now packet.now }
    {
        match self.largest {
            None => false,
            Some(largest) => {
                let number = packet.number.get();
                let is_optional = self.header.options().loss_by_number.is_may();
                number < largest.get()
                    && ((!is_optional && number < self.far_end) || self.is_old(packet))
            }
        }
    }

    /// Whether the packet was sent as long ago as the loss delay.
    fn is_old(&self, packet: &SentPacket) -> bool
        ensures { result ≡ is_old self.entry.now.header self.entry.now.rtt self.entry.now.now
            (packet_at packet.now) }
    {
        let age = self.now.saturating_sub(packet.time.get());
        self.rtt.loss_delay(&self.header) <= age
    }
}

impl PacketQueue {
    /// Looks for losses in the space, and raises its `next` to where the walk
    /// ends.
    pub(crate) fn detect(
        &mut self,
        space_packets: &mut SpacePackets,
        space: Space,
        thresholds: &Thresholds,
    ) -> Losses
        requires few { self.old.dropped + length self.old.packets.items ≤ max_lines }
        requires space_packets { IsSpacePackets space self.old.dropped self.old.packets.items
            space_packets.old }
        requires settled { NoneOwed self.old.packets.items }
        requires ordered { AreOrdered self.old.packets.items }
        ensures dropped { self.new.dropped ≡ self.old.dropped }
        ensures packets { self.new.packets.items
            ≡ map (found_by space thresholds.entry.now) self.old.packets.items }
        ensures space_packets { IsSpacePackets space self.new.dropped self.new.packets.items
            space_packets.new }
        ensures losses { AreLosses self.new.dropped self.new.packets.items result }
    {
        let from = space_packets.next;
        let mut count = 0;
        let mut at = (from - self.dropped) as usize;
        while goes_on(&self.packets, space, thresholds, at) {
            pass(&mut self.packets, space_packets, space, at, &mut count);
            at += 1;
        }
        space_packets.next = self.dropped + at as u64;
        Losses {
            space,
            count,
            from,
            to: space_packets.next,
        }
    }
}

/// Whether a detection goes on behind this index: the packet there does not fly, or it is past
/// a threshold.
pub(crate) fn goes_on(
    packets: &VecDeque<SentPacket>,
    space: Space,
    thresholds: &Thresholds,
    at: usize,
) -> bool
    ensures passes { result ≡ true → IsPassed space thresholds.entry.now at packets.now.items }
    ensures ends { result ≡ false → IsEnd space thresholds.entry.now (drop at packets.now.items) }
{
    match packets.get(at) {
        None => false,
        Some(packet) => !packet.flies_in(space) || thresholds.is_past_threshold(packet),
    }
}

/// Passes the packet at this index: if it flies it is found lost, leaves the sums and is counted.
pub(crate) fn pass(
    packets: &mut VecDeque<SentPacket>,
    space_packets: &mut SpacePackets,
    space: Space,
    at: usize,
    count: &mut u64,
)
    requires few { length packets.old.items ≤ max_lines }
    requires within { at < length packets.old.items }
    requires indexed { (d : ℕ) × IsIndexed space d packets.old.items space_packets.old }
    requires count { count.old ≡ count_by (λ p. is_owed p.fate) packets.old.items }
    ensures packets { (p : SentPacket) → p ≡ slice_index_or packets.old.items at p
        → packets.new.items ≡ slice_set packets.old.items at (lost_in space p) }
    ensures indexed { (d : ℕ) → IsIndexed space d packets.old.items space_packets.old
        → IsIndexed space d packets.new.items space_packets.new }
    ensures count { count.new ≡ count_by (λ p. is_owed p.fate) packets.new.items }
    ensures next { space_packets.new.next ≡ space_packets.old.next }
{
    let packet = &mut packets[at];
    if packet.flies_in(space) {
        space_packets.take_off(packet);
        packet.fate = Fate::Owed;
        *count += 1;
    }
}
