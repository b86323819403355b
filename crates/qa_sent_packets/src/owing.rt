//! The packets that are owed: that a detection found lost, until they are declared.
ghost use Rattle.std.specs.Prelude.{◌≡◌, ◌≤◌, ◌||◌, ◌∷◌, length, None, List, slice_range, IfOk};
ghost use Rattle.qa_sent_packets.specs.Walks as walks;
ghost use Rattle.qa_sent_packets.specs.declared.packet.SentPacket.{SentPacket};

use crate::fate::Fate;
use crate::packet::SentPacket;
use qa_base::{PacketNumber, Ticks};
use std::alloc::{AllocError, Global};
use std::collections::VecDeque;
use std::ops::Range;

/// The numbers of the packets in this part that are owed.
pub(crate) fn owed_numbers_in(
    alloc: Global,
    packets: &VecDeque<SentPacket>,
    part: Range<usize>,
) -> Result<Vec<PacketNumber>, AllocError>
    requires order { part.start ≤ part.end }
    requires within { part.end ≤ length packets.now.items }
    ensures { IfOk result (λ found. found.items
        ≡ walks.owed_numbers (slice_range packets.now.items part.start part.end)) }
{
    let mut found = Vec::new(alloc);
    for packet in packets.range(part) {
        if packet.is_owed() {
            found.push(packet.number)?;
        }
    }
    Ok(found)
}

/// When the last of the packets in this part was sent that are owed, by which recovery is told.
#[inline(never)]
pub(crate) fn last_owed_in(
    packets: &VecDeque<SentPacket>,
    part: Range<usize>,
    by_order: bool,
) -> Option<Ticks>
    requires order { part.start ≤ part.end }
    requires within { part.end ≤ length packets.now.items }
    ensures { result ≡ walks.last_owed by_order None
        (slice_range packets.now.items part.start part.end) }
{
    let mut last = None;
    for packet in packets.range(part) {
        if packet.is_owed() {
            last = Some(packet.mark(by_order));
        }
    }
    last
}

/// Whether two of the packets in this part that are owed establish persistent congestion.
#[inline(never)]
pub(crate) fn are_apart_in(
    packets: &VecDeque<SentPacket>,
    part: Range<usize>,
    limit: u64,
    first: Ticks,
) -> bool
    requires order { part.start ≤ part.end }
    requires within { part.end ≤ length packets.now.items }
    ensures { result ≡ walks.are_apart limit first None
        (slice_range packets.now.items part.start part.end) }
{
    let mut began: Option<Ticks> = None;
    for packet in packets.range(part) {
        if is_far(packet, limit, first, &mut began) {
            return true;
        }
    }
    false
}

/// Whether the packet is an end of persistent congestion that lies too far from the first end since
/// the last acknowledged packet. `began` is when that one was sent, and is set for what comes next.
pub(crate) fn is_far(
    packet: &SentPacket,
    limit: u64,
    first: Ticks,
    began: &mut Option<Ticks>,
) -> bool
    ensures { (ps : List SentPacket)
        → walks.are_apart limit first began.old (packet.now ∷ ps)
        ≡ (result || walks.are_apart limit first began.new ps) }
{
    if packet.fate == Fate::Acknowledged {
        *began = None;
        return false;
    }
    if !is_end(packet, first) {
        return false;
    }
    match *began {
        None => {
            *began = Some(packet.time);
            false
        }
        Some(time) => packet.time.get().saturating_sub(time.get()) > limit,
    }
}

/// Whether the packet is owed and can be an end of persistent congestion: ack-eliciting, and sent
/// after the first sample.
pub(crate) fn is_end(packet: &SentPacket, first: Ticks) -> bool
    ensures { result ≡ walks.is_end first packet.now }
{
    packet.is_owed() && packet.eliciting && first < packet.time
}
