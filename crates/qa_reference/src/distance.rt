//! How far a packet lies below the largest acknowledged number (RFC 9002, section 6.1.1).
ghost use Rattle.std.specs.Prelude.{nat_le, nat_lt, ◌&&◌, ◌≡◌};
ghost use Rattle.qa_base.specs.machine.Detection as detections;
ghost use Rattle.qa_base.specs.machine.Packets.{history_of};

use crate::packet::{Packet, packet_in};
use qa_base::{Event, Space, ThresholdCounts};

/// Whether the packet has a number above this one and up to another.
fn is_between(packet: Packet, number: u64, largest: u64) -> bool
    ensures { result ≡ (nat_lt number packet.number && nat_le packet.number largest) }
{
    number < packet.number.get() && packet.number.get() <= largest
}

/// How many packets of the space were sent with such a number.
fn count_between(events: &[Event], space: Space, number: u64, largest: u64) -> u64
    ensures { result ≡ detections.count_between (history_of events.now) space number largest }
{
    let mut count = 0;
    for (place, event) in events.iter().enumerate() {
        if let Some(packet) = packet_in(space, place, event) {
            if is_between(packet, number, largest) {
                count += 1;
            }
        }
    }
    count
}

/// How far a number of the space lies below another: by the numbers, or by the packets that were
/// sent.
pub fn distance_below(
    counts: ThresholdCounts,
    events: &[Event],
    space: Space,
    number: u64,
    largest: u64,
) -> u64
    ensures { result ≡ detections.distance_below counts (history_of events.now) space number
        largest }
{
    match counts {
        ThresholdCounts::Numbers => largest.saturating_sub(number),
        ThresholdCounts::Packets => count_between(events, space, number, largest),
    }
}
