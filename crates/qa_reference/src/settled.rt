//! What became of packets: acknowledged, declared lost, or discarded with their space.
ghost use Rattle.std.specs.Prelude.{◌≡◌, ◌∷◌, ◌+◌, drop};
ghost use Rattle.std.specs.List.{list_any};
ghost use Rattle.qa_base.specs.values.Events as questions;
ghost use Rattle.qa_base.specs.machine.Packets as packets;
ghost use Rattle.qa_base.specs.machine.Packets.{history_of};
ghost use Rattle.qa_reference.specs.Words as spec;

use crate::event::{acknowledges, declares_lost, discards, greatest_in};
use crate::packet::{Packet, packet_of};
use qa_base::{Event, Space};

/// The events behind the one that sent the packet.
fn behind(events: &[Event], packet: Packet) -> &[Event]
    ensures { result.now ≡ drop (packet.place + 1) events.now }
{
    if packet.place < events.len() {
        &events[packet.place + 1..]
    } else {
        &events[events.len()..]
    }
}

/// Whether one of the events acknowledges the packet's number in its space.
fn some_acknowledges(events: &[Event], packet: Packet) -> bool
    ensures { result ≡ list_any (questions.acknowledges packet.space packet.number) events.now }
{
    for event in events {
        if acknowledges(event, packet.space, packet.number) {
            return true;
        }
    }
    false
}

/// Whether one of the events declares the packet's number in its space lost.
fn some_declares_lost(events: &[Event], packet: Packet) -> bool
    ensures { result ≡ list_any (questions.declares_lost packet.space packet.number) events.now }
{
    for event in events {
        if declares_lost(event, packet.space, packet.number) {
            return true;
        }
    }
    false
}

/// Whether an acknowledgment that came after the packet covers its number in its space, also one
/// that came after the packet was declared lost (RFC 9002, A.7).
pub fn is_acknowledged(events: &[Event], packet: Packet) -> bool
    ensures { result ≡ packets.is_acknowledged (history_of events.now) packet }
{
    some_acknowledges(behind(events, packet), packet)
}

/// Whether the sender declared the packet lost after it was sent: a Lost line of its space names
/// its number (RFC 9002, A.10).
pub fn is_declared_lost(events: &[Event], packet: Packet) -> bool
    ensures { result ≡ packets.is_declared_lost (history_of events.now) packet }
{
    some_declares_lost(behind(events, packet), packet)
}

/// Whether the keys of the space were discarded (RFC 9002, section 6.4).
pub fn is_discarded(events: &[Event], space: Space) -> bool
    ensures { result ≡ packets.is_discarded (history_of events.now) space }
{
    events.iter().any(|event| discards(event, space))
}

/// Whether an event after these newly acknowledges the packet: it acknowledges it, and the packet
/// was neither acknowledged nor declared lost before (RFC 9002, A.7).
pub fn is_newly_acknowledged(before: &[Event], event: &Event, packet: Packet) -> bool
    ensures { result ≡ packets.is_newly_acknowledged event.now (history_of before.now) packet }
{
    acknowledges(event, packet.space, packet.number)
        && !is_acknowledged(before, packet)
        && !is_declared_lost(before, packet)
}

/// Whether an event after these newly acknowledges some packet.
pub fn acknowledges_new(before: &[Event], event: &Event) -> bool
    ensures { result ≡ packets.acknowledges_new (event.now ∷ history_of before.now) }
{
    let mut found = false;
    for (place, earlier) in before.iter().enumerate() {
        if let Some(packet) = packet_of(place, earlier) {
            if is_newly_acknowledged(before, event, packet) {
                found = true;
            }
        }
    }
    found
}

/// The largest number that was acknowledged in the space; None before any acknowledgment there
/// (RFC 9002, A.3).
pub fn largest_acknowledged(events: &[Event], space: Space) -> Option<u64>
    ensures { result ≡ packets.largest_acknowledged (history_of events.now) space }
{
    let mut most = None;
    for event in events {
        most = raised(most, greatest_in(event, space));
    }
    most
}

/// The greater of the two, where both are there.
fn raised(most: Option<u64>, more: Option<u64>) -> Option<u64>
    ensures { result ≡ spec.raised more most }
{
    match (most, more) {
        (most, None) => most,
        (None, Some(number)) => Some(number),
        (Some(most), Some(number)) => Some(number.max(most)),
    }
}
