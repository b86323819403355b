//! Persistent congestion (RFC 9002, section 7.6).
ghost use Rattle.std.specs.Prelude.{◌≡◌};
ghost use Rattle.std.specs.List.{list_any};
ghost use Rattle.qa_base.specs.machine.Detection as detections;
ghost use Rattle.qa_base.specs.machine.Loss as loss;
ghost use Rattle.qa_base.specs.machine.Packets.{history_of};
ghost use Rattle.qa_reference.specs.Looks.{AreSeen, lost_in};

use crate::declared::{Losses, lost_of};
use crate::packet::{Packet, packet_of};
use crate::settled::is_acknowledged;
use qa_base::{Event, Header, Ticks};
use qa_recovery::Rtt;

/// Whether the packet was sent after the first sample.
fn is_after(first: Option<Ticks>, packet: Packet) -> bool
    ensures { result ≡ detections.is_after first packet }
{
    match first {
        None => false,
        Some(time) => time < packet.time,
    }
}

/// Whether the packet can be an end of persistent congestion: ack-eliciting, and sent after the
/// first sample.
fn is_end(rtt: Rtt, packet: Packet) -> bool
    ensures { result ≡ detections.is_end rtt packet }
{
    packet.eliciting && is_after(rtt.first_rtt_sample, packet)
}

/// Whether a packet that was sent between the two is acknowledged.
pub fn is_acknowledged_between(events: &[Event], first: Packet, second: Packet) -> bool
    ensures { result ≡ detections.is_acknowledged_between (history_of events.now) first second }
{
    let mut found = false;
    for (place, event) in events.iter().enumerate() {
        if let Some(packet) = packet_of(place, event) {
            if first.place < packet.place
                && packet.place < second.place
                && is_acknowledged(events, packet)
            {
                found = true;
            }
        }
    }
    found
}

/// Whether the two lie too far apart, and nothing that was sent between them was acknowledged.
fn are_ends(header: &Header, events: &[Event], rtt: Rtt, first: Packet, second: Packet) -> bool
    ensures { result ≡ detections.are_ends header.now rtt (history_of events.now) first second }
{
    let delay = Ticks::of(header.max_ack_delay());
    let apart = second.time.get().saturating_sub(first.time.get());
    is_end(rtt, first)
        && is_end(rtt, second)
        && rtt.persistent_after(header.granularity(), delay) < apart
        && !is_acknowledged_between(events, first, second)
}

/// Whether the packet and one that is lost by the last event establish persistent congestion.
fn has_end(header: &Header, events: &[Event], losses: Losses, first: Packet) -> bool
    ensures { result ≡ list_any
        (detections.are_ends header.now losses.look.rtt (history_of events.now) first)
        (lost_in (history_of events.now) losses (history_of events.now)) }
{
    let rtt = losses.rtt();
    let mut found = false;
    for (place, event) in events.iter().enumerate() {
        if let Some(packet) = lost_of(events, losses, place, event) {
            if are_ends(header, events, rtt, first, packet) {
                found = true;
            }
        }
    }
    found
}

/// Whether the last event establishes persistent congestion.
pub fn is_persistent(header: &Header, events: &[Event], losses: Losses) -> bool
    requires seen { AreSeen header.now (history_of events.now) losses }
    ensures { result ≡ loss.is_persistent header.now (history_of events.now) }
{
    let mut found = false;
    for (place, event) in events.iter().enumerate() {
        if let Some(packet) = lost_of(events, losses, place, event) {
            if has_end(header, events, losses, packet) {
                found = true;
            }
        }
    }
    found
}
