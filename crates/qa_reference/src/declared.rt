//! What is lost by an event: by a detection, and by the Lost line that completes one (RFC 9002,
//! section
//! 6.1).
ghost use Rattle.std.specs.Prelude.{◌≡◌, ◌&&◌, ◌∷◌, filter};
ghost use Rattle.std.specs.List.{list_any};
ghost use Rattle.qa_base.specs.machine.Packets as packets;
ghost use Rattle.qa_base.specs.machine.Packets.{history_of};
ghost use Rattle.qa_reference.specs.Listed.{listed};
ghost use Rattle.qa_reference.specs.Looks.{AreSeen, IsLook, is_lost_by, is_named_by, is_taken_by};

use crate::event::declares_lost;
use crate::losses::{Look, is_found, is_left, look_by};
use crate::packet::{Packet, packet_of};
use qa_base::{Event, Header};
use qa_recovery::Rtt;
use std::marker::Model;

/// What is found out of a history once, before its packets are asked which are lost by its last
/// event.
#[derive(Clone, Copy)]
pub struct Losses {
    /// What is known of the history; where its last event is a Lost line, of the one before that.
    pub look: Look,
    /// Whether that Lost line names a packet that was free, so that it completes a detection.
    pub completes: bool,
}

impl Model for Losses {
    ghost use Rattle.qa_reference.specs.Looks.{SeenLosses};

    ghost Value = { SeenLosses };

    ghost view = { λ l. record { look = l.look; completes = l.completes } };

    ghost inverse = { λ l. record { look = l.look; completes = l.completes } };
}

impl Losses {
    /// The estimate of the round-trip time by which they are found.
    pub fn rtt(self) -> Rtt
        ensures { result ≡ self.look.rtt }
    {
        let look = self.look;
        look.rtt
    }
}

/// Whether the packet was free after these events, and the event names it.
fn is_named_free(before: &[Event], look: Look, event: &Event, packet: Packet) -> bool
    ensures { result ≡ is_named_by (history_of before.now) look event.now packet }
{
    is_left(before, look, packet) && declares_lost(event, packet.space, packet.number)
}

/// Whether the event names a packet that was free after these events.
fn completes(before: &[Event], look: Look, event: &Event) -> bool
    ensures { result ≡ list_any (is_named_by (history_of before.now) look event.now)
        (packets.packets (history_of before.now)) }
{
    let mut found = false;
    for (place, earlier) in before.iter().enumerate() {
        if let Some(packet) = packet_of(place, earlier) {
            if is_named_free(before, look, event, packet) {
                found = true;
            }
        }
    }
    found
}

/// What is found out after one more event, by what is known of the history with it.
pub fn losses_at(
    header: &Header,
    before: &[Event],
    event: &Event,
    after: &[Event],
    look: Look,
) -> Losses
    requires whole { history_of after.now ≡ event.now ∷ history_of before.now }
    requires seen { IsLook header.now (history_of after.now) look }
    ensures { AreSeen header.now (history_of after.now) result }
{
    match event {
        Event::Lost { .. } => {
            let look = look_by(header, before, look.rtt);
            Losses {
                look,
                completes: completes(before, look, event),
            }
        }
        _ => Losses {
            look,
            completes: false,
        },
    }
}

/// Whether a packet was owed after these events, or was free and the event names it.
fn is_taken(before: &[Event], look: Look, event: &Event, packet: Packet) -> bool
    ensures { result ≡ is_taken_by (history_of before.now) look event.now packet }
{
    is_found(before, look, packet) || is_named_free(before, look, event, packet)
}

/// Whether by what is known the packet is lost by the last event.
pub fn is_lost(events: &[Event], losses: Losses, packet: Packet) -> bool
    ensures { result ≡ is_lost_by (history_of events.now) losses packet }
{
    let Some((event, before)) = events.split_last() else {
        return is_found(events, losses.look, packet);
    };
    match event {
        Event::Lost { .. } => losses.completes && is_taken(before, losses.look, event, packet),
        _ => is_found(events, losses.look, packet),
    }
}

/// The packet that the event sent, where by what is known it is lost by the last of the events.
pub fn lost_of(events: &[Event], losses: Losses, place: usize, event: &Event) -> Option<Packet>
    ensures { listed result
        ≡ filter (is_lost_by (history_of events.now) losses) (packets.packet_of place event.now) }
{
    match packet_of(place, event) {
        Some(packet) if is_lost(events, losses, packet) => Some(packet),
        _ => None,
    }
}
