//! Packets, as the events tell them that sent them.
ghost use Rattle.std.specs.Prelude.{◌≡◌, ◌≤◌, filter, min, unwrap_or};
ghost use Rattle.qa_base.specs.machine.Packets as packets;
ghost use Rattle.qa_base.specs.machine.Reno.{sent_mark};
ghost use Rattle.qa_base.specs.values.Limits.{max_time};
ghost use Rattle.qa_reference.specs.Listed.{listed};

use qa_base::{Event, Header, PacketNumber, Permission, Space, Ticks};
use std::marker::Model;

/// A packet, as the event tells it that sent it (RFC 9002, A.1).
#[derive(Clone, Copy)]
pub struct Packet {
    /// How many events stand before the one that sent it.
    pub place: usize,
    /// When it was sent.
    pub time: Ticks,
    /// Its packet number space.
    pub space: Space,
    /// Its number in that space.
    pub number: PacketNumber,
    /// Its size in bytes.
    pub size: u64,
    /// Whether it asks for an acknowledgment.
    pub eliciting: bool,
    /// Whether it counts as in flight (RFC 9002, section 2).
    pub in_flight: bool,
    /// By whose leave it went out.
    pub permission: Permission,
}

impl Model for Packet {
    ghost use Rattle.qa_base.specs.machine.Packets.{Packet as Shown};

    ghost Value = { Shown };

    ghost view = { λ p. record {
      place = p.place;
      time = p.time;
      space = p.space;
      number = p.number;
      size = p.size;
      eliciting = p.eliciting;
      in_flight = p.in_flight;
      permission = p.permission;
    } };

    ghost inverse = { λ p. record {
      place = p.place;
      time = p.time;
      space = p.space;
      number = p.number;
      size = p.size;
      eliciting = p.eliciting;
      in_flight = p.in_flight;
      permission = p.permission;
    } };
}

impl Packet {
    /// When it was sent, by which recovery is told: its time, or its place where the header says
    /// that the order of the lines decides (RFC 9002, section 7.3.2, B.5).
    pub(crate) fn mark(&self, header: &Header) -> Ticks
        requires { self.now.place ≤ max_time }
        ensures { result ≡ sent_mark header.now self.now }
    {
        if header.options().recovery_by_order {
            Ticks::of(self.place as u64)
        } else {
            self.time
        }
    }
}

/// The packet that the event sent, where `place` events stand before it; None of an event that
/// sent none.
pub fn packet_of(place: usize, event: &Event) -> Option<Packet>
    ensures { listed result ≡ packets.packet_of place event.now }
{
    match event {
        Event::Sent(packet) => Some(Packet {
            place,
            time: packet.time,
            space: packet.space,
            number: packet.number,
            size: packet.size,
            eliciting: packet.eliciting,
            in_flight: packet.in_flight,
            permission: packet.permission,
        }),
        _ => None,
    }
}

/// The same, of an event that sent one of the space.
pub fn packet_in(space: Space, place: usize, event: &Event) -> Option<Packet>
    ensures { listed result ≡ filter (packets.is_of space) (packets.packet_of place event.now) }
{
    match packet_of(place, event) {
        Some(packet) if space == packet.space => Some(packet),
        _ => None,
    }
}

/// The earlier of the two times.
pub fn sooner(least: Option<Ticks>, time: Ticks) -> Ticks
    ensures { result ≡ min time (unwrap_or least time) }
{
    match least {
        None => time,
        Some(least) => time.min(least),
    }
}

/// Whether the number is below the largest that was acknowledged.
pub fn is_below_largest(number: u64, largest: Option<u64>) -> bool
    ensures { result ≡ packets.is_below_largest number largest }
{
    match largest {
        None => false,
        Some(largest) => number < largest,
    }
}
