//! How far the handshake is.
ghost use Rattle.std.specs.Prelude.{◌≡◌};
ghost use Rattle.std.specs.List.{list_any};
ghost use Rattle.qa_base.specs.machine.Handshake as handshake;
ghost use Rattle.qa_base.specs.machine.Packets.{history_of};

use qa_base::{Event, Header, Role, Space};

/// Whether the event confirms the handshake.
fn confirms(event: &Event) -> bool
    ensures { result ≡ handshake.confirms event.now }
{
    match event {
        Event::Confirmed { .. } => true,
        _ => false,
    }
}

/// Whether the handshake is confirmed (RFC 9001, section 4.1.2).
pub fn is_confirmed(events: &[Event]) -> bool
    ensures { result ≡ handshake.is_confirmed (history_of events.now) }
{
    events.iter().any(confirms)
}

/// Whether the event is an acknowledgment of Handshake packets.
fn acknowledges_handshake(event: &Event) -> bool
    ensures { result ≡ handshake.acknowledges_handshake event.now }
{
    match event {
        Event::Ack(ack) => ack.space == Space::Handshake,
        _ => false,
    }
}

/// Whether an acknowledgment of Handshake packets came.
fn is_handshake_acknowledged(events: &[Event]) -> bool
    ensures { result ≡ list_any handshake.acknowledges_handshake (history_of events.now) }
{
    events.iter().any(acknowledges_handshake)
}

/// Whether the peer has validated the sender's address: a server's peer always has (RFC 9002, A.8).
pub fn is_validated(header: &Header, events: &[Event]) -> bool
    ensures { result ≡ handshake.is_validated header.now (history_of events.now) }
{
    header.role() == Role::Server || is_handshake_acknowledged(events) || is_confirmed(events)
}

/// Whether the event shows that the keys of the Handshake space are there.
fn shows_keys(event: &Event) -> bool
    ensures { result ≡ handshake.shows_keys event.now }
{
    match event {
        Event::Keys { .. } => true,
        Event::Sent(packet) => packet.space == Space::Handshake,
        Event::Discard { space, .. } => *space == Space::Initial,
        _ => false,
    }
}

/// Whether the keys of the Handshake space are there.
pub fn has_keys(events: &[Event]) -> bool
    ensures { result ≡ handshake.has_keys (history_of events.now) }
{
    events.iter().any(shows_keys)
}
