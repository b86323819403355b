//! The PTO count (RFC 9002, section 6.2.1).
ghost use Rattle.std.specs.Prelude.{List, ◌≡◌, ◌∷◌, ◌≤◌, ◌+◌, length};
ghost use Rattle.qa_base.specs.declared.event.Event.{Event};
ghost use Rattle.qa_base.specs.machine.Packets.{history_of};
ghost use Rattle.qa_base.specs.machine.Timer as timers;
ghost use Rattle.qa_reference.specs.Words.{is_discard as is_discard_of};

use crate::handshake::is_validated;
use crate::settled::acknowledges_new;
use qa_base::{Event, Header};

/// Whether the event discards the keys of a space.
pub fn is_discard(event: &Event) -> bool
    ensures { result ≡ is_discard_of event.now }
{
    match event {
        Event::Discard { .. } => true,
        _ => false,
    }
}

/// Whether the event sets the PTO count to 0.
pub fn resets_count(header: &Header, before: &[Event], event: &Event, after: &[Event]) -> bool
    requires whole { history_of after.now ≡ event.now ∷ history_of before.now }
    ensures { result ≡ timers.resets_count header.now (event.now ∷ history_of before.now) }
{
    is_discard(event) || (acknowledges_new(before, event) && is_validated(header, after))
}

/// The PTO count after the events: how many probe timeouts there were since the last event that
/// sets it to 0 (RFC 9002, section 6.2.1). Those are a discard, and an acknowledgment of something
/// new where the peer has validated the sender's address.
pub fn pto_count(header: &Header, events: &[Event]) -> u64
    ensures value { result ≡ timers.pto_count header.now (history_of events.now) }
    ensures bound { result ≤ length events.now }
{
    let mut count = 0;
    for (place, event) in events.iter().enumerate() {
        if resets_count(header, &events[..place], event, &events[..place + 1]) {
            count = 0;
        } else if event.is_pto() {
            count += 1;
        }
    }
    count
}
