//! What an event is, at the head of a sentence.
ghost use Rattle.std.specs.Prelude.{◌≡◌, ◌++◌, OnOk, string_bytes};
ghost use Rattle.qa_explain.specs.text.Subjects as text;

use crate::text::pieces::{push_name, push_number, push_words};
use qa_base::Event;
use std::alloc::AllocError;

/// Appends what the event is.
#[tactic(auto, unfolding(crate::specs::text::Subjects::subject))]
pub fn push_subject(out: &mut String, event: &Event) -> Result<(), AllocError>
    ensures { OnOk result (string_bytes out.new
        ≡ string_bytes out.old ++ text.subject event.now) }
{
    match event {
        Event::Sent(packet) => {
            push_number(out, "packet ", packet.number.get())?;
            push_name(out, " of ", packet.space.name())
        }
        Event::Ack(ack) => push_name(out, "the acknowledgment of ", ack.space.name()),
        Event::Lost { space, .. } => push_name(out, "the lost line of ", space.name()),
        Event::Timer { kind, space, .. } => {
            push_name(out, "the ", kind.name())?;
            push_name(out, " timer of ", space.name())
        }
        Event::Discard { space, .. } => push_name(out, "the discard of ", space.name()),
        Event::Confirmed { .. } => push_words(out, "the confirmation of the handshake"),
        Event::Keys { .. } => push_words(out, "the line of the handshake keys"),
        Event::Metrics { .. } => push_words(out, "the report"),
    }
}
