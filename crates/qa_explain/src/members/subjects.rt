//! What an event is.
ghost use Rattle.std.specs.Prelude.{◌≡◌, ◌++◌, OnOk};
ghost use Rattle.qa_explain.specs.members.Subjects as text;

use crate::members::object::Object;
use qa_base::{Ack, Event, LineKind, SentPacket, TimeUnit};
use std::alloc::AllocError;

/// The kind of an event, and its time.
#[tactic(auto, unfolding(crate::specs::members::Subjects::moment))]
fn push_moment(
    out: &mut Object,
    unit: TimeUnit,
    kind: LineKind,
    time: u64,
) -> Result<(), AllocError>
    ensures { OnOk result (out.new ≡ out.old ++ text.moment unit kind time) }
{
    out.string("event", kind.name())?;
    out.amount("time", unit.name(), u128::from(time))
}

#[tactic(auto, unfolding(crate::specs::members::Subjects::packet))]
fn push_packet(out: &mut Object, packet: &SentPacket) -> Result<(), AllocError>
    ensures { OnOk result (out.new ≡ out.old ++ text.packet packet.now) }
{
    out.string("space", packet.space.name())?;
    out.number("number", u128::from(packet.number.get()))?;
    out.amount("size", "bytes", u128::from(packet.size))
}

/// What the event says beside its kind and its time.
#[tactic(auto, unfolding(crate::specs::members::Subjects::object_of))]
fn push_object(out: &mut Object, event: &Event) -> Result<(), AllocError>
    ensures { OnOk result (out.new ≡ out.old ++ text.object_of event.now) }
{
    match event {
        Event::Sent(packet) => push_packet(out, packet),
        Event::Ack(Ack { space, .. }) | Event::Lost { space, .. } | Event::Discard { space, .. } =>
            out.string("space", space.name()),
        Event::Timer { kind, space, .. } => {
            out.string("kind", kind.name())?;
            out.string("space", space.name())
        }
        Event::Confirmed { .. } | Event::Keys { .. } | Event::Metrics { .. } => Ok(()),
    }
}

/// Writes what the event is.
#[tactic(auto, unfolding(crate::specs::members::Subjects::subject))]
pub fn push_subject(out: &mut Object, unit: TimeUnit, event: &Event) -> Result<(), AllocError>
    ensures { OnOk result (out.new ≡ out.old ++ text.subject unit event.now) }
{
    push_moment(out, unit, event.kind(), event.time().get())?;
    push_object(out, event)
}
