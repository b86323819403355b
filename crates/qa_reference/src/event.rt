//! Questions to one event.
ghost use Rattle.std.specs.Prelude.{◌≡◌};
ghost use Rattle.qa_base.specs.values.Events as events;
ghost use Rattle.qa_base.specs.machine.Packets as packets;
ghost use Rattle.qa_reference.specs.Listed.{listed};

use qa_base::{Event, PacketNumber, Space, Span};

/// Whether a range has the number.
pub fn is_named(ranges: &[Span], number: PacketNumber) -> bool
    ensures { result ≡ events.is_named ranges.now number }
{
    for range in ranges {
        if range.lo() <= number && number <= range.hi() {
            return true;
        }
    }
    false
}

/// Whether the event is an acknowledgment of this number in this space.
pub fn acknowledges(event: &Event, in_space: Space, number: PacketNumber) -> bool
    ensures { result ≡ events.acknowledges in_space number event.now }
{
    match event {
        Event::Ack(ack) => in_space == ack.space && is_named(ack.ranges.as_slice(), number),
        _ => false,
    }
}

/// Whether the event declares this number of this space lost.
pub fn declares_lost(event: &Event, in_space: Space, number: PacketNumber) -> bool
    ensures { result ≡ events.declares_lost in_space number event.now }
{
    match event {
        Event::Lost { space, ranges, .. } => {
            in_space == *space && is_named(ranges.as_slice(), number)
        }
        _ => false,
    }
}

/// Whether the event discards the keys of this space.
pub fn discards(event: &Event, in_space: Space) -> bool
    ensures { result ≡ events.discards in_space event.now }
{
    match event {
        Event::Discard { space, .. } => in_space == *space,
        _ => false,
    }
}

/// The greatest number that the event acknowledges in the space.
pub fn greatest_in(event: &Event, in_space: Space) -> Option<u64>
    ensures { listed result ≡ packets.greatest_in in_space event.now }
{
    match event {
        Event::Ack(ack) if in_space == ack.space => Some(ack.ranges.greatest().get()),
        _ => None,
    }
}
