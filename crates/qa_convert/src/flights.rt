//! The packets in flight of all packet number spaces.
use crate::flight::{Flight, Flying};
use qa_base::{PerSpace, Space, Span, Spans};
use std::alloc::{AllocError, Global};

/// How many packets may leave without an event. A sender that probes for packets takes out a few.
const MOST_FORGOTTEN: usize = 1_000;

/// The packets in flight of all packet number spaces.
#[derive(Drop)]
pub(crate) struct Flights {
    spaces: PerSpace<Flight>,
}

impl Flights {
    /// None. Takes no memory.
    pub(crate) fn new(alloc: Global) -> Flights {
        Flights {
            spaces: PerSpace {
                initial: Flight::new(alloc),
                handshake: Flight::new(alloc),
                app: Flight::new(alloc),
            },
        }
    }

    /// Those of a space.
    pub(crate) fn of(&self, space: Space) -> &Flight {
        self.spaces.of(space)
    }

    /// Those of a space, to be changed.
    pub(crate) fn of_mut(&mut self, space: Space) -> &mut Flight {
        self.spaces.of_mut(space)
    }

    /// The bytes of all.
    pub(crate) fn bytes(&self) -> u128 {
        let long = self
            .spaces
            .initial
            .bytes()
            .saturating_add(self.spaces.handshake.bytes());
        long.saturating_add(self.spaces.app.bytes())
    }

    /// Takes out those that ranges name; the last of those with the greatest number, and that.
    pub(crate) fn take_named(&mut self, space: Space, ranges: &Spans) -> Option<(u64, Flying)> {
        let flight = self.spaces.of_mut(space);
        let mut greatest: Option<(u64, Flying)> = None;
        for span in ranges.as_slice() {
            let last = take_span(flight, *span);
            greatest = greater_of(greatest, last);
        }
        greatest
    }
}

/// Takes out those that a span names; the last of them.
fn take_span(flight: &mut Flight, span: Span) -> Option<(u64, Flying)> {
    let mut last = None;
    while let Some((number, packet)) = flight.first_named(span) {
        flight.take(number);
        last = Some((number, packet));
    }
    last
}

/// The one with the greater number.
fn greater_of(one: Option<(u64, Flying)>, other: Option<(u64, Flying)>) -> Option<(u64, Flying)> {
    match (one, other) {
        (Some((here, packet)), Some((there, _))) if there < here => Some((here, packet)),
        (one, None) => one,
        (_, other) => other,
    }
}

/// Packets of a space that left the bytes in flight with no event.
#[derive(Drop)]
pub(crate) struct Forgotten {
    pub(crate) space: Space,
    /// Their numbers, which rise.
    pub(crate) numbers: Vec<u64>,
}

impl Flights {
    /// A space and its first packets that have just so many bytes together, if there are any.
    pub(crate) fn first_of_sum(
        &self,
        alloc: Global,
        total: u128,
    ) -> Result<Option<Forgotten>, AllocError> {
        for space in [Space::Initial, Space::Handshake, Space::App] {
            if let Some(numbers) = first_of(alloc, self.of(space), total)? {
                return Ok(Some(Forgotten { space, numbers }));
            }
        }
        Ok(None)
    }
}

/// The first packets that have just so many bytes together, if there are any.
fn first_of(alloc: Global, flight: &Flight, total: u128) -> Result<Option<Vec<u64>>, AllocError> {
    let mut numbers = Vec::new(alloc);
    let mut bytes = 0u128;
    let mut from = 0u64;
    for _ in 0..MOST_FORGOTTEN {
        if total <= bytes {
            break;
        }
        let Some((number, packet)) = flight.first_from(from) else {
            break;
        };
        numbers.push(number)?;
        bytes = bytes.saturating_add(u128::from(packet.size));
        from = number.saturating_add(1);
    }
    Ok(if bytes == total { Some(numbers) } else { None })
}
