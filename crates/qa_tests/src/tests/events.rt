//! Parts of events that several tests are made of; None where a number is out of its range.
use qa_base::{Ack, Event, PacketNumber, Space, Span, Spans, Ticks};
use std::alloc::Global;

/// The packet numbers from `lo` to `hi`.
pub fn span(lo: u64, hi: u64) -> Option<Span> {
    Span::new(PacketNumber::new(lo)?, PacketNumber::new(hi)?)
}

/// The ranges of these numbers.
fn ranges_of(alloc: Global, span: Span) -> Option<Spans> {
    let mut ranges = Spans::new(alloc);
    match ranges.push(span) {
        Ok(()) => Some(ranges),
        Err(_) => None,
    }
}

/// An acknowledgment of one packet.
pub fn ack(alloc: Global, time: u64, number: u64) -> Option<Event> {
    let (time, span) = (Ticks::new(time)?, span(number, number)?);
    Some(Event::Ack(Ack {
        time,
        space: Space::App,
        ranges: ranges_of(alloc, span)?,
        delay: 0,
        app_limited: false,
    }))
}

/// A Lost line of the packets from `lo` to `hi`.
pub fn lost(alloc: Global, time: u64, lo: u64, hi: u64) -> Option<Event> {
    let (time, span) = (Ticks::new(time)?, span(lo, hi)?);
    Some(Event::Lost {
        time,
        space: Space::App,
        ranges: ranges_of(alloc, span)?,
    })
}
