//! A line that is written and read back, as a logger does it.
ghost use Rattle.std.specs.Prelude.{◌≡◌, true};
ghost use Rattle.qa_format.specs.format.Written.{line_fits};

use crate::tests::events::span;
use qa_trace::{Ack, Event, Fault, Line, LineFault, Space, Spans, Ticks, read_line, write_line};
use std::alloc::Global;

/// The ranges of packet 3 and of the packets from 0 to `hi`, in that order.
fn ranges_to(alloc: Global, hi: u64) -> Option<Spans> {
    let (first, second) = (span(3, 3)?, span(0, hi)?);
    let mut ranges = Spans::new(alloc);
    ranges.push(first).ok()?;
    ranges.push(second).ok()?;
    Some(ranges)
}

/// Whether a text is read as this line.
fn is_read(alloc: Global, text: &str, line: &Line) -> bool {
    match read_line(alloc, text.as_bytes()) {
        Ok(read) => read == *line,
        Err(_) => false,
    }
}

/// Whether a line is written so that it is read as itself.
fn is_read_as_written(alloc: Global, line: &Line) -> bool
    requires fitting { line_fits line.now ≡ true }
{
    match write_line(alloc, line) {
        Ok(text) => is_read(alloc, text.as_str(), line),
        Err(_) => false,
    }
}

/// An acknowledgment of packets 3, 0 and 1.
fn acknowledgment(alloc: Global) -> Option<Event> {
    Some(Event::Ack(Ack {
        time: Ticks::of(100_000),
        space: Space::App,
        ranges: ranges_to(alloc, 1)?,
        delay: 25_000,
        app_limited: false,
    }))
}

/// Whether it fits, and its line is read as it is written. These functions are an example of
/// docs/library.md.
fn is_acknowledgment_read(alloc: Global) -> Option<bool> {
    let event = acknowledgment(alloc)?;
    if !event.fits() {
        return None;
    }
    Some(is_read_as_written(alloc, &Line::Event(event)))
}

#[test]
fn a_line_is_written_and_read(rt: HostRuntime) {
    assert!(rt; is_acknowledgment_read(rt.alloc()) == Some(true));
}

/// Whether a line of LF is no JSON.
fn is_lf_no_json(alloc: Global) -> bool {
    match read_line(alloc, b"\n") {
        Ok(_) => false,
        Err(fault) => fault == LineFault::Fault(Fault::NotJson),
    }
}

/// To a line LF is no white space that makes it blank, and no line of a trace has one.
#[test]
fn lf_is_not_blank(rt: HostRuntime) {
    assert!(rt; is_lf_no_json(rt.alloc()));
}

/// An acknowledgment of packet 3, and of those from 0 to 3.
fn overlapping(alloc: Global) -> Option<Event> {
    Some(Event::Ack(Ack {
        time: Ticks::of(5),
        space: Space::App,
        ranges: ranges_to(alloc, 3)?,
        delay: 0,
        app_limited: false,
    }))
}

/// Whether its copy is the same.
fn is_copied(alloc: Global) -> Option<bool> {
    let event = overlapping(alloc)?;
    match event.duplicate(alloc) {
        Ok(copy) => Some(copy == event),
        Err(_) => None,
    }
}

/// Ranges that overlap and fall are copied as they stand.
#[test]
fn ranges_are_copied_in_their_order(rt: HostRuntime) {
    assert!(rt; is_copied(rt.alloc()) == Some(true));
}
