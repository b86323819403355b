//! Records and lines of the largest length.
ghost use Rattle.std.specs.Prelude.{◌≡◌, true, None, IfOk, OnOk};
ghost use Rattle.qa_format.specs.format.Written.{line_fits};

use qa_base::{Event, PacketNumber, Space, Span, Spans, Ticks};
use qa_convert::{NotedFault, OwnKeys, push_noted};
use qa_format::Line;
use qa_qlog::{CutFault, DocumentCutter, Mark, TextFault, Texts};
use std::alloc::{AllocError, Global};
use std::test::Fail;

/// Whether the next text begins in this line and has these bytes.
fn is_next_text(texts: &mut Texts, line: u64, bytes: &[u8]) -> bool {
    match texts.next_text() {
        Ok(Some(text)) => text.line == line && text.bytes == bytes,
        _ => false,
    }
}

/// So many digits 1.
fn ones(alloc: Global, len: usize) -> Result<Vec<u8>, AllocError> {
    vec![in alloc; b'1'; len]
}

/// A text of 1 MiB is one, and one of a byte more is not.
#[test]
fn a_long_text(rt: HostRuntime) -> Result<(), Fail> {
    let long = ones(rt.alloc(), 1_048_576)?;
    let mut texts = Texts::new(rt.alloc(), Mark::LineFeed);
    texts.feed(&long)?;
    texts.feed(b"\n")?;
    texts.feed(&long)?;
    texts.feed(b"x")?;
    assert!(rt; is_next_text(&mut texts, 1, &long));
    assert!(rt; texts.next_text() == Err(TextFault::TooLong(2)));
    assert!(rt; texts.next_text() == Err(TextFault::TooLong(2)));
    let message = format!(in rt.alloc(); "{}", TextFault::TooLong(2))?;
    assert!(rt; message.as_str() == "line 2: a record of more than 1,048,576 bytes");
    Ok(())
}

/// A log that begins with these bytes.
fn log_of(alloc: Global, part: &[u8]) -> Result<DocumentCutter, AllocError>
    ensures { IfOk result (λ log. log.refused ≡ None) }
{
    let mut log = DocumentCutter::new(alloc);
    log.feed(part)?;
    Ok(log)
}

/// Takes the next part of a log.
fn feed(log: &mut DocumentCutter, part: &[u8]) -> Result<(), AllocError>
    requires { log.old.refused ≡ None }
    ensures { OnOk result (log.new.refused ≡ None) }
{
    log.feed(part)
}

/// Whether the next record is of this trace, begins at this byte and has these bytes.
fn next_is(log: &mut DocumentCutter, trace: u64, place: u64, bytes: &[u8]) -> bool
    ensures { result ≡ true → log.new.refused ≡ None }
{
    match log.next_record() {
        Ok(Some(record)) => record.trace == trace && record.place == place && record.bytes == bytes,
        _ => false,
    }
}

/// A record of 1 MiB is one, and one of a byte more is not.
#[test]
fn a_long_record(rt: HostRuntime) -> Result<(), Fail> {
    let long = ones(rt.alloc(), 1_048_576)?;
    let mut log = log_of(rt.alloc(), b"{\"traces\":[{\"events\":[")?;
    feed(&mut log, &long)?;
    feed(&mut log, b",")?;
    assert!(rt; next_is(&mut log, 1, 22, &long));
    feed(&mut log, b"\"")?;
    feed(&mut log, &long)?;
    assert!(rt; log.next_record() == Err(CutFault::RecordTooLong(1_048_599)));
    let message = format!(in rt.alloc(); "{}", CutFault::RecordTooLong(7))?;
    assert!(rt; message.as_str() == "byte 7: a record of more than 1,048,576 bytes");
    Ok(())
}

/// The text of a line with no own keys.
fn plain_text(alloc: Global, line: &Line) -> Result<Vec<u8>, NotedFault> {
    let mut out = Vec::new(alloc);
    if fits(line) {
        push_noted(alloc, line, OwnKeys::new(alloc), &mut out)?;
    }
    Ok(out)
}

/// Whether the line is one that can be written.
fn fits(line: &Line) -> bool
    ensures { result ≡ line_fits line.now }
{
    match line {
        Line::Event(event) => event.fits(),
        _ => true,
    }
}

/// A Lost line of so many ranges, each of one packet whose number has nine digits.
fn lost(alloc: Global, count: u64, time: u64) -> Option<Line> {
    let mut ranges = Spans::new(alloc);
    for n in 0..count {
        let number = PacketNumber::new(n.saturating_mul(2).saturating_add(100_000_000))?;
        ranges.push(Span::new(number, number)?).ok()?;
    }
    Some(Line::Event(Event::Lost {
        time: Ticks::new(time)?,
        space: Space::App,
        ranges,
    }))
}

/// How long the line with so many ranges at this time is, LF included; or why it is not written.
fn length_of(alloc: Global, count: u64, time: u64) -> Result<usize, NotedFault> {
    match lost(alloc, count, time) {
        None => Ok(0),
        Some(line) => Ok(plain_text(alloc, &line)?.len()),
    }
}

/// Whether the line with so many ranges at this time is so long, or too long.
fn is_of_length(alloc: Global, count: u64, time: u64, expected: Option<usize>) -> bool {
    match length_of(alloc, count, time) {
        Ok(length) => Some(length) == expected,
        Err(fault) => fault == NotedFault::TooLong && expected.is_none(),
    }
}

/// A range takes 22 bytes with its comma, of which the last has none, and the rest of the line 50
/// and the digits of its time. With 2,976 ranges and 15 digits that is 65,536.
#[test]
fn longest_line(rt: HostRuntime) {
    let time = 100_000_000_000_000;
    assert!(rt; is_of_length(rt.alloc(), 2_976, time, Some(65_537)));
    assert!(rt; is_of_length(rt.alloc(), 2_976, 10 * time, None));
}
