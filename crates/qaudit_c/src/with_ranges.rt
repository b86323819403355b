//! What the calls do that hand in ranges of packet numbers: the ranges lie in memory that the
//! session keeps from one such call to the next.
ghost use Rattle.std.specs.Prelude.{◌≡◌, ◌<◌, ◌^◌, IfOk, Some, true};
ghost use Rattle.qa_format.specs.format.Written.{line_fits};
ghost use Rattle.qaudit_c.specs.Calls as calls;
ghost use Rattle.qaudit_c.specs.Events as said;

use crate::calls::{NOT_TAKEN, OUT_OF_RANGE, hand_to, refusal};
use crate::events::{moment_of, spans_of};
use crate::structs::{Acknowledgment, PacketRange};
use qa_base::limits::MAX_LINE_LENGTH;
use qa_base::{Ack, Event};
use qa_check::Line;
use qa_embed::Session;
use qa_write::write_line;
use std::alloc::{AllocError, Global};

/// For so many ranges a line has room, whatever their numbers are.
const FEW_RANGES: usize = 1024;

/// How many ranges a line names.
#[inline(always)]
fn range_count(line: &Line) -> usize
    ensures { result ≡ said.range_count line.now }
{
    match line {
        Line::Event(Event::Ack(Ack { ranges, .. }) | Event::Lost { ranges, .. }) => {
            ranges.as_slice().len()
        }
        _ => 0,
    }
}

/// How many bytes the shortest line leaves out of what is written for this: `"delay":0,` of an
/// acknowledgment without a delay, and `"limited":false,` of one that was not limited.
#[inline(always)]
fn left_out(line: &Line) -> usize
    ensures { result ≡ said.left_out_of line.now }
{
    let Line::Event(Event::Ack(ack)) = line else {
        return 0;
    };
    let delay = if ack.delay == 0 { 10 } else { 0 };
    let limited = if ack.app_limited { 0 } else { 16 };
    delay + limited
}

/// Whether a line can say this: one with very many ranges may be too long for any. `AllocError`
/// comes only of more than 1,024 ranges, where it is out of memory.
#[inline(always)]
fn is_said(alloc: Global, line: &Line) -> Result<bool, AllocError>
    requires fitting { line_fits line.now ≡ true }
    requires ranges { said.SaysProperRanges line.now }
    ensures { IfOk result (λ is. is ≡ said.is_said line.now) }
{
    if range_count(line) <= FEW_RANGES {
        return Ok(true);
    }
    let text = write_line(alloc, line)?;
    Ok(text.len() <= MAX_LINE_LENGTH + left_out(line))
}

/// Hands in the line that says the event, where a line can, and keeps the memory of its ranges.
///
/// The line is made here alone and goes on by reference, as in `hand_event`.
#[inline(always)]
fn hand_and_keep(alloc: Global, session: &mut Session, event: Event) -> u32
    requires ranges { said.HasProperRanges event }
    ensures { calls.HandsRun
        (said.line_of_event (said.on_a_line event)) result session.old session.new }
{
    if !event.fits() {
        return refusal(session, OUT_OF_RANGE);
    }
    let line = Line::Event(event);
    match is_said(alloc, &line) {
        Ok(true) => hand_line(alloc, session, line),
        Ok(false) => refusal(session, OUT_OF_RANGE),
        Err(_) => refusal(session, NOT_TAKEN),
    }
}

/// Hands in a line, and keeps the memory of its ranges.
#[inline(always)]
fn hand_line(alloc: Global, session: &mut Session, line: Line) -> u32
    requires fitting { line_fits line ≡ true }
    ensures { calls.HandsRun (Some line) result session.old session.new }
{
    let status = hand_to(session, &line);
    if let Line::Event(Event::Ack(Ack { ranges, .. }) | Event::Lost { ranges, .. }) = line {
        session.take_back(alloc, ranges);
    }
    status
}

/// The number, which has 64 bits: a contract knows that of a value, and not of a field behind a
/// reference.
#[inline(always)]
fn word(number: u64) -> u64
    ensures same { result ≡ number }
    ensures bound { number < 2 ^ 64 }
{
    number
}

/// Hands in an acknowledgment.
#[inline(always)]
pub fn ack_to(
    alloc: Global,
    session: &mut Session,
    ack: &Acknowledgment,
    ranges: &[PacketRange],
) -> u32
    ensures { calls.HandsRun
        (said.line_of_event (said.ack_said ack.now ranges.now)) result session.old session.new }
{
    let delay = word(ack.delay);
    let Some((time, space)) = moment_of(ack.time, ack.space) else {
        return refusal(session, OUT_OF_RANGE);
    };
    match spans_of(session.lend_ranges(alloc), ranges) {
        Ok(Some(ranges)) => {
            let event = Event::Ack(Ack {
                time,
                space,
                ranges,
                delay,
                app_limited: ack.app_limited,
            });
            hand_and_keep(alloc, session, event)
        }
        Ok(None) => refusal(session, OUT_OF_RANGE),
        Err(_) => refusal(session, NOT_TAKEN),
    }
}

/// Hands in packets that were declared lost.
#[inline(always)]
pub fn lost_to(
    alloc: Global,
    session: &mut Session,
    time: u64,
    space: u32,
    ranges: &[PacketRange],
) -> u32
    ensures { calls.HandsRun
        (said.line_of_event (said.lost_said time space ranges.now)) result session.old session.new }
{
    let Some((time, space)) = moment_of(time, space) else {
        return refusal(session, OUT_OF_RANGE);
    };
    match spans_of(session.lend_ranges(alloc), ranges) {
        Ok(Some(ranges)) => {
            let event = Event::Lost {
                time,
                space,
                ranges,
            };
            hand_and_keep(alloc, session, event)
        }
        Ok(None) => refusal(session, OUT_OF_RANGE),
        Err(_) => refusal(session, NOT_TAKEN),
    }
}
