//! What the calls do with a session that C keeps.
ghost use Rattle.std.specs.Prelude.{◌≡◌, ◌≢◌, None, Some, true, false};
ghost use Rattle.qa_check.specs.Auditor.{is_between};
ghost use Rattle.qa_format.specs.format.Written.{line_fits};
ghost use Rattle.qa_embed.specs.Session.{phase_of};
ghost use Rattle.qa_embed.specs.declared.Phase.TheVariants as phases;
ghost use Rattle.qaudit_c.specs.Calls as calls;
ghost use Rattle.qaudit_c.specs.Events as said;
ghost use Rattle.qaudit_c.specs.Statuses as statuses;

use crate::kept::{Qaudit, put, take};
use qa_base::{Event, Header};
use qa_check::Line;
use qa_embed::{Phase, Session};
use std::alloc::Global;

// The statuses that `include/qaudit.h` names.

/// What follows can change the verdict.
pub const OPEN: u32 = 0;
/// The verdict is known, whatever follows.
const FIXED: u32 = 1;
/// The verdict is known, since nothing follows.
const FINISHED: u32 = 2;
/// There is no verdict, and never will be.
const OUT_OF_MEMORY: u32 = 3;
/// Nothing is open.
pub const CLOSED: u32 = 4;
/// A value is outside its range; nothing was taken.
pub const OUT_OF_RANGE: u32 = 5;
/// There was no memory for what the event says; nothing was taken.
pub const NOT_TAKEN: u32 = 6;
/// The bytes that were fed end inside a line; nothing was taken.
const INSIDE_LINE: u32 = 7;

/// The status of a phase, 0 to 3.
#[inline(always)]
pub fn number(phase: Phase) -> u32
    ensures number { result ≡ calls.phase_number phase }
    ensures known { phase ≢ phases.Open → result ≢ statuses.still_open }
    ensures memory { result ≢ statuses.not_taken }
{
    match phase {
        Phase::Open => OPEN,
        Phase::Fixed(_) => FIXED,
        Phase::Finished(_) => FINISHED,
        Phase::OutOfMemory => OUT_OF_MEMORY,
    }
}

// ---- lines that are taken

/// Hands the line in to a session that is open.
#[inline(always)]
fn hand_open(session: &mut Session, line: &Line) -> u32
    requires open { session.old.finished ≡ false }
    requires fitting { line_fits line.now ≡ true }
    ensures inside { is_between session.old.audit ≡ false
        → (result ≡ statuses.inside_line) × (session.new ≡ session.old) }
    ensures between { is_between session.old.audit ≡ true
        → calls.Took (Some line.now) result session.old session.new }
    ensures memory { result ≢ statuses.not_taken }
{
    if !session.is_between_lines() {
        return INSIDE_LINE;
    }
    if session.take_said(line) {
        return OPEN;
    }
    number(session.phase())
}

/// Hands the line in.
#[inline(always)]
pub fn hand_to(session: &mut Session, line: &Line) -> u32
    requires fitting { line_fits line.now ≡ true }
    ensures handed { calls.HandsRun (Some line.now) result session.old session.new }
    ensures memory { result ≢ statuses.not_taken }
{
    match session.phase() {
        Phase::Open => hand_open(session, line),
        Phase::Fixed(_) => FIXED,
        Phase::Finished(_) => FINISHED,
        Phase::OutOfMemory => OUT_OF_MEMORY,
    }
}

/// Hands the line in to what C keeps.
#[inline(always)]
fn hand(alloc: Global, qaudit: &mut Qaudit, line: &Line) -> u32
    requires fitting { line_fits line.now ≡ true }
    ensures handed { calls.Hands
        (Some line.now) result qaudit.old.handle.held qaudit.new.handle.held }
    ensures memory { result ≢ statuses.not_taken }
{
    let Some(mut session) = take(alloc, qaudit) else {
        return CLOSED;
    };
    let status = hand_to(&mut session, line);
    put(qaudit, session);
    status
}

/// Hands in the line that says the event, where a line can.
///
/// The line is made here alone and goes on by reference: it has more than a hundred bytes.
#[inline(always)]
pub fn hand_event(alloc: Global, qaudit: &mut Qaudit, event: Event) -> u32
    ensures handed { calls.Hands
        (said.line_of_event (said.fitting event)) result qaudit.old.handle.held
        qaudit.new.handle.held }
    ensures memory { result ≢ statuses.not_taken }
{
    if !event.fits() {
        return out_of_range(alloc, qaudit);
    }
    hand(alloc, qaudit, &Line::Event(event))
}

/// Hands in the line that says the header.
pub fn hand_header(alloc: Global, qaudit: &mut Qaudit, header: Option<Header>) -> u32
    ensures handed { calls.Hands
        (said.line_of_header header) result qaudit.old.handle.held qaudit.new.handle.held }
    ensures memory { result ≢ statuses.not_taken }
{
    match header {
        Some(header) => hand(alloc, qaudit, &Line::Header(header)),
        None => out_of_range(alloc, qaudit),
    }
}

// ---- what is not taken

/// What a call returns by which nothing is taken: for the reason alone where a line would be taken.
#[cold]
#[inline(never)]
pub fn refusal(session: &Session, reason: u32) -> u32
    ensures over { phase_of session.now ≢ phases.Open
        → result ≡ calls.phase_number (phase_of session.now) }
    ensures inside { phase_of session.now ≡ phases.Open → is_between session.now.audit ≡ false
        → result ≡ statuses.inside_line }
    ensures between { phase_of session.now ≡ phases.Open → is_between session.now.audit ≡ true
        → result ≡ reason }
    ensures memory { reason ≢ statuses.not_taken → result ≢ statuses.not_taken }
{
    match session.phase() {
        Phase::Open => {
            if session.is_between_lines() {
                reason
            } else {
                INSIDE_LINE
            }
        }
        phase => number(phase),
    }
}

/// Nothing is taken, for a value is outside its range.
#[cold]
#[inline(never)]
pub fn out_of_range(alloc: Global, qaudit: &mut Qaudit) -> u32
    ensures handed { calls.Hands None result qaudit.old.handle.held qaudit.new.handle.held }
    ensures memory { result ≢ statuses.not_taken }
{
    let Some(session) = take(alloc, qaudit) else {
        return CLOSED;
    };
    let status = refusal(&session, OUT_OF_RANGE);
    put(qaudit, session);
    status
}
