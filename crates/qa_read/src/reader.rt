//! What a line says: a header, an event, or nothing.
ghost use Rattle.std.specs.Prelude.{◌≡◌, true, false, Ok, IfOk, OnOk, IsOk, IsErrOf};
ghost use Rattle.std.specs.List.{list_all};
ghost use Rattle.std.specs.Str.{is_utf8};
ghost use Rattle.serde_json.specs.View.{view};
ghost use Rattle.qa_format.specs.format.Reading as reading;
ghost use Rattle.qa_format.specs.format.Written.{line_fits};
ghost use Rattle.qa_read.specs.Gives.{Gives};

use crate::fault::LineFault;
use crate::json::{is_blank, json_of};
use crate::{fields, tables};
use qa_base::{Key, LineKind};
use qa_fast_reader::{other_line, usual_line};
use qa_format::{Fault, Line};
use serde_json::Value;
use std::alloc::Global;

/// What the line of an object of this kind says.
fn line_of(alloc: Global, kind: LineKind, object: &Value) -> Result<Line, LineFault>
    ensures { Gives (λ line. line) result (reading.reader_of kind (view object.now)) }
{
    let event = match kind {
        LineKind::Header => return Ok(Line::Header(tables::header_of(object)?)),
        LineKind::Sent => tables::sent_of(object),
        LineKind::Ack => tables::ack_of(alloc, object),
        LineKind::Lost => tables::lost_of(alloc, object),
        LineKind::Timer => tables::timer_of(object),
        LineKind::Discard => tables::discard_of(object),
        LineKind::Confirmed => tables::confirmed_of(object),
        LineKind::Keys => tables::keys_of(object),
        LineKind::Metrics => tables::metrics_of(object),
    };
    Ok(Line::Event(event?))
}

/// What an object says, by its key `event`.
#[tactic(auto, unfolding(qa_format::specs::format::Reading::object_says))]
fn object_says(alloc: Global, value: &Value) -> Result<Line, LineFault>
    ensures { Gives (λ line. line) result
        (reading.object_says reading.reader_named (view value.now)) }
{
    if !value.is_object() {
        return Err(LineFault::Fault(Fault::NotObject));
    }
    let name = fields::required_string(Key::Event, value)?;
    let kind = LineKind::named(name).ok_or(Fault::UnknownEvent)?;
    line_of(alloc, kind, value)
}

/// What the bytes of a line that is not blank say, or the first of the line's faults, by way of a
/// JSON value.
///
/// It stands apart, so that a line that is read quickly does not pay for its locals.
#[cold]
#[inline(never)]
#[tactic(auto, unfolding(qa_format::specs::format::Reading::reading_by))]
fn read_value(alloc: Global, bytes: &[u8]) -> Result<Line, LineFault>
    requires { list_all reading.is_blank bytes.now ≡ false }
    ensures read { Gives (λ line. line) result (reading.reading bytes.now) }
    ensures memory { IsErrOf result LineFault.OutOfMemory → is_utf8 bytes.now ≡ true }
{
    let value = json_of(alloc, bytes)?;
    object_says(alloc, &value)
}

/// What the bytes of a line say is put where it is to stand, by way of a JSON value, where the line
/// is not blank; or the first of the line's faults.
#[cold]
#[inline(never)]
#[tactic(auto, unfolding(qa_format::specs::format::Reading::reading_by))]
fn put_value(alloc: Global, bytes: &[u8], into: &mut Line) -> Result<(), LineFault>
    ensures read { Gives (λ _. into.new) result (reading.reading bytes.now) }
    ensures fitting { OnOk result (line_fits into.new ≡ true) }
    ensures blank { list_all reading.is_blank bytes.now ≡ true → IsOk result }
    ensures memory { IsErrOf result LineFault.OutOfMemory → is_utf8 bytes.now ≡ true }
{
    if is_blank(bytes) {
        *into = Line::Blank;
        return Ok(());
    }
    *into = read_value(alloc, bytes)?;
    Ok(())
}

/// The same of a line that is none of the usual ones.
#[inline(never)]
fn put_other(alloc: Global, bytes: &[u8], into: &mut Line) -> Result<(), LineFault>
    ensures read { Gives (λ _. into.new) result (reading.reading bytes.now) }
    ensures fitting { OnOk result (line_fits into.new ≡ true) }
    ensures blank { list_all reading.is_blank bytes.now ≡ true → IsOk result }
    ensures memory { IsErrOf result LineFault.OutOfMemory → is_utf8 bytes.now ≡ true }
{
    if other_line(alloc, bytes, into) {
        return Ok(());
    }
    put_value(alloc, bytes, into)
}

/// What the bytes of a line say, its LF not among them, or the first of the line's faults.
///
/// The values of the line are in the ranges of their tables, and its event fits (`Event::fits`).
/// A line of any length is read: how long a line of a trace may be is for its splitter to say.
/// `LineFault::OutOfMemory` comes where memory was refused, and then the call can be made again; a
/// blank line and bytes that are not UTF-8 take no memory.
#[inline(never)]
#[tactic(auto, unfolding(qa_format::specs::format::Reading::reading_by))]
pub fn read_line(alloc: Global, bytes: &[u8]) -> Result<Line, LineFault>
    ensures read { Gives (λ line. line) result (reading.reading bytes.now) }
    ensures fitting { IfOk result (λ line. line_fits line ≡ true) }
    ensures blank { list_all reading.is_blank bytes.now ≡ true → result ≡ Ok Line.Blank }
    ensures memory { IsErrOf result LineFault.OutOfMemory → is_utf8 bytes.now ≡ true }
{
    // Where a line is put at once, it is not copied from one call's result to the next.
    let mut line = Line::Blank;
    if !usual_line(alloc, bytes, &mut line) {
        put_other(alloc, bytes, &mut line)?;
    }
    Ok(line)
}
