//! A line, written with keys of the converter's own.
ghost use Rattle.std.specs.Prelude.{◌≡◌, ◌≤◌, ◌<◌, ◌++◌, ◌∷◌, [], OnErr, OnOk, IfOk, IfErr};
ghost use Rattle.std.specs.Prelude.{length, string_bytes, true};
ghost use Rattle.serde_json.specs.Data.{object};
ghost use Rattle.serde_json.specs.View.{members_view};
ghost use Rattle.serde_json.specs.Written.{compact_text};
ghost use Rattle.qa_convert.specs.OwnKeys.{AreOwn, joined, noted, own_text, with_own};
ghost use Rattle.qa_convert.specs.declared.noted.NotedFault.TheVariants.{TooLong};
ghost use Rattle.qa_format.specs.format.Lines.{line_limit};
ghost use Rattle.qa_format.specs.format.Proper.{IsProperLine};
ghost use Rattle.qa_format.specs.format.Written.{line_fits, written};

use crate::own::OwnKeys;
use qa_fast_writer::push_event;
use qa_format::Line;
use qa_write::write_line;
use serde_json::Value;
use std::alloc::{AllocError, Global};
use thiserror::Error;

/// The most bytes that a line has, its LF not counted.
const LONGEST_LINE: usize = 65_536;
/// Room for the text of most lines.
const USUAL_LINE: usize = 256;

/// Why a line was not written.
#[derive(Clone, Copy, Debug, PartialEq, Eq, Error)]
pub enum NotedFault {
    /// Its text would be longer than a line of a trace may be.
    #[error("a line of more than 65,536 bytes")]
    TooLong,
    /// Out of memory.
    #[error("out of memory")]
    OutOfMemory,
}

impl From<AllocError> for NotedFault {
    ghost use Rattle.std.specs.Prelude.{◌≡◌};
    ghost use Rattle.qa_convert.specs.declared.noted.NotedFault.TheVariants as faults;

    ghost from_gives = { λ _ fault. fault ≡ faults.OutOfMemory };

    fn from(_refused: AllocError) -> Self {
        NotedFault::OutOfMemory
    }
}

/// Appends the text of a line, with own keys behind its keys, and LF.
///
/// Asks for an event that fits (`Event::fits`): no line says another. `TooLong` comes if the text
/// has more than 65,536 bytes, and leaves what was there. `OutOfMemory` comes if it is out of
/// memory; what was appended by then is of no use.
pub fn push_noted(
    alloc: Global,
    line: &Line,
    own: OwnKeys,
    out: &mut Vec<u8>,
) -> Result<(), NotedFault>
    requires fitting { line_fits line.now ≡ true }
    requires own { AreOwn (members_view own.entries) }
    ensures ok { OnOk result (out.new.items
        ≡ out.old.items ++ (noted line.now (members_view own.entries) ++ 10 ∷ [])) }
    ensures short { OnOk result
        (length (noted line.now (members_view own.entries)) ≤ line_limit) }
    ensures proper { OnOk result (IsProperLine line.now) }
    ensures too_long { IfErr result (λ fault. fault ≡ TooLong → (out.new.items ≡ out.old.items)
        × (line_limit < length (noted line.now (members_view own.entries)))) }
{
    let text = text_of_line(alloc, line)?;
    let own_text = own_text_of(alloc, own)?;
    push_with_own(text.as_slice(), own_text.as_bytes(), out)
}

/// The text of a line.
fn text_of_line(alloc: Global, line: &Line) -> Result<Vec<u8>, AllocError>
    requires fitting { line_fits line.now ≡ true }
    ensures text { IfOk result (λ text. text.items ≡ written line.now) }
    ensures proper { OnOk result (IsProperLine line.now) }
{
    let mut text = Vec::with_capacity(alloc, USUAL_LINE)?;
    push_text(alloc, line, &mut text)?;
    Ok(text)
}

/// Appends the text of a line: that of an event at once, another by way of a value of JSON.
fn push_text(alloc: Global, line: &Line, out: &mut Vec<u8>) -> Result<(), AllocError>
    requires fitting { line_fits line.now ≡ true }
    ensures text { OnOk result (out.new.items ≡ out.old.items ++ written line.now) }
    ensures proper { OnOk result (IsProperLine line.now) }
{
    match line {
        Line::Event(event) => push_event(event, out),
        _ => push_by_value(alloc, line, out),
    }
}

/// Appends the text of a line by way of a value of JSON.
fn push_by_value(alloc: Global, line: &Line, out: &mut Vec<u8>) -> Result<(), AllocError>
    requires fitting { line_fits line.now ≡ true }
    ensures text { OnOk result (out.new.items ≡ out.old.items ++ written line.now) }
    ensures proper { OnOk result (IsProperLine line.now) }
{
    let text = write_line(alloc, line)?;
    out.extend_from_slice(text.as_bytes())?;
    Ok(())
}

/// The text of own keys. It is empty where there is none.
pub(crate) fn own_text_of(alloc: Global, own: OwnKeys) -> Result<String, AllocError>
    requires { AreOwn (members_view own.entries) }
    ensures { IfOk result (λ text. string_bytes text ≡ own_text (members_view own.entries)) }
{
    if own.is_empty() {
        return Ok(String::new(alloc));
    }
    text_of(alloc, own)
}

/// The object of own keys as a text of JSON, without white space.
fn text_of(alloc: Global, own: OwnKeys) -> Result<String, AllocError>
    requires { AreOwn (members_view own.entries) }
    ensures { IfOk result (λ text. string_bytes text
        ≡ compact_text (object (members_view own.entries))) }
{
    Value::from(own).to_string(alloc)
}

/// Appends the text of a line with that of own keys, and LF.
///
/// `TooLong` comes if that is more than 65,536 bytes, and `OutOfMemory` if it is out of memory;
/// each leaves what was there.
pub(crate) fn push_with_own(text: &[u8], own: &[u8], out: &mut Vec<u8>) -> Result<(), NotedFault>
    ensures ok { OnOk result (out.new.items
        ≡ out.old.items ++ (with_own text.now own.now ++ 10 ∷ [])) }
    ensures err { OnErr result (out.new.items ≡ out.old.items) }
    ensures short { OnOk result (length (with_own text.now own.now) ≤ line_limit) }
    ensures too_long { IfErr result (λ fault. fault ≡ TooLong →
        line_limit < length (with_own text.now own.now)) }
{
    if text.is_empty() || own.is_empty() {
        push_line(text, out)
    } else {
        push_joined(text, own, out)
    }
}

/// Appends a text and LF.
fn push_line(text: &[u8], out: &mut Vec<u8>) -> Result<(), NotedFault>
    ensures ok { OnOk result (out.new.items ≡ out.old.items ++ (text.now ++ 10 ∷ [])) }
    ensures err { OnErr result (out.new.items ≡ out.old.items) }
    ensures short { OnOk result (length text.now ≤ line_limit) }
    ensures too_long { IfErr result (λ fault. fault ≡ TooLong → line_limit < length text.now) }
{
    if LONGEST_LINE < text.len() {
        return Err(NotedFault::TooLong);
    }
    // No later step fails once there is room for all.
    out.reserve(text.len() + 1)?;
    out.extend_from_slice(text)?;
    out.extend_from_slice(b"\n")?;
    Ok(())
}

/// Appends the text of an object with the members of another behind its own, and LF.
fn push_joined(text: &[u8], own: &[u8], out: &mut Vec<u8>) -> Result<(), NotedFault>
    requires text { 1 ≤ length text.now }
    requires own { 1 ≤ length own.now }
    ensures ok { OnOk result (out.new.items
        ≡ out.old.items ++ (joined text.now own.now ++ 10 ∷ [])) }
    ensures err { OnErr result (out.new.items ≡ out.old.items) }
    ensures short { OnOk result (length (joined text.now own.now) ≤ line_limit) }
    ensures too_long { IfErr result (λ fault. fault ≡ TooLong →
        line_limit < length (joined text.now own.now)) }
{
    if LONGEST_LINE < text.len() || LONGEST_LINE < own.len() {
        return Err(NotedFault::TooLong);
    }
    if LONGEST_LINE < text.len() + own.len() - 1 {
        return Err(NotedFault::TooLong);
    }
    // No later step fails once there is room for all.
    out.reserve(text.len() + own.len())?;
    out.extend_from_slice(&text[..text.len() - 1])?;
    out.extend_from_slice(b",")?;
    out.extend_from_slice(&own[1..])?;
    out.extend_from_slice(b"\n")?;
    Ok(())
}
