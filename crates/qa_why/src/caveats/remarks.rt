//! What a logger says to people, at keys that begin with `x_`: strings.
ghost use Rattle.std.specs.Prelude.{◌≡◌, ◌++◌, OnOk};
ghost use Rattle.serde_json.specs.View.{items_view, view};
ghost use Rattle.qa_why.specs.caveats.Remarks as text;

use crate::lines::{extend, first_bytes, printed};
use crate::values::data_of;
use serde_json::Value;
use std::alloc::{AllocError, Global};

/// The most bytes of a remark that are shown.
const SHOWN_OF_REMARK: usize = 300;

/// Appends a remark behind some words, on a line of its own.
#[tactic(auto, unfolding(crate::specs::caveats::Remarks::remark))]
fn push_remark(
    alloc: Global,
    out: &mut Vec<u8>,
    words: &str,
    remark: &str,
) -> Result<(), AllocError>
    ensures { OnOk result (out.new.items ≡ out.old.items ++ text.remark words.now remark.now) }
{
    let shown = printed(alloc, first_bytes(remark.as_bytes(), SHOWN_OF_REMARK))?;
    extend(out, words.as_bytes())?;
    extend(out, &shown)?;
    extend(out, b"\n")
}

/// Appends a value that is a string; of another nothing.
fn push_string(
    alloc: Global,
    out: &mut Vec<u8>,
    words: &str,
    value: &Value,
) -> Result<(), AllocError>
    ensures { OnOk result (out.new.items
        ≡ out.old.items ++ text.value_string words.now (view value.now)) }
{
    match value.as_str() {
        Some(remark) => push_remark(alloc, out, words, remark),
        None => Ok(()),
    }
}

/// Appends each of the values that is a string.
fn push_each(
    alloc: Global,
    out: &mut Vec<u8>,
    words: &str,
    values: &[Value],
) -> Result<(), AllocError>
    ensures { OnOk result (out.new.items
        ≡ out.old.items ++ text.each_remark words.now (items_view values.now)) }
{
    for value in values {
        push_string(alloc, out, words, value)?;
    }
    Ok(())
}

/// Appends a value that is a string, or a list of strings.
fn push_value(
    alloc: Global,
    out: &mut Vec<u8>,
    words: &str,
    value: &Value,
) -> Result<(), AllocError>
    ensures { OnOk result (out.new.items
        ≡ out.old.items ++ text.value_remarks words.now (view value.now)) }
{
    match value.as_array() {
        Some(values) => push_each(alloc, out, words, values.as_slice()),
        None => push_string(alloc, out, words, value),
    }
}

/// Appends what stands at a key of the line, each string behind the words on a line of its own.
/// `AllocError` comes where it is out of memory.
pub fn push_remarks(
    alloc: Global,
    out: &mut Vec<u8>,
    words: &str,
    key: &str,
    line: &[u8],
) -> Result<(), AllocError>
    ensures { OnOk result (out.new.items
        ≡ out.old.items ++ text.remarks_at words.now key.now line.now) }
{
    let found = data_of(alloc, line)?;
    let Some(object) = &found else {
        return Ok(());
    };
    match object.get(key) {
        None => Ok(()),
        Some(value) => push_value(alloc, out, words, value),
    }
}
