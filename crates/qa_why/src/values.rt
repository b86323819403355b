//! What stands at the key that a fault is about.
ghost use Rattle.std.specs.Prelude.{◌≡◌, ◌++◌, IfOk, OnOk, decimal, option_map, string_bytes};
ghost use Rattle.std.specs.Option.{option_copied};
ghost use Rattle.serde_json.specs.Find.{as_bool};
ghost use Rattle.serde_json.specs.View.{view};
ghost use Rattle.qa_why.specs.Values as text;

use crate::lines::{extend, first_bytes, printed};
use qa_base::Key;
use qa_format::Fault;
use serde_json::Value;
use std::alloc::{AllocError, Global};

/// The JSON value that the bytes are; None where they are none. `AllocError` comes where it is out
/// of memory.
#[tactic(auto, unfolding(crate::specs::Values::data_of))]
pub fn data_of(alloc: Global, line: &[u8]) -> Result<Option<Value>, AllocError>
    ensures { IfOk result (λ found. option_map view found ≡ text.data_of line.now) }
{
    let Ok(text) = str::from_utf8(line) else {
        return Ok(None);
    };
    match Value::from_str(alloc, text) {
        Ok(value) => Ok(Some(value)),
        Err(error) => {
            if error.is_memory() {
                Err(AllocError)
            } else {
                Ok(None)
            }
        }
    }
}

/// The key whose value is wrong.
fn wrong_key(fault: Fault) -> Option<Key>
    ensures { result ≡ text.wrong_key fault }
{
    match fault {
        Fault::WrongKind(key) | Fault::OutOfRange(key) => Some(key),
        Fault::UnknownEvent => Some(Key::Event),
        Fault::Version => Some(Key::Version),
        _ => None,
    }
}

// ---- a value

/// The most bytes of a string that are shown.
pub const SHOWN_OF_STRING: usize = 40;

#[tactic(auto, unfolding(crate::specs::Values::closing_quote))]
fn closing_quote(count: usize) -> &'static str
    ensures { result.now ≡ text.closing_quote count }
{
    if SHOWN_OF_STRING < count {
        "\" .."
    } else {
        "\""
    }
}

/// A string by its first bytes.
#[tactic(auto, unfolding(crate::specs::Values::quoted))]
fn push_quoted(alloc: Global, out: &mut Vec<u8>, string: &str) -> Result<(), AllocError>
    ensures { OnOk result (out.new.items ≡ out.old.items ++ text.quoted string.now) }
{
    let bytes = string.as_bytes();
    let shown = printed(alloc, first_bytes(bytes, SHOWN_OF_STRING))?;
    extend(out, b"\"")?;
    extend(out, &shown)?;
    extend(out, closing_quote(bytes.len()).as_bytes())
}

fn push_integer(alloc: Global, out: &mut Vec<u8>, number: u64) -> Result<(), AllocError>
    ensures { OnOk result (out.new.items ≡ out.old.items ++ decimal number) }
{
    let digits = format!(in alloc; "{number}")?;
    extend(out, digits.as_bytes())
}

/// What a value is that is neither an integer nor a string.
fn other_text(value: &Value) -> &'static str
    ensures { result.now ≡ text.flag_text (as_bool (view value.now)) (view value.now) }
{
    match value.as_bool() {
        Some(true) => "true",
        Some(false) => "false",
        None if value.as_array().is_some() => "a list",
        None if value.as_object().is_some() => "an object",
        None => "a number that is no integer from 0 to 18446744073709551615",
    }
}

/// An integer or a string as it is, and what else it is.
fn push_value(alloc: Global, out: &mut Vec<u8>, value: &Value) -> Result<(), AllocError>
    ensures { OnOk result (out.new.items ≡ out.old.items ++ text.value_text (view value.now)) }
{
    if let Some(number) = value.as_u64() {
        return push_integer(alloc, out, number);
    }
    match value.as_str() {
        Some(string) => push_quoted(alloc, out, string),
        None => extend(out, other_text(value).as_bytes()),
    }
}

// ---- where it stands

#[tactic(auto, unfolding(crate::specs::Values::some_value))]
fn push_some_value(alloc: Global, out: &mut Vec<u8>, value: &Value) -> Result<(), AllocError>
    ensures { OnOk result (out.new.items ≡ out.old.items ++ text.some_value (view value.now)) }
{
    extend(out, b": it is ")?;
    push_value(alloc, out, value)
}

fn push_value_at(alloc: Global, out: &mut Vec<u8>, key: Key, line: &[u8]) -> Result<(), AllocError>
    ensures { OnOk result (out.new.items ≡ out.old.items ++ text.value_at key line.now) }
{
    let found = data_of(alloc, line)?;
    let Some(object) = &found else {
        return Ok(());
    };
    match object.get(key.name()) {
        None => Ok(()),
        Some(value) => push_some_value(alloc, out, value),
    }
}

/// Appends the wrong value that the fault is about, where it stands in the line.
pub fn push_wrong_value(
    alloc: Global,
    out: &mut Vec<u8>,
    fault: Fault,
    line: Option<&[u8]>,
) -> Result<(), AllocError>
    ensures { OnOk result (out.new.items
        ≡ out.old.items ++ text.wrong_value fault (option_copied line.entry)) }
{
    let Some(line) = line else {
        return Ok(());
    };
    match wrong_key(fault) {
        None => Ok(()),
        Some(key) => push_value_at(alloc, out, key, line),
    }
}
