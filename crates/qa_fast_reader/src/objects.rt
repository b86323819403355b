//! Lines of one flat object as JSON values, as headers are mostly written. The reader of
//! `serde_json` clears a table for each line, which costs more than such a line does.
ghost use Rattle.std.specs.Prelude.{◌≡◌, [], ℕ, List, Ok, IfSome, string_bytes};
ghost use Rattle.serde_json.specs.Data as json;
ghost use Rattle.serde_json.specs.View.{view, items_view, members_view};
ghost use Rattle.qa_format.specs.format.Reading.{json_of};
ghost use Rattle.qa_scan.specs.Lexes.{deepest, IsValueOf};
ghost use Rattle.qa_fast_reader.specs.Found.{PutsMember};
ghost use Rattle.qa_fast_reader.specs.Items.{FollowsItems, IsSimpleOf};

use qa_scan::{
    begin_array, begin_object, boolean, colon, comma, end_array, end_object, integer, null, string,
};
use serde_json::{Map, Value};
use std::alloc::Global;

/// The text that the bytes are. None where they are none, and where memory is refused.
fn text_of(alloc: Global, bytes: &[u8]) -> Option<String>
    ensures { IfSome result (λ text. string_bytes text ≡ bytes.now) }
{
    let Ok(text) = str::from_utf8(bytes) else {
        return None;
    };
    let Ok(owned) = String::from_str(alloc, text) else {
        return None;
    };
    Some(owned)
}

/// An integer without sign, a string without an escape, a boolean or null; gives what follows it.
fn simple_value<'a>(alloc: Global, into: &mut Value, bytes: &'a [u8]) -> Option<&'a [u8]>
    ensures { IfSome result (λ rest. IsSimpleOf (view into.new) bytes.now rest.now) }
{
    let [first, ..] = bytes else {
        return None;
    };
    match *first {
        b'"' => {
            let (text, rest) = string(bytes)?;
            *into = Value::String(text_of(alloc, text)?);
            Some(rest)
        }
        b't' | b'f' => {
            let (value, rest) = boolean(bytes)?;
            *into = Value::Bool(value);
            Some(rest)
        }
        b'n' => {
            let rest = null(bytes)?;
            *into = Value::Null;
            Some(rest)
        }
        _ => {
            let (value, rest) = integer(bytes)?;
            *into = Value::from(value);
            Some(rest)
        }
    }
}

/// The simple values of a list, from the first of them on, with the bracket that closes it; gives
/// what follows it.
fn items<'a>(alloc: Global, into: &mut Vec<Value>, bytes: &'a [u8]) -> Option<&'a [u8]>
    requires { into.old.items ≡ [] }
    ensures { (whole : List ℕ) → FollowsItems deepest [] whole bytes.now
        → IfSome result (λ rest.
        IsValueOf (json.array (items_view into.new.items)) whole rest.now) }
{
    let mut rest = bytes;
    for i in 0..u64::MAX {
        let mut item = Value::Null;
        let behind = simple_value(alloc, &mut item, rest)?;
        if into.push(item).is_err() {
            return None;
        }
        let Some(more) = comma(behind) else {
            return end_array(behind);
        };
        rest = more;
    }
    None
}

/// A list of simple values, behind the bracket that opens it; gives what follows it.
fn list<'a>(alloc: Global, into: &mut Value, bytes: &'a [u8]) -> Option<&'a [u8]>
    ensures { (whole : List ℕ) → FollowsItems deepest [] whole bytes.now
        → IfSome result (λ rest. IsValueOf (view into.new) whole rest.now) }
{
    let mut found = Vec::new(alloc);
    let rest = items(alloc, &mut found, bytes)?;
    *into = Value::Array(found);
    Some(rest)
}

/// A simple value, or a list of such values; gives what follows it.
fn value<'a>(alloc: Global, into: &mut Value, bytes: &'a [u8]) -> Option<&'a [u8]>
    ensures { IfSome result (λ rest. IsValueOf (view into.new) bytes.now rest.now) }
{
    let Some(inside) = begin_array(bytes) else {
        return simple_value(alloc, into, bytes);
    };
    if let Some(rest) = end_array(inside) {
        *into = Value::Array(Vec::new(alloc));
        return Some(rest);
    }
    list(alloc, into, inside)
}

/// A member; gives what follows it.
fn member<'a>(alloc: Global, found: &mut Map<String, Value>, bytes: &'a [u8]) -> Option<&'a [u8]>
    ensures { IfSome result
        (λ rest.
        PutsMember (members_view found.old.entries)
        (members_view found.new.entries) bytes.now rest.now) }
{
    let (key, rest) = string(bytes)?;
    let name = text_of(alloc, key)?;
    let mut held = Value::Null;
    let rest = value(alloc, &mut held, colon(rest)?)?;
    if found.insert(name, held).is_err() {
        return None;
    }
    Some(rest)
}

/// The JSON value that the bytes are, where they are one object whose values are integers without
/// sign of at most 19 digits, strings of printable ASCII without an escape, booleans, null, or
/// lists of these; None for all others, and where memory is refused.
pub fn flat_object(alloc: Global, bytes: &[u8]) -> Option<Value>
    ensures { IfSome result (λ value. json_of bytes.now ≡ Ok (view value)) }
{
    let mut rest = begin_object(bytes)?;
    let mut found = Map::new(alloc);
    for i in 0..u64::MAX {
        let behind = member(alloc, &mut found, rest)?;
        let Some(more) = comma(behind) else {
            let end = end_object(behind)?;
            if !end.is_empty() {
                return None;
            }
            return Some(Value::Object(found));
        };
        rest = more;
    }
    None
}
