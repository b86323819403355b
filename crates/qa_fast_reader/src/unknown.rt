//! Members whose key no event has.
ghost use Rattle.std.specs.Prelude.{◌<◌, ℕ, List, IfSome, length};
ghost use Rattle.serde_json.specs.Data.{Data, Members};
ghost use Rattle.qa_fast_reader.specs.declared.found.Found.{Found};
ghost use Rattle.qa_fast_reader.specs.Found.{Continues, TakesNothing};
ghost use Rattle.qa_fast_reader.specs.Items.{FollowsItems, FollowsMembersWithin, IsSomeValue};
ghost use Rattle.qa_fast_reader.specs.Items.{IsSomeMember};

use crate::keys::is_known;
use qa_scan::{
    any_string, begin_array, begin_object, boolean, colon, comma, end_array, end_object, ends_word,
    integer, null, number, string,
};

/// How deep a value of a line's object may nest: `serde_json` takes one level more, which is the
/// object itself.
const DEEPEST: u64 = 126;

/// What follows a member whose key no event has.
pub fn unknown_member(bytes: &[u8]) -> Option<&[u8]>
    ensures { IfSome result (λ rest. TakesNothing bytes.now rest.now) }
{
    let (key, rest) = string(bytes)?;
    if is_known(key) {
        return None;
    }
    any_value(colon(rest)?)
}

/// What follows a value, which mostly is a string.
#[inline(always)]
fn any_value(bytes: &[u8]) -> Option<&[u8]>
    ensures { IfSome result (λ rest. IsSomeValue 126 bytes.now rest.now) }
{
    let [first, ..] = bytes else {
        return None;
    };
    if *first == b'"' {
        return some_text(bytes);
    }
    value(bytes, DEEPEST)
}

/// What follows a string.
#[inline(always)]
fn some_text(bytes: &[u8]) -> Option<&[u8]>
    ensures { IfSome result (λ rest. IsSomeValue 0 bytes.now rest.now) }
{
    any_string(bytes)
}

/// What follows a comma and a member whose key no event has. It stands apart, since most lines have
/// no such member.
#[inline(never)]
pub fn unknown_next(bytes: &[u8]) -> Option<&[u8]>
    ensures passes { IfSome result (λ rest. (f : Found) → Continues f f bytes.now rest.now) }
    ensures shorter { IfSome result (λ rest. length rest.now < length bytes.now) }
{
    if !ends_word(bytes) {
        return None;
    }
    let more = comma(bytes)?;
    unknown_member(more)
}

/// What follows a value that nests no deeper than so.
#[cycle(values)]
fn value(bytes: &[u8], depth: u64) -> Option<&[u8]>
    ensures { IfSome result (λ rest. IsSomeValue depth bytes.now rest.now) }
{
    let [first, ..] = bytes else {
        return None;
    };
    match *first {
        b'[' => list(bytes, depth),
        b'{' => object(bytes, depth),
        _ => simple_value(bytes),
    }
}

/// What follows a list that nests no deeper than so.
#[cycle(values)]
fn list(bytes: &[u8], depth: u64) -> Option<&[u8]>
    ensures { IfSome result (λ rest. IsSomeValue depth bytes.now rest.now) }
{
    if depth == 0 {
        return None;
    }
    let inside = begin_array(bytes)?;
    if let Some(rest) = end_array(inside) {
        return Some(rest);
    }
    list_end(inside, depth - 1)
}

/// What follows a list of values that nest no deeper than so, of which there is one at least, from
/// the first of them on.
#[cycle(values)]
fn list_end(bytes: &[u8], depth: u64) -> Option<&[u8]>
    ensures { (d : ℕ) (whole : List ℕ) (seen : List Data) → depth < d
        → FollowsItems d seen whole bytes.now
        → IfSome result (λ rest. IsSomeValue d whole rest.now) }
{
    let mut rest = bytes;
    for i in 0..u64::MAX {
        let behind = value(rest, depth)?;
        let Some(more) = comma(behind) else {
            return end_array(behind);
        };
        rest = more;
    }
    None
}

/// What follows an object that nests no deeper than so.
#[cycle(values)]
fn object(bytes: &[u8], depth: u64) -> Option<&[u8]>
    ensures { IfSome result (λ rest. IsSomeValue depth bytes.now rest.now) }
{
    if depth == 0 {
        return None;
    }
    let inside = begin_object(bytes)?;
    if let Some(rest) = end_object(inside) {
        return Some(rest);
    }
    object_end(inside, depth - 1)
}

/// What follows an object whose values nest no deeper than so, of which there is one at least, from
/// the first key on.
#[cycle(values)]
fn object_end(bytes: &[u8], depth: u64) -> Option<&[u8]>
    ensures { (d : ℕ) (whole : List ℕ) (seen : Members) → depth < d
        → FollowsMembersWithin d seen whole bytes.now
        → IfSome result (λ rest. IsSomeValue d whole rest.now) }
{
    let mut rest = bytes;
    for i in 0..u64::MAX {
        let behind = member(rest, depth)?;
        let Some(more) = comma(behind) else {
            return end_object(behind);
        };
        rest = more;
    }
    None
}

/// What follows a key and its value, which nests no deeper than so.
#[cycle(values)]
fn member(bytes: &[u8], depth: u64) -> Option<&[u8]>
    ensures { IfSome result (λ rest. IsSomeMember depth bytes.now rest.now) }
{
    let behind = any_string(bytes)?;
    value(colon(behind)?, depth)
}

/// What follows a string, a number, a boolean or null.
fn simple_value(bytes: &[u8]) -> Option<&[u8]>
    ensures { IfSome result (λ rest. IsSomeValue 0 bytes.now rest.now) }
{
    let [first, ..] = bytes else {
        return None;
    };
    match *first {
        b'"' => some_text(bytes),
        b't' | b'f' => {
            let (_value, rest) = boolean(bytes)?;
            Some(rest)
        }
        b'n' => null(bytes),
        _ => some_number(bytes),
    }
}

/// What follows a number, which mostly is an integer without sign.
fn some_number(bytes: &[u8]) -> Option<&[u8]>
    ensures { IfSome result (λ rest. IsSomeValue 0 bytes.now rest.now) }
{
    if let Some((_value, rest)) = integer(bytes) {
        return Some(rest);
    }
    number(bytes)
}
