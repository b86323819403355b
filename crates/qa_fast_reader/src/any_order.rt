//! Members of an object in any order, with white space and with keys that no event has.
ghost use Rattle.std.specs.Prelude.{◌≡◌, ℕ, List, IfSome, true};
ghost use Rattle.qa_fast_reader.specs.Found.{Follows, IsLineOf, Reads, nothing};

use crate::found::Found;
use crate::in_order::in_order;
use crate::unknown::unknown_member;
use qa_format::Line;
use qa_scan::{begin_object, comma, end_object};
use std::alloc::Global;

/// Whether the bytes of a line say an event, whose keys may be in any order; the line is put where
/// it is to stand.
pub fn any_order(alloc: Global, bytes: &[u8], into: &mut Line) -> bool
    ensures { result ≡ true → IsLineOf bytes.now into.new }
{
    let Some(rest) = front(bytes) else {
        return false;
    };
    if is_kind_or_time(rest) {
        if in_order(alloc, rest, into) {
            return true;
        }
    }
    put_members(alloc, rest, into)
}

/// The same of the members of an object, from a key on, before which there is nothing that an event
/// asks for.
#[inline(never)]
fn put_members(alloc: Global, bytes: &[u8], into: &mut Line) -> bool
    ensures { (whole : List ℕ) → Follows nothing whole bytes.now → result ≡ true
        → IsLineOf whole into.new }
{
    let Some(line) = line_of_members(alloc, bytes) else {
        return false;
    };
    *into = line;
    true
}

/// What follows the brace that opens the object, and the members at its front whose keys no event
/// has, as loggers put them there.
fn front(bytes: &[u8]) -> Option<&[u8]>
    ensures { IfSome result (λ rest. Follows nothing bytes.now rest.now) }
{
    let mut rest = begin_object(bytes)?;
    for i in 0..u64::MAX {
        if is_kind_or_time(rest) || is_like_others(rest) {
            break;
        }
        let Some(behind) = unknown_member(rest) else {
            break;
        };
        let more = comma(behind)?;
        rest = more;
    }
    Some(rest)
}

/// Whether a look at two letters tells that the key may be the kind or the time, one of which comes
/// first in most lines.
#[inline(always)]
fn is_kind_or_time(bytes: &[u8]) -> bool {
    let [_, first, second, ..] = bytes else {
        return false;
    };
    (*first == b'e' && *second == b'v') || (*first == b't' && *second == b'i')
}

/// Whether a look at two letters tells that the key may be another of a packet or an
/// acknowledgment, and hardly one of a logger's own, as `level` for `leave`.
#[inline(always)]
fn is_like_others(bytes: &[u8]) -> bool {
    let [_, first, second, ..] = bytes else {
        return false;
    };
    match *first {
        b's' => *second == b'p' || *second == b'i',
        b'n' => *second == b'u',
        b'e' => *second == b'l',
        b'i' => *second == b'n',
        b'r' => *second == b'a',
        b'd' => *second == b'e',
        _ => false,
    }
}

/// The event that the members of an object say, from a key on, before which there is nothing that
/// an event asks for.
#[inline(always)]
fn line_of_members(alloc: Global, bytes: &[u8]) -> Option<Line>
    ensures { (whole : List ℕ) → Follows nothing whole bytes.now → Reads whole result }
{
    let mut rest = bytes;
    let mut found = Found::nothing();
    for i in 0..u64::MAX {
        let behind = found.member(alloc, rest)?;
        let Some(more) = comma(behind) else {
            let end = end_object(behind)?;
            if !end.is_empty() {
                return None;
            }
            return found.line_said();
        };
        rest = more;
    }
    None
}
