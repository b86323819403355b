//! Lines in one of the usual orders of keys, without white space.
ghost use Rattle.std.specs.Prelude.{◌≡◌, true};
ghost use Rattle.qa_fast_reader.specs.Found.{IsLineOf, Reads};

use crate::found::Found;
use qa_format::Line;
use std::alloc::Global;

/// A packet that was sent, its keys in ascending order.
#[inline(always)]
fn sent_sorted(bytes: &[u8]) -> Option<Line>
    ensures { Reads bytes.now result }
{
    let mut found = Found::nothing();
    let rest = found.eliciting_first(bytes)?;
    let rest = found.sent_next(rest)?;
    let rest = found.in_flight_next(rest)?;
    let rest = found.permission_if(rest)?;
    let rest = found.number_next(rest)?;
    let rest = found.size_next(rest)?;
    let rest = found.space_next(rest)?;
    let rest = found.time_next(rest)?;
    found.ended(rest)
}

/// An acknowledgment, its keys in ascending order.
#[inline(always)]
fn ack_sorted(alloc: Global, bytes: &[u8]) -> Option<Line>
    ensures { Reads bytes.now result }
{
    let mut found = Found::nothing();
    let rest = found.ack_begun(bytes)?;
    let rest = found.limited_if(rest)?;
    let rest = found.ranges_next(alloc, rest)?;
    let rest = found.space_next(rest)?;
    let rest = found.time_next(rest)?;
    found.ended(rest)
}

/// A packet that was sent, its keys in the order of the format.
#[inline(always)]
fn sent_in_order(bytes: &[u8]) -> Option<Line>
    ensures { Reads bytes.now result }
{
    let mut found = Found::nothing();
    let rest = found.sent_first(bytes)?;
    let rest = found.time_next(rest)?;
    let rest = found.space_next(rest)?;
    let rest = found.number_next(rest)?;
    let rest = found.size_next(rest)?;
    let rest = found.eliciting_next(rest)?;
    let rest = found.in_flight_next(rest)?;
    let rest = found.permission_if(rest)?;
    found.ended(rest)
}

/// An acknowledgment, its keys in the order of the format.
#[inline(always)]
fn ack_in_order(alloc: Global, bytes: &[u8]) -> Option<Line>
    ensures { Reads bytes.now result }
{
    let mut found = Found::nothing();
    let rest = found.ack_first(bytes)?;
    let rest = found.time_next(rest)?;
    let rest = found.space_next(rest)?;
    let rest = found.ranges_next(alloc, rest)?;
    let rest = found.delay_if(rest)?;
    let rest = found.limited_if(rest)?;
    found.ended(rest)
}

/// Packets that were declared lost, their keys in ascending order.
#[inline(always)]
fn lost_sorted(alloc: Global, bytes: &[u8]) -> Option<Line>
    ensures { Reads bytes.now result }
{
    let mut found = Found::nothing();
    let rest = found.lost_first(bytes)?;
    let rest = found.ranges_next(alloc, rest)?;
    let rest = found.space_next(rest)?;
    let rest = found.time_next(rest)?;
    found.ended(rest)
}

/// Packets that were declared lost, their keys in the order of the format.
#[inline(always)]
fn lost_in_order(alloc: Global, bytes: &[u8]) -> Option<Line>
    ensures { Reads bytes.now result }
{
    let mut found = Found::nothing();
    let rest = found.lost_first(bytes)?;
    let rest = found.time_next(rest)?;
    let rest = found.space_next(rest)?;
    let rest = found.ranges_next(alloc, rest)?;
    found.ended(rest)
}

/// Whether the bytes of a line say a packet that was sent or an acknowledgment, its keys in a usual
/// order without white space; the line is put where it is to stand, so that it is not handed from
/// one function to the next.
#[inline(always)]
pub fn usual_line(alloc: Global, bytes: &[u8], into: &mut Line) -> bool
    ensures { result ≡ true → IsLineOf bytes.now into.new }
{
    if let Some(line) = sent_sorted(bytes) {
        *into = line;
        return true;
    }
    if let Some(line) = ack_sorted(alloc, bytes) {
        *into = line;
        return true;
    }
    if let Some(line) = sent_in_order(bytes) {
        *into = line;
        return true;
    }
    if let Some(line) = ack_in_order(alloc, bytes) {
        *into = line;
        return true;
    }
    false
}

/// The packets that the bytes of a line declare lost, where its keys stand in a usual order without
/// white space.
#[inline(always)]
pub fn exact_lost(alloc: Global, bytes: &[u8]) -> Option<Line>
    ensures { Reads bytes.now result }
{
    if let Some(line) = lost_sorted(alloc, bytes) {
        return Some(line);
    }
    lost_in_order(alloc, bytes)
}
