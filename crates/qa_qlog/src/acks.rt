//! What an ACK frame says: its ranges, its delay and how many packets with ECN-CE came.
ghost use Rattle.std.specs.Prelude.{◌≡◌, ◌≤◌, ◌^◌, Option};
ghost use Rattle.json.specs.Json.{Json};
ghost use Rattle.json.specs.Json as json;
ghost use Rattle.json.specs.Find.{BeginsWith, InItems, Finds};
ghost use Rattle.qa_qlog.specs.Acks as acks;
ghost use Rattle.qa_qlog.specs.Frames.{listed};
ghost use Rattle.qa_qlog.specs.Ranges.{GivesRanges};

use crate::keys::{Key, NoValue};
use crate::numbers::{duration_or_zero, whole_of, whole_or_zero};
use crate::says::{get, says};
use crate::times::{LONGEST, Unit};
use json::{Element, Items};
use qa_base::{PacketNumber, Span, Spans};
use std::alloc::Global;
use thiserror::Error;

/// Why the ranges of an ACK frame are not returned.
#[derive(Clone, Copy, Debug, PartialEq, Eq, Error)]
pub enum NoRanges {
    /// They cannot be read.
    #[error("{0}")]
    Unread(NoValue),
    /// Out of memory.
    #[error("out of memory")]
    OutOfMemory,
}

/// The ranges of an ACK frame, in its order. They take memory.
pub fn acked_ranges(alloc: Global, frame: &Element<'_, '_>) -> Result<Spans, NoRanges>
    ensures { (j : Json) → BeginsWith frame.now j → GivesRanges result (acks.ranges j) }
{
    ranges_at(alloc, &get(frame, "acked_ranges"))
}

/// The ranges of a list, if it says anything.
fn ranges_at(alloc: Global, found: &Option<Element<'_, '_>>) -> Result<Spans, NoRanges>
    ensures { (o : Option Json) → Finds found.now o → GivesRanges result (acks.ranges_at o) }
{
    let Some(value) = found else {
        return Ok(Spans::new(alloc));
    };
    if !says(value) {
        return Ok(Spans::new(alloc));
    }
    match value.items() {
        Some(items) => ranges_of(alloc, items),
        None => Err(NoRanges::Unread(NoValue::OtherKind(Key::AckedRanges))),
    }
}

/// The ranges that items are.
fn ranges_of(alloc: Global, items: Items<'_, '_>) -> Result<Spans, NoRanges>
    ensures { (js : json.Items) → InItems items.entry js
        → GivesRanges result (acks.ranges_of (listed js)) }
{
    let mut items = items;
    let mut ranges = Spans::new(alloc);
    while let Some(item) = items.next() {
        let range = match range_of(&item) {
            Ok(range) => range,
            Err(fault) => return Err(NoRanges::Unread(fault)),
        };
        if ranges.push(range).is_err() {
            return Err(NoRanges::OutOfMemory);
        }
    }
    Ok(ranges)
}

/// The range that an item is: a number, or a list of one or two.
fn range_of(value: &Element<'_, '_>) -> Result<Span, NoValue>
    ensures { (j : Json) → BeginsWith value.now j → result ≡ acks.range_of j }
{
    let Some(mut items) = value.items() else {
        return single(value);
    };
    let Some(first) = items.next() else {
        return Err(NoValue::OtherKind(Key::AckedRanges));
    };
    let Some(second) = items.next() else {
        return single(&first);
    };
    match items.next() {
        Some(_) => Err(NoValue::OtherKind(Key::AckedRanges)),
        None => span(&first, &second),
    }
}

/// The range of one number.
fn single(value: &Element<'_, '_>) -> Result<Span, NoValue>
    ensures { (j : Json) → BeginsWith value.now j → result ≡ acks.single j }
{
    match number(value) {
        Ok(only) => Span::new(only, only).ok_or(NoValue::OutOfRange(Key::AckedRanges)),
        Err(fault) => Err(fault),
    }
}

/// The range from one number to another.
fn span(first: &Element<'_, '_>, last: &Element<'_, '_>) -> Result<Span, NoValue>
    ensures { (a b : Json) → BeginsWith first.now a → BeginsWith last.now b
        → result ≡ acks.span a b }
{
    let low = match number(first) {
        Ok(low) => low,
        Err(fault) => return Err(fault),
    };
    match number(last) {
        Ok(high) => Span::new(low, high).ok_or(NoValue::OutOfRange(Key::AckedRanges)),
        Err(fault) => Err(fault),
    }
}

/// The packet number that a value is.
fn number(value: &Element<'_, '_>) -> Result<PacketNumber, NoValue>
    ensures { (j : Json) → BeginsWith value.now j → result ≡ acks.number j }
{
    match whole_of(value, Key::AckedRanges) {
        Ok(number) => PacketNumber::new(number).ok_or(NoValue::OutOfRange(Key::AckedRanges)),
        Err(fault) => Err(fault),
    }
}

/// The nanoseconds of the delay of an ACK frame in a log whose durations have this unit. One that
/// stands there as on the wire is shifted to the left by `exponent`; of others that is 0.
pub fn ack_delay(frame: &Element<'_, '_>, unit: Unit, exponent: u8) -> Result<u64, NoValue>
    requires { exponent ≤ 20 }
    ensures { (j : Json) → BeginsWith frame.now j → result ≡ acks.delay unit exponent j }
{
    let delay = match duration_or_zero(&get(frame, "ack_delay"), Key::AckDelay, unit) {
        Ok(delay) => delay,
        Err(fault) => return Err(fault),
    };
    shifted(delay, exponent)
}

/// A delay that is shifted to the left, if it is at most 10^18 nanoseconds then.
#[tactic(auto, using(crate::proofs::Powers::product_small))]
fn shifted(delay: u64, exponent: u8) -> Result<u64, NoValue>
    requires { exponent ≤ 20 }
    ensures { result ≡ acks.shifted exponent delay }
{
    let shifted = u128::from(delay) * power(exponent);
    if shifted <= LONGEST {
        Ok(shifted as u64)
    } else {
        Err(NoValue::OutOfRange(Key::AckDelay))
    }
}

/// Two to the power of an exponent.
#[tactic(auto, using(crate::proofs::Powers::power_is, crate::proofs::Powers::power_small))]
fn power(exponent: u8) -> u128
    requires { exponent ≤ 20 }
    ensures value { result ≡ 2 ^ exponent }
    ensures bound { result ≤ 2 ^ 20 }
{
    1 << exponent
}

/// How many packets marked by ECN-CE came, by an ACK frame; 0 if it does not say it.
pub fn ce_count(frame: &Element<'_, '_>) -> Result<u64, NoValue>
    ensures { (j : Json) → BeginsWith frame.now j → result ≡ acks.ce_count j }
{
    whole_or_zero(&get(frame, "ce"), Key::Ce)
}
