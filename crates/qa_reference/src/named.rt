//! Whether ranges name the packets that are owed, and none that may not be named.
ghost use Rattle.std.specs.Prelude.{◌≡◌};
ghost use Rattle.std.specs.List.{list_all};
ghost use Rattle.qa_base.specs.machine.Breaches as breaches;
ghost use Rattle.qa_base.specs.values.Events as questions;
ghost use Rattle.qa_base.specs.machine.Loss as loss;
ghost use Rattle.qa_base.specs.machine.Numbers as tests;
ghost use Rattle.qa_base.specs.machine.Packets.{history_of};
ghost use Rattle.qa_reference.specs.Looks.{IsLook, numbers_found, numbers_nameable};

use crate::event::is_named;
use crate::losses::{Look, found_of, nameable_of};
use qa_base::{Event, Header, PacketNumber, Span};

/// Whether one of the packets that may be named has this number.
fn is_in(events: &[Event], look: Look, wanted: u64) -> bool
    ensures { result ≡ tests.is_in
        (numbers_nameable (history_of events.now) look (history_of events.now)) wanted }
{
    let mut found = false;
    for (place, event) in events.iter().enumerate() {
        if let Some(packet) = nameable_of(events, look, place, event) {
            if packet.number.get() == wanted {
                found = true;
            }
        }
    }
    found
}

/// Whether a number of the range, but for its last, has the next one beside it.
fn has_next(events: &[Event], look: Look, range: Span, number: PacketNumber) -> bool
    ensures { result ≡ tests.has_next
        (numbers_nameable (history_of events.now) look (history_of events.now)) range.0 range.1
        number }
{
    !(range.lo() <= number && number < range.hi()) || is_in(events, look, number.get() + 1)
}

/// Whether each of them has.
fn has_no_gap(events: &[Event], look: Look, range: Span) -> bool
    ensures { result ≡ list_all
        (tests.has_next
        (numbers_nameable (history_of events.now) look (history_of events.now)) range.0 range.1)
        (numbers_nameable (history_of events.now) look (history_of events.now)) }
{
    let mut all = true;
    for (place, event) in events.iter().enumerate() {
        if let Some(packet) = nameable_of(events, look, place, event) {
            if !has_next(events, look, range, packet.number) {
                all = false;
            }
        }
    }
    all
}

/// Whether each number of the ranges is one of theirs: the first of each range is, and it has no
/// gap.
fn has_all(events: &[Event], look: Look, ranges: &[Span]) -> bool
    ensures { result ≡ tests.has_all
        (numbers_nameable (history_of events.now) look (history_of events.now)) ranges.now }
{
    let mut all = true;
    for range in ranges {
        if !(is_in(events, look, range.lo().get()) && has_no_gap(events, look, *range)) {
            all = false;
        }
    }
    all
}

/// Whether the ranges name each packet that is owed.
fn all_named(events: &[Event], look: Look, ranges: &[Span]) -> bool
    ensures { result ≡ list_all (questions.is_named ranges.now)
        (numbers_found (history_of events.now) look (history_of events.now)) }
{
    let mut all = true;
    for (place, event) in events.iter().enumerate() {
        if let Some(packet) = found_of(events, look, place, event) {
            if !is_named(ranges, packet.number) {
                all = false;
            }
        }
    }
    all
}

/// Whether the ranges name all packets that are owed, and none that may not be named.
pub fn names_losses(header: &Header, events: &[Event], look: Look, ranges: &[Span]) -> bool
    requires seen { IsLook header.now (history_of events.now) look }
    ensures { result ≡ tests.names_between ranges.now
        (breaches.numbers (loss.owed header.now (history_of events.now)))
        (breaches.numbers (loss.nameable header.now (history_of events.now))) }
{
    has_all(events, look, ranges) && all_named(events, look, ranges)
}
