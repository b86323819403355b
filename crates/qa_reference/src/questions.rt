//! Questions to a history under its header, each answered from the events alone.
ghost use Rattle.std.specs.Prelude.{◌≡◌, ◌≤◌, ◌*◌, length};
ghost use Rattle.std.specs.List.{list_any};
ghost use Rattle.qa_base.specs.machine.Breaches as breaches;
ghost use Rattle.qa_base.specs.machine.Loss as loss;
ghost use Rattle.qa_base.specs.machine.Numbers as tests;
ghost use Rattle.qa_base.specs.machine.Packets as packets;
ghost use Rattle.qa_base.specs.machine.Packets.{history_of};
ghost use Rattle.qa_base.specs.machine.Timer as timers;
ghost use Rattle.qa_reference.specs.Estimated.{IsTimerLook};
ghost use Rattle.qa_reference.specs.Looks.{IsLook};

use crate::deadlines::TimerLook;
use crate::estimates::{estimates_of, sampled};
use crate::losses::{Look, look_at};
use crate::packet::Packet;
use crate::timer::pto_count;
use crate::{deadlines, losses, named};
use qa_base::{Due, Event, Header, Space, Span};

/// What is found out of the events once.
fn look(header: &Header, events: &[Event]) -> Look
    ensures { IsLook header.now (history_of events.now) result }
{
    look_at(header, events, sampled(header, events))
}

/// What is found out of the events once, before it is asked what the timer is set for.
fn timer_look(header: &Header, events: &[Event]) -> TimerLook
    ensures { IsTimerLook header.now (history_of events.now) result }
{
    let estimates = estimates_of(header, events);
    TimerLook {
        look: look_at(header, events, estimates.sampled),
        rtt: estimates.rtt,
    }
}

/// Whether the last event found the packet lost, so that the next has to declare it: an
/// acknowledgment of something new and a loss timer look for losses (RFC 9002, section 6.1, A.10).
#[tactic(auto, using(crate::proofs::Owed::found_by_is))]
pub fn is_owed(header: &Header, events: &[Event], packet: Packet) -> bool
    ensures { result ≡ loss.is_owed header.now (history_of events.now) packet }
{
    losses::is_found(events, look(header, events), packet)
}

/// Whether the last event found a packet lost.
#[tactic(auto, using(crate::proofs::Owed::some_counted))]
pub fn owes(header: &Header, events: &[Event]) -> bool
    ensures { result ≡ packets.is_some_packet (loss.owed header.now (history_of events.now)) }
{
    0 < owed_count(header, events)
}

/// Whether the last event found a packet of the space lost, or left it to the sender whether one
/// is.
pub fn has_nameable_in(header: &Header, events: &[Event], space: Space) -> bool
    ensures { result ≡ list_any (packets.is_of space)
        (loss.nameable header.now (history_of events.now)) }
{
    losses::has_nameable_in(header, events, look(header, events), space)
}

/// How many packets the last event found lost.
pub fn owed_count(header: &Header, events: &[Event]) -> u64
    ensures { result ≡ length (loss.owed header.now (history_of events.now)) }
{
    losses::owed_count(header, events, look(header, events))
}

/// Whether the ranges name all packets that the last event found lost, and no others but those of
/// which it left that to the sender.
pub fn names_losses(header: &Header, events: &[Event], ranges: &[Span]) -> bool
    ensures { result ≡ tests.names_between ranges.now
        (breaches.numbers (loss.owed header.now (history_of events.now)))
        (breaches.numbers (loss.nameable header.now (history_of events.now))) }
{
    named::names_losses(header, events, look(header, events), ranges)
}

/// The bytes in flight: the sizes of the in-flight packets that are neither acknowledged nor lost,
/// and whose space is not discarded (RFC 9002, B.4, B.9).
pub fn bytes_in_flight(header: &Header, events: &[Event]) -> u128
    ensures value { result ≡ loss.bytes_in_flight header.now (history_of events.now) }
    ensures bound { result ≤ length events.now * 18446744073709551615 }
{
    losses::bytes_in_flight(header, events, look(header, events))
}

/// What the loss detection timer is set for; None where it is not set (RFC 9002, A.8).
///
/// Asks for a PTO count of at most 40. The count of a tolerated run is, where its times are in
/// their range.
pub fn deadline(header: &Header, events: &[Event]) -> Option<Due>
    requires counted { timers.pto_count header.now (history_of events.now) ≤ 40 }
    ensures { result ≡ timers.deadline header.now (history_of events.now) }
{
    deadlines::deadline(
        header,
        events,
        &timer_look(header, events),
        pto_count(header, events),
    )
}

/// What the timer is set for by packets, not as the timer that a client keeps until its address is
/// validated (RFC 9002, section 6.2.2.1); None where packets set none.
///
/// Asks for a PTO count of at most 40.
pub fn packet_deadline(header: &Header, events: &[Event]) -> Option<Due>
    requires counted { timers.pto_count header.now (history_of events.now) ≤ 40 }
    ensures { result ≡ timers.packet_deadline header.now (history_of events.now) }
{
    deadlines::packet_deadline(
        header,
        events,
        &timer_look(header, events),
        pto_count(header, events),
    )
}
