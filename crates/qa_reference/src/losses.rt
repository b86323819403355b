//! Detection of losses, what is open, and the bytes in flight (RFC 9002, section 6.1, A.10).
ghost use Rattle.std.specs.Prelude.{nat_lt, ◌&&◌, ◌≡◌, ◌∷◌, ◌≤◌, ◌*◌, filter, length};
ghost use Rattle.qa_base.specs.declared.space.Space.{Space};
ghost use Rattle.qa_base.specs.machine.Detection as detections;
ghost use Rattle.qa_base.specs.machine.Estimates as estimates;
ghost use Rattle.qa_base.specs.machine.Loss as loss;
ghost use Rattle.qa_base.specs.machine.Packets as packets;
ghost use Rattle.qa_base.specs.machine.Packets.{history_of};
ghost use Rattle.qa_base.specs.values.Settings.{early, is_may};
ghost use Rattle.qa_reference.specs.Listed.{listed};
ghost use Rattle.qa_reference.specs.Looks.{IsLook, IsSeen, is_found_by, is_left_by, is_nameable_by};
ghost use Rattle.qa_reference.specs.Looks.{largest_there as largest_there_of};
ghost use Rattle.std.specs.List.{list_any};

use crate::distance::distance_below;
use crate::packet::{Packet, is_below_largest, packet_in, packet_of, sooner};
use crate::settled::{
    acknowledges_new, is_acknowledged, is_declared_lost, is_discarded, largest_acknowledged,
};
use qa_base::{Event, Header, Space, Ticks, TimerKind};
use qa_recovery::Rtt;
use std::marker::Model;

/// What is found out of a history once, before its packets are asked.
#[derive(Clone, Copy)]
pub struct Look {
    /// The estimate of the round-trip time by which losses are found.
    pub rtt: Rtt,
    /// Where, and as of when, the last event looks for losses.
    pub detection: Option<(Space, u64)>,
    /// The largest number that was acknowledged there.
    pub largest: Option<u64>,
    /// The header.
    pub header: Header,
}

impl Model for Look {
    ghost use Rattle.qa_reference.specs.Looks.{Seen};

    ghost Value = { Seen };

    ghost view = { λ l. record {
      rtt = l.rtt;
      detection = l.detection;
      largest = l.largest;
      header = l.header;
    } };

    ghost inverse = { λ l.
        record { rtt = l.rtt; detection = l.detection; largest = l.largest; header = l.header } };
}

/// Whether the loss delay has passed since the packet was sent (RFC 9002, section 6.1.2).
fn is_old(header: &Header, rtt: Rtt, now: u64, packet: Packet) -> bool
    ensures { result ≡ detections.is_old header.now rtt now packet }
{
    rtt.loss_delay(header) <= now.saturating_sub(packet.time.get())
}

/// Whether the packet is below the largest acknowledged number by the sender's packet threshold.
fn is_far_below(header: &Header, events: &[Event], largest: u64, packet: Packet) -> bool
    ensures { result
        ≡ detections.is_far_below header.now (history_of events.now) largest packet }
{
    let options = header.options();
    let number = packet.number.get();
    let counts = options.threshold_counts;
    options.packet_threshold <= distance_below(counts, events, packet.space, number, largest)
}

/// Whether the packet is below the largest acknowledged number, for long enough or, where such
/// packets must be lost, by the sender's packet threshold.
fn is_past_threshold(events: &[Event], look: Look, now: u64, packet: Packet) -> bool
    ensures { result ≡ detections.is_past_threshold look.header look.rtt (history_of events.now) now
        look.largest packet }
{
    let header = look.header;
    match look.largest {
        None => false,
        Some(largest) => {
            packet.number.get() < largest
                && ((!header.options().loss_by_number.is_may()
                    && is_far_below(&header, events, largest, packet))
                    || is_old(&header, look.rtt, now, packet))
        }
    }
}

/// Whether the packet is below the largest acknowledged number by the sender's packet threshold,
/// and such packets may be spared.
fn is_far_enough(header: &Header, events: &[Event], largest: u64, packet: Packet) -> bool
    ensures { result ≡ (nat_lt packet.number largest
        && (is_may header.now.options.loss_by_number
        && detections.is_far_below header.now (history_of events.now) largest packet)) }
{
    packet.number.get() < largest
        && (header.options().loss_by_number.is_may()
            && is_far_below(header, events, largest, packet))
}

/// Whether the packet may be spared though it is below the largest acknowledged number by the
/// sender's packet threshold: the header says so, and the packet is not old.
fn may_be_spared(events: &[Event], look: Look, now: u64, packet: Packet) -> bool
    ensures { result ≡ detections.may_be_spared look.header look.rtt (history_of events.now) now
        look.largest packet }
{
    let header = look.header;
    match look.largest {
        None => false,
        Some(largest) => {
            is_far_enough(&header, events, largest, packet)
                && !is_old(&header, look.rtt, now, packet)
        }
    }
}

/// Whether the packet is neither acknowledged nor declared lost.
pub fn is_unsettled(events: &[Event], packet: Packet) -> bool
    ensures { result ≡ detections.is_unsettled (history_of events.now) packet }
{
    !is_acknowledged(events, packet) && !is_declared_lost(events, packet)
}

/// Whether a loss timer is set for the packet: in flight, neither acknowledged nor declared lost,
/// and below the largest acknowledged number.
fn awaits_timer(events: &[Event], packet: Packet) -> bool
    ensures { result ≡ detections.awaits_timer (history_of events.now) packet }
{
    packet.in_flight
        && is_unsettled(events, packet)
        && is_below_largest(
            packet.number.get(),
            largest_acknowledged(events, packet.space),
        )
}

/// When the first such packet of the space was sent.
pub fn first_awaiting(events: &[Event], space: Space) -> Option<Ticks>
    ensures { result ≡ detections.first_awaiting (history_of events.now) space }
{
    let mut least = None;
    for (place, event) in events.iter().enumerate() {
        if let Some(packet) = packet_in(space, place, event) {
            if awaits_timer(events, packet) {
                least = Some(sooner(least, packet.time));
            }
        }
    }
    least
}

/// As of when a loss timer looks for losses.
fn looks_at(header: &Header, before: &[Event], rtt: Rtt, time: Ticks, space: Space) -> u64
    ensures { result ≡ detections.looks_at (early header.now) time
        (detections.old_at header.now rtt (history_of before.now) space) }
{
    match first_awaiting(before, space) {
        None => time.get(),
        Some(sent) => {
            let due = sent.get() + rtt.loss_delay(header);
            let latest = time.get() + header.timer_early();
            time.get().max(due.min(latest))
        }
    }
}

/// Where, and as of when, an event looks for losses.
fn detection_by(header: &Header, before: &[Event], event: &Event, rtt: Rtt) -> Option<(Space, u64)>
    ensures { result ≡ detections.detection_by header.now rtt (event.now ∷ history_of before.now) }
{
    match event {
        Event::Ack(ack) => {
            if acknowledges_new(before, event) {
                Some((ack.space, ack.time.get()))
            } else {
                None
            }
        }
        Event::Timer {
            time,
            kind: TimerKind::Loss,
            space,
        } => Some((*space, looks_at(header, before, rtt, *time, *space))),
        _ => None,
    }
}

/// Where, and as of when, the last event looks for losses.
fn detection(header: &Header, events: &[Event], rtt: Rtt) -> Option<(Space, u64)>
    ensures { result ≡ detections.detection_by header.now rtt (history_of events.now) }
{
    let (event, before) = events.split_last()?;
    detection_by(header, before, event, rtt)
}

/// The largest number that was acknowledged where the last event looks for losses.
fn largest_there(events: &[Event], detection: Option<(Space, u64)>) -> Option<u64>
    ensures { result ≡ largest_there_of (history_of events.now) detection }
{
    let (space, _) = detection?;
    largest_acknowledged(events, space)
}

/// What is known of the history, with the estimate by which its losses are found.
pub fn look_at(header: &Header, events: &[Event], rtt: Rtt) -> Look
    requires known { rtt ≡ estimates.sampled header.now (history_of events.now) }
    ensures { IsLook header.now (history_of events.now) result }
{
    look_by(header, events, rtt)
}

/// What is known of the history, by an estimate.
pub fn look_by(header: &Header, events: &[Event], rtt: Rtt) -> Look
    ensures { IsSeen header.now rtt (history_of events.now) result }
{
    let detection = detection(header, events, rtt);
    Look {
        rtt,
        detection,
        largest: largest_there(events, detection),
        header: *header,
    }
}

/// Whether the packet is past a threshold and unsettled, the cheaper test first.
#[tactic(auto, using(crate::proofs::Owed::and_turned))]
fn is_late_open(events: &[Event], look: Look, now: u64, packet: Packet) -> bool
    ensures { result ≡ (detections.is_unsettled (history_of events.now) packet
        && detections.is_past_threshold look.header look.rtt (history_of events.now) now
        look.largest packet) }
{
    is_past_threshold(events, look, now, packet) && is_unsettled(events, packet)
}

/// Whether by what is known the last event found the packet lost.
pub fn is_found(events: &[Event], look: Look, packet: Packet) -> bool
    ensures { result ≡ is_found_by (history_of events.now) look packet }
{
    match look.detection {
        None => false,
        Some((space, now)) => {
            space == packet.space && packet.in_flight && is_late_open(events, look, now, packet)
        }
    }
}

/// The packet that the event sent, where by what is known the last of the events found it lost.
pub fn found_of(events: &[Event], look: Look, place: usize, event: &Event) -> Option<Packet>
    ensures { listed result
        ≡ filter (is_found_by (history_of events.now) look) (packets.packet_of place event.now) }
{
    match packet_of(place, event) {
        Some(packet) if is_found(events, look, packet) => Some(packet),
        _ => None,
    }
}

/// Whether the packet may be spared and is unsettled, the cheaper test first.
#[tactic(auto, using(crate::proofs::Owed::and_turned))]
fn is_spared_open(events: &[Event], look: Look, now: u64, packet: Packet) -> bool
    ensures { result ≡ (detections.is_unsettled (history_of events.now) packet
        && detections.may_be_spared look.header look.rtt (history_of events.now) now look.largest
        packet) }
{
    may_be_spared(events, look, now, packet) && is_unsettled(events, packet)
}

/// Whether by what is known the last event left it to the sender whether the packet is lost.
pub fn is_left(events: &[Event], look: Look, packet: Packet) -> bool
    ensures { result ≡ is_left_by (history_of events.now) look packet }
{
    match look.detection {
        None => false,
        Some((space, now)) => {
            space == packet.space && packet.in_flight && is_spared_open(events, look, now, packet)
        }
    }
}

/// Whether by what is known the next Lost line may name the packet.
fn is_nameable(events: &[Event], look: Look, packet: Packet) -> bool
    ensures { result ≡ is_nameable_by (history_of events.now) look packet }
{
    is_found(events, look, packet) || is_left(events, look, packet)
}

/// The packet that the event sent, where by what is known the next Lost line may name it.
pub fn nameable_of(events: &[Event], look: Look, place: usize, event: &Event) -> Option<Packet>
    ensures { listed result
        ≡ filter (is_nameable_by (history_of events.now) look) (packets.packet_of place event.now) }
{
    match packet_of(place, event) {
        Some(packet) if is_nameable(events, look, packet) => Some(packet),
        _ => None,
    }
}

/// How many packets the last event found lost.
pub fn owed_count(header: &Header, events: &[Event], look: Look) -> u64
    requires seen { IsLook header.now (history_of events.now) look }
    ensures { result ≡ length (loss.owed header.now (history_of events.now)) }
{
    let mut count = 0;
    for (place, event) in events.iter().enumerate() {
        if let Some(_packet) = found_of(events, look, place, event) {
            count += 1;
        }
    }
    count
}

/// Whether the packet is neither acknowledged nor lost, and its space not discarded.
pub fn is_open(header: &Header, events: &[Event], look: Look, packet: Packet) -> bool
    requires seen { IsLook header.now (history_of events.now) look }
    ensures { result ≡ loss.is_open header.now (history_of events.now) packet }
{
    is_unsettled(events, packet)
        && !is_found(events, look, packet)
        && !is_discarded(events, packet.space)
}

/// What the packet adds to the bytes in flight.
fn flight_size(header: &Header, events: &[Event], look: Look, packet: Packet) -> u64
    requires seen { IsLook header.now (history_of events.now) look }
    ensures { result ≡ loss.flight_size header.now (history_of events.now) packet }
{
    if packet.in_flight && is_open(header, events, look, packet) {
        packet.size
    } else {
        0
    }
}

/// The bytes in flight.
pub fn bytes_in_flight(header: &Header, events: &[Event], look: Look) -> u128
    requires seen { IsLook header.now (history_of events.now) look }
    ensures value { result ≡ loss.bytes_in_flight header.now (history_of events.now) }
    ensures bound { result ≤ length events.now * 18446744073709551615 }
{
    let mut bytes: u128 = 0;
    for (place, event) in events.iter().enumerate() {
        if let Some(packet) = packet_of(place, event) {
            bytes += u128::from(flight_size(header, events, look, packet));
        }
    }
    bytes
}

/// Whether the next Lost line may name a packet of the space.
pub fn has_nameable_in(header: &Header, events: &[Event], look: Look, space: Space) -> bool
    requires seen { IsLook header.now (history_of events.now) look }
    ensures { result ≡ list_any (packets.is_of space)
        (loss.nameable header.now (history_of events.now)) }
{
    let mut found = false;
    for (place, event) in events.iter().enumerate() {
        if let Some(packet) = nameable_of(events, look, place, event) {
            if space == packet.space {
                found = true;
            }
        }
    }
    found
}
