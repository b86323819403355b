//! The deadline of the loss detection timer (RFC 9002, section 6.2, A.8).
ghost use Rattle.std.specs.Prelude.{◌≡◌, ◌∷◌, ◌≤◌, ◌<◌, ◌^◌, ◌*◌, ◌+◌, Some, None, Option, filter};
ghost use Rattle.std.specs.Prelude.{map, if◌then◌else◌};
ghost use Rattle.std.specs.List.{list_any};
ghost use Rattle.qa_base.specs.declared.event.Event.{Event};
ghost use Rattle.qa_base.specs.machine.Estimates as estimates;
ghost use Rattle.qa_base.specs.machine.Handshake as handshake;
ghost use Rattle.qa_base.specs.machine.Packets as packets;
ghost use Rattle.qa_base.specs.machine.Packets.{history_of, packets_of};
ghost use Rattle.qa_reference.specs.Estimated.{IsTimerLook};
ghost use Rattle.qa_reference.specs.Looks.{IsLook};
ghost use Rattle.qa_base.specs.machine.Timer as timers;
ghost use Rattle.qa_base.specs.declared.space.Space.TheVariants as spaces;
ghost use Rattle.qa_base.specs.values.Limits.{max_time, max_max_ack_delay_ns};

use crate::handshake::{has_keys, is_confirmed, is_validated};
use crate::losses::{Look, is_open};
use crate::packet::{Packet, is_below_largest, packet_in, sooner};
use crate::settled::{acknowledges_new, largest_acknowledged};
use qa_base::{Due, Event, Header, Space, Ticks, TimerKind};
use qa_recovery::Rtt;

/// What is found out of a history once, before it is asked what the timer is set for.
#[derive(Clone, Copy)]
pub struct TimerLook {
    /// What is known of its packets.
    pub look: Look,
    /// The estimate of the round-trip time after the last event.
    pub rtt: Rtt,
}

/// Whether the packet is lost once it is old: open, in flight, below the largest acknowledged
/// number of its space.
fn awaits_loss(header: &Header, events: &[Event], look: Look, packet: Packet) -> bool
    requires seen { IsLook header.now (history_of events.now) look }
    ensures { result ≡ timers.awaits_loss header.now (history_of events.now) packet }
{
    packet.in_flight
        && is_open(header, events, look, packet)
        && is_below_largest(
            packet.number.get(),
            largest_acknowledged(events, packet.space),
        )
}

/// When the first such packet of the space was sent.
fn first_awaiting(header: &Header, events: &[Event], look: Look, space: Space) -> Option<Ticks>
    requires seen { IsLook header.now (history_of events.now) look }
    ensures { result ≡ packets.least_of
        (map (λ p. p.time)
        (filter (timers.awaits_loss header.now (history_of events.now))
        (packets_of (history_of events.now) space))) }
{
    let mut least = None;
    for (place, event) in events.iter().enumerate() {
        if let Some(packet) = packet_in(space, place, event) {
            if awaits_loss(header, events, look, packet) {
                least = Some(sooner(least, packet.time));
            }
        }
    }
    least
}

/// When the first packet of the space is old.
fn loss_due(header: &Header, events: &[Event], look: &TimerLook, space: Space) -> Option<Due>
    requires seen { IsTimerLook header.now (history_of events.now) look.now }
    ensures { result ≡ timers.loss_due header.now (history_of events.now) space }
{
    let sent = first_awaiting(header, events, look.look, space)?;
    Some(Due {
        kind: TimerKind::Loss,
        space,
        time: u128::from(sent.get() + look.rtt.loss_delay(header)),
    })
}

/// The earliest of these of all spaces.
fn earliest_loss(header: &Header, events: &[Event], look: &TimerLook) -> Option<Due>
    requires seen { IsTimerLook header.now (history_of events.now) look.now }
    ensures { result ≡ timers.earliest_loss header.now (history_of events.now) }
{
    Due::earlier(
        loss_due(header, events, look, Space::Initial),
        Due::earlier(
            loss_due(header, events, look, Space::Handshake),
            loss_due(header, events, look, Space::App),
        ),
    )
}

/// Whether an open packet of the space asks for an acknowledgment.
fn some_awaits(header: &Header, events: &[Event], look: Look, space: Space) -> bool
    requires seen { IsLook header.now (history_of events.now) look }
    ensures { result ≡ list_any (timers.awaits_acknowledgment header.now (history_of events.now))
        (packets_of (history_of events.now) space) }
{
    let mut found = false;
    for (place, event) in events.iter().enumerate() {
        if let Some(packet) = packet_in(space, place, event) {
            if packet.eliciting && is_open(header, events, look, packet) {
                found = true;
            }
        }
    }
    found
}

/// The time of the last ack-eliciting packet of the space, open or not.
pub fn last_eliciting(events: &[Event], space: Space) -> Option<Ticks>
    ensures { result ≡ timers.last_eliciting (history_of events.now) space }
{
    let mut last = None;
    for (place, event) in events.iter().enumerate() {
        if let Some(packet) = packet_in(space, place, event) {
            if packet.eliciting {
                last = Some(packet.time);
            }
        }
    }
    last
}

impl TimerLook {
    /// The probe timeout of the space, doubled for each before it, of which there were `count`. The
    /// peer may delay its acknowledgments by `peer_delay`.
    #[tactic(auto, using(crate::proofs::Powers::few_doublings))]
    fn pto_due(
        &self,
        header: &Header,
        events: &[Event],
        count: u64,
        peer_delay: u64,
        space: Space,
    ) -> Option<Due>
        requires seen { IsTimerLook header.now (history_of events.now) self.now }
        requires counted { count ≡ timers.pto_count header.now (history_of events.now) }
        requires few { count ≤ 40 }
        requires delay { peer_delay ≤ max_max_ack_delay_ns }
        ensures { result ≡ timers.pto_due header.now (history_of events.now) peer_delay space }
    {
        if !some_awaits(header, events, self.look, space) {
            return None;
        }
        let sent = last_eliciting(events, space)?;
        let timeout = self.rtt.pto_base(header.granularity()) + peer_delay;
        Some(Due::probe_timeout(space, sent, timeout, count))
    }
}

/// The probe timeout of application data, which counts once the handshake is confirmed.
fn app_pto(header: &Header, events: &[Event], look: &TimerLook, count: u64) -> Option<Due>
    requires seen { IsTimerLook header.now (history_of events.now) look.now }
    requires counted { count ≡ timers.pto_count header.now (history_of events.now) }
    requires few { count ≤ 40 }
    ensures { result ≡ (if handshake.is_confirmed
        (history_of events.now) then timers.pto_due header.now
        (history_of events.now) header.now.max_ack_delay spaces.App else None) }
{
    if !is_confirmed(events) {
        return None;
    }
    look.pto_due(header, events, count, header.max_ack_delay(), Space::App)
}

/// The earliest probe timeout of all spaces.
fn earliest_pto(header: &Header, events: &[Event], look: &TimerLook, count: u64) -> Option<Due>
    requires seen { IsTimerLook header.now (history_of events.now) look.now }
    requires counted { count ≡ timers.pto_count header.now (history_of events.now) }
    requires few { count ≤ 40 }
    ensures { result ≡ timers.earliest_pto header.now (history_of events.now) }
{
    Due::earlier(
        look.pto_due(header, events, count, 0, Space::Initial),
        Due::earlier(
            look.pto_due(header, events, count, 0, Space::Handshake),
            app_pto(header, events, look, count),
        ),
    )
}

/// Whether an event after these sets the timer.
fn sets_timer(before: &[Event], event: &Event) -> bool
    ensures { result ≡ timers.sets_timer (event.now ∷ history_of before.now) }
{
    match event {
        Event::Sent(packet) => packet.in_flight,
        Event::Timer { .. } | Event::Discard { .. } => true,
        _ => acknowledges_new(before, event),
    }
}

/// When the timer was last set.
pub fn last_set(events: &[Event]) -> Option<Ticks>
    ensures { result ≡ timers.last_set (history_of events.now) }
{
    let mut last = None;
    for (place, event) in events.iter().enumerate() {
        if sets_timer(&events[..place], event) {
            last = Some(event.time());
        }
    }
    last
}

/// The timer that a client keeps until its address is validated (RFC 9002, section 6.2.2.1).
#[tactic(auto, using(crate::proofs::Powers::few_doublings))]
fn anti_deadlock(header: &Header, events: &[Event], rtt: Rtt, count: u64) -> Option<Due>
    requires known { rtt ≡ estimates.rtt header.now (history_of events.now) }
    requires counted { count ≡ timers.pto_count header.now (history_of events.now) }
    requires few { count ≤ 40 }
    ensures { result ≡ timers.anti_deadlock header.now (history_of events.now) }
{
    if is_validated(header, events) {
        return None;
    }
    let space = if has_keys(events) {
        Space::Handshake
    } else {
        Space::Initial
    };
    let set = last_set(events)?;
    Some(Due::probe_timeout(space, set, rtt.pto_base(header.granularity()), count))
}

/// What the timer is set for by packets: one that will be old, else a probe timeout.
pub fn packet_deadline(
    header: &Header,
    events: &[Event],
    look: &TimerLook,
    count: u64,
) -> Option<Due>
    requires seen { IsTimerLook header.now (history_of events.now) look.now }
    requires counted { count ≡ timers.pto_count header.now (history_of events.now) }
    requires few { count ≤ 40 }
    ensures { result ≡ timers.packet_deadline header.now (history_of events.now) }
{
    earliest_loss(header, events, look).or(earliest_pto(header, events, look, count))
}

/// What the timer is set for: a packet that will be old, else a probe timeout, else the timer that
/// a client keeps until its address is validated.
pub fn deadline(header: &Header, events: &[Event], look: &TimerLook, count: u64) -> Option<Due>
    requires seen { IsTimerLook header.now (history_of events.now) look.now }
    requires counted { count ≡ timers.pto_count header.now (history_of events.now) }
    requires few { count ≤ 40 }
    ensures { result ≡ timers.deadline header.now (history_of events.now) }
{
    earliest_loss(header, events, look)
        .or(earliest_pto(header, events, look, count))
        .or(anti_deadlock(header, events, look.rtt, count))
}
