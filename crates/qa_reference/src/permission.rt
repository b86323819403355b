//! By whose leave packets go out, and how much of it was spent.
ghost use Rattle.std.specs.Prelude.{List, ◌||◌, ◌≡◌, ◌∷◌, ◌≤◌, ◌<◌, ◌^◌, ◌*◌, ◌+◌, Some, None};
ghost use Rattle.std.specs.Prelude.{length, option_map, if◌then◌else◌};
ghost use Rattle.std.specs.List.{All};
ghost use Rattle.std.specs.Option.{ForSome};
ghost use Rattle.qa_base.specs.declared.event.Event.{Event};
ghost use Rattle.qa_base.specs.machine.Permission as leaves;
ghost use Rattle.qa_base.specs.machine.Packets as packets;
ghost use Rattle.qa_base.specs.machine.Packets.{history_of};
ghost use Rattle.qa_base.specs.machine.Reno as steps;
ghost use Rattle.qa_base.specs.machine.Moments.{before_last, detection_of};
ghost use Rattle.qa_base.specs.machine.Probes as probes;
ghost use Rattle.qa_reference.specs.Words as words;
ghost use Rattle.qa_base.specs.machine.Widths.{Fits};
ghost use Rattle.qa_base.specs.values.Settings.{Settings};

use crate::estimates::{Estimates, losses_after};
use crate::settled::acknowledges_new;
use crate::timer::is_discard;
use crate::window::{congestion_of, reno_after};
use qa_base::{Event, Header, Permission, Space, Ticks};
use qa_recovery::Reno;

/// The size of the in-flight packet marked as a probe that the event sent.
fn probe_size(event: &Event) -> u64
    ensures { (h : List Event) → result ≡ leaves.probe_size (event.now ∷ h) }
{
    match event {
        Event::Sent(packet) if packet.is_in_flight_by(Permission::Probe) => packet.size,
        _ => 0,
    }
}

/// What was spent, with this.
fn more_spent(spent: Option<u128>, size: u64, place: usize) -> Option<u128>
    requires few { ForSome spent (λ n. n ≤ place * 18446744073709551615) }
    ensures value { result ≡ option_map (λ n. size + n) spent }
    ensures few { ForSome result (λ n. n ≤ (place + 1) * 18446744073709551615) }
{
    Some(u128::from(size) + spent?)
}

/// The bytes of in-flight packets marked as probes since the last probe timeout; None without one
/// (RFC 9002, section 6.2.4).
#[tactic(auto, using(qa_base::proofs::machine::Steps::probe_spent_after))]
pub fn probe_spent(events: &[Event]) -> Option<u128>
    ensures value { result ≡ leaves.probe_spent (history_of events.now) }
    ensures bound { ForSome result (λ n. n ≤ length events.now * 18446744073709551615) }
{
    let mut spent: Option<u128> = None;
    for (place, event) in events.iter().enumerate() {
        if event.is_pto() {
            spent = Some(0);
        } else {
            spent = more_spent(spent, probe_size(event), place);
        }
    }
    spent
}

/// Whether the event sends an ack-eliciting packet of the space.
fn is_probe_of(event: &Event, in_space: Space) -> bool
    ensures { (h : List Event) → result ≡ leaves.is_probe_of in_space (event.now ∷ h) }
{
    match event {
        Event::Sent(packet) => packet.eliciting && in_space == packet.space,
        _ => false,
    }
}

/// Whether an event after these does, or acknowledges something new.
fn is_probe_or_new(before: &[Event], event: &Event, space: Space) -> bool
    ensures { result ≡ (leaves.is_probe_of space (event.now ∷ history_of before.now)
        || packets.acknowledges_new (event.now ∷ history_of before.now)) }
{
    is_probe_of(event, space) || acknowledges_new(before, event)
}

/// Whether an event after these makes a probe of the space needless.
#[tactic(auto, using(crate::proofs::Answered::answers_is))]
fn answers_pto(before: &[Event], event: &Event, space: Space) -> bool
    ensures { result ≡ leaves.answers_pto space (event.now ∷ history_of before.now) }
{
    is_discard(event) || is_probe_or_new(before, event, space)
}

/// The space of a timer.
fn timer_space(event: &Event) -> Option<Space>
    ensures { (h : List Event) → result ≡ leaves.timer_space (event.now ∷ h) }
{
    match event {
        Event::Timer { space, .. } => Some(*space),
        _ => None,
    }
}

/// The space in which a probe is due, unless an event after these makes it needless.
fn unanswered_by(before: &[Event], event: &Event, due: Option<Space>) -> Option<Space>
    ensures { result ≡ probes.unanswered_by (event.now ∷ history_of before.now) due }
{
    let space = due?;
    if answers_pto(before, event, space) {
        None
    } else {
        Some(space)
    }
}

/// The space in which a probe is due.
pub fn probe_due(events: &[Event]) -> Option<Space>
    ensures { result ≡ probes.probe_due (history_of events.now) }
{
    let mut due: Option<Space> = None;
    for (place, event) in events.iter().enumerate() {
        if event.is_pto() {
            due = timer_space(event);
        } else {
            due = unanswered_by(&events[..place], event, due);
        }
    }
    due
}

/// Whether the probe of the last probe timeout is still due (RFC 9002, section 6.2.4): since it
/// there was no ack-eliciting packet in its space, no acknowledgment of something new and no
/// discard.
#[tactic(auto, using(qa_base::proofs::machine::Steps::probe_due_is))]
pub fn is_probe_due(events: &[Event]) -> bool
    ensures { result ≡ leaves.is_probe_due (history_of events.now) }
{
    probe_due(events).is_some()
}

/// Whether a loss enters recovery, of packets the last of which was sent then.
fn enters(reno: Reno, last: Option<Ticks>) -> bool
    ensures { result ≡ words.entry_by reno.recovery_start_time last }
{
    match last {
        None => false,
        Some(last) => reno.is_outside_recovery(last),
    }
}

/// 1 for an in-flight packet that is marked for recovery, else 0.
fn recovery_mark(event: &Event) -> u64
    ensures value { (h : List Event)
        → result ≡ (if leaves.is_recovery_packet (event.now ∷ h) then 1 else 0) }
    ensures one { result ≤ 1 }
{
    match event {
        Event::Sent(packet) if packet.is_in_flight_by(Permission::Recovery) => 1,
        _ => 0,
    }
}

/// What was spent, with this.
fn one_more(spent: Option<u64>, more: u64, place: usize) -> Option<u64>
    requires one { more ≤ 1 }
    requires room { place < 2 ^ 32 }
    requires few { ForSome spent (λ n. n ≤ place) }
    ensures value { result ≡ option_map (λ n. more + n) spent }
    ensures few { ForSome result (λ n. n ≤ place + 1) }
{
    Some(more + spent?)
}

/// What was spent after an event: nothing where it enters recovery.
fn spent_after(spent: Option<u64>, entered: bool, more: u64, place: usize) -> Option<u64>
    requires one { more ≤ 1 }
    requires room { place < 2 ^ 32 }
    requires few { ForSome spent (λ n. n ≤ place) }
    ensures value { result ≡ (if entered then Some 0 else option_map (λ n. more + n) spent) }
    ensures few { ForSome result (λ n. n ≤ place + 1) }
{
    if entered {
        return Some(0);
    }
    one_more(spent, more, place)
}

/// The window before the detection of what is lost by an event, by that before the event and the
/// one before the event in front of it.
fn before_detection(event: &Event, reno: Reno, earlier: Reno) -> Reno
    ensures { (c : Settings) (h : List Event) → reno ≡ steps.reno c h
        → earlier ≡ steps.reno c (before_last h)
        → result ≡ steps.reno c (before_last (detection_of (event.now ∷ h))) }
{
    match event {
        Event::Lost { .. } => earlier,
        _ => reno,
    }
}

/// How many in-flight packets went out by leave of recovery since the last entry into it; None
/// without one (RFC 9002, section 7.3.2).
///
/// Asks for fewer than 2^32 events, each of which fits.
pub fn recovery_spent(header: &Header, events: &[Event]) -> Option<u64>
    requires few { length events.now < 2 ^ 32 }
    requires fit { All Fits events.now }
    ensures { result ≡ leaves.recovery_spent header.now (history_of events.now) }
{
    let mut estimates = Estimates::start(header);
    let mut reno = Reno::start(header.initial_window());
    let mut earlier = reno;
    let mut spent: Option<u64> = None;
    for (place, event) in events.iter().enumerate() {
        let before = &events[..place];
        let after = &events[..place + 1];
        let own = estimates.with_sample(header, before, event);
        let losses = losses_after(header, before, event, after, own.sampled);
        let congestion = congestion_of(header, after, losses);
        let detected = before_detection(event, reno, earlier);
        let entered = enters(detected, congestion.last_sent);
        spent = spent_after(spent, entered, recovery_mark(event), place);
        earlier = reno;
        reno = reno_after(header, before, event, congestion, reno);
        estimates = own.after_congestion(header, after, losses);
    }
    spent
}
