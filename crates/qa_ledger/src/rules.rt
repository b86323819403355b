//! The rules that an event can break, each judged from the events before it, and the first of them.
ghost use Rattle.std.specs.Prelude.{◌≡◌, ◌≤◌, ◌^◌, List};
ghost use Rattle.std.specs.Option.{ForSome};
ghost use Rattle.qa_base.specs.declared.event.Event.{Event as AnEvent};
ghost use Rattle.qa_base.specs.machine.Breaches as breaches;
ghost use Rattle.qa_base.specs.machine.Rules as rules;
ghost use Rattle.qa_base.specs.machine.Window as windows;
ghost use Rattle.qa_base.specs.values.Settings.{Settings};
ghost use Rattle.qa_ledger.specs.Tests.{deadline_at as deadline_at_of};

use crate::metrics::metrics_rule;
use crate::state::State;
use qa_base::constants::{PROBE_DATAGRAMS, minimum_window};
use qa_base::{Ack, Due, Event, Permission, Rule, SentPacket, Space, TimerKind};

/// V1: the event is earlier than the one before it.
pub(crate) fn is_time_back<S: State>(state: &S, event: &Event) -> bool
    ensures { (c : Settings) (h : List AnEvent) → S.tells state.now c h
        → result ≡ breaches.is_time_back h event.now }
{
    match state.last_time() {
        Some(last) => event.time() < last,
        None => false,
    }
}

/// V2: a loss is owed, and the event is no Lost line.
pub(crate) fn is_loss_owed<S: State>(state: &S, event: &Event) -> bool
    ensures { (c : Settings) (h : List AnEvent) → S.tells state.now c h
        → result ≡ breaches.is_loss_owed c h event.now }
{
    match event {
        Event::Lost { .. } => false,
        _ => state.has_owed(),
    }
}

/// V3: a Lost line, and nothing is owed in its space or may be declared there.
pub(crate) fn is_loss_not_owed<S: State>(state: &S, event: &Event) -> bool
    ensures { (c : Settings) (h : List AnEvent) → S.tells state.now c h
        → result ≡ breaches.is_loss_not_owed c h event.now }
{
    match event {
        Event::Lost { space, .. } => !state.has_nameable_in(*space),
        _ => false,
    }
}

/// V4: a Lost line that does not name all packets owed, or names one that is not owed and may not
/// be declared.
pub(crate) fn is_other_loss_set<S: State>(state: &S, event: &Event) -> bool
    ensures { (c : Settings) (h : List AnEvent) → S.tells state.now c h
        → result ≡ breaches.is_other_loss_set c h event.now }
{
    match event {
        Event::Lost { ranges, .. } => !state.names_losses(ranges.as_slice()),
        _ => false,
    }
}

/// V5: the space was discarded.
pub(crate) fn is_space_gone<S: State>(state: &S, event: &Event) -> bool
    ensures { (c : Settings) (h : List AnEvent) → S.tells state.now c h
        → result ≡ breaches.is_space_gone h event.now }
{
    match event {
        Event::Sent(SentPacket { space, .. })
        | Event::Ack(Ack { space, .. })
        | Event::Discard { space, .. } => state.is_discarded(*space),
        _ => false,
    }
}

/// V6: a packet was sent in the space with this number or a higher one.
pub(crate) fn is_number_not_higher<S: State>(state: &S, event: &Event) -> bool
    ensures { (c : Settings) (h : List AnEvent) → S.tells state.now c h
        → result ≡ breaches.is_number_not_higher h event.now }
{
    match event {
        Event::Sent(packet) => state.has_at_or_above(packet.space, packet.number),
        _ => false,
    }
}

/// Whether this is more than an allowance with what was spent of it, or there is none.
fn is_over(allowance: u64, more: u64, spent: Option<u128>) -> bool
    requires room { ForSome spent (λ n. n ≤ 2 ^ 100) }
    ensures { result ≡ breaches.is_over allowance more spent }
{
    match spent {
        None => true,
        Some(spent) => u128::from(allowance) < spent + u128::from(more),
    }
}

/// The same number in more bits.
fn widened(spent: Option<u64>) -> Option<u128>
    ensures value { result ≡ spent }
    ensures bound { ForSome result (λ n. n ≤ 2 ^ 100) }
{
    Some(u128::from(spent?))
}

/// Whether so many bytes more are past the window; where the sender may overshoot it, whether the
/// bytes fill it without them.
fn is_past(overshoot: bool, window: u64, bytes: u64, size: u64) -> bool
    ensures { result ≡ breaches.is_past overshoot window bytes size }
{
    if overshoot {
        window <= bytes
    } else {
        u128::from(window) < u128::from(bytes) + u128::from(size)
    }
}

/// V7: a packet takes the bytes in flight past the congestion window.
pub(crate) fn is_past_window<S: State>(state: &S, event: &Event) -> bool
    ensures { (c : Settings) (h : List AnEvent) → S.tells state.now c h
        → result ≡ breaches.is_past_window c h event.now }
{
    match event {
        Event::Sent(packet) if packet.is_in_flight_by(Permission::Window) => is_past(
            state.header().options().window_overshoot,
            state.window(),
            state.bytes_in_flight(),
            packet.size,
        ),
        _ => false,
    }
}

/// V8: a probe before any probe timeout, or past the datagrams that one allows.
pub(crate) fn is_past_probe<S: State>(state: &S, event: &Event) -> bool
    ensures { (c : Settings) (h : List AnEvent) → S.tells state.now c h
        → result ≡ breaches.is_past_probe c h event.now }
{
    match event {
        Event::Sent(packet) if packet.is_in_flight_by(Permission::Probe) => is_over(
            PROBE_DATAGRAMS * state.max_datagram_size(),
            packet.size,
            state.probe_spent(),
        ),
        _ => false,
    }
}

/// V9: the packet of an entry into recovery, which was not or had its packet.
pub(crate) fn is_past_recovery<S: State>(state: &S, event: &Event) -> bool
    ensures { (c : Settings) (h : List AnEvent) → S.tells state.now c h
        → result ≡ breaches.is_past_recovery c h event.now }
{
    match event {
        Event::Sent(packet) if packet.is_in_flight_by(Permission::Recovery) => is_over(
            1,
            1,
            widened(state.recovery_spent()),
        ),
        _ => false,
    }
}

/// V10: an acknowledgment of a number that was never sent in its space.
pub(crate) fn is_ack_unsent<S: State>(state: &S, event: &Event) -> bool
    ensures { (c : Settings) (h : List AnEvent) → S.tells state.now c h
        → result ≡ breaches.is_ack_unsent h event.now }
{
    match event {
        Event::Ack(ack) => !state.were_sent(ack.space, ack.ranges.as_slice()),
        _ => false,
    }
}

/// What the timer is set for, where the event is a timer: it is asked once for V11 to V13.
pub(crate) fn deadline_at<S: State>(state: &S, event: &Event) -> Option<Due>
    ensures { (c : Settings) (h : List AnEvent) → S.tells state.now c h
        → result ≡ deadline_at_of c h event.now }
{
    match event {
        Event::Timer { .. } => state.deadline(),
        _ => None,
    }
}

/// V11: a timer fires, and none is set.
pub(crate) fn is_timer_not_set(event: &Event, due: &Option<Due>) -> bool
    ensures { (c : Settings) (h : List AnEvent) → due.now ≡ deadline_at_of c h event.now
        → result ≡ breaches.is_timer_not_set c h event.now }
{
    match event {
        Event::Timer { .. } => due.is_none(),
        _ => false,
    }
}

/// Whether the timer is set for another cause or space.
fn is_other(kind: TimerKind, space: Space, due: &Option<Due>) -> bool
    ensures { result ≡ breaches.is_other kind space due.now }
{
    match due {
        None => false,
        Some(due) => !(kind == due.kind && space == due.space),
    }
}

/// V12: a timer fires that is set for another cause or space.
pub(crate) fn is_timer_other(event: &Event, due: &Option<Due>) -> bool
    ensures { (c : Settings) (h : List AnEvent) → due.now ≡ deadline_at_of c h event.now
        → result ≡ breaches.is_timer_other c h event.now }
{
    match event {
        Event::Timer { kind, space, .. } => is_other(*kind, *space, due),
        _ => false,
    }
}

/// Whether the timer is set for later.
fn is_before(time: u128, due: &Option<Due>) -> bool
    ensures { result ≡ breaches.is_before time due.now }
{
    match due {
        None => false,
        Some(due) => time < due.time,
    }
}

/// V13: a timer fires that is set for later, by more than it may be early.
pub(crate) fn is_timer_early<S: State>(state: &S, event: &Event, due: &Option<Due>) -> bool
    ensures { (c : Settings) (h : List AnEvent) → S.tells state.now c h
        → due.now ≡ deadline_at_of c h event.now
        → result ≡ breaches.is_timer_early c h event.now }
{
    match event {
        Event::Timer { time, .. } => {
            let latest = u128::from(time.get()) + u128::from(state.header().timer_early());
            is_before(latest, due)
        }
        _ => false,
    }
}

/// V14: a probe timeout, and the probe of the last one is due.
pub(crate) fn is_probe_owed<S: State>(state: &S, event: &Event) -> bool
    ensures { (c : Settings) (h : List AnEvent) → S.tells state.now c h
        → result ≡ breaches.is_probe_owed h event.now }
{
    match event {
        Event::Timer {
            kind: TimerKind::Pto,
            ..
        } => state.is_probe_due(),
        _ => false,
    }
}

/// V15: the Handshake space is discarded before the handshake is confirmed.
pub(crate) fn is_not_confirmed<S: State>(state: &S, event: &Event) -> bool
    ensures { (c : Settings) (h : List AnEvent) → S.tells state.now c h
        → result ≡ breaches.is_not_confirmed h event.now }
{
    match event {
        Event::Discard {
            space: Space::Handshake,
            ..
        } => !state.is_confirmed(),
        _ => false,
    }
}

/// V18: a timer that is set for packets should have fired before the event, by the header's limit.
#[inline(always)]
pub(crate) fn is_timer_late<S: State>(state: &S, event: &Event) -> bool
    ensures { (c : Settings) (h : List AnEvent) → S.tells state.now c h
        → result ≡ breaches.is_timer_late c h event.now }
{
    state.is_late(event.time())
}

/// The window in bytes that the event reports, where it is another than the one that was reported
/// before, as V19 asks for it; None of another event.
pub fn other_window<S: State>(state: &S, event: &Event) -> Option<u64>
    ensures { (c : Settings) (h : List AnEvent) → S.tells state.now c h
        → result ≡ windows.other_window c h event.now }
{
    match event {
        Event::Metrics { values, .. } => {
            let reported = values.window?;
            if reported == state.reported_window() {
                None
            } else {
                Some(reported)
            }
        }
        _ => None,
    }
}

/// Whether a window is above the least one with what was acknowledged since persistent congestion.
fn is_above_collapse(least: u64, window: Option<u64>, acknowledged: Option<u64>) -> bool
    ensures { result ≡ breaches.is_above_collapse least window acknowledged }
{
    match (window, acknowledged) {
        (Some(window), Some(acknowledged)) => {
            u128::from(least) + u128::from(acknowledged) < u128::from(window)
        }
        _ => false,
    }
}

/// V19: persistent congestion was established, and the first other window that is reported since is
/// too great, by more than the header's slack.
#[inline(always)]
pub(crate) fn is_collapse_missing<S: State>(state: &S, event: &Event) -> bool
    ensures { (c : Settings) (h : List AnEvent) → S.tells state.now c h
        → result ≡ breaches.is_collapse_missing c h event.now }
{
    let options = state.header().options();
    let least = minimum_window(state.max_datagram_size()) + options.report_slack_bytes;
    options.controller.is_reported()
        && is_above_collapse(
            least,
            other_window(state, event),
            state.acknowledged_since_collapse(),
        )
}

/// The first rule that the event breaks after these events, V1 to V16, V18 and V19 in their order.
#[tactic(auto, unfolding(qa_base::specs::machine::Rules::first_broken))]
pub fn first_broken<S: State>(state: &S, event: &Event) -> Option<Rule>
    ensures { (c : Settings) (h : List AnEvent) → S.tells state.now c h
        → result ≡ rules.first_broken c h event.now }
{
    if is_time_back(state, event) {
        return Some(Rule::TimeBack);
    }
    if is_loss_owed(state, event) {
        return Some(Rule::LossOwed);
    }
    if is_loss_not_owed(state, event) {
        return Some(Rule::LossNotOwed);
    }
    if is_other_loss_set(state, event) {
        return Some(Rule::LossSet);
    }
    if is_space_gone(state, event) {
        return Some(Rule::SpaceGone);
    }
    if is_number_not_higher(state, event) {
        return Some(Rule::NumberNotHigher);
    }
    if is_past_window(state, event) {
        return Some(Rule::PastWindow);
    }
    if is_past_probe(state, event) {
        return Some(Rule::PastProbe);
    }
    if is_past_recovery(state, event) {
        return Some(Rule::PastRecovery);
    }
    if is_ack_unsent(state, event) {
        return Some(Rule::AckUnsent);
    }
    let due = deadline_at(state, event);
    if is_timer_not_set(event, &due) {
        return Some(Rule::TimerNotSet);
    }
    if is_timer_other(event, &due) {
        return Some(Rule::TimerOther);
    }
    if is_timer_early(state, event, &due) {
        return Some(Rule::TimerEarly);
    }
    if is_probe_owed(state, event) {
        return Some(Rule::ProbeOwed);
    }
    if is_not_confirmed(state, event) {
        return Some(Rule::NotConfirmed);
    }
    if let Some(rule) = metrics_rule(state, event) {
        return Some(rule);
    }
    if is_timer_late(state, event) {
        return Some(Rule::TimerLate);
    }
    if is_collapse_missing(state, event) {
        return Some(Rule::CollapseMissing);
    }
    None
}
