//! The first rule that an event breaks and past which the machine does not go on.
ghost use Rattle.std.specs.Prelude.{◌≡◌, List};
ghost use Rattle.qa_base.specs.declared.event.Event.{Event as AnEvent};
ghost use Rattle.qa_base.specs.machine.Violations as conduct;
ghost use Rattle.qa_base.specs.machine.Rules as rules;
ghost use Rattle.qa_base.specs.values.Settings.{Settings};
ghost use Rattle.qa_ledger.specs.Tests as tests;

use crate::metrics::first_so;
use crate::rules::{
    deadline_at, is_ack_unsent, is_loss_not_owed, is_loss_owed, is_not_confirmed,
    is_number_not_higher, is_other_loss_set, is_space_gone, is_time_back, is_timer_early,
    is_timer_not_set, is_timer_other,
};
use crate::state::State;
use qa_base::{Due, Event, Rule};

/// So often a probe timeout can be doubled before it is longer than any time in range.
const MOST_DOUBLINGS: u64 = 40;

/// V13, where the timeout of the early timer cannot be doubled once more: a history in which such
/// timers went on would count doublings without end.
fn is_timer_untolerated<S: State>(state: &S, event: &Event, due: &Option<Due>) -> bool
    ensures { (c : Settings) (h : List AnEvent) → S.tells state.now c h
        → due.now ≡ tests.deadline_at c h event.now
        → result ≡ tests.is_timer_untolerated c h event.now }
{
    is_timer_early(state, event, due) && MOST_DOUBLINGS <= state.totals().pto_count
}

/// The first of V1 to V6 that the event breaks after these events.
fn first_of_packets<S: State>(state: &S, event: &Event) -> Option<Rule>
    ensures { (c : Settings) (h : List AnEvent) → S.tells state.now c h
        → result ≡ rules.first_of (tests.tests_of_packets c h event.now) }
{
    first_so(&[
        (is_time_back(state, event), Rule::TimeBack),
        (is_loss_owed(state, event), Rule::LossOwed),
        (is_loss_not_owed(state, event), Rule::LossNotOwed),
        (is_other_loss_set(state, event), Rule::LossSet),
        (is_space_gone(state, event), Rule::SpaceGone),
        (is_number_not_higher(state, event), Rule::NumberNotHigher),
    ])
}

/// The first of V10 to V13 and V15 that the event breaks after these events, V13 only where the
/// timeout cannot be doubled once more.
fn first_of_answers<S: State>(state: &S, event: &Event) -> Option<Rule>
    ensures { (c : Settings) (h : List AnEvent) → S.tells state.now c h
        → result ≡ rules.first_of (tests.tests_of_answers c h event.now) }
{
    let due = deadline_at(state, event);
    first_so(&[
        (is_ack_unsent(state, event), Rule::AckUnsent),
        (is_timer_not_set(event, &due), Rule::TimerNotSet),
        (is_timer_other(event, &due), Rule::TimerOther),
        (is_timer_untolerated(state, event, &due), Rule::TimerEarly),
        (is_not_confirmed(state, event), Rule::NotConfirmed),
    ])
}

/// The first rule that the event breaks after these events and past which the machine does not go
/// on: of V1 to V6, V10 to V12 and V15, and of V13 after 40 probe timeouts without a reset.
///
/// The others are sender rules: an event that breaks only those leaves the events a history that
/// the machine can follow.
pub fn first_untolerated<S: State>(state: &S, event: &Event) -> Option<Rule>
    ensures { (c : Settings) (h : List AnEvent) → S.tells state.now c h
        → result ≡ conduct.first_untolerated c h event.now }
{
    match first_of_packets(state, event) {
        Some(rule) => Some(rule),
        None => first_of_answers(state, event),
    }
}
