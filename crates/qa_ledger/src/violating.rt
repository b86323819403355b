//! All rules that an event breaks.
ghost use Rattle.std.specs.Prelude.{◌≡◌, ◌∷◌, ◌++◌, [], Bool, List, IfOk, OnOk};
ghost use Rattle.qa_base.specs.declared.event.Event.{Event as AnEvent};
ghost use Rattle.qa_base.specs.machine.Violations as conduct;
ghost use Rattle.qa_base.specs.machine.Metrics as metrics;
ghost use Rattle.qa_base.specs.values.Settings.{Settings};
ghost use Rattle.qa_ledger.specs.Tests as tests;

use crate::metrics::differences;
use crate::rules::{
    deadline_at, is_ack_unsent, is_collapse_missing, is_loss_not_owed, is_loss_owed,
    is_not_confirmed, is_number_not_higher, is_other_loss_set, is_past_probe, is_past_recovery,
    is_past_window, is_probe_owed, is_space_gone, is_time_back, is_timer_early, is_timer_late,
    is_timer_not_set, is_timer_other,
};
use crate::state::State;
use qa_base::{Event, Rule};
use std::alloc::{AllocError, Global};

/// Puts the rules of those tests that are so behind the others.
fn push_broken(found: &mut Vec<Rule>, broken: &[(bool, Rule)]) -> Result<(), AllocError>
    ensures { OnOk result (found.new.items ≡ found.old.items ++ conduct.rules_of broken.now) }
{
    for (is_broken, rule) in broken {
        if *is_broken {
            found.push(*rule)?;
        }
    }
    Ok(())
}

/// Whether the event breaks each of V1 to V9.
fn broken_of_packets<S: State>(state: &S, event: &Event) -> [(bool, Rule); 9]
    ensures { (c : Settings) (h : List AnEvent) → S.tells state.now c h
        → result ≡ tests.all_of_packets c h event.now }
{
    [
        (is_time_back(state, event), Rule::TimeBack),
        (is_loss_owed(state, event), Rule::LossOwed),
        (is_loss_not_owed(state, event), Rule::LossNotOwed),
        (is_other_loss_set(state, event), Rule::LossSet),
        (is_space_gone(state, event), Rule::SpaceGone),
        (is_number_not_higher(state, event), Rule::NumberNotHigher),
        (is_past_window(state, event), Rule::PastWindow),
        (is_past_probe(state, event), Rule::PastProbe),
        (is_past_recovery(state, event), Rule::PastRecovery),
    ]
}

/// Whether the event breaks each of V10 to V15.
fn broken_of_answers<S: State>(state: &S, event: &Event) -> [(bool, Rule); 6]
    ensures { (c : Settings) (h : List AnEvent) → S.tells state.now c h
        → result ≡ tests.all_of_answers c h event.now }
{
    let due = deadline_at(state, event);
    [
        (is_ack_unsent(state, event), Rule::AckUnsent),
        (is_timer_not_set(event, &due), Rule::TimerNotSet),
        (is_timer_other(event, &due), Rule::TimerOther),
        (is_timer_early(state, event, &due), Rule::TimerEarly),
        (is_probe_owed(state, event), Rule::ProbeOwed),
        (is_not_confirmed(state, event), Rule::NotConfirmed),
    ]
}

/// Puts the fields of V16 that the event breaks behind the others.
fn push_metrics<S: State>(found: &mut Vec<Rule>, state: &S, event: &Event) -> Result<(), AllocError>
    ensures { OnOk result ((c : Settings) (h : List AnEvent) → S.tells state.now c h
        → found.new.items ≡ found.old.items
        ++ conduct.rules_of (metrics.metric_tests c h event.now)) }
{
    match event {
        Event::Metrics { values, .. } => push_broken(
            found,
            &differences(state.header(), values, &state.totals()),
        ),
        _ => Ok(()),
    }
}

/// Whether the event breaks each of V18 and V19.
fn broken_of_lateness<S: State>(state: &S, event: &Event) -> [(bool, Rule); 2]
    ensures { (c : Settings) (h : List AnEvent) → S.tells state.now c h
        → result ≡ tests.all_of_lateness c h event.now }
{
    [
        (is_timer_late(state, event), Rule::TimerLate),
        (is_collapse_missing(state, event), Rule::CollapseMissing),
    ]
}

/// All rules that the event breaks after these events, V1 to V16, V18 and V19 in their order, and
/// V16 once for each reported value that differs, in theirs. `AllocError` comes where it is out of
/// memory.
pub fn violations<S: State>(
    alloc: Global,
    state: &S,
    event: &Event,
) -> Result<Vec<Rule>, AllocError>
    ensures { IfOk result (λ found. (c : Settings) (h : List AnEvent) → S.tells state.now c h
        → found.items ≡ conduct.violations c h event.now) }
{
    let mut found = Vec::new(alloc);
    push_broken(&mut found, &broken_of_packets(state, event))?;
    push_broken(&mut found, &broken_of_answers(state, event))?;
    push_metrics(&mut found, state, event)?;
    push_broken(&mut found, &broken_of_lateness(state, event))?;
    Ok(found)
}
