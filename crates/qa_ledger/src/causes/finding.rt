//! The cause of a refusal, from the events before the event.
ghost use Rattle.std.specs.Prelude.{◌≡◌, List, IfOk, Some};
ghost use Rattle.qa_base.specs.declared.event.Event.{Event as AnEvent};
ghost use Rattle.qa_base.specs.machine.Loss as loss;
ghost use Rattle.qa_base.specs.machine.State as states;
ghost use Rattle.qa_base.specs.machine.Window as windows;
ghost use Rattle.qa_base.specs.values.Constants.{minimum_window as minimum_window_of};
ghost use Rattle.qa_base.specs.values.Settings.{Settings};
ghost use Rattle.qa_ledger.specs.causes.Causes as causes;
ghost use Rattle.qa_packet_numbers.specs.Missing as sets;

use crate::causes::cause::{Cause, Comparison, Counted, Free, Owed};
use crate::causes::deadline::{timer_early, timer_late};
use crate::causes::facts::Facts;
use crate::other_window;
use qa_base::constants::{PROBE_DATAGRAMS, minimum_window};
use qa_base::{Event, PacketNumber, Rule, Space, Span};
use qa_packet_numbers::Ranges;
use std::alloc::{AllocError, Global};

// ---- what is owed

/// How far a number lies below the largest acknowledged packet of the space, if there is one.
fn counted_of<S: Facts>(
    state: &S,
    space: Option<Space>,
    number: Option<PacketNumber>,
) -> Option<Counted>
    ensures { (c : Settings) (h : List AnEvent) → S.tells state.now c h
        → result ≡ causes.counted_of c h space number }
{
    match space {
        None => None,
        Some(space) => match number {
            None => None,
            Some(number) => state.counted(space, number),
        },
    }
}

/// The first of the numbers.
fn first_number(numbers: &[PacketNumber]) -> Option<PacketNumber>
    ensures { result ≡ causes.first_number numbers.now }
{
    match numbers {
        [] => None,
        [first, ..] => Some(*first),
    }
}

/// The first number of the ranges.
fn first_of_ranges(ranges: &[Span]) -> Option<PacketNumber>
    ensures { result ≡ causes.first_of_ranges ranges.now }
{
    match ranges {
        [] => None,
        [first, ..] => Some(first.lo()),
    }
}

/// What is owed after these events. `AllocError` comes where it is out of memory.
pub fn owed_of<S: Facts>(alloc: Global, state: &S) -> Result<Owed, AllocError>
    ensures { IfOk result (λ owed. (c : Settings) (h : List AnEvent) → S.tells state.now c h
        → owed ≡ causes.owed_now c h) }
{
    let numbers = state.owed_numbers()?;
    owed_by(alloc, state, &numbers)
}

/// What is owed, by its numbers.
fn owed_by<S: Facts>(alloc: Global, state: &S, numbers: &[PacketNumber]) -> Result<Owed, AllocError>
    ensures { IfOk result (λ owed. (c : Settings) (h : List AnEvent) → S.tells state.now c h
        → owed ≡ record {
          space = causes.owed_space c h;
          numbers = sets.runs_of numbers.now;
          counted = causes.counted_of c h (causes.owed_space c h)
              (causes.first_number numbers.now);
        }) }
{
    let space = state.owed_space();
    let counted = counted_of(state, space, first_number(numbers));
    let numbers = Ranges::of_numbers(alloc, numbers)?;
    Ok(Owed {
        space,
        numbers,
        counted,
    })
}

/// What is free after these events; None where the header lets a sender spare nothing.
fn free_of<S: Facts>(alloc: Global, state: &S) -> Result<Option<Free>, AllocError>
    ensures { IfOk result (λ free. (c : Settings) (h : List AnEvent) → S.tells state.now c h
        → free ≡ causes.free_now c h) }
{
    let header = state.header();
    if header.options().loss_by_number.is_may() {
        let numbers = state.free_numbers()?;
        return free_by(alloc, state.searched(), &numbers);
    }
    Ok(None)
}

/// What is free, by its space and its numbers.
fn free_by(
    alloc: Global,
    space: Option<Space>,
    numbers: &[PacketNumber],
) -> Result<Option<Free>, AllocError>
    ensures { IfOk result (λ free. free
        ≡ Some (record { space = space; numbers = sets.runs_of numbers.now })) }
{
    let numbers = Ranges::of_numbers(alloc, numbers)?;
    Ok(Some(Free { space, numbers }))
}

/// V3: what is owed and what is free, in other spaces than that of the Lost line, and how far below
/// the first number of that lies.
fn loss_not_owed<S: Facts>(alloc: Global, state: &S, event: &Event) -> Result<Cause, AllocError>
    ensures { IfOk result (λ cause. (c : Settings) (h : List AnEvent) → S.tells state.now c h
        → cause ≡ Cause.LossNotOwed (causes.owed_now c h) (causes.free_now c h)
        (causes.counted_of c h (causes.lost_space event.now)
        (causes.first_of_ranges (causes.lost_ranges event.now)))) }
{
    let owed = owed_of(alloc, state)?;
    let free = free_of(alloc, state)?;
    let first = first_of_ranges(lost_ranges(event));
    let counted = counted_of(state, lost_space(event), first);
    Ok(Cause::LossNotOwed {
        owed,
        free,
        counted,
    })
}

/// V4: what is owed and what is free, and how the ranges differ from what they may name.
fn loss_set<S: Facts>(alloc: Global, state: &S, event: &Event) -> Result<Cause, AllocError>
    ensures { IfOk result (λ cause. (c : Settings) (h : List AnEvent) → S.tells state.now c h
        → cause ≡ Cause.LossSet (causes.owed_now c h) (causes.free_now c h)
        (sets.runs_of (sets.unnamed (causes.lost_ranges event.now) (causes.owed_numbers c h)))
        (sets.others (causes.lost_ranges event.now) (causes.nameable_numbers c h))
        (causes.counted_of c h (causes.lost_space event.now)
        (causes.first_of_ranges
        (sets.others (causes.lost_ranges event.now) (causes.nameable_numbers c h))))) }
{
    let ranges = lost_ranges(event);
    let numbers = state.owed_numbers()?;
    let nameable = state.nameable_numbers()?;
    let owed = owed_by(alloc, state, &numbers)?;
    let free = free_of(alloc, state)?;
    let unnamed = Ranges::of_unnamed(alloc, ranges, &numbers)?;
    let unowed = Ranges::of_others(alloc, ranges, &nameable)?;
    let first = first_of_ranges(unowed.as_slice());
    let counted = counted_of(state, lost_space(event), first);
    Ok(Cause::LossSet {
        owed,
        free,
        unnamed,
        unowed,
        counted,
    })
}

/// The space of a Lost line; none of another event.
fn lost_space(event: &Event) -> Option<Space>
    ensures { result ≡ causes.lost_space event.now }
{
    match event {
        Event::Lost { space, .. } => Some(*space),
        _ => None,
    }
}

/// The ranges that a Lost line names; none of another event.
fn lost_ranges(event: &Event) -> &[Span]
    ensures { result.now ≡ causes.lost_ranges event.now }
{
    match event {
        Event::Lost { ranges, .. } => ranges.as_slice(),
        _ => &[],
    }
}

// ---- what was sent

/// V6: the greatest number that was sent in the space of a packet.
fn greatest_before<S: Facts>(state: &S, event: &Event) -> Option<PacketNumber>
    ensures { (c : Settings) (h : List AnEvent) → S.tells state.now c h
        → result ≡ causes.greatest_before h event.now }
{
    match event {
        Event::Sent(packet) => state.greatest_sent(packet.space),
        _ => None,
    }
}

/// V10: the least number that an acknowledgment names and that was not sent.
fn first_unsent<S: Facts>(state: &S, event: &Event) -> Option<PacketNumber>
    ensures { (c : Settings) (h : List AnEvent) → S.tells state.now c h
        → result ≡ causes.first_unsent_of h event.now }
{
    match event {
        Event::Ack(ack) => state.first_unsent(ack.space, ack.ranges.as_slice()),
        _ => None,
    }
}

// ---- permission to send

/// V7: the window, and what of it is used.
fn past_window<S: Facts>(state: &S) -> Cause
    ensures { (c : Settings) (h : List AnEvent) → S.tells state.now c h
        → result ≡ Cause.PastWindow (loss.bytes_in_flight c h)
        (windows.window c h) c.options.window_overshoot }
{
    Cause::PastWindow {
        in_flight: state.bytes_in_flight(),
        window: state.window(),
        overshoot: state.header().options().window_overshoot,
    }
}

// ---- reported values

/// V16: what the machine holds, and how a report is compared with it.
fn metric<S: Facts>(state: &S) -> Cause
    ensures { (c : Settings) (h : List AnEvent) → S.tells state.now c h
        → result ≡ Cause.Metric (states.totals c h) (causes.comparison c) }
{
    let header = state.header();
    let options = header.options();
    Cause::Metric {
        held: state.totals(),
        by: Comparison {
            controller: options.controller,
            slack_bytes: options.report_slack_bytes,
            slack_time: header.unit().of_microseconds(options.report_slack_us),
        },
    }
}

/// V19: how great the reported window may be behind persistent congestion.
fn collapse_missing<S: Facts>(state: &S, event: &Event) -> Cause
    ensures { (c : Settings) (h : List AnEvent) → S.tells state.now c h
        → result ≡ Cause.CollapseMissing (minimum_window_of c.max_datagram_size)
        (windows.acknowledged_since_collapse c h) c.options.report_slack_bytes
        (windows.other_window c h event.now) }
{
    Cause::CollapseMissing {
        least: minimum_window(state.max_datagram_size()),
        acknowledged: state.acknowledged_since_collapse(),
        slack: state.header().options().report_slack_bytes,
        reported: other_window(state, event),
    }
}

// ---- the cause

/// The facts of the rule, which the event breaks after these events. `AllocError` comes where it is
/// out of memory.
pub fn cause_of<S: Facts>(
    alloc: Global,
    state: &S,
    event: &Event,
    rule: Rule,
) -> Result<Cause, AllocError>
    ensures { IfOk result (λ cause. (c : Settings) (h : List AnEvent) → S.tells state.now c h
        → cause ≡ causes.cause_of c h event.now rule) }
{
    match rule {
        Rule::TimeBack => Ok(Cause::TimeBack {
            before: state.last_time(),
        }),
        Rule::LossOwed => {
            let owed = owed_of(alloc, state)?;
            Ok(Cause::LossOwed { owed })
        }
        Rule::LossNotOwed => loss_not_owed(alloc, state, event),
        Rule::LossSet => loss_set(alloc, state, event),
        Rule::SpaceGone => Ok(Cause::SpaceGone),
        Rule::NumberNotHigher => Ok(Cause::NumberNotHigher {
            greatest: greatest_before(state, event),
        }),
        Rule::PastWindow => Ok(past_window(state)),
        Rule::PastProbe => Ok(Cause::PastProbe {
            allowance: PROBE_DATAGRAMS * state.max_datagram_size(),
            spent: state.probe_spent(),
        }),
        Rule::PastRecovery => Ok(Cause::PastRecovery {
            spent: state.recovery_spent(),
        }),
        Rule::AckUnsent => Ok(Cause::AckUnsent {
            unsent: first_unsent(state, event),
        }),
        Rule::TimerNotSet => Ok(Cause::TimerNotSet),
        Rule::TimerOther => Ok(Cause::TimerOther {
            due: state.deadline(),
        }),
        Rule::TimerEarly => Ok(timer_early(state)),
        Rule::ProbeOwed => Ok(Cause::ProbeOwed {
            space: state.probe_due(),
        }),
        Rule::NotConfirmed => Ok(Cause::NotConfirmed),
        Rule::Metric(_) => Ok(metric(state)),
        Rule::OwedAtEnd => {
            let owed = owed_of(alloc, state)?;
            Ok(Cause::OwedAtEnd { owed })
        }
        Rule::TimerLate => Ok(timer_late(state)),
        Rule::CollapseMissing => Ok(collapse_missing(state, event)),
    }
}
