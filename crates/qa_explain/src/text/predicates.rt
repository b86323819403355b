//! What an event did that breaks a rule, behind what it is.
ghost use Rattle.std.specs.Prelude.{◌≡◌, ◌++◌, OnOk, string_bytes, unwrap_or};
ghost use Rattle.qa_explain.specs.text.Predicates as text;

use crate::text::deadlines::due_time;
use crate::text::pieces::{push_name, push_number, push_wide, push_words};
use crate::text::sending::size_of;
use crate::text::times::push_timed;
use qa_base::{Event, Rule, Ticks, TimeUnit};
use qa_ledger::Cause;
use std::alloc::AllocError;

// ---- by the amounts of a cause

/// The time, or 0 where there is none.
fn time_or_zero(time: Option<Ticks>) -> u64
    ensures { result ≡ unwrap_or time 0 }
{
    match time {
        None => 0,
        Some(time) => time.get(),
    }
}

#[tactic(auto, unfolding(crate::specs::text::Predicates::before_text))]
fn push_before(out: &mut String, unit: TimeUnit, time: u64, before: u64) -> Result<(), AllocError>
    ensures { OnOk result (string_bytes out.new
        ≡ string_bytes out.old ++ text.before_text unit time before) }
{
    push_timed(out, " is at ", unit, u128::from(time))?;
    push_timed(
        out,
        ", before the event before it at ",
        unit,
        u128::from(before),
    )
}

#[tactic(auto, unfolding(crate::specs::text::Predicates::passed_text))]
fn push_passed(out: &mut String, sum: u128, window: u64) -> Result<(), AllocError>
    ensures { OnOk result (string_bytes out.new
        ≡ string_bytes out.old ++ text.passed_text sum window) }
{
    push_wide(out, " takes the bytes in flight to ", sum)?;
    push_number(out, ", past the window of ", window)
}

fn push_past_window(
    out: &mut String,
    overshoot: bool,
    sum: u128,
    window: u64,
) -> Result<(), AllocError>
    ensures { OnOk result (string_bytes out.new
        ≡ string_bytes out.old ++ text.window_predicate overshoot sum window) }
{
    if overshoot {
        return push_number(
            out,
            " is sent where the bytes in flight have reached the window of ",
            window,
        );
    }
    push_passed(out, sum, window)
}

#[tactic(auto, unfolding(crate::specs::text::Predicates::some_tolerance))]
fn push_some_tolerance(out: &mut String, unit: TimeUnit, early: u64) -> Result<(), AllocError>
    ensures { OnOk result (string_bytes out.new
        ≡ string_bytes out.old ++ text.some_tolerance unit early) }
{
    push_timed(out, " (", unit, u128::from(early))?;
    push_words(out, " allowed)")
}

fn push_tolerance(out: &mut String, unit: TimeUnit, early: u64) -> Result<(), AllocError>
    ensures { OnOk result (string_bytes out.new
        ≡ string_bytes out.old ++ text.tolerance_text unit early) }
{
    if 0 < early {
        return push_some_tolerance(out, unit, early);
    }
    Ok(())
}

#[tactic(auto, unfolding(crate::specs::text::Predicates::early_predicate))]
fn push_fired_early(
    out: &mut String,
    unit: TimeUnit,
    time: u64,
    by: u128,
    early: u64,
) -> Result<(), AllocError>
    ensures { OnOk result (string_bytes out.new
        ≡ string_bytes out.old ++ text.early_predicate unit time by early) }
{
    push_timed(out, " fired ", unit, by)?;
    push_timed(out, " early, at ", unit, u128::from(time))?;
    push_tolerance(out, unit, early)
}

// ---- by the rule and the event's time

#[tactic(auto, unfolding(crate::specs::text::Predicates::fired_text))]
fn push_fired(out: &mut String, unit: TimeUnit, time: u64, words: &str) -> Result<(), AllocError>
    ensures { OnOk result (string_bytes out.new
        ≡ string_bytes out.old ++ text.fired_text unit time words.now) }
{
    push_timed(out, " fired at ", unit, u128::from(time))?;
    push_words(out, words)
}

#[tactic(auto, unfolding(crate::specs::text::Predicates::plain_predicate))]
fn push_plain(out: &mut String, unit: TimeUnit, time: u64, rule: Rule) -> Result<(), AllocError>
    ensures { OnOk result (string_bytes out.new
        ≡ string_bytes out.old ++ text.plain_predicate unit time rule) }
{
    match rule {
        Rule::TimeBack => push_words(out, " is before the event before it"),
        Rule::LossOwed => push_words(out, " came while a loss was owed"),
        Rule::LossNotOwed => push_words(out, " came where nothing is owed in its space"),
        Rule::LossSet => push_words(out, " names other packets than those owed"),
        Rule::SpaceGone => push_words(out, " came after the keys of its space were discarded"),
        Rule::NumberNotHigher => push_words(out, " is not above all that were sent in its space"),
        Rule::PastWindow => push_words(out, " goes past the congestion window"),
        Rule::PastProbe => push_words(out, " goes past what a probe timeout allows"),
        Rule::PastRecovery => push_words(out, " goes past what an entry into recovery allows"),
        Rule::AckUnsent => push_words(out, " covers a packet that was never sent"),
        Rule::TimerNotSet => push_fired(out, unit, time, ", where no timer is set"),
        Rule::TimerOther => push_fired(out, unit, time, ", where another is set"),
        Rule::TimerEarly => push_fired(out, unit, time, ", before its deadline"),
        Rule::ProbeOwed => push_fired(out, unit, time, ", while a probe was owed"),
        Rule::NotConfirmed => push_words(out, " came before the handshake was confirmed"),
        Rule::Metric(field) => push_name(out, " differs from the model in ", field.name()),
        Rule::OwedAtEnd => push_words(out, " is the last, and a loss is owed"),
        Rule::TimerLate => push_words(out, " came after the timer should have fired"),
        Rule::CollapseMissing => {
            push_words(out, " has too great a window behind persistent congestion")
        }
    }
}

// ---- what it did

/// Appends what the event did that breaks the rule, behind what it is, with the amounts of the
/// cause.
pub fn push_predicate(
    out: &mut String,
    unit: TimeUnit,
    event: &Event,
    rule: Rule,
    cause: &Cause,
) -> Result<(), AllocError>
    ensures { OnOk result (string_bytes out.new
        ≡ string_bytes out.old ++ text.predicate unit event.now rule cause.now) }
{
    let time = event.time().get();
    match (rule, cause) {
        (Rule::TimeBack, Cause::TimeBack { before }) => {
            push_before(out, unit, time, time_or_zero(*before))
        }
        (
            Rule::PastWindow,
            Cause::PastWindow {
                in_flight,
                window,
                overshoot,
            },
        ) => {
            let sum = u128::from(*in_flight) + u128::from(size_of(event));
            push_past_window(out, *overshoot, sum, *window)
        }
        (Rule::TimerEarly, Cause::TimerEarly { due, early, .. }) => {
            let by = due_time(*due).saturating_sub(u128::from(time));
            push_fired_early(out, unit, time, by, *early)
        }
        _ => push_plain(out, unit, time, rule),
    }
}
