//! The sentence that says what an event did that breaks a rule.
ghost use Rattle.std.specs.Prelude.{◌≡◌, ◌++◌, OnOk, string_bytes};
ghost use Rattle.qa_explain.specs.text.Sentences as text;

use crate::text::deadlines::due_time;
use crate::text::pieces::{push_name, push_words};
use crate::text::predicates::push_predicate;
use crate::text::subjects::push_subject;
use crate::text::times::push_timed;
use crate::text::values::{held_of, is_of_bytes, push_amount, reported_in};
use qa_base::{Event, Field, Rule, TimeUnit};
use qa_ledger::{Cause, Comparison};
use std::alloc::AllocError;

#[tactic(auto, unfolding(crate::specs::text::Sentences::plain_sentence))]
fn push_plain(
    out: &mut String,
    unit: TimeUnit,
    event: &Event,
    rule: Rule,
    cause: &Cause,
) -> Result<(), AllocError>
    ensures { OnOk result (string_bytes out.new
        ≡ string_bytes out.old ++ text.plain_sentence unit event.now rule cause.now) }
{
    push_subject(out, event)?;
    push_predicate(out, unit, event, rule, cause)
}

// ---- V16

/// A reported value that differs from the model's.
#[derive(Clone, Copy)]
struct Metric {
    /// The unit of the trace's times.
    unit: TimeUnit,
    /// Which value it is.
    field: Field,
    /// By how much it may differ.
    slack: u128,
}

/// By how much a value of the field may differ.
fn slack_of(by: Comparison, field: Field) -> u128
    ensures { result ≡ text.slack_of by field }
{
    if is_of_bytes(field) {
        return u128::from(by.slack_bytes);
    }
    by.slack_time
}

/// A number of bytes, or a time.
fn push_value(out: &mut String, metric: Metric, value: u128) -> Result<(), AllocError>
    ensures { OnOk result (string_bytes out.new
        ≡ string_bytes out.old ++ text.value_text metric value) }
{
    push_amount(out, metric.unit, Rule::Metric(metric.field), value)
}

#[tactic(auto, unfolding(crate::specs::text::Sentences::some_slack))]
fn push_some_slack(out: &mut String, metric: Metric) -> Result<(), AllocError>
    ensures { OnOk result (string_bytes out.new
        ≡ string_bytes out.old ++ text.some_slack metric) }
{
    push_words(out, ", ")?;
    push_value(out, metric, metric.slack)?;
    push_words(out, " allowed")
}

/// How much the header allows, where it does.
fn push_slack(out: &mut String, metric: Metric) -> Result<(), AllocError>
    ensures { OnOk result (string_bytes out.new
        ≡ string_bytes out.old ++ text.slack_text metric) }
{
    if 0 < metric.slack {
        return push_some_slack(out, metric);
    }
    Ok(())
}

#[tactic(auto, unfolding(crate::specs::text::Sentences::apart_tail))]
fn push_apart_tail(out: &mut String, metric: Metric) -> Result<(), AllocError>
    ensures { OnOk result (string_bytes out.new
        ≡ string_bytes out.old ++ text.apart_tail metric) }
{
    push_words(out, " apart")?;
    push_slack(out, metric)?;
    push_words(out, ")")
}

#[tactic(auto, unfolding(crate::specs::text::Sentences::gap_text))]
fn push_gap(out: &mut String, metric: Metric, apart: u64) -> Result<(), AllocError>
    ensures { OnOk result (string_bytes out.new
        ≡ string_bytes out.old ++ text.gap_text metric apart) }
{
    push_words(out, " (")?;
    push_value(out, metric, u128::from(apart))?;
    push_apart_tail(out, metric)
}

#[tactic(auto, unfolding(crate::specs::text::Sentences::apart_text))]
fn push_apart(out: &mut String, metric: Metric, held: u64, apart: u64) -> Result<(), AllocError>
    ensures { OnOk result (string_bytes out.new
        ≡ string_bytes out.old ++ text.apart_text metric held apart) }
{
    push_words(out, ", the model has ")?;
    push_value(out, metric, u128::from(held))?;
    push_gap(out, metric, apart)
}

/// The model's value, and how far the reported one is from it.
fn push_model(
    out: &mut String,
    metric: Metric,
    reported: u64,
    held: Option<u64>,
) -> Result<(), AllocError>
    ensures { OnOk result (string_bytes out.new
        ≡ string_bytes out.old ++ text.model_text metric reported held) }
{
    match held {
        None => push_words(out, ", the model has none"),
        Some(held) => push_apart(out, metric, held, reported.abs_diff(held)),
    }
}

#[tactic(auto, unfolding(crate::specs::text::Sentences::reported_text))]
fn push_reported(
    out: &mut String,
    metric: Metric,
    reported: u64,
    held: Option<u64>,
) -> Result<(), AllocError>
    ensures { OnOk result (string_bytes out.new
        ≡ string_bytes out.old ++ text.reported_text metric reported held) }
{
    push_name(out, "reported ", metric.field.name())?;
    push_words(out, " ")?;
    push_value(out, metric, u128::from(reported))?;
    push_model(out, metric, reported, held)
}

/// V16: what is reported, and what the model has.
fn push_compared(
    out: &mut String,
    metric: Metric,
    reported: Option<u64>,
    held: Option<u64>,
) -> Result<(), AllocError>
    ensures { OnOk result (string_bytes out.new
        ≡ string_bytes out.old ++ text.value_sentence metric reported held) }
{
    match reported {
        None => push_name(out, "no report of ", metric.field.name()),
        Some(reported) => push_reported(out, metric, reported, held),
    }
}

// ---- V18

#[tactic(auto, unfolding(crate::specs::text::Sentences::late_sentence))]
fn push_late(out: &mut String, unit: TimeUnit, by: u128, limit: u128) -> Result<(), AllocError>
    ensures { OnOk result (string_bytes out.new
        ≡ string_bytes out.old ++ text.late_sentence unit by limit) }
{
    push_timed(out, "no timer for ", unit, by)?;
    push_timed(out, " past its deadline (limit ", unit, limit)?;
    push_words(out, ")")
}

// ---- each rule

/// Appends the sentence that says what the event did that breaks the rule, with the amounts of the
/// cause. Times are in the unit of the trace, and are written with their own. `AllocError` comes
/// where it is out of memory.
pub fn push_sentence(
    out: &mut String,
    unit: TimeUnit,
    event: &Event,
    rule: Rule,
    cause: &Cause,
) -> Result<(), AllocError>
    ensures { OnOk result (string_bytes out.new
        ≡ string_bytes out.old ++ text.sentence unit event.now rule cause.now) }
{
    match (rule, cause) {
        (Rule::Metric(field), Cause::Metric { held, by }) => {
            let slack = slack_of(*by, field);
            let metric = Metric { unit, field, slack };
            push_compared(out, metric, reported_in(field, event), held_of(field, held))
        }
        (Rule::TimerLate, Cause::TimerLate { due, since, limit }) => {
            let from = due_time(*due).max(u128::from(since.get()));
            let by = u128::from(event.time().get()).saturating_sub(from);
            push_late(out, unit, by, limit.unwrap_or(0))
        }
        _ => push_plain(out, unit, event, rule, cause),
    }
}
