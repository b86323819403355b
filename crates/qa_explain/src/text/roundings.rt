//! What may be said of a reported time that is off by no more than a rounding.
ghost use Rattle.std.specs.Prelude.{◌≡◌};
ghost use Rattle.qa_explain.specs.text.Roundings as text;

use crate::text::values::{held_of, is_of_bytes, reported_in};
use qa_base::{Event, Field, Rule, TimeUnit, Totals};
use qa_ledger::Cause;

/// So many units of the last digit are taken for a rounding.
const FEW: u64 = 10;

/// Whether it is a time in whole milliseconds that is less than one of them away.
fn is_whole(unit: TimeUnit, reported: u64, apart: u64) -> bool
    ensures { result ≡ text.is_whole unit reported apart }
{
    let millisecond = unit.of_microseconds(1_000);
    u128::from(apart) < millisecond && u128::from(reported) % millisecond == 0
}

/// What is said of a time that is off by the last digit or two.
fn few(unit: TimeUnit) -> &'static str
    ensures { result.now ≡ text.few unit }
{
    match unit {
        TimeUnit::Microseconds => {
            "  Hint: this may be a rounding. Log nanoseconds (\"unit\":\"ns\"), or see \"report_slack_us\".\n"
        }
        TimeUnit::Nanoseconds => "  Hint: this may be a rounding. See \"report_slack_us\".\n",
    }
}

/// What is said of a reported time that is so far from the model's.
fn rounding(unit: TimeUnit, reported: u64, apart: u64) -> &'static str
    ensures { result.now ≡ text.rounding unit reported apart }
{
    if is_whole(unit, reported, apart) {
        return "  Hint: the log may have whole milliseconds. \"report_slack_us\":1000 allows for that.\n";
    }
    if apart <= FEW {
        return few(unit);
    }
    ""
}

/// The same, where there are both.
fn value_rounding(unit: TimeUnit, reported: Option<u64>, held: Option<u64>) -> &'static str
    ensures { result.now ≡ text.value_rounding unit reported held }
{
    match (reported, held) {
        (Some(reported), Some(held)) => rounding(unit, reported, reported.abs_diff(held)),
        _ => "",
    }
}

fn time_rounding(unit: TimeUnit, field: Field, held: &Totals, event: &Event) -> &'static str
    ensures { result.now ≡ text.time_rounding unit field held.now event.now }
{
    if is_of_bytes(field) {
        return "";
    }
    value_rounding(unit, reported_in(field, event), held_of(field, held))
}

/// What the header can say where a reported time is off by no more than a rounding; empty where it
/// is by more, and of all other causes.
pub fn rounding_hint(unit: TimeUnit, event: &Event, rule: Rule, cause: &Cause) -> &'static str
    ensures { result.now ≡ text.rounding_hint unit event.now rule cause.now }
{
    match (rule, cause) {
        (Rule::Metric(field), Cause::Metric { held, .. }) => {
            time_rounding(unit, field, held, event)
        }
        _ => "",
    }
}
