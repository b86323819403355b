//! By how much an event violates a rule that it breaks.
ghost use Rattle.std.specs.Prelude.{◌≡◌};
ghost use Rattle.qa_violations.specs.table.Amounts as amounts;
ghost use Rattle.qa_explain.specs.text.Sending.{size_of as size_in};

use qa_base::{Event, Field, Rule, Totals};
use qa_explain::text::{due_time, held_of, reported_of};
use qa_ledger::Cause;

/// The bytes of the packet that the event sends.
fn size_of(event: &Event) -> u64
    ensures { result ≡ size_in event.now }
{
    match event {
        Event::Sent(packet) => packet.size,
        _ => 0,
    }
}

// ---- V8

/// By how many bytes a packet of this size is past the allowance; None where there was none.
fn past_allowance(allowance: u64, spent: Option<u128>, size: u64) -> Option<u128>
    ensures { result ≡ amounts.past_allowance allowance spent size }
{
    match spent {
        None => None,
        Some(spent) => {
            let sum = spent.saturating_add(u128::from(size));
            Some(sum.saturating_sub(u128::from(allowance)))
        }
    }
}

// ---- V16

/// How far two values are from each other, where there are two.
pub(crate) fn gap(reported: Option<u64>, held: Option<u64>) -> Option<u128>
    ensures { result ≡ amounts.gap reported held }
{
    match (reported, held) {
        (Some(reported), Some(held)) => Some(u128::from(reported.abs_diff(held))),
        _ => None,
    }
}

/// How far a reported value is from the machine's.
fn metric_amount(field: Field, event: &Event, held: &Totals) -> Option<u128>
    ensures { result ≡ amounts.metric_amount field event.now held.now }
{
    match event {
        Event::Metrics { values, .. } => gap(reported_of(field, values), held_of(field, held)),
        _ => None,
    }
}

// ---- V19

/// By how many bytes a reported window is above two datagrams and what was acknowledged since.
pub(crate) fn past_collapse(
    least: u64,
    acknowledged: Option<u64>,
    reported: Option<u64>,
) -> Option<u128>
    ensures { result ≡ amounts.past_collapse least acknowledged reported }
{
    match (acknowledged, reported) {
        (Some(acknowledged), Some(reported)) => {
            let most = u128::from(least) + u128::from(acknowledged);
            Some(u128::from(reported).saturating_sub(most))
        }
        _ => None,
    }
}

// ---- each rule

/// By how much the event violates the rule, which it breaks for this cause: in bytes, or in the
/// unit of times (`qa_explain::text::is_in_bytes`). None where the rule has no amount.
pub fn amount(event: &Event, rule: Rule, cause: &Cause) -> Option<u128>
    ensures { result ≡ amounts.amount event.now rule cause.now }
{
    let time = u128::from(event.time().get());
    match (rule, cause) {
        (
            Rule::PastWindow,
            Cause::PastWindow {
                in_flight,
                window,
                ..
            },
        ) => {
            let sum = u128::from(*in_flight) + u128::from(size_of(event));
            Some(sum.saturating_sub(u128::from(*window)))
        }
        (Rule::PastProbe, Cause::PastProbe { allowance, spent }) => {
            past_allowance(*allowance, *spent, size_of(event))
        }
        (Rule::TimerEarly, Cause::TimerEarly { due, .. }) => {
            Some(due_time(*due).saturating_sub(time))
        }
        (Rule::Metric(field), Cause::Metric { held, .. }) => metric_amount(field, event, held),
        (Rule::TimerLate, Cause::TimerLate { due, since, .. }) => {
            let from = due_time(*due).max(u128::from(since.get()));
            Some(time.saturating_sub(from))
        }
        (
            Rule::CollapseMissing,
            Cause::CollapseMissing {
                least,
                acknowledged,
                reported,
                ..
            },
        ) => past_collapse(*least, *acknowledged, *reported),
        _ => None,
    }
}
