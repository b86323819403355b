//! The values of a report, and amounts with their units.
ghost use Rattle.std.specs.Prelude.{◌≡◌, ◌++◌, OnOk, string_bytes};
ghost use Rattle.qa_explain.specs.text.Values as text;

use crate::text::pieces::{push_wide, push_words};
use crate::text::times::push_time;
use qa_base::{Event, Field, MetricValues, Rule, TimeUnit, Totals};
use std::alloc::AllocError;

/// The reported value, where it is reported.
pub fn reported_of(field: Field, values: &MetricValues) -> Option<u64>
    ensures { result ≡ text.reported_of field values.now }
{
    match field {
        Field::Window => values.window,
        Field::Ssthresh => values.ssthresh,
        Field::BytesInFlight => values.bytes_in_flight,
        Field::LatestRtt => values.latest_rtt,
        Field::MinRtt => values.min_rtt,
        Field::SmoothedRtt => values.smoothed_rtt,
        Field::Rttvar => values.rttvar,
    }
}

/// What an event reports, which may be no report.
pub fn reported_in(field: Field, event: &Event) -> Option<u64>
    ensures { result ≡ text.reported_in field event.now }
{
    match event {
        Event::Metrics { values, .. } => reported_of(field, values),
        _ => None,
    }
}

/// The model's value, where it has one.
pub fn held_of(field: Field, held: &Totals) -> Option<u64>
    ensures { result ≡ text.held_of field held.now }
{
    match field {
        Field::Window => Some(held.window),
        Field::Ssthresh => held.ssthresh,
        Field::BytesInFlight => Some(held.bytes_in_flight),
        Field::LatestRtt => Some(held.latest_rtt),
        Field::MinRtt => Some(held.min_rtt),
        Field::SmoothedRtt => Some(held.smoothed_rtt),
        Field::Rttvar => Some(held.rttvar),
    }
}

// ---- the unit

/// Whether the value is a number of bytes, and else a time.
pub fn is_of_bytes(field: Field) -> bool
    ensures { result ≡ text.is_of_bytes field }
{
    matches!(
        field,
        Field::Window | Field::Ssthresh | Field::BytesInFlight
    )
}

/// Whether the amounts of the rule are in bytes, and else in the unit of times.
pub fn is_in_bytes(rule: Rule) -> bool
    ensures { result ≡ text.is_in_bytes rule }
{
    match rule {
        Rule::PastWindow | Rule::PastProbe | Rule::CollapseMissing => true,
        Rule::Metric(field) => is_of_bytes(field),
        _ => false,
    }
}

fn bytes_word(bytes: u128) -> &'static str
    ensures { result.now ≡ text.bytes_word bytes }
{
    if bytes == 1 {
        return " byte";
    }
    " bytes"
}

#[tactic(auto, unfolding(crate::specs::text::Values::bytes_text))]
fn push_bytes(out: &mut String, bytes: u128) -> Result<(), AllocError>
    ensures { OnOk result (string_bytes out.new
        ≡ string_bytes out.old ++ text.bytes_text bytes) }
{
    push_wide(out, "", bytes)?;
    push_words(out, bytes_word(bytes))
}

/// Appends an amount of the rule: bytes, or a time as people read it.
pub fn push_amount(
    out: &mut String,
    unit: TimeUnit,
    rule: Rule,
    amount: u128,
) -> Result<(), AllocError>
    ensures { OnOk result (string_bytes out.new
        ≡ string_bytes out.old ++ text.amount_text unit rule amount) }
{
    if is_in_bytes(rule) {
        return push_bytes(out, amount);
    }
    push_time(out, unit, amount)
}
