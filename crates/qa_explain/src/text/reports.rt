//! What a sender reports, and what the machine has.
ghost use Rattle.std.specs.Prelude.{◌≡◌, ◌+◌, ◌++◌, OnOk, Some, string_bytes};
ghost use Rattle.qa_base.specs.machine.Metrics as metrics;
ghost use Rattle.qa_explain.specs.text.Reports as text;

use crate::text::pieces::{push_name, push_number, push_wide, push_words};
use qa_base::{Event, Field, MetricValues, Totals};
use qa_ledger::Comparison;
use std::alloc::AllocError;

// ---- V16

#[tactic(auto, unfolding(crate::specs::text::Reports::some_gap_text))]
fn push_some_gap(
    out: &mut String,
    slack: u128,
    difference: u64,
    held: u64,
) -> Result<(), AllocError>
    ensures { OnOk result (string_bytes out.new
        ≡ string_bytes out.old ++ text.some_gap_text slack difference held) }
{
    push_number(out, ", the model has ", held)?;
    push_number(out, ", difference ", difference)?;
    push_wide(out, ", slack ", slack)?;
    push_words(out, "\n")
}

/// How far a reported value is from the machine's.
fn push_gap(
    out: &mut String,
    slack: u128,
    reported: u64,
    held: Option<u64>,
) -> Result<(), AllocError>
    ensures { OnOk result (string_bytes out.new
        ≡ string_bytes out.old ++ text.gap_text slack reported held) }
{
    match held {
        None => push_words(out, ", the model has none\n"),
        Some(held) => push_some_gap(out, slack, reported.abs_diff(held), held),
    }
}

#[tactic(auto, unfolding(crate::specs::text::Reports::field_line))]
fn push_field(
    out: &mut String,
    field: Field,
    slack: u128,
    reported: u64,
    held: Option<u64>,
) -> Result<(), AllocError>
    ensures { OnOk result (string_bytes out.new
        ≡ string_bytes out.old ++ text.field_line field slack reported held) }
{
    push_name(out, "  ", field.name())?;
    push_number(out, ": reported ", reported)?;
    push_gap(out, slack, reported, held)
}

/// Whether a reported value differs from the machine's by more than the slack.
pub fn differs(slack: u128, reported: u64, held: Option<u64>) -> bool
    ensures { result ≡ metrics.differs slack (Some reported) held }
{
    match held {
        None => true,
        Some(held) => slack < u128::from(reported.abs_diff(held)),
    }
}

/// A line of a reported value, where it differs.
fn push_differing(
    out: &mut String,
    field: Field,
    slack: u128,
    reported: Option<u64>,
    held: Option<u64>,
) -> Result<(), AllocError>
    ensures { OnOk result (string_bytes out.new
        ≡ string_bytes out.old ++ text.differing_text field slack reported held) }
{
    let Some(reported) = reported else {
        return Ok(());
    };
    if differs(slack, reported, held) {
        return push_field(out, field, slack, reported, held);
    }
    Ok(())
}

#[tactic(auto, unfolding(crate::specs::text::Reports::controller_differences))]
fn push_controller_differences(
    out: &mut String,
    slack: u128,
    values: &MetricValues,
    held: &Totals,
) -> Result<(), AllocError>
    ensures { OnOk result (string_bytes out.new
        ≡ string_bytes out.old ++ text.controller_differences slack values.now held.now) }
{
    let window = Some(held.window);
    push_differing(out, Field::Window, slack, values.window, window)?;
    push_differing(out, Field::Ssthresh, slack, values.ssthresh, held.ssthresh)
}

#[tactic(auto, unfolding(crate::specs::text::Reports::time_differences))]
fn push_time_differences(
    out: &mut String,
    slack: u128,
    values: &MetricValues,
    held: &Totals,
) -> Result<(), AllocError>
    ensures { OnOk result (string_bytes out.new
        ≡ string_bytes out.old ++ text.time_differences slack values.now held.now) }
{
    let (latest, least) = (Some(held.latest_rtt), Some(held.min_rtt));
    let (smoothed, rttvar) = (Some(held.smoothed_rtt), Some(held.rttvar));
    push_differing(out, Field::LatestRtt, slack, values.latest_rtt, latest)?;
    push_differing(out, Field::MinRtt, slack, values.min_rtt, least)?;
    push_differing(
        out,
        Field::SmoothedRtt,
        slack,
        values.smoothed_rtt,
        smoothed,
    )?;
    push_differing(out, Field::Rttvar, slack, values.rttvar, rttvar)
}

#[tactic(auto, unfolding(crate::specs::text::Reports::differences))]
fn push_differences(
    out: &mut String,
    by: Comparison,
    values: &MetricValues,
    held: &Totals,
) -> Result<(), AllocError>
    ensures { OnOk result (string_bytes out.new
        ≡ string_bytes out.old ++ text.differences by values.now held.now) }
{
    let slack = u128::from(by.slack_bytes);
    if !by.controller.is_reported() {
        push_controller_differences(out, slack, values, held)?;
    }
    let in_flight = Some(held.bytes_in_flight);
    push_differing(
        out,
        Field::BytesInFlight,
        slack,
        values.bytes_in_flight,
        in_flight,
    )?;
    push_time_differences(out, by.slack_time, values, held)
}

/// V16: a line of each reported value that differs.
pub fn push_metrics(
    out: &mut String,
    event: &Event,
    held: &Totals,
    by: Comparison,
) -> Result<(), AllocError>
    ensures { OnOk result (string_bytes out.new
        ≡ string_bytes out.old ++ text.metrics_text event.now held.now by) }
{
    match event {
        Event::Metrics { values, .. } => push_differences(out, by, values, held),
        _ => Ok(()),
    }
}

// ---- V19

#[tactic(auto, unfolding(crate::specs::text::Reports::collapse_line))]
fn push_collapse_line(
    out: &mut String,
    reported: u64,
    least: u64,
    acknowledged: u64,
    slack: u64,
) -> Result<(), AllocError>
    ensures { OnOk result (string_bytes out.new
        ≡ string_bytes out.old ++ text.collapse_line reported least acknowledged slack
        (least + acknowledged + slack)) }
{
    let sum = u128::from(least) + u128::from(acknowledged) + u128::from(slack);
    push_number(out, "  window reported ", reported)?;
    push_number(out, ", at most ", least)?;
    push_number(out, " (two datagrams) + ", acknowledged)?;
    push_number(out, " (acknowledged since) + ", slack)?;
    push_wide(out, " (slack) = ", sum)?;
    push_words(out, "\n")
}

/// V19: the reported window, and the greatest that is right behind persistent congestion (RFC 9002,
/// section 7.6.2).
pub fn push_collapse(
    out: &mut String,
    least: u64,
    acknowledged: Option<u64>,
    slack: u64,
    reported: Option<u64>,
) -> Result<(), AllocError>
    ensures { OnOk result (string_bytes out.new
        ≡ string_bytes out.old ++ text.collapse_text least acknowledged slack reported) }
{
    let Some(acknowledged) = acknowledged else {
        return Ok(());
    };
    let Some(reported) = reported else {
        return Ok(());
    };
    push_collapse_line(out, reported, least, acknowledged, slack)
}
