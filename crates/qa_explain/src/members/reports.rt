//! What a sender reports, and what the machine has.
ghost use Rattle.std.specs.Prelude.{◌≡◌, ◌++◌, OnOk};
ghost use Rattle.qa_explain.specs.members.Reports as text;

use crate::members::object::Object;
use crate::members::sending::push_bytes;
use crate::text::differs;
use qa_base::{Event, Field, MetricValues, TimeUnit, Totals};
use qa_ledger::Comparison;
use std::alloc::AllocError;

/// The unit of a number of bytes, at the end of a key.
const BYTES: &str = "bytes";

// ---- V16

/// How far a reported value is from the machine's, where it has one.
fn gap(reported: u64, held: Option<u64>) -> Option<u128>
    ensures { result ≡ text.gap reported held }
{
    match held {
        None => None,
        Some(held) => Some(u128::from(reported.abs_diff(held))),
    }
}

/// A value that the machine may not have.
fn push_held(out: &mut Object, unit: &str, held: Option<u64>) -> Result<(), AllocError>
    ensures { OnOk result (out.new ≡ out.old ++ text.held_at unit.now held) }
{
    match held {
        None => out.some_amount("held", unit, None),
        Some(held) => out.some_amount("held", unit, Some(u128::from(held))),
    }
}

/// A value that a sender reports.
#[derive(Clone, Copy)]
struct Metric<'u> {
    /// Which it is.
    field: Field,
    /// Its unit, at the end of a key.
    unit: &'u str,
    /// By how much it may differ from the machine's.
    slack: u128,
}

#[tactic(auto, unfolding(crate::specs::members::Reports::values_of))]
fn push_values(
    out: &mut Object,
    metric: &Metric<'_>,
    reported: u64,
    held: Option<u64>,
) -> Result<(), AllocError>
    ensures { OnOk result (out.new
        ≡ out.old ++ text.values_of metric.now.field metric.now.unit.now
        metric.now.slack reported held) }
{
    out.string("field", metric.field.name())?;
    out.amount("reported", metric.unit, u128::from(reported))?;
    push_held(out, metric.unit, held)?;
    out.some_amount("difference", metric.unit, gap(reported, held))?;
    out.amount("slack", metric.unit, metric.slack)
}

#[tactic(auto, unfolding(crate::specs::members::Reports::difference))]
fn push_difference(
    out: &mut Object,
    metric: &Metric<'_>,
    reported: u64,
    held: Option<u64>,
) -> Result<(), AllocError>
    ensures { OnOk result (out.new
        ≡ out.old ++ text.difference metric.now.field metric.now.unit.now
        metric.now.slack reported held) }
{
    out.begin_object()?;
    push_values(out, metric, reported, held)?;
    out.end_object()
}

/// An object of a reported value, where it differs.
fn push_differing(
    out: &mut Object,
    metric: &Metric<'_>,
    reported: Option<u64>,
    held: Option<u64>,
) -> Result<(), AllocError>
    ensures { OnOk result (out.new
        ≡ out.old ++ text.differing metric.now.field metric.now.unit.now
        metric.now.slack reported held) }
{
    let Some(reported) = reported else {
        return Ok(());
    };
    if differs(metric.slack, reported, held) {
        return push_difference(out, metric, reported, held);
    }
    Ok(())
}

#[tactic(auto, unfolding(crate::specs::members::Reports::of_controller))]
fn push_of_controller(
    out: &mut Object,
    slack: u128,
    values: &MetricValues,
    held: &Totals,
) -> Result<(), AllocError>
    ensures { OnOk result (out.new ≡ out.old ++ text.of_controller slack values.now held.now) }
{
    let window = Metric {
        field: Field::Window,
        unit: BYTES,
        slack,
    };
    let ssthresh = Metric {
        field: Field::Ssthresh,
        ..window
    };
    push_differing(out, &window, values.window, Some(held.window))?;
    push_differing(out, &ssthresh, values.ssthresh, held.ssthresh)
}

#[tactic(auto, unfolding(crate::specs::members::Reports::of_bytes))]
fn push_of_bytes(
    out: &mut Object,
    by: Comparison,
    values: &MetricValues,
    held: &Totals,
) -> Result<(), AllocError>
    ensures { OnOk result (out.new ≡ out.old ++ text.of_bytes by values.now held.now) }
{
    let slack = u128::from(by.slack_bytes);
    if !by.controller.is_reported() {
        push_of_controller(out, slack, values, held)?;
    }
    let in_flight = Metric {
        field: Field::BytesInFlight,
        unit: BYTES,
        slack,
    };
    let held = Some(held.bytes_in_flight);
    push_differing(out, &in_flight, values.bytes_in_flight, held)
}

#[tactic(auto, unfolding(crate::specs::members::Reports::of_samples))]
fn push_of_samples(
    out: &mut Object,
    unit: &str,
    slack: u128,
    values: &MetricValues,
    held: &Totals,
) -> Result<(), AllocError>
    ensures { OnOk result (out.new
        ≡ out.old ++ text.of_samples unit.now slack values.now held.now) }
{
    let latest = Metric {
        field: Field::LatestRtt,
        unit,
        slack,
    };
    let least = Metric {
        field: Field::MinRtt,
        ..latest
    };
    push_differing(out, &latest, values.latest_rtt, Some(held.latest_rtt))?;
    push_differing(out, &least, values.min_rtt, Some(held.min_rtt))
}

#[tactic(auto, unfolding(crate::specs::members::Reports::of_estimates))]
fn push_of_estimates(
    out: &mut Object,
    unit: &str,
    slack: u128,
    values: &MetricValues,
    held: &Totals,
) -> Result<(), AllocError>
    ensures { OnOk result (out.new
        ≡ out.old ++ text.of_estimates unit.now slack values.now held.now) }
{
    let smoothed = Metric {
        field: Field::SmoothedRtt,
        unit,
        slack,
    };
    let rttvar = Metric {
        field: Field::Rttvar,
        ..smoothed
    };
    push_differing(out, &smoothed, values.smoothed_rtt, Some(held.smoothed_rtt))?;
    push_differing(out, &rttvar, values.rttvar, Some(held.rttvar))
}

#[tactic(auto, unfolding(crate::specs::members::Reports::differences))]
fn push_differences(
    out: &mut Object,
    unit: TimeUnit,
    by: Comparison,
    values: &MetricValues,
    held: &Totals,
) -> Result<(), AllocError>
    ensures { OnOk result (out.new ≡ out.old ++ text.differences unit by values.now held.now) }
{
    out.begin_list("differences")?;
    push_of_bytes(out, by, values, held)?;
    push_of_samples(out, unit.name(), by.slack_time, values, held)?;
    push_of_estimates(out, unit.name(), by.slack_time, values, held)?;
    out.end_list()
}

/// V16: an object of each reported value that differs.
pub(crate) fn push_metrics(
    out: &mut Object,
    unit: TimeUnit,
    event: &Event,
    held: &Totals,
    by: Comparison,
) -> Result<(), AllocError>
    ensures { OnOk result (out.new ≡ out.old ++ text.metric_facts unit event.now held.now by) }
{
    match event {
        Event::Metrics { values, .. } => push_differences(out, unit, by, values, held),
        _ => Ok(()),
    }
}

// ---- V19

/// V19: the reported window, and what makes the greatest that is right behind persistent congestion
/// (RFC 9002, section 7.6.2).
#[tactic(auto, unfolding(crate::specs::members::Reports::collapse_facts))]
pub(crate) fn push_collapse(
    out: &mut Object,
    least: u64,
    acknowledged: Option<u64>,
    slack: u64,
    reported: Option<u64>,
) -> Result<(), AllocError>
    ensures { OnOk result (out.new
        ≡ out.old ++ text.collapse_facts least acknowledged slack reported) }
{
    push_bytes(out, "reported_window", reported)?;
    out.amount("least", BYTES, u128::from(least))?;
    push_bytes(out, "acknowledged", acknowledged)?;
    out.amount("slack", BYTES, u128::from(slack))
}
