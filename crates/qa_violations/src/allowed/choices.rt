//! The keys of a header by which the machine is another than that of RFC 9002, or by which a rule
//! allows more.
ghost use Rattle.std.specs.Prelude.{◌≡◌, ◌++◌, IfOk, OnOk};
ghost use Rattle.qa_violations.specs.allowed.Choices as defined;

use qa_base::constants::{DEFAULT_PACKET_THRESHOLD, DEFAULT_TIME_THRESHOLD_EIGHTHS};
use qa_base::{Field, Key, Options, Rule};
use std::alloc::{AllocError, Global};

// ---- what a rule allows

/// Whether the value of a report is a number of bytes, and the key of its slack so.
fn slack_key(field: Field) -> Key
    ensures { result ≡ defined.slack_key field }
{
    match field {
        Field::Window | Field::Ssthresh | Field::BytesInFlight => Key::ReportSlackBytes,
        _ => Key::ReportSlackUs,
    }
}

/// By how much the value of a report may differ, as the header says it.
fn slack(options: &Options, field: Field) -> u64
    ensures { result ≡ defined.slack options.now field }
{
    match field {
        Field::Window | Field::Ssthresh | Field::BytesInFlight => options.report_slack_bytes,
        _ => options.report_slack_us,
    }
}

/// The key by which the header allows what goes past the rule; None of a rule that allows nothing.
pub(crate) fn key_of(rule: Rule) -> Option<Key>
    ensures { result ≡ defined.key_of rule }
{
    match rule {
        Rule::PastWindow => Some(Key::WindowOvershoot),
        Rule::TimerEarly => Some(Key::TimerEarlyUs),
        Rule::Metric(field) => Some(slack_key(field)),
        Rule::TimerLate => Some(Key::TimerLateUs),
        Rule::CollapseMissing => Some(Key::ReportSlackBytes),
        _ => None,
    }
}

/// How much it allows, as the key says it: bytes or microseconds; None where it sets no limit.
pub(crate) fn limit_of(options: &Options, rule: Rule) -> Option<u64>
    ensures { result ≡ defined.limit_of options.now rule }
{
    match rule {
        Rule::TimerEarly => Some(options.timer_early_us),
        Rule::Metric(field) => Some(slack(options, field)),
        Rule::TimerLate => options.timer_late,
        Rule::CollapseMissing => Some(options.report_slack_bytes),
        _ => None,
    }
}

// ---- what the sender chooses

/// Appends the key where it is set.
fn push_chosen(keys: &mut Vec<Key>, is: bool, key: Key) -> Result<(), AllocError>
    ensures { OnOk result (keys.new.items ≡ keys.old.items ++ defined.chosen is key) }
{
    if is {
        keys.push(key)?;
    }
    Ok(())
}

/// The keys that are set to another machine, in the order of the header. `AllocError` comes where
/// it is out of memory.
#[tactic(auto, unfolding(crate::specs::allowed::Choices::choices))]
pub(crate) fn choices(alloc: Global, options: &Options) -> Result<Vec<Key>, AllocError>
    ensures { IfOk result (λ keys. keys.items ≡ defined.choices options.now) }
{
    let threshold = options.packet_threshold != DEFAULT_PACKET_THRESHOLD;
    let eighths = options.time_threshold_eighths != DEFAULT_TIME_THRESHOLD_EIGHTHS;
    let mut keys = Vec::new(alloc);
    push_chosen(&mut keys, options.refresh_min_rtt, Key::RefreshMinRtt)?;
    push_chosen(&mut keys, options.controller.is_reported(), Key::Window)?;
    push_chosen(
        &mut keys,
        options.sample_eliciting_only,
        Key::SampleElicitingOnly,
    )?;
    push_chosen(&mut keys, threshold, Key::PacketThreshold)?;
    push_chosen(
        &mut keys,
        options.loss_by_number.is_may(),
        Key::LossByNumber,
    )?;
    push_chosen(
        &mut keys,
        options.threshold_counts.counts_packets(),
        Key::ThresholdCounts,
    )?;
    push_chosen(&mut keys, options.reset_rtt, Key::ResetRtt)?;
    push_chosen(
        &mut keys,
        options.latest_rtt_less_delay,
        Key::LatestRttLessDelay,
    )?;
    push_chosen(&mut keys, eighths, Key::TimeThresholdEighths)?;
    push_chosen(&mut keys, options.recovery_by_order, Key::RecoveryByOrder)?;
    Ok(keys)
}
