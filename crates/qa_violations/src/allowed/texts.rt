//! What an accepted verdict rests on, as text behind it.
ghost use Rattle.std.specs.Prelude.{◌≡◌, ◌++◌, OnOk, codes, filter, string_bytes};
ghost use Rattle.qa_base.specs.values.Names.{rule_text};
ghost use Rattle.qa_explain.specs.text.Pieces.{named};
ghost use Rattle.qa_violations.specs.allowed.Texts as text;
ghost use Rattle.qa_violations.specs.table.Table.{has_findings};

use crate::allowed::choices::{key_of, limit_of};
use crate::allowed::late::Late;
use crate::table::{Row, by_words};
use qa_base::{Due, Key, Options, Rule, Space, TimeUnit, TimerKind};
use qa_explain::text::{push_amount, push_name, push_number, push_time, push_wide, push_words};
use qa_why::Guessed;
use std::alloc::AllocError;
use std::fmt::Write;

// ---- what was allowed

#[tactic(auto, unfolding(crate::specs::allowed::Texts::often_text))]
fn push_often(out: &mut String, count: u64, first: u64, last: u64) -> Result<(), AllocError>
    ensures { OnOk result (string_bytes out.new
        ≡ string_bytes out.old ++ text.often_text count first last) }
{
    push_number(out, " ", count)?;
    push_number(out, " times, lines ", first)?;
    push_number(out, " to ", last)
}

/// How often, and on which lines.
#[tactic(auto, unfolding(crate::specs::allowed::Texts::once_text))]
fn push_where(out: &mut String, row: &Row) -> Result<(), AllocError>
    ensures { OnOk result (string_bytes out.new
        ≡ string_bytes out.old ++ text.where_text row.now) }
{
    if row.count == 1 {
        return push_number(out, " once, line ", row.first);
    }
    push_often(out, row.count, row.first, row.last)
}

#[tactic(auto, unfolding(crate::specs::allowed::Texts::by_text))]
fn push_by(
    out: &mut String,
    unit: TimeUnit,
    rule: Rule,
    count: u64,
    amount: u128,
) -> Result<(), AllocError>
    ensures { OnOk result (string_bytes out.new
        ≡ string_bytes out.old ++ text.by_text unit rule count amount) }
{
    push_words(out, by_words(count))?;
    push_amount(out, unit, rule, amount)
}

/// By how much.
fn push_some_by(
    out: &mut String,
    unit: TimeUnit,
    row: &Row,
    greatest: Option<u128>,
) -> Result<(), AllocError>
    ensures { OnOk result (string_bytes out.new
        ≡ string_bytes out.old ++ text.some_by_text unit row.now greatest) }
{
    match greatest {
        None => Ok(()),
        Some(amount) => push_by(out, unit, row.rule, row.count, amount),
    }
}

fn push_limit(out: &mut String, limit: Option<u64>) -> Result<(), AllocError>
    ensures { OnOk result (string_bytes out.new ≡ string_bytes out.old ++ text.limit_text limit) }
{
    match limit {
        None => Ok(()),
        Some(limit) => push_number(out, " ", limit),
    }
}

/// The key, and what it is set to.
#[tactic(auto, unfolding(crate::specs::allowed::Texts::key_words))]
fn push_key_words(out: &mut String, key: Key, limit: Option<u64>) -> Result<(), AllocError>
    ensures { OnOk result (string_bytes out.new
        ≡ string_bytes out.old ++ text.key_words key limit) }
{
    push_name(out, " (", key.name())?;
    push_limit(out, limit)?;
    push_words(out, ")")
}

fn push_key(out: &mut String, key: Option<Key>, limit: Option<u64>) -> Result<(), AllocError>
    ensures { OnOk result (string_bytes out.new
        ≡ string_bytes out.old ++ text.key_text key limit) }
{
    match key {
        None => Ok(()),
        Some(key) => push_key_words(out, key, limit),
    }
}

/// The rule, as a report has it.
#[tactic(auto, unfolding(qa_explain::specs::text::Pieces::named))]
fn push_rule(out: &mut String, rule: Rule) -> Result<(), AllocError>
    ensures { OnOk result (string_bytes out.new
        ≡ string_bytes out.old ++ named (codes "  allowed by the header: ") (rule_text rule)) }
{
    write!(out, "  allowed by the header: {rule}")
}

#[tactic(auto, unfolding(crate::specs::allowed::Texts::allowed_text))]
fn push_allowed(
    out: &mut String,
    unit: TimeUnit,
    options: &Options,
    row: &Row,
) -> Result<(), AllocError>
    ensures { OnOk result (string_bytes out.new
        ≡ string_bytes out.old ++ text.allowed_text unit options.now row.now) }
{
    push_rule(out, row.rule)?;
    push_where(out, row)?;
    push_some_by(out, unit, row, row.greatest)?;
    push_key(out, key_of(row.rule), limit_of(options, row.rule))?;
    push_words(out, "\n")
}

// ---- late timers without a limit

/// What is called the timer.
fn due_words(kind: TimerKind) -> &'static str
    ensures { result.now ≡ text.due_words kind }
{
    match kind {
        TimerKind::Pto => "pto",
        TimerKind::Loss => "loss timer",
    }
}

#[tactic(auto, unfolding(crate::specs::allowed::Texts::past_text))]
fn push_past(out: &mut String, kind: TimerKind, space: Space, line: u64) -> Result<(), AllocError>
    ensures { OnOk result (string_bytes out.new
        ≡ string_bytes out.old ++ text.past_text kind space line) }
{
    push_name(out, " past the ", due_words(kind))?;
    push_name(out, " of ", space.name())?;
    push_number(out, ", at line ", line)
}

#[tactic(auto, unfolding(crate::specs::allowed::Texts::late_text))]
fn push_late(out: &mut String, unit: TimeUnit, late: &Late) -> Result<(), AllocError>
    ensures { OnOk result (string_bytes out.new
        ≡ string_bytes out.old ++ text.late_text unit late.now) }
{
    push_words(out, "  late timers: no limit in the header; at most ")?;
    push_time(out, unit, late.amount)?;
    push_past(out, late.kind, late.space, late.line)?;
    push_words(out, "\n")
}

fn push_some_late(out: &mut String, unit: TimeUnit, latest: Option<Late>) -> Result<(), AllocError>
    ensures { OnOk result (string_bytes out.new
        ≡ string_bytes out.old ++ text.some_late_text unit latest) }
{
    match latest {
        None => Ok(()),
        Some(late) => push_late(out, unit, &late),
    }
}

// ---- rows

/// Whether the rule is that of late timers, and the header sets no limit for them.
fn is_unlimited(options: &Options, rule: Rule) -> bool
    ensures { result ≡ text.is_unlimited options.now rule }
{
    match rule {
        Rule::TimerLate => options.timer_late.is_none(),
        _ => false,
    }
}

fn push_row(
    out: &mut String,
    unit: TimeUnit,
    options: &Options,
    latest: Option<Late>,
    row: &Row,
) -> Result<(), AllocError>
    ensures { OnOk result (string_bytes out.new
        ≡ string_bytes out.old ++ text.row_text unit options.now latest row.now) }
{
    if is_unlimited(options, row.rule) {
        return push_some_late(out, unit, latest);
    }
    push_allowed(out, unit, options, row)
}

/// The rows of what was allowed, with the timer that was the most late.
pub(crate) fn push_rows(
    out: &mut String,
    unit: TimeUnit,
    options: &Options,
    latest: Option<Late>,
    rows: &[Row],
) -> Result<(), AllocError>
    ensures { OnOk result (string_bytes out.new ≡ string_bytes out.old
        ++ text.rows_text unit options.now latest (filter has_findings rows.now)) }
{
    for row in rows {
        if 0 < row.count {
            push_row(out, unit, options, latest, row)?;
        }
    }
    Ok(())
}

// ---- choices

#[tactic(auto, unfolding(crate::specs::allowed::Texts::threshold_text))]
fn push_threshold(out: &mut String, threshold: u64) -> Result<(), AllocError>
    ensures { OnOk result (string_bytes out.new
        ≡ string_bytes out.old ++ text.threshold_text threshold) }
{
    push_number(out, "  by choice: a packet threshold of ", threshold)?;
    push_words(out, " (packet_threshold)\n")
}

#[tactic(auto, unfolding(crate::specs::allowed::Texts::eighths_text))]
fn push_eighths(out: &mut String, eighths: u64) -> Result<(), AllocError>
    ensures { OnOk result (string_bytes out.new
        ≡ string_bytes out.old ++ text.eighths_text eighths) }
{
    push_number(out, "  by choice: a time threshold of ", eighths)?;
    push_words(out, "/8 (time_threshold_eighths)\n")
}

fn push_choice(out: &mut String, options: &Options, key: Key) -> Result<(), AllocError>
    ensures { OnOk result (string_bytes out.new
        ≡ string_bytes out.old ++ text.choice_text options.now key) }
{
    match key {
        Key::RefreshMinRtt => push_words(
            out,
            "  by choice: persistent congestion refreshes min_rtt (refresh_min_rtt)\n",
        ),
        Key::Window => push_words(
            out,
            "  not compared: the window and ssthresh (window \"reported\")\n",
        ),
        Key::SampleElicitingOnly => push_words(
            out,
            "  by choice: RTT samples of ack-eliciting packets only (sample_eliciting_only)\n",
        ),
        Key::PacketThreshold => push_threshold(out, options.packet_threshold),
        Key::LossByNumber => push_words(
            out,
            "  by choice: packets past the threshold may be spared (loss_by_number \"may\")\n",
        ),
        Key::ThresholdCounts => push_words(
            out,
            "  by choice: the packet threshold counts packets (threshold_counts \"packets\")\n",
        ),
        Key::ResetRtt => push_words(
            out,
            "  by choice: persistent congestion resets the RTT (reset_rtt)\n",
        ),
        Key::LatestRttLessDelay => push_words(
            out,
            "  by choice: the latest RTT is kept less the peer's delay (latest_rtt_less_delay)\n",
        ),
        Key::TimeThresholdEighths => push_eighths(out, options.time_threshold_eighths),
        Key::RecoveryByOrder => push_words(
            out,
            "  by choice: recovery goes by the order of the lines (recovery_by_order)\n",
        ),
        _ => Ok(()),
    }
}

/// What the sender chooses by these keys.
pub(crate) fn push_choices(
    out: &mut String,
    options: &Options,
    keys: &[Key],
) -> Result<(), AllocError>
    ensures { OnOk result (string_bytes out.new
        ≡ string_bytes out.old ++ text.choices_text options.now keys.now) }
{
    for key in keys {
        push_choice(out, options, *key)?;
    }
    Ok(())
}

// ---- guesses

#[tactic(auto, unfolding(crate::specs::allowed::Texts::one_guessed))]
fn push_one_guessed(out: &mut String, line: u64) -> Result<(), AllocError>
    ensures { OnOk result (string_bytes out.new
        ≡ string_bytes out.old ++ text.one_guessed line) }
{
    push_number(out, "  guessed by the converter: line ", line)?;
    push_words(out, "\n")
}

#[tactic(auto, unfolding(crate::specs::allowed::Texts::many_guessed))]
fn push_many_guessed(out: &mut String, count: u64, first: u64) -> Result<(), AllocError>
    ensures { OnOk result (string_bytes out.new
        ≡ string_bytes out.old ++ text.many_guessed count first) }
{
    push_number(out, "  guessed by the converter: ", count)?;
    push_number(out, " lines, the first is line ", first)?;
    push_words(out, "\n")
}

/// How many lines were guessed; nothing where none was.
pub(crate) fn push_guessed(out: &mut String, guessed: Guessed) -> Result<(), AllocError>
    ensures { OnOk result (string_bytes out.new
        ≡ string_bytes out.old ++ text.guessed_text guessed) }
{
    if guessed.count == 0 {
        return Ok(());
    }
    if guessed.count == 1 {
        return push_one_guessed(out, guessed.first);
    }
    push_many_guessed(out, guessed.count, guessed.first)
}

// ---- the end

#[tactic(auto, unfolding(crate::specs::allowed::Texts::due_text))]
fn push_due(out: &mut String, unit: TimeUnit, due: Due) -> Result<(), AllocError>
    ensures { OnOk result (string_bytes out.new
        ≡ string_bytes out.old ++ text.due_text unit due) }
{
    push_name(out, ", the ", due.kind.name())?;
    push_name(out, " timer of ", due.space.name())?;
    push_words(out, " due at ")?;
    push_time(out, unit, due.time)
}

fn push_timer(out: &mut String, unit: TimeUnit, due: Option<Due>) -> Result<(), AllocError>
    ensures { OnOk result (string_bytes out.new
        ≡ string_bytes out.old ++ text.timer_text unit due) }
{
    match due {
        None => push_words(out, ", no timer is set"),
        Some(due) => push_due(out, unit, due),
    }
}

#[tactic(auto, unfolding(crate::specs::allowed::Texts::end_text))]
fn push_end(
    out: &mut String,
    unit: TimeUnit,
    bytes: u64,
    due: Option<Due>,
) -> Result<(), AllocError>
    ensures { OnOk result (string_bytes out.new
        ≡ string_bytes out.old ++ text.end_text unit bytes due) }
{
    push_number(out, "  at the end: ", bytes)?;
    push_words(out, " bytes in flight")?;
    push_timer(out, unit, due)?;
    push_words(out, "\n")
}

/// How the trace ends; nothing where nothing is in flight and no timer is set.
pub(crate) fn push_some_end(
    out: &mut String,
    unit: TimeUnit,
    bytes: u64,
    due: Option<Due>,
) -> Result<(), AllocError>
    ensures { OnOk result (string_bytes out.new
        ≡ string_bytes out.old ++ text.some_end_text unit bytes due) }
{
    if 0 < bytes || due.is_some() {
        return push_end(out, unit, bytes, due);
    }
    Ok(())
}
