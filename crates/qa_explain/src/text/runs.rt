//! Runs of packet numbers, and what is owed as lost.
ghost use Rattle.std.specs.Prelude.{◌≡◌, ◌++◌, OnOk, string_bytes};
ghost use Rattle.qa_explain.specs.text.Runs as text;

use crate::text::pieces::{push_name, push_words};
use qa_base::{Space, Span};
use qa_ledger::{Counted, Free, Owed, Ranges};
use std::alloc::AllocError;
use std::fmt::Write;

fn push_run(out: &mut String, run: Span) -> Result<(), AllocError>
    ensures { OnOk result (string_bytes out.new ≡ string_bytes out.old ++ text.run_text run) }
{
    let (lo, hi) = (run.lo().get(), run.hi().get());
    if lo == hi {
        return write!(out, " {lo}");
    }
    write!(out, " {lo}-{hi}")
}

fn push_each_run(out: &mut String, runs: &[Span]) -> Result<(), AllocError>
    ensures { OnOk result (string_bytes out.new
        ≡ string_bytes out.old ++ text.each_run runs.now) }
{
    for run in runs {
        push_run(out, *run)?;
    }
    Ok(())
}

/// The most runs that are shown.
const SHOWN_RUNS: usize = 16;

/// How many of so many runs are not shown, where there are more.
#[tactic(auto, unfolding(crate::specs::text::Runs::more_text))]
fn push_more(out: &mut String, count: usize) -> Result<(), AllocError>
    ensures { OnOk result (string_bytes out.new ≡ string_bytes out.old ++ text.more_text count) }
{
    if SHOWN_RUNS < count {
        let more = count - SHOWN_RUNS;
        return write!(out, " and {more} more runs");
    }
    Ok(())
}

#[tactic(auto, unfolding(crate::specs::text::Runs::runs_text))]
fn push_runs(out: &mut String, runs: &[Span]) -> Result<(), AllocError>
    ensures { OnOk result (string_bytes out.new
        ≡ string_bytes out.old ++ text.runs_text runs.now) }
{
    let count = runs.len().min(SHOWN_RUNS);
    push_each_run(out, &runs[..count])?;
    push_more(out, runs.len())
}

#[tactic(auto, unfolding(crate::specs::text::Runs::runs_line))]
fn push_runs_line(out: &mut String, words: &str, runs: &[Span]) -> Result<(), AllocError>
    ensures { OnOk result (string_bytes out.new
        ≡ string_bytes out.old ++ text.runs_line words.now runs.now) }
{
    push_words(out, words)?;
    push_runs(out, runs)?;
    push_words(out, "\n")
}

fn push_some_runs_line(out: &mut String, words: &str, runs: &Ranges) -> Result<(), AllocError>
    ensures { OnOk result (string_bytes out.new
        ≡ string_bytes out.old ++ text.some_runs_line words.now runs.now) }
{
    match runs.as_slice() {
        [] => Ok(()),
        runs => push_runs_line(out, words, runs),
    }
}

/// Between which numbers packets were counted.
#[tactic(auto, unfolding(crate::specs::text::Runs::counted_numbers))]
fn push_counted_numbers(out: &mut String, counted: &Counted) -> Result<(), AllocError>
    ensures { OnOk result (string_bytes out.new
        ≡ string_bytes out.old ++ text.counted_numbers counted.now) }
{
    let (number, largest) = (counted.number.get(), counted.largest.get());
    write!(out, "  packets sent after {number}, up to {largest}")
}

/// How many there were, and how many the packet threshold asks for.
#[tactic(auto, unfolding(crate::specs::text::Runs::counted_amounts))]
fn push_counted_amounts(out: &mut String, counted: &Counted) -> Result<(), AllocError>
    ensures { OnOk result (string_bytes out.new
        ≡ string_bytes out.old ++ text.counted_amounts counted.now) }
{
    let (packets, threshold) = (counted.packets, counted.threshold);
    write!(out, ": {packets} (packet_threshold {threshold}")
}

/// A line that says how far a packet lies below the largest acknowledged one, by the packets that
/// were sent (RFC 9002, section 6.1.1).
#[tactic(auto, unfolding(crate::specs::text::Runs::some_counted_text))]
fn push_some_counted(out: &mut String, counted: &Counted) -> Result<(), AllocError>
    ensures { OnOk result (string_bytes out.new
        ≡ string_bytes out.old ++ text.some_counted_text counted.now) }
{
    push_counted_numbers(out, counted)?;
    push_counted_amounts(out, counted)?;
    push_words(out, ")\n")
}

/// The same, where it is told: where the packet threshold counts packets.
pub fn push_counted(out: &mut String, counted: &Option<Counted>) -> Result<(), AllocError>
    ensures { OnOk result (string_bytes out.new
        ≡ string_bytes out.old ++ text.counted_text counted.now) }
{
    match counted {
        None => Ok(()),
        Some(counted) => push_some_counted(out, counted),
    }
}

fn push_owed_in(out: &mut String, space: Option<Space>, runs: &[Span]) -> Result<(), AllocError>
    ensures { OnOk result (string_bytes out.new
        ≡ string_bytes out.old ++ text.owed_in_text space runs.now) }
{
    match space {
        None => push_words(out, "  nothing is owed\n"),
        Some(space) => {
            push_name(out, "  owed: ", space.name())?;
            push_runs_line(out, "", runs)
        }
    }
}

/// Appends a line that says what is owed as lost (RFC 9002, section 6.1).
#[tactic(auto, unfolding(crate::specs::text::Runs::owed_text))]
pub fn push_owed(out: &mut String, owed: &Owed) -> Result<(), AllocError>
    ensures { OnOk result (string_bytes out.new
        ≡ string_bytes out.old ++ text.owed_text owed.now) }
{
    push_owed_in(out, owed.space, owed.numbers.as_slice())?;
    push_counted(out, &owed.counted)
}

#[tactic(auto, unfolding(crate::specs::text::Runs::free_runs_text))]
fn push_free_runs(out: &mut String, space: &str, runs: &[Span]) -> Result<(), AllocError>
    ensures { OnOk result (string_bytes out.new
        ≡ string_bytes out.old ++ text.free_runs_text space.now runs.now) }
{
    push_name(out, "  free: ", space)?;
    push_runs_line(out, "", runs)
}

fn push_some_free(out: &mut String, space: &str, runs: &Ranges) -> Result<(), AllocError>
    ensures { OnOk result (string_bytes out.new
        ≡ string_bytes out.old ++ text.some_free_text space.now runs.now) }
{
    match runs.as_slice() {
        [] => push_words(out, "  nothing is free\n"),
        runs => push_free_runs(out, space, runs),
    }
}

/// What is free, where the header lets a sender spare packets (RFC 9002, section 6.1.1).
fn push_free(out: &mut String, free: &Option<Free>) -> Result<(), AllocError>
    ensures { OnOk result (string_bytes out.new
        ≡ string_bytes out.old ++ text.free_text free.now) }
{
    let Some(free) = free else {
        return Ok(());
    };
    match free.space {
        None => push_words(out, "  nothing is free\n"),
        Some(space) => push_some_free(out, space.name(), &free.numbers),
    }
}

/// V3: what is owed, and what is free.
#[tactic(auto, unfolding(crate::specs::text::Runs::nameable_text))]
pub fn push_nameable(out: &mut String, owed: &Owed, free: &Option<Free>) -> Result<(), AllocError>
    ensures { OnOk result (string_bytes out.new
        ≡ string_bytes out.old ++ text.nameable_text owed.now free.now) }
{
    push_owed(out, owed)?;
    push_free(out, free)
}

/// V4: how a Lost line differs from what is owed.
#[tactic(auto, unfolding(crate::specs::text::Runs::differing_text))]
pub fn push_differing(out: &mut String, unnamed: &Ranges, unowed: &Ranges) -> Result<(), AllocError>
    ensures { OnOk result (string_bytes out.new
        ≡ string_bytes out.old ++ text.differing_text unnamed.now unowed.now) }
{
    push_some_runs_line(out, "  owed but not named:", unnamed)?;
    push_some_runs_line(out, "  named but not owed:", unowed)
}
