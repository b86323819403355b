//! The texts of reports and of rows.
ghost use Rattle.std.specs.Prelude.{◌≡◌, ◌++◌, IfOk, OnOk, string_bytes, decimal};
ghost use Rattle.qa_format.specs.verdicts.Explain as explanation;
ghost use Rattle.qa_format.specs.verdicts.Report as text;

use itoa::Buffer;
use qa_base::{LineKind, Totals};
use qa_format::Verdict;
use std::alloc::{AllocError, Global};

fn push_number(out: &mut String, number: u64) -> Result<(), AllocError>
    ensures { OnOk result (string_bytes out.new ≡ string_bytes out.old ++ decimal number) }
{
    let mut buffer = Buffer::new();
    out.push_str(buffer.format(number))
}

// ---- the first line

/// The first line of the report of a verdict, which says it, with its LF.
///
/// `AllocError` comes only where it is out of memory.
#[tactic(auto, unfolding(qa_format::specs::verdicts::Report::verdict_text, qa_format::specs::verdicts::Report::place_text,))]
pub fn verdict_line(alloc: Global, verdict: &Verdict) -> Result<String, AllocError>
    ensures { IfOk result (λ line. string_bytes line ≡ text.verdict_text verdict.now) }
{
    match verdict {
        Verdict::Accepted(_) => format!(in alloc; "accepted\n"),
        Verdict::Refused(line, rule, _) => format!(in alloc; "refused line {line} {rule}\n"),
        Verdict::Unreadable(line, fault, _) => {
            format!(in alloc; "unreadable line {line} {fault}\n")
        }
    }
}

// ---- the totals

#[tactic(auto, unfolding(qa_format::specs::verdicts::Report::number_line))]
fn push_number_line(out: &mut String, name: &str, number: u64) -> Result<(), AllocError>
    ensures { OnOk result (string_bytes out.new
        ≡ string_bytes out.old ++ text.number_line name.now number) }
{
    out.push_str(name)?;
    out.push_str(" ")?;
    push_number(out, number)?;
    out.push_str("\n")
}

#[tactic(auto, unfolding(qa_format::specs::verdicts::Report::ssthresh_line))]
fn push_ssthresh(out: &mut String, ssthresh: Option<u64>) -> Result<(), AllocError>
    ensures { OnOk result (string_bytes out.new
        ≡ string_bytes out.old ++ text.ssthresh_line ssthresh) }
{
    match ssthresh {
        None => out.push_str("ssthresh none\n"),
        Some(bytes) => push_number_line(out, "ssthresh", bytes),
    }
}

#[tactic(auto, unfolding(qa_format::specs::verdicts::Report::bytes_text))]
fn push_bytes(out: &mut String, totals: &Totals) -> Result<(), AllocError>
    ensures { OnOk result (string_bytes out.new
        ≡ string_bytes out.old ++ text.bytes_text totals.now) }
{
    push_number_line(out, "events", totals.events)?;
    push_number_line(out, "window", totals.window)?;
    push_ssthresh(out, totals.ssthresh)?;
    push_number_line(out, "bytes_in_flight", totals.bytes_in_flight)
}

#[tactic(auto, unfolding(qa_format::specs::verdicts::Report::times_text))]
fn push_times(out: &mut String, totals: &Totals) -> Result<(), AllocError>
    ensures { OnOk result (string_bytes out.new
        ≡ string_bytes out.old ++ text.times_text totals.now) }
{
    push_number_line(out, "latest_rtt", totals.latest_rtt)?;
    push_number_line(out, "min_rtt", totals.min_rtt)?;
    push_number_line(out, "smoothed_rtt", totals.smoothed_rtt)?;
    push_number_line(out, "rttvar", totals.rttvar)?;
    push_number_line(out, "pto_count", totals.pto_count)?;
    push_number_line(out, "owed", totals.owed)
}

/// How many bytes the totals mostly take at most.
const USUAL_TOTALS: usize = 192;

#[tactic(auto, unfolding(qa_format::specs::verdicts::Report::totals_text))]
fn push_totals(out: &mut String, totals: &Totals) -> Result<(), AllocError>
    ensures { OnOk result (string_bytes out.new
        ≡ string_bytes out.old ++ text.totals_text totals.now) }
{
    out.reserve(USUAL_TOTALS)?;
    push_bytes(out, totals)?;
    push_times(out, totals)
}

/// Appends the totals of a verdict, which has none where no header was read.
#[tactic(auto, unfolding(qa_format::specs::verdicts::Report::known_totals_text))]
fn push_known_totals(out: &mut String, verdict: &Verdict) -> Result<(), AllocError>
    ensures { OnOk result (string_bytes out.new
        ≡ string_bytes out.old ++ text.known_totals_text verdict.now) }
{
    match verdict {
        Verdict::Accepted(totals) => push_totals(out, totals),
        Verdict::Refused(_, _, totals) => push_totals(out, totals),
        Verdict::Unreadable(_, _, Some(totals)) => push_totals(out, totals),
        Verdict::Unreadable(_, _, None) => Ok(()),
    }
}

// ---- the whole

/// The report of a verdict: a line that says it, and the totals, where a header was read.
///
/// `AllocError` comes only where it is out of memory.
#[tactic(auto, unfolding(qa_format::specs::verdicts::Report::report))]
pub fn report(alloc: Global, verdict: &Verdict) -> Result<String, AllocError>
    ensures { IfOk result (λ s. string_bytes s ≡ text.report verdict.now) }
{
    let mut out = verdict_line(alloc, verdict)?;
    push_known_totals(&mut out, verdict)?;
    Ok(out)
}

// ---- rows

#[tactic(auto, unfolding(qa_format::specs::verdicts::Explain::number_text))]
fn push_number_text(out: &mut String, name: &str, number: u64) -> Result<(), AllocError>
    ensures { OnOk result (string_bytes out.new
        ≡ string_bytes out.old ++ explanation.number_text name.now number) }
{
    out.push_str(" ")?;
    out.push_str(name)?;
    out.push_str(" ")?;
    push_number(out, number)
}

#[tactic(auto, unfolding(qa_format::specs::verdicts::Explain::state_text))]
fn push_state(out: &mut String, totals: &Totals) -> Result<(), AllocError>
    ensures { OnOk result (string_bytes out.new
        ≡ string_bytes out.old ++ explanation.state_text totals.now) }
{
    push_number_text(out, "window", totals.window)?;
    push_number_text(out, "bytes_in_flight", totals.bytes_in_flight)?;
    push_number_text(out, "smoothed_rtt", totals.smoothed_rtt)?;
    push_number_text(out, "rttvar", totals.rttvar)?;
    push_number_text(out, "pto_count", totals.pto_count)?;
    push_number_text(out, "owed", totals.owed)
}

/// How many bytes a row mostly has at most.
const USUAL_ROW: usize = 160;

/// The row of the line of this number and kind, with the state after it.
///
/// `AllocError` comes only where it is out of memory.
#[tactic(auto, unfolding(qa_format::specs::verdicts::Explain::row))]
pub fn row(alloc: Global, line: u64, kind: LineKind, totals: &Totals) -> Result<String, AllocError>
    ensures { IfOk result (λ s. string_bytes s ≡ explanation.row line kind totals.now) }
{
    let mut out = String::with_capacity(alloc, USUAL_ROW)?;
    out.push_str("line ")?;
    push_number(&mut out, line)?;
    out.push_str(" ")?;
    out.push_str(kind.name())?;
    push_state(&mut out, totals)?;
    out.push_str("\n")?;
    Ok(out)
}
