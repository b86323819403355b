//! The row of a line, for people.
ghost use Rattle.std.specs.Prelude.{◌≡◌, ◌++◌, ℕ, List, false, IfOk, OnOk, string_bytes};
ghost use Rattle.qa_violations.specs.around.Rows as rows;
ghost use Rattle.qa_violations.specs.around.Texts as text;
ghost use Rattle.qa_base.specs.declared.event.Event.{Event as AnEvent};
ghost use Rattle.qa_base.specs.values.Settings.{Settings};

use qa_base::{Due, LineKind, Totals};
use qa_explain::text::{push_name, push_number, push_wide, push_words};
use qa_ledger::Explains;
use std::alloc::AllocError;

/// A good line that is not blank, and the state of the machine behind it.
#[derive(Clone, Copy, Drop)]
pub(crate) struct Row {
    /// Its number in the trace.
    pub(crate) line: u64,
    /// Its kind.
    pub(crate) kind: LineKind,
    /// The time of its event; a header has none.
    pub(crate) time: Option<u64>,
    /// The state of the machine.
    pub(crate) totals: Totals,
    /// What the loss detection timer is set for.
    pub(crate) due: Option<Due>,
}

impl Row {
    /// The row of a line, by the ledger behind it.
    pub(crate) fn of<L: Explains>(line: u64, kind: LineKind, time: Option<u64>, ledger: &L) -> Row
        ensures { L.has_failed ledger.now ≡ false → (c : Settings) (h : List AnEvent)
            → L.stands ledger.now c h → result ≡ rows.row line kind time c h }
    {
        Row {
            line,
            kind,
            time,
            totals: ledger.totals(),
            due: ledger.deadline(),
        }
    }
}

// ---- the text of a row

fn push_time(out: &mut String, time: Option<u64>) -> Result<(), AllocError>
    ensures { OnOk result (string_bytes out.new ≡ string_bytes out.old ++ text.time_text time) }
{
    match time {
        None => Ok(()),
        Some(time) => push_number(out, " at ", time),
    }
}

#[tactic(auto, unfolding(crate::specs::around::Texts::line_text))]
fn push_line(
    out: &mut String,
    line: u64,
    kind: LineKind,
    time: Option<u64>,
) -> Result<(), AllocError>
    ensures { OnOk result (string_bytes out.new
        ≡ string_bytes out.old ++ text.line_text line kind time) }
{
    push_number(out, "  line ", line)?;
    push_name(out, " ", kind.name())?;
    push_time(out, time)?;
    push_words(out, ":")
}

fn push_threshold(out: &mut String, ssthresh: Option<u64>) -> Result<(), AllocError>
    ensures { OnOk result (string_bytes out.new
        ≡ string_bytes out.old ++ text.threshold_text ssthresh) }
{
    match ssthresh {
        None => push_words(out, " ssthresh none"),
        Some(bytes) => push_number(out, " ssthresh ", bytes),
    }
}

/// The congestion controller, in bytes.
#[tactic(auto, unfolding(crate::specs::around::Texts::congestion_text))]
fn push_congestion(out: &mut String, totals: &Totals) -> Result<(), AllocError>
    ensures { OnOk result (string_bytes out.new
        ≡ string_bytes out.old ++ text.congestion_text totals.now) }
{
    push_number(out, " window ", totals.window)?;
    push_number(out, " bytes_in_flight ", totals.bytes_in_flight)?;
    push_threshold(out, totals.ssthresh)
}

/// The RTT, in the unit of the trace.
#[tactic(auto, unfolding(crate::specs::around::Texts::rtt_text))]
fn push_rtt(out: &mut String, totals: &Totals) -> Result<(), AllocError>
    ensures { OnOk result (string_bytes out.new
        ≡ string_bytes out.old ++ text.rtt_text totals.now) }
{
    push_number(out, " latest_rtt ", totals.latest_rtt)?;
    push_number(out, " min_rtt ", totals.min_rtt)?;
    push_number(out, " smoothed_rtt ", totals.smoothed_rtt)?;
    push_number(out, " rttvar ", totals.rttvar)
}

/// How many probe timeouts there were, and how many packets are owed.
#[tactic(auto, unfolding(crate::specs::around::Texts::counts_text))]
fn push_counts(out: &mut String, totals: &Totals) -> Result<(), AllocError>
    ensures { OnOk result (string_bytes out.new
        ≡ string_bytes out.old ++ text.counts_text totals.now) }
{
    push_number(out, " pto_count ", totals.pto_count)?;
    push_number(out, " owed ", totals.owed)
}

#[tactic(auto, unfolding(crate::specs::around::Texts::due_text))]
fn push_due(out: &mut String, due: Due) -> Result<(), AllocError>
    ensures { OnOk result (string_bytes out.new ≡ string_bytes out.old ++ text.due_text due) }
{
    push_name(out, " timer ", due.kind.name())?;
    push_name(out, " ", due.space.name())?;
    push_wide(out, " ", due.time)
}

fn push_timer(out: &mut String, due: Option<Due>) -> Result<(), AllocError>
    ensures { OnOk result (string_bytes out.new ≡ string_bytes out.old ++ text.timer_text due) }
{
    match due {
        None => push_words(out, " no timer"),
        Some(due) => push_due(out, due),
    }
}

/// Appends the row, on one line. `AllocError` comes where it is out of memory.
#[tactic(auto, unfolding(crate::specs::around::Texts::row_text))]
pub(crate) fn push_row(out: &mut String, row: &Row) -> Result<(), AllocError>
    ensures { OnOk result (string_bytes out.new ≡ string_bytes out.old ++ text.row_text row.now) }
{
    push_line(out, row.line, row.kind, row.time)?;
    push_congestion(out, &row.totals)?;
    push_rtt(out, &row.totals)?;
    push_counts(out, &row.totals)?;
    push_timer(out, row.due)?;
    push_words(out, "\n")
}
