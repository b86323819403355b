//! What a header allowed the events of a trace, in sum.
ghost use Rattle.std.specs.Prelude.{◌≡◌, ◌++◌, List, []};
ghost use Rattle.qa_violations.specs.allowed.Allowed as allowed;
ghost use Rattle.qa_violations.specs.allowed.Keeping.{Tallies};
ghost use Rattle.qa_violations.specs.allowed.Lines as lines;
ghost use Rattle.qa_violations.specs.declared.allowed.late.Late.{Late as ALate};
ghost use Rattle.qa_violations.specs.declared.table.finding.Finding.{Finding as AFinding};
ghost use Rattle.qa_violations.specs.table.Table.{Holds};

use crate::allowed::amounts::{early_by, late_by, metric_off, past_collapse_by, past_window};
use crate::allowed::before::Before;
use crate::allowed::late::{Late, later};
use crate::table::{Finding, Table};
use qa_base::{Due, Event, Field, Header, MetricValues, Rule, Totals};

/// The values of a report, in the order of the format.
fn fields() -> [Field; 7]
    ensures { result ≡ allowed.fields }
{
    [
        Field::Window,
        Field::Ssthresh,
        Field::BytesInFlight,
        Field::LatestRtt,
        Field::MinRtt,
        Field::SmoothedRtt,
        Field::Rttvar,
    ]
}

/// A table of what was allowed, and the timer that was the most late, in memory that does not grow.
#[derive(Drop)]
pub(crate) struct Tally {
    pub(crate) table: Table,
    pub(crate) latest: Option<Late>,
}

/// Notes an amount past what the rule asks, where there is one.
#[inline(always)]
fn note_beyond(table: &mut Table, line: u64, rule: Rule, amount: u128)
    ensures { (fs : List AFinding) → Holds table.old fs
        → Holds table.new (fs ++ lines.findings_of line (allowed.beyond rule amount)) }
{
    if 0 < amount {
        table.note(&Finding {
            line,
            rule,
            amount: Some(amount),
        });
    }
}

/// Notes how far the values of a report are from the machine's.
fn note_metrics(table: &mut Table, line: u64, header: &Header, values: &MetricValues, held: &Totals)
    ensures { (fs : List AFinding) → Holds table.old fs
        → Holds table.new (fs ++ lines.findings_of line
        (allowed.metrics_beyond header.now values.now held.now allowed.fields)) }
{
    let fields = fields();
    for field in fields.iter() {
        let amount = metric_off(header, values, held, *field);
        note_beyond(table, line, Rule::Metric(*field), amount);
    }
}

/// Notes what is reported by an event, which may be no report.
fn note_report(table: &mut Table, line: u64, header: &Header, before: &Before, event: &Event)
    ensures { (fs : List AFinding) → Holds table.old fs
        → Holds table.new (fs ++ lines.findings_of line
        (allowed.report_beyond header.now before.now event.now)) }
{
    if let Event::Metrics { values, .. } = event {
        note_metrics(table, line, header, values, &before.totals);
    }
}

/// The timer that was the most late, behind one that was late by so much.
fn latest_with(found: Option<Late>, line: u64, due: &Option<Due>, amount: u128) -> Option<Late>
    ensures { result ≡ lines.latest_from found (lines.late_if line due.now amount) }
{
    match due {
        Some(due) if 0 < amount => Some(later(
            found,
            Late {
                line,
                kind: due.kind,
                space: due.space,
                amount,
            },
        )),
        _ => found,
    }
}

impl Tally {
    /// Of no event.
    pub(crate) fn new() -> Tally
        ensures { Tallies result [] [] }
    {
        Tally {
            table: Table::new(),
            latest: None,
        }
    }

    /// Notes what the header allows an event on a line, by what is held before it.
    pub(crate) fn note(&mut self, line: u64, header: &Header, before: &Before, event: &Event)
        ensures { (fs : List AFinding) (lates : List ALate) → Tallies self.old fs lates
            → Tallies self.new
            (fs ++ lines.findings_of line (allowed.allowed_by header.now before.now event.now))
            (lates ++ lines.lates_by line before.now event.now) }
    {
        let late = late_by(before, event);
        let table = &mut self.table;
        note_beyond(table, line, Rule::PastWindow, past_window(before, event));
        note_beyond(table, line, Rule::TimerEarly, early_by(before, event));
        note_report(table, line, header, before, event);
        note_beyond(table, line, Rule::TimerLate, late);
        let above = past_collapse_by(header, before, event);
        note_beyond(table, line, Rule::CollapseMissing, above);
        self.note_late(line, &before.packet_due, late);
    }

    /// Notes a timer that may have been late by so much. Mostly it was not.
    #[inline(always)]
    #[tactic(auto, using(crate::proofs::allowed_lemmas::Notes::not_late))]
    fn note_late(&mut self, line: u64, due: &Option<Due>, amount: u128)
        ensures latest { self.new.latest
            ≡ lines.latest_from self.old.latest (lines.late_if line due.now amount) }
        ensures table { self.new.table ≡ self.old.table }
    {
        if 0 < amount {
            self.latest = latest_with(self.latest, line, due, amount);
        }
    }

    /// The same where the event counts.
    pub(crate) fn note_if(
        &mut self,
        counts: bool,
        line: u64,
        header: &Header,
        before: &Before,
        event: &Event,
    )
        ensures { (fs : List AFinding) (lates : List ALate) → Tallies self.old fs lates
            → Tallies self.new
            (fs ++ lines.findings_if counts line header.now before.now event.now)
            (lates ++ lines.late_findings_if counts line before.now event.now) }
    {
        if counts {
            self.note(line, header, before, event);
        }
    }
}
