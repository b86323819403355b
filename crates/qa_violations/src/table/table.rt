//! The table of violations.
ghost use Rattle.std.specs.Prelude.{◌≡◌, List, [], ◌∷◌, ◌++◌, IfOk, OnOk, nat_eq, string_bytes};
ghost use Rattle.qa_violations.specs.declared.table.finding.Finding.{Finding as AFinding};
ghost use Rattle.qa_violations.specs.table.Table.{Holds, are_known, rows_of};
ghost use Rattle.qa_violations.specs.table.Steps.{one_more};
ghost use Rattle.qa_violations.specs.table.Texts.{table_text};

use crate::table::finding::Finding;
use crate::table::row::{Row, has_many_in, note_in};
use crate::table::texts::{push_head, push_rows};
use qa_base::{Field, Rule, TimeUnit};
use std::alloc::{AllocError, Global};

/// How many kinds of violations there are.
const KINDS: usize = 14;

/// The rows of all kinds, none of which was found.
#[tactic(auto, unfolding(crate::specs::table::Table::rows_of))]
fn no_rows() -> [Row; KINDS]
    ensures { result ≡ rows_of [] }
{
    [
        Row::of(Rule::PastWindow),
        Row::of(Rule::PastProbe),
        Row::of(Rule::PastRecovery),
        Row::of(Rule::TimerEarly),
        Row::of(Rule::ProbeOwed),
        Row::of(Rule::Metric(Field::Window)),
        Row::of(Rule::Metric(Field::Ssthresh)),
        Row::of(Rule::Metric(Field::BytesInFlight)),
        Row::of(Rule::Metric(Field::LatestRtt)),
        Row::of(Rule::Metric(Field::MinRtt)),
        Row::of(Rule::Metric(Field::SmoothedRtt)),
        Row::of(Rule::Metric(Field::Rttvar)),
        Row::of(Rule::TimerLate),
        Row::of(Rule::CollapseMissing),
    ]
}

/// The violations of a trace in sum, in memory that does not grow: a row for each sender rule.
///
/// `Holds` says which findings it was told of.
#[derive(Drop)]
pub struct Table {
    /// A row for each kind, in the order of the rules.
    rows: [Row; KINDS],
    /// How many findings it was told of.
    noted: u64,
}

impl Table {
    /// A table that was told of no finding.
    pub fn new() -> Table
        ensures { Holds result [] }
    {
        Table {
            rows: no_rows(),
            noted: 0,
        }
    }

    /// Tells it of one more finding. Counts stay at 2^64 - 1. A rule that is not a sender rule is
    /// in no row, and counts as a violation.
    pub fn note(&mut self, finding: &Finding)
        ensures noted { self.new.noted ≡ one_more self.old.noted }
        ensures holds { (fs : List AFinding) → Holds self.old fs
            → Holds self.new (fs ++ finding.now ∷ []) }
    {
        note_in(&mut self.rows, finding);
        self.noted = self.noted.saturating_add(1);
    }

    /// Whether it was told of no finding.
    pub fn is_empty(&self) -> bool
        ensures { result ≡ nat_eq self.now.noted 0 }
    {
        self.noted == 0
    }

    /// Whether it was told of a violation of this sender rule, and for a metric of the same
    /// value.
    pub fn has(&self, rule: Rule) -> bool
        ensures { (fs : List AFinding) → Holds self.now fs → result ≡ are_known 1 rule fs }
    {
        self.has_many(1, rule)
    }

    /// Whether it was told of so many violations of this sender rule or more, for a metric of the
    /// same value.
    pub fn has_many(&self, many: u64, rule: Rule) -> bool
        ensures { (fs : List AFinding) → Holds self.now fs → result ≡ are_known many rule fs }
    {
        has_many_in(&self.rows, many, rule)
    }

    /// The row of each sender rule, in their order; 0 is the count of one that was not found.
    pub fn rows(&self) -> &[Row]
        ensures { (fs : List AFinding) → Holds self.now fs → result.now ≡ rows_of fs }
    {
        &self.rows
    }

    /// The text of the table behind the name of a trace whose times are in this unit and so many of
    /// whose events were admitted. Empty where there was no finding. `AllocError` comes where it is
    /// out of memory.
    pub fn text(&self, alloc: Global, unit: TimeUnit, events: u64) -> Result<String, AllocError>
        ensures { IfOk result (λ text. (fs : List AFinding) → Holds self.now fs
            → string_bytes text ≡ table_text unit events fs) }
    {
        let mut out = String::new(alloc);
        self.push_to(&mut out, unit, events)?;
        Ok(out)
    }

    /// Appends the text of the table, as `text` has it.
    fn push_to(&self, out: &mut String, unit: TimeUnit, events: u64) -> Result<(), AllocError>
        ensures { OnOk result ((fs : List AFinding) → Holds self.now fs
            → string_bytes out.new ≡ string_bytes out.old ++ table_text unit events fs) }
    {
        if self.is_empty() {
            return Ok(());
        }
        push_head(out, self.noted, events)?;
        push_rows(out, unit, &self.rows)
    }
}
