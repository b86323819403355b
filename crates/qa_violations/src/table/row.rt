//! A row of the table: what is kept of the findings of a rule.
ghost use Rattle.std.specs.Prelude.{◌≡◌, [], map};
ghost use Rattle.std.specs.List.{list_any};
ghost use Rattle.qa_violations.specs.table.Steps as steps;
ghost use Rattle.qa_violations.specs.table.Table as tables;

use crate::table::finding::Finding;
use qa_base::{Field, Rule};

// ---- kinds

/// Whether the two are one value of a report.
fn is_field(one: Field, other: Field) -> bool
    ensures { result ≡ tables.is_field one other }
{
    matches!(
        (one, other),
        (Field::Window, Field::Window)
            | (Field::Ssthresh, Field::Ssthresh)
            | (Field::BytesInFlight, Field::BytesInFlight)
            | (Field::LatestRtt, Field::LatestRtt)
            | (Field::MinRtt, Field::MinRtt)
            | (Field::SmoothedRtt, Field::SmoothedRtt)
            | (Field::Rttvar, Field::Rttvar)
    )
}

/// Whether the two are one kind: the same rule, and for a metric the same value.
pub fn is_kind(one: Rule, other: Rule) -> bool
    ensures { result ≡ tables.is_kind one other }
{
    match (one, other) {
        (Rule::Metric(one), Rule::Metric(other)) => is_field(one, other),
        _ => one.number() == other.number(),
    }
}

// ---- a row

/// The greater of two amounts; the other where one is None.
fn greater(one: Option<u128>, other: Option<u128>) -> Option<u128>
    ensures { result ≡ tables.greater one other }
{
    match (one, other) {
        (None, other) => other,
        (Some(one), None) => Some(one),
        (Some(one), Some(other)) => Some(one.max(other)),
    }
}

/// The findings of a rule, in sum.
#[derive(Clone, Copy)]
pub struct Row {
    /// The rule.
    pub rule: Rule,
    /// How many there are.
    pub count: u64,
    /// The line of the first; 0 where there is none.
    pub first: u64,
    /// The line of the last; 0 where there is none.
    pub last: u64,
    /// The greatest of their amounts, in bytes or in the unit of times; None where none has one.
    pub greatest: Option<u128>,
}

impl Row {
    /// The row of a rule that was never found.
    pub(crate) fn of(rule: Rule) -> Row
        ensures { result ≡ tables.row_of rule [] }
    {
        Row {
            rule,
            count: 0,
            first: 0,
            last: 0,
            greatest: None,
        }
    }

    /// The row with one more finding, of its rule.
    fn grown(self, finding: &Finding) -> Row
        ensures { result ≡ steps.grown self finding.now }
    {
        let first = if self.count == 0 {
            finding.line
        } else {
            self.first
        };
        Row {
            rule: self.rule,
            count: self.count.saturating_add(1),
            first,
            last: finding.line,
            greatest: greater(self.greatest, finding.amount),
        }
    }

    /// The row behind one more finding, which may be of another rule.
    fn after(self, finding: &Finding) -> Row
        ensures { result ≡ steps.after finding.now self }
    {
        if is_kind(self.rule, finding.rule) {
            return self.grown(finding);
        }
        self
    }
}

/// Notes a finding in each row.
pub(crate) fn note_in(rows: &mut [Row], finding: &Finding)
    ensures { rows.new ≡ steps.all_after finding.now rows.old }
{
    for row in rows.iter_mut() {
        *row = row.after(finding);
    }
}

/// Whether a row is of this kind, of which so many were found or more.
pub(crate) fn has_many_in(rows: &[Row], many: u64, rule: Rule) -> bool
    ensures { result ≡ list_any (tables.is_row_of many rule) rows.now }
{
    rows.iter()
        .any(|row| is_kind(row.rule, rule) && many <= row.count)
}
