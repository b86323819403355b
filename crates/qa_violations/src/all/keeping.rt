//! What is kept of violations while a trace is judged.
ghost use Rattle.std.specs.Prelude.{◌≡◌, ◌++◌, [], ◌∷◌, ℕ, List, length, false, not, IfOk, OnOk};
ghost use Rattle.std.specs.Prelude.{map};
ghost use Rattle.qa_violations.specs.all.All as all;
ghost use Rattle.qa_violations.specs.all.Violated as violated;
ghost use Rattle.qa_violations.specs.all.Violated.{Violated};
ghost use Rattle.qa_violations.specs.all.Tolerating.{StandsFor};
ghost use Rattle.qa_violations.specs.all.Keeping.{Covers, Keeps, KeepsRows, violated_by, is_nil};
ghost use Rattle.qa_violations.specs.declared.all.keeping.Kept.{Kept as AKept};
ghost use Rattle.qa_violations.specs.around.Rows.{row_of, rows as all_rows};
ghost use Rattle.qa_violations.specs.table.Table.{Holds};
ghost use Rattle.qa_violations.specs.declared.table.finding.Finding.{Finding as AFinding};
ghost use Rattle.qa_base.specs.declared.event.Event.{Event as AnEvent};
ghost use Rattle.qa_base.specs.declared.space.TimeUnit.{TimeUnit as AUnit};
ghost use Rattle.qa_base.specs.values.Settings.{Settings};

use crate::all::tolerating::{Tolerating, Violation};
use crate::around::Latest;
use crate::table::{Finding, Table, amount};
use qa_base::{Event, TimeUnit};
use qa_check::{Judge, Outcome, shown_name};
use qa_format::Line;
use qa_ledger::{Explains, Tolerates};
use qa_why::{Heading, Why, broken, extend};
use std::alloc::{AllocError, Global};

/// What is kept of the violations of a trace: the last rows, what is told of the first of each
/// kind, and the table, whose times are in the unit of the trace.
#[derive(Drop)]
pub(crate) struct Kept {
    alloc: Global,
    latest: Latest,
    firsts: Vec<u8>,
    table: Table,
    unit: TimeUnit,
    events: u64,
}

/// The violation as the table has it, of an event on this line.
pub(crate) fn finding(line: u64, event: &Event, violation: &Violation) -> Finding
    ensures { (u : AUnit) (before : List (List ℕ)) (bytes : List ℕ)
        → result ≡ violated.finding_of
        (violated.violated u line before bytes event.now violation.now) }
{
    Finding {
        line,
        rule: violation.rule,
        amount: amount(event, violation.rule, &violation.cause),
    }
}

impl Kept {
    /// Of no lines, with up to so many rows before what is told. Takes no memory.
    pub(crate) fn new(alloc: Global, around: u16) -> Kept
        ensures count { result.latest.count ≡ around }
        ensures fresh { (name : List ℕ) → Covers name result result [] }
    {
        Kept {
            alloc,
            latest: Latest::new(alloc, around),
            firsts: Vec::new(alloc),
            table: Table::new(),
            unit: TimeUnit::Microseconds,
            events: 0,
        }
    }

    /// Tells of a violation, and of the rows before it, where none of its kind was found before.
    fn tell(
        &mut self,
        name: &str,
        n: u64,
        line: &[u8],
        event: &Event,
        violation: &Violation,
    ) -> Result<(), AllocError>
        ensures first { OnOk result ((count : ℕ) (ls : List (List ℕ))
            (ds : List Violated) → Keeps count name.now self.old ds
            → KeepsRows count self.old (all_rows ls)
            → self.new.firsts.items ≡ self.old.firsts.items
            ++ all.first_text count name.now (violated.findings ds)
            (violated.violated self.old.unit n ls line.now event.now violation.now)) }
        ensures rest { (self.new.table ≡ self.old.table) × (self.new.latest ≡ self.old.latest)
            × (self.new.unit ≡ self.old.unit) }
    {
        if self.table.has(violation.rule) {
            return Ok(());
        }
        let heading = Heading {
            name,
            n,
            word: "departure",
            rule: violation.rule,
            unit: self.unit,
        };
        let mut text = broken(self.alloc, &heading, event, &violation.cause, line)?;
        self.latest.push_text(&mut text)?;
        extend(&mut self.firsts, &text)
    }

    /// Notes a violation of the event that line n says.
    fn note(
        &mut self,
        name: &str,
        n: u64,
        line: &[u8],
        event: &Event,
        violation: &Violation,
    ) -> Result<(), AllocError>
        ensures kept { OnOk result ((count : ℕ) (u : AUnit) (ls : List (List ℕ))
            (ds : List Violated) → self.old.unit ≡ u → Keeps count name.now self.old ds
            → KeepsRows count self.old (all_rows ls)
            → Keeps count name.now self.new
            (ds ++ violated.violated u n ls line.now event.now violation.now ∷ [])) }
        ensures rest { (self.new.latest ≡ self.old.latest) × (self.new.unit ≡ self.old.unit) }
    {
        self.tell(name, n, line, event, violation)?;
        self.table.note(&finding(n, event, violation));
        Ok(())
    }

    /// Notes the violations of the event that line n says.
    fn note_each(
        &mut self,
        name: &str,
        n: u64,
        line: &[u8],
        event: &Event,
        violations: &[Violation],
    ) -> Result<(), AllocError>
        ensures kept { OnOk result ((count : ℕ) (u : AUnit) (ls : List (List ℕ))
            (ds : List Violated) → self.old.unit ≡ u → Keeps count name.now self.old ds
            → KeepsRows count self.old (all_rows ls)
            → Keeps count name.now self.new
            (ds ++ map (violated.violated u n ls line.now event.now)
            violations.now)) }
        ensures rest { (self.new.latest ≡ self.old.latest) × (self.new.unit ≡ self.old.unit) }
    {
        for violation in violations {
            self.note(name, n, line, event, violation)?;
        }
        Ok(())
    }

    /// Notes the violations on a good line, and its row, by the judge after it.
    pub(crate) fn note_said<L: Tolerates + Explains + Drop>(
        &mut self,
        name: &str,
        n: u64,
        line: &[u8],
        said: &Line,
        judge: &Tolerating<L>,
    ) -> Result<(), AllocError>
        requires works { judge.now.failed ≡ false }
        ensures { OnOk result ((count : ℕ) (ls : List (List ℕ)) (ds : List Violated)
            (c : Settings) (h : List AnEvent) → Keeps count name.now self.old ds
            → KeepsRows count self.old (all_rows ls) → StandsFor L.stands judge.now c h
            → KeepsRows count self.new (all_rows ls ++ row_of n said.now c h)
            × Keeps count name.now self.new (ds ++ violated_by n ls line.now said.now c h)
            × (self.new.unit ≡ c.unit) × (self.new.events ≡ length h)) }
    {
        self.unit = judge.unit();
        if let Line::Event(event) = said {
            self.note_each(name, n, line, event, judge.latest())?;
        }
        self.latest.note_said(n, said, judge.ledger())?;
        self.events = judge.state().events;
        Ok(())
    }

    /// The table behind the name; empty where there is no violation.
    fn table_text(&self, name: &str) -> Result<Vec<u8>, AllocError>
        ensures { IfOk result (λ text. (count : ℕ) (ds : List Violated)
            → Keeps count name.now self.now ds
            → text.items
            ≡ all.table_of name.now self.now.unit self.now.events (violated.findings ds)) }
    {
        if self.table.is_empty() {
            return Ok(Vec::new(self.alloc));
        }
        let table = self.table.text(self.alloc, self.unit, self.events)?;
        let mut text = shown_name(self.alloc, name)?;
        extend(&mut text, table.as_bytes())?;
        Ok(text)
    }

    /// All that is told, with how the trace ends and what is told of that.
    pub(crate) fn finish(mut self, name: &str, mut end: Why) -> Result<Why, AllocError>
        ensures { IfOk result (λ why. (begun : AKept) (ls : List (List ℕ))
            → Covers name.now begun self ls
            → (why.text.items ≡ all.tolerated_run_text begun.latest.count name.now ls end.outcome
            end.text.items)
            × (why.outcome ≡ all.outcome_with
            (violated.findings (violated.all_violated ls)) end.outcome)) }
    {
        let table = self.table_text(name)?;
        let violates = !self.table.is_empty();
        self.latest.push_behind(end.outcome, &mut end.text)?;
        extend(&mut self.firsts, end_of(violates, end.outcome, &end.text))?;
        extend(&mut self.firsts, &table)?;
        Ok(Why {
            outcome: outcome_past(&self.table, end.outcome),
            text: self.firsts,
            guessed: end.guessed,
        })
    }
}

/// What is told of the end: nothing where the trace violates rules and is accepted but for that.
fn end_of(violates: bool, outcome: Outcome, text: &[u8]) -> &[u8]
    ensures { (fs : List AFinding) → violates ≡ not (is_nil fs)
        → result.now ≡ all.end_of fs outcome text.now }
{
    match outcome {
        Outcome::Accepted if violates => &[],
        _ => text,
    }
}

/// The kind of the verdict of a trace with these violations.
pub(crate) fn outcome_past(table: &Table, outcome: Outcome) -> Outcome
    ensures { (fs : List AFinding) → Holds table.now fs → result ≡ all.outcome_with fs outcome }
{
    outcome_with(!table.is_empty(), outcome)
}

/// The kind of the verdict: a trace that violates a rule is not accepted.
fn outcome_with(violates: bool, outcome: Outcome) -> Outcome
    ensures { (fs : List AFinding) → violates ≡ not (is_nil fs)
        → result ≡ all.outcome_with fs outcome }
{
    match outcome {
        Outcome::Accepted if violates => Outcome::Refused,
        _ => outcome,
    }
}
