//! What is kept of violations while a trace is judged, for the members of an object.
ghost use Rattle.std.specs.Prelude.{◌≡◌, ◌++◌, [], ◌∷◌, ℕ, List, length, true, false, IfOk, OnOk};
ghost use Rattle.std.specs.Prelude.{map};
ghost use Rattle.qa_violations.specs.all.Violated as all;
ghost use Rattle.qa_violations.specs.all.Violated.{Violated};
ghost use Rattle.qa_violations.specs.all.Objects as text;
ghost use Rattle.qa_violations.specs.all.All.{outcome_with};
ghost use Rattle.qa_violations.specs.all.Tolerating.{StandsFor};
ghost use Rattle.qa_violations.specs.all.Keeping.{CoversListed, KeepsObjects, Lists, violated_by};
ghost use Rattle.qa_violations.specs.all.Keeping.{kept_behind};
ghost use Rattle.qa_violations.specs.declared.all.listing.Listed.{Listed as AListed};
ghost use Rattle.qa_violations.specs.around.Rows.{object_of, objects};
ghost use Rattle.qa_base.specs.declared.event.Event.{Event as AnEvent};
ghost use Rattle.qa_base.specs.values.Settings.{Settings};
ghost use Rattle.qa_violations.specs.table.Table.{Holds};
ghost use Rattle.qa_violations.specs.declared.table.finding.Finding.{Finding as AFinding};
ghost use Rattle.qa_format.specs.format.Written.{line_fits};

use crate::all::keeping::{finding, outcome_past};
use crate::all::objects::{members_of_none, members_of_some, rows_members};
use crate::all::tolerating::{Tolerating, Violation};
use crate::around::LatestObjects;
use crate::table::{Finding, Table};
use qa_base::{Event, TimeUnit};
use qa_check::Judge;
use qa_format::Line;
use qa_ledger::{Explains, Tolerates};
use qa_why::{Why, refused_members};
use std::alloc::{AllocError, Global};

/// Of a kind the lines of so many violations are named.
const NAMED: u64 = 1_000;

/// What is kept of the violations of a trace: the last rows before the first, what is told of it,
/// the table, and those whose lines are named, at most a thousand of a kind. Times are in the unit
/// of the trace.
#[derive(Drop)]
pub(crate) struct Listed {
    alloc: Global,
    latest: LatestObjects,
    first: Vec<u8>,
    table: Table,
    named: Vec<Finding>,
    unit: TimeUnit,
    events: u64,
}

impl Listed {
    /// Of no lines, with up to so many rows before the first violation. Takes no memory.
    pub(crate) fn new(alloc: Global, around: u16) -> Listed
        ensures count { result.latest.count ≡ around }
        ensures fresh { (name : List ℕ) → CoversListed name result result [] }
    {
        Listed {
            alloc,
            latest: LatestObjects::new(alloc, around),
            first: Vec::new(alloc),
            table: Table::new(),
            named: Vec::new(alloc),
            unit: TimeUnit::Microseconds,
            events: 0,
        }
    }

    /// Tells of a violation, where it is the first.
    fn tell(
        &mut self,
        unit: TimeUnit,
        n: u64,
        event: &Event,
        violation: &Violation,
    ) -> Result<(), AllocError>
        ensures first { OnOk result ((before : List (List ℕ)) (bytes : List ℕ)
            (ds : List Violated) → Lists self.old ds → self.new.first.items
            ≡ text.first_members (ds ++ all.violated unit n before bytes event.now violation.now
            ∷ [])) }
        ensures rest { (self.new.table ≡ self.old.table) × (self.new.named ≡ self.old.named)
            × (self.new.latest ≡ self.old.latest) }
    {
        if !self.table.is_empty() {
            return Ok(());
        }
        self.first = refused_members(self.alloc, unit, n, violation.rule, event, &violation.cause)?;
        Ok(())
    }

    /// Keeps a violation whose line is named.
    fn name(&mut self, finding: &Finding) -> Result<(), AllocError>
        ensures named { OnOk result ((fs : List AFinding) → Holds self.old.table fs
            → self.new.named.items ≡ self.old.named.items ++ text.named_behind fs finding.now) }
        ensures rest { (self.new.table ≡ self.old.table) × (self.new.first ≡ self.old.first)
            × (self.new.latest ≡ self.old.latest) }
    {
        if self.table.has_many(NAMED, finding.rule) {
            return Ok(());
        }
        self.named.push(*finding)?;
        Ok(())
    }

    /// Notes a violation of the event on line n.
    fn note(
        &mut self,
        unit: TimeUnit,
        n: u64,
        event: &Event,
        violation: &Violation,
    ) -> Result<(), AllocError>
        ensures listed { OnOk result ((before : List (List ℕ)) (bytes : List ℕ)
            (ds : List Violated) → Lists self.old ds
            → Lists self.new (ds ++ all.violated unit n before bytes event.now violation.now
            ∷ [])) }
        ensures rest { self.new.latest ≡ self.old.latest }
    {
        self.tell(unit, n, event, violation)?;
        let finding = finding(n, event, violation);
        self.name(&finding)?;
        self.table.note(&finding);
        Ok(())
    }

    /// Notes the violations of the event on line n.
    fn note_each(
        &mut self,
        unit: TimeUnit,
        n: u64,
        event: &Event,
        violations: &[Violation],
    ) -> Result<(), AllocError>
        ensures listed { OnOk result ((before : List (List ℕ)) (bytes : List ℕ)
            (ds : List Violated) → Lists self.old ds
            → Lists self.new (ds
            ++ map (all.violated unit n before bytes event.now) violations.now)) }
        ensures rest { self.new.latest ≡ self.old.latest }
    {
        for violation in violations {
            self.note(unit, n, event, violation)?;
        }
        Ok(())
    }

    /// Keeps the row of a good line, by the judge after it, where no violation was found.
    fn keep<L: Tolerates + Explains + Drop>(
        &mut self,
        n: u64,
        said: &Line,
        judge: &Tolerating<L>,
    ) -> Result<(), AllocError>
        requires fitting { line_fits said.now ≡ true }
        requires works { judge.now.failed ≡ false }
        ensures kept { OnOk result ((count : ℕ) (os : List (List ℕ)) (ds : List Violated)
            (c : Settings) (h : List AnEvent) → Lists self.old ds → KeepsObjects count self.old os
            → StandsFor L.stands judge.now c h
            → KeepsObjects count self.new (kept_behind ds os (object_of n said.now c h))) }
        ensures rest { OnOk result ((ds : List Violated) → Lists self.old ds → Lists self.new ds) }
    {
        let violates = !self.table.is_empty();
        if violates {
            return Ok(());
        }
        self.latest.note_said(n, said, judge.ledger())
    }

    /// Notes the violations on a good line, by the judge after it.
    fn note_violations<L: Tolerates + Explains + Drop>(
        &mut self,
        n: u64,
        said: &Line,
        judge: &Tolerating<L>,
    ) -> Result<(), AllocError>
        requires works { judge.now.failed ≡ false }
        ensures listed { OnOk result ((before : List (List ℕ)) (bytes : List ℕ)
            (ds : List Violated) (c : Settings) (h : List AnEvent) → Lists self.old ds
            → StandsFor L.stands judge.now c h
            → Lists self.new (ds ++ violated_by n before bytes said.now c h)) }
        ensures rest { self.new.latest ≡ self.old.latest }
    {
        match said {
            Line::Event(event) => self.note_each(judge.unit(), n, event, judge.latest()),
            Line::Header(_) | Line::Blank => Ok(()),
        }
    }

    /// Notes the violations on a good line, and its row where there was none, by the judge after
    /// it.
    fn note_line<L: Tolerates + Explains + Drop>(
        &mut self,
        n: u64,
        said: &Line,
        judge: &Tolerating<L>,
    ) -> Result<(), AllocError>
        requires fitting { line_fits said.now ≡ true }
        requires works { judge.now.failed ≡ false }
        ensures { OnOk result ((count : ℕ) (os before : List (List ℕ)) (bytes : List ℕ)
            (ds : List Violated) (c : Settings) (h : List AnEvent) → Lists self.old ds
            → KeepsObjects count self.old os → StandsFor L.stands judge.now c h
            → KeepsObjects count self.new
            (kept_behind (ds ++ violated_by n before bytes said.now c h) os
            (object_of n said.now c h))
            × Lists self.new (ds ++ violated_by n before bytes said.now c h)) }
    {
        self.note_violations(n, said, judge)?;
        self.keep(n, said, judge)
    }

    /// The same, with the unit and the events of the trace.
    pub(crate) fn note_said<L: Tolerates + Explains + Drop>(
        &mut self,
        n: u64,
        said: &Line,
        judge: &Tolerating<L>,
    ) -> Result<(), AllocError>
        requires fitting { line_fits said.now ≡ true }
        requires works { judge.now.failed ≡ false }
        ensures { OnOk result ((count : ℕ) (os before : List (List ℕ)) (bytes : List ℕ)
            (ds : List Violated) (c : Settings) (h : List AnEvent) → Lists self.old ds
            → KeepsObjects count self.old os → StandsFor L.stands judge.now c h
            → KeepsObjects count self.new
            (kept_behind (ds ++ violated_by n before bytes said.now c h) os
            (object_of n said.now c h))
            × Lists self.new (ds ++ violated_by n before bytes said.now c h)
            × (self.new.unit ≡ c.unit) × (self.new.events ≡ length h)) }
    {
        self.note_line(n, said, judge)?;
        self.unit = judge.unit();
        self.events = judge.state().events;
        Ok(())
    }

    /// The members that tell of all violations, with those that tell of the end.
    fn members(mut self, mut end: Why) -> Result<Vec<u8>, AllocError>
        ensures { IfOk result (λ members. (count : ℕ) (ds : List Violated) (ls : List (List ℕ))
            → Lists self ds → KeepsObjects count self (objects (all.lines_before ds ls))
            → members.items ≡ text.members_of count self.unit self.events ds ls end.outcome
            end.text.items) }
    {
        if self.table.is_empty() {
            self.latest.push_behind(end.outcome, &mut end.text)?;
            return members_of_none(end.text);
        }
        self.latest.push_member(&mut self.first)?;
        let all = rows_members(
            self.alloc,
            self.unit,
            self.events,
            &self.named,
            self.table.rows(),
        )?;
        members_of_some(self.first, &all, &end.text)
    }

    /// All that is told, with how the trace ends and what is told of that.
    pub(crate) fn finish(self, end: Why) -> Result<Why, AllocError>
        ensures { IfOk result (λ why. (name : List ℕ) (begun : AListed) (ls : List (List ℕ))
            → CoversListed name begun self ls
            → (why.text.items ≡ text.tolerated_run_members begun.latest.count ls end.outcome
            end.text.items)
            × (why.outcome ≡ outcome_with (all.findings (all.all_violated ls)) end.outcome)) }
    {
        let outcome = outcome_past(&self.table, end.outcome);
        let guessed = end.guessed;
        let text = self.members(end)?;
        Ok(Why {
            outcome,
            text,
            guessed,
        })
    }
}
