//! What an accepted verdict rests on, by what was kept while the trace was judged.
ghost use Rattle.std.specs.Prelude.{◌≡◌, ◌++◌, ℕ, List, Option, IfOk, OnOk, string_bytes};
ghost use Rattle.qa_base.specs.declared.event.Event.{Event as AnEvent};
ghost use Rattle.qa_base.specs.values.Settings.{Settings};
ghost use Rattle.qa_violations.specs.allowed.Keeping.{CoversWhere, IsAt, Tallies};
ghost use Rattle.qa_violations.specs.allowed.Lines.{Counting};
ghost use Rattle.qa_violations.specs.allowed.Members as members;
ghost use Rattle.qa_violations.specs.allowed.Rests as rests;
ghost use Rattle.qa_violations.specs.allowed.Texts as texts;
ghost use Rattle.qa_violations.specs.declared.allowed.late.Late.{Late as ALate};
ghost use Rattle.qa_violations.specs.declared.table.finding.Finding.{Finding as AFinding};
ghost use Rattle.qa_violations.specs.table.Table.{Holds, table};
ghost use Rattle.qa_why.specs.caveats.Caveats.{guessed_in};

use crate::allowed::allowances::Allowances;
use crate::allowed::before::Before;
use crate::allowed::choices::choices;
use crate::allowed::members::{
    allowed_member, push_choices as push_choices_member, push_guesses, push_last,
};
use crate::allowed::tally::Tally;
use crate::allowed::texts::{push_choices, push_guessed, push_rows, push_some_end};
use qa_base::Header;
use qa_check::Outcome;
use qa_format::Form;
use qa_why::{Guessed, extend};
use std::alloc::{AllocError, Global};

/// As text.
#[tactic(auto, unfolding(crate::specs::allowed::Texts::rest_text))]
fn rest_text(
    alloc: Global,
    header: &Header,
    tally: &Tally,
    guessed: Guessed,
    last: &Before,
) -> Result<String, AllocError>
    ensures { IfOk result (λ out. (fs : List AFinding) → Holds tally.now.table fs
        → string_bytes out ≡ texts.rest_text header.now (table fs) tally.now.latest guessed
        last.now.totals.bytes_in_flight last.now.due) }
{
    let unit = header.unit();
    let options = header.options();
    let keys = choices(alloc, &options)?;
    let mut out = String::new(alloc);
    push_rows(&mut out, unit, &options, tally.latest, tally.table.rows())?;
    push_choices(&mut out, &options, &keys)?;
    push_guessed(&mut out, guessed)?;
    push_some_end(&mut out, unit, last.totals.bytes_in_flight, last.due)?;
    Ok(out)
}

/// As members behind others.
#[tactic(auto, unfolding(crate::specs::allowed::Members::rest_members))]
fn push_members(
    alloc: Global,
    out: &mut Vec<u8>,
    header: &Header,
    guessed: Guessed,
    a: &Allowances,
) -> Result<(), AllocError>
    ensures { OnOk result ((fs : List AFinding) → Holds a.now.tally.table fs
        → out.new.items ≡ out.old.items ++ members.rest_members header.now (table fs) guessed
        a.now.time a.now.before.totals.bytes_in_flight a.now.before.due) }
{
    let unit = header.unit();
    let options = header.options();
    let keys = choices(alloc, &options)?;
    let allowed = allowed_member(alloc, unit, &options, a.tally.table.rows())?;
    extend(out, b",")?;
    extend(out, &allowed)?;
    push_choices_member(out, &keys)?;
    push_guesses(alloc, out, guessed)?;
    push_last(
        alloc,
        out,
        unit,
        a.time,
        a.before.totals.bytes_in_flight,
        a.before.due,
    )
}

/// As text behind other text.
fn push_text(
    alloc: Global,
    out: &mut Vec<u8>,
    header: &Header,
    guessed: Guessed,
    a: &Allowances,
) -> Result<(), AllocError>
    ensures { OnOk result ((fs : List AFinding) → Holds a.now.tally.table fs
        → out.new.items ≡ out.old.items ++ texts.rest_text header.now (table fs)
        a.now.tally.latest guessed a.now.before.totals.bytes_in_flight a.now.before.due) }
{
    let text = rest_text(alloc, header, &a.tally, guessed, &a.before)?;
    extend(out, text.as_bytes())
}

impl Allowances {
    /// Appends what the verdict rests on where the trace is accepted and so many of its lines were
    /// guessed, in a form: text, or members behind others. Nothing without a header. `AllocError`
    /// comes where it is out of memory.
    pub(crate) fn push_rest(
        &self,
        alloc: Global,
        form: Form,
        guessed: Guessed,
        out: &mut Vec<u8>,
    ) -> Result<(), AllocError>
        ensures { OnOk result ((c : Option Settings) (h : List AnEvent) (fs : List AFinding)
            (lates : List ALate) → IsAt self.now c h → Tallies self.now.tally fs lates
            → out.new.items ≡ out.old.items ++ rests.rest_of form c h fs lates guessed) }
    {
        match (&self.header, form) {
            (None, _) => Ok(()),
            (Some(header), Form::Text) => push_text(alloc, out, header, guessed, self),
            (Some(header), Form::Json) => push_members(alloc, out, header, guessed, self),
        }
    }

    /// Appends it behind what is told of a verdict of this kind: nothing unless the trace is
    /// accepted. `AllocError` comes where it is out of memory.
    pub(crate) fn push_behind(
        &self,
        alloc: Global,
        form: Form,
        outcome: Outcome,
        guessed: Guessed,
        out: &mut Vec<u8>,
    ) -> Result<(), AllocError>
        ensures { OnOk result ((counts : Counting) (ls : List (List ℕ))
            → CoversWhere counts self.now ls → guessed ≡ guessed_in ls
            → out.new.items ≡ out.old.items ++ rests.rest_behind counts form outcome ls) }
    {
        match outcome {
            Outcome::Accepted => self.push_rest(alloc, form, guessed, out),
            Outcome::Refused | Outcome::Unreadable => Ok(()),
        }
    }

    /// Whether nothing was allowed.
    pub(crate) fn is_strict(&self) -> bool
        ensures { (counts : Counting) (ls : List (List ℕ)) → CoversWhere counts self.now ls
            → result ≡ rests.is_strict counts ls }
    {
        self.tally.table.is_empty()
    }
}
