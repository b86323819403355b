//! The rows of the last good lines of a trace as JSON objects, which are kept while it is judged.
ghost use Rattle.std.specs.Prelude.{◌≡◌, ◌<◌, ◌++◌, [], ◌∷◌, ℕ, List, true, false, IfOk, OnOk, map};
ghost use Rattle.qa_violations.specs.around.Around.{objects_behind};
ghost use Rattle.qa_violations.specs.around.Keeping.{CoversObjects, KeepsObjects};
ghost use Rattle.qa_violations.specs.around.Members as text;
ghost use Rattle.qa_violations.specs.around.Rows.{object_of, objects};
ghost use Rattle.qa_violations.specs.declared.around.objects.LatestObjects.{LatestObjects as ALatestObjects};
ghost use Rattle.qa_base.specs.declared.event.Event.{Event as AnEvent};
ghost use Rattle.qa_base.specs.values.Settings.{Settings};
ghost use Rattle.qa_format.specs.format.Written.{line_fits};
ghost use Rattle.qa_why.specs.json_rows.Rows.{object as object_now};

use crate::around::latest::make_room;
use qa_check::Outcome;
use qa_format::Line;
use qa_ledger::Explains;
use qa_why::{extend, object};
use std::alloc::{AllocError, Global};
use std::collections::VecDeque;

/// The rows of the last good lines of a trace that are not blank, up to so many, each as the JSON
/// object that `qa_why::row` writes of the line.
///
/// It takes memory for so many objects, and beside them for the one that is made.
#[derive(Drop)]
pub struct LatestObjects {
    alloc: Global,
    count: u16,
    objects: VecDeque<Vec<u8>>,
}

impl LatestObjects {
    /// The last rows up to so many, of no lines. Takes no memory.
    pub fn new(alloc: Global, count: u16) -> LatestObjects
        ensures count { result.count ≡ count }
        ensures fresh { (name : List ℕ) → CoversObjects name result result [] }
    {
        LatestObjects {
            alloc,
            count,
            objects: VecDeque::new(alloc),
        }
    }

    /// Keeps an object in place of the first where there are so many.
    fn keep(&mut self, object: Vec<u8>) -> Result<(), AllocError>
        requires some { 0 < self.old.count }
        ensures count { OnOk result (self.new.count ≡ self.old.count) }
        ensures kept { OnOk result ((os : List (List ℕ)) → KeepsObjects self.old os
            → KeepsObjects self.new (os ++ object.items ∷ [])) }
    {
        make_room(&mut self.objects, usize::from(self.count));
        self.objects.reserve(1)?;
        self.objects.push_back_reserved(object);
        Ok(())
    }

    /// Keeps the object of a line that is not blank, by the ledger behind it.
    fn keep_said<L: Explains>(&mut self, n: u64, said: &Line, ledger: &L) -> Result<(), AllocError>
        requires some { 0 < self.old.count }
        requires fitting { line_fits said.now ≡ true }
        requires works { L.has_failed ledger.now ≡ false }
        ensures count { OnOk result (self.new.count ≡ self.old.count) }
        ensures kept { OnOk result ((os : List (List ℕ)) (c : Settings) (h : List AnEvent)
            → KeepsObjects self.old os → L.stands ledger.now c h
            → KeepsObjects self.new (os ++ object_now n said.now c h ∷ [])) }
    {
        self.keep(object(self.alloc, n, said, ledger)?)
    }

    /// Keeps the object of a good line, by the ledger behind it. Asks for an event that fits
    /// (`Event::fits`), as every line does that was read.
    ///
    /// `AllocError` comes where it is out of memory; nothing is promised then of what is kept.
    pub fn note_said<L: Explains>(
        &mut self,
        n: u64,
        said: &Line,
        ledger: &L,
    ) -> Result<(), AllocError>
        requires fitting { line_fits said.now ≡ true }
        requires works { L.has_failed ledger.now ≡ false }
        ensures count { OnOk result (self.new.count ≡ self.old.count) }
        ensures kept { OnOk result ((os : List (List ℕ)) (c : Settings) (h : List AnEvent)
            → KeepsObjects self.old os → L.stands ledger.now c h
            → KeepsObjects self.new (os ++ object_of n said.now c h)) }
    {
        if self.count == 0 {
            return Ok(());
        }
        match said {
            Line::Blank => Ok(()),
            Line::Header(_) | Line::Event(_) => self.keep_said(n, said, ledger),
        }
    }

    /// Appends them as a member behind others; no member where none are to be kept. `AllocError`
    /// comes where it is out of memory.
    pub fn push_member(&self, out: &mut Vec<u8>) -> Result<(), AllocError>
        ensures { OnOk result ((ls : List (List ℕ)) → KeepsObjects self.now (objects ls)
            → out.new.items ≡ out.old.items ++ text.objects_before self.now.count ls) }
    {
        if self.count == 0 {
            return Ok(());
        }
        push_list(out, &self.objects)
    }

    /// Appends a member of none behind others; no member where none are to be kept.
    #[tactic(auto, unfolding(crate::specs::around::Members::list_member))]
    fn push_none(&self, out: &mut Vec<u8>) -> Result<(), AllocError>
        ensures { OnOk result (out.new.items ≡ out.old.items ++ text.member_of self.now.count []) }
    {
        if self.count == 0 {
            return Ok(());
        }
        extend(out, b",\"around\":[]")
    }

    /// Appends them as a member behind those of a verdict of this kind: none of an accepted trace.
    /// `AllocError` comes where it is out of memory.
    pub fn push_behind(&self, outcome: Outcome, out: &mut Vec<u8>) -> Result<(), AllocError>
        ensures { OnOk result ((ls : List (List ℕ)) → KeepsObjects self.now (objects ls)
            → out.new.items ≡ out.old.items ++ objects_behind outcome self.now.count ls) }
    {
        match outcome {
            Outcome::Accepted => self.push_none(out),
            Outcome::Refused | Outcome::Unreadable => self.push_member(out),
        }
    }
}

/// Appends objects with commas between.
fn push_objects(out: &mut Vec<u8>, objects: &VecDeque<Vec<u8>>) -> Result<(), AllocError>
    ensures { OnOk result (out.new.items
        ≡ out.old.items ++ text.listed [] (map (λ object. object.items) objects.now.items)) }
{
    let mut separator: &[u8] = b"";
    for object in objects {
        extend(out, separator)?;
        extend(out, object)?;
        separator = b",";
    }
    Ok(())
}

/// Appends the list of objects as a member behind others.
#[tactic(auto, unfolding(crate::specs::around::Members::list_member))]
fn push_list(out: &mut Vec<u8>, objects: &VecDeque<Vec<u8>>) -> Result<(), AllocError>
    ensures { OnOk result (out.new.items
        ≡ out.old.items ++ text.list_member (map (λ object. object.items) objects.now.items)) }
{
    extend(out, b",\"around\":[")?;
    push_objects(out, objects)?;
    extend(out, b"]")
}
