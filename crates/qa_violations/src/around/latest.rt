//! The rows of the last good lines of a trace, which are kept while it is judged.
ghost use Rattle.std.specs.Prelude.{◌≡◌, ◌<◌, ◌++◌, [], ◌∷◌, ℕ, List, false, IfOk, OnOk};
ghost use Rattle.std.specs.Prelude.{string_bytes};
ghost use Rattle.qa_violations.specs.around.Around.{rows_behind};
ghost use Rattle.qa_violations.specs.around.Keeping.{Covers, Keeps, room_in};
ghost use Rattle.qa_violations.specs.around.Rows.{row, row_of, rows, rows_before};
ghost use Rattle.qa_violations.specs.around.Texts as text;
ghost use Rattle.qa_violations.specs.declared.around.latest.Latest.{Latest as ALatest};
ghost use Rattle.qa_violations.specs.declared.around.row.Row.{Row as ARow};
ghost use Rattle.qa_base.specs.declared.event.Event.{Event as AnEvent};
ghost use Rattle.qa_base.specs.values.Settings.{Settings};

use crate::around::row::{Row, push_row};
use qa_base::LineKind;
use qa_check::Outcome;
use qa_explain::text::push_words;
use qa_format::Line;
use qa_ledger::Explains;
use qa_why::extend;
use std::alloc::{AllocError, Global};
use std::collections::VecDeque;

/// The rows of the last good lines of a trace that are not blank, up to so many: of each its
/// number, its kind and time, and the state of the machine behind it.
///
/// It takes memory for so many rows, and none for a line that comes after them.
#[derive(Drop)]
pub struct Latest {
    alloc: Global,
    count: u16,
    rows: VecDeque<Row>,
}

impl Latest {
    /// The last rows up to so many, of no lines. Takes no memory.
    pub fn new(alloc: Global, count: u16) -> Latest
        ensures count { result.count ≡ count }
        ensures fresh { (name : List ℕ) → Covers name result result [] }
    {
        Latest {
            alloc,
            count,
            rows: VecDeque::new(alloc),
        }
    }

    /// Keeps the row of a line of this kind and this time, by the ledger behind it, in place of the
    /// first where there are so many.
    fn keep<L: Explains>(
        &mut self,
        line: u64,
        kind: LineKind,
        time: Option<u64>,
        ledger: &L,
    ) -> Result<(), AllocError>
        requires some { 0 < self.old.count }
        requires works { L.has_failed ledger.now ≡ false }
        ensures count { OnOk result (self.new.count ≡ self.old.count) }
        ensures kept { OnOk result ((rs : List ARow) (c : Settings) (h : List AnEvent)
            → Keeps self.old rs → L.stands ledger.now c h
            → Keeps self.new (rs ++ row line kind time c h ∷ [])) }
    {
        make_room(&mut self.rows, usize::from(self.count));
        self.rows.reserve(1)?;
        self.rows
            .push_back_reserved(Row::of(line, kind, time, ledger));
        Ok(())
    }

    /// Keeps the row of a good line, by the ledger behind it. `AllocError` comes where it is out of
    /// memory; nothing is promised then of what is kept.
    #[inline(always)]
    pub fn note_said<L: Explains>(
        &mut self,
        n: u64,
        said: &Line,
        ledger: &L,
    ) -> Result<(), AllocError>
        requires works { L.has_failed ledger.now ≡ false }
        ensures count { OnOk result (self.new.count ≡ self.old.count) }
        ensures kept { OnOk result ((rs : List ARow) (c : Settings) (h : List AnEvent)
            → Keeps self.old rs → L.stands ledger.now c h
            → Keeps self.new (rs ++ row_of n said.now c h)) }
    {
        if self.count == 0 {
            return Ok(());
        }
        match said {
            Line::Blank => Ok(()),
            Line::Header(_) => self.keep(n, LineKind::Header, None, ledger),
            Line::Event(event) => self.keep(n, event.kind(), Some(event.time().get()), ledger),
        }
    }

    /// Appends the rows with a heading; nothing where there are none. `AllocError` comes where it
    /// is out of memory.
    pub fn push_text(&self, out: &mut Vec<u8>) -> Result<(), AllocError>
        ensures { OnOk result ((ls : List (List ℕ)) → Keeps self.now (rows ls)
            → out.new.items ≡ out.old.items ++ rows_before self.now.count ls) }
    {
        let mut text = String::new(self.alloc);
        push_under_heading(&mut text, &self.rows)?;
        extend(out, text.as_bytes())
    }

    /// Appends the rows behind what is told of a verdict of this kind: nothing where a trace is
    /// accepted. `AllocError` comes where it is out of memory.
    pub fn push_behind(&self, outcome: Outcome, out: &mut Vec<u8>) -> Result<(), AllocError>
        ensures { OnOk result ((ls : List (List ℕ)) → Keeps self.now (rows ls)
            → out.new.items ≡ out.old.items ++ rows_behind outcome self.now.count ls) }
    {
        match outcome {
            Outcome::Accepted => Ok(()),
            Outcome::Refused | Outcome::Unreadable => self.push_text(out),
        }
    }
}

/// Drops the first row, where there are so many.
pub(crate) fn make_room<T: Drop>(rows: &mut VecDeque<T>, count: usize)
    ensures { rows.new.items ≡ room_in count rows.old.items }
{
    if rows.len() >= count {
        rows.pop_front();
    }
}

/// Appends the rows with a heading, where there are some.
fn push_under_heading(out: &mut String, rows: &VecDeque<Row>) -> Result<(), AllocError>
    ensures { OnOk result (string_bytes out.new
        ≡ string_bytes out.old ++ text.rows_text rows.now.items) }
{
    if rows.is_empty() {
        return Ok(());
    }
    push_words(out, "  before it:\n")?;
    push_each(out, rows)
}

/// Appends the rows.
fn push_each(out: &mut String, rows: &VecDeque<Row>) -> Result<(), AllocError>
    ensures { OnOk result (string_bytes out.new
        ≡ string_bytes out.old ++ text.each_text rows.now.items) }
{
    for row in rows {
        push_row(out, row)?;
    }
    Ok(())
}
