//! The row of a line.
ghost use Rattle.std.specs.Prelude.{◌≡◌, ◌++◌, true, false, List, IfOk, OnOk};
ghost use Rattle.qa_base.specs.declared.event.Event.{Event as AnEvent};
ghost use Rattle.qa_base.specs.values.Settings.{Settings};
ghost use Rattle.qa_format.specs.format.Written.{line_fits};
ghost use Rattle.qa_why.specs.json_rows.Rows as text;

use crate::json_rows::state::state_text;
use itoa::Buffer;
use qa_format::Line;
use qa_ledger::Explains;
use qa_write::write_line;
use std::alloc::{AllocError, Global};

/// Appends bytes.
fn extend(row: &mut Vec<u8>, bytes: &[u8]) -> Result<(), AllocError>
    ensures { OnOk result (row.new.items ≡ row.old.items ++ bytes.now) }
{
    row.extend_from_slice(bytes)
}

// ---- the pieces of the text

#[tactic(auto, unfolding(crate::specs::json_rows::Rows::numbered))]
fn push_number(row: &mut Vec<u8>, n: u64) -> Result<(), AllocError>
    ensures { OnOk result (row.new.items ≡ row.old.items ++ text.numbered n) }
{
    let mut buffer = Buffer::new();
    extend(row, b"{\"line\":")?;
    extend(row, buffer.format(n).as_bytes())
}

#[tactic(auto, unfolding(crate::specs::json_rows::Rows::saying))]
fn push_said(row: &mut Vec<u8>, said: &str) -> Result<(), AllocError>
    ensures { OnOk result (row.new.items ≡ row.old.items ++ text.saying said.now) }
{
    extend(row, b",\"event\":")?;
    extend(row, said.as_bytes())
}

#[tactic(auto, unfolding(crate::specs::json_rows::Rows::leaving))]
fn push_state(row: &mut Vec<u8>, state: &[u8]) -> Result<(), AllocError>
    ensures { OnOk result (row.new.items ≡ row.old.items ++ text.leaving state.now) }
{
    extend(row, b",\"state\":")?;
    extend(row, state)?;
    extend(row, b"}")
}

/// The object of line n, of what it says and of the state behind it.
#[tactic(auto, unfolding(crate::specs::json_rows::Rows::object_text))]
fn object_text(alloc: Global, n: u64, said: &str, state: &[u8]) -> Result<Vec<u8>, AllocError>
    ensures { IfOk result (λ object. object.items ≡ text.object_text n said.now state.now) }
{
    let mut object = Vec::new(alloc);
    push_number(&mut object, n)?;
    push_said(&mut object, said)?;
    push_state(&mut object, state)?;
    Ok(object)
}

// ---- the row

/// The JSON object of line n of a trace, which is not blank, by a ledger that has admitted the
/// events up to it, its own included: the line's number, what it says as `write_line` has it, and
/// the state of the machine behind it. It has no white space, and no LF behind it.
///
/// Sizes and windows are in bytes, times in the unit of the trace. Asks for an event that fits
/// (`Event::fits`), as every line does that was read. `AllocError` comes where it is out of memory.
/// Of a ledger that has failed nothing is promised.
pub fn object<L: Explains>(
    alloc: Global,
    n: u64,
    line: &Line,
    ledger: &L,
) -> Result<Vec<u8>, AllocError>
    requires fitting { line_fits line.now ≡ true }
    ensures { L.has_failed ledger.now ≡ false → IfOk result (λ object. (c : Settings)
        (h : List AnEvent) → L.stands ledger.now c h → object.items ≡ text.object n line.now c h) }
{
    let said = write_line(alloc, line)?;
    let state = state_text(alloc, ledger)?;
    object_text(alloc, n, said.as_str(), &state)
}

/// The row of a line that is not blank.
fn row_of_line<L: Explains>(
    alloc: Global,
    n: u64,
    line: &Line,
    ledger: &L,
) -> Result<Vec<u8>, AllocError>
    requires fitting { line_fits line.now ≡ true }
    ensures { L.has_failed ledger.now ≡ false → IfOk result (λ row. (c : Settings)
        (h : List AnEvent) → L.stands ledger.now c h → row.items ≡ text.row n line.now c h) }
{
    let mut row = object(alloc, n, line, ledger)?;
    extend(&mut row, b"\n")?;
    Ok(row)
}

/// The row of line n of a trace: its `object`, and then LF. A blank line has no row, and the answer
/// is empty.
///
/// Asks for an event that fits (`Event::fits`), as every line does that was read. `AllocError`
/// comes where it is out of memory. Of a ledger that has failed nothing is promised.
pub fn row<L: Explains>(
    alloc: Global,
    n: u64,
    line: &Line,
    ledger: &L,
) -> Result<Vec<u8>, AllocError>
    requires fitting { line_fits line.now ≡ true }
    ensures { L.has_failed ledger.now ≡ false → IfOk result (λ row. (c : Settings)
        (h : List AnEvent) → L.stands ledger.now c h → row.items ≡ text.row_of n line.now c h) }
{
    match line {
        Line::Blank => Ok(Vec::new(alloc)),
        Line::Header(_) | Line::Event(_) => row_of_line(alloc, n, line, ledger),
    }
}
