//! The explanation: from a reader of bytes to a row for each line, and a report, on a writer.
ghost use Rattle.std.specs.Prelude.{◌≡◌, ℕ, List, Some, Err, IfOk};
ghost use Rattle.qa_base.specs.declared.event.Event.{Event as AnEvent};
ghost use Rattle.qa_base.specs.values.Settings.{Settings};
ghost use Rattle.qa_format.specs.format.Reading.{reading};
ghost use Rattle.qa_format.specs.verdicts.Explain as explanation;
ghost use Rattle.qa_format.specs.verdicts.Verdict.{strict};
ghost use Rattle.qa_check.specs.Audit.{Reads, ReadsEnough, is_read_fault, is_write_fault};
ghost use Rattle.qa_check.specs.Failures.{failures_after};
ghost use Rattle.qa_check.specs.Writing.{Begins, BeginsRead, Explains, ShowsRead};

use crate::auditing::{AuditFault, Outcome, write_report};
use crate::judges::Judge;
use crate::rows::{RowForm, write_rows};
use crate::streams::{Sink, Source};
use crate::text::row;
use qa_base::LineKind;
use qa_format::Line;
use qa_ledger::Ledger;
use std::alloc::{AllocError, Global};

/// Reads a trace and writes a row for each line that is admitted, with the state after it, and then
/// the report.
///
/// The rows of each piece that is read are written before the next is asked for, in one write if
/// the writer takes them. It reads what `audit` reads, and fails where that fails; the rows so far
/// are written before a failure is returned.
pub fn explain<L: Ledger + Drop, R: Source, W: Sink>(
    alloc: Global,
    reader: &mut R,
    writer: &mut W,
) -> Result<Outcome, AuditFault>
    // For a reader that tells its bytes: what explains them was written, and the kind of their
    // verdict is returned.
    ensures told { (bytes : List ℕ) → R.left reader.old ≡ Some bytes
        → IfOk result (λ outcome. Explains (W.held writer.old) (W.held writer.new) outcome bytes) }

    // For every reader: what was read decides, since it is all there is, or nothing behind it
    // counts.
    ensures ok { IfOk result (λ outcome. (bytes : List ℕ)
        × ReadsEnough (R.left reader.old) (R.left reader.new) (R.last_read reader.new) bytes
        × Explains (W.held writer.old) (W.held writer.new) outcome bytes) }

    // The bytes before the last read did not fix the verdict, whatever the result.
    ensures reads { Reads (R.left reader.old) (R.left reader.new) (R.last_read reader.new) }

    // After a failed read all rows of the lines that an LF ended were written, and nothing else.
    ensures rows { result ≡ Err AuditFault.Read
        → ShowsRead (R.left reader.old) (R.left reader.new) (W.held writer.old)
        (W.held writer.new) }

    // Out of memory, the beginning of the rows was written.
    ensures out_of_memory { result ≡ Err AuditFault.OutOfMemory
        → BeginsRead (R.left reader.old) (R.left reader.new) (R.last_read reader.new)
        (W.held writer.old) (W.held writer.new) (explanation.rows (strict reading)) }

    // After a failed write the beginning of the rows and the report was written.
    ensures told_beginning { (bytes : List ℕ) → R.left reader.old ≡ Some bytes
        → result ≡ Err AuditFault.Write
        → Begins (W.held writer.old) (W.held writer.new)
        (explanation.explain (strict reading) bytes) }
    ensures beginning { result ≡ Err AuditFault.Write
        → BeginsRead (R.left reader.old) (R.left reader.new) (R.last_read reader.new)
        (W.held writer.old) (W.held writer.new) (explanation.explain (strict reading)) }

    // A fault of the reader or the writer is returned exactly where it failed, once.
    ensures read_failures { R.read_failures reader.new
        ≡ failures_after (is_read_fault result) (R.read_failures reader.old) }
    ensures write_failures { W.write_failures writer.new
        ≡ failures_after (is_write_fault result) (W.write_failures writer.old) }
{
    let verdict = write_rows::<L, Explained, R, W>(alloc, Explained, reader, writer)?;
    write_report(alloc, writer, &verdict)
}

/// The form of the rows of an explanation: one for each line that is not blank, from the header on.
#[derive(Clone, Copy, Drop)]
struct Explained;

impl<J: Judge> RowForm<J> for Explained {
    ghost use Rattle.qa_format.specs.verdicts.Explain.{row_said};

    ghost tells = { row_said };

    fn row(
        &self,
        alloc: Global,
        n: u64,
        said: &Line,
        judge: Option<&J>,
    ) -> Result<Vec<u8>, AllocError> {
        let Some(kind) = said.kind() else {
            return Ok(Vec::new(alloc));
        };
        match judge {
            Some(judge) => row_by::<J>(alloc, n, kind, judge),
            None => Ok(Vec::new(alloc)),
        }
    }
}

/// The row of line n, which is of this kind, by the judge after it.
fn row_by<J: Judge>(alloc: Global, n: u64, kind: LineKind, judge: &J) -> Result<Vec<u8>, AllocError>
    ensures { IfOk result (λ text. (c : Settings) (h : List AnEvent) → J.judges.stands judge.now c h
        → text.items ≡ explanation.row_of n (Some kind) c h) }
{
    let text = row(alloc, n, kind, &judge.state())?;
    Ok(text.into_bytes())
}
