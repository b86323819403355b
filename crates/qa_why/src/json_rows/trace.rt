//! The rows of a trace, from a reader of bytes to a writer.
ghost use Rattle.std.specs.Prelude.{◌≡◌, ℕ, List, false, Some, Err, IfOk, OnErr};
ghost use Rattle.qa_format.specs.verdicts.Verdict.{strict};
ghost use Rattle.qa_check.specs.Audit.{Reads, ReadsEnough, is_read_fault, is_write_fault};
ghost use Rattle.qa_check.specs.Failures.{failures_after};
ghost use Rattle.qa_check.specs.Writing.{BeginsToldRead, ShowsToldRead};
ghost use Rattle.qa_format.specs.format.Reading.{reading};
ghost use Rattle.qa_format.specs.verdicts.Explain.{told};
ghost use Rattle.qa_why.specs.json_rows.Rows.{WritesRows, row_of};

use crate::json_rows::line::row;
use qa_check::{AuditFault, Line, Outcome, RowForm, Sink, Source, write_rows};
use qa_ledger::Explains;
use std::alloc::{AllocError, Global};

/// The form of the rows: an object for each line that is not blank, from the header on.
#[derive(Clone, Copy, Drop)]
struct Objects;

impl<L: Explains> RowForm<L> for Objects {
    ghost use Rattle.qa_why.specs.json_rows.Rows.{row_of};

    ghost tells = { row_of };

    fn row(
        &self,
        alloc: Global,
        n: u64,
        said: &Line,
        judge: Option<&L>,
    ) -> Result<Vec<u8>, AllocError> {
        match judge {
            Some(ledger) => row(alloc, n, said, ledger),
            None => Ok(Vec::new(alloc)),
        }
    }
}

/// Reads a trace and writes the row of each line that is admitted, and no report.
///
/// The rows of each piece that is read are written before the next is asked for. It reads what
/// `audit` reads, and fails where that fails; the rows so far are written before a failure is
/// returned. What is returned else is the kind of the verdict.
pub fn rows<L: Explains + Drop, R: Source, W: Sink>(
    alloc: Global,
    reader: &mut R,
    writer: &mut W,
) -> Result<Outcome, AuditFault>
    // For a reader that tells its bytes: their rows were written, and the kind of their verdict is
    // returned.
    ensures told { (bytes : List ℕ) → R.left reader.old ≡ Some bytes
        → IfOk result (λ outcome.
        WritesRows (W.held writer.old) (W.held writer.new) outcome bytes) }

    // For every reader: what was read decides, since it is all there is, or nothing behind it
    // counts.
    ensures ok { IfOk result (λ outcome. (bytes : List ℕ)
        × ReadsEnough (R.left reader.old) (R.left reader.new) (R.last_read reader.new) bytes
        × WritesRows (W.held writer.old) (W.held writer.new) outcome bytes) }

    // The bytes before the last read did not fix the verdict, whatever the result.
    ensures reads { Reads (R.left reader.old) (R.left reader.new) (R.last_read reader.new) }

    // After a failed read all rows of the lines that an LF ended were written, and nothing else.
    ensures rows { result ≡ Err AuditFault.Read
        → ShowsToldRead (strict reading) row_of (R.left reader.old) (R.left reader.new)
        (W.held writer.old) (W.held writer.new) }

    // After another failure the beginning of the rows was written.
    ensures begun { is_read_fault result ≡ false → OnErr result
        (BeginsToldRead (strict reading) row_of (R.left reader.old) (R.left reader.new)
        (R.last_read reader.new) (W.held writer.old) (W.held writer.new)
        (told row_of (strict reading))) }

    // A fault of the reader or the writer is returned exactly where it failed, once.
    ensures read_failures { R.read_failures reader.new
        ≡ failures_after (is_read_fault result) (R.read_failures reader.old) }
    ensures write_failures { W.write_failures writer.new
        ≡ failures_after (is_write_fault result) (W.write_failures writer.old) }
{
    match write_rows::<L, Objects, R, W>(alloc, Objects, reader, writer) {
        Ok(verdict) => Ok(Outcome::of(&verdict)),
        Err(fault) => Err(fault),
    }
}
