//! The audit: from a reader of bytes to a report on a writer.
ghost use Rattle.std.specs.Prelude.{◌≡◌, ◌≢◌, ℕ, List, false, Some, Err, OnOk, OnErr, IfOk, IfErr};
ghost use Rattle.std.specs.Prelude.{take};
ghost use Rattle.std.specs.Io.KnownBytes.{Appends};
ghost use Rattle.qa_format.specs.format.Reading.{reading};
ghost use Rattle.qa_format.specs.verdicts.Report as text;
ghost use Rattle.qa_format.specs.verdicts.Verdict.{strict, verdict};
ghost use Rattle.qa_check.specs.Audit.{outcome_of, Reads, ReadsEnough, Reports};
ghost use Rattle.qa_check.specs.Audit.{BeginsReport, is_read_fault, is_write_fault};
ghost use Rattle.qa_check.specs.Telling.{memory_or_read_of};
ghost use Rattle.qa_check.specs.Failures.{failures_after};

use crate::streams::{Sink, Source};
use crate::text::report;
use crate::visitor::Unvisited;
use crate::walking::{WalkFault, walk};
use qa_format::Verdict;
use qa_ledger::Ledger;
use std::alloc::{AllocError, Global};
use thiserror::Error;

/// The kind of verdict that an audit came to.
#[derive(Clone, Copy, Debug, PartialEq, Eq)]
pub enum Outcome {
    Accepted,
    Refused,
    Unreadable,
}

impl Outcome {
    /// The kind of this verdict.
    pub fn of(verdict: &Verdict) -> Outcome
        ensures { result ≡ outcome_of verdict.now }
    {
        match verdict {
            Verdict::Accepted(_) => Outcome::Accepted,
            Verdict::Refused(..) => Outcome::Refused,
            Verdict::Unreadable(..) => Outcome::Unreadable,
        }
    }
}

/// Why an audit came to no verdict.
#[derive(Clone, Copy, Debug, PartialEq, Eq, Error)]
pub enum AuditFault {
    /// The reader failed, and nothing was written.
    #[error("read fault")]
    Read,
    /// The writer failed after a part of the report.
    #[error("write fault")]
    Write,
    /// Out of memory; nothing was written.
    #[error("out of memory")]
    OutOfMemory,
}

/// Reads a trace and writes its report: for every sequence of bytes that a reader returns, however
/// its reads are cut.
///
/// The theorem speaks of bytes for readers and writers that tell theirs, as those over memory do
/// (`Source::left`, `Sink::held`). A standard stream tells none: the same body runs, and of its
/// bytes nothing is proved.
///
/// It reads pieces of at most 4,096 bytes, and none once the verdict was fixed by those before. A
/// failed read or write is an error, and is not tried again. It always terminates, also where a
/// reader never ends: line 4294967296 is a fault.
pub fn audit<L: Ledger + Drop, R: Source, W: Sink>(
    alloc: Global,
    reader: &mut R,
    writer: &mut W,
) -> Result<Outcome, AuditFault>
    // For a reader that tells its bytes: their report was written, and the kind of their verdict is
    // returned.
    ensures told { (bytes : List ℕ) → R.left reader.old ≡ Some bytes
        → IfOk result (λ outcome. Reports (W.held writer.old) (W.held writer.new) outcome bytes) }

    // For every reader: what was read decides, since it is all there is, or nothing behind it
    // counts.
    ensures ok { IfOk result (λ outcome. (bytes : List ℕ)
        × ReadsEnough (R.left reader.old) (R.left reader.new) (R.last_read reader.new) bytes
        × Reports (W.held writer.old) (W.held writer.new) outcome bytes) }

    // The bytes before the last read did not fix the verdict, whatever the result.
    ensures reads { Reads (R.left reader.old) (R.left reader.new) (R.last_read reader.new) }

    // After a failed write the beginning of the report was written, and else nothing.
    ensures told_beginning { (bytes : List ℕ) → R.left reader.old ≡ Some bytes
        → result ≡ Err AuditFault.Write
        → BeginsReport (W.held writer.old) (W.held writer.new) bytes }
    ensures beginning { result ≡ Err AuditFault.Write → (bytes : List ℕ)
        × ReadsEnough (R.left reader.old) (R.left reader.new) (R.last_read reader.new) bytes
        × BeginsReport (W.held writer.old) (W.held writer.new) bytes }
    ensures unwritten { result ≢ Err AuditFault.Write
        → OnErr result (W.held writer.new ≡ W.held writer.old) }

    // A fault of the reader or the writer is returned exactly where it failed, once.
    ensures read_failures { R.read_failures reader.new
        ≡ failures_after (is_read_fault result) (R.read_failures reader.old) }
    ensures write_failures { W.write_failures writer.new
        ≡ failures_after (is_write_fault result) (W.write_failures writer.old) }
{
    let verdict = judge::<L, R>(alloc, reader)?;
    write_report(alloc, writer, &verdict)
}

/// The verdict of what is read, which nobody visits.
fn judge<L: Ledger + Drop, R: Source>(alloc: Global, reader: &mut R) -> Result<Verdict, AuditFault>
    ensures verdict { IfOk result (λ v. (bytes : List ℕ)
        × ReadsEnough (R.left reader.old) (R.left reader.new) (R.last_read reader.new) bytes
        × (v ≡ verdict (strict reading) bytes)) }
    ensures reads { Reads (R.left reader.old) (R.left reader.new) (R.last_read reader.new) }
    ensures read_failures { R.read_failures reader.new
        ≡ failures_after (is_read_fault result) (R.read_failures reader.old) }
    ensures unwritten { is_write_fault result ≡ false }
{
    match walk::<L, Unvisited, R>(alloc, false, reader, &mut Unvisited) {
        Ok(ended) => Ok(ended.verdict),
        Err(fault) => Err(memory_or_read(fault)),
    }
}

/// The fault of a walk whose visitor fails by memory alone.
pub fn memory_or_read(fault: WalkFault<AllocError>) -> AuditFault
    ensures { result ≡ memory_or_read_of fault }
{
    match fault {
        WalkFault::Read => AuditFault::Read,
        WalkFault::OutOfMemory | WalkFault::Visitor(_) => AuditFault::OutOfMemory,
    }
}

/// Writes the report of a verdict, and returns its kind.
pub fn write_report<W: Sink>(
    alloc: Global,
    writer: &mut W,
    verdict: &Verdict,
) -> Result<Outcome, AuditFault>
    ensures ok { IfOk result
        (λ outcome. Appends (W.held writer.old) (W.held writer.new) (text.report verdict.now)
        × (outcome ≡ outcome_of verdict.now)) }
    ensures begun { result ≡ Err AuditFault.Write
        → (n : ℕ)
        × Appends (W.held writer.old) (W.held writer.new) (take n (text.report verdict.now)) }
    ensures unwritten { result ≢ Err AuditFault.Write
        → OnErr result (W.held writer.new ≡ W.held writer.old) }
    ensures read { is_read_fault result ≡ false }
    ensures failures { W.write_failures writer.new
        ≡ failures_after (is_write_fault result) (W.write_failures writer.old) }
{
    let Ok(text) = report(alloc, verdict) else {
        return Err(AuditFault::OutOfMemory);
    };
    write_whole(writer, text.as_bytes())?;
    Ok(Outcome::of(verdict))
}

/// Writes all of the bytes, in as many pieces as the writer takes. A failed write is not tried
/// again.
pub fn write_whole<W: Sink>(writer: &mut W, bytes: &[u8]) -> Result<(), AuditFault>
    ensures ok { OnOk result (Appends (W.held writer.old) (W.held writer.new) bytes.now) }
    ensures err { OnErr result ((n : ℕ)
        × Appends (W.held writer.old) (W.held writer.new) (take n bytes.now)) }
    ensures failures { W.write_failures writer.new
        ≡ failures_after (is_write_fault result) (W.write_failures writer.old) }
    ensures write { IfErr result (λ fault. fault ≡ AuditFault.Write) }
{
    let mut at = 0;
    while at < bytes.len() {
        let Ok(n) = writer.write_piece(&bytes[at..]) else {
            return Err(AuditFault::Write);
        };
        if n == 0 {
            return Err(AuditFault::Write);
        }
        at += n;
    }
    Ok(())
}
