//! The rows of a trace: a text for each good line, written in one piece for what each read brings.
ghost use Rattle.std.specs.Prelude.{◌≡◌, [], ℕ, List, false, true, Option, Some, Ok, Err, IfOk};
ghost use Rattle.std.specs.Option.{ForSome, option_copied};
ghost use Rattle.qa_base.specs.declared.event.Event.{Event as AnEvent};
ghost use Rattle.qa_base.specs.values.Settings.{Settings};
ghost use Rattle.qa_format.specs.format.Written.{line_fits};
ghost use Rattle.qa_format.specs.verdicts.Explain.{Telling, told, told_said};
ghost use Rattle.qa_check.specs.Audit.{ReadsBy, is_read_fault, is_write_fault};
ghost use Rattle.qa_check.specs.Failures.{failures_after};
ghost use Rattle.qa_check.specs.Standing.{HoldsRun, by};
ghost use Rattle.qa_format.specs.declared.verdict.Verdict.{Verdict};
ghost use Rattle.qa_check.specs.Writing.{Begins, BeginsToldRead, JudgesShown, ShowsToldRead};

use crate::auditing::{AuditFault, write_whole};
use crate::judges::Judge;
use crate::streams::{Sink, Source};
use crate::visitor::Visitor;
use crate::walking::{WalkFault, walk};
use qa_format::{Line, Verdict};
use std::alloc::{AllocError, Global};

/// A form of rows: what is written of each good line of a trace.
pub trait RowForm<J: Judge> {
    // What it tells of a line.
    ghost tells: { Telling };

    /// The row of line n, which is good and says this, by the judge after it; there is none before
    /// a header.
    ///
    /// `AllocError` comes only where it is out of memory.
    fn row(
        &self,
        alloc: Global,
        n: u64,
        said: &Line,
        judge: Option<&J>,
    ) -> Result<Vec<u8>, AllocError>
        requires fitting { line_fits said.now ≡ true }
        requires works { ForSome (option_copied judge) (λ j. J.has_failed j ≡ false) }
        ensures { IfOk result (λ text. (header : Option Settings) (h : List AnEvent)
            → HoldsRun J.judges (option_copied judge.entry) header h
            → text.items ≡ told_said tells n (Ok said.now) header h) };
}

/// Reads a trace and writes the row of each line that is admitted, in this form; returns the
/// verdict.
///
/// The rows of each piece that is read are written before the next is asked for, in one write if
/// the writer takes them. It reads what `audit` reads, and fails where that fails; the rows so far
/// are written before a failure is returned.
pub fn write_rows<J: Judge + Drop, F: RowForm<J> + Drop, R: Source, W: Sink>(
    alloc: Global,
    form: F,
    reader: &mut R,
    writer: &mut W,
) -> Result<Verdict, AuditFault>
    ensures verdict { IfOk result
        (JudgesShown (by J.judges) F.tells (R.left reader.old) (R.left reader.new)
        (R.last_read reader.new) (W.held writer.old) (W.held writer.new)) }
    ensures reads { ReadsBy (by J.judges) (R.left reader.old) (R.left reader.new)
        (R.last_read reader.new) }
    ensures rows { result ≡ Err AuditFault.Read
        → ShowsToldRead (by J.judges) F.tells (R.left reader.old) (R.left reader.new)
        (W.held writer.old) (W.held writer.new) }
    ensures out_of_memory { result ≡ Err AuditFault.OutOfMemory
        → BeginsToldRead (by J.judges) F.tells (R.left reader.old) (R.left reader.new)
        (R.last_read reader.new) (W.held writer.old) (W.held writer.new)
        (told F.tells (by J.judges)) }
    ensures unwritten { result ≡ Err AuditFault.Write
        → BeginsToldRead (by J.judges) F.tells (R.left reader.old) (R.left reader.new)
        (R.last_read reader.new) (W.held writer.old) (W.held writer.new)
        (told F.tells (by J.judges)) }
    ensures read_failures { R.read_failures reader.new
        ≡ failures_after (is_read_fault result) (R.read_failures reader.old) }
    ensures write_failures { W.write_failures writer.new
        ≡ failures_after (is_write_fault result) (W.write_failures writer.old) }
{
    let mut waiting = Vec::new(alloc);
    let mut rows = RowWriter {
        alloc,
        form: &form,
        writer,
        waiting: &mut waiting,
    };
    walk_rows::<J, F, R, W>(alloc, reader, &mut rows)
}

/// The verdict of what is read, past a visitor that writes rows.
fn walk_rows<J: Judge + Drop, F: RowForm<J>, R: Source, W: Sink>(
    alloc: Global,
    reader: &mut R,
    rows: &mut RowWriter<'_, '_, '_, F, W>,
) -> Result<Verdict, AuditFault>
    requires none { rows.old.waiting.now.items ≡ [] }
    ensures same { rows.new.writer.ghost_name ≡ rows.old.writer.ghost_name }
    ensures same_list { rows.new.waiting.ghost_name ≡ rows.old.waiting.ghost_name }
    ensures verdict { IfOk result
        (JudgesShown (by J.judges) F.tells (R.left reader.old) (R.left reader.new)
        (R.last_read reader.new) (W.held rows.old.writer.now) (W.held rows.new.writer.now)) }
    ensures reads { ReadsBy (by J.judges) (R.left reader.old) (R.left reader.new)
        (R.last_read reader.new) }
    ensures rows { result ≡ Err AuditFault.Read
        → ShowsToldRead (by J.judges) F.tells (R.left reader.old) (R.left reader.new)
        (W.held rows.old.writer.now) (W.held rows.new.writer.now) }
    ensures out_of_memory { result ≡ Err AuditFault.OutOfMemory
        → BeginsToldRead (by J.judges) F.tells (R.left reader.old) (R.left reader.new)
        (R.last_read reader.new) (W.held rows.old.writer.now) (W.held rows.new.writer.now)
        (told F.tells (by J.judges)) }
    ensures unwritten { result ≡ Err AuditFault.Write
        → BeginsToldRead (by J.judges) F.tells (R.left reader.old) (R.left reader.new)
        (R.last_read reader.new) (W.held rows.old.writer.now) (W.held rows.new.writer.now)
        (told F.tells (by J.judges)) }
    ensures read_failures { R.read_failures reader.new
        ≡ failures_after (is_read_fault result) (R.read_failures reader.old) }
    ensures failures { W.write_failures rows.new.writer.now
        ≡ failures_after (is_write_fault result) (W.write_failures rows.old.writer.now) }
{
    match walk::<J, RowWriter<'_, '_, '_, F, W>, R>(alloc, false, reader, rows) {
        Ok(ended) => Ok(ended.verdict),
        Err(WalkFault::Read) => Err(AuditFault::Read),
        Err(WalkFault::OutOfMemory) => Err(write_waiting(rows)),
        Err(WalkFault::Visitor(AuditFault::OutOfMemory)) => Err(write_waiting(rows)),
        Err(WalkFault::Visitor(AuditFault::Write)) => Err(AuditFault::Write),
        // A writer reads nothing.
        Err(WalkFault::Visitor(AuditFault::Read)) => unreachable!(),
    }
}

/// Writes the rows that wait where it is out of memory, and returns the fault: of memory, or of the
/// writer where that fails too.
fn write_waiting<F, W: Sink>(rows: &mut RowWriter<'_, '_, '_, F, W>) -> AuditFault
    ensures same { rows.new.writer.ghost_name ≡ rows.old.writer.ghost_name }
    ensures same_list { rows.new.waiting.ghost_name ≡ rows.old.waiting.ghost_name }
    ensures begun { Begins (W.held rows.old.writer.now) (W.held rows.new.writer.now)
        rows.old.waiting.now.items }
    ensures read { is_read_fault {A = Verdict} (Err result) ≡ false }
    ensures failures { W.write_failures rows.new.writer.now
        ≡ failures_after (is_write_fault {A = Verdict} (Err result))
        (W.write_failures rows.old.writer.now) }
{
    match write_whole(rows.writer, rows.waiting.as_slice()) {
        Ok(()) => AuditFault::OutOfMemory,
        Err(_) => AuditFault::Write,
    }
}

/// A visitor that makes the row of each line, and writes those that wait before more is read.
#[derive(Drop)]
struct RowWriter<'f, 'w, 'v, F, W> {
    alloc: Global,
    form: &'f F,
    writer: &'w mut W,
    /// The rows that were made and not written yet.
    waiting: &'v mut Vec<u8>,
}

impl<'f, 'w, 'v, J: Judge, F: RowForm<J>, W: Sink> Visitor<J> for RowWriter<'f, 'w, 'v, F, W> {
    type Fault = AuditFault;

    ghost use Rattle.std.specs.Prelude.{◌≡◌, []};
    ghost use Rattle.qa_check.specs.Standing.{by};
    ghost use Rattle.qa_check.specs.Telling.{FailsTelling, Tells};

    ghost covers = { λ begun now ls. ((now.writer.ghost_name ≡ begun.writer.ghost_name)
        × (now.waiting.ghost_name ≡ begun.waiting.ghost_name))
        × Tells F.tells (by J.judges) (W.write_failures begun.writer.now)
        (W.write_failures now.writer.now) (W.held begun.writer.now) (W.held now.writer.now)
        now.waiting.now.items ls };

    ghost fails = { λ begun now ls fault. ((now.writer.ghost_name ≡ begun.writer.ghost_name)
        × (now.waiting.ghost_name ≡ begun.waiting.ghost_name))
        × FailsTelling F.tells (by J.judges) (W.write_failures begun.writer.now)
        (W.write_failures now.writer.now) (W.held begun.writer.now) (W.held now.writer.now)
        now.waiting.now.items ls fault };

    ghost is_flushed = { λ now. now.waiting.now.items ≡ [] };

    fn looks(&self) -> bool {
        true
    }

    fn visit(
        &mut self,
        n: u64,
        _line: &[u8],
        said: &Line,
        judge: Option<&J>,
    ) -> Result<(), AuditFault> {
        let Ok(text) = self.form.row(self.alloc, n, said, judge) else {
            return Err(AuditFault::OutOfMemory);
        };
        match self.waiting.extend_from_slice(&text) {
            Ok(()) => Ok(()),
            Err(_) => Err(AuditFault::OutOfMemory),
        }
    }

    fn flush(&mut self) -> Result<(), AuditFault> {
        match write_whole(self.writer, self.waiting.as_slice()) {
            Ok(()) => {
                self.waiting.clear();
                Ok(())
            }
            Err(fault) => Err(fault),
        }
    }
}
