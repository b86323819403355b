//! From a reader of bytes to why they are refused and what stands before, on a writer.
ghost use Rattle.std.specs.Prelude.{[], ◌≡◌, ◌≢◌, ◌++◌, ℕ, List, false, Some, Err, OnErr, IfOk};
ghost use Rattle.std.specs.Prelude.{take};
ghost use Rattle.std.specs.Io.KnownBytes.{Appends};
ghost use Rattle.qa_violations.specs.around.Around.{TellsAround, WritesAround, around_written};
ghost use Rattle.qa_violations.specs.allowed.Keeping.{CoversWhere};
ghost use Rattle.qa_violations.specs.allowed.Lines.{each};
ghost use Rattle.qa_violations.specs.allowed.Rests.{is_strict, rest_behind};
ghost use Rattle.qa_violations.specs.around.Around.{objects_behind, rows_behind};
ghost use Rattle.qa_violations.specs.around.Keeping.{Keeps, KeepsObjects};
ghost use Rattle.qa_violations.specs.around.Rows.{objects, rows};
ghost use Rattle.qa_check.specs.Audit.{Reads, ReadsEnough, is_read_fault, is_write_fault};
ghost use Rattle.qa_check.specs.Failures.{failures_after};
ghost use Rattle.qa_format.specs.format.Reading.{reading};
ghost use Rattle.qa_format.specs.verdicts.Verdict.{strict};
ghost use Rattle.qa_why.specs.Why.{good_lines};
ghost use Rattle.qa_why.specs.caveats.Caveats.{guessed_in};

use crate::allowed::{Allowances, Told, unless_quiet};
use crate::around::latest::Latest;
use crate::around::manner::Manner;
use crate::around::objects::LatestObjects;
use qa_check::{AuditFault, Outcome, Sink, Source, write_whole};
use qa_format::{Form, Line};
use qa_ledger::Explains;
use qa_why::{Both, Notes, Why, find, whole};
use std::alloc::{AllocError, Global};

impl<L: Explains + Drop> Notes<L> for Latest {
    ghost use Rattle.qa_violations.specs.around.Keeping.{Covers};

    ghost covers = { Covers };

    #[inline(always)]
    fn note(
        &mut self,
        _name: &str,
        n: u64,
        _line: &[u8],
        said: &Line,
        judge: Option<&L>,
    ) -> Result<(), AllocError> {
        match judge {
            Some(judge) => self.note_said(n, said, judge),
            None => Ok(()),
        }
    }
}

impl<L: Explains + Drop> Notes<L> for LatestObjects {
    ghost use Rattle.qa_violations.specs.around.Keeping.{CoversObjects};

    ghost covers = { CoversObjects };

    fn note(
        &mut self,
        _name: &str,
        n: u64,
        _line: &[u8],
        said: &Line,
        judge: Option<&L>,
    ) -> Result<(), AllocError> {
        match judge {
            Some(judge) => self.note_said(n, said, judge),
            None => Ok(()),
        }
    }
}

impl<L: Explains + Drop> Notes<L> for Allowances {
    ghost use Rattle.qa_violations.specs.allowed.Keeping.{Covers};

    ghost covers = { Covers };

    #[inline(always)]
    fn note(
        &mut self,
        _name: &str,
        n: u64,
        _line: &[u8],
        said: &Line,
        judge: Option<&L>,
    ) -> Result<(), AllocError> {
        match judge {
            Some(judge) => self.note_said(n, said, true, judge),
            None => (),
        }
        Ok(())
    }
}

/// Reads a trace and writes why it is refused or cannot be read, or that it is accepted and what
/// that rests on, with the rows of the last good lines before, up to so many: behind a text, and
/// none of an accepted trace; or as the member `around` behind those of an object, with an empty
/// list of an accepted trace, and no such member where no rows are asked for. Where it is to be
/// quiet, it writes nothing of an accepted trace at which the header allowed nothing.
///
/// Further notes are taken of the good lines, and handed back with the kind of the verdict;
/// `NoNotes` where none are wanted. It reads what `audit` reads, and fails where that fails, or the
/// notes. Beside what `audit` holds it takes memory for so many rows, and for the text once the
/// verdict is fixed.
pub fn why_around<L: Explains + Drop, N: Notes<L> + Drop, R: Source, W: Sink>(
    alloc: Global,
    manner: Manner,
    name: &str,
    notes: N,
    reader: &mut R,
    writer: &mut W,
) -> Result<(Outcome, N), AuditFault>
    requires fresh { N.covers name.now notes notes [] }

    // For a reader that tells its bytes: the text for them was written, the kind of their verdict
    // is returned, and these are notes of their good lines.
    ensures told { (bytes : List ℕ) → R.left reader.old ≡ Some bytes
        → IfOk result (λ told.
        WritesAround (W.held writer.old) (W.held writer.new) manner name.now told.0 bytes
        × N.covers name.now notes told.1 (good_lines (strict reading) bytes)) }

    // For every reader: what was read decides, since it is all there is, or nothing behind it
    // counts.
    ensures ok { IfOk result (λ told. (bytes : List ℕ)
        × ReadsEnough (R.left reader.old) (R.left reader.new) (R.last_read reader.new) bytes
        × WritesAround (W.held writer.old) (W.held writer.new) manner name.now told.0 bytes
        × N.covers name.now notes told.1 (good_lines (strict reading) bytes)) }

    // The bytes before the last read did not fix the verdict, whatever the result.
    ensures reads { Reads (R.left reader.old) (R.left reader.new) (R.last_read reader.new) }

    // After a failed write the beginning of the text was written, and else nothing.
    ensures beginning { result ≡ Err AuditFault.Write → (bytes : List ℕ) × (n : ℕ)
        × ReadsEnough (R.left reader.old) (R.left reader.new) (R.last_read reader.new) bytes
        × Appends (W.held writer.old) (W.held writer.new)
        (take n (around_written manner name.now bytes)) }
    ensures unwritten { result ≢ Err AuditFault.Write
        → OnErr result (W.held writer.new ≡ W.held writer.old) }

    // A fault of the reader or the writer is returned exactly where it failed, once.
    ensures read_failures { R.read_failures reader.new
        ≡ failures_after (is_read_fault result) (R.read_failures reader.old) }
    ensures write_failures { W.write_failures writer.new
        ≡ failures_after (is_write_fault result) (W.write_failures writer.old) }
{
    let (told, notes) = find_around::<L, N, R>(alloc, manner, name, notes, reader)?;
    let is_strict = told.is_strict;
    let why = whole(alloc, manner.form, name, told.why)?;
    write_whole(
        writer,
        unless_quiet(manner.quiet, why.outcome, is_strict, &why.text),
    )?;
    Ok((why.outcome, notes))
}

/// What is told of what is read, in a form, with the rows before, and the notes of its good lines.
fn find_around<L: Explains + Drop, N: Notes<L> + Drop, R: Source>(
    alloc: Global,
    manner: Manner,
    name: &str,
    notes: N,
    reader: &mut R,
) -> Result<(Told, N), AuditFault>
    requires fresh { N.covers name.now notes notes [] }
    ensures told { IfOk result (λ told. (bytes : List ℕ)
        × ReadsEnough (R.left reader.old) (R.left reader.new) (R.last_read reader.new) bytes
        × TellsAround manner.around manner.form name.now told.0 bytes
        × N.covers name.now notes told.1 (good_lines (strict reading) bytes)) }
    ensures reads { Reads (R.left reader.old) (R.left reader.new) (R.last_read reader.new) }
    ensures read_failures { R.read_failures reader.new
        ≡ failures_after (is_read_fault result) (R.read_failures reader.old) }
    ensures written { is_write_fault result ≡ false }
{
    match manner.form {
        Form::Text => find_text::<L, N, R>(alloc, manner.around, name, notes, reader),
        Form::Json => find_members::<L, N, R>(alloc, manner.around, name, notes, reader),
    }
}

/// The text of what is read, with the rows before.
fn find_text<L: Explains + Drop, N: Notes<L> + Drop, R: Source>(
    alloc: Global,
    around: u16,
    name: &str,
    notes: N,
    reader: &mut R,
) -> Result<(Told, N), AuditFault>
    requires fresh { N.covers name.now notes notes [] }
    ensures told { IfOk result (λ told. (bytes : List ℕ)
        × ReadsEnough (R.left reader.old) (R.left reader.new) (R.last_read reader.new) bytes
        × TellsAround around Form.Text name.now told.0 bytes
        × N.covers name.now notes told.1 (good_lines (strict reading) bytes)) }
    ensures reads { Reads (R.left reader.old) (R.left reader.new) (R.last_read reader.new) }
    ensures read_failures { R.read_failures reader.new
        ≡ failures_after (is_read_fault result) (R.read_failures reader.old) }
    ensures written { is_write_fault result ≡ false }
{
    let mut both = Both {
        first: Both {
            first: Latest::new(alloc, around),
            second: Allowances::new(),
        },
        second: notes,
    };
    let why = find::<L, Both<Both<Latest, Allowances>, N>, R>(
        alloc,
        Form::Text,
        name,
        reader,
        &mut both,
    )?;
    let Both { first, second } = both;
    match with_rows(alloc, why, &first.first, &first.second) {
        Ok(told) => Ok((told, second)),
        Err(_) => Err(AuditFault::OutOfMemory),
    }
}

/// The members of an object that tell of what is read, with the rows before.
fn find_members<L: Explains + Drop, N: Notes<L> + Drop, R: Source>(
    alloc: Global,
    around: u16,
    name: &str,
    notes: N,
    reader: &mut R,
) -> Result<(Told, N), AuditFault>
    requires fresh { N.covers name.now notes notes [] }
    ensures told { IfOk result (λ told. (bytes : List ℕ)
        × ReadsEnough (R.left reader.old) (R.left reader.new) (R.last_read reader.new) bytes
        × TellsAround around Form.Json name.now told.0 bytes
        × N.covers name.now notes told.1 (good_lines (strict reading) bytes)) }
    ensures reads { Reads (R.left reader.old) (R.left reader.new) (R.last_read reader.new) }
    ensures read_failures { R.read_failures reader.new
        ≡ failures_after (is_read_fault result) (R.read_failures reader.old) }
    ensures written { is_write_fault result ≡ false }
{
    let mut both = Both {
        first: Both {
            first: LatestObjects::new(alloc, around),
            second: Allowances::new(),
        },
        second: notes,
    };
    let why = find::<L, Both<Both<LatestObjects, Allowances>, N>, R>(
        alloc,
        Form::Json,
        name,
        reader,
        &mut both,
    )?;
    let Both { first, second } = both;
    match with_objects(alloc, why, &first.first, &first.second) {
        Ok(told) => Ok((told, second)),
        Err(_) => Err(AuditFault::OutOfMemory),
    }
}

/// The text with what an accepted verdict rests on behind it, or with the rows of another.
fn with_rows(
    alloc: Global,
    mut why: Why,
    latest: &Latest,
    allowances: &Allowances,
) -> Result<Told, AllocError>
    ensures { IfOk result (λ told. (ls : List (List ℕ)) → Keeps latest.now (rows ls)
        → CoversWhere each allowances.now ls → why.guessed ≡ guessed_in ls
        → (told.why.text.items ≡ why.text.items ++ rest_behind each Form.Text why.outcome ls
        ++ rows_behind why.outcome latest.now.count ls)
        × (told.why.outcome ≡ why.outcome) × (told.is_strict ≡ is_strict each ls)) }
{
    allowances.push_behind(alloc, Form::Text, why.outcome, why.guessed, &mut why.text)?;
    latest.push_behind(why.outcome, &mut why.text)?;
    Ok(Told {
        why,
        is_strict: allowances.is_strict(),
    })
}

/// The members with what an accepted verdict rests on, and with the rows as the next.
fn with_objects(
    alloc: Global,
    mut why: Why,
    latest: &LatestObjects,
    allowances: &Allowances,
) -> Result<Told, AllocError>
    ensures { IfOk result (λ told. (ls : List (List ℕ)) → KeepsObjects latest.now (objects ls)
        → CoversWhere each allowances.now ls → why.guessed ≡ guessed_in ls
        → (told.why.text.items ≡ why.text.items ++ rest_behind each Form.Json why.outcome ls
        ++ objects_behind why.outcome latest.now.count ls)
        × (told.why.outcome ≡ why.outcome) × (told.is_strict ≡ is_strict each ls)) }
{
    allowances.push_behind(alloc, Form::Json, why.outcome, why.guessed, &mut why.text)?;
    latest.push_behind(why.outcome, &mut why.text)?;
    Ok(Told {
        why,
        is_strict: allowances.is_strict(),
    })
}
