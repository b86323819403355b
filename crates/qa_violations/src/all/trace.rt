//! From a reader of bytes to all violations of a trace, on a writer.
ghost use Rattle.std.specs.Prelude.{[], ◌≡◌, ◌≢◌, ◌++◌, ℕ, List, false, Some, Err, OnErr, IfOk};
ghost use Rattle.std.specs.Prelude.{take};
ghost use Rattle.std.specs.Io.KnownBytes.{Appends};
ghost use Rattle.qa_violations.specs.all.All.{WritesAll, all_outcome, all_strict, all_written};
ghost use Rattle.qa_violations.specs.all.All.{outcome_with, past_sender_rules, told_by};
ghost use Rattle.qa_violations.specs.all.All.{tolerated_run_in};
ghost use Rattle.qa_violations.specs.all.Keeping.{Covers, CoversListed};
ghost use Rattle.qa_violations.specs.all.Tolerating.{unviolated};
ghost use Rattle.qa_violations.specs.all.Violated.{all_violated, findings};
ghost use Rattle.qa_violations.specs.allowed.Keeping.{CoversWhere};
ghost use Rattle.qa_violations.specs.allowed.Rests.{is_strict};
ghost use Rattle.qa_violations.specs.declared.all.keeping.Kept.{Kept as AKept};
ghost use Rattle.qa_violations.specs.declared.all.listing.Listed.{Listed as AListed};
ghost use Rattle.qa_check.specs.Audit.{ReadsBy, ReadsEnoughBy, is_read_fault, is_write_fault};
ghost use Rattle.qa_check.specs.Failures.{failures_after};
ghost use Rattle.qa_why.specs.Why.{good_lines};
ghost use Rattle.qa_why.specs.caveats.Caveats.{guessed_in};

use crate::all::keeping::Kept;
use crate::all::listing::Listed;
use crate::all::tolerating::Tolerating;
use crate::all::unviolated::Unviolated;
use crate::allowed::{Told, unless_quiet};
use crate::around::Manner;
use qa_check::{AuditFault, Outcome, Sink, Source, write_whole};
use qa_format::{Form, Line};
use qa_ledger::{Explains, Tolerates};
use qa_why::{Both, Notes, Why, find, whole};
use std::alloc::{AllocError, Global};

impl<L: Tolerates + Explains + Drop> Notes<Tolerating<L>> for Listed {
    ghost use Rattle.qa_violations.specs.all.Keeping.{CoversListed};

    ghost covers = { CoversListed };

    fn note(
        &mut self,
        _name: &str,
        n: u64,
        _line: &[u8],
        said: &Line,
        judge: Option<&Tolerating<L>>,
    ) -> Result<(), AllocError> {
        match judge {
            Some(judge) => self.note_said(n, said, judge),
            None => Ok(()),
        }
    }
}

impl<L: Tolerates + Explains + Drop> Notes<Tolerating<L>> for Kept {
    ghost use Rattle.qa_violations.specs.all.Keeping.{Covers};

    ghost covers = { Covers };

    fn note(
        &mut self,
        name: &str,
        n: u64,
        line: &[u8],
        said: &Line,
        judge: Option<&Tolerating<L>>,
    ) -> Result<(), AllocError> {
        match judge {
            Some(judge) => self.note_said(name, n, line, said, judge),
            None => Ok(()),
        }
    }
}

/// Reads a trace and writes its violations of sender rules, the first of each kind with its
/// facts; how it ends past them, unless it is accepted but for them; and a table of all. Behind
/// each violation that is told with its facts, and behind the end, stand the rows of the last good
/// lines before it, up to so many; in an object those before the first violation, or else before
/// the end. What an accepted end rests on stands behind all, with what the header allowed at events
/// that violate nothing; in an object behind the members that tell of the end. Where it is to be
/// quiet, it writes nothing of a trace that is accepted, violates nothing and was allowed nothing.
///
/// A trace that violates a rule is `Outcome::Refused`, or `Outcome::Unreadable` where it ends so.
/// Further notes are taken of the good lines, and handed back with the kind of the verdict;
/// `NoNotes` where none are wanted. It reads up to the line that ends the trace past its
/// violations, and fails where a stream fails, or memory runs out. Beside what `audit` and those
/// notes hold it takes memory for so many rows and for the text alone, which is bounded.
pub fn why_all<L: Tolerates + Explains + Drop, N: Notes<Tolerating<L>> + Drop, R: Source, W: Sink>(
    alloc: Global,
    manner: Manner,
    name: &str,
    notes: N,
    reader: &mut R,
    writer: &mut W,
) -> Result<(Outcome, N), AuditFault>
    requires fresh { N.covers name.now notes notes [] }

    // For a reader that tells its bytes: the text for them was written, the kind of their verdict
    // is returned, and these are notes of their good lines.
    ensures told { (bytes : List ℕ) → R.left reader.old ≡ Some bytes
        → IfOk result (λ told.
        WritesAll (W.held writer.old) (W.held writer.new) manner name.now told.0 bytes
        × N.covers name.now notes told.1 (good_lines past_sender_rules bytes)) }

    // For every reader: what was read decides, since it is all there is, or nothing behind it
    // counts.
    ensures ok { IfOk result (λ told. (bytes : List ℕ)
        × ReadsEnoughBy past_sender_rules (R.left reader.old) (R.left reader.new)
        (R.last_read reader.new) bytes
        × WritesAll (W.held writer.old) (W.held writer.new) manner name.now told.0 bytes
        × N.covers name.now notes told.1 (good_lines past_sender_rules bytes)) }

    // The bytes before the last read did not fix how the trace ends, whatever the result.
    ensures reads { ReadsBy past_sender_rules (R.left reader.old) (R.left reader.new)
        (R.last_read reader.new) }

    // After a failed write the beginning of the text was written, and else nothing.
    ensures beginning { result ≡ Err AuditFault.Write → (bytes : List ℕ) × (n : ℕ)
        × ReadsEnoughBy past_sender_rules (R.left reader.old) (R.left reader.new)
        (R.last_read reader.new) bytes
        × Appends (W.held writer.old) (W.held writer.new)
        (take n (all_written manner name.now bytes)) }
    ensures unwritten { result ≢ Err AuditFault.Write
        → OnErr result (W.held writer.new ≡ W.held writer.old) }

    // A fault of the reader or the writer is returned exactly where it failed, once.
    ensures read_failures { R.read_failures reader.new
        ≡ failures_after (is_read_fault result) (R.read_failures reader.old) }
    ensures write_failures { W.write_failures writer.new
        ≡ failures_after (is_write_fault result) (W.write_failures writer.old) }
{
    let (told, notes) = find_all::<L, N, R>(alloc, manner, name, notes, reader)?;
    let is_strict = told.is_strict;
    let all = whole(alloc, manner.form, name, told.why)?;
    write_whole(
        writer,
        unless_quiet(manner.quiet, all.outcome, is_strict, &all.text),
    )?;
    Ok((all.outcome, notes))
}

/// What is told of all violations of what is read, in a form, and the notes of its good lines.
fn find_all<L: Tolerates + Explains + Drop, N: Notes<Tolerating<L>> + Drop, R: Source>(
    alloc: Global,
    manner: Manner,
    name: &str,
    notes: N,
    reader: &mut R,
) -> Result<(Told, N), AuditFault>
    requires fresh { N.covers name.now notes notes [] }
    ensures told { IfOk result (λ told. (bytes : List ℕ)
        × ReadsEnoughBy past_sender_rules (R.left reader.old) (R.left reader.new)
        (R.last_read reader.new) bytes
        × (told.0.why.text.items ≡ told_by manner.around manner.form name.now bytes)
        × (told.0.why.outcome ≡ all_outcome bytes) × (told.0.is_strict ≡ all_strict bytes)
        × N.covers name.now notes told.1 (good_lines past_sender_rules bytes)) }
    ensures reads { ReadsBy past_sender_rules (R.left reader.old) (R.left reader.new)
        (R.last_read reader.new) }
    ensures read_failures { R.read_failures reader.new
        ≡ failures_after (is_read_fault result) (R.read_failures reader.old) }
    ensures written { is_write_fault result ≡ false }
{
    match manner.form {
        Form::Text => find_texts::<L, N, R>(alloc, manner.around, name, notes, reader),
        Form::Json => find_members::<L, N, R>(alloc, manner.around, name, notes, reader),
    }
}

/// The text of all violations of what is read.
fn find_texts<L: Tolerates + Explains + Drop, N: Notes<Tolerating<L>> + Drop, R: Source>(
    alloc: Global,
    around: u16,
    name: &str,
    notes: N,
    reader: &mut R,
) -> Result<(Told, N), AuditFault>
    requires fresh { N.covers name.now notes notes [] }
    ensures told { IfOk result (λ told. (bytes : List ℕ)
        × ReadsEnoughBy past_sender_rules (R.left reader.old) (R.left reader.new)
        (R.last_read reader.new) bytes
        × (told.0.why.text.items ≡ told_by around Form.Text name.now bytes)
        × (told.0.why.outcome ≡ all_outcome bytes) × (told.0.is_strict ≡ all_strict bytes)
        × N.covers name.now notes told.1 (good_lines past_sender_rules bytes)) }
    ensures reads { ReadsBy past_sender_rules (R.left reader.old) (R.left reader.new)
        (R.last_read reader.new) }
    ensures read_failures { R.read_failures reader.new
        ≡ failures_after (is_read_fault result) (R.read_failures reader.old) }
    ensures written { is_write_fault result ≡ false }
{
    let mut both = Both {
        first: Both {
            first: Kept::new(alloc, around),
            second: Unviolated::new(),
        },
        second: notes,
    };
    let end = find::<Tolerating<L>, Both<Both<Kept, Unviolated>, N>, R>(
        alloc,
        Form::Text,
        name,
        reader,
        &mut both,
    )?;
    let Both { first, second } = both;
    match finish_text(alloc, name, first, end) {
        Ok(told) => Ok((told, second)),
        Err(_) => Err(AuditFault::OutOfMemory),
    }
}

/// The members of an object that tell of all violations of what is read.
fn find_members<L: Tolerates + Explains + Drop, N: Notes<Tolerating<L>> + Drop, R: Source>(
    alloc: Global,
    around: u16,
    name: &str,
    notes: N,
    reader: &mut R,
) -> Result<(Told, N), AuditFault>
    requires fresh { N.covers name.now notes notes [] }
    ensures told { IfOk result (λ told. (bytes : List ℕ)
        × ReadsEnoughBy past_sender_rules (R.left reader.old) (R.left reader.new)
        (R.last_read reader.new) bytes
        × (told.0.why.text.items ≡ told_by around Form.Json name.now bytes)
        × (told.0.why.outcome ≡ all_outcome bytes) × (told.0.is_strict ≡ all_strict bytes)
        × N.covers name.now notes told.1 (good_lines past_sender_rules bytes)) }
    ensures reads { ReadsBy past_sender_rules (R.left reader.old) (R.left reader.new)
        (R.last_read reader.new) }
    ensures read_failures { R.read_failures reader.new
        ≡ failures_after (is_read_fault result) (R.read_failures reader.old) }
    ensures written { is_write_fault result ≡ false }
{
    let mut both = Both {
        first: Both {
            first: Listed::new(alloc, around),
            second: Unviolated::new(),
        },
        second: notes,
    };
    let end = find::<Tolerating<L>, Both<Both<Listed, Unviolated>, N>, R>(
        alloc,
        Form::Json,
        name,
        reader,
        &mut both,
    )?;
    let Both { first, second } = both;
    match finish_members(alloc, first, end) {
        Ok(told) => Ok((told, second)),
        Err(_) => Err(AuditFault::OutOfMemory),
    }
}

/// The text of all violations, and what an accepted end rests on behind it.
fn finish_text(
    alloc: Global,
    name: &str,
    kept: Both<Kept, Unviolated>,
    end: Why,
) -> Result<Told, AllocError>
    ensures { IfOk result (λ told. (begun : AKept) (ls : List (List ℕ))
        → Covers name.now begun kept.first ls → CoversWhere unviolated kept.second.allowances ls
        → end.guessed ≡ guessed_in ls
        → (told.why.text.items ≡ tolerated_run_in begun.latest.count Form.Text name.now ls
        end.outcome end.text.items)
        × (told.why.outcome ≡ outcome_with (findings (all_violated ls)) end.outcome)
        × (told.is_strict ≡ is_strict unviolated ls)) }
{
    let Both { first, second } = kept;
    let (outcome, guessed) = (end.outcome, end.guessed);
    let mut why = first.finish(name, end)?;
    second
        .allowances
        .push_behind(alloc, Form::Text, outcome, guessed, &mut why.text)?;
    Ok(Told {
        why,
        is_strict: second.allowances.is_strict(),
    })
}

/// The members that tell of all violations, with what an accepted end rests on behind those that
/// tell of it.
fn finish_members(
    alloc: Global,
    kept: Both<Listed, Unviolated>,
    mut end: Why,
) -> Result<Told, AllocError>
    ensures { IfOk result (λ told. (name : List ℕ) (begun : AListed) (ls : List (List ℕ))
        → CoversListed name begun kept.first ls
        → CoversWhere unviolated kept.second.allowances ls → end.guessed ≡ guessed_in ls
        → (told.why.text.items ≡ tolerated_run_in begun.latest.count Form.Json name ls
        end.outcome end.text.items)
        × (told.why.outcome ≡ outcome_with (findings (all_violated ls)) end.outcome)
        × (told.is_strict ≡ is_strict unviolated ls)) }
{
    let Both { first, second } = kept;
    second
        .allowances
        .push_behind(alloc, Form::Json, end.outcome, end.guessed, &mut end.text)?;
    let why = first.finish(end)?;
    Ok(Told {
        why,
        is_strict: second.allowances.is_strict(),
    })
}
