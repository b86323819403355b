//! From a reader of bytes to what is told of them.
ghost use Rattle.std.specs.Prelude.{[], ◌≡◌, ℕ, List, false};
ghost use Rattle.std.specs.Prelude.{IfOk};
ghost use Rattle.qa_check.specs.Audit.{ReadsBy, ReadsEnoughBy, is_read_fault, is_write_fault};
ghost use Rattle.qa_check.specs.Failures.{failures_after};
ghost use Rattle.qa_check.specs.Standing.{by};
ghost use Rattle.qa_why.specs.Noting.{TellsNoted};
ghost use Rattle.qa_why.specs.Why as defined;

use crate::causes::{Why, why_of};
use crate::caveats::Caveats;
use crate::notes::Notes;
use crate::reasons::Reasons;
use qa_check::{AuditFault, Judge, Outcome, Source, Visitor, memory_or_read, walk};
use qa_format::{Form, Line};
use std::alloc::{AllocError, Global};

/// The text; where it is to be quiet, nothing of an accepted trace.
pub fn unless_accepted(quiet: bool, outcome: Outcome, text: &[u8]) -> &[u8]
    ensures { result.now ≡ defined.unless_accepted quiet outcome text.now }
{
    match outcome {
        Outcome::Accepted if quiet => &[],
        _ => text,
    }
}

/// What is told of what is read, by the judge of its events, with notes of its good lines: a text,
/// or the members of an object.
///
/// It reads pieces of at most 4,096 bytes, and none once the verdict was fixed by those before.
/// `AuditFault::Read` comes where a read fails, and `AuditFault::OutOfMemory` where it is out of
/// memory.
pub fn find<J: Reasons + Drop, N: Notes<J>, R: Source>(
    alloc: Global,
    form: Form,
    name: &str,
    reader: &mut R,
    notes: &mut N,
) -> Result<Why, AuditFault>
    requires fresh { N.covers name.now notes.old notes.old [] }
    ensures told { IfOk result (λ why. (bytes : List ℕ)
        × ReadsEnoughBy (by J.judges) (R.left reader.old) (R.left reader.new)
        (R.last_read reader.new) bytes
        × TellsNoted (by J.judges)
        (N.covers name.now notes.old) form name.now why notes.new bytes) }
    ensures reads { ReadsBy (by J.judges) (R.left reader.old) (R.left reader.new)
        (R.last_read reader.new) }
    ensures read_failures { R.read_failures reader.new
        ≡ failures_after (is_read_fault result) (R.read_failures reader.old) }
    ensures written { is_write_fault result ≡ false }
{
    let mut caveats = Caveats::new(alloc);
    let mut noting = Noting {
        name,
        caveats: &mut caveats,
        notes,
    };
    match walk::<J, Noting<'_, '_, N>, R>(alloc, true, reader, &mut noting) {
        Ok(ended) => why_of(alloc, form, name, &ended, &caveats),
        Err(fault) => Err(memory_or_read(fault)),
    }
}

/// A visitor that takes notes of the lines of a trace of this name, and keeps its caveats.
#[derive(Drop)]
struct Noting<'n, 'm, N> {
    name: &'n str,
    caveats: &'m mut Caveats,
    notes: &'m mut N,
}

impl<'n, 'm, J: Judge, N: Notes<J>> Visitor<J> for Noting<'n, 'm, N> {
    type Fault = AllocError;

    ghost use Rattle.qa_why.specs.caveats.Caveats.{AreCaveats};
    ghost use Rattle.std.specs.Prelude.{[]};

    ghost covers = { λ begun now ls. (now.notes.ghost_name ≡ begun.notes.ghost_name)
        × (now.name ≡ begun.name)
        × (now.caveats.ghost_name ≡ begun.caveats.ghost_name)
        × (AreCaveats begun.caveats.now [] → AreCaveats now.caveats.now ls)
        × N.covers begun.name.now begun.notes.now now.notes.now ls };

    ghost fails = { λ begun now ls fault. (now.notes.ghost_name ≡ begun.notes.ghost_name)
        × (now.caveats.ghost_name ≡ begun.caveats.ghost_name) };

    ghost is_flushed = { λ now. Unit {0} };

    fn looks(&self) -> bool {
        true
    }

    fn visit(
        &mut self,
        n: u64,
        line: &[u8],
        said: &Line,
        judge: Option<&J>,
    ) -> Result<(), AllocError> {
        self.caveats.note_line(n, line, said)?;
        self.notes.note(self.name, n, line, said, judge)
    }

    fn flush(&mut self) -> Result<(), AllocError> {
        Ok(())
    }
}
