//! The subcommand `explain`.
ghost use Rattle.std.specs.Prelude.{◌≡◌, ◌⊎◌, ◌∷◌, [], None, Result};
ghost use Rattle.qa_check.specs.Audit.{Reads};
ghost use Rattle.qa_check.specs.Failures.{failures_after};
ghost use Rattle.qa_commands.specs.Checking.{stops};
ghost use Rattle.qa_commands.specs.Ending.{Ends};
ghost use Rattle.qa_commands.specs.Explaining.{Explained, ExplainsFile, Explains};

use crate::ending::{Failure, Origin, end};
use qa_check::{Metered, Outcome, Sink, Source};
use qa_sender::Running;
use std::alloc::Global;
use std::fs;
use std::rt::Files;

/// Writes a row for each line of the file that the machine admits, or of standard input where no
/// file is named, and then the report, and returns the exit status. A failure is told on standard
/// error. Where a file is named, nothing is read from standard input, and else nothing once the
/// verdict is fixed.
pub fn explain<R: Files, I: Source, O: Sink, E: Sink>(
    rt: &R,
    alloc: Global,
    file: Option<&str>,
    input: &mut I,
    output: &mut O,
    error: &mut E,
) -> u8
    ensures ended { (ended : Result Outcome Failure)
        × Explains (I.left input.old) file.entry ended (O.held output.old) (O.held output.new)
        × (O.write_failures output.new
        ≡ failures_after (stops ended) (O.write_failures output.old))
        × Ends (ended ∷ []) result (E.held error.old) (E.held error.new)
        (E.write_failures error.old) (E.write_failures error.new) }
    ensures reads { file.entry ≡ None
        → Reads (I.left input.old) (I.left input.new) (I.last_read input.new) }
    ensures unread { (file.entry ≡ None) ⊎ (input.new ≡ input.old) }
{
    let ended = match file {
        None => explained(alloc, Origin::StandardInput, input, output),
        Some(name) => explain_file(rt, alloc, name, output),
    };
    end(&ended, error)
}

/// Explains the trace of a file.
fn explain_file<'a, R: Files, O: Sink>(
    rt: &R,
    alloc: Global,
    name: &'a str,
    output: &mut O,
) -> Result<Outcome, Failure<'a>>
    ensures written { ExplainsFile name.entry result (O.held output.old) (O.held output.new) }
    ensures failures { O.write_failures output.new
        ≡ failures_after (stops result) (O.write_failures output.old) }
{
    let Ok(file) = fs::open(rt, name) else {
        return Err(Failure::Open(name));
    };
    let mut input = Metered::new(file);
    explained(alloc, Origin::File(name), &mut input, output)
}

/// Explains one trace.
fn explained<'a, I: Source, O: Sink>(
    alloc: Global,
    origin: Origin<'a>,
    input: &mut I,
    output: &mut O,
) -> Result<Outcome, Failure<'a>>
    ensures written { Explained (I.left input.old) origin.entry result (O.held output.old)
        (O.held output.new) }
    ensures reads { Reads (I.left input.old) (I.left input.new) (I.last_read input.new) }
    ensures failures { O.write_failures output.new
        ≡ failures_after (stops result) (O.write_failures output.old) }
{
    match qa_check::explain::<Running, I, O>(alloc, input, output) {
        Ok(outcome) => Ok(outcome),
        Err(fault) => Err(Failure::of_audit(fault, origin)),
    }
}
