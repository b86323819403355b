//! The whole command: what its arguments ask for.
ghost use Rattle.std.specs.Prelude.{◌≡◌, ◌⊎◌, ◌∷◌, true, false, [], List, Result, Err, map, string_bytes};
ghost use Rattle.qa_arguments.specs.Arguments.{asked};
ghost use Rattle.qa_check.specs.Audit.{Reads};
ghost use Rattle.qa_check.specs.Failures.{failures_after};
ghost use Rattle.qa_commands.specs.Checking.{any_stops};
ghost use Rattle.qa_commands.specs.Commands.{Commands, asks_for_input, refusal_of};
ghost use Rattle.qa_commands.specs.Ending.{Ends};

use crate::checking::check;
use crate::ending::{Failure, end};
use crate::explaining::explain;
use qa_arguments::{ArgumentsFault, Subcommand, parse};
use qa_check::{Outcome, Sink, Source};
use std::alloc::Global;
use std::rt::Files;

/// Does what the arguments behind the program's name ask for, and returns the exit status.
///
/// Reports go to the output and the lines of failures to the error stream, whose own failure
/// changes nothing: it gets the beginning of these lines up to where it failed. Files are opened by
/// the runtime. Standard input is read only where the arguments name no file, and not once the
/// verdict is fixed.
pub fn command<R: Files, I: Source, O: Sink, E: Sink>(
    rt: &R,
    alloc: Global,
    arguments: &[String],
    input: &mut I,
    output: &mut O,
    error: &mut E,
) -> u8
    ensures ended { (endings : List (Result Outcome Failure))
        × Commands (map string_bytes arguments.now) (I.left input.old) endings (O.held output.old)
        (O.held output.new)
        × (O.write_failures output.new
        ≡ failures_after (any_stops endings) (O.write_failures output.old))
        × Ends endings result (E.held error.old) (E.held error.new)
        (E.write_failures error.old) (E.write_failures error.new) }
    ensures reads { asks_for_input (asked (map string_bytes arguments.now)) ≡ true
        → (input.new ≡ input.old)
        ⊎ Reads (I.left input.old) (I.left input.new) (I.last_read input.new) }
    ensures unread { asks_for_input (asked (map string_bytes arguments.now)) ≡ false
        → input.new ≡ input.old }
{
    match parse(alloc, arguments) {
        Ok(Subcommand::Check(files)) => check(rt, alloc, files.as_slice(), input, output, error),
        Ok(Subcommand::Explain(file)) => explain(rt, alloc, file, input, output, error),
        Err(fault) => refuse(fault, error),
    }
}

/// Ends where the arguments ask for nothing, or cannot be read: tells it on standard error, and
/// returns the exit status.
pub fn refuse<E: Sink>(fault: ArgumentsFault, error: &mut E) -> u8
    ensures { Ends (Err (refusal_of fault) ∷ []) result (E.held error.old) (E.held error.new)
        (E.write_failures error.old) (E.write_failures error.new) }
{
    let failure = match fault {
        ArgumentsFault::Refused => Failure::Arguments,
        ArgumentsFault::OutOfMemory => Failure::OutOfMemory,
    };
    end(&Err(failure), error)
}
