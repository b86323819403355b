//! What is told before a terminal is read.
ghost use Rattle.std.specs.Prelude.{◌≡◌, IfOk, map, string_bytes};
ghost use Rattle.std.specs.List.{list_any};
ghost use Rattle.qa_arguments.specs.why.Asked.{wanted};
ghost use Rattle.qa_arguments.specs.why.Words.{asked};
ghost use Rattle.qa_why_command.specs.Commands as commands;
ghost use Rattle.qa_why_command.specs.Traces.{is_input, names_of};
ghost use Rattle.qa_why_command.specs.Waiting.{Announces};

use crate::traces::STANDARD_INPUT;
use qa_arguments::why::{Asked, Inquiry, parse};
use qa_check::Sink;
use qa_commands::write_line;
use std::alloc::{AllocError, Global};

/// Says on the error stream that standard input is read, if that is a terminal and the arguments
/// behind the program's name ask for it: somebody may wait for an answer who has to type first.
/// Returns whether they do.
///
/// If it is out of memory it says nothing. A failure of the stream changes nothing.
pub fn announce<E: Sink>(
    alloc: Global,
    arguments: &[String],
    is_terminal: bool,
    error: &mut E,
) -> Result<bool, AllocError>
    ensures { Announces (map string_bytes arguments.now) is_terminal result
        (E.held error.old, E.write_failures error.old)
        (E.held error.new, E.write_failures error.new) }
{
    if !is_terminal || !asks_for_input(alloc, arguments)? {
        return Ok(false);
    }
    let _begun = write_line("qaudit-why: reading standard input", "", error);
    Ok(true)
}

/// Whether standard input is one of the traces that these arguments ask for.
fn asks_for_input(alloc: Global, arguments: &[String]) -> Result<bool, AllocError>
    ensures { IfOk result (λ asks. asks
        ≡ commands.asks_for_input (asked (map string_bytes arguments.now))) }
{
    match parse(alloc, arguments)? {
        Asked::Why(inquiry) => Ok(reads_input(&inquiry)),
        _ => Ok(false),
    }
}

/// Whether standard input is one of the traces.
fn reads_input(inquiry: &Inquiry<'_>) -> bool
    ensures { result ≡ list_any is_input (names_of (wanted inquiry.now).files) }
{
    match inquiry.files.as_slice() {
        [] => true,
        names => has_input(names),
    }
}

/// Whether one of these names stands for standard input.
fn has_input(names: &[&str]) -> bool
    ensures { result ≡ list_any is_input (map (λ name. name.now) names.now) }
{
    for name in names {
        if *name == STANDARD_INPUT {
            return true;
        }
    }
    false
}
