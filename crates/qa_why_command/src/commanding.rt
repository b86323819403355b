//! The whole command: what its arguments ask for.
ghost use Rattle.std.specs.Prelude.{◌≡◌, false, map, string_bytes, IfOk};
ghost use Rattle.std.specs.Str.Lossy.{utf8_lossy};
ghost use Rattle.qa_arguments.specs.why.Words.{asked};
ghost use Rattle.qa_check.specs.names.Names.{shown_name};
ghost use Rattle.qa_why_command.specs.Commands.{Commands, IsRefused, Shows, asks_for_input};
ghost use Rattle.qa_why_command.specs.Streams.{streams};

use crate::ending::Failure;
use crate::traces::tell;
use qa_arguments::ArgumentsFault;
use qa_arguments::why::{Asked, parse};
use qa_check::{AuditFault, Sink, Source, shown_name, write_whole};
use qa_commands::{write_line, write_lines};
use std::alloc::{AllocError, Global};
use std::rt::Files;

/// The exit status where the arguments are refused.
const USAGE: u8 = 64;

/// The exit status where a stream failed, or it is out of memory.
const FAILED: u8 = 3;

/// Does what the arguments behind the program's name ask for, and returns the exit status.
///
/// What is told goes to the output, and the lines of failures to the error stream, whose own
/// failure changes nothing. Standard input is read where no file is named, and where one is named
/// `-`.
pub fn command<R: Files, I: Source, O: Sink, E: Sink>(
    rt: &R,
    alloc: Global,
    arguments: &[String],
    input: &mut I,
    output: &mut O,
    error: &mut E,
) -> u8
    ensures told { Commands (map string_bytes arguments.now) result
        (streams (I.left input.old, I.last_read input.old, I.read_failures input.old)
        (O.held output.old, O.write_failures output.old)
        (E.held error.old, E.write_failures error.old))
        (streams (I.left input.new, I.last_read input.new, I.read_failures input.new)
        (O.held output.new, O.write_failures output.new)
        (E.held error.new, E.write_failures error.new)) }
    ensures unread { asks_for_input (asked (map string_bytes arguments.now)) ≡ false
        → input.new ≡ input.old }
{
    match parse(alloc, arguments) {
        Ok(Asked::Why(inquiry)) => tell(rt, alloc, &inquiry, input, output, error),
        Ok(Asked::Text(text)) => show(text.as_str(), output, error),
        Ok(Asked::Nothing(text)) => {
            let text = refusal(alloc, arguments, text);
            let _begun = write_lines(text.as_str(), error);
            USAGE
        }
        Err(_) => {
            Failure::Audit(AuditFault::OutOfMemory).tell("arguments", error);
            FAILED
        }
    }
}

/// What is wrong with arguments that are refused, each of which is named as the name of a file is
/// shown, so that none can fake a line; or this text, where there is no memory for that.
fn refusal(alloc: Global, arguments: &[String], text: String) -> String {
    match refusal_of_shown(alloc, arguments) {
        Ok(Some(shown)) => shown,
        Ok(None) | Err(_) => text,
    }
}

/// What is wrong with the arguments as they are shown, which mean nothing where they did not.
fn refusal_of_shown(alloc: Global, arguments: &[String]) -> Result<Option<String>, AllocError> {
    let mut shown = Vec::new(alloc);
    for argument in arguments {
        shown.push(shown_argument(alloc, argument.as_str())?)?;
    }
    let asked = parse(alloc, &shown)?;
    match asked {
        Asked::Nothing(text) => Ok(Some(text)),
        Asked::Why(_) | Asked::Text(_) => Ok(None),
    }
}

fn shown_argument(alloc: Global, argument: &str) -> Result<String, AllocError>
    ensures { IfOk result (λ shown. string_bytes shown ≡ utf8_lossy (shown_name argument.now)) }
{
    String::from_utf8_lossy(alloc, &shown_name(alloc, argument)?)
}

/// Ends where the arguments cannot be read: tells it on standard error, and returns the exit
/// status.
pub fn refuse<E: Sink>(fault: ArgumentsFault, error: &mut E) -> u8
    ensures { IsRefused fault result (E.held error.old, E.write_failures error.old)
        (E.held error.new, E.write_failures error.new) }
{
    match fault {
        ArgumentsFault::Refused => {
            let _begun = write_line("qaudit-why: an argument is not UTF-8", "", error);
            USAGE
        }
        ArgumentsFault::OutOfMemory => {
            Failure::Audit(AuditFault::OutOfMemory).tell("arguments", error);
            FAILED
        }
    }
}

/// Writes the help or the version.
fn show<O: Sink, E: Sink>(text: &str, output: &mut O, error: &mut E) -> u8
    ensures { Shows text.now result
        (O.held output.old, O.write_failures output.old)
        (O.held output.new, O.write_failures output.new)
        (E.held error.old, E.write_failures error.old)
        (E.held error.new, E.write_failures error.new) }
{
    match write_whole(output, text.as_bytes()) {
        Ok(()) => 0,
        Err(fault) => {
            Failure::Audit(fault).tell("standard output", error);
            FAILED
        }
    }
}
