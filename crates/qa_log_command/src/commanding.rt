//! The whole command: what its arguments ask for.

ghost use Rattle.std.specs.Prelude.{◌≡◌, ◌≢◌, Bool};
ghost use Rattle.qa_log_command.specs.Ending.{status_of};
ghost use Rattle.qa_log_command.specs.Written.{Leaves, WritesLines};

use crate::asking::Conversion;
use crate::converting::convert;
use crate::ending::Ending;
use crate::failure::Failure;
use crate::output::write_text;
use crate::telling::{tell, tell_failure, tell_no_memory, tell_trace};
use qa_arguments::ArgumentsFault;
use qa_arguments::qlog::{Asked, ConversionRequest, parse};
use qa_check::{Sink, Source, shown_name};
use qa_commands::write_lines;
use std::alloc::{AllocError, Global};
use std::rt::Files;

/// What messages call the input.
const STANDARD_INPUT: &str = "standard input";

/// What messages call the arguments.
const ARGUMENTS: &str = "arguments";

/// The streams of the program.
#[derive(Drop)]
pub struct Streams<I, O, E> {
    /// What is read if no file is named.
    pub input: I,
    /// Whether the input is a terminal, and so waits for somebody to type.
    pub is_terminal: bool,
    /// What the trace goes to, or the help, or the version.
    pub output: O,
    /// What messages go to. Its failure changes nothing.
    pub error: E,
}

/// Does what the arguments after the program's name ask for, and returns the exit status, that of
/// an `Ending`.
pub fn command<R: Files, I: Source, O: Sink, E: Sink>(
    rt: &R,
    alloc: Global,
    arguments: &[String],
    streams: &mut Streams<I, O, E>,
) -> u8
    // What was written to the output is by how the program ends.
    ensures written { (ending : Ending) × (result ≡ status_of ending) × Leaves ending
        (O.held streams.old.output, O.write_failures streams.old.output)
        (O.held streams.new.output, O.write_failures streams.new.output) }
    // Nothing is read if the arguments are refused.
    ensures unread { result ≡ 64 → streams.new.input ≡ streams.old.input }
{
    perform(rt, alloc, arguments, streams).status()
}

/// Does what the arguments ask for.
fn perform<R: Files, I: Source, O: Sink, E: Sink>(
    rt: &R,
    alloc: Global,
    arguments: &[String],
    streams: &mut Streams<I, O, E>,
) -> Ending
    ensures written { Leaves result
        (O.held streams.old.output, O.write_failures streams.old.output)
        (O.held streams.new.output, O.write_failures streams.new.output) }
    ensures unread { result ≡ Ending.Refused → streams.new.input ≡ streams.old.input }
{
    match parse(alloc, arguments) {
        Ok(Asked::Trace(asked)) => write_trace(rt, alloc, &asked, streams),
        Ok(Asked::Text(text)) => show(alloc, text.as_str(), streams),
        Ok(Asked::Nothing(text)) => {
            let text = refusal(alloc, arguments, text);
            let _begun = write_lines(text.as_str(), &mut streams.error);
            Ending::Refused
        }
        Err(_) => tell_no_memory(ARGUMENTS, &mut streams.error),
    }
}

/// Writes the trace of a log, and what is said of it.
fn write_trace<R: Files, I: Source, O: Sink, E: Sink>(
    rt: &R,
    alloc: Global,
    asked: &ConversionRequest<'_>,
    streams: &mut Streams<I, O, E>,
) -> Ending
    ensures written { Leaves result
        (O.held streams.old.output, O.write_failures streams.old.output)
        (O.held streams.new.output, O.write_failures streams.new.output) }
    ensures lines { (failed : Bool) × WritesLines failed
        (O.held streams.old.output, O.write_failures streams.old.output)
        (O.held streams.new.output, O.write_failures streams.new.output) }
    ensures taken { result ≢ Ending.Refused }
{
    announce(asked.file, streams.is_terminal, &mut streams.error);
    let name = asked.file.unwrap_or(STANDARD_INPUT);
    let conversion = Conversion::of(asked);
    match convert(
        rt,
        alloc,
        &conversion,
        &mut streams.input,
        &mut streams.output,
    ) {
        Ok(trace) => tell_trace(alloc, name, &trace, asked.has_notes, &mut streams.error),
        Err(failure) => tell_failure(alloc, name, &failure, &mut streams.error),
    }
}

/// Says that a terminal is read, which waits for somebody to type.
fn announce<E: Sink>(file: Option<&str>, is_terminal: bool, error: &mut E) {
    if file.is_none() && is_terminal {
        tell("reading standard input", error);
    }
}

/// Writes the help or the version.
fn show<I: Source, O: Sink, E: Sink>(
    alloc: Global,
    text: &str,
    streams: &mut Streams<I, O, E>,
) -> Ending
    ensures written { Leaves result
        (O.held streams.old.output, O.write_failures streams.old.output)
        (O.held streams.new.output, O.write_failures streams.new.output) }
    ensures unread { streams.new.input ≡ streams.old.input }
{
    match write_text(&mut streams.output, text.as_bytes()) {
        Ok(()) => Ending::Written,
        Err(error) => {
            let failure = Failure::Write(error);
            tell_failure(alloc, ARGUMENTS, &failure, &mut streams.error)
        }
    }
}

/// What is wrong with arguments that are refused, each of which is named as the name of a file is
/// shown, so that none can fake a line; or this text, if there is no memory for that.
fn refusal(alloc: Global, arguments: &[String], text: String) -> String {
    match refusal_of_shown(alloc, arguments) {
        Ok(Some(shown)) => shown,
        Ok(None) | Err(_) => text,
    }
}

/// What is wrong with the arguments as they are shown, which ask for nothing if they did not.
fn refusal_of_shown(alloc: Global, arguments: &[String]) -> Result<Option<String>, AllocError> {
    let mut shown = Vec::new(alloc);
    for argument in arguments {
        shown.push(shown_argument(alloc, argument.as_str())?)?;
    }
    let asked = parse(alloc, &shown)?;
    match asked {
        Asked::Nothing(text) => Ok(Some(text)),
        Asked::Trace(_) | Asked::Text(_) => Ok(None),
    }
}

fn shown_argument(alloc: Global, argument: &str) -> Result<String, AllocError> {
    String::from_utf8_lossy(alloc, &shown_name(alloc, argument)?)
}

/// Ends if the arguments cannot be read: says so on standard error, and returns the exit status.
pub fn refuse<E: Sink>(fault: ArgumentsFault, error: &mut E) -> u8 {
    let ending = match fault {
        ArgumentsFault::Refused => {
            tell("an argument is not UTF-8", error);
            Ending::Refused
        }
        ArgumentsFault::OutOfMemory => tell_no_memory(ARGUMENTS, error),
    };
    ending.status()
}
