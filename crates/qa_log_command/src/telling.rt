//! The lines on standard error, whose own failure changes nothing.

ghost use Rattle.std.specs.Prelude.{◌≡◌, ◌⊎◌};
ghost use Rattle.qa_log_command.specs.Failing.{ending_of};

use crate::ending::Ending;
use crate::failure::Failure;
use qa_check::Sink;
use qa_commands::write_line;
use qa_logs::Trace;
use std::alloc::{AllocError, Global};
use std::io;

/// What each line begins with, except for notes.
const PROGRAM: &str = "qlog-to-trace: ";

/// Writes a line: the name of the program, and a text in which nothing is hidden.
pub fn tell<E: Sink>(text: &str, error: &mut E) {
    let _begun = write_line(PROGRAM, text, error);
}

/// Writes that memory ran out, at what has this name. Takes no memory.
pub fn tell_no_memory<E: Sink>(name: &str, error: &mut E) -> Ending
    ensures { result ≡ Ending.Failed }
{
    let _begun = write_line("qlog-to-trace: out of memory: ", name, error);
    Ending::Failed
}

/// Writes why the log of this name was not converted whole, unless nobody reads its trace on, which
/// is no mistake.
pub fn tell_failure<E: Sink>(alloc: Global, name: &str, failure: &Failure, error: &mut E) -> Ending
    ensures { (result ≡ Ending.Failed) ⊎ (result ≡ ending_of failure.now) }
{
    if is_closed(failure) {
        return Ending::Failed;
    }
    match failure.text(alloc, name) {
        Ok(text) => {
            tell(text.as_str(), error);
            failure.ending()
        }
        Err(_) => tell_no_memory(name, error),
    }
}

/// Whether standard output was closed at its other end.
fn is_closed(failure: &Failure) -> bool {
    match failure {
        Failure::Write(error) => error.kind() == io::ErrorKind::BrokenPipe,
        Failure::Log(_) => false,
    }
}

/// Writes what of the log of this name is not in its trace, and the notes if they are wanted.
pub fn tell_trace<E: Sink>(
    alloc: Global,
    name: &str,
    trace: &Trace,
    has_notes: bool,
    error: &mut E,
) -> Ending
    ensures { (result ≡ Ending.Failed) ⊎ (result ≡ Ending.Written) }
{
    let told = tell_lines(alloc, name, trace, error);
    let noted = if has_notes {
        tell_notes(trace, error)
    } else {
        Ok(())
    };
    match told.and(noted) {
        Ok(()) => Ending::Written,
        Err(_) => tell_no_memory(name, error),
    }
}

/// Writes what is said in any case.
fn tell_lines<E: Sink>(
    alloc: Global,
    name: &str,
    trace: &Trace,
    error: &mut E,
) -> Result<(), AllocError> {
    for line in trace.told()? {
        let text = format!(in alloc; "{name}: {line}")?;
        tell(text.as_str(), error);
    }
    Ok(())
}

/// Writes each note on a line of its own.
fn tell_notes<E: Sink>(trace: &Trace, error: &mut E) -> Result<(), AllocError> {
    for note in trace.notes()? {
        let _begun = write_line("", note.as_str(), error);
    }
    Ok(())
}
