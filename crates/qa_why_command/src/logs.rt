//! What is told of a log: of the trace that is made of it as it is read.
ghost use Rattle.std.specs.Prelude.{◌≡◌, false, Err};
ghost use Rattle.qa_arguments.specs.why.Asked.{wanted};
ghost use Rattle.qa_why_command.specs.Ending.{stops};
ghost use Rattle.qa_why_command.specs.Logs.{EndsLog, TellsLog, TellsTraceOf};
ghost use Rattle.qa_why_command.specs.Streams.{Input, streams};

use crate::ending::Failure;
use crate::telling::tell_read;
use qa_arguments::why::Inquiry;
use qa_check::{AuditFault, Metered, Outcome, Sink};
use qa_commands::write_line;
use qa_convert::{Choices, Format};
use qa_log_lines::{Bytes, Interruption, Lines, LogFailure, TraceReader, lines_of};
use qa_logs::{Request, Trace};
use std::alloc::{AllocError, Global};
use std::io::Read;
use std::rt::Files;

/// What each line on the error stream begins with.
const PROGRAM: &str = "qaudit-why: ";

/// Tells of the trace of the log of this name, in which each line says where in the log it is from;
/// and on the error stream what of the log is not in it, or why there is no verdict.
pub fn tell_log<R: Files, O: Sink, E: Sink>(
    rt: &R,
    alloc: Global,
    inquiry: &Inquiry<'_>,
    name: &str,
    output: &mut O,
    error: &mut E,
) -> Result<Outcome, Failure>
    ensures { (input : Input) → TellsLog (wanted inquiry.now) name.now result
        (streams input (O.held output.old, O.write_failures output.old)
        (E.held error.old, E.write_failures error.old))
        (streams input (O.held output.new, O.write_failures output.new)
        (E.held error.new, E.write_failures error.new)) }
{
    let bytes = Bytes::File(name);
    match lines_of(rt, alloc, &bytes, request()) {
        Ok(lines) => tell_lines(alloc, inquiry, name, lines, output, error),
        Err(failure) => {
            let interruption = Interruption::from(failure);
            Err(tell_interruption(alloc, name, &interruption, error))
        }
    }
}

/// What is asked of the trace of a log: its newest format, with places.
fn request() -> Request {
    Request {
        vantage: None,
        connection: None,
        dialect: None,
        choices: Choices::of(Format::Three),
        has_places: true,
    }
}

/// Tells of these lines, which are the trace of the log of this name.
fn tell_lines<F: Read + Drop, O: Sink, E: Sink>(
    alloc: Global,
    inquiry: &Inquiry<'_>,
    name: &str,
    lines: Lines<'_, F>,
    output: &mut O,
    error: &mut E,
) -> Result<Outcome, Failure>
    ensures { (input : Input) → TellsTraceOf (wanted inquiry.now) name.now result
        (streams input (O.held output.old, O.write_failures output.old)
        (E.held error.old, E.write_failures error.old))
        (streams input (O.held output.new, O.write_failures output.new)
        (E.held error.new, E.write_failures error.new)) }
{
    let mut reader = Metered::new(TraceReader::new(lines));
    let told = tell_read(alloc, inquiry, name, &mut reader, output, error);
    end(alloc, name, told, &reader.into_inner(), error)
}

/// How the log of this name ends, by what came of its trace. What of the log is not in the trace is
/// told, or why there is no more of it.
fn end<F: Read + Drop, E: Sink>(
    alloc: Global,
    name: &str,
    told: Result<Outcome, AuditFault>,
    reader: &TraceReader<'_, F>,
    error: &mut E,
) -> Result<Outcome, Failure>
    ensures { EndsLog told result }
{
    match told {
        Ok(outcome) => match tell_lacks(alloc, name, reader.trace(), error) {
            Ok(()) => Ok(outcome),
            Err(_) => Err(Failure::Audit(AuditFault::OutOfMemory)),
        },
        Err(AuditFault::Read) => match reader.stopped() {
            Some(interruption) => Err(tell_interruption(alloc, name, interruption, error)),
            None => Err(Failure::Audit(AuditFault::Read)),
        },
        Err(fault) => Err(Failure::Audit(fault)),
    }
}

/// Why there is no verdict on the log of this name. What the log itself is the reason of is told
/// here.
fn tell_interruption<E: Sink>(
    alloc: Global,
    name: &str,
    interruption: &Interruption,
    error: &mut E,
) -> Failure
    ensures { stops (Err result) ≡ false }
{
    match &interruption.failure {
        LogFailure::Open(_) => Failure::Open,
        LogFailure::OutOfMemory => Failure::Audit(AuditFault::OutOfMemory),
        LogFailure::Read(_) => Failure::Audit(AuditFault::Read),
        LogFailure::Log(_) | LogFailure::TooLong => match interruption.text(alloc, name) {
            Ok(text) => {
                let _begun = write_line(PROGRAM, text.as_str(), error);
                Failure::Log
            }
            Err(_) => Failure::Audit(AuditFault::OutOfMemory),
        },
    }
}

/// Tells what of the log of this name is not in its trace, and why a refusal may be due to the
/// reading of the log.
fn tell_lacks<E: Sink>(
    alloc: Global,
    name: &str,
    trace: &Trace,
    error: &mut E,
) -> Result<(), AllocError> {
    for line in trace.told()? {
        let text = format!(in alloc; "{name}: {line}")?;
        let _begun = write_line(PROGRAM, text.as_str(), error);
    }
    Ok(())
}
