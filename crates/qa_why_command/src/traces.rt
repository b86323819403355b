//! What is told of each trace in its turn, and behind several of how many came to which verdict.
ghost use Rattle.std.specs.Prelude.{◌≡◌, List, Result, false, map};
ghost use Rattle.std.specs.List.{list_any};
ghost use Rattle.qa_arguments.specs.why.Asked.{wanted};
ghost use Rattle.qa_why_command.specs.Ending as endings;
ghost use Rattle.qa_why_command.specs.Ending.{Ended};
ghost use Rattle.qa_why_command.specs.Streams.{Input, streams};
ghost use Rattle.qa_why_command.specs.Tally.{tally_of};
ghost use Rattle.qa_why_command.specs.Traces as defined;
ghost use Rattle.qa_why_command.specs.Traces.{TellsTraceIn};

use crate::ending::{Failure, ended_by, stops};
use crate::logs::tell_log;
use crate::tally::Tally;
use crate::telling::tell_read;
use qa_arguments::why::{Inquiry, Told};
use qa_check::{AuditFault, Metered, Outcome, Sink, Source, write_whole};
use qa_format::Form;
use qa_log_lines::is_log_file;
use std::alloc::Global;
use std::fs;
use std::rt::Files;

/// The name that stands for standard input.
pub(crate) const STANDARD_INPUT: &str = "-";

/// Tells of each trace, and behind several in text how many came to which verdict. Returns the exit
/// status, the greatest of those of the traces.
///
/// Each failure is told on standard error. All but a failed write leave the traces behind it to be
/// told.
pub fn tell<R: Files, I: Source, O: Sink, E: Sink>(
    rt: &R,
    alloc: Global,
    inquiry: &Inquiry<'_>,
    input: &mut I,
    output: &mut O,
    error: &mut E,
) -> u8
    ensures told { defined.TellsAll (wanted inquiry.now) result
        (streams (I.left input.old, I.last_read input.old, I.read_failures input.old)
        (O.held output.old, O.write_failures output.old)
        (E.held error.old, E.write_failures error.old))
        (streams (I.left input.new, I.last_read input.new, I.read_failures input.new)
        (O.held output.new, O.write_failures output.new)
        (E.held error.new, E.write_failures error.new)) }
    ensures unread { list_any defined.is_input (defined.names_of (wanted inquiry.now).files) ≡ false
        → input.new ≡ input.old }
{
    let (tally, stopped) = tell_traces(rt, alloc, inquiry, input, output, error);
    if !stopped && is_counted(inquiry) {
        return tell_counts(alloc, &tally, output, error);
    }
    tally.status
}

/// Whether the line of counts stands behind the traces: of several, in text.
fn is_counted(inquiry: &Inquiry<'_>) -> bool
    ensures { result ≡ defined.is_counted (wanted inquiry.now) }
{
    inquiry.files.len() > 1 && is_text(inquiry.told)
}

/// Whether what is told is a text.
fn is_text(told: Told) -> bool
    ensures { result ≡ defined.is_text told }
{
    matches!(told, Told::Why(Form::Text) | Told::All(Form::Text))
}

/// Tells of each file, or of standard input where none is named. Returns how the traces count, and
/// whether a failed write ended it.
fn tell_traces<R: Files, I: Source, O: Sink, E: Sink>(
    rt: &R,
    alloc: Global,
    inquiry: &Inquiry<'_>,
    input: &mut I,
    output: &mut O,
    error: &mut E,
) -> (Tally, bool)
    ensures told { (ended : List Ended)
        × defined.TellsEach (wanted inquiry.now) (defined.names_of (wanted inquiry.now).files) ended
        (streams (I.left input.old, I.last_read input.old, I.read_failures input.old)
        (O.held output.old, O.write_failures output.old)
        (E.held error.old, E.write_failures error.old))
        (streams (I.left input.new, I.last_read input.new, I.read_failures input.new)
        (O.held output.new, O.write_failures output.new)
        (E.held error.new, E.write_failures error.new))
        × (result.0 ≡ tally_of ended) × (result.1 ≡ list_any endings.stops ended) }
    ensures unread { list_any defined.is_input (defined.names_of (wanted inquiry.now).files) ≡ false
        → input.new ≡ input.old }
{
    match inquiry.files.as_slice() {
        [] => tell_each(rt, alloc, inquiry, &[STANDARD_INPUT], input, output, error),
        names => tell_each(rt, alloc, inquiry, names, input, output, error),
    }
}

/// Tells of each trace, up to a failed write.
fn tell_each<R: Files, I: Source, O: Sink, E: Sink>(
    rt: &R,
    alloc: Global,
    inquiry: &Inquiry<'_>,
    names: &[&str],
    input: &mut I,
    output: &mut O,
    error: &mut E,
) -> (Tally, bool)
    ensures told { (ended : List Ended)
        × defined.TellsEach (wanted inquiry.now) (map (λ name. name.now) names.now) ended
        (streams (I.left input.old, I.last_read input.old, I.read_failures input.old)
        (O.held output.old, O.write_failures output.old)
        (E.held error.old, E.write_failures error.old))
        (streams (I.left input.new, I.last_read input.new, I.read_failures input.new)
        (O.held output.new, O.write_failures output.new)
        (E.held error.new, E.write_failures error.new))
        × (result.0 ≡ tally_of ended) × (result.1 ≡ list_any endings.stops ended) }
    ensures unread { list_any defined.is_input (map (λ name. name.now) names.now) ≡ false
        → input.new ≡ input.old }
{
    let mut tally = Tally::new();
    for name in names {
        let ended = tell_trace(rt, alloc, inquiry, name, input, output, error);
        tally.count(&ended);
        if stops(&ended) {
            return (tally, true);
        }
    }
    (tally, false)
}

/// Tells of the trace of this name, and its failure on standard error.
fn tell_trace<R: Files, I: Source, O: Sink, E: Sink>(
    rt: &R,
    alloc: Global,
    inquiry: &Inquiry<'_>,
    name: &str,
    input: &mut I,
    output: &mut O,
    error: &mut E,
) -> Result<Outcome, Failure>
    ensures told { defined.TellsTrace (wanted inquiry.now) name.now result
        (streams (I.left input.old, I.last_read input.old, I.read_failures input.old)
        (O.held output.old, O.write_failures output.old)
        (E.held error.old, E.write_failures error.old))
        (streams (I.left input.new, I.last_read input.new, I.read_failures input.new)
        (O.held output.new, O.write_failures output.new)
        (E.held error.new, E.write_failures error.new)) }
    ensures unread { defined.is_input name.now ≡ false → input.new ≡ input.old }
{
    match tell_of(rt, alloc, inquiry, name, input, output, error) {
        Ok(outcome) => Ok(outcome),
        Err(failure) => {
            failure.tell(name, error);
            Err(failure)
        }
    }
}

/// Tells of the trace of this name.
fn tell_of<R: Files, I: Source, O: Sink, E: Sink>(
    rt: &R,
    alloc: Global,
    inquiry: &Inquiry<'_>,
    name: &str,
    input: &mut I,
    output: &mut O,
    error: &mut E,
) -> Result<Outcome, Failure>
    ensures told { defined.TellsBefore (wanted inquiry.now) name.now result
        (streams (I.left input.old, I.last_read input.old, I.read_failures input.old)
        (O.held output.old, O.write_failures output.old)
        (E.held error.old, E.write_failures error.old))
        (streams (I.left input.new, I.last_read input.new, I.read_failures input.new)
        (O.held output.new, O.write_failures output.new)
        (E.held error.new, E.write_failures error.new)) }
    ensures unread { defined.is_input name.now ≡ false → input.new ≡ input.old }
{
    if name == STANDARD_INPUT {
        return ended_by(tell_read(alloc, inquiry, name, input, output, error));
    }
    match is_log_file(rt, alloc, name) {
        Ok(false) => tell_file(rt, alloc, inquiry, name, output, error),
        Ok(true) => tell_log(rt, alloc, inquiry, name, output, error),
        Err(_) => Err(Failure::Audit(AuditFault::OutOfMemory)),
    }
}

/// Tells of the trace in the file of this name.
fn tell_file<R: Files, O: Sink, E: Sink>(
    rt: &R,
    alloc: Global,
    inquiry: &Inquiry<'_>,
    name: &str,
    output: &mut O,
    error: &mut E,
) -> Result<Outcome, Failure>
    ensures { (input : Input) → TellsTraceIn (wanted inquiry.now) name.now result
        (streams input (O.held output.old, O.write_failures output.old)
        (E.held error.old, E.write_failures error.old))
        (streams input (O.held output.new, O.write_failures output.new)
        (E.held error.new, E.write_failures error.new)) }
{
    let Ok(file) = fs::open(rt, name) else {
        return Err(Failure::Open);
    };
    let mut reader = Metered::new(file);
    ended_by(tell_read(alloc, inquiry, name, &mut reader, output, error))
}

/// Tells how many traces came to which verdict, and returns the exit status.
fn tell_counts<O: Sink, E: Sink>(alloc: Global, tally: &Tally, output: &mut O, error: &mut E) -> u8
    ensures { defined.TellsCounts tally.now result
        (O.held output.old, O.write_failures output.old)
        (O.held output.new, O.write_failures output.new)
        (E.held error.old, E.write_failures error.old)
        (E.held error.new, E.write_failures error.new) }
{
    match write_tally(alloc, tally, output) {
        Ok(()) => tally.status,
        Err(failure) => {
            failure.tell(STANDARD_INPUT, error);
            tally.status.max(3)
        }
    }
}

/// Writes how many traces came to which verdict.
fn write_tally<O: Sink>(alloc: Global, tally: &Tally, output: &mut O) -> Result<(), Failure>
    ensures { defined.WritesCounts tally.now result (O.held output.old, O.write_failures output.old)
        (O.held output.new, O.write_failures output.new) }
{
    let Ok(line) = tally.line(alloc) else {
        return Err(Failure::Audit(AuditFault::OutOfMemory));
    };
    match write_whole(output, line.as_bytes()) {
        Ok(()) => Ok(()),
        Err(fault) => Err(Failure::Audit(fault)),
    }
}
