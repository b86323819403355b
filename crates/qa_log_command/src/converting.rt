//! The trace of a log, written to a stream.

ghost use Rattle.std.specs.Prelude.{◌≡◌, IfOk, IsSome, OnOk, false, is_err};
ghost use Rattle.qa_commands.specs.Writes.{Writes};
ghost use Rattle.qa_log_command.specs.Converting.{Converts, WritesAll};
ghost use Rattle.qa_log_command.specs.Failing.{fails_to_write};
ghost use Rattle.qa_log_command.specs.Written.{WritesLines};
ghost use Rattle.qa_logs.specs.Tracing.{shown};

use crate::asking::Conversion;
use crate::failure::Failure;
use crate::output::write_text;
use qa_check::{Sink, Source};
use qa_log_lines::{Bytes, Lines, LogFailure, lines_of};
use qa_logs::Trace;
use std::alloc::Global;
use std::io;
use std::io::Read;
use std::rt::Files;

/// Writes the trace of a log, which is at its end then.
pub fn convert<R: Files, I: Source, O: Sink>(
    rt: &R,
    alloc: Global,
    conversion: &Conversion<'_>,
    input: &mut I,
    output: &mut O,
) -> Result<Trace, Failure>
    ensures written { WritesLines (fails_to_write result)
        (O.held output.old, O.write_failures output.old)
        (O.held output.new, O.write_failures output.new) }
    ensures all { IfOk result (λ trace. Converts conversion.now.request trace
        (O.held output.old, O.write_failures output.old)
        (O.held output.new, O.write_failures output.new)) }
    ensures unread { IsSome conversion.now.file → input.new ≡ input.old }
{
    let bytes = Bytes::of(rt, alloc, conversion.file, input)?;
    let mut lines = lines_of(rt, alloc, &bytes, conversion.request)?;
    write_lines(&mut lines, output)?;
    Ok(lines.into_trace())
}

/// Writes the lines of a trace. Those that were before a fault in the log are written too.
fn write_lines<F: Read + Drop, O: Sink>(
    lines: &mut Lines<'_, F>,
    output: &mut O,
) -> Result<(), Failure>
    ensures written { WritesLines (fails_to_write result)
        (O.held output.old, O.write_failures output.old)
        (O.held output.new, O.write_failures output.new) }
    ensures all { lines.old.1 ≡ false → OnOk result (WritesAll lines.old.0 lines.new.0
        (O.held output.old, O.write_failures output.old)
        (O.held output.new, O.write_failures output.new)) }
{
    give(lines, output)?;
    'lines: for _i in 0..u64::MAX {
        let advanced = lines.advance();
        give(lines, output)?;
        match advanced {
            Ok(has_more) => {
                if !has_more {
                    return Ok(());
                }
            }
            Err(failure) => return Err(Failure::Log(lines.interrupted_by(failure))),
        }
    }
    // No log has so many parts.
    Err(Failure::Log(lines.interrupted_by(LogFailure::TooLong)))
}

/// Writes the lines that a trace has at this point.
fn give<F: Read + Drop, O: Sink>(lines: &Lines<'_, F>, output: &mut O) -> io::Result<()>
    ensures written { WritesLines (is_err result)
        (O.held output.old, O.write_failures output.old)
        (O.held output.new, O.write_failures output.new) }
    ensures all { Writes (is_err result) (O.held output.old) (O.held output.new)
        (O.write_failures output.old) (O.write_failures output.new) (shown lines.now.0) }
{
    write_text(output, lines.text())
}
