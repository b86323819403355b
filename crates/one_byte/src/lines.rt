//! What lines say.
//!
//! The answer to a line is the text that `write_line` gives for it, and to a faulty line its fault
//! as a report has it, each ended by LF. A line that is too long is answered so, and is the last.

use qa_trace::{Fault, LineFault, SplitFault, Splitter, read_line, write_line};
use std::alloc::{AllocError, Global};
use std::fmt::Display;
use std::io;
use std::io::{BufWriter, ErrorKind, Read, Write};
use thiserror::Error;

/// Why not every line was answered.
#[derive(Clone, Copy, Debug, Error)]
pub(crate) enum Failure {
    #[error("read fault: standard input")]
    Read,
    #[error("write fault")]
    Write,
    #[error("out of memory")]
    OutOfMemory,
}

impl From<AllocError> for Failure {
    fn from(_refused: AllocError) -> Failure {
        Failure::OutOfMemory
    }
}

impl From<io::Error> for Failure {
    fn from(error: io::Error) -> Failure {
        match error.kind() {
            ErrorKind::OutOfMemory => Failure::OutOfMemory,
            _ => Failure::Read,
        }
    }
}

/// Answers each line of the input.
pub(crate) fn answer_input<R: Read, W: Write + Drop>(
    alloc: Global,
    reader: &mut R,
    writer: W,
) -> Result<(), Failure> {
    let mut lines = lines_of(alloc, reader)?;
    let Ok(mut answers) = BufWriter::new(alloc, writer) else {
        return Err(Failure::OutOfMemory);
    };
    answer_lines(alloc, &mut lines, &mut answers)?;
    answers.flush().or(Err(Failure::Write))
}

/// The lines of the whole input.
fn lines_of<R: Read>(alloc: Global, reader: &mut R) -> Result<Splitter, Failure> {
    let mut input = Vec::new(alloc);
    reader.read_to_end(&mut input)?;
    let mut lines = Splitter::new(alloc);
    lines.feed(&input)?;
    lines.close();
    Ok(lines)
}

/// Answers each line, up to one that is too long.
fn answer_lines<W: Write>(
    alloc: Global,
    lines: &mut Splitter,
    answers: &mut W,
) -> Result<(), Failure> {
    'lines: loop {
        match lines.next_line() {
            Ok(Some(line)) => answer(alloc, line, answers)?,
            Ok(None) => return Ok(()),
            Err(SplitFault::TooLong) => return write_answer(answers, Fault::LineTooLong),
            Err(SplitFault::OutOfMemory) => return Err(Failure::OutOfMemory),
        }
    }
}

/// Writes what a line says, or its fault.
fn answer<W: Write>(alloc: Global, line: &[u8], answers: &mut W) -> Result<(), Failure> {
    match read_line(alloc, line) {
        Ok(line) => {
            let text = write_line(alloc, &line)?;
            write_answer(answers, text)
        }
        Err(LineFault::OutOfMemory) => Err(Failure::OutOfMemory),
        Err(fault) => write_answer(answers, fault),
    }
}

/// Writes an answer and its LF.
fn write_answer<W: Write, T: Display + Drop>(answers: &mut W, text: T) -> Result<(), Failure> {
    writeln!(answers, "{text}").or(Err(Failure::Write))
}
