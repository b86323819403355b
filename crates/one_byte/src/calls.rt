//! Calls that are out of memory: makes each over a trace, and writes what it answers, a line for
//! each call.
//!
//! It is run with one of its allocations refused, each in turn, so that there is memory again
//! behind it. A splitter, a checker and a ledger that were out of memory are then asked again. What
//! is written takes no memory.

use qa_base::Totals;
use qa_base::limits::MAX_LINES;
use qa_check::{AuditFault, Checker, Metered, Outcome, Stop, Verdict, audit, explain};
use qa_ledger::{Ledger, LedgerFault};
use qa_reference::Whole;
use qa_sender::Running;
use qa_trace::{Event, Header, Line, LineFault, SplitFault, Splitter, read_line, write_line};
use std::alloc::{AllocError, Global};
use std::io::{Read, Write};
use std::marker::Model;

/// What is written, a line for each answer, up to the first write that fails.
#[derive(Drop)]
struct Answers<W> {
    writer: W,
    is_written: bool,
}

impl<W: Write> Answers<W> {
    /// Writes a line.
    fn tell(&mut self, text: &str) {
        self.tell_bytes(text.as_bytes());
    }

    /// Writes what was written to a vector, and LF.
    fn tell_bytes(&mut self, bytes: &[u8]) {
        if self.is_written {
            let is_text = self.writer.write_all(bytes).is_ok();
            self.is_written = is_text && self.writer.write_all(b"\n").is_ok();
        }
    }
}

/// Makes all calls over the input. Answers whether it could be read, and all was written.
pub(crate) fn tell_all<R: Read, W: Write + Drop>(alloc: Global, reader: &mut R, writer: W) -> bool {
    let mut answers = Answers {
        writer,
        is_written: true,
    };
    let mut input = Vec::new(alloc);
    if reader.read_to_end(&mut input).is_err() {
        return false;
    }
    tell_calls(alloc, &input, &mut answers);
    answers.is_written
}

/// Makes all calls over the input.
fn tell_calls<W: Write>(alloc: Global, input: &[u8], answers: &mut Answers<W>) {
    tell_splitter(alloc, input, answers);
    tell_lines(alloc, input, answers);
    tell_checkers(alloc, input, answers);
    tell_ledgers(alloc, input, answers);
    tell_audit(alloc, input, answers);
    tell_explanation(alloc, input, answers);
}

/// Has a checker over each ledger take the input.
fn tell_checkers<W: Write>(alloc: Global, input: &[u8], answers: &mut Answers<W>) {
    answers.tell("checker over the definitions");
    tell_checker::<Whole, W>(alloc, input, answers);
    answers.tell("checker over the running state");
    tell_checker::<Running, W>(alloc, input, answers);
}

/// Has each ledger take the input.
fn tell_ledgers<W: Write>(alloc: Global, input: &[u8], answers: &mut Answers<W>) {
    answers.tell("ledger of the definitions");
    tell_ledger::<Whole, W>(alloc, input, answers);
    answers.tell("ledger of the running state");
    tell_ledger::<Running, W>(alloc, input, answers);
}

/// Cuts the input by a splitter, and asks it again where it was out of memory.
fn tell_splitter<W: Write>(alloc: Global, input: &[u8], answers: &mut Answers<W>) {
    answers.tell("splitter");
    let mut lines = Splitter::new(alloc);
    if lines.feed(input).is_err() {
        answers.tell("out of memory");
    }
    // Closed or not, one that was out of memory answers so.
    answers.tell(told_of_split(lines.next_line()));
    lines.close();
    answers.tell(told_of_split(lines.next_line()));
}

/// What a splitter answered.
fn told_of_split(answer: Result<Option<&[u8]>, SplitFault>) -> &'static str {
    match answer {
        Ok(Some(_)) => "line",
        Ok(None) => "no line",
        Err(SplitFault::TooLong) => "line too long",
        Err(SplitFault::OutOfMemory) => "out of memory",
    }
}

/// Reads each line, and writes those that are good.
fn tell_lines<W: Write>(alloc: Global, input: &[u8], answers: &mut Answers<W>) {
    answers.tell("lines");
    for bytes in input.split(|byte| *byte == b'\n') {
        tell_line(alloc, bytes, answers);
    }
}

/// Reads a line, and writes it if it is good.
fn tell_line<W: Write>(alloc: Global, bytes: &[u8], answers: &mut Answers<W>) {
    let read = read_line(alloc, bytes);
    answers.tell(told_of_read(&read));
    // What was not read is read again.
    if let Ok(line) = read.or(read_line(alloc, bytes)) {
        answers.tell(told_of_written(&write_line(alloc, &line)));
    }
}

/// What was read of a line.
fn told_of_read(answer: &Result<Line, LineFault>) -> &'static str {
    match answer {
        Ok(_) => "read",
        Err(LineFault::Fault(_)) => "fault",
        Err(LineFault::OutOfMemory) => "out of memory",
    }
}

/// Whether a line was written.
fn told_of_written(answer: &Result<String, AllocError>) -> &'static str {
    match answer {
        Ok(_) => "written",
        Err(_) => "out of memory",
    }
}

/// Has a checker take each line, and asks it for its verdict.
fn tell_checker<L: Ledger + Drop, W: Write>(alloc: Global, input: &[u8], answers: &mut Answers<W>) {
    let mut checker = Checker::<L>::new(alloc);
    for bytes in input.split(|byte| *byte == b'\n') {
        answers.tell(told_of_push(checker.push_line(bytes)));
    }
    answers.tell(told_of_verdict(checker.verdict()));
}

/// What a checker answered to a line.
fn told_of_push(answer: Result<(), Stop>) -> &'static str {
    match answer {
        Ok(()) => "good",
        Err(Stop::Decided) => "decided",
        Err(Stop::OutOfMemory) => "out of memory",
    }
}

/// What a checker came to.
fn told_of_verdict(verdict: Option<Verdict>) -> &'static str {
    match verdict {
        None => "out of memory",
        Some(Verdict::Accepted(_)) => "accepted",
        Some(Verdict::Refused(..)) => "refused",
        Some(Verdict::Unreadable(..)) => "unreadable",
    }
}

/// A ledger, and how many events it was asked to admit.
#[derive(Drop)]
struct Asked<L: Ledger> {
    ledger: L,
    count: u64,
}

impl<L: Ledger> Model for Asked<L> {
    ghost use Rattle.std.specs.Prelude.{ℕ, ◌≤◌};

    ghost Value = { ℕ };

    ghost view = { λ a. a.count };

    ghost invariant = { λ a. L.admitted a.ledger ≤ a.count };
}

impl<L: Ledger + Drop> Asked<L> {
    /// A ledger that was asked nothing.
    fn new(alloc: Global, header: Header) -> Asked<L> {
        Asked {
            ledger: L::start(alloc, header),
            count: 0,
        }
    }

    /// Asks it to admit an event, and returns what it answered.
    fn admit(&mut self, event: &Event) -> &'static str {
        if MAX_LINES <= self.count || !event.fits() {
            return "not asked";
        }
        self.count += 1;
        match self.ledger.admit(event) {
            Ok(()) => "admitted",
            Err(LedgerFault::Broken(_)) => "broken",
            Err(LedgerFault::OutOfMemory) => "out of memory",
        }
    }

    /// Whether this is its state.
    fn is_at(&self, totals: &Totals, owes: bool) -> bool {
        self.ledger.totals() == *totals && self.ledger.owes() == owes
    }
}

/// Has a ledger admit each event, and compares its state where it answers that it is out of memory.
fn tell_ledger<L: Ledger + Drop, W: Write>(alloc: Global, input: &[u8], answers: &mut Answers<W>) {
    let mut ledger: Option<Asked<L>> = None;
    for bytes in input.split(|byte| *byte == b'\n') {
        tell_event(alloc, &mut ledger, bytes, answers);
    }
}

/// Takes in the line of these bytes.
fn tell_event<L: Ledger + Drop, W: Write>(
    alloc: Global,
    ledger: &mut Option<Asked<L>>,
    bytes: &[u8],
    answers: &mut Answers<W>,
) {
    // An event that was not read is read again.
    if let Ok(line) = read_line(alloc, bytes).or(read_line(alloc, bytes)) {
        tell_taken(alloc, ledger, &line, answers);
    }
}

/// Takes in a line: a header starts the ledger.
fn tell_taken<L: Ledger + Drop, W: Write>(
    alloc: Global,
    ledger: &mut Option<Asked<L>>,
    line: &Line,
    answers: &mut Answers<W>,
) {
    match line {
        Line::Blank => {}
        Line::Header(header) => *ledger = Some(Asked::new(alloc, *header)),
        Line::Event(event) => {
            if let Some(ledger) = ledger {
                tell_admitted(ledger, event, answers);
            }
        }
    }
}

/// Has a ledger admit an event.
fn tell_admitted<L: Ledger + Drop, W: Write>(
    asked: &mut Asked<L>,
    event: &Event,
    answers: &mut Answers<W>,
) {
    let totals = asked.ledger.totals();
    let owes = asked.ledger.owes();
    let answer = asked.admit(event);
    answers.tell(answer);
    if answer != "admitted" && !asked.is_at(&totals, owes) {
        answers.tell("changed");
    }
}

/// Audits the input onto a vector.
fn tell_audit<W: Write>(alloc: Global, input: &[u8], answers: &mut Answers<W>) {
    answers.tell("audit");
    let mut report = Metered::new(Vec::new(alloc));
    let ended = audit::<Running, _, _>(alloc, &mut Metered::new(input), &mut report);
    answers.tell(told_of_audit(ended));
    answers.tell_bytes(&report.into_inner());
}

/// Explains the input onto a vector.
fn tell_explanation<W: Write>(alloc: Global, input: &[u8], answers: &mut Answers<W>) {
    answers.tell("explanation");
    let mut rows = Metered::new(Vec::new(alloc));
    let ended = explain::<Running, _, _>(alloc, &mut Metered::new(input), &mut rows);
    answers.tell(told_of_audit(ended));
    answers.tell_bytes(&rows.into_inner());
}

/// How an audit ended.
fn told_of_audit(ended: Result<Outcome, AuditFault>) -> &'static str {
    match ended {
        Ok(_) => "whole",
        Err(AuditFault::Read) => "read fault",
        Err(AuditFault::Write) => "write fault",
        Err(AuditFault::OutOfMemory) => "out of memory",
    }
}
