//! The lines of the trace of a log, as they are written and as they are audited.

ghost use Rattle.std.specs.Prelude.{◌≡◌, ◌⊎◌, false, true, not, ℕ, List, IfOk, Ok, OnOk};
ghost use Rattle.std.specs.Result.{is_ok};
ghost use Rattle.qa_convert.specs.OwnKeys.{AreEventLines, IsHeaderLine};
ghost use Rattle.qa_log_lines.specs.Reading.{GoesOn, IsBegun, TakesPart};
ghost use Rattle.qa_logs.specs.Tracing.{Closed, given, shown};
ghost use Rattle.qa_logs.specs.Whole.{FeedsEach};

use crate::bytes::{Bytes, Parts};
use crate::failure::{Interruption, LogFailure};
use memchr::memchr_iter;
use qa_logs::{Opening, Reading, Request, Trace, Wants};
use std::alloc::Global;
use std::io::Read;
use std::marker::Model;
use std::rt::Files;

/// The lines of the trace of a log, some at a time. The log is read for the third time as they are
/// asked for. Contracts see what the trace has to give, and whether nothing follows that.
#[derive(Drop)]
pub struct Lines<'a, F> {
    trace: Trace,
    parts: Parts<'a, F>,
    /// Whether nothing follows the lines that `text` returns.
    is_ended: bool,
    /// How many lines went before those that `text` returns.
    passed: u64,
}

impl<'a, F> Model for Lines<'a, F> {
    ghost use Rattle.std.specs.Prelude.{Bool};
    ghost use Rattle.qa_logs.specs.Tracing.{Traced};

    ghost Value = { Traced × Bool };

    ghost view = { λ l. (l.trace, l.is_ended) };
}

impl<'a, F: Read + Drop> Lines<'a, F> {
    /// The header, with its LF; or once `advance` was called lines of events, each ended by LF, and
    /// perhaps none.
    pub fn text(&self) -> &[u8]
        ensures text { result.now ≡ shown self.now.0 }
        ensures lines { IsHeaderLine result.now ⊎ AreEventLines result.now }
    {
        self.trace.text()
    }

    /// Goes on to the lines that the next part of the log gives, and behind the last part to those
    /// that its end gives. Returns false if there are no more.
    ///
    /// An error leaves the lines that were before the fault, and nothing follows them.
    pub fn advance(&mut self) -> Result<bool, LogFailure>
        ensures more { IfOk result (λ has_more. has_more ≡ not self.old.1) }
        ensures last { is_ok result ≡ false → self.new.1 ≡ true }
        ensures stays { self.old.1 ≡ true → self.new.1 ≡ true }
        ensures goes { result ≡ Ok true → GoesOn self.old.0 self.new.0 }
        ensures done { result ≡ Ok false → self.new.0 ≡ given self.old.0 }
    {
        self.passed = self.count();
        self.trace.clear();
        if self.is_ended {
            return Ok(false);
        }
        self.is_ended = true;
        let Wants::Nothing = self.take_part()? else {
            self.is_ended = false;
            return Ok(true);
        };
        self.close()?;
        Ok(true)
    }

    /// The log ends, or no more of it is needed: the last lines are written.
    fn close(&mut self) -> Result<(), LogFailure>
        ensures closes { OnOk result (Closed self.old.0 self.new.0) }
        ensures stays { self.new.1 ≡ self.old.1 }
    {
        self.trace.end()?;
        Ok(())
    }

    /// Takes the next part of the log, and says whether more of it is needed; if there is none, no
    /// more is.
    fn take_part(&mut self) -> Result<Wants, LogFailure>
        ensures takes { IfOk result (λ wants. TakesPart self.old.0 wants self.new.0) }
        ensures stays { self.new.1 ≡ self.old.1 }
    {
        if !self.parts.advance()? {
            return Ok(Wants::Nothing);
        }
        Ok(self.trace.feed(self.parts.part())?)
    }

    /// Whether nothing follows the lines that `text` returns.
    pub fn is_ended(&self) -> bool
        ensures { result ≡ self.now.1 }
    {
        self.is_ended
    }

    /// How many lines there are so far, with those that `text` returns.
    pub fn count(&self) -> u64 {
        self.passed.saturating_add(count_lines(self.text()))
    }

    /// That this failure interrupts the trace behind the lines that there are so far.
    pub fn interrupted_by(&self, failure: LogFailure) -> Interruption
        ensures { result.failure ≡ failure }
    {
        Interruption {
            failure,
            lines: self.count(),
        }
    }

    /// The trace, with what is told of it.
    pub fn trace(&self) -> &Trace {
        &self.trace
    }

    /// The trace, with what is told of it.
    pub fn into_trace(self) -> Trace
        ensures { result ≡ self.entry.0 }
    {
        let Lines { trace, .. } = self;
        trace
    }
}

/// The lines of the trace of a log with these bytes, from the first on, which is the header. The
/// log is read twice before.
pub fn lines_of<'a, R: Files>(
    rt: &R,
    alloc: Global,
    bytes: &'a Bytes<'_>,
    request: Request,
) -> Result<Lines<'a, R::File>, LogFailure>
    ensures begun { IfOk result (λ lines. IsBegun request lines.0) }
    ensures goes { IfOk result (λ lines. lines.1 ≡ false) }
{
    let mut opening = Opening::new(alloc);
    read(&mut bytes.parts(rt, alloc)?, &mut opening)?;
    let log = opening.end()?;
    let mut surveying = log.survey(request)?;
    read(&mut bytes.parts(rt, alloc)?, &mut surveying)?;
    Ok(Lines {
        trace: surveying.end(&log)?,
        parts: bytes.parts(rt, alloc)?,
        is_ended: false,
        passed: 0,
    })
}

/// Reads a log part by part, up to its end, or until no more of it is wanted.
fn read<F: Read, T: Reading>(parts: &mut Parts<'_, F>, reading: &mut T) -> Result<(), LogFailure>
    ensures feeds { IfOk result (λ _. (fed : List (List ℕ))
        × FeedsEach T.feeds reading.old fed reading.new) }
{
    'parts: for _i in 0..u64::MAX {
        if !parts.advance()? {
            return Ok(());
        }
        if reading.feed(parts.part())? == Wants::Nothing {
            return Ok(());
        }
    }
    Ok(())
}

/// How many lines a text has, each ended by LF.
fn count_lines(text: &[u8]) -> u64 {
    let mut lines: u64 = 0;
    for _place in memchr_iter(b'\n', text) {
        lines = lines.saturating_add(1);
    }
    lines
}
