//! A reader of the trace of a log.
ghost use Rattle.std.specs.Prelude.{◌≡◌, ◌≢◌, ◌+◌, ◌++◌, ◌<◌, ◌≤◌, ◌^◌, [], IfOk, ℕ, List};
ghost use Rattle.std.specs.Prelude.{None, false, length, take, true};
ghost use Rattle.std.specs.Result.{is_ok};
ghost use Rattle.qa_log_lines.specs.Handing.{EndsThen, Gives, HasRead, IsAtEnd, left};
ghost use Rattle.qa_log_lines.specs.Reading.{GoesOn};
ghost use Rattle.qa_logs.specs.Tracing.{Traced};

use crate::failure::Interruption;
use crate::lines::Lines;
use qa_logs::Trace;
use std::io;
use std::io::Read;

/// Reads the lines of the trace of a log, which is read for the third time as they are.
///
/// A read fails once the log does, behind the lines that were before the fault; `stopped` has the
/// reason then.
#[derive(Drop)]
pub struct TraceReader<'a, F> {
    lines: Lines<'a, F>,
    /// How many bytes of the lines at this point were read.
    passed: usize,
    stopped: Option<Interruption>,
}

impl<'a, F: Read + Drop> TraceReader<'a, F> {
    /// Before the first of these lines.
    pub fn new(lines: Lines<'a, F>) -> TraceReader<'a, F>
        ensures begins { HasRead lines.entry.0 [] result }
        ensures goes { result.lines.1 ≡ lines.entry.1 }
        ensures stopped { result.stopped ≡ None }
    {
        TraceReader {
            lines,
            passed: 0,
            stopped: None,
        }
    }

    /// The trace, with what is told of it.
    pub fn trace(&self) -> &Trace {
        self.lines.trace()
    }

    /// Why there is no more of the trace, and how many lines it has.
    pub fn stopped(&self) -> Option<&Interruption> {
        self.stopped.as_ref()
    }

    /// The next bytes of the trace, as many as there are and as the buffer takes; none at its end.
    ///
    /// While some of the lines at this point are left, it does not fail: these are the next of
    /// them, and nothing else changes. Else it goes on to lines of which some are. It gives none
    /// only once all lines were read, or into no buffer. A read fails as the reader itself says.
    pub fn next(&mut self, buffer: &mut [u8]) -> io::Result<usize>
        ensures next { left self.old ≢ [] → IfOk result (Gives self.old self.new
            buffer.old buffer.new) }
        ensures gives { left self.old ≢ [] → is_ok result ≡ true }
        ensures reads { (start : Traced) (bytes : List ℕ) → HasRead start bytes self.old
            → IfOk result (λ count. self.new.stopped ≡ None
            → HasRead start (bytes ++ take count buffer.new) self.new) }
        ensures fault { self.new.stopped ≡ None → self.old.stopped ≡ None }
        ensures ends { IfOk result (λ count. EndsThen self.new buffer.old count) }
        ensures bound { IfOk result (λ count. count ≤ length buffer.old) }
    {
        self.fill()?;
        Ok(self.give(buffer))
    }

    /// What is left of the lines at this point.
    fn rest(&self) -> &[u8]
        ensures rest { result.now ≡ left self.now }
        ensures fits { self.now.passed + length result.now < 2 ^ 64 }
    {
        let text = self.lines.text();
        if self.passed < text.len() {
            &text[self.passed..]
        } else {
            &[]
        }
    }

    /// Goes on to lines of which some are left, or to the end.
    fn fill(&mut self) -> io::Result<()>
        ensures stays { left self.old ≢ [] → self.new ≡ self.old }
        ensures is_done { left self.old ≢ [] → is_ok result ≡ true }
        ensures reads { (start : Traced) (bytes : List ℕ) → HasRead start bytes self.old
            → IfOk result (λ _. self.new.stopped ≡ None → HasRead start bytes self.new) }
        ensures fault { self.new.stopped ≡ None → self.old.stopped ≡ None }
        ensures ends { IfOk result (λ _. left self.new ≡ [] → IsAtEnd self.new) }
    {
        'lines: for _i in 0..u64::MAX {
            if !self.rest().is_empty() || self.is_last()? {
                return Ok(());
            }
            self.advance();
        }
        // No log has so many parts.
        Err(io::Error::from(io::ErrorKind::InvalidData))
    }

    /// Whether no lines follow those at this point. Fails if that is due to a fault.
    fn is_last(&self) -> io::Result<bool>
        ensures is_last { IfOk result (λ is_last. is_last ≡ self.now.lines.1) }
        ensures stopped { IfOk result (λ _. self.now.stopped ≡ None) }
    {
        match self.stopped {
            Some(_) => Err(io::Error::from(io::ErrorKind::InvalidData)),
            None => Ok(self.lines.is_ended()),
        }
    }

    /// Goes on by one step, to the first byte of its lines. If that fails, `stopped` says why.
    fn advance(&mut self)
        ensures start { self.new.passed ≡ 0 }
        ensures goes { self.old.lines.1 ≡ false → self.new.stopped ≡ None
            → GoesOn self.old.lines.0 self.new.lines.0 }
        ensures fault { self.new.stopped ≡ None → self.old.stopped ≡ None }
    {
        self.passed = 0;
        if let Err(failure) = self.lines.advance() {
            self.stopped = Some(self.lines.interrupted_by(failure));
        }
    }

    /// Gives what is left of the lines at this point, as much as the buffer takes.
    fn give(&mut self, buffer: &mut [u8]) -> usize
        ensures { Gives self.old self.new buffer.old buffer.new result }
    {
        let rest = self.rest();
        let count = rest.len().min(buffer.len());
        buffer[..count].copy_from_slice(&rest[..count]);
        self.passed = self.passed.saturating_add(count);
        count
    }
}

impl<'a, F: Read + Drop> Read for TraceReader<'a, F> {
    fn read(&mut self, buffer: &mut [u8]) -> io::Result<usize> {
        self.next(buffer)
    }
}
