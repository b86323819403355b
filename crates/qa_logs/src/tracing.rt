//! The second reading of the records of a log, by which its trace is written.
ghost use Rattle.std.specs.Prelude.{◌≡◌, ◌⊎◌, IfOk, OnOk};
ghost use Rattle.qa_convert.specs.OwnKeys.{AreEventLines, IsHeaderLine};
ghost use Rattle.qa_logs.specs.Cutting as cutting;
ghost use Rattle.qa_logs.specs.Records.{ReadsText};
ghost use Rattle.qa_logs.specs.Tracing.{Closed, Feeds, SkipsText, Starts, WritesLast};
ghost use Rattle.qa_logs.specs.Tracing.{WritesRecord, WritesText, given, records_of, shown};
ghost use Rattle.qa_logs.specs.Unread.{IsNotJson};

use crate::Reading;
use crate::choosing::Chosen;
use crate::cutting::{LogText, Parts, Taker, Wants};
use crate::fault::LogFault;
use crate::log::Log;
use crate::unread::{Instead, Unread};
use qa_convert::{NoLine, NoMore, NoRecord, SecondReading};
use std::alloc::{AllocError, Global};
use std::marker::Model;

/// The second reading of the records of a log, by which its trace is written. Contracts see whether
/// the header was given away, what is left of the log, whether it is torn off, and the lines that
/// were written.
#[derive(Drop)]
pub struct Trace {
    alloc: Global,
    parts: Parts,
    chosen: Chosen,
    /// How many connections and paths the log has.
    connections: u64,
    /// Whether the log is torn off, so far as it is one object.
    is_torn: bool,
    /// At which byte it is, if so.
    torn_at: Option<u64>,
    /// Whether the line of the header was not given away yet.
    has_header: bool,
    records: Written,
}

/// The records that were written.
#[derive(Drop)]
struct Written {
    second: SecondReading,
    unread: Unread,
    /// Of which trace records are taken, by its number from 1.
    trace: u64,
    /// Whether the next text is the head.
    is_at_head: bool,
}

impl Model for Trace {
    ghost use Rattle.qa_logs.specs.Tracing.{Traced};

    ghost Value = { Traced };

    ghost view = { λ t. record {
      has_header = t.has_header;
      cutter = t.parts;
      is_torn = t.is_torn;
      records = t.records;
    } };
}

impl Trace {
    /// Before the first part of a log whose first reading this was.
    pub(crate) fn new(log: &Log, chosen: Chosen, connections: u64, second: SecondReading) -> Trace
        ensures { Starts log.now chosen.trace second result }
    {
        Trace {
            alloc: log.alloc,
            parts: Parts::new(log.alloc, log.form),
            chosen,
            connections,
            is_torn: log.torn_at.is_some(),
            torn_at: log.torn_at,
            has_header: true,
            records: Written {
                second,
                unread: Unread::new(log.alloc),
                trace: chosen.trace,
                is_at_head: log.has_first_text(),
            },
        }
    }

    /// The log ends, or no more of it is needed: the last lines are written. An error leaves the
    /// lines that were written before it.
    pub fn end(&mut self) -> Result<(), LogFault>
        ensures { OnOk result (Closed self.old self.new) }
    {
        self.parts.end(&mut self.records)?;
        self.records.end(self.is_torn)
    }

    /// The lines that were written and not given away, each ended by LF: first that of the header
    /// by itself, and once that was given away those of events. A reader of traces reads each as
    /// what it says.
    pub fn text(&self) -> &[u8]
        ensures text { result.now ≡ shown self.now }
        ensures lines { IsHeaderLine result.now ⊎ AreEventLines result.now }
    {
        if self.has_header {
            self.records.second.header()
        } else {
            self.records.second.text()
        }
    }

    /// Gives the lines away that `text` returns.
    pub fn clear(&mut self)
        ensures { self.new ≡ given self.old }
    {
        if self.has_header {
            self.has_header = false;
        } else {
            self.records.second.clear();
        }
    }

    /// What is told in any case, once the log has ended, a line each: what of it is not in the
    /// trace, and why a refusal may be due to the reading of the log.
    pub fn told(&self) -> Result<Vec<String>, AllocError> {
        let mut told = self.records.unread.told(self.alloc)?;
        if let Some(byte) = self.torn_at {
            let text = format!(in self.alloc; "torn off at byte {byte}; the trace ends there")?;
            told.push(text)?;
        }
        if let Some(text) = others(self.alloc, self.chosen.count, self.chosen.number, "traces")? {
            told.push(text)?;
        }
        let (count, number) = (self.connections, self.chosen.connection);
        if let Some(text) = others(self.alloc, count, number, "connections or paths")? {
            told.push(text)?;
        }
        for text in &self.records.second.told(self.alloc)? {
            told.push(String::from_str(self.alloc, text.as_str())?)?;
        }
        Ok(told)
    }

    /// What was found, guessed and left out, once the log has ended, a line each.
    pub fn notes(&self) -> Result<Vec<String>, AllocError> {
        self.records.second.notes(self.alloc)
    }
}

/// What is told if there are others.
fn others(
    alloc: Global,
    count: u64,
    number: u64,
    what: &str,
) -> Result<Option<String>, AllocError> {
    if count < 2 {
        return Ok(None);
    }
    let text = format!(in alloc;
        "it has {count} {what}; this is number {number}, another by \
        qlog-to-trace --connection N"
    )?;
    Ok(Some(text))
}

impl Reading for Trace {
    ghost feeds = { Feeds };

    fn feed(&mut self, part: &[u8]) -> Result<Wants, LogFault> {
        self.parts.feed(part, &mut self.records)
    }
}

impl Taker for Written {
    ghost takes = { WritesText };

    fn take(&mut self, text: LogText<'_>) -> Result<Wants, LogFault> {
        if self.is_at_head || text.trace != self.trace {
            self.is_at_head = false;
            return Ok(Wants::More);
        }
        match self.second.push(text.bytes, text.place) {
            Ok(()) => Ok(Wants::More),
            Err(NoMore::Record(NoRecord::NotJson)) => self.pass(text),
            Err(fault) => Err(LogFault::of_end(text.place, fault)),
        }
    }
}

impl Written {
    /// Takes a text that is not JSON.
    fn pass(&mut self, text: LogText<'_>) -> Result<Wants, LogFault>
        ensures instead { IsNotJson text.entry.bytes.now → IfOk result (λ wants.
            ReadsText WritesRecord SkipsText (cutting.given text.entry) (records_of self.old) wants
            (records_of self.new)) }
        ensures trace { self.new.trace ≡ self.old.trace }
        ensures is_at_head { self.new.is_at_head ≡ self.old.is_at_head }
    {
        let Instead::Passes(is_report) = self.unread.take(text)? else {
            return Ok(Wants::Nothing);
        };
        match self.second.push_unread(text.place, is_report) {
            Ok(()) => Ok(Wants::More),
            Err(fault) => Err(LogFault::of_line(text.place, fault)),
        }
    }

    /// The log ended, which is torn off if this or one of its texts says so: the last lines are
    /// written.
    fn end(&mut self, is_torn: bool) -> Result<(), LogFault>
        ensures { OnOk result (WritesLast is_torn self.old self.new) }
    {
        match self.second.end(is_torn || self.unread.torn.is_some()) {
            Ok(()) => Ok(()),
            Err(NoLine::OutOfMemory) => Err(LogFault::OutOfMemory),
            Err(fault) => Err(LogFault::LastLine(fault)),
        }
    }
}
