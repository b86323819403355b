//! The first reading of the records of a log.
ghost use Rattle.std.specs.Prelude.{◌≡◌, Decides, IfOk};
ghost use Rattle.qa_convert.specs.Surveying.{unread};
ghost use Rattle.qa_logs.specs.Cutting as cutting;
ghost use Rattle.qa_logs.specs.Records.{ReadsText};
ghost use Rattle.qa_logs.specs.Surveying.{Feeds, HasConnection, Leads, SkipsText, Starts};
ghost use Rattle.qa_logs.specs.Surveying.{SurveysRecord, SurveysText, records_of};
ghost use Rattle.qa_logs.specs.Unread.{IsNotJson};

use crate::Reading;
use crate::choosing::Chosen;
use crate::cutting::{LogText, Parts, Taker, Wants};
use crate::fault::LogFault;
use crate::log::Log;
use crate::tracing::Trace;
use crate::unread::{Instead, Unread};
use qa_convert::{Asked, FirstReading, NoRecord, NoTrace, Stack};
use qa_qlog::Head;
use std::marker::Model;

/// The first reading of the records of a log. Nothing of a trace is written yet. Contracts see what
/// is left of the log, which of its traces was chosen, and what was found of its records.
#[derive(Drop)]
pub struct Surveying {
    parts: Parts,
    chosen: Chosen,
    /// The stack whose log it is.
    stack: Stack,
    records: Surveyed,
}

/// What was found of the records.
#[derive(Drop)]
struct Surveyed {
    first: FirstReading,
    unread: Unread,
    /// Of which trace records are taken, by its number from 1.
    trace: u64,
    /// Whether the next text is the head.
    is_at_head: bool,
}

impl Model for Surveying {
    ghost use Rattle.qa_logs.specs.Surveying.{Begun};

    ghost Value = { Begun };

    ghost view = { λ s. record {
      cutter = s.parts;
      chosen = s.chosen;
      records = s.records;
    } };
}

impl Surveying {
    /// Before the first part of a log, of which this trace is chosen, and has this head.
    pub(crate) fn new(log: &Log, chosen: Chosen, head: Head, asked: Asked) -> Surveying
        ensures { Starts log.now chosen (asked, unread head asked.connection asked.role) result }
    {
        Surveying {
            parts: Parts::new(log.alloc, log.form),
            chosen,
            stack: asked.dialect.stack,
            records: Surveyed {
                first: FirstReading::new(log.alloc, head, asked),
                unread: Unread::new(log.alloc),
                trace: chosen.trace,
                is_at_head: log.has_first_text(),
            },
        }
    }

    /// The log ends, or no more of it is needed: the second reading of its records, by which the
    /// trace is written.
    pub fn end(self, log: &Log) -> Result<Trace, LogFault>
        ensures { IfOk result (λ trace. Leads log.now self trace) }
    {
        let Surveying {
            parts,
            chosen,
            stack,
            records,
        } = self;
        let (mut parts, mut records) = (parts, records);
        parts.end(&mut records)?;
        let Surveyed { first, unread, .. } = records;
        let count = first.connections();
        if !has_connection(count, chosen.connection) {
            return Err(LogFault::NoConnection(count.max(1), chosen.connection));
        }
        match first.second(log.head(chosen.trace)?) {
            Ok(second) => Ok(Trace::new(log, chosen, count, second)),
            Err(fault) => Err(why(fault, &unread, stack)),
        }
    }
}

/// Whether a log that names so many connections has one of this number.
fn has_connection(count: u64, number: u64) -> bool
    ensures { Decides result (HasConnection count number) }
{
    1 <= number && number <= count.max(1)
}

/// Why there is no trace of a log of this stack: a record that cannot be read, if the log ends
/// there and lacks what a trace needs.
fn why(fault: NoTrace, unread: &Unread, stack: Stack) -> LogFault {
    match (fault, unread.torn) {
        (NoTrace::Survey(_), Some(torn)) if torn.is_broken => {
            LogFault::Record(torn.place, NoRecord::NotJson)
        }
        (NoTrace::Survey(fault), _) => LogFault::of_survey(fault, stack),
        (fault, _) => LogFault::from(fault),
    }
}

impl Reading for Surveying {
    ghost feeds = { Feeds };

    fn feed(&mut self, part: &[u8]) -> Result<Wants, LogFault> {
        self.parts.feed(part, &mut self.records)
    }
}

impl Taker for Surveyed {
    ghost takes = { SurveysText };

    fn take(&mut self, text: LogText<'_>) -> Result<Wants, LogFault> {
        if self.is_at_head || text.trace != self.trace {
            self.is_at_head = false;
            return Ok(Wants::More);
        }
        match self.first.push(text.bytes, text.place) {
            Ok(()) => Ok(Wants::More),
            Err(NoRecord::NotJson) => self.pass(text),
            Err(fault) => Err(LogFault::of_record(text.place, fault)),
        }
    }
}

impl Surveyed {
    /// Takes a text that is not JSON.
    fn pass(&mut self, text: LogText<'_>) -> Result<Wants, LogFault>
        ensures instead { IsNotJson text.entry.bytes.now → IfOk result (λ wants.
            ReadsText SurveysRecord SkipsText (cutting.given text.entry) (records_of self.old) wants
            (records_of self.new)) }
        ensures trace { self.new.trace ≡ self.old.trace }
        ensures is_at_head { self.new.is_at_head ≡ self.old.is_at_head }
    {
        match self.unread.take(text)? {
            Instead::Ends => Ok(Wants::Nothing),
            Instead::Passes(_) => {
                self.first.push_unread(text.place);
                Ok(Wants::More)
            }
        }
    }
}
