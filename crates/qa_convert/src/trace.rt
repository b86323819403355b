//! A log as a trace: it is read twice, text by text.
ghost use Rattle.std.specs.Prelude.{◌≡◌, [], Err, IfErr, IfOk, OnOk, Some};
ghost use Rattle.json.specs.Json.{Json, document};
ghost use Rattle.qa_convert.specs.Dialects.{IsLike};
ghost use Rattle.qa_convert.specs.OwnKeys.{AreEventLines, IsHeaderLine};
ghost use Rattle.qa_convert.specs.Faults.{IsTextFault, OfRecord};
ghost use Rattle.qa_convert.specs.Headers.{IsHeaderOf};
ghost use Rattle.qa_convert.specs.Passing.{Closes};
ghost use Rattle.qa_convert.specs.Surveying.{Surveys, passed_over, unread};
ghost use Rattle.qa_convert.specs.Taking.{Begins, Takes, TakesUnread};
ghost use Rattle.qa_convert.specs.Telling.{nothing, told};

use crate::conversion::Terms;
use crate::converting::{Converting, NoMore};
use crate::dialects::Dialect;
use crate::header::{Choices, NoHeader};
use crate::lines::HeaderLine;
use crate::looking::Order;
use crate::noted::NotedFault;
use crate::notes::Notes;
use crate::place::Place;
use crate::room::Room;
use crate::stacks::Stack;
use crate::survey::{NoSurvey, Survey};
use crate::surveying::{NoRecord, Surveying};
use crate::writing::{NoLine, Writing};
use qa_base::{Controller, Role};
use qa_qlog::Head;
use std::alloc::{AllocError, Global};
use std::marker::Model;
use thiserror::Error;

/// Why a log gives no trace.
#[derive(Clone, Copy, Debug, PartialEq, Eq, Error)]
pub enum NoTrace {
    /// It lacks what a trace needs.
    #[error("{0}")]
    Survey(NoSurvey),
    /// It has no header.
    #[error("{0}")]
    Header(NoHeader),
    /// Its header cannot be written.
    #[error("{0}")]
    Line(NotedFault),
    /// Out of memory.
    #[error("out of memory")]
    OutOfMemory,
}

impl From<NoSurvey> for NoTrace {
    fn from(fault: NoSurvey) -> Self {
        NoTrace::Survey(fault)
    }
}

impl From<NoHeader> for NoTrace {
    fn from(fault: NoHeader) -> Self {
        match fault {
            NoHeader::OutOfMemory => NoTrace::OutOfMemory,
            fault => NoTrace::Header(fault),
        }
    }
}

impl From<NotedFault> for NoTrace {
    fn from(fault: NotedFault) -> Self {
        match fault {
            NotedFault::OutOfMemory => NoTrace::OutOfMemory,
            fault => NoTrace::Line(fault),
        }
    }
}

impl From<AllocError> for NoTrace {
    fn from(_refused: AllocError) -> Self {
        NoTrace::OutOfMemory
    }
}

/// What is asked of a trace.
#[derive(Clone, Copy)]
pub struct Asked {
    /// Of which endpoint the log is.
    pub role: Role,
    /// The kind of log.
    pub dialect: Dialect,
    /// Which of its connections is converted, from 1 on.
    pub connection: u64,
    /// What its header says.
    pub choices: Choices,
    /// Whether each line says where in the log it is from.
    pub has_places: bool,
}

/// The first reading of a log. Nothing is written yet: its end may decide its first line. Contracts
/// see what is asked of its trace, how far the log is read, and what it says of the whole trace.
#[derive(Drop)]
pub struct FirstReading {
    alloc: Global,
    asked: Asked,
    room: Room,
    surveying: Surveying,
}

impl Model for FirstReading {
    ghost use Rattle.qa_convert.specs.Surveying.{Surveyed, surveyed_by};
    ghost use Rattle.qa_convert.specs.declared.trace.Asked.{Asked};

    ghost Value = { Asked × Surveyed };

    ghost view = { λ r. (r.asked, surveyed_by r.surveying) };
}

impl FirstReading {
    /// Before the first record of a log with this head.
    pub fn new(alloc: Global, head: Head, asked: Asked) -> FirstReading
        ensures { result ≡ (asked, unread head asked.connection asked.role) }
    {
        let survey = Survey::new(alloc, &asked.dialect, asked.role);
        let surveying = Surveying::new(alloc, head, asked.connection, survey);
        FirstReading {
            alloc,
            asked,
            room: Room::new(alloc),
            surveying,
        }
    }

    /// Looks at the next text, which begins there. `NotJson` leaves all as it was; after any other
    /// error it is of no use.
    pub fn push(&mut self, text: &[u8], place: Place) -> Result<(), NoRecord>
        ensures asked { self.new.0 ≡ self.old.0 }
        ensures surveys { OnOk result ((j : Json) × (document text.now ≡ Some j)
            × Surveys j place self.old.1 self.new.1) }
        ensures fault { IfErr result (IsTextFault self.old.1.head self.old.1.connections
            text.now) }
        ensures json { result ≡ Err NoRecord.NotJson → self.new ≡ self.old }
    {
        let result = self.surveying.push(&mut self.room, text, place);
        self.room.clear();
        result
    }

    /// Passes over a text that is not JSON, and that says nothing of packets.
    pub fn push_unread(&mut self, place: Place)
        ensures { self.new ≡ (self.old.0, passed_over self.old.1) }
    {
        self.surveying.push_unread(place);
    }

    /// How many connections and paths the records have named so far; 0 if they name none.
    pub fn connections(&self) -> u64
        ensures { result ≡ self.now.1.connections.count }
    {
        self.surveying.cursor.connections.count
    }

    /// The log ends: the second reading. `head` is that of the log again.
    pub fn second(self, head: Head) -> Result<SecondReading, NoTrace>
        ensures begins { IfOk result (λ second. Begins head self.0.connection self.0.dialect
            self.1.sources second.2) }
        ensures header { IfOk result (λ second. IsHeaderOf self.0 self.1.sources
            second.2.rules.decoding.unit second.0) }
        ensures told { IfOk result (λ second. told second.1 ≡ nothing) }
    {
        let FirstReading {
            alloc,
            asked,
            room,
            surveying,
        } = self;
        let survey = surveying.survey;
        survey.check()?;
        let dialect = dialect_by(&survey, asked.dialect);
        let unit = asked.choices.unit(&dialect, &survey);
        let mut writing = Writing::new(alloc, unit, asked.has_places);
        doubt(alloc, &survey, &asked.dialect, &dialect, &mut writing.notes)?;
        let header = asked
            .choices
            .header(asked.role, &dialect, &survey, &mut writing)?;
        let name = dialect.stack.name();
        let line = writing.output.header(header, name, &writing.notes.doubts)?;
        let options = header.options();
        writing.notes.warn(alloc, &dialect, &survey, options)?;
        let terms = Terms {
            dialect: Dialect {
                time_threshold_eighths: options.time_threshold_eighths,
                ..dialect
            },
            role: asked.role,
            datagram: header.max_datagram_size(),
            is_window_reported: options.controller == Controller::Reported,
        };
        let connection = asked.connection;
        let converting = Converting::new(alloc, head, connection, terms, survey, writing);
        Ok(SecondReading {
            line,
            room,
            converting,
        })
    }
}

/// The dialect of a log, in the order in which the log is.
fn dialect_by(survey: &Survey, asked: Dialect) -> Dialect
    ensures { IsLike asked result }
{
    if asked.stack == Stack::Generic {
        return survey.looking.dialect(asked, survey.has_milliseconds);
    }
    survey.looking.corrected(asked).unwrap_or(asked)
}

/// Notes why the log may be misread, and what was found if it names no dialect.
fn doubt(
    alloc: Global,
    survey: &Survey,
    asked: &Dialect,
    found: &Dialect,
    notes: &mut Notes,
) -> Result<(), AllocError> {
    if asked.stack == Stack::Generic {
        notes.find(alloc, &survey.looking, found, survey.has_milliseconds)?;
    } else if Order::of(found) != Order::of(asked) {
        notes.doubt_order(alloc, asked, found)?;
    }
    if let Some(doubt) = survey.looking.doubt() {
        notes.doubts.push(doubt.text(alloc)?)?;
    }
    Ok(())
}

/// The second reading of a log, by which its lines are written. Contracts see the line of the
/// header, the lines that were written since `clear`, and how far the log is read.
#[derive(Drop)]
pub struct SecondReading {
    line: HeaderLine,
    room: Room,
    converting: Converting,
}

impl Model for SecondReading {
    ghost use Rattle.std.specs.Prelude.{List, ℕ};
    ghost use Rattle.qa_convert.specs.Taking.{Progress, progress_of};

    ghost Value = { List ℕ × List ℕ × Progress };

    ghost view = { λ r. (
      r.line,
      r.converting.conversion.writing.output.text,
      progress_of r.converting,
    ) };
}

impl SecondReading {
    /// Takes the next text, which begins there. `NotJson` leaves all as it was; after any other
    /// error it is of no use but for the lines that were written.
    pub fn push(&mut self, text: &[u8], place: Place) -> Result<(), NoMore>
        ensures takes { OnOk result ((j : Json) × (document text.now ≡ Some j)
            × Takes j place self.old.2 (told self.old.1) self.new.2 (told self.new.1)) }
        ensures fault { IfErr result (OfRecord (IsTextFault self.old.2.head
            self.old.2.connections text.now)) }
        ensures json { result ≡ Err (NoMore.Record NoRecord.NotJson) → self.new ≡ self.old }
        ensures line { self.new.0 ≡ self.old.0 }
    {
        let result = self.converting.push(&mut self.room, text, place);
        self.room.clear();
        result
    }

    /// Passes over a text that is not JSON, and that says nothing of packets: a report perhaps.
    pub fn push_unread(&mut self, place: Place, is_report: bool) -> Result<(), NoLine>
        ensures takes { OnOk result (TakesUnread place is_report self.old.2 (told self.old.1)
            self.new.2 (told self.new.1)) }
        ensures line { self.new.0 ≡ self.old.0 }
    {
        self.converting.push_unread(place, is_report)
    }

    /// The log ends, perhaps torn off.
    pub fn end(&mut self, is_torn: bool) -> Result<(), NoLine>
        ensures closes { OnOk result (Closes self.old.2.rules is_torn self.old.2.waits
            self.old.2.held self.old.2.ready (told self.old.1) (told self.new.1)) }
        ensures line { self.new.0 ≡ self.old.0 }
    {
        self.converting.end(is_torn)
    }

    /// The line of the header, with its LF. A reader of traces reads it as what it says
    /// (`written_lines_are_read`).
    pub fn header(&self) -> &[u8]
        ensures text { result.now ≡ self.now.0 }
        ensures line { IsHeaderLine result.now }
    {
        self.line.as_slice()
    }

    /// The lines that were written since `clear`, each ended by LF. Each is that of an event, and a
    /// reader of traces reads it as what it says (`written_lines_are_read`).
    pub fn text(&self) -> &[u8]
        ensures text { result.now ≡ self.now.1 }
        ensures lines { AreEventLines result.now }
    {
        self.converting.conversion.writing.output.text.as_slice()
    }

    /// Takes those lines away.
    pub fn clear(&mut self)
        ensures { self.new ≡ (self.old.0, [], self.old.2) }
    {
        self.converting.conversion.writing.output.text.clear();
    }

    /// What is told in any case, once the log has ended: why a refusal may be due to the reading of
    /// the log or to what a trace cannot say, and timers that were left out.
    pub fn told(&self, alloc: Global) -> Result<Vec<String>, AllocError> {
        self.converting.conversion.writing.notes.told(alloc)
    }

    /// What was found, guessed and left out, once the log has ended.
    pub fn notes(&self, alloc: Global) -> Result<Vec<String>, AllocError> {
        self.converting.conversion.writing.notes.lines(alloc)
    }
}
