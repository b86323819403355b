//! The second reading of a log: its texts, one after another, as the lines of a trace.
ghost use Rattle.std.specs.Prelude.{◌≡◌, ◌∷◌, [], Err, IfErr, IfOk, List, None, OnOk, Option, Some};
ghost use Rattle.std.specs.Prelude.{false};
ghost use Rattle.json.specs.Json.{Json, document};
ghost use Rattle.json.specs.Find.{BeginsWith, Finds};
ghost use Rattle.qa_qlog.specs.Packets.{header_of};
ghost use Rattle.qa_convert.specs.Connections.{numbering_of};
ghost use Rattle.qa_convert.specs.Faults.{IsFault, IsLossesFault, IsOneFault, IsRecordFault};
ghost use Rattle.qa_convert.specs.Faults.{IsTextFault, OfEvent, OfRecord};
ghost use Rattle.qa_convert.specs.GroupLines.{TellsOf};
ghost use Rattle.qa_convert.specs.Groups.{Gathers};
ghost use Rattle.qa_convert.specs.Orders.{Follows, LetsGo};
ghost use Rattle.qa_convert.specs.Passing as passing;
ghost use Rattle.qa_convert.specs.Passing.{Closes, Passes, counted, waiting};
ghost use Rattle.qa_convert.specs.Reading.{GivesSize, SaysAll, SaysLosses, SaysSized, events_at};
ghost use Rattle.qa_convert.specs.Rules.{rules_after, rules_of};
ghost use Rattle.qa_convert.specs.Sources.{sources_in};
ghost use Rattle.qa_convert.specs.Taking.{Begins, Goes, Takes, TakesUnread, progress_of, told_of};
ghost use Rattle.qa_convert.specs.Telling.{told_in};
ghost use Rattle.qa_convert.specs.declared.converting.NoMore.TheVariants as no_more;
ghost use Rattle.qa_convert.specs.declared.event.Said.{Said as Kept};
ghost use Rattle.qa_convert.specs.declared.surveying.NoRecord.TheVariants as no_record;

use crate::conversion::{Conversion, Terms};
use crate::event::{At, LoggedEvent, Said, losses_of};
use crate::groups::{Group, Groups};
use crate::omission::Omission;
use crate::order::InOrder;
use crate::packet::LoggedPacket;
use crate::place::Place;
use crate::room::Room;
use crate::sizes::Sizes;
use crate::survey::{Retry, Survey};
use crate::surveying::{Cursor, Named, NoRecord};
use crate::writing::{NoLine, Writing};
use json::{Element, Error as JsonError, Tape};
use qa_qlog::{EventName, Head, Packet};
use std::alloc::{AllocError, Global};
use std::collections::VecDeque;
use thiserror::Error;

/// Why a trace ends before its log does.
#[derive(Clone, Copy, Debug, PartialEq, Eq, Error)]
pub enum NoMore {
    /// A text cannot be read.
    #[error("{0}")]
    Record(NoRecord),
    /// A line cannot be written.
    #[error("{0}")]
    Line(NoLine),
}

impl From<NoRecord> for NoMore {
    ghost use Rattle.std.specs.Prelude.{◌≡◌};
    ghost use Rattle.qa_convert.specs.declared.converting.NoMore.TheVariants.{Record};

    ghost from_gives = { λ fault result. result ≡ Record fault };

    fn from(fault: NoRecord) -> Self {
        NoMore::Record(fault)
    }
}

impl From<NoLine> for NoMore {
    ghost use Rattle.std.specs.Prelude.{◌≡◌};
    ghost use Rattle.qa_convert.specs.declared.converting.NoMore.TheVariants.{Line};

    ghost from_gives = { λ fault result. result ≡ Line fault };

    fn from(fault: NoLine) -> Self {
        NoMore::Line(fault)
    }
}

/// Reads a log for the second time.
#[derive(Drop)]
pub(crate) struct Converting {
    alloc: Global,
    head: Head,
    cursor: Cursor,
    sizes: Sizes,
    retry: Option<Retry>,
    /// How many packets were sent before the Retry.
    pub(crate) sent_before: u64,
    order: Option<InOrder>,
    groups: Groups,
    pub(crate) conversion: Conversion,
    /// Events in their order, and the groups of them, that are not yet written.
    events: VecDeque<LoggedEvent>,
    ready: VecDeque<Group>,
}

impl Converting {
    /// Before the first record of a log that was surveyed.
    pub(crate) fn new(
        alloc: Global,
        head: Head,
        chosen: u64,
        terms: Terms,
        survey: Survey,
        writing: Writing,
    ) -> Converting
        ensures begins { Begins head chosen terms.dialect (sources_in survey)
            (progress_of result) }
        ensures told { told_of result ≡ told_in writing }
        ensures unit { result.conversion.writing.output.unit ≡ writing.output.unit }
    {
        let cursor = Cursor::new(alloc, &head, chosen);
        let order = if terms.dialect.received_stands_last {
            Some(InOrder::new(alloc))
        } else {
            None
        };
        let conversion = Conversion::new(terms, &survey, writing);
        Converting {
            alloc,
            head,
            cursor,
            sizes: survey.sizes,
            retry: survey.retry,
            sent_before: 0,
            order,
            groups: Groups::new(alloc, terms.dialect),
            conversion,
            events: VecDeque::new(alloc),
            ready: VecDeque::new(alloc),
        }
    }

    /// Takes the next text, which begins there. `NotJson` leaves all as it was; after any other
    /// error it is of no use.
    pub(crate) fn push(&mut self, room: &mut Room, text: &[u8], place: Place) -> Result<(), NoMore>
        ensures takes { OnOk result ((j : Json) × (document text.now ≡ Some j)
            × Takes j place (progress_of self.old) (told_of self.old) (progress_of self.new)
            (told_of self.new)) }
        ensures fault { IfErr result (OfRecord (IsTextFault self.old.head
            (numbering_of self.old.cursor.connections) text.now)) }
        ensures json { result ≡ Err (no_more.Record no_record.NotJson) → self.new ≡ self.old }
    {
        let Ok(text) = str::from_utf8(text) else {
            return Err(NoMore::Record(NoRecord::NotJson));
        };
        match Tape::parse(text, &mut room.scratch, Vec::new(&room.nodes)) {
            Ok(tape) => self.take(&tape.root(), place),
            Err(JsonError::Invalid) => Err(NoMore::Record(NoRecord::NotJson)),
            Err(_) => Err(NoMore::Record(NoRecord::OutOfMemory)),
        }
    }

    /// Takes a text that is not JSON, and that says nothing of packets: a report perhaps.
    pub(crate) fn push_unread(&mut self, place: Place, is_report: bool) -> Result<(), NoLine>
        ensures { OnOk result (TakesUnread place is_report (progress_of self.old)
            (told_of self.old) (progress_of self.new) (told_of self.new)) }
    {
        let at = self.cursor.pass(place);
        if !is_report {
            return Ok(());
        }
        self.pass(LoggedEvent {
            at,
            said: Said::UnreadReport,
        })
    }

    /// Takes the next record.
    fn take(&mut self, record: &Element<'_, '_>, place: Place) -> Result<(), NoMore>
        ensures takes { (j : Json) → BeginsWith record.now j
            → OnOk result (Takes j place (progress_of self.old) (told_of self.old)
            (progress_of self.new) (told_of self.new)) }
        ensures fault { (j : Json) → BeginsWith record.now j
            → IfErr result (OfRecord (IsRecordFault self.old.head
            (numbering_of self.old.cursor.connections) j)) }
    {
        match self.cursor.next(&self.head, record, place)? {
            Some(named) => self.take_event(named),
            None => Ok(()),
        }
    }

    /// Takes the event of a record.
    fn take_event(&mut self, event: Named<'_, '_>) -> Result<(), NoMore>
        ensures goes { (d : Option Json) → Finds event.entry.object d
            → OnOk result ((all : List Kept)
            × SaysAll self.old.head.unit event.entry.name d all
            × Goes (events_at event.entry.at all) (progress_of self.old) (told_of self.old)
            (progress_of self.new) (told_of self.new)) }
        ensures fault { (d : Option Json) → Finds event.entry.object d → IfErr result
            (OfRecord (OfEvent (IsFault self.old.head.unit event.entry.name d))) }
        ensures cursor { self.new.cursor ≡ self.old.cursor }
    {
        let Named { name, at, object } = event;
        if name == EventName::PacketsLost {
            return self.take_losses(&object, at);
        }
        let said = self.said(name, &Packet::of(object))?;
        self.pass(LoggedEvent { at, said })?;
        Ok(())
    }

    /// What a record of this name says, with the size of a packet that is sent.
    fn said(&self, name: EventName, packet: &Packet<'_, '_>) -> Result<Said, NoRecord>
        ensures says { (d : Option Json) → Finds packet.now.object d
            → Finds packet.now.header (header_of d)
            → IfOk result (SaysSized self.now.head.unit name d) }
        ensures fault { (d : Option Json) → Finds packet.now.object d
            → Finds packet.now.header (header_of d)
            → IfErr result (OfEvent (IsOneFault self.now.head.unit name d)) }
    {
        let mut said = Said::of(self.alloc, name, packet, self.head.unit)?;
        if let Said::Sent(sent) = &mut said {
            self.give_size(packet, sent)?;
        }
        Ok(said)
    }

    /// Gives a packet that is sent its size, if its record does not have it.
    fn give_size(&self, packet: &Packet<'_, '_>, sent: &mut LoggedPacket) -> Result<(), NoRecord>
        ensures gives { OnOk result (GivesSize sent.old sent.new) }
        ensures fault { IfErr result (OfEvent (λ _. sent.old.size ≡ None)) }
    {
        if sent.size.is_some() {
            return Ok(());
        }
        if let Some(found) = self.sizes.find(packet, sent.space)? {
            sent.size = Some(found.size);
            sent.is_size_guessed = true;
            sent.keeps_room = found.keeps_room;
        }
        Ok(())
    }

    /// Takes the losses that a record names, whose data is this object.
    fn take_losses(&mut self, object: &Option<Element<'_, '_>>, at: At) -> Result<(), NoMore>
        ensures goes { (d : Option Json) → Finds object.now d → OnOk result ((all : List Kept)
            × SaysLosses d all × Goes (events_at at all) (progress_of self.old)
            (told_of self.old) (progress_of self.new) (told_of self.new)) }
        ensures fault { (d : Option Json) → Finds object.now d
            → IfErr result (OfRecord (OfEvent (IsLossesFault d))) }
        ensures cursor { self.new.cursor ≡ self.old.cursor }
    {
        let losses = match losses_of(self.alloc, object) {
            Ok(losses) => losses,
            Err(fault) => return Err(NoMore::Record(NoRecord::from(fault))),
        };
        self.pass_all(losses, at)?;
        Ok(())
    }

    /// Passes events on, one after another, whose record is there.
    fn pass_all(&mut self, all: Vec<Said>, at: At) -> Result<(), NoLine>
        ensures goes { OnOk result (Goes (events_at at all.items) (progress_of self.old)
            (told_of self.old) (progress_of self.new) (told_of self.new)) }
        ensures cursor { self.new.cursor ≡ self.old.cursor }
    {
        for said in all {
            self.pass(LoggedEvent { at, said })?;
        }
        Ok(())
    }

    /// Passes an event on, if it is behind a Retry, and no loss of what a probe only sends again.
    fn pass(&mut self, event: LoggedEvent) -> Result<(), NoLine>
        ensures passes { OnOk result (Passes (rules_of self.old.conversion)
            (waiting self.old.events.items self.old.order) self.old.groups self.old.ready.items
            (told_in self.old.conversion.writing) (counted self.old.retry event)
            (rules_of self.new.conversion) (waiting self.new.events.items self.new.order)
            self.new.groups self.new.ready.items (told_in self.new.conversion.writing)) }
        ensures head { self.new.head ≡ self.old.head }
        ensures cursor { self.new.cursor ≡ self.old.cursor }
        ensures retry { self.new.retry ≡ self.old.retry }
    {
        if self.leaves_out(&event)? {
            return Ok(());
        }
        self.arrange(event)
    }

    /// Whether an event says nothing of the trace; if so, it is counted.
    fn leaves_out(&mut self, event: &LoggedEvent) -> Result<bool, NoLine>
        ensures left { IfOk result (λ left. left ≡ passing.is_left_out self.old.retry event.now) }
        ensures told { OnOk result (told_in self.new.conversion.writing
            ≡ told_in self.old.conversion.writing) }
        ensures rules { OnOk result (rules_of self.new.conversion ≡ rules_of self.old.conversion) }
        ensures order { self.new.order ≡ self.old.order }
        ensures groups { self.new.groups ≡ self.old.groups }
        ensures events { self.new.events.items ≡ self.old.events.items }
        ensures ready { self.new.ready.items ≡ self.old.ready.items }
        ensures head { self.new.head ≡ self.old.head }
        ensures cursor { self.new.cursor ≡ self.old.cursor }
        ensures retry { self.new.retry ≡ self.old.retry }
    {
        if is_of_probe(&event.said) {
            self.conversion.writing.omit(Omission::LossOfProbe)?;
            return Ok(true);
        }
        let Some(retry) = self.retry else {
            return Ok(false);
        };
        if event.at.index < retry.first {
            let is_sent = matches!(&event.said, Said::Sent(_));
            self.sent_before = self.sent_before.saturating_add(u64::from(is_sent));
            return Ok(true);
        }
        if is_before(&event.said, &retry) {
            self.conversion.writing.omit(Omission::LossBeforeRetry)?;
            return Ok(true);
        }
        Ok(false)
    }

    /// Takes an event in the order in which things happened, and writes the groups that are
    /// complete.
    fn arrange(&mut self, event: LoggedEvent) -> Result<(), NoLine>
        ensures passes { OnOk result (Passes (rules_of self.old.conversion)
            (waiting self.old.events.items self.old.order) self.old.groups self.old.ready.items
            (told_in self.old.conversion.writing) (event ∷ []) (rules_of self.new.conversion)
            (waiting self.new.events.items self.new.order) self.new.groups self.new.ready.items
            (told_in self.new.conversion.writing)) }
        ensures head { self.new.head ≡ self.old.head }
        ensures cursor { self.new.cursor ≡ self.old.cursor }
        ensures retry { self.new.retry ≡ self.old.retry }
    {
        self.queue(event)?;
        self.group()?;
        self.write_groups()
    }

    /// Takes an event in the order in which things happened.
    fn queue(&mut self, event: LoggedEvent) -> Result<(), AllocError>
        ensures order { OnOk result (Follows (waiting self.old.events.items self.old.order)
            (event ∷ []) (waiting self.new.events.items self.new.order)) }
        ensures conversion { self.new.conversion ≡ self.old.conversion }
        ensures groups { self.new.groups ≡ self.old.groups }
        ensures ready { self.new.ready.items ≡ self.old.ready.items }
        ensures head { self.new.head ≡ self.old.head }
        ensures cursor { self.new.cursor ≡ self.old.cursor }
        ensures retry { self.new.retry ≡ self.old.retry }
    {
        match &mut self.order {
            Some(order) => order.push(event, &mut self.events),
            None => {
                self.events.push_back(event)?;
                Ok(())
            }
        }
    }

    /// Takes the events in their order into groups.
    fn group(&mut self) -> Result<(), AllocError>
        ensures groups { OnOk result (Gathers self.old.groups self.old.events.items self.new.groups
            self.old.ready.items self.new.ready.items) }
        ensures events { OnOk result (self.new.events.items ≡ []) }
        ensures conversion { self.new.conversion ≡ self.old.conversion }
        ensures order { self.new.order ≡ self.old.order }
        ensures head { self.new.head ≡ self.old.head }
        ensures cursor { self.new.cursor ≡ self.old.cursor }
        ensures retry { self.new.retry ≡ self.old.retry }
    {
        while let Some(event) = self.events.pop_front() {
            self.groups.push(event, &mut self.ready)?;
        }
        Ok(())
    }

    /// Writes groups that are complete.
    fn write_groups(&mut self) -> Result<(), NoLine>
        ensures written { OnOk result (self.new.ready.items ≡ []) }
        ensures told { OnOk result (TellsOf (rules_of self.old.conversion)
            self.old.ready.items (told_in self.old.conversion.writing)
            (told_in self.new.conversion.writing)) }
        ensures rules { OnOk result (rules_of self.new.conversion
            ≡ rules_after self.old.ready.items (rules_of self.old.conversion)) }
        ensures events { self.new.events.items ≡ self.old.events.items }
        ensures order { self.new.order ≡ self.old.order }
        ensures groups { self.new.groups ≡ self.old.groups }
        ensures head { self.new.head ≡ self.old.head }
        ensures cursor { self.new.cursor ≡ self.old.cursor }
        ensures retry { self.new.retry ≡ self.old.retry }
    {
        while let Some(group) = self.ready.pop_front() {
            self.conversion.write(group)?;
        }
        Ok(())
    }

    /// The log ends, perhaps torn off.
    pub(crate) fn end(&mut self, is_torn: bool) -> Result<(), NoLine>
        ensures { OnOk result (Closes (rules_of self.old.conversion) is_torn
            (waiting self.old.events.items self.old.order) self.old.groups self.old.ready.items
            (told_in self.old.conversion.writing) (told_in self.new.conversion.writing)) }
    {
        self.let_go(is_torn)?;
        self.group()?;
        self.groups.end(is_torn, &mut self.ready)?;
        self.write_groups()?;
        self.conversion.end()?;
        self.warn()?;
        Ok(())
    }

    /// Lets go the events that wait for their order.
    fn let_go(&mut self, is_torn: bool) -> Result<(), AllocError>
        ensures order { OnOk result (LetsGo is_torn (waiting self.old.events.items self.old.order)
            self.new.events.items) }
        ensures conversion { self.new.conversion ≡ self.old.conversion }
        ensures groups { self.new.groups ≡ self.old.groups }
        ensures ready { self.new.ready.items ≡ self.old.ready.items }
    {
        match &mut self.order {
            Some(order) => order.end(is_torn, &mut self.events),
            None => Ok(()),
        }
    }

    /// Tells that the trace begins after a Retry, if it does.
    fn warn(&mut self) -> Result<(), AllocError>
        ensures told { told_in self.new.conversion.writing ≡ told_in self.old.conversion.writing }
    {
        let Some(retry) = self.retry else {
            return Ok(());
        };
        let text = retry.text(self.alloc, self.sent_before)?;
        self.conversion.writing.notes.warnings.push(text)?;
        Ok(())
    }
}

/// Whether an event is a loss of what a probe only sends again.
fn is_of_probe(said: &Said) -> bool
    ensures { result ≡ passing.is_of_probe said.now }
{
    match said {
        Said::Lost(lost) => lost.is_repeated,
        _ => false,
    }
}

/// Whether an event is a loss of a packet that was sent before a Retry.
fn is_before(said: &Said, retry: &Retry) -> bool
    ensures { result ≡ passing.is_of_sent_before retry.now said.now }
{
    match said {
        Said::Lost(lost) => match *retry.numbers.of(lost.space) {
            Some(last) => lost.number.get() <= last,
            None => false,
        },
        _ => false,
    }
}
