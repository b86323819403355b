//! The first reading of a log: its texts, one after another.
ghost use Rattle.std.specs.Prelude.{◌≡◌, Err, IfErr, IfOk, List, None, OnOk, Option, Some};
ghost use Rattle.json.specs.Json.{Json, document};
ghost use Rattle.json.specs.Find.{BeginsWith, Finds};
ghost use Rattle.qa_base.specs.declared.space.Role.{Role as ARole};
ghost use Rattle.qa_convert.specs.Connections.{none_named, numbering_of};
ghost use Rattle.qa_convert.specs.Faults.{IsFault, IsLossesFault, IsRecordFault, IsTextFault};
ghost use Rattle.qa_convert.specs.Faults.{IsTimeFault, OfEvent};
ghost use Rattle.qa_convert.specs.Reading.{AreLosses, Reads, SaysAll, SaysLosses, at_of};
ghost use Rattle.qa_convert.specs.Reading.{clock_before, events_at, next_index};
ghost use Rattle.qa_convert.specs.Sources.{destination_of, no_sources, sources_after, sources_in};
ghost use Rattle.qa_convert.specs.Surveying.{Surveys, passed_over};
ghost use Rattle.qa_convert.specs.Surveying.{surveyed_by, unread};
ghost use Rattle.qa_convert.specs.declared.event.Said.{Said as ASaid};
ghost use Rattle.qa_convert.specs.declared.surveying.NoRecord.TheVariants as no_record;
ghost use Rattle.qa_qlog.specs.Lengths.{destination as a_destination};

use crate::clock::Clock;
use crate::connections::Connections;
use crate::event::{At, LoggedEvent, Said, losses_of};
use crate::packet::NoEvent;
use crate::place::Place;
use crate::room::Room;
use crate::survey::Survey;
use json::{Element, Error as JsonError, Tape};
use qa_qlog::{EventName, Head, NoTime, Packet, path_id};
use std::alloc::{AllocError, Global};
use thiserror::Error;

/// Why a text of a log is no record that can be read.
#[derive(Clone, Copy, Debug, PartialEq, Eq, Error)]
pub enum NoRecord {
    /// It is not JSON.
    #[error("not JSON")]
    NotJson,
    /// Its time cannot be read.
    #[error("time: {0}")]
    Time(NoTime),
    /// Its event cannot be read.
    #[error("{0}")]
    Event(NoEvent),
    /// Out of memory.
    #[error("out of memory")]
    OutOfMemory,
}

impl From<NoTime> for NoRecord {
    ghost use Rattle.std.specs.Prelude.{◌≡◌};
    ghost use Rattle.qa_convert.specs.declared.surveying.NoRecord.TheVariants.{Time};

    ghost from_gives = { λ fault result. result ≡ Time fault };

    fn from(fault: NoTime) -> Self {
        NoRecord::Time(fault)
    }
}

impl From<NoEvent> for NoRecord {
    ghost use Rattle.std.specs.Prelude.{◌≡◌};
    ghost use Rattle.qa_convert.specs.Faults.{of_event};

    ghost from_gives = { λ fault result. result ≡ of_event fault };

    fn from(fault: NoEvent) -> Self {
        match fault {
            NoEvent::OutOfMemory => NoRecord::OutOfMemory,
            fault => NoRecord::Event(fault),
        }
    }
}

impl From<AllocError> for NoRecord {
    ghost use Rattle.std.specs.Prelude.{◌≡◌};
    ghost use Rattle.qa_convert.specs.declared.surveying.NoRecord.TheVariants.{OutOfMemory};

    ghost from_gives = { λ _ result. result ≡ OutOfMemory };

    fn from(_refused: AllocError) -> Self {
        NoRecord::OutOfMemory
    }
}

/// Where the reading of a log is.
#[derive(Drop)]
pub(crate) struct Cursor {
    clock: Clock,
    pub(crate) connections: Connections,
    /// The index of the next record.
    index: u64,
}

/// The name of an event that is converted, where and when its record is, and its data.
#[derive(Drop)]
pub(crate) struct Named<'t, 'a> {
    pub(crate) name: EventName,
    pub(crate) at: At,
    pub(crate) object: Option<Element<'t, 'a>>,
}

impl Cursor {
    /// Before the first record of a log with this head, if that connection is chosen.
    pub(crate) fn new(alloc: Global, head: &Head, chosen: u64) -> Cursor
        ensures clock { result.clock ≡ clock_before head.now }
        ensures connections { numbering_of result.connections ≡ none_named chosen }
        ensures index { result.index ≡ 0 }
    {
        Cursor {
            clock: Clock::new(head.form),
            connections: Connections::new(alloc, chosen),
            index: 0,
        }
    }

    /// What the next record has, if its event is one that is converted.
    pub(crate) fn next<'t, 'a>(
        &mut self,
        head: &Head,
        record: &Element<'t, 'a>,
        place: Place,
    ) -> Result<Option<Named<'t, 'a>>, NoRecord>
        ensures reads { (j : Json) → BeginsWith record.now j
            → IfOk result (Reads head.now j place self.old self.new) }
        ensures fault { (j : Json) → BeginsWith record.now j
            → IfErr result (IsTimeFault head.now j) }
    {
        let index = self.index;
        self.index = self.index.saturating_add(1);
        let Some(event) = head.event(record)? else {
            return Ok(None);
        };
        let time = self.clock.next(event.time);
        let Some(name) = event.name else {
            return Ok(None);
        };
        let object = head.data(record);
        if !self
            .connections
            .has(head.group_id(record), path_id(&object))?
        {
            return Ok(None);
        }
        let at = At { place, index, time };
        Ok(Some(Named { name, at, object }))
    }

    /// Passes over the next record, which is not JSON; its time is that of the one before.
    pub(crate) fn pass(&mut self, place: Place) -> At
        ensures at { result ≡ at_of place self.old.index self.old.clock None }
        ensures index { self.new.index ≡ next_index self.old.index }
        ensures clock { self.new.clock ≡ self.old.clock }
        ensures connections { numbering_of self.new.connections
            ≡ numbering_of self.old.connections }
    {
        let index = self.index;
        self.index = self.index.saturating_add(1);
        At {
            place,
            index,
            time: self.clock.last(),
        }
    }
}

/// Reads a log for the first time.
#[derive(Drop)]
pub(crate) struct Surveying {
    alloc: Global,
    head: Head,
    pub(crate) cursor: Cursor,
    pub(crate) survey: Survey,
}

impl Surveying {
    /// Before the first record of a log.
    pub(crate) fn new(alloc: Global, head: Head, chosen: u64, survey: Survey) -> Surveying
        ensures { (role : ARole) → sources_in survey ≡ no_sources role
            → surveyed_by result ≡ unread head chosen role }
    {
        let cursor = Cursor::new(alloc, &head, chosen);
        Surveying {
            alloc,
            head,
            cursor,
            survey,
        }
    }

    /// Looks at the next text, which begins there. After `OutOfMemory` it is of no use.
    pub(crate) fn push(
        &mut self,
        room: &mut Room,
        text: &[u8],
        place: Place,
    ) -> Result<(), NoRecord>
        ensures surveys { OnOk result ((j : Json) × (document text.now ≡ Some j)
            × Surveys j place (surveyed_by self.old) (surveyed_by self.new)) }
        ensures fault { IfErr result (IsTextFault self.old.head
            (numbering_of self.old.cursor.connections) text.now) }
        ensures json { result ≡ Err no_record.NotJson → self.new ≡ self.old }
    {
        let Ok(text) = str::from_utf8(text) else {
            return Err(NoRecord::NotJson);
        };
        match Tape::parse(text, &mut room.scratch, Vec::new(&room.nodes)) {
            Ok(tape) => self.see(&tape.root(), place),
            Err(JsonError::Invalid) => Err(NoRecord::NotJson),
            Err(_) => Err(NoRecord::OutOfMemory),
        }
    }

    /// Passes over a text that is not JSON, and that says nothing of packets.
    pub(crate) fn push_unread(&mut self, place: Place)
        ensures { surveyed_by self.new ≡ passed_over (surveyed_by self.old) }
    {
        self.cursor.pass(place);
    }

    /// Looks at the next record.
    fn see(&mut self, record: &Element<'_, '_>, place: Place) -> Result<(), NoRecord>
        ensures surveys { (j : Json) → BeginsWith record.now j
            → OnOk result (Surveys j place (surveyed_by self.old) (surveyed_by self.new)) }
        ensures fault { (j : Json) → BeginsWith record.now j
            → IfErr result (IsRecordFault self.old.head
            (numbering_of self.old.cursor.connections) j) }
    {
        match self.cursor.next(&self.head, record, place)? {
            Some(named) => self.see_event(named),
            None => Ok(()),
        }
    }

    /// Looks at the event of a record.
    fn see_event(&mut self, event: Named<'_, '_>) -> Result<(), NoRecord>
        ensures says { (d : Option Json) → Finds event.entry.object d
            → OnOk result ((all : List ASaid) × SaysAll self.old.head.unit event.entry.name d all
            × (sources_in self.new.survey ≡ sources_after (destination_of d)
            (events_at event.entry.at all) (sources_in self.old.survey))) }
        ensures fault { (d : Option Json) → Finds event.entry.object d
            → IfErr result (OfEvent (IsFault self.old.head.unit event.entry.name d)) }
        ensures head { self.new.head ≡ self.old.head }
        ensures cursor { self.new.cursor ≡ self.old.cursor }
    {
        let Named { name, at, object } = event;
        if name == EventName::PacketsLost {
            return self.see_losses(object, at);
        }
        let packet = Packet::of(object);
        let said = Said::of(self.alloc, name, &packet, self.head.unit)?;
        let event = LoggedEvent { at, said };
        self.survey.see(self.alloc, &event, &packet)?;
        Ok(())
    }

    /// Looks at the losses that a record names, whose data is this object.
    fn see_losses(&mut self, object: Option<Element<'_, '_>>, at: At) -> Result<(), NoRecord>
        ensures says { (d : Option Json) → Finds object.entry d → OnOk result ((all : List ASaid)
            × SaysLosses d all
            × (sources_in self.new.survey ≡ sources_after (destination_of d) (events_at at all)
            (sources_in self.old.survey))) }
        ensures fault { (d : Option Json) → Finds object.entry d
            → IfErr result (OfEvent (IsLossesFault d)) }
        ensures head { self.new.head ≡ self.old.head }
        ensures cursor { self.new.cursor ≡ self.old.cursor }
    {
        let losses = losses_of(self.alloc, &object)?;
        let packet = Packet::of(object);
        self.see_all(losses, at, &packet)
    }

    /// Looks at events, one after another, whose record is there, and what it says of a packet.
    fn see_all(&mut self, all: Vec<Said>, at: At, packet: &Packet<'_, '_>) -> Result<(), NoRecord>
        ensures sources { (h d : Option Json) → Finds packet.now.header h
            → Finds packet.now.object d → OnOk result (sources_in self.new.survey
            ≡ sources_after (a_destination h d) (events_at at all.items)
            (sources_in self.old.survey)) }
        ensures fault { (hs : List Json) → AreLosses hs all.items
            → IfErr result (OfEvent (λ _. ⊥)) }
        ensures head { self.new.head ≡ self.old.head }
        ensures cursor { self.new.cursor ≡ self.old.cursor }
    {
        for said in all {
            let event = LoggedEvent { at, said };
            self.survey.see(self.alloc, &event, packet)?;
        }
        Ok(())
    }
}
