//! Texts of a log that are not JSON: what is done with the log then (RFC 7464, section 2.3).
ghost use Rattle.std.specs.Prelude.{◌≡◌, Decides, IfOk, None};
ghost use Rattle.qa_logs.specs.Cutting.{given};
ghost use Rattle.qa_logs.specs.Unread.{DoneWith, IsDecisive};

use crate::cutting::LogText;
use crate::fault::LogFault;
use crate::files::has;
use qa_convert::{NoRecord, Place};
use std::alloc::{AllocError, Global};

/// Of how many texts that were passed over the lines are told.
const MOST_TOLD: u64 = 3;

/// Where a log of many texts ends before its file does.
#[derive(Clone, Copy)]
pub(crate) struct TornAt {
    /// Where the text begins.
    pub(crate) place: Place,
    /// Whether the text is whole and not JSON.
    pub(crate) is_broken: bool,
}

/// What is done with a text that is not JSON.
#[derive(Clone, Copy)]
pub(crate) enum Instead {
    /// The log ends with the text before it.
    Ends,
    /// It is passed over, and is perhaps a report.
    Passes(bool),
}

/// The texts of a log that were not JSON so far.
#[derive(Drop)]
pub(crate) struct Unread {
    /// Where the log ends before its file does, if it does.
    pub(crate) torn: Option<TornAt>,
    /// Where the first of those begin that were passed over.
    places: Vec<Place>,
    /// How many were passed over.
    count: u64,
}

impl Unread {
    /// None. Takes no memory.
    pub(crate) fn new(alloc: Global) -> Unread
        ensures { result.torn ≡ None }
    {
        Unread {
            torn: None,
            places: Vec::new(alloc),
            count: 0,
        }
    }

    /// What is done with a text that is not JSON. In a log that is one object it is a fault: what
    /// follows it cannot be told apart from it.
    pub(crate) fn take(&mut self, text: LogText<'_>) -> Result<Instead, LogFault>
        ensures { IfOk result (λ instead. DoneWith (given text.entry) self.old.torn instead
            self.new.torn) }
    {
        let Place::Line(_) = text.place else {
            return Err(LogFault::Record(text.place, NoRecord::NotJson));
        };
        if !text.is_whole || is_decisive(text.bytes) {
            self.torn = Some(TornAt {
                place: text.place,
                is_broken: text.is_whole,
            });
            return Ok(Instead::Ends);
        }
        self.pass(text.place)?;
        Ok(Instead::Passes(has(text.bytes, b"metrics")))
    }

    /// Passes over a text.
    fn pass(&mut self, place: Place) -> Result<(), AllocError>
        ensures { self.new.torn ≡ self.old.torn }
    {
        self.count = self.count.saturating_add(1);
        if self.count <= MOST_TOLD {
            self.places.push(place)?;
        }
        Ok(())
    }

    /// What is told of them.
    pub(crate) fn told(&self, alloc: Global) -> Result<Vec<String>, AllocError> {
        let mut told = Vec::new(alloc);
        for place in &self.places {
            told.push(format!(in alloc; "{place}: not JSON; the record is passed over")?)?;
        }
        let count = self.count;
        if MOST_TOLD < count {
            told.push(format!(in alloc; "{count} such records are passed over")?)?;
        }
        if let Some(torn) = self.torn {
            told.push(torn.text(alloc)?)?;
        }
        Ok(told)
    }
}

impl TornAt {
    /// What is told of it.
    fn text(self, alloc: Global) -> Result<String, AllocError> {
        let what = if self.is_broken {
            "not JSON"
        } else {
            "torn off"
        };
        let place = self.place;
        format!(in alloc; "{what} at {place}; the trace ends there")
    }
}

/// Whether a text names what decides what follows it.
fn is_decisive(text: &[u8]) -> bool
    ensures { Decides result (IsDecisive text.now) }
{
    has(text, b"packet")
        || has(text, b"timer")
        || has(text, b"key_")
        || has(text, b"parameters_set")
}
