//! The look at a log before its records are read: what it is, and what it says beside them.
ghost use Rattle.std.specs.Prelude.{◌≡◌, ◌++◌, IfOk, None, OnOk, Some, true};
ghost use Rattle.qa_logs.specs.Opening.{Begins, Ends, EndsFound, Feeds, FeedsBeginning};
ghost use Rattle.qa_logs.specs.Opening.{EndsAsText, FeedsFound, IsFirst, IsFoundBy, IsSkeleton};
ghost use Rattle.qa_logs.specs.Opening.{KeepsText, is_enough, unopened};

use crate::Reading;
use crate::cutting::{Form, LogText, NoTaker, Parts, Taker, Wants};
use crate::fault::LogFault;
use crate::log::Log;
use qa_convert::Place;
use qa_qlog::{Kind, Mark, NoHead, Skeleton, kind_of};
use std::alloc::{AllocError, Global};
use std::marker::Model;

/// How much of a log decides what it is, if its first line is longer.
const LONGEST_BEGINNING: usize = 1_048_576;

/// The look at a log before its records are read. Contracts see the log so far, as long as it is
/// not known what it is, and then what it is, and what was found of it.
#[derive(Drop)]
pub struct Opening {
    alloc: Global,
    /// The log so far, as long as it is not known what it is.
    beginning: Vec<u8>,
    /// What it is, and what was found of it.
    found: Option<Found>,
}

/// What a log is, and what was found of it so far.
#[derive(Drop)]
struct Found {
    form: Form,
    parts: Parts,
    first: First,
}

/// The first text of a log.
#[derive(Drop)]
struct First {
    alloc: Global,
    text: Option<Kept>,
}

/// A text that is kept.
#[derive(Drop)]
struct Kept {
    bytes: Vec<u8>,
    place: Place,
    is_whole: bool,
}

impl Model for Opening {
    ghost use Rattle.qa_logs.specs.Opening.{Opened};

    ghost Value = { Opened };

    ghost view = { λ o. record {
      beginning = o.beginning.items;
      found = o.found;
    } };
}

impl Taker for First {
    ghost takes = { KeepsText };

    fn take(&mut self, text: LogText<'_>) -> Result<Wants, LogFault> {
        self.text = Some(Kept {
            bytes: Vec::from_slice(self.alloc, text.bytes)?,
            place: text.place,
            is_whole: text.is_whole,
        });
        Ok(Wants::Nothing)
    }
}

impl Opening {
    /// Before the first part. Takes no memory.
    pub fn new(alloc: Global) -> Opening
        ensures { result ≡ unopened }
    {
        Opening {
            alloc,
            beginning: Vec::new(alloc),
            found: None,
        }
    }

    /// The log ends, or no more of it is needed: what it says beside its records.
    pub fn end(self) -> Result<Log, LogFault>
        ensures { IfOk result (λ log. Ends self log) }
    {
        let Opening {
            alloc,
            beginning,
            found,
        } = self;
        match found {
            Some(found) => found.end(alloc),
            None => {
                let (found, _wants) = found_by(alloc, beginning.as_slice())?;
                found.end(alloc)
            }
        }
    }

    /// Keeps the beginning of the log, and says whether that is enough to know what it is.
    fn keep(&mut self, part: &[u8]) -> Result<bool, AllocError>
        ensures enough { IfOk result (λ enough. enough
            ≡ is_enough part.now (self.old.beginning ++ part.now)) }
        ensures beginning { OnOk result (self.new.beginning ≡ self.old.beginning ++ part.now) }
        ensures found { self.new.found ≡ self.old.found }
    {
        let has_line = part.contains(&b'\n');
        self.beginning.extend_from_slice(part)?;
        Ok(has_line || LONGEST_BEGINNING <= self.beginning.len())
    }

    /// Finds out what the log is, by its beginning.
    fn decide(&mut self) -> Result<Wants, LogFault>
        ensures { IfOk result (λ wants. FeedsBeginning true self.old.beginning wants self.new) }
    {
        let (found, wants) = found_by(self.alloc, self.beginning.as_slice())?;
        self.beginning = Vec::new(self.alloc);
        self.found = Some(found);
        Ok(wants)
    }
}

/// What a log is that begins with these bytes, which are taken as its first part, and whether more
/// of it is needed.
fn found_by(alloc: Global, beginning: &[u8]) -> Result<(Found, Wants), LogFault>
    ensures { IfOk result (λ found. IsFoundBy beginning.now found.1 found.0) }
{
    let form = match kind_of(alloc, beginning)? {
        Kind::TextSequence | Kind::Lines => Form::Texts(Mark::of(beginning)),
        Kind::Document => Form::Document,
        Kind::Netlog => return Err(LogFault::Netlog),
    };
    let mut found = Found::new(alloc, form);
    let wants = found.feed(beginning)?;
    Ok((found, wants))
}

impl Reading for Opening {
    ghost feeds = { Feeds };

    fn feed(&mut self, part: &[u8]) -> Result<Wants, LogFault> {
        if let Some(found) = &mut self.found {
            return found.feed(part);
        }
        if self.keep(part)? {
            self.decide()
        } else {
            Ok(Wants::More)
        }
    }
}

impl Found {
    /// Of a log of this form, before its first part.
    fn new(alloc: Global, form: Form) -> Found
        ensures { Begins form result }
    {
        Found {
            form,
            parts: Parts::new(alloc, form),
            first: First { alloc, text: None },
        }
    }

    /// Takes the next part.
    fn feed(&mut self, part: &[u8]) -> Result<Wants, LogFault>
        ensures { IfOk result (λ wants. FeedsFound part.now self.old wants self.new) }
    {
        match self.form {
            Form::Texts(_) => self.parts.feed(part, &mut self.first),
            Form::Document => self.parts.feed(part, &mut NoTaker {}),
        }
    }

    /// The log ends: what it says beside its records.
    fn end(self, alloc: Global) -> Result<Log, LogFault>
        ensures { IfOk result (λ log. EndsFound self log) }
    {
        let Found { form, parts, first } = self;
        match form {
            Form::Texts(_) => first.into_log(alloc, form, parts),
            Form::Document => document_of(alloc, parts.into_skeleton()?),
        }
    }
}

impl First {
    /// The log ends: of what is left of it the first text is kept, if none is yet.
    fn into_log(self, alloc: Global, form: Form, parts: Parts) -> Result<Log, LogFault>
        ensures { IfOk result (λ log. (log.form ≡ form) × EndsAsText parts self log) }
    {
        let (mut parts, mut first) = (parts, self);
        parts.end(&mut first)?;
        let First { text, .. } = first;
        match text {
            Some(kept) => kept.into_log(alloc, form),
            None => Err(LogFault::Empty),
        }
    }
}

/// A log that is one object, and has this beside its records.
fn document_of(alloc: Global, skeleton: Option<Skeleton>) -> Result<Log, LogFault>
    ensures { IfOk result (λ log. (log.form ≡ Form.Document) × IsSkeleton skeleton log) }
{
    match skeleton {
        Some(skeleton) => {
            let Skeleton { bytes, torn_at } = skeleton;
            Ok(Log::of_document(alloc, bytes, torn_at))
        }
        None => Err(LogFault::Empty),
    }
}

impl Kept {
    /// A log of many texts whose first one this is.
    fn into_log(self, alloc: Global, form: Form) -> Result<Log, LogFault>
        ensures { IfOk result (λ log. (log.form ≡ form) × IsFirst (Some self) log) }
    {
        let Kept {
            bytes,
            place,
            is_whole,
        } = self;
        let log = Log::of_texts(alloc, form, bytes, place);
        match log.head(1) {
            Err(LogFault::Head(_, NoHead::NotJson)) if !is_whole => Err(LogFault::Torn(place)),
            Err(fault) => Err(fault),
            Ok(_) => Ok(log),
        }
    }
}
