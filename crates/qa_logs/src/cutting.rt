//! A log in parts, cut into its texts, each of which is handed on.
ghost use Rattle.std.specs.Prelude.{◌≡◌, IfOk, IfSome, None, OnOk, Some, false, true};
ghost use Rattle.qa_logs.specs.Cutting.{Ends, Feeds, Given, HandsAll, HandsOne, IsOpen, NextRecord};
ghost use Rattle.qa_logs.specs.Cutting.{NextText, given};
ghost use Rattle.qa_logs.specs.Cutting as cuts;
ghost use Rattle.qa_logs.specs.Opening.{HasSkeleton, PassesRecord};
ghost use Rattle.qa_logs.specs.declared.cutting.Cutter.TheVariants as cutters;
ghost use Rattle.qa_logs.specs.declared.cutting.Wants.{Wants as Wish};
ghost use Rattle.qa_qlog.specs.Cutting as cutting;
ghost use Rattle.qa_qlog.specs.Holding as holding;
ghost use Rattle.qa_qlog.specs.Standing as standing;
ghost use Rattle.qa_qlog.specs.Taking as taking;

use crate::fault::LogFault;
use qa_convert::Place;
use qa_qlog::{DocumentCutter, Mark, Skeleton, Texts};
use std::alloc::Global;
use std::marker::Model;

/// Whether a reading needs more parts of the log.
#[derive(Clone, Copy, Debug, PartialEq, Eq)]
pub enum Wants {
    /// It does.
    More,
    /// What follows is not looked at.
    Nothing,
}

/// How a log is written.
#[derive(Clone, Copy, Debug, PartialEq, Eq)]
pub(crate) enum Form {
    /// As many texts, of which the first is the head.
    Texts(Mark),
    /// As one object, with a list of traces.
    Document,
}

/// A text of a log.
#[derive(Clone, Copy)]
pub(crate) struct LogText<'a> {
    /// Its bytes.
    pub(crate) bytes: &'a [u8],
    /// Where it begins.
    pub(crate) place: Place,
    /// The number of its trace, from 1.
    pub(crate) trace: u64,
    /// Whether its end is in the log.
    pub(crate) is_whole: bool,
}

/// Takes the texts of a log, one after another.
pub(crate) trait Taker {
    // What it is before and after a text, and whether it needs more.
    ghost takes: { Self → Given → Wish → Self → Type 0 };

    /// Takes the next text, and says whether it needs more.
    fn take(&mut self, text: LogText<'_>) -> Result<Wants, LogFault>
        ensures { IfOk result (λ wants. takes self.old (given text.entry) wants self.new) };
}

/// Takes no text.
#[derive(Drop)]
pub(crate) struct NoTaker {}

impl Taker for NoTaker {
    ghost takes = { PassesRecord };

    fn take(&mut self, _text: LogText<'_>) -> Result<Wants, LogFault> {
        Ok(Wants::More)
    }
}

/// What cuts a log.
#[derive(Drop)]
pub(crate) enum Cutter {
    Texts(Texts, Mark),
    Document(DocumentCutter),
}

/// A log in parts, as long as more of it is needed and nothing failed.
#[derive(Drop)]
pub(crate) struct Parts {
    cutter: Option<Cutter>,
}

impl Model for Parts {
    ghost use Rattle.std.specs.Prelude.{Option};
    ghost use Rattle.std.specs.Option.{ForSome};
    ghost use Rattle.qa_logs.specs.Cutting.{IsOpen};
    ghost use Rattle.qa_logs.specs.declared.cutting.Cutter.{Cutter};

    ghost Value = { Option Cutter };

    ghost view = { λ p. p.cutter };

    ghost invariant = { λ p. ForSome p.cutter IsOpen };
}

impl Parts {
    /// A log of this form of which nothing came yet. Takes no memory.
    pub(crate) fn new(alloc: Global, form: Form) -> Parts
        ensures { result ≡ Some (cuts.fresh form) }
    {
        let cutter = match form {
            Form::Texts(mark) => Cutter::Texts(Texts::new(alloc, mark), mark),
            Form::Document => Cutter::Document(DocumentCutter::new(alloc)),
        };
        Parts {
            cutter: Some(cutter),
        }
    }

    /// Takes the next part, and hands on the texts that end in it.
    pub(crate) fn feed<T: Taker>(&mut self, part: &[u8], taker: &mut T) -> Result<Wants, LogFault>
        ensures { IfOk result (Feeds T.takes self.old part.now taker.old self.new taker.new) }
    {
        match self.cutter.take() {
            Some(Cutter::Texts(texts, mark)) => self.feed_texts(texts, mark, part, taker),
            Some(Cutter::Document(document)) => self.feed_document(document, part, taker),
            None => Ok(Wants::Nothing),
        }
    }

    /// The same of a log of many texts.
    fn feed_texts<T: Taker>(
        &mut self,
        texts: Texts,
        mark: Mark,
        part: &[u8],
        taker: &mut T,
    ) -> Result<Wants, LogFault>
        requires { IsOpen (cutters.Texts texts mark) }
        ensures { IfOk result (Feeds T.takes (Some (cutters.Texts texts mark)) part.now taker.old
            self.new taker.new) }
    {
        let mut texts = texts;
        texts.feed(part)?;
        let wants = take_texts(&mut texts, mark, false, taker)?;
        self.cutter = left_by(wants, Cutter::Texts(texts, mark));
        Ok(wants)
    }

    /// The same of a log that is one object.
    fn feed_document<T: Taker>(
        &mut self,
        document: DocumentCutter,
        part: &[u8],
        taker: &mut T,
    ) -> Result<Wants, LogFault>
        requires { IsOpen (cutters.Document document) }
        ensures { IfOk result (Feeds T.takes (Some (cutters.Document document)) part.now taker.old
            self.new taker.new) }
    {
        let mut document = document;
        document.feed(part)?;
        let wants = take_records(&mut document, taker)?;
        self.cutter = left_by(wants, Cutter::Document(document));
        Ok(wants)
    }

    /// The log ends: hands on its last text, if that has no mark behind it.
    pub(crate) fn end<T: Taker>(&mut self, taker: &mut T) -> Result<(), LogFault>
        ensures ends { OnOk result (Ends T.takes self.old taker.old taker.new) }
        ensures none { self.new ≡ None }
    {
        if let Some(Cutter::Texts(texts, mark)) = self.cutter.take() {
            let mut texts = texts;
            texts.close();
            take_texts(&mut texts, mark, true, taker)?;
        }
        Ok(())
    }

    /// What a log that is one object has beside its records, if it ends here; None if more of it
    /// was not needed, or if it has many texts.
    pub(crate) fn into_skeleton(self) -> Result<Option<Skeleton>, LogFault>
        ensures { IfOk result (λ found. IfSome found (HasSkeleton self)) }
    {
        let Parts { cutter } = self;
        match cutter {
            Some(Cutter::Document(document)) => Ok(Some(document.into_skeleton()?)),
            _ => Ok(None),
        }
    }
}

/// What is left of a log: nothing, if no more of it is wanted.
fn left_by(wants: Wants, cutter: Cutter) -> Option<Cutter>
    ensures { result ≡ cuts.left_by wants cutter }
{
    match wants {
        Wants::More => Some(cutter),
        Wants::Nothing => None,
    }
}

/// Hands on the texts that are ready.
fn take_texts<T: Taker>(
    texts: &mut Texts,
    mark: Mark,
    is_last: bool,
    taker: &mut T,
) -> Result<Wants, LogFault>
    ensures hands { IfOk result (HandsAll (NextText mark is_last) taking.Lacks T.takes texts.old
        taker.old texts.new taker.new) }
    ensures whole { OnOk result (texts.new.uncut.refused ≡ None) }
    ensures closed { OnOk result (texts.new.uncut.closed ≡ texts.old.uncut.closed) }
{
    'texts: loop {
        match take_text(texts, mark, is_last, taker)? {
            None => return Ok(Wants::More),
            Some(Wants::More) => {}
            Some(Wants::Nothing) => return Ok(Wants::Nothing),
        }
    }
}

/// Hands on the next text, if one is ready.
fn take_text<T: Taker>(
    texts: &mut Texts,
    mark: Mark,
    is_last: bool,
    taker: &mut T,
) -> Result<Option<Wants>, LogFault>
    ensures hands { IfOk result (HandsOne (NextText mark is_last) taking.Lacks T.takes texts.old
        taker.old texts.new taker.new) }
    ensures whole { OnOk result (texts.new.uncut.refused ≡ None) }
    ensures closed { OnOk result (texts.new.uncut.closed ≡ texts.old.uncut.closed) }
{
    match texts.next_text() {
        Ok(Some(text)) => {
            let is_whole = match mark {
                Mark::LineFeed => !is_last,
                Mark::RecordSeparator => text.bytes.ends_with(b"\n"),
            };
            let wants = taker.take(LogText {
                bytes: text.bytes,
                place: Place::Line(text.line),
                trace: 1,
                is_whole,
            })?;
            Ok(Some(wants))
        }
        Ok(None) => Ok(None),
        Err(fault) => Err(LogFault::from(fault)),
    }
}

/// Hands on the records that are ready.
fn take_records<T: Taker>(document: &mut DocumentCutter, taker: &mut T) -> Result<Wants, LogFault>
    ensures hands { IfOk result (HandsAll NextRecord cutting.Lacks T.takes document.old taker.old
        document.new taker.new) }
    ensures whole { OnOk result (document.new.refused ≡ None) }
{
    'records: loop {
        match take_record(document, taker)? {
            None => return Ok(Wants::More),
            Some(Wants::More) => {}
            Some(Wants::Nothing) => return Ok(Wants::Nothing),
        }
    }
}

/// Hands on the next record, if one is ready.
fn take_record<T: Taker>(
    document: &mut DocumentCutter,
    taker: &mut T,
) -> Result<Option<Wants>, LogFault>
    ensures hands { IfOk result (HandsOne NextRecord cutting.Lacks T.takes document.old taker.old
        document.new taker.new) }
    ensures whole { OnOk result (document.new.refused ≡ None) }
{
    match document.next_record() {
        Ok(Some(record)) => {
            let wants = taker.take(LogText {
                bytes: record.bytes,
                place: Place::Byte(record.place),
                trace: record.trace,
                is_whole: true,
            })?;
            Ok(Some(wants))
        }
        Ok(None) => Ok(None),
        Err(fault) => Err(LogFault::from(fault)),
    }
}
