//! The texts of a log in sequence form, out of bytes that come in parts.
ghost use Rattle.std.specs.Prelude.{◌≡◌, count_by};
ghost use Rattle.qa_cut.specs.Cuts.{is_mark};
ghost use Rattle.qa_qlog.specs.Marks.{byte_of};
ghost use Rattle.qa_qlog.specs.Taking as taking;
ghost use Rattle.qa_qlog.specs.Texts as texts;

use memchr::memchr_iter;
use qa_cut::{Cutter, Place, SplitFault};
use std::alloc::{AllocError, Global};
use std::marker::Model;
use thiserror::Error;

/// How many bytes a text has at most: 1 MiB.
pub const MAX_TEXT_LENGTH: usize = 1_048_576;
/// Begins each text of a log in the form of RFC 7464.
pub const RECORD_SEPARATOR: u8 = 0x1E;

/// The byte at which the texts of a log are cut.
#[derive(Clone, Copy, Debug, PartialEq, Eq)]
pub enum Mark {
    /// 0x1E, which RFC 7464 puts before each text.
    RecordSeparator,
    /// LF: each line is a text.
    LineFeed,
}

impl Mark {
    /// The mark of a log, by its first byte.
    pub fn of(beginning: &[u8]) -> Mark
        ensures { byte_of result ≡ texts.mark_of beginning.now }
    {
        match beginning.first() {
            Some(first) if *first == RECORD_SEPARATOR => Mark::RecordSeparator,
            _ => Mark::LineFeed,
        }
    }

    /// The byte.
    pub fn byte(self) -> u8
        ensures { result ≡ byte_of self }
    {
        match self {
            Mark::RecordSeparator => RECORD_SEPARATOR,
            Mark::LineFeed => b'\n',
        }
    }
}

/// Why no more texts come.
#[derive(Clone, Copy, Debug, PartialEq, Eq, Error)]
pub enum TextFault {
    /// The next text has more than 1 MiB; it begins in this line.
    #[error("line {0}: a record of more than 1,048,576 bytes")]
    TooLong(u64),
    /// Out of memory.
    #[error("out of memory")]
    OutOfMemory,
}

/// A text of a log.
#[derive(Clone, Copy, Debug, PartialEq, Eq)]
pub struct Text<'a> {
    /// The number of the line in which it begins, from 1.
    pub line: u64,
    /// Its bytes without its mark.
    pub bytes: &'a [u8],
}

/// A log that comes in parts, returned as its texts.
///
/// Texts of nothing but white space are passed over. Each text is lent out of a buffer that holds
/// the last part and the text that was unfinished before it.
#[derive(Drop)]
pub struct Texts {
    cutter: Cutter,
    mark: Mark,
    /// The number of the line in which the next text begins.
    line: u64,
}

/// A piece of a log that was found.
#[derive(Clone, Copy)]
struct Found {
    place: Place,
    is_blank: bool,
    /// The number of the line after it.
    after: u64,
}

impl Model for Texts {
    ghost use Rattle.std.specs.Prelude.{◌≡◌};
    ghost use Rattle.qa_qlog.specs.Marks.{byte_of};
    ghost use Rattle.qa_qlog.specs.Texts.{Rest, text_limit};

    ghost Value = { Rest };

    ghost view = { λ t. record {
      uncut = t.cutter;
      line = t.line;
    } };

    ghost invariant = { λ t. (t.cutter.limit ≡ text_limit) × (t.cutter.mark ≡ byte_of t.mark) };
}

impl Texts {
    ghost use Rattle.std.specs.Borrow.{sem};
    ghost use Rattle.std.specs.Prelude.{◌≡◌, [], ◌++◌, false, true, None, Some, OnOk, OnErr};
    ghost use Rattle.qa_qlog.specs.Marks.{byte_of};
    ghost use Rattle.qa_qlog.specs.Taking.{EndsAs, Finds, FindsText, IsFoundAt, passed};
    ghost use Rattle.qa_qlog.specs.Texts.{text_limit};

    /// A log of which nothing came yet, with this mark. Takes no memory.
    pub fn new(alloc: Global, mark: Mark) -> Texts
        ensures { result ≡ record {
          uncut = record {
            mark = byte_of mark;
            limit = text_limit;
            bytes = [];
            closed = false;
            refused = None;
          };
          line = 1;
        } }
    {
        Texts {
            cutter: Cutter::new(alloc, mark.byte(), MAX_TEXT_LENGTH),
            mark,
            line: 1,
        }
    }

    /// Takes the next part of the log. Asks for one that was not closed and has not failed.
    ///
    /// `AllocError` comes if it is out of memory: it has failed then, and holds what it held.
    pub fn feed(&mut self, part: &[u8]) -> Result<(), AllocError>
        requires open { self.old.uncut.closed ≡ false }
        requires whole { self.old.uncut.refused ≡ None }
        ensures ok { OnOk result (self.new ≡ record self.old {
          uncut = record self.old.uncut { bytes = self.old.uncut.bytes ++ part.now };
        }) }
        ensures err { OnErr result (self.new ≡ record self.old {
          uncut = record self.old.uncut { refused = Some SplitFault.OutOfMemory };
        }) }
    {
        self.cutter.feed(part)
    }

    /// Says that no more parts come: what follows the last mark is a text, if it has a byte.
    pub fn close(&mut self)
        ensures { self.new ≡ record self.old {
          uncut = record self.old.uncut { closed = true };
        } }
    {
        self.cutter.close();
    }

    /// The next text, or None if no whole text is ready. Takes no memory.
    ///
    /// `TextFault::TooLong` comes as soon as the next text has more than 1 MiB, whether its end is
    /// there or not. After an error, here or of `feed`, it has failed, and returns that error from
    /// then on.
    pub fn next_text(&mut self) -> Result<Option<Text<'_>>, TextFault>
        ensures* after_borrow { sem 𝓛 (EndsAs self.entry result) }
    {
        match self.find_text() {
            Ok(Some(found)) => {
                let line = self.line;
                self.line = found.after;
                let bytes = self.cutter.take(found.place);
                Ok(Some(Text { line, bytes }))
            }
            Ok(None) => Ok(None),
            Err(fault) => Err(fault),
        }
    }

    /// Passes over blank pieces, and finds the first that is not blank.
    fn find_text(&mut self) -> Result<Option<Found>, TextFault>
        ensures { FindsText self.old result self.new }
    {
        'pieces: loop {
            match self.find() {
                Ok(Some(found)) => {
                    if !found.is_blank {
                        return Ok(Some(found));
                    }
                    self.pass(found);
                }
                Ok(None) => return Ok(None),
                Err(fault) => return Err(fault),
            }
        }
    }

    /// Finds the next piece.
    fn find(&mut self) -> Result<Option<Found>, TextFault>
        ensures { Finds self.old result self.new }
    {
        match self.cutter.find() {
            Ok(Some(place)) => {
                let bytes = self.cutter.piece_at(place);
                Ok(Some(Found {
                    place,
                    is_blank: is_blank(bytes),
                    after: line_after(self.mark, self.line, bytes),
                }))
            }
            Ok(None) => Ok(None),
            Err(fault) => Err(fault_at(self.line, fault)),
        }
    }

    /// Passes over a piece that was found.
    fn pass(&mut self, found: Found)
        requires { IsFoundAt found self.old }
        ensures { self.new ≡ passed self.old found }
    {
        self.cutter.take(found.place);
        self.line = found.after;
    }
}

/// What is wrong with a log whose next text begins in this line.
fn fault_at(line: u64, fault: SplitFault) -> TextFault
    ensures { result ≡ taking.fault_at line fault }
{
    match fault {
        SplitFault::TooLong => TextFault::TooLong(line),
        SplitFault::OutOfMemory => TextFault::OutOfMemory,
    }
}

/// Whether bytes are nothing but white space, as ASCII has it.
fn is_blank(bytes: &[u8]) -> bool
    ensures { result ≡ texts.is_blank bytes.now }
{
    bytes.iter().all(|byte| is_white(*byte))
}

/// Whether a byte is white space, as ASCII has it.
pub fn is_white(byte: u8) -> bool
    ensures { result ≡ texts.is_white byte }
{
    (9 <= byte && byte <= 13) || byte == b' '
}

/// The number of the line after a piece and its mark, if the piece begins in this line.
fn line_after(mark: Mark, line: u64, piece: &[u8]) -> u64
    ensures { result ≡ texts.line_after (byte_of mark) line piece.now }
{
    let feeds = line_feeds(piece) as u64;
    let more = match mark {
        Mark::LineFeed => 1,
        Mark::RecordSeparator => 0,
    };
    line.saturating_add(feeds).saturating_add(more)
}

/// How many LFs there are.
fn line_feeds(bytes: &[u8]) -> usize
    ensures { result ≡ count_by (is_mark texts.line_feed) bytes.now }
{
    let mut feeds = 0;
    let mut places = memchr_iter(b'\n', bytes);
    // Its own `count` looks at each byte by itself.
    while places.next().is_some() {
        feeds += 1;
    }
    feeds
}
