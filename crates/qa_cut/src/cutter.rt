//! Pieces out of bytes that come in parts, each up to a mark.
ghost use Rattle.std.specs.Prelude.{◌≡◌, ◌≤◌, drop, length, false, MatchOption};
ghost use Rattle.qa_cut.specs.Cuts.{has_mark, AreSearched, IsFirstMark};

use memchr::memchr;
use std::alloc::{AllocError, Global};
use std::marker::Model;
use thiserror::Error;

/// Why a cutter returns no more pieces, and a splitter no more lines.
#[derive(Clone, Copy, Debug, PartialEq, Eq, Error)]
pub enum SplitFault {
    /// The next piece, of a splitter the next line, has more bytes than it may have.
    #[error("line too long")]
    TooLong,
    /// Out of memory.
    #[error("out of memory")]
    OutOfMemory,
}

/// Where the next piece is: at the first byte that was not returned.
#[derive(Clone, Copy, Debug, PartialEq, Eq)]
pub struct Place {
    /// How many bytes the piece has.
    pub len: usize,
    /// How many bytes are returned with it: its own and its mark.
    pub taken: usize,
}

/// Bytes that come in parts, returned as the pieces between two marks.
///
/// A mark is one byte, and ends a piece however the parts are cut. The cutter lends each piece out
/// of a buffer that holds the last part and the piece that was unfinished before it: only feeding
/// a part takes memory, and copies the part and what is unfinished. No byte is looked at twice in
/// the search for a mark.
#[derive(Drop)]
pub struct Cutter {
    /// The byte that ends a piece.
    mark: u8,
    /// How many bytes a piece has at most.
    limit: usize,
    /// The bytes that were returned since the last part came, and after them those that were not.
    bytes: Vec<u8>,
    /// How many of the bytes were returned.
    start: usize,
    /// How many of the bytes from `start` on were looked at and have no mark.
    searched: usize,
    closed: bool,
    refused: Option<SplitFault>,
}

impl Model for Cutter {
    ghost use Rattle.std.specs.Prelude.{◌≤◌, drop, length};
    ghost use Rattle.qa_cut.specs.Cuts.{Uncut, AreSearched};

    ghost Value = { Uncut };

    ghost view = { λ c. record {
      mark = c.mark;
      limit = c.limit;
      bytes = drop c.start c.bytes.items;
      closed = c.closed;
      refused = c.refused;
    } };

    ghost invariant = { λ c. (c.start ≤ length c.bytes.items)
        × AreSearched c.mark (drop c.start c.bytes.items) c.searched };
}

impl Cutter {
    ghost use Rattle.std.specs.Borrow.{sem};
    ghost use Rattle.std.specs.Prelude.{[], ◌++◌, ◌==◌, true, Some, None, OnOk, OnErr, IsErrOf};
    ghost use Rattle.std.specs.Prelude.{Err, IfOk, IfErr, IfSome, IfNone, take};
    ghost use Rattle.qa_cut.specs.Cutting.{EndsAs, PassesAs};
    ghost use Rattle.qa_cut.specs.Cuts.{BeginsTooLong, HasNoPiece, IsPlace};

    /// A cutter that holds no bytes, for pieces of at most `limit` bytes. Takes no memory.
    pub fn new(alloc: Global, mark: u8, limit: usize) -> Cutter
        ensures { result ≡ record {
          mark = mark;
          limit = limit;
          bytes = [];
          closed = false;
          refused = None;
        } }
    {
        Cutter {
            mark,
            limit,
            bytes: Vec::new(alloc),
            start: 0,
            searched: 0,
            closed: false,
            refused: None,
        }
    }

    /// Takes the next part of the input. Asks for a cutter that was not closed and has not failed.
    ///
    /// `AllocError` comes if it is out of memory: it has failed then, and holds what it held.
    pub fn feed(&mut self, part: &[u8]) -> Result<(), AllocError>
        requires open { self.old.closed ≡ false }
        requires whole { self.old.refused ≡ None }
        ensures ok { OnOk result (self.new
            ≡ record self.old { bytes = self.old.bytes ++ part.now }) }
        ensures err { OnErr result (self.new
            ≡ record self.old { refused = Some SplitFault.OutOfMemory }) }
    {
        self.drop_returned();
        let fed = self.bytes.extend_from_slice(part);
        if fed.is_err() {
            self.refused = Some(SplitFault::OutOfMemory);
        }
        fed
    }

    /// Whether it holds no bytes: all that it was fed was returned.
    pub fn is_empty(&self) -> bool
        ensures { result ≡ (length self.now.bytes == 0) }
    {
        self.bytes[self.start..].is_empty()
    }

    /// Moves what was not returned yet to the front of the buffer.
    fn drop_returned(&mut self)
        ensures { self.new ≡ self.old }
    {
        if 0 < self.start {
            remove_front(&mut self.bytes, self.start);
            self.start = 0;
        }
    }

    /// Says that no more parts come: what follows the last mark is a piece, if it has a byte.
    pub fn close(&mut self)
        ensures { self.new ≡ record self.old { closed = true } }
    {
        self.closed = true;
    }

    /// The next piece without its mark, or None if no whole piece is ready. Takes no memory.
    ///
    /// `SplitFault::TooLong` comes as soon as the next piece has more bytes than the limit, whether
    /// its end is there or not. After an error, here or of `feed`, the cutter has failed, and
    /// returns that error from then on.
    #[inline]
    pub fn next_piece(&mut self) -> Result<Option<&[u8]>, SplitFault>
        ensures* after_borrow { sem 𝓛 (EndsAs self.entry result) }
        ensures too_long { self.old.refused ≡ None → IsErrOf result SplitFault.TooLong
            → BeginsTooLong self.old }
        ensures memory { self.old.refused ≡ None → IsErrOf result SplitFault.OutOfMemory → ⊥ }
    {
        // Not by `find` and `take`, which take 4 instructions more for each line of a trace.
        if let Some(fault) = self.refused {
            return Err(fault);
        }
        let rest = &self.bytes[self.start..];
        let (len, taken) = match first_mark(self.mark, rest, self.searched) {
            Some(place) => (place, place + 1),
            None => (rest.len(), rest.len()),
        };
        if self.limit < len {
            self.refused = Some(SplitFault::TooLong);
            return Err(SplitFault::TooLong);
        }
        if taken == len && !(self.closed && 0 < len) {
            self.searched = len;
            return Ok(None);
        }
        self.start += taken;
        self.searched = 0;
        Ok(Some(&rest[..len]))
    }

    /// The piece at this place, which `find` found and no call took since.
    pub fn piece_at(&self, place: Place) -> &[u8]
        requires { IsPlace self.now place.len place.taken }
        ensures { result.now ≡ take place.len self.now.bytes }
    {
        &self.bytes[self.start..self.start + place.len]
    }

    /// Takes the piece at this place, which `find` found and no call took since.
    #[inline(always)]
    pub fn take(&mut self, place: Place) -> &[u8]
        requires { IsPlace self.old place.len place.taken }
        ensures* after_borrow { sem 𝓛 (PassesAs self.entry place.taken) }
        ensures value { result.now ≡ take place.len self.old.bytes }
    {
        let start = self.start;
        self.start += place.taken;
        self.searched = 0;
        &self.bytes[start..start + place.len]
    }

    /// Where the next piece is, or None if no whole piece is ready. The piece is not taken, and is
    /// not searched again by the next call. Errors are those of `next_piece`.
    #[inline(always)]
    pub fn find(&mut self) -> Result<Option<Place>, SplitFault>
        ensures refused { IfSome self.old.refused (λ fault. (result ≡ Err fault)
            × (self.new ≡ self.old)) }
        ensures place { IfOk result (λ found. IfSome found (λ place.
            IsPlace self.old place.len place.taken × (self.new ≡ self.old))) }
        ensures none { IfOk result (λ found. IfNone found (HasNoPiece self.old
            × (self.new ≡ self.old))) }
        ensures err { IfErr result (λ fault. self.new
            ≡ record self.old { refused = Some fault }) }
        ensures too_long { self.old.refused ≡ None → IsErrOf result SplitFault.TooLong
            → BeginsTooLong self.old }
        ensures memory { self.old.refused ≡ None → IsErrOf result SplitFault.OutOfMemory → ⊥ }
    {
        if let Some(fault) = self.refused {
            return Err(fault);
        }
        let rest = &self.bytes[self.start..];
        let place = match first_mark(self.mark, rest, self.searched) {
            Some(at) => Place {
                len: at,
                taken: at + 1,
            },
            None => Place {
                len: rest.len(),
                taken: rest.len(),
            },
        };
        if self.limit < place.len {
            self.refused = Some(SplitFault::TooLong);
            return Err(SplitFault::TooLong);
        }
        self.searched = place.len;
        if place.taken == place.len && !(self.closed && 0 < place.len) {
            return Ok(None);
        }
        Ok(Some(place))
    }
}

/// Removes the first n bytes.
fn remove_front(bytes: &mut Vec<u8>, n: usize)
    requires { n ≤ length bytes.old.items }
    ensures { bytes.new.items ≡ drop n bytes.old.items }
{
    let len = bytes.len();
    bytes.copy_within(n..len, 0);
    bytes.truncate(len - n);
}

/// Where the first mark is. Asks that the bytes before `searched` have none.
fn first_mark(mark: u8, bytes: &[u8], searched: usize) -> Option<usize>
    requires { AreSearched mark bytes.now searched }
    ensures { MatchOption result (has_mark mark bytes.now ≡ false) (IsFirstMark mark bytes.now) }
{
    let place = memchr(mark, &bytes[searched..])?;
    Some(searched + place)
}
