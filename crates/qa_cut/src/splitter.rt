//! Lines out of bytes that come in pieces.
use crate::cutter::{Cutter, SplitFault};
use qa_base::limits::MAX_LINE_LENGTH;
use std::alloc::{AllocError, Global};
use std::marker::Model;

/// Bytes that come in pieces, returned as lines.
///
/// Lines are cut at LF, however the pieces are cut. It lends each line out of a buffer that holds
/// the last piece and the line that was unfinished before it: only feeding a piece takes memory,
/// and copies the piece and what is unfinished. No byte is looked at twice in the search for an LF.
#[derive(Drop)]
pub struct Splitter {
    /// Cuts at LF, and limits a line.
    cutter: Cutter,
}

impl Model for Splitter {
    ghost use Rattle.std.specs.Prelude.{◌≡◌};
    ghost use Rattle.qa_format.specs.format.Lines.{line_limit};
    ghost use Rattle.qa_cut.specs.Stream.{Stream};

    ghost Value = { Stream };

    ghost view = { λ s. record {
      bytes = s.cutter.bytes;
      closed = s.cutter.closed;
      refused = s.cutter.refused;
    } };

    ghost invariant = { λ s. (s.cutter.mark ≡ 10) × (s.cutter.limit ≡ line_limit) };
}

impl Splitter {
    ghost use Rattle.std.specs.Borrow.{sem};
    ghost use Rattle.std.specs.Prelude.{◌≡◌, [], ◌++◌, ◌==◌, false, Some, None, OnOk, OnErr};
    ghost use Rattle.std.specs.Prelude.{IsErrOf, length, true};
    ghost use Rattle.qa_cut.specs.Lending.{EndsAs};
    ghost use Rattle.qa_cut.specs.Stream.{BeginsTooLong};

    /// A splitter that holds no bytes. Takes no memory.
    pub fn new(alloc: Global) -> Splitter
        ensures { result ≡ record { bytes = []; closed = false; refused = None } }
    {
        Splitter {
            cutter: Cutter::new(alloc, b'\n', MAX_LINE_LENGTH),
        }
    }

    /// Takes the next piece of the input. Asks for a splitter that was not closed and has not
    /// failed.
    ///
    /// `AllocError` comes where it is out of memory: it has failed then, and holds what it held.
    pub fn feed(&mut self, piece: &[u8]) -> Result<(), AllocError>
        requires open { self.old.closed ≡ false }
        requires whole { self.old.refused ≡ None }
        ensures ok { OnOk result (self.new
            ≡ record self.old { bytes = self.old.bytes ++ piece.now }) }
        ensures err { OnErr result (self.new
            ≡ record self.old { refused = Some SplitFault.OutOfMemory }) }
    {
        self.cutter.feed(piece)
    }

    /// Whether it holds no bytes: all that it was fed was returned.
    pub fn is_empty(&self) -> bool
        ensures { result ≡ (length self.now.bytes == 0) }
    {
        self.cutter.is_empty()
    }

    /// Says that no more pieces come: what stands after the last LF is a line, where it has a byte.
    pub fn close(&mut self)
        ensures { self.new ≡ record self.old { closed = true } }
    {
        self.cutter.close();
    }

    /// The next line without its LF, or None where no whole line stands ready. Takes no memory.
    ///
    /// `SplitFault::TooLong` comes as soon as the next line has more than 65,536 bytes, whether
    /// its end is there or not. After an error, here or of `feed`, the splitter has failed, and
    /// returns that error from then on.
    #[inline]
    pub fn next_line(&mut self) -> Result<Option<&[u8]>, SplitFault>
        ensures* after_borrow { sem 𝓛 (EndsAs self.entry result) }
        ensures too_long { self.old.refused ≡ None → IsErrOf result SplitFault.TooLong
            → BeginsTooLong self.old.bytes }
        ensures memory { self.old.refused ≡ None → IsErrOf result SplitFault.OutOfMemory → ⊥ }
    {
        self.cutter.next_piece()
    }
}
