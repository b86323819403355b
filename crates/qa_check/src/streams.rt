//! The reader of a trace and the writer of a report.
ghost use Rattle.std.specs.Prelude.{◌≡◌, ◌≤◌, ℕ, List, Option, IfOk, length};
ghost use Rattle.std.specs.Io.KnownBytes.{ReadConsumes, WriteAppends};
ghost use Rattle.qa_check.specs.Failures.{failures_after, read_count, read_failed, write_failed};

use std::io;
use std::io::{Read, Write};
use std::marker::Model;

/// A reader: returns the bytes of a trace, a piece at a time, and counts its failures.
///
/// A failure is an error that was returned. It reads no byte, and adds one to the count, which
/// wraps at 2^64. Every other call leaves the count.
pub trait Source {
    // The bytes that are left to be read, where the reader tells them.
    ghost left: { Self → Option (List ℕ) };

    // How many bytes the last read gave; none where it failed.
    ghost last_read: { Self → ℕ };

    // The count of failures.
    ghost read_failures: { Self → ℕ };

    /// Puts the next bytes at the front of `piece`, and returns how many: at most its length, and
    /// where the bytes are told, 0 for a piece that is not empty only at their end.
    fn read_piece(&mut self, piece: &mut [u8]) -> io::Result<usize>
        ensures bound { IfOk result (λ n. n ≤ length piece.new) }
        ensures bytes { ReadConsumes (left self.old) (left self.new) result piece.new }
        ensures last { last_read self.new ≡ read_count result }
        ensures failures { read_failures self.new
            ≡ failures_after (read_failed result) (read_failures self.old) };
}

/// A writer: takes the bytes of a report, a piece at a time, and counts its failures.
///
/// A failure is an error that was returned, or 0 for a piece that is not empty. It takes no byte,
/// and adds one to the count, which wraps at 2^64. Every other call leaves the count.
pub trait Sink {
    // The bytes that were written so far, where the writer tells them.
    ghost held: { Self → Option (List ℕ) };

    // The count of failures.
    ghost write_failures: { Self → ℕ };

    /// Takes bytes from the front of `piece`, and returns how many: at most its length.
    fn write_piece(&mut self, piece: &[u8]) -> io::Result<usize>
        ensures bound { IfOk result (λ n. n ≤ length piece.now) }
        ensures bytes { WriteAppends (held self.old) (held self.new) result piece.now }
        ensures failures { write_failures self.new
            ≡ failures_after (write_failed result piece.now) (write_failures self.old) };
}

/// A reader or a writer of std as a `Source` or a `Sink`.
///
/// Over memory it tells its bytes; a standard stream tells none. A `Vec` that is out of memory
/// fails as a writer.
#[derive(Drop)]
pub struct Metered<T> {
    inner: T,
    failures: u64,
    last_read: usize,
}

impl<T> Model for Metered<T> {
    ghost use Rattle.std.specs.Prelude.{ℕ};

    ghost Value = { T × ℕ × ℕ };

    ghost view = { λ m. (m.inner, m.failures, m.last_read) };
}

impl<T> Metered<T> {
    /// This reader or writer, with no failure and no read so far. Takes no memory.
    pub fn new(inner: T) -> Metered<T>
        ensures { result ≡ (inner, 0, 0) }
    {
        Metered {
            inner,
            failures: 0,
            last_read: 0,
        }
    }

    /// The reader or writer itself.
    pub fn into_inner(self) -> T
        ensures { result ≡ self.0 }
    {
        let Metered { inner, .. } = self;
        inner
    }
}

/// The count of failures after one more call, which failed or did not.
fn counted(failures: u64, failed: bool) -> u64
    ensures { result ≡ failures_after failed failures }
{
    if failed {
        failures.wrapping_add(1)
    } else {
        failures
    }
}

/// How many bytes a read gave.
fn given_by(read: &io::Result<usize>) -> usize
    ensures { result ≡ read_count read.now }
{
    match read {
        Ok(n) => *n,
        Err(_) => 0,
    }
}

/// Whether a write of this piece failed: by an error, or since nothing was taken of what is not
/// empty.
fn has_failed(written: &io::Result<usize>, piece: &[u8]) -> bool
    ensures { result ≡ write_failed written.now piece.now }
{
    match written {
        Ok(n) => *n == 0 && !piece.is_empty(),
        Err(_) => true,
    }
}

impl<T: Read> Source for Metered<T> {
    ghost left = { λ m. T.remaining m.0 };

    ghost last_read = { λ m. m.2 };

    ghost read_failures = { λ m. m.1 };

    fn read_piece(&mut self, piece: &mut [u8]) -> io::Result<usize> {
        let read = self.inner.read(piece);
        self.last_read = given_by(&read);
        self.failures = counted(self.failures, read.is_err());
        read
    }
}

impl<T: Write> Sink for Metered<T> {
    ghost held = { λ m. T.contents m.0 };

    ghost write_failures = { λ m. m.1 };

    fn write_piece(&mut self, piece: &[u8]) -> io::Result<usize> {
        let written = self.inner.write(piece);
        let failed = has_failed(&written, piece);
        self.failures = counted(self.failures, failed);
        written
    }
}
