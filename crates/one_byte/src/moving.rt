//! A reader and a writer that move at most one byte a call.

ghost use Rattle.std.specs.Prelude.{None};

use qa_check::{Sink, Source};
use std::io;

/// A reader or a writer that moves at most one byte a call.
#[derive(Drop)]
pub(crate) struct OneByte<T> {
    pub(crate) inner: T,
}

impl<T: Source> Source for OneByte<T> {
    ghost left = { λ _. None };

    ghost last_read = { λ one. T.Source.last_read one.inner };

    ghost read_failures = { λ one. T.Source.read_failures one.inner };

    fn read_piece(&mut self, piece: &mut [u8]) -> io::Result<usize> {
        let most = piece.len().min(1);
        self.inner.read_piece(&mut piece[..most])
    }
}

impl<T: Sink> Sink for OneByte<T> {
    ghost held = { λ _. None };

    ghost write_failures = { λ one. T.Sink.write_failures one.inner };

    fn write_piece(&mut self, piece: &[u8]) -> io::Result<usize> {
        let most = piece.len().min(1);
        self.inner.write_piece(&piece[..most])
    }
}
