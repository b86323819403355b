//! The memory in which the texts of a log are read, one after another.
use bumpalo::Bump;
use json::Scratch;
use std::alloc::Global;

/// The memory in which each text is read. To take it anew for each would take longer than to read a
/// record.
#[derive(Drop)]
pub(crate) struct Room {
    /// For the places and the strings of a text. It has 16 KiB before the first.
    pub(crate) scratch: Scratch,
    /// For the nodes of its tape.
    pub(crate) nodes: Bump,
}

impl Room {
    /// Before the first text.
    pub(crate) fn new(alloc: Global) -> Room {
        Room {
            scratch: Scratch::new(alloc),
            nodes: Bump::new(alloc),
        }
    }

    /// Gives up what the last text took, once its tape is gone.
    pub(crate) fn clear(&mut self) {
        // It fails while a tape is there, and then the next one lies behind that.
        let _ = self.nodes.reset();
    }
}
