//! The text of what a session is handed, where it is to be kept.
ghost use Rattle.std.specs.Prelude.{◌≡◌, None, Some, [], is_some, true, false};
ghost use Rattle.std.specs.Option.{option_map};
ghost use Rattle.qa_format.specs.format.Written.{line_fits};
ghost use Rattle.qa_embed.specs.Recording.{Grows, GrowsIf, GrowsByLine, GrowsByLineIf};

use qa_base::limits::MAX_LINE_LENGTH;
use qa_check::Line;
use qa_write::write_line;
use std::alloc::Global;
use std::marker::Model;

/// The text of what a session was handed; none where it is not to be kept, or there was no memory
/// for it.
#[derive(Drop)]
pub(crate) struct Recording {
    text: Option<Vec<u8>>,
}

impl Model for Recording {
    ghost use Rattle.std.specs.Prelude.{List, ℕ, Option, option_map};

    ghost Value = { Option (List ℕ) };

    ghost view = { λ r. option_map (λ v. v.items) r.text };
}

impl Recording {
    /// Nothing is kept.
    pub(crate) fn off() -> Recording
        ensures { result ≡ None }
    {
        Recording { text: None }
    }

    /// The text of nothing yet. Takes no memory.
    pub(crate) fn begun(alloc: Global) -> Recording
        ensures { result ≡ Some [] }
    {
        Recording {
            text: Some(Vec::new(alloc)),
        }
    }

    /// Whether the text is kept.
    #[inline(always)]
    pub(crate) fn is_on(&self) -> bool
        ensures { result ≡ is_some self.now }
    {
        self.text.is_some()
    }

    /// The text so far.
    pub(crate) fn text(&self) -> Option<&[u8]>
        ensures { option_map (λ t. t.now) result ≡ self.now }
    {
        match &self.text {
            Some(text) => Some(text.as_slice()),
            None => None,
        }
    }

    /// Nothing is kept from now on, and the memory is given back.
    fn stop(&mut self)
        ensures { self.new ≡ None }
    {
        self.text = None;
    }

    /// Keeps the piece too; where there is no memory for it, nothing from now on.
    fn push(&mut self, piece: &[u8])
        ensures { Grows piece.now self.old self.new }
    {
        if let Some(text) = &mut self.text
            && text.extend_from_slice(piece).is_err()
        {
            self.text = None;
        }
    }

    /// Keeps a piece that is fed, where the audit is open.
    pub(crate) fn push_if(&mut self, is_open: bool, piece: &[u8])
        ensures { GrowsIf is_open piece.now self.old self.new }
    {
        if is_open {
            self.push(piece);
        }
    }

    /// Keeps the line that says this, with its LF.
    ///
    /// A line with very many ranges that is longer, as it is written, than lines may be ends it, as
    /// want of memory does.
    fn push_said(&mut self, alloc: Global, line: &Line)
        requires fitting { line_fits line.now ≡ true }
        ensures { GrowsByLine line.now self.old self.new }
    {
        match write_line(alloc, line) {
            Ok(text) if text.len() <= MAX_LINE_LENGTH => {
                self.push(text.as_bytes());
                self.push(b"\n");
            }
            _ => self.stop(),
        }
    }

    /// Keeps the line that says this, where the audit is open.
    pub(crate) fn push_said_if(&mut self, is_open: bool, alloc: Global, line: &Line)
        requires fitting { line_fits line.now ≡ true }
        ensures { GrowsByLineIf is_open line.now self.old self.new }
    {
        if is_open {
            self.push_said(alloc, line);
        }
    }
}
