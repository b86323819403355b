//! What a line of a trace says.
ghost use Rattle.std.specs.Prelude.{◌≡◌};
ghost use Rattle.qa_format.specs.format.LineKinds.{line_kind};

use qa_base::{Event, Header, LineKind};

/// What one line of a trace says.
#[derive(PartialEq, Eq, Drop)]
pub enum Line {
    /// Nothing: the line has no byte but spaces, tabs and carriage returns.
    Blank,
    /// The header of a trace.
    Header(Header),
    /// Something that the sender did.
    Event(Event),
}

impl Line {
    /// The kind of the line; None for a blank one.
    pub fn kind(&self) -> Option<LineKind>
        ensures { result ≡ line_kind self.now }
    {
        match self {
            Line::Blank => None,
            Line::Header(_) => Some(LineKind::Header),
            Line::Event(event) => Some(event.kind()),
        }
    }
}
