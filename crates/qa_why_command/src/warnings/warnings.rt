//! What a trace is warned of while it is judged.
ghost use Rattle.std.specs.Prelude.{◌≡◌, ◌++◌, [], ℕ, List, Ok, map, OnOk};
ghost use Rattle.qa_format.specs.verdicts.Verdict.{header_said as said_by};
ghost use Rattle.qa_why_command.specs.warnings.Found.{Found, at, of_event_under, of_line};
ghost use Rattle.qa_why_command.specs.warnings.Keeping.{Covers, Tells};
ghost use Rattle.qa_why_command.specs.warnings.Warnings as text;

use crate::warnings::told::Told;
use qa_base::{Event, Header};
use qa_check::Judge;
use qa_format::Line;
use qa_why::Notes;
use std::alloc::{AllocError, Global};

/// The warnings of a trace, as notes of its good lines: keys of its header and of its metrics lines
/// that do nothing, and the first packet of more bytes than `max_datagram_size`; each once, and no
/// more than a hundred.
#[derive(Drop)]
pub struct Warnings {
    header: Option<Header>,
    told: Told,
}

impl Warnings {
    /// Of no lines. Takes no memory.
    pub fn new(alloc: Global) -> Warnings
        ensures { (name : List ℕ) → Covers name result [] }
    {
        Warnings {
            header: None,
            told: Told::new(alloc),
        }
    }

    /// The text, a line for each warning, in the order of the lines that they are of.
    pub fn text(&self) -> &[u8]
        ensures { (name : List ℕ) (ls : List (List ℕ)) → Covers name self.now ls
            → result.now ≡ text.warnings name ls }
    {
        &self.told.text
    }

    /// Tells of what line n has to warn of, which says an event, under a header.
    fn tell_event(
        &mut self,
        name: &str,
        n: u64,
        line: &[u8],
        event: &Event,
        header: &Header,
    ) -> Result<(), AllocError>
        ensures { OnOk result ((fs : List Found) → Tells name.now self.old.told fs
            → Tells name.now self.new.told
            (fs ++ map (at n) (of_event_under header.now event.now line.now))
            × (self.new.header ≡ self.old.header)) }
    {
        match event {
            Event::Metrics { .. } => self.told.tell_metrics(name, n, header.version(), line),
            Event::Sent(packet) if header.max_datagram_size() < packet.size => {
                let most = header.max_datagram_size();
                self.told.tell_packet(name, n, event, packet.size, most)
            }
            _ => Ok(()),
        }
    }

    /// Tells of what line n has to warn of, which is good and says this.
    fn tell(&mut self, name: &str, n: u64, line: &[u8], said: &Line) -> Result<(), AllocError>
        ensures { OnOk result ((fs : List Found) → Tells name.now self.old.told fs
            → Tells name.now self.new.told
            (fs ++ map (at n) (of_line self.old.header (Ok said.now) line.now))
            × (self.new.header ≡ self.old.header)) }
    {
        match (said, self.header) {
            (Line::Header(header), _) => self.told.tell_header(name, n, header.version(), line),
            (Line::Event(event), Some(header)) => self.tell_event(name, n, line, event, &header),
            _ => Ok(()),
        }
    }
}

/// The header that a line says.
fn header_said(said: &Line) -> Option<Header>
    ensures { result ≡ said_by (Ok said.now) }
{
    match said {
        Line::Header(header) => Some(*header),
        _ => None,
    }
}

impl<J: Judge> Notes<J> for Warnings {
    ghost use Rattle.qa_why_command.specs.warnings.Keeping.{Covers};

    ghost covers = { λ name begun. Covers name };

    fn note(
        &mut self,
        name: &str,
        n: u64,
        line: &[u8],
        said: &Line,
        _judge: Option<&J>,
    ) -> Result<(), AllocError> {
        self.tell(name, n, line, said)?;
        self.header = self.header.or(header_said(said));
        Ok(())
    }
}
