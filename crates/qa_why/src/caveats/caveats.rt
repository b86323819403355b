//! What a refusal may rest on besides the sender, noted while a trace is judged.
ghost use Rattle.std.specs.Prelude.{◌≡◌, ◌++◌, [], ◌∷◌, ℕ, List, Ok, OnOk, length, IfOk, ◌+◌};
ghost use Rattle.std.specs.Prelude.{option_map, string_bytes};
ghost use Rattle.qa_format.specs.format.Reading.{reading};
ghost use Rattle.qa_base.specs.declared.event.Event.{Event as AnEvent};
ghost use Rattle.qa_base.specs.values.PerSpace.{of_space};
ghost use Rattle.qa_why.specs.caveats.Caveats as text;
ghost use Rattle.qa_why.specs.caveats.Caveats.{AreCaveats, history_in};
ghost use Rattle.qa_why.specs.caveats.Missing as gaps;

use crate::caveats::guesses::{Guessed, Guesses};
use crate::caveats::missing::{Missing, push_missing};
use crate::caveats::remarks::push_remarks;
use crate::lines::extend;
use crate::notes::Notes;
use qa_base::{Event, Field, PerSpace, Rule, SentPacket, Space};
use qa_check::Judge;
use qa_format::Line;
use std::alloc::{AllocError, Global};

/// What a refusal may rest on besides the sender, as notes of the good lines of a trace: guesses,
/// packet numbers that the log skips, and what the converter says of it in the header.
///
/// It takes memory for the header and for one line that was guessed.
#[derive(Drop)]
pub struct Caveats {
    alloc: Global,
    /// The lines that were guessed.
    pub(crate) guesses: Guesses,
    /// What is missing of each space.
    pub(crate) missing: PerSpace<Missing>,
    /// The line of the header.
    pub(crate) header: Option<Vec<u8>>,
}

/// A copy of a line.
fn copy_of(alloc: Global, line: &[u8]) -> Result<Vec<u8>, AllocError>
    ensures { IfOk result (λ copy. copy.items ≡ line.now) }
{
    let mut copy = Vec::new(alloc);
    copy.extend_from_slice(line)?;
    Ok(copy)
}

/// Whether a lost line may be why the rule is broken: packets are not known, or their bytes are.
fn may_lack_lines(rule: Rule) -> bool
    ensures { result ≡ text.may_lack_lines rule }
{
    matches!(
        rule,
        Rule::LossOwed | Rule::LossSet | Rule::AckUnsent | Rule::Metric(Field::BytesInFlight)
    )
}

impl Caveats {
    /// Of no lines. Takes no memory.
    pub fn new(alloc: Global) -> Caveats
        ensures { AreCaveats result [] }
    {
        Caveats {
            alloc,
            guesses: Guesses::new(alloc),
            missing: PerSpace {
                initial: Missing::new(),
                handshake: Missing::new(),
                app: Missing::new(),
            },
            header: None,
        }
    }

    /// Notes a packet.
    fn note_packet(&mut self, packet: &SentPacket)
        ensures missing { self.new.missing ≡ text.with_packet self.old.missing packet.now }
        ensures guesses { self.new.guesses ≡ self.old.guesses }
        ensures header { self.new.header ≡ self.old.header }
    {
        let number = packet.number.get();
        match packet.space {
            Space::Initial => self.missing.initial.note(number),
            Space::Handshake => self.missing.handshake.note(number),
            Space::App => self.missing.app.note(number),
        }
    }

    /// Notes line n, which is good and says this. `AllocError` comes where it is out of memory; of
    /// what is noted nothing is promised then.
    pub fn note_line(&mut self, n: u64, line: &[u8], said: &Line) -> Result<(), AllocError>
        requires says { reading line.now ≡ Ok said.now }
        ensures { OnOk result ((ls : List (List ℕ)) → AreCaveats self.old ls
            → n ≡ length ls + 1 → AreCaveats self.new (ls ++ line.now ∷ [])) }
    {
        self.guesses.note(n, line)?;
        self.note_said(line, said)
    }

    /// Notes what a line says: the header, or a packet.
    #[inline(always)]
    fn note_said(&mut self, line: &[u8], said: &Line) -> Result<(), AllocError>
        ensures guesses { self.new.guesses ≡ self.old.guesses }
        ensures missing { self.new.missing ≡ text.missing_behind self.old.missing said.now }
        ensures header { OnOk result (option_map (λ line. line.items) self.new.header
            ≡ text.header_behind (option_map (λ line. line.items) self.old.header)
            line.now said.now) }
    {
        match said {
            Line::Header(_) => self.header = Some(copy_of(self.alloc, line)?),
            Line::Event(Event::Sent(packet)) => self.note_packet(packet),
            _ => (),
        }
        Ok(())
    }

    /// How many lines were guessed.
    pub fn guessed(&self) -> Guessed
        ensures { (ls : List (List ℕ)) → AreCaveats self.now ls → result ≡ text.guessed_in ls }
    {
        self.guesses.guessed()
    }

    /// Which numbers the log skips.
    fn all_missing(&self) -> Result<String, AllocError>
        ensures { IfOk result (λ all. string_bytes all ≡ gaps.missing_texts self.now.missing) }
    {
        let mut all = String::new(self.alloc);
        push_missing(&mut all, Space::Initial, &self.missing.initial)?;
        push_missing(&mut all, Space::Handshake, &self.missing.handshake)?;
        push_missing(&mut all, Space::App, &self.missing.app)?;
        Ok(all)
    }

    /// Appends which numbers the log skips, where that may be why the rule is broken.
    fn push_lost(&self, out: &mut Vec<u8>, rule: Rule) -> Result<(), AllocError>
        ensures { OnOk result (out.new.items
            ≡ out.old.items ++ text.lost_by rule self.now.missing) }
    {
        if !may_lack_lines(rule) {
            return Ok(());
        }
        let all = self.all_missing()?;
        extend(out, all.as_bytes())
    }

    /// Appends what the converter says of the log in the header.
    fn push_note(&self, out: &mut Vec<u8>) -> Result<(), AllocError>
        ensures { OnOk result (out.new.items ≡ out.old.items
            ++ text.note_text (option_map (λ line. line.items) self.now.header)) }
    {
        match &self.header {
            None => Ok(()),
            Some(line) => {
                push_remarks(self.alloc, out, "  the converter says: ", "x_note", line)
            }
        }
    }

    /// Appends what the refusal of line n by the rule may rest on besides the sender, behind the
    /// lines that were noted. `AllocError` comes where it is out of memory.
    #[tactic(auto, unfolding(crate::specs::caveats::Caveats::caveats))]
    pub fn push(&self, out: &mut Vec<u8>, n: u64, rule: Rule, line: &[u8]) -> Result<(), AllocError>
        ensures { OnOk result ((ls : List (List ℕ)) → AreCaveats self.now ls
            → out.new.items ≡ out.old.items ++ text.caveats ls n rule line.now) }
    {
        self.guesses.push_before(out, n, line)?;
        self.push_lost(out, rule)?;
        self.push_note(out)
    }
}

impl<J: Judge> Notes<J> for Caveats {
    ghost use Rattle.qa_why.specs.caveats.Caveats.{AreCaveats};

    ghost covers = { λ name begun. AreCaveats };

    fn note(
        &mut self,
        _name: &str,
        n: u64,
        line: &[u8],
        said: &Line,
        _judge: Option<&J>,
    ) -> Result<(), AllocError> {
        self.note_line(n, line, said)
    }
}
