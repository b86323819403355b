//! The lines of a trace, as they are written one after another.
ghost use Rattle.qa_convert.specs.Telling.{told, with_event};
ghost use Rattle.std.specs.Prelude.{◌≡◌, ◌++◌, ◌∷◌, [], OnErr, OnOk, IfOk, true};
ghost use Rattle.qa_base.specs.values.Events.{fits};
ghost use Rattle.qa_convert.specs.Headers.{own_say};
ghost use Rattle.qa_convert.specs.Outputs.{are_of_line, guessed, in_unit};
ghost use Rattle.qa_convert.specs.Outputs.{has_guess, marks_of, own_members, with_guess};
ghost use Rattle.qa_convert.specs.Marks.{Marks};
ghost use Rattle.qa_convert.specs.OwnKeys.{AreOwn, noted};
ghost use Rattle.qa_convert.specs.declared.guess.Guess.{Guess as AGuess};
ghost use Rattle.serde_json.specs.Data.{Members, no_members};
ghost use Rattle.serde_json.specs.View.{members_view};
ghost use Rattle.qa_format.specs.declared.line.Line.TheVariants as lines;

use crate::guess::{Guess, put_guesses};
use crate::kept::KeptText;
use crate::lines::{EventLines, HeaderLine};
use crate::noted::NotedFault;
use crate::own::{OwnKey, OwnKeys, put_if_ascii, put_ranges, put_text, put_texts};
use crate::place::{Place, Stretch, put_stretch};
use qa_base::{Event, Header, Space, Spans, TimeUnit};
use std::alloc::{AllocError, Global};

/// The lines that were written, and what is said with the next one.
#[derive(Drop)]
pub(crate) struct Output {
    alloc: Global,
    /// The unit of the trace.
    pub(crate) unit: TimeUnit,
    /// Whether each line says where in the log it is from.
    has_places: bool,
    /// The lines of events.
    pub(crate) text: EventLines,
    /// What was guessed for the next line, in the order in which it was.
    guesses: Vec<Guess>,
    /// The text of the own keys of the last line that said what was guessed, and nothing else.
    kept: KeptText,
}

impl Output {
    /// No lines yet. Takes no memory.
    pub(crate) fn new(alloc: Global, unit: TimeUnit, has_places: bool) -> Output
        ensures text { result.text ≡ [] }
        ensures guesses { result.guesses.items ≡ [] }
        ensures unit { result.unit ≡ unit }
        ensures places { result.has_places ≡ has_places }
    {
        Output {
            alloc,
            unit,
            has_places,
            text: EventLines::new(alloc),
            guesses: Vec::new(alloc),
            kept: KeptText::new(alloc),
        }
    }

    /// A time or a duration as the trace has it, rounded down.
    pub(crate) fn in_unit(&self, nanoseconds: u64) -> u64
        ensures { result ≡ in_unit self.now.unit nanoseconds }
    {
        in_unit_of(self.unit, nanoseconds)
    }

    /// The next line says that this was guessed. `AllocError` comes if it is out of memory, and
    /// leaves what was guessed.
    pub(crate) fn guess(&mut self, guess: Guess) -> Result<(), AllocError>
        ensures ok { OnOk result (self.new.guesses.items
            ≡ with_guess guess self.old.guesses.items) }
        ensures err { OnErr result (self.new.guesses.items ≡ self.old.guesses.items) }
        ensures text { self.new.text ≡ self.old.text }
        ensures unit { self.new.unit ≡ self.old.unit }
        ensures places { self.new.has_places ≡ self.old.has_places }
    {
        if !self.is_guessed(guess) {
            self.guesses.push(guess)?;
        }
        Ok(())
    }

    /// Whether the next line says this already.
    fn is_guessed(&self, guess: Guess) -> bool
        ensures { result ≡ has_guess guess self.now.guesses.items }
    {
        self.guesses.iter().any(|before| guess.is(*before))
    }

    /// Writes the line of an event that is from records that begin there, with what was guessed for
    /// it.
    ///
    /// Asks for an event that fits (`Event::fits`). `TooLong` comes if the line is too long, and
    /// leaves the text. After `OutOfMemory` it is of no use.
    pub(crate) fn write(
        &mut self,
        event: Event,
        first: Place,
        last: Place,
    ) -> Result<(), NotedFault>
        requires { fits event ≡ true }
        ensures ok { OnOk result (self.new.text ≡ self.old.text
            ++ (noted (lines.Event event) (own_members self.old.has_places first last
            self.old.guesses.items) ++ 10 ∷ [])) }
        ensures guesses { OnOk result (self.new.guesses.items ≡ []) }
        ensures unit { self.new.unit ≡ self.old.unit }
        ensures places { self.new.has_places ≡ self.old.has_places }
        ensures told { OnOk result (told self.new.text ≡ with_event (told self.old.text)
            (marks_of self.old.guesses.items) event) }
    {
        self.push(event, first, last)?;
        self.guesses.clear();
        Ok(())
    }

    /// Appends the line of an event that is from records that begin there.
    fn push(&mut self, event: Event, first: Place, last: Place) -> Result<(), NotedFault>
        requires { fits event ≡ true }
        ensures ok { OnOk result (self.new.text ≡ self.old.text
            ++ (noted (lines.Event event) (own_members self.old.has_places first last
            self.old.guesses.items) ++ 10 ∷ [])) }
        ensures unit { self.new.unit ≡ self.old.unit }
        ensures places { self.new.has_places ≡ self.old.has_places }
        ensures told { OnOk result (told self.new.text ≡ with_event (told self.old.text)
            (marks_of self.old.guesses.items) event) }
    {
        if self.has_places {
            let own = self.own_keys(first, last)?;
            return self.text.push(self.alloc, event, own);
        }
        self.push_guessed(event)
    }

    /// Appends the line of an event that says what was guessed, and not where it is from.
    fn push_guessed(&mut self, event: Event) -> Result<(), NotedFault>
        requires { fits event ≡ true }
        ensures ok { OnOk result (self.new.text ≡ self.old.text
            ++ (noted (lines.Event event) (guessed self.old.guesses.items no_members)
            ++ 10 ∷ [])) }
        ensures unit { self.new.unit ≡ self.old.unit }
        ensures places { self.new.has_places ≡ self.old.has_places }
        ensures told { OnOk result (told self.new.text ≡ with_event (told self.old.text)
            (marks_of self.old.guesses.items) event) }
    {
        // What is kept stays for the line after this one.
        if self.guesses.is_empty() {
            return self.text.push_text(event, b"");
        }
        self.kept.renew(self.alloc, &self.guesses)?;
        self.text.push_text(event, self.kept.as_bytes())
    }

    /// The line of the header, with the dialect by which the log is read, with what was guessed for
    /// it, and with what a reader of a refusal has to know, if there is anything.
    ///
    /// `TooLong` comes if the line is too long. After `OutOfMemory` it is of no use.
    pub(crate) fn header(
        &mut self,
        header: Header,
        dialect: &str,
        doubts: &[String],
    ) -> Result<HeaderLine, NotedFault>
        ensures line { IfOk result (λ line. (own : Members) × AreOwn own
            × (line ≡ noted (lines.Header header) own ++ 10 ∷ [])
            × ((g : AGuess) → has_guess g self.old.guesses.items ≡ true
            → own_say own g ≡ true)) }
        ensures text { self.new.text ≡ self.old.text }
        ensures unit { self.new.unit ≡ self.old.unit }
        ensures places { self.new.has_places ≡ self.old.has_places }
    {
        let own = self.header_keys(dialect, doubts)?;
        let line = HeaderLine::of(self.alloc, header, own)?;
        self.guesses.clear();
        Ok(line)
    }

    /// The own keys of the header.
    fn header_keys(&self, dialect: &str, doubts: &[String]) -> Result<OwnKeys, AllocError>
        ensures own { IfOk result (λ own. AreOwn (members_view own.entries)) }
        ensures guesses { IfOk result (λ own. (g : AGuess)
            → has_guess g self.now.guesses.items ≡ true
            → own_say (members_view own.entries) g ≡ true) }
    {
        let mut own = OwnKeys::new(self.alloc);
        put_if_ascii(&mut own, self.alloc, OwnKey::Dialect, dialect)?;
        if !self.guesses.is_empty() {
            put_guesses(&mut own, self.alloc, &self.guesses)?;
        }
        if !doubts.is_empty() {
            put_texts(&mut own, self.alloc, OwnKey::Note, doubts)?;
        }
        Ok(own)
    }

    /// Writes the line of an event that no record says: packets left the bytes in flight. The line
    /// names them.
    ///
    /// Asks for an event that fits (`Event::fits`). `TooLong` comes if the line is too long, and
    /// leaves the text. After `OutOfMemory` it is of no use.
    pub(crate) fn write_forgotten(
        &mut self,
        event: Event,
        place: Place,
        space: Space,
        numbers: &Spans,
    ) -> Result<(), NotedFault>
        requires { fits event ≡ true }
        ensures ok { OnOk result ((own : Members) × AreOwn own × (self.new.text
            ≡ self.old.text ++ (noted (lines.Event event) own ++ 10 ∷ []))) }
        ensures unit { self.new.unit ≡ self.old.unit }
        ensures places { self.new.has_places ≡ self.old.has_places }
        ensures told { OnOk result ((marks : Marks) × (told self.new.text
            ≡ with_event (told self.old.text) marks event)) }
    {
        let own = self.forgotten_keys(place, space, numbers)?;
        self.text.push(self.alloc, event, own)?;
        self.guesses.clear();
        Ok(())
    }

    /// The own keys of a line that names packets that left the bytes in flight.
    fn forgotten_keys(
        &self,
        place: Place,
        space: Space,
        numbers: &Spans,
    ) -> Result<OwnKeys, AllocError>
        ensures own { IfOk result (λ own. AreOwn (members_view own.entries)) }
    {
        let mut own = OwnKeys::new(self.alloc);
        put_ranges(&mut own, self.alloc, OwnKey::Forgot, numbers)?;
        if !self.guesses.is_empty() {
            put_guesses(&mut own, self.alloc, &self.guesses)?;
        }
        if self.has_places {
            let stretch = Stretch {
                first: place,
                last: place,
                is_guess: true,
            };
            put_stretch(&mut own, self.alloc, stretch)?;
        }
        put_text(&mut own, self.alloc, OwnKey::Space, space.name())?;
        Ok(own)
    }

    /// The own keys of the next line.
    fn own_keys(&self, first: Place, last: Place) -> Result<OwnKeys, AllocError>
        ensures keys { IfOk result (λ own. members_view own.entries
            ≡ own_members self.now.has_places first last self.now.guesses.items) }
        ensures own { IfOk result (λ own. AreOwn (members_view own.entries)) }
    {
        let mut own = OwnKeys::new(self.alloc);
        if !self.guesses.is_empty() {
            put_guesses(&mut own, self.alloc, &self.guesses)?;
        }
        if self.has_places {
            let is_guess = self.has_line_guess();
            let stretch = Stretch {
                first,
                last,
                is_guess,
            };
            put_stretch(&mut own, self.alloc, stretch)?;
        }
        Ok(own)
    }

    /// Whether some guess is of a whole line.
    fn has_line_guess(&self) -> bool
        ensures { result ≡ are_of_line self.now.guesses.items }
    {
        self.guesses.iter().any(|guess| guess.is_of_line())
    }
}

/// A time or a duration as a trace of this unit has it, rounded down.
pub(crate) fn in_unit_of(unit: TimeUnit, nanoseconds: u64) -> u64
    ensures { result ≡ in_unit unit nanoseconds }
{
    match unit {
        TimeUnit::Microseconds => nanoseconds / 1_000,
        TimeUnit::Nanoseconds => nanoseconds,
    }
}
