//! The lines of a trace: that of its header, and those of events, which a reader of traces reads as
//! what they say.
ghost use Rattle.qa_convert.specs.Telling.{told, with_event};
ghost use Rattle.std.specs.Prelude.{◌≡◌, ◌++◌, ◌∷◌, [], OnErr, OnOk, IfOk, true};
ghost use Rattle.qa_base.specs.values.Events.{fits};
ghost use Rattle.qa_convert.specs.OwnKeys.{AreEventLines, AreOwn, IsHeaderLine, IsOwnText};
ghost use Rattle.qa_convert.specs.Marks.{marks_in};
ghost use Rattle.qa_convert.specs.OwnKeys.{noted, own_text, with_own};
ghost use Rattle.qa_format.specs.format.Written.{written};
ghost use Rattle.serde_json.specs.View.{members_view};
ghost use Rattle.qa_format.specs.declared.line.Line.TheVariants as lines;

use crate::noted::{NotedFault, own_text_of, push_noted, push_with_own};
use crate::own::OwnKeys;
use qa_base::{Event, Header};
use qa_fast_writer::push_event;
use qa_format::Line;
use std::alloc::Global;
use std::marker::Model;

/// The text of lines of events.
#[derive(Drop)]
pub(crate) struct EventLines {
    text: Vec<u8>,
    /// The text of the next line, without own keys.
    next: Vec<u8>,
}

impl Model for EventLines {
    ghost use Rattle.std.specs.Prelude.{List, ℕ};
    ghost use Rattle.qa_convert.specs.OwnKeys.{AreEventLines};

    ghost Value = { List ℕ };

    ghost view = { λ l. l.text.items };

    ghost invariant = { λ l. AreEventLines l.text.items };
}

impl EventLines {
    /// No lines. Takes no memory.
    pub(crate) fn new(alloc: Global) -> EventLines
        ensures { result ≡ [] }
    {
        EventLines {
            text: Vec::new(alloc),
            next: Vec::new(alloc),
        }
    }

    /// Appends the line of an event, with own keys, and LF.
    ///
    /// Asks for an event that fits (`Event::fits`): no line says another. `TooLong` comes if the
    /// line has more than 65,536 bytes, and `OutOfMemory` if it is out of memory; each leaves the
    /// lines.
    pub(crate) fn push(
        &mut self,
        alloc: Global,
        event: Event,
        own: OwnKeys,
    ) -> Result<(), NotedFault>
        requires fitting { fits event ≡ true }
        requires own { AreOwn (members_view own.entries) }
        ensures ok { OnOk result (self.new ≡ self.old
            ++ (noted (lines.Event event) (members_view own.entries) ++ 10 ∷ [])) }
        ensures err { OnErr result (self.new ≡ self.old) }
        ensures told { OnOk result (told self.new ≡ with_event (told self.old)
            (marks_in (own_text (members_view own.entries))) event) }
    {
        let text = own_text_of(alloc, own)?;
        self.push_text(event, text.as_bytes())
    }

    /// Appends the line of an event, with own keys of which the text is given, and LF.
    ///
    /// Asks for an event that fits (`Event::fits`): no line says another. `TooLong` comes if the
    /// line has more than 65,536 bytes, and `OutOfMemory` if it is out of memory; each leaves the
    /// lines.
    pub(crate) fn push_text(&mut self, event: Event, own: &[u8]) -> Result<(), NotedFault>
        requires fitting { fits event ≡ true }
        requires own { IsOwnText own.now }
        ensures ok { OnOk result (self.new ≡ self.old
            ++ (with_own (written (lines.Event event)) own.now ++ 10 ∷ [])) }
        ensures err { OnErr result (self.new ≡ self.old) }
        ensures told { OnOk result (told self.new ≡ with_event (told self.old)
            (marks_in own.now) event) }
    {
        self.next.clear();
        push_event(&event, &mut self.next)?;
        push_with_own(self.next.as_slice(), own, &mut self.text)?;
        Ok(())
    }

    /// Their text.
    pub(crate) fn as_slice(&self) -> &[u8]
        ensures text { result.now ≡ self.now }
        ensures lines { AreEventLines result.now }
    {
        self.text.as_slice()
    }

    /// Takes them away.
    pub(crate) fn clear(&mut self)
        ensures { self.new ≡ [] }
    {
        self.text.clear();
    }
}

/// The line of a header, with its LF.
#[derive(Drop)]
pub(crate) struct HeaderLine {
    text: Vec<u8>,
}

impl Model for HeaderLine {
    ghost use Rattle.std.specs.Prelude.{List, ℕ};
    ghost use Rattle.qa_convert.specs.OwnKeys.{IsHeaderLine};

    ghost Value = { List ℕ };

    ghost view = { λ l. l.text.items };

    ghost invariant = { λ l. IsHeaderLine l.text.items };
}

impl HeaderLine {
    /// The line of a header, with own keys. `TooLong` comes if it has more than 65,536 bytes.
    pub(crate) fn of(alloc: Global, header: Header, own: OwnKeys) -> Result<HeaderLine, NotedFault>
        requires { AreOwn (members_view own.entries) }
        ensures { IfOk result (λ line. line
            ≡ noted (lines.Header header) (members_view own.entries) ++ 10 ∷ []) }
    {
        let mut text = Vec::new(alloc);
        push_noted(alloc, &Line::Header(header), own, &mut text)?;
        Ok(HeaderLine { text })
    }

    /// Its text.
    pub(crate) fn as_slice(&self) -> &[u8]
        ensures text { result.now ≡ self.now }
        ensures line { IsHeaderLine result.now }
    {
        self.text.as_slice()
    }
}
