//! Why a line of a trace cannot be read.
use qa_base::Key;
use std::fmt;

/// Why a line cannot be read, F1 to F11.
#[derive(Clone, Copy, Debug, PartialEq, Eq)]
pub enum Fault {
    /// F1: the bytes are no JSON value.
    NotJson,
    /// F2: the value is no object.
    NotObject,
    /// F3: a required key is absent.
    Missing(Key),
    /// F4: a key's value is of another kind.
    WrongKind(Key),
    /// F5: a key's value is outside its values.
    OutOfRange(Key),
    /// F6: the string at `event` names no event.
    UnknownEvent,
    /// F7: the first line that is not blank is no header, a later one is, or there is none.
    HeaderPlace,
    /// F8: more than 65,536 bytes stand before the line's end.
    LineTooLong,
    /// F9: an ack-eliciting packet that is not in flight.
    FlagsClash,
    /// F10: the header's version is neither 1 nor 2.
    Version,
    /// F11: a line after line 4294967295.
    TooManyLines,
}

impl Fault {
    ghost use Rattle.std.specs.Prelude.{◌≡◌};
    ghost use Rattle.qa_format.specs.format.Faults.{fault_name, fault_number, key_of};

    /// The fault's name, without the key that it is about.
    pub fn name(self) -> &'static str
        ensures { result.now ≡ fault_name self }
    {
        match self {
            Fault::NotJson => "not-json",
            Fault::NotObject => "not-object",
            Fault::Missing(_) => "missing",
            Fault::WrongKind(_) => "wrong-kind",
            Fault::OutOfRange(_) => "out-of-range",
            Fault::UnknownEvent => "unknown-event",
            Fault::HeaderPlace => "header-place",
            Fault::LineTooLong => "line-too-long",
            Fault::FlagsClash => "flags-clash",
            Fault::Version => "version",
            Fault::TooManyLines => "too-many-lines",
        }
    }

    /// The fault's number, 1 for F1.
    pub fn number(self) -> u64
        ensures { result ≡ fault_number self }
    {
        match self {
            Fault::NotJson => 1,
            Fault::NotObject => 2,
            Fault::Missing(_) => 3,
            Fault::WrongKind(_) => 4,
            Fault::OutOfRange(_) => 5,
            Fault::UnknownEvent => 6,
            Fault::HeaderPlace => 7,
            Fault::LineTooLong => 8,
            Fault::FlagsClash => 9,
            Fault::Version => 10,
            Fault::TooManyLines => 11,
        }
    }

    /// The key that the fault is about, of F3, F4 and F5 alone.
    pub fn key(self) -> Option<Key>
        ensures { result ≡ key_of self }
    {
        match self {
            Fault::Missing(key) | Fault::WrongKind(key) | Fault::OutOfRange(key) => Some(key),
            Fault::NotJson
            | Fault::NotObject
            | Fault::UnknownEvent
            | Fault::HeaderPlace
            | Fault::LineTooLong
            | Fault::FlagsClash
            | Fault::Version
            | Fault::TooManyLines => None,
        }
    }
}

/// The fault as a report has it: its number, its name, and the key that it is about.
impl fmt::Display for Fault {
    ghost use Rattle.std.specs.Prelude.{Some};
    ghost use Rattle.qa_format.specs.verdicts.Report.{fault_text};

    ghost output = { λ fault. Some (fault_text fault) };

    #[tactic(auto, unfolding(crate::specs::verdicts::Report::fault_text))]
    fn fmt<W: fmt::Write>(&self, f: &mut fmt::Formatter<W>) -> fmt::Result {
        let (number, name) = (self.number(), self.name());
        match self.key() {
            Some(key) => write!(f, "F{number} {name} {}", key.name()),
            None => write!(f, "F{number} {name}"),
        }
    }
}
