//! Where in a log a line is from.
ghost use Rattle.std.specs.Prelude.{◌≡◌, ◌++◌, OnErr, OnOk, IfOk, decimal, string_bytes};
ghost use Rattle.std.specs.Prelude.{true};
ghost use Rattle.serde_json.specs.Data.{put, string};
ghost use Rattle.serde_json.specs.View.{members_view};
ghost use Rattle.qa_convert.specs.OwnKeys.{AreOwn, own_key_name};
ghost use Rattle.qa_convert.specs.Places.{is_place, place_text, stretch_text};
ghost use Rattle.qa_format.specs.format.Simple.{is_ascii};
ghost use Rattle.qa_convert.specs.declared.own.OwnKey.TheVariants as keys_of;

use crate::own::{OwnKey, OwnKeys, put_text};
use itoa::Buffer;
use std::alloc::{AllocError, Global};
use std::fmt;

/// Where a record of a log begins.
#[derive(Clone, Copy, Debug, PartialEq, Eq)]
pub enum Place {
    /// At this line, in a log that has a text a line.
    Line(u64),
    /// At this byte, in a log that is one text.
    Byte(u64),
}

/// Where the records stand from which a line is, or beside which it was guessed.
#[derive(Clone, Copy)]
pub struct Stretch {
    /// Where the first of them begins.
    pub first: Place,
    /// Where the last of them begins.
    pub last: Place,
    /// Whether the log has no record of the line.
    pub is_guess: bool,
}

impl Place {
    /// Whether both are one place.
    fn is_at(self, other: Place) -> bool
        ensures { result ≡ is_place self other }
    {
        match (self, other) {
            (Place::Line(here), Place::Line(there)) => here == there,
            (Place::Byte(here), Place::Byte(there)) => here == there,
            _ => false,
        }
    }

    /// Appends it in words.
    fn push(self, text: &mut String) -> Result<(), AllocError>
        ensures text { OnOk result (string_bytes text.new
            ≡ string_bytes text.old ++ place_text self) }
        ensures ascii { is_ascii (place_text self) ≡ true }
    {
        match self {
            Place::Line(number) => push_numbered(text, "line ", number),
            Place::Byte(number) => push_numbered(text, "byte ", number),
        }
    }
}

/// Appends a unit and a number of it.
#[tactic(auto, using(crate::proofs::Ascii::decimal_is_ascii))]
fn push_numbered(text: &mut String, unit: &str, number: u64) -> Result<(), AllocError>
    ensures text { OnOk result (string_bytes text.new
        ≡ string_bytes text.old ++ unit.now ++ decimal number) }
    ensures ascii { is_ascii (decimal number) ≡ true }
{
    let mut buffer = Buffer::new();
    text.push_str(unit)?;
    text.push_str(buffer.format(number))
}

impl Stretch {
    /// What is said of it.
    fn text(self, alloc: Global) -> Result<String, AllocError>
        ensures text { IfOk result (λ text. string_bytes text ≡ stretch_text self) }
        ensures ascii { OnOk result (is_ascii (stretch_text self) ≡ true) }
    {
        let mut text = String::new(alloc);
        if self.is_guess {
            text.push_str("guessed at ")?;
        }
        self.first.push(&mut text)?;
        if !self.first.is_at(self.last) {
            text.push_str(" to ")?;
            self.last.push(&mut text)?;
        }
        Ok(text)
    }
}

impl fmt::Display for Place {
    ghost use Rattle.std.specs.Prelude.{Some};
    ghost use Rattle.qa_convert.specs.Places.{place_text};

    ghost output = { λ place. Some (place_text place) };

    #[tactic(auto, unfolding(crate::specs::Places::place_text))]
    fn fmt<W: fmt::Write>(&self, f: &mut fmt::Formatter<W>) -> fmt::Result {
        match self {
            Place::Line(number) => write!(f, "line {number}"),
            Place::Byte(number) => write!(f, "byte {number}"),
        }
    }
}

/// Puts where a line is from at its key. `AllocError` comes if it is out of memory, and leaves the
/// keys as they were.
pub fn put_stretch(keys: &mut OwnKeys, alloc: Global, stretch: Stretch) -> Result<(), AllocError>
    requires { AreOwn (members_view keys.old.entries) }
    ensures ok { OnOk result (members_view keys.new.entries
        ≡ put (own_key_name keys_of.Place) (string (stretch_text stretch))
        (members_view keys.old.entries)) }
    ensures err { OnErr result (keys.new.entries ≡ keys.old.entries) }
    ensures own { AreOwn (members_view keys.new.entries) }
{
    let text = stretch.text(alloc)?;
    put_text(keys, alloc, OwnKey::Place, text.as_str())
}
