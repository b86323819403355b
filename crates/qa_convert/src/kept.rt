//! The text of the own keys that say what was guessed, kept from line to line.
ghost use Rattle.std.specs.Prelude.{◌≡◌, [], IfOk, IsTrue, OnErr, OnOk, string_bytes};
ghost use Rattle.serde_json.specs.Data.{no_members};
ghost use Rattle.qa_convert.specs.Outputs.{guessed};
ghost use Rattle.qa_convert.specs.OwnKeys.{IsOwnText, own_text};

use crate::guess::{Guess, put_guesses};
use crate::noted::own_text_of;
use crate::own::OwnKeys;
use std::alloc::{AllocError, Global};
use std::marker::Model;

/// The text of the own keys that say what was guessed, with the guesses of which it was made: most
/// lines of a log say the same as the line before.
#[derive(Drop)]
pub(crate) struct KeptText {
    guesses: Vec<Guess>,
    text: String,
}

impl Model for KeptText {
    ghost use Rattle.std.specs.Prelude.{◌≡◌, List, string_bytes};
    ghost use Rattle.serde_json.specs.Data.{no_members};
    ghost use Rattle.qa_convert.specs.declared.guess.Guess.{Guess};
    ghost use Rattle.qa_convert.specs.Outputs.{guessed};
    ghost use Rattle.qa_convert.specs.OwnKeys.{own_text};

    ghost Value = { List Guess };

    ghost view = { λ k. k.guesses.items };

    ghost invariant = { λ k. string_bytes k.text
        ≡ own_text (guessed k.guesses.items no_members) };
}

impl KeptText {
    /// That of no guesses. Takes no memory.
    pub(crate) fn new(alloc: Global) -> KeptText
        ensures { result ≡ [] }
    {
        KeptText {
            guesses: Vec::new(alloc),
            text: String::new(alloc),
        }
    }

    /// Makes it that of these guesses, if it is of others. `AllocError` comes if it is out of
    /// memory, and leaves it as it was.
    pub(crate) fn renew(&mut self, alloc: Global, guesses: &[Guess]) -> Result<(), AllocError>
        ensures ok { OnOk result (self.new ≡ guesses.now) }
        ensures err { OnErr result (self.new ≡ self.old) }
    {
        if !are_same(&self.guesses, guesses) {
            *self = KeptText::of(alloc, guesses)?;
        }
        Ok(())
    }

    /// That of these guesses.
    fn of(alloc: Global, guesses: &[Guess]) -> Result<KeptText, AllocError>
        ensures { IfOk result (λ kept. kept ≡ guesses.now) }
    {
        let text = text_of_guesses(alloc, guesses)?;
        let mut copy = Vec::new(alloc);
        copy.extend_from_slice(guesses)?;
        Ok(KeptText {
            guesses: copy,
            text,
        })
    }

    /// It.
    pub(crate) fn as_bytes(&self) -> &[u8]
        ensures text { result.now ≡ own_text (guessed self.now no_members) }
        ensures own { IsOwnText result.now }
    {
        self.text.as_bytes()
    }
}

/// The text of the own keys that say what was guessed.
fn text_of_guesses(alloc: Global, guesses: &[Guess]) -> Result<String, AllocError>
    ensures { IfOk result (λ text. string_bytes text
        ≡ own_text (guessed guesses.now no_members)) }
{
    let mut own = OwnKeys::new(alloc);
    if !guesses.is_empty() {
        put_guesses(&mut own, alloc, guesses)?;
    }
    own_text_of(alloc, own)
}

/// Whether both are of the same guesses in the same order.
fn are_same(these: &[Guess], those: &[Guess]) -> bool
    ensures { IsTrue result → these.now ≡ those.now }
{
    if these.len() != those.len() {
        return false;
    }
    for index in 0..these.len() {
        if !these[index].is(those[index]) {
            return false;
        }
    }
    true
}
