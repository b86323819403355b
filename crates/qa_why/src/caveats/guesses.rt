//! Lines of which something was guessed: their logger says so at the key `x_guess`.
ghost use Rattle.std.specs.Prelude.{◌≡◌, ◌++◌, [], List, IfOk, OnOk, string_bytes};
ghost use Rattle.qa_why.specs.caveats.Guesses as text;
ghost use Rattle.qa_why.specs.caveats.Guesses.{AreNoted, Guess, guess_on};

use crate::caveats::remarks::push_remarks;
use memchr::memchr;
use memchr::memmem::find;
use qa_explain::text::{push_number, push_words};
use std::alloc::{AllocError, Global};

/// The key at which a logger says what it guessed, as it stands in a line.
const QUOTED_KEY: &[u8] = b"\"x_guess\"";

/// How many lines before a refused one a guess is named.
const NEAR_LINES: u64 = 8;

/// Whether something on the line was guessed. Few lines have the key's `x`, whose search takes half
/// as long as that of the key.
pub(crate) fn is_guessed(line: &[u8]) -> bool
    ensures { result ≡ text.is_guessed line.now }
{
    if memchr(b'x', line).is_some() {
        find(line, QUOTED_KEY).is_some()
    } else {
        false
    }
}

/// How many lines of a trace were guessed.
#[derive(Clone, Copy)]
pub struct Guessed {
    /// How many lines; it stays at 2^64 - 1.
    pub count: u64,
    /// The first of them, counted from 1; 0 where there is none.
    pub first: u64,
}

/// The guesses of a trace in sum: how many lines, the first of them, and the last.
#[derive(Drop)]
pub struct Guesses {
    alloc: Global,
    /// How many lines; it stays at 2^64 - 1.
    pub(crate) count: u64,
    /// The first of them, counted from 1; 0 where there is none.
    pub(crate) first: u64,
    /// The last of them; 0 where there is none.
    pub(crate) last: u64,
    /// The last of them as it stands.
    pub(crate) bytes: Vec<u8>,
}

impl Guesses {
    /// Of no lines. Takes no memory.
    pub(crate) fn new(alloc: Global) -> Guesses
        ensures { AreNoted result [] }
    {
        Guesses {
            alloc,
            count: 0,
            first: 0,
            last: 0,
            bytes: Vec::new(alloc),
        }
    }

    /// How many lines were guessed.
    pub(crate) fn guessed(&self) -> Guessed
        ensures { (gs : List Guess) → AreNoted self.now gs → result ≡ text.guessed_of gs }
    {
        Guessed {
            count: self.count,
            first: self.first,
        }
    }

    /// Notes that line n was guessed.
    fn note_guess(&mut self, n: u64, line: &[u8]) -> Result<(), AllocError>
        ensures { OnOk result ((gs : List Guess) → AreNoted self.old gs
            → AreNoted self.new (text.with_guess gs n line.now)) }
    {
        self.bytes.clear();
        self.bytes.extend_from_slice(line)?;
        if self.count == 0 {
            self.first = n;
        }
        self.last = n;
        self.count = self.count.saturating_add(1);
        Ok(())
    }

    /// Notes line n, where something on it was guessed.
    #[inline(always)]
    pub(crate) fn note(&mut self, n: u64, line: &[u8]) -> Result<(), AllocError>
        ensures { OnOk result ((gs : List Guess) → AreNoted self.old gs
            → AreNoted self.new (gs ++ guess_on n line.now)) }
    {
        if !is_guessed(line) {
            return Ok(());
        }
        self.note_guess(n, line)
    }

    /// The words before what was guessed on the last line.
    #[tactic(auto, unfolding(crate::specs::caveats::Guesses::words_at))]
    fn words(&self) -> Result<String, AllocError>
        ensures { IfOk result (λ words. string_bytes words ≡ text.words_at self.now.last) }
    {
        let mut words = String::new(self.alloc);
        push_number(&mut words, "  guessed on line ", self.last)?;
        push_words(&mut words, ": ")?;
        Ok(words)
    }

    /// Whether the last guess is near before line n.
    fn is_near(&self, n: u64) -> bool
        ensures { result ≡ text.is_near n self.now.last }
    {
        1 <= self.last && n <= self.last.saturating_add(NEAR_LINES)
    }

    /// Appends what was guessed on the last line, where it is near before line n.
    fn push_near(&self, out: &mut Vec<u8>, n: u64) -> Result<(), AllocError>
        ensures { OnOk result (out.new.items
            ≡ out.old.items ++ text.near_text n self.now.last self.now.bytes.items) }
    {
        if !self.is_near(n) {
            return Ok(());
        }
        let words = self.words()?;
        push_remarks(self.alloc, out, words.as_str(), "x_guess", &self.bytes)
    }

    /// Appends what was guessed on line n, or else on the last line that was noted, where it is
    /// near before that. `AllocError` comes where it is out of memory.
    pub(crate) fn push_before(
        &self,
        out: &mut Vec<u8>,
        n: u64,
        line: &[u8],
    ) -> Result<(), AllocError>
        ensures { OnOk result ((gs : List Guess) → AreNoted self.now gs
            → out.new.items ≡ out.old.items ++ text.guesses_before n line.now gs) }
    {
        if is_guessed(line) {
            return push_remarks(self.alloc, out, "  guessed: ", "x_guess", line);
        }
        self.push_near(out, n)
    }
}
