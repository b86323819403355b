//! Pieces of text: words, and a number or a name behind some words.
ghost use Rattle.std.specs.Prelude.{◌≡◌, ◌++◌, OnOk, string_bytes};
ghost use Rattle.qa_explain.specs.text.Pieces as text;

use std::alloc::AllocError;
use std::fmt::Write;

/// Appends some words. `AllocError` comes where it is out of memory, here and in all that append.
pub fn push_words(out: &mut String, words: &str) -> Result<(), AllocError>
    ensures { OnOk result (string_bytes out.new ≡ string_bytes out.old ++ words.now) }
{
    out.push_str(words)
}

/// Appends some words and then a number.
#[tactic(auto, unfolding(crate::specs::text::Pieces::numbered))]
pub fn push_number(out: &mut String, words: &str, number: u64) -> Result<(), AllocError>
    ensures { OnOk result (string_bytes out.new
        ≡ string_bytes out.old ++ text.numbered words.now number) }
{
    write!(out, "{words}{number}")
}

/// Appends some words and then a number of up to 128 bits.
#[tactic(auto, unfolding(crate::specs::text::Pieces::numbered))]
pub fn push_wide(out: &mut String, words: &str, number: u128) -> Result<(), AllocError>
    ensures { OnOk result (string_bytes out.new
        ≡ string_bytes out.old ++ text.numbered words.now number) }
{
    write!(out, "{words}{number}")
}

/// Appends some words and then a name.
#[tactic(auto, unfolding(crate::specs::text::Pieces::named))]
pub fn push_name(out: &mut String, words: &str, name: &str) -> Result<(), AllocError>
    ensures { OnOk result (string_bytes out.new
        ≡ string_bytes out.old ++ text.named words.now name.now) }
{
    out.push_str(words)?;
    out.push_str(name)
}
