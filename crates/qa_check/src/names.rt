//! How the name of a file is shown, so that it cannot pass for other lines of a text.

ghost use Rattle.std.specs.Prelude.{◌≡◌, ◌<◌, ◌++◌, IfOk, OnOk, flat_map};
ghost use Rattle.qa_check.specs.names.Names as names;

use std::alloc::{AllocError, Global};

/// Whether a character is shown by its bytes: the control characters, those that end lines, and
/// those that Unicode gives the property Default_Ignorable_Code_Point, for which nothing is drawn.
/// Among them are those that turn the order of a text around, and tags.
pub fn is_hidden(character: char) -> bool
    ensures { result ≡ names.is_hidden character }
{
    // Mostly a name is printable ASCII.
    if ' ' <= character && character <= '~' {
        return false;
    }
    character.is_control()
        || matches!(character, '\u{2028}'..='\u{2029}')
        || is_filler(character)
        || is_selector(character)
        || is_format(character)
}

/// Whether it is a filler or a joiner for which nothing is drawn.
#[tactic(auto, unfolding(crate::specs::names::Names::is_filler))]
fn is_filler(character: char) -> bool
    ensures { result ≡ names.is_filler character }
{
    matches!(
        character,
        '\u{34F}' | '\u{115F}'..='\u{1160}' | '\u{17B4}'..='\u{17B5}' | '\u{3164}' | '\u{FFA0}'
    )
}

/// Whether it selects a variant of another, or is one of the tags and what is kept beside them.
#[tactic(auto, unfolding(crate::specs::names::Names::is_selector))]
fn is_selector(character: char) -> bool
    ensures { result ≡ names.is_selector character }
{
    matches!(
        character,
        '\u{180B}'..='\u{180F}' | '\u{FE00}'..='\u{FE0F}' | '\u{E0000}'..='\u{E0FFF}'
    )
}

/// Whether it formats a text and is not drawn itself.
#[tactic(auto, unfolding(crate::specs::names::Names::is_format))]
fn is_format(character: char) -> bool
    ensures { result ≡ names.is_format character }
{
    matches!(
        character,
        '\u{AD}'
            | '\u{61C}'
            | '\u{200B}'..='\u{200F}'
            | '\u{202A}'..='\u{202E}'
            | '\u{2060}'..='\u{206F}'
            | '\u{FEFF}'
            | '\u{FFF0}'..='\u{FFF8}'
            | '\u{1BCA0}'..='\u{1BCA3}'
            | '\u{1D173}'..='\u{1D17A}'
    )
}

/// A byte as `\x` and two digits of base 16.
pub fn escaped(byte: u8) -> [u8; 4]
    ensures { result ≡ names.escaped byte }
{
    [b'\\', b'x', hex_digit(byte / 16), hex_digit(byte % 16)]
}

/// A digit of base 16, with letters in upper case.
fn hex_digit(value: u8) -> u8
    requires { value < 16 }
    ensures { result ≡ names.hex_digit value }
{
    if value < 10 {
        b'0' + value
    } else {
        b'A' + (value - 10)
    }
}

fn extend(out: &mut Vec<u8>, bytes: &[u8]) -> Result<(), AllocError>
    ensures { OnOk result (out.new.items ≡ out.old.items ++ bytes.now) }
{
    out.extend_from_slice(bytes)
}

fn push_escaped(out: &mut Vec<u8>, bytes: &[u8]) -> Result<(), AllocError>
    ensures { OnOk result (out.new.items
        ≡ out.old.items ++ flat_map names.escaped bytes.now) }
{
    for byte in bytes {
        extend(out, &escaped(*byte))?;
    }
    Ok(())
}

/// Appends a character as names show it.
fn push_character(out: &mut Vec<u8>, character: char) -> Result<(), AllocError>
    ensures { OnOk result (out.new.items
        ≡ out.old.items ++ names.shown_character character) }
{
    let mut buffer = [0u8; 4];
    let bytes = character.encode_utf8(&mut buffer).as_bytes();
    if is_hidden(character) {
        push_escaped(out, bytes)
    } else {
        extend(out, bytes)
    }
}

/// A name as it is shown: each hidden character by its bytes in UTF-8 as `\xNN`, and all others as
/// they are. `AllocError` comes where it is out of memory.
pub fn shown_name(alloc: Global, name: &str) -> Result<Vec<u8>, AllocError>
    ensures { IfOk result (λ shown. shown.items ≡ names.shown_name name.now) }
{
    let mut shown = Vec::new(alloc);
    for character in name.chars() {
        push_character(&mut shown, character)?;
    }
    Ok(shown)
}
