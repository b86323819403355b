//! A text of JSON in which nothing is hidden, so that a terminal shows it as it is.
ghost use Rattle.std.specs.Prelude.{◌≡◌, ◌<◌, ◌++◌, IfOk, OnOk, flat_map};
ghost use Rattle.std.specs.Char.{digit_char};
ghost use Rattle.qa_why.specs.Hidden as text;

use crate::lines::extend;
use qa_check::is_hidden;
use std::alloc::{AllocError, Global};

/// A digit of base 16, with letters in lower case.
fn digit(value: u16) -> u8
    requires { value < 16 }
    ensures { result ≡ digit_char value }
{
    if value < 10 {
        b'0' + value as u8
    } else {
        b'a' + (value - 10) as u8
    }
}

/// A unit of UTF-16 as JSON escapes it.
fn unit_escape(unit: u16) -> [u8; 6]
    ensures { result ≡ text.unit_escape unit }
{
    let first = digit(unit / 0x1000 % 16);
    let second = digit(unit / 0x100 % 16);
    let third = digit(unit / 0x10 % 16);
    let last = digit(unit % 16);
    [b'\\', b'u', first, second, third, last]
}

fn push_units(out: &mut Vec<u8>, units: &[u16]) -> Result<(), AllocError>
    ensures { OnOk result (out.new.items
        ≡ out.old.items ++ flat_map text.unit_escape units.now) }
{
    for unit in units {
        extend(out, &unit_escape(*unit))?;
    }
    Ok(())
}

/// Appends a character of a text of JSON.
fn push_seen(out: &mut Vec<u8>, character: char) -> Result<(), AllocError>
    ensures { OnOk result (out.new.items ≡ out.old.items ++ text.seen_character character) }
{
    if is_hidden(character) {
        let mut units = [0u16; 2];
        push_units(out, character.encode_utf16(&mut units))
    } else {
        let mut bytes = [0u8; 4];
        extend(out, character.encode_utf8(&mut bytes).as_bytes())
    }
}

/// A text of JSON with each hidden character escaped, as those of a string may be. Outside of
/// strings there are none. `AllocError` comes where it is out of memory.
pub fn without_hidden(alloc: Global, json: &str) -> Result<Vec<u8>, AllocError>
    ensures { IfOk result (λ seen. seen.items ≡ text.without_hidden json.now) }
{
    let mut seen = Vec::new(alloc);
    for character in json.chars() {
        push_seen(&mut seen, character)?;
    }
    Ok(seen)
}
