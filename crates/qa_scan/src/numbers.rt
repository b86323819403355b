//! Numbers of JSON whose value is not asked for.
ghost use Rattle.std.specs.Prelude.{◌≡◌, ◌≤◌, true, length, is_some, IfSome};
ghost use Rattle.fast_float.specs.Text.{scan};
ghost use Rattle.serde_json.specs.Read.{number_from, number_of};
ghost use Rattle.qa_scan.specs.Lexes.{IsNumber};

use crate::tokens::ends_word;
use fast_float::Numeral;
use json::is_number;

/// Whether the byte may stand in a number.
#[inline(always)]
fn is_part(byte: u8) -> bool {
    byte.is_ascii_digit() || byte == b'.' || byte == b'-' || byte == b'+' || byte | 32 == b'e'
}

/// How many bytes at the front may stand in a number.
#[inline(always)]
fn parts_ahead(bytes: &[u8]) -> usize
    ensures { result ≤ length bytes.now }
{
    let mut i = 0;
    while i < bytes.len() {
        if !is_part(bytes[i]) {
            break;
        }
        i += 1;
    }
    i
}

/// Whether the float nearest to a number is finite, so that an integer of 64 bits or a float holds
/// the number.
#[inline(always)]
fn is_finite(negative: bool, digits: &[u8]) -> bool
    ensures { result ≡ true → is_some (number_from negative (scan digits.now)) ≡ true }
{
    Numeral::scan(digits).to_float::<f64>(negative).is_finite()
}

/// The same of a number with its sign.
#[inline(always)]
fn has_room(text: &[u8]) -> bool
    ensures { result ≡ true → is_some (number_of text.now) ≡ true }
{
    let [first, digits @ ..] = text else {
        return false;
    };
    if *first == b'-' {
        is_finite(true, digits)
    } else {
        is_finite(false, text)
    }
}

/// What follows a number of JSON (RFC 8259, section 6) that a 64-bit float or integer holds.
pub fn number(bytes: &[u8]) -> Option<&[u8]>
    ensures { IfSome result (λ rest. IsNumber bytes.now rest.now) }
{
    let (front, rest) = bytes.split_at(parts_ahead(bytes));
    let Ok(text) = str::from_utf8(front) else {
        return None;
    };
    if ends_word(rest) && is_number(text) && has_room(front) {
        Some(rest)
    } else {
        None
    }
}
