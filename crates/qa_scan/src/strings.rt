//! Strings of JSON whose content is not asked for.
ghost use Rattle.std.specs.Prelude.{◌≡◌, ◌≤◌, ◌<◌, ◌+◌, true, length, take, get_or, IfSome};
ghost use Rattle.std.specs.Char.{digit_value};
ghost use Rattle.std.specs.List.{list_all};
ghost use Rattle.qa_scan.specs.Lexes.{IsString};
ghost use Rattle.qa_scan.specs.Strings.{IsPart, IsUnit, IsUnitAt};
ghost use Rattle.qa_scan.specs.Strings.{is_high as is_high_byte, is_short as is_short_byte};

use crate::plain::plain_end;
use crate::words::after_byte;

/// The lowest code unit that begins a pair of surrogates.
const FIRST_SURROGATE: u32 = 0xd800;

/// The lowest code unit that ends such a pair.
const SECOND_SURROGATE: u32 = 0xdc00;

/// The lowest code unit behind the surrogates.
const BEHIND_SURROGATES: u32 = 0xe000;

/// Whether the byte is above printable ASCII.
#[inline(always)]
fn is_high(byte: u8) -> bool
    ensures { result ≡ is_high_byte byte }
{
    127 <= byte
}

/// How many such bytes stand at the front.
fn high_ahead(bytes: &[u8]) -> usize
    ensures within { result ≤ length bytes.now }
    ensures high { list_all is_high_byte (take result bytes.now) ≡ true }
{
    let mut i = 0;
    while i < bytes.len() {
        if !is_high(bytes[i]) {
            break;
        }
        i += 1;
    }
    i
}

/// Where such bytes end, from a place on, if there are any and they are UTF-8.
fn high_end(bytes: &[u8], place: usize) -> Option<usize>
    requires { place ≤ length bytes.now }
    ensures { IfSome result (λ end. IsPart bytes.now place end × (place < end)) }
{
    let (_, behind) = bytes.split_at(place);
    let (high, _) = behind.split_at(high_ahead(behind));
    if high.is_empty() {
        return None;
    }
    let Ok(_) = str::from_utf8(high) else {
        return None;
    };
    Some(place + high.len())
}

/// Whether the byte alone may stand behind a backslash (RFC 8259, section 7).
fn is_short(byte: u8) -> bool
    ensures { result ≡ is_short_byte byte }
{
    byte == b'"'
        || byte == b'\\'
        || byte == b'/'
        || byte == b'b'
        || byte == b'f'
        || byte == b'n'
        || byte == b'r'
        || byte == b't'
}

/// The value of a hexadecimal digit.
fn hexadecimal(byte: u8) -> Option<u32>
    ensures { IfSome result (λ digit. (digit_value byte ≡ digit) × (digit < 16)) }
{
    char::from(byte).to_digit(16)
}

/// The code unit that four hexadecimal digits spell.
fn unit(bytes: &[u8], place: usize) -> Option<u32>
    requires { place + 4 ≤ length bytes.now }
    ensures { IfSome result (λ unit. IsUnit bytes.now place unit) }
{
    let first = hexadecimal(bytes[place])?;
    let second = hexadecimal(bytes[place + 1])?;
    let third = hexadecimal(bytes[place + 2])?;
    let fourth = hexadecimal(bytes[place + 3])?;
    Some(first * 4096 + second * 256 + third * 16 + fourth)
}

/// The code unit of an escape `\uXXXX` at a place.
fn escaped_unit(bytes: &[u8], place: usize) -> Option<u32>
    requires { place ≤ length bytes.now }
    ensures { IfSome result (λ unit. IsUnitAt bytes.now place unit) }
{
    if bytes.len() - place < 6 || bytes[place] != b'\\' || bytes[place + 1] != b'u' {
        return None;
    }
    unit(bytes, place + 2)
}

/// Where an escape ends that has a code unit, or a pair of surrogates, each with its own escape. A
/// surrogate stands for nothing alone.
fn code_end(bytes: &[u8], place: usize) -> Option<usize>
    requires { place ≤ length bytes.now }
    ensures { IfSome result (λ end. IsPart bytes.now place end × (place < end)) }
{
    let unit = escaped_unit(bytes, place)?;
    if unit < FIRST_SURROGATE || BEHIND_SURROGATES <= unit {
        return Some(place + 6);
    }
    if SECOND_SURROGATE <= unit {
        return None;
    }
    let second = escaped_unit(bytes, place + 6)?;
    if second < SECOND_SURROGATE || BEHIND_SURROGATES <= second {
        return None;
    }
    Some(place + 12)
}

/// Where an escape ends.
fn escape_end(bytes: &[u8], place: usize) -> Option<usize>
    requires within { place < length bytes.now }
    requires backslash { get_or bytes.now place 0 ≡ 92 }
    ensures { IfSome result (λ end. IsPart bytes.now place end × (place < end)) }
{
    let next = place + 1;
    if next < bytes.len() && is_short(bytes[next]) {
        Some(place + 2)
    } else {
        code_end(bytes, place)
    }
}

/// Where an escape or bytes above printable ASCII end. It stands apart, since few strings have any.
#[inline(never)]
fn part_end(bytes: &[u8], place: usize) -> Option<usize>
    requires { place < length bytes.now }
    ensures { IfSome result (λ end. IsPart bytes.now place end × (place < end)) }
{
    if bytes[place] == b'\\' {
        escape_end(bytes, place)
    } else {
        high_end(bytes, place)
    }
}

/// What follows a string of JSON (RFC 8259, section 7), whatever stands in it.
pub fn any_string(bytes: &[u8]) -> Option<&[u8]>
    ensures { IfSome result (λ rest. IsString bytes.now rest.now) }
{
    let inside = after_byte(bytes, b'"')?;
    let mut i = plain_end(inside, 0);
    while i < inside.len() && inside[i] != b'"' {
        let end = part_end(inside, i)?;
        i = plain_end(inside, end);
    }
    after_byte(&inside[i..], b'"')
}
