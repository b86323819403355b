//! White space, operators, integers, booleans and strings.
ghost use Rattle.std.specs.Prelude.{◌≡◌, ◌≤◌, ◌<◌, ◌^◌, ◌++◌, ◌∷◌, [], true, length, drop, decimal};
ghost use Rattle.std.specs.Prelude.{IfSome};
ghost use Rattle.std.specs.List.{list_all};
ghost use Rattle.json.specs.Lex.{token, colon as colon_lexeme, comma as comma_lexeme};
ghost use Rattle.json.specs.Token as tokens;
ghost use Rattle.json.specs.Word as word;
ghost use Rattle.serde_json.specs.Written.{compact_text};
ghost use Rattle.qa_format.specs.format.Written as written;
ghost use Rattle.qa_scan.specs.Lexes.{EndsIn, Lexes, IsPast, IsQuoted, is_plain as is_plain_byte};

use crate::digits::{digits, digits_at};
use crate::plain::plain_end;
use crate::words::{after, after_byte};

/// White space of JSON.
#[inline(always)]
fn is_space(byte: u8) -> bool
    ensures { result ≡ word.is_space byte }
{
    byte == b' ' || byte == b'\t' || byte == b'\n' || byte == b'\r'
}

/// One of the brackets, the colon and the comma.
#[inline(always)]
fn is_operator(byte: u8) -> bool
    ensures { result ≡ word.is_operator byte }
{
    byte == b'{' || byte == b'}' || byte == b'[' || byte == b']' || byte == b':' || byte == b','
}

/// The bytes behind the white space that they begin with.
#[inline(always)]
pub fn skip_space(bytes: &[u8]) -> &[u8]
    ensures { Lexes bytes.now result.now [] }
{
    let [first, behind @ ..] = bytes else {
        return bytes;
    };
    // Mostly there is none, or one space.
    if b' ' < *first {
        return bytes;
    }
    if *first == b' ' {
        if let [second, ..] = behind {
            if b' ' < *second {
                return behind;
            }
        }
    }
    skip_spaces(bytes)
}

/// The same, byte by byte.
#[inline(never)]
fn skip_spaces(bytes: &[u8]) -> &[u8]
    ensures { Lexes bytes.now result.now [] }
{
    let mut i = 0;
    while i < bytes.len() {
        if !is_space(bytes[i]) {
            break;
        }
        i += 1;
    }
    &bytes[i..]
}

/// What follows the byte and the white space round it.
#[inline(always)]
fn past(bytes: &[u8], byte: u8) -> Option<&[u8]>
    ensures { IfSome result (λ rest. IsPast byte bytes.now rest.now) }
{
    if let [first, behind @ ..] = bytes {
        if *first == byte {
            return Some(skip_space(behind));
        }
        if b' ' < *first {
            return None;
        }
    }
    past_spaces(bytes, byte)
}

/// The same, where white space may stand before the byte. The call is made in a function of its
/// own, so that room for its result is made ready here alone.
#[inline(always)]
fn past_spaces(bytes: &[u8], byte: u8) -> Option<&[u8]>
    ensures { IfSome result (λ rest. IsPast byte bytes.now rest.now) }
{
    let rest = past_many(bytes, byte)?;
    Some(rest)
}

/// The same. It stands apart, since few lines have such white space.
#[inline(never)]
fn past_many(bytes: &[u8], byte: u8) -> Option<&[u8]>
    ensures { IfSome result (λ rest. IsPast byte bytes.now rest.now) }
{
    let behind = after_byte(skip_spaces(bytes), byte)?;
    Some(skip_spaces(behind))
}

/// What follows the brace that opens an object and the white space round it.
#[inline(always)]
pub fn begin_object(bytes: &[u8]) -> Option<&[u8]>
    ensures { IfSome result (λ rest. Lexes bytes.now rest.now (token tokens.begin_object ∷ [])) }
{
    past(bytes, b'{')
}

/// What follows the brace that closes an object and the white space round it.
#[inline(always)]
pub fn end_object(bytes: &[u8]) -> Option<&[u8]>
    ensures { IfSome result (λ rest. Lexes bytes.now rest.now (token tokens.end_object ∷ [])) }
{
    past(bytes, b'}')
}

/// What follows the bracket that opens a list and the white space round it.
#[inline(always)]
pub fn begin_array(bytes: &[u8]) -> Option<&[u8]>
    ensures { IfSome result (λ rest. Lexes bytes.now rest.now (token tokens.begin_array ∷ [])) }
{
    past(bytes, b'[')
}

/// What follows the bracket that closes a list; white space may stand before it.
#[inline(always)]
pub fn end_array(bytes: &[u8]) -> Option<&[u8]>
    ensures { IfSome result (λ rest. Lexes bytes.now rest.now (token tokens.end_array ∷ [])) }
{
    after_byte(skip_space(bytes), b']')
}

/// What follows a colon and the white space round it.
#[inline(always)]
pub fn colon(bytes: &[u8]) -> Option<&[u8]>
    ensures { IfSome result (λ rest. Lexes bytes.now rest.now (colon_lexeme ∷ [])) }
{
    past(bytes, b':')
}

/// What follows a comma and the white space round it.
#[inline(always)]
pub fn comma(bytes: &[u8]) -> Option<&[u8]>
    ensures { IfSome result (λ rest. Lexes bytes.now rest.now (comma_lexeme ∷ [])) }
{
    past(bytes, b',')
}

/// Whether an integer or a literal ends before these bytes.
#[inline(always)]
pub fn ends_word(bytes: &[u8]) -> bool
    ensures { result ≡ true → word.ends_word bytes.now ≡ true }
{
    let [next, ..] = bytes else {
        return true;
    };
    // Mostly a comma stands there.
    *next == b',' || is_operator(*next) || is_space(*next)
}

/// An integer of at most 19 digits, and what follows it, which is to end it.
#[inline(always)]
pub fn open_integer(bytes: &[u8]) -> Option<(u64, &[u8])>
    ensures { IfSome result (λ found. (found.0 < 2 ^ 64)
        × (word.ends_word found.1.now ≡ true
        → Lexes bytes.now found.1.now (token (tokens.number (decimal found.0)) ∷ []))) }
{
    digits(bytes)
}

/// The same of an integer that begins at a place.
#[inline(always)]
pub fn open_integer_at(bytes: &[u8], place: usize) -> Option<(u64, &[u8])>
    requires { place ≤ length bytes.now }
    ensures integer { IfSome result (λ found. (found.0 < 2 ^ 64)
        × (word.ends_word found.1.now ≡ true
        → Lexes (drop place bytes.now) found.1.now
        (token (tokens.number (decimal found.0)) ∷ []))) }
    ensures ends { IfSome result (λ found. EndsIn (drop place bytes.now) found.1.now) }
{
    digits_at(bytes, place)
}

/// An integer of at most 19 digits, and what follows it.
#[inline(always)]
pub fn integer(bytes: &[u8]) -> Option<(u64, &[u8])>
    ensures { IfSome result (λ found. (found.0 < 2 ^ 64)
        × Lexes bytes.now found.1.now (token (tokens.number (decimal found.0)) ∷ [])) }
{
    let (n, rest) = digits(bytes)?;
    if ends_word(rest) {
        Some((n, rest))
    } else {
        None
    }
}

/// One of the literals `true` and `false`, and what follows it.
#[inline(always)]
fn literal(bytes: &[u8]) -> Option<(bool, &[u8])>
    ensures { IfSome result (λ found. bytes.now
        ≡ compact_text (written.boolean found.0) ++ found.1.now) }
{
    if let Some(rest) = after(bytes, b"true") {
        return Some((true, rest));
    }
    Some((false, after(bytes, b"false")?))
}

/// A boolean, and what follows it, which is to end it.
#[inline(always)]
pub fn open_boolean(bytes: &[u8]) -> Option<(bool, &[u8])>
    ensures { IfSome result (λ found. word.ends_word found.1.now ≡ true
        → Lexes bytes.now found.1.now (token (tokens.boolean found.0) ∷ [])) }
{
    literal(bytes)
}

/// A boolean, and what follows it.
#[inline(always)]
pub fn boolean(bytes: &[u8]) -> Option<(bool, &[u8])>
    ensures { IfSome result
        (λ found. Lexes bytes.now found.1.now (token (tokens.boolean found.0) ∷ [])) }
{
    let (value, rest) = literal(bytes)?;
    if ends_word(rest) {
        Some((value, rest))
    } else {
        None
    }
}

/// What follows the literal `null`.
#[inline(always)]
pub fn null(bytes: &[u8]) -> Option<&[u8]>
    ensures { IfSome result (λ rest. Lexes bytes.now rest.now (token tokens.null ∷ [])) }
{
    let rest = after(bytes, b"null")?;
    if ends_word(rest) { Some(rest) } else { None }
}

/// What stands in a string of printable ASCII without an escape, and what follows the string.
#[inline(always)]
pub fn string(bytes: &[u8]) -> Option<(&[u8], &[u8])>
    ensures { IfSome result (λ found. (list_all is_plain_byte found.0.now ≡ true)
        × IsQuoted found.0.now bytes.now found.1.now) }
{
    let inside = after_byte(bytes, b'"')?;
    let end = plain_end(inside, 0);
    let rest = after_byte(&inside[end..], b'"')?;
    Some((&inside[..end], rest))
}
