//! The list of ranges of packet numbers.
ghost use Rattle.std.specs.Prelude.{◌≡◌, ◌≤◌, ◌<◌, [], ◌∷◌, ◌++◌, ℕ, List, length, IfSome};
ghost use Rattle.qa_format.specs.format.Proper.{IsRange};
ghost use Rattle.qa_fast_reader.specs.Ranges.{FollowsRanges, IsBehindSpace, IsPair, IsShortRange};
ghost use Rattle.qa_fast_reader.specs.Ranges.{TakesRange, TakesRanges};

use qa_base::{PacketNumber, Span, Spans};
use qa_scan::{
    after_byte, begin_array, comma, end_array, integer, open_integer, short_integer, two_codes,
};

/// So many bytes have room for a range of two numbers of sixteen digits and for a byte behind it.
const SHORT_ROOM: usize = 36;

/// The same, where a space may stand between the numbers.
const PAIR_ROOM: usize = 37;

/// The bracket that closes a range, and a comma behind it.
const ANOTHER: u16 = 0x2c5d;

/// The brackets that close a range and the list of ranges.
const LAST: u16 = 0x5d5d;

/// A range mostly takes so many bytes with the comma behind it, or a few more.
const BYTES_OF_RANGE: usize = 16;

/// The place, or the next where a space stands at it.
#[inline(always)]
fn behind_space(bytes: &[u8], place: usize) -> usize
    requires { place < length bytes.now }
    ensures { IsBehindSpace bytes.now place result }
{
    if bytes[place] == b' ' {
        place + 1
    } else {
        place
    }
}

/// The two numbers of a range, where these are short and in order, and a space stands behind their
/// comma at most; gives what follows the range. Zero is left to others.
#[inline(always)]
fn short_pair(bytes: &[u8]) -> Option<(u64, u64, &[u8])>
    ensures { IfSome result (λ found. IsPair found.0 found.1 bytes.now found.2.now) }
{
    if bytes.len() < PAIR_ROOM {
        return None;
    }
    let (lo, digits) = short_integer(&bytes[1..])?;
    let middle = 1 + digits;
    let second = behind_space(bytes, middle + 1);
    let (hi, more) = short_integer(&bytes[second..])?;
    let end = second + more;
    if bytes[0] != b'[' || bytes[middle] != b',' || bytes[end] != b']' {
        return None;
    }
    if lo == 0 || hi < lo {
        return None;
    }
    Some((lo, hi, &bytes[end + 1..]))
}

/// The two numbers of a range; gives what follows the range. It stands apart, since few lists have
/// more than one that is not short.
#[inline(never)]
fn any_pair(bytes: &[u8]) -> Option<(u64, u64, &[u8])>
    ensures { IfSome result (λ found. IsPair found.0 found.1 bytes.now found.2.now) }
{
    let (lo, rest) = integer(begin_array(bytes)?)?;
    let (hi, rest) = integer(comma(rest)?)?;
    let rest = end_array(rest)?;
    Some((lo, hi, rest))
}

/// The two numbers of a range, which mostly are short; gives what follows the range.
#[inline(always)]
fn pair(bytes: &[u8]) -> Option<(u64, u64, &[u8])>
    ensures { IfSome result (λ found. IsPair found.0 found.1 bytes.now found.2.now) }
{
    if let Some(found) = short_pair(bytes) {
        return Some(found);
    }
    any_pair(bytes)
}

/// A range, which goes behind the others; gives what follows it.
#[inline(always)]
fn range<'a>(spans: &mut Spans, bytes: &'a [u8]) -> Option<&'a [u8]>
    ensures { IfSome result (λ rest. TakesRange spans.old spans.new bytes.now rest.now) }
{
    let (lo, hi, rest) = pair(bytes)?;
    put(spans, lo, hi)?;
    Some(rest)
}

/// A list of ranges; gives what follows it. None where memory is refused, too.
pub fn ranges<'a>(spans: &mut Spans, bytes: &'a [u8]) -> Option<&'a [u8]>
    requires { spans.old ≡ [] }
    ensures { IfSome result (λ rest. TakesRanges spans.new bytes.now rest.now) }
{
    let mut rest = begin_array(bytes)?;
    // The first range that is put would ask for room too.
    if spans.reserve(rest.len() / BYTES_OF_RANGE).is_err() {
        return None;
    }
    for i in 0..u64::MAX {
        let behind = range(spans, rest)?;
        let Some(more) = comma(behind) else {
            return end_array(behind);
        };
        rest = more;
    }
    None
}

/// A range without white space, which goes behind the others; gives what follows it.
#[inline(always)]
fn exact_range<'a>(spans: &mut Spans, bytes: &'a [u8]) -> Option<&'a [u8]>
    ensures { IfSome result (λ rest. TakesRange spans.old spans.new bytes.now rest.now) }
{
    let (lo, rest) = open_integer(after_byte(bytes, b'[')?)?;
    let (hi, rest) = open_integer(after_byte(rest, b',')?)?;
    let rest = after_byte(rest, b']')?;
    let span = Span::new(PacketNumber::new(lo)?, PacketNumber::new(hi)?)?;
    if spans.push(span).is_err() {
        return None;
    }
    Some(rest)
}

/// The bracket that opens a range and its two numbers, where these are short and in order, and
/// where what follows them begins. Zero is left to others.
#[inline(always)]
fn short_range(bytes: &[u8]) -> Option<(u64, u64, usize)>
    requires { 36 ≤ length bytes.now }
    ensures { IfSome result (λ found. IsShortRange bytes.now found.0 found.1 found.2) }
{
    let (lo, first) = short_integer(&bytes[1..])?;
    let middle = 1 + first;
    if bytes[0] != b'[' || bytes[middle] != b',' {
        return None;
    }
    let (hi, second) = short_integer(&bytes[middle + 1..])?;
    // Zero says that there is no digit.
    if lo == 0 || hi < lo {
        return None;
    }
    Some((lo, hi, middle + 1 + second))
}

/// The range of these numbers goes behind the others. None where they are none of a range, and
/// where memory is refused.
#[inline(always)]
fn put(spans: &mut Spans, lo: u64, hi: u64) -> Option<()>
    ensures { IfSome result (λ _. (spans.new ≡ spans.old ++ (lo, hi) ∷ []) × IsRange (lo, hi)) }
{
    let span = Span::new(PacketNumber::new(lo)?, PacketNumber::new(hi)?)?;
    if spans.push(span).is_err() {
        return None;
    }
    Some(())
}

/// The rest of a list of ranges without white space; gives what follows it. None where memory is
/// refused, too.
#[inline(never)]
fn longer_ranges<'a>(spans: &mut Spans, bytes: &'a [u8]) -> Option<&'a [u8]>
    ensures { (whole : List ℕ) → FollowsRanges spans.old whole bytes.now
        → IfSome result (λ rest. TakesRanges spans.new whole rest.now) }
{
    let mut rest = bytes;
    for i in 0..u64::MAX {
        let behind = exact_range(spans, rest)?;
        let Some(more) = after_byte(behind, b',') else {
            return after_byte(behind, b']');
        };
        rest = more;
    }
    None
}

/// A list of ranges without white space; gives what follows it. None where memory is refused, too.
pub fn exact_ranges<'a>(spans: &mut Spans, bytes: &'a [u8]) -> Option<&'a [u8]>
    requires { spans.old ≡ [] }
    ensures { IfSome result (λ rest. TakesRanges spans.new bytes.now rest.now) }
{
    let mut rest = after_byte(bytes, b'[')?;
    // The first range that is put would ask for room too.
    if spans.reserve(rest.len() / BYTES_OF_RANGE).is_err() {
        return None;
    }
    while SHORT_ROOM <= rest.len() {
        let Some((lo, hi, end)) = short_range(rest) else {
            break;
        };
        let codes = two_codes(rest, end);
        if codes != ANOTHER {
            if codes != LAST {
                break;
            }
            put(spans, lo, hi)?;
            return Some(&rest[end + 2..]);
        }
        put(spans, lo, hi)?;
        rest = &rest[end + 2..];
    }
    longer_ranges(spans, rest)
}
