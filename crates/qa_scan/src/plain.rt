//! Bytes that stand for themselves in a string, sixteen at a time.
ghost use Rattle.std.specs.Prelude.{◌≡◌, ◌≤◌, ◌+◌, length};
ghost use Rattle.qa_scan.specs.Lexes.{is_plain as is_plain_byte};
ghost use Rattle.qa_scan.specs.Strings.{ArePlain};

use std::simd::prelude::*;

/// So many bytes are looked at together.
const LANES: usize = 16;

/// Near the end of a line, so many.
const HALF_LANES: usize = 8;

/// A byte that stands for itself in a string, and is printable ASCII.
#[inline(always)]
fn is_plain(byte: u8) -> bool
    ensures { result ≡ is_plain_byte byte }
{
    b' ' <= byte && byte <= b'~' && byte != b'"' && byte != b'\\'
}

/// Where plain bytes end among sixteen, from a place on.
#[inline(always)]
fn end_of_lanes(bytes: &[u8], place: usize) -> usize
    requires { place + 16 ≤ length bytes.now }
    ensures plain { ArePlain bytes.now place result }
    ensures near { result ≤ place + 16 }
{
    let lanes = u8x16::from_slice(&bytes[place..]);
    let others = lanes.simd_eq(u8x16::splat(b'"'))
        | lanes.simd_eq(u8x16::splat(b'\\'))
        | (lanes - u8x16::splat(b' ')).simd_ge(u8x16::splat(95));
    // The bit behind the sixteen is set, so that there is a lowest one.
    place + (others.to_bitmask() | 65_536).trailing_zeros() as usize
}

/// Where plain bytes end among eight, from a place on.
#[inline(always)]
fn end_of_half(bytes: &[u8], place: usize) -> usize
    requires { place + 8 ≤ length bytes.now }
    ensures plain { ArePlain bytes.now place result }
    ensures near { result ≤ place + 8 }
{
    let lanes = u8x8::from_slice(&bytes[place..]);
    let others = lanes.simd_eq(u8x8::splat(b'"'))
        | lanes.simd_eq(u8x8::splat(b'\\'))
        | (lanes - u8x8::splat(b' ')).simd_ge(u8x8::splat(95));
    place + (others.to_bitmask() | 256).trailing_zeros() as usize
}

/// Where plain bytes end, from a place on, byte by byte.
#[inline(always)]
fn slow_end(bytes: &[u8], start: usize) -> usize
    requires { start ≤ length bytes.now }
    ensures { ArePlain bytes.now start result }
{
    let mut i = start;
    while i < bytes.len() {
        if !is_plain(bytes[i]) {
            break;
        }
        i += 1;
    }
    i
}

/// The same, where fewer than sixteen bytes are left.
#[inline(always)]
fn late_end(bytes: &[u8], start: usize) -> usize
    requires { start ≤ length bytes.now }
    ensures { ArePlain bytes.now start result }
{
    if bytes.len() - start < HALF_LANES {
        return slow_end(bytes, start);
    }
    let end = end_of_half(bytes, start);
    if end < start + HALF_LANES {
        return end;
    }
    slow_end(bytes, end)
}

/// Where plain bytes end, from a place on: bytes that stand for themselves in a string, and are
/// printable ASCII.
#[inline(always)]
pub fn plain_end(bytes: &[u8], start: usize) -> usize
    requires { start ≤ length bytes.now }
    ensures { ArePlain bytes.now start result }
{
    let mut i = start;
    while LANES <= bytes.len() - i {
        let end = end_of_lanes(bytes, i);
        if end < i + LANES {
            return end;
        }
        i = end;
    }
    late_end(bytes, i)
}
