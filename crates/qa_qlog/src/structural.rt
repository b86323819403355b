//! Passing over bytes that are no brackets, and neither end a string nor escape a byte in one.
ghost use Rattle.std.specs.Prelude.{◌≡◌, ◌+◌, ◌≤◌, length, drop, map};
ghost use Rattle.std.specs.List.{prefix_len};
ghost use Rattle.std.specs.Simd.Lanes.{mask_l};
ghost use Rattle.qa_qlog.specs.Outer.{is_plain, is_structural};

use std::simd::prelude::*;

/// How many bytes are tested at once.
const LANES: usize = 16;

/// The place, from this one on, of the first byte that is structural, or the length.
pub(crate) fn plain_end(bytes: &[u8], from: usize) -> usize
    requires { from ≤ length bytes.now }
    ensures value { result ≡ from + prefix_len is_plain (drop from bytes.now) }
    ensures within { result ≤ length bytes.now }
{
    let mut place = from;
    while bytes.len() - place >= LANES {
        let found = structural(u8x16::from_slice(&bytes[place..]));
        if found != 0 {
            return place + found.trailing_zeros() as usize;
        }
        place += LANES;
    }
    last_plain_end(bytes, place)
}

/// The same, a byte at a time.
fn last_plain_end(bytes: &[u8], from: usize) -> usize
    requires { from ≤ length bytes.now }
    ensures { result ≡ from + prefix_len is_plain (drop from bytes.now) }
{
    let mut place = from;
    while place < bytes.len() && !is_structural(bytes[place]) {
        place += 1;
    }
    place
}

/// Which of these bytes are structural, the first in the lowest bit.
#[inline(always)]
fn structural(bytes: u8x16) -> u64
    ensures { result ≡ mask_l (map is_structural bytes) }
{
    (bytes.simd_eq(u8x16::splat(b'"'))
        | bytes.simd_eq(u8x16::splat(b'\\'))
        | bytes.simd_eq(u8x16::splat(b'{'))
        | bytes.simd_eq(u8x16::splat(b'['))
        | bytes.simd_eq(u8x16::splat(b'}'))
        | bytes.simd_eq(u8x16::splat(b']'))).to_bitmask()
}

/// Whether a byte can be a bracket, or begin or end a string, or escape a byte in one.
fn is_structural(byte: u8) -> bool
    ensures { result ≡ is_structural byte }
{
    matches!(byte, b'"' | b'\\' | b'{' | b'}' | b'[' | b']')
}
