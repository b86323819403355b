//! Integers of at most sixteen digits, read by vectors of sixteen bytes.
ghost use Rattle.std.specs.Prelude.{◌≡◌, ◌+◌, ◌≤◌, ◌<◌, ◌^◌, ◌++◌, ℕ, get_or, length, drop};
ghost use Rattle.std.specs.Prelude.{decimal, IfSome};
ghost use Rattle.qa_scan.specs.Short.{AreLessZero, AreDigits, AreTwoCodes, AllBelow, IsShort};
ghost use Rattle.qa_scan.specs.Short.{in_pairs, number_of, sixteen_value};

use std::simd::prelude::*;

/// Where the lanes of a vector stand, behind sixteen places of lanes that are to be zero.
static PLACES: [u8; 32] = [
    128, 128, 128, 128, 128, 128, 128, 128, 128, 128, 128, 128, 128, 128, 128, 128, 0, 1, 2, 3, 4,
    5, 6, 7, 8, 9, 10, 11, 12, 13, 14, 15,
];

/// Where the lanes of a vector stand, with sixteen places behind them of lanes that are to be zero.
static SHIFTS: [u8; 32] = [
    0, 1, 2, 3, 4, 5, 6, 7, 8, 9, 10, 11, 12, 13, 14, 15, 128, 128, 128, 128, 128, 128, 128, 128,
    128, 128, 128, 128, 128, 128, 128, 128,
];

/// What the first of two numbers of eight digits is multiplied by, to make one of sixteen.
const EIGHT_DIGITS: u64 = 100_000_000;

/// The bytes from a place on as sixteen lanes, with zeros behind them where they are fewer.
#[inline(always)]
fn sixteen_from(bytes: &[u8], place: usize) -> u8x16
    requires long { 16 ≤ length bytes.now }
    requires near { (place ≤ length bytes.now) × (length bytes.now ≤ place + 16) }
    ensures long { length result ≡ 16 }
    ensures places { (j : ℕ) → j < 16 → get_or result j 0 ≡ get_or bytes.now (place + j) 0 }
{
    let start = bytes.len() - 16;
    let all = u8x16::from_slice(&bytes[start..]);
    all.swizzle_dyn(u8x16::from_slice(&SHIFTS[place - start..]))
}

/// The sixteen bytes, each less the digit zero, so that digits alone are below ten.
#[inline(always)]
fn less_zero(bytes: u8x16) -> u8x16
    ensures long { length result ≡ 16 }
    ensures digits { AreLessZero result bytes }
{
    bytes - u8x16::splat(b'0')
}

/// How many digits the lanes begin with.
#[inline(always)]
fn digits_ahead(lanes: u8x16) -> usize
    ensures few { result ≤ 16 }
    ensures digits { AreDigits lanes result }
{
    // The bit behind the sixteen is set, so that there is a lowest one.
    let others = lanes.simd_ge(u8x16::splat(10)).to_bitmask() | 65_536;
    others.trailing_zeros() as usize
}

/// The digits that the lanes begin with, as the last of sixteen lanes with zeros before them.
#[inline(always)]
fn aligned(lanes: u8x16, digits: usize) -> u8x16
    requires few { digits ≤ 16 }
    requires digits { AreDigits lanes digits }
    ensures long { length result ≡ 16 }
    ensures digits { AllBelow 10 result }
    ensures value { sixteen_value result ≡ number_of lanes digits }
{
    lanes.swizzle_dyn(u8x16::from_slice(&PLACES[digits..]))
}

/// Each two digits as one number.
#[inline(always)]
fn twos(digits: u8x16) -> u16x8
    requires long { length digits ≡ 16 }
    requires digits { AllBelow 10 digits }
    ensures { result ≡ in_pairs 10 digits }
{
    // Ten times the lower byte is added to the upper one.
    (u16x8::from_le_bytes(digits) * u16x8::splat(2561)) >> u16x8::splat(8)
}

/// Each two numbers of two digits as one.
#[inline(always)]
fn fours(twos: u16x8) -> u32x4
    requires long { length twos ≡ 8 }
    requires digits { AllBelow 100 twos }
    ensures { result ≡ in_pairs 100 twos }
{
    (u32x4::from_le_bytes(twos.to_le_bytes()) * u32x4::splat(6_553_601)) >> u32x4::splat(16)
}

/// Each two numbers of four digits as one.
#[inline(always)]
fn eights(fours: u32x4) -> u64x2
    requires long { length fours ≡ 4 }
    requires digits { AllBelow 10000 fours }
    ensures { result ≡ in_pairs 10000 fours }
{
    let halves = u64x2::from_le_bytes(fours.to_le_bytes());
    (halves & u64x2::splat(0xffff_ffff)) * u64x2::splat(10_000) + (halves >> u64x2::splat(32))
}

/// The number of which the lanes are the digits.
#[inline(always)]
fn value(digits: u8x16) -> u64
    requires long { length digits ≡ 16 }
    requires digits { AllBelow 10 digits }
    ensures { result ≡ sixteen_value digits }
{
    let halves = eights(fours(twos(digits))).to_array();
    halves[0] * EIGHT_DIGITS + halves[1]
}

/// The integer that the sixteen bytes begin with, and how many digits it has. Zero where the first
/// byte is no digit.
#[inline(always)]
fn number_ahead(bytes: u8x16) -> (u64, usize)
    requires { get_or bytes 0 0 ≡ 48 → ⊥ }
    ensures short { IsShort bytes result.0 result.1 }
    ensures digits { (j : ℕ) → j < result.1 → 48 ≤ get_or bytes j 0 }
{
    let lanes = less_zero(bytes);
    let digits = digits_ahead(lanes);
    (value(aligned(lanes, digits)), digits)
}

/// An integer of at most sixteen digits that the bytes begin with, and how many digits it has:
/// behind sixteen there may be more. Zero where the first byte is no digit; None where that is a
/// zero.
#[inline(always)]
pub fn short_integer(bytes: &[u8]) -> Option<(u64, usize)>
    requires { 16 ≤ length bytes.now }
    ensures { IfSome result (λ found. IsShort bytes.now found.0 found.1) }
{
    if bytes[0] == b'0' {
        return None;
    }
    Some(number_ahead(u8x16::from_slice(bytes)))
}

/// An integer that begins at a place, at most fifteen bytes before the end, and what follows it.
/// Zero is left to others.
#[inline(always)]
pub fn late_integer(bytes: &[u8], place: usize) -> Option<(u64, &[u8])>
    requires long { 16 ≤ length bytes.now }
    requires near { (place < length bytes.now) × (length bytes.now ≤ place + 15) }
    ensures { IfSome result
        (λ found. (drop place bytes.now ≡ decimal found.0 ++ found.1.now) × (found.0 < 2 ^ 64)) }
{
    if bytes[place] == b'0' {
        return None;
    }
    let (n, digits) = number_ahead(sixteen_from(bytes, place));
    if n == 0 {
        return None;
    }
    Some((n, &bytes[place + digits..]))
}

/// The two bytes at a place as one number, the first of them its lower byte.
#[inline(always)]
pub fn two_codes(bytes: &[u8], place: usize) -> u16
    requires { place + 2 ≤ length bytes.now }
    ensures { AreTwoCodes bytes.now place result }
{
    u16x1::from_le_bytes(u8x2::from_slice(&bytes[place..])).to_array()[0]
}
