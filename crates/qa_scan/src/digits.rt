//! The digits of an integer, eight at a time.
ghost use Rattle.std.specs.Prelude.{◌≡◌, ◌≤◌, ◌<◌, ◌^◌, ◌&&◌, nat_le, get_or, length, take, drop};
ghost use Rattle.std.specs.Prelude.{◌++◌, true, decimal, IfSome, List, ℕ};
ghost use Rattle.qa_scan.specs.Digits.{IsFront, IsWord, AreEightDigits, IsEightValue};

use crate::short::{late_integer, short_integer};
use std::simd::prelude::*;

/// An integer of so many digits has room in 64 bits.
const DIGITS: usize = 19;

/// A short integer has at most so many digits, and so many bytes are looked at for it.
const SHORT: usize = 16;

/// The byte of the digit zero, as wide as the integer that is read.
const ZERO: u64 = 48;

/// The byte of the digit nine, as wide as that.
const NINE: u64 = 57;

/// The top bit of each of eight bytes.
const TOPS: u64 = 0x8080_8080_8080_8080;

/// Eight times 70, which sets the top bit of what is above the digit nine.
const FROM_TEN: u64 = 0x4646_4646_4646_4646;

/// Eight times 80, which sets the top bit of what is not below the digit zero.
const FROM_ZERO: u64 = 0x5050_5050_5050_5050;

/// Eight digits zero.
const ZEROS: u64 = 0x3030_3030_3030_3030;

/// What four digits zero are, each read as its byte.
const FOUR_ZEROS: u64 = 53_328;

/// Whether the byte is a digit.
#[inline(always)]
fn is_digit(byte: u8) -> bool
    ensures { result ≡ (nat_le 48 byte && nat_le byte 57) }
{
    b'0' <= byte && byte <= b'9'
}

/// The first eight bytes as one number, the first of them its lowest byte.
#[inline(always)]
fn eight_codes(bytes: &[u8]) -> u64
    requires { 8 ≤ length bytes.now }
    ensures { IsWord bytes.now result }
{
    // One load of eight bytes.
    u64x1::from_le_bytes(u8x8::from_slice(bytes)).to_array()[0]
}

/// Whether all eight are digits: none has its top bit set, nor has it once 70 is added, and each
/// has once 80 is.
#[inline(always)]
fn are_eight_digits(codes: u64) -> bool
    ensures { result ≡ true → (bs : List ℕ) → IsWord bs codes → AreEightDigits bs }
{
    if codes & TOPS != 0 {
        return false;
    }
    let low = codes.wrapping_add(FROM_TEN);
    if low & TOPS != 0 {
        return false;
    }
    let high = codes.wrapping_add(FROM_ZERO);
    high & TOPS == TOPS
}

/// The number of which these are the digits: of two, of two more, and so on.
#[inline(always)]
fn eight_value(codes: u64) -> u64
    ensures { (bs : List ℕ) → IsWord bs codes → AreEightDigits bs → IsEightValue bs result }
{
    let digits = codes.wrapping_sub(ZEROS);
    let pairs = digits.wrapping_mul(10).wrapping_add(digits / 256);
    let first = pairs % 256;
    let second = pairs / 65_536 % 256;
    let third = pairs / 4_294_967_296 % 256;
    let fourth = pairs / 281_474_976_710_656 % 256;
    ((first * 100 + second) * 100 + third) * 100 + fourth
}

/// The number of which the first eight bytes are the digits, where they are digits. Asks that the
/// first is not zero.
#[inline(always)]
fn eight_digits(bytes: &[u8]) -> Option<u64>
    requires long { 8 ≤ length bytes.now }
    requires first { 49 ≤ get_or bytes.now 0 0 }
    ensures { IfSome result (λ n. (take 8 bytes.now ≡ decimal n) × (0 < n) × (n < 10 ^ 8)) }
{
    let codes = eight_codes(bytes);
    if are_eight_digits(codes) {
        Some(eight_value(codes))
    } else {
        None
    }
}

/// The number of which the first four bytes are the digits, where they are digits. Asks that the
/// first is not zero.
#[inline(always)]
fn four_digits(bytes: &[u8]) -> Option<u64>
    requires long { 4 ≤ length bytes.now }
    requires first { 49 ≤ get_or bytes.now 0 0 }
    ensures { IfSome result (λ n. (take 4 bytes.now ≡ decimal n) × (0 < n) × (n < 10 ^ 4)) }
{
    if !(is_digit(bytes[0]) & is_digit(bytes[1]) & is_digit(bytes[2]) & is_digit(bytes[3])) {
        return None;
    }
    let first = u64::from(bytes[0]) * 10 + u64::from(bytes[1]);
    let second = u64::from(bytes[2]) * 10 + u64::from(bytes[3]);
    Some(first * 100 + second - FOUR_ZEROS)
}

/// How many digits are read at once at the front, and their number: eight, four or the first alone.
#[inline(always)]
fn first_digits(bytes: &[u8]) -> (usize, u64)
    requires some { 1 ≤ length bytes.now }
    requires low { 49 ≤ get_or bytes.now 0 0 }
    requires high { get_or bytes.now 0 0 ≤ 57 }
    ensures { IsFront bytes.now result.0 result.1 }
{
    if 8 <= bytes.len() {
        if let Some(n) = eight_digits(bytes) {
            return (8, n);
        }
        if let Some(n) = four_digits(bytes) {
            return (4, n);
        }
    }
    (1, u64::from(bytes[0]) - ZERO)
}

/// The digits of an integer, and what follows them. Of more than 19 digits some are left.
#[inline(always)]
pub fn digits(bytes: &[u8]) -> Option<(u64, &[u8])>
    ensures { IfSome result (λ found. (bytes.now ≡ decimal found.0 ++ found.1.now)
        × (found.0 < 2 ^ 64)) }
{
    if let Some(found) = short_digits(bytes) {
        return Some(found);
    }
    any_digits(bytes)
}

/// The same, where these are fewer than sixteen and no zero stands first, and with what follows
/// they are sixteen bytes.
#[inline(always)]
fn short_digits(bytes: &[u8]) -> Option<(u64, &[u8])>
    ensures { IfSome result (λ found. (bytes.now ≡ decimal found.0 ++ found.1.now)
        × (found.0 < 2 ^ 64)) }
{
    if bytes.len() < SHORT {
        return None;
    }
    let (n, i) = short_integer(bytes)?;
    // Behind sixteen there may be more, and zero says that there is none.
    if n == 0 || i == SHORT {
        return None;
    }
    Some((n, &bytes[i..]))
}

/// The digits of an integer that begins at a place, and what follows them.
#[inline(always)]
pub fn digits_at(bytes: &[u8], place: usize) -> Option<(u64, &[u8])>
    requires { place ≤ length bytes.now }
    ensures { IfSome result (λ found. (drop place bytes.now ≡ decimal found.0 ++ found.1.now)
        × (found.0 < 2 ^ 64)) }
{
    if let Some(found) = late_digits(bytes, place) {
        return Some(found);
    }
    digits(&bytes[place..])
}

/// The same, where fewer bytes follow the place than a vector has, and with those before it they
/// are as many.
#[inline(always)]
fn late_digits(bytes: &[u8], place: usize) -> Option<(u64, &[u8])>
    requires { place ≤ length bytes.now }
    ensures { IfSome result (λ found. (drop place bytes.now ≡ decimal found.0 ++ found.1.now)
        × (found.0 < 2 ^ 64)) }
{
    let left = bytes.len() - place;
    if bytes.len() < SHORT || SHORT <= left || left == 0 {
        return None;
    }
    late_integer(bytes, place)
}

/// The digits of an integer and what follows them, however many there are.
#[inline(always)]
fn any_digits(bytes: &[u8]) -> Option<(u64, &[u8])>
    ensures { IfSome result (λ found. (bytes.now ≡ decimal found.0 ++ found.1.now)
        × (found.0 < 2 ^ 64)) }
{
    let [first, rest @ ..] = bytes else {
        return None;
    };
    let first = u64::from(*first);
    if first == ZERO {
        return Some((0, rest));
    }
    if first < ZERO || NINE < first {
        return None;
    }
    let (mut i, mut n) = first_digits(bytes);
    let end = bytes.len().min(DIGITS);
    while i < end {
        let digit = u64::from(bytes[i]);
        if digit < ZERO || NINE < digit {
            break;
        }
        n = n * 10 + (digit - ZERO);
        i += 1;
    }
    Some((n, &bytes[i..]))
}
