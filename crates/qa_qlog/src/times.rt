//! Times and durations as whole nanoseconds, by the digits of a decimal text.
ghost use Rattle.std.specs.Prelude.{◌≡◌, ◌⊎◌, ◌≤◌, ◌<◌, ◌+◌, ◌*◌, ◌^◌, ◌++◌, ◌∷◌, [], ℕ};
ghost use Rattle.std.specs.Prelude.{length, min, take, true, Err, IfErr, IfOk, IfSome, Ok};
ghost use Rattle.std.specs.List.{prefix_len};
ghost use Rattle.std.specs.Str.Parse.{AllDigits, digits_value, digits_value_after};
ghost use Rattle.std.specs.Str.Parse.{starts_with_minus, without_leading_sign};
ghost use Rattle.fast_float.specs.Text.{Parts, tens_up};
ghost use Rattle.qa_qlog.specs.Times as times;

use fast_float::Numeral;
use memchr::memchr;
use thiserror::Error;

/// Stands for any larger number: no range reaches it.
const CAP: u128 = 1 << 65;
/// Ten digits after those of a smaller number fit into 64 bits.
const SMALL: u128 = 1_000_000_000;

const FEW: usize = 10;
/// How many digits always fit into 64 bits.
pub(crate) const FITTING_DIGITS: usize = 19;
/// More nanoseconds than a time has.
const LIMIT: u128 = 1 << 63;
/// The most nanoseconds of a duration.
pub(crate) const LONGEST: u128 = 1_000_000_000_000_000_000;
/// How many places the first digit is from the point at most.
const MAX_PLACES: u128 = 40;

/// What the times of a log count.
#[derive(Clone, Copy, Debug, PartialEq, Eq)]
pub enum Unit {
    /// Nanoseconds.
    Nanoseconds,
    /// Microseconds.
    Microseconds,
    /// Milliseconds.
    Milliseconds,
    /// Seconds.
    Seconds,
}

impl Unit {
    /// The unit of this name: `ns`, `us` or `ms`; None for any other string.
    pub fn named(text: &str) -> Option<Unit>
        ensures { result ≡ times.unit_named text.now }
    {
        match text {
            "ns" => Some(Unit::Nanoseconds),
            "us" => Some(Unit::Microseconds),
            "ms" => Some(Unit::Milliseconds),
            _ => None,
        }
    }

    /// By how many places to the right the point moves to make nanoseconds of it.
    fn places(self) -> u8
        ensures { result ≡ times.places self }
    {
        match self {
            Unit::Nanoseconds => 0,
            Unit::Microseconds => 3,
            Unit::Milliseconds => 6,
            Unit::Seconds => 9,
        }
    }
}

/// Why a text is no time.
#[derive(Clone, Copy, Debug, PartialEq, Eq, Error)]
pub enum NoTime {
    /// It is no decimal number.
    #[error("no number")]
    NotANumber,
    /// Its first digit other than 0 is more than 40 places from the point.
    #[error("too many digits")]
    TooManyDigits,
    /// A time has less than 2^63 nanoseconds, a duration at most 10^18.
    #[error("out of range")]
    OutOfRange,
}

/// The whole nanoseconds of a time in this unit, rounded toward zero.
pub fn time(text: &[u8], unit: Unit) -> Result<i64, NoTime>
    ensures { result ≡ times.time unit text.now }
{
    let (is_negative, unsigned) = split_sign(text);
    match nanoseconds(unsigned, unit) {
        Ok(size) => time_of(is_negative, size),
        Err(fault) => Err(fault),
    }
}

/// The whole nanoseconds of a duration in this unit, rounded down; 0 if it is negative.
pub fn duration(text: &[u8], unit: Unit) -> Result<u64, NoTime>
    ensures { result ≡ times.duration unit text.now }
{
    let (is_negative, unsigned) = split_sign(text);
    match nanoseconds(unsigned, unit) {
        Ok(size) => duration_of(is_negative, size),
        Err(fault) => Err(fault),
    }
}

/// The whole nanoseconds that a text without a sign says, or the cap if it is less.
fn nanoseconds(text: &[u8], unit: Unit) -> Result<u128, NoTime>
    ensures ok { IfOk result (λ n. (p : Parts) × (times.numeral text.now ≡ Ok p)
        × (n ≡ min (times.size unit p) times.cap)) }
    ensures err { IfErr result (λ fault. times.numeral text.now ≡ Err fault) }
{
    if let Some(number) = short_number(text, unit) {
        return Ok(number as u128);
    }
    match numeral(text) {
        Ok(number) => Ok(size(&number, unit)),
        Err(fault) => Err(fault),
    }
}

/// The nanoseconds of digits, perhaps with a point among them, if they are so few that they fit
/// into 64 bits, as those of most times and durations do.
fn short_number(text: &[u8], unit: Unit) -> Option<u64>
    ensures { IfSome result (λ n. (p : Parts) × (times.numeral text.now ≡ Ok p)
        × (n ≡ times.size unit p)) }
{
    let (whole, fraction) = split_point(text);
    let places = unit.places() as usize;
    if whole.is_empty() || places < fraction.len() || FITTING_DIGITS < whole.len() + places {
        return None;
    }
    let number = digits_behind(digits_behind(0, whole)?, fraction)?;
    Some(with_zeros(number, places - fraction.len()))
}

/// What is in front of the first point of a text, and what is behind it.
fn split_point(text: &[u8]) -> (&[u8], &[u8])
    ensures { (text.now ≡ result.0.now ++ 46 ∷ result.1.now)
        ⊎ ((text.now ≡ result.0.now) × (result.1.now ≡ [])) }
{
    match memchr(b'.', text) {
        Some(place) => (&text[..place], &text[place + 1..]),
        None => (text, &[]),
    }
}

/// The number that digits are behind those of another; none if some byte is no digit.
pub(crate) fn digits_behind(start: u64, digits: &[u8]) -> Option<u64>
    requires { (start + 1) * 10 ^ length digits.now ≤ 10 ^ times.fitting }
    ensures digits { IfSome result (λ n. AllDigits 10 digits.now) }
    ensures value { IfSome result (λ n. n ≡ digits_value_after 10 start digits.now) }
    ensures below { IfSome result (λ n. n + 1 ≤ (start + 1) * 10 ^ length digits.now) }
{
    let mut value = start;
    for digit in digits {
        if !digit.is_ascii_digit() {
            return None;
        }
        value = value * 10 + (*digit - b'0') as u64;
    }
    Some(value)
}

/// A number with so many zeros behind it.
fn with_zeros(number: u64, zeros: usize) -> u64
    requires { number * 10 ^ zeros < 10 ^ times.fitting }
    ensures { result ≡ number * 10 ^ zeros }
{
    let mut value = number;
    for _i in 0..zeros {
        value *= 10;
    }
    value
}

/// Whether all digits of a number are 0, but for those of its exponent.
#[tactic(auto, using(crate::proofs::Plain::above_zero))]
pub(crate) fn is_nothing(text: &[u8]) -> bool
    ensures { result ≡ times.is_nothing text.now }
{
    let (_, unsigned) = split_sign(text);
    if begins_above_zero(unsigned) {
        return false;
    }
    let number = Numeral::scan(unsigned);
    let (whole, fraction) = (number.whole(), number.fraction());
    zeros_of(whole, fraction) == whole.len() + fraction.len()
}

/// Whether a text begins with a digit other than 0, as most numbers do.
fn begins_above_zero(text: &[u8]) -> bool
    ensures { result ≡ times.begins_above_zero text.now }
{
    match text.first() {
        Some(first) => b'1' <= *first && *first <= b'9',
        None => false,
    }
}

/// Whether a text begins with a minus, and the text without its sign.
pub(crate) fn split_sign(text: &[u8]) -> (bool, &[u8])
    ensures sign { result.0 ≡ starts_with_minus text.now }
    ensures rest { result.1.now ≡ without_leading_sign text.now }
{
    match text.first() {
        Some(first) if *first == b'-' => (true, &text[1..]),
        Some(first) if *first == b'+' => (false, &text[1..]),
        _ => (false, text),
    }
}

/// The number that all of a text is, if its first digit is near the point.
fn numeral(text: &[u8]) -> Result<Numeral<'_>, NoTime>
    ensures { result ≡ times.numeral text.now }
{
    let number = Numeral::scan(text);
    if !number.has_digits() || number.len() != text.len() {
        return Err(NoTime::NotANumber);
    }
    if is_near(&number) {
        Ok(number)
    } else {
        Err(NoTime::TooManyDigits)
    }
}

/// The number with its sign, if it is in range. `size` may be less if it is not.
fn time_of(is_negative: bool, size: u128) -> Result<i64, NoTime>
    ensures { (n : ℕ) → size ≡ min n times.cap → result ≡ times.time_of is_negative n }
{
    if size >= LIMIT {
        return Err(NoTime::OutOfRange);
    }
    let size = size as i64;
    Ok(if is_negative { -size } else { size })
}

/// The number, if it is in range. `size` may be less if it is not.
fn duration_of(is_negative: bool, size: u128) -> Result<u64, NoTime>
    ensures { (n : ℕ) → size ≡ min n times.cap → result ≡ times.duration_of is_negative n }
{
    if is_negative {
        return Ok(0);
    }
    if size > LONGEST {
        return Err(NoTime::OutOfRange);
    }
    Ok(size as u64)
}

/// Whether the first digit is near the point.
fn is_near(number: &Numeral<'_>) -> bool
    ensures { result ≡ times.is_near number.now }
{
    let (right, left) = moves(number);
    let point = number.whole().len() as u128 + right;
    let first = leading(number.whole(), number.fraction()) as u128 + left;
    point <= first + MAX_PLACES && first <= point + MAX_PLACES
}

/// By how many places the exponent moves the point to the right, and to the left; the cap if that
/// is less.
fn moves(number: &Numeral<'_>) -> (u128, u128)
    ensures right { result.0 ≡ min (tens_up number.now) times.cap }
    ensures left { result.1 ≡ min (times.to_left number.now) times.cap }
{
    let places = value_after(0, number.exponent());
    if number.is_exponent_negative() {
        (0, places)
    } else {
        (places, 0)
    }
}

/// How many of the digits there are up to the first that is not 0, or up to the last.
fn leading(whole: &[u8], fraction: &[u8]) -> usize
    ensures { result ≡ times.leading (whole.now ++ fraction.now) }
{
    (zeros_of(whole, fraction) + 1).min(whole.len() + fraction.len())
}

/// How many zeros the digits begin with that are before and after a point.
fn zeros_of(whole: &[u8], fraction: &[u8]) -> usize
    ensures { result ≡ prefix_len times.is_zero (whole.now ++ fraction.now) }
{
    let count = zeros(whole);
    if count == whole.len() {
        count + zeros(fraction)
    } else {
        count
    }
}

/// How many zeros digits begin with.
fn zeros(digits: &[u8]) -> usize
    ensures { result ≡ prefix_len times.is_zero digits.now }
{
    for (i, digit) in digits.iter().enumerate() {
        if *digit != b'0' {
            return i;
        }
    }
    digits.len()
}

/// The whole number of nanoseconds, or the cap if it is less.
fn size(number: &Numeral<'_>, unit: Unit) -> u128
    requires { times.is_near number.now ≡ true }
    ensures { result ≡ min (times.size unit number.now) times.cap }
{
    let (right, left) = moves(number);
    let (whole, fraction) = (number.whole(), number.fraction());
    let point = (whole.len() as u128 + right + unit.places() as u128).saturating_sub(left);
    let kept = point.min(whole.len() as u128 + fraction.len() as u128);
    grown(
        front_value(whole, fraction, kept as usize),
        (point - kept) as u8,
    )
}

/// The value of the first digits, or the cap if it is less.
fn front_value(whole: &[u8], fraction: &[u8], kept: usize) -> u128
    requires digits { AllDigits 10 (whole.now ++ fraction.now) }
    requires within { kept ≤ length whole.now + length fraction.now }
    ensures { result ≡ min (digits_value 10 (take kept (whole.now ++ fraction.now))) times.cap }
{
    if kept <= whole.len() {
        return value_after(0, &whole[..kept]);
    }
    value_after(value_after(0, whole), &fraction[..kept - whole.len()])
}

/// The value of digits that follow those of a number, or the cap if it is less.
fn value_after(start: u128, digits: &[u8]) -> u128
    requires { AllDigits 10 digits.now }
    ensures { (n : ℕ) → start ≡ min n times.cap
        → result ≡ min (digits_value_after 10 n digits.now) times.cap }
{
    if start < SMALL && digits.len() <= FEW {
        return short_value(start as u64, digits) as u128;
    }
    let mut value = start.min(CAP);
    for digit in digits {
        value = (value * 10 + (*digit - b'0') as u128).min(CAP);
    }
    value
}

/// The value of a few digits that follow those of a small number: mostly it has 64 bits, by which
/// a processor counts faster.
fn short_value(start: u64, digits: &[u8]) -> u64
    requires small { start < times.small }
    requires few { length digits.now ≤ times.few }
    requires digits { AllDigits 10 digits.now }
    ensures value { result ≡ digits_value_after 10 start digits.now }
    ensures below { result < times.small * 10 ^ times.few }
{
    let mut value = start;
    for digit in digits {
        value = value * 10 + (*digit - b'0') as u64;
    }
    value
}

/// A number with so many zeros after it, or the cap if it is less.
fn grown(start: u128, zeros: u8) -> u128
    ensures { (n : ℕ) → start ≡ min n times.cap
        → result ≡ min (n * 10 ^ zeros) times.cap }
{
    let mut value = start.min(CAP);
    for _i in 0..zeros {
        value = (value * 10).min(CAP);
    }
    value
}
