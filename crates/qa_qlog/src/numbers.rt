//! Whole numbers and durations, which a log may write as strings, with a point or an exponent.
ghost use Rattle.std.specs.Prelude.{◌≡◌, Option, Some, ℕ};
ghost use Rattle.json.specs.Json.{Json};
ghost use Rattle.json.specs.Find.{BeginsWith, Finds};
ghost use Rattle.qa_qlog.specs.Numbers as numbers;

use crate::keys::{Key, NoValue};
use crate::records::written;
use crate::says::{key_at, says};
use crate::times::{FITTING_DIGITS, NoTime, Unit, digits_behind, duration, split_sign};
use fast_float::Numeral;
use json::Element;

/// The whole number of 64 bits that all of a text is, perhaps with a sign.
fn whole(text: &[u8]) -> Option<u64>
    ensures { result ≡ numbers.whole text.now }
{
    let (is_negative, unsigned) = split_sign(text);
    let number = unsigned_whole(unsigned)?;
    if is_negative && number != 0 {
        None
    } else {
        Some(number)
    }
}

/// The number that a text of digits is, if they are so few that they fit into 64 bits: most numbers
/// are written so.
fn plain(text: &[u8]) -> Option<u64>
    ensures { (n : ℕ) → result ≡ Some n → numbers.unsigned text.now ≡ Some n }
{
    if text.is_empty() || text.len() > FITTING_DIGITS {
        return None;
    }
    digits_behind(0, text)
}

/// The whole number of 64 bits that all of a text without a sign is.
fn unsigned_whole(text: &[u8]) -> Option<u64>
    ensures { result ≡ numbers.unsigned text.now }
{
    if let Some(number) = plain(text) {
        return Some(number);
    }
    let number = Numeral::scan(text);
    if !number.has_digits() || number.len() != text.len() {
        return None;
    }
    number.whole_u64()
}

/// The whole number that a value is, if its key may have it.
pub(crate) fn whole_of(value: &Element<'_, '_>, key: Key) -> Result<u64, NoValue>
    ensures { (j : Json) → BeginsWith value.now j → result ≡ numbers.whole_of key j }
{
    let Some(number) = whole(written(value).as_bytes()) else {
        return Err(NoValue::NotWhole(key));
    };
    key.ranged(number).ok_or(NoValue::OutOfRange(key))
}

/// The whole number at a key; there has to be one.
pub(crate) fn whole_at(found: &Option<Element<'_, '_>>, key: Key) -> Result<u64, NoValue>
    ensures { (o : Option Json) → Finds found.now o → result ≡ numbers.whole_at key o }
{
    match optional_at(found, key) {
        Ok(number) => number.ok_or(NoValue::Missing(key)),
        Err(fault) => Err(fault),
    }
}

/// The whole number at a key; none if there is nothing, or null.
pub(crate) fn optional_at(found: &Option<Element<'_, '_>>, key: Key) -> Result<Option<u64>, NoValue>
    ensures { (o : Option Json) → Finds found.now o → result ≡ numbers.optional_at key o }
{
    let Some(value) = found else {
        return Ok(None);
    };
    if value.is_null() {
        return Ok(None);
    }
    match whole_of(value, key) {
        Ok(number) => Ok(Some(number)),
        Err(fault) => Err(fault),
    }
}

/// The nanoseconds of the duration that a value is.
pub(crate) fn duration_of(value: &Element<'_, '_>, key: Key, unit: Unit) -> Result<u64, NoValue>
    ensures { (j : Json) → BeginsWith value.now j → result ≡ numbers.duration_of key unit j }
{
    match duration(written(value).as_bytes(), unit) {
        Ok(nanoseconds) => Ok(nanoseconds),
        Err(why) => Err(no_time(key, why)),
    }
}

/// What is wrong with the duration at a key.
fn no_time(key: Key, why: NoTime) -> NoValue
    ensures { result ≡ numbers.no_time key why }
{
    match why {
        NoTime::NotANumber => NoValue::NotANumber(key),
        NoTime::TooManyDigits => NoValue::TooManyDigits(key),
        NoTime::OutOfRange => NoValue::OutOfRange(key),
    }
}

/// The whole number at a key; 0 if it says nothing.
pub(crate) fn whole_or_zero(found: &Option<Element<'_, '_>>, key: Key) -> Result<u64, NoValue>
    ensures { (o : Option Json) → Finds found.now o → result ≡ numbers.whole_or_zero key o }
{
    match found {
        Some(value) if says(value) => whole_of(value, key),
        _ => Ok(0),
    }
}

/// The nanoseconds of the duration at a key; 0 if it says nothing.
pub(crate) fn duration_or_zero(
    found: &Option<Element<'_, '_>>,
    key: Key,
    unit: Unit,
) -> Result<u64, NoValue>
    ensures { (o : Option Json) → Finds found.now o
        → result ≡ numbers.duration_or_zero key unit o }
{
    match found {
        Some(value) if says(value) => duration_of(value, key, unit),
        _ => Ok(0),
    }
}

/// The whole number that the data of a record has at a key; none if there is nothing, or null.
pub fn whole_in(object: &Option<Element<'_, '_>>, key: Key) -> Result<Option<u64>, NoValue>
    ensures { (d : Option Json) → Finds object.now d → result ≡ numbers.whole_in key d }
{
    optional_at(&key_at(object, key.name()), key)
}

/// The nanoseconds of the duration that the data of a record has at a key, in a log whose durations
/// have this unit; none if there is nothing, or null.
pub fn duration_in(
    object: &Option<Element<'_, '_>>,
    key: Key,
    unit: Unit,
) -> Result<Option<u64>, NoValue>
    ensures { (d : Option Json) → Finds object.now d → result ≡ numbers.duration_in key unit d }
{
    optional_duration(&key_at(object, key.name()), key, unit)
}

/// The nanoseconds of the duration at a key; none if there is nothing, or null.
pub(crate) fn optional_duration(
    found: &Option<Element<'_, '_>>,
    key: Key,
    unit: Unit,
) -> Result<Option<u64>, NoValue>
    ensures { (o : Option Json) → Finds found.now o
        → result ≡ numbers.optional_duration key unit o }
{
    let Some(value) = found else {
        return Ok(None);
    };
    if value.is_null() {
        return Ok(None);
    }
    match duration_of(value, key, unit) {
        Ok(nanoseconds) => Ok(Some(nanoseconds)),
        Err(fault) => Err(fault),
    }
}
