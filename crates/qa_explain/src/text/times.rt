//! A time as people read it, exact.
ghost use Rattle.std.specs.Prelude.{◌≡◌, ◌++◌, ◌<◌, OnOk, decimal, string_bytes};
ghost use Rattle.qa_explain.specs.text.Times as text;

use crate::text::pieces::{push_name, push_words};
use qa_base::TimeUnit;
use std::alloc::AllocError;
use std::fmt::Write;

/// How many digits behind the point say a number exactly.
#[derive(Clone, Copy)]
enum Places {
    Zero,
    Three,
    Six,
    Nine,
}

// ---- the digits behind a point, without the zeros at the end

#[tactic(auto, unfolding(crate::specs::text::Times::three_digits))]
fn push_three_digits(out: &mut String, number: u128) -> Result<(), AllocError>
    ensures { OnOk result (string_bytes out.new
        ≡ string_bytes out.old ++ text.three_digits number) }
{
    write!(out, "{}{}{}", number / 100, number / 10 % 10, number % 10)
}

#[tactic(auto, unfolding(crate::specs::text::Times::two_digits))]
fn push_two_digits(out: &mut String, number: u128) -> Result<(), AllocError>
    ensures { OnOk result (string_bytes out.new
        ≡ string_bytes out.old ++ text.two_digits number) }
{
    write!(out, "{}{}", number / 10, number % 10)
}

fn push_tenths(out: &mut String, number: u128) -> Result<(), AllocError>
    ensures { OnOk result (string_bytes out.new ≡ string_bytes out.old ++ text.tenths number) }
{
    if number == 0 {
        return Ok(());
    }
    write!(out, "{number}")
}

fn push_hundredths(out: &mut String, number: u128) -> Result<(), AllocError>
    ensures { OnOk result (string_bytes out.new
        ≡ string_bytes out.old ++ text.hundredths number) }
{
    if number % 10 == 0 {
        return push_tenths(out, number / 10);
    }
    push_two_digits(out, number)
}

fn push_thousandths(out: &mut String, number: u128) -> Result<(), AllocError>
    ensures { OnOk result (string_bytes out.new
        ≡ string_bytes out.old ++ text.thousandths number) }
{
    if number % 10 == 0 {
        return push_hundredths(out, number / 10);
    }
    push_three_digits(out, number)
}

/// Three digits, and more behind them.
#[tactic(auto, unfolding(crate::specs::text::Times::after_thousandths))]
fn push_after_thousandths(out: &mut String, number: u128) -> Result<(), AllocError>
    ensures { OnOk result (string_bytes out.new
        ≡ string_bytes out.old ++ text.after_thousandths number) }
{
    push_three_digits(out, number / 1_000)?;
    push_thousandths(out, number % 1_000)
}

fn push_millionths(out: &mut String, number: u128) -> Result<(), AllocError>
    ensures { OnOk result (string_bytes out.new
        ≡ string_bytes out.old ++ text.millionths number) }
{
    if number % 1_000 == 0 {
        return push_thousandths(out, number / 1_000);
    }
    push_after_thousandths(out, number)
}

/// Three digits, and three or more behind them.
#[tactic(auto, unfolding(crate::specs::text::Times::after_millionths))]
fn push_after_millionths(out: &mut String, number: u128) -> Result<(), AllocError>
    ensures { OnOk result (string_bytes out.new
        ≡ string_bytes out.old ++ text.after_millionths number) }
{
    push_three_digits(out, number / 1_000_000)?;
    push_after_thousandths(out, number % 1_000_000)
}

fn push_billionths(out: &mut String, number: u128) -> Result<(), AllocError>
    ensures { OnOk result (string_bytes out.new
        ≡ string_bytes out.old ++ text.billionths number) }
{
    if number % 1_000 == 0 {
        return push_millionths(out, number / 1_000);
    }
    push_after_millionths(out, number)
}

// ---- a number with so many digits behind the point

impl Places {
    /// How many parts a whole has.
    fn parts(self) -> u128
        ensures value { result ≡ text.parts self }
        ensures some { 0 < result }
    {
        match self {
            Places::Zero => 1,
            Places::Three => 1_000,
            Places::Six => 1_000_000,
            Places::Nine => 1_000_000_000,
        }
    }
}

fn push_digits(out: &mut String, places: Places, number: u128) -> Result<(), AllocError>
    ensures { OnOk result (string_bytes out.new
        ≡ string_bytes out.old ++ text.digits places number) }
{
    match places {
        Places::Zero => Ok(()),
        Places::Three => push_thousandths(out, number),
        Places::Six => push_millionths(out, number),
        Places::Nine => push_billionths(out, number),
    }
}

#[tactic(auto, unfolding(crate::specs::text::Times::point_text))]
fn push_point(out: &mut String, places: Places, number: u128) -> Result<(), AllocError>
    ensures { OnOk result (string_bytes out.new
        ≡ string_bytes out.old ++ text.point_text places number) }
{
    out.push_str(".")?;
    push_digits(out, places, number)
}

/// A point and the digits behind it; nothing of a whole number.
fn push_fraction(out: &mut String, places: Places, number: u128) -> Result<(), AllocError>
    ensures { OnOk result (string_bytes out.new
        ≡ string_bytes out.old ++ text.fraction_text places number) }
{
    if number == 0 {
        return Ok(());
    }
    push_point(out, places, number)
}

/// So many parts, in a unit of this name.
#[tactic(auto, unfolding(crate::specs::text::Times::scaled_text))]
fn push_scaled(out: &mut String, places: Places, number: u128, name: &str) -> Result<(), AllocError>
    ensures { OnOk result (string_bytes out.new
        ≡ string_bytes out.old ++ text.scaled_text places number name.now) }
{
    let parts = places.parts();
    push_whole(out, number / parts)?;
    push_fraction(out, places, number % parts)?;
    push_name(out, " ", name)
}

fn push_whole(out: &mut String, number: u128) -> Result<(), AllocError>
    ensures { OnOk result (string_bytes out.new ≡ string_bytes out.old ++ decimal number) }
{
    write!(out, "{number}")
}

// ---- a time in the unit of a trace

fn second_places(unit: TimeUnit) -> Places
    ensures { result ≡ text.second_places unit }
{
    match unit {
        TimeUnit::Microseconds => Places::Six,
        TimeUnit::Nanoseconds => Places::Nine,
    }
}

fn millisecond_places(unit: TimeUnit) -> Places
    ensures { result ≡ text.millisecond_places unit }
{
    match unit {
        TimeUnit::Microseconds => Places::Three,
        TimeUnit::Nanoseconds => Places::Six,
    }
}

fn microsecond_places(unit: TimeUnit) -> Places
    ensures { result ≡ text.microsecond_places unit }
{
    match unit {
        TimeUnit::Microseconds => Places::Zero,
        TimeUnit::Nanoseconds => Places::Three,
    }
}

/// Appends a time in this unit as people read it, exact: in seconds from one on, in milliseconds
/// from a tenth of one on, in microseconds from one on, and else in nanoseconds. `AllocError` comes
/// where it is out of memory.
pub fn push_time(out: &mut String, unit: TimeUnit, time: u128) -> Result<(), AllocError>
    ensures { OnOk result (string_bytes out.new
        ≡ string_bytes out.old ++ text.time_text unit time) }
{
    if unit.of_microseconds(1_000_000) <= time {
        return push_scaled(out, second_places(unit), time, "s");
    }
    if unit.of_microseconds(100) <= time {
        return push_scaled(out, millisecond_places(unit), time, "ms");
    }
    if unit.of_microseconds(1) <= time {
        return push_scaled(out, microsecond_places(unit), time, "us");
    }
    push_scaled(out, Places::Zero, time, unit.name())
}

/// Appends some words and then a time.
#[tactic(auto, unfolding(crate::specs::text::Times::timed))]
pub fn push_timed(
    out: &mut String,
    words: &str,
    unit: TimeUnit,
    time: u128,
) -> Result<(), AllocError>
    ensures { OnOk result (string_bytes out.new
        ≡ string_bytes out.old ++ text.timed words.now unit time) }
{
    push_words(out, words)?;
    push_time(out, unit, time)
}
