//! The members of an object, each with a comma before it.
ghost use Rattle.std.specs.Prelude.{◌≡◌, ◌≤◌, ◌++◌, OnOk, decimal};
ghost use Rattle.std.specs.List.{AllByRecursion};
ghost use Rattle.qa_base.specs.declared.key.Key.TheVariants as keys;
ghost use Rattle.qa_base.specs.values.Limits.{max_packet_number, max_time};
ghost use Rattle.qa_base.specs.values.Names.{kind_name, line_kind_name};
ghost use Rattle.qa_base.specs.values.Names.{permission_name, space_name};
ghost use Rattle.qa_fast_writer.specs.Members.{all_led, before_value, led, led_pairs, pair_text};
ghost use Rattle.qa_fast_writer.specs.Members.{pairs_text};
ghost use Rattle.qa_format.specs.format.Proper.{IsRange, IsWord};
ghost use Rattle.qa_format.specs.format.Written.{boolean, integer, integer_pairs, reported, string};
ghost use Rattle.serde_json.specs.Data as json;

use crate::texts::{
    before, line_kind_in_quotes, permission_in_quotes, space_in_quotes, timer_kind_in_quotes,
};
use itoa::Buffer;
use qa_base::{
    Field, Key, LineKind, PacketNumber, Permission, Space, Span, Spans, Ticks, TimerKind,
};
use std::alloc::AllocError;

/// Appends a comma, a key and its colon.
fn put_key(out: &mut Vec<u8>, key: Key) -> Result<(), AllocError>
    ensures { OnOk result (out.new.items ≡ out.old.items ++ before_value key) }
{
    out.extend_from_slice(before(key))?;
    Ok(())
}

/// Appends the digits of a number.
fn put_digits(out: &mut Vec<u8>, value: u64) -> Result<(), AllocError>
    ensures { OnOk result (out.new.items ≡ out.old.items ++ decimal value) }
{
    let mut buffer = Buffer::new();
    out.extend_from_slice(buffer.format(value).as_bytes())?;
    Ok(())
}

/// Appends an integer at a key.
pub(crate) fn put_integer(out: &mut Vec<u8>, key: Key, value: u64) -> Result<(), AllocError>
    ensures { OnOk result (out.new.items ≡ out.old.items ++ led (key, integer value)) }
{
    put_key(out, key)?;
    put_digits(out, value)
}

/// Appends a time.
pub(crate) fn put_time(out: &mut Vec<u8>, time: Ticks) -> Result<(), AllocError>
    ensures put { OnOk result (out.new.items ≡ out.old.items ++ led (keys.Time, integer time)) }
    ensures in_time { time ≤ max_time }
{
    put_integer(out, Key::Time, time.get())
}

/// Appends the number of a packet.
pub(crate) fn put_number(out: &mut Vec<u8>, number: PacketNumber) -> Result<(), AllocError>
    ensures put { OnOk result (out.new.items
        ≡ out.old.items ++ led (keys.Number, integer number)) }
    ensures in_range { number ≤ max_packet_number }
{
    put_integer(out, Key::Number, number.get())
}

/// Appends a boolean at a key.
pub(crate) fn put_flag(out: &mut Vec<u8>, key: Key, value: bool) -> Result<(), AllocError>
    ensures { OnOk result (out.new.items ≡ out.old.items ++ led (key, boolean value)) }
{
    put_key(out, key)?;
    if value {
        out.extend_from_slice(b"true")?;
    } else {
        out.extend_from_slice(b"false")?;
    }
    Ok(())
}

/// Appends a name at a key, which is given in quotes.
fn put_name(out: &mut Vec<u8>, key: Key, name: &[u8]) -> Result<(), AllocError>
    ensures { OnOk result (out.new.items ≡ out.old.items ++ before_value key ++ name.now) }
{
    put_key(out, key)?;
    out.extend_from_slice(name)?;
    Ok(())
}

/// Appends the kind of a line.
pub(crate) fn put_kind(out: &mut Vec<u8>, kind: LineKind) -> Result<(), AllocError>
    ensures { OnOk result (out.new.items
        ≡ out.old.items ++ led (keys.Event, string (line_kind_name kind))) }
{
    put_name(out, Key::Event, line_kind_in_quotes(kind))
}

/// Appends a space.
pub(crate) fn put_space(out: &mut Vec<u8>, space: Space) -> Result<(), AllocError>
    ensures { OnOk result (out.new.items
        ≡ out.old.items ++ led (keys.Space, string (space_name space))) }
{
    put_name(out, Key::Space, space_in_quotes(space))
}

/// Appends by what leave a packet was sent.
pub(crate) fn put_permission(out: &mut Vec<u8>, permission: Permission) -> Result<(), AllocError>
    ensures { OnOk result (out.new.items
        ≡ out.old.items ++ led (keys.Leave, string (permission_name permission))) }
{
    put_name(out, Key::Leave, permission_in_quotes(permission))
}

/// Appends the kind of a timer.
pub(crate) fn put_timer_kind(out: &mut Vec<u8>, kind: TimerKind) -> Result<(), AllocError>
    ensures { OnOk result (out.new.items
        ≡ out.old.items ++ led (keys.Kind, string (kind_name kind))) }
{
    put_name(out, Key::Kind, timer_kind_in_quotes(kind))
}

/// Appends a value that is reported, if it is.
pub(crate) fn report(out: &mut Vec<u8>, field: Field, value: Option<u64>) -> Result<(), AllocError>
    ensures put { OnOk result (out.new.items ≡ out.old.items ++ all_led (reported field value)) }
    ensures is_word { OnOk result (IsWord value) }
{
    match value {
        Some(value) => put_integer(out, Key::Metric(field), value),
        None => Ok(()),
    }
}

/// Appends the list of ranges at its key, each the list of its least and its greatest number.
pub(crate) fn put_ranges(out: &mut Vec<u8>, ranges: &Spans) -> Result<(), AllocError>
    ensures put { OnOk result (out.new.items
        ≡ out.old.items ++ led (keys.Ranges, json.array (integer_pairs ranges.now))) }
    ensures are_ranges { OnOk result (AllByRecursion IsRange ranges.now) }
{
    put_key(out, Key::Ranges)?;
    out.extend_from_slice(b"[")?;
    put_pairs(out, ranges.as_slice())?;
    out.extend_from_slice(b"]")?;
    Ok(())
}

/// Appends ranges, with commas between them.
fn put_pairs(out: &mut Vec<u8>, ranges: &[Span]) -> Result<(), AllocError>
    ensures put { OnOk result (out.new.items ≡ out.old.items ++ pairs_text ranges.now) }
    ensures are_ranges { OnOk result (AllByRecursion IsRange ranges.now) }
{
    let [first, others @ ..] = ranges else {
        return Ok(());
    };
    put_pair(out, *first)?;
    put_others(out, others)
}

/// Appends ranges, with a comma before each.
fn put_others(out: &mut Vec<u8>, ranges: &[Span]) -> Result<(), AllocError>
    ensures put { OnOk result (out.new.items ≡ out.old.items ++ led_pairs ranges.now) }
    ensures are_ranges { OnOk result (AllByRecursion IsRange ranges.now) }
{
    for range in ranges {
        out.extend_from_slice(b",")?;
        put_pair(out, *range)?;
    }
    Ok(())
}

/// Appends the list of the least and the greatest number of a range.
fn put_pair(out: &mut Vec<u8>, range: Span) -> Result<(), AllocError>
    ensures put { OnOk result (out.new.items ≡ out.old.items ++ pair_text range) }
    ensures is_range { OnOk result (IsRange range) }
{
    out.extend_from_slice(b"[")?;
    put_digits(out, range.lo().get())?;
    out.extend_from_slice(b",")?;
    put_digits(out, range.hi().get())?;
    out.extend_from_slice(b"]")?;
    Ok(())
}
