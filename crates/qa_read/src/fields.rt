//! One key of a line's object at a time.
//!
//! Each function is a word of the definitions over a `serde_json` value, and takes no memory. Lists
//! of ranges, which do, have a module of their own.
ghost use Rattle.std.specs.Prelude.{◌≡◌, option_map, false, Some, Ok, Err};
ghost use Rattle.std.specs.Result.{result_map_both};
ghost use Rattle.serde_json.specs.View.{view};
ghost use Rattle.qa_format.specs.format.Keys as keys;
ghost use Rattle.qa_base.specs.values.Constants.{default_packet_threshold};
ghost use Rattle.qa_base.specs.values.Constants.{default_time_threshold_eighths};
ghost use Rattle.qa_base.specs.values.Limits.{max_packet_number, max_packet_size};
ghost use Rattle.qa_base.specs.values.Names.{role_named, unit_named, controller_named};
ghost use Rattle.qa_base.specs.values.Names.{loss_by_number_named, threshold_counts_named};
ghost use Rattle.qa_base.specs.values.Names.{discarded_named};
ghost use Rattle.qa_base.specs.values.Names.{permission_named, kind_named};
ghost use Rattle.qa_format.specs.format.Tables as tables;

use qa_base::constants::{DEFAULT_PACKET_THRESHOLD, DEFAULT_TIME_THRESHOLD_EIGHTHS};
use qa_base::limits::MAX_PACKET_SIZE;
use qa_base::{
    Controller, Field, Key, LossByNumber, PacketNumber, Permission, Role, Space, ThresholdCounts,
    Ticks, TimeUnit, TimerKind,
};
use qa_format::Fault;
use serde_json::Value;

/// The values of both keys, or the fault that counts. The first key stands before the second in
/// the table: a key that is absent counts before one of another kind, that before one out of
/// range, and of two alike that of the first.
pub fn both<A: Drop, B: Drop>(
    first: Result<A, Fault>,
    second: Result<B, Fault>,
) -> Result<(A, B), Fault>
    ensures { result ≡ keys.both first second }
{
    match (first, second) {
        (Ok(a), Ok(b)) => Ok((a, b)),
        (Ok(_), Err(fault)) => Err(fault),
        (Err(fault), Ok(_)) => Err(fault),
        (Err(e), Err(f)) => Err(if stage(f) < stage(e) { f } else { e }),
    }
}

/// How early a fault counts.
fn stage(fault: Fault) -> u8
    ensures { result ≡ keys.stage fault }
{
    match fault {
        Fault::Missing(_) => 0,
        Fault::WrongKind(_) => 1,
        Fault::OutOfRange(_)
        | Fault::NotJson
        | Fault::NotObject
        | Fault::UnknownEvent
        | Fault::HeaderPlace
        | Fault::LineTooLong
        | Fault::FlagsClash
        | Fault::Version
        | Fault::TooManyLines => 2,
    }
}

// ---- whether a key is there

/// The value of a key, where it is there and not null.
fn present(key: Key, object: &Value) -> Option<&Value>
    ensures { option_map (λ v. view v.now) result ≡ keys.present key (view object.now) }
{
    match object.get(key.name()) {
        Some(value) if !value.is_null() => Some(value),
        _ => None,
    }
}

/// The value of a key that has to be there.
pub fn required_value(key: Key, object: &Value) -> Result<&Value, Fault>
    ensures { result_map_both (λ v. view v.now) (λ e. e) result
        ≡ keys.required_value key (view object.now) }
{
    present(key, object).ok_or(Fault::Missing(key))
}

// ---- kinds of values

fn integer(key: Key, value: &Value) -> Result<u64, Fault>
    ensures { result ≡ keys.integer key (view value.now) }
{
    value.as_u64().ok_or(Fault::WrongKind(key))
}

fn string(key: Key, value: &Value) -> Result<&str, Fault>
    ensures { result_map_both (λ t. t.now) (λ e. e) result ≡ keys.string key (view value.now) }
{
    value.as_str().ok_or(Fault::WrongKind(key))
}

fn boolean(key: Key, value: &Value) -> Result<bool, Fault>
    ensures { result ≡ keys.boolean key (view value.now) }
{
    value.as_bool().ok_or(Fault::WrongKind(key))
}

/// A required string.
pub fn required_string(key: Key, object: &Value) -> Result<&str, Fault>
    ensures { result_map_both (λ t. t.now) (λ e. e) result
        ≡ keys.required keys.string key (view object.now) }
{
    string(key, required_value(key, object)?)
}

/// A required integer of 64 bits.
pub fn required_integer(key: Key, object: &Value) -> Result<u64, Fault>
    ensures { result ≡ keys.required keys.integer key (view object.now) }
{
    integer(key, required_value(key, object)?)
}

/// A required boolean.
pub fn required_boolean(key: Key, object: &Value) -> Result<bool, Fault>
    ensures { result ≡ keys.required keys.boolean key (view object.now) }
{
    boolean(key, required_value(key, object)?)
}

/// An integer of 64 bits that may be absent.
pub fn optional_integer(key: Key, object: &Value) -> Result<Option<u64>, Fault>
    ensures { result ≡ keys.if_present keys.integer key (view object.now) }
{
    match present(key, object) {
        None => Ok(None),
        Some(value) => Ok(Some(integer(key, value)?)),
    }
}

/// An integer of 64 bits, which is 0 where it is absent.
pub fn integer_or_zero(key: Key, object: &Value) -> Result<u64, Fault>
    ensures { result ≡ keys.optional keys.integer 0 key (view object.now) }
{
    match present(key, object) {
        None => Ok(0),
        Some(value) => integer(key, value),
    }
}

/// A boolean, which is false where it is absent.
pub fn boolean_or_false(key: Key, object: &Value) -> Result<bool, Fault>
    ensures { result ≡ keys.optional keys.boolean false key (view object.now) }
{
    match present(key, object) {
        None => Ok(false),
        Some(value) => boolean(key, value),
    }
}

// ---- the keys of the tables

/// The key `time`.
pub fn time(object: &Value) -> Result<Ticks, Fault>
    ensures { result ≡ tables.time (view object.now) }
{
    let time = required_integer(Key::Time, object)?;
    Ticks::new(time).ok_or(Fault::OutOfRange(Key::Time))
}

/// The key `space`.
pub fn space(object: &Value) -> Result<Space, Fault>
    ensures { result ≡ tables.space (view object.now) }
{
    let name = required_string(Key::Space, object)?;
    Space::named(name).ok_or(Fault::OutOfRange(Key::Space))
}

/// The key `space` of a line that discards keys, which the application's space has none of.
pub fn discarded_space(object: &Value) -> Result<Space, Fault>
    ensures { result ≡ keys.required (keys.string_among discarded_named) Key.Space
        (view object.now) }
{
    match space(object)? {
        Space::App => Err(Fault::OutOfRange(Key::Space)),
        discarded => Ok(discarded),
    }
}

/// The key `role`.
pub fn role(object: &Value) -> Result<Role, Fault>
    ensures { result ≡ keys.required (keys.string_among role_named) Key.Role (view object.now) }
{
    let name = required_string(Key::Role, object)?;
    Role::named(name).ok_or(Fault::OutOfRange(Key::Role))
}

/// The key `unit`, which is `us` where it is absent.
pub fn unit(object: &Value) -> Result<TimeUnit, Fault>
    ensures { result ≡ keys.optional (keys.string_among unit_named) TimeUnit.Microseconds Key.Unit
        (view object.now) }
{
    match present(Key::Unit, object) {
        None => Ok(TimeUnit::Microseconds),
        Some(value) => TimeUnit::named(string(Key::Unit, value)?).ok_or(Fault::OutOfRange(
            Key::Unit,
        )),
    }
}

/// The key `window` of a header, which is `newreno` where it is absent.
pub fn controller(object: &Value) -> Result<Controller, Fault>
    ensures { result ≡ keys.optional
        (keys.string_among controller_named) Controller.NewReno Key.Window (view object.now) }
{
    match present(Key::Window, object) {
        None => Ok(Controller::NewReno),
        Some(value) => Controller::named(string(Key::Window, value)?).ok_or(Fault::OutOfRange(
            Key::Window,
        )),
    }
}

/// What the key `loss_by_number` names, if anything; `must` where it is absent. A word that is none
/// of its values is judged behind the numbers of the header.
pub fn loss_by_number(object: &Value) -> Result<Option<LossByNumber>, Fault>
    ensures { result ≡ keys.optional (keys.string_naming loss_by_number_named)
        (Some LossByNumber.Must) Key.LossByNumber (view object.now) }
{
    match present(Key::LossByNumber, object) {
        None => Ok(Some(LossByNumber::Must)),
        Some(value) => Ok(LossByNumber::named(string(Key::LossByNumber, value)?)),
    }
}

/// What the key `threshold_counts` names, if anything; `numbers` where it is absent. A word that is
/// none of its values is judged behind the numbers of the header, and behind `loss_by_number`.
pub fn threshold_counts(object: &Value) -> Result<Option<ThresholdCounts>, Fault>
    ensures { result ≡ keys.optional (keys.string_naming threshold_counts_named)
        (Some ThresholdCounts.Numbers) Key.ThresholdCounts (view object.now) }
{
    match present(Key::ThresholdCounts, object) {
        None => Ok(Some(ThresholdCounts::Numbers)),
        Some(value) => Ok(ThresholdCounts::named(string(Key::ThresholdCounts, value)?)),
    }
}

/// The key `packet_threshold`, which is 3 where it is absent.
pub fn packet_threshold(object: &Value) -> Result<u64, Fault>
    ensures { result ≡ keys.optional keys.integer default_packet_threshold Key.PacketThreshold
        (view object.now) }
{
    match present(Key::PacketThreshold, object) {
        None => Ok(DEFAULT_PACKET_THRESHOLD),
        Some(value) => integer(Key::PacketThreshold, value),
    }
}

/// The key `time_threshold_eighths`, which is 9 where it is absent.
pub fn time_threshold_eighths(object: &Value) -> Result<u64, Fault>
    ensures { result ≡ keys.optional keys.integer default_time_threshold_eighths
        Key.TimeThresholdEighths (view object.now) }
{
    match present(Key::TimeThresholdEighths, object) {
        None => Ok(DEFAULT_TIME_THRESHOLD_EIGHTHS),
        Some(value) => integer(Key::TimeThresholdEighths, value),
    }
}

/// The key `kind`.
pub fn kind(object: &Value) -> Result<TimerKind, Fault>
    ensures { result ≡ keys.required (keys.string_among kind_named) Key.Kind (view object.now) }
{
    let name = required_string(Key::Kind, object)?;
    TimerKind::named(name).ok_or(Fault::OutOfRange(Key::Kind))
}

/// The key `number`.
pub fn number(object: &Value) -> Result<PacketNumber, Fault>
    ensures { result ≡ keys.required (keys.integer_from 0 max_packet_number) Key.Number
        (view object.now) }
{
    let number = required_integer(Key::Number, object)?;
    PacketNumber::new(number).ok_or(Fault::OutOfRange(Key::Number))
}

/// The key `size`.
pub fn size(object: &Value) -> Result<u64, Fault>
    ensures { result ≡ keys.required (keys.integer_from 1 max_packet_size) Key.Size
        (view object.now) }
{
    let size = required_integer(Key::Size, object)?;
    if 1 <= size && size <= MAX_PACKET_SIZE {
        Ok(size)
    } else {
        Err(Fault::OutOfRange(Key::Size))
    }
}

/// The key `permission`, which is `window` where it is absent.
pub fn permission(object: &Value) -> Result<Permission, Fault>
    ensures { result ≡ keys.optional
        (keys.string_among permission_named) Permission.Window Key.Leave (view object.now) }
{
    match present(Key::Leave, object) {
        None => Ok(Permission::Window),
        Some(value) => Permission::named(string(Key::Leave, value)?).ok_or(Fault::OutOfRange(
            Key::Leave,
        )),
    }
}

/// A value that the sender reports.
pub fn metric(field: Field, object: &Value) -> Result<Option<u64>, Fault>
    ensures { result ≡ tables.metric field (view object.now) }
{
    optional_integer(Key::Metric(field), object)
}
