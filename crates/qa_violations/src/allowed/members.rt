//! What an accepted verdict rests on, as members of a JSON object behind others.
ghost use Rattle.std.specs.Prelude.{◌≡◌, ◌++◌, [], IfOk, OnOk, filter, option_map};
ghost use Rattle.qa_violations.specs.allowed.Members as text;
ghost use Rattle.qa_violations.specs.table.Table.{has_findings};

use crate::allowed::choices::{key_of, limit_of};
use crate::table::{Row, push_counts, push_greatest, unit_of};
use qa_base::{Due, Key, Options, Rule, TimeUnit};
use qa_explain::members::{Object, push_due};
use qa_explain::text::is_in_bytes;
use qa_why::{Guessed, extend, push_rule};
use std::alloc::{AllocError, Global};

// ---- what was allowed

fn push_key(object: &mut Object, key: Option<Key>) -> Result<(), AllocError>
    ensures { OnOk result (object.new ≡ object.old ++ text.key_member key) }
{
    match key {
        None => Ok(()),
        Some(key) => object.string("by", key.name()),
    }
}

/// The limit in the unit of the amounts.
fn measured_limit(unit: TimeUnit, rule: Rule, limit: u64) -> u128
    ensures { result ≡ text.measured_limit unit rule limit }
{
    if is_in_bytes(rule) {
        return u128::from(limit);
    }
    unit.of_microseconds(limit)
}

pub(crate) fn some_limit(unit: TimeUnit, rule: Rule, limit: Option<u64>) -> Option<u128>
    ensures { result ≡ option_map (text.measured_limit unit rule) limit }
{
    match limit {
        None => None,
        Some(limit) => Some(measured_limit(unit, rule, limit)),
    }
}

/// How much the header allows.
fn push_limit(
    object: &mut Object,
    unit: TimeUnit,
    options: &Options,
    rule: Rule,
) -> Result<(), AllocError>
    ensures { OnOk result (object.new ≡ object.old ++ text.limit_member unit options.now rule) }
{
    let limit = some_limit(unit, rule, limit_of(options, rule));
    object.some_amount("limit", unit_of(unit, rule), limit)
}

#[tactic(auto, unfolding(crate::specs::allowed::Members::row_object))]
fn push_row(
    alloc: Global,
    object: &mut Object,
    unit: TimeUnit,
    options: &Options,
    row: &Row,
) -> Result<(), AllocError>
    ensures { OnOk result (object.new ≡ object.old ++ text.row_object unit options.now row.now) }
{
    object.begin_object()?;
    push_rule(alloc, object, row.rule)?;
    push_key(object, key_of(row.rule))?;
    push_limit(object, unit, options, row.rule)?;
    push_counts(object, row)?;
    push_greatest(object, unit, row.rule, row.greatest)?;
    object.end_object()
}

fn push_rows(
    alloc: Global,
    object: &mut Object,
    unit: TimeUnit,
    options: &Options,
    rows: &[Row],
) -> Result<(), AllocError>
    ensures { OnOk result (object.new ≡ object.old
        ++ text.row_objects unit options.now (filter has_findings rows.now)) }
{
    for row in rows {
        if 0 < row.count {
            push_row(alloc, object, unit, options, row)?;
        }
    }
    Ok(())
}

/// The rows of what was allowed, as a member.
#[tactic(auto, unfolding(crate::specs::allowed::Members::allowed_member))]
pub(crate) fn allowed_member(
    alloc: Global,
    unit: TimeUnit,
    options: &Options,
    rows: &[Row],
) -> Result<Vec<u8>, AllocError>
    ensures { IfOk result (λ member. member.items
        ≡ text.allowed_member unit options.now (filter has_findings rows.now)) }
{
    let mut object = Object::bare(alloc);
    object.begin_list("allowed")?;
    push_rows(alloc, &mut object, unit, options, rows)?;
    object.end_list()?;
    Ok(object.into_bytes())
}

// ---- choices

#[tactic(auto, unfolding(crate::specs::allowed::Members::quoted))]
fn push_quoted(out: &mut Vec<u8>, first: &[u8], name: &str) -> Result<(), AllocError>
    ensures { OnOk result (out.new.items ≡ out.old.items ++ text.quoted first.now name.now) }
{
    extend(out, first)?;
    extend(out, b"\"")?;
    extend(out, name.as_bytes())?;
    extend(out, b"\"")
}

/// The names of the keys, with commas between.
fn push_listed(out: &mut Vec<u8>, keys: &[Key]) -> Result<(), AllocError>
    ensures { OnOk result (out.new.items ≡ out.old.items ++ text.listed [] keys.now) }
{
    let mut separator: &[u8] = b"";
    for key in keys {
        push_quoted(out, separator, key.name())?;
        separator = b",";
    }
    Ok(())
}

/// The names of the keys, as a member behind others.
#[tactic(auto, unfolding(crate::specs::allowed::Members::choices_member))]
pub(crate) fn push_choices(out: &mut Vec<u8>, keys: &[Key]) -> Result<(), AllocError>
    ensures { OnOk result (out.new.items ≡ out.old.items ++ text.choices_member keys.now) }
{
    extend(out, b",\"choices\":[")?;
    push_listed(out, keys)?;
    extend(out, b"]")
}

// ---- guesses

#[tactic(auto, unfolding(crate::specs::allowed::Members::guessed_members))]
fn guessed_members(alloc: Global, guessed: Guessed) -> Result<Vec<u8>, AllocError>
    ensures { IfOk result (λ members. members.items ≡ text.guessed_members guessed) }
{
    let mut object = Object::bare(alloc);
    object.number("count", u128::from(guessed.count))?;
    object.number("first", u128::from(guessed.first))?;
    Ok(object.into_bytes())
}

#[tactic(auto, unfolding(crate::specs::allowed::Members::some_guesses_member))]
fn push_some_guesses(alloc: Global, out: &mut Vec<u8>, guessed: Guessed) -> Result<(), AllocError>
    ensures { OnOk result (out.new.items ≡ out.old.items ++ text.some_guesses_member guessed) }
{
    let members = guessed_members(alloc, guessed)?;
    extend(out, b",\"guesses\":{")?;
    extend(out, &members)?;
    extend(out, b"}")
}

/// How many lines were guessed, as a member behind others; null where none was.
pub(crate) fn push_guesses(
    alloc: Global,
    out: &mut Vec<u8>,
    guessed: Guessed,
) -> Result<(), AllocError>
    ensures { OnOk result (out.new.items ≡ out.old.items ++ text.guesses_member guessed) }
{
    if guessed.count == 0 {
        return extend(out, b",\"guesses\":null");
    }
    push_some_guesses(alloc, out, guessed)
}

// ---- the end

#[tactic(auto, unfolding(crate::specs::allowed::Members::last_members))]
fn last_members(
    alloc: Global,
    unit: TimeUnit,
    time: u64,
    bytes: u64,
    due: Option<Due>,
) -> Result<Vec<u8>, AllocError>
    ensures { IfOk result (λ members. members.items ≡ text.last_members unit time bytes due) }
{
    let mut object = Object::bare(alloc);
    object.amount("time", unit.name(), u128::from(time))?;
    object.number("in_flight_bytes", u128::from(bytes))?;
    push_due(&mut object, unit, due)?;
    Ok(object.into_bytes())
}

#[tactic(auto, unfolding(crate::specs::allowed::Members::some_last_member))]
fn push_some_last(
    alloc: Global,
    out: &mut Vec<u8>,
    unit: TimeUnit,
    time: u64,
    bytes: u64,
    due: Option<Due>,
) -> Result<(), AllocError>
    ensures { OnOk result (out.new.items
        ≡ out.old.items ++ text.some_last_member unit time bytes due) }
{
    let members = last_members(alloc, unit, time, bytes, due)?;
    extend(out, b",\"last\":{")?;
    extend(out, &members)?;
    extend(out, b"}")
}

/// How the trace ends, whose last event was at this time, as a member behind others.
pub(crate) fn push_last(
    alloc: Global,
    out: &mut Vec<u8>,
    unit: TimeUnit,
    time: Option<u64>,
    bytes: u64,
    due: Option<Due>,
) -> Result<(), AllocError>
    ensures { OnOk result (out.new.items ≡ out.old.items ++ text.last_member unit time bytes due) }
{
    match time {
        None => extend(out, b",\"last\":null"),
        Some(time) => push_some_last(alloc, out, unit, time, bytes, due),
    }
}
