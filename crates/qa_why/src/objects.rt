//! What is told of a trace as the members of a JSON object, by its verdict.
ghost use Rattle.std.specs.Prelude.{◌≡◌, ◌++◌, IfOk, OnOk};
ghost use Rattle.qa_why.specs.Objects as text;

use crate::faults::wanted;
use crate::hidden::without_hidden;
use crate::lines::extend;
use qa_base::{Event, Field, Key, Rule, TimeUnit, Totals};
use qa_explain::members::{Object, push_facts, push_owed, push_source, push_subject};
use qa_format::Fault;
use qa_ledger::{Cause, Owed};
use std::alloc::{AllocError, Global};

/// The line of an object of a trace: its file, in whose name hidden characters are escaped, and the
/// members behind it.
#[tactic(auto, unfolding(crate::specs::Objects::object_line))]
pub fn object_line(alloc: Global, name: &str, members: &[u8]) -> Result<Vec<u8>, AllocError>
    ensures { IfOk result (λ line. line.items ≡ text.object_line name.now members.now) }
{
    let mut object = Object::new(alloc)?;
    object.string("file", name)?;
    let front = object.into_string()?;
    let mut line = without_hidden(alloc, front.as_str())?;
    extend(&mut line, b",")?;
    extend(&mut line, members)?;
    extend(&mut line, b"}\n")?;
    Ok(line)
}

/// The verdict in a word.
#[tactic(auto, unfolding(crate::specs::Objects::front))]
fn begun(alloc: Global, word: &str) -> Result<Object, AllocError>
    ensures { IfOk result (λ object. object ≡ text.front word.now) }
{
    let mut object = Object::bare(alloc);
    object.string("verdict", word)?;
    Ok(object)
}

/// The same, and the line that the verdict is about.
#[tactic(auto, unfolding(crate::specs::Objects::head))]
fn headed_by(alloc: Global, word: &str, n: u64) -> Result<Object, AllocError>
    ensures { IfOk result (λ object. object ≡ text.head word.now n) }
{
    let mut object = begun(alloc, word)?;
    object.number("line", u128::from(n))?;
    Ok(object)
}

// ---- accepted

/// What is told of an accepted trace. `AllocError` comes where it is out of memory, here and in the
/// others.
#[tactic(auto, unfolding(crate::specs::Objects::accepted_members))]
pub fn accepted_members(alloc: Global, totals: &Totals) -> Result<Vec<u8>, AllocError>
    ensures { IfOk result (λ told. told.items ≡ text.accepted_members totals.now) }
{
    let mut object = begun(alloc, "accepted")?;
    object.number("events", u128::from(totals.events))?;
    Ok(object.into_bytes())
}

// ---- refused

fn push_field(object: &mut Object, field: Option<Field>) -> Result<(), AllocError>
    ensures { OnOk result (object.new ≡ object.old ++ text.field_at field) }
{
    match field {
        None => Ok(()),
        Some(field) => object.string("field", field.name()),
    }
}

/// The rule by its number and its name, the field that it is about, and where it stands.
#[tactic(auto, unfolding(crate::specs::Objects::rule_members))]
pub fn push_rule(alloc: Global, object: &mut Object, rule: Rule) -> Result<(), AllocError>
    ensures { OnOk result (object.new ≡ object.old ++ text.rule_members rule) }
{
    let number = format!(in alloc; "V{}", rule.number())?;
    object.string("rule", number.as_str())?;
    object.string("name", rule.name())?;
    push_field(object, rule.field())?;
    push_source(object, rule)
}

/// Why line n is refused, which says an event that breaks a rule; times are in the unit.
#[tactic(auto, unfolding(crate::specs::Objects::refused_members))]
pub fn refused_members(
    alloc: Global,
    unit: TimeUnit,
    n: u64,
    rule: Rule,
    event: &Event,
    cause: &Cause,
) -> Result<Vec<u8>, AllocError>
    ensures { IfOk result (λ told. told.items
        ≡ text.refused_members unit n rule event.now cause.now) }
{
    let mut object = headed_by(alloc, "refused", n)?;
    push_rule(alloc, &mut object, rule)?;
    push_subject(&mut object, unit, event)?;
    push_facts(&mut object, unit, event, cause)?;
    Ok(object.into_bytes())
}

/// V17: why a trace is refused that ends while a loss is owed, its last event on line n.
#[tactic(auto, unfolding(crate::specs::Objects::owed_at_end_members))]
pub fn owed_at_end_members(alloc: Global, n: u64, owed: &Owed) -> Result<Vec<u8>, AllocError>
    ensures { IfOk result (λ told. told.items ≡ text.owed_at_end_members n owed.now) }
{
    let mut object = headed_by(alloc, "refused", n)?;
    push_rule(alloc, &mut object, Rule::OwedAtEnd)?;
    push_owed(&mut object, owed)?;
    Ok(object.into_bytes())
}

// ---- unreadable

#[tactic(auto, unfolding(crate::specs::Objects::key_members))]
fn push_key(object: &mut Object, key: Key) -> Result<(), AllocError>
    ensures { OnOk result (object.new ≡ object.old ++ text.key_members key) }
{
    object.string("key", key.name())?;
    object.string("wanted", wanted(key))
}

/// The key that a fault is about, and what its value has to be.
fn push_some_key(object: &mut Object, key: Option<Key>) -> Result<(), AllocError>
    ensures { OnOk result (object.new ≡ object.old ++ text.some_key_members key) }
{
    match key {
        None => Ok(()),
        Some(key) => push_key(object, key),
    }
}

/// The fault by its number and its name, and the key that it is about.
#[tactic(auto, unfolding(crate::specs::Objects::fault_members))]
fn push_fault(alloc: Global, object: &mut Object, fault: Fault) -> Result<(), AllocError>
    ensures { OnOk result (object.new ≡ object.old ++ text.fault_members fault) }
{
    let number = format!(in alloc; "F{}", fault.number())?;
    object.string("fault", number.as_str())?;
    object.string("name", fault.name())?;
    push_some_key(object, fault.key())
}

/// Why line n cannot be read, and whether a header stands before.
#[tactic(auto, unfolding(crate::specs::Objects::unreadable_members))]
pub fn unreadable_members(
    alloc: Global,
    n: u64,
    fault: Fault,
    headed: bool,
) -> Result<Vec<u8>, AllocError>
    ensures { IfOk result (λ told. told.items ≡ text.unreadable_members n fault headed) }
{
    let mut object = headed_by(alloc, "unreadable", n)?;
    push_fault(alloc, &mut object, fault)?;
    object.flag("behind_header", headed)?;
    Ok(object.into_bytes())
}
