//! Which key of a line stands there in place of one that is missing.
ghost use Rattle.std.specs.Prelude.{◌≡◌, ◌++◌, IfOk, OnOk, option_map, string_bytes};
ghost use Rattle.std.specs.Option.{option_copied};
ghost use Rattle.serde_json.specs.View.{view};
ghost use Rattle.qa_why.specs.Meant as text;
ghost use Rattle.qa_why.specs.Values.{data_of as data_in};

use crate::lines::{extend, first_bytes, printed};
use crate::suggest::stands_for;
use crate::values::{SHOWN_OF_STRING, data_of};
use qa_base::{Key, LineKind, Version};
use qa_explain::text::{push_name, push_words};
use qa_format::Fault;
use serde_json::Value;
use std::alloc::{AllocError, Global};

// ---- the key

/// The kind of line that a string names.
fn kind_by(value: &Value) -> Option<LineKind>
    ensures { result ≡ text.kind_by (view value.now) }
{
    match value.as_str() {
        None => None,
        Some(name) => LineKind::named(name),
    }
}

/// The kind of line that an object says it is.
fn kind_in(object: &Value) -> Option<LineKind>
    ensures { result ≡ text.kind_in (view object.now) }
{
    match object.get(Key::Event.name()) {
        None => None,
        Some(value) => kind_by(value),
    }
}

/// The first key of an object that no version has and that is near to the one that is missing.
fn name_meant<'a>(
    alloc: Global,
    missing: Key,
    object: &'a Value,
) -> Result<Option<&'a str>, AllocError>
    ensures { IfOk result (λ found. option_map (λ name. name.now) found
        ≡ text.name_meant missing (view object.now)) }
{
    let Some(kind) = kind_in(object) else {
        return Ok(None);
    };
    match object.as_object() {
        None => Ok(None),
        Some(members) => stands_for(alloc, Version::Three, kind, missing, members),
    }
}

// ---- the text

/// Whether it is the key that is missing.
#[tactic(auto, unfolding(crate::specs::Meant::question))]
fn question(alloc: Global, missing: Key) -> Result<String, AllocError>
    ensures { IfOk result (λ question. string_bytes question ≡ text.question missing) }
{
    let mut question = String::new(alloc);
    push_name(&mut question, " stands there; is it ", missing.name())?;
    push_words(&mut question, "?\n")?;
    Ok(question)
}

/// Some words and then the first bytes of a name.
#[tactic(auto, unfolding(crate::specs::Meant::shown_name))]
fn push_shown(alloc: Global, out: &mut Vec<u8>, words: &str, name: &str) -> Result<(), AllocError>
    ensures { OnOk result (out.new.items ≡ out.old.items ++ text.shown_name words.now name.now) }
{
    let shown = printed(alloc, first_bytes(name.as_bytes(), SHOWN_OF_STRING))?;
    extend(out, words.as_bytes())?;
    extend(out, &shown)
}

#[tactic(auto, unfolding(crate::specs::Meant::meant_line))]
fn push_line(alloc: Global, out: &mut Vec<u8>, name: &str, missing: Key) -> Result<(), AllocError>
    ensures { OnOk result (out.new.items ≡ out.old.items ++ text.meant_line name.now missing) }
{
    let question = question(alloc, missing)?;
    push_shown(alloc, out, "  Hint: the key ", name)?;
    extend(out, question.as_bytes())
}

fn push_meant_in(
    alloc: Global,
    out: &mut Vec<u8>,
    missing: Key,
    object: &Value,
) -> Result<(), AllocError>
    ensures { OnOk result (out.new.items
        ≡ out.old.items ++ text.meant_text (text.name_meant missing (view object.now)) missing) }
{
    match name_meant(alloc, missing, object)? {
        None => Ok(()),
        Some(name) => push_line(alloc, out, name, missing),
    }
}

fn push_meant_on(
    alloc: Global,
    out: &mut Vec<u8>,
    missing: Key,
    line: &[u8],
) -> Result<(), AllocError>
    ensures { OnOk result (out.new.items
        ≡ out.old.items ++ text.meant_in missing (data_in line.now)) }
{
    let found = data_of(alloc, line)?;
    match &found {
        None => Ok(()),
        Some(object) => push_meant_in(alloc, out, missing, object),
    }
}

/// Appends a hint at what stands in the line in place of the key that is missing, if the fault is
/// that one is. `AllocError` comes where it is out of memory.
pub fn push_meant(
    alloc: Global,
    out: &mut Vec<u8>,
    fault: Fault,
    line: Option<&[u8]>,
) -> Result<(), AllocError>
    ensures { OnOk result (out.new.items
        ≡ out.old.items ++ text.meant fault (option_copied line.entry)) }
{
    let Some(line) = line else {
        return Ok(());
    };
    match fault {
        Fault::Missing(key) => push_meant_on(alloc, out, key, line),
        _ => Ok(()),
    }
}
