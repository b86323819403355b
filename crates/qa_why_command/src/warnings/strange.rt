//! Keys of a line that do nothing.
ghost use Rattle.std.specs.Prelude.{◌≡◌, IfOk, map, string_bytes};
ghost use Rattle.serde_json.specs.View.{members_view};
ghost use Rattle.qa_why.specs.suggest.StandsFor.{keys};
ghost use Rattle.qa_why_command.specs.warnings.Strange as spec;

use qa_base::{LineKind, Version};
use qa_why::{data_of, is_key};
use serde_json::{Map, Value};
use std::alloc::{AllocError, Global};

/// Whether a key is a logger's own, which begins with `x_`.
fn is_own(key: &str) -> bool
    ensures { result ≡ spec.is_own key.now }
{
    key.as_bytes().starts_with(b"x_")
}

/// Those keys of an object that a line of this kind does not have, and that are not a logger's own.
fn strange_among(
    alloc: Global,
    version: Version,
    kind: LineKind,
    members: &Map<String, Value>,
) -> Result<Vec<String>, AllocError>
    ensures { IfOk result (λ found. map string_bytes found.items
        ≡ spec.strange version kind (keys (members_view members.now.entries))) }
{
    let mut found = Vec::new(alloc);
    for key in members.keys() {
        if !is_key(version, kind, key.as_str()) && !is_own(key.as_str()) {
            found.push(key.clone()?)?;
        }
    }
    Ok(found)
}

/// The keys of the object that a line is which a line of this kind does not have, where the header
/// has this version, and that are not a logger's own, in ascending order.
///
/// `AllocError` comes where it is out of memory.
pub fn strange_keys(
    alloc: Global,
    version: Version,
    kind: LineKind,
    line: &[u8],
) -> Result<Vec<String>, AllocError>
    ensures { IfOk result (λ found. map string_bytes found.items
        ≡ spec.strange version kind (spec.keys_in line.now)) }
{
    let data = data_of(alloc, line)?;
    match data.as_ref().and_then(Value::as_object) {
        Some(members) => strange_among(alloc, version, kind, members),
        None => Ok(Vec::new(alloc)),
    }
}
