//! The key of an object that stands there in place of one that is missing.
ghost use Rattle.std.specs.Prelude.{◌≡◌, IfOk, option_map};
ghost use Rattle.serde_json.specs.View.{members_view};
ghost use Rattle.qa_why.specs.suggest.StandsFor as spec;

use crate::suggest::guess::near;
use crate::suggest::tables::is_key;
use qa_base::{Key, LineKind, Version};
use serde_json::{Map, Value};
use std::alloc::{AllocError, Global};

/// Whether the key that is near, if one is, is this.
fn is_it(near: Option<Key>, missing: Key) -> bool
    ensures { result ≡ spec.is_it near missing }
{
    match near {
        Some(key) => key.name() == missing.name(),
        None => false,
    }
}

/// Whether a line of this kind does not have this key, which is near to the one that is missing.
fn is_meant(
    alloc: Global,
    version: Version,
    kind: LineKind,
    missing: Key,
    name: &str,
) -> Result<bool, AllocError>
    ensures { IfOk result (λ meant. meant ≡ spec.is_meant version kind missing name.now) }
{
    if is_key(version, kind, name) {
        return Ok(false);
    }
    let near = near(alloc, version, kind, name)?;
    Ok(is_it(near, missing))
}

/// The first key of the object that a line of this kind does not have and that is probably meant to
/// be the one that is missing. The header has this version.
///
/// `AllocError` comes where it is out of memory.
pub fn stands_for<'a>(
    alloc: Global,
    version: Version,
    kind: LineKind,
    missing: Key,
    members: &'a Map<String, Value>,
) -> Result<Option<&'a str>, AllocError>
    ensures { IfOk result (λ found. option_map (λ name. name.now) found
        ≡ spec.stands_for version kind missing (spec.keys (members_view members.now.entries))) }
{
    for key in members.keys() {
        if is_meant(alloc, version, kind, missing, key.as_str())? {
            return Ok(Some(key.as_str()));
        }
    }
    Ok(None)
}
