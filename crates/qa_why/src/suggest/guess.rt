//! The key that is nearest to a name.
ghost use Rattle.std.specs.Prelude.{◌≡◌, IfOk};
ghost use Rattle.qa_why.specs.suggest.Near as spec;

use crate::suggest::other_names::other_name;
use crate::suggest::tables::keys_of;
use qa_base::{Key, LineKind, Version};
use std::alloc::{AllocError, Global};
use strsim::levenshtein;

/// The most bytes of a name that can be near a key's.
const LONGEST_NAME: usize = 40;

/// Whether so many edits, and fewer than for half of its letters, make the key's name of this one.
fn is_within(alloc: Global, most: usize, name: &str, key: Key) -> Result<bool, AllocError>
    ensures { IfOk result (λ within. within ≡ spec.is_within most name.now key) }
{
    let other = key.name();
    let edits = levenshtein(alloc, name, other)?;
    Ok(edits <= most && edits < other.len() / 2)
}

/// The first of these keys that is so near.
fn first_within(
    alloc: Global,
    most: usize,
    name: &str,
    keys: &[Key],
) -> Result<Option<Key>, AllocError>
    ensures { IfOk result (λ found. found ≡ spec.first_within most name.now keys.now) }
{
    for key in keys {
        if is_within(alloc, most, name, *key)? {
            return Ok(Some(*key));
        }
    }
    Ok(None)
}

/// The first key that is one edit away, else the first that is two edits away.
fn nearest(alloc: Global, name: &str, keys: &[Key]) -> Result<Option<Key>, AllocError>
    ensures { IfOk result (λ found. found ≡ spec.nearest name.now keys.now) }
{
    match first_within(alloc, 1, name, keys)? {
        Some(key) => Ok(Some(key)),
        None => first_within(alloc, 2, name, keys),
    }
}

/// The key that a name which is no key of a line of this kind is probably meant to be: one that it
/// is another name for, or one that at most two edits make of it. None where there is no such, and
/// of a name of more than 40 bytes. The header has this version.
///
/// `AllocError` comes where it is out of memory.
pub fn near(
    alloc: Global,
    version: Version,
    kind: LineKind,
    name: &str,
) -> Result<Option<Key>, AllocError>
    ensures { IfOk result (λ found. found ≡ spec.near version kind name.now) }
{
    if LONGEST_NAME < name.len() {
        return Ok(None);
    }
    match other_name(kind, name) {
        Some(key) => Ok(Some(key)),
        None => nearest(alloc, name, keys_of(version, kind)),
    }
}
