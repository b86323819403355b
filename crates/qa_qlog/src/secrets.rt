//! Of which keys a record says that they came or are gone.
ghost use Rattle.std.specs.Prelude.{◌≡◌, Option};
ghost use Rattle.json.specs.Json.{Json};
ghost use Rattle.json.specs.Find.{Finds};
ghost use Rattle.qa_qlog.specs.Secrets as secrets;

use crate::says::{key_at, text_at};
use json::Element;
use qa_base::Space;

/// The packet number space whose keys they are; None for those of 0-RTT and 1-RTT, and if the
/// record does not say it.
pub fn key_space(object: &Option<Element<'_, '_>>) -> Option<Space>
    ensures { (d : Option Json) → Finds object.now d → result ≡ secrets.key_space d }
{
    match text_at(&key_at(object, "key_type")) {
        Some(name) => space_in(name.as_bytes()),
        None => None,
    }
}

/// The space that is named anywhere in the name of a key.
fn space_in(name: &[u8]) -> Option<Space>
    ensures { result ≡ secrets.space_in name.now }
{
    if occurs(b"initial", name) {
        Some(Space::Initial)
    } else if occurs(b"handshake", name) {
        Some(Space::Handshake)
    } else {
        None
    }
}

/// Whether a part is anywhere in a name.
fn occurs(part: &[u8], name: &[u8]) -> bool
    ensures { result ≡ secrets.occurs part.now name.now }
{
    for i in 0..name.len() {
        if name[i..].starts_with(part) {
            return true;
        }
    }
    false
}
