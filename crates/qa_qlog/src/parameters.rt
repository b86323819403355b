//! Transport parameters, as a record has them.
ghost use Rattle.std.specs.Prelude.{◌≡◌, Option};
ghost use Rattle.json.specs.Json.{Json};
ghost use Rattle.json.specs.Find.{Finds};
ghost use Rattle.qa_qlog.specs.Parameters as parameters;

use crate::keys::{Key, NoValue};
use crate::numbers::duration_in;
use crate::says::{is_text, key_at};
use crate::times::Unit;
use json::Element;

/// The most nanoseconds of a `max_ack_delay`: 2^14 - 1 ms (RFC 9000, section 18.2).
const MAX_DELAY: u64 = 16_383_000_000;

/// Whether the parameters are those of the peer.
pub fn is_of_peer(object: &Option<Element<'_, '_>>) -> bool
    ensures { (d : Option Json) → Finds object.now d → result ≡ parameters.is_of_peer d }
{
    is_text(&owner_at(object), "remote")
}

/// What is said of whose parameters they are.
fn owner_at<'t, 'a>(object: &Option<Element<'t, 'a>>) -> Option<Element<'t, 'a>>
    ensures { (d : Option Json) → Finds object.now d → Finds result (parameters.owner_at d) }
{
    match key_at(object, "owner") {
        Some(owner) => Some(owner),
        None => key_at(object, "initiator"),
    }
}

/// The nanoseconds of `max_ack_delay`, in a log whose durations have this unit.
pub fn max_ack_delay(object: &Option<Element<'_, '_>>, unit: Unit) -> Result<Option<u64>, NoValue>
    ensures { (d : Option Json) → Finds object.now d → result ≡ parameters.max_ack_delay unit d }
{
    match duration_in(object, Key::MaxAckDelay, unit) {
        Ok(Some(delay)) if MAX_DELAY < delay => Err(NoValue::OutOfRange(Key::MaxAckDelay)),
        other => other,
    }
}
