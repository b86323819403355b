//! What records say beside packets that are lost, that a probe timeout sent, and of what limits a
//! sender.
ghost use Rattle.std.specs.Prelude.{◌≡◌, Option};
ghost use Rattle.json.specs.Json.{Json};
ghost use Rattle.json.specs.Find.{Finds};
ghost use Rattle.qa_qlog.specs.Lists.{GivesItems};
ghost use Rattle.qa_qlog.specs.Losses as losses;

use crate::frames::objects_in;
use crate::keys::{Key, NoValue};
use crate::says::{is_text, key_at};
use json::{Element, Items};

/// The packets of a `packets_lost`: each is the header of one.
pub fn lost_packets<'t, 'a>(
    object: &Option<Element<'t, 'a>>,
) -> Result<Option<Items<'t, 'a>>, NoValue>
    ensures { (d : Option Json) → Finds object.now d → GivesItems result (losses.packets d) }
{
    match key_at(object, "packets") {
        Some(packets) => objects_in(&packets, Key::Packets),
        None => Err(NoValue::Missing(Key::Packets)),
    }
}

/// Whether a `packet_lost` names a packet that a probe sends again, which is no loss.
pub fn is_repeated(object: &Option<Element<'_, '_>>) -> bool
    ensures { (d : Option Json) → Finds object.now d → result ≡ losses.is_repeated d }
{
    is_text(&key_at(object, "trigger"), "pto_expired")
}

/// Whether a `packet_sent` says that a probe timeout sent it.
pub fn is_probe(object: &Option<Element<'_, '_>>) -> bool
    ensures { (d : Option Json) → Finds object.now d → result ≡ losses.is_probe d }
{
    is_text(&key_at(object, "trigger"), "pto_probe")
}

/// Whether a `congestion_state_updated` says that the sender is limited by its program.
pub fn is_application_limited(object: &Option<Element<'_, '_>>) -> bool
    ensures { (d : Option Json) → Finds object.now d → result ≡ losses.is_application_limited d }
{
    is_text(&key_at(object, "new"), "application_limited")
}
