//! What a record says of the loss detection timer.
ghost use Rattle.std.specs.Prelude.{◌≡◌, Option};
ghost use Rattle.json.specs.Json.{Json};
ghost use Rattle.json.specs.Find.{Finds};
ghost use Rattle.qa_qlog.specs.Timers as timers;

use crate::says::{is_text, key_at, text_at};
use json::Element;
use qa_base::{Space, TimerKind};

/// Whether the timer fired; it may also be set or cancelled.
pub fn has_expired(object: &Option<Element<'_, '_>>) -> bool
    ensures { (d : Option Json) → Finds object.now d → result ≡ timers.has_expired d }
{
    is_text(&key_at(object, "event_type"), "expired")
}

/// Which timer it is, if the record says it.
pub fn timer_kind(object: &Option<Element<'_, '_>>) -> Option<TimerKind>
    ensures { (d : Option Json) → Finds object.now d → result ≡ timers.kind d }
{
    match text_at(&key_at(object, "timer_type")) {
        Some(name) => kind_named(name),
        None => None,
    }
}

/// The timer of this name in any draft.
fn kind_named(name: &str) -> Option<TimerKind>
    ensures { result ≡ timers.kind_named name.now }
{
    match name {
        "ack" => Some(TimerKind::Loss),
        "loss" => Some(TimerKind::Loss),
        "loss_timeout" => Some(TimerKind::Loss),
        "pto" => Some(TimerKind::Pto),
        _ => None,
    }
}

/// The packet number space of the timer, if the record says it.
pub fn timer_space(object: &Option<Element<'_, '_>>) -> Option<Space>
    ensures { (d : Option Json) → Finds object.now d → result ≡ timers.space d }
{
    match text_at(&key_at(object, "packet_number_space")) {
        Some(name) => space_named(name),
        None => None,
    }
}

/// The space of this name in any draft.
fn space_named(name: &str) -> Option<Space>
    ensures { result ≡ timers.space_named name.now }
{
    match name {
        "initial" => Some(Space::Initial),
        "handshake" => Some(Space::Handshake),
        "application_data" => Some(Space::App),
        "application" => Some(Space::App),
        "appdata" => Some(Space::App),
        "app" => Some(Space::App),
        _ => None,
    }
}
