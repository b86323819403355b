//! The head of a record: its name, its time and its data, wherever its draft has them.
ghost use Rattle.std.specs.Prelude.{◌≡◌, Option, option_map};
ghost use Rattle.json.specs.Json.{Json};
ghost use Rattle.json.specs.Find.{BeginsWith, Finds};
ghost use Rattle.qa_qlog.specs.Records as records;

use crate::fields::Fields;
use crate::heads::Head;
use crate::names::EventName;
use crate::says::{is_given, is_object, key_at, says_at, text_at};
use crate::times::{NoTime, Unit, time};
use json::Element;

/// What a record says of its event.
#[derive(Clone, Copy, Debug, PartialEq, Eq)]
pub struct EventHead {
    /// Which event it is; None for one that is not read.
    pub name: Option<EventName>,
    /// Its nanoseconds as the record has them: of a delta, those since the record before.
    pub time: i64,
}

impl Head {
    /// What a record says of its event; None for one that has no name, and so has no time either.
    pub fn event(&self, value: &Element<'_, '_>) -> Result<Option<EventHead>, NoTime>
        ensures { (j : Json) → BeginsWith value.now j
            → result ≡ records.event_of self.now.fields self.now.unit j }
    {
        let Some(name) = text_at(&name_of(&self.fields, value)) else {
            return Ok(None);
        };
        match time_of(&time_at(&self.fields, value), self.unit) {
            Ok(time) => Ok(Some(EventHead {
                name: EventName::named(name.as_bytes()),
                time,
            })),
            Err(fault) => Err(fault),
        }
    }

    /// The object that a record has for its data.
    pub fn data<'t, 'a>(&self, value: &Element<'t, 'a>) -> Option<Element<'t, 'a>>
        ensures { (j : Json) → BeginsWith value.now j
            → Finds result (records.data_of self.now.fields j) }
    {
        object_only(self.fields.at_key(value, "data"))
    }

    /// The group of a record, by which a log tells connections apart: a number or a string, as it
    /// is written. Another value is the empty text.
    pub fn group_id<'a>(&self, value: &Element<'_, 'a>) -> Option<&'a str>
        ensures { (j : Json) → BeginsWith value.now j
            → option_map (λ s. s.now) result ≡ records.group_of self.now.fields j }
    {
        match self.fields.at_key(value, "group_id") {
            Some(found) => Some(written(&found)),
            None => None,
        }
    }
}

/// The path of an event in multipath QUIC, as the group of a record.
pub fn path_id<'a>(object: &Option<Element<'_, 'a>>) -> Option<&'a str>
    ensures { (d : Option Json) → Finds object.now d
        → option_map (λ s. s.now) result ≡ records.path_of d }
{
    match key_at(object, "path_id") {
        Some(found) => Some(written(&found)),
        None => None,
    }
}

/// A value, if it is an object.
pub(crate) fn object_only<'t, 'a>(found: Option<Element<'t, 'a>>) -> Option<Element<'t, 'a>>
    ensures { (o : Option Json) → Finds found.entry o → Finds result (records.object_only o) }
{
    match found {
        Some(value) => { if is_object(&value) { Some(value) } else { None } }
        None => None,
    }
}

/// The value at the first of the keys for the name that says anything.
fn name_of<'t, 'a>(fields: &Fields, value: &Element<'t, 'a>) -> Option<Element<'t, 'a>>
    ensures { (j : Json) → BeginsWith value.now j → Finds result (records.name_at fields.now j) }
{
    let name = fields.at_key(value, "name");
    if says_at(&name) {
        return name;
    }
    let event = fields.at_key(value, "event");
    if says_at(&event) {
        return event;
    }
    fields.at_key(value, "event_type")
}

/// The value of the time.
fn time_at<'t, 'a>(fields: &Fields, value: &Element<'t, 'a>) -> Option<Element<'t, 'a>>
    ensures { (j : Json) → BeginsWith value.now j → Finds result (records.time_at fields.now j) }
{
    let time = fields.at_key(value, "time");
    if is_given(&time) {
        return time;
    }
    named_at(fields, value)
}

/// The value at the first key that names a form of time.
fn named_at<'t, 'a>(fields: &Fields, value: &Element<'t, 'a>) -> Option<Element<'t, 'a>>
    ensures { (j : Json) → BeginsWith value.now j → Finds result (records.named_at fields.now j) }
{
    if let Some(found) = delta_at(fields, value) {
        return Some(found);
    }
    if let Some(found) = relative_at(fields, value) {
        return Some(found);
    }
    absolute_at(fields, value)
}

/// The value at the first key of a time that counts from the record before.
fn delta_at<'t, 'a>(fields: &Fields, value: &Element<'t, 'a>) -> Option<Element<'t, 'a>>
    ensures { (j : Json) → BeginsWith value.now j → Finds result (records.delta_at fields.now j) }
{
    if let Some(found) = fields.at_key(value, "delta") {
        return Some(found);
    }
    if let Some(found) = fields.at_key(value, "delta_time") {
        return Some(found);
    }
    fields.at_key(value, "relative_to_previous_event")
}

/// The value at the first key of a time that counts from the start or an epoch.
fn relative_at<'t, 'a>(fields: &Fields, value: &Element<'t, 'a>) -> Option<Element<'t, 'a>>
    ensures { (j : Json) → BeginsWith value.now j
        → Finds result (records.relative_at fields.now j) }
{
    if let Some(found) = fields.at_key(value, "relative") {
        return Some(found);
    }
    if let Some(found) = fields.at_key(value, "relative_time") {
        return Some(found);
    }
    fields.at_key(value, "relative_to_epoch")
}

/// The value at the first key of an absolute time.
fn absolute_at<'t, 'a>(fields: &Fields, value: &Element<'t, 'a>) -> Option<Element<'t, 'a>>
    ensures { (j : Json) → BeginsWith value.now j
        → Finds result (records.absolute_at fields.now j) }
{
    match fields.at_key(value, "absolute") {
        Some(found) => Some(found),
        None => fields.at_key(value, "time"),
    }
}

/// The nanoseconds of a time; 0 if there is none.
fn time_of(found: &Option<Element<'_, '_>>, unit: Unit) -> Result<i64, NoTime>
    ensures { (o : Option Json) → Finds found.now o → result ≡ records.time_of unit o }
{
    let Some(value) = found else {
        return Ok(0);
    };
    time(written(value).as_bytes(), unit)
}

/// The text of a number, which may be in a string; of other values none.
pub(crate) fn written<'a>(value: &Element<'_, 'a>) -> &'a str
    ensures { (j : Json) → BeginsWith value.now j → result.now ≡ records.written j }
{
    match value.as_number() {
        Some(text) => text,
        None => value.as_str().unwrap_or(""),
    }
}
