//! The head of a log of many texts: how its records are read.
ghost use Rattle.std.specs.Prelude.{◌≡◌, ◌≢◌, true, Err, Some, None, Option, option_map};
ghost use Rattle.std.specs.Str.{is_utf8};
ghost use Rattle.json.specs.Json.{Json, document};
ghost use Rattle.json.specs.Find.{BeginsWith, Finds};
ghost use Rattle.qa_qlog.specs.Heads as heads;
ghost use Rattle.qa_qlog.specs.Objects.{GivesObject};

use crate::fields::Fields;
use crate::says::{is_object, key_at, says, text_at};
use crate::times::Unit;
use json::{Element, Error as JsonError, Scratch, Tape};
use qa_base::Role;
use std::alloc::Global;
use thiserror::Error;

/// What the times of records count from.
#[derive(Clone, Copy, Debug, PartialEq, Eq)]
pub enum TimeForm {
    /// An epoch, or the time of the first record.
    Absolute,
    /// The start of the log.
    Relative,
    /// The record before.
    Delta,
}

impl TimeForm {
    /// The form of this name in any draft; None for any other string.
    pub fn named(text: &str) -> Option<TimeForm>
        ensures { result ≡ heads.form_named text.now }
    {
        match text {
            "delta" => Some(TimeForm::Delta),
            "delta_time" => Some(TimeForm::Delta),
            "relative_to_previous_event" => Some(TimeForm::Delta),
            "relative" => Some(TimeForm::Relative),
            "relative_time" => Some(TimeForm::Relative),
            "relative_to_epoch" => Some(TimeForm::Absolute),
            "absolute" => Some(TimeForm::Absolute),
            "time" => Some(TimeForm::Absolute),
            _ => None,
        }
    }
}

/// Why the first text of a log is no head.
#[derive(Clone, Copy, Debug, PartialEq, Eq, Error)]
pub enum NoHead {
    /// It is not JSON.
    #[error("not JSON")]
    NotJson,
    /// It is JSON, but no object.
    #[error("the first record is no object")]
    NoObject,
    /// Its `trace` is no object.
    #[error("trace is no object")]
    Trace,
    /// Its `event_fields` are no list.
    #[error("event_fields is no list")]
    EventFields,
    /// Its `common_fields` are no object.
    #[error("common_fields is no object")]
    CommonFields,
    /// Its `time_format` is no form of time of any draft.
    #[error("time_format is none that is known")]
    TimeFormat,
    /// Its `configuration` is no object.
    #[error("configuration is no object")]
    Configuration,
    /// Its `time_units` are none of `ns`, `us` and `ms`.
    #[error("time_units is none of ns, us and ms")]
    TimeUnits,
    /// Out of memory.
    #[error("out of memory")]
    OutOfMemory,
}

/// The head of a log.
#[derive(Drop)]
pub struct Head {
    /// The fields of records that are lists.
    pub fields: Fields,
    /// What times count from.
    pub form: TimeForm,
    /// What times count.
    pub unit: Unit,
    /// The endpoint that wrote the log, if it says it.
    pub role: Option<Role>,
}

/// The head that the first text of a log is. What its `trace` says counts for more than what is
/// beside that. Only a text that is UTF-8 takes memory.
pub fn head_of(alloc: Global, text: &[u8]) -> Result<Head, NoHead>
    ensures value { result ≢ Err NoHead.OutOfMemory → result ≡ heads.head_of text.now }
    ensures memory { result ≡ Err NoHead.OutOfMemory → is_utf8 text.now ≡ true }
{
    match str::from_utf8(text) {
        Ok(text) => by_text(alloc, text),
        Err(_) => Err(NoHead::NotJson),
    }
}

/// The head that a text is.
fn by_text(alloc: Global, text: &str) -> Result<Head, NoHead>
    ensures { result ≢ Err NoHead.OutOfMemory → result ≡ heads.by_json (document text.now) }
{
    let mut scratch = Scratch::new(alloc);
    match Tape::parse(text, &mut scratch, Vec::new(alloc)) {
        Ok(tape) => by_value(alloc, &tape.root()),
        Err(JsonError::Invalid) => Err(NoHead::NotJson),
        Err(_) => Err(NoHead::OutOfMemory),
    }
}

/// The head that a value is.
fn by_value(alloc: Global, value: &Element<'_, '_>) -> Result<Head, NoHead>
    ensures { result ≢ Err NoHead.OutOfMemory → (j : Json) → BeginsWith value.now j
        → result ≡ heads.by_json (Some j) }
{
    if !is_object(value) {
        return Err(NoHead::NoObject);
    }
    match object_at(value.get("trace"), NoHead::Trace) {
        Ok(trace) => head_in(alloc, value, &trace),
        Err(fault) => Err(fault),
    }
}

/// The head that an object is, with what its `trace` says: so that of a trace in a document, and
/// that of a log of many texts. What the trace says counts for more.
pub fn head_in(
    alloc: Global,
    head: &Element<'_, '_>,
    trace: &Option<Element<'_, '_>>,
) -> Result<Head, NoHead>
    ensures { result ≢ Err NoHead.OutOfMemory → (h : Json) (t : Option Json)
        → BeginsWith head.now h → Finds trace.now t → result ≡ heads.head_in h t }
{
    match fields_of(alloc, &said(head, trace, "event_fields")) {
        Ok(fields) => with_fields(fields, head, trace),
        Err(fault) => Err(fault),
    }
}

/// The head with these fields.
fn with_fields(
    fields: Fields,
    head: &Element<'_, '_>,
    trace: &Option<Element<'_, '_>>,
) -> Result<Head, NoHead>
    ensures { (h : Json) (t : Option Json) → BeginsWith head.now h → Finds trace.now t
        → result ≡ heads.with_fields h t fields }
{
    match form_of(&fields, head, trace) {
        Ok(form) => with_form(fields, form, head, trace),
        Err(fault) => Err(fault),
    }
}

/// The head with these fields and this form of time.
fn with_form(
    fields: Fields,
    form: TimeForm,
    head: &Element<'_, '_>,
    trace: &Option<Element<'_, '_>>,
) -> Result<Head, NoHead>
    ensures { (h : Json) (t : Option Json) → BeginsWith head.now h → Finds trace.now t
        → result ≡ heads.with_form h t fields form }
{
    match unit_of(head, trace) {
        Ok(unit) => Ok(Head {
            fields,
            form,
            unit,
            role: role_of(head, trace),
        }),
        Err(fault) => Err(fault),
    }
}

/// What the head says at a key: what `trace` says counts for more.
fn said<'t, 'a>(
    head: &Element<'t, 'a>,
    trace: &Option<Element<'t, 'a>>,
    key: &str,
) -> Option<Element<'t, 'a>>
    ensures { (h : Json) (t : Option Json) → BeginsWith head.now h → Finds trace.now t
        → Finds result (heads.said key.now h t) }
{
    match key_at(trace, key) {
        Some(found) => Some(found),
        None => head.get(key),
    }
}

/// An object, or null, or nothing.
fn object_at<'t, 'a>(
    found: Option<Element<'t, 'a>>,
    fault: NoHead,
) -> Result<Option<Element<'t, 'a>>, NoHead>
    ensures { (o : Option Json) → Finds found.entry o
        → GivesObject result (heads.object_at fault o) }
{
    let Some(value) = found else {
        return Ok(None);
    };
    if value.is_null() {
        return Ok(None);
    }
    if is_object(&value) {
        Ok(Some(value))
    } else {
        Err(fault)
    }
}

/// The fields of records that are lists.
fn fields_of(alloc: Global, found: &Option<Element<'_, '_>>) -> Result<Fields, NoHead>
    ensures { result ≢ Err NoHead.OutOfMemory → (o : Option Json) → Finds found.now o
        → result ≡ heads.fields_of o }
{
    let Some(value) = found else {
        return Ok(Fields::none(alloc));
    };
    if !says(value) {
        return Ok(Fields::none(alloc));
    }
    let Some(items) = value.items() else {
        return Err(NoHead::EventFields);
    };
    match Fields::of(alloc, items) {
        Ok(fields) => Ok(fields),
        Err(_) => Err(NoHead::OutOfMemory),
    }
}

/// What times count from.
fn form_of(
    fields: &Fields,
    head: &Element<'_, '_>,
    trace: &Option<Element<'_, '_>>,
) -> Result<TimeForm, NoHead>
    ensures { (h : Json) (t : Option Json) → BeginsWith head.now h → Finds trace.now t
        → result ≡ heads.form_of fields.now h t }
{
    match object_at(said(head, trace, "common_fields"), NoHead::CommonFields) {
        Ok(common) => form_at(fields, &key_at(&common, "time_format")),
        Err(fault) => Err(fault),
    }
}

/// The form of time that is said, or else that of the fields.
fn form_at(fields: &Fields, found: &Option<Element<'_, '_>>) -> Result<TimeForm, NoHead>
    ensures { (o : Option Json) → Finds found.now o → result ≡ heads.form_at fields.now o }
{
    let Some(value) = found else {
        return Ok(fields.form());
    };
    if !says(value) {
        return Ok(fields.form());
    }
    let Some(text) = value.as_str() else {
        return Err(NoHead::TimeFormat);
    };
    TimeForm::named(text).ok_or(NoHead::TimeFormat)
}

/// What times count.
fn unit_of(head: &Element<'_, '_>, trace: &Option<Element<'_, '_>>) -> Result<Unit, NoHead>
    ensures { (h : Json) (t : Option Json) → BeginsWith head.now h → Finds trace.now t
        → result ≡ heads.unit_of h t }
{
    match object_at(said(head, trace, "configuration"), NoHead::Configuration) {
        Ok(configuration) => unit_at(&key_at(&configuration, "time_units")),
        Err(fault) => Err(fault),
    }
}

/// The unit that is said; milliseconds if none is.
fn unit_at(found: &Option<Element<'_, '_>>) -> Result<Unit, NoHead>
    ensures { (o : Option Json) → Finds found.now o → result ≡ heads.unit_at o }
{
    let Some(value) = found else {
        return Ok(Unit::Milliseconds);
    };
    let Some(text) = value.as_str() else {
        return Err(NoHead::TimeUnits);
    };
    Unit::named(text).ok_or(NoHead::TimeUnits)
}

/// The endpoint that wrote the log, if the log says it.
fn role_of(head: &Element<'_, '_>, trace: &Option<Element<'_, '_>>) -> Option<Role>
    ensures { (h : Json) (t : Option Json) → BeginsWith head.now h → Finds trace.now t
        → result ≡ heads.role_of h t }
{
    role_at(&said(head, trace, "vantage_point"))
}

/// The endpoint at a vantage point.
fn role_at(found: &Option<Element<'_, '_>>) -> Option<Role>
    ensures { (o : Option Json) → Finds found.now o → result ≡ heads.role_at o }
{
    match vantage_of(found) {
        Some(name) => Role::named(name),
        None => None,
    }
}

/// The name of a vantage point.
fn vantage_of<'a>(found: &Option<Element<'_, 'a>>) -> Option<&'a str>
    ensures { (o : Option Json) → Finds found.now o
        → option_map (λ s. s.now) result ≡ heads.vantage_of o }
{
    let Some(value) = found else {
        return None;
    };
    if is_object(value) {
        seen(text_at(&value.get("type")), text_at(&value.get("flow")))
    } else {
        value.as_str()
    }
}

/// The kind of a vantage point, or the flow that one in the network looks at.
fn seen<'a>(kind: Option<&'a str>, flow: Option<&'a str>) -> Option<&'a str>
    ensures { option_map (λ s. s.now) result
        ≡ heads.seen (option_map (λ s. s.now) kind.entry) (option_map (λ s. s.now) flow.entry) }
{
    if kind == Some("network") { flow } else { kind }
}
