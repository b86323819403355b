//! The kind of a log, by what its head says of who wrote it.
ghost use Rattle.std.specs.Prelude.{◌≡◌, Option};
ghost use Rattle.json.specs.Find.{BeginsWith, Finds};
ghost use Rattle.json.specs.Json.{Json};
ghost use Rattle.qa_qlog.specs.Heads as heads;
ghost use Rattle.qa_qlog.specs.Says as says;
ghost use Rattle.qa_logs.specs.Heads.{IsDialectIn, name_of, schema_of, text_of};

use json::Element;
use qa_convert::{Dialect, dialect_of};

/// The kind of a log with this head, of which a trace says more.
pub(crate) fn dialect_in(head: &Element<'_, '_>, trace: &Option<Element<'_, '_>>) -> Dialect
    ensures { (h : Json) (t : Option Json) → BeginsWith head.now h → Finds trace.now t
        → IsDialectIn h t result }
{
    let texts = [
        text_of(said(head, trace, "title")),
        text_of(said(head, trace, "description")),
        text_of(name_of(said(head, trace, "vantage_point"))),
        text_of(said(head, trace, "code_version")),
    ];
    dialect_of(&texts, schema_in(head, trace))
}

/// The schema of its events, or if there is none the version of the log.
fn schema_in<'a>(head: &Element<'_, 'a>, trace: &Option<Element<'_, 'a>>) -> &'a str
    ensures { (h : Json) (t : Option Json) → BeginsWith head.now h → Finds trace.now t
        → result.now ≡ schema_of h t }
{
    let schema = text_of(said(head, trace, "file_schema"));
    if schema.is_empty() {
        text_of(said(head, trace, "qlog_version"))
    } else {
        schema
    }
}

/// What the head says at a key; what the trace says counts for more.
fn said<'t, 'a>(
    head: &Element<'t, 'a>,
    trace: &Option<Element<'t, 'a>>,
    key: &str,
) -> Option<Element<'t, 'a>>
    ensures { (h : Json) (t : Option Json) → BeginsWith head.now h → Finds trace.now t
        → Finds result (heads.said key.now h t) }
{
    match key_at(trace, key) {
        Some(found) => Some(found),
        None => head.get(key),
    }
}

/// What is at a key of a value, if there is one.
fn key_at<'t, 'a>(found: &Option<Element<'t, 'a>>, key: &str) -> Option<Element<'t, 'a>>
    ensures { (o : Option Json) → Finds found.now o → Finds result (says.key_at key.now o) }
{
    match found {
        Some(value) => value.get(key),
        None => None,
    }
}

/// The name at a vantage point, which the first drafts have as a string.
fn name_of<'t, 'a>(vantage: Option<Element<'t, 'a>>) -> Option<Element<'t, 'a>>
    ensures { (o : Option Json) → Finds vantage.entry o → Finds result (name_of o) }
{
    let vantage = vantage?;
    if vantage.members().is_some() {
        vantage.get("name")
    } else {
        Some(vantage)
    }
}

/// The text of a string; an empty one of anything else.
fn text_of<'a>(found: Option<Element<'_, 'a>>) -> &'a str
    ensures { (o : Option Json) → Finds found.entry o → result.now ≡ text_of o }
{
    match found {
        Some(value) => value.as_str().unwrap_or(""),
        None => "",
    }
}
