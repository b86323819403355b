//! The traces of a log that is one object, and their records.
ghost use Rattle.json.specs.Json.{Json};
ghost use Rattle.json.specs.Find.{BeginsWith};
ghost use Rattle.qa_qlog.specs.Documents as documents;
ghost use Rattle.qa_qlog.specs.Lists.{GivesItems};

use crate::frames::objects_in;
use crate::keys::{Key, NoValue};
use json::{Element, Items};

/// The traces of a document, each an object. `head_in` reads the head of each.
pub fn traces_of<'t, 'a>(document: &Element<'t, 'a>) -> Result<Option<Items<'t, 'a>>, NoValue>
    ensures { (j : Json) → BeginsWith document.now j
        → GivesItems result (documents.traces j) }
{
    match document.get("traces") {
        Some(found) => objects_in(&found, Key::Traces),
        None => Err(NoValue::Missing(Key::Traces)),
    }
}

/// The records of a trace; None if it has no list of them.
pub fn records_of<'t, 'a>(trace: &Element<'t, 'a>) -> Result<Option<Items<'t, 'a>>, NoValue>
    ensures { (j : Json) → BeginsWith trace.now j → GivesItems result (documents.records j) }
{
    match trace.get("events") {
        Some(found) => items_in(&found),
        None => Ok(None),
    }
}

/// The items of the list that the records of a trace are.
fn items_in<'t, 'a>(value: &Element<'t, 'a>) -> Result<Option<Items<'t, 'a>>, NoValue>
    ensures { (j : Json) → BeginsWith value.now j
        → GivesItems result (documents.records_in j) }
{
    match value.items() {
        Some(items) => Ok(Some(items)),
        None => Err(NoValue::OtherKind(Key::Events)),
    }
}
