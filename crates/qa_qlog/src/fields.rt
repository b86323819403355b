//! The fields that records have which are lists.
ghost use Rattle.std.specs.Prelude.{◌≡◌, List, [], IfOk};
ghost use Rattle.json.specs.Json.{Json};
ghost use Rattle.json.specs.Json as json;
ghost use Rattle.json.specs.Find.{BeginsWith, InItems, Finds, get_member};
ghost use Rattle.qa_qlog.specs.Heads as heads;
ghost use Rattle.qa_qlog.specs.Records as records;

use crate::heads::TimeForm;
use crate::says::get;
use json::{Element, Items};
use std::alloc::{AllocError, Global};
use std::marker::Model;

/// The fields of records that are lists, by the head of a log of the first drafts; none in others.
#[derive(Drop)]
pub struct Fields {
    names: Vec<String>,
}

impl Model for Fields {
    ghost use Rattle.std.specs.Prelude.{ℕ, List, map, string_bytes};

    ghost Value = { List (List ℕ) };

    ghost view = { λ f. map string_bytes f.names.items };
}

impl Fields {
    /// No fields. Takes no memory.
    pub(crate) fn none(alloc: Global) -> Fields
        ensures { result ≡ [] }
    {
        Fields {
            names: Vec::new(alloc),
        }
    }

    /// The names of these fields; one that is no string has the name of none.
    pub(crate) fn of(alloc: Global, items: Items<'_, '_>) -> Result<Fields, AllocError>
        ensures { IfOk result (λ fields. (js : json.Items) → InItems items.entry js
            → fields ≡ heads.names js) }
    {
        let mut items = items;
        let mut names = Vec::new(alloc);
        while let Some(item) = items.next() {
            let name = String::from_str(alloc, name_of(&item))?;
            names.push(name)?;
        }
        Ok(Fields { names })
    }

    /// The form of time that the first field names which names one.
    pub(crate) fn form(&self) -> TimeForm
        ensures { result ≡ heads.form_of_fields self.now }
    {
        for name in &self.names {
            if let Some(form) = TimeForm::named(name.as_str()) {
                return form;
            }
        }
        TimeForm::Absolute
    }

    /// What a record says at a key.
    pub(crate) fn at_key<'t, 'a>(
        &self,
        value: &Element<'t, 'a>,
        key: &str,
    ) -> Option<Element<'t, 'a>>
        ensures { (j : Json) → BeginsWith value.now j
            → Finds result (records.at_key self.now key.now j) }
    {
        if let Some(found) = get(value, key) {
            return Some(found);
        }
        match value.items() {
            Some(items) => self.in_list(items, key),
            None => None,
        }
    }

    /// What is at the place of the last field of this name.
    fn in_list<'t, 'a>(&self, items: Items<'t, 'a>, key: &str) -> Option<Element<'t, 'a>>
        ensures { (js : json.Items) → InItems items.entry js
            → Finds result (get_member key.now (records.zipped self.now js)) }
    {
        let mut items = items;
        let mut found = None;
        for name in &self.names {
            let Some(item) = items.next() else {
                return found;
            };
            if name.as_str() == key {
                found = Some(item);
            }
        }
        found
    }
}

/// The name of a field; of one that is no string that of none.
fn name_of<'a>(item: &Element<'_, 'a>) -> &'a str
    ensures { (j : Json) → BeginsWith item.now j → result.now ≡ heads.name_of j }
{
    item.as_str().unwrap_or("")
}
