//! What a value of a text says.
ghost use Rattle.std.specs.Prelude.{◌≡◌, List, MatchOption, Option, None, Some, option_map};
ghost use Rattle.json.specs.Json.{Json};
ghost use Rattle.json.specs.Json as json;
ghost use Rattle.json.specs.Find as find;
ghost use Rattle.json.specs.Find.{BeginsWith, InMembers, Finds};
ghost use Rattle.std.specs.Str.{bytes_eq};
ghost use Rattle.qa_qlog.specs.Kinds.{is_string};
ghost use Rattle.qa_qlog.specs.Says as said;

use crate::times::is_nothing;
use json::{Element, Members};

/// Whether it says anything: null, false, 0 and what is empty do not.
pub(crate) fn says(value: &Element<'_, '_>) -> bool
    ensures { (j : Json) → BeginsWith value.now j → result ≡ said.says j }
{
    if let Some(text) = value.as_str() {
        return !text.is_empty();
    }
    if let Some(number) = value.as_number() {
        return !is_nothing(number.as_bytes());
    }
    if let Some(is_true) = value.as_bool() {
        return is_true;
    }
    has_any(value)
}

/// Whether it is a list with an item, or an object with a member.
fn has_any(value: &Element<'_, '_>) -> bool
    ensures { (j : Json) → BeginsWith value.now j → result ≡ said.has_any j }
{
    if let Some(mut items) = value.items() {
        return items.next().is_some();
    }
    match value.members() {
        Some(mut members) => members.next().is_some(),
        None => false,
    }
}

/// Whether there is a value that says anything.
pub(crate) fn says_at(found: &Option<Element<'_, '_>>) -> bool
    ensures { (o : Option Json) → Finds found.now o → result ≡ said.says_at o }
{
    match found {
        Some(value) => says(value),
        None => false,
    }
}

/// Whether there is a value other than null.
pub(crate) fn is_given(found: &Option<Element<'_, '_>>) -> bool
    ensures { (o : Option Json) → Finds found.now o → result ≡ said.is_given o }
{
    match found {
        Some(value) => !value.is_null(),
        None => false,
    }
}

/// Whether it is an object.
pub(crate) fn is_object(value: &Element<'_, '_>) -> bool
    ensures { (j : Json) → BeginsWith value.now j → result ≡ said.is_object j }
{
    value.members().is_some()
}

/// The text of a string, if one is there.
pub(crate) fn text_at<'a>(found: &Option<Element<'_, 'a>>) -> Option<&'a str>
    ensures { (o : Option Json) → Finds found.now o
        → option_map (λ s. s.now) result ≡ said.text_at o }
{
    match found {
        Some(value) => value.as_str(),
        None => None,
    }
}

/// What a value says at a key, if it is an object: its last member of that name.
///
/// Most keys have another length than the one that is looked for, and are passed over at once.
pub(crate) fn get<'t, 'a>(value: &Element<'t, 'a>, name: &str) -> Option<Element<'t, 'a>>
    ensures { (j : Json) → BeginsWith value.now j → Finds result (find.get name.now j) }
{
    let mut members = value.members()?;
    let mut found = None;
    while let Some((key, member)) = members.next() {
        if is_same(key, name) {
            found = Some(member);
        }
    }
    found
}

/// What an object says at four keys: of each the last member of that name.
#[derive(Drop)]
pub(crate) struct FourFound<'t, 'a> {
    pub(crate) first: Option<Element<'t, 'a>>,
    pub(crate) second: Option<Element<'t, 'a>>,
    pub(crate) third: Option<Element<'t, 'a>>,
    pub(crate) fourth: Option<Element<'t, 'a>>,
}

/// What is found at four keys of different names, if there is an object: it is walked through once.
#[inline(always)]
pub(crate) fn four_at<'t, 'a>(
    found: &Option<Element<'t, 'a>>,
    first: &str,
    second: &str,
    third: &str,
    fourth: &str,
) -> FourFound<'t, 'a>
    requires { said.AreFour first.now second.now third.now fourth.now }
    ensures { (o : Option Json) → Finds found.now o
        → said.FindsFour result (λ name. said.key_at name o)
        first.now second.now third.now fourth.now }
{
    match members_at(found) {
        Some(members) => four_in(members, first, second, third, fourth),
        None => FourFound {
            first: None,
            second: None,
            third: None,
            fourth: None,
        },
    }
}

/// The members of an object, if there is one.
fn members_at<'t, 'a>(found: &Option<Element<'t, 'a>>) -> Option<Members<'t, 'a>>
    ensures { (o : Option Json) → Finds found.now o
        → MatchOption result (said.object_at o ≡ None)
        (λ rest. (ms : json.Members) × (said.object_at o ≡ Some ms) × InMembers rest ms) }
{
    match found {
        Some(value) => value.members(),
        None => None,
    }
}

/// The last members of four different names.
#[inline(always)]
fn four_in<'t, 'a>(
    members: Members<'t, 'a>,
    first: &str,
    second: &str,
    third: &str,
    fourth: &str,
) -> FourFound<'t, 'a>
    requires { said.AreFour first.now second.now third.now fourth.now }
    ensures { (ms : json.Members) → InMembers members.entry ms
        → said.FindsFour result (λ name. find.get_member name ms)
        first.now second.now third.now fourth.now }
{
    let mut members = members;
    let mut at_first = None;
    let mut at_second = None;
    let mut at_third = None;
    let mut at_fourth = None;
    while let Some((key, member)) = members.next() {
        if is_same(key, first) {
            at_first = Some(member);
        } else if is_same(key, second) {
            at_second = Some(member);
        } else if is_same(key, third) {
            at_third = Some(member);
        } else if is_same(key, fourth) {
            at_fourth = Some(member);
        }
    }
    FourFound {
        first: at_first,
        second: at_second,
        third: at_third,
        fourth: at_fourth,
    }
}

/// Whether two texts are the same.
#[inline(always)]
fn is_same(here: &str, there: &str) -> bool
    ensures { result ≡ bytes_eq here.now there.now }
{
    here.len() == there.len() && here == there
}

/// What an object says at a key, if there is an object.
pub(crate) fn key_at<'t, 'a>(found: &Option<Element<'t, 'a>>, key: &str) -> Option<Element<'t, 'a>>
    ensures { (o : Option Json) → Finds found.now o → Finds result (said.key_at key.now o) }
{
    match found {
        Some(value) => get(value, key),
        None => None,
    }
}

/// Whether it is a string of this text.
pub(crate) fn is_text(found: &Option<Element<'_, '_>>, text: &str) -> bool
    ensures { (o : Option Json) → Finds found.now o → result ≡ is_string text.now o }
{
    match text_at(found) {
        Some(said) => said == text,
        None => false,
    }
}
