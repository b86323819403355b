//! The keys that a line has beside those of its table.
ghost use Rattle.std.specs.Prelude.{◌≡◌, IfOk, OnErr, OnOk, map, nat_lt, not, true};
ghost use Rattle.std.specs.List.{AllByRecursion, list_any};
ghost use Rattle.serde_json.specs.Data.{Data, array, put, string};
ghost use Rattle.serde_json.specs.View.{members_view, view};
ghost use Rattle.qa_convert.specs.OwnKeys.{AreOwn, IsText, own_key_name};
ghost use Rattle.qa_format.specs.format.Simple.{IsKept, is_ascii};
ghost use Rattle.qa_format.specs.format.Written.{integer_pairs};

use qa_base::Spans;
use qa_write::ranges_list;
use serde_json::{Map, Value};
use std::alloc::{AllocError, Global};

/// A key that no reader of traces knows.
#[derive(Clone, Copy, PartialEq, Eq)]
pub enum OwnKey {
    /// By which rules the log was read.
    Dialect,
    /// The numbers of packets that left the bytes in flight, though no record says so.
    Forgot,
    /// What the line says and the log does not.
    Guess,
    /// What a reader of a refusal has to know of the whole log.
    Note,
    /// Where in the log the record is from which the line is.
    Place,
    /// The space of those that left the bytes in flight.
    Space,
}

impl OwnKey {
    /// Its name in a line.
    pub fn name(self) -> &'static str
        ensures { result.now ≡ own_key_name self }
    {
        match self {
            OwnKey::Dialect => "x_dialect",
            OwnKey::Forgot => "x_forgot",
            OwnKey::Guess => "x_guess",
            OwnKey::Note => "x_note",
            OwnKey::Place => "x_place",
            OwnKey::Space => "x_space",
        }
    }
}

/// The own keys of a line, with their values.
pub type OwnKeys = Map<String, Value>;

/// Puts a text of ASCII at a key. `AllocError` comes if it is out of memory, and leaves the keys as
/// they were.
pub fn put_text(
    keys: &mut OwnKeys,
    alloc: Global,
    key: OwnKey,
    text: &str,
) -> Result<(), AllocError>
    requires ascii { is_ascii text.now ≡ true }
    requires own { AreOwn (members_view keys.old.entries) }
    ensures ok { OnOk result (members_view keys.new.entries
        ≡ put (own_key_name key) (string text.now) (members_view keys.old.entries)) }
    ensures err { OnErr result (keys.new.entries ≡ keys.old.entries) }
    ensures own { AreOwn (members_view keys.new.entries) }
{
    let value = Value::try_from_str(alloc, text)?;
    serde_json::put(keys, alloc, key.name(), value)
}

/// Puts a list of ranges at a key. `AllocError` comes if it is out of memory, and leaves the keys
/// as they were.
pub fn put_ranges(
    keys: &mut OwnKeys,
    alloc: Global,
    key: OwnKey,
    ranges: &Spans,
) -> Result<(), AllocError>
    requires own { AreOwn (members_view keys.old.entries) }
    ensures ok { OnOk result (members_view keys.new.entries
        ≡ put (own_key_name key) (array (integer_pairs ranges.now))
        (members_view keys.old.entries)) }
    ensures err { OnErr result (keys.new.entries ≡ keys.old.entries) }
    ensures own { AreOwn (members_view keys.new.entries) }
{
    let list = ranges_list(alloc, ranges)?;
    serde_json::put(keys, alloc, key.name(), list)
}

/// Puts a text at a key, if it is ASCII. `AllocError` comes if it is out of memory, and leaves the
/// keys as they were.
pub(crate) fn put_if_ascii(
    keys: &mut OwnKeys,
    alloc: Global,
    key: OwnKey,
    text: &str,
) -> Result<(), AllocError>
    requires own { AreOwn (members_view keys.old.entries) }
    ensures own { AreOwn (members_view keys.new.entries) }
{
    if is_all_ascii(text) {
        put_text(keys, alloc, key, text)
    } else {
        Ok(())
    }
}

/// Puts a list of texts at a key, of those that are ASCII. `AllocError` comes if it is out of
/// memory, and leaves the keys as they were.
pub(crate) fn put_texts(
    keys: &mut OwnKeys,
    alloc: Global,
    key: OwnKey,
    texts: &[String],
) -> Result<(), AllocError>
    requires own { AreOwn (members_view keys.old.entries) }
    ensures ok { OnOk result ((list : Data) × (members_view keys.new.entries
        ≡ put (own_key_name key) list (members_view keys.old.entries))) }
    ensures own { AreOwn (members_view keys.new.entries) }
{
    let list = list_of(alloc, texts)?;
    serde_json::put(keys, alloc, key.name(), list)
}

/// The list of those texts that are ASCII.
fn list_of(alloc: Global, texts: &[String]) -> Result<Value, AllocError>
    ensures { IfOk result (λ list. IsKept (view list)) }
{
    let mut list = Vec::new(alloc);
    for text in texts {
        push_if_ascii(alloc, text.as_str(), &mut list)?;
    }
    Ok(Value::Array(list))
}

/// Appends a text, if it is ASCII.
fn push_if_ascii(alloc: Global, text: &str, list: &mut Vec<Value>) -> Result<(), AllocError>
    ensures { AllByRecursion IsText (map view list.old.items)
        → OnOk result (AllByRecursion IsText (map view list.new.items)) }
{
    if is_all_ascii(text) {
        list.push(Value::try_from_str(alloc, text)?)?;
    }
    Ok(())
}

/// Whether a text is ASCII.
#[tactic(auto, using(crate::proofs::Ascii::none_above))]
fn is_all_ascii(text: &str) -> bool
    ensures { result ≡ is_ascii text.now }
{
    !has_other(text.as_bytes())
}

/// Whether some byte is not one of ASCII.
fn has_other(bytes: &[u8]) -> bool
    ensures { result ≡ list_any (λ b. not (nat_lt b 128)) bytes.now }
{
    bytes.iter().any(|byte| is_other(*byte))
}

/// Whether a byte is not one of ASCII.
fn is_other(byte: u8) -> bool
    ensures { result ≡ not (nat_lt byte 128) }
{
    !(byte < 128)
}
