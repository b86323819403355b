//! The key `ranges`: a list of ranges of packet numbers.
//!
//! It is the one key whose value takes memory. Out of memory stands apart from the key's faults,
//! since these still have to be compared with those of the keys beside it.
ghost use Rattle.std.specs.Prelude.{◌≡◌, Some, None, IfOk, option_map, if◌then◌else◌};
ghost use Rattle.std.specs.List.{list_all};
ghost use Rattle.serde_json.specs.View.{view, items_view};
ghost use Rattle.qa_format.specs.format.Keys as keys;

use crate::fields;
use qa_base::{Key, PacketNumber, Span, Spans};
use qa_format::Fault;
use serde_json::Value;
use std::alloc::{AllocError, Global};

/// Two integers, where the value is a list of two.
fn pair_of(value: &Value) -> Option<(u64, u64)>
    ensures { result ≡ keys.pair_of (view value.now) }
{
    let [lo, hi] = value.as_array()?.as_slice() else {
        return None;
    };
    Some((lo.as_u64()?, hi.as_u64()?))
}

/// The pairs that the values are, or None where one is no pair of integers.
fn pairs_of(alloc: Global, values: &[Value]) -> Result<Option<Vec<(u64, u64)>>, AllocError>
    ensures { IfOk result (λ pairs. option_map (λ v. v.items) pairs
        ≡ keys.pairs_of (items_view values.now)) }
{
    let mut pairs = Vec::new(alloc);
    for value in values {
        let Some(pair) = pair_of(value) else {
            return Ok(None);
        };
        pairs.push(pair)?;
    }
    Ok(Some(pairs))
}

/// The range from the first number to the second, where it is one.
fn span_of(pair: (u64, u64)) -> Option<Span>
    ensures { result ≡ (if keys.is_range pair then Some pair else None) }
{
    Span::new(PacketNumber::new(pair.0)?, PacketNumber::new(pair.1)?)
}

/// The ranges that the pairs are, or None where one is no range.
fn spans_of(alloc: Global, pairs: &[(u64, u64)]) -> Result<Option<Spans>, AllocError>
    ensures { IfOk result (λ spans. spans
        ≡ (if list_all keys.is_range pairs.now then Some pairs.now else None)) }
{
    let mut spans = Spans::new(alloc);
    for pair in pairs {
        let Some(span) = span_of(*pair) else {
            return Ok(None);
        };
        spans.push(span)?;
    }
    Ok(Some(spans))
}

/// The ranges that a value is, in the order in which it has them, or its fault.
fn spans_in(alloc: Global, value: &Value) -> Result<Result<Spans, Fault>, AllocError>
    ensures { IfOk result (λ spans. spans ≡ keys.ranges Key.Ranges (view value.now)) }
{
    let Some(values) = value.as_array() else {
        return Ok(Err(Fault::WrongKind(Key::Ranges)));
    };
    let Some(pairs) = pairs_of(alloc, values.as_slice())? else {
        return Ok(Err(Fault::WrongKind(Key::Ranges)));
    };
    if pairs.is_empty() {
        return Ok(Err(Fault::OutOfRange(Key::Ranges)));
    }
    let spans = spans_of(alloc, pairs.as_slice())?;
    Ok(spans.ok_or(Fault::OutOfRange(Key::Ranges)))
}

/// The key `ranges`, or its fault. `AllocError` comes where it is out of memory.
pub fn ranges(alloc: Global, object: &Value) -> Result<Result<Spans, Fault>, AllocError>
    ensures { IfOk result (λ spans. spans
        ≡ keys.required keys.ranges Key.Ranges (view object.now)) }
{
    match fields::required_value(Key::Ranges, object) {
        Ok(value) => spans_in(alloc, value),
        Err(fault) => Ok(Err(fault)),
    }
}
