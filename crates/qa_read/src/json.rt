//! The bytes of a line as JSON.
ghost use Rattle.std.specs.Prelude.{◌≡◌, true, IsErrOf};
ghost use Rattle.std.specs.List.{list_all};
ghost use Rattle.std.specs.Str.{is_utf8};
ghost use Rattle.serde_json.specs.View.{view};
ghost use Rattle.qa_format.specs.format.Reading as reading;
ghost use Rattle.qa_read.specs.Gives.{Gives};

use crate::fault::LineFault;
use qa_fast_reader::flat_object;
use qa_format::Fault;
use serde_json::Value;
use std::alloc::Global;

/// Whether a line has no byte but spaces, tabs and carriage returns.
pub fn is_blank(bytes: &[u8]) -> bool
    ensures { result ≡ list_all reading.is_blank bytes.now }
{
    bytes
        .iter()
        .all(|b| *b == b' ' || *b == b'\t' || *b == b'\r')
}

/// The JSON value that the bytes are. `Fault::NotJson` where they are none or are not UTF-8.
pub fn json_of(alloc: Global, bytes: &[u8]) -> Result<Value, LineFault>
    ensures read { Gives view result (reading.json_of bytes.now) }
    ensures memory { IsErrOf result LineFault.OutOfMemory → is_utf8 bytes.now ≡ true }
{
    if let Some(value) = flat_object(alloc, bytes) {
        return Ok(value);
    }
    parsed(alloc, bytes)
}

/// The same by the reader of `serde_json`. It stands apart, so that a value that is read without it
/// does not pay for its table.
#[inline(never)]
#[tactic(auto, unfolding(qa_format::specs::format::Reading::json_of))]
fn parsed(alloc: Global, bytes: &[u8]) -> Result<Value, LineFault>
    ensures read { Gives view result (reading.json_of bytes.now) }
    ensures memory { IsErrOf result LineFault.OutOfMemory → is_utf8 bytes.now ≡ true }
{
    let Ok(text) = str::from_utf8(bytes) else {
        return Err(LineFault::Fault(Fault::NotJson));
    };
    match Value::from_str(alloc, text) {
        Ok(value) => Ok(value),
        Err(e) => Err(if e.is_memory() {
            LineFault::OutOfMemory
        } else {
            LineFault::Fault(Fault::NotJson)
        }),
    }
}
