//! What a record has of the parts of a packet, for logs that do not have its size.
ghost use Rattle.std.specs.Prelude.{◌≡◌, Option, option_map};
ghost use Rattle.json.specs.Json.{Json};
ghost use Rattle.json.specs.Find.{BeginsWith, Finds};
ghost use Rattle.qa_qlog.specs.Lengths as lengths;

use crate::keys::{Key, NoValue};
use crate::numbers::{optional_at, whole_or_zero};
use crate::packets::Packet;
use crate::records::written;
use crate::says::{get, is_object, key_at, says_at, text_at};
use json::Element;

impl<'t, 'a> Packet<'t, 'a> {
    /// How many bytes its frames have together, if the record says it.
    pub fn payload_length(&self) -> Result<Option<u64>, NoValue>
        ensures { (d : Option Json) → Finds self.now.object d → result ≡ lengths.payload d }
    {
        let raw = key_at(&self.object, "raw");
        optional_at(&key_at(&raw, "payload_length"), Key::PayloadLength)
    }

    /// The length of the packet that its header says, if it says one.
    pub fn header_length(&self) -> Result<Option<u64>, NoValue>
        ensures { (h d : Option Json) → Finds self.now.header h → Finds self.now.object d
            → result ≡ lengths.header h d }
    {
        optional_at(&self.in_header("length"), Key::HeaderLength)
    }

    /// The connection ID to which it goes, in hexadecimal digits.
    pub fn destination(&self) -> Option<&'a str>
        ensures { (h d : Option Json) → Finds self.now.header h → Finds self.now.object d
            → option_map (λ s. s.now) result ≡ lengths.destination h d }
    {
        text_at(&self.in_header("dcid"))
    }

    /// The connection ID from which it comes, in hexadecimal digits.
    pub fn source(&self) -> Option<&'a str>
        ensures { (h d : Option Json) → Finds self.now.header h → Finds self.now.object d
            → option_map (λ s. s.now) result ≡ lengths.source h d }
    {
        text_at(&self.in_header("scid"))
    }

    /// The token of an Initial packet, in hexadecimal digits.
    pub fn token(&self) -> Option<&'a str>
        ensures { (h d : Option Json) → Finds self.now.header h → Finds self.now.object d
            → option_map (λ s. s.now) result ≡ lengths.token h d }
    {
        let token = self.in_header("token");
        text_at(&inside(inside(token, "raw"), "data"))
    }
}

/// What an object has at a key; another value is it itself.
fn inside<'t, 'a>(found: Option<Element<'t, 'a>>, key: &str) -> Option<Element<'t, 'a>>
    ensures { (o : Option Json) → Finds found.entry o → Finds result (lengths.inside key.now o) }
{
    match found {
        Some(value) => {
            if is_object(&value) {
                get(&value, key)
            } else {
                Some(value)
            }
        }
        None => None,
    }
}

/// How many bytes a frame has, without the data of a CRYPTO or a STREAM frame, if it says it.
pub fn frame_length(frame: &Element<'_, '_>) -> Result<Option<u64>, NoValue>
    ensures { (j : Json) → BeginsWith frame.now j → result ≡ lengths.frame_length j }
{
    optional_at(&get(frame, "length"), Key::FrameLength)
}

/// How many bytes of data a CRYPTO or a STREAM frame has, if it says it.
pub fn data_length(frame: &Element<'_, '_>) -> Result<Option<u64>, NoValue>
    ensures { (j : Json) → BeginsWith frame.now j → result ≡ lengths.data_length j }
{
    optional_at(&get(frame, "payload_length"), Key::PayloadLength)
}

/// At which byte of its stream the data of a frame begin.
pub fn offset(frame: &Element<'_, '_>) -> Result<u64, NoValue>
    ensures { (j : Json) → BeginsWith frame.now j → result ≡ lengths.offset j }
{
    whole_or_zero(&get(frame, "offset"), Key::Offset)
}

/// The number of the stream of a frame, as the record writes it.
pub fn stream_id<'a>(frame: &Element<'_, 'a>) -> Option<&'a str>
    ensures { (j : Json) → BeginsWith frame.now j
        → option_map (λ s. s.now) result ≡ lengths.stream_id j }
{
    match get(frame, "stream_id") {
        Some(value) => Some(written(&value)),
        None => None,
    }
}

/// Whether a STREAM frame has no length, and so goes on to the end of its packet.
pub fn is_open(frame: &Element<'_, '_>) -> bool
    ensures { (j : Json) → BeginsWith frame.now j → result ≡ lengths.is_open j }
{
    is_false(&get(frame, "explicit_length")) && !says_at(&get(frame, "payload_length"))
}

/// Whether it is false, and not only says nothing.
fn is_false(found: &Option<Element<'_, '_>>) -> bool
    ensures { (o : Option Json) → Finds found.now o → result ≡ lengths.is_false o }
{
    match found {
        Some(value) => value.as_bool() == Some(false),
        None => false,
    }
}
