//! The frames of a packet, and what they make of it.
ghost use Rattle.std.specs.Prelude.{◌≡◌, List, [], ◌∷◌, map, Option};
ghost use Rattle.std.specs.List.{list_all};
ghost use Rattle.json.specs.Json.{Json};
ghost use Rattle.json.specs.Json as json;
ghost use Rattle.json.specs.Find.{BeginsWith, InItems, Finds};
ghost use Rattle.qa_qlog.specs.Frames as frames;
ghost use Rattle.qa_qlog.specs.Lists.{GivesItems};
ghost use Rattle.qa_qlog.specs.Names.{type_in};
ghost use Rattle.qa_qlog.specs.Says as said;

use crate::keys::{Key, NoValue};
use crate::names::is_named;
use crate::packets::Packet;
use crate::says::{get, is_object, key_at, says, says_at, text_at};
use json::{Element, Items};

/// The types of frames by which packets differ.
#[derive(Clone, Copy, Debug, PartialEq, Eq)]
pub enum FrameType {
    /// ACK, with ECN counts or without.
    Ack,
    /// PADDING.
    Padding,
    /// PING.
    Ping,
    /// CRYPTO.
    Crypto,
    /// STREAM.
    Stream,
    /// CONNECTION_CLOSE; that of an application too, in drafts with one name for both.
    ConnectionClose,
    /// CONNECTION_CLOSE of an application, in drafts with two names.
    ApplicationClose,
    /// HANDSHAKE_DONE.
    HandshakeDone,
    /// ACK_FREQUENCY (draft-ietf-quic-ack-frequency).
    AckFrequency,
    /// Any other.
    Other,
}

impl FrameType {
    /// The type of this name in any draft.
    pub fn named(text: &str) -> FrameType
        ensures { result ≡ frames.type_named text.now }
    {
        quiet(text).or(eliciting(text)).unwrap_or(FrameType::Other)
    }

    /// Whether a packet with such a frame is ack-eliciting (RFC 9002, section 2).
    pub fn is_eliciting(self) -> bool
        ensures { result ≡ frames.is_eliciting self }
    {
        match self {
            FrameType::Ack
            | FrameType::Padding
            | FrameType::ConnectionClose
            | FrameType::ApplicationClose => false,
            _ => true,
        }
    }
}

/// The type of this name that elicits no acknowledgment.
fn quiet(text: &str) -> Option<FrameType>
    ensures { result ≡ type_in frames.quiet text.now }
{
    if is_named(text, "ack") {
        Some(FrameType::Ack)
    } else if is_named(text, "ack_ecn") {
        Some(FrameType::Ack)
    } else if is_named(text, "padding") {
        Some(FrameType::Padding)
    } else if is_named(text, "connection_close") {
        Some(FrameType::ConnectionClose)
    } else if is_named(text, "application_close") {
        Some(FrameType::ApplicationClose)
    } else {
        None
    }
}

/// The type of this name that elicits acknowledgments.
fn eliciting(text: &str) -> Option<FrameType>
    ensures { result ≡ type_in frames.eliciting text.now }
{
    if is_named(text, "ping") {
        Some(FrameType::Ping)
    } else if is_named(text, "crypto") {
        Some(FrameType::Crypto)
    } else if is_named(text, "stream") {
        Some(FrameType::Stream)
    } else if is_named(text, "handshake_done") {
        Some(FrameType::HandshakeDone)
    } else if is_named(text, "ack_frequency") {
        Some(FrameType::AckFrequency)
    } else {
        None
    }
}

/// The type of a frame.
pub fn frame_type(frame: &Element<'_, '_>) -> FrameType
    ensures { (j : Json) → BeginsWith frame.now j → result ≡ frames.type_of j }
{
    FrameType::named(text_at(&type_at(frame)).unwrap_or(""))
}

/// What is said at the first of the keys for the type of a frame that says anything.
fn type_at<'t, 'a>(frame: &Element<'t, 'a>) -> Option<Element<'t, 'a>>
    ensures { (j : Json) → BeginsWith frame.now j → Finds result (frames.type_at j) }
{
    let found = get(frame, "frame_type");
    if says_at(&found) {
        return found;
    }
    get(frame, "type")
}

impl<'t, 'a> Packet<'t, 'a> {
    /// The frames, each an object; None if the record has none.
    pub fn frames(&self) -> Result<Option<Items<'t, 'a>>, NoValue>
        ensures { (d : Option Json) → Finds self.now.object d
            → GivesItems result (frames.frames d) }
    {
        let Some(value) = key_at(&self.object, "frames") else {
            return Ok(None);
        };
        if !says(&value) {
            return Ok(None);
        }
        objects_in(&value, Key::Frames)
    }

    /// Whether the record has a list of frames, also if it is empty or no list.
    pub fn has_frames(&self) -> bool
        ensures { (d : Option Json) → Finds self.now.object d → result ≡ frames.has_frames d }
    {
        key_at(&self.object, "frames").is_some()
    }
}

/// The items of the list that a value is, each an object.
pub(crate) fn objects_in<'t, 'a>(
    value: &Element<'t, 'a>,
    key: Key,
) -> Result<Option<Items<'t, 'a>>, NoValue>
    ensures { (j : Json) → BeginsWith value.now j
        → GivesItems result (frames.objects_in key j) }
{
    let Some(items) = value.items() else {
        return Err(NoValue::OtherKind(key));
    };
    if are_objects(items) {
        Ok(value.items())
    } else {
        Err(NoValue::OtherKind(key))
    }
}

/// Whether all items are objects.
fn are_objects(items: Items<'_, '_>) -> bool
    ensures { (js : json.Items) → InItems items.entry js
        → result ≡ list_all said.is_object (frames.listed js) }
{
    let mut items = items;
    while let Some(item) = items.next() {
        if !is_object(&item) {
            return false;
        }
    }
    true
}

/// What the frames of a packet make of it.
#[derive(Clone, Copy, Debug, PartialEq, Eq)]
pub struct Content {
    /// Whether it is ack-eliciting (RFC 9002, section 2).
    pub is_eliciting: bool,
    /// Whether it has an ACK frame.
    pub has_ack: bool,
    /// Whether it has a PADDING frame, and so is in flight.
    pub has_padding: bool,
    /// Whether it has a PING frame.
    pub has_ping: bool,
    /// Whether it has a CRYPTO frame.
    pub has_crypto: bool,
    /// Whether it has a CONNECTION_CLOSE frame.
    pub closes: bool,
    /// Whether it has a HANDSHAKE_DONE frame.
    pub has_handshake_done: bool,
    /// Whether it has an ACK_FREQUENCY frame.
    pub has_ack_frequency: bool,
}

impl Content {
    /// That of a packet with no frames.
    pub fn none() -> Content
        ensures { result ≡ frames.content [] }
    {
        Content {
            is_eliciting: false,
            has_ack: false,
            has_padding: false,
            has_ping: false,
            has_crypto: false,
            closes: false,
            has_handshake_done: false,
            has_ack_frequency: false,
        }
    }

    /// That of a packet with these frames.
    pub fn of(items: Items<'_, '_>) -> Content
        ensures { (js : json.Items) → InItems items.entry js
            → result ≡ frames.content (map frames.type_of (frames.listed js)) }
    {
        let mut items = items;
        let mut content = Content::none();
        while let Some(frame) = items.next() {
            content = content.with(frame_type(&frame));
        }
        content
    }

    /// That of a packet with one frame more.
    fn with(self, kind: FrameType) -> Content
        ensures { result ≡ frames.joined self (frames.content (kind ∷ [])) }
    {
        Content {
            is_eliciting: self.is_eliciting | kind.is_eliciting(),
            has_ack: self.has_ack | (kind == FrameType::Ack),
            has_padding: self.has_padding | (kind == FrameType::Padding),
            has_ping: self.has_ping | (kind == FrameType::Ping),
            has_crypto: self.has_crypto | (kind == FrameType::Crypto),
            closes: self.closes | (kind == FrameType::ConnectionClose),
            has_handshake_done: self.has_handshake_done | (kind == FrameType::HandshakeDone),
            has_ack_frequency: self.has_ack_frequency | (kind == FrameType::AckFrequency),
        }
    }

    /// Whether it counts to the bytes in flight (RFC 9002, section 2).
    pub fn is_in_flight(self) -> bool
        ensures { result ≡ frames.is_in_flight self }
    {
        self.is_eliciting || self.has_padding
    }
}
