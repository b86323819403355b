//! What a record says of a packet: its type, its number and its size, wherever its draft has them.
ghost use Rattle.std.specs.Prelude.{◌≡◌, codes, Option};
ghost use Rattle.json.specs.Json.{Json};
ghost use Rattle.json.specs.Find.{Finds};
ghost use Rattle.qa_qlog.specs.Packets as packets;
ghost use Rattle.qa_qlog.specs.Says.{key_at as said_at};

use crate::keys::{Key, NoValue};
use crate::names::is_named;
use crate::numbers::{optional_at, whole_at};
use crate::records::object_only;
use crate::says::{get, is_given, key_at, says_at, text_at};
use json::Element;
use qa_base::Space;

/// The type of a packet.
#[derive(Clone, Copy, Debug, PartialEq, Eq)]
pub enum PacketType {
    /// Initial.
    Initial,
    /// Handshake.
    Handshake,
    /// 0-RTT.
    ZeroRtt,
    /// 1-RTT.
    OneRtt,
    /// Retry.
    Retry,
    /// Version Negotiation, a stateless reset, or whatever else is no packet of a space.
    Other,
}

impl PacketType {
    /// The type of this name in any draft.
    pub fn named(text: &str) -> PacketType
        ensures { result ≡ packets.type_named text.now }
    {
        if is_named(text, "initial") {
            PacketType::Initial
        } else if is_named(text, "handshake") {
            PacketType::Handshake
        } else if is_zero_rtt(text) {
            PacketType::ZeroRtt
        } else if is_one_rtt(text) {
            PacketType::OneRtt
        } else if is_named(text, "retry") {
            PacketType::Retry
        } else {
            PacketType::Other
        }
    }

    /// The packet number space of packets of this type, if they have numbers.
    pub fn space(self) -> Option<Space>
        ensures { result ≡ packets.space_of self }
    {
        match self {
            PacketType::Initial => Some(Space::Initial),
            PacketType::Handshake => Some(Space::Handshake),
            PacketType::ZeroRtt | PacketType::OneRtt => Some(Space::App),
            PacketType::Retry | PacketType::Other => None,
        }
    }
}

/// Whether a name is one of 0-RTT.
fn is_zero_rtt(text: &str) -> bool
    ensures { result ≡ packets.is_zero_rtt text.now }
{
    is_named(text, "0rtt") || is_named(text, "0-rtt") || is_named(text, "0_rtt")
}

/// Whether a name is one of 1-RTT.
fn is_one_rtt(text: &str) -> bool
    ensures { result ≡ packets.is_one_rtt text.now }
{
    is_named(text, "1rtt") || is_named(text, "1-rtt") || is_named(text, "1_rtt")
}

/// What a record says of a packet.
#[derive(Drop)]
pub struct Packet<'t, 'a> {
    /// The object of its header, if the record has one.
    pub header: Option<Element<'t, 'a>>,
    /// The data of the record; logs without headers have the keys of the header here.
    pub object: Option<Element<'t, 'a>>,
}

impl<'t, 'a> Packet<'t, 'a> {
    /// The packet of which this is the data.
    pub fn of(object: Option<Element<'t, 'a>>) -> Packet<'t, 'a>
        ensures { (d : Option Json) → Finds object.entry d → Finds result.object d
            × Finds result.header (packets.header_of d) }
    {
        let header = object_only(key_at(&object, "header"));
        Packet { header, object }
    }

    /// What the header says at a key.
    pub(crate) fn in_header(&self, key: &str) -> Option<Element<'t, 'a>>
        ensures { (h d : Option Json) → Finds self.now.header h → Finds self.now.object d
            → Finds result (packets.in_header h d key.now) }
    {
        match &self.header {
            Some(header) => get(header, key),
            None => key_at(&self.object, key),
        }
    }

    /// The type, if one is said.
    pub fn packet_type(&self) -> Option<PacketType>
        ensures { (h d : Option Json) → Finds self.now.header h → Finds self.now.object d
            → result ≡ packets.type_of h d }
    {
        let found = self.type_at();
        if says_at(&found) {
            Some(PacketType::named(text_at(&found).unwrap_or("")))
        } else {
            None
        }
    }

    /// What is said at the first of the keys for the type that says anything.
    fn type_at(&self) -> Option<Element<'t, 'a>>
        ensures { (h d : Option Json) → Finds self.now.header h → Finds self.now.object d
            → Finds result (packets.type_at h d) }
    {
        let found = self.in_header("packet_type");
        if says_at(&found) {
            return found;
        }
        let found = key_at(&self.object, "packet_type");
        if says_at(&found) {
            return found;
        }
        key_at(&self.object, "type")
    }

    /// The number.
    pub fn number(&self) -> Result<u64, NoValue>
        ensures { (h d : Option Json) → Finds self.now.header h → Finds self.now.object d
            → result ≡ packets.number h d }
    {
        let found = self.in_header("packet_number");
        if is_given(&found) {
            return whole_at(&found, Key::PacketNumber);
        }
        whole_at(&key_at(&self.object, "packet_number"), Key::PacketNumber)
    }

    /// The size of the whole packet in bytes, if it is said.
    pub fn size(&self) -> Result<Option<u64>, NoValue>
        ensures { (h d : Option Json) → Finds self.now.header h → Finds self.now.object d
            → result ≡ packets.size h d }
    {
        optional_at(&self.size_at(), Key::Length)
    }

    /// What is said at the first of the keys for the size that says anything; else at the first.
    fn size_at(&self) -> Option<Element<'t, 'a>>
        ensures { (h d : Option Json) → Finds self.now.header h → Finds self.now.object d
            → Finds result (packets.size_at h d) }
    {
        let length = key_at(&key_at(&self.object, "raw"), "length");
        if says_at(&length) {
            return length;
        }
        let found = self.in_header("packet_size");
        if says_at(&found) {
            return found;
        }
        let found = key_at(&self.object, "packet_size");
        if says_at(&found) { found } else { length }
    }
}
