//! What a log says of a packet, so that it can be kept once its record is gone.
ghost use Rattle.std.specs.Prelude.{◌≡◌, ◌++◌, ◌∷◌, [], Err, IfErr, IfOk, List, Ok, OnOk};
ghost use Rattle.std.specs.Prelude.{Option, map, true};
ghost use Rattle.json.specs.Json as json;
ghost use Rattle.json.specs.Json.{Json};
ghost use Rattle.json.specs.Find.{BeginsWith, Finds, InItems};
ghost use Rattle.qa_convert.specs.Faults.{IsAckFault, IsFaultAmong, IsFrameFault, IsNumberFault};
ghost use Rattle.qa_convert.specs.Faults.{IsPacketFault, IsSizeFault, OfValue};
ghost use Rattle.qa_convert.specs.Packets as packets;
ghost use Rattle.qa_convert.specs.Packets.{AreAcksOf, GivesPacket, IsAckOf, IsContentOf, Keeps};
ghost use Rattle.qa_convert.specs.declared.packet.LoggedAck.{LoggedAck as Kept};
ghost use Rattle.qa_qlog.specs.Frames as frames;
ghost use Rattle.qa_qlog.specs.Frames.{listed};
ghost use Rattle.qa_qlog.specs.Packets as said_packets;
ghost use Rattle.qa_qlog.specs.Packets.{header_of};

use crate::size::PacketSize;
use json::{Element, Items};
use qa_base::{PacketNumber, Space, Spans};
use qa_qlog::{
    Content, FrameType, Key, NoRanges, NoValue, Packet, Unit, ack_delay, acked_ranges, ce_count,
    frame_type, is_probe,
};
use std::alloc::{AllocError, Global};
use thiserror::Error;

/// Why a record gives no event.
#[derive(Clone, Copy, Debug, PartialEq, Eq, Error)]
pub enum NoEvent {
    /// It does not say what it has to.
    #[error("{0}")]
    Unread(NoValue),
    /// It is a lost packet of no type.
    #[error("no packet_type, so it does not say of which space the packet is")]
    NoPacketType,
    /// Out of memory.
    #[error("out of memory")]
    OutOfMemory,
}

impl From<NoValue> for NoEvent {
    ghost use Rattle.std.specs.Prelude.{◌≡◌};
    ghost use Rattle.qa_convert.specs.declared.packet.NoEvent.TheVariants as no_event;

    ghost from_gives = { λ fault result. result ≡ no_event.Unread fault };

    fn from(fault: NoValue) -> Self {
        NoEvent::Unread(fault)
    }
}

impl From<AllocError> for NoEvent {
    ghost use Rattle.std.specs.Prelude.{◌≡◌};
    ghost use Rattle.qa_convert.specs.declared.packet.NoEvent.TheVariants as no_event;

    ghost from_gives = { λ _ result. result ≡ no_event.OutOfMemory };

    fn from(_refused: AllocError) -> Self {
        NoEvent::OutOfMemory
    }
}

impl From<NoRanges> for NoEvent {
    ghost use Rattle.std.specs.Prelude.{◌≡◌};
    ghost use Rattle.qa_convert.specs.Faults.{of_ranges};

    ghost from_gives = { λ fault result. result ≡ of_ranges fault };

    fn from(fault: NoRanges) -> Self {
        match fault {
            NoRanges::Unread(fault) => NoEvent::Unread(fault),
            NoRanges::OutOfMemory => NoEvent::OutOfMemory,
        }
    }
}

/// An ACK frame.
#[derive(Drop)]
pub struct LoggedAck {
    /// The ranges, in the order of the frame.
    pub ranges: Spans,
    /// The delay in nanoseconds, not shifted.
    pub delay: u64,
    /// Whether it reports packets marked by ECN-CE.
    pub has_marks: bool,
}

/// A packet of a packet number space.
#[derive(Drop)]
pub struct LoggedPacket {
    /// Its space.
    pub space: Space,
    /// Its number.
    pub number: PacketNumber,
    /// Its size, if the log has it, or something else that it has says it.
    pub size: Option<PacketSize>,
    /// Whether something else said it.
    pub is_size_guessed: bool,
    /// Whether it leaves a byte free that was kept for a PING (see `Sizes`).
    pub keeps_room: bool,
    /// What its frames make of it.
    pub content: Content,
    /// Whether it says that a probe timeout sent it.
    pub is_probe: bool,
    /// Its ACK frames.
    pub acks: Vec<LoggedAck>,
}

impl LoggedPacket {
    /// What a record says of its packet; None if that is of no space. Durations have this unit.
    pub fn of(
        alloc: Global,
        packet: &Packet<'_, '_>,
        unit: Unit,
    ) -> Result<Option<LoggedPacket>, NoEvent>
        ensures gives { (d : Option Json) → Finds packet.now.object d
            → Finds packet.now.header (header_of d) → IfOk result (GivesPacket unit d) }
        ensures fault { (d : Option Json) → Finds packet.now.object d
            → Finds packet.now.header (header_of d)
            → IfErr result (OfValue (IsPacketFault unit d)) }
    {
        let Some(space) = space_of(packet) else {
            return Ok(None);
        };
        let number = number_of(packet)?;
        let size = size_of(packet)?;
        let content = content_of(packet)?;
        let acks = acks_of(alloc, packet, content, unit)?;
        Ok(Some(LoggedPacket {
            space,
            number,
            size,
            is_size_guessed: false,
            keeps_room: false,
            content,
            is_probe: is_probe(&packet.object),
            acks,
        }))
    }
}

/// The packet number space of a packet, if it has one.
pub(crate) fn space_of(packet: &Packet<'_, '_>) -> Option<Space>
    ensures { (h d : Option Json) → Finds packet.now.header h → Finds packet.now.object d
        → result ≡ packets.space_of h d }
{
    match packet.packet_type() {
        Some(kind) => kind.space(),
        None => None,
    }
}

/// The number of a packet.
pub(crate) fn number_of(packet: &Packet<'_, '_>) -> Result<PacketNumber, NoValue>
    ensures gives { (h d : Option Json) → Finds packet.now.header h → Finds packet.now.object d
        → IfOk result (λ number. said_packets.number h d ≡ Ok number) }
    ensures fault { (h d : Option Json) → Finds packet.now.header h → Finds packet.now.object d
        → IfErr result (IsNumberFault h d) }
{
    let number = packet.number()?;
    PacketNumber::new(number).ok_or(NoValue::OutOfRange(Key::PacketNumber))
}

/// The size of a packet, if its record has it.
fn size_of(packet: &Packet<'_, '_>) -> Result<Option<PacketSize>, NoValue>
    ensures gives { (h d : Option Json) → Finds packet.now.header h → Finds packet.now.object d
        → IfOk result (λ size. said_packets.size h d ≡ Ok size) }
    ensures fault { (h d : Option Json) → Finds packet.now.header h → Finds packet.now.object d
        → IfErr result (IsSizeFault h d) }
{
    match packet.size()? {
        None => Ok(None),
        Some(bytes) => match PacketSize::new(bytes) {
            Some(size) => Ok(Some(size)),
            None => Err(NoValue::OutOfRange(Key::Length)),
        },
    }
}

/// What its frames make of a packet.
fn content_of(packet: &Packet<'_, '_>) -> Result<Content, NoValue>
    ensures gives { (d : Option Json) → Finds packet.now.object d
        → IfOk result (IsContentOf d) }
    ensures fault { (d : Option Json) → Finds packet.now.object d
        → IfErr result (λ fault. frames.frames d ≡ Err fault) }
{
    match packet.frames()? {
        Some(frames) => Ok(Content::of(frames)),
        None => Ok(Content::none()),
    }
}

/// The ACK frames of a packet, of whose frames this is the content.
fn acks_of(
    alloc: Global,
    packet: &Packet<'_, '_>,
    content: Content,
    unit: Unit,
) -> Result<Vec<LoggedAck>, NoEvent>
    ensures gives { (d : Option Json) → Finds packet.now.object d → IsContentOf d content
        → IfOk result (λ acks. (js : List Json) × (frames.frames d ≡ Ok js)
        × AreAcksOf unit js acks.items) }
    ensures fault { (d : Option Json) → Finds packet.now.object d
        → IfErr result (OfValue (IsFrameFault unit d)) }
{
    if !content.has_ack {
        return Ok(Vec::new(alloc));
    }
    match packet.frames()? {
        Some(frames) => acks_among(alloc, frames, unit),
        None => Ok(Vec::new(alloc)),
    }
}

/// The ACK frames among frames.
fn acks_among(alloc: Global, frames: Items<'_, '_>, unit: Unit) -> Result<Vec<LoggedAck>, NoEvent>
    ensures gives { (js : json.Items) → InItems frames.entry js
        → IfOk result (λ acks. AreAcksOf unit (listed js) acks.items) }
    ensures fault { (js : json.Items) → InItems frames.entry js
        → IfErr result (OfValue (IsFaultAmong unit (listed js))) }
{
    let mut frames = frames;
    let mut acks = Vec::new(alloc);
    while let Some(frame) = frames.next() {
        keep(alloc, &frame, unit, &mut acks)?;
    }
    Ok(acks)
}

/// Adds a frame to the ACK frames, if it is one.
fn keep(
    alloc: Global,
    frame: &Element<'_, '_>,
    unit: Unit,
    acks: &mut Vec<LoggedAck>,
) -> Result<(), NoEvent>
    ensures gives { (j : Json) → BeginsWith frame.now j → OnOk result ((kept : List Kept)
        × (acks.new.items ≡ acks.old.items ++ kept) × Keeps unit j kept) }
    ensures fault { (j : Json) → BeginsWith frame.now j → IfErr result (OfValue (λ fault.
        (packets.is_ack (frames.type_of j) ≡ true) × IsAckFault unit j fault)) }
{
    if is_ack(frame) {
        let ack = ack_of(alloc, frame, unit)?;
        push(acks, ack)?;
    }
    Ok(())
}

/// Whether a frame is an ACK frame.
fn is_ack(frame: &Element<'_, '_>) -> bool
    ensures { (j : Json) → BeginsWith frame.now j → result ≡ packets.is_ack (frames.type_of j) }
{
    matches!(frame_type(frame), FrameType::Ack)
}

/// Adds an ACK frame behind the others.
fn push(acks: &mut Vec<LoggedAck>, ack: LoggedAck) -> Result<(), AllocError>
    ensures { OnOk result (acks.new.items ≡ acks.old.items ++ ack ∷ []) }
{
    acks.push(ack)?;
    Ok(())
}

/// What an ACK frame says.
fn ack_of(alloc: Global, frame: &Element<'_, '_>, unit: Unit) -> Result<LoggedAck, NoEvent>
    ensures gives { (j : Json) → BeginsWith frame.now j → IfOk result (IsAckOf unit j) }
    ensures fault { (j : Json) → BeginsWith frame.now j
        → IfErr result (OfValue (IsAckFault unit j)) }
{
    Ok(LoggedAck {
        ranges: acked_ranges(alloc, frame)?,
        delay: ack_delay(frame, unit, 0)?,
        has_marks: 0 < ce_count(frame)?,
    })
}
