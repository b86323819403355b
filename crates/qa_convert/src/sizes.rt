//! Sizes of packets that were sent, for logs that do not have them.
//!
//! They are read off the headers and frames if each frame has its length. A STREAM frame that has
//! none fills its packet, unless the next data of its stream begins earlier. Of the last one of a
//! stream nothing says how long it is, so the least is taken.
use crate::packet::NoEvent;
use crate::size::PacketSize;
use json::Element;
use qa_base::Space;
use qa_qlog::{
    FrameType, Key, NoValue, Packet, data_length, frame_length, frame_type, is_open, offset,
    stream_id,
};
use std::alloc::{AllocError, Global};
use std::collections::BTreeMap;

/// Bytes of a packet number that is not known, of the tag of the encryption, and of a version.
const NUMBER: u64 = 4;

const TAG: u64 = 16;

const VERSION: u64 = 4;
/// A packet that has to be ack-eliciting keeps room for a PING until something else elicits.
const ROOM: u64 = 1;

/// The size of a packet, by its header and frames.
#[derive(Clone, Copy)]
pub(crate) struct FoundSize {
    pub(crate) size: PacketSize,
    /// Whether it ends one byte before the packet is full, since a PING had to have room.
    pub(crate) keeps_room: bool,
}

/// What the header and the frames of a packet say of its size.
#[derive(Drop)]
struct Framed<'t, 'a> {
    /// How many bytes it has, but for data without a length.
    bytes: u64,
    /// How many STREAM frames it has.
    streams: u64,
    /// The first frame with data that have no length, and whether there are others.
    open: Option<Element<'t, 'a>>,
    has_more: bool,
    /// Whether that is a STREAM frame.
    is_open_stream: bool,
}

impl<'t, 'a> Framed<'t, 'a> {
    /// Adds a frame of this type that has so many bytes, but for data without a length.
    fn add(&mut self, frame: Element<'t, 'a>, kind: FrameType, length: u64) {
        let is_stream = kind == FrameType::Stream;
        self.bytes = self.bytes.saturating_add(length);
        if is_stream {
            self.streams = self.streams.saturating_add(1);
        }
        if !is_open(&frame) {
            return;
        }
        if self.open.is_some() {
            self.has_more = true;
            return;
        }
        self.open = Some(frame);
        self.is_open_stream = is_stream;
    }

    /// Whether the first frame with data that have no length is the only STREAM frame.
    fn is_open_alone(&self) -> bool {
        self.is_open_stream && self.streams == 1
    }
}

/// What is known of a stream.
#[derive(Drop)]
struct Stream {
    /// The highest offset.
    highest: u64,
    /// How much data had room in the packet that has it.
    room: u64,
    /// By offset, the data of frames without a length that do not fill their packets.
    short: BTreeMap<u64, u64>,
}

/// Finds sizes.
#[derive(Drop)]
pub(crate) struct Sizes {
    alloc: Global,
    /// The size of a packet that is full.
    full: u64,
    /// The streams, by their numbers as the log writes them.
    streams: BTreeMap<String, Stream>,
}

impl Sizes {
    /// Before the first packet, if a full one has this size. Takes no memory.
    pub(crate) fn new(alloc: Global, full: u64) -> Sizes {
        Sizes {
            alloc,
            full,
            streams: BTreeMap::new(alloc),
        }
    }

    /// Looks at the offsets of a packet of this space that has no size, while the log is read for
    /// the first time, and finds its size.
    pub(crate) fn see(
        &mut self,
        packet: &Packet<'_, '_>,
        space: Space,
    ) -> Result<Option<FoundSize>, NoEvent> {
        let Some(framed) = size_by_frames(packet, space)? else {
            return Ok(size_by_payload(packet, space)?);
        };
        let room = self.full.saturating_sub(framed.bytes);
        match &framed.open {
            Some(frame) if framed.is_open_alone() => self.see_frame(frame, room)?,
            _ if framed.streams == 0 => {}
            _ => self.see_frames(packet, room)?,
        }
        Ok(Some(self.with_open_data(packet, &framed)?))
    }

    /// Looks at the offsets of the STREAM frames of a packet that has room for so much data.
    fn see_frames(&mut self, packet: &Packet<'_, '_>, room: u64) -> Result<(), NoEvent> {
        let Some(frames) = packet.frames()? else {
            return Ok(());
        };
        let mut frames = frames;
        while let Some(frame) = frames.next() {
            if frame_type(&frame) == FrameType::Stream {
                self.see_frame(&frame, room)?;
            }
        }
        Ok(())
    }

    /// Looks at the offset of a STREAM frame, in a packet that has room for so much data.
    fn see_frame(&mut self, frame: &Element<'_, '_>, room: u64) -> Result<(), NoEvent> {
        let offset = offset(frame)?;
        let name = stream_id(frame).unwrap_or("");
        match self.streams.get_mut(name) {
            Some(stream) => stream.see(offset, room)?,
            None => self.begin(name, offset, room)?,
        }
        Ok(())
    }

    /// The first frame of a stream.
    fn begin(&mut self, name: &str, offset: u64, room: u64) -> Result<(), AllocError> {
        let stream = Stream {
            highest: offset,
            room,
            short: BTreeMap::new(self.alloc),
        };
        self.streams
            .insert(String::from_str(self.alloc, name)?, stream)?;
        Ok(())
    }

    /// The size of a packet of this space that has none, if anything says it.
    pub(crate) fn find(
        &self,
        packet: &Packet<'_, '_>,
        space: Space,
    ) -> Result<Option<FoundSize>, NoEvent> {
        match size_by_frames(packet, space)? {
            Some(framed) => Ok(Some(self.with_open_data(packet, &framed)?)),
            None => Ok(size_by_payload(packet, space)?),
        }
    }

    /// The size of a packet, with the data of STREAM frames that have no length.
    fn with_open_data(
        &self,
        packet: &Packet<'_, '_>,
        framed: &Framed<'_, '_>,
    ) -> Result<FoundSize, NoValue> {
        let data = match &framed.open {
            None => 0,
            Some(frame) if !framed.has_more => self.data_of(frame, framed.bytes)?,
            Some(_) => self.open_data(packet, framed.bytes)?,
        };
        let bytes = framed.bytes.saturating_add(data);
        let keeps_room = framed.open.is_some() && bytes.saturating_add(ROOM) == self.full;
        Ok(FoundSize {
            size: ranged(bytes)?,
            keeps_room,
        })
    }

    /// The data of the STREAM frames without a length, in a packet of so many other bytes.
    fn open_data(&self, packet: &Packet<'_, '_>, bytes: u64) -> Result<u64, NoValue> {
        let Some(frames) = packet.frames()? else {
            return Ok(0);
        };
        let mut frames = frames;
        let mut data = 0u64;
        while let Some(frame) = frames.next() {
            if is_open(&frame) {
                data = data.saturating_add(self.data_of(&frame, bytes)?);
            }
        }
        Ok(data)
    }

    /// The data of a STREAM frame without a length, in a packet of so many other bytes.
    fn data_of(&self, frame: &Element<'_, '_>, size: u64) -> Result<u64, NoValue> {
        let room = self.full.saturating_sub(size);
        let offset = offset(frame)?;
        match self.streams.get(stream_id(frame).unwrap_or("")) {
            None => Ok(room),
            Some(stream) => Ok(stream.data_at(offset, room)),
        }
    }
}

impl Stream {
    /// Looks at the next offset: data in front of it that had more room does not fill its packet.
    fn see(&mut self, offset: u64, room: u64) -> Result<(), AllocError> {
        if offset <= self.highest {
            return Ok(());
        }
        let data = offset - self.highest;
        if data < self.room {
            self.short.insert(self.highest, data)?;
        }
        self.highest = offset;
        self.room = room;
        Ok(())
    }

    /// How much data is at an offset, with so much room.
    fn data_at(&self, offset: u64, room: u64) -> u64 {
        if offset == self.highest {
            return 0;
        }
        match self.short.get(&offset) {
            Some(data) => room.min(*data),
            None => room,
        }
    }
}

/// The size of a packet by its header and by frames of which each has a length.
fn size_by_frames<'t, 'a>(
    packet: &Packet<'t, 'a>,
    space: Space,
) -> Result<Option<Framed<'t, 'a>>, NoValue> {
    let Some(frames) = packet.frames()? else {
        return Ok(None);
    };
    let mut frames = frames;
    let mut is_empty = true;
    let mut framed = Framed {
        bytes: 0,
        streams: 0,
        open: None,
        has_more: false,
        is_open_stream: false,
    };
    while let Some(frame) = frames.next() {
        let kind = frame_type(&frame);
        let Some(length) = whole_length(&frame, kind)? else {
            return Ok(None);
        };
        is_empty = false;
        framed.add(frame, kind, length);
    }
    if is_empty {
        return Ok(None);
    }
    framed.bytes = size_with_header(packet, space, framed.bytes);
    Ok(Some(framed))
}

/// How many bytes a frame of this type has, but for data without a length.
fn whole_length(frame: &Element<'_, '_>, kind: FrameType) -> Result<Option<u64>, NoValue> {
    let Some(length) = frame_length(frame)? else {
        return Ok(None);
    };
    match kind {
        FrameType::Crypto | FrameType::Stream => match data_length(frame)? {
            Some(data) => Ok(Some(length.saturating_add(data))),
            None => Ok(None),
        },
        _ => Ok(Some(length)),
    }
}

/// The size by the length of the payload, or by what the header says.
fn size_by_payload(packet: &Packet<'_, '_>, space: Space) -> Result<Option<FoundSize>, NoValue> {
    if let Some(payload) = packet.payload_length()? {
        let size = ranged(size_with_header(packet, space, payload))?;
        return Ok(Some(FoundSize {
            size,
            keeps_room: false,
        }));
    }
    match packet.header_length()? {
        Some(length) => Ok(Some(FoundSize {
            size: ranged(length)?,
            keeps_room: false,
        })),
        None => Ok(None),
    }
}

/// A size, if a packet may have it.
fn ranged(bytes: u64) -> Result<PacketSize, NoValue> {
    PacketSize::new(bytes).ok_or(NoValue::OutOfRange(Key::Length))
}

/// The size of a packet of this space with so many bytes of frames (RFC 9000, section 17).
fn size_with_header(packet: &Packet<'_, '_>, space: Space, payload: u64) -> u64 {
    let destination = length_of_hex(packet.destination());
    let source = packet.source().unwrap_or("");
    let sealed = payload.saturating_add(NUMBER + TAG);
    if space == Space::App && source.is_empty() {
        return sealed.saturating_add(1).saturating_add(destination);
    }
    let ids = 1u64
        .saturating_add(destination)
        .saturating_add(1)
        .saturating_add(length_of_hex(Some(source)));
    let token = if space == Space::Initial {
        length_of_token(packet)
    } else {
        0
    };
    sealed
        .saturating_add(1 + VERSION)
        .saturating_add(ids)
        .saturating_add(length_of_varint(sealed))
        .saturating_add(token)
}

/// How many bytes the token of an Initial packet takes, with its length.
fn length_of_token(packet: &Packet<'_, '_>) -> u64 {
    let token = length_of_hex(packet.token());
    token.saturating_add(length_of_varint(token))
}

/// How many bytes an integer takes (RFC 9000, section 16).
fn length_of_varint(value: u64) -> u64 {
    if value < 1 << 6 {
        1
    } else if value < 1 << 14 {
        2
    } else if value < 1 << 30 {
        4
    } else {
        8
    }
}

/// How many bytes a text of hexadecimal digits stands for.
pub(crate) fn length_of_hex(text: Option<&str>) -> u64 {
    match text {
        Some(text) => text.len() as u64 / 2,
        None => 0,
    }
}
