//! What a file is, by its beginning.
ghost use Rattle.std.specs.Prelude.{◌≡◌, ◌≢◌, true, Err, Some, None};
ghost use Rattle.json.specs.Find.{BeginsWith};
ghost use Rattle.json.specs.Json.{Json, document};
ghost use Rattle.qa_qlog.specs.Kinds as kinds;
ghost use Rattle.qa_qlog.specs.Texts as texts;

use crate::texts::{MAX_TEXT_LENGTH, RECORD_SEPARATOR, is_white};
use json::{Element, Error as JsonError, Scratch, Tape};
use memchr::memchr;
use std::alloc::Global;
use thiserror::Error;

/// What a log is.
#[derive(Clone, Copy, Debug, PartialEq, Eq)]
pub enum Kind {
    /// Texts that begin with 0x1E each (RFC 7464).
    TextSequence,
    /// A text a line.
    Lines,
    /// One object, with a list of traces.
    Document,
    /// A log of Chromium's network stack.
    Netlog,
}

/// Why a file is no log that can be read.
#[derive(Clone, Copy, Debug, PartialEq, Eq, Error)]
pub enum NoLog {
    /// It has no bytes.
    #[error("empty")]
    Empty,
    /// Compressed by gzip.
    #[error("compressed by gzip: use zcat FILE | qlog-to-trace")]
    Gzip,
    /// Compressed by xz.
    #[error("compressed by xz: use xzcat FILE | qlog-to-trace")]
    Xz,
    /// Compressed by zstd.
    #[error("compressed by zstd: use zstdcat FILE | qlog-to-trace")]
    Zstd,
    /// Compressed by bzip2.
    #[error("compressed by bzip2: use bzcat FILE | qlog-to-trace")]
    Bzip2,
    /// A zip archive.
    #[error("a zip archive: unpack it first")]
    Zip,
    /// It begins with a byte order mark.
    #[error("it begins with a byte order mark, which JSON has not: take it off first")]
    ByteOrderMark,
    /// A capture of packets.
    #[error("a capture of packets and no log")]
    Capture,
    /// A trace in the format of this repository.
    #[error("this is already a trace, as qaudit reads it")]
    Trace,
    /// Out of memory.
    #[error("out of memory")]
    OutOfMemory,
}

/// What a file is that begins with these bytes: by its first line, of which no more than 1 MiB
/// counts.
///
/// Only a first line that is read as JSON takes memory.
pub fn kind_of(alloc: Global, beginning: &[u8]) -> Result<Kind, NoLog>
    ensures value { result ≢ Err NoLog.OutOfMemory → result ≡ kinds.kind_of beginning.now }
    ensures memory { result ≡ Err NoLog.OutOfMemory
        → kinds.is_read (kinds.marked kinds.marks beginning.now) beginning.now ≡ true }
{
    match marked(beginning) {
        Some(fault) => Err(fault),
        None => unmarked(alloc, beginning),
    }
}

/// What a file is that its first bytes do not show to be no log.
fn unmarked(alloc: Global, bytes: &[u8]) -> Result<Kind, NoLog>
    ensures value { result ≢ Err NoLog.OutOfMemory → result ≡ kinds.unmarked None bytes.now }
    ensures memory { result ≡ Err NoLog.OutOfMemory → kinds.is_read None bytes.now ≡ true }
{
    if bytes.is_empty() {
        return Err(NoLog::Empty);
    }
    if bytes[0] == RECORD_SEPARATOR {
        return Ok(Kind::TextSequence);
    }
    by_line(alloc, first_line(bytes))
}

/// What is no log by its first bytes.
fn marked(bytes: &[u8]) -> Option<NoLog>
    ensures value { result ≡ kinds.marked kinds.marks bytes.now }
    ensures never_memory { result ≢ Some NoLog.OutOfMemory }
{
    if bytes.starts_with(&[0x1F, 0x8B]) {
        Some(NoLog::Gzip)
    } else if bytes.starts_with(&[0xFD, b'7', b'z', b'X', b'Z', 0]) {
        Some(NoLog::Xz)
    } else if bytes.starts_with(&[0x28, 0xB5, 0x2F, 0xFD]) {
        Some(NoLog::Zstd)
    } else if bytes.starts_with(b"BZh") {
        Some(NoLog::Bzip2)
    } else if bytes.starts_with(b"PK\x03\x04") {
        Some(NoLog::Zip)
    } else if bytes.starts_with(&[0xEF, 0xBB, 0xBF]) {
        Some(NoLog::ByteOrderMark)
    } else if bytes.starts_with(&[0xD4, 0xC3, 0xB2, 0xA1]) {
        Some(NoLog::Capture)
    } else if bytes.starts_with(b"\n\r\r\n") {
        Some(NoLog::Capture)
    } else {
        None
    }
}

/// The first line with its LF, at most 1 MiB of it.
fn first_line(bytes: &[u8]) -> &[u8]
    ensures { result.now ≡ kinds.first_line bytes.now }
{
    let front = &bytes[..bytes.len().min(MAX_TEXT_LENGTH)];
    match memchr(b'\n', front) {
        Some(place) => &front[..place + 1],
        None => front,
    }
}

/// What a file is by its first line.
fn by_line(alloc: Global, line: &[u8]) -> Result<Kind, NoLog>
    ensures value { result ≢ Err NoLog.OutOfMemory → result ≡ kinds.by_line line.now }
    ensures memory { result ≡ Err NoLog.OutOfMemory → kinds.is_text line.now ≡ true }
{
    if is_netlog(line) {
        return Ok(Kind::Netlog);
    }
    match str::from_utf8(line) {
        Ok(text) => by_text(alloc, text),
        Err(_) => Ok(Kind::Document),
    }
}

/// Whether a line begins with an object whose first key is `constants`.
fn is_netlog(line: &[u8]) -> bool
    ensures { result ≡ kinds.is_netlog line.now }
{
    let object = after_white(line);
    object.starts_with(b"{") && after_white(&object[1..]).starts_with(b"\"constants\"")
}

/// What follows the white space at the front.
fn after_white(bytes: &[u8]) -> &[u8]
    ensures { result.now ≡ kinds.after_white bytes.now }
{
    for (i, byte) in bytes.iter().enumerate() {
        if !is_white(*byte) {
            return &bytes[i..];
        }
    }
    &[]
}

/// What a file is by the text of its first line.
fn by_text(alloc: Global, text: &str) -> Result<Kind, NoLog>
    ensures { result ≢ Err NoLog.OutOfMemory → result ≡ kinds.by_json (document text.now) }
{
    let mut scratch = Scratch::new(alloc);
    match Tape::parse(text, &mut scratch, Vec::new(alloc)) {
        Ok(tape) => by_value(&tape.root()),
        Err(JsonError::Invalid) => Ok(Kind::Document),
        Err(_) => Err(NoLog::OutOfMemory),
    }
}

/// What a file is by the value of its first line.
fn by_value(value: &Element<'_, '_>) -> Result<Kind, NoLog>
    ensures { (j : Json) → BeginsWith value.now j → result ≡ kinds.by_json (Some j) }
{
    if is_trace(value) {
        Err(NoLog::Trace)
    } else if is_header(value) {
        Ok(Kind::Lines)
    } else {
        Ok(Kind::Document)
    }
}

/// Whether it is the header of a trace.
fn is_trace(value: &Element<'_, '_>) -> bool
    ensures { (j : Json) → BeginsWith value.now j → result ≡ kinds.is_trace j }
{
    match value.get("event") {
        Some(event) => event.as_str() == Some("header"),
        None => false,
    }
}

/// Whether it is the header of a log with a text a line.
fn is_header(value: &Element<'_, '_>) -> bool
    ensures { (j : Json) → BeginsWith value.now j → result ≡ kinds.is_header j }
{
    if has(value, "traces") {
        return false;
    }
    if has(value, "trace") || has(value, "qlog_format") {
        return true;
    }
    has(value, "file_schema") || has(value, "serialization_format")
}

/// Whether it is an object with this key.
#[tactic(auto, unfolding(crate::specs::Kinds::has))]
fn has(value: &Element<'_, '_>, key: &str) -> bool
    ensures { (j : Json) → BeginsWith value.now j → result ≡ kinds.has key.now j }
{
    value.get(key).is_some()
}
