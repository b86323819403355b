//! The records of a log that is one object, out of bytes that come in parts, and the log without
//! them.
ghost use Rattle.std.specs.Prelude.{◌≡◌, ◌+◌, ◌<◌, ◌≤◌, ◌++◌, if◌then◌else◌, length, take, drop};
ghost use Rattle.std.specs.Prelude.{[], ◌∷◌, None, Some, true, false, IfOk, IfErr};
ghost use Rattle.qa_qlog.specs.Cuts as cuts;
ghost use Rattle.qa_qlog.specs.Outer as outer;

use crate::outer::{
    Extent, Level, Part, Position, is_end, is_events, is_nested, is_open, is_reading, is_scalar,
    is_whole, is_within, name_of, scan,
};
use std::alloc::{AllocError, Global};
use std::marker::Model;
use thiserror::Error;

/// How many bytes a record has at most: 1 MiB.
pub const MAX_RECORD_LENGTH: usize = 1_048_576;
/// How many bytes a log without its records has at most: 16 MiB.
pub const MAX_SKELETON_LENGTH: usize = 16_777_216;

/// Why no more records come.
#[derive(Clone, Copy, Debug, PartialEq, Eq, Error)]
pub enum CutFault {
    /// What stands at this byte cannot stand there in a log that is one object, or the log has
    /// nothing but white space.
    #[error("byte {0}: no JSON object with a list of traces")]
    Unexpected(u64),
    /// The record that begins at this byte has more than 1 MiB.
    #[error("byte {0}: a record of more than 1,048,576 bytes")]
    RecordTooLong(u64),
    /// Up to this byte the log has 16 MiB without its records.
    #[error("byte {0}: more than 16,777,216 bytes beside the records")]
    SkeletonTooLong(u64),
    /// Out of memory.
    #[error("out of memory")]
    OutOfMemory,
}

/// A record of a log.
#[derive(Clone, Copy, Debug, PartialEq, Eq)]
pub struct Record<'a> {
    /// The number of its trace, from 1.
    pub trace: u64,
    /// The byte of the log at which it begins, from 0.
    pub place: u64,
    /// Its bytes.
    pub bytes: &'a [u8],
}

/// A log without its records.
#[derive(Debug, Drop)]
pub struct Skeleton {
    /// Its bytes, with `[]` for each list of records.
    pub bytes: Vec<u8>,
    /// The byte at which the log is torn off, if it is.
    pub torn_at: Option<u64>,
}

/// What came of reading on.
#[derive(Clone, Copy, Debug, PartialEq, Eq)]
enum Step {
    /// A record was read to its end.
    Found,
    /// At least one byte was read.
    Going,
    /// All bytes were read.
    Waits,
}

/// A log that is one object and comes in parts, returned as its records, and at its end as what it
/// has beside them.
///
/// It checks the brackets, keys, colons and commas of the object, of its list at the key `traces`,
/// of each object in that list, and of the list at the key `events` of each of these. Of any other
/// value, and so of each record, it sees only where the value ends: that it is JSON is for whoever
/// reads it. A value that does not end takes in all that follows, and the log is then torn off
/// where it begins. Keys are compared as they are written. If the log has the key `traces` twice,
/// its traces are counted through both lists.
///
/// Each record is lent out of a buffer that holds the last part and the record that was unfinished
/// before it. Beside it memory goes to the skeleton alone, however deep the values nest.
#[derive(Drop)]
pub struct DocumentCutter {
    /// The bytes that were read since the buffer was last moved, and after them those that were
    /// not.
    bytes: Vec<u8>,
    /// How many of the bytes are of no further use.
    start: usize,
    /// How many of the bytes from `start` on were read: those of a record.
    used: usize,
    position: Position,
    /// How many bytes of the log were read.
    at: u64,
    /// The byte at which the key or the value begins that is being read.
    begin: u64,
    /// How many traces began.
    traces: u64,
    skeleton: Vec<u8>,
    /// How many bytes of the skeleton are whole members.
    whole: usize,
    /// How many bytes the skeleton had before the last key.
    key: usize,
    refused: Option<CutFault>,
}

impl Model for DocumentCutter {
    ghost use Rattle.std.specs.Prelude.{◌≡◌, ◌≤◌, take, drop, length};
    ghost use Rattle.qa_qlog.specs.Cuts.{State, Uncut};

    ghost Value = { Uncut };

    ghost view = { λ c. record {
      state = record {
        position = c.position;
        at = c.at;
        begin = c.begin;
        traces = c.traces;
        text = take c.used (drop c.start c.bytes.items);
        skeleton = c.skeleton.items;
        whole = c.whole;
        key = c.key;
      };
      bytes = drop c.used (drop c.start c.bytes.items);
      refused = c.refused;
    } };

    ghost invariant = { λ c. (c.start ≤ length c.bytes.items)
        × (c.used ≤ length (drop c.start c.bytes.items))
        × (c.key ≤ length c.skeleton.items) };
}

impl DocumentCutter {
    ghost use Rattle.std.specs.Borrow.{sem};
    ghost use Rattle.std.specs.Prelude.{◌≡◌, [], ◌++◌, false, true, None, Some, Ok, Err, OnOk, OnErr};
    ghost use Rattle.std.specs.Prelude.{◌≢◌, ◌&&◌, MatchOption, IfSome, IfOk, IfErr, not};
    ghost use Rattle.qa_qlog.specs.Cuts as cuts;
    ghost use Rattle.qa_qlog.specs.Cutting.{EndsAs, Finds, IsNext, Reads, Turns, failed};
    ghost use Rattle.qa_qlog.specs.Cutting.{passed, read_log};
    ghost use Rattle.qa_qlog.specs.Outer as outer;

    /// A log of which nothing came yet. Takes no memory.
    pub fn new(alloc: Global) -> DocumentCutter
        ensures { result ≡ cuts.empty }
    {
        DocumentCutter {
            bytes: Vec::new(alloc),
            start: 0,
            used: 0,
            position: Position::start(),
            at: 0,
            begin: 0,
            traces: 0,
            skeleton: Vec::new(alloc),
            whole: 0,
            key: 0,
            refused: None,
        }
    }

    /// Takes the next part of the log. Asks for one that has not failed.
    ///
    /// `AllocError` comes if it is out of memory: it has failed then, and holds what it held.
    pub fn feed(&mut self, part: &[u8]) -> Result<(), AllocError>
        requires { self.old.refused ≡ None }
        ensures ok { OnOk result (self.new
            ≡ record self.old { bytes = self.old.bytes ++ part.now }) }
        ensures err { OnErr result (self.new ≡ failed self.old CutFault.OutOfMemory) }
    {
        self.make_room();
        let fed = self.bytes.extend_from_slice(part);
        if fed.is_err() {
            self.refused = Some(CutFault::OutOfMemory);
        }
        fed
    }

    /// Moves what is still of use to the front of the buffer, if it is no more than the rest. So a
    /// byte is moved no more than once on the average, however small the parts are.
    fn make_room(&mut self)
        ensures { self.new ≡ self.old }
    {
        if self.bytes.len() - self.start <= self.start {
            remove_front(&mut self.bytes, self.start);
            self.start = 0;
        }
    }

    /// The next record, or None if no whole one is ready: then all that was fed was read.
    ///
    /// After an error, here or of `feed`, the log has failed, and returns that error from then on.
    pub fn next_record(&mut self) -> Result<Option<Record<'_>>, CutFault>
        ensures* after_borrow { sem 𝓛 (EndsAs self.entry result) }
    {
        match self.find() {
            Ok(true) => {
                let from = self.start;
                let len = self.used;
                self.start += len;
                self.used = 0;
                Ok(Some(Record {
                    trace: self.traces,
                    place: self.begin,
                    bytes: &self.bytes[from..from + len],
                }))
            }
            Ok(false) => Ok(None),
            Err(fault) => Err(fault),
        }
    }

    /// The skeleton of a log of which all that was fed was read, as if no more came: up to its last
    /// whole member, with its brackets closed, if the log is torn off.
    pub fn into_skeleton(self) -> Result<Skeleton, CutFault>
        ensures refused { IfSome self.refused (λ fault. result ≡ Err fault) }
        ensures ok { IfOk result (λ skeleton. cuts.skeleton_of self.state
            ≡ Ok (skeleton.bytes.items, skeleton.torn_at)) }
        ensures err { self.refused ≡ None → IfErr result (λ fault. fault ≢ CutFault.OutOfMemory
            → cuts.skeleton_of self.state ≡ Err fault) }
    {
        if let Some(fault) = self.refused {
            return Err(fault);
        }
        let torn_at = if is_reading(self.position.part) {
            self.begin
        } else {
            self.at
        };
        if self.position.level == Level::Outside {
            return outside(self.position.part, self.skeleton, self.at);
        }
        torn(self.position.level, self.skeleton, self.whole, torn_at)
    }

    /// Finds the next record.
    fn find(&mut self) -> Result<bool, CutFault>
        ensures { Finds self.old result self.new }
    {
        if let Some(fault) = self.refused {
            return Err(fault);
        }
        'bytes: loop {
            match self.read_on() {
                Ok(Step::Found) => return Ok(true),
                Ok(Step::Going) => {}
                Ok(Step::Waits) => return Ok(false),
                Err(fault) => return Err(fault),
            }
        }
    }

    /// Reads on: within a record up to its end, if it is there, and elsewhere one byte.
    fn read_on(&mut self) -> Result<Step, CutFault>
        ensures { Reads self.old result self.new }
    {
        let Some(byte) = self.next_byte() else {
            return Ok(Step::Waits);
        };
        if self.is_ended(byte) {
            return self.end_scalar(byte);
        }
        if self.is_inside() {
            return self.read_record();
        }
        self.turn(byte)
    }

    /// The bytes that were fed and not read yet.
    fn unread(&self) -> &[u8]
        ensures { result.now ≡ self.now.bytes }
    {
        &self.bytes[self.start + self.used..]
    }

    /// The next byte that was not read.
    fn next_byte(&self) -> Option<u8>
        ensures { MatchOption result (self.now.bytes ≡ []) (λ byte. IsNext byte self.now) }
    {
        self.unread().first().copied()
    }

    /// Whether a number, `true`, `false` or `null` ends before this byte.
    fn is_ended(&self, byte: u8) -> bool
        ensures { result ≡ cuts.is_ended self.now.state byte }
    {
        is_scalar(self.position.part) && is_end(byte)
    }

    /// Whether a record is being read whose end shows in it.
    fn is_inside(&self) -> bool
        ensures { result ≡ (outer.is_events self.now.state.position.level
            && outer.is_nested self.now.state.position.part) }
    {
        is_events(self.position.level) && is_nested(self.position.part)
    }

    /// How many bytes the skeleton has.
    fn skeleton_length(&self) -> usize
        ensures { result ≡ length self.now.state.skeleton }
    {
        self.skeleton.len()
    }

    /// How many bytes the record has that is being read, with so many more.
    fn record_length(&self, more: usize) -> usize
        requires { more ≤ length self.now.bytes }
        ensures { result ≡ length self.now.state.text + more }
    {
        self.used + more
    }

    /// A number, `true`, `false` or `null` ends before the next byte.
    fn end_scalar(&mut self, byte: u8) -> Result<Step, CutFault>
        requires next { IsNext byte self.old }
        requires ended { cuts.is_ended self.old.state byte ≡ true }
        ensures { Reads self.old result self.new }
    {
        self.whole = self.skeleton_length();
        self.position.part = Part::Behind;
        if is_events(self.position.level) {
            return Ok(Step::Found);
        }
        self.turn(byte)
    }

    /// Reads a record up to its end, if it is there.
    fn read_record(&mut self) -> Result<Step, CutFault>
        requires some { self.old.bytes ≢ [] }
        requires inside { (outer.is_events self.old.state.position.level
            && outer.is_nested self.old.state.position.part) ≡ true }
        ensures { Reads self.old result self.new }
    {
        let extent = scan(self.unread(), self.position);
        if MAX_RECORD_LENGTH < self.record_length(extent.len) {
            return Err(self.refuse(CutFault::RecordTooLong(self.begin)));
        }
        self.read_to(extent);
        if is_nested(extent.position.part) {
            return Ok(Step::Going);
        }
        Ok(Step::Found)
    }

    /// Reads as many bytes of a record.
    fn read_to(&mut self, extent: Extent)
        requires { extent.len ≤ length self.old.bytes }
        ensures { self.new ≡ read_log self.old extent }
    {
        self.used += extent.len;
        self.at = self.at.saturating_add(extent.len as u64);
        self.position = extent.position;
    }

    /// Reads the next byte, which ends no number.
    fn turn(&mut self, byte: u8) -> Result<Step, CutFault>
        requires { IsNext byte self.old }
        ensures { Turns (cuts.turn self.old.state byte) self.old result self.new }
    {
        let named = self.is_named();
        match self.position.after(named, byte) {
            Some(position) => self.go(position, byte),
            None => Err(self.refuse(CutFault::Unexpected(self.at))),
        }
    }

    /// Whether the last key is the one that counts.
    fn is_named(&self) -> bool
        ensures { result ≡ cuts.is_named self.now.state }
    {
        self.skeleton[self.key..].starts_with(name_of(self.position.level))
    }

    /// Reads the next byte, after which this is the position.
    fn go(&mut self, position: Position, byte: u8) -> Result<Step, CutFault>
        requires { IsNext byte self.old }
        ensures { Turns (cuts.turned self.old.state (Some position) byte) self.old result self.new }
    {
        if !is_events(self.position.level) {
            return self.keep(position, byte);
        }
        if !is_events(position.level) {
            return self.keep(position, byte);
        }
        if is_within(self.position.part) {
            return self.add(position, byte);
        }
        if is_within(position.part) {
            return self.add(position, byte);
        }
        self.pass(position, byte);
        Ok(Step::Going)
    }

    /// The next byte is one of the skeleton.
    fn keep(&mut self, position: Position, byte: u8) -> Result<Step, CutFault>
        requires { IsNext byte self.old }
        ensures { Turns (cuts.keep self.old.state position byte) self.old result self.new }
    {
        let len = self.skeleton_length();
        if MAX_SKELETON_LENGTH <= len {
            return Err(self.refuse(CutFault::SkeletonTooLong(self.at)));
        }
        if !pushed(&mut self.skeleton, byte) {
            return Err(self.refuse(CutFault::OutOfMemory));
        }
        self.key = key_after(self.position.part, len, self.key);
        self.whole = whole_after(position.part, len, self.whole);
        self.pass(position, byte);
        Ok(Step::Going)
    }

    /// The next byte is one of a record.
    fn add(&mut self, position: Position, byte: u8) -> Result<Step, CutFault>
        requires { IsNext byte self.old }
        ensures { Turns (cuts.add self.old.state position byte) self.old result self.new }
    {
        if MAX_RECORD_LENGTH <= self.used {
            return Err(self.refuse(CutFault::RecordTooLong(self.begin)));
        }
        self.note(position);
        self.used += 1;
        if is_within(position.part) {
            return Ok(Step::Going);
        }
        Ok(Step::Found)
    }

    /// Reads the next byte, which is of no record.
    fn pass(&mut self, position: Position, byte: u8)
        requires { IsNext byte self.old }
        ensures { self.new ≡ passed self.old (cuts.moved_to self.old.state position) }
    {
        self.note(position);
        self.start += self.used + 1;
        self.used = 0;
    }

    /// One more byte is read, after which this is the position.
    fn note(&mut self, position: Position)
        ensures { self.new ≡ record self.old {
          state = record (cuts.moved_to self.old.state position) { text = self.old.state.text };
        } }
    {
        self.begin = begin_after(self.position.part, self.at, self.begin);
        self.traces = traces_after(self.position.level, position.level, self.traces);
        self.at = self.at.saturating_add(1);
        self.position = position;
    }

    /// The log fails with this.
    fn refuse(&mut self, fault: CutFault) -> CutFault
        ensures fault { result ≡ fault }
        ensures failed { self.new ≡ failed self.old fault }
    {
        self.refused = Some(fault);
        fault
    }
}

/// Appends a byte; false if it is out of memory.
fn pushed(bytes: &mut Vec<u8>, byte: u8) -> bool
    ensures pushed { result ≡ true → bytes.new.items ≡ bytes.old.items ++ byte ∷ [] }
    ensures kept { result ≡ false → bytes.new.items ≡ bytes.old.items }
{
    bytes.push(byte).is_ok()
}

/// How many bytes the skeleton had before the last key.
fn key_after(part: Part, len: usize, key: usize) -> usize
    ensures { result ≡ (if outer.is_open part then len else key) }
{
    if is_open(part) { len } else { key }
}

/// How many bytes of the skeleton are whole members, once one more byte came to it.
fn whole_after(part: Part, len: usize, whole: usize) -> usize
    requires { len < cuts.skeleton_limit }
    ensures { result ≡ (if outer.is_whole part then len + 1 else whole) }
{
    if is_whole(part) { len + 1 } else { whole }
}

/// The byte at which a key or a value begins.
fn begin_after(part: Part, at: u64, begin: u64) -> u64
    ensures { result ≡ (if outer.is_reading part then begin else at) }
{
    if is_reading(part) { begin } else { at }
}

/// How many traces began.
fn traces_after(old: Level, new: Level, traces: u64) -> u64
    ensures { result ≡ (if cuts.begins_trace old new then outer.next traces else traces) }
{
    if old == Level::Traces && new == Level::Trace {
        traces.saturating_add(1)
    } else {
        traces
    }
}

/// The skeleton of a log that ends outside of its object.
fn outside(part: Part, skeleton: Vec<u8>, at: u64) -> Result<Skeleton, CutFault>
    ensures ok { IfOk result (λ it. (outer.is_open part ≡ false)
        × (it.bytes.items ≡ skeleton.items) × (it.torn_at ≡ None)) }
    ensures err { IfErr result (λ fault. (outer.is_open part ≡ true)
        × (fault ≡ CutFault.Unexpected at)) }
{
    if is_open(part) {
        return Err(CutFault::Unexpected(at));
    }
    Ok(Skeleton {
        bytes: skeleton,
        torn_at: None,
    })
}

/// The skeleton of a log that is torn off.
fn torn(level: Level, mut skeleton: Vec<u8>, whole: usize, at: u64) -> Result<Skeleton, CutFault>
    ensures ok { IfOk result (λ it. (it.bytes.items
        ≡ take whole skeleton.items ++ cuts.closers level) × (it.torn_at ≡ Some at)) }
    ensures err { IfErr result (λ fault. fault ≡ CutFault.OutOfMemory) }
{
    skeleton.truncate(whole);
    if skeleton.extend_from_slice(closers(level)).is_err() {
        return Err(CutFault::OutOfMemory);
    }
    Ok(Skeleton {
        bytes: skeleton,
        torn_at: Some(at),
    })
}

/// What closes the containers that are open.
fn closers(level: Level) -> &'static [u8]
    ensures { result.now ≡ cuts.closers level }
{
    match level {
        Level::Outside => b"",
        Level::Document => b"}",
        Level::Traces => b"]}",
        Level::Trace => b"}]}",
        Level::Events => b"]}]}",
    }
}

/// Removes the first n bytes.
fn remove_front(bytes: &mut Vec<u8>, n: usize)
    requires { n ≤ length bytes.old.items }
    ensures { bytes.new.items ≡ drop n bytes.old.items }
{
    let len = bytes.len();
    bytes.copy_within(n..len, 0);
    bytes.truncate(len - n);
}
