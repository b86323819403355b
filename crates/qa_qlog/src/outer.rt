//! Where a log that is one JSON object is being read: in which of its outer containers, and at
//! which part of it.
ghost use Rattle.std.specs.Prelude.{◌≡◌, ◌+◌, ◌≤◌, length, drop};
ghost use Rattle.qa_qlog.specs.Outer as outer;

use crate::structural::plain_end;

/// Which container of a log is being read; a list or an object elsewhere is a value as any other.
#[derive(Clone, Copy, Debug, PartialEq, Eq)]
pub enum Level {
    /// None: before and behind the object that the log is.
    Outside,
    /// The object that the log is.
    Document,
    /// The list at the key `traces` of the log.
    Traces,
    /// An object in the list of traces.
    Trace,
    /// The list at the key `events` of a trace.
    Events,
}

/// What was read last in a container, or is being read there.
#[derive(Clone, Copy, Debug, PartialEq, Eq)]
pub enum Part {
    /// Its opening bracket.
    Start,
    /// A comma.
    Next,
    /// A key, up to its closing quote.
    Key,
    /// A backslash in a key.
    KeyEscape,
    /// A whole key.
    Colon,
    /// The colon behind a key.
    Value,
    /// A value that is an object or a list, but for the strings in it.
    Nested,
    /// A string that is a value, or within one.
    Text,
    /// A backslash in such a string.
    Escape,
    /// A number, `true`, `false` or `null`.
    Scalar,
    /// A whole member or element.
    Behind,
}

/// Where a log is being read.
#[derive(Clone, Copy, Debug, PartialEq, Eq)]
pub struct Position {
    /// The container.
    pub level: Level,
    /// The part of the container.
    pub part: Part,
    /// How many brackets are open within the value that is being read.
    pub depth: u64,
}

/// How far a value goes.
#[derive(Clone, Copy, Debug, PartialEq, Eq)]
pub struct Extent {
    /// How many bytes belong to it.
    pub len: usize,
    /// The position after them.
    pub position: Position,
}

impl Position {
    ghost use Rattle.std.specs.Prelude.{◌≡◌};
    ghost use Rattle.qa_qlog.specs.Outer as outer;

    /// The position before the first byte of a log.
    pub fn start() -> Position
        ensures { result ≡ outer.start }
    {
        Position {
            level: Level::Outside,
            part: Part::Start,
            depth: 0,
        }
    }

    /// The position after this byte, or None if the byte may not stand there. `named`: the last key
    /// is the one that counts.
    pub fn after(self, named: bool, byte: u8) -> Option<Position>
        ensures { result ≡ outer.after self named byte }
    {
        if is_space(byte) && !is_reading(self.part) {
            Some(self)
        } else {
            self.moved(named, byte)
        }
    }

    /// The position after a byte that is no white space between two parts.
    fn moved(self, named: bool, byte: u8) -> Option<Position>
        ensures { result ≡ outer.moved self.part self named byte }
    {
        match self.part {
            Part::Start => self.first(named, byte),
            Part::Next => self.item_at(named, byte),
            Part::Key => Some(self.in_key(byte)),
            Part::KeyEscape => Some(self.at(Part::Key)),
            Part::Colon => self.colon_at(byte),
            Part::Value => self.value_at(named, byte),
            Part::Scalar => Some(self),
            Part::Behind => self.behind(byte),
            Part::Nested => Some(self.in_brackets(byte)),
            Part::Text => Some(self.in_text(byte)),
            Part::Escape => Some(self.at(Part::Text)),
        }
    }

    /// The position with this part.
    fn at(self, part: Part) -> Position
        ensures { result ≡ outer.at_part self part }
    {
        Position { part, ..self }
    }

    /// Behind an opening bracket: the container closes, or its first member or element begins.
    fn first(self, named: bool, byte: u8) -> Option<Position>
        ensures { result ≡ outer.moved Part.Start self named byte }
    {
        if closes(self.level, byte) {
            Some(self.left())
        } else {
            self.item_at(named, byte)
        }
    }

    /// A member of an object begins, or an element of a list.
    fn item_at(self, named: bool, byte: u8) -> Option<Position>
        ensures { result ≡ outer.item_at self named byte }
    {
        if !is_object(self.level) {
            return self.value_at(named, byte);
        }
        if byte == b'"' {
            Some(self.at(Part::Key))
        } else {
            None
        }
    }

    /// Within a key.
    fn in_key(self, byte: u8) -> Position
        ensures { result ≡ outer.in_key self byte }
    {
        match byte {
            b'"' => self.at(Part::Colon),
            b'\\' => self.at(Part::KeyEscape),
            _ => self,
        }
    }

    /// Behind a key.
    fn colon_at(self, byte: u8) -> Option<Position>
        ensures { result ≡ outer.colon_at self byte }
    {
        if byte == b':' {
            Some(self.at(Part::Value))
        } else {
            None
        }
    }

    /// A value begins.
    fn value_at(self, named: bool, byte: u8) -> Option<Position>
        ensures { result ≡ outer.value_at self named byte }
    {
        match entered(self.level, named, byte) {
            Some(level) => Some(Position {
                level,
                part: Part::Start,
                ..self
            }),
            None => self.other_value(byte),
        }
    }

    /// A value begins that is none of the outer containers.
    fn other_value(self, byte: u8) -> Option<Position>
        ensures { result ≡ outer.begun None self byte }
    {
        if self.level == Level::Outside {
            None
        } else {
            self.value_from(byte)
        }
    }

    /// Any other value begins.
    fn value_from(self, byte: u8) -> Option<Position>
        ensures { result ≡ outer.value_from self byte }
    {
        let (part, depth) = match byte {
            b'"' => (Part::Text, 0),
            b'{' | b'[' => (Part::Nested, 1),
            b',' | b':' | b'}' | b']' => return None,
            _ => (Part::Scalar, 0),
        };
        Some(Position {
            part,
            depth,
            ..self
        })
    }

    /// Behind a whole member or element.
    fn behind(self, byte: u8) -> Option<Position>
        ensures { result ≡ outer.behind self byte }
    {
        if closes(self.level, byte) {
            Some(self.left())
        } else if byte == b',' && self.level != Level::Outside {
            Some(self.at(Part::Next))
        } else {
            None
        }
    }

    /// The container closes.
    fn left(self) -> Position
        ensures { result ≡ outer.left self }
    {
        Position {
            level: around(self.level),
            part: Part::Behind,
            ..self
        }
    }

    /// Within a value.
    fn in_value(self, byte: u8) -> Position
        ensures { result ≡ outer.in_value self.part self byte }
    {
        match self.part {
            Part::Text => self.in_text(byte),
            Part::Escape => self.at(Part::Text),
            _ => self.in_brackets(byte),
        }
    }

    /// Within a string that is a value, or within one.
    fn in_text(self, byte: u8) -> Position
        ensures { result ≡ outer.in_text self byte }
    {
        match byte {
            b'"' if self.depth == 0 => self.at(Part::Behind),
            b'"' => self.at(Part::Nested),
            b'\\' => self.at(Part::Escape),
            _ => self,
        }
    }

    /// Within an object or a list, but for its strings.
    fn in_brackets(self, byte: u8) -> Position
        ensures { result ≡ outer.in_brackets self byte }
    {
        match byte {
            b'"' => self.at(Part::Text),
            b'{' | b'[' => Position {
                depth: self.depth.saturating_add(1),
                ..self
            },
            b'}' | b']' => self.closed(),
            _ => self,
        }
    }

    /// A bracket within a value closes.
    fn closed(self) -> Position
        ensures { result ≡ outer.closed self }
    {
        if self.depth <= 1 {
            Position {
                part: Part::Behind,
                depth: 0,
                ..self
            }
        } else {
            Position {
                depth: self.depth - 1,
                ..self
            }
        }
    }
}

/// How far the value goes that is being read at a position, up to its end or the last of the bytes.
pub fn scan(bytes: &[u8], position: Position) -> Extent
    ensures within { result.len ≤ length bytes.now }
    ensures extent { result ≡ outer.scanned position bytes.now }
{
    let mut now = position;
    let mut len = 0;
    loop {
        let place = next_place(bytes, len, now.part);
        let Some(byte) = bytes.get(place) else {
            return Extent {
                len: bytes.len(),
                position: now,
            };
        };
        now = now.in_value(*byte);
        len = place + 1;
        if !is_nested(now.part) {
            return Extent { len, position: now };
        }
    }
}

/// The place, from this one on, of the next byte that can change the position at such a part.
fn next_place(bytes: &[u8], from: usize, part: Part) -> usize
    requires { from ≤ length bytes.now }
    ensures place { result ≡ from + outer.passed part (drop from bytes.now) }
    ensures within { result ≤ length bytes.now }
{
    match part {
        Part::Nested | Part::Text => plain_end(bytes, from),
        _ => from,
    }
}

/// The outer container that begins with this byte.
fn entered(level: Level, named: bool, byte: u8) -> Option<Level>
    ensures { result ≡ outer.entered level named byte }
{
    match level {
        Level::Outside if byte == b'{' => Some(Level::Document),
        Level::Document if named && byte == b'[' => Some(Level::Traces),
        Level::Traces if byte == b'{' => Some(Level::Trace),
        Level::Trace if named && byte == b'[' => Some(Level::Events),
        _ => None,
    }
}

/// Whether this byte closes a container.
fn closes(level: Level, byte: u8) -> bool
    ensures { result ≡ outer.closes level byte }
{
    match level {
        Level::Outside => false,
        Level::Document | Level::Trace => byte == b'}',
        Level::Traces | Level::Events => byte == b']',
    }
}

/// The container around one.
fn around(level: Level) -> Level
    ensures { result ≡ outer.around level }
{
    match level {
        Level::Events => Level::Trace,
        Level::Trace => Level::Traces,
        Level::Traces => Level::Document,
        Level::Document | Level::Outside => Level::Outside,
    }
}

/// Whether a container is an object, with members.
fn is_object(level: Level) -> bool
    ensures { result ≡ outer.is_object level }
{
    matches!(level, Level::Document | Level::Trace)
}

/// Whether a container is the list of records of a trace.
pub fn is_events(level: Level) -> bool
    ensures { result ≡ outer.is_events level }
{
    matches!(level, Level::Events)
}

/// The key in a container that counts, as it is written.
pub fn name_of(level: Level) -> &'static [u8]
    ensures { result.now ≡ outer.name_of level }
{
    match level {
        Level::Document => b"\"traces\"",
        _ => b"\"events\"",
    }
}

/// White space of JSON.
fn is_space(byte: u8) -> bool
    ensures { result ≡ outer.is_space byte }
{
    byte == b' ' || byte == b'\n' || byte == b'\r' || byte == b'\t'
}

/// Whether a byte ends a number, `true`, `false` or `null`.
pub fn is_end(byte: u8) -> bool
    ensures { result ≡ outer.is_end byte }
{
    is_space(byte) || byte == b',' || byte == b'}' || byte == b']'
}

/// Whether a value is being read.
pub fn is_within(part: Part) -> bool
    ensures { result ≡ outer.is_within part }
{
    matches!(
        part,
        Part::Nested | Part::Text | Part::Escape | Part::Scalar
    )
}

/// Whether a number, `true`, `false` or `null` is being read.
pub fn is_scalar(part: Part) -> bool
    ensures { result ≡ outer.is_scalar part }
{
    matches!(part, Part::Scalar)
}

/// Whether a value is being read whose end shows in it: an object, a list or a string.
pub fn is_nested(part: Part) -> bool
    ensures { result ≡ outer.is_nested part }
{
    matches!(part, Part::Nested | Part::Text | Part::Escape)
}

/// Whether a key or a value is being read.
pub fn is_reading(part: Part) -> bool
    ensures { result ≡ outer.is_reading part }
{
    matches!(part, Part::Key | Part::KeyEscape) || is_within(part)
}

/// Whether a member or an element may begin.
pub fn is_open(part: Part) -> bool
    ensures { result ≡ outer.is_open part }
{
    matches!(part, Part::Start | Part::Next)
}

/// Whether all members and elements that began are whole.
pub fn is_whole(part: Part) -> bool
    ensures { result ≡ outer.is_whole part }
{
    matches!(part, Part::Start | Part::Behind)
}
