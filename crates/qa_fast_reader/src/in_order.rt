//! Members in the order of the format, or with the time before the kind, with white space between
//! the tokens, as Python's `json.dumps` writes it. Keys that no event has may stand behind them.
ghost use Rattle.std.specs.Prelude.{◌≡◌, ◌∷◌, ◌++◌, [], ℕ, List, IfSome, codes, true};
ghost use Rattle.qa_scan.specs.Lexes.{IsKey};
ghost use Rattle.qa_fast_reader.specs.Found.{Continues, EndsIf, Follows, IsLaterKey, PutsIf, Reads};
ghost use Rattle.qa_fast_reader.specs.Found.{IsLineOf, begun as begun_so, nothing};

use crate::found::Found;
use crate::names::line_kind;
use qa_base::LineKind;
use qa_format::Line;
use qa_scan::{after, after_byte, null, open_boolean, open_integer, skip_space};
use std::alloc::Global;

/// The value of the key, where the bytes begin with its name in quotes and a colon.
#[inline(always)]
fn value_at<'a>(bytes: &'a [u8], word: &[u8]) -> Option<&'a [u8]>
    ensures { IfSome result (λ rest. (key : List ℕ) → word.now ≡ 34 ∷ (key ++ 34 ∷ 58 ∷ [])
        → IsKey key bytes.now rest.now) }
{
    let behind = after(bytes, word)?;
    Some(skip_space(behind))
}

/// The same behind a comma.
#[inline(always)]
fn next_value<'a>(bytes: &'a [u8], word: &[u8]) -> Option<&'a [u8]>
    ensures { IfSome result (λ rest. (key : List ℕ) → word.now ≡ 34 ∷ (key ++ 34 ∷ 58 ∷ [])
        → IsLaterKey key bytes.now rest.now) }
{
    let behind = after_byte(bytes, b',')?;
    value_at(skip_space(behind), word)
}

/// The kind and the time, whichever comes first, and what follows them.
#[inline(always)]
fn kind_and_time(bytes: &[u8]) -> Option<(LineKind, u64, &[u8])>
    ensures { IfSome result (λ found. (whole : List ℕ) → Follows nothing whole bytes.now
        → EndsIf (begun_so found.0 found.1) whole found.2.now) }
{
    if let Some(found) = kind_then_time(bytes) {
        return Some(found);
    }
    time_then_kind(bytes)
}

/// The same, if the kind comes first.
#[inline(always)]
fn kind_then_time(bytes: &[u8]) -> Option<(LineKind, u64, &[u8])>
    ensures { IfSome result (λ found. (whole : List ℕ) → Follows nothing whole bytes.now
        → EndsIf (begun_so found.0 found.1) whole found.2.now) }
{
    let (kind, rest) = line_kind(value_at(bytes, b"\"event\":")?)?;
    let (time, rest) = open_integer(next_value(rest, b"\"time\":")?)?;
    Some((kind, time, rest))
}

/// The same, if the time comes first.
#[inline(always)]
fn time_then_kind(bytes: &[u8]) -> Option<(LineKind, u64, &[u8])>
    ensures { IfSome result (λ found. (whole : List ℕ) → Follows nothing whole bytes.now
        → EndsIf (begun_so found.0 found.1) whole found.2.now) }
{
    let (time, rest) = open_integer(value_at(bytes, b"\"time\":")?)?;
    let (kind, rest) = line_kind(next_value(rest, b"\"event\":")?)?;
    Some((kind, time, rest))
}

impl Found {
    /// A kind and a time.
    #[inline(always)]
    fn begun(kind: LineKind, time: u64) -> Found
        ensures { result ≡ begun_so kind time }
    {
        let mut found = Found::nothing();
        found.event = Some(kind);
        found.time = Some(time);
        found
    }

    /// The packet number is found; what follows is to end it.
    #[inline(always)]
    fn open_number<'a>(&mut self, bytes: &'a [u8]) -> Option<&'a [u8]>
        ensures { IfSome result
            (λ rest. PutsIf (codes "number") self.old self.new bytes.now rest.now) }
    {
        let (value, rest) = open_integer(bytes)?;
        self.number = Some(value);
        Some(rest)
    }

    /// The size of the packet is found; what follows is to end it.
    #[inline(always)]
    fn open_size<'a>(&mut self, bytes: &'a [u8]) -> Option<&'a [u8]>
        ensures { IfSome result
            (λ rest. PutsIf (codes "size") self.old self.new bytes.now rest.now) }
    {
        let (value, rest) = open_integer(bytes)?;
        self.size = Some(value);
        Some(rest)
    }

    /// Whether the packet is ack-eliciting is found; what follows is to end it.
    #[inline(always)]
    fn open_eliciting<'a>(&mut self, bytes: &'a [u8]) -> Option<&'a [u8]>
        ensures { IfSome result
            (λ rest. PutsIf (codes "eliciting") self.old self.new bytes.now rest.now) }
    {
        let (value, rest) = open_boolean(bytes)?;
        self.eliciting = Some(value);
        Some(rest)
    }

    /// Whether the packet is in flight is found; what follows is to end it.
    #[inline(always)]
    fn open_in_flight<'a>(&mut self, bytes: &'a [u8]) -> Option<&'a [u8]>
        ensures { IfSome result
            (λ rest. PutsIf (codes "in_flight") self.old self.new bytes.now rest.now) }
    {
        let (value, rest) = open_boolean(bytes)?;
        self.in_flight = Some(value);
        Some(rest)
    }

    /// The number and the size of a packet are found, if they come next; what follows is to end
    /// them.
    #[inline(always)]
    fn number_and_size<'a>(&mut self, bytes: &'a [u8]) -> Option<&'a [u8]>
        ensures { IfSome result (λ rest. Continues self.old self.new bytes.now rest.now) }
    {
        let rest = self.open_number(next_value(bytes, b"\"number\":")?)?;
        self.open_size(next_value(rest, b"\"size\":")?)
    }

    /// Whether a packet is ack-eliciting and in flight is found, if that comes next; what follows
    /// is to end it.
    #[inline(always)]
    fn eliciting_and_in_flight<'a>(&mut self, bytes: &'a [u8]) -> Option<&'a [u8]>
        ensures { IfSome result (λ rest. Continues self.old self.new bytes.now rest.now) }
    {
        let rest = self.open_eliciting(next_value(bytes, b"\"eliciting\":")?)?;
        self.open_in_flight(next_value(rest, b"\"in_flight\":")?)
    }

    /// Why the packet was allowed to leave is found, or null there, where it comes next; gives what
    /// follows.
    #[inline(always)]
    fn permission_there<'a>(&mut self, bytes: &'a [u8]) -> Option<&'a [u8]>
        ensures { IfSome result (λ rest. Continues self.old self.new bytes.now rest.now) }
    {
        let Some(value) = next_value(bytes, b"\"leave\":") else {
            return Some(bytes);
        };
        if let Some(rest) = null(value) {
            self.permission = None;
            return Some(rest);
        }
        self.permission(value)
    }

    /// The delay of the acknowledgment is found, or null there, where it comes next; gives what
    /// follows.
    #[inline(always)]
    fn delay_there<'a>(&mut self, bytes: &'a [u8]) -> Option<&'a [u8]>
        ensures { IfSome result (λ rest. Continues self.old self.new bytes.now rest.now) }
    {
        let Some(value) = next_value(bytes, b"\"delay\":") else {
            return Some(bytes);
        };
        if let Some(rest) = null(value) {
            self.delay = None;
            return Some(rest);
        }
        self.open_delay(value)
    }

    /// Whether the sender was limited by the application is found, or null there, where it comes
    /// next; gives what follows.
    #[inline(always)]
    fn limited_there<'a>(&mut self, bytes: &'a [u8]) -> Option<&'a [u8]>
        ensures { IfSome result (λ rest. Continues self.old self.new bytes.now rest.now) }
    {
        let Some(value) = next_value(bytes, b"\"limited\":") else {
            return Some(bytes);
        };
        if let Some(rest) = null(value) {
            self.app_limited = None;
            return Some(rest);
        }
        self.open_limited(value)
    }
}

/// A packet that was sent at this time, from what follows its kind and time on.
#[inline(always)]
fn sent_behind(time: u64, bytes: &[u8]) -> Option<Line>
    ensures { (whole : List ℕ) → EndsIf (begun_so LineKind.Sent time) whole bytes.now
        → Reads whole result }
{
    let mut found = Found::begun(LineKind::Sent, time);
    let rest = found.space(next_value(bytes, b"\"space\":")?)?;
    let rest = found.number_and_size(rest)?;
    let rest = found.eliciting_and_in_flight(rest)?;
    let rest = found.permission_there(rest)?;
    found.ended(rest)
}

/// An acknowledgment that came at this time, likewise.
#[inline(always)]
fn ack_behind(alloc: Global, time: u64, bytes: &[u8]) -> Option<Line>
    ensures { (whole : List ℕ) → EndsIf (begun_so LineKind.Ack time) whole bytes.now
        → Reads whole result }
{
    let mut found = Found::begun(LineKind::Ack, time);
    let rest = found.space(next_value(bytes, b"\"space\":")?)?;
    let rest = found.ranges(alloc, next_value(rest, b"\"ranges\":")?)?;
    let rest = found.delay_there(rest)?;
    let rest = found.limited_there(rest)?;
    found.ended(rest)
}

/// Packets that were declared lost at this time, likewise.
#[inline(always)]
fn lost_behind(alloc: Global, time: u64, bytes: &[u8]) -> Option<Line>
    ensures { (whole : List ℕ) → EndsIf (begun_so LineKind.Lost time) whole bytes.now
        → Reads whole result }
{
    let mut found = Found::begun(LineKind::Lost, time);
    let rest = found.space(next_value(bytes, b"\"space\":")?)?;
    let rest = found.ranges(alloc, next_value(rest, b"\"ranges\":")?)?;
    found.ended(rest)
}

/// Whether a packet was sent at this time, which is put where it is to stand.
#[inline(never)]
fn put_sent(time: u64, bytes: &[u8], into: &mut Line) -> bool
    ensures { (whole : List ℕ) → EndsIf (begun_so LineKind.Sent time) whole bytes.now
        → result ≡ true → IsLineOf whole into.new }
{
    let Some(line) = sent_behind(time, bytes) else {
        return false;
    };
    *into = line;
    true
}

/// Whether an acknowledgment came at this time, likewise.
#[inline(never)]
fn put_ack(alloc: Global, time: u64, bytes: &[u8], into: &mut Line) -> bool
    ensures { (whole : List ℕ) → EndsIf (begun_so LineKind.Ack time) whole bytes.now
        → result ≡ true → IsLineOf whole into.new }
{
    let Some(line) = ack_behind(alloc, time, bytes) else {
        return false;
    };
    *into = line;
    true
}

/// Whether packets were declared lost at this time, likewise.
#[inline(never)]
fn put_lost(alloc: Global, time: u64, bytes: &[u8], into: &mut Line) -> bool
    ensures { (whole : List ℕ) → EndsIf (begun_so LineKind.Lost time) whole bytes.now
        → result ≡ true → IsLineOf whole into.new }
{
    let Some(line) = lost_behind(alloc, time, bytes) else {
        return false;
    };
    *into = line;
    true
}

/// Whether members say a packet, an acknowledgment or a loss in this order, from the first of them
/// on; the line is put where it is to stand.
#[inline(never)]
pub fn in_order(alloc: Global, bytes: &[u8], into: &mut Line) -> bool
    ensures { (whole : List ℕ) → Follows nothing whole bytes.now → result ≡ true
        → IsLineOf whole into.new }
{
    let Some((kind, time, rest)) = kind_and_time(bytes) else {
        return false;
    };
    match kind {
        LineKind::Sent => put_sent(time, rest, into),
        LineKind::Ack => put_ack(alloc, time, rest, into),
        LineKind::Lost => put_lost(alloc, time, rest, into),
        _ => false,
    }
}
