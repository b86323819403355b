//! Reports of the sender's state, without white space. What stands behind their kind may stand in
//! any order, as logs have it.
ghost use Rattle.std.specs.Prelude.{◌≡◌, ◌<◌, ◌∷◌, ◌++◌, [], IfSome, length};
ghost use Rattle.qa_base.specs.values.Names.{key_name};
ghost use Rattle.qa_format.specs.format.Written as written;
ghost use Rattle.qa_fast_reader.specs.Found.{Continues, EndsIf, IsNextKey, Keeps, Reads, nothing};

use crate::found::Found;
use crate::unknown::unknown_next;
use qa_base::{Field, Key, LineKind};
use qa_format::Line;
use qa_scan::{after, open_integer, open_integer_at};

/// The key, where the bytes begin with a comma, its name in quotes and a colon, and where its value
/// begins.
#[inline(always)]
fn next_key_if(key: Key, bytes: &[u8], word: &[u8]) -> Option<(Key, usize)>
    requires { word.now ≡ 44 ∷ 34 ∷ (key_name key ++ 34 ∷ 58 ∷ []) }
    ensures { IfSome result (λ found. IsNextKey (key_name found.0) bytes.now found.1) }
{
    let _behind = after(bytes, word)?;
    Some((key, word.len()))
}

/// The time or the reported value whose key comes next, and where its value begins.
#[inline(always)]
fn next_key(bytes: &[u8]) -> Option<(Key, usize)>
    ensures { IfSome result (λ found. IsNextKey (key_name found.0) bytes.now found.1) }
{
    let [_, _, first, second, ..] = bytes else {
        return None;
    };
    // The first two letters tell the keys apart.
    match (*first, *second) {
        (b't', b'i') => next_key_if(Key::Time, bytes, b",\"time\":"),
        (b'w', b'i') => next_key_if(Key::Metric(Field::Window), bytes, b",\"window\":"),
        (b'b', b'y') => next_key_if(
            Key::Metric(Field::BytesInFlight),
            bytes,
            b",\"bytes_in_flight\":",
        ),
        (b'm', b'i') => next_key_if(Key::Metric(Field::MinRtt), bytes, b",\"min_rtt\":"),
        (b's', b'm') => next_key_if(
            Key::Metric(Field::SmoothedRtt),
            bytes,
            b",\"smoothed_rtt\":",
        ),
        (b'l', b'a') => next_key_if(Key::Metric(Field::LatestRtt), bytes, b",\"latest_rtt\":"),
        (b'r', b't') => next_key_if(Key::Metric(Field::Rttvar), bytes, b",\"rttvar\":"),
        (b's', b's') => next_key_if(Key::Metric(Field::Ssthresh), bytes, b",\"ssthresh\":"),
        _ => None,
    }
}

impl Found {
    /// The kind `metrics` is found, where it comes first; gives what follows it.
    #[inline(always)]
    fn metrics_first<'a>(&mut self, bytes: &'a [u8]) -> Option<&'a [u8]>
        requires { self.old ≡ nothing }
        ensures { IfSome result (λ rest. EndsIf self.new bytes.now rest.now) }
    {
        let rest = after(bytes, b"{\"event\":\"metrics\"")?;
        self.event = Some(LineKind::Metrics);
        Some(rest)
    }

    /// The kind `metrics` is found, where it comes next; gives what follows it.
    #[inline(always)]
    fn metrics_next<'a>(&mut self, bytes: &'a [u8]) -> Option<&'a [u8]>
        ensures { IfSome result (λ rest. Continues self.old self.new bytes.now rest.now) }
    {
        let rest = after(bytes, b",\"event\":\"metrics\"")?;
        self.event = Some(LineKind::Metrics);
        Some(rest)
    }

    /// The bytes in flight are found, where they come first; gives what follows them.
    #[inline(always)]
    fn in_flight_first<'a>(&mut self, bytes: &'a [u8]) -> Option<&'a [u8]>
        requires { self.old ≡ nothing }
        ensures { IfSome result (λ rest. EndsIf self.new bytes.now rest.now) }
    {
        let (value, rest) = open_integer(after(bytes, b"{\"bytes_in_flight\":")?)?;
        self.values.bytes_in_flight = Some(value);
        Some(rest)
    }

    /// An integer is put at its key, the time or a reported value. None at any other key.
    #[inline(always)]
    fn put(&mut self, key: Key, value: u64) -> Option<()>
        ensures { IfSome result
            (λ _. Keeps (key_name key) (written.integer value) self.old self.new) }
    {
        match key {
            Key::Time => self.time = Some(value),
            Key::Metric(field) => self.metric(field, value),
            _ => return None,
        }
        Some(())
    }

    /// The time or a reported value is found, where its value begins at the place; gives what
    /// follows it.
    #[inline(always)]
    fn reported_at<'a>(&mut self, bytes: &'a [u8], key: Key, place: usize) -> Option<&'a [u8]>
        requires { IsNextKey (key_name key) bytes.now place }
        ensures found { IfSome result (λ rest. Continues self.old self.new bytes.now rest.now) }
        ensures shorter { IfSome result (λ rest. length rest.now < length bytes.now) }
    {
        let (value, rest) = open_integer_at(bytes, place)?;
        self.put(key, value)?;
        Some(rest)
    }
}

/// What follows the kind of a report, which comes first, or behind the bytes in flight.
#[inline(always)]
fn report_begun<'a>(found: &mut Found, bytes: &'a [u8]) -> Option<&'a [u8]>
    requires { found.old ≡ nothing }
    ensures { IfSome result (λ rest. EndsIf found.new bytes.now rest.now) }
{
    let [_, _, first, ..] = bytes else {
        return None;
    };
    if *first != b'b' {
        return found.metrics_first(bytes);
    }
    let rest = found.in_flight_first(bytes)?;
    found.metrics_next(rest)
}

/// A report, where its kind comes first, or behind the bytes in flight alone: so it is in the order
/// of the format and where the keys ascend. It is not begun where a look at two bytes tells that
/// there is none.
#[inline(always)]
pub fn exact_report(bytes: &[u8]) -> Option<Line>
    ensures { Reads bytes.now result }
{
    let [_, _, first, _, _, _, _, _, _, _, kind, ..] = bytes else {
        return None;
    };
    if *first != b'b' && *kind != b'm' {
        return None;
    }
    report(bytes)
}

/// The same.
#[inline(never)]
fn report(bytes: &[u8]) -> Option<Line>
    ensures { Reads bytes.now result }
{
    let mut found = Found::nothing();
    let mut rest = report_begun(&mut found, bytes)?;
    for i in 0..u64::MAX {
        let Some((key, place)) = next_key(rest) else {
            let Some(more) = unknown_next(rest) else {
                return found.ended(rest);
            };
            rest = more;
            continue;
        };
        rest = found.reported_at(rest, key, place)?;
    }
    None
}
