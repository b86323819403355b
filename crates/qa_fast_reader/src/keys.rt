//! The keys of events.
ghost use Rattle.std.specs.Prelude.{◌≡◌, ◌++◌, ◌∷◌, ◌||◌, [], bytes_eq, codes, IfSome};
ghost use Rattle.qa_base.specs.values.Names.{key_name};
ghost use Rattle.qa_scan.specs.Lexes.{IsKey};
ghost use Rattle.qa_fast_reader.specs.Found as found;

use qa_base::{Field, Key};
use qa_scan::{after, colon};

/// The key, where the bytes begin with its name in quotes and a colon, and what follows them. The
/// name comes in two parts, its quotes with them: the first is known when the key is, so that
/// mostly the second alone is compared.
#[inline(always)]
fn key_if<'a>(key: Key, bytes: &'a [u8], begins: &[u8], ends: &[u8]) -> Option<(Key, &'a [u8])>
    requires { begins.now ++ ends.now ≡ 34 ∷ (key_name key ++ 34 ∷ []) }
    ensures { IfSome result (λ found. IsKey (key_name found.0) bytes.now found.1.now) }
{
    let rest = colon(after(after(bytes, begins)?, ends)?)?;
    Some((key, rest))
}

/// The key of an event that the bytes begin with, and what follows it and its colon.
#[inline(always)]
pub fn event_key(bytes: &[u8]) -> Option<(Key, &[u8])>
    ensures { IfSome result (λ found. IsKey (key_name found.0) bytes.now found.1.now) }
{
    let [_, first, second, ..] = bytes else {
        return None;
    };
    // The first two letters tell the keys apart.
    match (*first, *second) {
        (b't', b'i') => key_if(Key::Time, bytes, b"\"ti", b"me\""),
        (b's', b'p') => key_if(Key::Space, bytes, b"\"sp", b"ace\""),
        (b'n', b'u') => key_if(Key::Number, bytes, b"\"nu", b"mber\""),
        (b's', b'i') => key_if(Key::Size, bytes, b"\"si", b"ze\""),
        (b'e', b'v') => key_if(Key::Event, bytes, b"\"ev", b"ent\""),
        (b'e', b'l') => key_if(Key::Eliciting, bytes, b"\"el", b"iciting\""),
        (b'i', b'n') => key_if(Key::InFlight, bytes, b"\"in", b"_flight\""),
        (b'l', b'e') => key_if(Key::Leave, bytes, b"\"le", b"ave\""),
        (b'r', b'a') => key_if(Key::Ranges, bytes, b"\"ra", b"nges\""),
        (b'd', b'e') => key_if(Key::Delay, bytes, b"\"de", b"lay\""),
        (b'l', b'i') => key_if(Key::Limited, bytes, b"\"li", b"mited\""),
        (b'k', b'i') => key_if(Key::Kind, bytes, b"\"ki", b"nd\""),
        (b'w', b'i') => key_if(Key::Metric(Field::Window), bytes, b"\"wi", b"ndow\""),
        (b's', b's') => key_if(Key::Metric(Field::Ssthresh), bytes, b"\"ss", b"thresh\""),
        (b'b', b'y') => key_if(
            Key::Metric(Field::BytesInFlight),
            bytes,
            b"\"by",
            b"tes_in_flight\"",
        ),
        (b'l', b'a') => key_if(Key::Metric(Field::LatestRtt), bytes, b"\"la", b"test_rtt\""),
        (b'm', b'i') => key_if(Key::Metric(Field::MinRtt), bytes, b"\"mi", b"n_rtt\""),
        (b's', b'm') => key_if(
            Key::Metric(Field::SmoothedRtt),
            bytes,
            b"\"sm",
            b"oothed_rtt\"",
        ),
        (b'r', b't') => key_if(Key::Metric(Field::Rttvar), bytes, b"\"rt", b"tvar\""),
        _ => None,
    }
}

/// Whether the key has this name.
#[inline(always)]
fn is(key: &[u8], name: &[u8]) -> bool
    ensures { result ≡ bytes_eq name.now key.now }
{
    name == key
}

/// Whether an event has this key. Its length leaves few names to compare.
pub fn is_known(key: &[u8]) -> bool
    ensures { result ≡ found.is_known key.now }
{
    match key.len() {
        4 => is_known_of_four(key),
        5 => is_known_of_five(key),
        6 => is_known_of_six(key),
        7 => is_known_of_seven(key),
        8 => is(key, b"ssthresh"),
        9 => is_known_of_nine(key),
        10 => is(key, b"latest_rtt"),
        12 => is(key, b"smoothed_rtt"),
        15 => is(key, b"bytes_in_flight"),
        _ => false,
    }
}

/// Whether it is one of those with four letters.
#[inline(always)]
fn is_known_of_four(key: &[u8]) -> bool
    ensures { result ≡ (bytes_eq (codes "time") key.now
        || bytes_eq (codes "size") key.now
        || bytes_eq (codes "kind") key.now) }
{
    is(key, b"time") || is(key, b"size") || is(key, b"kind")
}

/// Whether it is one of those with five letters.
#[inline(always)]
fn is_known_of_five(key: &[u8]) -> bool
    ensures { result ≡ (bytes_eq (codes "event") key.now
        || bytes_eq (codes "space") key.now
        || bytes_eq (codes "leave") key.now
        || bytes_eq (codes "delay") key.now) }
{
    is(key, b"event") || is(key, b"space") || is(key, b"leave") || is(key, b"delay")
}

/// Whether it is one of those with six letters.
#[inline(always)]
fn is_known_of_six(key: &[u8]) -> bool
    ensures { result ≡ (bytes_eq (codes "number") key.now
        || bytes_eq (codes "ranges") key.now
        || bytes_eq (codes "window") key.now
        || bytes_eq (codes "rttvar") key.now) }
{
    is(key, b"number") || is(key, b"ranges") || is(key, b"window") || is(key, b"rttvar")
}

/// Whether it is one of those with seven letters.
#[inline(always)]
fn is_known_of_seven(key: &[u8]) -> bool
    ensures { result ≡ (bytes_eq (codes "limited") key.now
        || bytes_eq (codes "min_rtt") key.now) }
{
    is(key, b"limited") || is(key, b"min_rtt")
}

/// Whether it is one of those with nine letters.
#[inline(always)]
fn is_known_of_nine(key: &[u8]) -> bool
    ensures { result ≡ (bytes_eq (codes "eliciting") key.now
        || bytes_eq (codes "in_flight") key.now) }
{
    is(key, b"eliciting") || is(key, b"in_flight")
}
