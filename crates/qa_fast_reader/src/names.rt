//! The strings that name a kind of line, a space, a reason to leave and a kind of timer.
ghost use Rattle.std.specs.Prelude.{IfSome};
ghost use Rattle.qa_base.specs.values.Names.{line_kind_name, space_name, permission_name};
ghost use Rattle.qa_base.specs.values.Names.{kind_name};
ghost use Rattle.qa_scan.specs.Lexes.{IsQuoted};

use qa_base::{LineKind, Permission, Space, TimerKind};
use qa_scan::after;

/// The kind of an event's line, and what follows it.
#[inline(always)]
pub fn line_kind(bytes: &[u8]) -> Option<(LineKind, &[u8])>
    ensures { IfSome result (λ found. IsQuoted (line_kind_name found.0) bytes.now found.1.now) }
{
    if let Some(found) = kind_with_packets(bytes) {
        return Some(found);
    }
    kind_without_packets(bytes)
}

/// The same, if the line is of packets, as most are.
#[inline(always)]
fn kind_with_packets(bytes: &[u8]) -> Option<(LineKind, &[u8])>
    ensures { IfSome result (λ found. IsQuoted (line_kind_name found.0) bytes.now found.1.now) }
{
    if let Some(rest) = after(bytes, b"\"sent\"") {
        return Some((LineKind::Sent, rest));
    }
    if let Some(rest) = after(bytes, b"\"ack\"") {
        return Some((LineKind::Ack, rest));
    }
    Some((LineKind::Lost, after(bytes, b"\"lost\"")?))
}

/// The same, if it is not.
#[inline(always)]
fn kind_without_packets(bytes: &[u8]) -> Option<(LineKind, &[u8])>
    ensures { IfSome result (λ found. IsQuoted (line_kind_name found.0) bytes.now found.1.now) }
{
    if let Some(rest) = after(bytes, b"\"timer\"") {
        return Some((LineKind::Timer, rest));
    }
    if let Some(rest) = after(bytes, b"\"discard\"") {
        return Some((LineKind::Discard, rest));
    }
    if let Some(rest) = after(bytes, b"\"confirmed\"") {
        return Some((LineKind::Confirmed, rest));
    }
    if let Some(rest) = after(bytes, b"\"metrics\"") {
        return Some((LineKind::Metrics, rest));
    }
    Some((LineKind::Keys, after(bytes, b"\"keys\"")?))
}

/// A packet number space, and what follows it.
#[inline(always)]
pub fn space(bytes: &[u8]) -> Option<(Space, &[u8])>
    ensures { IfSome result (λ found. IsQuoted (space_name found.0) bytes.now found.1.now) }
{
    if let Some(rest) = after(bytes, b"\"app\"") {
        return Some((Space::App, rest));
    }
    if let Some(rest) = after(bytes, b"\"handshake\"") {
        return Some((Space::Handshake, rest));
    }
    Some((Space::Initial, after(bytes, b"\"initial\"")?))
}

/// Why a packet was allowed to leave, and what follows it.
#[inline(always)]
pub fn permission(bytes: &[u8]) -> Option<(Permission, &[u8])>
    ensures { IfSome result (λ found. IsQuoted (permission_name found.0) bytes.now found.1.now) }
{
    if let Some(rest) = after(bytes, b"\"window\"") {
        return Some((Permission::Window, rest));
    }
    if let Some(rest) = after(bytes, b"\"probe\"") {
        return Some((Permission::Probe, rest));
    }
    Some((Permission::Recovery, after(bytes, b"\"recovery\"")?))
}

/// The kind of a timer, and what follows it.
#[inline(always)]
pub fn timer_kind(bytes: &[u8]) -> Option<(TimerKind, &[u8])>
    ensures { IfSome result (λ found. IsQuoted (kind_name found.0) bytes.now found.1.now) }
{
    if let Some(rest) = after(bytes, b"\"loss\"") {
        return Some((TimerKind::Loss, rest));
    }
    Some((TimerKind::Pto, after(bytes, b"\"pto\"")?))
}
