//! The congestion window, move by move (RFC 9002, section 7, appendix B).
ghost use Rattle.std.specs.Prelude.{◌≡◌, fold};
ghost use Rattle.qa_base.specs.machine.Reno as moves;
ghost use Rattle.qa_sender.specs.connection.Steps as steps;
ghost use Rattle.qa_sender.specs.connection.Steps.{IsDatagramSize};

use qa_base::limits::MAX_PACKET_SIZE;
use qa_base::{Header, Ticks};
use qa_recovery::Reno;
use qa_sent_packets::SentPacket;

/// The greatest window that grows, 2^62 bytes. No tolerated run reaches it: its window is below
/// 2^49.
const MAX_WINDOW: u64 = 4_611_686_018_427_387_904;

/// What is lost by an event (RFC 9002, A.10).
#[derive(Clone, Copy)]
pub struct Losses {
    /// When the last packet was sent that is lost by it, by which recovery is told, where there is
    /// one.
    pub last_lost: Option<Ticks>,
    /// Whether they establish persistent congestion (section 7.6).
    pub is_persistent: bool,
}

/// The window at the start.
pub(crate) fn start(header: &Header) -> Reno
    ensures { result ≡ moves.start header.now.initial_window }
{
    Reno::start(header.initial_window())
}

/// Persistent congestion is taken in, where there is any (B.8).
pub(crate) fn on_persistent_congestion(reno: &mut Reno, is_persistent: bool, max_datagram_size: u64)
    requires { IsDatagramSize max_datagram_size }
    ensures { reno.new ≡ fold (moves.moved max_datagram_size) reno.old
        (moves.persistent_congestions is_persistent) }
{
    if is_persistent {
        reno.on_persistent_congestion(max_datagram_size);
    }
}

/// Whether the window and the packet's size are in the ranges in which it grows; those of a
/// tolerated run are.
fn can_grow(window: u64, size: u64) -> bool
    ensures { result ≡ steps.can_grow window size }
{
    1 <= window && window <= MAX_WINDOW && 1 <= size && size <= MAX_PACKET_SIZE
}

/// The window grows since the packet was acknowledged (B.5).
fn grow_by(reno: &mut Reno, packet: &SentPacket, header: &Header)
    ensures { reno.new ≡ steps.grown_by header.now reno.old packet.now }
{
    if packet.in_flight && can_grow(reno.window, packet.size) {
        let sent = packet.mark(header.options().recovery_by_order);
        reno.grow(packet.size, sent, header.max_datagram_size());
    }
}

/// The window grows since the packets were acknowledged, one after the other.
pub(crate) fn grow(reno: &mut Reno, packets: &[SentPacket], header: &Header)
    ensures { reno.new ≡ fold (steps.grown_by header.now) reno.old packets.now }
{
    for packet in packets {
        grow_by(reno, packet, header);
    }
}
