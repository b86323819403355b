//! How long a server is silent that may not send, since the client's address is not validated.
use crate::packet::LoggedPacket;
use crate::size::PacketSize;
use crate::sizes::length_of_hex;
use qa_base::{Role, Space};
use qa_qlog::{Packet, PacketType};

/// How many bytes a server may send for each that came (RFC 9000, section 8.1).
const AMPLIFICATION: u64 = 3;
/// The size of a datagram with an Initial packet (RFC 9000, section 14.1). A probe has that size
/// too.
pub(crate) const LEAST_DATAGRAM: u64 = 1_200;

/// The longest silences of a server that may not send, in nanoseconds.
///
/// A server that has no room for a datagram sets no probe timeout (RFC 9002, section 6.2.2.1), and
/// a trace has no line for that. An address is validated by a token, or by a packet that only who
/// has read the server's packets can send.
#[derive(Clone, Copy)]
pub(crate) struct Validation {
    /// Before an acknowledgment came.
    pub(crate) longest_silence: u64,
    /// Behind one.
    pub(crate) longest_silence_behind_ack: u64,
    is_over: bool,
    has_ack: bool,
    /// Bytes that came.
    received: u64,
    /// Bytes that were sent.
    sent: u64,
    /// When the last ack-eliciting packet was sent, or a timer expired.
    last: Option<u64>,
}

/// The bytes of a size; 0 if there is none.
fn bytes_of(size: Option<PacketSize>) -> u64 {
    match size {
        Some(size) => size.get(),
        None => 0,
    }
}

/// Whether a packet of this space that came shows that the client's address is its own.
fn validates(space: Space, said: &Packet<'_, '_>) -> bool {
    space == Space::Handshake
        || matches!(said.packet_type(), Some(PacketType::OneRtt))
        || 0 < length_of_hex(said.token())
}

impl Validation {
    /// Before the first event of an endpoint.
    pub(crate) fn new(role: Role) -> Validation {
        Validation {
            longest_silence: 0,
            longest_silence_behind_ack: 0,
            is_over: role == Role::Client,
            has_ack: false,
            received: 0,
            sent: 0,
            last: None,
        }
    }

    /// Looks at a timer that expired at a time.
    pub(crate) fn see_timer(&mut self, time: u64) {
        self.last = Some(time);
    }

    /// Looks at a packet of this size that was sent at a time.
    pub(crate) fn see_sent(&mut self, time: u64, packet: &LoggedPacket, size: u64) {
        self.see_silence(time);
        self.sent = self.sent.saturating_add(size);
        if packet.content.is_eliciting {
            self.last = Some(time);
        }
    }

    /// Looks at a packet that came at a time.
    pub(crate) fn see_received(&mut self, time: u64, packet: &LoggedPacket, said: &Packet<'_, '_>) {
        self.see_silence(time);
        self.is_over = self.is_over || validates(packet.space, said);
        if !packet.acks.is_empty() {
            self.has_ack = true;
        }
        // Some logs have the size of an Initial packet without the rest of its datagram.
        let least = if packet.space == Space::Initial {
            LEAST_DATAGRAM
        } else {
            0
        };
        let size = bytes_of(packet.size).max(least);
        self.received = self.received.saturating_add(size);
    }

    /// A silence that ends at a time, if there was no room for a datagram.
    fn see_silence(&mut self, time: u64) {
        let Some(last) = self.last else {
            return;
        };
        let allowed = self.received.saturating_mul(AMPLIFICATION);
        if self.is_over || LEAST_DATAGRAM <= allowed.saturating_sub(self.sent) {
            return;
        }
        let silence = time.saturating_sub(last);
        if self.has_ack {
            self.longest_silence_behind_ack = self.longest_silence_behind_ack.max(silence);
        } else {
            self.longest_silence = self.longest_silence.max(silence);
        }
    }
}
