//! The size of a packet.
ghost use Rattle.std.specs.Prelude.{◌≡◌, ◌≤◌};
ghost use Rattle.qa_base.specs.values.Limits.{in_range, max_packet_size};

use std::marker::Model;

/// The size of a packet in bytes, 1 to 65527 (RFC 9000, section 18.2).
#[derive(Clone, Copy, PartialEq, Eq)]
pub struct PacketSize {
    bytes: u64,
}

impl Model for PacketSize {
    ghost use Rattle.std.specs.Prelude.{ℕ, ◌≤◌};
    ghost use Rattle.qa_base.specs.values.Limits.{max_packet_size};

    ghost Value = { ℕ };

    ghost view = { λ s. s.bytes };

    ghost invariant = { λ s. (1 ≤ s.bytes) × (s.bytes ≤ max_packet_size) };

    ghost inverse = { λ n. record { bytes = n } };
}

impl PacketSize {
    /// The most bytes.
    pub const MAX: u64 = 65_527;

    /// A size of so many bytes, if a packet may have it.
    pub fn new(bytes: u64) -> Option<PacketSize>
        ensures { result ≡ in_range 1 max_packet_size bytes }
    {
        if 1 <= bytes && bytes <= PacketSize::MAX {
            Some(PacketSize { bytes })
        } else {
            None
        }
    }

    /// How many bytes it is.
    pub fn get(self) -> u64
        ensures value { result ≡ self }
        ensures some { 1 ≤ self }
        ensures few { self ≤ max_packet_size }
    {
        self.bytes
    }
}
