//! The packets in flight of a packet number space, as the log tells of them.
ghost use Rattle.std.specs.Prelude.{◌≡◌, ◌≤◌, ◌↔◌, [], IsTrue, None, OnErr, OnOk, filter, find, not};
ghost use Rattle.std.specs.Ordering.{nat_cmp};
ghost use Rattle.std.specs.BTreeMap.{insert_entry};
ghost use Rattle.qa_base.specs.values.Limits.{max_packet_size};
ghost use Rattle.qa_convert.specs.Flights.{flying_at, flying_bytes, is_within, without_number};

use crate::groups::LostAt;
use crate::receiving::Loss;
use crate::rounding::Age;
use qa_base::{Space, Span, Spans};
use std::alloc::{AllocError, Global};
use std::collections::{BTreeMap, BTreeSet};
use std::marker::Model;

/// A packet that is in flight.
#[derive(Clone, Copy)]
pub struct Flying {
    /// Its size in bytes, at most 65527.
    pub size: u64,
    /// When it was sent, in nanoseconds.
    pub time: u64,
}

/// The packets in flight of a packet number space, and their bytes. Contracts see the packets with
/// their numbers, which rise.
#[derive(Drop)]
pub struct Flight {
    packets: BTreeMap<u64, Flying>,
    bytes: u128,
}

impl Model for Flight {
    ghost use Rattle.std.specs.Prelude.{◌≡◌, ℕ, List};
    ghost use Rattle.qa_convert.specs.Flights.{AreSized, flying_bytes};
    ghost use Rattle.qa_convert.specs.declared.flight.Flying.{Flying as AFlying};

    ghost Value = { List (ℕ × AFlying) };

    ghost view = { λ f. f.packets.entries };

    ghost invariant = { λ f. (f.bytes ≡ flying_bytes f.packets.entries)
        × AreSized f.packets.entries };
}

impl Flight {
    /// None. Takes no memory.
    pub fn new(alloc: Global) -> Flight
        ensures { result ≡ [] }
    {
        Flight {
            packets: BTreeMap::new(alloc),
            bytes: 0,
        }
    }

    /// A packet was sent; one that had this number is in flight no more. `AllocError` comes if it
    /// is out of memory, and leaves the packets without that number.
    pub fn add(&mut self, number: u64, packet: Flying) -> Result<(), AllocError>
        requires { packet.size ≤ max_packet_size }
        ensures ok { OnOk result (self.new
            ≡ insert_entry nat_cmp (without_number number self.old) number packet) }
        ensures err { OnErr result (self.new ≡ without_number number self.old) }
    {
        self.take(number);
        // No clause bounds how many entries a map has, so the sum is tested.
        let Some(bytes) = self.bytes.checked_add(u128::from(packet.size)) else {
            return Err(AllocError);
        };
        self.packets.insert(number, packet)?;
        self.bytes = bytes;
        Ok(())
    }

    /// The packet of this number leaves; None if there is none.
    pub fn take(&mut self, number: u64) -> Option<Flying>
        ensures left { self.new ≡ without_number number self.old }
        ensures gone { flying_at number self.new ≡ None }
        ensures taken { result ≡ flying_at number self.old }
    {
        match self.packets.remove(&number) {
            None => None,
            Some(taken) => {
                self.bytes -= u128::from(taken.size);
                Some(taken)
            }
        }
    }

    /// The bytes of the packets.
    pub fn bytes(&self) -> u128
        ensures { result ≡ flying_bytes self.now }
    {
        self.bytes
    }

    /// The packet of this number, if it is in flight.
    pub fn get(&self, number: u64) -> Option<Flying>
        ensures { result ≡ flying_at number self.now }
    {
        match self.packets.get(&number) {
            None => None,
            Some(packet) => Some(*packet),
        }
    }

    /// The keys of the space are gone.
    pub fn clear(&mut self)
        ensures { self.new ≡ [] }
    {
        self.packets.clear();
        self.bytes = 0;
    }

    /// The first packet in flight that the span names, and its number.
    pub fn first_named(&self, span: Span) -> Option<(u64, Flying)>
        ensures { result ≡ find (λ e. is_within span e.0) self.now }
    {
        let lo = span.lo().get();
        let hi = span.hi().get();
        match self.packets.range(lo..=hi).next() {
            None => None,
            Some((number, packet)) => Some((*number, *packet)),
        }
    }

    /// Whether there is none.
    pub fn is_empty(&self) -> bool
        ensures { IsTrue result ↔ (self.now ≡ []) }
    {
        self.packets.is_empty()
    }

    /// The first packet in flight whose number is at least this one, and its number.
    pub(crate) fn first_from(&self, from: u64) -> Option<(u64, Flying)> {
        match self.packets.range(from..).next() {
            None => None,
            Some((number, packet)) => Some((*number, *packet)),
        }
    }

    /// Adds the numbers of those that ranges name.
    pub(crate) fn add_named(
        &self,
        ranges: &Spans,
        numbers: &mut BTreeSet<u64>,
    ) -> Result<(), AllocError> {
        for span in ranges.as_slice() {
            for (number, _) in self.packets.range(span.lo().get()..=span.hi().get()) {
                numbers.insert(*number)?;
            }
        }
        Ok(())
    }

    /// The bytes of those that have these numbers.
    pub(crate) fn bytes_of(&self, numbers: &BTreeSet<u64>) -> u128 {
        let mut bytes = 0u128;
        for number in numbers {
            if let Some(packet) = self.get(*number) {
                bytes = bytes.saturating_add(u128::from(packet.size));
            }
        }
        bytes
    }

    /// Whether one below a number, and not among losses, is younger than the loss delay only by
    /// what the log cuts off its times.
    pub(crate) fn has_open(&self, top: u64, loss: Loss, space: Space, lost: &[LostAt]) -> bool {
        for (number, packet) in self.packets.range(..top) {
            let age = Age {
                age: loss.time.saturating_sub(packet.time),
                rtt: loss.rtt,
                eighths: loss.eighths,
            };
            if age.is_young() {
                return false;
            }
            let is_lost = lost.iter().any(|it| it.lost.space == space
                && it.lost.number.get() == *number);
            if age.is_open() && !is_lost {
                return true;
            }
        }
        false
    }

    /// Those that the span names leave. Takes some steps for each of them.
    pub fn take_named(&mut self, span: Span)
        ensures { self.new ≡ filter (λ e. not (is_within span e.0)) self.old }
    {
        while let Some((number, _)) = self.first_named(span) {
            self.take(number);
        }
    }
}
