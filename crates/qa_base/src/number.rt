//! Numbers in their ranges, and ranges of packet numbers.
ghost use Rattle.std.specs.Prelude.{◌≡◌, ◌≤◌, [], ◌∷◌, ◌++◌, IfOk, OnOk, OnErr, nat_le, Some, None};
ghost use Rattle.std.specs.Prelude.{if◌then◌else◌};
ghost use Rattle.qa_base.specs.machine.Packets as packets;
ghost use Rattle.qa_base.specs.values.Limits.{max_time, max_packet_number, in_range};

use std::alloc::{AllocError, Global};
use std::marker::Model;

/// A time or a span of time in the unit of its trace, from 0 to 10^15: 31 years of microseconds, or
/// 11 days and 13 hours of nanoseconds.
#[derive(Clone, Copy, Debug, PartialEq, Eq, PartialOrd, Ord)]
pub struct Ticks {
    value: u64,
}

impl Model for Ticks {
    ghost use Rattle.std.specs.Prelude.{ℕ, ◌≤◌};
    ghost use Rattle.qa_base.specs.values.Limits.{max_time};

    ghost Value = { ℕ };

    ghost view = { λ m. m.value };

    ghost invariant = { λ m. m.value ≤ max_time };

    ghost inverse = { λ n. record { value = n } };
}

impl Ticks {
    /// The greatest time, 10^15.
    pub const MAX: u64 = 1_000_000_000_000_000;

    /// This many units, or None above 10^15.
    pub fn new(value: u64) -> Option<Ticks>
        ensures { result ≡ in_range 0 max_time value }
    {
        if value <= Ticks::MAX {
            Some(Ticks { value })
        } else {
            None
        }
    }

    /// This many units, which are known to be at most 10^15.
    pub fn of(value: u64) -> Ticks
        requires { value ≤ max_time }
        ensures { result ≡ value }
    {
        Ticks { value }
    }

    /// How many units it is.
    pub fn get(self) -> u64
        ensures value { result ≡ self }
        ensures range { self ≤ max_time }
    {
        self.value
    }
}

/// The number of a packet within its packet number space, from 0 to 2^62 - 1 (RFC 9000, section
/// 12.3).
#[derive(Clone, Copy, PartialEq, Eq, PartialOrd, Ord)]
pub struct PacketNumber {
    value: u64,
}

impl Model for PacketNumber {
    ghost use Rattle.std.specs.Prelude.{ℕ, ◌≤◌};
    ghost use Rattle.qa_base.specs.values.Limits.{max_packet_number};

    ghost Value = { ℕ };

    ghost view = { λ p. p.value };

    ghost invariant = { λ p. p.value ≤ max_packet_number };

    ghost inverse = { λ n. record { value = n } };
}

impl PacketNumber {
    /// The greatest packet number, 2^62 - 1.
    pub const MAX: u64 = 4_611_686_018_427_387_903;

    /// The packet number of this value, or None above 2^62 - 1.
    pub fn new(value: u64) -> Option<PacketNumber>
        ensures { result ≡ in_range 0 max_packet_number value }
    {
        if value <= PacketNumber::MAX {
            Some(PacketNumber { value })
        } else {
            None
        }
    }

    /// The number itself.
    pub fn get(self) -> u64
        ensures value { result ≡ self }
        ensures range { self ≤ max_packet_number }
    {
        self.value
    }
}

/// The packet numbers from `lo` to `hi`, both of them in it; `lo` is not above `hi`.
#[derive(Clone, Copy, PartialEq, Eq)]
pub struct Span {
    lo: PacketNumber,
    hi: PacketNumber,
}

impl Model for Span {
    ghost use Rattle.std.specs.Prelude.{ℕ, ◌≤◌};

    ghost Value = { ℕ × ℕ };

    ghost view = { λ s. (s.lo, s.hi) };

    ghost invariant = { λ s. s.lo ≤ s.hi };

    ghost inverse = { λ p. record { lo = p.0; hi = p.1 } };
}

impl Span {
    /// The span from `lo` to `hi`, or None where `lo` is above `hi`.
    pub fn new(lo: PacketNumber, hi: PacketNumber) -> Option<Span>
        ensures { result ≡ (if nat_le lo hi then Some (lo, hi) else None) }
    {
        if lo <= hi {
            Some(Span { lo, hi })
        } else {
            None
        }
    }

    /// The least number of the span.
    pub fn lo(self) -> PacketNumber
        ensures value { result ≡ self.0 }
        ensures order { self.0 ≤ self.1 }
    {
        self.lo
    }

    /// The greatest number of the span.
    pub fn hi(self) -> PacketNumber
        ensures value { result ≡ self.1 }
        ensures order { self.0 ≤ self.1 }
    {
        self.hi
    }
}

/// For how many spans an emptied list has memory at most.
const KEPT_SPANS: usize = 1_024;

/// A list of spans in the order in which they stand on a line; they may overlap and stand in any
/// order.
///
/// It stands for a `Vec<Span>` in an event: contracts see it as the list of its pairs, so that an
/// equal list of spans is an equal value.
#[derive(Drop)]
pub struct Spans {
    items: Vec<Span>,
}

impl Model for Spans {
    ghost use Rattle.std.specs.Prelude.{ℕ, List};

    ghost Value = { List (ℕ × ℕ) };

    ghost view = { λ s. s.items.items };
}

impl PartialEq for Spans {
    ghost use Rattle.std.specs.Prelude.{nat_eq};
    ghost use Rattle.std.specs.Ordering.{on, eq_of_both};
    ghost use Rattle.std.specs.Cmp.Lexicographic.{pointwise};
    ghost use Rattle.std.specs.Cmp.Rules.{comparing};
    ghost use Rattle.std.proofs.Common.{rules};

    ghost eq = { pointwise (eq_of_both (on (λ s. s.0) nat_eq) (on (λ s. s.1) nat_eq)) };

    ghost laws = { Prim.search (comparing, rules) };

    fn eq(&self, other: &Spans) -> bool {
        self.items == other.items
    }
}

impl Eq for Spans {
    ghost use Rattle.std.specs.Cmp.Rules.{comparing};
    ghost use Rattle.std.proofs.Common.{rules};

    ghost laws = { Prim.search (comparing, rules) };
}

impl Spans {
    /// No spans. Takes no memory.
    pub fn new(alloc: Global) -> Spans
        ensures { result ≡ [] }
    {
        Spans {
            items: Vec::new(alloc),
        }
    }

    /// Makes room for so many spans more. `AllocError` comes where it is out of memory. The list
    /// stays as it is.
    pub fn reserve(&mut self, additional: usize) -> Result<(), AllocError>
        ensures { self.new ≡ self.old }
    {
        self.items.reserve(additional)
    }

    /// Puts a span at the end. `AllocError` comes where it is out of memory, and leaves the list as
    /// it was.
    #[inline(always)]
    pub fn push(&mut self, span: Span) -> Result<(), AllocError>
        ensures ok { OnOk result (self.new ≡ self.old ++ span ∷ []) }
        ensures err { OnErr result (self.new ≡ self.old) }
    {
        self.items.push(span)?;
        Ok(())
    }

    /// An empty list in the memory of this one, so that the next list need not ask for any. Memory
    /// for more than 1,024 spans, which is 16 KiB, is given back.
    #[inline(always)]
    pub fn emptied(self, alloc: Global) -> Spans
        ensures { result ≡ [] }
    {
        let mut items = self.items;
        if KEPT_SPANS < items.capacity() {
            return Spans::new(alloc);
        }
        items.clear();
        Spans { items }
    }

    /// An equal list, in memory of its own. `AllocError` comes where it is out of memory.
    pub fn duplicate(&self, alloc: Global) -> Result<Spans, AllocError>
        ensures { IfOk result (λ copy. copy ≡ self.now) }
    {
        let items = Vec::from_slice(alloc, self.as_slice())?;
        Ok(Spans { items })
    }

    /// The greatest number of the spans; 0 where there is none.
    pub fn greatest(&self) -> PacketNumber
        ensures { result ≡ packets.greatest self.now }
    {
        let mut most = PacketNumber { value: 0 };
        for span in self.as_slice() {
            most = span.hi().max(most);
        }
        most
    }

    /// The spans in their order.
    pub fn as_slice(&self) -> &[Span]
        ensures { result.now ≡ self.now }
    {
        self.items.as_slice()
    }
}
