//! The numbers of the packets that were sent, as a set for each packet number space.
ghost use Rattle.std.specs.Prelude.{◌≡◌, ◌≤◌, ◌<◌, ◌+◌, ◌^◌, ℕ, List, [], ◌∷◌, length, true, OnOk};
ghost use Rattle.std.specs.Prelude.{OnErr, nat_le, nat_lt};
ghost use Rattle.qa_base.specs.declared.event.Event.{Event as AnEvent};
ghost use Rattle.qa_base.specs.declared.space.Space.TheVariants.{Initial, Handshake, App};
ghost use Rattle.qa_base.specs.machine.Breaches as breaches;
ghost use Rattle.qa_base.specs.machine.Detection.{count_between};
ghost use Rattle.qa_base.specs.machine.Kept as kept;
ghost use Rattle.qa_base.specs.machine.Numbers as numbers;
ghost use Rattle.qa_base.specs.machine.Packets.{greatest_of};
ghost use Rattle.qa_base.specs.machine.Violations.{IsToleratedRun};
ghost use Rattle.qa_base.specs.values.Events.{is_sent};
ghost use Rattle.qa_base.specs.values.Settings.{Settings};
ghost use Rattle.qa_packet_numbers.specs.Missing.{first_outside};
ghost use Rattle.qa_packet_numbers.specs.Runs.{AreApart};
ghost use Rattle.qa_packet_numbers.specs.Sent.{AreSent, AreSentWith, runs_in};

use crate::Ranges;
use qa_base::{Event, PacketNumber, PerSpace, Space, Span};
use std::alloc::{AllocError, Global};
use std::marker::Model;

/// The numbers of the packets that were sent, a set for each packet number space.
///
/// It takes memory for each run of consecutive numbers. `AreSent` says of which history it has the
/// numbers.
#[derive(Drop)]
pub struct SentNumbers {
    sets: PerSpace<Ranges>,
}

impl Model for SentNumbers {
    ghost use Rattle.qa_packet_numbers.specs.Sent.{BySpace};

    ghost Value = { BySpace };

    ghost view = { λ s. s.sets };
}

impl SentNumbers {
    /// No numbers. Takes no memory.
    pub fn new(alloc: Global) -> SentNumbers
        ensures { AreSent result [] }
    {
        SentNumbers {
            sets: PerSpace {
                initial: Ranges::new(alloc),
                handshake: Ranges::new(alloc),
                app: Ranges::new(alloc),
            },
        }
    }

    /// Whether a packet of the space was sent with this number or a higher one.
    pub fn has_at_or_above(&self, space: Space, number: PacketNumber) -> bool
        ensures { (h : List AnEvent) → AreSent self.now h
            → result ≡ breaches.has_at_or_above space number h }
    {
        self.sets
            .of(space)
            .greatest()
            .is_some_and(|greatest| number <= greatest)
    }

    /// Whether each number of the ranges was sent in the space.
    pub fn were_sent(&self, space: Space, ranges: &[Span]) -> bool
        ensures { (h : List AnEvent) → AreSent self.now h
            → result ≡ numbers.has_all (kept.numbers_of h space) ranges.now }
    {
        let sent = self.sets.of(space);
        for range in ranges {
            if !sent.covers(*range) {
                return false;
            }
        }
        true
    }

    /// The greatest number that was sent in the space; None before any.
    pub fn greatest_sent(&self, space: Space) -> Option<PacketNumber>
        ensures { (h : List AnEvent) → AreSent self.now h
            → result ≡ greatest_of (kept.numbers_of h space) }
    {
        self.sets.of(space).greatest()
    }

    /// The least number of the ranges that was not sent in the space; None where all were.
    pub fn first_unsent(&self, space: Space, ranges: &[Span]) -> Option<PacketNumber>
        ensures { (h : List AnEvent) → AreSent self.now h
            → result ≡ first_outside ranges.now (kept.numbers_of h space) }
    {
        self.sets.of(space).first_missing(ranges)
    }

    /// The number below which those lie that have at least so many sent numbers of the space above
    /// them and up to `top`. 0 where there are none.
    pub fn end_below(&self, space: Space, top: PacketNumber, count: u64) -> u64
        requires { 1 ≤ count }
        ensures { (c : Settings) (h : List AnEvent) → IsToleratedRun c h → AreSent self.now h
            → (n : ℕ) → nat_lt n result ≡ nat_le count (count_between h space n top) }
    {
        self.sets.of(space).end_below(top, count)
    }

    /// How many packets of the space were sent with a number above one and up to another.
    pub fn count_between(&self, space: Space, number: PacketNumber, top: PacketNumber) -> u64
        ensures { (c : Settings) (h : List AnEvent) → IsToleratedRun c h → AreSent self.now h
            → result ≡ count_between h space number top }
    {
        self.sets.of(space).count_between(number, top)
    }

    /// Adds the number of a packet that is sent in the space. `AllocError` comes where it is out of
    /// memory, and leaves the sets as they were.
    #[tactic(auto, using(crate::proofs::Histories::sent_more, crate::proofs::Histories::with_same))]
    pub fn insert(&mut self, space: Space, number: PacketNumber) -> Result<(), AllocError>
        ensures ok { OnOk result ((h : List AnEvent) → AreSent self.old h
            → AreSentWith self.new space number h) }
        ensures err { OnErr result (self.new ≡ self.old) }
    {
        let alone = Span::new(number, number).unwrap();
        self.sets.of_mut(space).insert_range(alone)
    }

    /// Adds the number of the packet that the event sends, where it sends one. `AllocError` comes
    /// where it is out of memory, which only such an event can be, and leaves the sets as they
    /// were.
    pub fn insert_sent(&mut self, event: &Event) -> Result<(), AllocError>
        ensures ok { OnOk result ((h : List AnEvent) → AreSent self.old h
            → AreSent self.new (event.now ∷ h)) }
        ensures err { OnErr result (self.new ≡ self.old) }
        ensures memory { OnErr result (is_sent event.now ≡ true) }
    {
        match event {
            Event::Sent(packet) => self.insert(packet.space, packet.number),
            _ => Ok(()),
        }
    }

    /// How many runs of consecutive numbers were sent, in all spaces: the spans that it keeps. Of a
    /// tolerated run there are no more than events.
    pub fn runs(&self) -> u128
        ensures kept { result ≡ length (runs_in self.now Initial)
            + length (runs_in self.now Handshake) + length (runs_in self.now App) }
        ensures sent { (c : Settings) (h : List AnEvent) → IsToleratedRun c h → AreSent self.now h
            → result ≡ kept.runs h }
        ensures small { result < 2 ^ 66 }
        ensures bound { (c : Settings) (h : List AnEvent) → IsToleratedRun c h → AreSent self.now h
            → result ≤ length h }
    {
        u128::from(self.sets.initial.runs())
            + u128::from(self.sets.handshake.runs())
            + u128::from(self.sets.app.runs())
    }
}
