//! What a cause asks of the events before an event, beside what the rules ask.
ghost use Rattle.std.specs.Prelude.{◌≡◌, List, IfOk};
ghost use Rattle.qa_base.specs.declared.event.Event.{Event as AnEvent};
ghost use Rattle.qa_base.specs.machine.Probes as probes;
ghost use Rattle.qa_base.specs.machine.Timer as timers;
ghost use Rattle.qa_base.specs.values.Settings.{Settings};
ghost use Rattle.qa_ledger.specs.causes.Causes as causes;

use crate::State;
use crate::causes::cause::{Counted, Oldest};
use qa_base::{Due, PacketNumber, Space, Span, Ticks};
use std::alloc::AllocError;

/// The state of the machine after a header and some events, as a cause asks for it: beside the
/// answers to the rules the numbers and times by which they were given.
///
/// It is asked once, for the event that is refused, and may take memory then.
pub trait Facts: State {
    /// The numbers of the packets that are owed, in the order of sending. `AllocError` comes where
    /// it is out of memory.
    fn owed_numbers(&self) -> Result<Vec<PacketNumber>, AllocError>
        ensures { IfOk result (λ found. (c : Settings) (h : List AnEvent)
            → Self.tells self.now c h → found.items ≡ causes.owed_numbers c h) };

    /// The numbers of the packets that the next Lost line may name, which are owed or free, in the
    /// order of sending. `AllocError` comes where it is out of memory.
    fn nameable_numbers(&self) -> Result<Vec<PacketNumber>, AllocError>
        ensures { IfOk result (λ found. (c : Settings) (h : List AnEvent)
            → Self.tells self.now c h → found.items ≡ causes.nameable_numbers c h) };

    /// The numbers of those of them that are free, in the order of sending. `AllocError` comes
    /// where it is out of memory.
    fn free_numbers(&self) -> Result<Vec<PacketNumber>, AllocError>
        ensures { IfOk result (λ found. (c : Settings) (h : List AnEvent)
            → Self.tells self.now c h → found.items ≡ causes.free_numbers c h) };

    /// The space in which the last event looked for losses; None where it did not.
    fn searched(&self) -> Option<Space>
        ensures { (c : Settings) (h : List AnEvent) → Self.tells self.now c h
            → result ≡ causes.searched c h };

    /// The space of those that are owed; None where nothing is.
    fn owed_space(&self) -> Option<Space>
        ensures { (c : Settings) (h : List AnEvent) → Self.tells self.now c h
            → result ≡ causes.owed_space c h };

    /// How far a number of the space lies below the largest acknowledged one, by the packets that
    /// were sent; None where the packet threshold counts numbers, and where nothing of the space
    /// was acknowledged.
    fn counted(&self, space: Space, number: PacketNumber) -> Option<Counted>
        ensures { (c : Settings) (h : List AnEvent) → Self.tells self.now c h
            → result ≡ causes.counted c h space number };

    /// The greatest number that was sent in the space; None before any.
    fn greatest_sent(&self, space: Space) -> Option<PacketNumber>
        ensures { (c : Settings) (h : List AnEvent) → Self.tells self.now c h
            → result ≡ causes.greatest_sent h space };

    /// The least number of the ranges that was not sent in the space; None where all were.
    fn first_unsent(&self, space: Space, ranges: &[Span]) -> Option<PacketNumber>
        ensures { (c : Settings) (h : List AnEvent) → Self.tells self.now c h
            → result ≡ causes.first_unsent h space ranges.now };

    /// The oldest packet of the space that is open and in flight; None where there is none.
    fn oldest(&self, space: Space) -> Option<Oldest>
        ensures { (c : Settings) (h : List AnEvent) → Self.tells self.now c h
            → result ≡ causes.oldest c h space };

    /// When the last ack-eliciting packet of the space was sent; None before any.
    fn last_eliciting(&self, space: Space) -> Option<Ticks>
        ensures { (c : Settings) (h : List AnEvent) → Self.tells self.now c h
            → result ≡ timers.last_eliciting h space };

    /// When the timer was last set; None before that.
    fn last_set(&self) -> Option<Ticks>
        ensures { (c : Settings) (h : List AnEvent) → Self.tells self.now c h
            → result ≡ timers.last_set h };

    /// What the timer is set for by packets, and not as the timer that a client keeps until it is
    /// validated; None where it is not.
    fn packet_deadline(&self) -> Option<Due>
        ensures { (c : Settings) (h : List AnEvent) → Self.tells self.now c h
            → result ≡ timers.packet_deadline c h };

    /// Since when the timer is set for what it is; 0 where the header has no limit for how late it
    /// may be.
    fn set_since(&self) -> Ticks
        ensures { (c : Settings) (h : List AnEvent) → Self.tells self.now c h
            → result ≡ causes.limited_since c h };

    /// The space in which the probe of the last probe timeout is due; None where none is.
    fn probe_due(&self) -> Option<Space>
        ensures { (c : Settings) (h : List AnEvent) → Self.tells self.now c h
            → result ≡ probes.probe_due h };
}
