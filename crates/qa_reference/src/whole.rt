//! A ledger that keeps all events, and judges each by the history before it.
ghost use Rattle.std.specs.Prelude.{◌≡◌, ◌<◌, ◌+◌, ◌∷◌, ◌++◌, List, [], length, true, false, Ok};
ghost use Rattle.std.specs.Prelude.{Err, Some, None, OnOk, OnErr};
ghost use Rattle.qa_base.specs.declared.event.Event.{Event as AnEvent};
ghost use Rattle.qa_base.specs.values.Limits.{max_lines};
ghost use Rattle.qa_base.specs.machine.Loss.{owed};
ghost use Rattle.qa_base.specs.machine.Packets.{history_of};
ghost use Rattle.qa_base.specs.machine.Violations as conduct;
ghost use Rattle.qa_base.specs.machine.Widths.{Fits};
ghost use Rattle.qa_reference.specs.Holding.{StandsFor};
ghost use Rattle.qa_packet_numbers.specs.Sent.{AreSent};

use crate::handshake::is_confirmed;
use crate::lateness::is_late;
use crate::permission::{is_probe_due, probe_spent, recovery_spent};
use crate::questions::{deadline, has_nameable_in, names_losses, owes};
use crate::reported::{acknowledged_since_collapse, reported_window};
use crate::settled::is_discarded;
use crate::totals::{bytes_in_flight, totals, window};
use qa_base::{Due, Event, Header, PacketNumber, Space, Span, Ticks, Totals};
use qa_ledger::{Ledger, LedgerFault, State, first_broken};
use qa_packet_numbers::SentNumbers;
use std::alloc::{AllocError, Global};
use std::marker::Model;

/// A ledger that keeps all events, and judges each by the definitions over those before it.
///
/// It keeps a copy of each event, and the numbers that were sent as sets of runs. The time grows
/// about as the cube of the number of events: 300 take a fraction of a second, and 2,400 about half
/// a minute.
#[derive(Drop)]
pub struct Whole {
    alloc: Global,
    header: Header,
    events: Vec<Event>,
    sent: SentNumbers,
    pub(crate) failed: bool,
}

impl Model for Whole {
    ghost use Rattle.qa_reference.specs.Holding.{Held, IsSound};

    ghost Value = { Held };

    ghost view = { λ w. record { header = w.header; events = w.events.items; failed = w.failed } };

    ghost invariant = { λ w. IsSound w.header w.events.items w.sent };
}

/// Puts an equal event behind the others, and adds the number of a packet that it sends.
fn keep(
    alloc: Global,
    events: &mut Vec<Event>,
    sent: &mut SentNumbers,
    event: &Event,
) -> Result<(), AllocError>
    ensures ok { OnOk result (events.new.items ≡ events.old.items ++ event.now ∷ []) }
    ensures sent { OnOk result ((h : List AnEvent) → AreSent sent.old h
        → AreSent sent.new (event.now ∷ h)) }
    ensures err { OnErr result (events.new.items ≡ events.old.items) }
    ensures unsent { OnErr result (sent.new ≡ sent.old) }
{
    events.reserve(1)?;
    let copy = event.duplicate(alloc)?;
    sent.insert_sent(event)?;
    // There is room, so that nothing is left half done.
    events.push_reserved(copy);
    Ok(())
}

impl Whole {
    /// Puts an event behind the others that breaks no rule after them but those past which the
    /// machine goes on.
    pub(crate) fn push(&mut self, event: &Event) -> Result<(), AllocError>
        requires fit { Fits event.now }
        requires few { length self.old.events < max_lines }
        requires allowed { conduct.first_untolerated self.old.header
            (history_of self.old.events) event.now
            ≡ None }
        ensures ok { OnOk result (self.new
            ≡ record {
              header = self.old.header;
              events = self.old.events
                  ++ event.now ∷ [];
              failed = self.old.failed;
            }) }
        ensures err { OnErr result (self.new
            ≡ record { header = self.old.header; events = self.old.events; failed = true }) }
    {
        // Its time is in its range, which bounds the PTO count of the events that are kept.
        let _time = event.time();
        let kept = keep(self.alloc, &mut self.events, &mut self.sent, event);
        if kept.is_err() {
            self.failed = true;
        }
        kept
    }
}

impl Ledger for Whole {
    ghost use Rattle.std.specs.Prelude.{length};
    ghost use Rattle.qa_reference.specs.Holding.{StandsFor};

    ghost stands = { StandsFor };

    ghost has_failed = { λ w. w.failed };

    ghost admitted = { λ w. length w.events };

    /// A ledger under a header, before any event.
    fn start(alloc: Global, header: Header) -> Whole {
        Whole {
            alloc,
            header,
            events: Vec::new(alloc),
            sent: SentNumbers::new(alloc),
            failed: false,
        }
    }

    /// Admits an event, where it breaks no rule after those that were admitted.
    fn admit(&mut self, event: &Event) -> Result<(), LedgerFault> {
        if self.failed {
            return Err(LedgerFault::OutOfMemory);
        }
        if let Some(rule) = first_broken(self, event) {
            return Err(LedgerFault::Broken(rule));
        }
        match self.push(event) {
            Ok(()) => Ok(()),
            Err(_) => Err(LedgerFault::OutOfMemory),
        }
    }

    /// The state of the machine after the events that were admitted.
    fn totals(&self) -> Totals {
        totals(&self.header, &self.events)
    }

    /// Whether a loss is owed.
    fn owes(&self) -> bool {
        owes(&self.header, &self.events)
    }
}

impl State for Whole {
    ghost use Rattle.qa_reference.specs.Holding.{StandsFor};

    ghost tells = { StandsFor };

    fn max_datagram_size(&self) -> u64 {
        self.header.max_datagram_size()
    }

    fn header(&self) -> Header {
        self.header
    }

    fn last_time(&self) -> Option<Ticks> {
        Some(self.events.last()?.time())
    }

    fn has_owed(&self) -> bool {
        owes(&self.header, &self.events)
    }

    fn has_nameable_in(&self, space: Space) -> bool {
        has_nameable_in(&self.header, &self.events, space)
    }

    fn names_losses(&self, ranges: &[Span]) -> bool {
        names_losses(&self.header, &self.events, ranges)
    }

    fn is_discarded(&self, space: Space) -> bool {
        is_discarded(&self.events, space)
    }

    fn has_at_or_above(&self, space: Space, number: PacketNumber) -> bool {
        self.sent.has_at_or_above(space, number)
    }

    fn were_sent(&self, space: Space, ranges: &[Span]) -> bool {
        self.sent.were_sent(space, ranges)
    }

    fn window(&self) -> u64 {
        window(&self.header, &self.events)
    }

    fn reported_window(&self) -> u64 {
        reported_window(&self.header, &self.events)
    }

    fn acknowledged_since_collapse(&self) -> Option<u64> {
        acknowledged_since_collapse(&self.header, &self.events)
    }

    fn bytes_in_flight(&self) -> u64 {
        bytes_in_flight(&self.header, &self.events)
    }

    fn probe_spent(&self) -> Option<u128> {
        probe_spent(&self.events)
    }

    fn recovery_spent(&self) -> Option<u64> {
        recovery_spent(&self.header, &self.events)
    }

    #[tactic(auto, using(qa_base::proofs::machine::PtoCount::small_pto_count))]
    fn deadline(&self) -> Option<Due> {
        deadline(&self.header, &self.events)
    }

    fn is_late(&self, time: Ticks) -> bool {
        is_late(&self.header, &self.events, time)
    }

    fn is_probe_due(&self) -> bool {
        is_probe_due(&self.events)
    }

    fn is_confirmed(&self) -> bool {
        is_confirmed(&self.events)
    }

    fn totals(&self) -> Totals {
        totals(&self.header, &self.events)
    }
}
