//! The ledger that keeps no event.
ghost use Rattle.std.specs.Prelude.{◌≡◌, ◌≤◌, ◌<◌, ◌+◌, ◌*◌, [], ◌∷◌, length, List, true, false};
ghost use Rattle.std.specs.Prelude.{Some, None, Err, OnOk, OnErr};
ghost use Rattle.qa_base.specs.declared.event.Event.{Event as AnEvent};
ghost use Rattle.qa_base.specs.declared.rule.Rule.{Rule as ARule};
ghost use Rattle.qa_base.specs.declared.space.Space.TheVariants.{Initial, Handshake, App};
ghost use Rattle.qa_base.specs.machine.Violations as conduct;
ghost use Rattle.qa_base.specs.machine.Kept as kept;
ghost use Rattle.qa_base.specs.machine.Loss.{owed};
ghost use Rattle.qa_base.specs.machine.Packets.{is_some_packet};
ghost use Rattle.qa_base.specs.machine.Rules as rules;
ghost use Rattle.qa_base.specs.machine.State as state;
ghost use Rattle.qa_base.specs.values.Events.{fits};
ghost use Rattle.qa_base.specs.values.Settings.{Settings};
ghost use Rattle.qa_packet_numbers.specs.Sent.{runs_in};
ghost use Rattle.qa_sender.specs.Following.{takes_memory};
ghost use Rattle.qa_sender.specs.Running.{Answers, IsAfter};
ghost use Rattle.qa_sent_packets.specs.Held.{aside_count, unacknowledged_in};
ghost use Rattle.qa_base.specs.values.Limits.{max_lines};

use crate::machine::Machine;
use qa_base::{Event, Header, Totals};
use qa_ledger::{Ledger, LedgerFault, Quantities, first_broken};
use std::alloc::{AllocError, Global};
use std::marker::Model;

/// A ledger that passes once over the events, and keeps none of them.
///
/// It keeps the packets since the oldest that is still open or owed, and of those before some that
/// are open and were set aside; the numbers that were sent as runs; and what the machine knows of
/// the connection. An event takes about the same time however many there were before it.
#[derive(Drop)]
pub struct Running {
    pub(crate) alloc: Global,
    pub(crate) machine: Machine,
    pub(crate) failed: bool,
}

impl Model for Running {
    ghost use Rattle.qa_sender.specs.Running.{IsSound, State};

    ghost Value = { State };

    ghost use Rattle.qa_sender.specs.Shown.{shown};

    ghost view = { λ r. shown r.machine r.failed };

    ghost invariant = { λ r. IsSound (shown r.machine r.failed) };
}

impl Running {
    /// The ledger under a header, before any event. Takes no memory.
    pub(crate) fn new(alloc: Global, header: Header) -> Running
        ensures after { IsAfter result header [] }
        ensures works { result.failed ≡ false }
    {
        Running {
            alloc,
            machine: Machine::start(alloc, header),
            failed: false,
        }
    }

    /// How many things it keeps: the packets, the entries by which an acknowledgment finds them,
    /// the packets that were set aside, and the runs of consecutive numbers that were sent. It
    /// keeps nothing else whose size grows, and takes constant time to say so.
    ///
    /// That is at most twice the number of packets that were sent since the oldest that is still
    /// open or owed, and the runs of all spaces.
    pub fn kept(&self) -> u128
        ensures count { result ≡ length self.now.packets.packets
            + (length (unacknowledged_in Initial self.now.packets.dropped self.now.packets.packets)
            + length (unacknowledged_in Handshake self.now.packets.dropped self.now.packets.packets)
            + length (unacknowledged_in App self.now.packets.dropped self.now.packets.packets))
            + aside_count self.now.packets.strays
            + (length (runs_in self.now.numbers Initial)
            + length (runs_in self.now.numbers Handshake) + length (runs_in self.now.numbers App)) }
        ensures bound { (c : Settings) (h : List AnEvent) → Answers self.now c h
            → result ≤ 2 * kept.kept_count c h + kept.runs h }
    {
        self.machine.packets.kept_count() + self.machine.numbers.runs()
    }

    /// The state of the machine after the events that were admitted, also where it has failed
    /// since.
    pub(crate) fn totals_now(&self) -> Totals
        ensures totals { (c : Settings) (h : List AnEvent) → IsAfter self.now c h
            → result ≡ state.totals c h }
        ensures events { result.events ≡ self.now.connection.events }
    {
        let connection = &self.machine.connection;
        let quantities = Quantities {
            events: connection.events,
            window: connection.window(),
            ssthresh: connection.ssthresh(),
            rtt: connection.rtt,
            bytes_in_flight: self.machine.packets.bytes_in_flight(),
            pto_count: connection.timer.pto_count,
            owed: self.machine.packets.owed_count(),
        };
        quantities.totals()
    }

    /// Whether packets are owed, also where it has failed since.
    pub(crate) fn owes_now(&self) -> bool
        ensures { (c : Settings) (h : List AnEvent) → IsAfter self.now c h
            → result ≡ is_some_packet (owed c h) }
    {
        0 < self.machine.packets.owed_count()
    }

    /// Takes an event that breaks no rule but those past which the machine goes on. `AllocError`
    /// comes where it is out of memory, which only a packet that is sent and an acknowledgment can
    /// be: it has failed then, and is the state before the event.
    pub(crate) fn follow(&mut self, event: &Event) -> Result<(), AllocError>
        requires works { self.old.failed ≡ false }
        requires fitting { fits event.now ≡ true }
        requires few { self.old.connection.events < max_lines }
        requires allowed { (c : Settings) (h : List AnEvent) → IsAfter self.old c h
            → conduct.first_untolerated c h event.now ≡ None }
        ensures ok { OnOk result ((self.new.failed ≡ false)
            × (self.new.connection.events ≡ self.old.connection.events + 1)
            × ((c : Settings) (h : List AnEvent) → IsAfter self.old c h
            → IsAfter self.new c (event.now ∷ h))) }
        ensures err { OnErr result ((self.new.failed ≡ true)
            × (self.new.connection.events ≡ self.old.connection.events)
            × ((c : Settings) (h : List AnEvent) → IsAfter self.old c h → IsAfter self.new c h)) }
        ensures memory { OnErr result (takes_memory event.now ≡ true) }
    {
        // Its time is in its range, which bounds the PTO count.
        let _time = event.time();
        // It stays so where memory is refused below.
        self.failed = true;
        self.machine.on_event(self.alloc, event)?;
        self.failed = false;
        Ok(())
    }
}

impl Ledger for Running {
    ghost use Rattle.qa_sender.specs.Running.{IsAfter};

    ghost stands = { IsAfter };

    ghost has_failed = { λ r. r.failed };

    ghost admitted = { λ r. r.connection.events };

    /// The ledger under a header, before any event.
    fn start(alloc: Global, header: Header) -> Running {
        Running::new(alloc, header)
    }

    /// Admits an event that fits, where it breaks no rule after those that were admitted.
    ///
    /// Memory is taken only for a packet that is sent and for an acknowledgment: at every other
    /// event a ledger that has not failed is not out of memory.
    fn admit(&mut self, event: &Event) -> Result<(), LedgerFault>
        requires fitting { fits event.now ≡ true }
        requires few { self.old.connection.events < max_lines }
        ensures ok { OnOk result ((self.new.failed ≡ false)
            × (self.new.connection.events ≡ self.old.connection.events + 1)
            × ((c : Settings) (h : List AnEvent) → IsAfter self.old c h
            → (rules.first_broken c h event.now ≡ None) × IsAfter self.new c (event.now ∷ h))) }
        ensures broken { (r : ARule) → result ≡ Err (LedgerFault.Broken r) → (self.new ≡ self.old)
            × ((c : Settings) (h : List AnEvent) → IsAfter self.old c h
            → rules.first_broken c h event.now ≡ Some r) }
        ensures out_of_memory { result ≡ Err LedgerFault.OutOfMemory
            → (self.new.failed ≡ true) × (self.new.connection.events ≡ self.old.connection.events)
            × ((c : Settings) (h : List AnEvent) → IsAfter self.old c h → IsAfter self.new c h) }
        ensures failed { self.old.failed ≡ true
            → (result ≡ Err LedgerFault.OutOfMemory) × (self.new ≡ self.old) }
        ensures memory { self.old.failed ≡ false → result ≡ Err LedgerFault.OutOfMemory
            → takes_memory event.now ≡ true }
    {
        if self.failed {
            return Err(LedgerFault::OutOfMemory);
        }
        if let Some(rule) = first_broken(self, event) {
            return Err(LedgerFault::Broken(rule));
        }
        match self.follow(event) {
            Ok(()) => Ok(()),
            Err(_) => Err(LedgerFault::OutOfMemory),
        }
    }

    /// The state of the machine after the events that were admitted.
    fn totals(&self) -> Totals {
        self.totals_now()
    }

    /// Whether a loss is owed.
    fn owes(&self) -> bool {
        self.owes_now()
    }
}
