//! Who judges the events of a trace.
ghost use Rattle.std.specs.Prelude.{◌≡◌, ◌<◌, ◌+◌, ℕ, Bool, true, false, List, [], ◌∷◌, Err, OnOk};
ghost use Rattle.std.specs.Prelude.{Some, None};
ghost use Rattle.qa_base.specs.declared.event.Event.{Event as AnEvent};
ghost use Rattle.qa_base.specs.declared.rule.Rule.{Rule as ARule};
ghost use Rattle.qa_base.specs.values.Limits.{max_lines};
ghost use Rattle.qa_base.specs.machine.Loss.{owed};
ghost use Rattle.qa_base.specs.machine.Packets.{is_some_packet};
ghost use Rattle.qa_base.specs.machine.State as machine;
ghost use Rattle.qa_base.specs.values.Events.{fits};
ghost use Rattle.qa_base.specs.values.Settings.{Settings};
ghost use Rattle.qa_check.specs.Standing.{Judges};

use qa_base::{Event, Header, Totals};
use qa_ledger::{Ledger, LedgerFault};
use std::alloc::Global;

/// The state of the machine after a header and the events that were admitted, which judges the
/// next.
///
/// Each `Ledger` is one: by it a trace ends at the first event that breaks a rule. Another may let
/// a trace go on behind some: which event ends it, and by which rule, its specification says.
pub trait Judge {
    // When it stands for a history, the latest event first, under a header, and by which rule an
    // event ends the trace after it.
    ghost judges: { Judges Self };

    // It was out of memory.
    ghost has_failed: { Self → Bool };

    // How many events it admitted.
    ghost admitted: { Self → ℕ };

    /// A judge under a header, before any event. Takes no memory.
    fn under(alloc: Global, header: Header) -> Self
        ensures works { has_failed result ≡ false }
        ensures none { admitted result ≡ 0 }
        ensures stands { judges.stands result header [] };

    /// Admits an event that fits, where it does not end the trace after those that were admitted.
    ///
    /// Asks for fewer than 2^32 - 1 admitted events. Where the event ends the trace it is refused
    /// with the rule, and the judge is as it was. Where it is out of memory it has failed and
    /// stands for what it stood for; one that failed before is as it was.
    fn judge(&mut self, event: &Event) -> Result<(), LedgerFault>
        requires fitting { fits event.now ≡ true }
        requires few { admitted self.old < max_lines }
        ensures ok { OnOk result ((has_failed self.new ≡ false)
            × (admitted self.new ≡ admitted self.old + 1)
            × ((c : Settings) (h : List AnEvent) → judges.stands self.old c h
            → (judges.breaks c h event.now ≡ None) × judges.stands self.new c (event.now ∷ h))) }
        ensures broken { (r : ARule) → result ≡ Err (LedgerFault.Broken r) → (self.new ≡ self.old)
            × ((c : Settings) (h : List AnEvent) → judges.stands self.old c h
            → judges.breaks c h event.now ≡ Some r) }
        ensures out_of_memory { result ≡ Err LedgerFault.OutOfMemory
            → (has_failed self.new ≡ true) × (admitted self.new ≡ admitted self.old)
            × ((c : Settings) (h : List AnEvent) → judges.stands self.old c h
            → judges.stands self.new c h) }
        ensures failed { has_failed self.old ≡ true
            → (result ≡ Err LedgerFault.OutOfMemory) × (self.new ≡ self.old) };

    /// The state of the machine after the events that were admitted, which its `events` count.
    /// Takes no memory.
    fn state(&self) -> Totals
        ensures totals { (c : Settings) (h : List AnEvent) → judges.stands self.now c h
            → result ≡ machine.totals c h }
        ensures events { result.events ≡ admitted self.now };

    /// Whether packets are detected as lost that no event has declared yet. Takes no memory.
    fn is_owing(&self) -> bool
        ensures { (c : Settings) (h : List AnEvent) → judges.stands self.now c h
            → result ≡ is_some_packet (owed c h) };
}

/// By a ledger a trace ends at the first event that breaks a rule.
impl<L: Ledger> Judge for L {
    ghost use Rattle.qa_check.specs.Standing.{of_ledger};

    ghost judges = { of_ledger L.stands };

    ghost has_failed = { L.has_failed };

    ghost admitted = { L.admitted };

    fn under(alloc: Global, header: Header) -> L {
        L::start(alloc, header)
    }

    fn judge(&mut self, event: &Event) -> Result<(), LedgerFault> {
        self.admit(event)
    }

    fn state(&self) -> Totals {
        self.totals()
    }

    fn is_owing(&self) -> bool {
        self.owes()
    }
}
