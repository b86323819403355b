//! What a ledger is.
ghost use Rattle.std.specs.Prelude.{◌≡◌, ◌<◌, ◌+◌, ℕ, Bool, true, false, List, [], ◌∷◌, Err, OnOk};
ghost use Rattle.std.specs.Prelude.{Some, None};
ghost use Rattle.qa_base.specs.declared.event.Event.{Event as AnEvent};
ghost use Rattle.qa_base.specs.declared.rule.Rule.{Rule as ARule};
ghost use Rattle.qa_base.specs.values.Limits.{max_lines};
ghost use Rattle.qa_base.specs.machine.Loss.{owed};
ghost use Rattle.qa_base.specs.machine.Packets.{is_some_packet};
ghost use Rattle.qa_base.specs.machine.Rules.{first_broken};
ghost use Rattle.qa_base.specs.machine.State as state;
ghost use Rattle.qa_base.specs.values.Events.{fits};
ghost use Rattle.qa_base.specs.values.Settings.{Settings};

use qa_base::{Event, Header, Rule, Totals};
use std::alloc::Global;
use thiserror::Error;

/// Why a ledger does not admit an event.
#[derive(Clone, Copy, Debug, PartialEq, Eq, Error)]
pub enum LedgerFault {
    /// The event breaks this rule, the first of V1 to V16, V18 and V19 that it breaks. The ledger
    /// is as it was.
    #[error("{0}")]
    Broken(Rule),
    /// The ledger is out of memory, now or since an earlier event. It has failed, holds the state
    /// before that event, and admits nothing from then on.
    #[error("out of memory")]
    OutOfMemory,
}

/// The state of the machine after a header and the events that were admitted, in their order.
///
/// A ledger stands for a history of events under a header. That, whether it has failed and how many
/// events it admitted are told by its specification alone.
pub trait Ledger {
    // It stands for this history, the latest event first, under this header.
    ghost stands: { Self → Settings → List AnEvent → Type 0 };

    // It was out of memory.
    ghost has_failed: { Self → Bool };

    // How many events it admitted.
    ghost admitted: { Self → ℕ };

    /// A ledger under a header, before any event. Takes no memory.
    fn start(alloc: Global, header: Header) -> Self
        ensures works { has_failed result ≡ false }
        ensures none { admitted result ≡ 0 }
        ensures stands { stands result header [] };

    /// Admits an event that fits, where it breaks no rule after those that were admitted.
    ///
    /// Asks for fewer than 2^32 - 1 admitted events. Where the event breaks a rule it is refused
    /// with the first, and the ledger is as it was. Where the ledger is out of memory it has failed
    /// and holds what it held; a ledger that failed before is as it was.
    fn admit(&mut self, event: &Event) -> Result<(), LedgerFault>
        requires fitting { fits event.now ≡ true }
        requires few { admitted self.old < max_lines }
        ensures ok { OnOk result ((has_failed self.new ≡ false)
            × (admitted self.new ≡ admitted self.old + 1)
            × ((c : Settings) (h : List AnEvent) → stands self.old c h
            → (first_broken c h event.now ≡ None) × stands self.new c (event.now ∷ h))) }
        ensures broken { (r : ARule) → result ≡ Err (LedgerFault.Broken r) → (self.new ≡ self.old)
            × ((c : Settings) (h : List AnEvent) → stands self.old c h
            → first_broken c h event.now ≡ Some r) }
        ensures out_of_memory { result ≡ Err LedgerFault.OutOfMemory
            → (has_failed self.new ≡ true) × (admitted self.new ≡ admitted self.old)
            × ((c : Settings) (h : List AnEvent) → stands self.old c h → stands self.new c h) }
        ensures failed { has_failed self.old ≡ true
            → (result ≡ Err LedgerFault.OutOfMemory) × (self.new ≡ self.old) };

    /// The state of the machine after the events that were admitted. Takes no memory.
    ///
    /// Its `events` say how many they are, so that a caller of any ledger can see that `admit` may
    /// be called.
    fn totals(&self) -> Totals
        ensures totals { (c : Settings) (h : List AnEvent) → stands self.now c h
            → result ≡ state.totals c h }
        ensures events { result.events ≡ admitted self.now };

    /// Whether packets are detected as lost that no event has declared yet. Takes no memory.
    fn owes(&self) -> bool
        ensures { (c : Settings) (h : List AnEvent) → stands self.now c h
            → result ≡ is_some_packet (owed c h) };
}
