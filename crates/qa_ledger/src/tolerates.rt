//! A ledger that goes on past what a sender should not have done.
ghost use Rattle.std.specs.Prelude.{◌≡◌, ◌<◌, ◌+◌, Bool, true, false, List, ◌∷◌, Err, IfOk, OnOk};
ghost use Rattle.std.specs.Prelude.{Some, None};
ghost use Rattle.qa_base.specs.declared.event.Event.{Event as AnEvent};
ghost use Rattle.qa_base.specs.declared.rule.Rule.{Rule as ARule};
ghost use Rattle.qa_base.specs.machine.Violations as conduct;
ghost use Rattle.qa_base.specs.values.Events.{fits};
ghost use Rattle.qa_base.specs.values.Limits.{max_lines};
ghost use Rattle.qa_base.specs.values.Settings.{Settings};

use crate::ledger::{Ledger, LedgerFault};
use qa_base::{Event, Rule};
use std::alloc::{AllocError, Global};

/// A ledger that also admits an event that breaks sender rules alone, and that says which rules an
/// event breaks.
///
/// A sender rule says what a sender should have done: V7, V8, V9, V13, V14, V16, V18 and V19. What
/// follows an event that breaks it is judged as ever, against what the event made of the machine.
pub trait Tolerates: Ledger {
    /// Admits an event that fits, where it breaks no rule after those that were admitted but rules
    /// of conduct; an early timer (V13) only where fewer than 40 probe timeouts came since the PTO
    /// count was reset.
    ///
    /// Asks for fewer than 2^32 - 1 admitted events. Where the event breaks another rule it is
    /// refused with the first of those, and the ledger is as it was. Where the ledger is out of
    /// memory it has failed and holds what it held; a ledger that failed before is as it was.
    fn tolerate(&mut self, event: &Event) -> Result<(), LedgerFault>
        requires fitting { fits event.now ≡ true }
        requires few { Self.admitted self.old < max_lines }
        ensures ok { OnOk result ((Self.has_failed self.new ≡ false)
            × (Self.admitted self.new ≡ Self.admitted self.old + 1)
            × ((c : Settings) (h : List AnEvent) → Self.stands self.old c h
            → (conduct.first_untolerated c h event.now ≡ None)
            × Self.stands self.new c (event.now ∷ h))) }
        ensures broken { (r : ARule) → result ≡ Err (LedgerFault.Broken r) → (self.new ≡ self.old)
            × ((c : Settings) (h : List AnEvent) → Self.stands self.old c h
            → conduct.first_untolerated c h event.now ≡ Some r) }
        ensures out_of_memory { result ≡ Err LedgerFault.OutOfMemory
            → (Self.has_failed self.new ≡ true) × (Self.admitted self.new ≡ Self.admitted self.old)
            × ((c : Settings) (h : List AnEvent) → Self.stands self.old c h
            → Self.stands self.new c h) }
        ensures failed { Self.has_failed self.old ≡ true
            → (result ≡ Err LedgerFault.OutOfMemory) × (self.new ≡ self.old) };

    /// All rules that the event breaks after those that were admitted, V1 to V16, V18 and V19 in
    /// their order. `AllocError` comes where there is no memory for them; the ledger is as it was.
    fn violations(&self, alloc: Global, event: &Event) -> Result<Vec<Rule>, AllocError>
        ensures { Self.has_failed self.now ≡ false → IfOk result (λ found. (c : Settings)
            (h : List AnEvent) → Self.stands self.now c h
            → found.items ≡ conduct.violations c h event.now) };
}
