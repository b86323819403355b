//! A judge that goes on past sender rules.
ghost use Rattle.std.specs.Prelude.{◌≡◌, Bool, true, false, List, [], ◌∷◌, IfOk};
ghost use Rattle.qa_base.specs.declared.event.Event.{Event as AnEvent};
ghost use Rattle.qa_base.specs.machine.Timer as timers;
ghost use Rattle.qa_base.specs.values.Settings.{Settings};
ghost use Rattle.qa_ledger.specs.causes.Causes as causes;
ghost use Rattle.qa_violations.specs.all.Tolerating.{StandsFor, violations_of, explained};

use qa_base::{Due, Event, Header, Rule, TimeUnit, Totals};
use qa_check::Judge;
use qa_ledger::{Cause, Explains, Ledger, LedgerFault, Owed, Tolerates};
use std::alloc::{AllocError, Global};
use std::marker::Model;

/// A rule that an event breaks, with the facts by which it does.
#[derive(Drop)]
pub struct Violation {
    /// The rule.
    pub rule: Rule,
    /// Its facts before the event.
    pub cause: Cause,
}

/// A ledger that goes on past sender rules, and what the last event violated.
///
/// It stands for the events that were admitted: those that break no rule but sender rules, as
/// `Tolerates::tolerate` has it.
#[derive(Drop)]
pub struct Tolerating<L: Tolerates + Explains> {
    alloc: Global,
    ledger: L,
    latest: Vec<Violation>,
    failed: bool,
}

impl<L: Tolerates + Explains> Model for Tolerating<L> {
    ghost use Rattle.std.specs.Prelude.{◌≡◌, false};
    ghost use Rattle.qa_violations.specs.all.Tolerating.{Held};

    ghost Value = { Held L };

    ghost view = { λ b. record { ledger = b.ledger; latest = b.latest.items; failed = b.failed } };

    ghost invariant = { λ b. b.failed ≡ false → L.has_failed b.ledger ≡ false };
}

impl<L: Tolerates + Explains + Drop> Tolerating<L> {
    /// The rules that the last event broke that was admitted, with their facts before it, V7 to V19
    /// in their order; none before any event.
    pub fn latest(&self) -> &[Violation]
        ensures latest { result.now ≡ self.now.latest }
    {
        self.latest.as_slice()
    }

    /// The ledger after the events that were admitted.
    pub fn ledger(&self) -> &L
        ensures ledger { result.now ≡ self.now.ledger }
        ensures works { self.now.failed ≡ false → L.has_failed result.now ≡ false }
    {
        &self.ledger
    }

    /// The facts of the rule for an event after those that were admitted. `AllocError` comes where
    /// it is out of memory.
    pub fn cause(&self, event: &Event, rule: Rule) -> Result<Cause, AllocError>
        ensures { self.now.failed ≡ false → IfOk result (λ cause. (c : Settings)
            (h : List AnEvent) → StandsFor L.stands self.now c h
            → cause ≡ causes.cause_of c h event.now rule) }
    {
        self.ledger.cause(event, rule)
    }

    /// What is owed after the events that were admitted. `AllocError` comes where it is out of
    /// memory.
    pub fn owed(&self) -> Result<Owed, AllocError>
        ensures { self.now.failed ≡ false → IfOk result (λ owed. (c : Settings)
            (h : List AnEvent) → StandsFor L.stands self.now c h → owed ≡ causes.owed_now c h) }
    {
        self.ledger.owed()
    }

    /// The unit of the trace's times.
    pub fn unit(&self) -> TimeUnit
        ensures { self.now.failed ≡ false → (c : Settings) (h : List AnEvent)
            → StandsFor L.stands self.now c h → result ≡ c.unit }
    {
        self.ledger.unit()
    }

    /// What the loss detection timer is set for after the events that were admitted; None where it
    /// is not (RFC 9002, A.8).
    pub fn deadline(&self) -> Option<Due>
        ensures { self.now.failed ≡ false → (c : Settings) (h : List AnEvent)
            → StandsFor L.stands self.now c h → result ≡ timers.deadline c h }
    {
        self.ledger.deadline()
    }
}

impl<L: Tolerates + Explains + Drop> Judge for Tolerating<L> {
    ghost use Rattle.qa_violations.specs.all.Tolerating.{past_sender_rules};

    ghost judges = { past_sender_rules L.stands };

    ghost has_failed = { λ b. b.failed };

    ghost admitted = { λ b. L.admitted b.ledger };

    /// A judge under a header, before any event.
    fn under(alloc: Global, header: Header) -> Tolerating<L> {
        Tolerating {
            alloc,
            ledger: L::start(alloc, header),
            latest: Vec::new(alloc),
            failed: false,
        }
    }

    /// Admits an event that breaks sender rules alone, and keeps them with their facts before it.
    fn judge(&mut self, event: &Event) -> Result<(), LedgerFault> {
        if self.failed {
            return Err(LedgerFault::OutOfMemory);
        }
        let Ok(found) = find_violations(self.alloc, &self.ledger, event) else {
            self.failed = true;
            return Err(LedgerFault::OutOfMemory);
        };
        match self.ledger.tolerate(event) {
            Ok(()) => {
                self.latest = found;
                Ok(())
            }
            Err(LedgerFault::Broken(rule)) => Err(LedgerFault::Broken(rule)),
            Err(LedgerFault::OutOfMemory) => {
                self.failed = true;
                Err(LedgerFault::OutOfMemory)
            }
        }
    }

    /// The state of the machine after the events that were admitted.
    fn state(&self) -> Totals {
        self.ledger.totals()
    }

    /// Whether a loss is owed.
    fn is_owing(&self) -> bool {
        self.ledger.owes()
    }
}

/// All rules that the event breaks after those that were admitted, in their order, with their facts
/// before it. `AllocError` comes where it is out of memory.
fn find_violations<L: Tolerates + Explains>(
    alloc: Global,
    ledger: &L,
    event: &Event,
) -> Result<Vec<Violation>, AllocError>
    requires works { L.has_failed ledger.now ≡ false }
    ensures { IfOk result (λ found. (c : Settings) (h : List AnEvent) → L.stands ledger.now c h
        → found.items ≡ violations_of c h event.now) }
{
    let rules = ledger.violations(alloc, event)?;
    with_causes(alloc, ledger, event, &rules)
}

/// The rules, each with its facts for the event. `AllocError` comes where it is out of memory.
fn with_causes<L: Tolerates + Explains>(
    alloc: Global,
    ledger: &L,
    event: &Event,
    rules: &[Rule],
) -> Result<Vec<Violation>, AllocError>
    requires works { L.has_failed ledger.now ≡ false }
    ensures { IfOk result (λ found. (c : Settings) (h : List AnEvent) → L.stands ledger.now c h
        → found.items ≡ explained c h event.now rules.now) }
{
    let mut found = Vec::new(alloc);
    for rule in rules {
        let cause = ledger.cause(event, *rule)?;
        found.push(Violation { rule: *rule, cause })?;
    }
    Ok(found)
}
