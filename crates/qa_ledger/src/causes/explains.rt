//! A ledger that says why it refuses an event, and what it holds beside its totals.
ghost use Rattle.std.specs.Prelude.{◌≡◌, false, List, IfOk};
ghost use Rattle.qa_base.specs.declared.event.Event.{Event as AnEvent};
ghost use Rattle.qa_base.specs.machine.Timer as timers;
ghost use Rattle.qa_base.specs.machine.Window as windows;
ghost use Rattle.qa_base.specs.values.Settings.{Settings};
ghost use Rattle.qa_ledger.specs.causes.Causes as causes;

use crate::Ledger;
use crate::causes::cause::{Cause, Owed};
use qa_base::{Due, Event, Rule, TimeUnit};
use std::alloc::AllocError;

/// A ledger that says why it refuses an event, or why the end of a trace breaks V17.
///
/// For a cause, and for what is owed, it is asked once, for the event that is refused, and may take
/// memory then.
pub trait Explains: Ledger {
    /// The facts of the rule for an event after those that were admitted. `AllocError` comes where
    /// it is out of memory.
    fn cause(&self, event: &Event, rule: Rule) -> Result<Cause, AllocError>
        ensures { Self.has_failed self.now ≡ false → IfOk result (λ cause. (c : Settings)
            (h : List AnEvent) → Self.stands self.now c h
            → cause ≡ causes.cause_of c h event.now rule) };

    /// What is owed after the events that were admitted. `AllocError` comes where it is out of
    /// memory.
    fn owed(&self) -> Result<Owed, AllocError>
        ensures { Self.has_failed self.now ≡ false → IfOk result (λ owed. (c : Settings)
            (h : List AnEvent) → Self.stands self.now c h → owed ≡ causes.owed_now c h) };

    /// The unit of the trace's times.
    fn unit(&self) -> TimeUnit
        ensures { Self.has_failed self.now ≡ false → (c : Settings) (h : List AnEvent)
            → Self.stands self.now c h → result ≡ c.unit };

    /// What the loss detection timer is set for after the events that were admitted; None where it
    /// is not (RFC 9002, A.8).
    fn deadline(&self) -> Option<Due>
        ensures { Self.has_failed self.now ≡ false → (c : Settings) (h : List AnEvent)
            → Self.stands self.now c h → result ≡ timers.deadline c h };

    /// The same where packets set it, and not a client that is not validated yet.
    fn packet_deadline(&self) -> Option<Due>
        ensures { Self.has_failed self.now ≡ false → (c : Settings) (h : List AnEvent)
            → Self.stands self.now c h → result ≡ timers.packet_deadline c h };

    /// The timer that a client keeps until its address is validated (section 6.2.2.1), which is the
    /// deadline where no packet sets it; None where it is validated.
    fn anti_deadlock(&self) -> Option<Due>
        ensures { Self.has_failed self.now ≡ false → (c : Settings) (h : List AnEvent)
            → Self.stands self.now c h → result ≡ timers.anti_deadlock c h };

    /// The bytes that were newly acknowledged since persistent congestion (RFC 9002, section
    /// 7.6.2); None without it, or where another window was reported since.
    fn acknowledged_since_collapse(&self) -> Option<u64>
        ensures { Self.has_failed self.now ≡ false → (c : Settings) (h : List AnEvent)
            → Self.stands self.now c h → result ≡ windows.acknowledged_since_collapse c h };
}
