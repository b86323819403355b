//! What the machine holds before an event, by which is told what the header allows it.
ghost use Rattle.std.specs.Prelude.{◌≡◌, [], ◌∷◌, List, false, if◌then◌else◌};
ghost use Rattle.qa_base.specs.declared.event.Event.{Event as AnEvent};
ghost use Rattle.qa_base.specs.machine.State as state;
ghost use Rattle.qa_base.specs.machine.Timer as timers;
ghost use Rattle.qa_base.specs.values.Settings.{Settings};
ghost use Rattle.qa_violations.specs.allowed.Allowed as allowed;

use qa_base::{Due, Event, Totals};
use qa_ledger::Explains;

/// What the machine holds before an event, as far as V7, V13, V16, V18 and V19 ask.
#[derive(Clone, Copy, Drop)]
pub(crate) struct Before {
    /// The bytes in flight, the window and the RTT.
    pub(crate) totals: Totals,
    /// What the loss detection timer is set for.
    pub(crate) due: Option<Due>,
    /// The same where packets set it, and not an unvalidated client.
    pub(crate) packet_due: Option<Due>,
    /// Since when it is set for that, in the unit of the trace.
    pub(crate) since: u64,
    /// The bytes that were newly acknowledged since persistent congestion; None without it, or
    /// where another window was reported since.
    pub(crate) acknowledged: Option<u64>,
}

impl Before {
    /// Before any event, by a ledger that was told of none; and also what stands where there is no
    /// header yet, by no ledger.
    pub(crate) fn first(totals: Totals) -> Before
        ensures { (c : Settings) → totals ≡ state.totals c [] → result ≡ allowed.before c [] }
    {
        Before {
            totals,
            due: None,
            packet_due: None,
            since: 0,
            acknowledged: None,
        }
    }

    /// Goes on to what is held after the event, by the ledger that admitted it.
    #[inline(always)]
    pub(crate) fn follow<L: Explains>(&mut self, event: &Event, ledger: &L)
        requires works { L.has_failed ledger.now ≡ false }
        ensures { (c : Settings) (h : List AnEvent)
            → self.old ≡ allowed.before c h → L.stands ledger.now c (event.now ∷ h)
            → self.new ≡ allowed.before c (event.now ∷ h) }
    {
        let packet_due = ledger.packet_deadline();
        let due = due_beside(&packet_due, ledger);
        self.since = since_with(self.since, &self.due, &due, event.time().get());
        self.due = due;
        self.packet_due = packet_due;
        self.totals = ledger.totals();
        self.acknowledged = ledger.acknowledged_since_collapse();
    }
}

/// Since when the timer is set for what it is set for now, by what it was set for before.
#[inline(always)]
fn since_with(since: u64, old: &Option<Due>, new: &Option<Due>, time: u64) -> u64
    ensures { result ≡ (if timers.is_same_due old.now new.now then since else time) }
{
    match (old, new) {
        (Some(old), Some(new)) if *old == *new => since,
        _ => time,
    }
}

/// What the timer is set for, by what it is set for by packets: where that is nothing, by what a
/// client sets it for that is not validated.
#[inline(always)]
fn due_beside<L: Explains>(packet_due: &Option<Due>, ledger: &L) -> Option<Due>
    requires works { L.has_failed ledger.now ≡ false }
    ensures { (c : Settings) (h : List AnEvent) → packet_due.now ≡ timers.packet_deadline c h
        → L.stands ledger.now c h → result ≡ timers.deadline c h }
{
    match packet_due {
        Some(due) => Some(*due),
        None => ledger.anti_deadlock(),
    }
}
