//! Since when the loss detection timer is set for what it is.
ghost use Rattle.std.specs.Prelude.{◌≡◌, ◌∷◌, [], List, if◌then◌else◌};
ghost use Rattle.qa_base.specs.declared.event.Event.{Event as AnEvent};
ghost use Rattle.qa_base.specs.machine.Breaches as breaches;
ghost use Rattle.qa_base.specs.machine.Timer as timers;
ghost use Rattle.qa_base.specs.values.Events as events;
ghost use Rattle.qa_base.specs.values.Settings.{Settings};
ghost use Rattle.qa_sender.specs.connection.Known.{IsOf, IsProperToleratedRun};
ghost use Rattle.qa_sender.specs.Standing.{StandsFor};
ghost use Rattle.qa_sender.specs.Watch.{IsWatched};

use crate::answers::due_now;
use crate::connection::Connection;
use qa_base::{Due, Ticks};
use qa_sent_packets::SentPackets;

/// What the loss detection timer is set for, and since when. It is kept where the header has a
/// limit for how late the timer may be.
#[derive(Clone, Copy)]
pub(crate) struct TimerWatch {
    /// What it is set for; None where it is not set.
    pub(crate) due: Option<Due>,
    /// The time of the event that set it so; 0 before any event.
    pub(crate) since: Ticks,
}

/// Whether a time is past a deadline by more than a limit, counted from the time
/// since which the timer is set so where that is later.
#[tactic(auto, using(crate::proofs::Watching::late_is))]
fn is_past(due: Due, since: Ticks, limit: u128, time: Ticks) -> bool
    ensures { result ≡ breaches.is_past_due limit since time (Some due) }
{
    let from = due.time.max(u128::from(since.get()));
    limit < u128::from(time.get()).saturating_sub(from)
}

impl TimerWatch {
    /// Before any event.
    #[tactic(auto, using(crate::proofs::Watching::watched_at_start))]
    pub(crate) fn start() -> TimerWatch
        ensures { (c : Settings) → IsWatched result c [] }
    {
        TimerWatch {
            due: None,
            since: Ticks::of(0),
        }
    }

    /// Notes what the timer is set for after an event that happened now.
    fn set(&mut self, due: Option<Due>, now: Ticks)
        ensures due { self.new.due ≡ due }
        ensures since { self.new.since
            ≡ (if timers.is_same_due self.old.due due then self.old.since else now) }
    {
        *self = TimerWatch {
            due,
            since: if Due::is_same(self.due, due) {
                self.since
            } else {
                now
            },
        };
    }

    /// Takes in an event that happened now, by what is kept of the connection and the packets after
    /// it. Nothing is asked of them, and nothing changes, where the header has no limit.
    #[inline(always)]
    pub(crate) fn follow(&mut self, connection: &Connection, packets: &SentPackets, now: Ticks)
        ensures { (c : Settings) (e : AnEvent) (h : List AnEvent) → IsOf connection.now c (e ∷ h)
            → IsProperToleratedRun c (e ∷ h) → StandsFor packets.now c (e ∷ h)
            → now ≡ events.time_of e → IsWatched self.old c h → IsWatched self.new c (e ∷ h) }
    {
        if connection.header.options().timer_late.is_some() {
            self.look(connection, packets, now);
        }
    }

    /// Takes in an event as `follow` does, also where the header has no limit.
    #[inline(never)]
    fn look(&mut self, connection: &Connection, packets: &SentPackets, now: Ticks)
        ensures { (c : Settings) (e : AnEvent) (h : List AnEvent) → IsOf connection.now c (e ∷ h)
            → IsProperToleratedRun c (e ∷ h) → StandsFor packets.now c (e ∷ h)
            → now ≡ events.time_of e → IsWatched self.old c h → IsWatched self.new c (e ∷ h) }
    {
        self.set(due_now(connection, packets), now);
    }

    /// Whether a time is past a deadline by more than a limit, where there is a
    /// deadline; counted from when the timer was set so, where that is later.
    pub(crate) fn is_past_due(&self, due: Option<Due>, limit: u128, time: Ticks) -> bool
        ensures { result ≡ breaches.is_past_due limit self.now.since time due }
    {
        match due {
            None => false,
            Some(due) => is_past(due, self.since, limit, time),
        }
    }
}
