//! What is kept of the loss detection timer (RFC 9002, section 6.2).
ghost use Rattle.std.specs.Prelude.{◌≡◌, Some};
ghost use Rattle.qa_sender.specs.connection.Timing as steps;

use qa_base::{Space, Ticks};

/// What is kept of the loss detection timer.
#[derive(Clone, Copy)]
pub struct TimerState {
    /// The probe timeouts since the last event that set their count to 0 (RFC 9002, section 6.2.1).
    pub pto_count: u64,
    /// When the timer was last set.
    pub last_set: Option<Ticks>,
    /// The space in which a probe is due since the last probe timeout.
    pub probe_due: Option<Space>,
}

impl TimerState {
    /// Before any event.
    pub(crate) fn start() -> TimerState
        ensures { result ≡ steps.unset }
    {
        TimerState {
            pto_count: 0,
            last_set: None,
            probe_due: None,
        }
    }

    /// An ack-eliciting packet of the space was sent: a probe of it is not due any more.
    pub(crate) fn elicit(&mut self, space: Space)
        ensures { self.new ≡ record self.old {
          probe_due = steps.answered_in space
              self.old.probe_due;
        } }
    {
        if let Some(due) = self.probe_due {
            if due == space {
                self.probe_due = None;
            }
        }
    }

    /// A probe timeout of the space (A.9): a probe is due in it.
    pub(crate) fn probe(&mut self, space: Space, now: Ticks)
        ensures { self.new ≡ steps.probing space now self.old }
    {
        self.pto_count = self.pto_count.saturating_add(1);
        self.last_set = Some(now);
        self.probe_due = Some(space);
    }

    /// It is set anew, and no probe is due. The PTO count is 0 from now on where the event `resets`
    /// it (section 6.2.1).
    pub(crate) fn restart(&mut self, now: Ticks, resets: bool)
        ensures { self.new ≡ steps.restarted now resets self.old }
    {
        self.last_set = Some(now);
        self.probe_due = None;
        if resets {
            self.pto_count = 0;
        }
    }
}
