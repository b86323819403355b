//! What is kept of what a header allowed while a trace is judged.
ghost use Rattle.std.specs.Prelude.{◌≡◌, ◌++◌, ◌∷◌, [], List, ℕ, Option, Some, false};
ghost use Rattle.std.specs.Option.{option_or};
ghost use Rattle.qa_base.specs.declared.event.Event.{Event as AnEvent};
ghost use Rattle.qa_base.specs.values.Settings.{Settings};
ghost use Rattle.qa_check.specs.Standing.{history_after};
ghost use Rattle.qa_violations.specs.allowed.Keeping.{Covers, IsAt, IsHeaderAfter, Tallies};
ghost use Rattle.qa_violations.specs.allowed.Lines as lines;
ghost use Rattle.qa_violations.specs.declared.allowed.late.Late.{Late as ALate};
ghost use Rattle.qa_violations.specs.declared.table.finding.Finding.{Finding as AFinding};

use crate::allowed::before::Before;
use crate::allowed::tally::Tally;
use qa_base::{Event, Header, Totals};
use qa_format::Line;
use qa_ledger::Explains;

/// The header of a trace, what the machine holds after its last event, and in sum what the header
/// allowed its events that break no rule. Memory does not grow.
#[derive(Drop)]
pub(crate) struct Allowances {
    pub(crate) header: Option<Header>,
    pub(crate) before: Before,
    /// The time of the last event, in the unit of the trace.
    pub(crate) time: Option<u64>,
    pub(crate) tally: Tally,
}

/// What is held where there is no machine yet.
fn nothing() -> Totals {
    Totals {
        events: 0,
        window: 0,
        ssthresh: None,
        bytes_in_flight: 0,
        latest_rtt: 0,
        min_rtt: 0,
        smoothed_rtt: 0,
        rttvar: 0,
        pto_count: 0,
        owed: 0,
    }
}

impl Allowances {
    /// Of no lines. Takes no memory.
    pub(crate) fn new() -> Allowances
        ensures { (name : List ℕ) → Covers name result result [] }
    {
        Allowances {
            header: None,
            before: Before::first(nothing()),
            time: None,
            tally: Tally::new(),
        }
    }

    /// Begins with a header, by the ledger after it, where there is none yet.
    fn begin<L: Explains>(&mut self, header: Header, ledger: &L)
        ensures at { (old : Option Settings) (c : Settings) (h : List AnEvent) → IsAt self.old old h
            → option_or old (Some header) ≡ Some c → L.stands ledger.now c h
            → IsAt self.new (Some c) h }
        ensures tally { self.new.tally ≡ self.old.tally }
    {
        if self.header.is_none() {
            self.header = Some(header);
            self.before = Before::first(ledger.totals());
        }
    }

    /// Notes what an event on line n was allowed, where it counts, by the ledger after it.
    fn note_event<L: Explains>(&mut self, n: u64, event: &Event, counts: bool, ledger: &L)
        requires works { L.has_failed ledger.now ≡ false }
        ensures { (c : Settings) (h : List AnEvent) (fs : List AFinding)
            (lates : List ALate) → IsAt self.old (Some c) h
            → L.stands ledger.now c (event.now ∷ h) → Tallies self.old.tally fs lates
            → IsAt self.new (Some c) (event.now ∷ h)
            × Tallies self.new.tally
            (fs ++ lines.allowed_if counts n c (event.now ∷ h))
            (lates ++ lines.lates_if counts n c (event.now ∷ h)) }
    {
        let Some(header) = &self.header else {
            return;
        };
        self.tally.note_if(counts, n, header, &self.before, event);
        self.before.follow(event, ledger);
        self.time = Some(event.time().get());
    }

    /// Notes what a good line says, by the ledger after it: what its event was allowed, where that
    /// counts.
    pub(crate) fn note_said<L: Explains>(&mut self, n: u64, said: &Line, counts: bool, ledger: &L)
        requires works { L.has_failed ledger.now ≡ false }
        ensures { (old : Option Settings) (c : Settings) (h : List AnEvent)
            (fs : List AFinding) (lates : List ALate) → IsAt self.old old h
            → IsHeaderAfter old said.now c
            → L.stands ledger.now c (history_after h said.now) → Tallies self.old.tally fs lates
            → IsAt self.new (Some c) (history_after h said.now)
            × Tallies self.new.tally
            (fs ++ lines.allowed_said counts n said.now c (history_after h said.now))
            (lates ++ lines.lates_said counts n said.now c (history_after h said.now)) }
    {
        match said {
            Line::Blank => (),
            Line::Header(header) => self.begin(*header, ledger),
            Line::Event(event) => self.note_event(n, event, counts, ledger),
        }
    }
}
