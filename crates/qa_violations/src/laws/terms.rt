//! Deadlines as sums.
ghost use Rattle.std.specs.Prelude.{◌≡◌, List, Some};
ghost use Rattle.qa_base.specs.declared.event.Event.{Event};
ghost use Rattle.qa_base.specs.machine.Timer.{Due, deadline};
ghost use Rattle.qa_base.specs.machine.Violations.{IsToleratedRun};
ghost use Rattle.qa_base.specs.values.Settings.{Settings};
ghost use Rattle.qa_violations.specs.laws.Terms.{HasTerms};

/// In a tolerated run, and so in each run, a deadline is the sum of the two terms that are told of
/// it: the time of a packet, or that at which the timer was set, and the delay that RFC 9002,
/// sections 6.1.2 and 6.2.1, computes from the values that are told beside it.
pub fn deadlines_are_their_terms()
    ensures { (c : Settings) (h : List Event) → IsToleratedRun c h → (due : Due)
        → deadline c h ≡ Some due → HasTerms c h due }
{}
