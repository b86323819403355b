//! What was allowed, and what is broken.
ghost use Rattle.std.specs.Prelude.{◌≡◌, ◌≤◌, ◌∷◌, [], List, None, Some, false, nat_lt, ℕ, IsSome};
ghost use Rattle.qa_base.specs.declared.event.Event.{Event};
ghost use Rattle.qa_base.specs.declared.event.MetricValues.{MetricValues};
ghost use Rattle.qa_base.specs.declared.rule.Field.{Field};
ghost use Rattle.qa_base.specs.declared.rule.Rule.{Rule};
ghost use Rattle.qa_base.specs.declared.rule.Rule.TheVariants as rules;
ghost use Rattle.qa_base.specs.declared.totals.Totals.{Totals};
ghost use Rattle.qa_base.specs.machine.Breaches.{is_collapse_missing, is_past_window};
ghost use Rattle.qa_base.specs.machine.Breaches.{is_timer_early, is_timer_late};
ghost use Rattle.qa_base.specs.machine.Loss.{owed};
ghost use Rattle.qa_base.specs.machine.Rules.{IsRun, first_broken};
ghost use Rattle.qa_base.specs.machine.State.{totals};
ghost use Rattle.qa_base.specs.machine.Violations.{violations};
ghost use Rattle.qa_base.specs.values.Settings.{Settings, early, in_unit};
ghost use Rattle.qa_format.specs.declared.line.Line.TheVariants as line;
ghost use Rattle.qa_violations.specs.all.Tolerating.{unviolated};
ghost use Rattle.qa_violations.specs.allowed.Allowed.{before, beyond, early_by, late_by, metric_off};
ghost use Rattle.qa_violations.specs.allowed.Allowed.{past_collapse_by, past_window};
ghost use Rattle.qa_violations.specs.allowed.Lines.{allowed_on};
ghost use Rattle.qa_violations.specs.laws.Strict.{IsAllowedNothing, differs_at, slack_in};
ghost use Rattle.qa_violations.specs.laws.Strict.{strict_header};
ghost use Rattle.qa_explain.specs.text.Values.{held_of};

/// A run to whose events nothing was allowed is one, owes the same and has the same totals under
/// the header that allows nothing: no window that may be overshot, no slack, and timers that are
/// neither early nor late. So what is not told was not needed.
pub fn nothing_allowed_is_strict()
    ensures run { (c : Settings) (h : List Event) → IsRun c h → IsAllowedNothing c h
        → IsRun (strict_header c) h }
    ensures owed { (c : Settings) (h : List Event) → IsRun c h → IsAllowedNothing c h
        → owed (strict_header c) h ≡ owed c h }
    ensures totals { (c : Settings) (h : List Event) → IsRun c h → IsAllowedNothing c h
        → totals (strict_header c) h ≡ totals c h }
{}

/// What is broken is not allowed: an event that breaks a rule is allowed nothing where it is told
/// past violations. And each of the five rules is broken exactly if the amount by which an event
/// goes past it is above the limit of the header: none for a window that may not be overshot; for a
/// report where the machine has the value; for late timers where there is a limit.
pub fn allowed_is_not_broken()
    ensures uncounted { (n : ℕ) (c : Settings) (h : List Event) (e : Event) (r : Rule)
        (rs : List Rule) → violations c h e ≡ r ∷ rs
        → allowed_on unviolated n (line.Event e) c (e ∷ h) ≡ [] }
    ensures window { (c : Settings) (h : List Event) (e : Event)
        → c.options.window_overshoot ≡ false
        → is_past_window c h e ≡ nat_lt 0 (past_window (before c h) e) }
    ensures early { (c : Settings) (h : List Event) (e : Event)
        → is_timer_early c h e ≡ nat_lt (early c) (early_by (before c h) e) }
    ensures metric { (c : Settings) (values : MetricValues) (held : Totals) (f : Field)
        → IsSome (held_of f held)
        → differs_at c values held f ≡ nat_lt (slack_in c f) (metric_off c values held f) }
    ensures late { (c : Settings) (h : List Event) (e : Event) (limit : ℕ)
        → c.options.timer_late ≡ Some limit
        → is_timer_late c h e ≡ nat_lt (in_unit c.unit limit) (late_by (before c h) e) }
    ensures collapse { (c : Settings) (h : List Event) (e : Event)
        → is_collapse_missing c h e
        ≡ nat_lt c.options.report_slack_bytes (past_collapse_by c (before c h) e) }
{}

/// Where the header has a limit for late timers, an event that breaks no rule is late by no more;
/// and where that is 0, it is not late.
pub fn lateness_is_within_its_limit()
    ensures most { (c : Settings) (h : List Event) (e : Event) (limit : ℕ)
        → first_broken c h e ≡ None → c.options.timer_late ≡ Some limit
        → late_by (before c h) e ≤ in_unit c.unit limit }
    ensures none { (c : Settings) (h : List Event) (e : Event) → first_broken c h e ≡ None
        → c.options.timer_late ≡ Some 0
        → beyond rules.TimerLate (late_by (before c h) e) ≡ [] }
{}
