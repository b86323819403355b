//! What is told of all violations, and what refuses an event.
ghost use Rattle.std.specs.Prelude.{◌≡◌, List, [], ◌∷◌, None, Some};
ghost use Rattle.qa_base.specs.declared.event.Event.{Event};
ghost use Rattle.qa_base.specs.declared.rule.Rule.{Rule};
ghost use Rattle.qa_base.specs.machine.Violations.{violations};
ghost use Rattle.qa_base.specs.machine.Rules.{IsRun, first_broken};
ghost use Rattle.qa_base.specs.values.Settings.{Settings};

/// The first of all rules that an event breaks is the one by which it is refused, and an event that
/// is not refused breaks none: so a run has no violations.
pub fn violations_begin_with_the_first_broken()
    ensures first { (c : Settings) (h : List Event) (e : Event) (r : Rule)
        → first_broken c h e ≡ Some r → (rs : List Rule) × (violations c h e ≡ r ∷ rs) }
    ensures none { (c : Settings) (h : List Event) (e : Event) → first_broken c h e ≡ None
        → violations c h e ≡ [] }
    ensures run { (c : Settings) (h : List Event) (e : Event) → IsRun c (e ∷ h)
        → violations c h e ≡ [] }
{}
