//! On what ground each verdict stands, in terms of what the lines say.
ghost use Rattle.std.specs.Prelude.{◌≡◌, ◌≢◌, ◌↔◌, ◌⊎◌, List, ℕ, Option, Some};
ghost use Rattle.qa_base.specs.declared.event.Event.{Event};
ghost use Rattle.qa_format.specs.declared.fault.Fault.{Fault};
ghost use Rattle.qa_base.specs.declared.rule.Rule.{Rule};
ghost use Rattle.qa_base.specs.declared.rule.Rule.TheVariants as rules;
ghost use Rattle.qa_base.specs.declared.totals.Totals.{Totals};
ghost use Rattle.qa_format.specs.declared.verdict.Verdict.{Verdict};
ghost use Rattle.qa_format.specs.declared.verdict.Verdict.TheVariants as verdicts;
ghost use Rattle.qa_format.specs.format.Lines.{lines};
ghost use Rattle.qa_base.specs.machine.Rules.{first_broken};
ghost use Rattle.qa_base.specs.values.Settings.{Settings};
ghost use Rattle.qa_format.specs.verdicts.Verdict.{strict, Reading, verdict};
ghost use Rattle.qa_laws.specs.verdicts.Grounds.{BreaksAt, FailsAt, IsGround, OwesAtEnd};
ghost use Rattle.qa_laws.specs.verdicts.Grounds.{SaysNothing};

/// Bytes are refused at a line by a rule with some totals exactly where the lines before it are
/// good, the line says an event, and the rule is the first that it breaks after theirs; or where
/// all lines are good, the line says the last event, something is owed and the rule is V17. They
/// are unreadable at a line with a fault exactly where the lines before it are good and the line
/// has the fault; or where no line says anything, one line behind them. So each verdict has its one
/// ground, and no other verdict of the bytes has one. All of it holds for any reading of lines.
pub fn verdicts_have_grounds()
    ensures refused { (reading : Reading) (bytes : List ℕ) (n : ℕ) (r : Rule) (t : Totals)
        → (verdict (strict reading) bytes ≡ verdicts.Refused n r t)
        ↔ (BreaksAt reading (lines bytes) n r t ⊎ OwesAtEnd reading (lines bytes) n r t) }
    ensures unreadable { (reading : Reading) (bytes : List ℕ) (n : ℕ) (f : Fault)
        (t : Option Totals)
        → (verdict (strict reading) bytes ≡ verdicts.Unreadable n f t)
        ↔ (FailsAt reading (lines bytes) n f t ⊎ SaysNothing reading (lines bytes) n f t) }
    ensures each { (reading : Reading) (bytes : List ℕ) (v : Verdict)
        → (verdict (strict reading) bytes ≡ v)
        ↔ IsGround reading (lines bytes) v }
    ensures of_event { (c : Settings) (h : List Event) (e : Event)
        → first_broken c h e ≢ Some rules.OwedAtEnd }
    ensures one_refusal { (reading : Reading) (ls : List (List ℕ)) (n : ℕ) (r : Rule) (t : Totals)
        → BreaksAt reading ls n r t → OwesAtEnd reading ls n r t → ⊥ }
    ensures one_fault { (reading : Reading) (ls : List (List ℕ)) (n : ℕ) (f : Fault)
        (t : Option Totals) → FailsAt reading ls n f t → SaysNothing reading ls n f t → ⊥ }
{}
