//! What is told of a trace in more than one way.
ghost use Rattle.std.specs.Prelude.{◌≡◌, ◌≢◌, ◌++◌, List, ℕ, Option, true, false};
ghost use Rattle.qa_violations.specs.all.All.{all_outcome, all_text};
ghost use Rattle.qa_violations.specs.all.Objects.{members_of_none};
ghost use Rattle.qa_violations.specs.allowed.Lines.{each};
ghost use Rattle.qa_violations.specs.allowed.Rests.{rest_behind};
ghost use Rattle.qa_violations.specs.around.Around.{around_text, around_told, outcome_by};
ghost use Rattle.qa_violations.specs.laws.Agreement.{ComesFirst, EndsUnviolated};
ghost use Rattle.qa_violations.specs.laws.Agreement.{goes_on_past, violations_of_trace};
ghost use Rattle.qa_base.specs.declared.rule.Rule.{Rule};
ghost use Rattle.qa_base.specs.declared.totals.Totals.{Totals};
ghost use Rattle.qa_check.specs.declared.auditing.Outcome.TheVariants as outcomes;
ghost use Rattle.qa_format.specs.declared.fault.Fault.{Fault};
ghost use Rattle.qa_format.specs.declared.verdict.Verdict.TheVariants.{Accepted, Refused};
ghost use Rattle.qa_format.specs.declared.verdict.Verdict.TheVariants.{Unreadable};
ghost use Rattle.qa_format.specs.format.Reading.{reading};
ghost use Rattle.qa_format.specs.verdicts.Verdict.{strict, verdict};
ghost use Rattle.qa_why.specs.Objects.{object_line};
ghost use Rattle.qa_why.specs.Why.{good_lines, why, why_by};
ghost use Rattle.qa_format.specs.declared.form.Form.{Form};
ghost use Rattle.qa_format.specs.declared.form.Form.TheVariants as forms;

/// An accepted trace violates nothing: of all its violations the same text is told as of the trace
/// itself, with what its verdict rests on, whatever lines before are asked for; the same object but
/// for its empty list of violations; and it is accepted.
pub fn accepted_violates_from_nothing()
    ensures text { (count : ℕ) (name bytes : List ℕ) (t : Totals)
        → verdict (strict reading) bytes ≡ Accepted t
        → all_text count forms.Text name bytes ≡ around_text 0 forms.Text name bytes }
    ensures object { (count : ℕ) (name bytes : List ℕ) (t : Totals)
        → verdict (strict reading) bytes ≡ Accepted t → all_text count forms.Json name bytes
        ≡ object_line name (members_of_none (around_told count forms.Json name bytes)) }
    ensures outcome { (bytes : List ℕ) (t : Totals) → verdict (strict reading) bytes ≡ Accepted t
        → all_outcome bytes ≡ outcomes.Accepted }
{}

/// With no lines before, the same is told of a trace as without, in either form, and of one that is
/// accepted also what that rests on.
pub fn no_lines_before_tell_nothing()
    ensures accepted { (form : Form) (name bytes : List ℕ)
        → around_told 0 form name bytes ≡ why_by (strict reading) form name bytes
        ++ rest_behind each form (outcome_by bytes) (good_lines (strict reading) bytes) }
    ensures others { (form : Form) (name bytes : List ℕ) → outcome_by bytes ≢ outcomes.Accepted
        → around_text 0 form name bytes ≡ why form name bytes }
{}

/// The verdict of a trace and all its violations agree. A trace is accepted exactly if it has no
/// violation and is accepted past violations too, with the same totals. If it is refused by a rule
/// past which the machine goes on, its first violation is on that line, of that rule. If it is
/// refused by another rule or cannot be read, that is its end past violations too, and no violation
/// stands before it.
pub fn verdict_and_violations_agree()
    ensures accepted { (bytes : List ℕ) (t : Totals) → verdict (strict reading) bytes ≡ Accepted t
        → EndsUnviolated (Accepted t) bytes }
    ensures unviolated { (bytes : List ℕ) (t : Totals) → EndsUnviolated (Accepted t) bytes
        → verdict (strict reading) bytes ≡ Accepted t }
    ensures outcome { (bytes : List ℕ) → all_outcome bytes ≡ outcomes.Accepted
        → (t : Totals) × (verdict (strict reading) bytes ≡ Accepted t) }
    ensures first { (bytes : List ℕ) (n : ℕ) (r : Rule) (t : Totals)
        → verdict (strict reading) bytes ≡ Refused n r t → goes_on_past r t ≡ true
        → ComesFirst n r (violations_of_trace bytes) }
    ensures refused { (bytes : List ℕ) (n : ℕ) (r : Rule) (t : Totals)
        → verdict (strict reading) bytes ≡ Refused n r t → goes_on_past r t ≡ false
        → EndsUnviolated (Refused n r t) bytes }
    ensures unreadable { (bytes : List ℕ) (n : ℕ) (f : Fault) (t : Option Totals)
        → verdict (strict reading) bytes ≡ Unreadable n f t
        → EndsUnviolated (Unreadable n f t) bytes }
{}
