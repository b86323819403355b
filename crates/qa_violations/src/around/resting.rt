//! From a reader of bytes to what their verdict rests on.
ghost use Rattle.std.specs.Prelude.{◌≡◌, ℕ, List, Some, IfSome};
ghost use Rattle.qa_format.specs.format.Reading.{reading};
ghost use Rattle.qa_format.specs.verdicts.Verdict.{strict};
ghost use Rattle.qa_violations.specs.allowed.Items.{allowances_behind};
ghost use Rattle.qa_violations.specs.allowed.Lines.{each};
ghost use Rattle.qa_violations.specs.around.Around.{outcome_by};
ghost use Rattle.qa_why.specs.Why.{good_lines};

use crate::allowed::{Allowance, Allowances};
use crate::around::manner::Manner;
use crate::around::trace::why_around;
use qa_check::{Metered, Source};
use qa_format::Form;
use qa_ledger::Explains;
use std::alloc::Global;

/// Reads a trace, and returns what the header allowed its events past each rule, in the order of
/// the rules; nothing unless the trace is accepted.
///
/// None comes where a read fails, or it is out of memory. It reads what `audit` reads, and takes
/// memory for the text of `why_around` too.
pub fn header_allowed<L: Explains + Drop, R: Source>(
    alloc: Global,
    reader: &mut R,
) -> Option<Vec<Allowance>>
    ensures { (bytes : List ℕ) → R.left reader.old ≡ Some bytes
        → IfSome result (λ items. items.items
        ≡ allowances_behind each (outcome_by bytes) (good_lines (strict reading) bytes)) }
{
    let manner = Manner {
        form: Form::Text,
        quiet: true,
        around: 0,
    };
    let mut writer = Metered::new(Vec::new(alloc));
    let notes = Allowances::new();
    match why_around::<L, Allowances, R, _>(alloc, manner, "", notes, reader, &mut writer) {
        Ok((outcome, allowances)) => allowances.items_behind(alloc, outcome).ok(),
        Err(_) => None,
    }
}
