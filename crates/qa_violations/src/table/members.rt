//! A row of the table as members of a JSON object.
ghost use Rattle.std.specs.Prelude.{◌≡◌, ◌++◌, OnOk};
ghost use Rattle.qa_violations.specs.table.Members as text;

use crate::table::row::Row;
use crate::table::texts::unit_of;
use qa_base::{Rule, TimeUnit};
use qa_explain::members::Object;
use std::alloc::AllocError;

/// By how much at most, where it is known.
pub(crate) fn push_greatest(
    object: &mut Object,
    unit: TimeUnit,
    rule: Rule,
    greatest: Option<u128>,
) -> Result<(), AllocError>
    ensures { OnOk result (object.new ≡ object.old ++ text.greatest_at unit rule greatest) }
{
    match greatest {
        None => Ok(()),
        Some(amount) => object.amount("greatest", unit_of(unit, rule), amount),
    }
}

/// How many there are, and where.
#[tactic(auto, unfolding(crate::specs::table::Members::counts))]
pub(crate) fn push_counts(object: &mut Object, row: &Row) -> Result<(), AllocError>
    ensures { OnOk result (object.new ≡ object.old ++ text.counts row.now) }
{
    object.number("count", u128::from(row.count))?;
    object.number("first", u128::from(row.first))?;
    object.number("last", u128::from(row.last))
}
