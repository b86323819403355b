//! What a header allowed the events of a trace, item by item.
ghost use Rattle.std.specs.Prelude.{◌≡◌, ℕ, List, IfOk, filter, map, option_map};
ghost use Rattle.qa_violations.specs.allowed.Items as defined;
ghost use Rattle.qa_violations.specs.allowed.Keeping.{CoversWhere};
ghost use Rattle.qa_violations.specs.allowed.Lines.{Counting};
ghost use Rattle.qa_violations.specs.table.Table.{has_findings};

use crate::allowed::allowances::Allowances;
use crate::allowed::choices::{key_of, limit_of};
use crate::allowed::members::some_limit;
use crate::table::Row;
use qa_base::{Key, Options, TimeUnit};
use qa_check::Outcome;
use std::alloc::{AllocError, Global};

/// What a header allowed the events of a trace past a rule, in sum.
#[derive(Clone, Copy)]
pub struct Allowance {
    /// The rule, how many events there are, on which lines, and the greatest of their amounts.
    pub row: Row,
    /// The key of the header that allows it.
    pub key: Option<Key>,
    /// How much that allows, in bytes or in the unit of times; None where it sets no limit.
    pub limit: Option<u128>,
}

/// A row with the key that allows it, and how much that allows.
fn item_of(unit: TimeUnit, options: &Options, row: &Row) -> Allowance
    ensures { result ≡ defined.item_of unit options.now row.now }
{
    Allowance {
        row: *row,
        key: key_of(row.rule),
        limit: some_limit(unit, row.rule, limit_of(options, row.rule)),
    }
}

/// The rows in which something was found.
fn found(
    alloc: Global,
    unit: TimeUnit,
    options: &Options,
    rows: &[Row],
) -> Result<Vec<Allowance>, AllocError>
    ensures { IfOk result (λ found. found.items
        ≡ map (defined.item_of unit options.now) (filter has_findings rows.now)) }
{
    let mut found = Vec::new(alloc);
    for row in rows {
        if 0 < row.count {
            found.push(item_of(unit, options, row))?;
        }
    }
    Ok(found)
}

impl Allowances {
    /// What the header allowed, in the order of the rules. `AllocError` comes where it is out of
    /// memory.
    fn items(&self, alloc: Global) -> Result<Vec<Allowance>, AllocError>
        ensures { IfOk result (λ items. (counts : Counting) (ls : List (List ℕ))
            → CoversWhere counts self.now ls → items.items ≡ defined.allowances counts ls) }
    {
        match &self.header {
            None => Ok(Vec::new(alloc)),
            Some(header) => found(
                alloc,
                header.unit(),
                &header.options(),
                self.tally.table.rows(),
            ),
        }
    }

    /// What a verdict of this kind rests on of that: nothing unless the trace is accepted.
    /// `AllocError` comes where it is out of memory.
    pub(crate) fn items_behind(
        &self,
        alloc: Global,
        outcome: Outcome,
    ) -> Result<Vec<Allowance>, AllocError>
        ensures { IfOk result (λ items. (counts : Counting) (ls : List (List ℕ))
            → CoversWhere counts self.now ls
            → items.items ≡ defined.allowances_behind counts outcome ls) }
    {
        match outcome {
            Outcome::Accepted => self.items(alloc),
            Outcome::Refused | Outcome::Unreadable => Ok(Vec::new(alloc)),
        }
    }
}
