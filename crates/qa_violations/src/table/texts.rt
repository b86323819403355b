//! The text of the table.
ghost use Rattle.std.specs.Prelude.{◌≡◌, ◌++◌, OnOk, string_bytes, filter};
ghost use Rattle.qa_violations.specs.table.Table.{has_findings};
ghost use Rattle.qa_violations.specs.table.Texts as text;

use crate::table::row::Row;
use qa_base::{Rule, TimeUnit};
use qa_explain::text::{is_in_bytes, push_name, push_number, push_wide, push_words};
use std::alloc::AllocError;
use std::fmt::Write;

// ---- a row

/// The rule, as a report has it.
#[tactic(auto, unfolding(crate::specs::table::Texts::rule_part, qa_explain::specs::text::Pieces::named))]
fn push_rule(out: &mut String, rule: Rule) -> Result<(), AllocError>
    ensures { OnOk result (string_bytes out.new ≡ string_bytes out.old ++ text.rule_part rule) }
{
    write!(out, "  {rule}")
}

#[tactic(auto, unfolding(crate::specs::table::Texts::often_text))]
fn push_often(out: &mut String, count: u64, first: u64, last: u64) -> Result<(), AllocError>
    ensures { OnOk result (string_bytes out.new
        ≡ string_bytes out.old ++ text.often_text count first last) }
{
    push_number(out, ": ", count)?;
    push_number(out, " times, lines ", first)?;
    push_number(out, " to ", last)
}

/// How often, and on which lines.
#[tactic(auto, unfolding(crate::specs::table::Texts::once_text))]
fn push_where(out: &mut String, row: &Row) -> Result<(), AllocError>
    ensures { OnOk result (string_bytes out.new
        ≡ string_bytes out.old ++ text.where_text row.now) }
{
    if row.count == 1 {
        return push_number(out, ": once, line ", row.first);
    }
    push_often(out, row.count, row.first, row.last)
}

/// In what the amounts of the rule are: `bytes`, `us` or `ns`.
pub fn unit_of(unit: TimeUnit, rule: Rule) -> &'static str
    ensures { result.now ≡ text.unit_of unit rule }
{
    if is_in_bytes(rule) {
        return "bytes";
    }
    unit.name()
}

/// What stands before an amount of so many violations.
pub(crate) fn by_words(count: u64) -> &'static str
    ensures { result.now ≡ text.by_words count }
{
    if count == 1 {
        return ", by ";
    }
    ", by at most "
}

#[tactic(auto, unfolding(crate::specs::table::Texts::by_text))]
fn push_by(out: &mut String, count: u64, amount: u128, unit: &str) -> Result<(), AllocError>
    ensures { OnOk result (string_bytes out.new
        ≡ string_bytes out.old ++ text.by_text count amount unit.now) }
{
    push_wide(out, by_words(count), amount)?;
    push_name(out, " ", unit)
}

/// By how much, where it is known.
fn push_amount(
    out: &mut String,
    unit: TimeUnit,
    row: &Row,
    greatest: Option<u128>,
) -> Result<(), AllocError>
    ensures { OnOk result (string_bytes out.new
        ≡ string_bytes out.old ++ text.amount_text unit row.now greatest) }
{
    match greatest {
        None => Ok(()),
        Some(amount) => push_by(out, row.count, amount, unit_of(unit, row.rule)),
    }
}

#[tactic(auto, unfolding(crate::specs::table::Texts::row_text))]
fn push_row(out: &mut String, unit: TimeUnit, row: &Row) -> Result<(), AllocError>
    ensures { OnOk result (string_bytes out.new
        ≡ string_bytes out.old ++ text.row_text unit row.now) }
{
    push_rule(out, row.rule)?;
    push_where(out, row)?;
    push_amount(out, unit, row, row.greatest)?;
    push_words(out, "\n")
}

// ---- the table

/// The rows that have findings.
pub(crate) fn push_rows(out: &mut String, unit: TimeUnit, rows: &[Row]) -> Result<(), AllocError>
    ensures { OnOk result (string_bytes out.new
        ≡ string_bytes out.old ++ text.rows_text unit (filter has_findings rows.now)) }
{
    for row in rows {
        if 0 < row.count {
            push_row(out, unit, row)?;
        }
    }
    Ok(())
}

/// How many violations there were.
fn push_times(out: &mut String, count: u64) -> Result<(), AllocError>
    ensures { OnOk result (string_bytes out.new ≡ string_bytes out.old ++ text.times_text count) }
{
    if count == 1 {
        return push_words(out, "once");
    }
    write!(out, "{count} times")
}

/// How many violations there were, and in how many events.
#[tactic(auto, unfolding(crate::specs::table::Texts::head_text))]
pub(crate) fn push_head(out: &mut String, count: u64, events: u64) -> Result<(), AllocError>
    ensures { OnOk result (string_bytes out.new
        ≡ string_bytes out.old ++ text.head_text count events) }
{
    push_words(out, ": departs ")?;
    push_times(out, count)?;
    push_number(out, " in ", events)?;
    push_words(out, " events\n")
}
