//! All violations of a trace as the members of a JSON object.
ghost use Rattle.std.specs.Prelude.{◌≡◌, ◌++◌, IfOk, OnOk, filter};
ghost use Rattle.qa_violations.specs.all.Objects as text;
ghost use Rattle.qa_violations.specs.table.Table.{has_findings};

use crate::table::{Finding, Row, is_kind, push_counts, push_greatest};
use qa_base::{Rule, TimeUnit};
use qa_explain::members::Object;
use qa_why::{extend, push_rule};
use std::alloc::{AllocError, Global};

// ---- a kind of violations

/// The lines of those of the kind.
fn push_lines(object: &mut Object, rule: Rule, named: &[Finding]) -> Result<(), AllocError>
    ensures { OnOk result (object.new ≡ object.old ++ text.lines_of rule named.now) }
{
    for finding in named {
        if is_kind(rule, finding.rule) {
            object.integer(u128::from(finding.line))?;
        }
    }
    Ok(())
}

/// The lines of those of the kind, as a member.
fn push_named(object: &mut Object, rule: Rule, named: &[Finding]) -> Result<(), AllocError>
    ensures { OnOk result (object.new ≡ object.old ++ text.lines_member rule named.now) }
{
    object.begin_list("lines")?;
    push_lines(object, rule, named)?;
    object.end_list()
}

/// The object of a kind.
#[tactic(auto, unfolding(crate::specs::all::Objects::row_object))]
fn push_row(
    alloc: Global,
    object: &mut Object,
    unit: TimeUnit,
    named: &[Finding],
    row: &Row,
) -> Result<(), AllocError>
    ensures { OnOk result (object.new ≡ object.old ++ text.row_object unit named.now row.now) }
{
    object.begin_object()?;
    push_rule(alloc, object, row.rule)?;
    push_counts(object, row)?;
    push_greatest(object, unit, row.rule, row.greatest)?;
    push_named(object, row.rule, named)?;
    object.end_object()
}

/// The objects of the kinds that were found.
fn push_rows(
    alloc: Global,
    object: &mut Object,
    unit: TimeUnit,
    named: &[Finding],
    rows: &[Row],
) -> Result<(), AllocError>
    ensures { OnOk result (object.new ≡ object.old
        ++ text.row_objects unit named.now (filter has_findings rows.now)) }
{
    for row in rows {
        if 0 < row.count {
            push_row(alloc, object, unit, named, row)?;
        }
    }
    Ok(())
}

// ---- all of them

/// How many events were followed, and an object for each kind, by the rows of their table and those
/// whose lines are named.
#[tactic(auto, unfolding(crate::specs::all::Objects::rows_members))]
pub(crate) fn rows_members(
    alloc: Global,
    unit: TimeUnit,
    events: u64,
    named: &[Finding],
    rows: &[Row],
) -> Result<Vec<u8>, AllocError>
    ensures { IfOk result (λ members. members.items
        ≡ text.rows_members unit events named.now (filter has_findings rows.now)) }
{
    let mut object = Object::bare(alloc);
    object.number("events", u128::from(events))?;
    object.begin_list("departures")?;
    push_rows(alloc, &mut object, unit, named, rows)?;
    object.end_list()?;
    Ok(object.into_bytes())
}

/// How a trace ends, that violates nothing.
#[tactic(auto, unfolding(crate::specs::all::Objects::members_of_none))]
pub(crate) fn members_of_none(mut end: Vec<u8>) -> Result<Vec<u8>, AllocError>
    ensures { IfOk result (λ members. members.items ≡ text.members_of_none end.items) }
{
    extend(&mut end, b",\"departures\":[]")?;
    Ok(end)
}

/// The first violation, all of them, and how the trace ends past them.
#[tactic(auto, unfolding(crate::specs::all::Objects::members_of_some))]
pub(crate) fn members_of_some(
    mut first: Vec<u8>,
    all: &[u8],
    end: &[u8],
) -> Result<Vec<u8>, AllocError>
    ensures { IfOk result (λ members. members.items
        ≡ text.members_of_some first.items all.now end.now) }
{
    extend(&mut first, b",")?;
    extend(&mut first, all)?;
    extend(&mut first, b",\"end\":{")?;
    extend(&mut first, end)?;
    extend(&mut first, b"}")?;
    Ok(first)
}
