//! What is owed as lost, and what is free.
ghost use Rattle.std.specs.Prelude.{◌≡◌, ◌++◌, OnOk, option_map};
ghost use Rattle.qa_base.specs.values.Names.{space_name};
ghost use Rattle.qa_explain.specs.members.Losses as text;

use crate::members::object::Object;
use qa_base::Space;
use qa_ledger::{Counted, Free, Owed, Ranges};
use std::alloc::AllocError;

/// Writes a space that may be absent.
pub(crate) fn push_space(
    out: &mut Object,
    key: &str,
    space: Option<Space>,
) -> Result<(), AllocError>
    ensures { OnOk result (out.new ≡ out.old ++ text.space_at key.now space) }
{
    match space {
        None => out.null(key),
        Some(space) => out.string(key, space.name()),
    }
}

/// Writes how far a packet lies below the largest acknowledged one, by the packets that were sent
/// (RFC 9002, section 6.1.1).
#[tactic(auto, unfolding(crate::specs::members::Losses::some_counted))]
fn push_some_counted(out: &mut Object, key: &str, counted: Counted) -> Result<(), AllocError>
    ensures { OnOk result (out.new ≡ out.old ++ text.some_counted key.now counted) }
{
    out.begin_list(key)?;
    out.begin_object()?;
    out.number("number", u128::from(counted.number.get()))?;
    out.number("up_to", u128::from(counted.largest.get()))?;
    out.number("packets", u128::from(counted.packets))?;
    out.number("packet_threshold", u128::from(counted.threshold))?;
    out.end_object()?;
    out.end_list()
}

/// The same, where it is told: where the packet threshold counts packets.
pub(crate) fn push_counted(
    out: &mut Object,
    key: &str,
    counted: Option<Counted>,
) -> Result<(), AllocError>
    ensures { OnOk result (out.new ≡ out.old ++ text.counted key.now counted) }
{
    match counted {
        None => Ok(()),
        Some(counted) => push_some_counted(out, key, counted),
    }
}

/// Writes what is owed, by its space and its numbers (RFC 9002, section 6.1).
#[tactic(auto, unfolding(crate::specs::members::Losses::owed_runs))]
pub fn push_owed_runs(out: &mut Object, owed: &Owed) -> Result<(), AllocError>
    ensures { OnOk result (out.new ≡ out.old ++ text.owed_runs owed.now) }
{
    push_space(out, "owed_space", owed.space)?;
    out.runs("owed", owed.numbers.as_slice())
}

/// Writes what is owed, and how far the first of it lies below the largest acknowledged packet,
/// where that is told.
#[tactic(auto, unfolding(crate::specs::members::Losses::owed))]
pub fn push_owed(out: &mut Object, owed: &Owed) -> Result<(), AllocError>
    ensures { OnOk result (out.new ≡ out.old ++ text.owed owed.now) }
{
    push_owed_runs(out, owed)?;
    push_counted(out, "owed_counted", owed.counted)
}

#[tactic(auto, unfolding(crate::specs::members::Losses::free_in))]
fn push_free_in(out: &mut Object, free: &Free) -> Result<(), AllocError>
    ensures { OnOk result (out.new ≡ out.old ++ text.free_in free.now) }
{
    push_space(out, "free_space", free.space)?;
    out.runs("free", free.numbers.as_slice())
}

#[tactic(auto, unfolding(crate::specs::members::Losses::free_absent))]
fn push_no_free(out: &mut Object) -> Result<(), AllocError>
    ensures { OnOk result (out.new ≡ out.old ++ text.free_absent) }
{
    out.null("free_space")?;
    out.null("free")
}

/// What is free, where the header lets a sender spare packets (RFC 9002, section 6.1.1).
fn push_free(out: &mut Object, free: &Option<Free>) -> Result<(), AllocError>
    ensures { OnOk result (out.new ≡ out.old ++ text.free free.now) }
{
    match free {
        None => push_no_free(out),
        Some(free) => push_free_in(out, free),
    }
}

/// V3: what is owed, and what is free.
#[tactic(auto, unfolding(crate::specs::members::Losses::nameable))]
pub(crate) fn push_nameable(
    out: &mut Object,
    owed: &Owed,
    free: &Option<Free>,
) -> Result<(), AllocError>
    ensures { OnOk result (out.new ≡ out.old ++ text.nameable owed.now free.now) }
{
    push_owed(out, owed)?;
    push_free(out, free)
}

/// V4: how a Lost line differs from what it may name.
#[tactic(auto, unfolding(crate::specs::members::Losses::differing))]
pub(crate) fn push_differing(
    out: &mut Object,
    unnamed: &Ranges,
    unowed: &Ranges,
) -> Result<(), AllocError>
    ensures { OnOk result (out.new ≡ out.old ++ text.differing unnamed.now unowed.now) }
{
    out.runs("unnamed", unnamed.as_slice())?;
    out.runs("unowed", unowed.as_slice())
}
