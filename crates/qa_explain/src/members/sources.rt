//! Where a rule comes from.
ghost use Rattle.std.specs.Prelude.{◌≡◌, ◌++◌, OnOk};
ghost use Rattle.qa_explain.specs.members.Sources as text;

use crate::members::object::Object;
use crate::text::{requirement, section};
use qa_base::Rule;
use std::alloc::AllocError;

/// Writes where a rule comes from: how strong the RFC is there, and its section.
#[tactic(auto, unfolding(crate::specs::members::Sources::source_members))]
pub fn push_source(out: &mut Object, rule: Rule) -> Result<(), AllocError>
    ensures { OnOk result (out.new ≡ out.old ++ text.source_members rule) }
{
    out.string("requirement", requirement(rule))?;
    out.string("section", section(rule))
}
