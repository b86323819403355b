//! What is said of a trace.
use crate::fault::Fault;
use qa_base::{Rule, Totals};

/// What is said of a trace.
#[derive(Clone, Copy, Debug, PartialEq, Eq)]
pub enum Verdict {
    /// A header and events that form a whole run.
    Accepted(Totals),
    /// The first line that is not good breaks this rule; the totals are those before it.
    Refused(u64, Rule, Totals),
    /// The first line that is not good has this fault; the totals are those before it, none before
    /// a header.
    Unreadable(u64, Fault, Option<Totals>),
}
