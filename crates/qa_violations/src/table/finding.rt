//! A violation as it is noted.
use qa_base::Rule;

/// A rule that an admitted event breaks.
#[derive(Clone, Copy)]
pub struct Finding {
    /// The line of the event, 1 for the first of the trace.
    pub line: u64,
    /// The rule.
    pub rule: Rule,
    /// By how much, in bytes or in the unit of times; None where there is no such amount.
    pub amount: Option<u128>,
}
