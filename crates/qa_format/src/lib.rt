//! What the bytes of a trace say: lines, the faults of those that cannot be read, and verdicts.
//!
//! The definitions stand in `specs/`, one subject a file: what a line is read as and what is
//! written for it, and the verdict of a trace and its report. They stand on those of `qa_base`.
#![tactic(auto)]

mod fault;
mod form;
mod line;
mod verdict;

pub use fault::Fault;
pub use form::Form;
pub use line::Line;
pub use verdict::Verdict;
