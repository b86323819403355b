//! Why an event breaks a rule, or the end of a trace V17: the facts by which it was judged.
//!
//! `Cause` has those of each rule. A ledger that is an `Explains` tells them of an event that it
//! refuses; `cause_of` does so by what a state of the machine answers, which is a `Facts`.

mod cause;
mod deadline;
mod explains;
mod facts;
mod finding;

pub use cause::{Basis, Cause, Comparison, Counted, Free, Oldest, Owed};
pub use explains::Explains;
pub use facts::Facts;
pub use finding::{cause_of, owed_of};
pub use qa_packet_numbers::Ranges;
