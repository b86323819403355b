//! The text that says why an event breaks a rule: what it is and did, the facts of the rule, and
//! where the rule stands.

mod deadlines;
mod facts;
mod levels;
mod pieces;
mod predicates;
mod reports;
mod roundings;
mod runs;
mod sending;
mod sentences;
mod sources;
mod subjects;
mod times;
mod values;

pub use deadlines::due_time;
pub use facts::push_facts;
pub use pieces::{push_name, push_number, push_wide, push_words};
pub use reports::differs;
pub use roundings::rounding_hint;
pub use runs::push_owed;
pub use sentences::push_sentence;
pub use sources::push_source;
pub(crate) use sources::{requirement, section};
pub use subjects::push_subject;
pub use times::push_time;
pub use values::{held_of, is_in_bytes, push_amount, reported_of};
