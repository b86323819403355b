//! What is told of a trace as a JSON object: its members, by the verdict and by the cause of a
//! refusal.
//!
//! An object is written by the writer of `json`, a token at a time. An amount has its unit at the
//! end of its key: `bytes`, or the unit of the trace's times, `us` or `ns`.

mod deadlines;
mod facts;
mod losses;
mod object;
mod reports;
mod sending;
mod sources;
mod subjects;

pub use deadlines::push_due;
pub use facts::push_facts;
pub use losses::{push_owed, push_owed_runs};
pub use object::Object;
pub use sending::push_bytes;
pub use sources::push_source;
pub use subjects::push_subject;
