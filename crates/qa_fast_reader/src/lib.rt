//! A quick reader of lines in the form that most loggers write.
//!
//! It reads the lines of events: their keys in any order, white space between the tokens, and keys
//! that no table has, with any value. Of any line that is one object of simple values and of lists
//! of these, as headers are, it makes the JSON value. It leaves every other line to `serde_json`:
//! escapes in the names of keys, and what is no JSON. Nothing here says that a line has a fault.
#![tactic(auto)]

mod any_order;
mod events;
mod exact;
mod found;
mod in_order;
mod keys;
mod line;
mod members;
mod names;
mod objects;
mod ranges;
mod reports;
mod unknown;

pub use exact::usual_line;
pub use line::other_line;
pub use objects::flat_object;
