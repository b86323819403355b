//! What is written of a trace: why it is refused or cannot be read, or that it is accepted; and a
//! row for each of its lines.
//!
//! `suggest` says which key a wrong one is probably meant to be, `json_rows` what the machine held
//! behind a line.
#![tactic(auto)]

mod causes;
mod caveats;
mod faults;
mod hidden;
mod hints;
mod json_rows;
mod lines;
mod meant;
mod notes;
mod objects;
mod reasons;
mod suggest;
mod telling;
mod texts;
mod values;

pub use causes::{Why, whole, why_of};
pub use caveats::{Caveats, Guessed};
pub use json_rows::{object, row, rows};
pub use lines::{extend, first_bytes, printed};
pub use notes::{Both, NoNotes, Notes};
pub use objects::{push_rule, refused_members};
pub use reasons::Reasons;
pub use suggest::{is_key, keys_of, near, stands_for};
pub use telling::{find, unless_accepted};
pub use texts::{Heading, broken};
pub use values::data_of;
