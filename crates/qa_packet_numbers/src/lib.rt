//! Sets of packet numbers that take memory for each run of consecutive numbers, and not for each
//! number.
#![tactic(auto)]

mod ending;
mod missing;
mod ranges;
mod removing;
mod sent;
mod spans;

pub use ranges::Ranges;
pub use sent::SentNumbers;
