//! What `qaudit-why` does with its arguments: it tells of each trace why it is refused or cannot be
//! read, and what it is warned of, each failure on standard error, and returns the exit status.
#![tactic(auto)]

mod commanding;
mod ending;
mod logs;
mod tally;
mod telling;
mod traces;
mod waiting;
mod warnings;

pub use commanding::{command, refuse};
pub use ending::Failure;
pub use tally::Tally;
pub use waiting::announce;
pub use warnings::Warnings;
