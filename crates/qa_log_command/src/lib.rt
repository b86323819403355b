//! What `qlog-to-trace` does with its arguments: it reads a log three times and writes its trace,
//! with each failure and what the trace lacks on standard error, and returns the exit status.
#![tactic(auto)]

mod asking;
mod commanding;
mod converting;
mod ending;
mod failure;
mod output;
mod telling;

pub use asking::Conversion;
pub use commanding::{Streams, command, refuse};
pub use ending::Ending;
pub use failure::Failure;
