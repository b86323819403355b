//! A log as the lines of its trace: its bytes, which are read three times, the lines that they
//! give, and a reader of those lines.
#![tactic(auto)]

mod bytes;
mod failure;
mod lines;
mod reader;

pub use bytes::{Bytes, is_log_file};
pub use failure::{Interruption, LogFailure};
pub use lines::{Lines, lines_of};
pub use reader::TraceReader;
