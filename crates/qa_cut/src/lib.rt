//! Bytes that come in parts are cut into pieces: those between two marks, and the lines of a trace.
#![tactic(auto)]

mod cutter;
mod splitter;

pub use cutter::{Cutter, Place, SplitFault};
pub use splitter::Splitter;
