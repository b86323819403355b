//! A line of a trace is read: its bytes as JSON, its keys, and the first of its faults.
#![tactic(auto)]

mod fault;
mod fields;
mod json;
mod ranges;
mod reader;
mod tables;

pub use fault::LineFault;
pub use reader::read_line;
