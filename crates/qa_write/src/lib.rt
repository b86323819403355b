//! A line of a trace is written: its text, and the list of its ranges.
#![tactic(auto)]

mod writer;

pub use writer::{ranges_list, write_line};
