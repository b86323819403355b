//! The arguments of `qaudit`, `qaudit-why` and `qlog-to-trace`: what they ask for, or that they are
//! refused.
#![tactic(auto)]

mod fault;
mod parsing;
pub mod qlog;
mod reading;
pub mod why;

pub use fault::ArgumentsFault;
pub use parsing::{Subcommand, parse};
pub use reading::read_arguments;
