//! Laws of what was allowed, and of what is told of a refused event: the sums that deadlines are,
//! the numbers of runs, and which of the rules that it breaks comes first; and of what is told of a
//! trace in more than one way.
//!
//! Each is the contract of a function that does nothing.

pub mod allowances;
pub mod differences;
pub mod firsts;
pub mod terms;
pub mod traces;
