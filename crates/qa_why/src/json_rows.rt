//! The rows of a trace for programs: of each line that the machine admits a JSON object with its
//! number, what it says, and the state of the machine behind it.
//!
//! The walk over the lines is that of `qa_check`, to which a row is what is told of a line.

mod line;
mod state;
mod trace;

pub use line::{object, row};
pub use trace::rows;
