//! What `qaudit` does with its arguments: it audits or explains traces, of files or of standard
//! input, tells each failure on standard error, and returns the exit status.
#![tactic(auto)]

mod checking;
mod commanding;
mod ending;
mod explaining;
mod naming;

pub use checking::check;
pub use commanding::{command, refuse};
pub use ending::{Failure, Origin, status};
pub use explaining::explain;
pub use naming::{write_line, write_lines};
