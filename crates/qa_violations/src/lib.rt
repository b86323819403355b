//! All violations of sender rules in a trace: what each event did past them, what is told of them,
//! and of the lines around them.
#![tactic(auto)]

mod all;
mod allowed;
mod around;
pub mod laws;
mod table;

pub use all::{Tolerating, Violation, rows_all, why_all};
pub use allowed::Allowance;
pub use around::{Latest, LatestObjects, Manner, header_allowed, why_around};
pub use table::{Finding, Row, Table, amount, is_kind, unit_of};
