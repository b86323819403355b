//! The audit that goes on past sender rules: which of them each event violated, and what is told
//! of all violations of a trace.
//!
//! A sender rule says what a sender should have done: V7, V8, V9, V13, V14, V16, V18 and V19.

mod keeping;
mod listing;
mod objects;
mod reasoning;
mod rows;
mod tolerating;
mod trace;
mod unviolated;

pub use rows::rows_all;
pub use tolerating::{Tolerating, Violation};
pub use trace::why_all;
