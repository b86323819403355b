//! Laws of losses that may be declared: what they have in common with losses that must be.
//!
//! Each is the contract of a function that does nothing.

pub mod sparing;
