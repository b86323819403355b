//! Laws of every run and of every verdict, over the definitions alone, and edges as theorems.
//!
//! Each is the contract of a function that does nothing.
#![tactic(auto)]

pub mod conduct;
pub mod counting;
pub mod definitions;
pub mod grounds;
pub mod losses;
pub mod running;
