//! What an accepted verdict rests on: how often, where and by how much at most the header of a
//! trace allowed its events what the rules forbid without it; what the sender chose; and how the
//! trace ends.

mod allowances;
mod amounts;
mod before;
mod choices;
mod items;
mod late;
mod members;
mod rests;
mod tally;
mod texts;
mod told;

pub(crate) use allowances::Allowances;
pub use items::Allowance;
pub(crate) use told::{Told, unless_quiet};
