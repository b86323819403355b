//! What a refusal may rest on besides the sender: guesses, lines that the log lost, and what the
//! converter of a log says of it.

mod caveats;
mod guesses;
mod missing;
mod remarks;

pub use caveats::Caveats;
pub use guesses::Guessed;
pub(crate) use remarks::push_remarks;
