//! What a trace is warned of: keys that do nothing, and packets that are larger than its header
//! says.

mod strange;
mod texts;
mod told;
mod warnings;

pub use warnings::Warnings;
