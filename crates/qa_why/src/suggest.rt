//! Which key of the format a wrong key is probably meant to be.

mod guess;
mod missing;
mod other_names;
mod tables;

pub use guess::near;
pub use missing::stands_for;
pub use tables::{is_key, keys_of};
