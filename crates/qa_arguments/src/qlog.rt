//! The arguments of the program `qlog-to-trace`: what they ask for, or that they ask for nothing.

mod arguments;
mod keys;

pub use arguments::{Asked, ConversionRequest, parse};
pub use keys::HeaderKeys;
