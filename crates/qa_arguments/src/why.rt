//! The arguments of the program `qaudit-why`: what they ask for, or that they ask for nothing.

mod arguments;

pub use arguments::{Asked, Inquiry, Told, parse};
