//! What only the functions show.
mod files;
mod lengths;
mod streams;
