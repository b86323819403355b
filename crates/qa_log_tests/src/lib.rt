//! Tests of what logs cannot show: streams that fail while a log is converted, arguments that
//! cannot be read, records and lines of the largest length, and which files are logs.
//!
//! A crate with tests is proved a second time with them. So these are in a crate of their own, and
//! what a log and its trace show is in `conformance/converted`.
#![tactic(auto)]

#[cfg(test)]
mod tests;
