//! Tests of what neither a clause nor a trace shows: how much a ledger keeps, readers, writers and
//! ledgers that fail, the order of spaces and numbers, and the fault of line 4294967296. The
//! examples of docs/library.md stand here too.
//!
//! A crate with tests is proved a second time with them. So these stand in a crate of their own.
#![tactic(auto)]

#[cfg(test)]
mod tests;
