//! What neither a clause nor a trace shows, and the examples of docs/library.md.
//!
//! A test asserts what a function without the runtime finds: in one that has the runtime each step
//! takes several times as long to prove, and so do the texts of `assert_eq`. It also takes long to
//! prove that a ledger, an auditor or a session is dropped. So one function of a module holds them
//! for all of its tests, and lends them to the others. A function for any type that can be dropped
//! takes less than one for a certain type.
mod arithmetic;
mod auditor;
mod commands;
mod events;
mod keeping;
mod lines;
mod machine;
mod sets;
mod streams;
mod values;
