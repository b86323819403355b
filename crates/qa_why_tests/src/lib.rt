//! Tests of what is told of traces: the table of violations of sender rules, the judge that
//! goes on past them, all that is written of a trace, the lines before a refusal, and warnings.
//!
//! They stand apart from `qa_tests`, so that its proof does not wait for the crates above the
//! checker.
#![tactic(auto)]

#[cfg(test)]
mod tests;
