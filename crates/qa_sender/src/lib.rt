//! The sender: the state of RFC 9002, A.3 and B.2, that passes once over the events and keeps none.
//!
//! `connection` has what is kept beside the packets, `machine` what each kind of event does, and
//! `Running` is the ledger over both.
#![tactic(auto)]

mod answers;
mod connection;
mod facts;
mod far;
mod freeing;
mod machine;
mod running;
mod tolerating;
mod watch;

pub use running::Running;
