//! The arithmetic of RFC 9002: the round-trip time and NewReno, with no file and no memory.
//!
//! Each call is exactly one step of the definitions, and nothing wraps. Every call of `Rtt`
//! succeeds, whatever its fields hold; the calls of `Reno` ask for a window, a datagram size and a
//! packet size in their ranges. Divisions round down unless a call says otherwise.
#![tactic(auto)]

mod reno;
mod rtt;

pub use qa_base::Ticks;
pub use reno::Reno;
pub use rtt::Rtt;
