//! The quantities of the machine of RFC 9002, each computed from the events alone, and `Whole`, the
//! ledger that keeps all events: the plain reading of the definitions, to compare with.
//!
//! Each function is its definition over the events in their order, and nothing else: it keeps no
//! state, takes no memory, and always returns. So it takes time: the estimate and the window walk
//! the events behind each packet for each acknowledgment. For 300 events that is about a
//! millisecond a call. Events need not be a run, nor their times or numbers rise. What is asked of
//! them stands at each function: `reno` and `recovery_spent` ask that each fits (`Event::fits`) and
//! that there are fewer than 2^32, `deadline` and `packet_deadline` for a PTO count of at most 40,
//! `set_since` and `is_late` for such a count after each event, and the others for nothing.
//!
//! Times are in the unit of the trace, sizes and windows in bytes.
#![tactic(auto)]

mod congestion;
mod deadlines;
mod declared;
mod distance;
mod estimates;
mod event;
mod handshake;
mod lateness;
mod losses;
mod named;
mod packet;
mod permission;
mod questions;
mod reported;
mod sampling;
mod settled;
mod timer;
mod tolerating;
mod totals;
mod whole;
mod window;

pub use estimates::{rtt, sampled};
pub use handshake::is_confirmed;
pub use lateness::{is_late, set_since};
pub use packet::{Packet, packet_of};
pub use permission::{is_probe_due, probe_spent, recovery_spent};
pub use questions::{
    bytes_in_flight, deadline, has_nameable_in, is_owed, names_losses, owed_count, owes,
    packet_deadline,
};
pub use reported::{acknowledged_since_collapse, reported_window};
pub use settled::{
    is_acknowledged, is_declared_lost, is_discarded, is_newly_acknowledged, largest_acknowledged,
};
pub use timer::pto_count;
pub use whole::Whole;
pub use window::reno;
