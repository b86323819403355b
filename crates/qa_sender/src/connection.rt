//! What a sender keeps of a connection beside the packets that were sent (RFC 9002, A.3 and B.2): a
//! few fields, so that an event takes as long as the packets that it acknowledges, and no longer.
//!
//! Times are in the unit of the trace, sizes and windows in bytes. Nothing here takes memory.

mod allowances;
mod congestion;
mod connection;
mod deadline;
mod detection;
mod handshake;
mod reported;
mod sampling;
mod spaces;
mod timer;

pub use allowances::Allowances;
pub use congestion::Losses;
pub use connection::Connection;
pub use deadline::OpenInSpace;
pub use detection::Detection;
pub use handshake::HandshakeState;
pub use reported::ReportedWindow;
pub use spaces::SpaceState;
pub use timer::TimerState;
