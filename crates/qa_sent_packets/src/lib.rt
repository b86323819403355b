//! The packets that were sent, each with what became of it, as a sender keeps them (RFC 9002, A.1):
//! those since the oldest that is still open or owed, in the order of sending. An open packet that
//! only an acknowledgment or a discard asks for may be set aside where it would keep many others.
#![tactic(auto)]

mod acknowledging;
mod advancing;
mod covering;
mod declaring;
mod detecting;
mod discarding;
mod dropping;
mod fate;
mod free;
mod named;
mod naming;
mod owing;
mod packet;
mod packets;
mod pushing;
mod queue;
mod space_packets;
mod spare;
mod strays;
mod taking;
mod unacknowledged;

pub use acknowledging::are_falling;
pub use detecting::Thresholds;
pub use fate::Fate;
pub use free::FreePackets;
pub use packet::SentPacket;
pub use packets::SentPackets;
