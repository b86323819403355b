//! The packets that are kept, in the order of sending.
use crate::packet::SentPacket;
use std::collections::VecDeque;

/// The packets that are kept, in the order of sending, behind those that were dropped. A packet's
/// place is how many were sent before it, over all spaces: the first that is kept has the place
/// `dropped`.
#[derive(Drop)]
pub(crate) struct PacketQueue {
    /// How many packets were dropped.
    pub(crate) dropped: u64,
    /// Those behind them.
    pub(crate) packets: VecDeque<SentPacket>,
}
