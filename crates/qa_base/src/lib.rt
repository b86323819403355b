//! What a trace of a QUIC sender is made of: values in their ranges, headers, events and rules.
//!
//! The definitions of these and of the machine stand in `specs/`, one subject a file. The other
//! crates are proved against them. `history` in `specs/` and `proofs/` says what one more event
//! makes of a history: words and lemmas for the sender, the reference and the laws.
#![tactic(auto)]

pub mod constants;
mod due;
mod event;
mod header;
mod key;
pub mod limits;
mod line_kind;
mod number;
mod per_space;
mod rule;
mod space;
mod totals;

pub use due::Due;
pub use event::{Ack, Event, MetricValues, SentPacket};
pub use header::{ConnectionValues, Header, Options, Version};
pub use key::{Key, RangeFault};
pub use line_kind::LineKind;
pub use number::{PacketNumber, Span, Spans, Ticks};
pub use per_space::PerSpace;
pub use rule::{Field, Rule};
pub use space::{
    Controller, LossByNumber, Permission, Role, Space, ThresholdCounts, TimeUnit, TimerKind,
};
pub use totals::Totals;
