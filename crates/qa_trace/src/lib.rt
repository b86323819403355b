//! The line format, for someone who reads or writes traces: bytes that come in pieces are cut into
//! lines, a line is read, and a line is written.
//!
//! Cutting is proved in `qa_cut`, reading in `qa_read`, and writing in `qa_write`.
#![tactic(auto)]

pub use qa_base::limits::MAX_LINE_LENGTH;
pub use qa_base::{
    Ack, ConnectionValues, Event, Field, Header, Key, LineKind, MetricValues, Options,
    PacketNumber, Permission, RangeFault, Role, SentPacket, Space, Span, Spans, Ticks, TimeUnit,
    TimerKind,
};
pub use qa_cut::{SplitFault, Splitter};
pub use qa_format::{Fault, Line};
pub use qa_read::{LineFault, read_line};
pub use qa_write::{ranges_list, write_line};
