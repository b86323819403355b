//! What a qlog is and what it has: its kind by its beginning, its texts out of bytes that come in
//! parts, each with the number of its line, or its records, each with its place, where it is one
//! object, how records are read, the name, the time and the data of a record, and what these data
//! say: packets and their frames, losses, reports, parameters, timers and keys.
#![tactic(auto)]

mod acks;
mod cutter;
mod cutter_law;
mod documents;
mod fields;
mod frames;
mod heads;
mod keys;
mod kinds;
mod law;
mod lengths;
mod losses;
mod metrics;
mod names;
mod numbers;
mod outer;
mod packets;
mod parameters;
mod records;
mod says;
mod secrets;
mod structural;
mod texts;
mod timers;
mod times;

pub use acks::{NoRanges, ack_delay, acked_ranges, ce_count};
pub use cutter::{CutFault, DocumentCutter, Record, Skeleton};
pub use cutter_law::{cuts_whatever_the_parts, records_stand_at_their_places};
pub use documents::{records_of, traces_of};
pub use fields::Fields;
pub use frames::{Content, FrameType, frame_type};
pub use heads::{Head, NoHead, TimeForm, head_in, head_of};
pub use keys::{Key, NoValue};
pub use kinds::{Kind, NoLog, kind_of};
pub use law::texts_whatever_the_parts;
pub use lengths::{data_length, frame_length, is_open, offset, stream_id};
pub use losses::{is_application_limited, is_probe, is_repeated, lost_packets};
pub use metrics::{ByteCounts, Rtts, has_only_pto_count, reported_bytes, reported_rtts};
pub use names::EventName;
pub use numbers::{duration_in, whole_in};
pub use packets::{Packet, PacketType};
pub use parameters::{is_of_peer, max_ack_delay};
pub use records::{EventHead, path_id};
pub use secrets::key_space;
pub use texts::{Mark, Text, TextFault, Texts};
pub use timers::{has_expired, timer_kind, timer_space};
pub use times::{NoTime, Unit, duration, time};
