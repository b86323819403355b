//! The conversion of a qlog to a trace: what the log says, in the order in which it happened, and
//! the lines of it, with keys in which they say where they are from and what was guessed.
#![tactic(auto)]

mod bare;
mod clock;
mod connections;
mod conversion;
mod converting;
mod decoding;
mod dialects;
mod event;
mod finding;
mod flight;
mod flights;
mod groups;
mod guess;
mod handshake;
mod header;
mod kept;
mod law;
mod lines;
mod looking;
mod losing;
mod noted;
mod notes;
mod omission;
mod order;
mod output;
mod own;
mod packet;
mod place;
mod receiving;
mod room;
mod rounding;
mod samples;
mod sending;
mod size;
mod sizes;
mod stacks;
mod survey;
mod surveying;
mod telling;
mod trace;
mod validation;
mod values;
mod writing;

pub use clock::Clock;
pub use converting::NoMore;
pub use dialects::{Absent, Dialect, GENERIC, Limited, dialect_named, dialect_of};
pub use event::{
    At, Expiry, LoggedEvent, LostPacket, PeerParameters, RecoveryParameters, Report, Said,
};
pub use flight::{Flight, Flying};
pub use guess::{Guess, put_guesses};
pub use header::{Choices, Format, NoHeader};
pub use law::{own_keys_are_passed_over, written_lines_are_read};
pub use noted::{NotedFault, push_noted};
pub use own::{OwnKey, OwnKeys, put_text};
pub use packet::{LoggedAck, LoggedPacket, NoEvent};
pub use place::{Place, Stretch, put_stretch};
pub use rounding::{Age, Delays, Estimate, Reports, Sample};
pub use size::PacketSize;
pub use stacks::Stack;
pub use survey::NoSurvey;
pub use surveying::NoRecord;
pub use trace::{Asked, FirstReading, NoTrace, SecondReading};
pub use writing::NoLine;
