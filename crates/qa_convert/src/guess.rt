//! What a line says and the log does not.
ghost use Rattle.std.specs.Prelude.{◌≡◌, OnErr, OnOk, IfOk};
ghost use Rattle.serde_json.specs.Data.{array, put};
ghost use Rattle.serde_json.specs.View.{members_view, view};
ghost use Rattle.qa_convert.specs.Guesses.{guess_number, guess_text, is_guess, is_of_line};
ghost use Rattle.qa_convert.specs.Guesses.{texts_of};
ghost use Rattle.qa_convert.specs.OwnKeys.{AreOwn, own_key_name};
ghost use Rattle.qa_convert.specs.declared.own.OwnKey.TheVariants as keys_of;

use crate::own::{OwnKey, OwnKeys};
use serde_json::Value;
use std::alloc::{AllocError, Global};

/// What a line says and the log does not.
#[derive(Clone, Copy, PartialEq, Eq)]
pub enum Guess {
    /// The datagram size, by the first window.
    DatagramByWindow,
    /// The datagram size, by the largest packet.
    DatagramByPacket,
    /// The datagram size, since no packet was larger.
    DatagramLeast,
    /// The peer's `max_ack_delay`, which the log does not have.
    NoMaxAckDelay,
    /// Whose window counts, since none is logged.
    NoWindow,
    /// The first window, so that none is judged.
    HiddenWindow,
    /// The round-trip time before a sample.
    InitialRtt,
    /// A probe timeout, by a count that rose.
    ProbeByCount,
    /// A probe timeout, by a PING.
    ProbeByPing,
    /// A probe timeout, by the room that a packet keeps.
    ProbeByRoom,
    /// A probe timeout, by what a packet is for.
    ProbeByTrigger,
    /// The size of a packet, by its header and frames.
    Size,
    /// The size of a packet, by the bytes in flight.
    SizeByGrowth,
    /// The space of a timer.
    TimerSpace,
    /// A loss timer, by losses.
    LossTimer,
    /// That keys are discarded.
    Discard,
    /// That the handshake is confirmed.
    Confirmed,
    /// The delay of an acknowledgment, by the report after it.
    Delay,
    /// When an acknowledgment came, by the sample.
    Arrival,
    /// A time within its millisecond.
    Moment,
    /// Whether the sender used its window.
    LimitedByWindow,
    /// That a probe timeout allowed a packet.
    LeaveProbe,
    /// That an entry into recovery allowed a packet.
    LeaveRecovery,
    /// A time, since the log's went back.
    TimeBack,
}

impl Guess {
    /// What is said of it.
    pub fn text(self) -> &'static str
        ensures { result.now ≡ guess_text self }
    {
        match self {
            Guess::DatagramByWindow => {
                "max_datagram_size: the first window by the datagrams that it has"
            }
            Guess::DatagramByPacket => "max_datagram_size: the largest packet that was sent",
            Guess::DatagramLeast => "max_datagram_size: 1200, for no packet was larger",
            Guess::NoMaxAckDelay => "max_ack_delay: 25 ms, for the peer's is not logged",
            Guess::NoWindow => "window: newreno, for no window is logged",
            Guess::HiddenWindow => {
                "initial_window: the greatest, for no window is logged, so none is judged"
            }
            Guess::InitialRtt => "initial_rtt: that of the stack's sources or documentation",
            Guess::ProbeByCount => "a probe timeout and its space: pto_count rose",
            Guess::ProbeByPing => "a probe timeout and its space: a PING was sent",
            Guess::ProbeByRoom => {
                "a probe timeout: a packet has kept room for a PING, and nothing had come"
            }
            Guess::ProbeByTrigger => "a probe timeout and its space: a packet is its probe",
            Guess::Size => "size: by the header and the frames, for the log does not have it",
            Guess::SizeByGrowth => {
                "size: that by which the bytes in flight grew, for the log's is another"
            }
            Guess::TimerSpace => "the space of a timer: the log does not have it",
            Guess::LossTimer => "a loss timer: no acknowledgment shows the losses",
            Guess::Discard => "discard: the log tells of none",
            Guess::Confirmed => "confirmed: the log does not say when",
            Guess::Delay => {
                "delay: within 2 ms of the log's, so that it counts as the report after it shows"
            }
            Guess::Arrival => {
                "time: that of the reported sample, since the log's time was read late"
            }
            Guess::Moment => {
                "time: part of a millisecond earlier, so that a packet is not lost yet"
            }
            Guess::LimitedByWindow => "limited: the window stayed as it was",
            Guess::LeaveProbe => "leave probe: a probe timeout allowed it",
            Guess::LeaveRecovery => {
                "leave recovery: the first packet past the window after it fell"
            }
            Guess::TimeBack => "time: it went back, and is that of the line before",
        }
    }

    /// Its number, in the order in which they are declared.
    fn number(self) -> u8
        ensures { result ≡ guess_number self }
    {
        self as u8
    }

    /// Whether both are one.
    pub(crate) fn is(self, other: Guess) -> bool
        ensures { result ≡ is_guess self other }
    {
        self.number() == other.number()
    }

    /// Whether the log has no record of the line.
    pub fn is_of_line(self) -> bool
        ensures { result ≡ is_of_line self }
    {
        matches!(
            self,
            Guess::ProbeByCount
                | Guess::ProbeByPing
                | Guess::ProbeByRoom
                | Guess::ProbeByTrigger
                | Guess::LossTimer
                | Guess::Discard
                | Guess::Confirmed
        )
    }
}

/// Puts what is said of guesses at its key, in their order. `AllocError` comes if it is out of
/// memory, and leaves the keys as they were.
pub fn put_guesses(keys: &mut OwnKeys, alloc: Global, guesses: &[Guess]) -> Result<(), AllocError>
    requires { AreOwn (members_view keys.old.entries) }
    ensures ok { OnOk result (members_view keys.new.entries
        ≡ put (own_key_name keys_of.Guess) (array (texts_of guesses.now))
        (members_view keys.old.entries)) }
    ensures err { OnErr result (keys.new.entries ≡ keys.old.entries) }
    ensures own { AreOwn (members_view keys.new.entries) }
{
    let list = list_of(alloc, guesses)?;
    serde_json::put(keys, alloc, OwnKey::Guess.name(), list)
}

/// The list of what is said of each.
fn list_of(alloc: Global, guesses: &[Guess]) -> Result<Value, AllocError>
    ensures { IfOk result (λ list. view list ≡ array (texts_of guesses.now)) }
{
    let mut list = Vec::new(alloc);
    for guess in guesses {
        list.push(Value::try_from_str(alloc, guess.text())?)?;
    }
    Ok(Value::Array(list))
}
