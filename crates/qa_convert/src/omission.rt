//! What a log says and the trace does not, and what it shows that no trace can say.
ghost use Rattle.std.specs.Prelude.{◌≡◌};
ghost use Rattle.qa_convert.specs.Omissions.{is_of_timer, limit_text, omission_text};

/// What a log says and the trace does not.
#[derive(Clone, Copy, PartialEq, Eq)]
pub enum Omission {
    /// An acknowledgment of a space whose keys are gone.
    AckOfGoneSpace,
    /// An ACK frame without ranges.
    AckOfNothing,
    /// Packets that left the bytes in flight, of which no record tells.
    LeftFlight,
    /// Bytes in flight below those of the packets.
    FlightDiffers,
    /// A loss that nothing shows.
    LossOfNothing,
    /// A loss of a packet that was sent before a Retry.
    LossBeforeRetry,
    /// A loss of a packet that is not in flight.
    LossNotInFlight,
    /// A loss that is only sent again by a probe.
    LossOfProbe,
    /// A timer that had been moved.
    IdleTimer,
    /// A loss timer that found no packet in flight.
    BareTimer,
    /// A timer of another kind.
    OtherTimer,
    /// The limit for late timers.
    Limit,
}

impl Omission {
    /// Whether it is a timer: it decides what may be sent, so it is told in any case.
    pub(crate) fn is_of_timer(self) -> bool
        ensures { result ≡ is_of_timer self }
    {
        matches!(
            self,
            Omission::IdleTimer | Omission::BareTimer | Omission::OtherTimer
        )
    }

    /// What is said of it.
    pub fn text(self) -> &'static str
        ensures { result.now ≡ omission_text self }
    {
        match self {
            Omission::AckOfGoneSpace => "an acknowledgment of a discarded space",
            Omission::AckOfNothing => "an acknowledgment frame without ranges",
            Omission::LeftFlight => "packets that left the bytes in flight with no event",
            Omission::FlightDiffers => "bytes in flight below those of the packets that are open",
            Omission::LossOfNothing => "a loss that neither an acknowledgment nor a timer shows",
            Omission::LossBeforeRetry => {
                "a loss of a packet that was sent before a Retry, which resets recovery"
            }
            Omission::LossNotInFlight => "a loss of a packet that is not in flight",
            Omission::LossOfProbe => {
                "a packet_lost by pto_expired: what a probe repeats stays in flight"
            }
            Omission::IdleTimer => "a timer that had been moved: it expired, and did nothing",
            Omission::BareTimer => "a loss timer that found only packets that are not in flight",
            Omission::OtherTimer => "a timer of another kind than loss and pto",
            Omission::Limit => {
                "the limit for late timers: the server may not send before the client's address is \
                 validated (RFC 9000, 8.1), and a trace does not show that"
            }
        }
    }
}

/// What a log shows that no trace can say, so that a good sender may be refused.
#[derive(Clone, Copy, PartialEq, Eq)]
pub enum Limit {
    /// Packets that were marked by ECN-CE.
    Marks,
    /// A clock that loses up to a millisecond at each record.
    CutClock,
    /// ACK_FREQUENCY frames.
    AckFrequency,
    /// Another time threshold.
    TimeThreshold,
    /// A loss in the tick of a loss before.
    SameTick,
}

impl Limit {
    /// What is said of it.
    pub fn text(self) -> &'static str
        ensures { result.now ≡ limit_text self }
    {
        match self {
            Limit::Marks => {
                "acknowledgments report CE marks, of which traces say nothing: a window that falls \
                 by them, or the packet of an entry into recovery, may be refused"
            }
            Limit::CutClock => {
                "each difference of its times is cut to a millisecond, so its clock falls behind, \
                 unless the sender's has whole milliseconds too: what times decide may be refused"
            }
            Limit::AckFrequency => {
                "ACK_FREQUENCY frames change the peer's max_ack_delay, of which a trace has only \
                 one: probe timeouts may be refused"
            }
            Limit::TimeThreshold => {
                "its loss timers fire later than at the time threshold of the header: losses by \
                 time may be refused (--time-threshold-eighths)"
            }
            Limit::SameTick => {
                "a packet is lost that was sent in the same tick in which a loss was declared \
                 before: by such times it does not enter recovery again, and what follows may be \
                 refused"
            }
        }
    }
}
