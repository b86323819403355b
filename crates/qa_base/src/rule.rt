//! The rules that an event can break.
use std::fmt;

/// A value that a sender reports, in the order in which reported values are compared.
#[derive(Clone, Copy, Debug, PartialEq, Eq)]
pub enum Field {
    Window,
    Ssthresh,
    BytesInFlight,
    LatestRtt,
    MinRtt,
    SmoothedRtt,
    Rttvar,
}

impl Field {
    ghost use Rattle.std.specs.Prelude.{◌≡◌};
    ghost use Rattle.qa_base.specs.values.Names.{field_name};

    /// The key that names the value in a line.
    pub fn name(self) -> &'static str
        ensures { result.now ≡ field_name self }
    {
        match self {
            Field::Window => "window",
            Field::Ssthresh => "ssthresh",
            Field::BytesInFlight => "bytes_in_flight",
            Field::LatestRtt => "latest_rtt",
            Field::MinRtt => "min_rtt",
            Field::SmoothedRtt => "smoothed_rtt",
            Field::Rttvar => "rttvar",
        }
    }
}

/// A rule that an event or the end of a trace breaks, V1 to V19. An event is judged by them in this
/// order.
#[derive(Clone, Copy, Debug, PartialEq, Eq)]
pub enum Rule {
    /// V1: the event's time is below that of the event before.
    TimeBack,
    /// V2: a loss is owed, and the event is not the Lost line that names it.
    LossOwed,
    /// V3: a Lost line, and nothing is owed in its space.
    LossNotOwed,
    /// V4: a Lost line that does not name exactly the packets owed.
    LossSet,
    /// V5: the space was discarded.
    SpaceGone,
    /// V6: a packet number that is not above all earlier ones of its space.
    NumberNotHigher,
    /// V7: the packet takes the bytes in flight past the congestion window.
    PastWindow,
    /// V8: a probe before any probe timeout, or past what one allows.
    PastProbe,
    /// V9: a packet by leave of recovery before any entry, or the second after one.
    PastRecovery,
    /// V10: an acknowledgment of a number that was never sent.
    AckUnsent,
    /// V11: the timer fired where none is set.
    TimerNotSet,
    /// V12: the timer fired for another cause or space than is due.
    TimerOther,
    /// V13: the timer fired before it was due.
    TimerEarly,
    /// V14: a probe timeout after one whose probe was never sent.
    ProbeOwed,
    /// V15: the Handshake space was discarded before the handshake was confirmed.
    NotConfirmed,
    /// V16: a reported value differs by more than the header's slack; the first that does.
    Metric(Field),
    /// V17: the trace ends while a loss is owed.
    OwedAtEnd,
    /// V18: the event comes when a timer is late by more than the header's limit.
    TimerLate,
    /// V19: the first other window that is reported behind persistent congestion is too great.
    CollapseMissing,
}

impl Rule {
    ghost use Rattle.std.specs.Prelude.{◌≡◌};
    ghost use Rattle.qa_base.specs.values.Names.{rule_name, rule_number, field_of};

    /// The rule's name, without the field of a metric.
    pub fn name(self) -> &'static str
        ensures { result.now ≡ rule_name self }
    {
        match self {
            Rule::TimeBack => "time-back",
            Rule::LossOwed => "loss-owed",
            Rule::LossNotOwed => "loss-not-owed",
            Rule::LossSet => "loss-set",
            Rule::SpaceGone => "space-gone",
            Rule::NumberNotHigher => "number-not-higher",
            Rule::PastWindow => "past-window",
            Rule::PastProbe => "past-probe",
            Rule::PastRecovery => "past-recovery",
            Rule::AckUnsent => "ack-unsent",
            Rule::TimerNotSet => "timer-not-set",
            Rule::TimerOther => "timer-other",
            Rule::TimerEarly => "timer-early",
            Rule::ProbeOwed => "probe-owed",
            Rule::NotConfirmed => "not-confirmed",
            Rule::Metric(_) => "metric",
            Rule::OwedAtEnd => "owed-at-end",
            Rule::TimerLate => "timer-late",
            Rule::CollapseMissing => "collapse-missing",
        }
    }

    /// The rule's number, 1 for V1.
    pub fn number(self) -> u64
        ensures { result ≡ rule_number self }
    {
        match self {
            Rule::TimeBack => 1,
            Rule::LossOwed => 2,
            Rule::LossNotOwed => 3,
            Rule::LossSet => 4,
            Rule::SpaceGone => 5,
            Rule::NumberNotHigher => 6,
            Rule::PastWindow => 7,
            Rule::PastProbe => 8,
            Rule::PastRecovery => 9,
            Rule::AckUnsent => 10,
            Rule::TimerNotSet => 11,
            Rule::TimerOther => 12,
            Rule::TimerEarly => 13,
            Rule::ProbeOwed => 14,
            Rule::NotConfirmed => 15,
            Rule::Metric(_) => 16,
            Rule::OwedAtEnd => 17,
            Rule::TimerLate => 18,
            Rule::CollapseMissing => 19,
        }
    }

    /// The reported value that differs, of a metric alone.
    pub fn field(self) -> Option<Field>
        ensures { result ≡ field_of self }
    {
        match self {
            Rule::Metric(field) => Some(field),
            Rule::TimeBack
            | Rule::LossOwed
            | Rule::LossNotOwed
            | Rule::LossSet
            | Rule::SpaceGone
            | Rule::NumberNotHigher
            | Rule::PastWindow
            | Rule::PastProbe
            | Rule::PastRecovery
            | Rule::AckUnsent
            | Rule::TimerNotSet
            | Rule::TimerOther
            | Rule::TimerEarly
            | Rule::ProbeOwed
            | Rule::NotConfirmed
            | Rule::OwedAtEnd
            | Rule::TimerLate
            | Rule::CollapseMissing => None,
        }
    }
}

/// The rule as a report has it: its number, its name, and the reported value that differs.
impl fmt::Display for Rule {
    ghost use Rattle.std.specs.Prelude.{Some};
    ghost use Rattle.qa_base.specs.values.Names.{rule_text};

    ghost output = { λ rule. Some (rule_text rule) };

    #[tactic(auto, unfolding(crate::specs::values::Names::rule_text))]
    fn fmt<W: fmt::Write>(&self, f: &mut fmt::Formatter<W>) -> fmt::Result {
        let (number, name) = (self.number(), self.name());
        match self.field() {
            Some(field) => write!(f, "V{number} {name} {}", field.name()),
            None => write!(f, "V{number} {name}"),
        }
    }
}
