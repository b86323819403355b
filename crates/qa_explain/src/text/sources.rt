//! Where each rule comes from: how strong the RFC is there, its section, and what it says.
ghost use Rattle.std.specs.Prelude.{◌≡◌, ◌++◌, OnOk, string_bytes};
ghost use Rattle.qa_explain.specs.text.Sources as text;

use crate::text::levels::Level;
use crate::text::pieces::push_words;
use qa_base::{Field, Rule};
use std::alloc::AllocError;

// ---- how strong the RFC is

fn value_level(field: Field) -> Level
    ensures { result ≡ (text.value_source field).level }
{
    match field {
        Field::Ssthresh | Field::MinRtt => Level::Must,
        Field::Window
        | Field::BytesInFlight
        | Field::LatestRtt
        | Field::SmoothedRtt
        | Field::Rttvar => Level::Described,
    }
}

/// How strong the RFC is where the rule stands.
#[tactic(auto, unfolding(crate::specs::text::Sources::source))]
fn level(rule: Rule) -> Level
    ensures { result ≡ (text.source rule).level }
{
    match rule {
        Rule::NumberNotHigher | Rule::ProbeOwed | Rule::CollapseMissing => Level::Must,
        Rule::PastWindow | Rule::PastProbe | Rule::PastRecovery => Level::MustNot,
        Rule::AckUnsent => Level::Should,
        Rule::LossNotOwed
        | Rule::LossSet
        | Rule::SpaceGone
        | Rule::TimerEarly
        | Rule::NotConfirmed
        | Rule::TimerLate => Level::Described,
        Rule::TimerNotSet | Rule::TimerOther => Level::Example,
        Rule::TimeBack | Rule::LossOwed | Rule::OwedAtEnd => Level::Format,
        Rule::Metric(field) => value_level(field),
    }
}

/// What programs call that: `MUST`, `SHOULD`, `described`, `example` or `format`.
#[tactic(auto, unfolding(crate::specs::text::Sources::requirement))]
pub(crate) fn requirement(rule: Rule) -> &'static str
    ensures { result.now ≡ text.requirement rule }
{
    level(rule).name()
}

// ---- where that is

fn value_section(field: Field) -> &'static str
    ensures { result.now ≡ (text.value_source field).section }
{
    match field {
        Field::Window => "RFC 9002, 7.3, 7.6",
        Field::Ssthresh => "RFC 9002, 7.3.2",
        Field::BytesInFlight => "RFC 9002, 2",
        Field::LatestRtt => "RFC 9002, 5.1",
        Field::MinRtt => "RFC 9002, 5.2",
        Field::SmoothedRtt | Field::Rttvar => "RFC 9002, 5.3",
    }
}

/// The RFC and its section where the rule stands; or this format, of a rule of its own.
#[tactic(auto, unfolding(crate::specs::text::Sources::source, crate::specs::text::Sources::section))]
pub(crate) fn section(rule: Rule) -> &'static str
    ensures { result.now ≡ text.section rule }
{
    match rule {
        Rule::TimeBack | Rule::LossOwed | Rule::OwedAtEnd => "This format",
        Rule::LossNotOwed | Rule::LossSet => "RFC 9002, 6.1",
        Rule::SpaceGone => "RFC 9002, 6.4",
        Rule::NumberNotHigher => "RFC 9000, 12.3",
        Rule::PastWindow | Rule::PastProbe | Rule::PastRecovery => "RFC 9002, 7",
        Rule::AckUnsent => "RFC 9000, 13.1",
        Rule::TimerNotSet | Rule::TimerOther => "RFC 9002, A.8",
        Rule::TimerEarly | Rule::TimerLate => "RFC 9002, 6.1.2, 6.2.1",
        Rule::ProbeOwed => "RFC 9002, 6.2.4",
        Rule::NotConfirmed => "RFC 9001, 4.9",
        Rule::CollapseMissing => "RFC 9002, 7.6.2",
        Rule::Metric(field) => value_section(field),
    }
}

// ---- what it says

fn value_statement(field: Field) -> &'static str
    ensures { result.now ≡ (text.value_source field).statement }
{
    match field {
        Field::Window =>
            "slow start and congestion avoidance as in B.5; half after a loss (7.3.2, MUST), the minimum after persistent congestion (7.6.2, MUST).",
        Field::Ssthresh =>
            "set the slow start threshold to half of the window at the entry into recovery.",
        Field::BytesInFlight =>
            "packets are in flight until they are acknowledged, declared lost or discarded. Probes count (7.5, MUST), discarded packets do not (6.4, MUST).",
        Field::LatestRtt =>
            "the time from when the largest packet of the ACK was sent to the ACK, with no delay taken off, unless latest_rtt_less_delay says so.",
        Field::MinRtt =>
            "take the lesser of min_rtt and latest_rtt, with no delay taken off. It SHOULD begin again after persistent congestion, which it does here if refresh_min_rtt says so, and MAY at other times.",
        Field::SmoothedRtt => "7/8 of smoothed_rtt, and 1/8 of adjusted_rtt.",
        Field::Rttvar =>
            "3/4 of rttvar, and 1/4 of how far adjusted_rtt is from smoothed_rtt before this sample (as in A.7).",
    }
}

#[tactic(auto, unfolding(crate::specs::text::Sources::source))]
fn statement(rule: Rule) -> &'static str
    ensures { result.now ≡ (text.source rule).statement }
{
    match rule {
        Rule::TimeBack => "the times of a trace do not fall.",
        Rule::LossOwed =>
            "a loss that was found (RFC 9002, 6.1) is declared before anything else happens.",
        Rule::LossNotOwed =>
            "a packet is declared lost if it meets the conditions there. At a probe timeout 6.2 forbids it (MUST NOT), and 6.2.4 permits it instead of a probe (MAY), which this model does not have.",
        Rule::LossSet =>
            "a packet is declared lost if it meets the conditions there. This format: one line names all of them.",
        Rule::SpaceGone =>
            "packets of discarded keys are neither sent nor acknowledged. Initial packets MUST NOT be sent then (RFC 9001, 4.9.1).",
        Rule::NumberNotHigher => "increase the packet number within a space.",
        Rule::PastWindow =>
            "send past the congestion window: the reported one, or else the window of NewReno, as this model has it.",
        Rule::PastProbe =>
            "send past the congestion window, except for two full datagrams at a probe timeout (6.2.4, MAY). This format counts their bytes.",
        Rule::PastRecovery =>
            "send past the congestion window, except for one packet at an entry into recovery (7.3.2).",
        Rule::AckUnsent =>
            "close the connection if a packet is acknowledged that was not sent. The mistake is the peer's, or the log's.",
        Rule::TimerNotSet =>
            "no timer is set if no ack-eliciting packet is in flight, except at a client until it is validated. One for application data MUST NOT be set before the handshake is confirmed (6.2.1).",
        Rule::TimerOther =>
            "the timer is set for the earliest loss, or else for the earliest probe timeout. It MUST NOT be set for a probe timeout if it is for a loss, and MUST be for the earlier of Initial and Handshake (6.2.1).",
        Rule::TimerEarly =>
            "the deadline is a loss delay, or the PTO that each expiration doubles (MUST), after a packet was sent. With none in flight it counts as in A.8 (example).",
        Rule::ProbeOwed =>
            "send an ack-eliciting packet in the space when a probe timeout expires. Instead a sender MAY mark packets as lost, which this model does not have.",
        Rule::NotConfirmed =>
            "keys cannot be discarded before both sides have all handshake messages of their level: the handshake keys not before the handshake is confirmed (4.9.2).",
        Rule::OwedAtEnd =>
            "a loss that was found (RFC 9002, 6.1) is declared before the trace ends.",
        Rule::TimerLate =>
            "a timer is set for that deadline. This format: it is late by no more than the header allows. A.8 expects timers that wake up late.",
        Rule::CollapseMissing =>
            "reduce the window to the minimum after persistent congestion: two datagrams here (7.2, RECOMMENDED). For controllers other than NewReno 7 refers to RFC 8085.",
        Rule::Metric(field) => value_statement(field),
    }
}

// ---- as a line

/// Appends the line that says where the rule stands, how strong the RFC is there, and what it says.
#[tactic(auto, unfolding(crate::specs::text::Sources::source_line, crate::specs::text::Sources::section))]
pub fn push_source(out: &mut String, rule: Rule) -> Result<(), AllocError>
    ensures { OnOk result (string_bytes out.new ≡ string_bytes out.old ++ text.source_text rule) }
{
    push_words(out, "  ")?;
    push_words(out, section(rule))?;
    push_words(out, level(rule).words())?;
    push_words(out, statement(rule))?;
    push_words(out, "\n")
}
