//! What a log says, so that it can be kept once its records are gone.
ghost use Rattle.std.specs.Prelude.{◌≡◌, ◌++◌, ◌∷◌, [], IfErr, IfOk, List, None, Ok, OnOk, Option};
ghost use Rattle.std.specs.Prelude.{Some};
ghost use Rattle.json.specs.Json as json;
ghost use Rattle.json.specs.Json.{Json};
ghost use Rattle.json.specs.Find.{BeginsWith, Finds, InItems};
ghost use Rattle.qa_convert.specs.Faults.{IsEventFault, IsLossesFault, IsLostAmong, IsLostFault};
ghost use Rattle.qa_convert.specs.Faults.{IsPacketFault, IsParametersFault, IsRecoveryFault};
ghost use Rattle.qa_convert.specs.Faults.{IsReportFault, OfValue, OrMemory};
ghost use Rattle.qa_convert.specs.Reading.{AreLosses, SaysLoss, SaysLosses};
ghost use Rattle.qa_convert.specs.Said as said;
ghost use Rattle.qa_convert.specs.Said.{IsRecoveryOf, IsReportOf, Says};
ghost use Rattle.qa_convert.specs.Said.{SaysLost, SaysReceived, SaysSent};
ghost use Rattle.qa_qlog.specs.Frames.{listed};
ghost use Rattle.qa_qlog.specs.Packets.{header_of};

use crate::packet::{LoggedPacket, NoEvent, number_of};
use crate::place::Place;
use json::{Element, Items};
use qa_base::{PacketNumber, Space, TimerKind};
use qa_qlog::{
    ByteCounts, EventName, Key, NoValue, Packet, PacketType, Rtts, Unit, duration_in, has_expired,
    has_only_pto_count, is_application_limited, is_of_peer, is_probe, is_repeated, key_space,
    lost_packets, max_ack_delay, reported_bytes, reported_rtts, timer_kind, timer_space, whole_in,
};
use std::alloc::{AllocError, Global};

/// A packet that was declared lost.
#[derive(Clone, Copy, PartialEq, Eq)]
pub struct LostPacket {
    /// Its space.
    pub space: Space,
    /// Its number.
    pub number: PacketNumber,
    /// Whether it is only sent again by a probe, and so is not lost.
    pub is_repeated: bool,
}

/// A report of the state of the sender.
#[derive(Clone, Copy, Debug, PartialEq, Eq)]
pub struct Report {
    /// The round-trip times.
    pub rtts: Rtts,
    /// The byte counts.
    pub bytes: ByteCounts,
    /// How many probe timeouts came one after another.
    pub pto_count: Option<u64>,
    /// Whether it says nothing but that.
    pub has_only_pto_count: bool,
}

/// A loss detection timer that expired.
#[derive(Clone, Copy, PartialEq, Eq)]
pub struct Expiry {
    /// Which timer it is, if the log says it.
    pub kind: Option<TimerKind>,
    /// Its space, if the log says it.
    pub space: Option<Space>,
}

/// What the peer said in its transport parameters.
#[derive(Clone, Copy, Debug, PartialEq, Eq)]
pub struct PeerParameters {
    /// `max_ack_delay` in nanoseconds.
    pub max_ack_delay: Option<u64>,
    /// `ack_delay_exponent`.
    pub ack_delay_exponent: Option<u64>,
}

/// The parameters of loss recovery and congestion control.
#[derive(Clone, Copy, Debug, PartialEq, Eq)]
pub struct RecoveryParameters {
    /// The round-trip time before a sample, in nanoseconds.
    pub initial_rtt: Option<u64>,
    /// The size of a full packet.
    pub max_datagram_size: Option<u64>,
    /// The first congestion window.
    pub initial_window: Option<u64>,
    /// The packet threshold.
    pub packet_threshold: Option<u64>,
    /// The time threshold, in millionths of the round-trip time.
    pub time_threshold: Option<u64>,
}

/// What a record says.
#[derive(Drop)]
pub enum Said {
    /// A packet of a space was sent.
    Sent(LoggedPacket),
    /// A packet of no space was sent.
    OtherSent,
    /// A packet of a space came.
    Received(LoggedPacket),
    /// A packet of no space came, which may be a Retry.
    OtherReceived(bool),
    /// A packet of a space was declared lost.
    Lost(LostPacket),
    /// A packet of no space was.
    OtherLost,
    /// A report.
    Report(Report),
    /// A report that is not JSON: what was reported before is not known any more.
    UnreadReport,
    /// The state of congestion control, and whether the sender is limited by its program.
    State(bool),
    /// The loss detection timer was set or cancelled.
    TimerSet,
    /// The loss detection timer expired.
    Expired(Expiry),
    /// Keys came, of this space if it is said.
    KeysCame(Option<Space>),
    /// Keys are gone, of this space if it is said.
    KeysGone(Option<Space>),
    /// Transport parameters of the peer.
    OfPeer(PeerParameters),
    /// Transport parameters of the endpoint itself.
    OwnParameters,
    /// Parameters of recovery.
    Recovery(RecoveryParameters),
}

/// Where and when a record is.
#[derive(Clone, Copy)]
pub struct At {
    /// Where it begins.
    pub place: Place,
    /// Which of the records of the log it is, from 0 on.
    pub index: u64,
    /// Its time in nanoseconds from the start of the log.
    pub time: u64,
}

/// An event of a log.
#[derive(Drop)]
pub struct LoggedEvent {
    /// Where and when its record is.
    pub at: At,
    /// What its record says.
    pub said: Said,
}

impl Said {
    /// What a record of this name says, whose data this packet has. Durations have this unit. Of a
    /// `packets_lost`, see `losses_of`; here it says that a packet of no space was lost.
    pub fn of(
        alloc: Global,
        name: EventName,
        packet: &Packet<'_, '_>,
        unit: Unit,
    ) -> Result<Said, NoEvent>
        ensures says { (d : Option Json) → Finds packet.now.object d
            → Finds packet.now.header (header_of d) → IfOk result (Says unit name d) }
        ensures fault { (d : Option Json) → Finds packet.now.object d
            → Finds packet.now.header (header_of d)
            → IfErr result (OrMemory (IsEventFault unit name d)) }
    {
        let object = &packet.object;
        match name {
            EventName::PacketSent => sent_of(alloc, packet, unit),
            EventName::PacketReceived => received_of(alloc, packet, unit),
            EventName::PacketLost => lost_of(packet, is_repeated(object)),
            EventName::PacketsLost => Ok(Said::OtherLost),
            EventName::MetricsUpdated => Ok(Said::Report(report_of(object, unit)?)),
            EventName::RecoveryParametersSet => Ok(Said::Recovery(recovery_of(object, unit)?)),
            EventName::CongestionStateUpdated => Ok(Said::State(is_application_limited(object))),
            EventName::LossTimerUpdated => Ok(timer_of(object)),
            EventName::KeyUpdated => Ok(Said::KeysCame(key_space(object))),
            EventName::KeyRetired => Ok(Said::KeysGone(key_space(object))),
            EventName::KeyDiscarded => Ok(Said::KeysGone(key_space(object))),
            EventName::ParametersSet => parameters_of(object, unit),
        }
    }
}

/// A packet that was sent.
fn sent_of(alloc: Global, packet: &Packet<'_, '_>, unit: Unit) -> Result<Said, NoEvent>
    ensures says { (d : Option Json) → Finds packet.now.object d
        → Finds packet.now.header (header_of d) → IfOk result (SaysSent unit d) }
    ensures fault { (d : Option Json) → Finds packet.now.object d
        → Finds packet.now.header (header_of d)
        → IfErr result (OfValue (IsPacketFault unit d)) }
{
    match LoggedPacket::of(alloc, packet, unit)? {
        Some(packet) => Ok(Said::Sent(packet)),
        None => Ok(Said::OtherSent),
    }
}

/// A packet that came.
fn received_of(alloc: Global, packet: &Packet<'_, '_>, unit: Unit) -> Result<Said, NoEvent>
    ensures says { (d : Option Json) → Finds packet.now.object d
        → Finds packet.now.header (header_of d) → IfOk result (SaysReceived unit d) }
    ensures fault { (d : Option Json) → Finds packet.now.object d
        → Finds packet.now.header (header_of d)
        → IfErr result (OfValue (IsPacketFault unit d)) }
{
    match LoggedPacket::of(alloc, packet, unit)? {
        Some(packet) => Ok(Said::Received(packet)),
        None => Ok(Said::OtherReceived(is_retry(packet))),
    }
}

/// Whether a packet is a Retry.
fn is_retry(packet: &Packet<'_, '_>) -> bool
    ensures { (d : Option Json) → Finds packet.now.object d
        → Finds packet.now.header (header_of d) → result ≡ said.is_retry d }
{
    matches!(packet.packet_type(), Some(PacketType::Retry))
}

/// A packet that was declared lost.
fn lost_of(packet: &Packet<'_, '_>, is_repeated: bool) -> Result<Said, NoEvent>
    ensures says { (h d : Option Json) → Finds packet.now.header h → Finds packet.now.object d
        → IfOk result (SaysLost h d is_repeated) }
    ensures fault { (h d : Option Json) → Finds packet.now.header h → Finds packet.now.object d
        → IfErr result (IsLostFault h d) }
{
    let Some(kind) = packet.packet_type() else {
        return Err(NoEvent::NoPacketType);
    };
    let Some(space) = kind.space() else {
        return Ok(Said::OtherLost);
    };
    Ok(Said::Lost(LostPacket {
        space,
        number: number_of(packet)?,
        is_repeated,
    }))
}

/// What a `packets_lost` says, whose data is this object: a loss for each packet that it names.
pub(crate) fn losses_of(
    alloc: Global,
    object: &Option<Element<'_, '_>>,
) -> Result<Vec<Said>, NoEvent>
    ensures says { (d : Option Json) → Finds object.now d
        → IfOk result (λ losses. SaysLosses d losses.items) }
    ensures fault { (d : Option Json) → Finds object.now d
        → IfErr result (OrMemory (IsLossesFault d)) }
{
    match lost_packets(object)? {
        Some(headers) => losses_among(alloc, headers),
        None => Ok(Vec::new(alloc)),
    }
}

/// The losses of packets with these headers.
fn losses_among(alloc: Global, headers: Items<'_, '_>) -> Result<Vec<Said>, NoEvent>
    ensures says { (js : json.Items) → InItems headers.entry js
        → IfOk result (λ losses. AreLosses (listed js) losses.items) }
    ensures fault { (js : json.Items) → InItems headers.entry js
        → IfErr result (OrMemory (IsLostAmong (listed js))) }
{
    let mut headers = headers;
    let mut losses = Vec::new(alloc);
    while let Some(header) = headers.next() {
        let said = loss_of(header)?;
        push(&mut losses, said)?;
    }
    Ok(losses)
}

/// The loss of a packet with this header, of which nothing else is said.
fn loss_of(header: Element<'_, '_>) -> Result<Said, NoEvent>
    ensures says { (j : Json) → BeginsWith header.entry j → IfOk result (SaysLoss j) }
    ensures fault { (j : Json) → BeginsWith header.entry j
        → IfErr result (IsLostFault (Some j) None) }
{
    let packet = Packet {
        header: Some(header),
        object: None,
    };
    lost_of(&packet, false)
}

/// Adds what is said behind the others.
fn push(losses: &mut Vec<Said>, said: Said) -> Result<(), AllocError>
    ensures { OnOk result (losses.new.items ≡ losses.old.items ++ said ∷ []) }
{
    losses.push(said)?;
    Ok(())
}

/// A report.
fn report_of(object: &Option<Element<'_, '_>>, unit: Unit) -> Result<Report, NoValue>
    ensures says { (d : Option Json) → Finds object.now d → IfOk result (IsReportOf unit d) }
    ensures fault { (d : Option Json) → Finds object.now d
        → IfErr result (IsReportFault unit d) }
{
    Ok(Report {
        rtts: reported_rtts(object, unit)?,
        bytes: reported_bytes(object)?,
        pto_count: whole_in(object, Key::PtoCount)?,
        has_only_pto_count: is_count_alone(object),
    })
}

/// Whether a report says nothing but the count of probe timeouts.
fn is_count_alone(object: &Option<Element<'_, '_>>) -> bool
    ensures { (d : Option Json) → Finds object.now d → result ≡ said.is_count_alone d }
{
    match object {
        Some(value) => has_only_pto_count(value),
        None => false,
    }
}

/// The parameters of recovery.
fn recovery_of(object: &Option<Element<'_, '_>>, unit: Unit) -> Result<RecoveryParameters, NoValue>
    ensures says { (d : Option Json) → Finds object.now d → IfOk result (IsRecoveryOf unit d) }
    ensures fault { (d : Option Json) → Finds object.now d
        → IfErr result (IsRecoveryFault unit d) }
{
    Ok(RecoveryParameters {
        initial_rtt: duration_in(object, Key::InitialRtt, unit)?,
        max_datagram_size: whole_in(object, Key::MaxDatagramSize)?,
        initial_window: whole_in(object, Key::InitialCongestionWindow)?,
        packet_threshold: whole_in(object, Key::ReorderingThreshold)?,
        // A millisecond has a million nanoseconds.
        time_threshold: duration_in(object, Key::TimeThreshold, Unit::Milliseconds)?,
    })
}

/// What a record says of the loss detection timer.
fn timer_of(object: &Option<Element<'_, '_>>) -> Said
    ensures { (d : Option Json) → Finds object.now d → result ≡ said.timer d }
{
    if has_expired(object) {
        Said::Expired(Expiry {
            kind: timer_kind(object),
            space: timer_space(object),
        })
    } else {
        Said::TimerSet
    }
}

/// What a record says of transport parameters.
fn parameters_of(object: &Option<Element<'_, '_>>, unit: Unit) -> Result<Said, NoEvent>
    ensures says { (d : Option Json) → Finds object.now d
        → IfOk result (said.SaysParameters unit d) }
    ensures fault { (d : Option Json) → Finds object.now d
        → IfErr result (OfValue (IsParametersFault unit d)) }
{
    if !is_of_peer(object) {
        return Ok(Said::OwnParameters);
    }
    Ok(Said::OfPeer(PeerParameters {
        max_ack_delay: max_ack_delay(object, unit)?,
        ack_delay_exponent: whole_in(object, Key::AckDelayExponent)?,
    }))
}
