//! The samples of the round-trip time (RFC 9002, section 5).
ghost use Rattle.std.specs.Prelude.{◌≡◌, ◌∷◌, ◌==◌, find};
ghost use Rattle.std.specs.List.{list_any};
ghost use Rattle.qa_base.specs.machine.Packets.{history_of, newly_acknowledged};
ghost use Rattle.qa_base.specs.machine.Rtt as estimates;

use crate::handshake::is_confirmed;
use crate::packet::{Packet, packet_of};
use crate::settled::is_newly_acknowledged;
use qa_base::{Event, Header, Ticks};
use qa_recovery::Rtt;
use std::marker::Model;

/// A sample of the round-trip time.
#[derive(Clone, Copy)]
pub struct Sample {
    /// How long the packet with the largest acknowledged number took.
    pub latest_rtt: Ticks,
    /// The peer's delay, limited.
    pub ack_delay: u64,
    /// When the acknowledgment came.
    pub time: Ticks,
}

impl Model for Sample {
    ghost use Rattle.qa_base.specs.machine.Rtt.{Sample as Shown};

    ghost Value = { Shown };

    ghost view = { λ s. record {
      latest_rtt = s.latest_rtt;
      ack_delay = s.ack_delay;
      time = s.time;
    } };

    ghost inverse = { λ s.
        record { latest_rtt = s.latest_rtt; ack_delay = s.ack_delay; time = s.time } };
}

/// Whether the packet is ack-eliciting; where the sender samples no others, and has the largest
/// number.
fn gives_sample(only: bool, largest: u64, packet: Packet) -> bool
    ensures { result ≡ estimates.gives_sample only largest packet }
{
    packet.eliciting && (!only || packet.number.get() == largest)
}

/// Whether the event newly acknowledges a packet for which there is a sample.
pub fn acknowledges_sampled(before: &[Event], event: &Event, only: bool, largest: u64) -> bool
    ensures { result ≡ list_any (estimates.gives_sample only largest)
        (newly_acknowledged (event.now ∷ history_of before.now)) }
{
    let mut found = false;
    for (place, earlier) in before.iter().enumerate() {
        if let Some(packet) = packet_of(place, earlier) {
            if is_newly_acknowledged(before, event, packet) && gives_sample(only, largest, packet) {
                found = true;
            }
        }
    }
    found
}

/// The packet of this number that the event newly acknowledges, the latest such.
pub fn newly_numbered(before: &[Event], event: &Event, number: u64) -> Option<Packet>
    ensures { result ≡ find (λ p. p.number == number)
        (newly_acknowledged (event.now ∷ history_of before.now)) }
{
    let mut found = None;
    for (place, earlier) in before.iter().enumerate() {
        if let Some(packet) = packet_of(place, earlier) {
            if is_newly_acknowledged(before, event, packet) && packet.number.get() == number {
                found = Some(packet);
            }
        }
    }
    found
}

/// The peer's delay, limited once the handshake is confirmed.
fn limited_delay(header: &Header, before: &[Event], delay: u64) -> u64
    ensures { result ≡ estimates.limited_delay header.now (history_of before.now) delay }
{
    if is_confirmed(before) {
        delay.min(header.max_ack_delay())
    } else {
        delay
    }
}

/// The sample by the packet with the largest acknowledged number, where it is newly acknowledged.
fn sample_by(time: Ticks, delay: u64, packet: Option<Packet>) -> Option<Sample>
    ensures { result ≡ estimates.sample_by time delay packet }
{
    let sent = packet?.time;
    Some(Sample {
        latest_rtt: Ticks::of(time.get().saturating_sub(sent.get())),
        ack_delay: delay,
        time,
    })
}

/// The sample of an event after these, where it gives one.
pub fn sample_of(header: &Header, before: &[Event], event: &Event) -> Option<Sample>
    ensures { result ≡ estimates.sample_of header.now (event.now ∷ history_of before.now) }
{
    match event {
        Event::Ack(ack) => {
            let largest = ack.ranges.greatest().get();
            let only = header.options().sample_eliciting_only;
            if !acknowledges_sampled(before, event, only, largest) {
                return None;
            }
            let packet = newly_numbered(before, event, largest);
            sample_by(ack.time, limited_delay(header, before, ack.delay), packet)
        }
        _ => None,
    }
}

/// The estimate with the sample that there may be.
pub fn updated(header: &Header, rtt: Rtt, sample: Option<Sample>) -> Rtt
    ensures { result ≡ estimates.updated header.now.options.latest_rtt_less_delay rtt sample }
{
    match sample {
        None => rtt,
        Some(sample) => {
            let mut more = rtt;
            let less_delay = header.options().latest_rtt_less_delay;
            more.sample(less_delay, sample.latest_rtt, sample.ack_delay, sample.time);
            more
        }
    }
}

/// The estimate before the first sample.
pub fn start(header: &Header) -> Rtt
    ensures { result ≡ estimates.start header.now.initial_rtt }
{
    Rtt::start(Ticks::of(header.initial_rtt()))
}
