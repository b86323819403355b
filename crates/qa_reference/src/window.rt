//! The congestion window, move by move (RFC 9002, section 7, appendix B).
ghost use Rattle.std.specs.Prelude.{if◌then◌else◌, [], ◌≡◌, ◌∷◌, ◌≤◌, ◌<◌, ◌^◌, ◌+◌, Some};
ghost use Rattle.std.specs.Prelude.{unwrap_or, max, fold, length};
ghost use Rattle.std.specs.List.{All};
ghost use Rattle.qa_base.specs.machine.Loss as loss;
ghost use Rattle.qa_base.specs.machine.Packets.{history_of, newly_acknowledged};
ghost use Rattle.qa_base.specs.machine.Moments.{before_last, detection_of, last_time};
ghost use Rattle.qa_base.specs.machine.Reno as steps;
ghost use Rattle.qa_reference.specs.Looks.{AreSeen};
ghost use Rattle.qa_base.specs.machine.Widths.{Fits};
ghost use Rattle.qa_base.specs.values.Constants.{minimum_window};
ghost use Rattle.qa_base.specs.values.Limits.{max_packet_size};
ghost use Rattle.qa_base.specs.values.Settings.{AreInRange};
ghost use Rattle.qa_reference.specs.Words.{IsCongestion, last_sending, hits_at};

use crate::congestion::is_persistent;
use crate::declared::{Losses, lost_of};
use crate::estimates::{Estimates, losses_after};
use crate::packet::packet_of;
use crate::settled::is_newly_acknowledged;
use qa_base::{Event, Header, Ticks};
use qa_recovery::Reno;

/// The later of the two times.
fn later(last: Option<Ticks>, time: Ticks) -> Ticks
    ensures { result ≡ max time (unwrap_or last 0) }
{
    match last {
        None => time,
        Some(last) => time.max(last),
    }
}

/// When the last of the packets was sent that are lost by the last event, by which recovery is
/// told.
fn last_lost(header: &Header, events: &[Event], losses: Losses) -> Option<Ticks>
    requires seen { AreSeen header.now (history_of events.now) losses }
    requires few { length events.now < 2 ^ 32 }
    ensures { result
        ≡ last_sending header.now (loss.declared header.now (history_of events.now)) }
{
    let mut last = None;
    for (place, event) in events.iter().enumerate() {
        if let Some(packet) = lost_of(events, losses, place, event) {
            last = Some(later(last, packet.mark(header)));
        }
    }
    last
}

/// What the packets that are lost by one event say of congestion.
#[derive(Clone, Copy)]
pub struct Congestion {
    /// When the last of them was sent, by which recovery is told: it may begin a recovery period
    /// (RFC 9002, section 7.3.2). None where no packet is lost.
    pub last_sent: Option<Ticks>,
    /// Whether they establish persistent congestion (section 7.6).
    pub is_persistent: bool,
}

/// What the packets say of congestion that are lost by the last event.
pub fn congestion_of(header: &Header, events: &[Event], losses: Losses) -> Congestion
    requires seen { AreSeen header.now (history_of events.now) losses }
    requires few { length events.now < 2 ^ 32 }
    ensures { IsCongestion header.now (history_of events.now) result }
{
    Congestion {
        last_sent: last_lost(header, events, losses),
        is_persistent: is_persistent(header, events, losses),
    }
}

/// The window after a loss, of packets the last of which was sent then.
fn hit_by(header: &Header, reno: Reno, last: Option<Ticks>, now: Ticks) -> Reno
    requires low { minimum_window header.now.max_datagram_size ≤ reno.window }
    ensures value { result
        ≡ fold (steps.moved header.now.max_datagram_size) reno (hits_at now last) }
    ensures low { minimum_window header.now.max_datagram_size ≤ result.window }
    ensures high { result.window ≤ reno.window }
{
    let mut more = reno;
    if let Some(last) = last {
        more.on_congestion_event(last, now, header.max_datagram_size());
    }
    more
}

/// The window after persistent congestion, where there is any.
fn collapsed(header: &Header, reno: Reno, persistent: bool) -> Reno
    requires low { minimum_window header.now.max_datagram_size ≤ reno.window }
    ensures value { result
        ≡ fold (steps.moved header.now.max_datagram_size) reno
        (steps.persistent_congestions persistent) }
    ensures low { minimum_window header.now.max_datagram_size ≤ result.window }
    ensures high { result.window ≤ reno.window }
{
    let mut more = reno;
    if persistent {
        more.on_persistent_congestion(header.max_datagram_size());
    }
    more
}

/// The window after a packet of this size was acknowledged.
#[tactic(auto, using(qa_base::proofs::machine::WindowBound::grown_little))]
fn grow_by(header: &Header, reno: Reno, size: u64, sent: Ticks) -> Reno
    requires low { minimum_window header.now.max_datagram_size ≤ reno.window }
    requires high { reno.window ≤ 2 ^ 62 }
    requires size_low { 1 ≤ size }
    requires size_high { size ≤ max_packet_size }
    ensures value { result ≡ steps.moved header.now.max_datagram_size reno (steps.Grow size sent) }
    ensures low { reno.window ≤ result.window }
    ensures high { result.window ≤ reno.window + max_packet_size }
{
    let mut more = reno;
    more.grow(size, sent, header.max_datagram_size());
    more
}

/// The window after the packets that an event newly acknowledges, in the order of sending.
fn grown(header: &Header, before: &[Event], event: &Event, reno: Reno) -> Reno
    requires low { minimum_window header.now.max_datagram_size ≤ reno.window }
    requires high { reno.window ≤ 2 ^ 60 }
    requires few { length before.now < 2 ^ 32 }
    requires fit { All Fits before.now }
    ensures value { result
        ≡ fold (steps.moved header.now.max_datagram_size) reno
        (steps.grows header.now (newly_acknowledged (event.now ∷ history_of before.now))) }
    ensures low { minimum_window header.now.max_datagram_size ≤ result.window }
{
    let mut reno = reno;
    for (place, earlier) in before.iter().enumerate() {
        if let Some(packet) = packet_of(place, earlier) {
            if is_newly_acknowledged(before, event, packet) && packet.in_flight {
                reno = grow_by(header, reno, packet.size, packet.mark(header));
            }
        }
    }
    reno
}

/// The window after the growth by an event, if the sender used the window that it had.
fn grown_unless_app_limited(header: &Header, before: &[Event], event: &Event, reno: Reno) -> Reno
    requires low { minimum_window header.now.max_datagram_size ≤ reno.window }
    requires high { reno.window ≤ 2 ^ 60 }
    requires few { length before.now < 2 ^ 32 }
    requires fit { All Fits before.now }
    ensures low { minimum_window header.now.max_datagram_size ≤ result.window }
    ensures value { result
        ≡ fold (steps.moved header.now.max_datagram_size) reno
        (if steps.is_app_limited event.now then [] else steps.grows header.now
        (newly_acknowledged (event.now ∷ history_of before.now))) }
{
    if event.is_app_limited() {
        reno
    } else {
        grown(header, before, event, reno)
    }
}

/// When it was detected what is lost by an event after these: a Lost line completes the detection
/// in front of it.
fn detected_at(before: &[Event], event: &Event) -> Ticks
    ensures { result ≡ last_time (detection_of (event.now ∷ history_of before.now)) }
{
    match event {
        Event::Lost { .. } => match before.last() {
            None => Ticks::of(0),
            Some(detection) => detection.time(),
        },
        _ => event.time(),
    }
}

/// How many events came before that detection.
fn detected_place(before: &[Event], event: &Event) -> u64
    ensures value { result
        ≡ length (before_last (detection_of (event.now ∷ history_of before.now))) }
    ensures bound { result ≤ length before.now }
{
    match event {
        Event::Lost { .. } => match before.split_last() {
            None => 0,
            Some((_, earlier)) => earlier.len() as u64,
        },
        _ => before.len() as u64,
    }
}

/// When that detection was made, by which recovery is told: its time, or its place where the header
/// says that the order of the lines decides (RFC 9002, section 7.3.2).
fn detection_mark(header: &Header, before: &[Event], event: &Event) -> Ticks
    requires few { length before.now < 2 ^ 32 }
    ensures { result
        ≡ steps.event_mark header.now (detection_of (event.now ∷ history_of before.now)) }
{
    if header.options().recovery_by_order {
        Ticks::of(detected_place(before, event))
    } else {
        detected_at(before, event)
    }
}

/// The window after one more event: its losses count first, then its growth.
#[tactic(auto, using(crate::proofs::Moved::reno_moved))]
pub fn reno_after(
    header: &Header,
    before: &[Event],
    event: &Event,
    congestion: Congestion,
    reno: Reno,
) -> Reno
    requires lost { IsCongestion header.now (event.now ∷ history_of before.now) congestion }
    requires known { reno ≡ steps.reno header.now (history_of before.now) }
    requires range { AreInRange header.now }
    requires few { length before.now < 2 ^ 32 }
    requires fit { All Fits before.now }
    ensures { result ≡ steps.reno header.now (event.now ∷ history_of before.now) }
{
    let now = detection_mark(header, before, event);
    let on_congestion_event = hit_by(header, reno, congestion.last_sent, now);
    let collapsed = collapsed(header, on_congestion_event, congestion.is_persistent);
    grown_unless_app_limited(header, before, event, collapsed)
}

/// The congestion window, the slow start threshold and recovery after the events (RFC 9002, section
/// 7, appendix B): of each event first its losses count, then persistent congestion, then growth by
/// each packet that it newly acknowledges, in the order of sending.
///
/// Asks for fewer than 2^32 events, each of which fits. Then the window is below 2^48 bytes.
pub fn reno(header: &Header, events: &[Event]) -> Reno
    requires few { length events.now < 2 ^ 32 }
    requires fit { All Fits events.now }
    ensures { result ≡ steps.reno header.now (history_of events.now) }
{
    let mut estimates = Estimates::start(header);
    let mut reno = Reno::start(header.initial_window());
    for (place, event) in events.iter().enumerate() {
        let before = &events[..place];
        let after = &events[..place + 1];
        let own = estimates.with_sample(header, before, event);
        let losses = losses_after(header, before, event, after, own.sampled);
        let congestion = congestion_of(header, after, losses);
        reno = reno_after(header, before, event, congestion, reno);
        estimates = own.after_congestion(header, after, losses);
    }
    reno
}
