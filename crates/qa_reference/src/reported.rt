//! The window that the sender reports, and what it may be behind persistent congestion (RFC 9002,
//! section 7.6.2).
ghost use Rattle.std.specs.Prelude.{◌≡◌, ◌≤◌, ◌<◌, ◌*◌, ◌^◌, ◌&&◌, ◌∷◌, ◌+◌, length, is_some};
ghost use Rattle.std.specs.Prelude.{option_map, if◌then◌else◌};
ghost use Rattle.std.specs.List.{All};
ghost use Rattle.qa_base.specs.machine.Loss as loss;
ghost use Rattle.qa_base.specs.machine.Moments.{detection_of};
ghost use Rattle.qa_base.specs.machine.Packets.{history_of};
ghost use Rattle.qa_base.specs.machine.Packets.{is_newly_acknowledged as is_newly_acknowledged_of};
ghost use Rattle.qa_base.specs.machine.Widths.{Fits};
ghost use Rattle.qa_base.specs.machine.Window as windows;
ghost use Rattle.qa_base.proofs.machine.Collapses.{IsAtMost};

use crate::congestion::is_persistent;
use crate::estimates::{Estimates, losses_after};
use crate::packet::{Packet, packet_of};
use crate::settled::is_newly_acknowledged;
use qa_base::{Controller, Event, Header};
use qa_recovery::Reno;

/// The window that the event reports.
fn window_in(event: &Event) -> Option<u64>
    ensures { result ≡ windows.window_in event.now }
{
    match event {
        Event::Metrics { values, .. } => values.window,
        _ => None,
    }
}

/// The window in bytes that was last reported; before any report, the one that the sender begins
/// with.
pub fn reported_window(header: &Header, events: &[Event]) -> u64
    ensures { result ≡ windows.reported_window header.now (history_of events.now) }
{
    let mut window = header.initial_window();
    for event in events {
        window = window_in(event).unwrap_or(window);
    }
    window
}

/// The window by which packets are judged, of NewReno's and the one that was reported.
pub fn window_by(controller: Controller, own: u64, reported: u64) -> u64
    ensures { result ≡ windows.window_by controller own reported }
{
    match controller {
        Controller::NewReno => own,
        Controller::Reported => reported,
    }
}

/// The slow start threshold beside that window.
pub fn ssthresh_by(controller: Controller, reno: Reno) -> Option<u64>
    ensures { result ≡ windows.ssthresh_by controller reno.ssthresh }
{
    match controller {
        Controller::NewReno => reno.ssthresh,
        Controller::Reported => None,
    }
}

/// The size of a packet that is in flight and that an event after these newly acknowledges, else 0.
fn new_size(before: &[Event], event: &Event, packet: Packet) -> u64
    ensures { result ≡ (if is_newly_acknowledged_of event.now (history_of before.now) packet
        && packet.in_flight then packet.size else 0) }
{
    if is_newly_acknowledged(before, event, packet) && packet.in_flight {
        packet.size
    } else {
        0
    }
}

/// The bytes in flight that an event after these newly acknowledges.
#[tactic(auto, using(crate::proofs::Reports::sum_of_new))]
fn new_bytes(before: &[Event], event: &Event) -> u128
    ensures value { result ≡ windows.acknowledged_bytes (event.now ∷ history_of before.now) }
    ensures bound { result ≤ length before.now * 18446744073709551615 }
{
    let mut bytes: u128 = 0;
    for (place, earlier) in before.iter().enumerate() {
        if let Some(packet) = packet_of(place, earlier) {
            bytes += u128::from(new_size(before, event, packet));
        }
    }
    bytes
}

/// The same in 64 bits, which hold it.
#[tactic(auto, using(qa_base::proofs::machine::Collapses::new_bytes_bound))]
fn acknowledged_bytes(before: &[Event], event: &Event) -> u64
    requires few { length before.now < 2 ^ 32 }
    requires fit { All Fits before.now }
    ensures value { result ≡ windows.acknowledged_bytes (event.now ∷ history_of before.now) }
    ensures bound { result < 2 ^ 48 }
{
    new_bytes(before, event) as u64
}

/// The bytes in flight that the detection newly acknowledged which an event after these makes, or
/// completes as a Lost line.
fn detected_bytes(before: &[Event], event: &Event) -> u64
    requires few { length before.now < 2 ^ 32 }
    requires fit { All Fits before.now }
    ensures { result ≡ windows.acknowledged_bytes
        (detection_of (event.now ∷ history_of before.now)) }
{
    match event {
        Event::Lost { .. } => match before.split_last() {
            None => 0,
            Some((detection, earlier)) => acknowledged_bytes(earlier, detection),
        },
        _ => acknowledged_bytes(before, event),
    }
}

/// Whether an event reports another window than this, which was the last.
fn changes_window(window: u64, event: &Event) -> bool
    ensures { result ≡ is_some (windows.unless_same window (windows.window_in event.now)) }
{
    match window_in(event) {
        None => false,
        Some(reported) => reported != window,
    }
}

/// The sum, with these bytes.
fn more(bytes: u64, sum: Option<u64>) -> Option<u64>
    requires few { bytes < 2 ^ 48 }
    requires small { IsAtMost (2 ^ 48) sum }
    ensures { result ≡ option_map (λ n. bytes + n) sum }
{
    Some(bytes + sum?)
}

/// The bytes acknowledged since a collapse after one more event, by whether it establishes
/// persistent congestion, those before it and the window that was last reported.
#[tactic(auto, using(qa_base::proofs::machine::Collapses::since_collapse_after))]
fn since_collapse_after(
    header: &Header,
    before: &[Event],
    event: &Event,
    persistent: bool,
    sum: Option<u64>,
) -> Option<u64>
    requires persistent { persistent
        ≡ loss.is_persistent header.now (event.now ∷ history_of before.now) }
    requires known { sum ≡ windows.acknowledged_since_collapse header.now (history_of before.now) }
    requires few { length before.now < 2 ^ 32 }
    requires fit { All Fits before.now }
    ensures { result ≡ windows.acknowledged_since_collapse header.now
        (event.now ∷ history_of before.now) }
{
    if persistent {
        return Some(detected_bytes(before, event));
    }
    if changes_window(reported_window(header, before), event) {
        return None;
    }
    more(acknowledged_bytes(before, event), sum)
}

/// The bytes in flight that were newly acknowledged since persistent congestion was last
/// established; None without it, or where another window was reported since.
///
/// Asks for fewer than 2^32 events, each of which fits.
pub fn acknowledged_since_collapse(header: &Header, events: &[Event]) -> Option<u64>
    requires few { length events.now < 2 ^ 32 }
    requires fit { All Fits events.now }
    ensures { result ≡ windows.acknowledged_since_collapse header.now (history_of events.now) }
{
    let mut estimates = Estimates::start(header);
    let mut sum: Option<u64> = None;
    for (place, event) in events.iter().enumerate() {
        let before = &events[..place];
        let after = &events[..place + 1];
        let own = estimates.with_sample(header, before, event);
        let losses = losses_after(header, before, event, after, own.sampled);
        let persistent = is_persistent(header, after, losses);
        sum = since_collapse_after(header, before, event, persistent, sum);
        estimates = own.after_congestion(header, after, losses);
    }
    sum
}
