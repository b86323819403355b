//! The arithmetic of a loss, worked out by hand from RFC 9002.
ghost use Rattle.std.specs.Prelude.{◌≤◌, ◌^◌};
ghost use Rattle.qa_base.specs.values.Limits.{max_packet_size, max_time};

use qa_base::{Header, Options, Role, Ticks};
use qa_recovery::{Reno, Rtt};

/// The whole of a sender's arithmetic in a few lines: this is an example of docs/library.md.
/// Whether recovery began, and a probe timeout, a loss delay and the window.
fn arithmetic(header: &Header) -> (bool, [u64; 3]) {
    let mut rtt = Rtt::start(Ticks::of(333_000));
    // The granularity is a millisecond in the unit of the times.
    let timeout = rtt.pto_base(header.granularity());
    // Ten packets were sent at time 0; an acknowledgment of the fourth comes after 100 ms.
    rtt.sample(false, Ticks::of(100_000), 0, Ticks::of(100_000));
    // The header has the time threshold.
    let delay = rtt.loss_delay(header);
    // The first is three numbers behind, so it is lost: the window is halved, once a round trip.
    let mut reno = Reno::start(12_000);
    let has_begun = reno.on_congestion_event(Ticks::of(0), Ticks::of(100_000), 1200);
    // The acknowledged packet was sent before recovery began, so that it does not grow the window.
    reno.grow(1200, Ticks::of(0), 1200);
    (has_begun, [timeout, delay, reno.window])
}

/// Whether it is as it was worked out under a server's header.
fn is_arithmetic_right() -> bool {
    match server() {
        Some(header) => arithmetic(&header) == (true, [999_000, 112_500, 6000]),
        None => false,
    }
}

#[test]
fn a_sender(rt: HostRuntime) {
    assert!(rt; is_arithmetic_right());
}

/// An estimate before its first sample, with these values.
fn estimate(latest_rtt: u64, smoothed_rtt: u64, rttvar: u64) -> Rtt
    requires latest { latest_rtt ≤ max_time }
    requires smoothed { smoothed_rtt ≤ max_time }
    requires variation { rttvar ≤ max_time }
{
    Rtt {
        latest_rtt: Ticks::of(latest_rtt),
        min_rtt: Ticks::of(latest_rtt),
        smoothed_rtt: Ticks::of(smoothed_rtt),
        rttvar: Ticks::of(rttvar),
        first_rtt_sample: None,
    }
}

/// The loss delay by these values, with this header.
fn loss_delay(header: &Header, latest_rtt: u64, smoothed_rtt: u64) -> u64
    requires latest { latest_rtt ≤ max_time }
    requires smoothed { smoothed_rtt ≤ max_time }
{
    estimate(latest_rtt, smoothed_rtt, 0).loss_delay(header)
}

/// A server's header.
fn server() -> Option<Header> {
    Header::new(Role::Server, 1200, None, None, None).ok()
}

/// Loss delays with the usual time threshold.
fn usual_delays() -> Option<[u64; 4]> {
    let header = server()?;
    Some([
        loss_delay(&header, 0, 333_000),
        loss_delay(&header, 100_001, 100_000),
        loss_delay(&header, 100, 100),
        loss_delay(&header, 1_000_000_000_000_000, 1),
    ])
}

/// Whether they are those that were worked out.
fn are_usual_delays_right() -> bool {
    usual_delays() == Some([374_625, 112_502, 1000, 1_125_000_000_000_000])
}

/// Nine eighths of the greater round-trip time, rounded up, and the granularity at least.
#[test]
fn loss_delays(rt: HostRuntime) {
    assert!(rt; are_usual_delays_right());
}

/// Loss delays with a time threshold of four round-trip times.
fn patient_delays() -> Option<[u64; 2]> {
    let options = Options {
        time_threshold_eighths: 32,
        ..Options::default()
    };
    let header = server()?.choosing(options).ok()?;
    Some([
        loss_delay(&header, 100_001, 100_000),
        loss_delay(&header, 1_000_000_000_000_000, 1),
    ])
}

/// Whether they are those that were worked out.
fn are_patient_delays_right() -> bool {
    patient_delays() == Some([400_004, 4_000_000_000_000_000])
}

/// As many eighths of the greater round-trip time as the header says.
#[test]
fn loss_delays_by_the_time_threshold(rt: HostRuntime) {
    assert!(rt; are_patient_delays_right());
}

/// The base of a probe timeout by these values, with timers of a millisecond.
fn pto_base(smoothed_rtt: u64, rttvar: u64) -> u64
    requires smoothed { smoothed_rtt ≤ max_time }
    requires variation { rttvar ≤ max_time }
{
    estimate(0, smoothed_rtt, rttvar).pto_base(Ticks::of(1000))
}

/// How far apart lost packets are in persistent congestion.
fn persistent_after() -> u64 {
    estimate(0, 100_000, 50_000).persistent_after(Ticks::of(1000), Ticks::of(25_000))
}

/// The bases of three probe timeouts, and how far apart lost packets are in persistent congestion.
fn bases() -> [u64; 4] {
    [
        pto_base(333_000, 166_500),
        pto_base(500, 100),
        pto_base(1_000_000_000_000_000, 1_000_000_000_000_000),
        persistent_after(),
    ]
}

/// The smoothed round-trip time and four times its variation, or the granularity.
#[test]
fn bases_of_probe_timeouts(rt: HostRuntime) {
    assert!(rt; bases() == [999_000, 1500, 5_000_000_000_000_000, 975_000]);
}

/// An estimate after a first sample.
fn first_sample(latest_rtt: u64) -> Rtt
    requires latest { latest_rtt ≤ max_time }
{
    let latest_rtt = Ticks::of(latest_rtt);
    let mut rtt = Rtt::start(Ticks::of(333_000));
    rtt.sample(false, latest_rtt, 0, latest_rtt);
    rtt
}

/// An estimate after a second sample, whose delay is greater than the sample.
fn second_sample() -> Rtt {
    let mut rtt = first_sample(100_000);
    rtt.sample(false, Ticks::of(120_000), u64::MAX, Ticks::of(400_000));
    rtt
}

/// The latest round-trip time after a second sample that is kept less this delay.
fn latest_less(delay: u64) -> u64 {
    let mut rtt = first_sample(100_000);
    rtt.sample(true, Ticks::of(120_000), delay, Ticks::of(400_000));
    rtt.latest_rtt.get()
}

/// Less a delay that leaves the least sample, and less one that would leave less.
fn latest_less_delays() -> [u64; 2] {
    [latest_less(20_000), latest_less(20_001)]
}

/// The delay is taken off the latest round-trip time too, unless that leaves less than the least.
#[test]
fn samples_less_the_delay(rt: HostRuntime) {
    assert!(rt; latest_less_delays() == [100_000, 120_000]);
}

/// The variation after a first sample, and three values after a second.
fn sampled() -> [u64; 4] {
    let (first, second) = (first_sample(100_001), second_sample());
    [
        first.rttvar.get(),
        second.rttvar.get(),
        second.smoothed_rtt.get(),
        second.min_rtt.get(),
    ]
}

/// A delay that would leave less than the least sample is not taken off.
#[test]
fn samples(rt: HostRuntime) {
    assert!(rt; sampled() == [50_000, 42_500, 102_500, 100_000]);
}

/// A window in bytes and a slow start threshold, in a recovery that began then.
fn in_recovery(window: u64, ssthresh: Option<u64>, began: u64) -> Reno
    requires time { began ≤ max_time }
{
    Reno {
        window,
        ssthresh,
        recovery_start_time: Some(Ticks::of(began)),
    }
}

/// What a loss at 900 makes of it, of packets the last of which was sent then.
fn lost_at(reno: Reno, sent: u64) -> Reno
    requires time { sent ≤ max_time }
{
    let mut reno = reno;
    reno.on_congestion_event(Ticks::of(sent), Ticks::of(900), 1200);
    reno
}

/// What a loss makes of a window outside recovery.
fn lost_outside_recovery(window: u64) -> Reno {
    let reno = Reno {
        window,
        ssthresh: None,
        recovery_start_time: None,
    };
    lost_at(reno, 0)
}

/// Whether a loss makes this of a window and its threshold.
fn falls_to(window: u64, fallen: u64, ssthresh: u64) -> bool {
    lost_outside_recovery(window) == in_recovery(fallen, Some(ssthresh), 900)
}

/// The threshold is half the window, and the window that or two datagrams.
#[test]
fn windows_after_a_loss(rt: HostRuntime) {
    assert!(rt; falls_to(4000, 2400, 2000));
    assert!(rt; falls_to(13_201, 6600, 6600));
}

/// Whether a loss in a recovery that began at 500 changes nothing where the packet was sent then,
/// and enters recovery again where it was sent after that.
fn is_entered_by_later_packets() -> bool {
    let before = in_recovery(12_000, None, 500);
    lost_at(before, 500) == before && lost_at(before, 501) == in_recovery(6000, Some(6000), 900)
}

/// Only a packet that was sent after recovery began enters it again.
#[test]
fn losses_in_recovery(rt: HostRuntime) {
    assert!(rt; is_entered_by_later_packets());
}

/// The window after an acknowledgment of so many bytes.
fn grown(window: u64, ssthresh: Option<u64>, size: u64) -> u64
    requires window_low { 1 ≤ window }
    requires window_high { window ≤ 2 ^ 62 }
    requires size_low { 1 ≤ size }
    requires size_high { size ≤ max_packet_size }
{
    let mut reno = Reno {
        window,
        ssthresh,
        recovery_start_time: None,
    };
    reno.grow(size, Ticks::of(0), 1200);
    reno.window
}

/// Windows at the threshold, below it, and without one.
fn grown_windows() -> [u64; 3] {
    [
        grown(6000, Some(6000), 1001),
        grown(5999, Some(6000), 1200),
        grown(4_611_686_018_427_387_904, None, 65_527),
    ]
}

/// At the threshold the window grows by a part of a datagram, and below it by the packet.
#[test]
fn windows_after_growth(rt: HostRuntime) {
    assert!(rt; grown_windows() == [6200, 7199, 4_611_686_018_427_453_431]);
}
