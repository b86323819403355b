//! What a report says of the state of the sender: `metrics_updated` of category `recovery`.
ghost use Rattle.std.specs.Prelude.{◌≡◌, bytes_eq, codes, Option};
ghost use Rattle.json.specs.Json.{Json};
ghost use Rattle.json.specs.Json as json;
ghost use Rattle.json.specs.Find.{BeginsWith, InMembers, Finds};
ghost use Rattle.qa_qlog.specs.Metrics as metrics;
ghost use Rattle.qa_qlog.specs.Says as said;

use crate::keys::{Key, NoValue};
use crate::numbers::{optional_at, optional_duration};
use crate::says::{four_at, is_given, key_at};
use crate::times::Unit;
use json::{Element, Members};
use qa_base::PacketNumber;

/// The round-trip times of a report, in nanoseconds.
#[derive(Clone, Copy, Debug, PartialEq, Eq)]
pub struct Rtts {
    /// The last sample.
    pub latest: Option<u64>,
    /// The least sample.
    pub min: Option<u64>,
    /// The smoothed one.
    pub smoothed: Option<u64>,
    /// The variation.
    pub variance: Option<u64>,
}

/// The byte counts of a report.
#[derive(Clone, Copy, Debug, PartialEq, Eq)]
pub struct ByteCounts {
    /// The congestion window.
    pub window: Option<u64>,
    /// The slow start threshold; None also if there is no threshold by the report.
    pub ssthresh: Option<u64>,
    /// The bytes in flight.
    pub in_flight: Option<u64>,
}

/// The round-trip times that a report says, in a log whose durations have this unit.
pub fn reported_rtts(object: &Option<Element<'_, '_>>, unit: Unit) -> Result<Rtts, NoValue>
    ensures { (d : Option Json) → Finds object.now d → result ≡ metrics.rtts unit d }
{
    let found = four_at(
        object,
        "latest_rtt",
        "min_rtt",
        "smoothed_rtt",
        "rtt_variance",
    );
    let latest = optional_duration(&found.first, Key::LatestRtt, unit);
    let min = optional_duration(&found.second, Key::MinRtt, unit);
    let smoothed = optional_duration(&found.third, Key::SmoothedRtt, unit);
    let variance = optional_duration(&found.fourth, Key::RttVariance, unit);
    rtts_of(latest, min, smoothed, variance)
}

/// Round-trip times, or the first fault.
fn rtts_of(
    latest: Result<Option<u64>, NoValue>,
    min: Result<Option<u64>, NoValue>,
    smoothed: Result<Option<u64>, NoValue>,
    variance: Result<Option<u64>, NoValue>,
) -> Result<Rtts, NoValue>
    ensures { result ≡ metrics.rtts_of latest min smoothed variance }
{
    Ok(Rtts {
        latest: latest?,
        min: min?,
        smoothed: smoothed?,
        variance: variance?,
    })
}

/// The byte counts that a report says.
pub fn reported_bytes(object: &Option<Element<'_, '_>>) -> Result<ByteCounts, NoValue>
    ensures { (d : Option Json) → Finds object.now d → result ≡ metrics.sizes d }
{
    let found = four_at(
        object,
        "congestion_window",
        "ssthresh",
        "bytes_in_flight",
        "cwnd",
    );
    let window = window(object, found.first, found.fourth);
    let ssthresh = ssthresh(&found.second);
    let in_flight = optional_at(&found.third, Key::BytesInFlight);
    sizes_of(window, ssthresh, in_flight)
}

/// ByteCounts, or the first fault.
fn sizes_of(
    window: Result<Option<u64>, NoValue>,
    ssthresh: Result<Option<u64>, NoValue>,
    in_flight: Result<Option<u64>, NoValue>,
) -> Result<ByteCounts, NoValue>
    ensures { result ≡ metrics.sizes_of window ssthresh in_flight }
{
    Ok(ByteCounts {
        window: window?,
        ssthresh: ssthresh?,
        in_flight: in_flight?,
    })
}

/// The congestion window, which may be at one of three keys.
fn window(
    object: &Option<Element<'_, '_>>,
    first: Option<Element<'_, '_>>,
    second: Option<Element<'_, '_>>,
) -> Result<Option<u64>, NoValue>
    ensures { (d : Option Json) → Finds object.now d
        → Finds first.entry (said.key_at (codes "congestion_window") d)
        → Finds second.entry (said.key_at (codes "cwnd") d)
        → result ≡ metrics.window d }
{
    if is_given(&first) {
        return optional_at(&first, Key::CongestionWindow);
    }
    if is_given(&second) {
        return optional_at(&second, Key::CongestionWindow);
    }
    optional_at(&key_at(object, "current_cwnd"), Key::CongestionWindow)
}

/// The slow start threshold; above 2^62 - 1 there is none.
fn ssthresh(found: &Option<Element<'_, '_>>) -> Result<Option<u64>, NoValue>
    ensures { (d : Option Json) → Finds found.now (said.key_at (codes "ssthresh") d)
        → result ≡ metrics.ssthresh d }
{
    match optional_at(found, Key::Ssthresh) {
        Ok(Some(size)) if PacketNumber::MAX < size => Ok(None),
        other => other,
    }
}

/// Whether all that a report says is the count of probe timeouts.
pub fn has_only_pto_count(object: &Element<'_, '_>) -> bool
    ensures { (j : Json) → BeginsWith object.now j → result ≡ metrics.has_only_pto_count j }
{
    match object.members() {
        Some(members) => are_only(members, "pto_count"),
        None => false,
    }
}

/// Whether there are members, and all have this key.
fn are_only(members: Members<'_, '_>, key: &str) -> bool
    ensures { (ms : json.Members) → InMembers members.entry ms
        → result ≡ metrics.are_only key.now ms }
{
    let mut members = members;
    match members.next() {
        Some((first, _)) => is_key(first, key) && are_all(members, key),
        None => false,
    }
}

/// Whether all members have this key.
fn are_all(members: Members<'_, '_>, key: &str) -> bool
    ensures { (ms : json.Members) → InMembers members.entry ms
        → result ≡ metrics.are_all key.now ms }
{
    let mut members = members;
    while let Some((name, _)) = members.next() {
        if !is_key(name, key) {
            return false;
        }
    }
    true
}

/// Whether the name of a member is this key.
fn is_key(name: &str, key: &str) -> bool
    ensures { result ≡ bytes_eq name.now key.now }
{
    name == key
}
