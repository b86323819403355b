//! Names that other tools have for keys of the format.
ghost use Rattle.std.specs.Prelude.{◌≡◌};
ghost use Rattle.qa_base.specs.values.Names.{named};
ghost use Rattle.qa_why.specs.suggest.OtherNames as spec;

use qa_base::{Field, Key, LineKind};

fn of_header(name: &str) -> Option<Key>
    ensures { result ≡ named spec.of_header name.now }
{
    match name {
        "initial_cwnd" | "init_cwnd" => Some(Key::InitialWindow),
        "mss" | "mtu" | "max_udp_payload_size" => Some(Key::MaxDatagramSize),
        "ack_delay_max" => Some(Key::MaxAckDelay),
        "rtt" | "init_rtt" => Some(Key::InitialRtt),
        _ => None,
    }
}

fn of_event(name: &str) -> Option<Key>
    ensures { result ≡ named spec.of_event name.now }
{
    match name {
        "ts" | "timestamp" => Some(Key::Time),
        _ => None,
    }
}

fn of_space(name: &str) -> Option<Key>
    ensures { result ≡ named spec.of_space name.now }
{
    match name {
        "pn_space" | "packet_number_space" => Some(Key::Space),
        _ => None,
    }
}

fn of_packet(name: &str) -> Option<Key>
    ensures { result ≡ named spec.of_packet name.now }
{
    match name {
        "pn" | "packet_number" => Some(Key::Number),
        "length" | "bytes" => Some(Key::Size),
        "ack_eliciting" => Some(Key::Eliciting),
        _ => None,
    }
}

fn of_ack(name: &str) -> Option<Key>
    ensures { result ≡ named spec.of_ack name.now }
{
    match name {
        "ack_delay" => Some(Key::Delay),
        _ => None,
    }
}

fn of_metrics(name: &str) -> Option<Key>
    ensures { result ≡ named spec.of_metrics name.now }
{
    match name {
        "cwnd" | "congestion_window" => Some(Key::Metric(Field::Window)),
        "ss_thresh" => Some(Key::Metric(Field::Ssthresh)),
        "inflight" | "in_flight" => Some(Key::Metric(Field::BytesInFlight)),
        "rtt" => Some(Key::Metric(Field::LatestRtt)),
        "rtt_min" => Some(Key::Metric(Field::MinRtt)),
        "srtt" => Some(Key::Metric(Field::SmoothedRtt)),
        "rtt_var" | "rtt_variance" | "rttvariance" => Some(Key::Metric(Field::Rttvar)),
        _ => None,
    }
}

/// The key of a line of this kind that this is another name for.
pub fn other_name(kind: LineKind, name: &str) -> Option<Key>
    ensures { result ≡ spec.other_name kind name.now }
{
    match kind {
        LineKind::Header => of_header(name),
        LineKind::Sent => of_event(name).or(of_space(name)).or(of_packet(name)),
        LineKind::Ack => of_event(name).or(of_space(name)).or(of_ack(name)),
        LineKind::Lost | LineKind::Timer | LineKind::Discard => of_event(name).or(of_space(name)),
        LineKind::Confirmed | LineKind::Keys => of_event(name),
        LineKind::Metrics => of_event(name).or(of_metrics(name)),
    }
}
