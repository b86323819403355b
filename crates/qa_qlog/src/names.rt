//! The names of events, as the drafts write them.
ghost use Rattle.std.specs.Prelude.{◌≡◌, bytes_eq};
ghost use Rattle.std.specs.Str.{str_eq_ignore_ascii_case};
ghost use Rattle.qa_qlog.specs.Names as names;

use memchr::memrchr;

/// The events that are read.
#[derive(Clone, Copy, Debug, PartialEq, Eq)]
pub enum EventName {
    /// `packet_sent`.
    PacketSent,
    /// `packet_received`.
    PacketReceived,
    /// `packet_lost`.
    PacketLost,
    /// `packets_lost`.
    PacketsLost,
    /// `metrics_updated`, `recovery_metrics_updated` or `metric_update`.
    MetricsUpdated,
    /// `recovery_parameters_set`, or `parameters_set` of the category `recovery`.
    RecoveryParametersSet,
    /// `congestion_state_updated`.
    CongestionStateUpdated,
    /// `loss_timer_updated` or `timer_updated`.
    LossTimerUpdated,
    /// `key_updated`.
    KeyUpdated,
    /// `key_retired`.
    KeyRetired,
    /// `key_discarded`.
    KeyDiscarded,
    /// `parameters_set` or `transport_parameters_set`.
    ParametersSet,
}

impl EventName {
    /// The event of this name, with its category or without; None for one that is not read.
    pub fn named(name: &[u8]) -> Option<EventName>
        ensures { result ≡ names.named name.now }
    {
        if is(name, "recovery:parameters_set") {
            return Some(EventName::RecoveryParametersSet);
        }
        known(without_category(name))
    }
}

/// The event of a name without a category.
fn known(name: &[u8]) -> Option<EventName>
    ensures { result ≡ names.known name.now }
{
    of_packets(name).or(of_recovery(name).or(of_connection(name)))
}

/// What follows the last colon; all if there is none.
fn without_category(name: &[u8]) -> &[u8]
    ensures { result.now ≡ names.without_category name.now }
{
    match memrchr(b':', name) {
        Some(place) => &name[place + 1..],
        None => name,
    }
}

/// The event of a packet that has this name.
fn of_packets(name: &[u8]) -> Option<EventName>
    ensures { result ≡ names.named_in names.of_packets name.now }
{
    if is(name, "packet_sent") {
        Some(EventName::PacketSent)
    } else if is(name, "packet_received") {
        Some(EventName::PacketReceived)
    } else if is(name, "packet_lost") {
        Some(EventName::PacketLost)
    } else if is(name, "packets_lost") {
        Some(EventName::PacketsLost)
    } else {
        None
    }
}

/// The event of recovery that has this name.
fn of_recovery(name: &[u8]) -> Option<EventName>
    ensures { result ≡ names.named_in names.of_recovery name.now }
{
    if is(name, "metrics_updated") {
        Some(EventName::MetricsUpdated)
    } else if is(name, "recovery_metrics_updated") {
        Some(EventName::MetricsUpdated)
    } else if is(name, "metric_update") {
        Some(EventName::MetricsUpdated)
    } else if is(name, "recovery_parameters_set") {
        Some(EventName::RecoveryParametersSet)
    } else if is(name, "congestion_state_updated") {
        Some(EventName::CongestionStateUpdated)
    } else if is(name, "loss_timer_updated") {
        Some(EventName::LossTimerUpdated)
    } else if is(name, "timer_updated") {
        Some(EventName::LossTimerUpdated)
    } else {
        None
    }
}

/// The event of keys or parameters that has this name.
fn of_connection(name: &[u8]) -> Option<EventName>
    ensures { result ≡ names.named_in names.of_connection name.now }
{
    if is(name, "key_updated") {
        Some(EventName::KeyUpdated)
    } else if is(name, "key_retired") {
        Some(EventName::KeyRetired)
    } else if is(name, "key_discarded") {
        Some(EventName::KeyDiscarded)
    } else if is(name, "parameters_set") {
        Some(EventName::ParametersSet)
    } else if is(name, "transport_parameters_set") {
        Some(EventName::ParametersSet)
    } else {
        None
    }
}

/// Whether a name is this text.
fn is(name: &[u8], text: &str) -> bool
    ensures { result ≡ bytes_eq name.now text.now }
{
    name == text.as_bytes()
}

/// Whether a text is this name, in capitals or small letters.
pub(crate) fn is_named(text: &str, name: &str) -> bool
    ensures { result ≡ str_eq_ignore_ascii_case text.now name.now }
{
    text.eq_ignore_ascii_case(name)
}
