//! What is known of the stacks: what their logs leave out, and what is taken in its place.
//!
//! A new stack is one more `Stack`, with its texts there and in `specs/Stacks.antt`, and here one
//! more constant and its place in `DIALECTS`.
ghost use Rattle.std.specs.Prelude.{◌≡◌, find};
ghost use Rattle.qa_convert.specs.Dialects.{begins_with, has_mark, has_name, is_marked, is_meant};
ghost use Rattle.qa_convert.specs.Dialects.{is_said, kind_of, named};

use crate::stacks::Stack;
use qa_base::{PerSpace, TimeUnit};

/// How it is known that the sender had not used its window (RFC 9002, section 7.8).
#[derive(Clone, Copy, PartialEq, Eq)]
pub enum Limited {
    /// By the congestion state `application_limited`.
    ByState,
    /// By a window that an acknowledgment left as it was.
    ByWindow,
    /// Not at all.
    Never,
}

/// What it means that metrics do not have a value that was reported before.
#[derive(Clone, Copy, PartialEq, Eq)]
pub enum Absent {
    /// It is as it was.
    Same,
    /// It is as it was, or 0.
    SameOrZero,
    /// The sender has none.
    Unknown,
}

/// A kind of log. Times are in microseconds.
#[derive(Clone, Copy)]
pub struct Dialect {
    /// The stack that writes it.
    pub stack: Stack,
    /// The RTT before a sample, if the log does not say it.
    pub initial_rtt: Option<u64>,
    /// How many datagrams the first window has.
    pub initial_datagrams: u64,
    /// Whether sizes leave out padding, and are those by which the bytes in flight grow.
    pub sizes_by_growth: bool,
    /// Whether the delay of acknowledgments is as on the wire, not yet multiplied (RFC 9000,
    /// section 19.3).
    pub delay_is_encoded: bool,
    /// Whether its times are read after the event, on a busy computer by milliseconds.
    pub is_read_late: bool,
    /// Whether each difference of its times is cut to a whole millisecond.
    pub cuts_times: bool,
    /// How large a packet is that a frame without a length fills.
    pub full_packet: u64,
    /// Whether a loss is in front of the packet that shows it.
    pub losses_stand_before: bool,
    /// Whether the metrics after a packet that was sent are in front of it.
    pub metrics_stand_before: bool,
    /// Whether a packet that came is behind all that it caused.
    pub received_stands_last: bool,
    /// What a value means that metrics leave out.
    pub absent: Absent,
    /// Whether timers that expire are logged; None if that is known only by whether the log has
    /// one.
    pub logs_timers: Option<bool>,
    /// Whether nothing tells of a probe timeout but a PING that is sent.
    pub probes_by_ping: bool,
    /// Whether a packet says by its trigger that it is the probe of a timeout.
    pub probes_by_trigger: bool,
    /// Whether a packet of a probe leaves a byte free that was kept for a PING.
    pub probes_by_room: bool,
    /// Whether the sender's window is not logged, and not that of NewReno, so that none is judged.
    pub hides_window: bool,
    /// A packet whose number this divides has a PING behind an ACK frame of several ranges, so that
    /// the frame is acknowledged; that is no probe.
    pub packets_between_pings: Option<u64>,
    /// In which spaces the sender subtracts the peer's delay.
    pub subtracts_delay: PerSpace<bool>,
    /// How it is known that the sender had not used its window.
    pub limited: Limited,
    /// How far off reports of times can be.
    pub slack_us: u64,
    /// How far off reports of bytes can be.
    pub slack_bytes: u64,
    /// The unit of the trace; None if it is nanoseconds once some time of the log has them.
    pub unit: Option<TimeUnit>,
    /// Whether packets are sent past the window.
    pub window_overshoot: bool,
    /// Whether samples are of ack-eliciting packets alone.
    pub sample_eliciting_only: bool,
    /// The packet threshold.
    pub packet_threshold: u64,
    /// Whether persistent congestion may reset the estimate of the round-trip time.
    pub may_reset_rtt: bool,
    /// Whether the latest round-trip time is kept less the peer's delay.
    pub latest_rtt_less_delay: bool,
    /// Whether a loss and the packet that is sent after it have one time, so that their order tells
    /// them apart.
    pub recovery_by_order: bool,
    /// The time threshold in eighths of the round-trip time.
    pub time_threshold_eighths: u64,
    /// Whether a packet so many numbers behind may be spared, if the window is a reported one.
    pub may_spare: bool,
    /// Whether the packet threshold counts packets, so that a number that was skipped does not.
    pub counts_packets: bool,
    /// How early a timer can be by the log.
    pub timer_early_us: u64,
    /// How late a timer may be.
    pub timer_late_us: u64,
}

/// All spaces but that of Initial packets.
const ALL_BUT_INITIAL: PerSpace<bool> = PerSpace {
    initial: false,
    handshake: true,
    app: true,
};

/// All spaces.
const ALL_SPACES: PerSpace<bool> = PerSpace {
    initial: true,
    handshake: true,
    app: true,
};

/// The application data space alone.
const APP_ALONE: PerSpace<bool> = PerSpace {
    initial: false,
    handshake: false,
    app: true,
};

/// For all logs that are of no other kind.
pub const GENERIC: Dialect = Dialect {
    stack: Stack::Generic,
    initial_rtt: None,
    initial_datagrams: 10,
    sizes_by_growth: false,
    delay_is_encoded: false,
    is_read_late: false,
    cuts_times: false,
    full_packet: 1_200,
    losses_stand_before: false,
    metrics_stand_before: false,
    received_stands_last: false,
    absent: Absent::Same,
    logs_timers: None,
    probes_by_ping: false,
    probes_by_trigger: false,
    probes_by_room: false,
    hides_window: false,
    packets_between_pings: None,
    subtracts_delay: ALL_BUT_INITIAL,
    limited: Limited::ByState,
    slack_us: 10,
    slack_bytes: 0,
    unit: None,
    window_overshoot: false,
    sample_eliciting_only: false,
    packet_threshold: 3,
    may_reset_rtt: false,
    latest_rtt_less_delay: false,
    recovery_by_order: false,
    time_threshold_eighths: 9,
    may_spare: false,
    counts_packets: false,
    timer_early_us: 10,
    timer_late_us: 200_000,
};

/// quic-go 0.29: a JSON text a line, draft-02, times with six decimals, read after the event.
/// Metrics have changes alone, and no `ssthresh`. PADDING is not logged, nor is the timer of a
/// client with nothing in flight.
const QUIC_GO: Dialect = Dialect {
    stack: Stack::QuicGo,
    initial_rtt: Some(66_666),
    initial_datagrams: 32,
    is_read_late: true,
    logs_timers: Some(true),
    subtracts_delay: APP_ALONE,
    slack_us: 1_000,
    window_overshoot: true,
    sample_eliciting_only: true,
    latest_rtt_less_delay: true,
    timer_early_us: 3_000,
    ..GENERIC
};

/// quic-go 0.50: JSON-SEQ, 0.3. A packet that came is logged after its frames were handled.
const QUIC_GO_0_50: Dialect = Dialect {
    stack: Stack::QuicGo050,
    received_stands_last: true,
    ..QUIC_GO
};

/// quic-go 0.59: the schema of 0.4, and values of 0 are left out. All packets are kept until they
/// are acknowledged, so there is a sample if the largest is not ack-eliciting.
const QUIC_GO_0_59: Dialect = Dialect {
    stack: Stack::QuicGo059,
    absent: Absent::SameOrZero,
    sample_eliciting_only: false,
    counts_packets: true,
    ..QUIC_GO_0_50
};

/// ngtcp2 0.12: JSON-SEQ, 0.3, all times in whole milliseconds, rounded down. No timers and no
/// keys. Metrics have all values.
const NGTCP2: Dialect = Dialect {
    stack: Stack::Ngtcp2,
    losses_stand_before: true,
    absent: Absent::Unknown,
    logs_timers: Some(false),
    limited: Limited::ByWindow,
    slack_us: 2_000,
    slack_bytes: 64,
    unit: Some(TimeUnit::Microseconds),
    window_overshoot: true,
    sample_eliciting_only: true,
    may_reset_rtt: true,
    may_spare: true,
    timer_early_us: 3_000,
    ..GENERIC
};

/// aioquic 1.2: one JSON object, 0.3, times of the wall clock. No timers, no PTO count and no
/// `key_retired` of the Initial space.
const AIOQUIC: Dialect = Dialect {
    stack: Stack::Aioquic,
    initial_rtt: Some(66_666),
    metrics_stand_before: true,
    logs_timers: Some(false),
    probes_by_ping: true,
    packets_between_pings: Some(8),
    subtracts_delay: ALL_SPACES,
    limited: Limited::Never,
    slack_us: 1_000,
    slack_bytes: 64,
    unit: Some(TimeUnit::Microseconds),
    latest_rtt_less_delay: true,
    timer_early_us: 1_000,
    ..GENERIC
};

/// OpenSSL 3.6: JSON-SEQ, 0.3, delta times, each cut to a whole millisecond. No sizes, no metrics,
/// no timers, no keys.
const OPENSSL: Dialect = Dialect {
    stack: Stack::OpenSsl,
    cuts_times: true,
    full_packet: 1_198,
    logs_timers: Some(false),
    probes_by_room: true,
    limited: Limited::Never,
    unit: Some(TimeUnit::Microseconds),
    window_overshoot: true,
    timer_early_us: 3_000,
    timer_late_us: 500_000,
    ..GENERIC
};

/// neqo, as Firefox 153 runs it: JSON-SEQ, 0.3, times with six decimals. A size leaves out padding,
/// or is that of the datagram so far.
const NEQO: Dialect = Dialect {
    stack: Stack::Neqo,
    sizes_by_growth: true,
    delay_is_encoded: true,
    logs_timers: Some(true),
    slack_us: 1_000,
    latest_rtt_less_delay: true,
    recovery_by_order: true,
    timer_early_us: 1_000,
    ..GENERIC
};

/// The netlog of Chromium 156: no window, no metrics, no timers. CUBIC. The time threshold is 5/4.
const CHROMIUM: Dialect = Dialect {
    stack: Stack::Chromium,
    initial_rtt: Some(100_000),
    logs_timers: Some(false),
    probes_by_trigger: true,
    hides_window: true,
    limited: Limited::Never,
    unit: Some(TimeUnit::Microseconds),
    time_threshold_eighths: 10,
    may_spare: true,
    timer_early_us: 3_000,
    ..GENERIC
};

/// quinn, by its documentation: JSON-SEQ, 0.3, times in milliseconds with fractions.
const QUINN: Dialect = Dialect {
    stack: Stack::Quinn,
    slack_us: 1_000,
    slack_bytes: 1_200,
    timer_early_us: 1_000,
    ..GENERIC
};

/// quiche, by its documentation: as quinn.
const QUICHE: Dialect = Dialect {
    stack: Stack::Quiche,
    slack_us: 1_000,
    slack_bytes: 1_200,
    timer_early_us: 1_000,
    ..GENERIC
};

/// mvfst, by its documentation: one JSON object, events as lists, times in microseconds.
const MVFST: Dialect = Dialect {
    stack: Stack::Mvfst,
    slack_us: 1_000,
    timer_early_us: 1_000,
    ..GENERIC
};

/// All but `GENERIC`, those first that are looked for first.
const DIALECTS: [Dialect; 11] = [
    QUIC_GO,
    QUIC_GO_0_50,
    QUIC_GO_0_59,
    NGTCP2,
    AIOQUIC,
    OPENSSL,
    NEQO,
    CHROMIUM,
    QUINN,
    QUICHE,
    MVFST,
];

/// The kind of a log, by what its head says of who wrote it, and by its version or schema: the
/// first with both its mark and its schema, else the first with its mark.
pub fn dialect_of(said: &[&str], schema: &str) -> Dialect
    ensures { result ≡ kind_of said.now schema.now }
{
    meant_among(&DIALECTS, said, schema)
        .or(marked_among(&DIALECTS, said))
        .unwrap_or(GENERIC)
}

/// The dialect of this name.
pub fn dialect_named(name: &str) -> Option<Dialect>
    ensures { result ≡ named name.now }
{
    if GENERIC.stack.name() == name {
        return Some(GENERIC);
    }
    named_among(&DIALECTS, name)
}

/// The first of these dialects that has both its mark and its schema.
fn meant_among(dialects: &[Dialect], said: &[&str], schema: &str) -> Option<Dialect>
    ensures { result ≡ find (is_meant said.now schema.now) dialects.now }
{
    dialects
        .iter()
        .find(|dialect| is_meant(dialect, said, schema))
        .copied()
}

/// The first of these dialects that has its mark.
fn marked_among(dialects: &[Dialect], said: &[&str]) -> Option<Dialect>
    ensures { result ≡ find (is_marked said.now) dialects.now }
{
    dialects
        .iter()
        .find(|dialect| is_said(said, dialect.stack.mark()))
        .copied()
}

/// The first of these dialects that has this name.
fn named_among(dialects: &[Dialect], name: &str) -> Option<Dialect>
    ensures { result ≡ find (has_name name.now) dialects.now }
{
    dialects
        .iter()
        .find(|dialect| dialect.stack.name() == name)
        .copied()
}

/// Whether a log has both the mark and the schema of a dialect.
fn is_meant(dialect: &Dialect, said: &[&str], schema: &str) -> bool
    ensures { result ≡ is_meant said.now schema.now dialect.now }
{
    is_said(said, dialect.stack.mark()) && schema.starts_with(dialect.stack.schema())
}

/// Whether some text has this mark, in small or large letters.
fn is_said(said: &[&str], mark: &str) -> bool
    ensures { result ≡ is_said said.now mark.now }
{
    for text in said {
        if has_mark(text.as_bytes(), mark.as_bytes()) {
            return true;
        }
    }
    false
}

/// Whether a text has a mark.
fn has_mark(text: &[u8], mark: &[u8]) -> bool
    ensures { result ≡ has_mark mark.now text.now }
{
    for at in 0..text.len() {
        if begins_with(&text[at..], mark) {
            return true;
        }
    }
    false
}

/// Whether a text begins with a mark.
fn begins_with(text: &[u8], mark: &[u8]) -> bool
    ensures { result ≡ begins_with mark.now text.now }
{
    mark.len() <= text.len() && text[..mark.len()].eq_ignore_ascii_case(mark)
}
