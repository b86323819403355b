//! The header of a trace.
ghost use Rattle.std.specs.Prelude.{◌≡◌, ◌≤◌};
ghost use Rattle.qa_base.specs.values.Limits.{max_packet_size, max_max_ack_delay_ns};
ghost use Rattle.qa_base.specs.values.Limits.{max_initial_rtt_ns, max_time_threshold_eighths};
ghost use Rattle.qa_base.specs.values.Settings.{default_window as default_window_of};

use crate::constants::{
    DEFAULT_INITIAL_RTT, DEFAULT_MAX_ACK_DELAY, DEFAULT_PACKET_THRESHOLD,
    DEFAULT_TIME_THRESHOLD_EIGHTHS, GRANULARITY_US, INITIAL_WINDOW_BYTES, INITIAL_WINDOW_DATAGRAMS,
    minimum_window,
};
use crate::key::{Key, RangeFault};
use crate::limits::{
    MAX_INITIAL_RTT, MAX_INITIAL_WINDOW, MAX_MAX_ACK_DELAY, MAX_PACKET_SIZE, MAX_PACKET_THRESHOLD,
    MAX_REPORT_SLACK_BYTES, MAX_REPORT_SLACK_US, MAX_TIME_THRESHOLD_EIGHTHS, MAX_TIMER_EARLY_US,
    MAX_TIMER_LATE, MIN_DATAGRAM_SIZE, MIN_PACKET_THRESHOLD, MIN_TIME_THRESHOLD_EIGHTHS,
};
use crate::number::Ticks;
use crate::space::{Controller, LossByNumber, Role, ThresholdCounts, TimeUnit};
use std::marker::Model;

/// The version of the trace format.
#[derive(Clone, Copy, PartialEq, Eq)]
pub enum Version {
    /// Timers may be late, `min_rtt` is never refreshed, and reported values are compared exactly.
    One,
    /// The header says how late timers may be, and more: the first four of its `Options`.
    Two,
    /// The header says the unit of its times, and what the sender chooses: all of its `Options`.
    Three,
}

impl Version {
    ghost use Rattle.qa_base.specs.values.Names.{version_number};
    ghost use Rattle.qa_base.specs.values.Settings.{version_in, version_with};

    /// The number that stands in a line, 1 to 3.
    pub fn number(self) -> u64
        ensures { result ≡ version_number self }
    {
        match self {
            Version::One => 1,
            Version::Two => 2,
            Version::Three => 3,
        }
    }

    /// The first version that says this unit.
    fn in_unit(unit: TimeUnit) -> Version
        ensures { result ≡ version_in unit }
    {
        match unit {
            TimeUnit::Microseconds => Version::One,
            TimeUnit::Nanoseconds => Version::Three,
        }
    }

    /// The version of a header that gets these options: at least 2, and 3 where version 2 cannot
    /// say them.
    fn with(self, options: &Options) -> Version
        ensures { result ≡ version_with self options.now }
    {
        match self {
            Version::Three => Version::Three,
            _ if options.fit_version_two() => Version::Two,
            _ => Version::Three,
        }
    }
}

/// What a header asks of the sender and of its reports, beyond what version 1 does. The default
/// asks no more: no limit, no refresh and no slack, and a sender as RFC 9002 has it. Version 2 says
/// the first four, version 3 all. What is counted in microseconds is so whatever the unit of the
/// trace.
#[derive(Clone, Copy, PartialEq, Eq)]
pub struct Options {
    /// By how many microseconds the timer may be late, 0 to 10^15; None: by any number.
    pub timer_late: Option<u64>,
    /// By how many microseconds a reported time may differ, 0 to 1000000000.
    pub report_slack_us: u64,
    /// By how many bytes a reported window, `ssthresh` or bytes in flight may differ, 0 to
    /// 4294967295.
    pub report_slack_bytes: u64,
    /// `kPacketThreshold` of the sender (RFC 9002, section 6.1.1), 3 to 65535.
    pub packet_threshold: u64,
    /// By how many microseconds a timer may go off before it is due, 0 to 1000000000.
    pub timer_early_us: u64,
    /// `kTimeThreshold` of the sender in eighths of the RTT (RFC 9002, section 6.1.2), 9 to 32.
    pub time_threshold_eighths: u64,
    /// By whose congestion window packets are judged.
    pub controller: Controller,
    /// What becomes of a packet that lies `packet_threshold` or more behind. It may be spared only
    /// where the window is a reported one.
    pub loss_by_number: LossByNumber,
    /// By what a packet lies `packet_threshold` or more behind (RFC 9002, section 6.1.1).
    pub threshold_counts: ThresholdCounts,
    /// Persistent congestion sets `min_rtt` to the latest sample (RFC 9002, section 5.2).
    pub refresh_min_rtt: bool,
    /// A packet may go out wherever the bytes in flight are below the window before it, though it
    /// takes them past the window. The text of RFC 9002, section 7, forbids it.
    pub window_overshoot: bool,
    /// An acknowledgment gives a sample of the RTT only if the packet with its largest number is
    /// ack-eliciting; in RFC 9002, section 5.1, if some packet is that it newly acknowledges.
    pub sample_eliciting_only: bool,
    /// Persistent congestion sets the estimate of the RTT back to what it is before any sample, but
    /// for the latest one (RFC 9002, section 5.2). If `refresh_min_rtt` is set too, this decides.
    pub reset_rtt: bool,
    /// The latest RTT is a sample less the peer's delay, by which the smoothed RTT and its
    /// variation move; but for the first. In RFC 9002, A.7, it is the sample itself.
    pub latest_rtt_less_delay: bool,
    /// Whether a packet was sent in a recovery period goes by the order of the lines, and not by
    /// their times, which can be equal (RFC 9002, section 7.3.2; B.5 compares times).
    pub recovery_by_order: bool,
}

impl Default for Options {
    ghost use Rattle.qa_base.specs.values.Settings.{no_options};

    ghost is_default = { λ o. o ≡ no_options };

    fn default() -> Options {
        Options {
            timer_late: None,
            refresh_min_rtt: false,
            report_slack_us: 0,
            report_slack_bytes: 0,
            controller: Controller::NewReno,
            window_overshoot: false,
            sample_eliciting_only: false,
            packet_threshold: DEFAULT_PACKET_THRESHOLD,
            timer_early_us: 0,
            loss_by_number: LossByNumber::Must,
            threshold_counts: ThresholdCounts::Numbers,
            reset_rtt: false,
            latest_rtt_less_delay: false,
            time_threshold_eighths: DEFAULT_TIME_THRESHOLD_EIGHTHS,
            recovery_by_order: false,
        }
    }
}

impl Options {
    ghost use Rattle.std.specs.Prelude.{None};
    ghost use Rattle.qa_base.specs.values.Settings.{AreOptionsInRange, first_outside};
    ghost use Rattle.qa_base.specs.values.Settings.{fit_version_two, options_outside};
    ghost use Rattle.qa_base.specs.values.Settings.{spares_unreported};

    /// Whether version 2 can say them.
    fn fit_version_two(&self) -> bool
        ensures { result ≡ fit_version_two self.now }
    {
        !self.controller.is_reported()
            && !self.window_overshoot
            && !self.sample_eliciting_only
            && self.packet_threshold == DEFAULT_PACKET_THRESHOLD
            && self.timer_early_us == 0
            && !self.loss_by_number.is_may()
            && !self.threshold_counts.counts_packets()
            && !self.reset_rtt
            && !self.latest_rtt_less_delay
            && self.time_threshold_eighths == DEFAULT_TIME_THRESHOLD_EIGHTHS
            && !self.recovery_by_order
    }

    /// Whether packets may be spared while the window is not one that the sender reports.
    fn spares_unreported(&self) -> bool
        ensures { result ≡ spares_unreported self.now }
    {
        self.loss_by_number.is_may() && !self.controller.is_reported()
    }

    /// The key of the first option that is out of its range.
    fn first_outside(&self) -> Option<Key>
        ensures key { result ≡ first_outside (options_outside self.now) }
        ensures range { result ≡ None → AreOptionsInRange self.now }
    {
        if MAX_TIMER_LATE < self.timer_late.unwrap_or(0) {
            return Some(Key::TimerLateUs);
        }
        if MAX_REPORT_SLACK_US < self.report_slack_us {
            return Some(Key::ReportSlackUs);
        }
        if MAX_REPORT_SLACK_BYTES < self.report_slack_bytes {
            return Some(Key::ReportSlackBytes);
        }
        if self.packet_threshold < MIN_PACKET_THRESHOLD
            || MAX_PACKET_THRESHOLD < self.packet_threshold
        {
            return Some(Key::PacketThreshold);
        }
        if MAX_TIMER_EARLY_US < self.timer_early_us {
            return Some(Key::TimerEarlyUs);
        }
        if self.spares_unreported() {
            return Some(Key::LossByNumber);
        }
        if self.time_threshold_eighths < MIN_TIME_THRESHOLD_EIGHTHS
            || MAX_TIME_THRESHOLD_EIGHTHS < self.time_threshold_eighths
        {
            return Some(Key::TimeThresholdEighths);
        }
        None
    }
}

/// What holds of a whole trace: the sender's role, the parameters of its connection, and what is
/// asked of it.
///
/// Each value is in its range, as `Header::in_unit` and `Header::with` test it. A header of version
/// 1 has the default options, one of version 2 those that it can say, and times in nanoseconds are
/// of version 3 alone.
#[derive(Clone, Copy, PartialEq, Eq)]
pub struct Header {
    role: Role,
    unit: TimeUnit,
    version: Version,
    max_datagram_size: u64,
    max_ack_delay: u64,
    initial_rtt: u64,
    initial_window: u64,
    options: Options,
}

impl Model for Header {
    ghost use Rattle.qa_base.specs.values.Settings.{Settings, AreInRange};

    ghost Value = { Settings };

    ghost view = { λ h. record {
      role = h.role;
      unit = h.unit;
      max_datagram_size = h.max_datagram_size;
      max_ack_delay = h.max_ack_delay;
      initial_rtt = h.initial_rtt;
      initial_window = h.initial_window;
      version = h.version;
      options = h.options;
    } };

    ghost invariant = { λ h. AreInRange (record {
      role = h.role;
      unit = h.unit;
      max_datagram_size = h.max_datagram_size;
      max_ack_delay = h.max_ack_delay;
      initial_rtt = h.initial_rtt;
      initial_window = h.initial_window;
      version = h.version;
      options = h.options;
    }) };

    ghost inverse = { λ s. record {
      role = s.role;
      unit = s.unit;
      max_datagram_size = s.max_datagram_size;
      max_ack_delay = s.max_ack_delay;
      initial_rtt = s.initial_rtt;
      initial_window = s.initial_window;
      version = s.version;
      options = s.options;
    } };
}

/// What a header says of its connection. Where a value is None the header has the default, which
/// the table of `Header::new` has beside the ranges.
#[derive(Clone, Copy, PartialEq, Eq)]
pub struct ConnectionValues {
    /// Whether the sender is the client or the server.
    pub role: Role,
    /// The sender's maximum datagram size in bytes (RFC 9002, section 7.2).
    pub max_datagram_size: u64,
    /// The peer's `max_ack_delay` (RFC 9002, section 5.3), in the unit of the trace.
    pub max_ack_delay: Option<u64>,
    /// The RTT that stands before the first sample (RFC 9002, section 6.2.2), in the unit of the
    /// trace.
    pub initial_rtt: Option<u64>,
    /// The congestion window in bytes that the sender begins with (RFC 9002, section 7.2).
    pub initial_window: Option<u64>,
}

/// The initial congestion window in bytes where a header names none (RFC 9002, section 7.2).
fn default_window(max_datagram_size: u64) -> u64
    requires { max_datagram_size ≤ max_packet_size }
    ensures { result ≡ default_window_of max_datagram_size }
{
    let most = (2 * max_datagram_size).max(INITIAL_WINDOW_BYTES);
    (INITIAL_WINDOW_DATAGRAMS * max_datagram_size).min(most)
}

impl Header {
    ghost use Rattle.std.specs.Prelude.{◌≢◌};
    ghost use Rattle.qa_base.specs.declared.header.Version.TheVariants.{One, Three};
    ghost use Rattle.qa_base.specs.values.Settings.{AreInRange, IsSaidIn, early};
    ghost use Rattle.qa_base.specs.values.Settings.{granularity as granularity_of, in_version};
    ghost use Rattle.qa_base.specs.values.Settings.{settings_in, settings_of, with_options};
    ghost use Rattle.qa_base.specs.values.Settings.{choosing_options};

    /// The header of these values in version 1; a value of None is the default.
    ///
    /// | Value | Unit | Range | Default |
    /// |---|---|---|---|
    /// | `max_datagram_size` | bytes | 1200 to 65527 | |
    /// | `max_ack_delay` | microseconds | 0 to 16383000 | 25000 |
    /// | `initial_rtt` | microseconds | 1 to 1000000000 | 333000 |
    /// | `initial_window` | bytes | twice `max_datagram_size` to 4294967295 | RFC 9002, section 7.2 |
    ///
    /// Where a value is outside its range the fault names the first such, in the table's order.
    pub fn new(
        role: Role,
        max_datagram_size: u64,
        max_ack_delay: Option<u64>,
        initial_rtt: Option<u64>,
        initial_window: Option<u64>,
    ) -> Result<Header, RangeFault>
        ensures { result ≡ settings_of role max_datagram_size max_ack_delay initial_rtt
            initial_window }
    {
        let values = ConnectionValues {
            role,
            max_datagram_size,
            max_ack_delay,
            initial_rtt,
            initial_window,
        };
        Header::in_unit(TimeUnit::Microseconds, values)
    }

    /// The same with times in this unit. In nanoseconds the ranges and defaults of times are a
    /// thousand times as great, and the header is one of version 3.
    pub fn in_unit(unit: TimeUnit, values: ConnectionValues) -> Result<Header, RangeFault>
        ensures { result ≡ settings_in unit values.role values.max_datagram_size
            values.max_ack_delay values.initial_rtt values.initial_window }
    {
        let scale = unit.per_microsecond();
        let max_datagram_size = values.max_datagram_size;
        if max_datagram_size < MIN_DATAGRAM_SIZE || MAX_PACKET_SIZE < max_datagram_size {
            return Err(RangeFault(Key::MaxDatagramSize));
        }
        let max_ack_delay = values
            .max_ack_delay
            .unwrap_or(scale * DEFAULT_MAX_ACK_DELAY);
        if scale * MAX_MAX_ACK_DELAY < max_ack_delay {
            return Err(RangeFault(Key::MaxAckDelay));
        }
        let initial_rtt = values.initial_rtt.unwrap_or(scale * DEFAULT_INITIAL_RTT);
        if initial_rtt < 1 || scale * MAX_INITIAL_RTT < initial_rtt {
            return Err(RangeFault(Key::InitialRtt));
        }
        let initial_window = values
            .initial_window
            .unwrap_or(default_window(max_datagram_size));
        if initial_window < minimum_window(max_datagram_size)
            || MAX_INITIAL_WINDOW < initial_window
        {
            return Err(RangeFault(Key::InitialWindow));
        }
        Ok(Header {
            role: values.role,
            unit,
            max_datagram_size,
            max_ack_delay,
            initial_rtt,
            initial_window,
            version: Version::in_unit(unit),
            options: Options::default(),
        })
    }

    /// This header with these options in place of its own: in version 2, or in version 3 where it
    /// is of it already or version 2 cannot say them.
    ///
    /// Where an option is outside its range the fault names the first such, in the order of
    /// `timer_late`, `report_slack_us`, `report_slack_bytes`, `packet_threshold`, `timer_early_us`,
    /// `loss_by_number`, which is `May` only where the controller is `Reported`, and
    /// `time_threshold_eighths`.
    pub fn with(self, options: Options) -> Result<Header, RangeFault>
        ensures { result ≡ with_options self options }
    {
        self.in_version(self.version.with(&options), options)
    }

    /// The same in version 3, whatever the options.
    pub fn choosing(self, options: Options) -> Result<Header, RangeFault>
        ensures { result ≡ choosing_options self options }
    {
        self.in_version(Version::Three, options)
    }

    /// This header with these options in this version, which can say them.
    fn in_version(self, version: Version, options: Options) -> Result<Header, RangeFault>
        requires later { version ≢ One }
        requires said { IsSaidIn version self.unit options }
        ensures { result ≡ in_version version self options }
    {
        if let Some(key) = options.first_outside() {
            return Err(RangeFault(key));
        }
        Ok(Header {
            version,
            options,
            ..self
        })
    }

    /// The sender's role.
    pub fn role(&self) -> Role
        ensures { result ≡ self.now.role }
    {
        self.role
    }

    /// The unit of the trace's times.
    pub fn unit(&self) -> TimeUnit
        ensures { result ≡ self.now.unit }
    {
        self.unit
    }

    /// `kGranularity` (RFC 9002, section 6.1.2), a millisecond in the unit of the trace.
    pub fn granularity(&self) -> Ticks
        ensures { result ≡ granularity_of self.now }
    {
        Ticks::of(self.unit.per_microsecond() * GRANULARITY_US)
    }

    /// How early a timer may be, in the unit of the trace: 0 to 10^12.
    pub fn timer_early(&self) -> u64
        ensures value { result ≡ early self.now }
        ensures bound { result ≤ 1000000000000 }
    {
        self.unit.per_microsecond() * self.options.timer_early_us.min(MAX_TIMER_EARLY_US)
    }

    /// `kTimeThreshold` of the sender in eighths of the RTT (RFC 9002, section 6.1.2), 9 to 32.
    pub fn time_threshold_eighths(&self) -> u64
        ensures value { result ≡ self.now.options.time_threshold_eighths }
        ensures most { result ≤ max_time_threshold_eighths }
    {
        self.options.time_threshold_eighths
    }

    /// The sender's maximum datagram size in bytes, 1200 to 65527 (RFC 9002, section 7.2).
    pub fn max_datagram_size(&self) -> u64
        ensures value { result ≡ self.now.max_datagram_size }
        ensures range { AreInRange self.now }
    {
        self.max_datagram_size
    }

    /// The peer's `max_ack_delay`, at most 16383000 microseconds (RFC 9002, section 5.3), in the
    /// unit of the trace.
    pub fn max_ack_delay(&self) -> u64
        ensures value { result ≡ self.now.max_ack_delay }
        ensures range { AreInRange self.now }
        ensures most { result ≤ max_max_ack_delay_ns }
    {
        self.max_ack_delay
    }

    /// The RTT that stands before the first sample, 1 to 1000000000 microseconds (RFC 9002, section
    /// 6.2.2), in the unit of the trace.
    pub fn initial_rtt(&self) -> u64
        ensures value { result ≡ self.now.initial_rtt }
        ensures range { AreInRange self.now }
        ensures most { result ≤ max_initial_rtt_ns }
    {
        self.initial_rtt
    }

    /// The congestion window in bytes that the sender begins with (RFC 9002, section 7.2).
    pub fn initial_window(&self) -> u64
        ensures value { result ≡ self.now.initial_window }
        ensures range { AreInRange self.now }
    {
        self.initial_window
    }

    /// The version of the trace format.
    pub fn version(&self) -> Version
        ensures { result ≡ self.now.version }
    {
        self.version
    }

    /// What is asked of the sender and of its reports; the default in version 1.
    pub fn options(&self) -> Options
        ensures value { result ≡ self.now.options }
        ensures range { AreInRange self.now }
    {
        self.options
    }
}
