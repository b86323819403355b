//! The options that replace keys of the header of a trace.

use clap::builder::ValueParser;
use clap::parser::ValueSource;
use clap::{Arg, ArgAction, ArgMatches};
use qa_base::{Controller, LossByNumber, ThresholdCounts, TimeUnit, Version};
use std::alloc::{AllocError, Global};

/// The options, by the names that the parser has for them.
const TIMER_LATE: &str = "timer-late";

const REFRESH_MIN_RTT: &str = "refresh-min-rtt";

const SLACK_US: &str = "slack-us";

const SLACK_BYTES: &str = "slack-bytes";

const UNIT: &str = "unit";

const WINDOW: &str = "window";

const WINDOW_OVERSHOOT: &str = "window-overshoot";

const SAMPLE_ELICITING_ONLY: &str = "sample-eliciting-only";

const PACKET_THRESHOLD: &str = "packet-threshold";

const TIMER_EARLY_US: &str = "timer-early-us";

const LOSS_BY_NUMBER: &str = "loss-by-number";

const THRESHOLD_COUNTS: &str = "threshold-counts";

const RESET_RTT: &str = "reset-rtt";

const LATEST_RTT_LESS_DELAY: &str = "latest-rtt-less-delay";

const TIME_THRESHOLD_EIGHTHS: &str = "time-threshold-eighths";

const RECOVERY_BY_ORDER: &str = "recovery-by-order";

/// An older name of `TIMER_LATE`.
const TIMER_LATE_US: &str = "timer-late-us";

/// The highest limit for late timers that a header can have, in microseconds.
const MOST_LATE: u64 = 1_000_000_000_000_000;

/// The highest slack of times that a header can have, in microseconds.
const MOST_SLACK: u64 = 1_000_000_000;

/// The highest slack of bytes that a header can have.
const MOST_BYTES: u64 = 4_294_967_295;

/// What is given for no limit.
const NO_LIMIT: &str = "no";

const ANSWERS: &[&str] = &["yes", "no"];

/// What an option may be given.
#[derive(Clone, Copy)]
enum Values {
    /// A whole number from the first to the second.
    Numbers(u64, u64),
    /// A number of microseconds up to `MOST_LATE`, or `no`.
    Limits,
    /// One of these words.
    Words(&'static [&'static str]),
}

/// An option for a key of the header.
#[derive(Clone, Copy)]
pub struct Key {
    /// The name of the option.
    pub option: &'static str,
    /// The key, and the version of the format that brought it.
    help: &'static str,
    /// That version.
    pub version: Version,
    values: Values,
}

/// The options for keys of the header, in the order of the format.
pub const KEYS: [Key; 16] = [
    Key {
        option: TIMER_LATE,
        help: "timer_late_us, of version 2: how late a timer may be, or no",
        version: Version::Two,
        values: Values::Limits,
    },
    Key {
        option: REFRESH_MIN_RTT,
        help: "refresh_min_rtt, of version 2",
        version: Version::Two,
        values: Values::Words(ANSWERS),
    },
    Key {
        option: SLACK_US,
        help: "report_slack_us, of version 2",
        version: Version::Two,
        values: Values::Numbers(0, MOST_SLACK),
    },
    Key {
        option: SLACK_BYTES,
        help: "report_slack_bytes, of version 2",
        version: Version::Two,
        values: Values::Numbers(0, MOST_BYTES),
    },
    Key {
        option: UNIT,
        help: "unit, of version 3",
        version: Version::Three,
        values: Values::Words(&["us", "ns"]),
    },
    Key {
        option: WINDOW,
        help: "window, of version 3",
        version: Version::Three,
        values: Values::Words(&["newreno", "reported"]),
    },
    Key {
        option: WINDOW_OVERSHOOT,
        help: "window_overshoot, of version 3",
        version: Version::Three,
        values: Values::Words(ANSWERS),
    },
    Key {
        option: SAMPLE_ELICITING_ONLY,
        help: "sample_eliciting_only, of version 3",
        version: Version::Three,
        values: Values::Words(ANSWERS),
    },
    Key {
        option: PACKET_THRESHOLD,
        help: "packet_threshold, of version 3",
        version: Version::Three,
        values: Values::Numbers(3, 65_535),
    },
    Key {
        option: TIMER_EARLY_US,
        help: "timer_early_us, of version 3",
        version: Version::Three,
        values: Values::Numbers(0, MOST_SLACK),
    },
    Key {
        option: LOSS_BY_NUMBER,
        help: "loss_by_number, of version 3",
        version: Version::Three,
        values: Values::Words(&["must", "may"]),
    },
    Key {
        option: THRESHOLD_COUNTS,
        help: "threshold_counts, of version 3",
        version: Version::Three,
        values: Values::Words(&["numbers", "packets"]),
    },
    Key {
        option: RESET_RTT,
        help: "reset_rtt, of version 3",
        version: Version::Three,
        values: Values::Words(ANSWERS),
    },
    Key {
        option: LATEST_RTT_LESS_DELAY,
        help: "latest_rtt_less_delay, of version 3",
        version: Version::Three,
        values: Values::Words(ANSWERS),
    },
    Key {
        option: TIME_THRESHOLD_EIGHTHS,
        help: "time_threshold_eighths, of version 3",
        version: Version::Three,
        values: Values::Numbers(9, 32),
    },
    Key {
        option: RECOVERY_BY_ORDER,
        help: "recovery_by_order, of version 3",
        version: Version::Three,
        values: Values::Words(ANSWERS),
    },
];

impl Key {
    /// The option of this key.
    pub fn argument<'a>(&self, alloc: Global) -> Result<Arg<'a>, AllocError> {
        let argument = Arg::new(alloc, self.option)
            .long(self.option)
            .help(self.help)
            .action(ArgAction::Set);
        match self.values {
            Values::Numbers(low, high) => Ok(
                argument
                    .value_name("N")
                    .value_parser(ValueParser::unsigned(low, high)),
            ),
            Values::Limits => argument
                .value_name("MICROSECONDS")
                .visible_alias(TIMER_LATE_US),
            Values::Words(words) => Ok(argument.value_name("WORD").value_parser(words)),
        }
    }

    /// Whether the arguments have this option.
    pub fn is_given(&self, matches: &ArgMatches<'_>) -> bool {
        matches!(
            matches.value_source(self.option),
            Some(ValueSource::CommandLine)
        )
    }
}

/// A limit for late timers that is none, as it was given.
pub fn wrong_limit<'a>(matches: &ArgMatches<'a>) -> Option<&'a str> {
    let text = matches.get_str(TIMER_LATE)?;
    match limit_of(text) {
        Some(_) => None,
        None => Some(text),
    }
}

/// The limit for late timers of this text: a number of microseconds, or None in the Option for no
/// limit; None for any other text.
fn limit_of(text: &str) -> Option<Option<u64>> {
    if text == NO_LIMIT {
        return Some(None);
    }
    match text.parse::<u64>() {
        Ok(limit) if limit <= MOST_LATE => Some(Some(limit)),
        _ => None,
    }
}

/// What the header of a trace is to have; None leaves a key to what is known of the log.
#[derive(Clone, Copy)]
pub struct HeaderKeys {
    /// The version of the format.
    pub version: Version,
    /// How late a timer may be in microseconds, or not at all.
    pub timer_late: Option<Option<u64>>,
    /// Whether persistent congestion sets the minimum of the round-trip time again.
    pub refresh_min_rtt: Option<bool>,
    /// How far off reports of times can be, in microseconds.
    pub report_slack_us: Option<u64>,
    /// How far off reports of bytes can be.
    pub report_slack_bytes: Option<u64>,
    /// The unit of the trace.
    pub unit: Option<TimeUnit>,
    /// By whose window packets are judged.
    pub controller: Option<Controller>,
    /// Whether packets are sent past the window.
    pub window_overshoot: Option<bool>,
    /// Whether samples are of ack-eliciting packets alone.
    pub sample_eliciting_only: Option<bool>,
    /// The packet threshold.
    pub packet_threshold: Option<u64>,
    /// How early a timer can be, in microseconds.
    pub timer_early_us: Option<u64>,
    /// What becomes of a packet that is so many numbers behind.
    pub loss_by_number: Option<LossByNumber>,
    /// What the packet threshold counts.
    pub threshold_counts: Option<ThresholdCounts>,
    /// Whether persistent congestion resets the estimate.
    pub reset_rtt: Option<bool>,
    /// Whether the latest round-trip time is kept less the peer's delay.
    pub latest_rtt_less_delay: Option<bool>,
    /// The time threshold in eighths of the round-trip time.
    pub time_threshold_eighths: Option<u64>,
    /// Whether a recovery period goes by the order of lines.
    pub recovery_by_order: Option<bool>,
}

/// What the arguments say of the header of a trace in this version of the format.
pub fn keys_in(matches: &ArgMatches<'_>, version: Version) -> HeaderKeys {
    HeaderKeys {
        version,
        timer_late: matches.get_str(TIMER_LATE).and_then(limit_of),
        refresh_min_rtt: answer(matches, REFRESH_MIN_RTT),
        report_slack_us: matches.get_one::<u64>(SLACK_US),
        report_slack_bytes: matches.get_one::<u64>(SLACK_BYTES),
        unit: matches.get_str(UNIT).and_then(TimeUnit::named),
        controller: matches.get_str(WINDOW).and_then(Controller::named),
        window_overshoot: answer(matches, WINDOW_OVERSHOOT),
        sample_eliciting_only: answer(matches, SAMPLE_ELICITING_ONLY),
        packet_threshold: matches.get_one::<u64>(PACKET_THRESHOLD),
        timer_early_us: matches.get_one::<u64>(TIMER_EARLY_US),
        loss_by_number: matches
            .get_str(LOSS_BY_NUMBER)
            .and_then(LossByNumber::named),
        threshold_counts: matches
            .get_str(THRESHOLD_COUNTS)
            .and_then(ThresholdCounts::named),
        reset_rtt: answer(matches, RESET_RTT),
        latest_rtt_less_delay: answer(matches, LATEST_RTT_LESS_DELAY),
        time_threshold_eighths: matches.get_one::<u64>(TIME_THRESHOLD_EIGHTHS),
        recovery_by_order: answer(matches, RECOVERY_BY_ORDER),
    }
}

/// The answer that an option was given, if it was.
fn answer(matches: &ArgMatches<'_>, name: &str) -> Option<bool> {
    match matches.get_str(name) {
        Some("yes") => Some(true),
        Some("no") => Some(false),
        _ => None,
    }
}
