//! What the arguments ask of the trace of a log.

ghost use Rattle.std.specs.Prelude.{◌≡◌};

use qa_arguments::qlog::{ConversionRequest, HeaderKeys};
use qa_base::Version;
use qa_convert::{Choices, Format, dialect_named};
use qa_logs::Request;

/// Which log is converted, and how.
#[derive(Clone, Copy)]
pub struct Conversion<'a> {
    /// The name of its file; None for standard input.
    pub file: Option<&'a str>,
    /// What is asked of its trace.
    pub request: Request,
}

impl<'a> Conversion<'a> {
    /// The conversion that arguments ask for.
    pub fn of(asked: &ConversionRequest<'a>) -> Conversion<'a>
        ensures file { result.file ≡ asked.now.file }
        ensures vantage { result.request.vantage ≡ asked.now.vantage }
        ensures connection { result.request.connection ≡ asked.now.connection }
        ensures places { result.request.has_places ≡ asked.now.has_places }
    {
        Conversion {
            file: asked.file,
            request: Request {
                vantage: asked.vantage,
                connection: asked.connection,
                dialect: asked.dialect.and_then(|name| dialect_named(name)),
                choices: choices_of(&asked.keys),
                has_places: asked.has_places,
            },
        }
    }
}

/// What is said of the header.
fn choices_of(keys: &HeaderKeys) -> Choices {
    Choices {
        format: format_of(keys.version),
        timer_late: keys.timer_late,
        refresh_min_rtt: keys.refresh_min_rtt,
        report_slack_us: keys.report_slack_us,
        report_slack_bytes: keys.report_slack_bytes,
        unit: keys.unit,
        controller: keys.controller,
        window_overshoot: keys.window_overshoot,
        sample_eliciting_only: keys.sample_eliciting_only,
        packet_threshold: keys.packet_threshold,
        timer_early_us: keys.timer_early_us,
        loss_by_number: keys.loss_by_number,
        threshold_counts: keys.threshold_counts,
        reset_rtt: keys.reset_rtt,
        latest_rtt_less_delay: keys.latest_rtt_less_delay,
        time_threshold_eighths: keys.time_threshold_eighths,
        recovery_by_order: keys.recovery_by_order,
    }
}

/// The format of this version.
fn format_of(version: Version) -> Format {
    match version {
        Version::One => Format::One,
        Version::Two => Format::Two,
        Version::Three => Format::Three,
    }
}
