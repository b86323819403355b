//! The header of a trace: what the log says of its sender, what is known of its stack, and what the
//! user of the converter says.
ghost use Rattle.std.specs.Prelude.{◌≡◌, ◌≤◌, ◌⊎◌, ◌&&◌, IfOk, None, OnOk, Option, ℕ, false};
ghost use Rattle.std.specs.Prelude.{true, unwrap_or};
ghost use Rattle.qa_base.specs.declared.space.TimeUnit.TheVariants.{Microseconds};
ghost use Rattle.qa_base.specs.values.Constants.{default_max_ack_delay, minimum_window};
ghost use Rattle.qa_base.specs.values.Limits.{in_range, max_initial_window};
ghost use Rattle.qa_base.specs.values.Limits.{max_time_threshold_eighths};
ghost use Rattle.qa_base.specs.values.Settings as settings;
ghost use Rattle.qa_base.specs.values.Settings.{default_window, fit_version_two, is_reported};
ghost use Rattle.qa_convert.specs.Asking.{Asks, IsAllowed, IsChosen, IsLate, controller_by};
ghost use Rattle.qa_convert.specs.Asking.{eighths_by, is_other as an_is_other, options_in};
ghost use Rattle.qa_convert.specs.Asking.{only_format, threshold_by, unit_of};
ghost use Rattle.qa_convert.specs.Headers.{HeaderSays, IsDelay, IsInitialRtt, IsSize, IsWindow};
ghost use Rattle.qa_convert.specs.Headers.{Keeps, rtt_in as an_rtt_in, rtt_or_default};
ghost use Rattle.qa_convert.specs.Headers.{size_said, window_said};
ghost use Rattle.qa_convert.specs.Sources.{not_zero as a_not_zero, rtt_said, sources_in};
ghost use Rattle.qa_convert.specs.Telling.{told_in, will_say};
ghost use Rattle.qa_convert.specs.declared.guess.Guess.{Guess as AGuess};
ghost use Rattle.qa_convert.specs.declared.header.Format.TheVariants as formats;

use crate::dialects::Dialect;
use crate::guess::Guess;
use crate::omission::Omission;
use crate::output::in_unit_of;
use crate::size::PacketSize;
use crate::survey::{Survey, not_zero};
use crate::validation::LEAST_DATAGRAM;
use crate::writing::Writing;
use qa_base::{
    ConnectionValues, Controller, Header, LossByNumber, Options, RangeFault, Role, ThresholdCounts,
    TimeUnit,
};
use std::alloc::AllocError;
use thiserror::Error;

/// The ranges of a header's keys.
const GREATEST_INITIAL_RTT: u64 = 1_000_000_000_000;

const GREATEST_WINDOW: u64 = 4_294_967_295;
/// The initial round-trip time of RFC 9002, section 6.2.2, in nanoseconds.
const INITIAL_RTT: u64 = 333_000_000;
/// The first probe timeout, in initial round-trip times (RFC 9002, sections 6.2.1 and 6.2.2).
const RTTS_OF_FIRST_TIMEOUT: u64 = 3;
/// How often the smoothed RTT and its variation are in a probe timeout (RFC 9002, section 6.2.1).
const RTTS_OF_TIMEOUT: u64 = 1 + 4;
/// Beyond which count of timeouts a sender has given up.
const MOST_TIMEOUTS: u64 = 32;
/// How late a timer may be if no probe timeout shows, in microseconds: of one that does not show,
/// the next one is late by a probe timeout.
const TIMER_LATE_UNSEEN: u64 = 500_000;
/// A time threshold is in millionths; how a log may round it.
const MILLIONTHS: u64 = 1_000_000;

const ROUNDING_OF_THRESHOLD: u64 = 10_000;

/// The version of the format of traces.
#[derive(Clone, Copy, Debug, PartialEq, Eq, PartialOrd, Ord)]
pub enum Format {
    /// The first.
    One,
    /// With a limit for late timers and slack for reports.
    Two,
    /// With what a sender may choose.
    Three,
}

/// What the user of the converter says of the header; None leaves it to what is known of the log.
#[derive(Clone, Copy)]
pub struct Choices {
    /// The version of the format.
    pub format: Format,
    /// How late a timer may be in microseconds, or not at all.
    pub timer_late: Option<Option<u64>>,
    /// Whether persistent congestion sets the minimum of the round-trip time again.
    pub refresh_min_rtt: Option<bool>,
    /// How far off reports of times can be, in microseconds.
    pub report_slack_us: Option<u64>,
    /// How far off reports of bytes can be.
    pub report_slack_bytes: Option<u64>,
    /// The unit of the trace.
    pub unit: Option<TimeUnit>,
    /// By whose window packets are judged.
    pub controller: Option<Controller>,
    /// Whether packets are sent past the window.
    pub window_overshoot: Option<bool>,
    /// Whether samples are of ack-eliciting packets alone.
    pub sample_eliciting_only: Option<bool>,
    /// The packet threshold.
    pub packet_threshold: Option<u64>,
    /// How early a timer can be, in microseconds.
    pub timer_early_us: Option<u64>,
    /// What becomes of a packet that is so many numbers behind.
    pub loss_by_number: Option<LossByNumber>,
    /// What the packet threshold counts.
    pub threshold_counts: Option<ThresholdCounts>,
    /// Whether persistent congestion resets the estimate.
    pub reset_rtt: Option<bool>,
    /// Whether the latest round-trip time is kept less the peer's delay.
    pub latest_rtt_less_delay: Option<bool>,
    /// The time threshold in eighths of the round-trip time.
    pub time_threshold_eighths: Option<u64>,
    /// Whether a recovery period goes by the order of lines.
    pub recovery_by_order: Option<bool>,
}

/// Why a log has no header.
#[derive(Clone, Copy, Debug, PartialEq, Eq, Error)]
pub enum NoHeader {
    /// Losses may be declared, and the window is not a reported one.
    #[error("its losses may be declared only if it has a reported window")]
    MayOfNewReno,
    /// A value is out of range, which a user said.
    #[error("a key of the header is out of range")]
    OutOfRange,
    /// Out of memory.
    #[error("out of memory")]
    OutOfMemory,
}

impl From<AllocError> for NoHeader {
    fn from(_refused: AllocError) -> Self {
        NoHeader::OutOfMemory
    }
}

impl From<RangeFault> for NoHeader {
    fn from(_fault: RangeFault) -> Self {
        NoHeader::OutOfRange
    }
}

impl Choices {
    /// Those that leave all but the version of the format to what is known of the log.
    pub fn of(format: Format) -> Choices
        ensures { result ≡ only_format format }
    {
        Choices {
            format,
            timer_late: None,
            refresh_min_rtt: None,
            report_slack_us: None,
            report_slack_bytes: None,
            unit: None,
            controller: None,
            window_overshoot: None,
            sample_eliciting_only: None,
            packet_threshold: None,
            timer_early_us: None,
            loss_by_number: None,
            threshold_counts: None,
            reset_rtt: None,
            latest_rtt_less_delay: None,
            time_threshold_eighths: None,
            recovery_by_order: None,
        }
    }

    /// The unit of the trace.
    pub(crate) fn unit(&self, dialect: &Dialect, survey: &Survey) -> TimeUnit
        ensures { result ≡ unit_of self.now dialect.now (sources_in survey.now) }
    {
        if self.format < Format::Three {
            return TimeUnit::Microseconds;
        }
        let by_log = if survey.has_nanoseconds {
            TimeUnit::Nanoseconds
        } else {
            TimeUnit::Microseconds
        };
        self.unit.unwrap_or(dialect.unit.unwrap_or(by_log))
    }

    /// By whose window packets are judged. By which controller a sender has its window is its own
    /// choice (RFC 9002, section 7).
    pub(crate) fn controller(&self, dialect: &Dialect, survey: &Survey) -> Controller
        ensures { result ≡ unwrap_or self.now.controller
            (controller_by dialect.now (sources_in survey.now)) }
    {
        let by_log = if survey.has_window || dialect.hides_window {
            Controller::Reported
        } else {
            Controller::NewReno
        };
        self.controller.unwrap_or(by_log)
    }

    /// The options of the versions behind the first.
    pub(crate) fn options(
        &self,
        dialect: &Dialect,
        survey: &Survey,
        writing: &mut Writing,
    ) -> Result<Options, NoHeader>
        ensures first { IfOk result (λ options. self.now.format ≡ formats.One
            → is_reported options.controller ≡ false) }
        ensures asks { IfOk result (λ options. Asks self.now.format self.now dialect.now
            (sources_in survey.now) (options_in self.now.format options)) }
        ensures says_more { OnOk result ((g : AGuess) → will_say writing.old g ≡ true
            → will_say writing.new g ≡ true) }
        ensures told { OnOk result (told_in writing.new ≡ told_in writing.old) }
        ensures unit { OnOk result (writing.new.output.unit ≡ writing.old.output.unit) }
    {
        let timer_late = match self.timer_late {
            Some(late) => late,
            None => limit_of(dialect, survey, writing)?,
        };
        let options = Options {
            timer_late,
            refresh_min_rtt: self.refresh_min_rtt.unwrap_or(false),
            report_slack_us: self.report_slack_us.unwrap_or(dialect.slack_us),
            report_slack_bytes: self.report_slack_bytes.unwrap_or(dialect.slack_bytes),
            ..Options::default()
        };
        if self.format < Format::Three {
            return Ok(options);
        }
        let controller = self.controller(dialect, survey);
        if controller != Controller::Reported && self.loss_by_number == Some(LossByNumber::May) {
            return Err(NoHeader::MayOfNewReno);
        }
        Ok(self.with_choices(options, controller, dialect, survey))
    }

    /// Options with what version 3 says.
    fn with_choices(
        &self,
        options: Options,
        controller: Controller,
        dialect: &Dialect,
        survey: &Survey,
    ) -> Options
        requires { controller ≡ unwrap_or self.now.controller
            (controller_by dialect.now (sources_in survey.now)) }
        ensures allowed { IsAllowed self.now dialect.now options
            → IsAllowed self.now dialect.now result }
        ensures chosen { IsChosen self.now dialect.now (sources_in survey.now) result }
    {
        let may = dialect.may_spare && controller == Controller::Reported;
        let by_order = dialect.recovery_by_order || survey.has_milliseconds;
        let overshoot = self.window_overshoot.unwrap_or(dialect.window_overshoot);
        let eliciting = dialect.sample_eliciting_only;
        Options {
            controller,
            window_overshoot: overshoot,
            sample_eliciting_only: self.sample_eliciting_only.unwrap_or(eliciting),
            packet_threshold: self
                .packet_threshold
                .unwrap_or(threshold_of(dialect, survey)),
            timer_early_us: self.timer_early_us.unwrap_or(dialect.timer_early_us),
            loss_by_number: self.loss_by_number.unwrap_or(if may {
                LossByNumber::May
            } else {
                LossByNumber::Must
            }),
            threshold_counts: self.threshold_counts.unwrap_or(if dialect.counts_packets {
                ThresholdCounts::Packets
            } else {
                ThresholdCounts::Numbers
            }),
            reset_rtt: self.reset_rtt.unwrap_or(survey.has_reset_rtt()),
            latest_rtt_less_delay: self
                .latest_rtt_less_delay
                .unwrap_or(dialect.latest_rtt_less_delay),
            time_threshold_eighths: self
                .time_threshold_eighths
                .unwrap_or(eighths_of(dialect, survey)),
            recovery_by_order: self.recovery_by_order.unwrap_or(by_order),
            ..options
        }
    }

    /// The header of a log, in the unit in which its lines are written.
    pub(crate) fn header(
        &self,
        role: Role,
        dialect: &Dialect,
        survey: &Survey,
        writing: &mut Writing,
    ) -> Result<Header, NoHeader>
        requires { writing.old.output.unit ≡ unit_of self.now dialect.now (sources_in survey.now) }
        ensures says_more { OnOk result ((g : AGuess) → will_say writing.old g ≡ true
            → will_say writing.new g ≡ true) }
        ensures told { OnOk result (told_in writing.new ≡ told_in writing.old) }
        ensures unit { OnOk result (writing.new.output.unit ≡ writing.old.output.unit) }
        ensures role { IfOk result (λ header. header.role ≡ role) }
        ensures says { IfOk result (HeaderSays self.now dialect.now (sources_in survey.now)
            (will_say writing.new)) }
    {
        let unit = writing.output.unit;
        let options = self.options(dialect, survey, writing)?;
        let size = datagram_size_of(dialect, survey, writing)?;
        let values = ConnectionValues {
            role,
            max_datagram_size: size,
            max_ack_delay: max_ack_delay_of(survey, writing)?,
            initial_rtt: initial_rtt_of(dialect, survey, writing)?,
            initial_window: window_of(dialect, survey, writing, options.controller, size)?,
        };
        if Format::Three <= self.format && !survey.has_window && !options.controller.is_reported() {
            writing.guess(Guess::NoWindow)?;
        }
        Ok(self.made(unit, values, options)?)
    }

    /// A header of these values and options, in the version of the format.
    fn made(
        &self,
        unit: TimeUnit,
        values: ConnectionValues,
        options: Options,
    ) -> Result<Header, RangeFault>
        requires unit { self.now.format ≡ formats.Three ⊎ unit ≡ Microseconds }
        requires fits { self.now.format ≡ formats.Two → fit_version_two options ≡ true }
        ensures { IfOk result (Keeps self.now.format unit values options) }
    {
        let header = Header::in_unit(unit, values)?;
        match self.format {
            Format::One => Ok(header),
            Format::Two => header.with(options),
            Format::Three => header.choosing(options),
        }
    }
}

/// The packet threshold that the log says, if a header can say it, else that of the dialect.
fn threshold_of(dialect: &Dialect, survey: &Survey) -> u64
    ensures { result ≡ threshold_by dialect.now (sources_in survey.now) }
{
    match survey.recovery.packet_threshold {
        Some(threshold) if 3 <= threshold && threshold <= 65_535 => threshold,
        _ => dialect.packet_threshold,
    }
}

/// The time threshold in eighths that the log says, if a header can say it, else that of the
/// dialect.
fn eighths_of(dialect: &Dialect, survey: &Survey) -> u64
    ensures { result ≡ eighths_by dialect.now (sources_in survey.now) }
{
    let Some(threshold) = survey.recovery.time_threshold else {
        return dialect.time_threshold_eighths;
    };
    let eighths = threshold.saturating_mul(8).saturating_add(MILLIONTHS / 2) / MILLIONTHS;
    if 9 <= eighths && eighths <= 32 && !is_other(threshold, eighths) {
        eighths
    } else {
        dialect.time_threshold_eighths
    }
}

/// Whether a time threshold in millionths is another than this many eighths, however a log rounds
/// it.
pub(crate) fn is_other(threshold: u64, eighths: u64) -> bool
    ensures { eighths ≤ max_time_threshold_eighths → result ≡ an_is_other threshold eighths }
{
    let here = threshold.saturating_mul(8);
    let there = eighths.saturating_mul(MILLIONTHS);
    let off = if here < there {
        there - here
    } else {
        here - there
    };
    8 * ROUNDING_OF_THRESHOLD < off
}

/// How late a timer may be, in microseconds, if the log lets it be judged.
fn limit_of(
    dialect: &Dialect,
    survey: &Survey,
    writing: &mut Writing,
) -> Result<Option<u64>, AllocError>
    ensures says_more { OnOk result ((g : AGuess) → will_say writing.old g ≡ true
        → will_say writing.new g ≡ true) }
    ensures told { OnOk result (told_in writing.new ≡ told_in writing.old) }
    ensures unit { OnOk result (writing.new.output.unit ≡ writing.old.output.unit) }
    ensures late { IfOk result (λ (late : Option ℕ). IsLate None dialect.now.timer_late_us late) }
{
    let by_packets = dialect.probes_by_ping || dialect.probes_by_room || dialect.probes_by_trigger;
    let logs_timers = dialect.logs_timers.unwrap_or(false) || survey.has_timers;
    let mut limit = dialect.timer_late_us;
    if !by_packets && !logs_timers && survey.highest_pto_count.is_none() {
        limit = limit.max(TIMER_LATE_UNSEEN);
        writing.find_unseen(limit)?;
    }
    let off = deadline_is_off_by(dialect, survey);
    if limit < off {
        limit = off;
        writing.find_off(survey.highest_pto_count.unwrap_or(0), limit)?;
    }
    if is_past(dialect, survey, limit) {
        writing.omit(Omission::Limit)?;
        return Ok(None);
    }
    Ok(Some(limit))
}

/// By how much the deadline of the last probe timeout in a row can be off in a log of whole
/// milliseconds, in microseconds: each round-trip time in it is off by the slack at most.
fn deadline_is_off_by(dialect: &Dialect, survey: &Survey) -> u64 {
    let count = survey.highest_pto_count.unwrap_or(0).min(MOST_TIMEOUTS);
    if !survey.has_milliseconds || count == 0 {
        return 0;
    }
    let mut off = dialect.slack_us.saturating_mul(RTTS_OF_TIMEOUT);
    for _ in 1..count {
        off = off.saturating_mul(2);
    }
    off
}

/// Whether a server that may not send is silent for longer than a probe timeout and a limit.
fn is_past(dialect: &Dialect, survey: &Survey, limit: u64) -> bool {
    let said = survey.initial_rtt().or(survey.first_smoothed).unwrap_or(0);
    let rtt = if said != 0 {
        said
    } else {
        match dialect.initial_rtt {
            Some(microseconds) => microseconds.saturating_mul(1_000),
            None => INITIAL_RTT,
        }
    };
    let first = rtt.saturating_mul(RTTS_OF_FIRST_TIMEOUT);
    let early = survey.validation.longest_silence.saturating_sub(first);
    let late = early.max(survey.validation.longest_silence_behind_ack);
    limit.saturating_mul(1_000) < late
}

/// The peer's `max_ack_delay` in the unit of the trace, if the log says it.
fn max_ack_delay_of(survey: &Survey, writing: &mut Writing) -> Result<Option<u64>, AllocError>
    ensures says_more { OnOk result ((g : AGuess) → will_say writing.old g ≡ true
        → will_say writing.new g ≡ true) }
    ensures told { OnOk result (told_in writing.new ≡ told_in writing.old) }
    ensures unit { OnOk result (writing.new.output.unit ≡ writing.old.output.unit) }
    ensures delay { IfOk result (λ (delay : Option ℕ). IsDelay writing.old.output.unit
        survey.now.of_peer.max_ack_delay (will_say writing.new) (unwrap_or delay
        (settings.in_unit writing.old.output.unit default_max_ack_delay))) }
{
    match survey.of_peer.max_ack_delay {
        Some(delay) => Ok(Some(writing.output.in_unit(delay))),
        None => {
            writing.guess(Guess::NoMaxAckDelay)?;
            Ok(None)
        }
    }
}

/// The round-trip time before a sample in the unit of the trace, if something says one that a
/// header can say.
fn initial_rtt_of(
    dialect: &Dialect,
    survey: &Survey,
    writing: &mut Writing,
) -> Result<Option<u64>, AllocError>
    ensures says_more { OnOk result ((g : AGuess) → will_say writing.old g ≡ true
        → will_say writing.new g ≡ true) }
    ensures told { OnOk result (told_in writing.new ≡ told_in writing.old) }
    ensures unit { OnOk result (writing.new.output.unit ≡ writing.old.output.unit) }
    ensures rtt { IfOk result (λ (rtt : Option ℕ). IsInitialRtt writing.old.output.unit
        (a_not_zero (rtt_said (sources_in survey.now)))
        dialect.now.initial_rtt survey.now.first_smoothed (will_say writing.new)
        (rtt_or_default writing.old.output.unit rtt)) }
{
    if let Some(said) = not_zero(survey.initial_rtt()) {
        return Ok(rtt_in(writing.output.unit, said));
    }
    if let Some(microseconds) = dialect.initial_rtt {
        writing.guess(Guess::InitialRtt)?;
        let nanoseconds = microseconds.saturating_mul(1_000);
        return Ok(rtt_in(writing.output.unit, nanoseconds));
    }
    match survey.first_smoothed {
        Some(smoothed) => Ok(rtt_in(writing.output.unit, smoothed)),
        None => Ok(None),
    }
}

/// A round-trip time in the unit of a trace, if a header can say it.
fn rtt_in(unit: TimeUnit, nanoseconds: u64) -> Option<u64>
    ensures { result ≡ an_rtt_in unit nanoseconds }
{
    let rtt = in_unit_of(unit, nanoseconds);
    if rtt == 0 || GREATEST_INITIAL_RTT < nanoseconds {
        None
    } else {
        Some(rtt)
    }
}

/// The first window, if something says one that a header can say.
fn window_of(
    dialect: &Dialect,
    survey: &Survey,
    writing: &mut Writing,
    controller: Controller,
    size: u64,
) -> Result<Option<u64>, AllocError>
    ensures says_more { OnOk result ((g : AGuess) → will_say writing.old g ≡ true
        → will_say writing.new g ≡ true) }
    ensures told { OnOk result (told_in writing.new ≡ told_in writing.old) }
    ensures unit { OnOk result (writing.new.output.unit ≡ writing.old.output.unit) }
    ensures window { IfOk result (λ (window : Option ℕ).
        IsWindow (dialect.now.hides_window && is_reported controller) size
        (window_said (sources_in survey.now)) (will_say writing.new)
        (unwrap_or window (default_window size))) }
{
    if dialect.hides_window && controller.is_reported() {
        writing.guess(Guess::HiddenWindow)?;
        return Ok(window_in(size, GREATEST_WINDOW));
    }
    match survey.recovery.initial_window.or(survey.first_window) {
        Some(window) => Ok(window_in(size, window)),
        None => Ok(None),
    }
}

/// A first window, if a header of datagrams of this size can say it.
fn window_in(size: u64, window: u64) -> Option<u64>
    ensures { result ≡ in_range (minimum_window size) max_initial_window window }
{
    if size.saturating_mul(2) <= window && window <= GREATEST_WINDOW {
        Some(window)
    } else {
        None
    }
}

/// The size of datagrams, as the log says it or by what it has.
fn datagram_size_of(
    dialect: &Dialect,
    survey: &Survey,
    writing: &mut Writing,
) -> Result<u64, AllocError>
    ensures says_more { OnOk result ((g : AGuess) → will_say writing.old g ≡ true
        → will_say writing.new g ≡ true) }
    ensures told { OnOk result (told_in writing.new ≡ told_in writing.old) }
    ensures unit { OnOk result (writing.new.output.unit ≡ writing.old.output.unit) }
    ensures size { IfOk result (IsSize (size_said survey.now.recovery.max_datagram_size)
        (will_say writing.new)) }
{
    let said = survey.recovery.max_datagram_size.unwrap_or(0);
    if LEAST_DATAGRAM <= said && said <= PacketSize::MAX {
        return Ok(said);
    }
    let (size, guess) = survey.max_datagram_size(dialect.initial_datagrams);
    writing.guess(guess)?;
    Ok(size)
}
