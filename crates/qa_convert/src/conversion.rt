//! The second reading of a log: the lines of its events.
ghost use Rattle.std.specs.Prelude.{◌≡◌, ◌&&◌, ◌∷◌, [], IfOk, OnOk, false, true};
ghost use Rattle.qa_convert.specs.AckDelays.{Answers, decoding_of, is_by_state};
ghost use Rattle.qa_convert.specs.Losing.{Declares};
ghost use Rattle.qa_convert.specs.KeyLines.{OnlyKeys, TellsKeys, keys_by, keys_in, known_by, no_keys};
ghost use Rattle.qa_convert.specs.Rules.{rules_behind, rules_by, rules_of, rules_stated};
ghost use Rattle.qa_convert.specs.Sources.{exponent_of, sources_in};
ghost use Rattle.qa_convert.specs.Timers.{Expires};
ghost use Rattle.qa_convert.specs.Telling.{Writes, next_marks, says_limited, told_in};

use crate::decoding::Decoding;
use crate::dialects::{Absent, Dialect, Limited};
use crate::event::{LoggedEvent, Said};
use crate::groups::{About, Group};
use crate::guess::Guess;
use crate::handshake::{Keys, Turns};
use crate::omission::Limit;
use crate::place::Place;
use crate::rounding::Delays;
use crate::survey::Survey;
use crate::values::Values;
use crate::writing::{NoLine, Writing};
use qa_base::{PerSpace, Role, Space};
use std::alloc::AllocError;

/// The packets of a probe (RFC 9002, section 6.2.4).
pub(crate) const DATAGRAMS_OF_PROBE: u64 = 2;
/// Losses that are later than this behind a packet are those of a timer, in nanoseconds.
const GAP_OF_LOSSES: u64 = 1_000_000;
/// What a program takes on a busy computer, in nanoseconds.
pub(crate) const LATE_BY_PROGRAM: u64 = 10_000_000;

/// What a log says of its sender beside its events, and what is asked of its trace.
#[derive(Clone, Copy)]
pub(crate) struct Terms {
    pub(crate) dialect: Dialect,
    pub(crate) role: Role,
    /// The size of a full datagram.
    pub(crate) datagram: u64,
    /// Whether packets are judged by the window that was reported last.
    pub(crate) is_window_reported: bool,
}

/// What the second reading needs of the first.
#[derive(Clone, Copy)]
pub(crate) struct Known {
    /// Whether timers that expire are logged.
    pub(crate) logs_timers: bool,
    /// Whether sizes are those by which the bytes in flight grow.
    pub(crate) settles_sizes: bool,
    /// How far behind a packet its losses may be logged, in nanoseconds.
    pub(crate) gap: u64,
    pub(crate) delay_exponent: u64,
    /// In nanoseconds.
    pub(crate) max_ack_delay: Option<u64>,
    pub(crate) has_cut_times: bool,
    pub(crate) counts_at_timers: bool,
    pub(crate) turns: Turns,
}

impl Known {
    /// That of a log.
    pub(crate) fn of(dialect: &Dialect, survey: &Survey) -> Known
        ensures { result.delay_exponent ≡ exponent_of (sources_in survey.now) }
    {
        Known {
            logs_timers: dialect.logs_timers.unwrap_or(survey.has_timers),
            settles_sizes: dialect.sizes_by_growth || survey.has_found_sizes,
            gap: if survey.has_milliseconds {
                0
            } else {
                GAP_OF_LOSSES
            },
            delay_exponent: survey.delay_exponent(),
            max_ack_delay: survey.of_peer.max_ack_delay,
            has_cut_times: survey.has_cut_times(),
            counts_at_timers: survey.counts_at_timers,
            turns: Turns::of(survey),
        }
    }
}

/// What a probe timeout still allows.
#[derive(Clone, Copy)]
pub(crate) struct Probe {
    /// In bytes.
    pub(crate) bytes: u64,
    /// Packets, until an acknowledgment comes.
    pub(crate) packets: u64,
    /// When the last timer fired, in nanoseconds.
    pub(crate) time: u64,
}

/// Writes the lines of a trace, group by group.
#[derive(Drop)]
pub(crate) struct Conversion {
    pub(crate) terms: Terms,
    pub(crate) known: Known,
    pub(crate) writing: Writing,
    pub(crate) keys: Keys,
    pub(crate) delays: Delays,
    pub(crate) values: Values,
    /// Whether a sample of the round-trip time was reported.
    pub(crate) has_sample: bool,
    /// Where the last report is.
    pub(crate) values_at: Place,
    /// Whether the sender is limited by its program, by the last state.
    pub(crate) is_app_limited: bool,
    pub(crate) pto_count: u64,
    pub(crate) probe: Probe,
    /// Whether the window fell, and whether a packet came, since the last packet that was sent.
    pub(crate) has_fallen: bool,
    pub(crate) has_come: bool,
    /// When losses were last declared, in nanoseconds.
    pub(crate) last_loss: Option<u64>,
    /// Whether all loss timers found packets at a later time than that of the RFC.
    pub(crate) are_timers_late: Option<bool>,
    /// The window of the last report.
    told_window: Option<u64>,
    /// The largest number of a space that was acknowledged.
    pub(crate) largest: PerSpace<Option<u64>>,
    /// When the last ack-eliciting packet of a space was sent, in nanoseconds.
    pub(crate) last_eliciting: PerSpace<Option<u64>>,
}

impl Conversion {
    /// Before the first group.
    pub(crate) fn new(terms: Terms, survey: &Survey, writing: Writing) -> Conversion
        ensures terms { result.terms ≡ terms }
        ensures writing { result.writing ≡ writing }
        ensures keys { known_by result.keys ≡ no_keys }
        ensures exponent { result.known.delay_exponent ≡ exponent_of (sources_in survey.now) }
        ensures state { result.is_app_limited ≡ false }
    {
        let none = PerSpace {
            initial: None,
            handshake: None,
            app: None,
        };
        Conversion {
            terms,
            known: Known::of(&terms.dialect, survey),
            writing,
            keys: Keys::new(terms.role, survey),
            delays: Delays::new(),
            values: Values::none(),
            has_sample: false,
            values_at: Place::Line(0),
            is_app_limited: false,
            pto_count: 0,
            probe: Probe {
                bytes: 0,
                packets: 0,
                time: 0,
            },
            has_fallen: false,
            has_come: false,
            last_loss: None,
            are_timers_late: None,
            told_window: survey.first_window,
            largest: none,
            last_eliciting: none,
        }
    }

    /// Writes the lines of a group.
    pub(crate) fn write(&mut self, group: Group) -> Result<(), NoLine>
        ensures sent { OnOk result (Writes self.old.known.settles_sizes
            self.old.terms.dialect.sizes_by_growth self.old.keys.retired group.about
            (told_in self.old.writing) (told_in self.new.writing)) }
        ensures lost { OnOk result (Declares self.old.writing.bare group.about
            group.beside.items (told_in self.old.writing) (told_in self.new.writing)) }
        ensures timers { OnOk result (Expires group.about (told_in self.old.writing)
            (told_in self.new.writing)) }
        ensures keys { OnOk result (TellsKeys (keys_in group.about (known_by self.old.keys))
            (told_in self.old.writing) (told_in self.new.writing)) }
        ensures delays { OnOk result (Answers (decoding_of self.old) group.about
            group.beside.items (told_in self.old.writing) (told_in self.new.writing)) }
        ensures rules { OnOk result (rules_of self.new
            ≡ rules_behind group.about group.beside.items (rules_of self.old)) }
    {
        let Group { about, beside } = group;
        match about {
            About::Sent(packets) => self.on_sent(packets, &beside),
            About::Received(packet, lost) => self.on_received(&packet, lost, &beside),
            About::Lost(losses) => self.on_lost(losses, beside),
            About::Expired(at, expiry) => self.on_timer(at, expiry, &beside),
            About::Other(event) => self.on_other(&event),
        }
    }

    /// The log ends.
    pub(crate) fn end(&mut self) -> Result<(), AllocError>
        ensures told { told_in self.new.writing ≡ told_in self.old.writing }
    {
        if self.are_timers_late == Some(true) {
            self.writing.notes.limit(Limit::TimeThreshold)?;
        }
        Ok(())
    }

    /// Writes what an event says that is of no group.
    fn on_other(&mut self, event: &LoggedEvent) -> Result<(), NoLine>
        ensures keys { OnOk result (OnlyKeys
            (keys_by event.now.at.place event.now.said (known_by self.old.keys))
            (told_in self.old.writing) (told_in self.new.writing)) }
        ensures rules { OnOk result (rules_of self.new
            ≡ rules_by event.now (rules_of self.old)) }
    {
        match &event.said {
            Said::KeysCame(space) => self.keys.on_keys_came(&mut self.writing, event.at, *space),
            Said::KeysGone(space) => self.keys.on_keys_gone(&mut self.writing, event.at, *space),
            _ => {
                let window = self.values.bytes.window;
                let is_report = self.take(event);
                self.see_window(window);
                if is_report {
                    self.report(event.at.time)?;
                }
                Ok(())
            }
        }
    }

    /// Takes what is said beside a packet or a timer; whether a report says more than a count of
    /// probe timeouts.
    ///
    /// A report of the count alone says nothing of the rest; one of anything else, that the rest is
    /// as it was.
    pub(crate) fn take_beside(&mut self, beside: &[LoggedEvent]) -> bool
        ensures writing { self.new.writing ≡ self.old.writing }
        ensures rules { rules_of self.new ≡ rules_stated beside.now (rules_of self.old) }
    {
        let window = self.values.bytes.window;
        let mut is_report = false;
        for event in beside {
            is_report = self.take(event) || is_report;
        }
        self.see_window(window);
        is_report
    }

    /// Takes what an event says; whether it is a report of more than a count of probe timeouts.
    fn take(&mut self, event: &LoggedEvent) -> bool
        ensures writing { self.new.writing ≡ self.old.writing }
        ensures rules { rules_of self.new ≡ rules_stated (event.now ∷ []) (rules_of self.old) }
    {
        match &event.said {
            Said::State(is_app_limited) => {
                self.is_app_limited = *is_app_limited;
                false
            }
            Said::UnreadReport => {
                self.values = Values::none();
                self.values_at = event.at.place;
                false
            }
            Said::Report(report) => {
                self.pto_count = report.pto_count.unwrap_or(self.pto_count);
                if report.has_only_pto_count {
                    return false;
                }
                self.values_at = event.at.place;
                self.values = self.values.with(*report, self.terms.dialect.absent);
                true
            }
            _ => false,
        }
    }

    /// Sees whether there was a sample, and whether the window fell.
    fn see_window(&mut self, before: Option<u64>)
        ensures writing { self.new.writing ≡ self.old.writing }
        ensures rules { rules_of self.new ≡ rules_of self.old }
    {
        if self.values.rtts.min.unwrap_or(0) != 0 {
            self.has_sample = true;
        }
        if let (Some(before), Some(window)) = (before, self.values.bytes.window) {
            if window < before {
                self.has_fallen = true;
            }
        }
    }

    /// Bytes in flight that are left out although some left are 0, if 0 is left out.
    pub(crate) fn take_zero(&mut self)
        ensures writing { self.new.writing ≡ self.old.writing }
        ensures rules { rules_of self.new ≡ rules_of self.old }
    {
        if self.terms.dialect.absent == Absent::SameOrZero {
            self.values = self.values.with_zero();
        }
    }

    /// A report of all values that are known. Before a sample a log says 0, or nothing.
    pub(crate) fn report(&mut self, time: u64) -> Result<(), NoLine>
        ensures told { OnOk result (told_in self.new.writing ≡ told_in self.old.writing) }
        ensures bare { OnOk result (self.new.writing.bare ≡ self.old.writing.bare) }
        ensures rules { OnOk result (rules_of self.new ≡ rules_of self.old) }
    {
        let known = if self.has_sample {
            self.values
        } else {
            self.values.without_rtts()
        };
        if known.are_some() {
            self.writing.report(time, self.values_at, known)?;
            self.told_window = known.bytes.window.or(self.told_window);
        }
        Ok(())
    }

    /// A report of the window alone if it is another than the one that was told.
    ///
    /// A log may tell of a change only behind the next packet, which is judged by it.
    pub(crate) fn tell_window(&mut self, time: u64) -> Result<(), NoLine>
        ensures told { OnOk result (told_in self.new.writing ≡ told_in self.old.writing) }
        ensures rules { OnOk result (rules_of self.new ≡ rules_of self.old) }
    {
        let Some(window) = self.values.bytes.window else {
            return Ok(());
        };
        if self.terms.is_window_reported && self.told_window != Some(window) {
            self.writing
                .report(time, self.values_at, Values::of_window(window))?;
            self.told_window = Some(window);
        }
        Ok(())
    }

    /// The space whose probe timeout is the first, if the log does not name it.
    pub(crate) fn probed_space(&self) -> Space {
        let delay = self.known.max_ack_delay.unwrap_or(0);
        let initial = self.due(Space::Initial);
        let handshake = self.due(Space::Handshake);
        let app = match self.due(Space::App) {
            Some(time) if self.keys.is_confirmed => Some(time.saturating_add(delay)),
            _ => None,
        };
        let first = earlier(initial, Space::Initial, handshake, Space::Handshake);
        let found = match first {
            Some((time, space)) => earlier(Some(time), space, app, Space::App),
            None => earlier(None, Space::Initial, app, Space::App),
        };
        match found {
            Some((_, space)) => space,
            None if self.keys.has_keys => Space::Handshake,
            None => Space::Initial,
        }
    }

    /// When the last ack-eliciting packet of a space was sent, if a packet of it is in flight.
    fn due(&self, space: Space) -> Option<u64> {
        if self.writing.flights.of(space).is_empty() {
            None
        } else {
            *self.last_eliciting.of(space)
        }
    }

    /// Whether the sender had not used its window, by that before an acknowledgment.
    pub(crate) fn is_limited(
        &mut self,
        decoding: Decoding,
        before: Option<u64>,
    ) -> Result<bool, AllocError>
        ensures says { IfOk result (λ is_limited.
            (is_by_state decoding.limited && decoding.is_limited) ≡ false
            → says_limited is_limited (next_marks self.new.writing) ≡ true) }
        ensures told { OnOk result (told_in self.new.writing ≡ told_in self.old.writing) }
        ensures rules { OnOk result (rules_of self.new ≡ rules_of self.old) }
    {
        match decoding.limited {
            Limited::ByState => Ok(decoding.is_limited),
            Limited::Never => Ok(false),
            Limited::ByWindow => self.is_limited_by_window(before),
        }
    }

    /// Whether an acknowledgment left the window as it was.
    fn is_limited_by_window(&mut self, before: Option<u64>) -> Result<bool, AllocError>
        ensures says { IfOk result (λ is_limited. says_limited is_limited
            (next_marks self.new.writing) ≡ true) }
        ensures told { OnOk result (told_in self.new.writing ≡ told_in self.old.writing) }
        ensures rules { OnOk result (rules_of self.new ≡ rules_of self.old) }
    {
        if before.is_none() || self.values.bytes.window != before {
            return Ok(false);
        }
        self.writing.guess(Guess::LimitedByWindow)?;
        Ok(true)
    }
}

/// The earlier of two times, with its space; the first of equal ones.
fn earlier(
    first: Option<u64>,
    of_first: Space,
    second: Option<u64>,
    of_second: Space,
) -> Option<(u64, Space)> {
    match (first, second) {
        (Some(here), Some(there)) if there < here => Some((there, of_second)),
        (Some(here), _) => Some((here, of_first)),
        (None, Some(there)) => Some((there, of_second)),
        (None, None) => None,
    }
}

/// The latest time of events, or this one if it is later.
pub(crate) fn latest_of(time: u64, events: &[LoggedEvent]) -> u64 {
    let mut latest = time;
    for event in events {
        latest = latest.max(event.at.time);
    }
    latest
}
