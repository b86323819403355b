//! The first reading of a log: what has to be known before the first line is written.
ghost use Rattle.std.specs.Prelude.{◌≡◌, ◌||◌, IfErr, List, None, OnOk, Option, ℕ, false, option_map};
ghost use Rattle.std.specs.Prelude.{true};
ghost use Rattle.json.specs.Json.{Json};
ghost use Rattle.json.specs.Find.{Finds};
ghost use Rattle.qa_convert.specs.Faults.{IsUnsized, OrMemory};
ghost use Rattle.qa_convert.specs.Groups.{has_some};
ghost use Rattle.qa_convert.specs.Guesses.{is_of_datagram};
ghost use Rattle.qa_convert.specs.Orders.{is_received, is_sent};
ghost use Rattle.qa_convert.specs.Sources.{both_said, both_set, came, destined, exponent_of};
ghost use Rattle.qa_convert.specs.Sources.{has_acks, is_elsewhere as an_is_elsewhere, no_sources};
ghost use Rattle.qa_convert.specs.Sources.{none_set, not_zero as a_not_zero, numbered, reported};
ghost use Rattle.qa_convert.specs.Sources.{reported_first, rtt_said, said_by, sources_by};
ghost use Rattle.qa_convert.specs.Sources.{sources_in, timed};
ghost use Rattle.qa_qlog.specs.Lengths.{destination as a_destination};
ghost use Rattle.qa_convert.specs.declared.event.At.{At as AnAt};
ghost use Rattle.qa_convert.specs.declared.event.Said.TheVariants as a_said;

use crate::dialects::Dialect;
use crate::event::{At, LoggedEvent, PeerParameters, RecoveryParameters, Report, Said};
use crate::guess::Guess;
use crate::looking::{Looking, MILLISECOND};
use crate::packet::{LoggedAck, LoggedPacket, NoEvent};
use crate::place::Place;
use crate::size::PacketSize;
use crate::sizes::Sizes;
use crate::validation::{LEAST_DATAGRAM, Validation};
use qa_base::{PerSpace, Role, Space};
use qa_qlog::{Key, NoValue, Packet};
use std::alloc::{AllocError, Global};
use thiserror::Error;

/// What fits in an Ethernet frame. A part of the window that is larger, and than each packet too,
/// is of a window of more datagrams.
const USUAL_DATAGRAM: u64 = 1_500;
/// By how many bits a delay on the wire is shifted, if its sender does not say (RFC 9000, section
/// 18.2).
const DEFAULT_DELAY_EXPONENT: u64 = 3;

/// The Retry that a client took in, behind which its trace begins (RFC 9002, section 6.3).
#[derive(Clone, Copy)]
pub(crate) struct Retry {
    /// The index of the first record behind it.
    pub(crate) first: u64,
    /// Where it is, or what shows it.
    pub(crate) place: Place,
    /// Whether the log has it.
    pub(crate) is_logged: bool,
    /// The last numbers that were sent before it.
    pub(crate) numbers: PerSpace<Option<u64>>,
    /// The round-trip time that the sender may assume from there on (RFC 9002, section 6.3), in
    /// nanoseconds, if the log does not say another one since.
    pub(crate) rtt: Option<u64>,
}

/// Why a log gives no trace.
#[derive(Clone, Copy, Debug, PartialEq, Eq, Error)]
pub enum NoSurvey {
    /// No packet of a space was sent, or none with a size.
    #[error("no packet_sent of a QUIC packet with a size")]
    NothingSent,
    /// No packet that was sent has its frames.
    #[error("each packet_sent is without its frames: which packets are ack-eliciting is not in \
        this log, so it gives no trace")]
    NoFramesSent,
    /// No packet that came has its frames.
    #[error("each packet_received is without its frames: no acknowledgment is in this log, so it \
        gives no trace")]
    NoFramesReceived,
}

/// Whether packets have their frames.
#[derive(Clone, Copy)]
struct WithFrames {
    some: bool,
    others: bool,
}

/// The smoothed RTT and its variation that a report has, in nanoseconds.
#[derive(Clone, Copy, PartialEq, Eq)]
struct Pair {
    smoothed: Option<u64>,
    variance: Option<u64>,
}

/// Whether persistent congestion reset the round-trip times.
#[derive(Clone, Copy)]
struct Reset {
    may_be: bool,
    /// The values before a sample.
    first: Option<Pair>,
    /// Whether they were others since.
    has_others: bool,
    /// Whether they came back.
    is_seen: bool,
}

/// What the header and the second reading need. All packets are checked here.
#[derive(Drop)]
pub(crate) struct Survey {
    role: Role,
    pub(crate) sizes: Sizes,
    /// Whether a size was found by other values.
    pub(crate) has_found_sizes: bool,
    pub(crate) looking: Looking,
    pub(crate) validation: Validation,
    pub(crate) retry: Option<Retry>,
    last_numbers: PerSpace<Option<u64>>,
    /// Where Initial packets go, as long as none has come.
    destination: Option<String>,
    /// The round-trip time so far, in nanoseconds.
    smoothed: u64,
    /// Whether each time is a whole millisecond, and whether one is no whole microsecond.
    pub(crate) has_milliseconds: bool,
    pub(crate) has_nanoseconds: bool,
    pub(crate) of_peer: PeerParameters,
    pub(crate) recovery: RecoveryParameters,
    /// In nanoseconds.
    pub(crate) first_smoothed: Option<u64>,
    reset: Reset,
    pub(crate) first_window: Option<u64>,
    pub(crate) largest_size: u64,
    /// Whether the count of probe timeouts follows a timer at once.
    pub(crate) counts_at_timers: bool,
    is_behind_timer: bool,
    /// Whether the log names as lost what probes repeat.
    pub(crate) has_repeats: bool,
    /// The spaces of whose discard the log tells.
    pub(crate) retired: PerSpace<bool>,
    pub(crate) has_timers: bool,
    /// The highest count of probe timeouts, if it counts them.
    pub(crate) highest_pto_count: Option<u64>,
    pub(crate) has_window: bool,
    /// Whether packets were marked by ECN-CE, and whether the peer was asked for another delay.
    pub(crate) has_marks: bool,
    pub(crate) has_ack_frequency: bool,
    /// Indexes of records.
    pub(crate) first_handshake_received: Option<u64>,
    pub(crate) handshake_done: Option<u64>,
    pub(crate) last_crypto_before_done: Option<u64>,
    has_received: bool,
    has_ack: bool,
    sent_frames: WithFrames,
    received_frames: WithFrames,
}

impl Survey {
    /// Before the first event of an endpoint. Takes no memory.
    pub(crate) fn new(alloc: Global, dialect: &Dialect, role: Role) -> Survey
        ensures { sources_in result ≡ no_sources role }
    {
        let none = PerSpace {
            initial: None,
            handshake: None,
            app: None,
        };
        let no_frames = WithFrames {
            some: false,
            others: false,
        };
        Survey {
            role,
            sizes: Sizes::new(alloc, dialect.full_packet),
            has_found_sizes: false,
            looking: Looking::new(alloc),
            validation: Validation::new(role),
            retry: None,
            last_numbers: none,
            destination: None,
            smoothed: 0,
            has_milliseconds: true,
            has_nanoseconds: false,
            of_peer: PeerParameters {
                max_ack_delay: None,
                ack_delay_exponent: None,
            },
            recovery: RecoveryParameters::none(),
            first_smoothed: None,
            reset: Reset {
                may_be: dialect.may_reset_rtt,
                first: None,
                has_others: false,
                is_seen: false,
            },
            first_window: None,
            largest_size: 0,
            counts_at_timers: false,
            is_behind_timer: false,
            has_repeats: false,
            retired: PerSpace {
                initial: false,
                handshake: false,
                app: false,
            },
            has_timers: false,
            highest_pto_count: None,
            has_window: false,
            has_marks: false,
            has_ack_frequency: false,
            first_handshake_received: None,
            handshake_done: None,
            last_crypto_before_done: None,
            has_received: false,
            has_ack: false,
            sent_frames: no_frames,
            received_frames: no_frames,
        }
    }

    /// Looks at the next event, and at what its record says of a packet.
    pub(crate) fn see(
        &mut self,
        alloc: Global,
        event: &LoggedEvent,
        said: &Packet<'_, '_>,
    ) -> Result<(), NoEvent>
        ensures sources { (h d : Option Json) → Finds said.now.header h
            → Finds said.now.object d → OnOk result (sources_in self.new
            ≡ sources_by (a_destination h d) event.now (sources_in self.old)) }
        ensures fault { IfErr result (OrMemory (λ _. IsUnsized event.now.said)) }
    {
        self.see_time(event.at.time);
        let is_looked_at = self.looking.goes_on();
        match &event.said {
            Said::Sent(packet) => {
                self.is_behind_timer = false;
                self.see_destination(alloc, event.at, packet, said)?;
                let size = self.see_sent(event.at, packet, said)?;
                if is_looked_at {
                    self.looking.see_sent(event.at, packet, size)?;
                }
                Ok(())
            }
            Said::Received(packet) => {
                self.is_behind_timer = false;
                self.see_received(event.at, packet, said);
                if is_looked_at {
                    self.looking.see_received(event.at, packet);
                }
                Ok(())
            }
            other => {
                self.see_other(event.at, other);
                if is_looked_at {
                    self.look_at_other(event.at, other)?;
                }
                Ok(())
            }
        }
    }

    /// Looks at a time.
    fn see_time(&mut self, time: u64)
        ensures { sources_in self.new ≡ timed time (sources_in self.old) }
    {
        if time % MILLISECOND != 0 {
            self.has_milliseconds = false;
        }
        if time % 1_000 != 0 {
            self.has_nanoseconds = true;
        }
    }

    /// Looks at an event that is no packet of a space.
    fn see_other(&mut self, at: At, said: &Said)
        ensures { is_sent said.now ≡ false → is_received said.now ≡ false
            → (to : Option (List ℕ))
            → sources_in self.new ≡ said_by said.now at to (sources_in self.old) }
    {
        match said {
            Said::OtherSent => self.is_behind_timer = false,
            Said::OtherReceived(is_retry) => self.see_other_received(at, *is_retry),
            Said::Lost(lost) => self.has_repeats = self.has_repeats || lost.is_repeated,
            Said::Report(report) => self.see_report(*report),
            Said::KeysGone(Some(space)) => *self.retired.of_mut(*space) = true,
            Said::Expired(_) => {
                self.has_timers = true;
                self.is_behind_timer = true;
                self.validation.see_timer(at.time);
            }
            Said::OfPeer(parameters) => self.of_peer = parameters.behind(self.of_peer),
            Said::Recovery(parameters) => self.see_recovery(*parameters),
            _ => {}
        }
    }

    /// Looks at parameters of recovery.
    fn see_recovery(&mut self, parameters: RecoveryParameters)
        ensures { (at : AnAt) → (to : Option (List ℕ)) → sources_in self.new
            ≡ said_by (a_said.Recovery parameters) at to (sources_in self.old) }
    {
        self.recovery = parameters.behind(self.recovery);
        if parameters.initial_rtt.is_none() {
            return;
        }
        if let Some(retry) = self.retry {
            self.retry = Some(Retry { rtt: None, ..retry });
        }
    }

    /// Counts with an event that is no packet of a space.
    fn look_at_other(&mut self, at: At, said: &Said) -> Result<(), AllocError>
        ensures { sources_in self.new ≡ sources_in self.old }
    {
        match said {
            Said::Lost(lost) if !lost.is_repeated => self.looking.see_lost(at.time, *lost),
            Said::Report(report) => {
                self.looking.see_report(*report);
                Ok(())
            }
            Said::KeysGone(Some(space)) => {
                self.looking.see_gone(*space);
                Ok(())
            }
            _ => Ok(()),
        }
    }

    /// Looks at a packet of no space that came. A client takes in one Retry at most (RFC 9000,
    /// section 17.2.5.2).
    fn see_other_received(&mut self, at: At, is_retry: bool)
        ensures { sources_in self.new ≡ came self.old.role is_retry at (sources_in self.old) }
    {
        self.is_behind_timer = false;
        if is_retry && self.role == Role::Client && self.retry.is_none() {
            self.retry = Some(Retry {
                first: at.index.saturating_add(1),
                place: at.place,
                is_logged: true,
                numbers: self.last_numbers,
                rtt: None,
            });
        }
    }

    /// Looks at a packet that was sent; its size, which another value may say.
    fn see_sent(
        &mut self,
        at: At,
        packet: &LoggedPacket,
        said: &Packet<'_, '_>,
    ) -> Result<PacketSize, NoEvent>
        ensures sources { sources_in self.new ≡ numbered packet.now (sources_in self.old) }
        ensures fault { IfErr result (λ _. packet.now.size ≡ None) }
    {
        *self.last_numbers.of_mut(packet.space) = Some(packet.number.get());
        self.sent_frames.see(said);
        let size = match packet.size {
            Some(size) => size,
            None => self.find_size(said, packet.space)?,
        };
        self.largest_size = self.largest_size.max(size.get());
        if packet.content.has_ack_frequency {
            self.has_ack_frequency = true;
        }
        if packet.content.has_handshake_done {
            self.handshake_done = self.handshake_done.or(Some(at.index));
        }
        self.validation.see_sent(at.time, packet, size.get());
        Ok(size)
    }

    /// The size of a packet of this space whose record does not have it.
    fn find_size(&mut self, said: &Packet<'_, '_>, space: Space) -> Result<PacketSize, NoEvent>
        ensures { sources_in self.new ≡ sources_in self.old }
    {
        match self.sizes.see(said, space)? {
            Some(found) => {
                self.has_found_sizes = true;
                Ok(found.size)
            }
            None => Err(NoEvent::Unread(NoValue::Missing(Key::Length))),
        }
    }

    /// Looks at where a packet goes. A client that sends Initial packets elsewhere before a packet
    /// came has taken in a Retry (RFC 9000, section 7.2).
    fn see_destination(
        &mut self,
        alloc: Global,
        at: At,
        packet: &LoggedPacket,
        said: &Packet<'_, '_>,
    ) -> Result<(), AllocError>
        ensures { (h d : Option Json) → Finds said.now.header h → Finds said.now.object d
            → OnOk result (sources_in self.new ≡ destined self.old.role packet.now.space
            self.old.has_received at (a_destination h d) (sources_in self.old)) }
    {
        if packet.space != Space::Initial || self.role != Role::Client || self.has_received {
            return Ok(());
        }
        let found = said.destination();
        if self.is_elsewhere(found) && self.retry.is_none() {
            self.retry = Some(Retry {
                first: at.index,
                place: at.place,
                is_logged: false,
                numbers: self.last_numbers,
                rtt: not_zero(Some(self.smoothed)),
            });
        }
        self.destination = match found {
            Some(text) => Some(String::from_str(alloc, text)?),
            None => None,
        };
        Ok(())
    }

    /// Whether a destination is another than that of the packet before, which had one.
    fn is_elsewhere(&self, found: Option<&str>) -> bool
        ensures { result ≡ an_is_elsewhere (sources_in self.now).destination
            (option_map (λ s. s.now) found.entry) }
    {
        match (&self.destination, found) {
            (Some(before), Some(text)) => before.as_str() != text,
            (Some(_), None) => true,
            (None, _) => false,
        }
    }

    /// Looks at a packet that came.
    fn see_received(&mut self, at: At, packet: &LoggedPacket, said: &Packet<'_, '_>)
        ensures { sources_in self.new ≡ record (sources_in self.old) {
          has_received = true;
          has_ack = self.old.has_ack || has_acks packet.now;
        } }
    {
        self.has_received = true;
        self.received_frames.see(said);
        self.see_acks(&packet.acks);
        self.validation.see_received(at.time, packet, said);
        if packet.space != Space::Handshake {
            return;
        }
        self.first_handshake_received = self.first_handshake_received.or(Some(at.index));
        if self.handshake_done.is_none() && packet.content.has_crypto {
            self.last_crypto_before_done = Some(at.index);
        }
    }

    /// Looks at the ACK frames of a packet that came.
    fn see_acks(&mut self, acks: &[LoggedAck])
        ensures { sources_in self.new ≡ record (sources_in self.old) {
          has_ack = self.old.has_ack || has_some acks.now;
        } }
    {
        if acks.is_empty() {
            return;
        }
        self.has_ack = true;
        if acks.iter().any(|ack| ack.has_marks) {
            self.has_marks = true;
        }
    }

    /// Looks at a report.
    fn see_report(&mut self, report: Report)
        ensures { sources_in self.new ≡ reported report (sources_in self.old) }
    {
        self.has_window = self.has_window || report.bytes.window.is_some();
        if let Some(count) = report.pto_count {
            self.highest_pto_count = Some(count.max(self.highest_pto_count.unwrap_or(0)));
            self.counts_at_timers = self.counts_at_timers || self.is_behind_timer;
        }
        if self.has_ack {
            self.reset.see(report);
        } else {
            self.see_first(report);
        }
    }

    /// Looks at a report before an acknowledgment came. One with a sample may be in front of the
    /// packet that gave it.
    fn see_first(&mut self, report: Report)
        ensures { sources_in self.new ≡ reported_first report (sources_in self.old) }
    {
        self.smoothed = report.rtts.smoothed.unwrap_or(self.smoothed);
        self.first_window = self.first_window.or(not_zero(report.bytes.window));
        if self.first_smoothed.is_none() && not_zero(report.rtts.latest).is_none() {
            self.first_smoothed = not_zero(report.rtts.smoothed);
            self.reset.first = Some(Pair::of(report));
        }
    }

    /// Whether a trace can be made of the log.
    pub(crate) fn check(&self) -> Result<(), NoSurvey> {
        if self.largest_size == 0 {
            return Err(NoSurvey::NothingSent);
        }
        if self.sent_frames.lack() {
            return Err(NoSurvey::NoFramesSent);
        }
        if self.received_frames.lack() {
            return Err(NoSurvey::NoFramesReceived);
        }
        Ok(())
    }

    /// Whether persistent congestion reset the round-trip times.
    pub(crate) fn has_reset_rtt(&self) -> bool {
        self.reset.is_seen
    }

    /// Whether its times are those of the sender without the parts of a millisecond.
    pub(crate) fn has_cut_times(&self) -> bool {
        self.has_milliseconds && self.looking.samples.cut != 0
    }

    /// The round-trip time before a sample, in nanoseconds: that of the parameters of recovery, or
    /// of a Retry that is not logged.
    pub(crate) fn initial_rtt(&self) -> Option<u64>
        ensures { result ≡ rtt_said (sources_in self.now) }
    {
        match self.retry {
            Some(retry) => retry.rtt.or(self.recovery.initial_rtt),
            None => self.recovery.initial_rtt,
        }
    }

    /// By how many bits a delay on the wire is shifted.
    pub(crate) fn delay_exponent(&self) -> u64
        ensures { result ≡ exponent_of (sources_in self.now) }
    {
        self.of_peer
            .ack_delay_exponent
            .unwrap_or(DEFAULT_DELAY_EXPONENT)
    }

    /// The datagram size: the part of the first window, if no packet was larger; else the largest
    /// packet.
    pub(crate) fn max_datagram_size(&self, initial_datagrams: u64) -> (u64, Guess)
        ensures { is_of_datagram result.1 ≡ true }
    {
        let window = self.first_window.unwrap_or(0);
        let part = match window.checked_div(initial_datagrams) {
            Some(part) => part,
            None => 0,
        };
        let is_whole = part.saturating_mul(initial_datagrams) == window;
        let least = self.largest_size.max(LEAST_DATAGRAM);
        let greatest = self.largest_size.max(USUAL_DATAGRAM);
        if is_whole && least <= part && part <= greatest {
            (part, Guess::DatagramByWindow)
        } else if self.largest_size < LEAST_DATAGRAM {
            (LEAST_DATAGRAM, Guess::DatagramLeast)
        } else {
            (self.largest_size, Guess::DatagramByPacket)
        }
    }
}

/// A value, if it is not 0.
pub(crate) fn not_zero(value: Option<u64>) -> Option<u64>
    ensures { result ≡ a_not_zero value }
{
    match value {
        Some(0) => None,
        other => other,
    }
}

impl WithFrames {
    /// Looks at a packet. Once there is one with frames, the others do not count.
    fn see(&mut self, packet: &Packet<'_, '_>) {
        if self.some {
            return;
        }
        if packet.has_frames() {
            self.some = true;
        } else {
            self.others = true;
        }
    }

    /// Whether there are packets, and none has its frames.
    fn lack(self) -> bool {
        self.others && !self.some
    }
}

impl Pair {
    /// That of a report.
    fn of(report: Report) -> Pair {
        Pair {
            smoothed: report.rtts.smoothed,
            variance: report.rtts.variance,
        }
    }
}

impl Reset {
    /// Looks at a report behind an acknowledgment.
    fn see(&mut self, report: Report) {
        let pair = Pair::of(report);
        if !self.may_be || self.is_seen || pair.smoothed.is_none() || pair.variance.is_none() {
            return;
        }
        let is_first = self.first == Some(pair);
        self.is_seen = self.has_others && is_first;
        self.has_others = self.has_others || !is_first;
    }
}

impl PeerParameters {
    /// What both say, these behind the others.
    fn behind(self, before: PeerParameters) -> PeerParameters
        ensures { result ≡ both_said self before }
    {
        PeerParameters {
            max_ack_delay: self.max_ack_delay.or(before.max_ack_delay),
            ack_delay_exponent: self.ack_delay_exponent.or(before.ack_delay_exponent),
        }
    }
}

impl RecoveryParameters {
    /// None.
    fn none() -> RecoveryParameters
        ensures { result ≡ none_set }
    {
        RecoveryParameters {
            initial_rtt: None,
            max_datagram_size: None,
            initial_window: None,
            packet_threshold: None,
            time_threshold: None,
        }
    }

    /// What both say, these behind the others.
    fn behind(self, before: RecoveryParameters) -> RecoveryParameters
        ensures { result ≡ both_set self before }
    {
        RecoveryParameters {
            initial_rtt: self.initial_rtt.or(before.initial_rtt),
            max_datagram_size: self.max_datagram_size.or(before.max_datagram_size),
            initial_window: self.initial_window.or(before.initial_window),
            packet_threshold: self.packet_threshold.or(before.packet_threshold),
            time_threshold: self.time_threshold.or(before.time_threshold),
        }
    }
}
