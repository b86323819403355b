//! What the first reading finds by counting: in which order a log is, and how fine its clock is.
ghost use Rattle.std.specs.Prelude.{◌≡◌, is_some};
ghost use Rattle.qa_base.specs.values.Events.{has_ranges};
ghost use Rattle.qa_convert.specs.Dialects.{IsLike};

use crate::dialects::Dialect;
use crate::event::{At, LostPacket, Report};
use crate::flight::Flying;
use crate::flights::Flights;
use crate::packet::{LoggedAck, LoggedPacket};
use crate::samples::{Measured, Samples};
use crate::size::PacketSize;
use qa_base::Space;
use std::alloc::{AllocError, Global};

/// Of how many events the order is found. All of a log would take long and say no more.
const EVENTS_LOOKED_AT: u32 = 5_000;
/// By how many bytes stacks round what they report.
const ROUNDING_OF_BYTES: u128 = 64;
/// How many values a clock is judged by.
pub(crate) const LEAST_VALUES: u64 = 8;

/// A millisecond in nanoseconds.
pub(crate) const MILLISECOND: u64 = 1_000_000;

/// Where losses and reports are beside the packet that came and caused them.
#[derive(Clone, Copy, PartialEq, Eq)]
pub(crate) enum Order {
    /// Both are behind it.
    Behind,
    /// Losses are in front of it, reports behind it.
    LossesBefore,
    /// Both are in front of it.
    Before,
}

impl Order {
    /// The order that a dialect takes.
    pub(crate) fn of(dialect: &Dialect) -> Order {
        if dialect.received_stands_last {
            Order::Before
        } else if dialect.losses_stand_before {
            Order::LossesBefore
        } else {
            Order::Behind
        }
    }

    /// The dialect with this order.
    pub(crate) fn of_dialect(self, dialect: Dialect) -> Dialect
        ensures { IsLike dialect result }
    {
        Dialect {
            received_stands_last: self == Order::Before,
            losses_stand_before: self == Order::LossesBefore,
            ..dialect
        }
    }

    /// What is said of it.
    pub(crate) fn text(self) -> &'static str {
        match self {
            Order::Behind => "losses and metrics come after the packet_received that caused them",
            Order::LossesBefore => {
                "losses come before the packet_received that shows them, metrics after it"
            }
            Order::Before => "losses and metrics come before the packet_received that caused them",
        }
    }
}

/// The bytes in flight at a report: those that it says, and those of the packets.
#[derive(Clone, Copy)]
struct Level {
    reported: u64,
    counted: u128,
}

/// Whether the bytes in flight that are reported change as those of the packets do.
#[derive(Clone, Copy)]
struct Tracker {
    before: Level,
    last: Level,
}

impl Tracker {
    /// Before the first report.
    fn new() -> Tracker {
        let none = Level {
            reported: 0,
            counted: 0,
        };
        Tracker {
            before: none,
            last: none,
        }
    }

    /// Whether both changed alike since the report before.
    fn agrees(&mut self, level: Level) -> bool {
        self.before = self.last;
        self.last = level;
        self.is_alike()
    }

    /// Counts the packet behind the last report too, if that one was of it.
    fn amend(&mut self, counted: u128) {
        if self.is_alike() {
            return;
        }
        let kept = self.last;
        self.last = Level {
            reported: kept.reported,
            counted,
        };
        if !self.is_alike() {
            self.last = kept;
        }
    }

    /// Whether both changed alike.
    fn is_alike(self) -> bool {
        let here = u128::from(self.last.reported).saturating_add(self.before.counted);
        let there = u128::from(self.before.reported).saturating_add(self.last.counted);
        let off = if here < there {
            there - here
        } else {
            here - there
        };
        off <= ROUNDING_OF_BYTES
    }
}

/// What was counted.
#[derive(Clone, Copy)]
pub(crate) struct Counts {
    /// Acknowledgments with a report beside them.
    pub(crate) acknowledgments: u64,
    /// The reports of these that agree behind them, and in front of them.
    pub(crate) behind: u64,
    pub(crate) before: u64,
    /// Losses nearer to the packet in front of them, and nearer to the one behind.
    pub(crate) losses_behind: u64,
    pub(crate) losses_before: u64,
    /// Reports that say 0 bytes in flight.
    zeros: u64,
    /// Reports that leave them out though nothing is in flight any more.
    zeros_left_out: u64,
}

/// The last packet with an acknowledgment, and the largest number in it.
#[derive(Clone, Copy)]
struct Shown {
    space: Space,
    time: u64,
    top: u64,
}

/// Whether values of the round-trip time are whole milliseconds.
#[derive(Clone, Copy)]
pub(crate) struct Fineness {
    /// How many are.
    pub(crate) whole: u64,
    /// Whether any is not.
    pub(crate) has_parts: bool,
    /// Whether a latest one is not.
    pub(crate) has_parts_of_latest: bool,
}

/// Looks at the first events of a log.
#[derive(Drop)]
pub(crate) struct Looking {
    pub(crate) counts: Counts,
    pub(crate) samples: Samples,
    left: u32,
    flights: Flights,
    behind: Tracker,
    before: Tracker,
    /// The last report, as long as no packet came behind it.
    report: Option<Level>,
    /// Whether an acknowledgment awaits its report, and whether it had one before it.
    is_awaited: bool,
    is_counted: bool,
    bytes_reported: u64,
    received: Option<Shown>,
    lost: Vec<(u64, LostPacket)>,
    pub(crate) fineness: Fineness,
}

impl Looking {
    /// Before the first event. Takes no memory.
    pub(crate) fn new(alloc: Global) -> Looking {
        Looking {
            counts: Counts {
                acknowledgments: 0,
                behind: 0,
                before: 0,
                losses_behind: 0,
                losses_before: 0,
                zeros: 0,
                zeros_left_out: 0,
            },
            samples: Samples::new(),
            left: EVENTS_LOOKED_AT,
            flights: Flights::new(alloc),
            behind: Tracker::new(),
            before: Tracker::new(),
            report: None,
            is_awaited: false,
            is_counted: false,
            bytes_reported: 0,
            received: None,
            lost: Vec::new(alloc),
            fineness: Fineness {
                whole: 0,
                has_parts: false,
                has_parts_of_latest: false,
            },
        }
    }

    /// Whether reports leave out the bytes in flight if they are 0.
    pub(crate) fn leaves_out_zeros(&self) -> bool {
        self.counts.zeros_left_out != 0 && self.counts.zeros == 0
    }

    /// Whether it looks at the next event.
    pub(crate) fn goes_on(&mut self) -> bool {
        if self.left == 0 {
            return false;
        }
        self.left -= 1;
        true
    }

    /// Looks at a packet of this size that was sent.
    pub(crate) fn see_sent(
        &mut self,
        at: At,
        packet: &LoggedPacket,
        size: PacketSize,
    ) -> Result<(), AllocError> {
        let is_reported = self.report.is_some();
        self.settle();
        self.is_awaited = false;
        self.received = None;
        self.lost.clear();
        if !packet.content.is_in_flight() {
            return Ok(());
        }
        let flying = Flying {
            size: size.get(),
            time: at.time,
        };
        self.flights
            .of_mut(packet.space)
            .add(packet.number.get(), flying)?;
        if is_reported {
            let bytes = self.flights.bytes();
            self.behind.amend(bytes);
            self.before.amend(bytes);
        }
        Ok(())
    }

    /// Looks at a loss that a probe does not only repeat.
    pub(crate) fn see_lost(&mut self, time: u64, lost: LostPacket) -> Result<(), AllocError> {
        self.flights.of_mut(lost.space).take(lost.number.get());
        self.lost.push((time, lost))?;
        Ok(())
    }

    /// The keys of a space are gone.
    pub(crate) fn see_gone(&mut self, space: Space) {
        self.flights.of_mut(space).clear();
    }

    /// Looks at a report.
    pub(crate) fn see_report(&mut self, report: Report) {
        self.fineness.see(report);
        if let Some(latest) = report.rtts.latest {
            if latest != 0 {
                self.samples.report(latest);
            }
        }
        match report.bytes.in_flight {
            Some(reported) => self.see_level(reported),
            None => self.see_level_left_out(report),
        }
    }

    /// A report without the bytes in flight.
    fn see_level_left_out(&mut self, report: Report) {
        if report.says_a_value() && self.bytes_reported != 0 && self.flights.bytes() == 0 {
            self.counts.zeros_left_out = self.counts.zeros_left_out.saturating_add(1);
        }
    }

    /// A report of the bytes in flight.
    fn see_level(&mut self, reported: u64) {
        self.settle();
        self.bytes_reported = reported;
        if reported == 0 {
            self.counts.zeros = self.counts.zeros.saturating_add(1);
        }
        let level = Level {
            reported,
            counted: self.flights.bytes(),
        };
        let is_alike = self.behind.agrees(level);
        if self.is_awaited {
            if !self.is_counted {
                self.counts.acknowledgments = self.counts.acknowledgments.saturating_add(1);
            }
            if is_alike {
                self.counts.behind = self.counts.behind.saturating_add(1);
            }
        }
        self.is_awaited = false;
        self.report = Some(level);
    }

    /// A report that no packet follows is of the time at which it stands.
    fn settle(&mut self) {
        if let Some(level) = self.report.take() {
            self.before.agrees(level);
        }
    }

    /// Looks at a packet that came.
    pub(crate) fn see_received(&mut self, at: At, packet: &LoggedPacket) {
        let held = self.flights.bytes();
        if let Some((number, sent)) = self.take_acknowledged(packet) {
            self.see_sample(at, packet, number, sent);
        }
        if self.flights.bytes() != held {
            self.see_acknowledgment();
        }
        if let Some(top) = top_of(&packet.acks) {
            let shown = Shown {
                space: packet.space,
                time: at.time,
                top,
            };
            self.see_losses(shown);
            self.received = Some(shown);
        }
        self.lost.clear();
    }

    /// Takes out what a packet acknowledges; the greatest of that.
    fn take_acknowledged(&mut self, packet: &LoggedPacket) -> Option<(u64, Flying)> {
        let mut greatest: Option<(u64, Flying)> = None;
        for ack in &packet.acks {
            let found = self.flights.take_named(packet.space, &ack.ranges);
            greatest = match (greatest, found) {
                (Some((here, _)), Some((there, _))) if there < here => greatest,
                (_, None) => greatest,
                _ => found,
            };
        }
        greatest
    }

    /// The round-trip time of the largest packet, if that is newly acknowledged.
    fn see_sample(&mut self, at: At, packet: &LoggedPacket, number: u64, sent: Flying) {
        let mut is_top = false;
        let mut delay = 0;
        for ack in &packet.acks {
            is_top = is_top || top_in(ack) == Some(number);
            delay = ack.delay.max(delay);
        }
        if is_top {
            self.samples.take(Measured {
                latest: at.time.saturating_sub(sent.time),
                delay,
            });
        }
    }

    /// A packet acknowledged what was in flight.
    fn see_acknowledgment(&mut self) {
        self.is_awaited = true;
        self.is_counted = self.report.is_some();
        let Some(level) = self.report.take() else {
            return;
        };
        self.counts.acknowledgments = self.counts.acknowledgments.saturating_add(1);
        let is_alike = self.before.agrees(Level {
            reported: level.reported,
            counted: self.flights.bytes(),
        });
        if is_alike {
            self.counts.before = self.counts.before.saturating_add(1);
        }
    }

    /// To which of two packets the losses between them are nearer, unless a timer found them.
    fn see_losses(&mut self, shown: Shown) {
        for (time, lost) in &self.lost {
            let behind = distance(self.received, *time, *lost);
            let before = distance(Some(shown), *time, *lost);
            if behind < before {
                self.counts.losses_behind = self.counts.losses_behind.saturating_add(1);
            } else if before < behind {
                self.counts.losses_before = self.counts.losses_before.saturating_add(1);
            }
        }
    }
}

/// How far a loss is from a packet that shows it; a millisecond from another.
fn distance(shown: Option<Shown>, time: u64, lost: LostPacket) -> u64 {
    match shown {
        Some(shown) if shown.space == lost.space && lost.number.get() < shown.top => {
            if shown.time < time {
                time - shown.time
            } else {
                shown.time - time
            }
        }
        _ => MILLISECOND,
    }
}

/// The greatest number that some ACK frame names.
pub(crate) fn top_of(acks: &[LoggedAck]) -> Option<u64> {
    let mut top: Option<u64> = None;
    for ack in acks {
        top = match (top, top_in(ack)) {
            (Some(here), Some(there)) => Some(here.max(there)),
            (None, found) => found,
            (found, None) => found,
        };
    }
    top
}

/// The greatest number that an ACK frame names.
pub(crate) fn top_in(ack: &LoggedAck) -> Option<u64>
    ensures { is_some result ≡ has_ranges ack.now.ranges }
{
    let mut top: Option<u64> = None;
    for span in ack.ranges.as_slice() {
        let high = span.hi().get();
        top = match top {
            Some(here) => Some(here.max(high)),
            None => Some(high),
        };
    }
    top
}

impl Fineness {
    /// Looks at the round-trip times of a report.
    fn see(&mut self, report: Report) {
        let rtts = report.rtts;
        self.see_value(rtts.latest);
        self.see_value(rtts.min);
        self.see_value(rtts.smoothed);
        self.see_value(rtts.variance);
        if has_parts(rtts.latest) {
            self.has_parts_of_latest = true;
        }
    }

    /// Looks at one of them; one that is 0 says nothing.
    fn see_value(&mut self, value: Option<u64>) {
        let Some(value) = value else {
            return;
        };
        if value == 0 {
            return;
        }
        if value % MILLISECOND == 0 {
            self.whole = self.whole.saturating_add(1);
        } else {
            self.has_parts = true;
        }
    }
}

/// Whether a value is no whole number of milliseconds.
fn has_parts(value: Option<u64>) -> bool {
    match value {
        Some(value) => value % MILLISECOND != 0,
        None => false,
    }
}

impl Report {
    /// Whether it says a round-trip time or a byte count.
    pub(crate) fn says_a_value(self) -> bool {
        let has_time = self.rtts.latest.is_some()
            || self.rtts.min.is_some()
            || self.rtts.smoothed.is_some()
            || self.rtts.variance.is_some();
        has_time
            || self.bytes.window.is_some()
            || self.bytes.ssthresh.is_some()
            || self.bytes.in_flight.is_some()
    }
}
