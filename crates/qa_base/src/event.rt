//! What a sender did, one event a line.
ghost use Rattle.std.specs.Prelude.{List, ◌≡◌, ◌≤◌, ◌∷◌, IfOk};
ghost use Rattle.qa_base.specs.declared.event.Event.{Event as AnEvent};
ghost use Rattle.qa_base.specs.machine.Reno.{is_app_limited};
ghost use Rattle.qa_base.specs.machine.Timer as timers;
ghost use Rattle.qa_base.specs.values.Events.{fits as fits_of, is_in_flight_by, time_of};
ghost use Rattle.qa_base.specs.values.Limits.{max_time};
ghost use Rattle.qa_base.specs.values.Kinds.{event_kind};

use crate::limits::MAX_PACKET_SIZE;
use crate::line_kind::LineKind;
use crate::number::{PacketNumber, Spans, Ticks};
use crate::space::{Permission, Space, TimerKind};
use std::alloc::{AllocError, Global};

/// What a sender reports of its own state, each value where it reports it.
///
/// `window`, `ssthresh` and `bytes_in_flight` are in bytes, the others in the unit of the trace.
#[derive(Clone, Copy, PartialEq, Eq)]
pub struct MetricValues {
    pub window: Option<u64>,
    pub ssthresh: Option<u64>,
    pub bytes_in_flight: Option<u64>,
    pub latest_rtt: Option<u64>,
    pub min_rtt: Option<u64>,
    pub smoothed_rtt: Option<u64>,
    pub rttvar: Option<u64>,
}

/// A packet that was sent (RFC 9002, A.5), as the sender knew it then.
#[derive(Clone, Copy, PartialEq, Eq)]
pub struct SentPacket {
    /// When it was sent.
    pub time: Ticks,
    /// Its packet number space.
    pub space: Space,
    /// Its number in that space.
    pub number: PacketNumber,
    /// Its size in bytes, 1 to 65527 on a line of a trace.
    pub size: u64,
    /// Whether it is ack-eliciting; then it is in flight.
    pub eliciting: bool,
    /// Whether it counts toward the bytes in flight (RFC 9002, section 2).
    pub in_flight: bool,
    /// By what leave it was sent.
    pub permission: Permission,
}

impl SentPacket {
    /// Whether it is in flight by this leave.
    #[inline(always)]
    pub fn is_in_flight_by(&self, permission: Permission) -> bool
        ensures { result ≡ is_in_flight_by permission self.now }
    {
        permission == self.permission && self.in_flight
    }
}

/// An acknowledgment that came (RFC 9002, A.7).
#[derive(PartialEq, Eq, Drop)]
pub struct Ack {
    /// When it came.
    pub time: Ticks,
    /// The packet number space that it is of.
    pub space: Space,
    /// The packet numbers that it acknowledges, at least one on a line of a trace.
    pub ranges: Spans,
    /// Its delay, in the unit of times, as the sender used it before it limited it (section 5.3).
    pub delay: u64,
    /// Whether the sender did not use the window that it had (section 7.8).
    pub app_limited: bool,
}

impl Ack {
    /// An equal acknowledgment, in memory of its own. `AllocError` comes where it is out of memory.
    pub fn duplicate(&self, alloc: Global) -> Result<Ack, AllocError>
        ensures { IfOk result (λ copy. copy ≡ self.now) }
    {
        Ok(Ack {
            time: self.time,
            space: self.space,
            ranges: self.ranges.duplicate(alloc)?,
            delay: self.delay,
            app_limited: self.app_limited,
        })
    }
}

/// One thing that a sender did or learned, at a time.
#[derive(PartialEq, Eq, Drop)]
pub enum Event {
    /// A packet was sent (RFC 9002, A.5).
    Sent(SentPacket),
    /// An acknowledgment came (A.7).
    Ack(Ack),
    /// The sender declared packets lost (A.10).
    Lost {
        time: Ticks,
        space: Space,
        ranges: Spans,
    },
    /// The loss detection timer fired (A.9).
    Timer {
        time: Ticks,
        kind: TimerKind,
        space: Space,
    },
    /// The keys of a space were discarded, and with them its packets (6.4).
    Discard {
        time: Ticks,
        space: Space,
    },
    /// The handshake was confirmed.
    Confirmed {
        time: Ticks,
    },
    /// The keys of the Handshake space are there.
    Keys {
        time: Ticks,
    },
    /// The sender reports its own state, to be compared.
    Metrics {
        time: Ticks,
        values: MetricValues,
    },
}

impl Event {
    /// When it happened.
    pub fn time(&self) -> Ticks
        ensures value { result ≡ time_of self.now }
        ensures range { time_of self.now ≤ max_time }
    {
        let time = match self {
            Event::Sent(SentPacket { time, .. })
            | Event::Ack(Ack { time, .. })
            | Event::Lost { time, .. }
            | Event::Timer { time, .. }
            | Event::Discard { time, .. }
            | Event::Confirmed { time }
            | Event::Keys { time }
            | Event::Metrics { time, .. } => time,
        };
        Ticks::of(time.get())
    }

    /// Whether it is a probe timeout (RFC 9002, section 6.2.1).
    pub fn is_pto(&self) -> bool
        ensures { (h : List AnEvent) → result ≡ timers.is_pto (self.now ∷ h) }
    {
        matches!(
            self,
            Event::Timer {
                kind: TimerKind::Pto,
                ..
            }
        )
    }

    /// Whether it is an acknowledgment that came while the sender did not use the window that it
    /// had (RFC 9002, section 7.8).
    pub fn is_app_limited(&self) -> bool
        ensures { result ≡ is_app_limited self.now }
    {
        match self {
            Event::Ack(ack) => ack.app_limited,
            _ => false,
        }
    }

    /// Whether the event is one that a line of a trace can say: a packet has 1 to 65527 bytes and
    /// is in flight if it is ack-eliciting, a list of ranges is not empty, and a discarded space is
    /// not the application's.
    pub fn fits(&self) -> bool
        ensures { result ≡ fits_of self.now }
    {
        match self {
            Event::Sent(packet) => {
                1 <= packet.size
                    && packet.size <= MAX_PACKET_SIZE
                    && (!packet.eliciting || packet.in_flight)
            }
            Event::Ack(Ack { ranges, .. }) | Event::Lost { ranges, .. } => {
                !ranges.as_slice().is_empty()
            }
            Event::Discard { space, .. } => *space != Space::App,
            Event::Timer { .. }
            | Event::Confirmed { .. }
            | Event::Keys { .. }
            | Event::Metrics { .. } => true,
        }
    }

    /// The kind of a line that says the event.
    pub fn kind(&self) -> LineKind
        ensures { result ≡ event_kind self.now }
    {
        match self {
            Event::Sent(_) => LineKind::Sent,
            Event::Ack(_) => LineKind::Ack,
            Event::Lost { .. } => LineKind::Lost,
            Event::Timer { .. } => LineKind::Timer,
            Event::Discard { .. } => LineKind::Discard,
            Event::Confirmed { .. } => LineKind::Confirmed,
            Event::Keys { .. } => LineKind::Keys,
            Event::Metrics { .. } => LineKind::Metrics,
        }
    }

    /// An equal event, in memory of its own. `AllocError` comes only of an event with ranges, where
    /// it is out of memory.
    pub fn duplicate(&self, alloc: Global) -> Result<Event, AllocError>
        ensures { IfOk result (λ copy. copy ≡ self.now) }
    {
        Ok(match self {
            Event::Sent(packet) => Event::Sent(*packet),
            Event::Ack(ack) => Event::Ack(ack.duplicate(alloc)?),
            Event::Lost {
                time,
                space,
                ranges,
            } => Event::Lost {
                time: *time,
                space: *space,
                ranges: ranges.duplicate(alloc)?,
            },
            Event::Timer { time, kind, space } => Event::Timer {
                time: *time,
                kind: *kind,
                space: *space,
            },
            Event::Discard { time, space } => Event::Discard {
                time: *time,
                space: *space,
            },
            Event::Confirmed { time } => Event::Confirmed { time: *time },
            Event::Keys { time } => Event::Keys { time: *time },
            Event::Metrics { time, values } => Event::Metrics {
                time: *time,
                values: *values,
            },
        })
    }
}
