//! The events that were found.
ghost use Rattle.std.specs.Prelude.{◌≡◌, ◌≤◌, ◌&&◌, ◌||◌, not, nat_le, IfSome, Some};
ghost use Rattle.qa_base.specs.values.Limits.{max_packet_size, max_time};
ghost use Rattle.qa_fast_reader.specs.Found.{SaysLine};

use crate::found::Found;
use qa_base::limits::MAX_PACKET_SIZE;
use qa_base::{Ack, Event, LineKind, PacketNumber, Permission, SentPacket, Ticks};
use qa_format::Line;

/// Whether a packet may have these values: it has bytes, and is in flight if it is ack-eliciting.
#[inline(always)]
fn packet_fits(size: u64, eliciting: bool, in_flight: bool) -> bool
    ensures { result ≡ (nat_le 1 size && nat_le size max_packet_size
        && (not eliciting || in_flight)) }
{
    1 <= size && size <= MAX_PACKET_SIZE && (!eliciting || in_flight)
}

impl Found {
    /// The time that was found, where it is in its range.
    #[inline(always)]
    fn micros(&self) -> Option<Ticks>
        ensures { IfSome result (λ time. (self.now.time ≡ Some time) × (time ≤ max_time)) }
    {
        Ticks::new(self.time?)
    }

    /// A packet that was sent, where its keys were found.
    #[inline(always)]
    fn sent(&self) -> Option<Line>
        requires { self.now.event ≡ Some LineKind.Sent }
        ensures { IfSome result (λ line. SaysLine self.now line) }
    {
        let time = self.micros()?;
        let space = self.space?;
        let number = PacketNumber::new(self.number?)?;
        let size = self.size?;
        let eliciting = self.eliciting?;
        let in_flight = self.in_flight?;
        let permission = self.permission.unwrap_or(Permission::Window);
        if !packet_fits(size, eliciting, in_flight) {
            return None;
        }
        Some(Line::Event(Event::Sent(SentPacket {
            time,
            space,
            number,
            size,
            eliciting,
            in_flight,
            permission,
        })))
    }

    /// An acknowledgment that came, where its keys were found.
    #[inline(always)]
    fn ack(&mut self) -> Option<Line>
        requires { self.old.event ≡ Some LineKind.Ack }
        ensures { IfSome result (λ line. SaysLine self.old line) }
    {
        let time = self.micros()?;
        let space = self.space?;
        let delay = self.delay.unwrap_or(0);
        let app_limited = self.app_limited.unwrap_or(false);
        let ranges = self.ranges.take()?;
        Some(Line::Event(Event::Ack(Ack {
            time,
            space,
            ranges,
            delay,
            app_limited,
        })))
    }

    /// Packets that were declared lost, where their keys were found.
    #[inline(always)]
    fn lost(&mut self) -> Option<Line>
        requires { self.old.event ≡ Some LineKind.Lost }
        ensures { IfSome result (λ line. SaysLine self.old line) }
    {
        let time = self.micros()?;
        let space = self.space?;
        let ranges = self.ranges.take()?;
        Some(Line::Event(Event::Lost {
            time,
            space,
            ranges,
        }))
    }

    /// A timer that fired, where its keys were found.
    #[inline(always)]
    fn timer(&self) -> Option<Line>
        requires { self.now.event ≡ Some LineKind.Timer }
        ensures { IfSome result (λ line. SaysLine self.now line) }
    {
        let time = self.micros()?;
        let kind = self.kind?;
        let space = self.space?;
        Some(Line::Event(Event::Timer { time, kind, space }))
    }

    /// Keys that were discarded, where their line's keys were found.
    #[inline(always)]
    fn discard(&self) -> Option<Line>
        requires { self.now.event ≡ Some LineKind.Discard }
        ensures { IfSome result (λ line. SaysLine self.now line) }
    {
        let time = self.micros()?;
        let space = self.space?;
        let event = Event::Discard { time, space };
        if event.fits() {
            Some(Line::Event(event))
        } else {
            None
        }
    }

    /// The handshake that was confirmed, where the keys of its line were found.
    #[inline(always)]
    fn confirmed(&self) -> Option<Line>
        requires { self.now.event ≡ Some LineKind.Confirmed }
        ensures { IfSome result (λ line. SaysLine self.now line) }
    {
        let time = self.micros()?;
        Some(Line::Event(Event::Confirmed { time }))
    }

    /// The keys of the Handshake space that came, where the keys of their line were found.
    #[inline(always)]
    fn handshake_keys(&self) -> Option<Line>
        requires { self.now.event ≡ Some LineKind.Keys }
        ensures { IfSome result (λ line. SaysLine self.now line) }
    {
        let time = self.micros()?;
        Some(Line::Event(Event::Keys { time }))
    }

    /// A report of the sender's state, where the keys of its line were found.
    #[inline(always)]
    fn metrics(&self) -> Option<Line>
        requires { self.now.event ≡ Some LineKind.Metrics }
        ensures { IfSome result (λ line. SaysLine self.now line) }
    {
        let time = self.micros()?;
        let values = self.values;
        Some(Line::Event(Event::Metrics { time, values }))
    }

    /// What an object says with these keys, where it is an event.
    #[inline(always)]
    pub fn line_of(&mut self) -> Option<Line>
        ensures { IfSome result (λ line. SaysLine self.old line) }
    {
        match self.event? {
            LineKind::Header => None,
            LineKind::Sent => self.sent(),
            LineKind::Ack => self.ack(),
            LineKind::Lost => self.lost(),
            LineKind::Timer => self.timer(),
            LineKind::Discard => self.discard(),
            LineKind::Confirmed => self.confirmed(),
            LineKind::Keys => self.handshake_keys(),
            LineKind::Metrics => self.metrics(),
        }
    }

    /// The same, where the kind is not known beforehand: each kind that most lines have is put
    /// together apart, so that its line is written once.
    #[inline(always)]
    pub fn line_said(&mut self) -> Option<Line>
        ensures { IfSome result (λ line. SaysLine self.old line) }
    {
        match self.event? {
            LineKind::Sent => self.sent_apart(),
            LineKind::Ack => self.ack_apart(),
            _ => self.line_of(),
        }
    }

    /// A packet that was sent, where its keys were found.
    #[inline(never)]
    fn sent_apart(&self) -> Option<Line>
        requires { self.now.event ≡ Some LineKind.Sent }
        ensures { IfSome result (λ line. SaysLine self.now line) }
    {
        self.sent()
    }

    /// An acknowledgment that came, where its keys were found.
    #[inline(never)]
    fn ack_apart(&mut self) -> Option<Line>
        requires { self.old.event ≡ Some LineKind.Ack }
        ensures { IfSome result (λ line. SaysLine self.old line) }
    {
        self.ack()
    }
}
