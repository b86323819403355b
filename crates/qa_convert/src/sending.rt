//! Packets that are sent, and the probe timeouts that sent them.
ghost use Rattle.std.specs.Prelude.{◌≡◌, ◌∷◌, [], ◌||◌, Bool, IfOk, IfSome, List, OnOk, false};
ghost use Rattle.std.specs.Prelude.{nat_eq, true};
ghost use Rattle.qa_convert.specs.Guesses.{is_of_timer};
ghost use Rattle.qa_convert.specs.Rules.{rules_of, rules_stated};
ghost use Rattle.qa_convert.specs.Sending.{AreOf, IsOf, Wrote};
ghost use Rattle.qa_convert.specs.Telling.{Sends, next_marks, says_leave, sized, told_in};
ghost use Rattle.qa_convert.specs.Telling.{will_say};
ghost use Rattle.qa_convert.specs.Timers.{WritesTimer};
ghost use Rattle.qa_convert.specs.declared.guess.Guess.{Guess as AGuess};
ghost use Rattle.qa_convert.specs.declared.packet.LoggedPacket.{LoggedPacket as APacket};
ghost use Rattle.qa_qlog.specs.Frames.{is_in_flight};

use crate::conversion::{Conversion, DATAGRAMS_OF_PROBE, LATE_BY_PROGRAM, latest_of};
use crate::event::{At, LoggedEvent, Said};
use crate::flight::Flying;
use crate::groups::PacketAt;
use crate::guess::Guess;
use crate::handshake::{Change, SentPacket};
use crate::omission::Omission;
use crate::packet::LoggedPacket;
use crate::size::PacketSize;
use crate::writing::NoLine;
use qa_base::{Event, Permission, SentPacket as Sent, Space, TimerKind};
use std::alloc::{AllocError, Global};

/// How many probe timeouts there may be at once by a log's count. The timeout doubles each time.
const MOST_TIMEOUTS: u64 = 32;

/// A packet that is sent, with the size that it has by now.
#[derive(Drop)]
pub(crate) struct Outgoing {
    at: At,
    packet: LoggedPacket,
    size: PacketSize,
    is_size_guessed: bool,
    /// Whether it has PADDING that is not logged.
    is_padded: bool,
}

impl Outgoing {
    /// Whether it counts to the bytes in flight.
    fn is_in_flight(&self) -> bool
        ensures value { result ≡ is_in_flight self.now.packet.content || self.now.is_padded }
        ensures eliciting { self.now.packet.content.is_eliciting ≡ true → result ≡ true }
    {
        self.packet.content.is_in_flight() || self.is_padded
    }

    /// As the keys see it.
    fn seen(&self) -> SentPacket<'_> {
        SentPacket {
            packet: &self.packet,
            size: self.size,
            is_in_flight: self.is_in_flight(),
        }
    }

    /// Takes a growth of the bytes in flight for the size, if that is likely: whether it did.
    fn grow(&mut self, growth: u64, datagram: u64) -> bool
        ensures packet { self.new.packet ≡ self.old.packet }
        ensures guessed { self.new.is_size_guessed ≡ self.old.is_size_guessed }
        ensures grown { result ≡ true → nat_eq self.new.size self.old.size ≡ false }
        ensures same { result ≡ false → self.new ≡ self.old }
    {
        let most = datagram.max(self.size.get());
        let Some(size) = PacketSize::new(growth) else {
            return false;
        };
        if most < growth || size == self.size {
            return false;
        }
        self.size = size;
        self.is_padded = true;
        true
    }
}

/// Packets with their sizes; those without one, which the first reading refuses, are left out.
fn with_sizes(alloc: Global, packets: Vec<PacketAt>) -> Result<Vec<Outgoing>, AllocError>
    ensures { IfOk result (λ found. (settles by_growth : Bool)
        → AreOf settles by_growth (sized packets.items) found.items) }
{
    let mut found = Vec::new(alloc);
    for it in packets {
        let PacketAt { at, packet } = it;
        if let Some(size) = packet.size {
            let is_size_guessed = packet.is_size_guessed;
            found.push(Outgoing {
                at,
                packet,
                size,
                is_size_guessed,
                is_padded: false,
            })?;
        }
    }
    Ok(found)
}

impl Conversion {
    /// Packets were sent.
    pub(crate) fn on_sent(
        &mut self,
        packets: Vec<PacketAt>,
        beside: &[LoggedEvent],
    ) -> Result<(), NoLine>
        ensures sends { OnOk result (Sends self.old.known.settles_sizes
            self.old.terms.dialect.sizes_by_growth self.old.keys.retired packets.items
            (told_in self.old.writing) (told_in self.new.writing)) }
        ensures rules { OnOk result (rules_of self.new
            ≡ rules_stated beside.now (rules_of self.old)) }
    {
        let settles = self.known.settles_sizes;
        let by_growth = self.terms.dialect.sizes_by_growth;
        let mut packets = with_sizes(self.writing.alloc, packets)?;
        let Some(first) = packets.first() else {
            self.take_beside(beside);
            return Ok(());
        };
        let at = first.at;
        self.guess_probes(&packets, beside)?;
        self.has_come = false;
        let is_reported = self.take_beside(beside);
        let reported = if is_reported {
            self.values.bytes.in_flight
        } else {
            None
        };
        if reported.is_some() && settles {
            self.settle_sizes(&mut packets, beside, by_growth)?;
        }
        if self.keys.awaits_discard() {
            let added = bytes_in_flight(&packets);
            let level = self.values.bytes.in_flight;
            self.keys
                .settle(&mut self.writing, at, level, Change { added, taken: 0 })?;
        }
        self.send_all(&packets, reported, is_reported, beside)
    }

    /// Writes the lines of packets, and of the report behind them.
    fn send_all(
        &mut self,
        packets: &[Outgoing],
        reported: Option<u64>,
        is_reported: bool,
        beside: &[LoggedEvent],
    ) -> Result<(), NoLine>
        ensures wrote { OnOk result (Wrote self.old.keys.retired packets.now
            (told_in self.old.writing) (told_in self.new.writing)) }
        ensures rules { OnOk result (rules_of self.new ≡ rules_of self.old) }
    {
        let mut is_late = false;
        for packet in packets {
            is_late = self.send(packet, reported)? || is_late;
        }
        let Some(last) = packets.last() else {
            return Ok(());
        };
        if is_reported {
            self.forget(last.at)?;
            self.report(latest_of(last.at.time, beside))?;
        }
        if is_late {
            self.keys.discard_initial(&mut self.writing, last.at, None)?;
        }
        Ok(())
    }

    /// Writes the line of a packet; whether the discard of the Initial keys is due behind it.
    fn send(&mut self, packet: &Outgoing, reported: Option<u64>) -> Result<bool, NoLine>
        ensures wrote { OnOk result (Wrote self.old.keys.retired (packet.now ∷ [])
            (told_in self.old.writing) (told_in self.new.writing)) }
        ensures rules { OnOk result (rules_of self.new ≡ rules_of self.old) }
    {
        let seen = packet.seen();
        let is_late = self
            .keys
            .before_sent(&mut self.writing, packet.at, &seen, reported)?;
        self.tell_window(packet.at.time)?;
        self.write_sent(packet)?;
        Ok(is_late)
    }

    /// Writes the line of a packet.
    fn write_sent(&mut self, packet: &Outgoing) -> Result<(), NoLine>
        ensures wrote { OnOk result (Wrote self.old.keys.retired (packet.now ∷ [])
            (told_in self.old.writing) (told_in self.new.writing)) }
        ensures rules { OnOk result (rules_of self.new ≡ rules_of self.old) }
    {
        if packet.is_size_guessed {
            self.writing.guess(Guess::Size)?;
        }
        let in_flight = packet.is_in_flight();
        let permission = if in_flight {
            self.permission(packet.size.get())?
        } else {
            Permission::Window
        };
        let time = self.writing.next_time(packet.at.time)?;
        let sent = Sent {
            time,
            space: packet.packet.space,
            number: packet.packet.number,
            size: packet.size.get(),
            eliciting: packet.packet.content.is_eliciting,
            in_flight,
            permission,
        };
        let place = packet.at.place;
        self.writing.output.write(Event::Sent(sent), place, place)?;
        self.keep_sent(packet)?;
        Ok(())
    }

    /// Keeps a packet that was sent.
    fn keep_sent(&mut self, packet: &Outgoing) -> Result<(), AllocError>
        ensures told { OnOk result (told_in self.new.writing ≡ told_in self.old.writing) }
        ensures rules { OnOk result (rules_of self.new ≡ rules_of self.old) }
    {
        let space = packet.packet.space;
        let number = packet.packet.number.get();
        if packet.is_in_flight() {
            let flying = Flying {
                size: packet.size.get(),
                time: packet.at.time,
            };
            self.writing.flights.of_mut(space).add(number, flying)?;
            self.probe.packets = self.probe.packets.saturating_sub(1);
        } else {
            self.writing.add_bare(space, number)?;
        }
        if packet.packet.content.is_eliciting {
            *self.last_eliciting.of_mut(space) = Some(packet.at.time);
        }
        Ok(())
    }

    /// By what leave a packet of this size is sent: by a probe if one is allowed, else by the
    /// window if it has room, else by the entry into recovery.
    fn permission(&mut self, size: u64) -> Result<Permission, AllocError>
        ensures says { IfOk result (λ permission. says_leave permission
            (next_marks self.new.writing) ≡ true) }
        ensures says_more { OnOk result ((g : AGuess) → will_say self.old.writing g ≡ true
            → will_say self.new.writing g ≡ true) }
        ensures told { OnOk result (told_in self.new.writing ≡ told_in self.old.writing) }
        ensures rules { OnOk result (rules_of self.new ≡ rules_of self.old) }
    {
        let is_first = self.has_fallen;
        self.has_fallen = false;
        if size <= self.probe.bytes {
            self.probe.bytes -= size;
            self.writing.guess(Guess::LeaveProbe)?;
            return Ok(Permission::Probe);
        }
        let Some(window) = self.values.bytes.window else {
            return Ok(Permission::Window);
        };
        let bytes = self
            .writing
            .flights
            .bytes()
            .saturating_add(u128::from(size));
        if is_first && u128::from(window) < bytes {
            self.writing.guess(Guess::LeaveRecovery)?;
            return Ok(Permission::Recovery);
        }
        Ok(Permission::Window)
    }

    /// Takes the growth of the bytes in flight for sizes that the log does not have.
    ///
    /// A datagram is padded once all of its packets are there, so that what it adds to the Initial
    /// packet, the first of them, is reported last.
    fn settle_sizes(
        &mut self,
        packets: &mut Vec<Outgoing>,
        beside: &[LoggedEvent],
        by_growth: bool,
    ) -> Result<(), NoLine>
        ensures are { OnOk result ((ps : List APacket) → AreOf true by_growth ps packets.old.items
            → AreOf true by_growth ps packets.new.items) }
        ensures told { OnOk result (told_in self.new.writing ≡ told_in self.old.writing) }
        ensures rules { OnOk result (rules_of self.new ≡ rules_of self.old) }
    {
        let alloc = self.writing.alloc;
        let order = order_of(alloc, packets, by_growth)?;
        let levels = levels_of(alloc, beside, order.len() == 1)?;
        if order.len() != levels.len() {
            if by_growth {
                self.settle_datagram(packets)?;
            }
            return Ok(());
        }
        let mut before = u64::try_from(self.writing.flights.bytes()).unwrap_or(u64::MAX);
        for (place, level) in order.iter().zip(levels.iter()) {
            self.settle_at(packets, *place, level.saturating_sub(before), by_growth)?;
            before = *level;
        }
        Ok(())
    }

    /// Takes a growth for the size of the packet at a place, if that is asked for and is likely.
    fn settle_at(
        &mut self,
        packets: &mut Vec<Outgoing>,
        place: usize,
        growth: u64,
        by_growth: bool,
    ) -> Result<(), AllocError>
        ensures are { OnOk result ((ps : List APacket) → AreOf true by_growth ps packets.old.items
            → AreOf true by_growth ps packets.new.items) }
        ensures told { OnOk result (told_in self.new.writing ≡ told_in self.old.writing) }
        ensures rules { OnOk result (rules_of self.new ≡ rules_of self.old) }
    {
        let Some(packet) = packets.get_mut(place) else {
            return Ok(());
        };
        self.settle_size(packet, growth, by_growth)
    }

    /// Takes a growth for the size of a packet, if that is asked for and is likely.
    fn settle_size(
        &mut self,
        packet: &mut Outgoing,
        growth: u64,
        by_growth: bool,
    ) -> Result<(), AllocError>
        ensures is { OnOk result ((p : APacket) → IsOf true by_growth p packet.old
            → IsOf true by_growth p packet.new) }
        ensures told { OnOk result (told_in self.new.writing ≡ told_in self.old.writing) }
        ensures rules { OnOk result (rules_of self.new ≡ rules_of self.old) }
    {
        if !by_growth && !packet.is_size_guessed {
            return Ok(());
        }
        if packet.grow(growth, self.terms.datagram) {
            if !packet.is_size_guessed {
                self.writing.guess(Guess::SizeByGrowth)?;
            }
            packet.is_size_guessed = false;
        }
        Ok(())
    }

    /// Takes sizes that are those of the datagram so far for what each packet adds.
    fn settle_datagram(&mut self, packets: &mut Vec<Outgoing>) -> Result<(), AllocError>
        ensures are { OnOk result ((ps : List APacket) → AreOf true true ps packets.old.items
            → AreOf true true ps packets.new.items) }
        ensures told { OnOk result (told_in self.new.writing ≡ told_in self.old.writing) }
        ensures rules { OnOk result (rules_of self.new ≡ rules_of self.old) }
    {
        let mut before: Option<(Space, u64)> = None;
        for packet in packets.iter_mut() {
            let size = packet.size.get();
            self.settle_added(packet, before)?;
            before = Some((packet.packet.space, size));
        }
        Ok(())
    }

    /// Takes the size of a packet for that of the datagram so far, if one of another space and of a
    /// smaller size is before it.
    fn settle_added(
        &mut self,
        packet: &mut Outgoing,
        before: Option<(Space, u64)>,
    ) -> Result<(), AllocError>
        ensures is { OnOk result ((p : APacket) → IsOf true true p packet.old
            → IsOf true true p packet.new) }
        ensures told { OnOk result (told_in self.new.writing ≡ told_in self.old.writing) }
        ensures rules { OnOk result (rules_of self.new ≡ rules_of self.old) }
    {
        let size = packet.size.get();
        let Some((space, least)) = before else {
            return Ok(());
        };
        if space == packet.packet.space || size <= least {
            return Ok(());
        }
        if let Some(added) = PacketSize::new(size - least) {
            packet.size = added;
            self.writing.guess(Guess::SizeByGrowth)?;
        }
        Ok(())
    }

    /// Probe timeouts that a log without timers shows by its count, or by a packet.
    fn guess_probes(&mut self, packets: &[Outgoing], beside: &[LoggedEvent]) -> Result<(), NoLine>
        ensures told { OnOk result (told_in self.new.writing ≡ told_in self.old.writing) }
        ensures rules { OnOk result (rules_of self.new ≡ rules_of self.old) }
    {
        let Some(first) = packets.first() else {
            return Ok(());
        };
        let guess = if self.known.logs_timers {
            return Ok(());
        } else if self.terms.dialect.probes_by_trigger {
            self.probe_by_trigger(first)
        } else if self.terms.dialect.probes_by_room {
            self.probe_by_room(first)
        } else if self.terms.dialect.probes_by_ping {
            self.probe_by_ping(packets)
        } else {
            return self.probes_by_count(first.at, beside);
        };
        let Some(guess) = guess else {
            return Ok(());
        };
        let space = if guess == Guess::ProbeByPing && self.terms.dialect.probes_by_ping {
            self.probed_space()
        } else {
            first.packet.space
        };
        self.writing.guess(guess)?;
        self.write_timer(first.at, TimerKind::Pto, space, first.at.time)
    }

    /// A probe timeout by what a packet says.
    fn probe_by_trigger(&self, first: &Outgoing) -> Option<Guess>
        ensures { IfSome result (λ guess. is_of_timer guess ≡ true) }
    {
        let is_next = self.probe.time.saturating_add(LATE_BY_PROGRAM) < first.at.time;
        if first.packet.shows_probe() && (self.probe.packets == 0 || is_next) {
            Some(Guess::ProbeByTrigger)
        } else {
            None
        }
    }

    /// A probe timeout by the room that a packet keeps for a PING, or by one.
    ///
    /// It has one for other causes too, but not as long as nothing was acknowledged.
    fn probe_by_room(&self, first: &Outgoing) -> Option<Guess>
        ensures { IfSome result (λ guess. is_of_timer guess ≡ true) }
    {
        let last = *self.last_eliciting.of(first.packet.space);
        let is_later = match last {
            Some(time) => time < first.at.time,
            None => true,
        };
        if self.has_come || !is_later {
            return None;
        }
        if first.packet.shows_probe() {
            return Some(Guess::ProbeByRoom);
        }
        let awaits = last.is_some() && self.nothing_was_acknowledged();
        if first.packet.has_ping_of_handshake() && awaits {
            return Some(Guess::ProbeByPing);
        }
        None
    }

    /// Whether no packet was acknowledged so far.
    fn nothing_was_acknowledged(&self) -> bool {
        let largest = &self.largest;
        largest.initial.is_none() && largest.handshake.is_none() && largest.app.is_none()
    }

    /// A probe timeout by a PING.
    fn probe_by_ping(&self, packets: &[Outgoing]) -> Option<Guess>
        ensures { IfSome result (λ guess. is_of_timer guess ≡ true) }
    {
        for packet in packets {
            if self.is_ping_of_probe(&packet.packet) {
                return Some(Guess::ProbeByPing);
            }
        }
        None
    }

    /// Whether a packet has a PING that is that of a probe.
    fn is_ping_of_probe(&self, packet: &LoggedPacket) -> bool {
        if !packet.content.has_ping {
            return false;
        }
        // No probe timeout is set, so the PING is that of a program.
        if packet.space == Space::App && self.writing.flights.bytes() == 0 {
            return false;
        }
        match self.terms.dialect.packets_between_pings {
            None => true,
            Some(every) => {
                let number = packet.number.get();
                let is_turn = match number.checked_rem(every) {
                    Some(rest) => rest == 0,
                    None => false,
                };
                !is_turn || !has_ranges(packet)
            }
        }
    }

    /// Probe timeouts by their count.
    fn probes_by_count(&mut self, at: At, beside: &[LoggedEvent]) -> Result<(), NoLine>
        ensures told { OnOk result (told_in self.new.writing ≡ told_in self.old.writing) }
        ensures rules { OnOk result (rules_of self.new ≡ rules_of self.old) }
    {
        let Some(count) = count_of(beside) else {
            return Ok(());
        };
        let more = count.saturating_sub(self.pto_count);
        if MOST_TIMEOUTS < more {
            return Err(NoLine::Timeouts(count));
        }
        for _ in 0..more {
            let space = self.probed_space();
            self.writing.guess(Guess::ProbeByCount)?;
            self.write_timer(at, TimerKind::Pto, space, at.time)?;
        }
        Ok(())
    }

    /// Writes the line of a timer that expired.
    pub(crate) fn write_timer(
        &mut self,
        at: At,
        kind: TimerKind,
        space: Space,
        nanoseconds: u64,
    ) -> Result<(), NoLine>
        ensures writes { OnOk result ((writes : WritesTimer (next_marks self.old.writing).timer kind
            (told_in self.old.writing) (told_in self.new.writing)) × (writes.space ≡ space)) }
        ensures bare { OnOk result (self.new.writing.bare ≡ self.old.writing.bare) }
        ensures rules { OnOk result (rules_of self.new ≡ rules_of self.old) }
    {
        let time = self.writing.next_time(nanoseconds)?;
        let event = Event::Timer { time, kind, space };
        self.writing.output.write(event, at.place, at.place)?;
        self.allow_probe(at, kind);
        Ok(())
    }

    /// What a timer allows to be sent, if it was a probe timeout (RFC 9002, section 6.2.4).
    fn allow_probe(&mut self, at: At, kind: TimerKind)
        ensures writing { self.new.writing ≡ self.old.writing }
        ensures rules { rules_of self.new ≡ rules_of self.old }
    {
        if kind != TimerKind::Pto {
            return;
        }
        self.probe.bytes = self.terms.datagram.saturating_mul(DATAGRAMS_OF_PROBE);
        self.probe.packets = DATAGRAMS_OF_PROBE;
        self.probe.time = at.time;
        if !self.known.logs_timers {
            self.pto_count = self.pto_count.saturating_add(1);
        }
    }

    /// Bytes that left with no event: quic-go takes packets out of flight that it probes for.
    fn forget(&mut self, at: At) -> Result<(), NoLine>
        ensures told { OnOk result (told_in self.new.writing ≡ told_in self.old.writing) }
        ensures rules { OnOk result (rules_of self.new ≡ rules_of self.old) }
    {
        let Some(level) = self.values.bytes.in_flight else {
            return Ok(());
        };
        let bytes = self.writing.flights.bytes();
        let reported = u128::from(level);
        if bytes <= reported {
            return Ok(());
        }
        match self
            .writing
            .flights
            .first_of_sum(self.writing.alloc, bytes - reported)?
        {
            Some(forgotten) => self.writing.forget(at, forgotten),
            None => Ok(self.writing.omit(Omission::FlightDiffers)?),
        }
    }
}

/// The bytes that packets add to those in flight.
fn bytes_in_flight(packets: &[Outgoing]) -> u64 {
    let mut bytes = 0u64;
    for packet in packets {
        if packet.is_in_flight() {
            bytes = bytes.saturating_add(packet.size.get());
        }
    }
    bytes
}

/// Whether some ACK frame of a packet has several ranges.
fn has_ranges(packet: &LoggedPacket) -> bool {
    packet
        .acks
        .iter()
        .any(|ack| 1 < ack.ranges.as_slice().len())
}

/// The first count of probe timeouts that is said beside packets.
fn count_of(beside: &[LoggedEvent]) -> Option<u64> {
    for event in beside {
        if let Said::Report(report) = &event.said {
            if report.pto_count.is_some() {
                return report.pto_count;
            }
        }
    }
    None
}

/// The packets whose sizes the bytes in flight show, in the order in which they do: those that are
/// in flight, or all if none is.
fn order_of(
    alloc: Global,
    packets: &[Outgoing],
    by_growth: bool,
) -> Result<Vec<usize>, AllocError> {
    let are_in_flight = packets.iter().any(|packet| packet.is_in_flight());
    let mut order = Vec::new(alloc);
    let mut last = Vec::new(alloc);
    for (place, packet) in packets.iter().enumerate() {
        if packet.is_in_flight() || !are_in_flight {
            if by_growth && packet.packet.space == Space::Initial {
                last.push(place)?;
            } else {
                order.push(place)?;
            }
        }
    }
    for place in last {
        order.push(place)?;
    }
    Ok(order)
}

/// The bytes in flight that are reported beside packets, or the last of them.
fn levels_of(
    alloc: Global,
    beside: &[LoggedEvent],
    is_last_alone: bool,
) -> Result<Vec<u64>, AllocError> {
    let mut levels = Vec::new(alloc);
    for event in beside {
        if let Said::Report(report) = &event.said {
            if let Some(level) = report.bytes.in_flight {
                if is_last_alone {
                    levels.clear();
                }
                levels.push(level)?;
            }
        }
    }
    Ok(levels)
}
