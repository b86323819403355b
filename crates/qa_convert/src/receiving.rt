//! Packets that come, and what their ACK frames say.
ghost use Rattle.std.specs.Prelude.{◌≡◌, ◌<◌, ◌≤◌, ◌++◌, ◌∷◌, [], IfOk, OnOk, length, take, true};
ghost use Rattle.std.specs.Prelude.{ℕ};
ghost use Rattle.qa_base.specs.declared.space.Space.TheVariants.{Handshake};
ghost use Rattle.qa_base.specs.values.Events.{is_space};
ghost use Rattle.qa_convert.specs.AckDelays.{AddsAcks, AddsAllOrNone, IsDelayOf, TellsAcks};
ghost use Rattle.qa_convert.specs.AckDelays.{decoding_of, lines_of};
ghost use Rattle.qa_convert.specs.Losing.{Leaves, NamesOnly, lost_in, packets_of};
ghost use Rattle.qa_convert.specs.KeyLines.{OnlyKeys, TellsKeys, known_by, with_come};
ghost use Rattle.qa_convert.specs.Rules.{rules_of, rules_stated, rules_with};
ghost use Rattle.qa_convert.specs.States.{stated};
ghost use Rattle.qa_convert.specs.Telling.{next_marks, told_in, will_say};
ghost use Rattle.qa_convert.specs.declared.guess.Guess.{Guess as AGuess};

use crate::conversion::{Conversion, LATE_BY_PROGRAM};
use crate::decoding::Decoding;
use crate::event::{At, LoggedEvent, LostPacket, Said};
use crate::flight::Flying;
use crate::groups::{LostAt, PacketAt};
use crate::guess::Guess;
use crate::handshake::Change;
use crate::looking::{top_in, top_of};
use crate::omission::Omission;
use crate::packet::{LoggedAck, LoggedPacket};
use crate::place::Place;
use crate::rounding::{Estimate, Reports};
use crate::values::Values;
use crate::writing::{NoLine, Writing};
use qa_base::{Ack, Event, PerSpace, Space};
use std::alloc::{AllocError, Global};
use std::collections::BTreeSet;

/// The packet threshold (RFC 9002, section 6.1.1).
const PACKET_THRESHOLD: u64 = 3;
/// The time threshold is in so many parts of the round-trip time.
const PARTS_OF_RTT: u128 = 8;
/// How much earlier than the log's a time may be, in nanoseconds: both ends of an age are cut to a
/// millisecond.
const EARLIER: u64 = 999_000;

impl Conversion {
    /// A packet came, with losses in front of it, and what is said behind it.
    pub(crate) fn on_received(
        &mut self,
        packet: &PacketAt,
        before: Vec<LostAt>,
        beside: &[LoggedEvent],
    ) -> Result<(), NoLine>
        ensures delays { OnOk result ((n : ℕ) × AddsAllOrNone
            (stated (take n beside.now) (decoding_of self.old)) packet.now.packet
            (told_in self.old.writing) (told_in self.new.writing)) }
        ensures sent { OnOk result ((told_in self.new.writing).sent
            ≡ (told_in self.old.writing).sent) }
        ensures timers { OnOk result ((told_in self.new.writing).timers
            ≡ (told_in self.old.writing).timers) }
        ensures keys { OnOk result (TellsKeys
            (with_come (is_space Handshake packet.now.packet.space) (known_by self.old.keys))
            (told_in self.old.writing) (told_in self.new.writing)) }
        ensures lost { OnOk result (NamesOnly (packets_of before.items ++ lost_in beside.now)
            (told_in self.old.writing) (told_in self.new.writing)) }
        ensures rules { OnOk result (rules_of self.new ≡ rules_stated beside.now
            (rules_with packet.now.packet.space (rules_of self.old))) }
    {
        self.has_come = true;
        let (beside, later) = beside.split_at(self.shown_part(packet, beside));
        let lost = self.lost_before(packet, before, beside)?;
        self.take_keys(packet)?;
        let held = self.values;
        let in_flight = self.writing.flights.bytes();
        let is_reported = self.take_beside(beside);
        let decoding = self.decoding();
        let before = Before {
            held,
            in_flight,
            is_reported,
            decoding,
        };
        let lost = or_among(self.writing.alloc, lost, beside)?;
        self.write_acks(packet, before, lost)?;
        self.after_acks(packet, before, beside, later)
    }

    /// By what ACK frames are read.
    fn decoding(&self) -> Decoding
        ensures { result ≡ decoding_of self.now }
    {
        Decoding {
            subtracts: self.terms.dialect.subtracts_delay,
            is_encoded: self.terms.dialect.delay_is_encoded,
            exponent: self.known.delay_exponent,
            unit: self.writing.output.unit,
            has_cut_times: self.known.has_cut_times,
            limited: self.terms.dialect.limited,
            is_limited: self.is_app_limited,
        }
    }

    /// A packet of the Handshake space shows that its keys are there.
    fn take_keys(&mut self, packet: &PacketAt) -> Result<(), NoLine>
        ensures keys { OnOk result (OnlyKeys (known_by self.new.keys)
            (told_in self.old.writing) (told_in self.new.writing)) }
        ensures rules { OnOk result (rules_of self.new
            ≡ rules_with packet.now.packet.space (rules_of self.old)) }
    {
        if packet.packet.space == Space::Handshake {
            self.keys.take_keys(&mut self.writing, packet.at)?;
        }
        Ok(())
    }

    /// What a packet says beside its ACK frames, and what is said behind it.
    fn after_acks(
        &mut self,
        packet: &PacketAt,
        before: Before,
        beside: &[LoggedEvent],
        later: &[LoggedEvent],
    ) -> Result<(), NoLine>
        ensures acks { OnOk result ((told_in self.new.writing).acks
            ≡ (told_in self.old.writing).acks) }
        ensures sent { OnOk result ((told_in self.new.writing).sent
            ≡ (told_in self.old.writing).sent) }
        ensures timers { OnOk result ((told_in self.new.writing).timers
            ≡ (told_in self.old.writing).timers) }
        ensures keys { OnOk result ((told_in self.new.writing).keys
            ≡ (told_in self.old.writing).keys) }
        ensures lost { OnOk result (NamesOnly (lost_in later.now) (told_in self.old.writing)
            (told_in self.new.writing)) }
        ensures rules { OnOk result (rules_of self.new
            ≡ rules_stated later.now (rules_of self.old)) }
    {
        if before.is_reported && self.writing.flights.bytes() < before.in_flight {
            self.take_zero();
        }
        if packet.packet.content.has_handshake_done {
            self.keys.on_done(&mut self.writing, packet.at)?;
        }
        if before.is_reported {
            self.report(latest_report(packet.at.time, beside))?;
        } else if before.held != self.values {
            self.report(packet.at.time)?;
        }
        self.keys.after_received(packet.at, self.known.turns);
        self.detections(later)
    }

    /// The losses in front of a packet, if it shows them; others are those of a timer.
    fn lost_before(
        &mut self,
        packet: &PacketAt,
        before: Vec<LostAt>,
        beside: &[LoggedEvent],
    ) -> Result<Vec<LostAt>, NoLine>
        ensures sent { OnOk result ((told_in self.new.writing).sent
            ≡ (told_in self.old.writing).sent) }
        ensures timers { OnOk result ((told_in self.new.writing).timers
            ≡ (told_in self.old.writing).timers) }
        ensures keys { OnOk result ((told_in self.new.writing).keys
            ≡ (told_in self.old.writing).keys) }
        ensures acks { OnOk result ((told_in self.new.writing).acks
            ≡ (told_in self.old.writing).acks) }
        ensures lost { IfOk result (λ left. Leaves (packets_of before.items)
            (packets_of left.items) (told_in self.old.writing) (told_in self.new.writing)) }
        ensures rules { OnOk result (rules_of self.new ≡ rules_of self.old) }
    {
        let Some(first) = before.first() else {
            return Ok(before);
        };
        let at = first.at;
        if self.is_shown(&before, packet, beside) {
            return Ok(before);
        }
        self.lost_alone(at, &before, &[])?;
        Ok(Vec::new(self.writing.alloc))
    }

    /// Writes the lines of the ACK frames of a packet, and of the losses that it shows.
    fn write_acks(
        &mut self,
        packet: &PacketAt,
        before: Before,
        lost: Vec<LostAt>,
    ) -> Result<(), NoLine>
        ensures acks { OnOk result (TellsAcks before.decoding self.new.keys packet.now.packet
            (told_in self.old.writing) (told_in self.new.writing)) }
        ensures sent { OnOk result ((told_in self.new.writing).sent
            ≡ (told_in self.old.writing).sent) }
        ensures timers { OnOk result ((told_in self.new.writing).timers
            ≡ (told_in self.old.writing).timers) }
        ensures keys { OnOk result ((told_in self.new.writing).keys
            ≡ (told_in self.old.writing).keys) }
        ensures lost { OnOk result (NamesOnly (packets_of lost.items) (told_in self.old.writing)
            (told_in self.new.writing)) }
        ensures rules { OnOk result (rules_of self.new ≡ rules_of self.old) }
    {
        self.settle_received(packet, &lost)?;
        if packet.packet.acks.is_empty() {
            return match lost.first() {
                Some(first) => self.lost_alone(first.at, &lost, &[]),
                None => Ok(()),
            };
        }
        if self.keys.are_gone(packet.packet.space) {
            return Ok(pass_over(&mut self.writing, &packet.packet.acks)?);
        }
        self.write_each(packet, before, &lost)
    }

    /// Writes the lines of the ACK frames of a packet, and of the losses that the first shows.
    fn write_each(
        &mut self,
        packet: &PacketAt,
        before: Before,
        lost: &[LostAt],
    ) -> Result<(), NoLine>
        ensures acks { OnOk result (AddsAcks before.decoding packet.now.packet.space
            packet.now.packet.acks.items (told_in self.old.writing) (told_in self.new.writing)) }
        ensures sent { OnOk result ((told_in self.new.writing).sent
            ≡ (told_in self.old.writing).sent) }
        ensures timers { OnOk result ((told_in self.new.writing).timers
            ≡ (told_in self.old.writing).timers) }
        ensures keys { OnOk result ((told_in self.new.writing).keys
            ≡ (told_in self.old.writing).keys) }
        ensures lost { OnOk result (NamesOnly (packets_of lost.now) (told_in self.old.writing)
            (told_in self.new.writing)) }
        ensures rules { OnOk result (rules_of self.new ≡ rules_of self.old) }
    {
        let mut lost = lost;
        for ack in &packet.packet.acks {
            self.write_ack(packet, ack, before, lost)?;
            lost = &[];
        }
        Ok(())
    }

    /// How much of what is beside a packet is of it, if the log has no timers: up to a loss that no
    /// acknowledgment of it can show.
    fn shown_part(&self, packet: &PacketAt, beside: &[LoggedEvent]) -> usize
        ensures { result ≤ length beside.now }
    {
        if self.known.logs_timers {
            return beside.len();
        }
        for (place, event) in beside.iter().enumerate() {
            let is_shown = match &event.said {
                Said::Lost(lost) => self.can_be_shown(event.at.time, *lost, packet),
                Said::OtherLost => false,
                _ => true,
            };
            if !is_shown {
                return place;
            }
        }
        beside.len()
    }

    /// Whether a packet can show a loss: by a number that is far enough below, or by its age if it
    /// was found at the same time.
    fn can_be_shown(&self, time: u64, lost: LostPacket, packet: &PacketAt) -> bool {
        if lost.space != packet.packet.space {
            return false;
        }
        let number = lost.number.get();
        let top = top_of(&packet.packet.acks);
        let is_far = match top {
            Some(top) => number.saturating_add(PACKET_THRESHOLD) <= top,
            None => false,
        };
        let late = time.saturating_sub(packet.at.time);
        if self.known.gap < late && !is_far {
            return false;
        }
        let largest = self.largest.of(lost.space).unwrap_or(0);
        number < top.unwrap_or(0).max(largest)
    }

    /// Whether an acknowledgment shows losses, by number, or by age at the round-trip time behind
    /// it.
    fn is_shown(&self, lost: &[LostAt], packet: &PacketAt, beside: &[LoggedEvent]) -> bool {
        let (Some(first), Some(top)) = (lost.first(), top_of(&packet.packet.acks)) else {
            return false;
        };
        let is_below = first.lost.number.get() <= top && packet.at.time == first.at.time;
        if !is_below
            || lost
                .iter()
                .any(|it| is_acknowledged(&packet.packet, it.lost))
        {
            return false;
        }
        let parts = u128::from(self.terms.dialect.time_threshold_eighths)
            * u128::from(rtt_of(beside));
        for it in lost {
            let number = it.lost.number.get();
            if number.saturating_add(PACKET_THRESHOLD) <= top {
                return true;
            }
            let sent = self.time_of(first.lost.space, number);
            let age = packet.at.time.saturating_sub(sent);
            if parts <= PARTS_OF_RTT * u128::from(age) {
                return true;
            }
        }
        false
    }

    /// When a packet in flight was sent; 0 for another.
    pub(crate) fn time_of(&self, space: Space, number: u64) -> u64 {
        match self.writing.flights.of(space).get(number) {
            Some(packet) => packet.time,
            None => 0,
        }
    }

    /// The discards that are due, by what leaves with an acknowledgment and its losses.
    fn settle_received(&mut self, packet: &PacketAt, lost: &[LostAt]) -> Result<(), NoLine>
        ensures told { OnOk result (told_in self.new.writing ≡ told_in self.old.writing) }
        ensures rules { OnOk result (rules_of self.new ≡ rules_of self.old) }
    {
        if !self.keys.awaits_discard() {
            return Ok(());
        }
        let taken = self.leaving(packet, lost)?;
        let level = self.values.bytes.in_flight;
        self.keys.settle(
            &mut self.writing,
            packet.at,
            level,
            Change { added: 0, taken },
        )
    }

    /// The bytes that leave with what a packet acknowledges, and with losses.
    fn leaving(&self, packet: &PacketAt, lost: &[LostAt]) -> Result<u128, AllocError> {
        let alloc = self.writing.alloc;
        let mut gone = PerSpace {
            initial: BTreeSet::new(alloc),
            handshake: BTreeSet::new(alloc),
            app: BTreeSet::new(alloc),
        };
        let space = packet.packet.space;
        for ack in &packet.packet.acks {
            self.writing
                .flights
                .of(space)
                .add_named(&ack.ranges, gone.of_mut(space))?;
        }
        for it in lost {
            gone.of_mut(it.lost.space).insert(it.lost.number.get())?;
        }
        let mut taken = 0u128;
        for space in [Space::Initial, Space::Handshake, Space::App] {
            let bytes = self.writing.flights.of(space).bytes_of(gone.of(space));
            taken = taken.saturating_add(bytes);
        }
        Ok(taken)
    }

    /// Writes the line of an ACK frame, and of the losses that it shows.
    fn write_ack(
        &mut self,
        packet: &PacketAt,
        ack: &LoggedAck,
        before: Before,
        lost: &[LostAt],
    ) -> Result<(), NoLine>
        ensures acks { OnOk result (AddsAcks before.decoding packet.now.packet.space
            (ack.now ∷ []) (told_in self.old.writing) (told_in self.new.writing)) }
        ensures sent { OnOk result ((told_in self.new.writing).sent
            ≡ (told_in self.old.writing).sent) }
        ensures timers { OnOk result ((told_in self.new.writing).timers
            ≡ (told_in self.old.writing).timers) }
        ensures keys { OnOk result ((told_in self.new.writing).keys
            ≡ (told_in self.old.writing).keys) }
        ensures lost { OnOk result (NamesOnly (packets_of lost.now) (told_in self.old.writing)
            (told_in self.new.writing)) }
        ensures rules { OnOk result (rules_of self.new ≡ rules_of self.old) }
    {
        let space = packet.packet.space;
        let Some(top) = top_in(ack) else {
            return Ok(self.writing.omit(Omission::AckOfNothing)?);
        };
        let sent = self.writing.flights.of(space).get(top);
        self.writing.flights.take_named(space, &ack.ranges);
        let answer = Answer {
            ack,
            top,
            before,
            lost,
        };
        let (nanoseconds, delay) = self.came(packet, sent, answer)?;
        let is_limited = self.is_limited(before.decoding, before.held.bytes.window)?;
        let app_limited = is_limited && lost.is_empty();
        let time = self.writing.next_time(nanoseconds)?;
        let answer = Ack {
            time,
            space,
            ranges: ack.ranges.duplicate(self.writing.alloc)?,
            delay: before.decoding.in_unit(delay),
            app_limited,
        };
        self.put_ack(packet.at.place, answer)?;
        self.probe.packets = 0;
        let largest = self.largest.of_mut(space);
        *largest = Some(top.max(largest.unwrap_or(0)));
        self.write_lost(packet.at.time, lost)
    }

    /// Writes the line of an acknowledgment, if it names a packet.
    fn put_ack(&mut self, place: Place, answer: Ack) -> Result<(), NoLine>
        ensures acks { OnOk result ((told_in self.new.writing).acks
            ≡ (told_in self.old.writing).acks ++ lines_of (next_marks self.old.writing) answer) }
        ensures sent { OnOk result ((told_in self.new.writing).sent
            ≡ (told_in self.old.writing).sent) }
        ensures timers { OnOk result ((told_in self.new.writing).timers
            ≡ (told_in self.old.writing).timers) }
        ensures keys { OnOk result ((told_in self.new.writing).keys
            ≡ (told_in self.old.writing).keys) }
        ensures lost { OnOk result ((told_in self.new.writing).lost
            ≡ (told_in self.old.writing).lost) }
        ensures rules { OnOk result (rules_of self.new ≡ rules_of self.old) }
    {
        let event = Event::Ack(answer);
        if !event.fits() {
            return Ok(());
        }
        self.writing.output.write(event, place, place)?;
        Ok(())
    }

    /// When an acknowledgment came, and its delay, in nanoseconds.
    fn came(
        &mut self,
        packet: &PacketAt,
        sent: Option<Flying>,
        answer: Answer<'_>,
    ) -> Result<(u64, u64), AllocError>
        ensures told { OnOk result (told_in self.new.writing ≡ told_in self.old.writing) }
        ensures delay { IfOk result (λ came. IsDelayOf answer.entry.before.decoding
            packet.now.packet.space answer.entry.ack.now came.1) }
        ensures rules { OnOk result (rules_of self.new ≡ rules_of self.old) }
    {
        match sent {
            Some(sent) => self.settled(packet, sent.time, answer),
            None => {
                let space = packet.packet.space;
                let time = self.moment(packet.at, space, answer.top, answer.lost)?;
                Ok((time, answer.before.decoding.delay(space, answer.ack)))
            }
        }
    }

    /// When an acknowledgment came whose largest packet was in flight, and its delay, both as the
    /// reports show them.
    fn settled(
        &mut self,
        packet: &PacketAt,
        sent: u64,
        answer: Answer<'_>,
    ) -> Result<(u64, u64), AllocError>
        ensures told { OnOk result (told_in self.new.writing ≡ told_in self.old.writing) }
        ensures delay { IfOk result (λ came. IsDelayOf answer.entry.before.decoding
            packet.now.packet.space answer.entry.ack.now came.1) }
        ensures rules { OnOk result (rules_of self.new ≡ rules_of self.old) }
    {
        let Before { held, decoding, .. } = answer.before;
        let space = packet.packet.space;
        let smoothed = self.values.rtts.smoothed.unwrap_or(0);
        let mut time = packet.at.time;
        if time.saturating_sub(sent) < smoothed {
            time = self.moment(packet.at, space, answer.top, answer.lost)?;
        }
        let delay = decoding.delay(space, answer.ack);
        if self.terms.dialect.is_read_late {
            time = self.arrival(time, sent, delay, held)?;
        }
        if !decoding.has_cut_times {
            return Ok((time, delay));
        }
        let delay = self.settled_delay(time.saturating_sub(sent), delay, held)?;
        Ok((time, delay))
    }

    /// The time of an acknowledgment or a loss timer, in nanoseconds.
    ///
    /// In a log whose times are cut it is part of a millisecond earlier, if a packet that is not
    /// declared lost then is only by that younger than the loss delay.
    pub(crate) fn moment(
        &mut self,
        at: At,
        space: Space,
        top: u64,
        lost: &[LostAt],
    ) -> Result<u64, AllocError>
        ensures says_more { OnOk result ((g : AGuess) → will_say self.old.writing g ≡ true
            → will_say self.new.writing g ≡ true) }
        ensures told { OnOk result (told_in self.new.writing ≡ told_in self.old.writing) }
        ensures bare { OnOk result (self.new.writing.bare ≡ self.old.writing.bare) }
        ensures rules { OnOk result (rules_of self.new ≡ rules_of self.old) }
    {
        let rtt = self.values.greater_rtt();
        let Some(earlier) = at.time.checked_sub(EARLIER) else {
            return Ok(at.time);
        };
        if !self.known.has_cut_times || rtt == 0 || !self.writing.may_be(earlier) {
            return Ok(at.time);
        }
        let eighths = self.terms.dialect.time_threshold_eighths;
        let flight = self.writing.flights.of(space);
        if !flight.has_open(
            top,
            Loss {
                time: at.time,
                rtt,
                eighths,
            },
            space,
            lost,
        ) {
            return Ok(at.time);
        }
        self.writing.guess(Guess::Moment)?;
        Ok(earlier)
    }

    /// When an acknowledgment came, in nanoseconds, in a log whose times are read late.
    ///
    /// If the sample by the log is longer than the reported one, by more than the delay that may
    /// have been taken off, then the log is late by that.
    fn arrival(&mut self, time: u64, sent: u64, delay: u64, held: Values) -> Result<u64, AllocError>
        ensures told { OnOk result (told_in self.new.writing ≡ told_in self.old.writing) }
        ensures rules { OnOk result (rules_of self.new ≡ rules_of self.old) }
    {
        let latest = self.values.rtts.latest.unwrap_or(0);
        let is_new = latest != held.rtts.latest.unwrap_or(0);
        let came = sent.saturating_add(latest);
        let late = time.saturating_sub(came);
        let least = self
            .terms
            .dialect
            .slack_us
            .saturating_mul(1_000)
            .saturating_add(delay);
        let is_late = is_new && least < late && late <= LATE_BY_PROGRAM;
        if !is_late || !self.writing.may_be(came) {
            return Ok(time);
        }
        self.writing.guess(Guess::Arrival)?;
        Ok(came)
    }

    /// The delay by which a sample was computed, as the reports before and after it show.
    fn settled_delay(&mut self, latest: u64, delay: u64, held: Values) -> Result<u64, AllocError>
        ensures told { OnOk result (told_in self.new.writing ≡ told_in self.old.writing) }
        ensures rules { OnOk result (rules_of self.new ≡ rules_of self.old) }
    {
        let longest = if self.keys.is_confirmed {
            self.known.max_ack_delay
        } else {
            None
        };
        let reports = reports_of(held, self.values);
        let settled = self.delays.settled(latest, delay, longest, reports);
        if settled != delay {
            self.writing.guess(Guess::Delay)?;
        }
        Ok(settled)
    }
}

/// Passes over the ACK frames of a packet of a space whose keys are gone.
fn pass_over(writing: &mut Writing, acks: &[LoggedAck]) -> Result<(), AllocError>
    ensures told { OnOk result (told_in writing.new ≡ told_in writing.old) }
    ensures unit { OnOk result (writing.new.output.unit ≡ writing.old.output.unit) }
{
    for ack in acks {
        let omission = match top_in(ack) {
            Some(_) => Omission::AckOfGoneSpace,
            None => Omission::AckOfNothing,
        };
        writing.omit(omission)?;
    }
    Ok(())
}

/// The losses in front of a packet, or those among events where there are none.
fn or_among(
    alloc: Global,
    lost: Vec<LostAt>,
    events: &[LoggedEvent],
) -> Result<Vec<LostAt>, AllocError>
    ensures some { 0 < length lost.items → IfOk result (λ losses. losses.items ≡ lost.items) }
    ensures none { length lost.items ≡ 0
        → IfOk result (λ losses. packets_of losses.items ≡ lost_in events.now) }
{
    if lost.is_empty() {
        losses_in(alloc, events)
    } else {
        Ok(lost)
    }
}

/// What was known before the ACK frames of a packet were taken in: the last report, the bytes in
/// flight, whether a report is beside the packet, and by what delays are decoded.
#[derive(Clone, Copy)]
struct Before {
    held: Values,
    in_flight: u128,
    is_reported: bool,
    decoding: Decoding,
}

/// An ACK frame, the largest number that it names, what was known before its packet came, and the
/// losses that it shows.
#[derive(Clone, Copy)]
struct Answer<'a> {
    ack: &'a LoggedAck,
    top: u64,
    before: Before,
    lost: &'a [LostAt],
}

/// When losses are looked for, and the round-trip time and the eighths of it by which they are.
#[derive(Clone, Copy)]
pub(crate) struct Loss {
    pub(crate) time: u64,
    pub(crate) rtt: u64,
    pub(crate) eighths: u64,
}

/// The estimates before and after, if both reports have them.
fn reports_of(before: Values, after: Values) -> Option<Reports> {
    match (estimate_of(before), estimate_of(after)) {
        (Some(before), Some(after)) => Some(Reports { before, after }),
        _ => None,
    }
}

/// The estimate of values that have one.
fn estimate_of(values: Values) -> Option<Estimate> {
    match (values.rtts.smoothed, values.rtts.variance) {
        (Some(smoothed_rtt), Some(rttvar)) => Some(Estimate {
            smoothed_rtt,
            rttvar,
        }),
        _ => None,
    }
}

/// The greater of the two round-trip times that the last event beside a packet reports.
fn rtt_of(beside: &[LoggedEvent]) -> u64 {
    let Some(last) = beside.last() else {
        return 0;
    };
    match &last.said {
        Said::Report(report) => {
            report
                .rtts
                .latest
                .unwrap_or(0)
                .max(report.rtts.smoothed.unwrap_or(0))
        }
        _ => 0,
    }
}

/// Whether a packet acknowledges one that is declared lost.
fn is_acknowledged(packet: &LoggedPacket, lost: LostPacket) -> bool {
    let number = lost.number;
    packet.acks.iter().any(|ack| {
        ack.ranges
            .as_slice()
            .iter()
            .any(|span| span.lo() <= number && number <= span.hi())
    })
}

/// The losses among events.
pub(crate) fn losses_in(alloc: Global, events: &[LoggedEvent]) -> Result<Vec<LostAt>, AllocError>
    ensures { IfOk result (λ losses. packets_of losses.items ≡ lost_in events.now) }
{
    let mut losses = Vec::new(alloc);
    for event in events {
        if let Said::Lost(lost) = &event.said {
            losses.push(LostAt {
                at: event.at,
                lost: *lost,
            })?;
        }
    }
    Ok(losses)
}

/// The latest time of the reports among events, or this one.
fn latest_report(time: u64, beside: &[LoggedEvent]) -> u64 {
    let mut latest = time;
    for event in beside {
        if matches!(&event.said, Said::Report(_)) {
            latest = latest.max(event.at.time);
        }
    }
    latest
}
