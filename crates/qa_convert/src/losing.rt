//! Losses that are declared, and the timers that find them.
ghost use Rattle.std.specs.Prelude.{◌≡◌, ◌++◌, ◌∷◌, [], ℕ, Bool, IfNone, IfOk, IfSome, OnOk, false};
ghost use Rattle.std.specs.List.{list_any};
ghost use Rattle.qa_base.specs.values.Events.{is_space};
ghost use Rattle.qa_convert.specs.Losing.{ArePacketNumbers, Names, in_flight, in_space, is_among};
ghost use Rattle.qa_convert.specs.Losing.{is_in, lost_in, packets_of, with_fit};
ghost use Rattle.qa_convert.specs.Rules.{rules_of, rules_stated};
ghost use Rattle.qa_convert.specs.States.{state_after};
ghost use Rattle.qa_convert.specs.Telling.{next_marks, told_in};
ghost use Rattle.qa_convert.specs.Timers.{AddsTimers, WritesTimer};
ghost use Rattle.qa_convert.specs.declared.guess.Guess.TheVariants as a_guess;

use crate::conversion::{Conversion, LATE_BY_PROGRAM, latest_of};
use crate::event::{At, Expiry, LoggedEvent, LostPacket, Said};
use crate::groups::LostAt;
use crate::guess::Guess;
use crate::omission::{Limit, Omission};
use crate::place::Place;
use crate::receiving::losses_in;
use crate::writing::{NoLine, spans_of};
use qa_base::{Event, PerSpace, Space, TimerKind};
use std::alloc::{AllocError, Global};
use std::collections::BTreeSet;

/// The time threshold is in so many parts of the round-trip time.
const PARTS_OF_RTT: u128 = 8;

impl Conversion {
    /// Losses with what is said behind them.
    pub(crate) fn on_lost(
        &mut self,
        losses: Vec<LostAt>,
        beside: Vec<LoggedEvent>,
    ) -> Result<(), NoLine>
        ensures sent { OnOk result ((told_in self.new.writing).sent
            ≡ (told_in self.old.writing).sent) }
        ensures timers { OnOk result ((told_in self.new.writing).timers
            ≡ (told_in self.old.writing).timers) }
        ensures keys { OnOk result ((told_in self.new.writing).keys
            ≡ (told_in self.old.writing).keys) }
        ensures acks { OnOk result ((told_in self.new.writing).acks
            ≡ (told_in self.old.writing).acks) }
        ensures lost { OnOk result (Names (in_flight self.old.writing.bare
            (packets_of losses.items ++ lost_in beside.items)) (told_in self.old.writing)
            (told_in self.new.writing)) }
        ensures rules { OnOk result (rules_of self.new
            ≡ rules_stated beside.items (rules_of self.old)) }
    {
        let events = joined(self.writing.alloc, losses, beside)?;
        if self.known.logs_timers {
            return self.detected(&events);
        }
        self.detections(&events)
    }

    /// Losses, with what is said among them, by the times at which they were found.
    pub(crate) fn detections(&mut self, events: &[LoggedEvent]) -> Result<(), NoLine>
        ensures sent { OnOk result ((told_in self.new.writing).sent
            ≡ (told_in self.old.writing).sent) }
        ensures timers { OnOk result ((told_in self.new.writing).timers
            ≡ (told_in self.old.writing).timers) }
        ensures keys { OnOk result ((told_in self.new.writing).keys
            ≡ (told_in self.old.writing).keys) }
        ensures acks { OnOk result ((told_in self.new.writing).acks
            ≡ (told_in self.old.writing).acks) }
        ensures lost { OnOk result (Names (in_flight self.old.writing.bare
            (lost_in events.now)) (told_in self.old.writing) (told_in self.new.writing)) }
        ensures bare { OnOk result (self.new.writing.bare ≡ self.old.writing.bare) }
        ensures rules { OnOk result (rules_of self.new
            ≡ rules_stated events.now (rules_of self.old)) }
    {
        let gap = self.known.gap;
        let mut begun = 0;
        let mut last: Option<u64> = None;
        for place in 0..events.len() {
            if !is_loss(&events[place]) {
                continue;
            }
            let time = events[place].at.time;
            if let Some(before) = last {
                if gap < time.saturating_sub(before) && begun <= place {
                    self.detected(&events[begun..place])?;
                    begun = place;
                }
            }
            last = Some(time);
        }
        if begun < events.len() {
            self.detected(&events[begun..])?;
        }
        Ok(())
    }

    /// Losses that were found at one time, with what is said among them.
    fn detected(&mut self, events: &[LoggedEvent]) -> Result<(), NoLine>
        ensures sent { OnOk result ((told_in self.new.writing).sent
            ≡ (told_in self.old.writing).sent) }
        ensures timers { OnOk result ((told_in self.new.writing).timers
            ≡ (told_in self.old.writing).timers) }
        ensures keys { OnOk result ((told_in self.new.writing).keys
            ≡ (told_in self.old.writing).keys) }
        ensures acks { OnOk result ((told_in self.new.writing).acks
            ≡ (told_in self.old.writing).acks) }
        ensures lost { OnOk result (Names (in_flight self.old.writing.bare
            (lost_in events.now)) (told_in self.old.writing) (told_in self.new.writing)) }
        ensures bare { OnOk result (self.new.writing.bare ≡ self.old.writing.bare) }
        ensures rules { OnOk result (rules_of self.new
            ≡ rules_stated events.now (rules_of self.old)) }
    {
        let Some(first) = events.first() else {
            return Ok(());
        };
        let at = first.at;
        let losses = losses_in(self.writing.alloc, events)?;
        self.lost_alone(at, &losses, events)
    }

    /// Losses that no acknowledgment shows: those of a timer, if the log has no timers.
    ///
    /// The loss timer is set for packets below an acknowledged number alone. Some senders declare
    /// others lost too, at a probe timeout or when they send again, and for these nothing is in
    /// front of the line of the losses.
    pub(crate) fn lost_alone(
        &mut self,
        at: At,
        losses: &[LostAt],
        beside: &[LoggedEvent],
    ) -> Result<(), NoLine>
        ensures sent { OnOk result ((told_in self.new.writing).sent
            ≡ (told_in self.old.writing).sent) }
        ensures timers { OnOk result ((told_in self.new.writing).timers
            ≡ (told_in self.old.writing).timers) }
        ensures keys { OnOk result ((told_in self.new.writing).keys
            ≡ (told_in self.old.writing).keys) }
        ensures acks { OnOk result ((told_in self.new.writing).acks
            ≡ (told_in self.old.writing).acks) }
        ensures lost { OnOk result (Names (in_flight self.old.writing.bare
            (packets_of losses.now)) (told_in self.old.writing) (told_in self.new.writing)) }
        ensures bare { OnOk result (self.new.writing.bare ≡ self.old.writing.bare) }
        ensures rules { OnOk result (rules_of self.new
            ≡ rules_stated beside.now (rules_of self.old)) }
    {
        match self.first_in_flight(losses) {
            Some(first) => self.show(first, losses)?,
            None => {}
        }
        self.after_timer(at, losses, beside)
    }

    /// Writes the timer that found losses, if one can have.
    fn show(&mut self, first: LostAt, losses: &[LostAt]) -> Result<(), NoLine>
        ensures told { OnOk result (told_in self.new.writing ≡ told_in self.old.writing) }
        ensures bare { OnOk result (self.new.writing.bare ≡ self.old.writing.bare) }
        ensures rules { OnOk result (rules_of self.new ≡ rules_of self.old) }
    {
        let LostAt { at, lost } = first;
        let largest = self.largest.of(lost.space).unwrap_or(0);
        if self.known.logs_timers || largest <= lost.number.get() {
            return Ok(self.writing.omit(Omission::LossOfNothing)?);
        }
        self.writing.guess(Guess::LossTimer)?;
        let time = self.moment(at, lost.space, largest, losses)?;
        self.write_timer(at, TimerKind::Loss, lost.space, time)
    }

    /// The first loss that is not one of a packet that is not in flight.
    fn first_in_flight(&self, losses: &[LostAt]) -> Option<LostAt> {
        for it in losses {
            if !self.writing.has_bare(it.lost.space, it.lost.number.get()) {
                return Some(*it);
            }
        }
        None
    }

    /// A timer expired.
    pub(crate) fn on_timer(
        &mut self,
        at: At,
        expiry: Expiry,
        beside: &[LoggedEvent],
    ) -> Result<(), NoLine>
        ensures sent { OnOk result ((told_in self.new.writing).sent
            ≡ (told_in self.old.writing).sent) }
        ensures timers { OnOk result (AddsTimers (expiry ∷ []) (told_in self.old.writing)
            (told_in self.new.writing)) }
        ensures keys { OnOk result ((told_in self.new.writing).keys
            ≡ (told_in self.old.writing).keys) }
        ensures acks { OnOk result ((told_in self.new.writing).acks
            ≡ (told_in self.old.writing).acks) }
        ensures lost { OnOk result (Names (in_flight self.old.writing.bare
            (lost_in beside.now)) (told_in self.old.writing) (told_in self.new.writing)) }
        ensures rules { OnOk result (rules_of self.new
            ≡ rules_stated beside.now (rules_of self.old)) }
    {
        let losses = losses_in(self.writing.alloc, beside)?;
        self.write_expired(at, expiry, &losses, beside)?;
        self.after_timer(at, &losses, beside)
    }

    /// Writes the line of a timer, if it did something.
    fn write_expired(
        &mut self,
        at: At,
        expiry: Expiry,
        losses: &[LostAt],
        beside: &[LoggedEvent],
    ) -> Result<(), NoLine>
        ensures timers { OnOk result (AddsTimers (expiry ∷ []) (told_in self.old.writing)
            (told_in self.new.writing)) }
        ensures keys { OnOk result ((told_in self.new.writing).keys
            ≡ (told_in self.old.writing).keys) }
        ensures sent { OnOk result ((told_in self.new.writing).sent
            ≡ (told_in self.old.writing).sent) }
        ensures acks { OnOk result ((told_in self.new.writing).acks
            ≡ (told_in self.old.writing).acks) }
        ensures lost { OnOk result ((told_in self.new.writing).lost
            ≡ (told_in self.old.writing).lost) }
        ensures bare { OnOk result (self.new.writing.bare ≡ self.old.writing.bare) }
        ensures rules { OnOk result (rules_of self.new ≡ rules_of self.old) }
    {
        let is_alone = self.first_in_flight(losses).is_none();
        let has_losses = beside.iter().any(|event| is_loss(event));
        let is_counted = beside.iter().any(|event| has_count(event));
        let is_idle = self.known.counts_at_timers && !is_counted;
        let Some(kind) = kind_of(expiry, has_losses, is_counted) else {
            return Ok(self.writing.omit(Omission::OtherTimer)?);
        };
        let omission = match kind {
            TimerKind::Loss if is_alone && has_losses => Some(Omission::BareTimer),
            TimerKind::Loss if is_alone => Some(Omission::IdleTimer),
            TimerKind::Pto if is_alone && is_idle => Some(Omission::IdleTimer),
            _ => None,
        };
        match omission {
            Some(omission) => Ok(self.writing.omit(omission)?),
            None => self.expired(at, expiry, kind, losses),
        }
    }

    /// Writes the line of a timer that did something.
    fn expired(
        &mut self,
        at: At,
        expiry: Expiry,
        kind: TimerKind,
        losses: &[LostAt],
    ) -> Result<(), NoLine>
        ensures writes { OnOk result ((writes : WritesTimer false kind (told_in self.old.writing)
            (told_in self.new.writing)) × IfSome expiry.space (λ space. writes.space ≡ space)) }
        ensures bare { OnOk result (self.new.writing.bare ≡ self.old.writing.bare) }
        ensures rules { OnOk result (rules_of self.new ≡ rules_of self.old) }
    {
        let found = self.see_first(losses);
        let space = self.space_of_timer(expiry, kind, found)?;
        self.write_timer(at, kind, space, at.time)
    }

    /// Sees how old the first packet in flight is that a loss timer found; its space.
    fn see_first(&mut self, losses: &[LostAt]) -> Option<Space>
        ensures writing { self.new.writing ≡ self.old.writing }
        ensures rules { rules_of self.new ≡ rules_of self.old }
    {
        for it in losses {
            if !self.writing.has_bare(it.lost.space, it.lost.number.get()) {
                self.see_age(it.at.time, it.lost);
                return Some(it.lost.space);
            }
        }
        None
    }

    /// Sees how old the packet is that a loss timer found at a time.
    fn see_age(&mut self, time: u64, lost: LostPacket)
        ensures writing { self.new.writing ≡ self.old.writing }
        ensures rules { rules_of self.new ≡ rules_of self.old }
    {
        let rtt = u128::from(self.values.greater_rtt());
        let sent = self.time_of(lost.space, lost.number.get());
        if rtt == 0 || sent == 0 {
            return;
        }
        let age = time.saturating_sub(sent);
        let parts = u128::from(self.terms.dialect.time_threshold_eighths) * rtt;
        let is_past = parts < PARTS_OF_RTT * u128::from(age.saturating_sub(LATE_BY_PROGRAM));
        // Loss timers that are all later than 6/5 of the round-trip time go by another threshold.
        let is_late = 6 * rtt < 5 * u128::from(age) && is_past;
        self.are_timers_late = Some(is_late && self.are_timers_late != Some(false));
    }

    /// The space that the log names, else that of what the timer found.
    fn space_of_timer(
        &mut self,
        expiry: Expiry,
        kind: TimerKind,
        found: Option<Space>,
    ) -> Result<Space, AllocError>
        ensures space { IfOk result (λ found. IfSome expiry.space (λ space. found ≡ space)) }
        ensures told { OnOk result (told_in self.new.writing ≡ told_in self.old.writing) }
        ensures bare { OnOk result (self.new.writing.bare ≡ self.old.writing.bare) }
        ensures rules { OnOk result (rules_of self.new ≡ rules_of self.old) }
    {
        if let Some(space) = expiry.space {
            return Ok(space);
        }
        self.writing.guess(Guess::TimerSpace)?;
        match (kind, found) {
            (TimerKind::Loss, Some(space)) => Ok(space),
            _ => Ok(self.probed_space()),
        }
    }

    /// The losses that a timer found, if it was one, and the values behind them.
    fn after_timer(
        &mut self,
        at: At,
        losses: &[LostAt],
        beside: &[LoggedEvent],
    ) -> Result<(), NoLine>
        ensures sent { OnOk result ((told_in self.new.writing).sent
            ≡ (told_in self.old.writing).sent) }
        ensures timers { OnOk result ((told_in self.new.writing).timers
            ≡ (told_in self.old.writing).timers) }
        ensures keys { OnOk result ((told_in self.new.writing).keys
            ≡ (told_in self.old.writing).keys) }
        ensures acks { OnOk result ((told_in self.new.writing).acks
            ≡ (told_in self.old.writing).acks) }
        ensures lost { OnOk result (Names (in_flight self.old.writing.bare
            (packets_of losses.now)) (told_in self.old.writing) (told_in self.new.writing)) }
        ensures bare { OnOk result (self.new.writing.bare ≡ self.old.writing.bare) }
        ensures rules { OnOk result (rules_of self.new
            ≡ rules_stated beside.now (rules_of self.old)) }
    {
        self.write_lost(at.time, losses)?;
        if self.take_beside(beside) {
            self.report(latest_of(0, beside))?;
        }
        Ok(())
    }

    /// Writes the line of the losses of each space, at a time.
    pub(crate) fn write_lost(&mut self, time: u64, losses: &[LostAt]) -> Result<(), NoLine>
        ensures sent { OnOk result ((told_in self.new.writing).sent
            ≡ (told_in self.old.writing).sent) }
        ensures timers { OnOk result ((told_in self.new.writing).timers
            ≡ (told_in self.old.writing).timers) }
        ensures keys { OnOk result ((told_in self.new.writing).keys
            ≡ (told_in self.old.writing).keys) }
        ensures acks { OnOk result ((told_in self.new.writing).acks
            ≡ (told_in self.old.writing).acks) }
        ensures lost { OnOk result (Names (in_flight self.old.writing.bare
            (packets_of losses.now)) (told_in self.old.writing) (told_in self.new.writing)) }
        ensures bare { OnOk result (self.new.writing.bare ≡ self.old.writing.bare) }
        ensures rules { OnOk result (rules_of self.new ≡ rules_of self.old) }
    {
        let kept = self.losses_in_flight(losses)?;
        if !kept.is_empty() {
            self.last_loss = Some(time);
        }
        let mut written = PerSpace {
            initial: false,
            handshake: false,
            app: false,
        };
        for it in &kept {
            let space = it.lost.space;
            if !*written.of(space) {
                *written.of_mut(space) = true;
                self.write_lost_of(time, space, &kept)?;
            }
        }
        Ok(())
    }

    /// The losses but for those of packets that are not in flight.
    fn losses_in_flight(&mut self, losses: &[LostAt]) -> Result<Vec<LostAt>, AllocError>
        ensures told { OnOk result (told_in self.new.writing ≡ told_in self.old.writing) }
        ensures bare { OnOk result (self.new.writing.bare ≡ self.old.writing.bare) }
        ensures kept { IfOk result (λ kept. packets_of kept.items
            ≡ in_flight self.old.writing.bare (packets_of losses.now)) }
        ensures rules { OnOk result (rules_of self.new ≡ rules_of self.old) }
    {
        let mut kept = Vec::new(self.writing.alloc);
        for it in losses {
            let number = it.lost.number.get();
            if self.writing.has_bare(it.lost.space, number) {
                self.writing.omit(Omission::LossNotInFlight)?;
                continue;
            }
            if self.last_loss == Some(self.time_of(it.lost.space, number)) {
                self.writing.notes.limit(Limit::SameTick)?;
            }
            kept.push(*it)?;
        }
        Ok(kept)
    }

    /// Writes the line of the losses of a space.
    fn write_lost_of(
        &mut self,
        nanoseconds: u64,
        space: Space,
        losses: &[LostAt],
    ) -> Result<(), NoLine>
        ensures sent { OnOk result ((told_in self.new.writing).sent
            ≡ (told_in self.old.writing).sent) }
        ensures timers { OnOk result ((told_in self.new.writing).timers
            ≡ (told_in self.old.writing).timers) }
        ensures keys { OnOk result ((told_in self.new.writing).keys
            ≡ (told_in self.old.writing).keys) }
        ensures acks { OnOk result ((told_in self.new.writing).acks
            ≡ (told_in self.old.writing).acks) }
        ensures lost { OnOk result (Names (in_space space (packets_of losses.now))
            (told_in self.old.writing) (told_in self.new.writing)) }
        ensures bare { OnOk result (self.new.writing.bare ≡ self.old.writing.bare) }
        ensures rules { OnOk result (rules_of self.new ≡ rules_of self.old) }
    {
        let numbers = numbers_of(self.writing.alloc, space, losses)?;
        let Some(first) = first_of(space, losses) else {
            return Ok(());
        };
        let Some(last) = last_of(space, losses) else {
            return Ok(());
        };
        let time = self.writing.next_time(nanoseconds)?;
        let ranges = spans_of(self.writing.alloc, &numbers)?;
        self.put_lost(
            Event::Lost {
                time,
                space,
                ranges,
            },
            first.at.place,
            last.at.place,
        )?;
        for number in &numbers {
            self.writing.flights.of_mut(space).take(*number);
        }
        Ok(())
    }

    /// Writes the line of losses, if it names a packet.
    fn put_lost(&mut self, event: Event, first: Place, last: Place) -> Result<(), NoLine>
        ensures told { OnOk result (told_in self.new.writing
            ≡ with_fit (told_in self.old.writing) (next_marks self.old.writing) event) }
        ensures bare { OnOk result (self.new.writing.bare ≡ self.old.writing.bare) }
        ensures rules { OnOk result (rules_of self.new ≡ rules_of self.old) }
    {
        if !event.fits() {
            return Ok(());
        }
        self.writing.output.write(event, first, last)?;
        Ok(())
    }
}

/// Which timer it was: by the log, else by what is beside it.
fn kind_of(expiry: Expiry, has_losses: bool, is_counted: bool) -> Option<TimerKind>
    ensures { IfSome result (λ found. IfSome expiry.kind (λ kind. found ≡ kind)) }
{
    match expiry.kind {
        None if has_losses => Some(TimerKind::Loss),
        None if is_counted => Some(TimerKind::Pto),
        kind => kind,
    }
}

/// Losses, and the events behind them.
fn joined(
    alloc: Global,
    losses: Vec<LostAt>,
    beside: Vec<LoggedEvent>,
) -> Result<Vec<LoggedEvent>, AllocError>
    ensures lost { IfOk result (λ events. lost_in events.items
        ≡ packets_of losses.items ++ lost_in beside.items) }
    ensures states { IfOk result (λ events. (before : Bool)
        → state_after events.items before ≡ state_after beside.items before) }
{
    let mut events = Vec::new(alloc);
    for it in &losses {
        events.push(LoggedEvent {
            at: it.at,
            said: Said::Lost(it.lost),
        })?;
    }
    for event in beside {
        events.push(event)?;
    }
    Ok(events)
}

/// The numbers of the losses of a space, which rise.
fn numbers_of(alloc: Global, space: Space, losses: &[LostAt]) -> Result<Vec<u64>, AllocError>
    ensures numbers { IfOk result (λ numbers. (n : ℕ) → is_in n numbers.items
        ≡ is_among space n (packets_of losses.now)) }
    ensures small { IfOk result (λ numbers. ArePacketNumbers numbers.items) }
{
    let mut sorted = BTreeSet::new(alloc);
    for it in losses {
        if it.lost.space == space {
            sorted.insert(it.lost.number.get())?;
        }
    }
    let mut numbers = Vec::new(alloc);
    for number in &sorted {
        numbers.push(*number)?;
    }
    Ok(numbers)
}

/// The first loss of a space.
fn first_of(space: Space, losses: &[LostAt]) -> Option<LostAt>
    ensures { IfNone result (list_any (λ l. is_space space l.lost.space) losses.now ≡ false) }
{
    for it in losses {
        if it.lost.space == space {
            return Some(*it);
        }
    }
    None
}

/// The last loss of a space.
fn last_of(space: Space, losses: &[LostAt]) -> Option<LostAt>
    ensures { IfNone result (list_any (λ l. is_space space l.lost.space) losses.now ≡ false) }
{
    let mut last = None;
    for it in losses {
        if it.lost.space == space {
            last = Some(*it);
        }
    }
    last
}

/// Whether an event is a loss, also of a packet of no space.
fn is_loss(event: &LoggedEvent) -> bool {
    matches!(&event.said, Said::Lost(_) | Said::OtherLost)
}

/// Whether an event counts probe timeouts.
fn has_count(event: &LoggedEvent) -> bool {
    match &event.said {
        Said::Report(report) => report.pto_count.is_some(),
        _ => false,
    }
}
