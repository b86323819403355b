//! Lines as they are written: their times, what was guessed, and what is in flight behind them.
ghost use Rattle.std.specs.Prelude.{◌≡◌, ◌≤◌, ◌&&◌, ◌||◌, ◌∷◌, [], ℕ, IfOk, OnOk};
ghost use Rattle.std.specs.Prelude.{Some, nat_eq, not, true};
ghost use Rattle.qa_base.specs.declared.space.Space.{Space as ASpace};
ghost use Rattle.qa_base.specs.declared.space.Space.TheVariants as a_space;
ghost use Rattle.qa_base.specs.values.Events.{is_named, is_space};
ghost use Rattle.qa_base.specs.values.Limits.{max_packet_number};
ghost use Rattle.qa_convert.specs.Losing.{ArePacketNumbers, IsSpan, has_number, is_bare, is_in};
ghost use Rattle.qa_convert.specs.Losing.{pushed};
ghost use Rattle.qa_convert.specs.KeyLines.{Discards};
ghost use Rattle.qa_convert.specs.Telling.{nothing, told_in, will_say, with_came};
ghost use Rattle.qa_convert.specs.declared.guess.Guess.{Guess as AGuess};

use crate::bare::Bare;
use crate::event::At;
use crate::flights::{Flights, Forgotten};
use crate::guess::Guess;
use crate::noted::NotedFault;
use crate::notes::Notes;
use crate::omission::Omission;
use crate::output::Output;
use crate::place::Place;
use crate::values::Values;
use qa_base::{Event, MetricValues, PacketNumber, PerSpace, Space, Span, Spans, Ticks, TimeUnit};
use std::alloc::{AllocError, Global};
use thiserror::Error;

/// Why a log's trace ends.
#[derive(Clone, Copy, Debug, PartialEq, Eq, Error)]
pub enum NoLine {
    /// The log goes on past the last time that a trace may have.
    #[error("it goes on past the last time of a trace, 10^15 of its unit")]
    TooLate,
    /// A line would be longer than one may be.
    #[error("a line of more than 65,536 bytes")]
    TooLong,
    /// A count of probe timeouts rises too much at once.
    #[error("pto_count rises to {0} at once")]
    Timeouts(u64),
    /// Out of memory.
    #[error("out of memory")]
    OutOfMemory,
}

impl From<AllocError> for NoLine {
    fn from(_refused: AllocError) -> Self {
        NoLine::OutOfMemory
    }
}

impl From<NotedFault> for NoLine {
    fn from(fault: NotedFault) -> Self {
        match fault {
            NotedFault::TooLong => NoLine::TooLong,
            NotedFault::OutOfMemory => NoLine::OutOfMemory,
        }
    }
}

/// What was written so far, and what the lines leave in flight.
#[derive(Drop)]
pub(crate) struct Writing {
    pub(crate) alloc: Global,
    pub(crate) output: Output,
    pub(crate) notes: Notes,
    pub(crate) flights: Flights,
    bare: PerSpace<Bare>,
    /// The time of the last line, in the unit of the trace.
    time: u64,
}

impl Writing {
    /// Before the first line. Takes no memory.
    pub(crate) fn new(alloc: Global, unit: TimeUnit, has_places: bool) -> Writing
        ensures told { told_in result ≡ nothing }
        ensures unit { result.output.unit ≡ unit }
    {
        Writing {
            alloc,
            output: Output::new(alloc, unit, has_places),
            notes: Notes::new(alloc),
            flights: Flights::new(alloc),
            bare: PerSpace {
                initial: Bare::new(alloc),
                handshake: Bare::new(alloc),
                app: Bare::new(alloc),
            },
            time: 0,
        }
    }

    /// The next line says that this was guessed.
    pub(crate) fn guess(&mut self, guess: Guess) -> Result<(), AllocError>
        ensures says { OnOk result (will_say self.new guess ≡ true) }
        ensures says_more { OnOk result ((g : AGuess) → will_say self.old g ≡ true
            → will_say self.new g ≡ true) }
        ensures told { OnOk result (told_in self.new ≡ told_in self.old) }
        ensures bare { OnOk result (self.new.bare ≡ self.old.bare) }
        ensures unit { OnOk result (self.new.output.unit ≡ self.old.output.unit) }
    {
        self.notes.guess(guess)?;
        self.output.guess(guess)
    }

    /// Counts what is left out.
    pub(crate) fn omit(&mut self, omission: Omission) -> Result<(), AllocError>
        ensures says_more { OnOk result ((g : AGuess) → will_say self.old g ≡ true
            → will_say self.new g ≡ true) }
        ensures told { OnOk result (told_in self.new ≡ told_in self.old) }
        ensures bare { OnOk result (self.new.bare ≡ self.old.bare) }
        ensures unit { OnOk result (self.new.output.unit ≡ self.old.output.unit) }
    {
        self.notes.omit(omission, 1)
    }

    /// Finds that no probe timeout shows, and how late timers may be in microseconds.
    pub(crate) fn find_unseen(&mut self, limit: u64) -> Result<(), AllocError>
        ensures says_more { OnOk result ((g : AGuess) → will_say self.old g ≡ true
            → will_say self.new g ≡ true) }
        ensures told { OnOk result (told_in self.new ≡ told_in self.old) }
        ensures unit { OnOk result (self.new.output.unit ≡ self.old.output.unit) }
    {
        let text = format!(in self.alloc;
            "no probe timeouts; of one that does not show, the next \
            one is late, so timers may be {limit} microseconds late"
        )?;
        self.notes.findings.push(text)?;
        Ok(())
    }

    /// Finds that a clock of whole milliseconds is off by so many timeouts in a row, and how late
    /// timers may be in microseconds.
    pub(crate) fn find_off(&mut self, count: u64, limit: u64) -> Result<(), AllocError>
        ensures says_more { OnOk result ((g : AGuess) → will_say self.old g ≡ true
            → will_say self.new g ≡ true) }
        ensures told { OnOk result (told_in self.new ≡ told_in self.old) }
        ensures unit { OnOk result (self.new.output.unit ≡ self.old.output.unit) }
    {
        let text = format!(in self.alloc;
            "whole milliseconds, and {count} probe timeouts in a \
            row, each of which doubles by how much the deadline is off, so timers may be {limit} \
            microseconds late"
        )?;
        self.notes.findings.push(text)?;
        Ok(())
    }

    /// Whether the next line may have this time, in nanoseconds.
    pub(crate) fn may_be(&self, nanoseconds: u64) -> bool {
        self.time <= self.output.in_unit(nanoseconds)
    }

    /// The time of the next line, which does not go back.
    pub(crate) fn next_time(&mut self, nanoseconds: u64) -> Result<Ticks, NoLine>
        ensures says_more { OnOk result ((g : AGuess) → will_say self.old g ≡ true
            → will_say self.new g ≡ true) }
        ensures told { OnOk result (told_in self.new ≡ told_in self.old) }
        ensures bare { OnOk result (self.new.bare ≡ self.old.bare) }
        ensures unit { OnOk result (self.new.output.unit ≡ self.old.output.unit) }
    {
        let mut time = self.output.in_unit(nanoseconds);
        if time < self.time {
            self.guess(Guess::TimeBack)?;
            time = self.time;
        }
        let Some(ticks) = Ticks::new(time) else {
            return Err(NoLine::TooLate);
        };
        self.time = time;
        Ok(ticks)
    }

    /// A packet was sent that is not in flight.
    pub(crate) fn add_bare(&mut self, space: Space, number: u64) -> Result<(), AllocError>
        ensures told { OnOk result (told_in self.new ≡ told_in self.old) }
        ensures bare { OnOk result ((s : ASpace) (n : ℕ) → is_bare self.new.bare s n ≡ true
            → (is_bare self.old.bare s n || (is_space s space && nat_eq n number)) ≡ true) }
        ensures unit { OnOk result (self.new.output.unit ≡ self.old.output.unit) }
    {
        self.bare.of_mut(space).add(number)
    }

    /// Whether a packet was sent that is not in flight.
    pub(crate) fn has_bare(&self, space: Space, number: u64) -> bool
        ensures { result ≡ is_bare self.now.bare space number }
    {
        self.bare.of(space).has(number)
    }

    /// The line of a report.
    pub(crate) fn report(
        &mut self,
        nanoseconds: u64,
        place: Place,
        values: Values,
    ) -> Result<(), NoLine>
        ensures told { OnOk result (told_in self.new ≡ told_in self.old) }
        ensures bare { OnOk result (self.new.bare ≡ self.old.bare) }
        ensures unit { OnOk result (self.new.output.unit ≡ self.old.output.unit) }
    {
        let time = self.next_time(nanoseconds)?;
        let values = self.in_unit(values);
        self.output
            .write(Event::Metrics { time, values }, place, place)?;
        Ok(())
    }

    /// Values as the trace has them.
    fn in_unit(&self, values: Values) -> MetricValues {
        MetricValues {
            window: values.bytes.window,
            ssthresh: values.bytes.ssthresh,
            bytes_in_flight: values.bytes.in_flight,
            latest_rtt: self.some_in_unit(values.rtts.latest),
            min_rtt: self.some_in_unit(values.rtts.min),
            smoothed_rtt: self.some_in_unit(values.rtts.smoothed),
            rttvar: self.some_in_unit(values.rtts.variance),
        }
    }

    /// A duration as the trace has it, if there is one.
    fn some_in_unit(&self, nanoseconds: Option<u64>) -> Option<u64> {
        match nanoseconds {
            Some(nanoseconds) => Some(self.output.in_unit(nanoseconds)),
            None => None,
        }
    }

    /// Bytes that left with no event: a line that only names the packets.
    pub(crate) fn forget(&mut self, at: At, forgotten: Forgotten) -> Result<(), NoLine>
        ensures told { OnOk result (told_in self.new ≡ told_in self.old) }
        ensures unit { OnOk result (self.new.output.unit ≡ self.old.output.unit) }
    {
        let time = self.next_time(at.time)?;
        let values = self.in_unit(Values::none());
        let event = Event::Metrics { time, values };
        let Forgotten { space, numbers } = forgotten;
        let spans = spans_of(self.alloc, &numbers)?;
        self.output.write_forgotten(event, at.place, space, &spans)?;
        for number in &numbers {
            self.flights.of_mut(space).take(*number);
        }
        let count = u64::try_from(numbers.len()).unwrap_or(u64::MAX);
        self.notes.omit(Omission::LeftFlight, count)?;
        Ok(())
    }

    /// The line of the Handshake keys.
    pub(crate) fn keys(&mut self, at: At) -> Result<(), NoLine>
        ensures told { OnOk result (told_in self.new
            ≡ with_came (told_in self.old) (a_space.Handshake ∷ [])) }
        ensures unit { OnOk result (self.new.output.unit ≡ self.old.output.unit) }
    {
        let time = self.next_time(at.time)?;
        self.output.write(Event::Keys { time }, at.place, at.place)?;
        Ok(())
    }

    /// The line of the confirmed handshake. If the log told that the Handshake keys are gone,
    /// `told` is where it did; otherwise the line says that it is a guess.
    pub(crate) fn confirmed(&mut self, at: At, told: Option<Place>) -> Result<(), NoLine>
        ensures told { OnOk result (Discards told a_space.Handshake (told_in self.old)
            (told_in self.new)) }
        ensures unit { OnOk result (self.new.output.unit ≡ self.old.output.unit) }
    {
        if told.is_none() {
            self.guess(Guess::Confirmed)?;
        }
        let time = self.next_time(at.time)?;
        self.output
            .write(Event::Confirmed { time }, at.place, at.place)?;
        Ok(())
    }

    /// The line of the keys of a space that are gone, with what was in flight in it. If the log
    /// told it, `told` is where it did; otherwise the line says that it is a guess. Asks for a
    /// space of the handshake.
    pub(crate) fn discard(
        &mut self,
        at: At,
        space: Space,
        told: Option<Place>,
    ) -> Result<(), NoLine>
        requires { not (is_space a_space.App space) ≡ true }
        ensures told { OnOk result (Discards told space (told_in self.old) (told_in self.new)) }
        ensures unit { OnOk result (self.new.output.unit ≡ self.old.output.unit) }
    {
        self.flights.of_mut(space).clear();
        if told.is_none() {
            self.guess(Guess::Discard)?;
        }
        let time = self.next_time(at.time)?;
        let place = told.unwrap_or(at.place);
        self.output
            .write(Event::Discard { time, space }, place, place)?;
        Ok(())
    }
}

/// Numbers that rise, as spans of numbers one behind another; none above 2^62 - 1 is there.
pub(crate) fn spans_of(alloc: Global, numbers: &[u64]) -> Result<Spans, AllocError>
    ensures { IfOk result (λ spans. ArePacketNumbers numbers.now
        → (n : ℕ) → is_named spans n ≡ is_in n numbers.now) }
{
    let mut spans = Spans::new(alloc);
    let mut open: Option<(u64, u64)> = None;
    for number in numbers {
        open = Some(with_number(&mut spans, open, *number)?);
    }
    if let Some((low, high)) = open {
        push_span(&mut spans, low, high)?;
    }
    Ok(spans)
}

/// The last span once a number goes on with it, or begins another.
fn with_number(
    spans: &mut Spans,
    last: Option<(u64, u64)>,
    number: u64,
) -> Result<(u64, u64), AllocError>
    ensures span { IfOk result (λ span. IsSpan last → number ≤ max_packet_number
        → IsSpan (Some span)) }
    ensures numbers { IfOk result (λ span. IsSpan last → number ≤ max_packet_number
        → (n : ℕ) → has_number spans.new (Some span) n
        ≡ (has_number spans.old last n || nat_eq n number)) }
{
    let Some((low, high)) = last else {
        return Ok((number, number));
    };
    if high < number && number - high == 1 {
        return Ok((low, number));
    }
    push_span(spans, low, high)?;
    Ok((number, number))
}

/// Appends a span, if both its ends are packet numbers.
fn push_span(spans: &mut Spans, low: u64, high: u64) -> Result<(), AllocError>
    ensures { OnOk result (spans.new ≡ pushed low high spans.old) }
{
    if let (Some(low), Some(high)) = (PacketNumber::new(low), PacketNumber::new(high)) {
        if let Some(span) = Span::new(low, high) {
            spans.push(span)?;
        }
    }
    Ok(())
}
