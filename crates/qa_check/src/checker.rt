//! The verdict of lines that come one after another.
ghost use Rattle.std.specs.Prelude.{◌≡◌, ◌≢◌, ◌≤◌, ◌<◌, ◌+◌, ◌++◌, [], ◌∷◌, length, List, ℕ, true};
ghost use Rattle.std.specs.Prelude.{false, Some, None, Option, Ok, Err, OnOk, IfOk, IsOk, not};
ghost use Rattle.std.specs.Prelude.{is_some, IsSome, option_map};
ghost use Rattle.std.specs.Option.{ForSome, option_copied};
ghost use Rattle.qa_base.specs.declared.event.Event.{Event as AnEvent};
ghost use Rattle.qa_format.specs.format.Lines.{line_limit};
ghost use Rattle.qa_format.specs.format.Reading.{reading};
ghost use Rattle.qa_format.specs.format.Written.{line_fits};
ghost use Rattle.qa_base.specs.values.Events.{fits};
ghost use Rattle.qa_base.specs.values.Limits.{max_lines};
ghost use Rattle.qa_base.specs.values.Settings.{Settings};
ghost use Rattle.qa_base.specs.machine.State as state;
ghost use Rattle.qa_format.specs.verdicts.Verdict as verdicts;
ghost use Rattle.qa_read.specs.Gives.{Gives};
ghost use Rattle.qa_check.specs.Standing.{StandsFor, by, HoldsRun, AddsGood, AddsBad, IsLineOf};
ghost use Rattle.qa_check.specs.Standing.{TakesIn, StopsAt};
ghost use Rattle.qa_check.specs.Checking.{Pushes};
ghost use Rattle.std.specs.Result.{result_ok};
ghost use Rattle.qa_format.specs.verdicts.Verdict.{said};

use crate::judges::Judge;
use qa_base::limits::{MAX_LINE_LENGTH, MAX_LINES};
use qa_base::{Event, Header, Rule, Totals};
use qa_format::{Fault, Line, Verdict};
use qa_ledger::LedgerFault;
use qa_read::{LineFault, read_line};
use std::alloc::Global;
use std::marker::Model;
use thiserror::Error;

/// Why a checker takes no more lines.
#[derive(Clone, Copy, Debug, PartialEq, Eq, Error)]
pub enum Stop {
    /// A line was not good, and the verdict is fixed.
    #[error("the verdict is fixed")]
    Decided,
    /// Out of memory: the checker has failed.
    #[error("out of memory")]
    OutOfMemory,
}

/// The lines of a trace so far, by all that their verdict depends on.
///
/// A ledger judges their events, and stands for those before.
#[derive(Drop)]
pub struct Checker<L: Judge> {
    alloc: Global,
    ledger: Option<L>,
    lines: u64,
    last_event: u64,
    verdict: Option<Verdict>,
    failed: bool,
}

impl<L: Judge> Model for Checker<L> {
    ghost use Rattle.std.specs.Option.{ForSome};
    ghost use Rattle.std.specs.Prelude.{◌≡◌, ◌≤◌, None, false};
    ghost use Rattle.qa_base.specs.values.Limits.{max_lines};
    ghost use Rattle.qa_check.specs.Standing.{Held};

    ghost Value = { Held L };

    ghost view = { λ c. record {
      ledger = c.ledger;
      lines = c.lines;
      last_event = c.last_event;
      verdict = c.verdict;
      failed = c.failed;
    } };

    ghost invariant = { λ c. (c.lines ≤ max_lines)
        × (c.verdict ≡ None → c.failed ≡ false → ForSome c.ledger (λ l. L.admitted l ≤ c.lines))
        × (c.failed ≡ false → ForSome c.ledger (λ l. L.has_failed l ≡ false)) };
}

impl<L: Judge + Drop> Checker<L> {
    /// A checker that stands for no lines. Takes no memory.
    pub fn new(alloc: Global) -> Checker<L>
        ensures whole { result.failed ≡ false }
        ensures lines { StandsFor L.judges result [] }
    {
        Checker {
            alloc,
            ledger: None,
            lines: 0,
            last_event: 0,
            verdict: None,
            failed: false,
        }
    }

    /// Takes the next line, its LF not among its bytes.
    ///
    /// `Stop::Decided` comes where this line or an earlier one is not good: the verdict is fixed,
    /// and the ledger stands for the good lines before. `Stop::OutOfMemory` comes where it is out
    /// of memory, and from then on.
    pub fn push_line(&mut self, bytes: &[u8]) -> Result<(), Stop>
        ensures failed { self.old.failed ≡ true → result ≡ Err Stop.OutOfMemory }
        ensures fails { (result ≡ Err Stop.OutOfMemory) → self.new.failed ≡ true }
        ensures good { OnOk result (AddsGood L.judges self.old self.new bytes.now) }
        ensures decided { (result ≡ Err Stop.Decided)
            → AddsBad L.judges self.old self.new bytes.now }
        ensures kept { (result ≡ Err Stop.Decided) → self.new.ledger ≡ self.old.ledger }
    {
        if let Err(stop) = self.expect_bytes(bytes) {
            return Err(stop);
        }
        let read = read_line(self.alloc, bytes);
        self.take_read(&read)
    }

    /// Takes in what was read of the next line, of which `expect_bytes` said that it can be taken,
    /// as `push_line` does. What was read is lent: an event is large, and is mostly shown next.
    #[inline(always)]
    pub(crate) fn push_read(&mut self, read: &Result<Line, LineFault>) -> Result<(), Stop>
        requires whole { self.old.failed ≡ false }
        requires undecided { self.old.verdict ≡ None }
        requires few { self.old.lines < max_lines }
        requires fitting { IfOk read.now (λ line. line_fits line ≡ true) }
        ensures { (l : List ℕ) → length l ≤ line_limit → Gives (λ line. line) read.now (reading l)
            → Pushes L.judges self.old self.new l read.now result }
    {
        self.take_read(read)
    }

    /// Takes the next line by what it says, as `push_line` takes each line that is read as this.
    ///
    /// Asks for an event that fits (`Event::fits`): no line says another.
    #[inline(always)]
    pub fn push_said(&mut self, line: &Line) -> Result<(), Stop>
        requires fitting { line_fits line.now ≡ true }
        ensures failed { self.old.failed ≡ true → result ≡ Err Stop.OutOfMemory }
        ensures fails { (result ≡ Err Stop.OutOfMemory) → self.new.failed ≡ true }
        ensures good { OnOk result ((self.new.failed ≡ false)
            × ((l : List ℕ) → IsLineOf line.now l → AddsGood L.judges self.old self.new l)) }
        ensures decided { (result ≡ Err Stop.Decided) → (self.new.failed ≡ false)
            × ((l : List ℕ) → IsLineOf line.now l → AddsBad L.judges self.old self.new l) }
        ensures kept { (result ≡ Err Stop.Decided) → self.new.ledger ≡ self.old.ledger }
    {
        if let Err(stop) = self.expect_line() {
            return Err(stop);
        }
        self.take(line)
    }

    /// Takes the next line, which has more bytes than a line may have, whatever they are.
    ///
    /// Returns what `push_line` does: `Stop::OutOfMemory` only from a checker that has failed.
    pub fn too_long(&mut self) -> Stop
        ensures failed { self.old.failed ≡ true → result ≡ Stop.OutOfMemory }
        ensures whole { self.old.failed ≡ false → result ≡ Stop.Decided }
        ensures fails { result ≡ Stop.OutOfMemory → self.new.failed ≡ true }
        ensures decided { result ≡ Stop.Decided → (l : List ℕ) → line_limit < length l
            → AddsBad L.judges self.old self.new l }
        ensures kept { result ≡ Stop.Decided → self.new.ledger ≡ self.old.ledger }
    {
        match self.expect_line() {
            Ok(()) => self.stop(Fault::LineTooLong),
            Err(stop) => stop,
        }
    }

    /// The verdict of the lines so far; None where the checker has failed. Takes no memory.
    pub fn verdict(&self) -> Option<Verdict>
        ensures answers { is_some result ≡ not self.now.failed }
        ensures verdict { self.now.failed ≡ false → (ls : List (List ℕ))
            → StandsFor L.judges self.now ls
            → result ≡ Some (verdicts.verdict_of (by L.judges) ls) }
    {
        if self.failed {
            return None;
        }
        if let Some(verdict) = &self.verdict {
            return Some(*verdict);
        }
        match &self.ledger {
            None => Some(Verdict::Unreadable(self.lines + 1, Fault::HeaderPlace, None)),
            Some(ledger) => {
                if ledger.is_owing() {
                    Some(Verdict::Refused(self.last_event, Rule::OwedAtEnd, ledger.state()))
                } else {
                    Some(Verdict::Accepted(ledger.state()))
                }
            }
        }
    }

    /// The ledger after the good lines, as `ledger`, and nothing else of the checker.
    pub fn into_ledger(self) -> Option<L>
        ensures ledger { result ≡ self.ledger }
        ensures works { self.failed ≡ false
            → ForSome self.ledger (λ l. L.has_failed l ≡ false) }
    {
        let Checker { ledger, .. } = self;
        ledger
    }

    /// How many lines were good.
    pub fn line_count(&self) -> u64
        ensures { result ≡ self.now.lines }
    {
        self.lines
    }

    /// The state of the machine after the good lines; None before a header. Takes no memory.
    pub fn totals(&self) -> Option<Totals>
        ensures { (header : Option Settings) (h : List AnEvent)
            → HoldsRun L.judges self.now.ledger header h
            → result ≡ option_map (λ c. state.totals c h) header }
    {
        Some(self.ledger.as_ref()?.state())
    }

    /// The ledger after the good lines; None before a header. Of a checker that works it has not
    /// failed.
    pub fn ledger(&self) -> Option<&L>
        ensures ledger { option_copied result ≡ self.now.ledger }
        ensures works { self.now.failed ≡ false
            → ForSome self.now.ledger (λ l. L.has_failed l ≡ false) }
    {
        self.ledger.as_ref()
    }

    /// Stops where no line is taken, whatever it says: out of memory, after the verdict was fixed,
    /// and behind as many lines as a trace may have.
    #[inline(always)]
    fn expect_line(&mut self) -> Result<(), Stop>
        ensures failed { self.old.failed ≡ true → result ≡ Err Stop.OutOfMemory }
        ensures fails { (result ≡ Err Stop.OutOfMemory)
            → (self.old.failed ≡ true) × (self.new.failed ≡ true) }
        ensures ok { OnOk result ((self.new ≡ self.old) × (self.new.failed ≡ false)
            × (self.new.verdict ≡ None) × (self.new.lines < max_lines)) }
        ensures decided { (result ≡ Err Stop.Decided) → (l : List ℕ)
            → AddsBad L.judges self.old self.new l }
        ensures unread { (result ≡ Err Stop.Decided) → self.old.verdict ≡ None → (l : List ℕ)
            → result_ok (said reading self.old.lines l) ≡ None }
        ensures kept { (result ≡ Err Stop.Decided) → self.new.ledger ≡ self.old.ledger }
    {
        if self.failed {
            return Err(Stop::OutOfMemory);
        }
        if self.verdict.is_some() {
            return Err(Stop::Decided);
        }
        if self.lines >= MAX_LINES {
            return Err(self.stop(Fault::TooManyLines));
        }
        Ok(())
    }

    /// Stops where no line is taken that has these bytes: as `expect_line`, and where they are too
    /// many.
    #[inline(always)]
    pub(crate) fn expect_bytes(&mut self, bytes: &[u8]) -> Result<(), Stop>
        ensures failed { self.old.failed ≡ true → result ≡ Err Stop.OutOfMemory }
        ensures fails { (result ≡ Err Stop.OutOfMemory)
            → (self.old.failed ≡ true) × (self.new.failed ≡ true) }
        ensures ok { OnOk result ((self.new ≡ self.old) × (self.new.failed ≡ false)
            × (self.new.verdict ≡ None) × (self.new.lines < max_lines)
            × (length bytes.now ≤ line_limit)) }
        ensures decided { (result ≡ Err Stop.Decided)
            → AddsBad L.judges self.old self.new bytes.now }
        ensures unread { (result ≡ Err Stop.Decided) → self.old.verdict ≡ None
            → result_ok (said reading self.old.lines bytes.now) ≡ None }
        ensures kept { (result ≡ Err Stop.Decided) → self.new.ledger ≡ self.old.ledger }
    {
        if let Err(stop) = self.expect_line() {
            return Err(stop);
        }
        if bytes.len() > MAX_LINE_LENGTH {
            return Err(self.stop(Fault::LineTooLong));
        }
        Ok(())
    }

    /// Takes in what was read of the next line.
    fn take_read(&mut self, read: &Result<Line, LineFault>) -> Result<(), Stop>
        requires whole { self.old.failed ≡ false }
        requires undecided { self.old.verdict ≡ None }
        requires few { self.old.lines < max_lines }
        requires fitting { IfOk read.now (λ line. line_fits line ≡ true) }
        ensures said { OnOk result (IsOk read.now) }
        ensures memory { read.now ≡ Err LineFault.OutOfMemory → result ≡ Err Stop.OutOfMemory }
        ensures fails { (result ≡ Err Stop.OutOfMemory) → self.new.failed ≡ true }
        ensures good { OnOk result ((l : List ℕ) → length l ≤ line_limit
            → Gives (λ line. line) read.now (reading l)
            → AddsGood L.judges self.old self.new l) }
        ensures decided { (result ≡ Err Stop.Decided) → (l : List ℕ) → length l ≤ line_limit
            → Gives (λ line. line) read.now (reading l)
            → AddsBad L.judges self.old self.new l }
        ensures kept { (result ≡ Err Stop.Decided) → self.new.ledger ≡ self.old.ledger }
    {
        match read {
            Ok(line) => self.take(line),
            Err(LineFault::Fault(fault)) => Err(self.stop(*fault)),
            Err(LineFault::OutOfMemory) => {
                self.failed = true;
                Err(Stop::OutOfMemory)
            }
        }
    }

    /// Takes in what the next line says.
    fn take(&mut self, line: &Line) -> Result<(), Stop>
        requires whole { self.old.failed ≡ false }
        requires undecided { self.old.verdict ≡ None }
        requires few { self.old.lines < max_lines }
        requires fitting { line_fits line.now ≡ true }
        ensures failed { (result ≡ Err Stop.OutOfMemory) → self.new.failed ≡ true }
        ensures whole { (result ≢ Err Stop.OutOfMemory) → self.new.failed ≡ false }
        ensures ok { OnOk result ((self.new.failed ≡ false)
            × TakesIn L.judges self.old self.new line.now) }
        ensures decided { result ≡ Err Stop.Decided → StopsAt L.judges self.old self.new line.now }
        ensures kept { (result ≡ Err Stop.Decided) → self.new.ledger ≡ self.old.ledger }
    {
        match line {
            Line::Blank => {
                self.lines += 1;
                Ok(())
            }
            Line::Header(header) => self.start(*header),
            Line::Event(event) => self.admit(event),
        }
    }

    /// Starts a ledger, where the next line is the first that says a header.
    fn start(&mut self, header: Header) -> Result<(), Stop>
        requires whole { self.old.failed ≡ false }
        requires undecided { self.old.verdict ≡ None }
        requires few { self.old.lines < max_lines }
        ensures whole { self.new.failed ≡ false }
        ensures memory { (result ≡ Err Stop.OutOfMemory) → ⊥ }
        ensures ok { OnOk result ((self.new.failed ≡ false)
            × TakesIn L.judges self.old self.new (Line.Header header)) }
        ensures decided { result ≡ Err Stop.Decided
            → StopsAt L.judges self.old self.new (Line.Header header) }
        ensures kept { (result ≡ Err Stop.Decided) → self.new.ledger ≡ self.old.ledger }
    {
        if self.ledger.is_some() {
            return Err(self.stop(Fault::HeaderPlace));
        }
        self.ledger = Some(L::under(self.alloc, header));
        self.lines += 1;
        Ok(())
    }

    /// Has the ledger admit the event that the next line says.
    fn admit(&mut self, event: &Event) -> Result<(), Stop>
        requires whole { self.old.failed ≡ false }
        requires undecided { self.old.verdict ≡ None }
        requires few { self.old.lines < max_lines }
        requires fitting { fits event.now ≡ true }
        ensures failed { (result ≡ Err Stop.OutOfMemory) → self.new.failed ≡ true }
        ensures whole { (result ≢ Err Stop.OutOfMemory) → self.new.failed ≡ false }
        ensures ok { OnOk result ((self.new.failed ≡ false)
            × TakesIn L.judges self.old self.new (Line.Event event.now)) }
        ensures decided { result ≡ Err Stop.Decided
            → StopsAt L.judges self.old self.new (Line.Event event.now) }
        ensures kept { (result ≡ Err Stop.Decided) → self.new.ledger ≡ self.old.ledger }
    {
        let Some(ledger) = &mut self.ledger else {
            return Err(self.stop(Fault::HeaderPlace));
        };
        match ledger.judge(event) {
            Ok(()) => {
                self.lines += 1;
                self.last_event = self.lines;
                Ok(())
            }
            Err(LedgerFault::Broken(rule)) => {
                let totals = ledger.state();
                self.verdict = Some(Verdict::Refused(self.lines + 1, rule, totals));
                Err(Stop::Decided)
            }
            Err(LedgerFault::OutOfMemory) => {
                self.failed = true;
                Err(Stop::OutOfMemory)
            }
        }
    }

    /// Fixes the verdict: the next line cannot be read.
    #[cold]
    #[inline(never)]
    fn stop(&mut self, fault: Fault) -> Stop
        requires whole { self.old.failed ≡ false }
        requires undecided { self.old.verdict ≡ None }
        ensures result { result ≡ Stop.Decided }
        ensures whole { self.new.failed ≡ false }
        ensures decided { IsSome self.new.verdict }
        ensures verdict { (header : Option Settings) (h : List AnEvent)
            → HoldsRun L.judges self.old.ledger header h
            → self.new.verdict ≡ Some (verdicts.unreadable (self.old.lines + 1) header h fault) }
        ensures kept { self.new.ledger ≡ self.old.ledger }
    {
        let totals = self.totals();
        self.verdict = Some(Verdict::Unreadable(self.lines + 1, fault, totals));
        Stop::Decided
    }
}
