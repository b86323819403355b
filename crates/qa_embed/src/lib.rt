//! An audit that is handed bytes and events while a sender runs.
#![tactic(auto)]

ghost use Rattle.std.specs.Prelude.{◌≡◌, ◌≢◌, ◌++◌, [], List, ℕ, IfSome, None, Ok, Some, true};
ghost use Rattle.std.specs.Prelude.{false, option_map};
ghost use Rattle.qa_format.specs.verdicts.Verdict.{strict};
ghost use Rattle.qa_check.specs.Auditor.{Audits, is_between};
ghost use Rattle.qa_check.specs.Standing.{IsLineOf, of_ledger};
ghost use Rattle.qa_format.specs.format.Lines.{with_lf};
ghost use Rattle.qa_format.specs.format.Reading.{reading};
ghost use Rattle.qa_format.specs.format.Written.{line_fits};
ghost use Rattle.qa_format.specs.verdicts.Verdict as verdicts;
ghost use Rattle.qa_embed.specs.Recording.{GrowsByLineIf, GrowsIf, IsOffOrEmpty, RecordsFed};
ghost use Rattle.qa_embed.specs.Session.{IsFed, is_open, phase_of, recorded_of, verdict_in};
ghost use Rattle.qa_sender.specs.Running.{IsAfter};

mod recording;

use qa_base::Spans;
use qa_check::{Auditor, Line, Progress, Verdict};
use qa_sender::Running;
use recording::Recording;
use std::alloc::Global;
use std::marker::Model;
use std::mem::replace;

/// How far an audit is.
#[derive(Clone, Copy, Debug, PartialEq, Eq)]
pub enum Phase {
    /// What follows can change the verdict.
    Open,
    /// This is the verdict, whatever follows.
    Fixed(Verdict),
    /// This is the verdict: nothing follows.
    Finished(Verdict),
    /// Out of memory: there is no verdict.
    OutOfMemory,
}

/// An audit that is handed bytes and events, in any order of calls.
///
/// What it stands for is bytes: those that were fed, and for an event a line that says it.
///
/// It keeps the memory of an event's ranges for the next event that has some; `ranges` is empty
/// between them. One that was begun by `recording` keeps those bytes too, while it is open.
#[derive(Drop)]
pub struct Session {
    alloc: Global,
    auditor: Auditor<Running>,
    finished: bool,
    ranges: Spans,
    recording: Recording,
}

impl Model for Session {
    ghost use Rattle.std.specs.Prelude.{◌≡◌, [], true};
    ghost use Rattle.qa_embed.specs.Recording.{Records};
    ghost use Rattle.qa_embed.specs.Session.{Run, IsOver};

    ghost Value = { Run };

    ghost view = { λ s. record {
      audit = s.auditor;
      finished = s.finished;
      recorded = s.recording;
    } };

    ghost invariant = { λ s. (s.finished ≡ true → IsOver s.auditor.progress) × (s.ranges ≡ [])
        × Records s.finished s.auditor s.recording };
}

impl Session {
    /// A session that was handed nothing. Takes no memory.
    pub fn new(alloc: Global) -> Session
        ensures open { phase_of result ≡ Phase.Open }
        ensures unfinished { result.finished ≡ false }
        ensures fed { IsFed result [] }
        ensures off { result.recorded ≡ None }
    {
        begun(alloc, Recording::off())
    }

    /// The same, which keeps the text of what it is handed while it is open: pieces as they are,
    /// and of an event the line that `write_line` writes, with an LF. Takes no memory yet.
    ///
    /// Where there is no memory for a piece or a line, it keeps no text from then on, and goes on
    /// as one that never did; so it does behind an event with very many ranges whose line would be
    /// longer, as it is written, than lines may be.
    pub fn recording(alloc: Global) -> Session
        ensures open { phase_of result ≡ Phase.Open }
        ensures unfinished { result.finished ≡ false }
        ensures fed { IsFed result [] }
        ensures on { result.recorded ≡ Some [] }
    {
        begun(alloc, Recording::begun(alloc))
    }

    /// The text of what it was handed until the verdict was known, where it is kept.
    ///
    /// There is none of a session that is out of memory.
    pub fn recorded(&self) -> Option<&[u8]>
        ensures text { option_map (λ text. text.now) result ≡ recorded_of self.now }
        ensures fed { IfSome result (λ text. IsFed self.now text.now) }
        ensures memory { phase_of self.now ≡ Phase.OutOfMemory → result ≡ None }
    {
        match self.auditor.progress() {
            Ok(_) => self.recording.text(),
            Err(_) => None,
        }
    }

    /// How far it is.
    #[inline(always)]
    pub fn phase(&self) -> Phase
        ensures phase { result ≡ phase_of self.now }
        ensures unfinished { result ≡ Phase.Open → self.now.finished ≡ false }
    {
        match self.auditor.progress() {
            Ok(Progress::Open) => Phase::Open,
            Ok(Progress::Fixed(verdict)) => known(self.finished, verdict),
            Err(_) => Phase::OutOfMemory,
        }
    }

    /// The verdict, once it is fixed or the session is finished.
    pub fn verdict(&self) -> Option<Verdict>
        ensures known { result ≡ verdict_in (phase_of self.now) }
        ensures verdict { IfSome result (λ v. (bytes : List ℕ) → IsFed self.now bytes
            → v ≡ verdicts.verdict (strict reading) bytes) }
    {
        match self.auditor.progress() {
            Ok(Progress::Open) => None,
            Ok(Progress::Fixed(verdict)) => Some(verdict),
            Err(_) => None,
        }
    }

    /// Whether `finish` was called.
    pub fn is_finished(&self) -> bool
        ensures { result ≡ self.now.finished }
    {
        self.finished
    }

    /// Whether the next byte begins a line, so that an event may be handed in.
    #[inline(always)]
    pub fn is_between_lines(&self) -> bool
        ensures { result ≡ is_between self.now.audit }
    {
        self.auditor.is_between_lines()
    }

    /// Takes the next bytes, and returns how far it is then. A session that is not open stays as it
    /// is.
    pub fn feed(&mut self, piece: &[u8]) -> Phase
        ensures phase { result ≡ phase_of self.new }
        ensures same { self.new.finished ≡ self.old.finished }
        ensures fed { self.old.finished ≡ false → (bytes : List ℕ) → IsFed self.old bytes
            → IsFed self.new (bytes ++ piece.now) }
        ensures finished { self.old.finished ≡ true → self.new ≡ self.old }
        ensures kept { phase_of self.old ≢ Phase.Open → self.new ≡ self.old }
        ensures recorded { self.old.finished ≡ false
            → GrowsIf (is_open self.old.audit.progress) piece.now self.old.recorded
            self.new.recorded }
    {
        if self.finished {
            return self.phase();
        }
        self.recording.push_if(is_open(&self.auditor), piece);
        let _progress = self.auditor.feed(piece);
        self.phase()
    }

    /// Takes the next line by what it says, without its text, and returns how far it is then.
    ///
    /// Asks for a session whose next byte begins a line, and for an event that fits. A session that
    /// is not open stays as it is.
    pub fn push_said(&mut self, line: &Line) -> Phase
        requires fitting { line_fits line.now ≡ true }
        requires between { is_between self.old.audit ≡ true }
        ensures phase { result ≡ phase_of self.new }
        ensures same { self.new.finished ≡ self.old.finished }
        ensures fed { self.old.finished ≡ false → (bytes : List ℕ) (l : List ℕ)
            → IsLineOf line.now l → IsFed self.old bytes → IsFed self.new (bytes ++ with_lf l) }
        ensures finished { self.old.finished ≡ true → self.new ≡ self.old }
        ensures kept { phase_of self.old ≢ Phase.Open → self.new ≡ self.old }
        ensures recorded { self.old.finished ≡ false
            → GrowsByLineIf (is_open self.old.audit.progress) line.now self.old.recorded
            self.new.recorded }
    {
        let _open = self.take_said(line);
        self.phase()
    }

    /// Takes the next line as `push_said` does, and returns whether it is open then.
    ///
    /// It serves callers that hand in one event after another: behind a good line no verdict is
    /// moved.
    #[inline(always)]
    pub fn take_said(&mut self, line: &Line) -> bool
        requires fitting { line_fits line.now ≡ true }
        requires between { is_between self.old.audit ≡ true }
        ensures open { result ≡ true → phase_of self.new ≡ Phase.Open }
        ensures over { result ≡ false → phase_of self.new ≢ Phase.Open }
        ensures same { self.new.finished ≡ self.old.finished }
        ensures fed { self.old.finished ≡ false → (bytes : List ℕ) (l : List ℕ)
            → IsLineOf line.now l → IsFed self.old bytes → IsFed self.new (bytes ++ with_lf l) }
        ensures finished { self.old.finished ≡ true → self.new ≡ self.old }
        ensures kept { phase_of self.old ≢ Phase.Open → self.new ≡ self.old }
        ensures recorded { self.old.finished ≡ false
            → GrowsByLineIf (is_open self.old.audit.progress) line.now self.old.recorded
            self.new.recorded }
    {
        if self.finished {
            return false;
        }
        if self.recording.is_on() {
            return take_recorded(self.alloc, &mut self.recording, &mut self.auditor, line);
        }
        self.auditor.take_said(line)
    }

    /// An empty list for the ranges of an event, in the memory that `take_back` kept.
    #[inline(always)]
    pub fn lend_ranges(&mut self, alloc: Global) -> Spans
        ensures empty { result ≡ [] }
        ensures same { self.new ≡ self.old }
    {
        replace(&mut self.ranges, Spans::new(alloc))
    }

    /// Keeps the memory of an event's ranges, which nobody wants any more, for the next event; that
    /// of more than 1,024 ranges is given back.
    #[inline(always)]
    pub fn take_back(&mut self, alloc: Global, ranges: Spans)
        ensures { self.new ≡ self.old }
    {
        self.ranges = ranges.emptied(alloc);
    }

    /// Says that nothing follows, and returns how far it is then: it is finished, or out of memory.
    /// A verdict that was fixed stays, and a session that was out of memory stays so.
    pub fn finish(&mut self) -> Phase
        ensures phase { result ≡ phase_of self.new }
        ensures over { self.new.finished ≡ true }
        ensures known { result ≢ Phase.Open }
        ensures fed { (bytes : List ℕ) → IsFed self.old bytes → IsFed self.new bytes }
        ensures kept { phase_of self.old ≢ Phase.Open → self.new.audit ≡ self.old.audit }
        ensures recorded { self.new.recorded ≡ self.old.recorded }
    {
        if self.finished {
            return self.phase();
        }
        let _verdict = self.auditor.finish();
        self.finished = true;
        self.phase()
    }
}

/// A session that was handed nothing, with nothing recorded.
fn begun(alloc: Global, recording: Recording) -> Session
    requires { IsOffOrEmpty recording }
    ensures open { phase_of result ≡ Phase.Open }
    ensures unfinished { result.finished ≡ false }
    ensures fed { IsFed result [] }
    ensures recorded { result.recorded ≡ recording }
{
    Session {
        alloc,
        auditor: Auditor::new(alloc),
        finished: false,
        ranges: Spans::new(alloc),
        recording,
    }
}

/// Whether what follows can change the verdict.
fn is_open(auditor: &Auditor<Running>) -> bool
    ensures open { result ≡ true → auditor.now.progress ≡ Ok Progress.Open }
    ensures over { result ≡ false → auditor.now.progress ≢ Ok Progress.Open }
    ensures value { result ≡ is_open auditor.now.progress }
{
    match auditor.progress() {
        Ok(Progress::Open) => true,
        Ok(Progress::Fixed(_)) => false,
        Err(_) => false,
    }
}

/// Takes the next line as `take_said` does, and keeps its text.
#[cold]
#[inline(never)]
fn take_recorded(
    alloc: Global,
    recording: &mut Recording,
    auditor: &mut Auditor<Running>,
    line: &Line,
) -> bool
    requires fitting { line_fits line.now ≡ true }
    requires between { is_between auditor.old ≡ true }
    ensures open { result ≡ true → auditor.new.progress ≡ Ok Progress.Open }
    ensures over { result ≡ false → auditor.new.progress ≢ Ok Progress.Open }
    ensures fed { (bytes : List ℕ) (l : List ℕ) → IsLineOf line.now l
        → Audits (of_ledger IsAfter) auditor.old bytes
        → Audits (of_ledger IsAfter) auditor.new (bytes ++ with_lf l) }
    ensures kept { auditor.old.progress ≢ Ok Progress.Open → auditor.new ≡ auditor.old }
    ensures recorded { RecordsFed auditor.old recording.old
        → RecordsFed auditor.new recording.new }
    ensures grown { GrowsByLineIf (is_open auditor.old.progress) line.now recording.old
        recording.new }
{
    recording.push_said_if(is_open(auditor), alloc, line);
    auditor.take_said(line)
}

/// The phase of a session whose verdict is known.
#[inline(always)]
fn known(finished: bool, verdict: Verdict) -> Phase
    ensures fixed { finished ≡ false → result ≡ Phase.Fixed verdict }
    ensures finished { finished ≡ true → result ≡ Phase.Finished verdict }
{
    if finished {
        Phase::Finished(verdict)
    } else {
        Phase::Fixed(verdict)
    }
}
