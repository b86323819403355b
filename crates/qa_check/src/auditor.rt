//! An audit of bytes that are handed in, piece by piece.
ghost use Rattle.std.specs.Prelude.{◌≡◌, ◌≢◌, ◌++◌, [], ℕ, List, Option, None, true, false, Ok};
ghost use Rattle.std.specs.Prelude.{OnErr, IfOk, IfErr};
ghost use Rattle.qa_format.specs.format.Lines.{with_lf};
ghost use Rattle.qa_format.specs.format.Reading.{reading};
ghost use Rattle.qa_format.specs.format.Written.{line_fits};
ghost use Rattle.qa_format.specs.verdicts.Verdict.{verdict};
ghost use Rattle.qa_cut.specs.Stream.{Stream, HasNoLine};
ghost use Rattle.qa_check.specs.Auditor.{BringsTo, Settles, TakesMore};
ghost use Rattle.qa_check.specs.Following.{Answers, Follows, IsReady};
ghost use Rattle.qa_check.specs.Standing.{IsLineOf, by};

use crate::auditing::AuditFault;
use crate::checker::{Checker, Stop};
use crate::judges::Judge;
use crate::taking::{Taken, take_last};
use crate::visitor::Unvisited;
use crate::walking::take_piece;
use qa_cut::Splitter;
use qa_format::{Line, Verdict};
use std::alloc::Global;
use std::marker::Model;

/// How far an audit is.
#[derive(Clone, Copy, Debug, PartialEq, Eq)]
pub enum Progress {
    /// Bytes that follow can change the verdict.
    Open,
    /// This is the verdict, whatever follows.
    Fixed(Verdict),
}

/// An audit of bytes that are handed in, piece by piece, over any ledger.
///
/// It serves callers with a loop of their own, where `walk` reads from a `Source`. However the
/// bytes are cut, the verdict is that of all of them.
#[derive(Drop)]
pub struct Auditor<L: Judge> {
    alloc: Global,
    splitter: Splitter,
    checker: Checker<L>,
    progress: Result<Progress, AuditFault>,
}

impl<L: Judge> Model for Auditor<L> {
    ghost use Rattle.std.specs.Prelude.{◌≡◌, Ok};
    ghost use Rattle.qa_check.specs.Auditor.{Audit, TakesMore};
    ghost use Rattle.qa_check.specs.declared.auditor.Progress.TheVariants.{Open};

    ghost Value = { Audit L };

    ghost view = { λ a. record { stream = a.splitter; held = a.checker; progress = a.progress } };

    ghost invariant = { λ a. a.progress ≡ Ok Open → TakesMore a.splitter a.checker };
}

impl<L: Judge + Drop> Auditor<L> {
    ghost use Rattle.std.specs.Prelude.{◌≢◌};
    ghost use Rattle.qa_check.specs.Auditor.{Audits, is_between, progress_of};

    /// An auditor that was fed no bytes. Takes no memory.
    pub fn new(alloc: Global) -> Auditor<L>
        ensures open { result.progress ≡ Ok Progress.Open }
        ensures fed { Audits L.judges result [] }
    {
        Auditor {
            alloc,
            splitter: Splitter::new(alloc),
            checker: Checker::new(alloc),
            progress: Ok(Progress::Open),
        }
    }

    /// Takes the next bytes, which may be any part of a trace, and returns how far the audit is
    /// then.
    ///
    /// Once the verdict is fixed, and after `finish`, it changes nothing and returns the verdict.
    /// `AuditFault::OutOfMemory` comes where it is out of memory, and from then on.
    pub fn feed(&mut self, piece: &[u8]) -> Result<Progress, AuditFault>
        ensures progress { result ≡ self.new.progress }
        ensures fed { (bytes : List ℕ) → Audits L.judges self.old bytes
            → Audits L.judges self.new (bytes ++ piece.now) }
        ensures kept { self.old.progress ≢ Ok Progress.Open → self.new ≡ self.old }
        ensures memory { self.old.progress ≡ Ok Progress.Open
            → IfErr result (λ fault. fault ≡ AuditFault.OutOfMemory) }
    {
        match self.progress {
            Ok(Progress::Open) => {
                let progress = feed::<L>(self.alloc, &mut self.splitter, &mut self.checker, piece);
                self.progress = progress;
                progress
            }
            Ok(Progress::Fixed(verdict)) => Ok(Progress::Fixed(verdict)),
            Err(fault) => Err(fault),
        }
    }

    /// How far the audit is, or why it failed.
    #[inline(always)]
    pub fn progress(&self) -> Result<Progress, AuditFault>
        ensures { result ≡ self.now.progress }
    {
        self.progress
    }

    /// Whether the next byte begins a line: an LF ended the last one, or none was begun.
    #[inline(always)]
    pub fn is_between_lines(&self) -> bool
        ensures { result ≡ is_between self.now }
    {
        self.splitter.is_empty()
    }

    /// Takes the next line by what it says, without its text, and returns how far the audit is
    /// then.
    ///
    /// It is judged as each line that says this would be, with its LF. Asks for an auditor whose
    /// next byte begins a line (`is_between_lines`), and for an event that fits (`Event::fits`).
    /// Once the verdict is fixed, and after `finish`, it changes nothing and returns the verdict.
    /// `AuditFault::OutOfMemory` comes where it is out of memory,
    /// and from then on.
    pub fn push_said(&mut self, line: &Line) -> Result<Progress, AuditFault>
        requires fitting { line_fits line.now ≡ true }
        requires between { is_between self.old ≡ true }
        ensures progress { result ≡ self.new.progress }
        ensures fed { (bytes : List ℕ) (l : List ℕ) → IsLineOf line.now l
            → Audits L.judges self.old bytes → Audits L.judges self.new (bytes ++ with_lf l) }
        ensures between { is_between self.new ≡ true }
        ensures kept { self.old.progress ≢ Ok Progress.Open → self.new ≡ self.old }
        ensures memory { self.old.progress ≡ Ok Progress.Open
            → IfErr result (λ fault. fault ≡ AuditFault.OutOfMemory) }
    {
        let _open = self.take_said(line);
        self.progress
    }

    /// Takes the next line as `push_said` does, and returns whether the audit is open then.
    ///
    /// It serves callers that hand in one event after another: behind a good line no verdict is
    /// moved.
    #[inline(always)]
    pub fn take_said(&mut self, line: &Line) -> bool
        requires fitting { line_fits line.now ≡ true }
        requires between { is_between self.old ≡ true }
        ensures open { result ≡ true → self.new.progress ≡ Ok Progress.Open }
        ensures over { result ≡ false → self.new.progress ≢ Ok Progress.Open }
        ensures fed { (bytes : List ℕ) (l : List ℕ) → IsLineOf line.now l
            → Audits L.judges self.old bytes → Audits L.judges self.new (bytes ++ with_lf l) }
        ensures between { is_between self.new ≡ true }
        ensures kept { self.old.progress ≢ Ok Progress.Open → self.new ≡ self.old }
        ensures memory { self.old.progress ≡ Ok Progress.Open
            → IfErr self.new.progress (λ fault. fault ≡ AuditFault.OutOfMemory) }
    {
        match self.progress {
            Ok(Progress::Open) => take_said(&mut self.checker, line, &mut self.progress),
            Ok(Progress::Fixed(_)) => false,
            Err(_) => false,
        }
    }

    /// The verdict of all bytes that were fed, where nothing follows. Asked again, it is the same.
    ///
    /// `AuditFault::OutOfMemory` comes where it is out of memory, here or before.
    pub fn finish(&mut self) -> Result<Verdict, AuditFault>
        ensures finished { self.new.progress ≡ progress_of result }
        ensures verdict { IfOk result (λ v. (bytes : List ℕ) → Audits L.judges self.old bytes
            → v ≡ verdict (by L.judges) bytes) }
        ensures kept { self.old.progress ≢ Ok Progress.Open → self.new ≡ self.old }
        ensures memory { self.old.progress ≡ Ok Progress.Open
            → IfErr result (λ fault. fault ≡ AuditFault.OutOfMemory) }
    {
        match self.progress {
            Ok(Progress::Open) => {
                let ended = conclude::<L>(self.alloc, &mut self.splitter, &mut self.checker);
                self.progress = ended.map(Progress::Fixed);
                ended
            }
            Ok(Progress::Fixed(verdict)) => Ok(verdict),
            Err(fault) => Err(fault),
        }
    }
}

/// Takes the next piece, and returns how far the audit is then.
fn feed<L: Judge + Drop>(
    alloc: Global,
    splitter: &mut Splitter,
    checker: &mut Checker<L>,
    piece: &[u8],
) -> Result<Progress, AuditFault>
    requires ready { IsReady splitter.old }
    requires whole { checker.old.failed ≡ false }
    ensures more { result ≡ Ok Progress.Open → TakesMore splitter.new checker.new }
    ensures fed { (bytes : List ℕ) → Follows L.judges splitter.old.bytes checker.old bytes
        → BringsTo L.judges result splitter.new checker.new (bytes ++ piece.now) }
    ensures memory { IfErr result (λ fault. fault ≡ AuditFault.OutOfMemory) }
{
    match take_piece::<L, Unvisited>(alloc, false, splitter, checker, &mut Unvisited, piece) {
        Ok(Taken::Good) => Ok(Progress::Open),
        Ok(Taken::Bad(_)) => match verdict_of(checker) {
            Ok(verdict) => Ok(Progress::Fixed(verdict)),
            Err(fault) => Err(fault),
        },
        Err(_) => Err(AuditFault::OutOfMemory),
    }
}

/// Takes the line that says this, and returns whether the audit is open then, whose next byte
/// begins a line.
#[inline(always)]
fn take_said<L: Judge + Drop>(
    checker: &mut Checker<L>,
    line: &Line,
    progress: &mut Result<Progress, AuditFault>,
) -> bool
    requires fitting { line_fits line.now ≡ true }
    requires open { progress.old ≡ Ok Progress.Open }
    ensures open { result ≡ true → progress.new ≡ Ok Progress.Open }
    ensures over { result ≡ false → progress.new ≢ Ok Progress.Open }
    ensures whole { progress.new ≡ Ok Progress.Open → checker.new.failed ≡ false }
    ensures fed { (stream : Stream) (bytes : List ℕ) (l : List ℕ) → stream.bytes ≡ []
        → IsLineOf line.now l → Follows L.judges [] checker.old bytes
        → BringsTo L.judges progress.new stream checker.new (bytes ++ with_lf l) }
    ensures memory { IfErr progress.new (λ fault. fault ≡ AuditFault.OutOfMemory) }
{
    match checker.push_said(line) {
        Ok(()) => true,
        Err(stop) => {
            settle(checker, stop, progress);
            false
        }
    }
}

/// Notes how far an audit is whose checker has stopped. It stands apart, so that a good line does
/// not pay for the room of a verdict.
#[cold]
#[inline(never)]
fn settle<L: Judge + Drop>(
    checker: &Checker<L>,
    stop: Stop,
    progress: &mut Result<Progress, AuditFault>,
)
    ensures { Settles L.judges checker.now stop progress.new }
{
    *progress = settled(checker, stop);
}

/// How far an audit is whose checker has stopped.
fn settled<L: Judge + Drop>(checker: &Checker<L>, stop: Stop) -> Result<Progress, AuditFault>
    ensures { Settles L.judges checker.now stop result }
{
    match stop {
        Stop::Decided => match verdict_of(checker) {
            Ok(verdict) => Ok(Progress::Fixed(verdict)),
            Err(fault) => Err(fault),
        },
        Stop::OutOfMemory => Err(AuditFault::OutOfMemory),
    }
}

/// The verdict where nothing more comes.
fn conclude<L: Judge + Drop>(
    alloc: Global,
    splitter: &mut Splitter,
    checker: &mut Checker<L>,
) -> Result<Verdict, AuditFault>
    requires ready { IsReady splitter.old }
    requires empty { HasNoLine splitter.old }
    requires whole { checker.old.failed ≡ false }
    ensures ok { IfOk result (λ v. (bytes : List ℕ)
        → Follows L.judges splitter.old.bytes checker.old bytes → v ≡ verdict (by L.judges) bytes) }
    ensures memory { IfErr result (λ fault. fault ≡ AuditFault.OutOfMemory) }
{
    match take_last::<L, Unvisited>(alloc, false, splitter, checker, &mut Unvisited) {
        Ok(_) => verdict_of(checker),
        Err(_) => Err(AuditFault::OutOfMemory),
    }
}

/// The verdict that a checker has come to.
fn verdict_of<L: Judge + Drop>(checker: &Checker<L>) -> Result<Verdict, AuditFault>
    ensures ok { IfOk result (λ v. (bytes : List ℕ) → Answers L.judges checker.now bytes
        → v ≡ verdict (by L.judges) bytes) }
    ensures err { IfErr result (λ fault. fault ≡ AuditFault.OutOfMemory) }
{
    checker.verdict().ok_or(AuditFault::OutOfMemory)
}
