//! How the lines of pieces are taken: each goes to the checker, and a good one to the visitor.
ghost use Rattle.std.specs.Prelude.{◌≡◌, ◌++◌, ℕ, List, [], ◌∷◌, None, Option, Some, false, true, Ok};
ghost use Rattle.std.specs.Prelude.{Err, IfOk, IfErr, OnOk};
ghost use Rattle.qa_format.specs.format.Lines.{ended_lines, lines};
ghost use Rattle.qa_format.specs.format.Reading.{reading};
ghost use Rattle.qa_format.specs.format.Written.{line_fits};
ghost use Rattle.qa_format.specs.verdicts.Verdict.{AreGood, IsFixed};
ghost use Rattle.qa_cut.specs.Stream.{HasNoLine};
ghost use Rattle.qa_check.specs.Auditor.{TakesMore};
ghost use Rattle.qa_check.specs.Following.{IsReady};
ghost use Rattle.qa_check.specs.Standing.{StandsFor, by};
ghost use Rattle.qa_check.specs.Walking.{Covered, Ends, HaltsAt, HaltsIn, VisitsGood, Walked};
ghost use Rattle.qa_check.specs.Checking.{IsRead};
ghost use Rattle.qa_check.specs.Taking.{IsKept, IsUnseen, TakesBad};
ghost use Rattle.qa_check.specs.declared.taking.LastLine.{LastLine as ALast};

use crate::checker::{Checker, Stop};
use crate::judges::Judge;
use crate::visitor::Visitor;
use qa_cut::{SplitFault, Splitter};
use qa_format::Line;
use qa_read::{LineFault, read_line};
use std::alloc::{AllocError, Global};

/// The line that ended a walk, which is not good.
#[derive(Drop)]
pub struct LastLine {
    /// Its bytes, without LF.
    pub bytes: Vec<u8>,
    /// What it says; None where it could not be read, or stands behind too many.
    pub said: Option<Line>,
}

/// What lines are that were taken.
#[derive(Drop)]
pub enum Taken {
    /// All were good.
    Good,
    /// One was not, and fixes the verdict: this one, where lines are kept and it is not too long.
    Bad(Option<LastLine>),
}

/// What a line is that was taken.
#[derive(Clone, Copy)]
enum Judged {
    Good,
    Bad,
}

/// Why lines were halted that were good so far.
#[derive(Debug, Drop)]
pub enum Halt<F> {
    /// Out of memory.
    OutOfMemory,
    /// The visitor failed.
    Visitor(F),
}

/// Takes each line that stands ready. Where lines are kept, the one that is not good is handed out.
pub fn take_lines<J: Judge + Drop, V: Visitor<J>>(
    alloc: Global,
    keeps: bool,
    splitter: &mut Splitter,
    checker: &mut Checker<J>,
    visitor: &mut V,
) -> Result<Taken, Halt<V::Fault>>
    requires ready { IsReady splitter.old }
    requires whole { checker.old.failed ≡ false }
    ensures more { result ≡ Ok Taken.Good → TakesMore splitter.new checker.new }
    ensures good { result ≡ Ok Taken.Good → (begun : V) (bytes : List ℕ)
        → Walked J.judges (V.covers begun) splitter.old.bytes checker.old visitor.old bytes
        → Walked J.judges (V.covers begun) splitter.new.bytes checker.new visitor.new bytes }
    ensures whole { IfOk result (λ taken. checker.new.failed ≡ false) }
    ensures bad { (last : Option ALast) → result ≡ Ok (Taken.Bad last) → (begun : V)
        (bytes : List ℕ)
        → Walked J.judges (V.covers begun) splitter.old.bytes checker.old visitor.old bytes
        → IsFixed (by J.judges) bytes
        × Ends J.judges (V.covers begun) keeps checker.new visitor.new last bytes }
    ensures halted { IfErr result (λ halt. (begun : V) (bytes : List ℕ)
        → Walked J.judges (V.covers begun) splitter.old.bytes checker.old visitor.old bytes
        → HaltsIn (V.covers begun) (V.fails begun) visitor.new halt (ended_lines bytes)) }
{
    let mut last = None;
    'lines: loop {
        match splitter.next_line() {
            Ok(Some(line)) => {
                match take_line::<J, V>(alloc, keeps, checker, visitor, line, &mut last) {
                    Ok(Judged::Good) => {}
                    Ok(Judged::Bad) => return Ok(Taken::Bad(last)),
                    Err(halt) => return Err(halt),
                }
            }
            Ok(None) => return Ok(Taken::Good),
            Err(SplitFault::TooLong) => match checker.too_long() {
                Stop::Decided => return Ok(Taken::Bad(None)),
                Stop::OutOfMemory => return Err(Halt::OutOfMemory),
            },
            Err(SplitFault::OutOfMemory) => return Err(Halt::OutOfMemory),
        }
    }
}

/// Takes what stands after the last LF, where nothing more comes, and hands out the line that is
/// not good, where lines are kept.
pub fn take_last<J: Judge + Drop, V: Visitor<J>>(
    alloc: Global,
    keeps: bool,
    splitter: &mut Splitter,
    checker: &mut Checker<J>,
    visitor: &mut V,
) -> Result<Option<LastLine>, Halt<V::Fault>>
    requires ready { IsReady splitter.old }
    requires empty { HasNoLine splitter.old }
    requires whole { checker.old.failed ≡ false }
    ensures whole { IfOk result (λ last. checker.new.failed ≡ false) }
    ensures ends { IfOk result (λ last. (begun : V) (bytes : List ℕ)
        → Walked J.judges (V.covers begun) splitter.old.bytes checker.old visitor.old bytes
        → Ends J.judges (V.covers begun) keeps checker.new visitor.new last bytes) }
    ensures halted { IfErr result (λ halt. (begun : V) (bytes : List ℕ)
        → Walked J.judges (V.covers begun) splitter.old.bytes checker.old visitor.old bytes
        → HaltsIn (V.covers begun) (V.fails begun) visitor.new halt (lines bytes)) }
{
    let mut last = None;
    splitter.close();
    match splitter.next_line() {
        Ok(Some(line)) => {
            match take_line::<J, V>(alloc, keeps, checker, visitor, line, &mut last) {
                Ok(Judged::Good) => Ok(None),
                Ok(Judged::Bad) => Ok(last),
                Err(halt) => Err(halt),
            }
        }
        Ok(None) => Ok(None),
        Err(_) => Err(Halt::OutOfMemory),
    }
}

/// Hands the checker the next line, and shows it where it is good. Where it is not, and lines are
/// kept, `last` holds it from then on.
///
/// The line is no part of the result, which would have room for an event then, and is handed on
/// for each good line.
fn take_line<J: Judge + Drop, V: Visitor<J>>(
    alloc: Global,
    keeps: bool,
    checker: &mut Checker<J>,
    visitor: &mut V,
    line: &[u8],
    last: &mut Option<LastLine>,
) -> Result<Judged, Halt<V::Fault>>
    requires none { last.old ≡ None }
    ensures whole { IfOk result (λ judged. checker.new.failed ≡ false) }
    ensures none { result ≡ Ok Judged.Good → last.new ≡ None }
    ensures good { result ≡ Ok Judged.Good → (begun : V)
        → VisitsGood J.judges (V.covers begun) checker.old checker.new visitor.old visitor.new
        line.now }
    ensures bad { result ≡ Ok Judged.Bad
        → TakesBad J.judges keeps checker.old checker.new line.now last.new
        × (visitor.new ≡ visitor.old) }
    ensures halted { IfErr result (λ halt. (begun : V) (ls : List (List ℕ))
        → Covered J.judges (V.covers begun) checker.old visitor.old ls
        → HaltsIn (V.covers begun) (V.fails begun) visitor.new halt (ls ++ line.now ∷ [])) }
{
    if !keeps && !visitor.looks() {
        return unseen::<V::Fault>(checker.push_line(line));
    }
    if let Err(stop) = checker.expect_bytes(line) {
        return keep_unread::<V::Fault>(alloc, keeps, line, stop, last);
    }
    let read = read_line(alloc, line);
    match checker.push_read(&read) {
        Ok(()) => show_line::<J, V>(checker, visitor, line, &read),
        Err(Stop::Decided) => keep_last::<V::Fault>(alloc, keeps, line, read.ok(), last),
        Err(Stop::OutOfMemory) => Err(Halt::OutOfMemory),
    }
}

/// Shows the visitor the good line that the checker took last and that was read so.
fn show_line<J: Judge + Drop, V: Visitor<J>>(
    checker: &Checker<J>,
    visitor: &mut V,
    line: &[u8],
    read: &Result<Line, LineFault>,
) -> Result<Judged, Halt<V::Fault>>
    requires whole { checker.now.failed ≡ false }
    requires says { IsRead (λ said. (reading line.now ≡ Ok said) × (line_fits said ≡ true))
        read.now }
    ensures shown { IfOk result (λ judged. (judged ≡ Judged.Good) × ((begun : V)
        (ls : List (List ℕ)) → V.covers begun visitor.old ls
        → StandsFor J.judges checker.now (ls ++ line.now ∷ [])
        → AreGood (by J.judges) (ls ++ line.now ∷ [])
        → V.covers begun visitor.new (ls ++ line.now ∷ []))) }
    ensures halted { IfErr result (λ halt. (begun : V) (ls : List (List ℕ))
        → V.covers begun visitor.old ls → StandsFor J.judges checker.now (ls ++ line.now ∷ [])
        → AreGood (by J.judges) (ls ++ line.now ∷ [])
        → HaltsAt (V.covers begun) (V.fails begun) visitor.new halt (ls ++ line.now ∷ [])) }
{
    match read {
        Ok(said) => match visitor.visit(checker.line_count(), line, said, checker.ledger()) {
            Ok(()) => Ok(Judged::Good),
            Err(fault) => Err(Halt::Visitor(fault)),
        },
        Err(_) => unreachable!(),
    }
}

/// Whether a line is good that nobody looks at.
fn unseen<F>(pushed: Result<(), Stop>) -> Result<Judged, Halt<F>>
    ensures { IsUnseen pushed result }
{
    match pushed {
        Ok(()) => Ok(Judged::Good),
        Err(Stop::Decided) => Ok(Judged::Bad),
        Err(Stop::OutOfMemory) => Err(Halt::OutOfMemory),
    }
}

/// Keeps the line, of which nothing is read, where it is not good and lines are kept.
#[cold]
#[inline(never)]
fn keep_unread<F>(
    alloc: Global,
    keeps: bool,
    line: &[u8],
    stop: Stop,
    last: &mut Option<LastLine>,
) -> Result<Judged, Halt<F>>
    requires none { last.old ≡ None }
    ensures bad { IfOk result (λ judged. (judged ≡ Judged.Bad) × (stop ≡ Stop.Decided)
        × IsKept keeps line.now None last.new) }
    ensures memory { IfErr result (λ halt. halt ≡ Halt.OutOfMemory) }
{
    match stop {
        Stop::Decided => keep_last::<F>(alloc, keeps, line, None, last),
        Stop::OutOfMemory => Err(Halt::OutOfMemory),
    }
}

/// Keeps the line, which is not good, and what was read of it, where lines are kept.
#[cold]
#[inline(never)]
fn keep_last<F>(
    alloc: Global,
    keeps: bool,
    line: &[u8],
    said: Option<Line>,
    last: &mut Option<LastLine>,
) -> Result<Judged, Halt<F>>
    requires none { last.old ≡ None }
    ensures bad { IfOk result (λ judged. (judged ≡ Judged.Bad)
        × IsKept keeps line.now said last.new) }
    ensures memory { IfErr result (λ halt. halt ≡ Halt.OutOfMemory) }
{
    if !keeps {
        return Ok(Judged::Bad);
    }
    match copied(alloc, line) {
        Ok(bytes) => {
            *last = Some(LastLine { bytes, said });
            Ok(Judged::Bad)
        }
        Err(_) => Err(Halt::OutOfMemory),
    }
}

/// The bytes of a line, of their own.
fn copied(alloc: Global, line: &[u8]) -> Result<Vec<u8>, AllocError>
    ensures { IfOk result (λ bytes. bytes.items ≡ line.now) }
{
    let mut bytes = Vec::new(alloc);
    bytes.extend_from_slice(line)?;
    Ok(bytes)
}
