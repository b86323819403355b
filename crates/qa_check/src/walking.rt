//! The walk over the lines of a trace: from a reader of bytes to a verdict, past a visitor.
ghost use Rattle.std.specs.Prelude.{[], ◌≡◌, ◌++◌, ℕ, Bool, List, None, Option, Some, false, true, Ok, Err};
ghost use Rattle.std.specs.Prelude.{IfOk, IfErr, OnOk};
ghost use Rattle.std.specs.Option.{ForSome};
ghost use Rattle.qa_format.specs.format.Lines.{ended_lines, lines};
ghost use Rattle.qa_format.specs.verdicts.Verdict.{IsFixed};
ghost use Rattle.qa_check.specs.Audit.{ReadsBy};
ghost use Rattle.qa_check.specs.Auditor.{TakesMore};
ghost use Rattle.qa_check.specs.Failures.{failures_after};
ghost use Rattle.qa_check.specs.Following.{IsReady};
ghost use Rattle.qa_check.specs.Standing.{by};
ghost use Rattle.qa_check.specs.Walking.{Ends, HaltsAt, HaltsIn, HaltsWithin, IsEnd, IsEnded};
ghost use Rattle.qa_check.specs.Walking.{Walked, Walks, WalksTo, fault_by, has_failed_read};
ghost use Rattle.qa_cut.specs.Stream.{HasNoLine};
ghost use Rattle.qa_check.specs.declared.taking.LastLine.{LastLine as ALast};

use crate::checker::Checker;
use crate::judges::Judge;
use crate::streams::Source;
use crate::taking::{Halt, LastLine, Taken, take_last, take_lines};
use crate::visitor::Visitor;
use qa_cut::Splitter;
use qa_format::Verdict;
use std::alloc::Global;

/// How a walk ended.
#[derive(Drop)]
pub struct Ended<J> {
    /// The verdict.
    pub verdict: Verdict,
    /// The judge after the good lines; None before a header.
    pub judge: Option<J>,
    /// The line that ended the walk, where lines are kept; None where the end of the input ended
    /// it, or a line that is too long.
    pub line: Option<LastLine>,
}

/// Why a walk came to no verdict.
#[derive(Debug, Drop)]
pub enum WalkFault<F> {
    /// The reader failed.
    Read,
    /// Out of memory.
    OutOfMemory,
    /// The visitor failed.
    Visitor(F),
}

/// The most bytes that one read asks for.
const PIECE: usize = 4096;

/// Walks over the lines of what is read, up to the verdict, and shows the visitor each good one:
/// those of each piece before the next is asked for, behind which the visitor passes on what it
/// keeps back, as at the end. Where lines are kept, the line that ended the walk is handed out, and
/// what was read of it.
///
/// It reads pieces of at most 4,096 bytes, and none once the verdict was fixed by those before, or
/// the visitor failed. It always terminates, also where a reader never ends: line 4294967296 is a
/// fault.
pub fn walk<J: Judge + Drop, V: Visitor<J>, R: Source>(
    alloc: Global,
    keeps: bool,
    reader: &mut R,
    visitor: &mut V,
) -> Result<Ended<J>, WalkFault<V::Fault>>
    requires fresh { V.covers visitor.old visitor.old [] }
    requires flushed { V.is_flushed visitor.old }
    ensures walks { Walks J.judges keeps (V.covers visitor.old) (V.fails visitor.old)
        (R.left reader.old) (R.left reader.new) (R.last_read reader.new) visitor.new result }
    ensures works { IfOk result (λ ended. ForSome ended.judge (λ j. J.has_failed j ≡ false)) }
    ensures flushed { IfOk result (λ ended. V.is_flushed visitor.new) }
    ensures read_flushed { has_failed_read result ≡ true → V.is_flushed visitor.new }
    ensures reads { ReadsBy (by J.judges) (R.left reader.old) (R.left reader.new)
        (R.last_read reader.new) }
    ensures read_failures { R.read_failures reader.new
        ≡ failures_after (has_failed_read result) (R.read_failures reader.old) }
{
    let mut splitter = Splitter::new(alloc);
    let mut checker = Checker::<J>::new(alloc);
    let taken = take_pieces::<J, V, R>(alloc, keeps, reader, &mut splitter, &mut checker, visitor);
    match taken {
        Ok(last) => Ok(end_of(checker, last)),
        Err(fault) => Err(fault),
    }
}

/// How the walk ended that a checker was led along.
fn end_of<J: Judge + Drop>(checker: Checker<J>, line: Option<LastLine>) -> Ended<J>
    requires whole { checker.failed ≡ false }
    ensures ends { (keeps : Bool) (bytes : List ℕ)
        → IsEnded J.judges keeps checker line bytes → IsEnd J.judges keeps result bytes }
    ensures works { ForSome result.judge (λ j. J.has_failed j ≡ false) }
{
    match checker.verdict() {
        Some(verdict) => Ended {
            verdict,
            judge: checker.into_ledger(),
            line,
        },
        None => unreachable!(),
    }
}

/// Takes piece after piece, up to the line that ends the walk.
fn take_pieces<J: Judge + Drop, V: Visitor<J>, R: Source>(
    alloc: Global,
    keeps: bool,
    reader: &mut R,
    splitter: &mut Splitter,
    checker: &mut Checker<J>,
    visitor: &mut V,
) -> Result<Option<LastLine>, WalkFault<V::Fault>>
    requires more { TakesMore splitter.old checker.old }
    requires first { Walked J.judges (V.covers visitor.old) splitter.old.bytes checker.old
        visitor.old [] }
    requires flushed { V.is_flushed visitor.old }
    ensures whole { IfOk result (λ last. checker.new.failed ≡ false) }
    ensures flushed { IfOk result (λ last. V.is_flushed visitor.new) }
    ensures read_flushed { has_failed_read result ≡ true → V.is_flushed visitor.new }
    ensures walks { WalksTo J.judges keeps (V.covers visitor.old) (V.fails visitor.old)
        (R.left reader.old) (R.left reader.new) (R.last_read reader.new) checker.new visitor.new
        result }
    ensures reads { ReadsBy (by J.judges) (R.left reader.old) (R.left reader.new)
        (R.last_read reader.new) }
    ensures read_failures { R.read_failures reader.new
        ≡ failures_after (has_failed_read result) (R.read_failures reader.old) }
{
    let mut piece = [0u8; PIECE];
    'pieces: for _i in 0..u64::MAX {
        let Ok(n) = reader.read_piece(&mut piece) else {
            return Err(WalkFault::Read);
        };
        if n == 0 {
            return match take_rest::<J, V>(alloc, keeps, splitter, checker, visitor) {
                Ok(last) => Ok(last),
                Err(halt) => Err(fault_of(halt)),
            };
        }
        match take_and_flush::<J, V>(alloc, keeps, splitter, checker, visitor, &piece[..n]) {
            Ok(Taken::Good) => {}
            Ok(Taken::Bad(last)) => return Ok(last),
            Err(halt) => return Err(fault_of(halt)),
        }
    }
    // A line more than a trace may have is not good, so that a reader without end is not read to
    // here.
    unreachable!()
}

/// Takes the next piece, behind which the visitor passes on what it keeps back.
fn take_and_flush<J: Judge + Drop, V: Visitor<J>>(
    alloc: Global,
    keeps: bool,
    splitter: &mut Splitter,
    checker: &mut Checker<J>,
    visitor: &mut V,
    piece: &[u8],
) -> Result<Taken, Halt<V::Fault>>
    requires ready { IsReady splitter.old }
    requires whole { checker.old.failed ≡ false }
    ensures more { result ≡ Ok Taken.Good → TakesMore splitter.new checker.new }
    ensures whole { IfOk result (λ taken. checker.new.failed ≡ false) }
    ensures flushed { IfOk result (λ taken. V.is_flushed visitor.new) }
    ensures good { result ≡ Ok Taken.Good → (begun : V) (bytes : List ℕ)
        → Walked J.judges (V.covers begun) splitter.old.bytes checker.old visitor.old bytes
        → Walked J.judges (V.covers begun) splitter.new.bytes checker.new visitor.new
        (bytes ++ piece.now) }
    ensures bad { (last : Option ALast) → result ≡ Ok (Taken.Bad last) → (begun : V)
        (bytes : List ℕ)
        → Walked J.judges (V.covers begun) splitter.old.bytes checker.old visitor.old bytes
        → IsFixed (by J.judges) (bytes ++ piece.now)
        × Ends J.judges (V.covers begun) keeps checker.new visitor.new last
        (bytes ++ piece.now) }
    ensures halted { IfErr result (λ halt. (begun : V) (bytes : List ℕ)
        → Walked J.judges (V.covers begun) splitter.old.bytes checker.old visitor.old bytes
        → HaltsWithin (by J.judges) (V.covers begun) (V.fails begun) visitor.new halt
        (bytes ++ piece.now)) }
{
    match take_piece::<J, V>(alloc, keeps, splitter, checker, visitor, piece) {
        Ok(Taken::Good) => flushed::<J, V, Taken>(visitor, Taken::Good),
        Ok(Taken::Bad(last)) => flushed::<J, V, Taken>(visitor, Taken::Bad(last)),
        Err(halt) => Err(halt),
    }
}

/// Takes what stands after the last LF, where nothing more comes, behind which the visitor passes
/// on what it keeps back.
fn take_rest<J: Judge + Drop, V: Visitor<J>>(
    alloc: Global,
    keeps: bool,
    splitter: &mut Splitter,
    checker: &mut Checker<J>,
    visitor: &mut V,
) -> Result<Option<LastLine>, Halt<V::Fault>>
    requires ready { IsReady splitter.old }
    requires empty { HasNoLine splitter.old }
    requires whole { checker.old.failed ≡ false }
    ensures whole { IfOk result (λ last. checker.new.failed ≡ false) }
    ensures flushed { IfOk result (λ last. V.is_flushed visitor.new) }
    ensures ends { IfOk result (λ last. (begun : V) (bytes : List ℕ)
        → Walked J.judges (V.covers begun) splitter.old.bytes checker.old visitor.old bytes
        → Ends J.judges (V.covers begun) keeps checker.new visitor.new last bytes) }
    ensures halted { IfErr result (λ halt. (begun : V) (bytes : List ℕ)
        → Walked J.judges (V.covers begun) splitter.old.bytes checker.old visitor.old bytes
        → HaltsIn (V.covers begun) (V.fails begun) visitor.new halt (lines bytes)) }
{
    match take_last::<J, V>(alloc, keeps, splitter, checker, visitor) {
        Ok(last) => flushed::<J, V, Option<LastLine>>(visitor, last),
        Err(halt) => Err(halt),
    }
}

/// Lets the visitor pass on what it keeps back, before this is returned.
fn flushed<J: Judge, V: Visitor<J>, T: Drop>(visitor: &mut V, taken: T) -> Result<T, Halt<V::Fault>>
    ensures taken { IfOk result (λ value. value ≡ taken) }
    ensures flushed { OnOk result (V.is_flushed visitor.new) }
    ensures ok { OnOk result ((begun : V) (ls : List (List ℕ))
        → V.covers begun visitor.old ls → V.covers begun visitor.new ls) }
    ensures halted { IfErr result (λ halt. (begun : V) (ls : List (List ℕ))
        → V.covers begun visitor.old ls
        → HaltsAt (V.covers begun) (V.fails begun) visitor.new halt ls) }
{
    match visitor.flush() {
        Ok(()) => Ok(taken),
        Err(fault) => Err(Halt::Visitor(fault)),
    }
}

/// Takes the next piece.
pub fn take_piece<J: Judge + Drop, V: Visitor<J>>(
    alloc: Global,
    keeps: bool,
    splitter: &mut Splitter,
    checker: &mut Checker<J>,
    visitor: &mut V,
    piece: &[u8],
) -> Result<Taken, Halt<V::Fault>>
    requires ready { IsReady splitter.old }
    requires whole { checker.old.failed ≡ false }
    ensures more { result ≡ Ok Taken.Good → TakesMore splitter.new checker.new }
    ensures whole { IfOk result (λ taken. checker.new.failed ≡ false) }
    ensures good { result ≡ Ok Taken.Good → (begun : V) (bytes : List ℕ)
        → Walked J.judges (V.covers begun) splitter.old.bytes checker.old visitor.old bytes
        → Walked J.judges (V.covers begun) splitter.new.bytes checker.new visitor.new
        (bytes ++ piece.now) }
    ensures bad { (last : Option ALast) → result ≡ Ok (Taken.Bad last) → (begun : V)
        (bytes : List ℕ)
        → Walked J.judges (V.covers begun) splitter.old.bytes checker.old visitor.old bytes
        → IsFixed (by J.judges) (bytes ++ piece.now)
        × Ends J.judges (V.covers begun) keeps checker.new visitor.new last
        (bytes ++ piece.now) }
    ensures halted { IfErr result (λ halt. (begun : V) (bytes : List ℕ)
        → Walked J.judges (V.covers begun) splitter.old.bytes checker.old visitor.old bytes
        → HaltsIn (V.covers begun) (V.fails begun) visitor.new halt
        (ended_lines (bytes ++ piece.now))) }
{
    let Ok(()) = splitter.feed(piece) else {
        return Err(Halt::OutOfMemory);
    };
    take_lines::<J, V>(alloc, keeps, splitter, checker, visitor)
}

/// Why a walk came to no verdict whose lines were halted.
fn fault_of<F>(halt: Halt<F>) -> WalkFault<F>
    ensures { result ≡ fault_by halt }
{
    match halt {
        Halt::OutOfMemory => WalkFault::OutOfMemory,
        Halt::Visitor(fault) => WalkFault::Visitor(fault),
    }
}
