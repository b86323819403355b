//! Who visits the lines of a trace while it is judged.
ghost use Rattle.std.specs.Prelude.{◌≡◌, ◌++◌, [], ◌∷◌, List, ℕ, Ok, true, false, OnOk, IfErr};
ghost use Rattle.std.specs.Option.{ForSome, option_copied};
ghost use Rattle.qa_format.specs.format.Reading.{reading};
ghost use Rattle.qa_format.specs.format.Written.{line_fits};
ghost use Rattle.qa_check.specs.Visiting.{ComesAfter};

use crate::judges::Judge;
use qa_format::Line;
use std::alloc::AllocError;

/// Who visits the good lines of a trace, one after another: a writer of rows, or who keeps notes.
///
/// `Unvisited` is nobody, and `Both` are two visitors of the same lines.
pub trait Visitor<J: Judge> {
    /// Why a visit fails.
    type Fault;

    // A visitor that was begun as the first is as the second after these good lines, in their
    // order.
    ghost covers: { Self → Self → List (List ℕ) → Type 0 };

    // A visitor that was begun as the first is as the second where it failed so at the last of
    // these good lines.
    ghost fails: { Self → Self → List (List ℕ) → Self.Fault → Type 0 };

    // It keeps nothing back of what it makes of the lines that it covers.
    ghost is_flushed: { Self → Type 0 };

    /// Whether it looks at lines. One that does not is shown none, and covers them all.
    fn looks(&self) -> bool
        ensures { result ≡ false → (begun : Self) (ls : List (List ℕ)) (l : List ℕ)
            → covers begun self.now ls → covers begun self.now (ls ++ l ∷ []) };

    /// Visits line n, counted from 1, which is good and says this, with the judge after it; there
    /// is none before a header.
    ///
    /// After a fault the visitor is not to be shown another line.
    fn visit(
        &mut self,
        n: u64,
        line: &[u8],
        said: &Line,
        judge: Option<&J>,
    ) -> Result<(), Self::Fault>
        requires says { reading line.now ≡ Ok said.now }
        requires fitting { line_fits said.now ≡ true }
        requires works { ForSome (option_copied judge) (λ j. J.has_failed j ≡ false) }
        ensures ok { OnOk result
            ((begun : Self) (ls : List (List ℕ)) → covers begun self.old ls
            → ComesAfter J.judges n (option_copied judge.entry) ls line.now
            → covers begun self.new (ls ++ line.now ∷ [])) }
        ensures fault { IfErr result
            (λ fault. (begun : Self) (ls : List (List ℕ)) → covers begun self.old ls
            → ComesAfter J.judges n (option_copied judge.entry) ls line.now
            → fails begun self.new (ls ++ line.now ∷ []) fault) };

    /// Passes on what it keeps back, which is asked of it before more is read, and at the end.
    ///
    /// After a fault the visitor is not to be shown another line.
    fn flush(&mut self) -> Result<(), Self::Fault>
        ensures flushed { OnOk result (is_flushed self.new) }
        ensures ok { OnOk result ((begun : Self) (ls : List (List ℕ))
            → covers begun self.old ls → covers begun self.new ls) }
        ensures fault { IfErr result (λ fault. (begun : Self) (ls : List (List ℕ))
            → covers begun self.old ls → fails begun self.new ls fault) };
}

/// Nobody: no line is shown.
#[derive(Clone, Copy, Drop)]
pub struct Unvisited;

impl<J: Judge> Visitor<J> for Unvisited {
    type Fault = AllocError;

    ghost covers = { λ begun now ls. Unit {0} };

    ghost fails = { λ begun now ls fault. Unit {0} };

    ghost is_flushed = { λ now. Unit {0} };

    fn looks(&self) -> bool {
        false
    }

    fn visit(
        &mut self,
        _n: u64,
        _line: &[u8],
        _said: &Line,
        _judge: Option<&J>,
    ) -> Result<(), AllocError> {
        Ok(())
    }

    fn flush(&mut self) -> Result<(), AllocError> {
        Ok(())
    }
}

/// Two visitors of the same lines, which fail by memory alone.
#[derive(Drop)]
pub struct Both<A, B> {
    pub first: A,
    pub second: B,
}

impl<J: Judge, A: Visitor<J, Fault = AllocError>, B: Visitor<J, Fault = AllocError>> Visitor<J>
    for Both<A, B> {
    type Fault = AllocError;

    ghost covers = { λ begun now ls.
        A.covers begun.first now.first ls × B.covers begun.second now.second ls };

    ghost fails = { λ begun now ls fault. Unit {0} };

    ghost is_flushed = { λ now. A.is_flushed now.first × B.is_flushed now.second };

    fn looks(&self) -> bool {
        self.first.looks() || self.second.looks()
    }

    fn visit(
        &mut self,
        n: u64,
        line: &[u8],
        said: &Line,
        judge: Option<&J>,
    ) -> Result<(), AllocError> {
        self.first.visit(n, line, said, judge)?;
        self.second.visit(n, line, said, judge)
    }

    fn flush(&mut self) -> Result<(), AllocError> {
        self.first.flush()?;
        self.second.flush()
    }
}
