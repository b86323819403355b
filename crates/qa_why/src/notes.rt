//! Who takes notes of the good lines of a trace while it is judged.
ghost use Rattle.std.specs.Prelude.{◌≡◌, ◌+◌, ◌++◌, [], ◌∷◌, ℕ, List, Ok, false, length, OnOk};
ghost use Rattle.std.specs.Option.{ForSome, option_copied};
ghost use Rattle.qa_base.specs.machine.Packets.{history_of};
ghost use Rattle.qa_check.specs.Standing.{HoldsRun};
ghost use Rattle.qa_format.specs.format.Reading.{reading};
ghost use Rattle.qa_format.specs.verdicts.Verdict.{events_in, header_in};

use qa_check::Judge;
use qa_format::Line;
use std::alloc::AllocError;

/// Who takes notes of the lines of a trace that are good, one after another.
pub trait Notes<J: Judge> {
    // Under a name, notes that were begun as the first are as the second after these lines, in
    // their order.
    ghost covers: { List ℕ → Self → Self → List (List ℕ) → Type 0 };

    /// Takes notes of line n of the trace of this name, which is good and says this, with the judge
    /// after it; there is none before a header.
    ///
    /// `AllocError` comes where it is out of memory; of notes that failed nothing is promised.
    fn note(
        &mut self,
        name: &str,
        n: u64,
        line: &[u8],
        said: &Line,
        judge: Option<&J>,
    ) -> Result<(), AllocError>
        requires says { reading line.now ≡ Ok said.now }
        requires works { ForSome (option_copied judge) (λ j. J.has_failed j ≡ false) }
        ensures { OnOk result
            ((begun : Self) (ls : List (List ℕ)) → covers name.now begun self.old ls
            → n ≡ length ls + 1
            → HoldsRun J.judges (option_copied judge.entry)
            (header_in reading (ls ++ line.now ∷ []))
            (history_of (events_in reading (ls ++ line.now ∷ [])))
            → covers name.now begun self.new (ls ++ line.now ∷ [])) };
}

/// No notes are taken.
#[derive(Drop)]
pub struct NoNotes;

impl<J: Judge> Notes<J> for NoNotes {
    ghost covers = { λ name begun notes ls. Unit {0} };

    fn note(
        &mut self,
        _name: &str,
        _n: u64,
        _line: &[u8],
        _said: &Line,
        _judge: Option<&J>,
    ) -> Result<(), AllocError> {
        Ok(())
    }
}

/// Notes of two kinds, taken of the same lines.
#[derive(Drop)]
pub struct Both<A, B> {
    pub first: A,
    pub second: B,
}

impl<J: Judge, A: Notes<J>, B: Notes<J>> Notes<J> for Both<A, B> {
    ghost covers = { λ name begun both ls.
        A.covers name begun.first both.first ls × B.covers name begun.second both.second ls };

    #[inline(always)]
    fn note(
        &mut self,
        name: &str,
        n: u64,
        line: &[u8],
        said: &Line,
        judge: Option<&J>,
    ) -> Result<(), AllocError> {
        self.first.note(name, n, line, said, judge)?;
        self.second.note(name, n, line, said, judge)
    }
}
