//! The numbers that stand on one of two sides.
ghost use Rattle.std.specs.Prelude.{◌≡◌, ◌≤◌, ◌&&◌, not, List, ℕ};
ghost use Rattle.std.specs.List.{AllByRecursion};
ghost use Rattle.qa_base.specs.machine.Numbers.{is_in};
ghost use Rattle.qa_base.specs.values.Events.{is_named};
ghost use Rattle.qa_packet_numbers.specs.Missing.{others, runs_of, unnamed};
ghost use Rattle.qa_packet_numbers.specs.Runs.{AreApart};

/// The runs that are told of a Lost line are the differences of two sets: a number is in the runs
/// of those that are not named exactly if it is one of the numbers and no range names it, and in
/// those of the others exactly if a range names it and it is none of the numbers. Runs rise, and
/// between two of them a number is missing.
pub fn runs_are_differences()
    ensures unnamed { (ranges : List (ℕ × ℕ)) (numbers : List ℕ) (n : ℕ)
        → is_named (runs_of (unnamed ranges numbers)) n
        ≡ (is_in numbers n && not (is_named ranges n)) }
    ensures unnamed_apart { (ranges : List (ℕ × ℕ)) (numbers : List ℕ)
        → AreApart (runs_of (unnamed ranges numbers)) }
    ensures others { (ranges : List (ℕ × ℕ)) (numbers : List ℕ) (n : ℕ)
        → AllByRecursion (λ range. range.0 ≤ range.1) ranges
        → is_named (others ranges numbers) n ≡ (is_named ranges n && not (is_in numbers n)) }
    ensures others_apart { (ranges : List (ℕ × ℕ)) (numbers : List ℕ)
        → AllByRecursion (λ range. range.0 ≤ range.1) ranges → AreApart (others ranges numbers) }
{}
