//! The numbers that spans name, one after another in rising order. It takes no memory.
use qa_base::Span;

/// Numbers one after another, from `start` to below `end`.
#[derive(Clone, Copy)]
pub(crate) struct Stretch {
    pub(crate) start: u64,
    pub(crate) end: u64,
}

impl Stretch {
    ghost use Rattle.std.specs.Prelude.{◌≤◌, ◌||◌, ℕ, Bool, IsSome};
    ghost use Rattle.qa_sent_packets.specs.Covering.{is_between};
    ghost use Rattle.qa_sent_packets.specs.Naming.{IsStretch};

    /// What of the span does not lie below the number.
    fn from(span: Span, from: u64) -> Option<Stretch>
        ensures stretch { IsStretch (is_between span.0 span.1) from result }
        ensures some { from ≤ span.1 → IsSome result }
    {
        let start = span.lo().get().max(from);
        let end = span.hi().get() + 1;
        if start < end {
            Some(Stretch { start, end })
        } else {
            None
        }
    }

    /// The one of two that begins first, and the longer one where they begin together.
    fn first_of(a: Option<Stretch>, b: Option<Stretch>) -> Option<Stretch>
        ensures { (p q : ℕ → Bool) (from : ℕ) → IsStretch p from a → IsStretch q from b
            → IsStretch (λ n. p n || q n) from result }
    {
        let Some(x) = a else {
            return b;
        };
        let Some(y) = b else {
            return a;
        };
        if y.start < x.start || (y.start == x.start && x.end < y.end) {
            return b;
        }
        a
    }
}

/// A walk along the numbers that spans name, in rising order.
#[derive(Clone, Copy)]
pub(crate) struct NamedNumbers {
    /// The numbers below this one were passed.
    pub(crate) from: u64,
    /// Those from there to below this one are all named.
    pub(crate) to: u64,
    /// Whether the spans are taken from the last to the first.
    pub(crate) falling: bool,
    /// Whether none of them, so taken, begins below the one before it.
    pub(crate) in_order: bool,
    /// So many of them have no number that was not passed. None are counted where they are not in
    /// order.
    pub(crate) passed: usize,
}

impl NamedNumbers {
    ghost use Rattle.std.specs.Prelude.{◌≡◌, ◌≤◌, ◌<◌, ◌+◌, ℕ, true, List, ◌∷◌, drop, length};
    ghost use Rattle.std.specs.Prelude.{slice_index_or, take, IfSome};
    ghost use Rattle.std.specs.List.{AllByRecursion};
    ghost use Rattle.qa_base.specs.machine.Numbers.{AreRanges};
    ghost use Rattle.qa_base.specs.values.Events.{is_named};
    ghost use Rattle.qa_sent_packets.specs.Naming.{AreRisingFrom, EndsBelow, IsNext, IsStretch};
    ghost use Rattle.qa_sent_packets.specs.Naming.{IsWalk, turned};

    /// A walk from the least number on.
    pub(crate) fn start(spans: &[Span]) -> NamedNumbers
        ensures from { result.from ≡ 0 }
        ensures ranges { AreRanges spans.now }
        ensures walk { IsWalk spans.now result }
    {
        let rising = NamedNumbers::are_rising(spans, false);
        let falling = !rising && NamedNumbers::are_rising(spans, true);
        NamedNumbers {
            from: 0,
            to: 0,
            falling,
            in_order: rising || falling,
            passed: 0,
        }
    }

    /// The next number that the spans name.
    ///
    /// All calls of a walk together take as much time as there are numbers and spans, where the
    /// spans rise or fall. Else each stretch of numbers takes a look at all spans.
    pub(crate) fn next(&mut self, spans: &[Span]) -> Option<u64>
        requires { IsWalk spans.now self.old }
        ensures next { IsNext (is_named spans.now) self.old.from result }
        ensures from { IfSome result (λ n. self.new.from ≡ n + 1) }
        ensures walk { IsWalk spans.now self.new }
    {
        if self.to <= self.from {
            let stretch = self.next_stretch(spans)?;
            self.from = stretch.start;
            self.to = stretch.end;
        }
        let number = self.from;
        self.from += 1;
        Some(number)
    }

    /// The first numbers that are not passed, one after another.
    fn next_stretch(&mut self, spans: &[Span]) -> Option<Stretch>
        requires { IsWalk spans.now self.old }
        ensures stretch { IsStretch (is_named spans.now) self.old.from result }
        ensures from { self.new.from ≡ self.old.from }
        ensures to { self.new.to ≡ self.old.to }
        ensures walk { IsWalk spans.now self.new }
    {
        if !self.in_order {
            return NamedNumbers::first_of_all(spans, self.from);
        }
        self.passed = NamedNumbers::first_left(spans, self.falling, self.passed, self.from);
        if self.passed == spans.len() {
            return None;
        }
        let first = NamedNumbers::nth(spans, self.falling, self.passed);
        Stretch::from(first, self.from)
    }

    /// The span at this place, counted from the end where they are taken from the last to the
    /// first.
    pub(crate) fn nth(spans: &[Span], falling: bool, at: usize) -> Span
        requires { at < length spans.now }
        ensures { result ≡ slice_index_or (turned falling spans.now) at result }
    {
        if falling {
            spans[spans.len() - 1 - at]
        } else {
            spans[at]
        }
    }

    /// The first span, from a place on, that does not end below the number.
    pub(crate) fn first_left(spans: &[Span], falling: bool, passed: usize, from: u64) -> usize
        requires { passed ≤ length spans.now }
        ensures within { result ≤ length spans.now }
        ensures left { (n : ℕ) → from ≤ n
            → is_named (drop passed (turned falling spans.now)) n
            ≡ is_named (drop result (turned falling spans.now)) n }
        ensures order { AreRisingFrom 0 (drop passed (turned falling spans.now))
            → AreRisingFrom 0 (drop result (turned falling spans.now)) }
        ensures below { AllByRecursion (EndsBelow from) (take passed (turned falling spans.now))
            → AllByRecursion (EndsBelow from) (take result (turned falling spans.now)) }
        ensures reached { (span : ℕ × ℕ) (rest : List (ℕ × ℕ))
            → drop result (turned falling spans.now) ≡ span ∷ rest → from ≤ span.1 }
    {
        let mut at = passed;
        while at < spans.len() && NamedNumbers::nth(spans, falling, at).hi().get() < from {
            at += 1;
        }
        at
    }

    /// The first numbers from a number on that the spans name, whatever their order.
    fn first_of_all(spans: &[Span], from: u64) -> Option<Stretch>
        ensures { IsStretch (is_named spans.now) from result }
    {
        let mut first = None;
        for span in spans {
            first = Stretch::first_of(first, Stretch::from(*span, from));
        }
        first
    }

    /// Whether no span begins below the one before it, as they are taken.
    fn are_rising(spans: &[Span], falling: bool) -> bool
        ensures ranges { AreRanges (turned falling spans.now) }
        ensures order { result ≡ true → AreRisingFrom 0 (turned falling spans.now) }
    {
        let mut rising = true;
        let mut last = 0;
        for at in 0..spans.len() {
            let lo = NamedNumbers::nth(spans, falling, at).lo().get();
            rising = rising && last <= lo;
            last = lo;
        }
        rising
    }
}
