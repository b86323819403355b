//! The packets of a space that an acknowledgment would still cover, by their numbers.
ghost use Rattle.std.specs.Prelude.{◌≡◌, ◌≤◌, ◌<◌, ◌==◌, ◌++◌, ◌∷◌, [], ℕ, false, true, length};
ghost use Rattle.std.specs.Prelude.{remove, slice_index_or, take, IfSome, MatchOption, OnErr};
ghost use Rattle.std.specs.Prelude.{OnOk};
ghost use Rattle.std.specs.List.{AllByRecursion};
ghost use Rattle.std.specs.Map.{remove_entry};
ghost use Rattle.std.specs.BTreeMap.{is_at};
ghost use Rattle.std.specs.Ordering.{nat_cmp};
ghost use Rattle.qa_base.specs.values.Limits.{max_lines};
ghost use Rattle.qa_sent_packets.specs.Covering.{AreApart, AreClear, NamesNone, count_to};
ghost use Rattle.qa_sent_packets.specs.Covering.{first_between, first_from};
ghost use Rattle.qa_sent_packets.specs.Naming.{turned};
ghost use Rattle.qa_sent_packets.specs.Unacknowledged.{BeginsBelow, BeginsWith, EntriesRise};

use crate::named::NamedNumbers;
use qa_base::Span;
use std::alloc::{AllocError, Global};
use std::collections::{BTreeMap, VecDeque};
use std::marker::Model;

/// The places of the packets of a space that an acknowledgment would still cover, by their numbers.
///
/// Those that acknowledgments passed over stand in a map: they are few. Those behind them stand in
/// a queue, which a packet enters at its end and mostly leaves at its front. Contracts see one list
/// of entries, each a number with its place, in which the numbers rise.
#[derive(Drop)]
pub(crate) struct Unacknowledged {
    gaps: BTreeMap<u64, u64>,
    /// Above the numbers in the map, so that a higher one is not looked up there.
    end: u64,
    recent: VecDeque<(u64, u64)>,
}

impl Model for Unacknowledged {
    ghost use Rattle.std.specs.Prelude.{◌++◌};
    ghost use Rattle.qa_sent_packets.specs.Unacknowledged.{AreParted, Entries};

    ghost Value = { Entries };

    ghost view = { λ u. record { entries = u.gaps.entries ++ u.recent.items } };

    ghost invariant = { λ u. AreParted u.gaps.entries u.recent.items u.end };
}

impl Unacknowledged {
    /// None. Takes no memory.
    pub(crate) fn new(alloc: Global) -> Unacknowledged
        ensures { result.entries ≡ [] }
    {
        Unacknowledged {
            gaps: BTreeMap::new(alloc),
            end: 0,
            recent: VecDeque::new(alloc),
        }
    }

    /// Lets go of all.
    pub(crate) fn clear(&mut self)
        ensures empty { self.new.entries ≡ [] }
    {
        self.gaps.clear();
        self.end = 0;
        self.recent.clear();
    }

    /// Whether there are none.
    #[inline(always)]
    pub(crate) fn is_empty(&self) -> bool
        ensures { result ≡ (length self.now.entries == 0) }
    {
        self.recent.is_empty() && self.gaps.is_empty()
    }

    /// How many they are.
    pub(crate) fn len(&self) -> usize
        requires { length self.now.entries ≤ max_lines }
        ensures len { result ≡ length self.now.entries }
    {
        self.gaps.len() + self.recent.len()
    }

    /// At least as many as there are with this number or a lower one: all of the map, and of the
    /// queue as many as there are numbers.
    pub(crate) fn most_to(&self, number: u64) -> usize
        requires { length self.now.entries ≤ max_lines }
        ensures { count_to number self.now.entries ≤ result }
    {
        match self.recent.front() {
            None => self.gaps.len(),
            Some((first, _)) => {
                let behind = number
                    .saturating_sub(*first)
                    .min(self.recent.len() as u64 - 1);
                self.gaps.len() + behind as usize + 1
            }
        }
    }

    /// Puts an entry behind all others. `AllocError` comes where it is out of memory, and leaves
    /// them as they were.
    pub(crate) fn enter(&mut self, number: u64, place: u64) -> Result<(), AllocError>
        requires { AllByRecursion (λ e. e.0 < number) self.old.entries }
        ensures ok { OnOk result (self.new.entries ≡ self.old.entries ++ (number, place) ∷ []) }
        ensures err { OnErr result (self.new.entries ≡ self.old.entries) }
    {
        self.recent.push_back((number, place))?;
        Ok(())
    }

    /// The entries below the number leave the queue for the map, each once in its life.
    /// `AllocError` comes where it is out of memory.
    pub(crate) fn part(&mut self, number: u64) -> Result<(), AllocError>
        ensures entries { self.new.entries ≡ self.old.entries }
        ensures rise { EntriesRise self.new.entries }
    {
        self.end = self.end.max(number);
        part_queue(&mut self.gaps, &mut self.recent, number)
    }

    /// How many of the spans, which rise as they are taken, are passed before the first that may
    /// name an entry: those name none. It is one walk along the spans and the map, and costs no
    /// more than a few steps for each span.
    pub(crate) fn passed(&self, spans: &[Span], falling: bool) -> usize
        requires { AreApart (turned falling spans.now) }
        ensures within { result ≤ length spans.now }
        ensures none { AllByRecursion (NamesNone self.now.entries)
            (take result (turned falling spans.now)) }
    {
        passed_by(&self.gaps, &self.recent, spans, falling)
    }

    /// The first entry with this number or a higher one.
    #[inline(always)]
    pub(crate) fn first_from(&self, lo: u64) -> Option<(u64, u64)>
        ensures first { result ≡ first_from lo self.now.entries }
        ensures clear { IfSome result (λ e. AreClear lo e.0 self.now.entries) }
    {
        if let Some(found) = first_gap(&self.gaps, self.end, lo) {
            return Some(found);
        }
        first_recent(&self.recent, lo)
    }

    /// The entry with this number.
    pub(crate) fn entry_at(&self, number: u64) -> Option<(u64, u64)>
        ensures { result ≡ first_between number number self.now.entries }
    {
        match self.first_from(number) {
            None => None,
            Some(found) => { if found.0 == number { Some(found) } else { None } }
        }
    }

    /// Removes the entry of this number, where there is one.
    #[inline(always)]
    pub(crate) fn remove(&mut self, number: u64)
        ensures entries { self.new.entries
            ≡ remove_entry (is_at (nat_cmp number)) self.old.entries }
    {
        if is_first(&self.recent, number) {
            self.recent.pop_front();
            return;
        }
        self.remove_elsewhere(number);
    }

    /// Removes the entry of this number, where there is one, wherever it stands. It is a function
    /// of its own, since mostly the queue begins with the entry.
    #[inline(never)]
    fn remove_elsewhere(&mut self, number: u64)
        ensures entries { self.new.entries
            ≡ remove_entry (is_at (nat_cmp number)) self.old.entries }
    {
        match self.gaps.remove(&number) {
            Some(_) => {}
            None => remove_recent(&mut self.recent, number),
        }
    }
}

/// The entries of the queue below the number move behind those of the map.
fn part_queue(
    gaps: &mut BTreeMap<u64, u64>,
    recent: &mut VecDeque<(u64, u64)>,
    number: u64,
) -> Result<(), AllocError>
    requires { EntriesRise (gaps.old.entries ++ recent.old.items) }
    ensures entries { gaps.new.entries ++ recent.new.items ≡ gaps.old.entries ++ recent.old.items }
    ensures below { (end : ℕ) → number ≤ end → AllByRecursion (λ e. e.0 < end) gaps.old.entries
        → AllByRecursion (λ e. e.0 < end) gaps.new.entries }
{
    while is_first_below(recent, number) {
        move_first(gaps, recent, number)?;
    }
    Ok(())
}

/// Whether the queue begins with an entry below the number.
fn is_first_below(recent: &VecDeque<(u64, u64)>, number: u64) -> bool
    ensures { result ≡ true → BeginsBelow number recent.now.items }
{
    match recent.front() {
        None => false,
        Some((first, _)) => *first < number,
    }
}

/// The first entry of the queue, which is below the number, moves behind those of the map.
fn move_first(
    gaps: &mut BTreeMap<u64, u64>,
    recent: &mut VecDeque<(u64, u64)>,
    number: u64,
) -> Result<(), AllocError>
    requires begins { BeginsBelow number recent.old.items }
    requires rising { EntriesRise (gaps.old.entries ++ recent.old.items) }
    ensures entries { gaps.new.entries ++ recent.new.items ≡ gaps.old.entries ++ recent.old.items }
    ensures below { (end : ℕ) → number ≤ end → AllByRecursion (λ e. e.0 < end) gaps.old.entries
        → AllByRecursion (λ e. e.0 < end) gaps.new.entries }
    ensures fewer { OnOk result (length recent.new.items < length recent.old.items) }
{
    let (first, place) = recent[0];
    gaps.insert(first, place)?;
    recent.pop_front();
    Ok(())
}

/// How many of the spans, as they are taken, a walk along the entries of the map passes: they name
/// none. It ends at an entry that the next span may name, or where it came by more entries than
/// there are spans.
fn passed_by(
    gaps: &BTreeMap<u64, u64>,
    recent: &VecDeque<(u64, u64)>,
    spans: &[Span],
    falling: bool,
) -> usize
    requires rising { EntriesRise (gaps.now.entries ++ recent.now.items) }
    requires apart { AreApart (turned falling spans.now) }
    ensures within { result ≤ length spans.now }
    ensures none { AllByRecursion (NamesNone (gaps.now.entries ++ recent.now.items))
        (take result (turned falling spans.now)) }
{
    if spans.len() < 2 || gaps.is_empty() {
        return 0;
    }
    let lowest = NamedNumbers::nth(spans, falling, 0).lo().get();
    let mut passed = 0;
    let mut steps = 0;
    for (number, _) in gaps.range(lowest..) {
        passed = NamedNumbers::first_left(spans, falling, passed, *number);
        if steps == spans.len() || begins_by(spans, falling, passed, *number) {
            return passed;
        }
        steps += 1;
    }
    passed
}

/// Whether the span at this place begins at the number or below it, or there is none.
fn begins_by(spans: &[Span], falling: bool, at: usize, number: u64) -> bool
    ensures { result ≡ false → (at < length spans.now)
        × ((span : ℕ × ℕ) → span ≡ slice_index_or (turned falling spans.now) at span
        → number < span.0) }
{
    spans.len() <= at || NamedNumbers::nth(spans, falling, at).lo().get() <= number
}

/// The first entry of the map with this number or a higher one. All of them are below the end.
#[inline(always)]
fn first_gap(gaps: &BTreeMap<u64, u64>, end: u64, lo: u64) -> Option<(u64, u64)>
    requires { AllByRecursion (λ e. e.0 < end) gaps.now.entries }
    ensures { result ≡ first_from lo gaps.now.entries }
{
    if end <= lo || gaps.is_empty() {
        return None;
    }
    first_in_map(gaps, lo)
}

/// The same, by a search in the map, which few spans ask for.
#[inline(never)]
fn first_in_map(gaps: &BTreeMap<u64, u64>, lo: u64) -> Option<(u64, u64)>
    ensures { result ≡ first_from lo gaps.now.entries }
{
    match gaps.range(lo..).next() {
        None => None,
        Some((number, place)) => Some((*number, *place)),
    }
}

/// The first entry of the queue with this number or a higher one. The queue begins no lower than
/// the highest span of an acknowledgment, so that mostly it is the first of all.
fn first_recent(recent: &VecDeque<(u64, u64)>, lo: u64) -> Option<(u64, u64)>
    ensures { result ≡ first_from lo recent.now.items }
{
    let mut i = 0;
    while i < recent.len() {
        let (number, place) = recent[i];
        if lo <= number {
            return Some((number, place));
        }
        i += 1;
    }
    None
}

/// Whether the queue begins with the entry of this number.
fn is_first(recent: &VecDeque<(u64, u64)>, number: u64) -> bool
    ensures { result ≡ true → BeginsWith number recent.now.items }
{
    match recent.front() {
        None => false,
        Some((first, _)) => *first == number,
    }
}

/// Where the entry of this number stands in the queue.
fn index_of(recent: &VecDeque<(u64, u64)>, number: u64) -> Option<usize>
    ensures { MatchOption result
        (recent.now.items ≡ remove_entry (is_at (nat_cmp number)) recent.now.items)
        (λ i. (i < length recent.now.items)
        × (remove recent.now.items i ≡ remove_entry (is_at (nat_cmp number)) recent.now.items)) }
{
    let mut i = 0;
    while i < recent.len() {
        if recent[i].0 == number {
            return Some(i);
        }
        i += 1;
    }
    None
}

/// Removes the entry of this number from the queue, where there is one.
fn remove_recent(recent: &mut VecDeque<(u64, u64)>, number: u64)
    ensures { recent.new.items ≡ remove_entry (is_at (nat_cmp number)) recent.old.items }
{
    if let Some(i) = index_of(recent, number) {
        recent.remove(i);
    }
}
