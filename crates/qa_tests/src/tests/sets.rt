//! Sets of packet numbers, kept as runs.
use crate::tests::events::span;
use qa_base::PacketNumber;
use qa_packet_numbers::Ranges;
use std::alloc::Global;

/// Adds the numbers from `lo` to `hi`.
fn add(set: &mut Ranges, lo: u64, hi: u64) -> Option<()> {
    set.insert_range(span(lo, hi)?).ok()
}

/// How many runs the set has, and its greatest number.
fn extent(set: &Ranges) -> (u64, Option<u64>) {
    (set.runs(), set.greatest().map(PacketNumber::get))
}

/// Whether the set has all numbers from 0 to `hi`; None where that is no range.
fn covers(set: &Ranges, hi: u64) -> Option<bool> {
    Some(set.covers(span(0, hi)?))
}

/// Whether a new set has no run, and no greatest number.
fn is_empty(alloc: Global) -> bool {
    extent(&Ranges::new(alloc)) == (0, None)
}

#[test]
fn an_empty_set_has_no_run(rt: HostRuntime) {
    assert!(rt; is_empty(rt.alloc()));
}

/// Adds the numbers from 0 to 3, and 5.
fn add_apart(set: &mut Ranges) -> Option<()> {
    add(set, 0, 3)?;
    add(set, 5, 5)
}

/// Adds two runs, and then what lies between them: the runs before and after, and whether the set
/// has all numbers to 5 before, and to 5 and to 6 after.
fn join(set: &mut Ranges) -> Option<([(u64, Option<u64>); 2], [Option<bool>; 3])> {
    add_apart(set)?;
    let (apart, is_apart) = (extent(set), covers(set, 5));
    add(set, 4, 4)?;
    let joined = [is_apart, covers(set, 5), covers(set, 6)];
    Some(([apart, extent(set)], joined))
}

/// The same of a new set.
fn joined(alloc: Global) -> Option<([(u64, Option<u64>); 2], [Option<bool>; 3])> {
    join(&mut Ranges::new(alloc))
}

/// Whether two runs are one then, up to 5.
fn is_joined(alloc: Global) -> bool {
    let extents = [(2, Some(5)), (1, Some(5))];
    let has_all = [Some(false), Some(true), Some(false)];
    joined(alloc) == Some((extents, has_all))
}

/// Runs that touch are one.
#[test]
fn runs_are_joined(rt: HostRuntime) {
    assert!(rt; is_joined(rt.alloc()));
}

/// Adds two runs, and a span over a part of the first and all behind.
fn run_over(set: &mut Ranges) -> Option<(u64, Option<u64>)> {
    add_apart(set)?;
    add(set, 2, PacketNumber::MAX)?;
    Some(extent(set))
}

/// The same of a new set.
fn ran_over(alloc: Global) -> Option<(u64, Option<u64>)> {
    run_over(&mut Ranges::new(alloc))
}

/// Whether one run is left then, up to the greatest number there is.
fn is_run_over(alloc: Global) -> bool {
    ran_over(alloc) == Some((1, Some(4_611_686_018_427_387_903)))
}

/// Runs that a span runs over are one.
#[test]
fn a_span_runs_over_runs(rt: HostRuntime) {
    assert!(rt; is_run_over(rt.alloc()));
}
