//! What the header of an accepted trace allowed, item by item.
use qa_base::{Key, Rule};
use qa_check::Metered;
use qa_sender::Running;
use qa_violations::{Allowance, header_allowed};
use std::alloc::Global;

/// The second packet takes the bytes in flight 100 past the window.
const OVERSHOOT: &str =
    "{\"event\":\"header\",\"version\":3,\"role\":\"server\",\"max_datagram_size\":1200,\"initial_window\":2400,\"window_overshoot\":true}\n{\"event\":\"sent\",\"time\":0,\"space\":\"app\",\"number\":0,\"size\":1200,\"eliciting\":true,\"in_flight\":true}\n{\"event\":\"sent\",\"time\":1,\"space\":\"app\",\"number\":1,\"size\":1300,\"eliciting\":true,\"in_flight\":true}\n";

/// The same, and a packet that is sent where the window is full, which is refused.
const REFUSED: &str =
    "{\"event\":\"header\",\"version\":3,\"role\":\"server\",\"max_datagram_size\":1200,\"initial_window\":2400,\"window_overshoot\":true}\n{\"event\":\"sent\",\"time\":0,\"space\":\"app\",\"number\":0,\"size\":1200,\"eliciting\":true,\"in_flight\":true}\n{\"event\":\"sent\",\"time\":1,\"space\":\"app\",\"number\":1,\"size\":1300,\"eliciting\":true,\"in_flight\":true}\n{\"event\":\"sent\",\"time\":2,\"space\":\"app\",\"number\":2,\"size\":1200,\"eliciting\":true,\"in_flight\":true}\n";

/// The rule, how many events, the first and the last of their lines, and the greatest amount.
type Sum = (Rule, u64, u64, u64, Option<u128>);

/// What is told of an item: that, and the key that allows it, with its limit.
fn told(item: &Allowance) -> (Sum, Option<Key>, Option<u128>) {
    let row = &item.row;
    let sum = (row.rule, row.count, row.first, row.last, row.greatest);
    (sum, item.key, item.limit)
}

/// The same of the only item.
fn only(items: &[Allowance]) -> Option<(Sum, Option<Key>, Option<u128>)> {
    match items {
        [item] => Some(told(item)),
        _ => None,
    }
}

/// What the header of a trace allowed.
fn allowed(alloc: Global, trace: &str) -> Option<Vec<Allowance>> {
    let mut reader = Metered::new(trace.as_bytes());
    header_allowed::<Running, _>(alloc, &mut reader)
}

/// Whether the one item is that of the packet that goes 100 bytes past the window.
fn is_past_the_window(items: &[Allowance]) -> bool {
    let sum = (Rule::PastWindow, 1, 3, 3, Some(100));
    only(items) == Some((sum, Some(Key::WindowOvershoot), None))
}

/// Whether an accepted trace has that item.
fn has_an_item(alloc: Global) -> bool {
    match allowed(alloc, OVERSHOOT) {
        Some(items) => is_past_the_window(items.as_slice()),
        None => false,
    }
}

/// An accepted trace has an item for the rule past which it went.
#[test]
fn a_packet_past_the_window_is_an_item(rt: HostRuntime) {
    assert!(rt; has_an_item(rt.alloc()));
}

/// Whether a refused trace has no item.
fn has_no_item(alloc: Global) -> bool {
    match allowed(alloc, REFUSED) {
        Some(items) => items.is_empty(),
        None => false,
    }
}

/// A refused one has none.
#[test]
fn a_refused_trace_has_no_item(rt: HostRuntime) {
    assert!(rt; has_no_item(rt.alloc()));
}
