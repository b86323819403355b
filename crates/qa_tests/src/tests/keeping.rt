//! How much the ledger that passes once over events keeps, worked out by hand, over histories too
//! that are too long for a trace.
ghost use Rattle.std.specs.Prelude.{◌<◌};

use crate::tests::events::{ack, lost};
use qa_base::limits::MAX_LINES;
use qa_base::{Event, Header, PacketNumber, Permission, Role, SentPacket, Space, Ticks};
use qa_ledger::Ledger;
use qa_sender::Running;
use std::alloc::Global;
use std::marker::Model;

/// Packets that are sent and acknowledged one by one.
const ACKNOWLEDGED: u64 = 10_000;

/// Round trips in each of which three packets are lost, and one is acknowledged.
const LOSSY: u64 = 500;

/// Packets that are never acknowledged.
const UNACKNOWLEDGED: u64 = 500_000;

/// A ledger, and how many events it was asked to admit.
#[derive(Drop)]
struct History {
    ledger: Running,
    asked: u64,
    /// Whether each event was there, fitted and was admitted.
    is_whole: bool,
}

impl Model for History {
    ghost use Rattle.std.specs.Prelude.{ℕ, ◌≤◌};

    ghost Value = { ℕ };

    ghost view = { λ h. h.asked };

    ghost invariant = { λ h. h.ledger.connection.events ≤ h.asked };
}

impl History {
    /// No events, under this header.
    fn new(alloc: Global, header: Header) -> History {
        History {
            ledger: Running::start(alloc, header),
            asked: 0,
            is_whole: true,
        }
    }

    /// Has the ledger admit an event, and tells whether it did.
    fn admits(&mut self, event: &Event) -> bool {
        if MAX_LINES <= self.asked || !event.fits() {
            return false;
        }
        self.asked += 1;
        self.ledger.admit(event).is_ok()
    }

    /// Has the ledger admit an event.
    fn take(&mut self, event: Option<Event>) {
        let is_admitted = match &event {
            None => false,
            Some(event) => self.admits(event),
        };
        self.is_whole = self.is_whole && is_admitted;
    }

    /// How much the ledger keeps; None where it did not admit each event.
    fn kept(&self) -> Option<u128> {
        if self.is_whole {
            return Some(self.ledger.kept());
        }
        None
    }
}

/// A packet by leave of the window, if it is in flight.
fn sized(size: u64, time: u64, number: u64, eliciting: bool, in_flight: bool) -> Option<Event> {
    Some(Event::Sent(SentPacket {
        time: Ticks::new(time)?,
        space: Space::App,
        number: PacketNumber::new(number)?,
        size,
        eliciting,
        in_flight,
        permission: Permission::Window,
    }))
}

/// The same of 1,200 bytes.
fn packet(time: u64, number: u64, eliciting: bool, in_flight: bool) -> Option<Event> {
    sized(1200, time, number, eliciting, in_flight)
}

/// An ack-eliciting packet.
fn sent(time: u64, number: u64) -> Option<Event> {
    packet(time, number, true, true)
}

/// An ack-eliciting packet of which four fit into the least window.
fn small(time: u64, number: u64) -> Option<Event> {
    sized(600, time, number, true, true)
}

/// Has the ledger admit an event, and returns how much it keeps then.
fn kept_after(history: &mut History, event: Option<Event>) -> Option<u128> {
    history.take(event);
    history.kept()
}

/// How much a ledger keeps after each of four events: two packets, and then their acknowledgments.
fn kept_after_each(history: &mut History, alloc: Global) -> [Option<u128>; 4] {
    [
        kept_after(history, sent(0, 0)),
        kept_after(history, sent(0, 1)),
        kept_after(history, ack(alloc, 100_000, 0)),
        kept_after(history, ack(alloc, 100_000, 1)),
    ]
}

/// Of ten packets the fourth is acknowledged, and the first declared lost.
fn kept_after_a_loss(history: &mut History, alloc: Global) -> Option<u128> {
    for n in 0..10 {
        history.take(sent(0, n));
    }
    history.take(ack(alloc, 100_000, 3));
    kept_after(history, lost(alloc, 100_000, 0, 0))
}

/// Of packets sent after the first sample, the last is acknowledged, and those before it are lost.
fn kept_after_all_is_lost(history: &mut History, alloc: Global) -> Option<u128> {
    history.take(sent(0, 0));
    history.take(ack(alloc, 100_000, 0));
    history.take(sent(200_000, 1));
    history.take(sent(1_175_001, 2));
    history.take(packet(1_175_002, 5, false, true));
    history.take(ack(alloc, 1_275_002, 5));
    kept_after(history, lost(alloc, 1_275_002, 1, 2))
}

/// Packets from this number on, each of which is acknowledged by itself before the next is sent.
fn acknowledge_each(history: &mut History, alloc: Global, first: u64) {
    for n in first..ACKNOWLEDGED {
        history.take(sent(2 * n, n));
        history.take(ack(alloc, 2 * n + 1, n));
    }
}

/// Packets each of which is acknowledged by itself.
fn kept_after_acknowledgments(history: &mut History, alloc: Global) -> Option<u128> {
    acknowledge_each(history, alloc, 0);
    history.kept()
}

/// Packets at one time that are not in flight, so that nothing limits them, and none of which is
/// acknowledged.
fn kept_after_packets(history: &mut History) -> Option<u128> {
    for n in 0..UNACKNOWLEDGED {
        history.take(packet(0, n, false, false));
    }
    history.kept()
}

/// After a packet that is not in flight, others are sent and acknowledged one by one, and it is
/// acknowledged at the end. How much a ledger keeps before that and after it.
fn kept_after_a_stray(history: &mut History, alloc: Global) -> [Option<u128>; 2] {
    history.take(packet(0, 0, false, false));
    acknowledge_each(history, alloc, 1);
    [
        history.kept(),
        kept_after(history, ack(alloc, 2 * ACKNOWLEDGED, 0)),
    ]
}

/// Three packets are sent, and 20 ms later a fourth, whose acknowledgment comes after 100 ms. That
/// is the round-trip time, and 9/8 of it have passed since the three were sent: they are lost.
fn take_lossy_round(history: &mut History, alloc: Global, round: u64)
    requires { round < 500 }
{
    let time = 200_000 * round;
    let first = 4 * round + 1;
    history.take(small(time, first));
    history.take(small(time, first + 1));
    history.take(small(time, first + 2));
    history.take(small(time + 20_000, first + 3));
    history.take(ack(alloc, time + 120_000, first + 3));
    history.take(lost(alloc, time + 120_000, first, first + 2));
}

/// How much a ledger keeps when most of the packets after one that is not in flight were lost.
fn kept_after_lossy_rounds(history: &mut History, alloc: Global) -> Option<u128> {
    history.take(packet(0, 0, false, false));
    for round in 0..LOSSY {
        take_lossy_round(history, alloc, round);
    }
    history.kept()
}

/// Events from the beginning of a history on.
#[derive(Clone, Copy)]
enum Course {
    InTurn,
    OneLost,
    AllLost,
    AllAcknowledged,
    NoneAcknowledged,
    OneStray,
    MostLost,
}

/// Whether a ledger keeps as much after these events as was worked out.
fn keeps_as_much(history: &mut History, alloc: Global, course: Course) -> bool {
    match course {
        // A packet, its entry, and one run of numbers; the numbers that were sent stay.
        Course::InTurn => {
            kept_after_each(history, alloc) == [Some(3), Some(5), Some(3), Some(1)]
        }
        Course::OneLost => kept_after_a_loss(history, alloc) == Some(18),
        Course::AllLost => kept_after_all_is_lost(history, alloc) == Some(2),
        Course::AllAcknowledged => kept_after_acknowledgments(history, alloc) == Some(1),
        Course::NoneAcknowledged => kept_after_packets(history) == Some(1_000_001),
        Course::OneStray => kept_after_a_stray(history, alloc) == [Some(2), Some(1)],
        Course::MostLost => kept_after_lossy_rounds(history, alloc) == Some(2),
    }
}

/// The same of a new history. Only this function holds one, since it takes long to prove that it is
/// dropped.
fn keeps_under(alloc: Global, header: Header, course: Course) -> bool {
    let mut history = History::new(alloc, header);
    keeps_as_much(&mut history, alloc, course)
}

/// The same of a server's history.
fn keeps(alloc: Global, course: Course) -> bool {
    match Header::new(Role::Server, 1200, None, None, None) {
        Ok(header) => keeps_under(alloc, header, course),
        Err(_) => false,
    }
}

/// Two packets are sent, and then acknowledged in turn.
#[test]
fn what_is_acknowledged_is_not_kept(rt: HostRuntime) {
    assert!(rt; keeps(rt.alloc(), Course::InTurn));
}

/// What is settled is not kept, however long the history, and what is open is.
#[test]
fn what_is_open_is_kept(rt: HostRuntime) {
    assert!(rt; keeps(rt.alloc(), Course::OneLost));
    assert!(rt; keeps(rt.alloc(), Course::AllLost));
    assert!(rt; keeps(rt.alloc(), Course::AllAcknowledged));
    assert!(rt; keeps(rt.alloc(), Course::NoneAcknowledged));
}

/// A packet that nothing but an acknowledgment asks for keeps itself, and not those after it.
#[test]
fn what_is_set_aside_keeps_no_others(rt: HostRuntime) {
    assert!(rt; keeps(rt.alloc(), Course::OneStray));
}

/// Packets that were declared lost are not kept either behind one that is set aside.
#[test]
fn what_is_set_aside_keeps_no_lost_ones(rt: HostRuntime) {
    assert!(rt; keeps(rt.alloc(), Course::MostLost));
}
