//! Events that are judged one by one, worked out by hand from RFC 9002.
ghost use Rattle.std.specs.Prelude.{◌<◌, ◌≤◌, ◌+◌};
ghost use Rattle.qa_base.specs.values.Limits.{max_lines};

use crate::tests::events::{ack as ack_at, lost};
use qa_base::{Event, Header, PacketNumber, Permission, Role, Rule, SentPacket, Space, Ticks};
use qa_ledger::{Cause, Explains, Ledger, LedgerFault, Owed, Tolerates};
use qa_sender::Running;
use std::alloc::Global;

/// An ack-eliciting packet of 1,200 bytes at time 0.
fn packet(number: u64, permission: Permission) -> Option<Event> {
    Some(Event::Sent(SentPacket {
        time: Ticks::of(0),
        space: Space::App,
        number: PacketNumber::new(number)?,
        size: 1200,
        eliciting: true,
        in_flight: true,
        permission,
    }))
}

/// A packet by leave of the window.
fn sent(number: u64) -> Option<Event> {
    packet(number, Permission::Window)
}

/// A probe.
fn probe(number: u64) -> Option<Event> {
    packet(number, Permission::Probe)
}

/// An acknowledgment of one packet after 100 ms.
fn ack(alloc: Global, number: u64) -> Option<Event> {
    ack_at(alloc, 100_000, number)
}

/// Hands an event to the ledger; None where there is none, or it does not fit.
fn judged(ledger: &mut Running, event: Option<Event>) -> Option<Result<(), LedgerFault>>
    requires few { ledger.old.connection.events < max_lines }
    ensures { ledger.new.connection.events ≤ ledger.old.connection.events + 1 }
{
    let event = event?;
    if !event.fits() {
        return None;
    }
    Some(ledger.admit(&event))
}

/// A loss and what comes of it: this is an example of docs/library.md. Whether anything is owed,
/// and what the ledger answers to the next event.
fn lose_a_packet(ledger: &mut Running, alloc: Global) -> (bool, Option<Result<(), LedgerFault>>)
    requires few { ledger.old.connection.events + 3 < max_lines }
{
    judged(ledger, sent(0));
    judged(ledger, sent(3));
    // Packet 0 is three numbers below one that is acknowledged, so it is lost.
    judged(ledger, ack(alloc, 3));
    let owes = ledger.owes();
    // Until it is declared, nothing else may happen: this is V2, loss-owed.
    (owes, judged(ledger, ack(alloc, 0)))
}

/// Whether a packet is owed, and nothing else may happen.
fn owes_a_packet(ledger: &mut Running, alloc: Global) -> bool
    requires few { ledger.old.connection.events + 3 < max_lines }
{
    let refused = Err(LedgerFault::Broken(Rule::LossOwed));
    lose_a_packet(ledger, alloc) == (true, Some(refused))
}

/// Whether packet 0 is owed in the application space, and packet 3 is not.
fn is_owed(owed: &Owed, first: PacketNumber, last: PacketNumber) -> bool {
    owed.space == Some(Space::App) && owed.numbers.contains(first) && !owed.numbers.contains(last)
}

/// Whether it is told that packet 0 is owed, that a Lost line does not name it, that the line names
/// packet 3, which is not owed, and of nothing free.
fn is_told(cause: &Cause, first: PacketNumber, last: PacketNumber) -> bool {
    match cause {
        Cause::LossSet {
            owed,
            free: None,
            unnamed,
            unowed,
            ..
        } => is_owed(owed, first, last) && unnamed.contains(first) && unowed.contains(last),
        _ => false,
    }
}

/// Sends packets 0 and 3, and acknowledges the latter.
fn lose(ledger: &mut Running, alloc: Global)
    requires few { ledger.old.connection.events + 2 < max_lines }
{
    judged(ledger, sent(0));
    judged(ledger, sent(3));
    judged(ledger, ack(alloc, 3));
}

/// Whether the ledger tells so of a Lost line that breaks V4, loss-set.
fn tells(ledger: &Running, event: &Event, first: PacketNumber, last: PacketNumber) -> bool {
    match ledger.cause(event, Rule::LossSet) {
        Ok(cause) => is_told(&cause, first, last),
        Err(_) => false,
    }
}

/// Whether a new ledger tells so of a Lost line of packet 3, where packet 0 is owed.
fn tells_of_a_loss(ledger: &mut Running, alloc: Global) -> Option<bool>
    requires few { ledger.old.connection.events + 2 < max_lines }
{
    let (first, last) = (PacketNumber::new(0)?, PacketNumber::new(3)?);
    lose(ledger, alloc);
    let event = lost(alloc, 100_000, 3, 3)?;
    Some(tells(ledger, &event, first, last))
}

/// Has the ledger bear an event; None where there is none, or it does not fit.
fn tolerated(ledger: &mut Running, event: Option<Event>) -> Option<Result<(), LedgerFault>>
    requires few { ledger.old.connection.events < max_lines }
    ensures { ledger.new.connection.events ≤ ledger.old.connection.events + 1 }
{
    let event = event?;
    if !event.fits() {
        return None;
    }
    Some(ledger.tolerate(&event))
}

/// The first of these rules.
fn first_of(rules: &[Rule]) -> Option<Rule> {
    rules.first().copied()
}

/// The first rule that an event breaks.
fn first_violation(ledger: &Running, alloc: Global, event: &Event) -> Option<Rule> {
    match ledger.violations(alloc, event) {
        Ok(found) => first_of(found.as_slice()),
        Err(_) => None,
    }
}

/// The first rule that a probe breaks.
fn first_violation_of_a_probe(ledger: &Running, alloc: Global) -> Option<Rule> {
    match &probe(0) {
        Some(event) => first_violation(ledger, alloc, event),
        None => None,
    }
}

/// What a ledger answers to a probe and to another of the same number, and the bytes in flight
/// then.
fn tolerated_twice(ledger: &mut Running) -> ([Option<Result<(), LedgerFault>>; 2], u64)
    requires few { ledger.old.connection.events + 1 < max_lines }
{
    let answers = [tolerated(ledger, probe(0)), tolerated(ledger, probe(0))];
    (answers, ledger.totals().bytes_in_flight)
}

/// Whether the first is borne, and the second is not and changes nothing.
fn tolerates_the_first(ledger: &mut Running) -> bool
    requires few { ledger.old.connection.events + 1 < max_lines }
{
    let refused = Err(LedgerFault::Broken(Rule::NumberNotHigher));
    tolerated_twice(ledger) == ([Some(Ok(())), Some(refused)], 1200)
}

/// What a new ledger is asked.
#[derive(Clone, Copy)]
enum Question {
    Loss,
    Cause,
    Violation,
    Toleration,
}

/// Whether a new ledger answers as was worked out.
fn answers(ledger: &mut Running, alloc: Global, question: Question) -> bool
    requires few { ledger.old.connection.events + 3 < max_lines }
{
    match question {
        Question::Loss => owes_a_packet(ledger, alloc),
        Question::Cause => tells_of_a_loss(ledger, alloc) == Some(true),
        // V8, past-probe.
        Question::Violation => first_violation_of_a_probe(ledger, alloc) == Some(Rule::PastProbe),
        Question::Toleration => tolerates_the_first(ledger),
    }
}

/// The same of a ledger under this header. Only this function holds one, since it takes long to
/// prove that it is dropped.
fn answers_under(alloc: Global, header: Header, question: Question) -> bool {
    let mut ledger = Running::start(alloc, header);
    answers(&mut ledger, alloc, question)
}

/// The same under a server's header.
fn is_answered(alloc: Global, question: Question) -> bool {
    match Header::new(Role::Server, 1200, None, None, None) {
        Ok(header) => answers_under(alloc, header, question),
        Err(_) => false,
    }
}

/// What is lost has to be declared before anything else happens.
#[test]
fn a_loss(rt: HostRuntime) {
    assert!(rt; is_answered(rt.alloc(), Question::Loss));
}

/// A Lost line that names another packet than the one that is owed: the ledger says which is not
/// named, and which is not owed.
#[test]
fn a_cause(rt: HostRuntime) {
    assert!(rt; is_answered(rt.alloc(), Question::Cause));
}

/// A probe before any probe timeout breaks a rule.
#[test]
fn a_probe_without_a_timeout_violates(rt: HostRuntime) {
    assert!(rt; is_answered(rt.alloc(), Question::Violation));
}

/// The ledger goes on with a probe before any probe timeout; a second packet of the same number it
/// does not bear.
#[test]
fn a_probe_without_a_timeout_is_tolerated(rt: HostRuntime) {
    assert!(rt; is_answered(rt.alloc(), Question::Toleration));
}
