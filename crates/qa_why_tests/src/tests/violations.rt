//! What a judge that goes on past sender rules keeps of an event, and the table of what events
//! violated, worked out by hand from RFC 9002.
ghost use Rattle.std.specs.Prelude.{◌<◌, ◌≤◌, ◌+◌};
ghost use Rattle.qa_base.specs.values.Limits.{max_lines};

use qa_base::{
    Event, Header, PacketNumber, Permission, Role, Rule, SentPacket, Space, Ticks, TimeUnit,
};
use qa_check::Judge;
use qa_explain::text::is_in_bytes;
use qa_ledger::{Cause, Ledger, LedgerFault};
use qa_sender::Running;
use qa_violations::{Finding, Table, Tolerating, amount};
use std::alloc::Global;

/// An ack-eliciting probe of 1,200 bytes at time 0, which breaks V8 where no probe timeout came
/// before.
fn probe(number: u64) -> Option<Event> {
    Some(Event::Sent(SentPacket {
        time: Ticks::of(0),
        space: Space::Initial,
        number: PacketNumber::new(number)?,
        size: 1200,
        eliciting: true,
        in_flight: true,
        permission: Permission::Probe,
    }))
}

/// Has the judge judge an event; None where there is none, or it does not fit.
fn judged(judge: &mut Tolerating<Running>, event: Option<Event>) -> Option<Result<(), LedgerFault>>
    requires few { judge.old.ledger.connection.events < max_lines }
    ensures { judge.new.ledger.connection.events ≤ judge.old.ledger.connection.events + 1 }
{
    let event = event?;
    if !event.fits() {
        return None;
    }
    Some(judge.judge(&event))
}

/// The rules that the last event broke.
fn first_latest(judge: &Tolerating<Running>) -> Option<Rule> {
    Some(judge.latest().first()?.rule)
}

/// What two probes may take since a probe timeout, and what was taken, where this is why an event
/// breaks V8.
fn allowance(cause: &Cause) -> Option<(u64, Option<u128>)> {
    match cause {
        Cause::PastProbe { allowance, spent } => Some((*allowance, *spent)),
        _ => None,
    }
}

/// Of the first of the last event's violations.
fn latest_allowance(judge: &Tolerating<Running>) -> Option<(u64, Option<u128>)> {
    allowance(&judge.latest().first()?.cause)
}

/// Of an event that was not admitted.
fn next_allowance(
    judge: &Tolerating<Running>,
    event: Option<Event>,
) -> Option<(u64, Option<u128>)> {
    allowance(&judge.cause(&event?, Rule::PastProbe).ok()?)
}

/// When the timer is due, in microseconds.
fn due(judge: &Tolerating<Running>) -> Option<u128> {
    Some(judge.deadline()?.time)
}

/// Whether a loss is owed in any space.
fn owes_a_space(judge: &Tolerating<Running>) -> Option<bool> {
    Some(judge.owed().ok()?.space.is_some())
}

/// The rule that the last event broke, and the allowance that it went past.
type Latest = (Option<Rule>, Option<(u64, Option<u128>)>);

/// What a judge keeps of the last event.
fn latest(judge: &Tolerating<Running>) -> Latest {
    (first_latest(judge), latest_allowance(judge))
}

/// Has the judge judge a probe, and returns what it answers, and what it keeps then.
fn judged_probe(judge: &mut Tolerating<Running>) -> (Option<Result<(), LedgerFault>>, Latest)
    requires few { judge.old.ledger.connection.events < max_lines }
    ensures { judge.new.ledger.connection.events ≤ judge.old.ledger.connection.events + 1 }
{
    let answer = judged(judge, probe(0));
    (answer, latest(judge))
}

/// What a judge keeps before any event, and what it answers to a probe and to another of the same
/// number.
fn judged_twice(
    judge: &mut Tolerating<Running>,
) -> (Latest, [(Option<Result<(), LedgerFault>>, Latest); 2])
    requires few { judge.old.ledger.connection.events + 1 < max_lines }
{
    let before = latest(judge);
    (before, [judged_probe(judge), judged_probe(judge)])
}

/// Whether two datagrams are allowed, of which none was taken, where no probe is admitted yet.
fn allows_two_datagrams(judge: &Tolerating<Running>) -> bool {
    next_allowance(judge, probe(0)) == Some((2400, None))
}

/// Whether the first is admitted and the second refused, and both leave the facts of the first.
fn keeps_the_facts(judge: &mut Tolerating<Running>) -> bool
    requires few { judge.old.ledger.connection.events + 1 < max_lines }
{
    let kept = (Some(Rule::PastProbe), Some((2400, None)));
    let refused = Err(LedgerFault::Broken(Rule::NumberNotHigher));
    let answers = [(Some(Ok(())), kept), (Some(refused), kept)];
    judged_twice(judge) == ((None, None), answers)
}

/// The bytes in flight by the judge's ledger and by its state.
fn bytes_in_flight(judge: &Tolerating<Running>) -> (u64, u64) {
    (
        judge.ledger().totals().bytes_in_flight,
        judge.state().bytes_in_flight,
    )
}

/// Whether the judge owes a loss, whether in a space, and whether its times are in microseconds.
fn conduct(judge: &Tolerating<Running>) -> (bool, Option<bool>, bool) {
    let is_in_microseconds = matches!(judge.unit(), TimeUnit::Microseconds);
    (judge.is_owing(), owes_a_space(judge), is_in_microseconds)
}

/// What a judge answers after a probe: the bytes in flight, its conduct, and when the timer is due.
fn answers_after_a_probe(
    judge: &mut Tolerating<Running>,
) -> ((u64, u64), (bool, Option<bool>, bool), Option<u128>)
    requires few { judge.old.ledger.connection.events < max_lines }
{
    judged(judge, probe(0));
    (bytes_in_flight(judge), conduct(judge), due(judge))
}

/// Whether the packet is in flight, nothing is owed, and the timer is due so.
fn answers_by_its_ledger(judge: &mut Tolerating<Running>) -> bool
    requires few { judge.old.ledger.connection.events < max_lines }
{
    let conduct = (false, Some(false), true);
    answers_after_a_probe(judge) == ((1200, 1200), conduct, Some(999_000))
}

/// What a new judge is asked.
#[derive(Clone, Copy)]
enum Question {
    Allowance,
    Facts,
    State,
}

/// Whether a new judge answers as was worked out.
fn answers(judge: &mut Tolerating<Running>, question: Question) -> bool
    requires few { judge.old.ledger.connection.events + 1 < max_lines }
{
    match question {
        Question::Allowance => allows_two_datagrams(judge),
        Question::Facts => keeps_the_facts(judge),
        Question::State => answers_by_its_ledger(judge),
    }
}

/// The same of a judge under this header. Only this function holds one, since it takes long to
/// prove that it is dropped.
fn answers_under(alloc: Global, header: Header, question: Question) -> bool {
    let mut judge = Tolerating::<Running>::under(alloc, header);
    answers(&mut judge, question)
}

/// The same under a server's header.
fn is_answered(alloc: Global, question: Question) -> bool {
    match Header::new(Role::Server, 1200, None, None, None) {
        Ok(header) => answers_under(alloc, header, question),
        Err(_) => false,
    }
}

/// Why a probe that is not admitted yet would violate its rule is told.
#[test]
fn a_violation_is_told_before_it_is_admitted(rt: HostRuntime) {
    assert!(rt; is_answered(rt.alloc(), Question::Allowance));
}

/// A probe before any probe timeout is admitted, with the facts before it; a second packet of the
/// same number is refused, and what the last admitted event broke stays.
#[test]
fn a_violation_is_kept_with_its_facts(rt: HostRuntime) {
    assert!(rt; is_answered(rt.alloc(), Question::Facts));
}

/// What is asked of a judge is answered by its ledger: after one packet nothing is owed, and its
/// probe timeout is due at 999 ms, which is 333 ms and four times 166.5 ms (RFC 9002, section
/// 6.2.1).
#[test]
fn a_judge_answers_by_its_ledger(rt: HostRuntime) {
    assert!(rt; is_answered(rt.alloc(), Question::State));
}

/// By how much a probe violates its rule for this cause.
fn probe_amount(cause: &Cause) -> Option<u128> {
    amount(&probe(0)?, Rule::PastProbe, cause)
}

/// By how much one does where 2,400 bytes are allowed and 1,500 were taken.
fn amount_past_probes() -> Option<u128> {
    probe_amount(&Cause::PastProbe {
        allowance: 2400,
        spent: Some(1500),
    })
}

/// A probe of 1,200 bytes where 2,400 are allowed and 1,500 were taken is 300 bytes past them.
#[test]
fn a_probe_violates_by_bytes(rt: HostRuntime) {
    assert!(rt; amount_past_probes() == Some(300));
    assert!(rt; is_in_bytes(Rule::PastProbe));
}

/// A table of two packets past the window, by 1,068 bytes at most, and a timer 200 microseconds
/// early.
fn table() -> Table {
    let mut table = Table::new();
    table.note(&Finding {
        line: 34,
        rule: Rule::PastWindow,
        amount: Some(1068),
    });
    table.note(&Finding {
        line: 50,
        rule: Rule::TimerEarly,
        amount: Some(200),
    });
    table.note(&Finding {
        line: 61,
        rule: Rule::PastWindow,
        amount: Some(132),
    });
    table
}

/// Whether the table has the kinds that were noted, and a new one has none.
fn has_what_was_noted() -> bool {
    let table = table();
    Table::new().is_empty() && table.has(Rule::TimerEarly) && !table.has(Rule::ProbeOwed)
}

/// The table has the kinds that were noted, and no others.
#[test]
fn the_table_has_what_was_noted(rt: HostRuntime) {
    assert!(rt; has_what_was_noted());
}

/// The table of seventy events.
const TABLE: &str =
    ": departs 3 times in 70 events\n  V7 past-window: 2 times, lines 34 to 61, by at most 1068 bytes\n  V13 timer-early: once, line 50, by 200 us\n";

/// Whether that is the text of the table.
fn is_told(alloc: Global) -> bool {
    match table().text(alloc, TimeUnit::Microseconds, 70) {
        Ok(text) => text.as_str() == TABLE,
        Err(_) => false,
    }
}

/// The table has a row for each kind.
#[test]
fn the_table_has_a_row_for_each_kind(rt: HostRuntime) {
    assert!(rt; is_told(rt.alloc()));
}
