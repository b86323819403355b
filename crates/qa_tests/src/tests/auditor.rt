//! An audit of bytes that are handed in, piece by piece.
use crate::tests::events::span;
use qa_base::{Header, Role, Totals};
use qa_check::{AuditFault, Auditor, Fault, Judge, Line, Progress, Verdict, verdict_line};
use qa_embed::{Phase, Session};
use qa_sender::Running;
use std::alloc::Global;

/// A header and the beginning of a packet.
const FRONT: &str =
    "{\"event\":\"header\",\"version\":1,\"role\":\"client\",\"max_datagram_size\":1200}\n{\"event\":\"sent\",\"time\":0,";

/// The rest of the packet.
const REST: &str =
    "\"space\":\"app\",\"number\":0,\"size\":1200,\"eliciting\":true,\"in_flight\":true}\n";

/// What an auditor answers to a trace in two pieces, to its end, and to a piece behind it.
fn audit_in_pieces<J: Judge + Drop>(
    auditor: &mut Auditor<J>,
) -> (
    [Result<Progress, AuditFault>; 3],
    Result<Verdict, AuditFault>,
) {
    let front = auditor.feed(FRONT.as_bytes());
    let rest = auditor.feed(REST.as_bytes());
    let ended = auditor.finish();
    ([front, rest, auditor.feed(REST.as_bytes())], ended)
}

/// The verdict of the trace.
fn accepted() -> Verdict {
    Verdict::Accepted(Totals {
        events: 1,
        window: 12000,
        ssthresh: None,
        bytes_in_flight: 1200,
        latest_rtt: 0,
        min_rtt: 0,
        smoothed_rtt: 333_000,
        rttvar: 166_500,
        pto_count: 0,
        owed: 0,
    })
}

/// Whether nothing is fixed before the end of the trace, and nothing is taken behind it.
fn is_fixed_at_its_end<J: Judge + Drop>(auditor: &mut Auditor<J>) -> bool {
    let verdict = accepted();
    let (open, fixed) = (Ok(Progress::Open), Ok(Progress::Fixed(verdict)));
    audit_in_pieces(auditor) == ([open, open, fixed], Ok(verdict))
}

/// Hands in a header and the beginning of a line: what is answered to each, how far the auditor is
/// then, and whether it is inside a line.
fn begin_by_a_header<J: Judge + Drop>(
    auditor: &mut Auditor<J>,
    header: Header,
) -> Option<([Result<Progress, AuditFault>; 3], bool)> {
    if !auditor.is_between_lines() {
        return None;
    }
    let said = auditor.push_said(&Line::Header(header));
    let begun = auditor.feed(b"{");
    Some((
        [said, begun, auditor.progress()],
        !auditor.is_between_lines(),
    ))
}

/// Whether the report says that the second line is no JSON.
fn is_unreadable<J: Judge + Drop>(auditor: &mut Auditor<J>, alloc: Global) -> bool {
    let Ok(verdict) = auditor.finish() else {
        return false;
    };
    match verdict_line(alloc, &verdict) {
        Ok(line) => line.as_str() == "unreadable line 2 F1 not-json\n",
        Err(_) => false,
    }
}

/// Whether the audit is open after each of these, and the report is that of the line behind them.
fn takes_a_header<J: Judge + Drop>(
    auditor: &mut Auditor<J>,
    alloc: Global,
    header: Header,
) -> bool {
    let open = Ok(Progress::Open);
    begin_by_a_header(auditor, header) == Some(([open, open, open], true))
        && is_unreadable(auditor, alloc)
}

/// Whether a new auditor does so, or so, by whether it is handed a header. Only this function holds
/// one, for any judge: of a certain one it takes long to prove that it is dropped.
fn audits<J: Judge + Drop>(alloc: Global, header: Option<Header>) -> bool {
    let mut auditor = Auditor::<J>::new(alloc);
    match header {
        Some(header) => takes_a_header(&mut auditor, alloc, header),
        None => is_fixed_at_its_end(&mut auditor),
    }
}

/// A trace comes in two pieces, cut inside a line.
#[test]
fn a_trace_comes_in_two_pieces(rt: HostRuntime) {
    assert!(rt; audits::<Running>(rt.alloc(), None));
}

/// A client's header.
fn client() -> Option<Header> {
    Header::new(Role::Client, 1200, None, None, None).ok()
}

/// Whether a new auditor takes a client's header.
fn takes_a_new_header(alloc: Global) -> bool {
    match client() {
        Some(header) => audits::<Running>(alloc, Some(header)),
        None => false,
    }
}

/// A header comes by what its line says, where no line was begun, and is the first line.
#[test]
fn a_header_comes_by_what_it_says(rt: HostRuntime) {
    assert!(rt; takes_a_new_header(rt.alloc()));
}

/// What a session answers to a blank line, to its end, and to a piece behind it.
fn finish_a_session(session: &mut Session) -> [Phase; 3] {
    let begun = session.feed(b"\n");
    let ended = session.finish();
    [begun, ended, session.feed(FRONT.as_bytes())]
}

/// The same, with its verdict before and after, and whether it is finished.
fn finish_a_new_session(session: &mut Session) -> ([Phase; 3], [Option<Verdict>; 2], bool) {
    let before = session.verdict();
    let phases = finish_a_session(session);
    (phases, [before, session.verdict()], session.is_finished())
}

/// Whether it is open, and then finished, and what comes behind changes nothing.
fn is_finished_once(session: &mut Session) -> bool {
    let none = Verdict::Unreadable(2, Fault::HeaderPlace, None);
    let phases = [Phase::Open, Phase::Finished(none), Phase::Finished(none)];
    finish_a_new_session(session) == (phases, [None, Some(none)], true)
}

/// How many ranges stand in a list that the session lends, once one was put in, and in the next
/// that it lends once that list was taken back.
fn lend_twice(session: &mut Session, alloc: Global) -> Option<(usize, usize)> {
    let span = span(7, 9)?;
    let mut ranges = session.lend_ranges(alloc);
    ranges.push(span).ok()?;
    let count = ranges.as_slice().len();
    session.take_back(alloc, ranges);
    let next = session.lend_ranges(alloc);
    Some((count, next.as_slice().len()))
}

/// The line of a header as it is written, and the beginning of another line.
const RECORDED: &[u8] =
    b"{\"event\":\"header\",\"initial_rtt\":333000,\"initial_window\":12000,\"max_ack_delay\":25000,\"max_datagram_size\":1200,\"role\":\"client\",\"version\":1}\n{\"event\":";

/// Whether the session keeps the line of a header that is handed in by what it says, and a piece
/// behind it as it is.
fn is_recorded(session: &mut Session, header: Header) -> bool {
    if !session.is_between_lines() {
        return false;
    }
    session.push_said(&Line::Header(header));
    session.feed(b"{\"event\":");
    match session.recorded() {
        Some(text) => text == RECORDED,
        None => false,
    }
}

/// What a new session is to do.
#[derive(Clone, Copy)]
enum Task {
    Finish,
    Lend,
    Record,
    RecordNothing,
}

/// Whether a session does this.
fn does(session: &mut Session, alloc: Global, header: Header, task: Task) -> bool {
    match task {
        Task::Finish => is_finished_once(session),
        Task::Lend => lend_twice(session, alloc) == Some((1, 0)),
        Task::Record => is_recorded(session, header),
        Task::RecordNothing => !is_recorded(session, header),
    }
}

/// What can be asked whether it does a task.
trait Asked {
    fn does(&mut self, alloc: Global, header: Header, task: Task) -> bool;
}

impl Asked for Session {
    fn does(&mut self, alloc: Global, header: Header, task: Task) -> bool {
        does(self, alloc, header, task)
    }
}

/// Whether a session does this that is its own. Only this function holds one, as anything that can
/// be asked: of a session it takes long to prove that it is dropped.
fn does_alone<A: Asked + Drop>(asked: A, alloc: Global, header: Header, task: Task) -> bool {
    let mut asked = asked;
    asked.does(alloc, header, task)
}

/// Whether a new session that records nothing does this.
fn new_does(alloc: Global, task: Task) -> bool {
    match client() {
        Some(header) => does_alone(Session::new(alloc), alloc, header, task),
        None => false,
    }
}

/// Whether one that records keeps what it is handed.
fn recording_keeps(alloc: Global) -> bool {
    match client() {
        Some(header) => does_alone(Session::recording(alloc), alloc, header, Task::Record),
        None => false,
    }
}

/// A session is open, and then finished; what comes behind changes nothing.
#[test]
fn a_session_is_finished_once(rt: HostRuntime) {
    assert!(rt; new_does(rt.alloc(), Task::Finish));
}

/// A list of ranges that was taken back is lent without them.
#[test]
fn ranges_are_lent_empty(rt: HostRuntime) {
    assert!(rt; new_does(rt.alloc(), Task::Lend));
}

/// A session that records keeps the text of what it is handed, and another keeps none.
#[test]
fn a_session_records_what_it_is_handed(rt: HostRuntime) {
    assert!(rt; recording_keeps(rt.alloc()));
    assert!(rt; new_does(rt.alloc(), Task::RecordNothing));
}
