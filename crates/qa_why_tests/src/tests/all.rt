//! All violations of a trace, and its rows behind them, as conformance/ has them.
use qa_check::{Metered, Outcome};
use qa_format::Form;
use qa_sender::Running;
use qa_violations::{Manner, rows_all, why_all};
use qa_why::NoNotes;
use std::alloc::Global;

/// A probe before any probe timeout, which breaks V8.
const TRACE: &str =
    "{\"event\":\"header\",\"version\":1,\"role\":\"server\",\"max_datagram_size\":1200}\n{\"event\":\"sent\",\"time\":0,\"space\":\"app\",\"number\":0,\"size\":1200,\"eliciting\":true,\"in_flight\":true,\"leave\":\"probe\"}\n";

/// The violation, and the table.
const TEXT: &str =
    "a:2: departure V8 past-probe: packet 0 of app goes past what a probe timeout allows\n  2 | {\"event\":\"sent\",\"time\":0,\"space\":\"app\",\"number\":0,\"size\":1200,\"eliciting\":true,\"in_flight\":true,\"leave\":\"probe\"}\n  no probe timeout yet\n  RFC 9002, 7, MUST NOT: send past the congestion window, except for two full datagrams at a probe timeout (6.2.4, MAY). This format counts their bytes.\na: departs once in 1 events\n  V8 past-probe: once, line 2\n  at the end: 1200 bytes in flight, no timer is set\n";

/// The same as an object.
const OBJECT: &str =
    "{\"file\":\"a\",\"verdict\":\"refused\",\"line\":2,\"rule\":\"V8\",\"name\":\"past-probe\",\"requirement\":\"MUST\",\"section\":\"RFC 9002, 7\",\"event\":\"sent\",\"time_us\":0,\"space\":\"app\",\"number\":0,\"size_bytes\":1200,\"allowance_bytes\":2400,\"spent_bytes\":null,\"events\":1,\"departures\":[{\"rule\":\"V8\",\"name\":\"past-probe\",\"requirement\":\"MUST\",\"section\":\"RFC 9002, 7\",\"count\":1,\"first\":2,\"last\":2,\"lines\":[2]}],\"end\":{\"verdict\":\"accepted\",\"events\":1,\"allowed\":[],\"choices\":[],\"guesses\":null,\"last\":{\"time_us\":0,\"in_flight_bytes\":1200,\"set_kind\":null,\"set_space\":null,\"deadline_us\":null}}}\n";

/// The violation with the row before it, and the table.
const TEXT_AROUND: &str =
    "a:2: departure V8 past-probe: packet 0 of app goes past what a probe timeout allows\n  2 | {\"event\":\"sent\",\"time\":0,\"space\":\"app\",\"number\":0,\"size\":1200,\"eliciting\":true,\"in_flight\":true,\"leave\":\"probe\"}\n  no probe timeout yet\n  RFC 9002, 7, MUST NOT: send past the congestion window, except for two full datagrams at a probe timeout (6.2.4, MAY). This format counts their bytes.\n  before it:\n  line 1 header: window 12000 bytes_in_flight 0 ssthresh none latest_rtt 0 min_rtt 0 smoothed_rtt 333000 rttvar 166500 pto_count 0 owed 0 no timer\na: departs once in 1 events\n  V8 past-probe: once, line 2\n  at the end: 1200 bytes in flight, no timer is set\n";

/// The same as an object.
const OBJECT_AROUND: &str =
    "{\"file\":\"a\",\"verdict\":\"refused\",\"line\":2,\"rule\":\"V8\",\"name\":\"past-probe\",\"requirement\":\"MUST\",\"section\":\"RFC 9002, 7\",\"event\":\"sent\",\"time_us\":0,\"space\":\"app\",\"number\":0,\"size_bytes\":1200,\"allowance_bytes\":2400,\"spent_bytes\":null,\"around\":[{\"line\":1,\"event\":{\"event\":\"header\",\"initial_rtt\":333000,\"initial_window\":12000,\"max_ack_delay\":25000,\"max_datagram_size\":1200,\"role\":\"server\",\"version\":1},\"state\":{\"events\":0,\"window_bytes\":12000,\"ssthresh_bytes\":null,\"in_flight_bytes\":0,\"latest_rtt_us\":0,\"min_rtt_us\":0,\"smoothed_rtt_us\":333000,\"rttvar_us\":166500,\"pto_count\":0,\"owed_space\":null,\"owed\":[],\"set_kind\":null,\"set_space\":null,\"deadline_us\":null}}],\"events\":1,\"departures\":[{\"rule\":\"V8\",\"name\":\"past-probe\",\"requirement\":\"MUST\",\"section\":\"RFC 9002, 7\",\"count\":1,\"first\":2,\"last\":2,\"lines\":[2]}],\"end\":{\"verdict\":\"accepted\",\"events\":1,\"allowed\":[],\"choices\":[],\"guesses\":null,\"last\":{\"time_us\":0,\"in_flight_bytes\":1200,\"set_kind\":null,\"set_space\":null,\"deadline_us\":null}}}\n";

/// The rows of the header and of the probe.
const ROWS: &str =
    "{\"line\":1,\"event\":{\"event\":\"header\",\"initial_rtt\":333000,\"initial_window\":12000,\"max_ack_delay\":25000,\"max_datagram_size\":1200,\"role\":\"server\",\"version\":1},\"state\":{\"events\":0,\"window_bytes\":12000,\"ssthresh_bytes\":null,\"in_flight_bytes\":0,\"latest_rtt_us\":0,\"min_rtt_us\":0,\"smoothed_rtt_us\":333000,\"rttvar_us\":166500,\"pto_count\":0,\"owed_space\":null,\"owed\":[],\"set_kind\":null,\"set_space\":null,\"deadline_us\":null}}\n{\"line\":2,\"event\":{\"eliciting\":true,\"event\":\"sent\",\"in_flight\":true,\"leave\":\"probe\",\"number\":0,\"size\":1200,\"space\":\"app\",\"time\":0},\"state\":{\"events\":1,\"window_bytes\":12000,\"ssthresh_bytes\":null,\"in_flight_bytes\":1200,\"latest_rtt_us\":0,\"min_rtt_us\":0,\"smoothed_rtt_us\":333000,\"rttvar_us\":166500,\"pto_count\":0,\"owed_space\":null,\"owed\":[],\"set_kind\":null,\"set_space\":null,\"deadline_us\":null}}\n";

/// In this form, with so many rows before a violation, and nothing of an accepted trace.
fn quietly(form: Form, around: u16) -> Manner {
    Manner {
        form,
        quiet: true,
        around,
    }
}

/// Whether a trace ends so, and this is what is told of it.
fn tells(alloc: Global, manner: Manner, trace: &[u8], outcome: Outcome, text: &str) -> bool {
    let mut reader = Metered::new(trace);
    let mut writer = Metered::new(Vec::new(alloc));
    let told = why_all::<Running, _, _, _>(alloc, manner, "a", NoNotes, &mut reader, &mut writer);
    let ends_so = match told {
        Ok((found, _)) => found == outcome,
        Err(_) => false,
    };
    ends_so && writer.into_inner().as_slice() == text.as_bytes()
}

/// Whether this is what is told of the trace that violates a rule, which is refused.
fn tells_of_a_probe(alloc: Global, manner: Manner, text: &str) -> bool {
    tells(alloc, manner, TRACE.as_bytes(), Outcome::Refused, text)
}

/// A trace that violates a rule is told of with its table, and is refused.
#[test]
fn a_trace_violates(rt: HostRuntime) {
    assert!(rt; tells_of_a_probe(rt.alloc(), quietly(Form::Text, 0), TEXT));
}

/// The same as an object.
#[test]
fn a_trace_violates_as_an_object(rt: HostRuntime) {
    assert!(rt; tells_of_a_probe(rt.alloc(), quietly(Form::Json, 0), OBJECT));
}

/// Behind a violation stand the rows before it.
#[test]
fn a_row_stands_before_a_violation(rt: HostRuntime) {
    assert!(rt; tells_of_a_probe(rt.alloc(), quietly(Form::Text, 3), TEXT_AROUND));
}

/// In an object the rows before the first violation are a member.
#[test]
fn an_object_stands_before_a_violation(rt: HostRuntime) {
    assert!(rt; tells_of_a_probe(rt.alloc(), quietly(Form::Json, 3), OBJECT_AROUND));
}

/// Whether the header alone is accepted, and nothing is told of it.
fn tells_nothing_of_the_header(alloc: Global) -> bool {
    let header = &TRACE.as_bytes()[..72];
    tells(alloc, quietly(Form::Text, 0), header, Outcome::Accepted, "")
}

/// The header alone is accepted, and nothing is written of it where it is to be quiet.
#[test]
fn a_trace_violates_from_nothing(rt: HostRuntime) {
    assert!(rt; tells_nothing_of_the_header(rt.alloc()));
}

/// Whether the trace has these rows, and is accepted.
fn has_rows(alloc: Global, rows: &str) -> bool {
    let mut reader = Metered::new(TRACE.as_bytes());
    let mut writer = Metered::new(Vec::new(alloc));
    let ended = rows_all::<Running, _, _>(alloc, &mut reader, &mut writer);
    ended == Ok(Outcome::Accepted) && writer.into_inner().as_slice() == rows.as_bytes()
}

/// Both lines have a row, the second behind a violation.
#[test]
fn a_row_stands_behind_a_violation(rt: HostRuntime) {
    assert!(rt; has_rows(rt.alloc(), ROWS));
}
