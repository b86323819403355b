//! The whole command over logs, whose traces and verdicts were written by the second readings in
//! Python.
use qa_check::Metered;
use qa_why_command::command;
use std::alloc::AllocError;
use std::fs;

/// A log of one packet.
const LOG: &str =
    "{\"qlog_version\":\"0.3\",\"qlog_format\":\"NDJSON\",\"trace\":{\"vantage_point\":{\"type\":\"client\"}}}\n{\"time\":0,\"name\":\"recovery:parameters_set\",\"data\":{\"max_datagram_size\":1200}}\n{\"time\":0,\"name\":\"transport:packet_sent\",\"data\":{\"header\":{\"packet_type\":\"1RTT\",\"packet_number\":0},\"raw\":{\"length\":1200},\"frames\":[{\"frame_type\":\"ping\"}]}}\n";

const ACCEPTED: &str =
    "a: accepted, 1 events\n  by choice: recovery goes by the order of the lines (recovery_by_order)\n  guessed by the converter: line 1\n  at the end: 1200 bytes in flight, the pto timer of initial due at 999 ms\n";

/// The same with a byte more in the packet than the window has.
const PAST: &str =
    "{\"qlog_version\":\"0.3\",\"qlog_format\":\"NDJSON\",\"trace\":{\"vantage_point\":{\"type\":\"client\"}}}\n{\"time\":0,\"name\":\"recovery:parameters_set\",\"data\":{\"max_datagram_size\":1200}}\n{\"time\":0,\"name\":\"transport:packet_sent\",\"data\":{\"header\":{\"packet_type\":\"1RTT\",\"packet_number\":0},\"raw\":{\"length\":12001},\"frames\":[{\"frame_type\":\"ping\"}]}}\n";

const REFUSED: &str =
    "a:2: refused V7 past-window: packet 0 of app takes the bytes in flight to 12001, past the window of 12000\n  2 | {\"eliciting\":true,\"event\":\"sent\",\"in_flight\":true,\"leave\":\"window\",\"number\":0,\"size\":12001,\"space\":\"app\",\"time\":0,\"x_place\":\"line 3\"}\n  in the log: line 3\n  in flight 0 + 12001 = 12001, window 12000\n  RFC 9002, 7, MUST NOT: send past the congestion window: the reported one, or else the window of NewReno, as this model has it.\n  guessed on line 1: max_ack_delay: 25 ms, for the peer's is not logged\n  guessed on line 1: window: newreno, for no window is logged\n";

/// A packet past the last time of a trace, which is 10^15 microseconds.
const LATE: &str =
    "{\"time\":2000000000000,\"name\":\"transport:packet_sent\",\"data\":{\"header\":{\"packet_type\":\"1RTT\",\"packet_number\":1},\"raw\":{\"length\":1200},\"frames\":[{\"frame_type\":\"ping\"}]}}\n";

const ENDS_LATE: &str =
    "qaudit-why: a: at its end: it goes on past the last time of a trace, 10^15 of its unit; the trace ends after its line 2\n";

/// The exit status, and what was written to the output and to the error stream.
type Ended = (u8, Vec<u8>, Vec<u8>);

/// Runs the command over the file `a`.
fn run(rt: &HostRuntime) -> Result<Ended, AllocError> {
    let mut arguments = Vec::new(rt.alloc());
    arguments.push(String::from_str(rt.alloc(), "a")?)?;
    let mut input = Metered::new(b"".as_slice());
    let mut output = Metered::new(Vec::new(rt.alloc()));
    let mut error = Metered::new(Vec::new(rt.alloc()));
    let status = command(
        rt,
        rt.alloc(),
        &arguments,
        &mut input,
        &mut output,
        &mut error,
    );
    Ok((status, output.into_inner(), error.into_inner()))
}

/// Puts the parts of a log, one after another, into the file `a`.
fn write(rt: &HostRuntime, log: &[&str]) -> Result<bool, AllocError> {
    let mut text = String::new(rt.alloc());
    for part in log {
        text.push_str(part)?;
    }
    Ok(fs::write(rt, "a", text.as_str()).is_ok())
}

/// Whether a log gives this status, and these texts on the output and on the error stream.
fn tells(rt: &HostRuntime, log: &[&str], status: u8, texts: (&str, &str)) -> bool {
    let Ok(true) = write(rt, log) else {
        return false;
    };
    match run(rt) {
        Ok((found, output, error)) => {
            found == status
                && output.as_slice() == texts.0.as_bytes()
                && error.as_slice() == texts.1.as_bytes()
        }
        Err(_) => false,
    }
}

#[test]
fn a_log_is_accepted(rt: HostRuntime) {
    assert!(rt; tells(&rt, &[LOG], 0, (ACCEPTED, "")));
}

#[test]
fn a_log_is_refused(rt: HostRuntime) {
    assert!(rt; tells(&rt, &[PAST], 1, (REFUSED, "")));
}

/// A log whose trace ends before it has no verdict.
#[test]
fn a_log_ends_early(rt: HostRuntime) {
    assert!(rt; tells(&rt, &[LOG, LATE], 2, ("", ENDS_LATE)));
}

/// Unless a line before is refused.
#[test]
fn a_log_is_refused_before_it_ends(rt: HostRuntime) {
    assert!(rt; tells(&rt, &[PAST, LATE], 1, (REFUSED, "")));
}
