//! Streams that fail, and a reader of one byte a call.
ghost use Rattle.std.specs.Prelude.{◌≤◌, IfOk};

use qa_arguments::ArgumentsFault;
use qa_check::Metered;
use qa_log_command::{Streams, command, refuse};
use std::alloc::{AllocError, Global};
use std::io;
use std::io::{ErrorKind, Read, Write};

/// A log of one packet.
const LOG: &str =
    "{\"qlog_version\":\"0.3\",\"qlog_format\":\"NDJSON\",\"trace\":{\"vantage_point\":{\"type\":\"client\"}}}\n{\"time\":0,\"name\":\"recovery:parameters_set\",\"data\":{\"max_datagram_size\":1200}}\n{\"time\":0,\"name\":\"transport:packet_sent\",\"data\":{\"header\":{\"packet_type\":\"1RTT\",\"packet_number\":0},\"raw\":{\"length\":1200},\"frames\":[{\"frame_type\":\"ping\"}]}}\n";

/// Its trace in version 1 of the format.
const TRACE: &str =
    "{\"event\":\"header\",\"initial_rtt\":333000,\"initial_window\":12000,\"max_ack_delay\":25000,\"max_datagram_size\":1200,\"role\":\"client\",\"version\":1,\"x_dialect\":\"generic\",\"x_guess\":[\"max_ack_delay: 25 ms, for the peer's is not logged\"]}\n{\"eliciting\":true,\"event\":\"sent\",\"in_flight\":true,\"leave\":\"window\",\"number\":0,\"size\":1200,\"space\":\"app\",\"time\":0}\n";

fn arguments_of(alloc: Global, words: &[&str]) -> Result<Vec<String>, AllocError> {
    let mut arguments = Vec::new(alloc);
    for word in words {
        arguments.push(String::from_str(alloc, word)?)?;
    }
    Ok(arguments)
}

/// A reader or a writer over memory: it moves a byte a call, and fails at the call of that number,
/// counted from 0, and at each after it.
#[derive(Drop)]
struct Faulty<T> {
    inner: T,
    calls: u64,
    fails_at: u64,
    kind: ErrorKind,
}

impl<T> Faulty<T> {
    fn metered(inner: T, fails_at: u64, kind: ErrorKind) -> Metered<Faulty<T>> {
        Metered::new(Faulty {
            inner,
            calls: 0,
            fails_at,
            kind,
        })
    }

    /// Counts a call, and returns how many of these bytes it may move.
    fn turn(&mut self, len: usize) -> io::Result<usize>
        ensures { IfOk result (λ n. n ≤ len) }
    {
        if self.calls == self.fails_at {
            return Err(io::Error::from(self.kind));
        }
        self.calls = self.calls.wrapping_add(1);
        Ok(len.min(1))
    }
}

impl<T: Read> Read for Faulty<T> {
    fn read(&mut self, piece: &mut [u8]) -> io::Result<usize> {
        let most = self.turn(piece.len())?;
        self.inner.read(&mut piece[..most])
    }
}

impl<T: Write> Write for Faulty<T> {
    fn write(&mut self, piece: &[u8]) -> io::Result<usize> {
        let most = self.turn(piece.len())?;
        self.inner.write(&piece[..most])
    }

    fn flush(&mut self) -> io::Result<()> {
        Ok(())
    }
}

/// At which calls the input, the output and the error stream fail, and how.
#[derive(Clone, Copy)]
struct Faults {
    input: u64,
    output: u64,
    error: u64,
    kind: ErrorKind,
}

/// No stream fails.
const NONE: Faults = Faults {
    input: u64::MAX,
    output: u64::MAX,
    error: u64::MAX,
    kind: ErrorKind::Other,
};

/// Whether the command ends with this status over such streams, and writes these texts.
fn ends_so(rt: &HostRuntime, faults: Faults, status: u8, texts: (&str, &str)) -> bool {
    let Ok(arguments) = arguments_of(rt.alloc(), &["--format", "1", "--dialect", "generic"]) else {
        return false;
    };
    let mut streams = Streams {
        input: Faulty::metered(LOG.as_bytes(), faults.input, faults.kind),
        is_terminal: true,
        output: Faulty::metered(Vec::new(rt.alloc()), faults.output, faults.kind),
        error: Faulty::metered(Vec::new(rt.alloc()), faults.error, faults.kind),
    };
    let ended = command(rt, rt.alloc(), &arguments, &mut streams);
    let Streams { output, error, .. } = streams;
    let is_written = output.into_inner().inner.as_slice() == texts.0.as_bytes();
    let is_told = error.into_inner().inner.as_slice() == texts.1.as_bytes();
    ended == status && is_written && is_told
}

/// What is said first.
const WAITS: &str = "qlog-to-trace: reading standard input\n";

const UNREAD: &str =
    "qlog-to-trace: reading standard input\nqlog-to-trace: standard input: permission denied\n";

const UNWRITTEN: &str =
    "qlog-to-trace: reading standard input\nqlog-to-trace: cannot write standard output: no storage space\n";

/// A log that comes a byte at a time has the same trace.
#[test]
fn a_byte_comes_at_a_time(rt: HostRuntime) {
    assert!(rt; ends_so(&rt, NONE, 0, (TRACE, WAITS)));
}

#[test]
fn a_read_fails(rt: HostRuntime) {
    let faults = Faults {
        input: 9,
        kind: ErrorKind::PermissionDenied,
        ..NONE
    };
    assert!(rt; ends_so(&rt, faults, 3, ("", UNREAD)));
}

#[test]
fn a_write_fails(rt: HostRuntime) {
    let faults = Faults {
        output: 8,
        kind: ErrorKind::StorageFull,
        ..NONE
    };
    assert!(rt; ends_so(&rt, faults, 3, ("{\"event\"", UNWRITTEN)));
}

/// Nobody reads the trace on, of which nothing is said.
#[test]
fn a_pipe_is_closed(rt: HostRuntime) {
    let faults = Faults {
        output: 8,
        kind: ErrorKind::BrokenPipe,
        ..NONE
    };
    assert!(rt; ends_so(&rt, faults, 3, ("{\"event\"", WAITS)));
}

/// A failure of standard error changes nothing.
#[test]
fn a_message_fails(rt: HostRuntime) {
    let faults = Faults { error: 4, ..NONE };
    assert!(rt; ends_so(&rt, faults, 0, (TRACE, "qlog")));
}

/// How the program ends if its arguments cannot be read.
fn refused(alloc: Global, fault: ArgumentsFault, text: &str) -> Option<u8> {
    let mut error = Metered::new(Vec::new(alloc));
    let status = refuse(fault, &mut error);
    (error.into_inner().as_slice() == text.as_bytes()).then_some(status)
}

#[test]
fn arguments_cannot_be_read(rt: HostRuntime) {
    let wrong = "qlog-to-trace: an argument is not UTF-8\n";
    assert!(rt; refused(rt.alloc(), ArgumentsFault::Refused, wrong) == Some(64));
    let memory = "qlog-to-trace: out of memory: arguments\n";
    assert!(rt; refused(rt.alloc(), ArgumentsFault::OutOfMemory, memory) == Some(3));
}
