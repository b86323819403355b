//! Readers, writers and ledgers that fail.
ghost use Rattle.std.specs.Prelude.{◌≤◌, IfOk};

use qa_base::{Event, Header, Totals};
use qa_check::{AuditFault, Metered, Outcome, audit, explain};
use qa_ledger::{Ledger, LedgerFault};
use qa_reference::Whole;
use std::alloc::Global;
use std::io;
use std::io::{ErrorKind, Read, Write};

/// A header and a packet.
const TRACE: &str =
    "{\"event\":\"header\",\"version\":1,\"role\":\"client\",\"max_datagram_size\":1200}\n{\"event\":\"sent\",\"time\":0,\"space\":\"app\",\"number\":0,\"size\":1200,\"eliciting\":true,\"in_flight\":true}\n";

/// Its first row.
const ROW: &str =
    "line 1 header window 12000 bytes_in_flight 0 smoothed_rtt 333000 rttvar 166500 pto_count 0 owed 0\n";

/// A reader or a writer over memory: it moves at most so many bytes a call, fails once at the call
/// of that number, counted from 0, and goes on afterwards.
#[derive(Drop)]
struct Faulty<T> {
    inner: T,
    calls: u64,
    most: usize,
    fails_at: u64,
}

impl<T> Faulty<T> {
    fn metered(inner: T, most: usize, fails_at: u64) -> Metered<Faulty<T>> {
        Metered::new(Faulty {
            inner,
            calls: 0,
            most,
            fails_at,
        })
    }

    /// Counts a call, and returns how many of these bytes it may move. It fails by the error that
    /// readers and writers are most often asked again after.
    fn turn(&mut self, len: usize) -> io::Result<usize>
        ensures { IfOk result (λ n. n ≤ len) }
    {
        let call = self.calls;
        self.calls = call.wrapping_add(1);
        if call == self.fails_at {
            return Err(io::Error::from(ErrorKind::Interrupted));
        }
        Ok(self.most.min(len))
    }
}

impl<T: Read> Read for Faulty<T> {
    fn read(&mut self, piece: &mut [u8]) -> io::Result<usize> {
        let most = self.turn(piece.len())?;
        self.inner.read(&mut piece[..most])
    }
}

impl<T: Write> Write for Faulty<T> {
    fn write(&mut self, piece: &[u8]) -> io::Result<usize> {
        let most = self.turn(piece.len())?;
        self.inner.write(&piece[..most])
    }

    fn flush(&mut self) -> io::Result<()> {
        Ok(())
    }
}

/// Whether the writer was given this text, and no more.
fn has_written(writer: &Vec<u8>, text: &str) -> bool {
    writer.as_slice() == text.as_bytes()
}

/// How an explanation ends whose second read fails, how often it has read, and whether it has
/// written the header's row.
fn explain_to_a_failed_read(alloc: Global) -> (Result<Outcome, AuditFault>, u64, bool) {
    let mut reader = Faulty::metered(TRACE.as_bytes(), 80, 1);
    let mut writer = Metered::new(Vec::new(alloc));
    let ended = explain::<Whole, _, _>(alloc, &mut reader, &mut writer);
    let is_written = has_written(&writer.into_inner(), ROW);
    (ended, reader.into_inner().calls, is_written)
}

/// Whether it ends by that read, with the header's row written.
fn ends_by_a_read(alloc: Global) -> bool {
    explain_to_a_failed_read(alloc) == (Err(AuditFault::Read), 2, true)
}

/// The header is read, and the next read fails.
#[test]
fn a_read_fails(rt: HostRuntime) {
    assert!(rt; ends_by_a_read(rt.alloc()));
}

/// How an explanation ends that is read at once, and how often it has written.
fn explain_at_once(alloc: Global) -> (Result<Outcome, AuditFault>, u64) {
    let mut reader = Metered::new(TRACE.as_bytes());
    let mut writer = Faulty::metered(Vec::new(alloc), usize::MAX, u64::MAX);
    let ended = explain::<Whole, _, _>(alloc, &mut reader, &mut writer);
    (ended, writer.into_inner().calls)
}

/// Whether it is accepted, with two writes.
fn takes_two_writes(alloc: Global) -> bool {
    explain_at_once(alloc) == (Ok(Outcome::Accepted), 2)
}

/// The rows of what one read gives are one write, and the report is another.
#[test]
fn rows_are_written_at_once(rt: HostRuntime) {
    assert!(rt; takes_two_writes(rt.alloc()));
}

/// How an audit ends whose sixth write fails, how often it has written, and whether five bytes.
fn audit_to_a_failed_write(alloc: Global) -> (Result<Outcome, AuditFault>, u64, bool) {
    let mut reader = Metered::new(TRACE.as_bytes());
    let mut writer = Faulty::metered(Vec::new(alloc), 1, 5);
    let ended = audit::<Whole, _, _>(alloc, &mut reader, &mut writer);
    let writer = writer.into_inner();
    (ended, writer.calls, has_written(&writer.inner, "accep"))
}

/// Whether it ends by that write, with five bytes written.
fn ends_by_a_write(alloc: Global) -> bool {
    audit_to_a_failed_write(alloc) == (Err(AuditFault::Write), 6, true)
}

/// Five bytes are written, and the next write fails.
#[test]
fn a_write_fails(rt: HostRuntime) {
    assert!(rt; ends_by_a_write(rt.alloc()));
}

/// A ledger that is out of memory at each event.
#[derive(Drop)]
struct Deaf {
    whole: Whole,
    failed: bool,
}

impl Ledger for Deaf {
    ghost use Rattle.std.specs.Prelude.{length};
    ghost use Rattle.qa_reference.specs.Holding.{StandsFor};

    ghost stands = { λ l. StandsFor l.whole };

    ghost has_failed = { λ l. l.failed };

    ghost admitted = { λ l. length l.whole.events };

    fn start(alloc: Global, header: Header) -> Deaf {
        Deaf {
            whole: Whole::start(alloc, header),
            failed: false,
        }
    }

    fn admit(&mut self, _event: &Event) -> Result<(), LedgerFault> {
        if !self.failed {
            self.failed = true;
        }
        Err(LedgerFault::OutOfMemory)
    }

    fn totals(&self) -> Totals {
        self.whole.totals()
    }

    fn owes(&self) -> bool {
        self.whole.owes()
    }
}

/// How an audit by it ends, and whether nothing is written.
fn audit_without_memory(alloc: Global) -> (Result<Outcome, AuditFault>, bool) {
    let mut reader = Metered::new(TRACE.as_bytes());
    let mut writer = Metered::new(Vec::new(alloc));
    let ended = audit::<Deaf, _, _>(alloc, &mut reader, &mut writer);
    (ended, has_written(&writer.into_inner(), ""))
}

/// Whether it ends so, with nothing written.
fn audits_without_memory(alloc: Global) -> bool {
    audit_without_memory(alloc) == (Err(AuditFault::OutOfMemory), true)
}

/// Nothing is written, so the ledger that is named is the one that is asked.
#[test]
fn an_audit_has_a_ledger_out_of_memory(rt: HostRuntime) {
    assert!(rt; audits_without_memory(rt.alloc()));
}

/// How an explanation by it ends, and whether the header's row is written.
fn explain_without_memory(alloc: Global) -> (Result<Outcome, AuditFault>, bool) {
    let mut reader = Metered::new(TRACE.as_bytes());
    let mut writer = Metered::new(Vec::new(alloc));
    let ended = explain::<Deaf, _, _>(alloc, &mut reader, &mut writer);
    (ended, has_written(&writer.into_inner(), ROW))
}

/// Whether it ends so, with the header's row written.
fn explains_without_memory(alloc: Global) -> bool {
    explain_without_memory(alloc) == (Err(AuditFault::OutOfMemory), true)
}

/// The header is taken in, and the packet is not.
#[test]
fn an_explanation_has_a_ledger_out_of_memory(rt: HostRuntime) {
    assert!(rt; explains_without_memory(rt.alloc()));
}
