//! The subcommand `check`.
ghost use Rattle.std.specs.Prelude.{◌≡◌, ◌≢◌, ◌⊎◌, [], ℕ, List, Some, Result, Err, IfOk, OnOk, IfErr};
ghost use Rattle.std.specs.Prelude.{is_err};
ghost use Rattle.std.specs.Prelude.{length, nat_lt, true};
ghost use Rattle.std.specs.Borrow.{Bor};
ghost use Rattle.std.specs.Io.KnownBytes.{Appends};
ghost use Rattle.qa_check.specs.Audit.{Reads, is_read_fault};
ghost use Rattle.qa_check.specs.Failures.{failures_after};
ghost use Rattle.qa_check.specs.Writing.{Begins};
ghost use Rattle.qa_commands.specs.Checking as checking;
ghost use Rattle.qa_commands.specs.Checking.{Audited, Checks, ChecksAll, ReportsFile};
ghost use Rattle.qa_commands.specs.Checking.{any_stops, heading, unreported_by};
ghost use Rattle.qa_commands.specs.Commands.{ChecksFiles};
ghost use Rattle.qa_commands.specs.Ending.{Ends};

use crate::ending::{Failure, Origin, end, exit_status, tell};
use crate::naming::write_line;
use qa_check::{AuditFault, Metered, Outcome, Sink, Source, audit, write_whole};
use qa_sender::Running;
use std::alloc::Global;
use std::fs;
use std::rt::Files;

/// Audits each file, or standard input where there is none, and returns the greatest of the exit
/// statuses. Before the report of one of several files stands a line with its name.
///
/// Each failure is told on standard error. All but a failed write leave the files behind it to be
/// audited. Where there are files, nothing is read from standard input, and else nothing once the
/// verdict is fixed.
pub fn check<R: Files, I: Source, O: Sink, E: Sink>(
    rt: &R,
    alloc: Global,
    files: &[&str],
    input: &mut I,
    output: &mut O,
    error: &mut E,
) -> u8
    ensures ended { (endings : List (Result Outcome Failure))
        × ChecksFiles (I.left input.old) files.now endings (O.held output.old) (O.held output.new)
        × (O.write_failures output.new
        ≡ failures_after (any_stops endings) (O.write_failures output.old))
        × Ends endings result (E.held error.old) (E.held error.new)
        (E.write_failures error.old) (E.write_failures error.new) }
    ensures reads { files.now ≡ []
        → Reads (I.left input.old) (I.left input.new) (I.last_read input.new) }
    ensures unread { (files.now ≡ []) ⊎ (input.new ≡ input.old) }
{
    if files.is_empty() {
        let ended = audited(alloc, Origin::StandardInput, input, output);
        end(&ended, error)
    } else {
        check_files(rt, alloc, files, output, error)
    }
}

/// Audits each file, up to a failed write.
fn check_files<R: Files, O: Sink, E: Sink>(
    rt: &R,
    alloc: Global,
    files: &[&str],
    output: &mut O,
    error: &mut E,
) -> u8
    ensures { (endings : List (Result Outcome Failure))
        × ChecksAll (nat_lt 1 (length files.now)) files.now endings (O.held output.old)
        (O.held output.new)
        × (O.write_failures output.new
        ≡ failures_after (any_stops endings) (O.write_failures output.old))
        × Ends endings result (E.held error.old) (E.held error.new)
        (E.write_failures error.old) (E.write_failures error.new) }
{
    let several = files.len() > 1;
    let mut greatest = 0;
    for name in files {
        let ended = check_file(rt, alloc, name, several, output);
        tell(&ended, error);
        greatest = exit_status(&ended).max(greatest);
        if stops(&ended) {
            return greatest;
        }
    }
    greatest
}

/// Whether no file behind is audited.
fn stops(ended: &Result<Outcome, Failure<'_>>) -> bool
    ensures { result ≡ checking.stops ended.now }
{
    matches!(ended, Err(Failure::Write))
}

/// Audits one file, which is one of several or not.
fn check_file<'a, R: Files, O: Sink>(
    rt: &R,
    alloc: Global,
    name: &'a str,
    several: bool,
    output: &mut O,
) -> Result<Outcome, Failure<'a>>
    ensures written { Checks several name.entry result (O.held output.old) (O.held output.new) }
    ensures failures { O.write_failures output.new
        ≡ failures_after (checking.stops result) (O.write_failures output.old) }
{
    let Ok(file) = fs::open(rt, name) else {
        return Err(Failure::Open(name));
    };
    let mut input = Metered::new(file);
    if several {
        check_one_of_several(alloc, name, &mut input, output)
    } else {
        audited(alloc, Origin::File(name), &mut input, output)
    }
}

/// Audits one of several files. The line with its name and its report are written at once, so that
/// processes that share an output do not tear them apart. Without a report the line is written
/// alone.
fn check_one_of_several<'a, I: Source, O: Sink>(
    alloc: Global,
    name: &'a str,
    input: &mut I,
    output: &mut O,
) -> Result<Outcome, Failure<'a>>
    ensures written { Checks true name.entry result (O.held output.old) (O.held output.new) }
    ensures opened { result ≢ Err (Failure.Open name.entry) }
    ensures read_failures { (result ≡ Err Failure.Write) ⊎ (I.read_failures input.new
        ≡ failures_after (checking.is_unread result) (I.read_failures input.old)) }
    ensures failures { O.write_failures output.new
        ≡ failures_after (checking.stops result) (O.write_failures output.old) }
{
    let mut page = Metered::new(empty_page(alloc));
    match audit_on_page(alloc, name, input, &mut page) {
        Ok(outcome) => write_page(outcome, page.into_inner().as_slice(), output),
        Err(fault) => {
            write_heading(name, output)?;
            Err(unreported(fault, name))
        }
    }
}

/// How many bytes a page mostly takes at most.
const USUAL_PAGE: usize = 512;

/// An empty page with room for what mostly comes onto it. If that room is refused, there is none,
/// and whatever is put onto the page asks for its own.
fn empty_page(alloc: Global) -> Vec<u8>
    ensures { result.items ≡ [] }
{
    match Vec::with_capacity(alloc, USUAL_PAGE) {
        Ok(page) => page,
        Err(_) => Vec::new(alloc),
    }
}

/// Audits one of several files, and puts the line with its name and its report on a page, whose
/// failure is that memory was refused.
fn audit_on_page<I: Source, P: Sink>(
    alloc: Global,
    name: &str,
    input: &mut I,
    page: &mut P,
) -> Result<Outcome, AuditFault>
    ensures told { IfOk result
        (λ outcome. ReportsFile name.now outcome (P.held page.old) (P.held page.new)) }
    ensures read_failures { I.read_failures input.new
        ≡ failures_after (is_read_fault result) (I.read_failures input.old) }
{
    let Ok(()) = write_line("file ", name, page) else {
        return Err(AuditFault::Write);
    };
    let outcome = audit::<Running, I, P>(alloc, input, page)?;
    Ok(outcome)
}

/// Writes a page.
fn write_page<'a, O: Sink>(
    outcome: Outcome,
    page: &[u8],
    output: &mut O,
) -> Result<Outcome, Failure<'a>>
    ensures written { (name : Bor (List ℕ)) → ReportsFile name.now outcome (Some []) (Some page.now)
        → Checks true name result (O.held output.old) (O.held output.new) }
    ensures err { IfErr result (λ failure. failure ≡ Failure.Write) }
    ensures failures { O.write_failures output.new
        ≡ failures_after (checking.stops result) (O.write_failures output.old) }
{
    match write_whole(output, page) {
        Ok(()) => Ok(outcome),
        Err(_) => Err(Failure::Write),
    }
}

/// Why there is no report on a page.
fn unreported<'a>(fault: AuditFault, name: &'a str) -> Failure<'a>
    ensures { result ≡ unreported_by (Origin.File name.entry) fault }
{
    match fault {
        AuditFault::Read => Failure::Read(Origin::File(name)),
        AuditFault::Write | AuditFault::OutOfMemory => Failure::OutOfMemory,
    }
}

/// Writes the line that stands before the report of one of several files.
fn write_heading<'a, O: Sink>(name: &str, output: &mut O) -> Result<(), Failure<'a>>
    ensures ok { OnOk result (Appends (O.held output.old) (O.held output.new) (heading name.now)) }
    ensures err { IfErr result (λ failure. (failure ≡ Failure.Write)
        × Begins (O.held output.old) (O.held output.new) (heading name.now)) }
    ensures failures { O.write_failures output.new
        ≡ failures_after (is_err result) (O.write_failures output.old) }
{
    match write_line("file ", name, output) {
        Ok(()) => Ok(()),
        Err(_) => Err(Failure::Write),
    }
}

/// Audits one trace.
fn audited<'a, I: Source, O: Sink>(
    alloc: Global,
    origin: Origin<'a>,
    input: &mut I,
    output: &mut O,
) -> Result<Outcome, Failure<'a>>
    ensures written { Audited (I.left input.old) origin.entry result (O.held output.old)
        (O.held output.new) }
    ensures reads { Reads (I.left input.old) (I.left input.new) (I.last_read input.new) }
    ensures read_failures { I.read_failures input.new
        ≡ failures_after (checking.is_unread result) (I.read_failures input.old) }
    ensures failures { O.write_failures output.new
        ≡ failures_after (checking.stops result) (O.write_failures output.old) }
{
    match audit::<Running, I, O>(alloc, input, output) {
        Ok(outcome) => Ok(outcome),
        Err(fault) => Err(Failure::of_audit(fault, origin)),
    }
}
