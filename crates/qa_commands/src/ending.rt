//! How the program ends.
ghost use Rattle.std.specs.Prelude.{◌≡◌, ◌++◌, ◌∷◌, Bool, [], Err, is_err};
ghost use Rattle.qa_commands.specs.Ending.{audit_status, failure_of, line_told, message_of};
ghost use Rattle.qa_commands.specs.Ending.{status_of, Ends};
ghost use Rattle.qa_check.specs.names.Names.{shown_name};
ghost use Rattle.qa_commands.specs.Writes.{Writes};

use crate::naming::write_line;
use qa_check::{AuditFault, Outcome, Sink};

/// What a trace is read from.
#[derive(Clone, Copy)]
pub enum Origin<'a> {
    StandardInput,
    /// The file of this name.
    File(&'a str),
}

/// Why there is no verdict on a trace.
#[derive(Clone, Copy)]
pub enum Failure<'a> {
    /// The arguments were refused.
    Arguments,
    /// The file of this name does not open.
    Open(&'a str),
    /// A read failed.
    Read(Origin<'a>),
    /// A write failed.
    Write,
    OutOfMemory,
}

impl<'a> Failure<'a> {
    /// The failure of an audit that read from this origin.
    pub fn of_audit(fault: AuditFault, origin: Origin<'a>) -> Failure<'a>
        ensures { result ≡ failure_of origin.entry fault }
    {
        match fault {
            AuditFault::Read => Failure::Read(origin),
            AuditFault::Write => Failure::Write,
            AuditFault::OutOfMemory => Failure::OutOfMemory,
        }
    }

    /// Writes the line that stands on standard error. Takes no memory.
    pub fn write_to<E: Sink>(&self, error: &mut E) -> Result<(), AuditFault>
        ensures { Writes (is_err result) (E.held error.old) (E.held error.new)
            (E.write_failures error.old) (E.write_failures error.new) (line_told (Err self.now)) }
    {
        let (message, name) = self.message();
        write_line(message, name, error)
    }

    /// The message, and the name that it ends in.
    fn message(&self) -> (&'a str, &'a str)
        ensures { result.0.now ++ shown_name result.1.now ≡ message_of self.now }
    {
        match self {
            Failure::Arguments => ("usage: qaudit check [FILE...] or qaudit explain [FILE]", ""),
            Failure::Open(name) => ("qaudit: cannot open ", name),
            Failure::Read(origin) => match origin {
                Origin::StandardInput => ("qaudit: read fault: standard input", ""),
                Origin::File(name) => ("qaudit: read fault: ", name),
            },
            Failure::Write => ("qaudit: write fault", ""),
            Failure::OutOfMemory => ("qaudit: out of memory", ""),
        }
    }
}

/// The exit status of an audit: 0 accepted, 1 refused, 2 unreadable, and 3 where a stream failed or
/// it was out of memory.
pub fn status(ended: &Result<Outcome, AuditFault>) -> u8
    ensures { result ≡ audit_status ended.now }
{
    match ended {
        Ok(Outcome::Accepted) => 0,
        Ok(Outcome::Refused) => 1,
        Ok(Outcome::Unreadable) => 2,
        Err(_) => 3,
    }
}

/// The exit status where it ended so: that of the audit, 64 where the arguments were refused, and 3
/// where a file did not open.
pub fn exit_status(ended: &Result<Outcome, Failure<'_>>) -> u8
    ensures { result ≡ status_of ended.now }
{
    match ended {
        Ok(outcome) => status(&Ok(*outcome)),
        Err(Failure::Arguments) => 64,
        Err(Failure::Open(_) | Failure::Read(_) | Failure::Write | Failure::OutOfMemory) => 3,
    }
}

/// Tells a failure on standard error, and returns the exit status.
pub fn end<E: Sink>(ended: &Result<Outcome, Failure<'_>>, error: &mut E) -> u8
    ensures { Ends (ended.now ∷ []) result (E.held error.old) (E.held error.new)
        (E.write_failures error.old) (E.write_failures error.new) }
{
    tell(ended, error);
    exit_status(ended)
}

/// Tells a failure on standard error, whose own failure changes nothing.
pub fn tell<E: Sink>(ended: &Result<Outcome, Failure<'_>>, error: &mut E)
    ensures { (failed : Bool) × Writes failed (E.held error.old) (E.held error.new)
        (E.write_failures error.old) (E.write_failures error.new) (line_told ended.now) }
{
    if let Err(failure) = ended {
        let _lost = failure.write_to(error);
    }
}
