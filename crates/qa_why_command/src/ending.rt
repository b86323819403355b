//! How a trace ends, and the line of its failure.
ghost use Rattle.std.specs.Prelude.{◌≡◌};
ghost use Rattle.qa_why_command.specs.Ending as defined;
ghost use Rattle.qa_why_command.specs.Ending.{TellsLine};

use qa_check::{AuditFault, Outcome, Sink};
use qa_commands::write_line;

/// Why there is no verdict on a trace.
#[derive(Clone, Copy)]
pub enum Failure {
    /// The file does not open.
    Open,
    /// A stream failed, or it is out of memory.
    Audit(AuditFault),
    /// The file is a log that gives no trace, or none to its end.
    Log,
}

impl Failure {
    /// Writes the line on standard error, of what failed, whose own failure changes nothing. Of a
    /// log there is none: what is wrong with it was written where it was found.
    pub fn tell<E: Sink>(self, name: &str, error: &mut E)
        ensures { TellsLine self name.now (E.held error.old, E.write_failures error.old)
            (E.held error.new, E.write_failures error.new) }
    {
        if self.has_line() {
            let _begun = write_line(self.message(), name, error);
        }
    }

    /// Whether its line is yet to be written.
    fn has_line(self) -> bool
        ensures { result ≡ defined.has_line self }
    {
        match self {
            Failure::Open | Failure::Audit(_) => true,
            Failure::Log => false,
        }
    }

    /// What the line begins with, if there is one.
    fn message(self) -> &'static str
        ensures { result.now ≡ defined.message_of self }
    {
        match self {
            Failure::Open => "qaudit-why: cannot open ",
            Failure::Audit(AuditFault::Read) => "qaudit-why: read fault: ",
            Failure::Audit(AuditFault::Write) => "qaudit-why: write fault: ",
            Failure::Audit(AuditFault::OutOfMemory) => "qaudit-why: out of memory: ",
            Failure::Log => "",
        }
    }
}

/// What came of a trace, or why there is no verdict on it.
pub fn ended_by(told: Result<Outcome, AuditFault>) -> Result<Outcome, Failure>
    ensures { result ≡ defined.ended_by told }
{
    match told {
        Ok(outcome) => Ok(outcome),
        Err(fault) => Err(Failure::Audit(fault)),
    }
}

/// Whether no file behind is read.
pub fn stops(ended: &Result<Outcome, Failure>) -> bool
    ensures { result ≡ defined.stops ended.now }
{
    matches!(ended, Err(Failure::Audit(AuditFault::Write)))
}
