//! Why the trace of a log was not written whole.

ghost use Rattle.std.specs.Prelude.{◌≡◌, false, true};
ghost use Rattle.qa_log_command.specs.Failing.{ending_of, ending_of_log, is_write};

use crate::ending::Ending;
use qa_log_lines::{Interruption, LogFailure};
use std::alloc::{AllocError, Global};
use std::io;

/// Why there is no trace, or no more of it.
#[derive(Debug, Drop)]
pub enum Failure {
    /// The log gives no lines, or no more of them.
    Log(Interruption),
    /// A write failed.
    Write(io::Error),
}

impl From<LogFailure> for Failure {
    ghost from_gives = { λ _ failure. is_write failure ≡ false };

    fn from(failure: LogFailure) -> Self {
        Failure::Log(Interruption::from(failure))
    }
}

impl From<io::Error> for Failure {
    ghost from_gives = { λ _ failure. is_write failure ≡ true };

    fn from(error: io::Error) -> Self {
        Failure::Write(error)
    }
}

impl Failure {
    /// How the program ends by it.
    pub fn ending(&self) -> Ending
        ensures { result ≡ ending_of self.now }
    {
        match self {
            Failure::Log(interruption) => ending_by(&interruption.failure),
            Failure::Write(_) => Ending::Failed,
        }
    }

    /// What is said of the log of this name. `AllocError` comes if it is out of memory.
    pub fn text(&self, alloc: Global, name: &str) -> Result<String, AllocError> {
        match self {
            Failure::Log(interruption) => interruption.text(alloc, name),
            Failure::Write(error) => format!(in alloc; "cannot write standard output: {error}"),
        }
    }
}

/// How the program ends by what a log gives no line for.
fn ending_by(failure: &LogFailure) -> Ending
    ensures { result ≡ ending_of_log failure.now }
{
    match failure {
        LogFailure::Log(_) => Ending::NoTrace,
        LogFailure::Open(_) | LogFailure::Read(_) | LogFailure::TooLong | LogFailure::OutOfMemory =>
            Ending::Failed,
    }
}
