//! Why a log gives no lines, or no more of them.

ghost use Rattle.std.specs.Prelude.{◌≡◌};
ghost use Rattle.qa_log_lines.specs.declared.failure.LogFailure.TheVariants as failures;

use qa_logs::LogFault;
use std::alloc::{AllocError, AllocFailed, Global};
use std::io;
use thiserror::Error;

/// Why a log gives no lines, or no more of them.
#[derive(Debug, Drop, Error)]
pub enum LogFailure {
    /// The file does not open.
    #[error("{0}")]
    Open(io::Error),
    /// A read failed.
    #[error("{0}")]
    Read(io::Error),
    /// The log can be read only once, and has more than is kept of such a log.
    #[error("more than 1,073,741,824 bytes, the limit for a stream: name a file instead")]
    TooLong,
    /// The log gives no trace.
    #[error("{0}")]
    Log(LogFault),
    /// Out of memory.
    #[error("out of memory")]
    OutOfMemory,
}

impl From<LogFault> for LogFailure {
    fn from(fault: LogFault) -> Self {
        match fault {
            LogFault::OutOfMemory => LogFailure::OutOfMemory,
            other => LogFailure::Log(other),
        }
    }
}

impl From<AllocError> for LogFailure {
    ghost from_gives = { λ _ failure. failure ≡ failures.OutOfMemory };

    fn from(_refused: AllocError) -> Self {
        LogFailure::OutOfMemory
    }
}

impl<T: Drop> From<AllocFailed<T>> for LogFailure {
    ghost from_gives = { λ _ failure. failure ≡ failures.OutOfMemory };

    fn from(_refused: AllocFailed<T>) -> Self {
        LogFailure::OutOfMemory
    }
}

/// A failure, and how many lines of the trace there were before.
#[derive(Debug, Drop)]
pub struct Interruption {
    /// Why no line follows.
    pub failure: LogFailure,
    /// How many lines there are.
    pub lines: u64,
}

impl Interruption {
    /// What is said of the log of this name. `AllocError` comes if it is out of memory.
    pub fn text(&self, alloc: Global, name: &str) -> Result<String, AllocError> {
        let (failure, lines) = (&self.failure, self.lines);
        match failure {
            LogFailure::Open(error) if error.kind() == io::ErrorKind::NotFound => {
                format!(in alloc; "cannot open {name}: no such file")
            }
            LogFailure::Open(error) => format!(in alloc; "cannot open {name}: {error}"),
            failure if lines == 0 => format!(in alloc; "{name}: {failure}"),
            failure => {
                format!(in alloc; "{name}: {failure}; the trace ends after its line {lines}")
            }
        }
    }
}

/// A failure before the first line.
impl From<LogFailure> for Interruption {
    ghost from_gives = { λ failure interruption. interruption.failure ≡ failure };

    fn from(failure: LogFailure) -> Self {
        Interruption { failure, lines: 0 }
    }
}
