//! Why a line was not read.
ghost use Rattle.std.specs.Prelude.{◌≡◌};
ghost use Rattle.qa_read.specs.declared.fault.LineFault.TheVariants as errors;

use qa_format::Fault;
use std::alloc::AllocError;
use thiserror::Error;

/// Why a line was not read.
#[derive(Clone, Copy, Debug, PartialEq, Eq, Error)]
pub enum LineFault {
    /// The line has this fault, F1 to F6, F9 or F10.
    #[error("{0}")]
    Fault(Fault),
    /// Out of memory.
    #[error("out of memory")]
    OutOfMemory,
}

impl From<Fault> for LineFault {
    ghost from_gives = { λ fault result. result ≡ errors.Fault fault };

    fn from(fault: Fault) -> LineFault {
        LineFault::Fault(fault)
    }
}

impl From<AllocError> for LineFault {
    ghost from_gives = { λ _ result. result ≡ errors.OutOfMemory };

    fn from(_refused: AllocError) -> LineFault {
        LineFault::OutOfMemory
    }
}
