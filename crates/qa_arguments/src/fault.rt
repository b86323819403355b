//! Why arguments ask for nothing.
use std::alloc::AllocError;
use thiserror::Error;

/// Why it is not known what arguments ask for.
#[derive(Clone, Copy, Debug, PartialEq, Eq, Error)]
pub enum ArgumentsFault {
    /// They ask for nothing, or one of them is not UTF-8.
    #[error("arguments refused")]
    Refused,
    #[error("out of memory")]
    OutOfMemory,
}

impl From<AllocError> for ArgumentsFault {
    ghost use Rattle.std.specs.Prelude.{◌≡◌};
    ghost use Rattle.qa_arguments.specs.declared.fault.ArgumentsFault.TheVariants as faults;

    ghost from_gives = { λ _ fault. fault ≡ faults.OutOfMemory };

    fn from(_refused: AllocError) -> Self {
        ArgumentsFault::OutOfMemory
    }
}
