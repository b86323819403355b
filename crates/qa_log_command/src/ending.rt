//! How the program ends.
ghost use Rattle.std.specs.Prelude.{◌≡◌};
ghost use Rattle.qa_log_command.specs.Ending.{status_of};

/// How the program ends.
#[derive(Clone, Copy, Debug, PartialEq, Eq)]
pub enum Ending {
    /// A whole trace was written, or the help, or the version.
    Written,
    /// The log gives no trace, or none past some line.
    NoTrace,
    /// A file or a stream failed, or it is out of memory.
    Failed,
    /// The arguments are refused.
    Refused,
}

impl Ending {
    /// The exit status: 0 for a trace, 2 if the log gives none, 3 if a file or a stream failed or
    /// memory ran out, and 64 for wrong arguments.
    pub fn status(self) -> u8
        ensures { result ≡ status_of self }
    {
        match self {
            Ending::Written => 0,
            Ending::NoTrace => 2,
            Ending::Failed => 3,
            Ending::Refused => 64,
        }
    }
}
