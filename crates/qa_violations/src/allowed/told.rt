//! What is told of a trace, and whether it is to be told where it is to be quiet.
ghost use Rattle.std.specs.Prelude.{◌≡◌};
ghost use Rattle.qa_violations.specs.allowed.Rests as rests;

use qa_check::Outcome;
use qa_why::{Why, unless_accepted};

/// What is told of a trace.
#[derive(Drop)]
pub(crate) struct Told {
    /// The text, or the members of an object, and the kind of the verdict.
    pub(crate) why: Why,
    /// Nothing was allowed at the events of the trace.
    pub(crate) is_strict: bool,
}

/// The text; where it is to be quiet, nothing of an accepted trace at which nothing was allowed.
pub(crate) fn unless_quiet(quiet: bool, outcome: Outcome, is_strict: bool, text: &[u8]) -> &[u8]
    ensures { result.now ≡ rests.unless_quiet quiet outcome is_strict text.now }
{
    if is_strict {
        return unless_accepted(quiet, outcome, text);
    }
    text
}
