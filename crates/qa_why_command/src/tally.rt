//! How many traces came to which verdict.
ghost use Rattle.std.specs.Prelude.{◌≡◌, IfOk, string_bytes};
ghost use Rattle.qa_why_command.specs.Tally as defined;

use crate::ending::Failure;
use qa_check::Outcome;
use qa_explain::text::{push_number, push_wide, push_words};
use std::alloc::{AllocError, Global};

/// How many traces came to which verdict, and the greatest exit status so far. Counts stay at 2^64
/// - 1.
#[derive(Clone, Copy)]
pub struct Tally {
    pub accepted: u64,
    pub refused: u64,
    pub unreadable: u64,
    pub status: u8,
}

impl Tally {
    /// No trace, and the exit status 0.
    pub fn new() -> Tally
        ensures { result ≡ defined.nothing }
    {
        Tally {
            accepted: 0,
            refused: 0,
            unreadable: 0,
            status: 0,
        }
    }

    /// One trace more, which ended so.
    pub fn count(&mut self, ended: &Result<Outcome, Failure>)
        ensures { self.new ≡ defined.counted self.old ended.now }
    {
        match ended {
            Ok(outcome) => self.add(*outcome),
            Err(Failure::Log) => self.add(Outcome::Unreadable),
            Err(Failure::Open | Failure::Audit(_)) => self.fail(),
        }
    }

    /// One trace more, of this verdict.
    pub fn add(&mut self, outcome: Outcome)
        ensures { self.new ≡ defined.with_outcome self.old outcome }
    {
        match outcome {
            Outcome::Accepted => self.accepted = self.accepted.saturating_add(1),
            Outcome::Refused => {
                self.refused = self.refused.saturating_add(1);
                self.status = self.status.max(1);
            }
            Outcome::Unreadable => {
                self.unreadable = self.unreadable.saturating_add(1);
                self.status = self.status.max(2);
            }
        }
    }

    /// A file or a stream failed.
    pub fn fail(&mut self)
        ensures { self.new ≡ defined.failed self.old }
    {
        self.status = self.status.max(3);
    }

    /// The last line, where there are several traces. `AllocError` comes where it is out of memory.
    #[tactic(auto, unfolding(crate::specs::Tally::tally_line))]
    pub fn line(&self, alloc: Global) -> Result<String, AllocError>
        ensures { IfOk result (λ line. string_bytes line ≡ defined.tally_line self.now) }
    {
        let mut line = String::new(alloc);
        let all = u128::from(self.accepted)
            + u128::from(self.refused)
            + u128::from(self.unreadable);
        push_wide(&mut line, "", all)?;
        push_number(&mut line, " traces: ", self.accepted)?;
        push_number(&mut line, " accepted, ", self.refused)?;
        push_number(&mut line, " refused, ", self.unreadable)?;
        push_words(&mut line, " unreadable\n")?;
        Ok(line)
    }
}
