//! What was guessed, and what was left out, counted.
use crate::guess::Guess;
use crate::omission::{Limit, Omission};
use std::alloc::{AllocError, Global};

/// How often something was.
#[derive(Clone, Copy)]
pub(crate) struct Counted<T> {
    pub(crate) what: T,
    pub(crate) count: u64,
}

/// How often each guess was made and each thing left out, in the order in which they came, and what
/// else is told.
#[derive(Drop)]
pub(crate) struct Notes {
    /// Why a refusal may be due to the reading of the log. The header of the trace has it too.
    pub(crate) doubts: Vec<String>,
    /// What the log says of its sender and the trace cannot.
    pub(crate) warnings: Vec<String>,
    /// What the first reading found.
    pub(crate) findings: Vec<String>,
    pub(crate) guesses: Vec<Counted<Guess>>,
    pub(crate) omissions: Vec<Counted<Omission>>,
    pub(crate) limits: Vec<Limit>,
}

impl Notes {
    /// None. Takes no memory.
    pub(crate) fn new(alloc: Global) -> Notes {
        Notes {
            doubts: Vec::new(alloc),
            warnings: Vec::new(alloc),
            findings: Vec::new(alloc),
            guesses: Vec::new(alloc),
            omissions: Vec::new(alloc),
            limits: Vec::new(alloc),
        }
    }

    /// Counts a guess.
    pub(crate) fn guess(&mut self, guess: Guess) -> Result<(), AllocError> {
        for counted in &mut self.guesses {
            if counted.what == guess {
                counted.count = counted.count.saturating_add(1);
                return Ok(());
            }
        }
        self.guesses.push(Counted {
            what: guess,
            count: 1,
        })?;
        Ok(())
    }

    /// Counts what is left out.
    pub(crate) fn omit(&mut self, omission: Omission, count: u64) -> Result<(), AllocError> {
        for counted in &mut self.omissions {
            if counted.what == omission {
                counted.count = counted.count.saturating_add(count);
                return Ok(());
            }
        }
        self.omissions.push(Counted {
            what: omission,
            count,
        })?;
        Ok(())
    }

    /// Notes what no trace can say.
    pub(crate) fn limit(&mut self, limit: Limit) -> Result<(), AllocError> {
        for noted in &self.limits {
            if *noted == limit {
                return Ok(());
            }
        }
        self.limits.push(limit)?;
        Ok(())
    }
}
