//! Events that break sender rules, admitted all the same.
use crate::running::Running;
use qa_base::{Event, Rule};
use qa_ledger::{LedgerFault, Tolerates, first_untolerated, violations};
use std::alloc::{AllocError, Global};

impl Tolerates for Running {
    /// Admits an event that fits, where it breaks no rule after those that were admitted but rules
    /// of conduct.
    fn tolerate(&mut self, event: &Event) -> Result<(), LedgerFault> {
        if self.failed {
            return Err(LedgerFault::OutOfMemory);
        }
        if let Some(rule) = first_untolerated(self, event) {
            return Err(LedgerFault::Broken(rule));
        }
        match self.follow(event) {
            Ok(()) => Ok(()),
            Err(_) => Err(LedgerFault::OutOfMemory),
        }
    }

    /// All rules that the event breaks after those that were admitted.
    fn violations(&self, alloc: Global, event: &Event) -> Result<Vec<Rule>, AllocError> {
        violations(alloc, self, event)
    }
}
