//! What a ledger is, which holds the state of the machine of RFC 9002 while events come one after
//! another; the rules by which it judges them, and why an event breaks one.
#![tactic(auto)]

mod causes;
mod ledger;
mod metrics;
mod rules;
mod state;
mod tolerates;
mod untolerated;
mod violating;

pub use causes::{
    Basis, Cause, Comparison, Counted, Explains, Facts, Free, Oldest, Owed, Ranges, cause_of,
    owed_of,
};
pub use ledger::{Ledger, LedgerFault};
pub use metrics::Quantities;
pub use rules::{first_broken, other_window};
pub use state::State;
pub use tolerates::Tolerates;
pub use untolerated::first_untolerated;
pub use violating::violations;
