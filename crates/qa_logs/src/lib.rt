//! A qlog as a trace: its bytes come in parts, as often as the log has to be read.
#![tactic(auto)]

ghost use Rattle.std.specs.Prelude.{IfOk, List, ℕ};
ghost use Rattle.qa_logs.specs.declared.cutting.Wants.{Wants as Wish};

mod choosing;
mod cutting;
mod fault;
mod files;
mod law;
mod log;
mod naming;
mod opening;
mod surveying;
mod tracing;
mod unread;

pub use choosing::Request;
pub use cutting::Wants;
pub use fault::LogFault;
pub use files::is_log;
pub use law::{readings_take_what_the_log_has, readings_take_whole_logs};
pub use log::Log;
pub use opening::Opening;
pub use surveying::Surveying;
pub use tracing::Trace;

/// One reading of a log, part after part.
pub trait Reading {
    // What it is before and after a part, and whether it needs more of them.
    ghost feeds: { Self → List ℕ → Wish → Self → Type 0 };

    /// Takes the next part of the log, and says whether it needs more of them. After an error it
    /// takes nothing.
    fn feed(&mut self, part: &[u8]) -> Result<Wants, LogFault>
        ensures { IfOk result (λ wants. feeds self.old part.now wants self.new) };
}
