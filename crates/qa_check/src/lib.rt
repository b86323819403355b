//! From a reader of bytes to a report on a writer: the audit of a trace, and its explanation, over
//! any ledger.
#![tactic(auto)]

mod auditing;
mod auditor;
mod checker;
mod explaining;
mod judges;
mod names;
mod rows;
mod streams;
mod taking;
mod text;
mod visitor;
mod walking;

pub use auditing::{AuditFault, Outcome, audit, memory_or_read, write_whole};
pub use auditor::{Auditor, Progress};
pub use checker::{Checker, Stop};
pub use explaining::explain;
pub use judges::Judge;
pub use names::{escaped, is_hidden, shown_name};
pub use qa_base::{LineKind, Totals};
pub use qa_format::{Fault, Line, Verdict};
pub use rows::{RowForm, write_rows};
pub use streams::{Metered, Sink, Source};
pub use taking::LastLine;
pub use text::{report, verdict_line};
pub use visitor::{Both, Unvisited, Visitor};
pub use walking::{Ended, WalkFault, walk};
