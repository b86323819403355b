//! The table of violations: how often the events of a trace broke each sender rule, on which lines
//! and by how much.

mod amounts;
mod finding;
mod members;
mod row;
mod table;
mod texts;

pub use amounts::amount;
pub(crate) use amounts::{gap, past_collapse};
pub use finding::Finding;
pub(crate) use members::{push_counts, push_greatest};
pub use row::{Row, is_kind};
pub use table::Table;
pub(crate) use texts::by_words;
pub use texts::unit_of;
