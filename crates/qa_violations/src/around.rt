//! What stands around a trace's end: the rows of the last good lines before it is refused or cannot
//! be read, each with the state of the machine behind it.

mod latest;
mod manner;
mod objects;
mod resting;
mod row;
mod trace;

pub use latest::Latest;
pub use manner::Manner;
pub use objects::LatestObjects;
pub use resting::header_allowed;
pub use trace::why_around;
