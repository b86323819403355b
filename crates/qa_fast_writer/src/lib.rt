//! The line of an event, written at once: its bytes are appended one after another, while
//! `qa_write` first makes a value of JSON of it. Both are proved to write the same text.
#![tactic(auto)]

mod events;
mod members;
mod texts;

pub use events::push_event;
