//! In which form a trace is told of.

/// In which form it is told why a trace is refused.
#[derive(Clone, Copy)]
pub enum Form {
    /// Lines of text, for people.
    Text,
    /// A JSON object on one line, for programs.
    Json,
}
