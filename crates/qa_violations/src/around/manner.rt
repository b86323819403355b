//! How it is told of a trace.
use qa_format::Form;

/// How it is told of a trace.
#[derive(Clone, Copy)]
pub struct Manner {
    /// In which form.
    pub form: Form,
    /// Nothing is to be written of an accepted trace.
    pub quiet: bool,
    /// How many lines before are told of, with the state of the machine behind each.
    pub around: u16,
}
