//! How strong the RFC is.
ghost use Rattle.std.specs.Prelude.{◌≡◌};
ghost use Rattle.qa_explain.specs.text.Sources as text;

/// How strong the RFC is in what a rule says: by its keyword, or by where it stands.
#[derive(Clone, Copy)]
pub(crate) enum Level {
    /// MUST.
    Must,
    /// MUST NOT.
    MustNot,
    /// SHOULD.
    Should,
    /// The text describes it, with no keyword.
    Described,
    /// Only the pseudocode of an appendix has it, which is an example.
    Example,
    /// The RFC does not have it: it is a rule of the trace format.
    Format,
}

impl Level {
    ghost use Rattle.std.specs.Prelude.{◌≡◌};
    ghost use Rattle.qa_explain.specs.text.Sources as text;

    /// What programs call it: a MUST NOT is a MUST.
    pub(crate) fn name(self) -> &'static str
        ensures { result.now ≡ text.name_of self }
    {
        match self {
            Level::Must | Level::MustNot => "MUST",
            Level::Should => "SHOULD",
            Level::Described => "described",
            Level::Example => "example",
            Level::Format => "format",
        }
    }

    /// What follows the section in a line.
    pub(crate) fn words(self) -> &'static str
        ensures { result.now ≡ text.words_of self }
    {
        match self {
            Level::Must => ", MUST: ",
            Level::MustNot => ", MUST NOT: ",
            Level::Should => ", SHOULD: ",
            Level::Described => ", described: ",
            Level::Example => ", example: ",
            Level::Format => ": ",
        }
    }
}
