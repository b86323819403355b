//! The kinds of lines.
ghost use Rattle.std.specs.Prelude.{◌≡◌};
ghost use Rattle.qa_base.specs.values.Names.{line_kind_name, line_kind_named};

/// The kinds of lines, by what stands at the key `event`.
#[derive(Clone, Copy, PartialEq, Eq)]
pub enum LineKind {
    Header,
    Sent,
    Ack,
    Lost,
    Timer,
    Discard,
    Confirmed,
    Keys,
    Metrics,
}

impl LineKind {
    /// The kind of this name; None for any other string.
    pub fn named(text: &str) -> Option<LineKind>
        ensures { result ≡ line_kind_named text.now }
    {
        match text {
            "header" => Some(LineKind::Header),
            "sent" => Some(LineKind::Sent),
            "ack" => Some(LineKind::Ack),
            "lost" => Some(LineKind::Lost),
            "timer" => Some(LineKind::Timer),
            "discard" => Some(LineKind::Discard),
            "confirmed" => Some(LineKind::Confirmed),
            "keys" => Some(LineKind::Keys),
            "metrics" => Some(LineKind::Metrics),
            _ => None,
        }
    }

    /// The kind's name, which `named` reads.
    pub fn name(self) -> &'static str
        ensures { result.now ≡ line_kind_name self }
    {
        match self {
            LineKind::Header => "header",
            LineKind::Sent => "sent",
            LineKind::Ack => "ack",
            LineKind::Lost => "lost",
            LineKind::Timer => "timer",
            LineKind::Discard => "discard",
            LineKind::Confirmed => "confirmed",
            LineKind::Keys => "keys",
            LineKind::Metrics => "metrics",
        }
    }
}
