//! The stacks whose logs are known, and the texts by which these are.
ghost use Rattle.std.specs.Prelude.{◌≡◌};
ghost use Rattle.qa_convert.specs.Stacks.{stack_advice, stack_mark, stack_name, stack_schema};

/// Who writes a kind of log.
#[derive(Clone, Copy, PartialEq, Eq)]
pub enum Stack {
    /// quic-go 0.29.
    QuicGo,
    /// quic-go 0.50.
    QuicGo050,
    /// quic-go 0.59.
    QuicGo059,
    /// ngtcp2 0.12.
    Ngtcp2,
    /// aioquic 1.2.
    Aioquic,
    /// OpenSSL 3.6.
    OpenSsl,
    /// neqo, as Firefox 153 runs it.
    Neqo,
    /// Chromium 156.
    Chromium,
    /// quinn.
    Quinn,
    /// quiche.
    Quiche,
    /// mvfst.
    Mvfst,
    /// Any other.
    Generic,
}

impl Stack {
    /// Its name.
    pub fn name(self) -> &'static str
        ensures { result.now ≡ stack_name self }
    {
        match self {
            Stack::QuicGo => "quic-go",
            Stack::QuicGo050 => "quic-go-0.50",
            Stack::QuicGo059 => "quic-go-0.59",
            Stack::Ngtcp2 => "ngtcp2",
            Stack::Aioquic => "aioquic",
            Stack::OpenSsl => "openssl",
            Stack::Neqo => "neqo",
            Stack::Chromium => "chromium",
            Stack::Quinn => "quinn",
            Stack::Quiche => "quiche",
            Stack::Mvfst => "mvfst",
            Stack::Generic => "generic",
        }
    }

    /// A log is of this stack if its title or the name of its vantage point has this.
    pub fn mark(self) -> &'static str
        ensures { result.now ≡ stack_mark self }
    {
        match self {
            Stack::QuicGo | Stack::QuicGo050 | Stack::QuicGo059 => "quic-go",
            Stack::Ngtcp2 => "ngtcp2",
            Stack::Aioquic => "aioquic",
            Stack::OpenSsl => "openssl/",
            Stack::Neqo => "neqo",
            Stack::Chromium => "netlog of chromium",
            Stack::Quinn => "quinn",
            Stack::Quiche => "quiche",
            Stack::Mvfst => "mvfst",
            Stack::Generic => "",
        }
    }

    /// If several have the same mark, the version or schema of its logs begins with this.
    pub fn schema(self) -> &'static str
        ensures { result.now ≡ stack_schema self }
    {
        match self {
            Stack::QuicGo => "draft",
            Stack::QuicGo050 => "0.",
            Stack::QuicGo059 => "urn:",
            _ => "",
        }
    }

    /// What to do if its logs give no trace.
    pub fn advice(self) -> &'static str
        ensures { result.now ≡ stack_advice self }
    {
        match self {
            Stack::Quinn => {
                "quinn logs none; hooks in its recovery code give a trace (docs/stacks.md)"
            }
            _ => "",
        }
    }
}
