//! The small choices that a line of a trace names by a string.
ghost use Rattle.std.specs.Prelude.{◌≡◌};
ghost use Rattle.qa_base.specs.values.Names.{role_name, role_named, unit_name, unit_named};
ghost use Rattle.qa_base.specs.values.Names.{controller_name, controller_named};
ghost use Rattle.qa_base.specs.values.Names.{loss_by_number_name, loss_by_number_named, space_name};
ghost use Rattle.qa_base.specs.values.Names.{threshold_counts_name, threshold_counts_named};
ghost use Rattle.qa_base.specs.values.Names.{space_named, permission_name, permission_named};
ghost use Rattle.qa_base.specs.values.Names.{kind_name, kind_named};

/// Which end of the connection the audited sender is.
#[derive(Clone, Copy, PartialEq, Eq)]
pub enum Role {
    Client,
    Server,
}

impl Role {
    /// The role of this name: `client` or `server`; None for any other string.
    pub fn named(text: &str) -> Option<Role>
        ensures { result ≡ role_named text.now }
    {
        match text {
            "client" => Some(Role::Client),
            "server" => Some(Role::Server),
            _ => None,
        }
    }

    /// The role's name, which `named` reads.
    pub fn name(self) -> &'static str
        ensures { result.now ≡ role_name self }
    {
        match self {
            Role::Client => "client",
            Role::Server => "server",
        }
    }
}

/// In what the times of a trace are.
#[derive(Clone, Copy, PartialEq, Eq)]
pub enum TimeUnit {
    Microseconds,
    Nanoseconds,
}

impl TimeUnit {
    ghost use Rattle.std.specs.Prelude.{◌≤◌};
    ghost use Rattle.qa_base.specs.values.Settings.{in_unit, per_microsecond as per_microsecond_of};

    /// The unit of this name: `us` or `ns`; None for any other string.
    pub fn named(text: &str) -> Option<TimeUnit>
        ensures { result ≡ unit_named text.now }
    {
        match text {
            "us" => Some(TimeUnit::Microseconds),
            "ns" => Some(TimeUnit::Nanoseconds),
            _ => None,
        }
    }

    /// The unit's name, which `named` reads.
    pub fn name(self) -> &'static str
        ensures { result.now ≡ unit_name self }
    {
        match self {
            TimeUnit::Microseconds => "us",
            TimeUnit::Nanoseconds => "ns",
        }
    }

    /// How many of the unit are a microsecond, 1 or 1000.
    pub fn per_microsecond(self) -> u64
        ensures value { result ≡ per_microsecond_of self }
        ensures some { 1 ≤ result }
        ensures few { result ≤ 1000 }
    {
        match self {
            TimeUnit::Microseconds => 1,
            TimeUnit::Nanoseconds => 1000,
        }
    }

    /// So many microseconds, in this unit.
    pub fn of_microseconds(self, microseconds: u64) -> u128
        ensures { result ≡ in_unit self microseconds }
    {
        u128::from(self.per_microsecond()) * u128::from(microseconds)
    }
}

/// By whose congestion window packets are judged.
#[derive(Clone, Copy, PartialEq, Eq)]
pub enum Controller {
    /// That of NewReno (RFC 9002, section 7 and appendix B).
    NewReno,
    /// The one that the sender last reported, whatever its controller.
    Reported,
}

impl Controller {
    ghost use Rattle.qa_base.specs.values.Settings.{is_reported as is_reported_of};

    /// The controller of this name: `newreno` or `reported`; None for any other string.
    pub fn named(text: &str) -> Option<Controller>
        ensures { result ≡ controller_named text.now }
    {
        match text {
            "newreno" => Some(Controller::NewReno),
            "reported" => Some(Controller::Reported),
            _ => None,
        }
    }

    /// The controller's name, which `named` reads.
    pub fn name(self) -> &'static str
        ensures { result.now ≡ controller_name self }
    {
        match self {
            Controller::NewReno => "newreno",
            Controller::Reported => "reported",
        }
    }

    /// Whether the window is the one that the sender reports.
    pub fn is_reported(self) -> bool
        ensures { result ≡ is_reported_of self }
    {
        self == Controller::Reported
    }
}

/// What becomes of a packet that lies the packet threshold or more behind the largest acknowledged
/// one (RFC 9002, section 6.1.1).
#[derive(Clone, Copy, PartialEq, Eq)]
pub enum LossByNumber {
    /// It is lost.
    Must,
    /// The sender declares it lost or spares it, as one does whose threshold adapts.
    May,
}

impl LossByNumber {
    ghost use Rattle.qa_base.specs.values.Settings.{is_may as is_may_of};

    /// The choice of this name: `must` or `may`; None for any other string.
    pub fn named(text: &str) -> Option<LossByNumber>
        ensures { result ≡ loss_by_number_named text.now }
    {
        match text {
            "must" => Some(LossByNumber::Must),
            "may" => Some(LossByNumber::May),
            _ => None,
        }
    }

    /// The choice's name, which `named` reads.
    pub fn name(self) -> &'static str
        ensures { result.now ≡ loss_by_number_name self }
    {
        match self {
            LossByNumber::Must => "must",
            LossByNumber::May => "may",
        }
    }

    /// Whether such a packet may be spared.
    pub fn is_may(self) -> bool
        ensures { result ≡ is_may_of self }
    {
        self == LossByNumber::May
    }
}

/// By what a packet lies behind the largest acknowledged one, for the packet threshold (RFC 9002,
/// section 6.1.1).
#[derive(Clone, Copy, PartialEq, Eq)]
pub enum ThresholdCounts {
    /// By the difference of their packet numbers (A.10).
    Numbers,
    /// By how many packets were sent: numbers that the sender skipped do not count.
    Packets,
}

impl ThresholdCounts {
    ghost use Rattle.qa_base.specs.values.Settings.{counts_packets as counts_packets_of};

    /// The count of this name: `numbers` or `packets`; None for any other string.
    pub fn named(text: &str) -> Option<ThresholdCounts>
        ensures { result ≡ threshold_counts_named text.now }
    {
        match text {
            "numbers" => Some(ThresholdCounts::Numbers),
            "packets" => Some(ThresholdCounts::Packets),
            _ => None,
        }
    }

    /// The count's name, which `named` reads.
    pub fn name(self) -> &'static str
        ensures { result.now ≡ threshold_counts_name self }
    {
        match self {
            ThresholdCounts::Numbers => "numbers",
            ThresholdCounts::Packets => "packets",
        }
    }

    /// Whether packets are counted.
    pub fn counts_packets(self) -> bool
        ensures { result ≡ counts_packets_of self }
    {
        self == ThresholdCounts::Packets
    }
}

/// A packet number space (RFC 9002, section 4.1), in the order in which equal deadlines are taken.
#[derive(Clone, Copy, PartialEq, Eq, PartialOrd, Ord)]
pub enum Space {
    Initial,
    Handshake,
    App,
}

impl Space {
    /// The space of this name: `initial`, `handshake` or `app`; None for any other string.
    pub fn named(text: &str) -> Option<Space>
        ensures { result ≡ space_named text.now }
    {
        match text {
            "initial" => Some(Space::Initial),
            "handshake" => Some(Space::Handshake),
            "app" => Some(Space::App),
            _ => None,
        }
    }

    /// The space's name, which `named` reads.
    pub fn name(self) -> &'static str
        ensures { result.now ≡ space_name self }
    {
        match self {
            Space::Initial => "initial",
            Space::Handshake => "handshake",
            Space::App => "app",
        }
    }
}

/// By whose leave an in-flight packet goes out: the congestion window's (RFC 9002, section 7), a
/// probe timeout's (6.2.4), or that of the one packet on entering recovery (7.3.2).
#[derive(Clone, Copy, PartialEq, Eq)]
pub enum Permission {
    Window,
    Probe,
    Recovery,
}

impl Permission {
    /// The mark of this name: `window`, `probe` or `recovery`; None for any other string.
    pub fn named(text: &str) -> Option<Permission>
        ensures { result ≡ permission_named text.now }
    {
        match text {
            "window" => Some(Permission::Window),
            "probe" => Some(Permission::Probe),
            "recovery" => Some(Permission::Recovery),
            _ => None,
        }
    }

    /// The mark's name, which `named` reads.
    pub fn name(self) -> &'static str
        ensures { result.now ≡ permission_name self }
    {
        match self {
            Permission::Window => "window",
            Permission::Probe => "probe",
            Permission::Recovery => "recovery",
        }
    }
}

/// What the loss detection timer fires for (RFC 9002, A.8): a packet old enough to be lost, or a
/// probe timeout.
#[derive(Clone, Copy, PartialEq, Eq)]
pub enum TimerKind {
    Loss,
    Pto,
}

impl TimerKind {
    /// The kind of this name: `loss` or `pto`; None for any other string.
    pub fn named(text: &str) -> Option<TimerKind>
        ensures { result ≡ kind_named text.now }
    {
        match text {
            "loss" => Some(TimerKind::Loss),
            "pto" => Some(TimerKind::Pto),
            _ => None,
        }
    }

    /// The kind's name, which `named` reads.
    pub fn name(self) -> &'static str
        ensures { result.now ≡ kind_name self }
    {
        match self {
            TimerKind::Loss => "loss",
            TimerKind::Pto => "pto",
        }
    }
}
