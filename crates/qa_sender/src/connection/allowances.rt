//! What was sent past the congestion window, of what may be (RFC 9002, sections 6.2.4 and 7.3.2).
ghost use Rattle.std.specs.Prelude.{◌≡◌, ◌+◌, option_map};
ghost use Rattle.qa_sender.specs.connection.Spending as steps;
ghost use Rattle.qa_sender.specs.connection.Steps.{capped};

use qa_base::Permission;

/// What was sent past the congestion window.
#[derive(Clone, Copy)]
pub struct Allowances {
    /// The bytes of probes since the last probe timeout; None without one (RFC 9002, section
    /// 6.2.4).
    pub probe_spent: Option<u64>,
    /// How many recovery packets there were since the last entry into recovery; None without one
    /// (section 7.3.2).
    pub recovery_spent: Option<u64>,
}

impl Allowances {
    /// Before any event.
    pub(crate) fn start() -> Allowances
        ensures { result ≡ steps.unspent }
    {
        Allowances {
            probe_spent: None,
            recovery_spent: None,
        }
    }

    /// A packet of this size went out, in flight, by this leave.
    pub(crate) fn spend(&mut self, permission: Permission, size: u64)
        ensures { self.new ≡ steps.spent permission size self.old }
    {
        match permission {
            Permission::Window => {}
            Permission::Probe => add(&mut self.probe_spent, size),
            Permission::Recovery => add(&mut self.recovery_spent, 1),
        }
    }
}

/// Adds this to what was spent, where that is counted.
fn add(spent: &mut Option<u64>, more: u64)
    ensures { spent.new ≡ option_map (λ n. capped (more + n)) spent.old }
{
    if let Some(before) = *spent {
        *spent = Some(more.saturating_add(before));
    }
}
