//! What the loss detection timer is set for.
ghost use Rattle.std.specs.Prelude.{◌≡◌, ◌≤◌, ◌+◌, ◌*◌, ◌^◌, min};
ghost use Rattle.qa_base.specs.declared.space.TimerKind.TheVariants as kinds;
ghost use Rattle.qa_base.specs.machine.Timer as timers;
ghost use Rattle.qa_base.specs.values.Limits.{max_time};

use crate::number::Ticks;
use crate::space::{Space, TimerKind};
use std::marker::Model;

/// What the loss detection timer is set for (RFC 9002, A.8).
#[derive(Clone, Copy, PartialEq, Eq)]
pub struct Due {
    /// A packet old enough to be lost, or a probe timeout.
    pub kind: TimerKind,
    /// The packet number space that it is for.
    pub space: Space,
    /// When, in the unit of times. It can lie beyond every time of a trace: a probe timeout's
    /// duration is doubled for each before it.
    pub time: u128,
}

impl Model for Due {
    ghost use Rattle.qa_base.specs.machine.Timer.{Due as Shown};

    ghost Value = { Shown };

    ghost view = { λ d. record { kind = d.kind; space = d.space; time = d.time } };

    ghost inverse = { λ d. record { kind = d.kind; space = d.space; time = d.time } };
}

impl Due {
    /// A probe timeout of the space: so long after a time, and doubled for each probe
    /// timeout before it (RFC 9002, section 6.2.1).
    ///
    /// Asks for a timeout of at most six times the greatest time. More than 40 doublings count as
    /// 40; no run has more.
    pub fn probe_timeout(space: Space, since: Ticks, timeout: u64, pto_count: u64) -> Due
        requires timeout { timeout ≤ 6 * max_time }
        ensures { result ≡ record {
          kind = kinds.Pto;
          space = space;
          time = since + timeout * 2 ^ min pto_count 40;
        } }
    {
        Due {
            kind: TimerKind::Pto,
            space,
            time: u128::from(since.get()) + doubled(timeout, pto_count),
        }
    }

    /// The earlier of the two; of equal times the first.
    pub fn earlier(due: Option<Due>, other: Option<Due>) -> Option<Due>
        ensures { result ≡ timers.earlier due other }
    {
        match (due, other) {
            (None, _) => other,
            (Some(first), Some(second)) if second.time < first.time => other,
            _ => due,
        }
    }

    /// Whether the timer is set by both, for the same cause, space and time.
    pub fn is_same(due: Option<Due>, other: Option<Due>) -> bool
        ensures { result ≡ timers.is_same_due due other }
    {
        match (due, other) {
            (Some(due), Some(other)) => due == other,
            _ => false,
        }
    }
}

/// The most doublings of a probe timeout. No run has more.
const MAX_DOUBLINGS: u64 = 40;

/// Two to the power of the PTO count.
#[tactic(auto, using(crate::proofs::machine::Powers::power_is, crate::proofs::machine::Powers::power_small))]
fn power(count: u64) -> u128
    requires count { count ≤ 40 }
    ensures value { result ≡ 2 ^ count }
    ensures bound { result ≤ 2 ^ 40 }
{
    1 << count
}

/// A duration, doubled for each probe timeout.
#[tactic(auto, using(crate::proofs::machine::Powers::product_small))]
fn doubled(timeout: u64, count: u64) -> u128
    requires timeout { timeout ≤ 6 * max_time }
    ensures value { result ≡ timeout * 2 ^ min count 40 }
    ensures bound { result ≤ 6 * max_time * 2 ^ 40 }
{
    u128::from(timeout) * power(count.min(MAX_DOUBLINGS))
}
