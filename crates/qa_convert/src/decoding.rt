//! The delay of an acknowledgment, by what the log says of it.
ghost use Rattle.std.specs.Prelude.{◌≡◌, ◌≤◌, ◌^◌};
ghost use Rattle.qa_convert.specs.AckDelays as delays;
ghost use Rattle.qa_convert.specs.Outputs.{in_unit};

use crate::dialects::Limited;
use crate::output::in_unit_of;
use crate::packet::LoggedAck;
use qa_base::{PerSpace, Space, TimeUnit};

/// The largest `ack_delay_exponent` (RFC 9000, section 18.2).
const MAX_EXPONENT: u64 = 20;

/// By what the ACK frames of a log are read: how their delays are decoded, the unit in which the
/// trace has them, and how it is known that the window was not used.
#[derive(Clone, Copy)]
pub(crate) struct Decoding {
    /// In which spaces the sender subtracts the peer's delay.
    pub(crate) subtracts: PerSpace<bool>,
    /// Whether a delay is as on the wire, not yet multiplied.
    pub(crate) is_encoded: bool,
    /// The exponent by which the peer encodes it.
    pub(crate) exponent: u64,
    /// The unit of the trace.
    pub(crate) unit: TimeUnit,
    /// Whether times are cut to whole milliseconds, so that reports may show another delay.
    pub(crate) has_cut_times: bool,
    /// How it is known that the sender had not used its window.
    pub(crate) limited: Limited,
    /// Whether the sender is limited by its program, by the last state.
    pub(crate) is_limited: bool,
}

impl Decoding {
    /// The delay of an ACK frame, in nanoseconds.
    pub(crate) fn delay(self, space: Space, ack: &LoggedAck) -> u64
        ensures { result ≡ delays.decoded self space ack.now }
    {
        if !*self.subtracts.of(space) {
            return 0;
        }
        if self.is_encoded {
            return shifted(ack.delay, self.exponent);
        }
        ack.delay
    }

    /// A delay as the trace has it, rounded down.
    pub(crate) fn in_unit(self, nanoseconds: u64) -> u64
        ensures { result ≡ in_unit self.unit nanoseconds }
    {
        in_unit_of(self.unit, nanoseconds)
    }
}

/// A delay that is as on the wire, multiplied as the exponent says.
fn shifted(delay: u64, exponent: u64) -> u64
    ensures { result ≡ delays.shifted exponent delay }
{
    delay.saturating_mul(power(exponent.min(MAX_EXPONENT)))
}

/// Two to the power of an exponent.
#[tactic(auto, using(crate::proofs::Power::power_is))]
fn power(exponent: u64) -> u64
    requires { exponent ≤ 20 }
    ensures { result ≡ 2 ^ exponent }
{
    1 << exponent
}
