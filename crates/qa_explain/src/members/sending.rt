//! What was sent, and leave to send.
ghost use Rattle.std.specs.Prelude.{◌≡◌, ◌++◌, OnOk};
ghost use Rattle.qa_explain.specs.members.Sending as text;

use crate::members::object::Object;
use qa_base::PacketNumber;
use std::alloc::AllocError;

/// A number that may be absent.
fn widened(number: Option<u64>) -> Option<u128>
    ensures { result ≡ number }
{
    match number {
        None => None,
        Some(number) => Some(u128::from(number)),
    }
}

/// Writes a packet number that may be absent.
pub(crate) fn push_packet_number(
    out: &mut Object,
    key: &str,
    number: Option<PacketNumber>,
) -> Result<(), AllocError>
    ensures { OnOk result (out.new ≡ out.old ++ text.packet_number_at key.now number) }
{
    match number {
        None => out.null(key),
        Some(number) => out.number(key, u128::from(number.get())),
    }
}

/// Writes an amount of bytes that may be absent.
pub fn push_bytes(out: &mut Object, key: &str, bytes: Option<u64>) -> Result<(), AllocError>
    ensures { OnOk result (out.new ≡ out.old ++ text.bytes_at key.now bytes) }
{
    out.some_amount(key, "bytes", widened(bytes))
}

/// V7: the bytes in flight, and the window (RFC 9002, section 7).
#[tactic(auto, unfolding(crate::specs::members::Sending::window_facts))]
pub(crate) fn push_window(
    out: &mut Object,
    in_flight: u64,
    window: u64,
    overshoot: bool,
) -> Result<(), AllocError>
    ensures { OnOk result (out.new ≡ out.old ++ text.window_facts in_flight window overshoot) }
{
    out.amount("in_flight", "bytes", u128::from(in_flight))?;
    out.amount("window", "bytes", u128::from(window))?;
    out.flag("window_overshoot", overshoot)
}

/// V8: what a probe timeout allows, and what of it was spent (RFC 9002, section 6.2.4).
#[tactic(auto, unfolding(crate::specs::members::Sending::probe_facts))]
pub(crate) fn push_probe(
    out: &mut Object,
    allowance: u64,
    spent: Option<u128>,
) -> Result<(), AllocError>
    ensures { OnOk result (out.new ≡ out.old ++ text.probe_facts allowance spent) }
{
    out.amount("allowance", "bytes", u128::from(allowance))?;
    out.some_amount("spent", "bytes", spent)
}

/// V9: the packets by leave of recovery since the last entry into it (RFC 9002, section 7.3.2).
pub(crate) fn push_recovery(out: &mut Object, spent: Option<u64>) -> Result<(), AllocError>
    ensures { OnOk result (out.new ≡ out.old ++ text.recovery_facts spent) }
{
    out.some_number("spent_packets", widened(spent))
}
