//! What was sent, and leave to send.
ghost use Rattle.std.specs.Prelude.{◌≡◌, ◌+◌, ◌++◌, OnOk, string_bytes};
ghost use Rattle.qa_explain.specs.text.Sending as text;

use crate::text::pieces::{push_name, push_number, push_wide, push_words};
use qa_base::{Event, PacketNumber, Space};
use std::alloc::AllocError;

/// The bytes of the packet that the event sends.
pub fn size_of(event: &Event) -> u64
    ensures { result ≡ text.size_of event.now }
{
    match event {
        Event::Sent(packet) => packet.size,
        _ => 0,
    }
}

/// The name of the space of a packet or an acknowledgment.
fn space_of(event: &Event) -> &'static str
    ensures { result.now ≡ text.space_of event.now }
{
    match event {
        Event::Sent(packet) => packet.space.name(),
        Event::Ack(ack) => ack.space.name(),
        _ => "",
    }
}

/// V6: the greatest number that was sent in the space of a packet.
pub fn push_greatest(
    out: &mut String,
    event: &Event,
    greatest: Option<PacketNumber>,
) -> Result<(), AllocError>
    ensures { OnOk result (string_bytes out.new
        ≡ string_bytes out.old ++ text.greatest_text event.now greatest) }
{
    match greatest {
        None => Ok(()),
        Some(number) => {
            push_name(out, "  greatest sent: ", space_of(event))?;
            push_number(out, " ", number.get())?;
            push_words(out, "\n")
        }
    }
}

/// V10: a number that was never sent.
pub fn push_unsent(
    out: &mut String,
    event: &Event,
    unsent: Option<PacketNumber>,
) -> Result<(), AllocError>
    ensures { OnOk result (string_bytes out.new
        ≡ string_bytes out.old ++ text.unsent_text event.now unsent) }
{
    match unsent {
        None => Ok(()),
        Some(number) => {
            push_name(out, "  ", space_of(event))?;
            push_number(out, " ", number.get())?;
            push_words(out, " was never sent\n")
        }
    }
}

fn overshoot_text(overshoot: bool) -> &'static str
    ensures { result.now ≡ text.overshoot_text overshoot }
{
    if overshoot {
        ", which the last packet may overshoot\n"
    } else {
        "\n"
    }
}

#[tactic(auto, unfolding(crate::specs::text::Sending::window_line))]
fn push_window_line(
    out: &mut String,
    in_flight: u64,
    size: u64,
    window: u64,
    overshoot: bool,
) -> Result<(), AllocError>
    ensures { OnOk result (string_bytes out.new
        ≡ string_bytes out.old ++ text.window_line in_flight size (in_flight + size) window
        overshoot) }
{
    let sum = u128::from(in_flight) + u128::from(size);
    push_number(out, "  in flight ", in_flight)?;
    push_number(out, " + ", size)?;
    push_wide(out, " = ", sum)?;
    push_number(out, ", window ", window)?;
    push_words(out, overshoot_text(overshoot))
}

/// V7: the bytes in flight with the packet, and the window (RFC 9002, section 7).
pub fn push_window(
    out: &mut String,
    event: &Event,
    in_flight: u64,
    window: u64,
    overshoot: bool,
) -> Result<(), AllocError>
    ensures { OnOk result (string_bytes out.new
        ≡ string_bytes out.old ++ text.window_text event.now in_flight window overshoot) }
{
    push_window_line(out, in_flight, size_of(event), window, overshoot)
}

#[tactic(auto, unfolding(crate::specs::text::Sending::allowance_line))]
fn push_allowance(
    out: &mut String,
    allowance: u64,
    spent: u128,
    size: u64,
) -> Result<(), AllocError>
    ensures { OnOk result (string_bytes out.new
        ≡ string_bytes out.old ++ text.allowance_line allowance spent size) }
{
    push_number(out, "  allowed ", allowance)?;
    push_wide(out, " since the last probe timeout, spent ", spent)?;
    push_number(out, ", this packet ", size)?;
    push_words(out, "\n")
}

/// V8: what a probe timeout allows, and what of it was spent (RFC 9002, section 6.2.4).
pub fn push_probe(
    out: &mut String,
    event: &Event,
    allowance: u64,
    spent: Option<u128>,
) -> Result<(), AllocError>
    ensures { OnOk result (string_bytes out.new
        ≡ string_bytes out.old ++ text.probe_text event.now allowance spent) }
{
    match spent {
        None => push_words(out, "  no probe timeout yet\n"),
        Some(spent) => push_allowance(out, allowance, spent, size_of(event)),
    }
}

#[tactic(auto, unfolding(crate::specs::text::Sending::recovery_line))]
fn push_recovery_line(out: &mut String, spent: u64) -> Result<(), AllocError>
    ensures { OnOk result (string_bytes out.new
        ≡ string_bytes out.old ++ text.recovery_line spent) }
{
    push_number(
        out,
        "  packets by leave of recovery since the last entry: ",
        spent,
    )?;
    push_words(out, "\n")
}

/// V9: the packets by leave of recovery (RFC 9002, section 7.3.2).
pub fn push_recovery(out: &mut String, spent: Option<u64>) -> Result<(), AllocError>
    ensures { OnOk result (string_bytes out.new
        ≡ string_bytes out.old ++ text.recovery_text spent) }
{
    match spent {
        None => push_words(out, "  no entry into recovery yet\n"),
        Some(spent) => push_recovery_line(out, spent),
    }
}

#[tactic(auto, unfolding(crate::specs::text::Sending::due_probe_line))]
fn push_due_probe_line(out: &mut String, space: &str) -> Result<(), AllocError>
    ensures { OnOk result (string_bytes out.new
        ≡ string_bytes out.old ++ text.due_probe_line space.now) }
{
    push_name(
        out,
        "  no ack-eliciting packet followed the probe timeout of ",
        space,
    )?;
    push_words(out, "\n")
}

/// V14: the space of the probe timeout whose probe is due (RFC 9002, section 6.2.4).
pub fn push_due_probe(out: &mut String, space: Option<Space>) -> Result<(), AllocError>
    ensures { OnOk result (string_bytes out.new
        ≡ string_bytes out.old ++ text.due_probe_text space) }
{
    match space {
        None => Ok(()),
        Some(space) => push_due_probe_line(out, space.name()),
    }
}
