//! The round-trip time, by its samples (RFC 9002, section 5).
ghost use Rattle.std.specs.Prelude.{◌≡◌, ℕ, reverse};
ghost use Rattle.std.specs.List.{list_any};
ghost use Rattle.qa_base.specs.machine.Rtt as estimates;
ghost use Rattle.qa_sender.specs.connection.Steps as steps;

use qa_base::{Header, PacketNumber, Ticks};
use qa_recovery::Rtt;
use qa_sent_packets::SentPacket;

/// The estimate before the first sample.
pub(crate) fn start(header: &Header) -> Rtt
    ensures { result ≡ estimates.start header.now.initial_rtt }
{
    Rtt::start(Ticks::of(header.initial_rtt()))
}

/// When the last packet of this number was sent.
fn sent_at(packets: &[SentPacket], number: PacketNumber) -> Option<Ticks>
    ensures { result ≡ steps.sent_at number packets.now }
{
    let mut sent = None;
    for packet in packets {
        if packet.number == number {
            sent = Some(packet.time);
        }
    }
    sent
}

/// Whether one of the packets is ack-eliciting; where the sender samples no others, the one of this
/// number.
fn some_sampled(packets: &[SentPacket], only: bool, number: PacketNumber) -> bool
    ensures { result ≡ list_any (steps.gives_sample only number) packets.now }
{
    packets.iter().any(|packet| packet.eliciting && (!only || packet.number == number))
}

/// The peer's delay, limited once the handshake is confirmed (RFC 9002, section 5.3).
pub(crate) fn limited_delay(header: &Header, confirmed: bool, delay: u64) -> u64
    ensures { result ≡ steps.limited_delay header.now.max_ack_delay confirmed delay }
{
    if confirmed {
        delay.min(header.max_ack_delay())
    } else {
        delay
    }
}

/// The sample of a packet that was sent then is taken in, where there is one.
pub(crate) fn sample(rtt: &mut Rtt, less_delay: bool, sent: Option<Ticks>, delay: u64, now: Ticks)
    ensures { rtt.new ≡ estimates.updated less_delay rtt.old (steps.sample_at now delay sent) }
{
    if let Some(sent) = sent {
        let latest_rtt = Ticks::of(now.get().saturating_sub(sent.get()));
        rtt.sample(less_delay, latest_rtt, delay, now);
    }
}

/// When the packet was sent of which an acknowledgment gives a sample that newly acknowledges these
/// packets, which stand in the order of sending, and whose largest number is this. It gives one
/// where that number and an ack-eliciting packet are among them (RFC 9002, section 5.1); where the
/// sender samples no others, these are the same.
pub(crate) fn sampled_at(packets: &[SentPacket], number: PacketNumber, only: bool) -> Option<Ticks>
    ensures { (now delay : ℕ) → steps.sample_at now delay result
        ≡ steps.sample_by only now delay number packets.now }
{
    if some_sampled(packets, only, number) {
        sent_at(packets, number)
    } else {
        None
    }
}

/// An event that found losses is taken in, with the event's sample before. Persistent congestion
/// resets the estimate, or else refreshes `min_rtt`, where the header asks for it (RFC 9002,
/// section 5.2).
pub(crate) fn on_persistent_congestion(rtt: &mut Rtt, header: &Header, is_persistent: bool)
    ensures { rtt.new ≡ estimates.after_congestion header.now is_persistent rtt.old }
{
    if !is_persistent {
        return;
    }
    let options = header.options();
    if options.reset_rtt {
        rtt.reset(Ticks::of(header.initial_rtt()));
        return;
    }
    if options.refresh_min_rtt {
        rtt.refresh();
    }
}
