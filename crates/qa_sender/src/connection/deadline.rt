//! The deadline of the loss detection timer (RFC 9002, section 6.2, A.8).
ghost use Rattle.std.specs.Prelude.{◌≡◌, ◌≤◌, ◌+◌, ◌*◌, ◌^◌, min, List, None, option_map};
ghost use Rattle.std.specs.Prelude.{if◌then◌else◌};
ghost use Rattle.std.specs.Option.{option_copied, option_or};
ghost use Rattle.qa_base.specs.declared.event.Event.{Event};
ghost use Rattle.qa_base.specs.machine.Packets as packets;
ghost use Rattle.qa_base.specs.machine.Timer as timers;
ghost use Rattle.qa_base.specs.values.Settings.{Settings, granularity};
ghost use Rattle.qa_sender.specs.connection.Deadlines as deadlines;
ghost use Rattle.qa_sender.specs.connection.Deadlines.{AreOpen};
ghost use Rattle.qa_sender.specs.connection.Known.{IsOf, IsProperToleratedRun};
ghost use Rattle.qa_base.specs.values.PerSpace.{of_space};

use crate::connection::connection::Connection;
use crate::connection::spaces::SpaceState;
use qa_base::{Due, Header, PacketNumber, PerSpace, Space, Ticks, TimerKind};
use qa_recovery::Rtt;
use qa_sent_packets::SentPacket;

/// What the timer asks of the open packets of a packet number space.
#[derive(Clone, Copy)]
pub struct OpenInSpace {
    /// Whether one of them is ack-eliciting.
    pub awaits: bool,
    /// The first in the order of sending that is in flight.
    pub oldest: Option<SentPacket>,
}

// ---- losses

/// Whether the number is below the largest that was acknowledged.
fn is_below_largest(number: PacketNumber, largest: Option<PacketNumber>) -> bool
    ensures { result ≡ packets.is_below_largest number largest }
{
    match largest {
        None => false,
        Some(largest) => number < largest,
    }
}

/// When the oldest packet of the space is old, where it is below the largest acknowledged number.
#[inline(always)]
fn loss_due(
    header: &Header,
    rtt: Rtt,
    largest: Option<PacketNumber>,
    space: Space,
    oldest: Option<&SentPacket>,
) -> Option<Due>
    ensures { result
        ≡ deadlines.loss_due header.now rtt largest space (option_copied oldest.entry) }
{
    match oldest {
        Some(packet) if is_below_largest(packet.number, largest) => Some(Due {
            kind: TimerKind::Loss,
            space,
            time: u128::from(packet.time.get() + rtt.loss_delay(header)),
        }),
        _ => None,
    }
}

// ---- probe timeouts

/// When a probe timeout of the space is due, so long after a time, and doubled for each before it.
/// Mostly there was none, and nothing is doubled.
#[inline(always)]
fn pto_time(space: Space, since: Ticks, base: u64, count: u64) -> u128
    requires base { base ≤ 6000000000000000 }
    ensures { result ≡ since + base * 2 ^ min count 40 }
{
    if count == 0 {
        return u128::from(since.get() + base);
    }
    Due::probe_timeout(space, since, base, count).time
}

/// A probe timeout of the space, so long after a time, where there is one.
#[inline(always)]
fn pto_at(space: Space, since: Option<Ticks>, base: u64, count: u64) -> Option<Due>
    requires base { base ≤ 6000000000000000 }
    ensures { result ≡ deadlines.pto_at space since base count }
{
    Some(Due {
        kind: TimerKind::Pto,
        space,
        time: pto_time(space, since?, base, count),
    })
}

/// The probe timeout of the space, where an open packet of it asks for an acknowledgment.
#[inline(always)]
fn pto_due(
    space: Space,
    awaits: bool,
    last_eliciting: Option<Ticks>,
    base: u64,
    count: u64,
) -> Option<Due>
    requires base { base ≤ 6000000000000000 }
    ensures { result ≡ (if awaits then deadlines.pto_at space last_eliciting base count else None) }
{
    if !awaits {
        return None;
    }
    pto_at(space, last_eliciting, base, count)
}

impl Connection {
    /// When the first open packet is old enough to be lost (RFC 9002, section 6.1.2).
    fn earliest_loss(&self, packets: &PerSpace<OpenInSpace>) -> Option<Due>
        ensures { result ≡ deadlines.earliest_loss self.now packets.now }
    {
        let header = &self.header;
        let spaces = &self.spaces;
        Due::earlier(
            loss_due(
                header,
                self.rtt,
                spaces.initial.largest,
                Space::Initial,
                packets.initial.oldest.as_ref(),
            ),
            Due::earlier(
                loss_due(
                    header,
                    self.rtt,
                    spaces.handshake.largest,
                    Space::Handshake,
                    packets.handshake.oldest.as_ref(),
                ),
                loss_due(
                    header,
                    self.rtt,
                    spaces.app.largest,
                    Space::App,
                    packets.app.oldest.as_ref(),
                ),
            ),
        )
    }

    /// The probe timeout of application data, for which the peer may delay its acknowledgments. It
    /// counts once the handshake is confirmed.
    #[inline(always)]
    fn app_pto(&self, awaits: bool) -> Option<Due>
        ensures { result ≡ deadlines.app_pto self.now awaits }
    {
        if !self.handshake.confirmed {
            return None;
        }
        pto_due(
            Space::App,
            awaits,
            self.spaces.app.last_eliciting,
            self.rtt.pto_base(self.header.granularity()) + self.header.max_ack_delay(),
            self.timer.pto_count,
        )
    }

    /// The earliest probe timeout of all spaces (section 6.2.1).
    fn earliest_pto(&self, packets: &PerSpace<OpenInSpace>) -> Option<Due>
        ensures { result ≡ deadlines.earliest_pto self.now packets.now }
    {
        let base = self.rtt.pto_base(self.header.granularity());
        let spaces = &self.spaces;
        Due::earlier(
            pto_due(
                Space::Initial,
                packets.initial.awaits,
                spaces.initial.last_eliciting,
                base,
                self.timer.pto_count,
            ),
            Due::earlier(
                pto_due(
                    Space::Handshake,
                    packets.handshake.awaits,
                    spaces.handshake.last_eliciting,
                    base,
                    self.timer.pto_count,
                ),
                self.app_pto(packets.app.awaits),
            ),
        )
    }

    /// The timer that a client keeps until its address is validated (section 6.2.2.1).
    pub fn anti_deadlock(&self) -> Option<Due>
        ensures { result ≡ deadlines.anti_deadlock self.now }
    {
        if self.handshake.is_validated(self.header.role()) {
            return None;
        }
        let space = if self.handshake.has_keys {
            Space::Handshake
        } else {
            Space::Initial
        };
        pto_at(
            space,
            self.timer.last_set,
            self.rtt.pto_base(self.header.granularity()),
            self.timer.pto_count,
        )
    }

    /// When the oldest packet of a space is old, where it is below the largest acknowledged number
    /// of the space.
    pub fn loss_time(&self, space: Space, oldest: Option<SentPacket>) -> Option<u64>
        ensures { result ≡ option_map (λ d. d.time)
            (deadlines.loss_due self.now.header self.now.rtt
            (of_space space self.now.spaces).largest space oldest) }
    {
        match oldest {
            Some(packet) if is_below_largest(packet.number, self.spaces.of(space).largest) => {
                Some(packet.time.get() + self.rtt.loss_delay(&self.header))
            }
            _ => None,
        }
    }

    /// What the packets of application data set the timer for, where no others are open: whether
    /// one of them is waited for, and the first that is in flight.
    #[inline(always)]
    pub fn app_deadline(&self, awaits: bool, oldest: Option<&SentPacket>) -> Option<Due>
        ensures { result ≡ deadlines.app_deadline self.now
            (record { awaits = awaits; oldest = option_copied oldest.entry }) }
    {
        let largest = self.spaces.app.largest;
        if let Some(due) = loss_due(&self.header, self.rtt, largest, Space::App, oldest) {
            return Some(due);
        }
        self.app_pto(awaits)
    }

    /// What the loss detection timer is set for by the packets that are open: the first of them
    /// that is old enough to be lost, else a probe timeout; None where they do not set it. The
    /// timer that a client keeps until its address is validated is no part of it. `packets` is what
    /// the timer asks of the packets.
    pub fn packet_deadline(&self, packets: &PerSpace<OpenInSpace>) -> Option<Due>
        ensures value { result ≡ deadlines.packet_deadline self.now packets.now }
        ensures meaning { (c : Settings) (h : List Event) → IsOf self.now c h
            → IsProperToleratedRun c h
            → AreOpen packets.now c h → result ≡ timers.packet_deadline c h }
    {
        self.earliest_loss(packets).or(self.earliest_pto(packets))
    }
}
