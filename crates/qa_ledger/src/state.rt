//! What the rules ask of the events before an event.
ghost use Rattle.std.specs.Prelude.{◌≡◌, ◌≤◌, ◌^◌, List};
ghost use Rattle.std.specs.List.{list_any};
ghost use Rattle.std.specs.Option.{ForSome};
ghost use Rattle.qa_base.specs.declared.event.Event.{Event as AnEvent};
ghost use Rattle.qa_base.specs.machine.Breaches as breaches;
ghost use Rattle.qa_base.specs.machine.Handshake as handshake;
ghost use Rattle.qa_base.specs.machine.Permission as leaves;
ghost use Rattle.qa_base.specs.machine.Loss as loss;
ghost use Rattle.qa_base.specs.machine.Numbers as tests;
ghost use Rattle.qa_base.specs.machine.Packets as packets;
ghost use Rattle.qa_base.specs.machine.Window as windows;
ghost use Rattle.qa_base.specs.machine.State as state;
ghost use Rattle.qa_base.specs.machine.Timer as timers;
ghost use Rattle.qa_base.specs.values.Limits.{max_packet_size};
ghost use Rattle.qa_base.specs.values.Settings.{Settings};

use qa_base::{Due, Header, PacketNumber, Space, Span, Ticks, Totals};

/// The state of the machine after a header and some events, as the rules ask for it. Each answer is
/// what the definitions say of those events, and takes no memory.
///
/// `first_broken` judges an event by it. A ledger that keeps all events answers from them, and one
/// that keeps sums answers by those.
pub trait State {
    // The answers are about this history, the latest event first, under this header.
    ghost tells: { Self → Settings → List AnEvent → Type 0 };

    /// The header's maximum datagram size, 1200 to 65527 bytes.
    fn max_datagram_size(&self) -> u64
        ensures value { (c : Settings) (h : List AnEvent) → tells self.now c h
            → result ≡ c.max_datagram_size }
        ensures bound { result ≤ max_packet_size };

    /// The header: the unit of times, limits and slack, and what the sender chooses.
    fn header(&self) -> Header
        ensures value { (c : Settings) (h : List AnEvent) → tells self.now c h
            → result ≡ c };

    /// The time of the last event; None before any.
    fn last_time(&self) -> Option<Ticks>
        ensures { (c : Settings) (h : List AnEvent) → tells self.now c h
            → result ≡ timers.time_of_moment h };

    /// Whether packets are detected as lost and not declared yet (RFC 9002, section 6.1).
    fn has_owed(&self) -> bool
        ensures { (c : Settings) (h : List AnEvent) → tells self.now c h
            → result ≡ packets.is_some_packet (loss.owed c h) };

    /// Whether there are such packets in the space, or some that the next Lost line may declare
    /// beyond them.
    fn has_nameable_in(&self, space: Space) -> bool
        ensures { (c : Settings) (h : List AnEvent) → tells self.now c h
            → result ≡ list_any (packets.is_of space) (loss.nameable c h) };

    /// Whether the ranges name the numbers of all packets that are detected as lost, and of no
    /// others but those that may be declared beyond them.
    fn names_losses(&self, ranges: &[Span]) -> bool
        ensures { (c : Settings) (h : List AnEvent) → tells self.now c h
            → result ≡ tests.names_between ranges.now (breaches.numbers (loss.owed c h))
            (breaches.numbers (loss.nameable c h)) };

    /// Whether the keys of the space were discarded (RFC 9002, section 6.4).
    fn is_discarded(&self, space: Space) -> bool
        ensures { (c : Settings) (h : List AnEvent) → tells self.now c h
            → result ≡ packets.is_discarded h space };

    /// Whether a packet of the space was sent with this number or a higher one.
    fn has_at_or_above(&self, space: Space, number: PacketNumber) -> bool
        ensures { (c : Settings) (h : List AnEvent) → tells self.now c h
            → result ≡ breaches.has_at_or_above space number h };

    /// Whether each number of the ranges was sent in the space.
    fn were_sent(&self, space: Space, ranges: &[Span]) -> bool
        ensures { (c : Settings) (h : List AnEvent) → tells self.now c h
            → result ≡ tests.has_all (breaches.numbers (packets.packets_of h space)) ranges.now };

    /// The congestion window in bytes (RFC 9002, section 7): NewReno's, or the one that was
    /// reported.
    fn window(&self) -> u64
        ensures { (c : Settings) (h : List AnEvent) → tells self.now c h
            → result ≡ windows.window c h };

    /// The window in bytes that the sender last reported; the header's before any report.
    fn reported_window(&self) -> u64
        ensures { (c : Settings) (h : List AnEvent) → tells self.now c h
            → result ≡ windows.reported_window c h };

    /// The bytes in flight that were newly acknowledged since persistent congestion was last
    /// established; None without it, or where another window was reported since (RFC 9002, section
    /// 7.6.2).
    fn acknowledged_since_collapse(&self) -> Option<u64>
        ensures { (c : Settings) (h : List AnEvent) → tells self.now c h
            → result ≡ windows.acknowledged_since_collapse c h };

    /// The bytes in flight (RFC 9002, B.2).
    fn bytes_in_flight(&self) -> u64
        ensures { (c : Settings) (h : List AnEvent) → tells self.now c h
            → result ≡ loss.bytes_in_flight c h };

    /// The bytes of probes since the last probe timeout; None without one (RFC 9002, section
    /// 6.2.4).
    fn probe_spent(&self) -> Option<u128>
        ensures value { (c : Settings) (h : List AnEvent) → tells self.now c h
            → result ≡ leaves.probe_spent h }
        ensures bound { ForSome result (λ n. n ≤ 2 ^ 100) };

    /// The packets marked for recovery since the last entry into it; None without one (RFC 9002,
    /// section 7.3.2).
    fn recovery_spent(&self) -> Option<u64>
        ensures { (c : Settings) (h : List AnEvent) → tells self.now c h
            → result ≡ leaves.recovery_spent c h };

    /// What the loss detection timer is set for; None where it is not (RFC 9002, A.8).
    fn deadline(&self) -> Option<Due>
        ensures { (c : Settings) (h : List AnEvent) → tells self.now c h
            → result ≡ timers.deadline c h };

    /// Whether the next event, at this time, shows that the timer was too late, by the header's
    /// limit.
    fn is_late(&self, time: Ticks) -> bool
        ensures { (c : Settings) (h : List AnEvent) → tells self.now c h
            → result ≡ breaches.is_late_by c h time c.options.timer_late };

    /// Whether the probe of the last probe timeout is due (RFC 9002, section 6.2.4).
    fn is_probe_due(&self) -> bool
        ensures { (c : Settings) (h : List AnEvent) → tells self.now c h
            → result ≡ leaves.is_probe_due h };

    /// Whether the handshake is confirmed (RFC 9001, section 4.1.2).
    fn is_confirmed(&self) -> bool
        ensures { (c : Settings) (h : List AnEvent) → tells self.now c h
            → result ≡ handshake.is_confirmed h };

    /// The totals, with which a sender's own values are compared.
    fn totals(&self) -> Totals
        ensures { (c : Settings) (h : List AnEvent) → tells self.now c h
            → result ≡ state.totals c h };
}
