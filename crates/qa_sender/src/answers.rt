//! What the rules ask of the events before an event, answered by what is kept.
ghost use Rattle.std.specs.Prelude.{List, ◌≡◌, ◌&&◌};
ghost use Rattle.std.specs.List.{list_any};
ghost use Rattle.qa_base.specs.declared.event.Event.{Event as AnEvent};
ghost use Rattle.qa_base.specs.machine.Timer as timers;
ghost use Rattle.qa_base.specs.machine.Violations.{IsToleratedRun};
ghost use Rattle.qa_base.specs.values.Events.{is_space};
ghost use Rattle.qa_base.specs.values.Settings.{Settings};
ghost use Rattle.qa_sender.specs.connection.Deadlines.{AreOpen, IsOpenIn};
ghost use Rattle.qa_sender.specs.connection.Known.{IsOf, IsProperToleratedRun};
ghost use Rattle.qa_sender.specs.Standing.{StandsFor};
ghost use Rattle.qa_sent_packets.specs.Free.{is_free_by};

use crate::connection::{Connection, OpenInSpace};
use crate::freeing::free_packets;
use crate::running::Running;
use qa_base::{Due, Header, PacketNumber, PerSpace, Space, Span, Ticks, Totals};
use qa_ledger::State;
use qa_sent_packets::{FreePackets, SentPackets};

/// What the timer asks of the open packets of a space.
#[inline(always)]
pub(crate) fn open_in(packets: &SentPackets, space: Space) -> OpenInSpace
    ensures { (c : Settings) (h : List AnEvent) → IsToleratedRun c h → StandsFor packets.now c h
        → IsOpenIn result c h space }
{
    OpenInSpace {
        awaits: packets.awaits(space),
        oldest: packets.first_flying(space),
    }
}

/// What the timer asks of the open packets.
#[inline(always)]
pub(crate) fn open_packets(packets: &SentPackets) -> PerSpace<OpenInSpace>
    ensures { (c : Settings) (h : List AnEvent) → IsToleratedRun c h → StandsFor packets.now c h
        → AreOpen result c h }
{
    PerSpace {
        initial: open_in(packets, Space::Initial),
        handshake: open_in(packets, Space::Handshake),
        app: open_in(packets, Space::App),
    }
}

/// What the packets of all spaces set the timer for. It is a call of its own, since none but
/// application data has packets once the handshake is done.
#[inline(never)]
fn due_by_all(connection: &Connection, packets: &SentPackets) -> Option<Due>
    ensures { (c : Settings) (h : List AnEvent) → IsOf connection.now c h
        → IsProperToleratedRun c h → StandsFor packets.now c h
        → result ≡ timers.packet_deadline c h }
{
    connection.packet_deadline(&open_packets(packets))
}

/// What the packets that are open set the timer for. It is a call of its own, so that nothing of it
/// stands where events are judged under a header with no limit for how late a timer may be. Where
/// the other spaces are idle, only the packets of application data are asked.
#[inline(never)]
pub(crate) fn due_by_packets(connection: &Connection, packets: &SentPackets) -> Option<Due>
    ensures { (c : Settings) (h : List AnEvent) → IsOf connection.now c h
        → IsProperToleratedRun c h → StandsFor packets.now c h
        → result ≡ timers.packet_deadline c h }
{
    if packets.is_idle(Space::Initial) && packets.is_idle(Space::Handshake) {
        let awaits = packets.awaits(Space::App);
        return connection.app_deadline(awaits, packets.first_flying_ref(Space::App));
    }
    due_by_all(connection, packets)
}

/// What the timer is set for, likewise.
#[inline(never)]
pub(crate) fn due_now(connection: &Connection, packets: &SentPackets) -> Option<Due>
    ensures { (c : Settings) (h : List AnEvent) → IsOf connection.now c h
        → IsProperToleratedRun c h → StandsFor packets.now c h
        → result ≡ timers.deadline c h }
{
    due_by_packets(connection, packets).or(connection.anti_deadlock())
}

/// Whether a packet of the space is free.
fn has_free_in(packets: &SentPackets, free: FreePackets, space: Space) -> bool
    ensures { result ≡ (is_space space free.space
        && list_any (is_free_by free) packets.now.packets) }
{
    space == free.space && packets.has_free(free)
}

impl State for Running {
    ghost use Rattle.qa_sender.specs.Running.{Answers};

    ghost tells = { Answers };

    fn header(&self) -> Header {
        self.machine.connection.header
    }

    fn max_datagram_size(&self) -> u64 {
        self.machine.connection.header.max_datagram_size()
    }

    fn last_time(&self) -> Option<Ticks> {
        self.machine.connection.last_time
    }

    fn has_owed(&self) -> bool {
        self.owes_now()
    }

    fn has_nameable_in(&self, space: Space) -> bool {
        let free = free_packets(&self.machine.connection);
        let packets = &self.machine.packets;
        packets.owes_in(space) || has_free_in(packets, free, space)
    }

    fn names_losses(&self, ranges: &[Span]) -> bool {
        let free = free_packets(&self.machine.connection);
        self.machine.packets.names_losses(ranges, free)
    }

    fn is_discarded(&self, space: Space) -> bool {
        self.machine.connection.spaces.of(space).discarded
    }

    fn has_at_or_above(&self, space: Space, number: PacketNumber) -> bool {
        self.machine.numbers.has_at_or_above(space, number)
    }

    fn were_sent(&self, space: Space, ranges: &[Span]) -> bool {
        self.machine.numbers.were_sent(space, ranges)
    }

    #[tactic(auto, using(crate::proofs::Answered::window_kept))]
    fn window(&self) -> u64 {
        self.machine.connection.window()
    }

    fn reported_window(&self) -> u64 {
        self.machine.connection.reported.window
    }

    fn acknowledged_since_collapse(&self) -> Option<u64> {
        self.machine.connection.reported.acknowledged
    }

    fn bytes_in_flight(&self) -> u64 {
        self.machine.packets.bytes_in_flight()
    }

    fn probe_spent(&self) -> Option<u128> {
        Some(u128::from(self.machine.connection.allowances.probe_spent?))
    }

    fn recovery_spent(&self) -> Option<u64> {
        self.machine.connection.allowances.recovery_spent
    }

    fn deadline(&self) -> Option<Due> {
        due_now(&self.machine.connection, &self.machine.packets)
    }

    #[tactic(auto, using(qa_base::proofs::machine::Steps::probe_due_is))]
    fn is_probe_due(&self) -> bool {
        self.machine.connection.timer.probe_due.is_some()
    }

    fn is_confirmed(&self) -> bool {
        self.machine.connection.handshake.confirmed
    }

    #[inline(always)]
    fn is_late(&self, time: Ticks) -> bool {
        match self.machine.connection.header.options().timer_late {
            None => false,
            Some(limit) => {
                let due = due_by_packets(&self.machine.connection, &self.machine.packets);
                let limit = self.header().unit().of_microseconds(limit);
                self.machine.watch.is_past_due(due, limit, time)
            }
        }
    }

    fn totals(&self) -> Totals {
        self.totals_now()
    }
}
