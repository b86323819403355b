//! What each kind of event does to the state of a sender.
ghost use Rattle.std.specs.Prelude.{◌≡◌, ◌≤◌, ◌<◌, ◌+◌, [], ◌∷◌, ℕ, List, length};
ghost use Rattle.std.specs.Prelude.{true, false, Some, IfOk, OnOk, OnErr, fold, min};
ghost use Rattle.std.specs.List.{AllByRecursion};
ghost use Rattle.qa_base.specs.declared.event.Event.{Event as AnEvent};
ghost use Rattle.qa_base.specs.declared.event.Event.TheVariants as events;
ghost use Rattle.qa_base.specs.declared.space.TimerKind.TheVariants.{Loss, Pto};
ghost use Rattle.qa_base.specs.declared.space.Space.{Space as ASpace};
ghost use Rattle.qa_base.specs.machine.Detection.{looks_at as looks_at_of};
ghost use Rattle.qa_base.specs.machine.Estimates.{sampled};
ghost use Rattle.qa_base.specs.machine.Loss as loss;
ghost use Rattle.qa_base.specs.machine.Violations.{IsToleratedRun};
ghost use Rattle.qa_base.specs.values.Events.{fits, time_of};
ghost use Rattle.qa_base.specs.values.Limits.{max_lines, max_packet_size};
ghost use Rattle.qa_base.specs.values.PerSpace.{of_space};
ghost use Rattle.qa_base.specs.values.Settings.{AreInRange, Settings};
ghost use Rattle.qa_sender.specs.connection.Changes.{completed, with_persistent_congestion};
ghost use Rattle.qa_sender.specs.connection.Changes.{with_congestion_event};
ghost use Rattle.qa_sender.specs.connection.Detecting.{kept_of, search_after, search_by, search_in};
ghost use Rattle.qa_sender.specs.connection.Detecting.{whole_of};
ghost use Rattle.qa_sender.specs.connection.Known.{HasParts, IsMeasured, AreLosses};
ghost use Rattle.qa_sender.specs.connection.Known.{IsProperToleratedRun};
ghost use Rattle.qa_sender.specs.connection.Reporting.{with_bytes};
ghost use Rattle.qa_sender.specs.connection.Steps.{last_sent};
ghost use Rattle.qa_sender.specs.declared.connection.detection.Detection.{Detection as ADetection};
ghost use Rattle.qa_packet_numbers.specs.Sent.{AreSent};
ghost use Rattle.qa_sender.specs.Following.{IsNext, as_sent, takes_memory};
ghost use Rattle.qa_sender.specs.Freeing.{free_of};
ghost use Rattle.qa_sender.specs.Losing.{HoldsLosses, LosesWhatIsOwed};
ghost use Rattle.qa_sender.specs.Thresholds.{AreThresholdsAt, far_end as far_end_of};
ghost use Rattle.qa_sender.specs.Machine.{Follows, StandsFor as Stands, StandsOnceFound};
ghost use Rattle.qa_sender.specs.Standing.{StandsFor};
ghost use Rattle.qa_sender.specs.Trimmed.{IsTrimmed};
ghost use Rattle.qa_sender.specs.Watch.{IsWatched};
ghost use Rattle.qa_sent_packets.specs.Free.{AreOwedIn};
ghost use Rattle.qa_sent_packets.specs.Held.{IsBefore};
ghost use Rattle.qa_sent_packets.specs.Owing.{NoneOwed};
ghost use Rattle.qa_sent_packets.specs.Steps as steps;
ghost use Rattle.qa_sent_packets.specs.declared.fate.Fate.TheVariants.{Open};

use crate::answers::open_in;
use crate::connection::{Connection, Losses};
use crate::far::far_end;
use crate::freeing::free_packets;
use crate::watch::TimerWatch;
use qa_base::{Ack, Event, Header, MetricValues, Permission, Space, Span, Spans, Ticks, TimerKind};
use qa_packet_numbers::{Ranges, SentNumbers};
use qa_recovery::Rtt;
use qa_sent_packets::{Fate, SentPacket, SentPackets, Thresholds, are_falling};
use std::alloc::{AllocError, Global};

/// The state of a sender after some events: what RFC 9002 keeps in A.3 and B.2, and what the rules
/// ask beside it.
#[derive(Drop)]
pub(crate) struct Machine {
    /// The connection.
    pub(crate) connection: Connection,
    /// The packets since the oldest that is still open or owed, and those that were set aside.
    pub(crate) packets: SentPackets,
    /// The numbers that were sent.
    pub(crate) numbers: SentNumbers,
    /// What the timer is set for, and since when.
    pub(crate) watch: TimerWatch,
}

impl Machine {
    /// Before any event. Takes no memory.
    pub(crate) fn start(alloc: Global, header: Header) -> Machine
        ensures { Stands result header [] }
    {
        Machine {
            connection: Connection::start(header),
            packets: SentPackets::new(alloc),
            numbers: SentNumbers::new(alloc),
            watch: TimerWatch::start(),
        }
    }

    /// An acknowledgment came (RFC 9002, A.7). Nothing may be owed. `AllocError` comes where it is
    /// out of memory, and leaves the machine as it was.
    pub(crate) fn on_ack(&mut self, alloc: Global, ack: &Ack) -> Result<(), AllocError>
        requires { NoneOwed self.old.packets.packets }
        ensures ok { OnOk result (Follows self.old self.new (events.Ack ack.now)) }
        ensures err { OnErr result (self.new ≡ self.old) }
    {
        let time = ack.time;
        let mark = self.connection.mark(time);
        let space = ack.space;
        let largest = ack.ranges.greatest();
        let ranges = ack.ranges.as_slice();
        let acknowledged = cover(alloc, &mut self.packets, space, ranges)?;
        self.connection.acknowledge(space, largest);
        if acknowledged.is_empty() {
            self.packets.take_back(acknowledged);
            self.finish(time, None);
            return Ok(());
        }
        self.connection
            .sample(&acknowledged, largest, ack.delay, time);
        self.keep_detection(space, time.get(), mark, &acknowledged);
        self.find_losses(space, time.get(), mark);
        self.connection.grow(&acknowledged, ack.app_limited);
        self.packets.take_back(acknowledged);
        self.connection.restart(time);
        self.finish(time, Some(space));
        Ok(())
    }

    /// A packet was sent (A.5 and B.4). It is open, was sent after those that are kept, its number
    /// is higher than those of its space that were set aside, and fewer than 4,294,967,295 were
    /// ever sent. `AllocError` comes where it is out of memory; its number may be among those that
    /// were sent then, and nothing else has changed.
    pub(crate) fn on_sent(
        &mut self,
        packet: SentPacket,
        permission: Permission,
    ) -> Result<(), AllocError>
        requires open { packet.fate ≡ Open }
        requires small { packet.size ≤ max_packet_size }
        requires ordered { AllByRecursion (λ q. IsBefore packet q) self.old.packets.packets }
        requires aside { AllByRecursion (λ q. q.number < packet.number)
            (of_space packet.space self.old.packets.strays) }
        requires few { self.old.packets.dropped + length self.old.packets.packets < max_lines }
        requires place { packet.place ≡ min self.old.connection.events max_lines }
        ensures ok { OnOk result
            (Follows self.old self.new (events.Sent (as_sent packet permission))) }
        ensures err { OnErr result (self.new ≡ record self.old { numbers = self.new.numbers }) }
    {
        self.numbers.insert(packet.space, packet.number)?;
        self.packets.push(packet)?;
        self.connection.send(&packet, permission);
        self.finish(packet.time, None);
        Ok(())
    }

    /// The loss timer of a space fired (A.9). Nothing may be owed.
    pub(crate) fn on_loss_timer(&mut self, time: Ticks, space: Space)
        requires { NoneOwed self.old.packets.packets }
        ensures { Follows self.old self.new (events.Timer time Loss space) }
    {
        let mark = self.connection.mark(time);
        let early = self.connection.header.timer_early();
        let open = open_in(&self.packets, space);
        let due = self.connection.loss_time(space, open.oldest);
        let looked = looks_at(early, time, due);
        self.keep_detection(space, looked, mark, &[]);
        self.connection.timer.last_set = Some(time);
        self.find_losses(space, looked, mark);
        self.finish(time, Some(space));
    }

    /// A probe timeout of a space (A.9).
    pub(crate) fn on_probe_timeout(&mut self, time: Ticks, space: Space)
        ensures { Follows self.old self.new (events.Timer time Pto space) }
    {
        self.connection.probe(space, time);
        self.finish(time, None);
    }

    /// Packets of these numbers were declared lost (A.10): what is owed, and beyond it what is free
    /// and named. With these the Lost line completes the detection in front of it. What is owed has
    /// to be of the space of that.
    pub(crate) fn on_lost(&mut self, time: Ticks, ranges: &Spans)
        requires { AreOwedIn (free_of self.old.connection).space self.old.packets.packets }
        ensures { (space : ASpace)
            → Follows self.old self.new (events.Lost time space ranges.now) }
    {
        let free = free_packets(&self.connection);
        let completes = self.packets.take(ranges.as_slice(), free);
        self.complete(completes);
        self.packets.declare_lost();
        self.finish(time, None);
    }

    /// A Lost line completes the detection of the event before, or not. Where it does, what is lost
    /// by that is taken in: all that is held as owed now, by the estimate by which it looked.
    fn complete(&mut self, completes: bool)
        ensures connection { (c : Settings) (h : List AnEvent) (d : ADetection)
            → completes ≡ true → whole_of (search_in self.old.connection) ≡ Some d
            → IsToleratedRun c h
            → self.old.connection.header ≡ c → d.rtt ≡ sampled c h
            → HoldsLosses self.old.packets c h
            → self.new.connection
            ≡ completed d (last_sent c (loss.declared c h))
            (loss.is_persistent c h) self.old.connection }
        ensures still { completes ≡ false → self.new.connection ≡ self.old.connection }
        ensures packets { self.new.packets ≡ self.old.packets }
        ensures numbers { self.new.numbers ≡ self.old.numbers }
        ensures watch { self.new.watch ≡ self.old.watch }
        ensures range { (d : ADetection) → completes ≡ true
            → whole_of (search_in self.old.connection) ≡ Some d
            → AreInRange self.old.connection.header }
    {
        if !completes {
            return;
        }
        let Some(detection) = self.connection.last_detection() else {
            return;
        };
        let losses = losses(&self.packets, &self.connection.header, &detection.rtt);
        self.connection.complete(losses, &detection);
    }

    /// The keys of a space were discarded (A.11 and B.9). Nothing may be owed.
    pub(crate) fn on_discard(&mut self, time: Ticks, space: Space)
        requires { NoneOwed self.old.packets.packets }
        ensures { Follows self.old self.new (events.Discard time space) }
    {
        self.connection.discard(space, time);
        self.packets.discard(space);
        self.finish(time, None);
    }

    /// The handshake was confirmed (RFC 9001, section 4.1.2).
    pub(crate) fn on_confirmed(&mut self, time: Ticks)
        ensures { Follows self.old self.new (events.Confirmed time) }
    {
        self.connection.handshake.confirmed = true;
        self.finish(time, None);
    }

    /// The keys of the Handshake space are there.
    pub(crate) fn on_keys(&mut self, time: Ticks)
        ensures { Follows self.old self.new (events.Keys time) }
    {
        self.connection.handshake.has_keys = true;
        self.finish(time, None);
    }

    /// The sender reported its own state.
    pub(crate) fn on_metrics(&mut self, time: Ticks, values: &MetricValues)
        ensures { Follows self.old self.new (events.Metrics time values.now) }
    {
        self.connection.report(values.window);
        self.finish(time, None);
    }

    /// Any event that breaks no rule. `AllocError` comes where it is out of memory, which only a
    /// packet that is sent and an acknowledgment can be; numbers that were sent may have changed
    /// then, and nothing else.
    pub(crate) fn on_event(&mut self, alloc: Global, event: &Event) -> Result<(), AllocError>
        requires next { IsNext self.old.connection.events self.old.packets event.now }
        requires owed { AreOwedIn (free_of self.old.connection).space self.old.packets.packets }
        requires fitting { fits event.now ≡ true }
        ensures ok { OnOk result (Follows self.old self.new event.now) }
        ensures err { OnErr result (self.new ≡ record self.old { numbers = self.new.numbers }) }
        ensures memory { OnErr result (takes_memory event.now ≡ true) }
    {
        match event {
            Event::Sent(sent) => {
                let packet = SentPacket {
                    time: sent.time,
                    place: self.connection.place(),
                    space: sent.space,
                    number: sent.number,
                    size: sent.size,
                    eliciting: sent.eliciting,
                    in_flight: sent.in_flight,
                    fate: Fate::Open,
                };
                self.on_sent(packet, sent.permission)
            }
            Event::Ack(ack) => self.on_ack(alloc, ack),
            Event::Timer {
                time,
                kind: TimerKind::Loss,
                space,
            } => {
                self.on_loss_timer(*time, *space);
                Ok(())
            }
            Event::Timer {
                time,
                kind: TimerKind::Pto,
                space,
            } => {
                self.on_probe_timeout(*time, *space);
                Ok(())
            }
            Event::Lost { time, ranges, .. } => {
                self.on_lost(*time, ranges);
                Ok(())
            }
            Event::Discard { time, space } => {
                self.on_discard(*time, *space);
                Ok(())
            }
            Event::Confirmed { time } => {
                self.on_confirmed(*time);
                Ok(())
            }
            Event::Keys { time } => {
                self.on_keys(*time);
                Ok(())
            }
            Event::Metrics { time, values } => {
                self.on_metrics(*time, values);
                Ok(())
            }
        }
    }

    /// Keeps what a Lost line asks that completes the detection in a space, as of `looked`, by an
    /// event of this mark that newly acknowledges these packets. The estimate has the event's
    /// sample, and losses are not taken in yet. Where the header lets no packet be spared, no Lost
    /// line completes it.
    #[inline(always)]
    fn keep_detection(
        &mut self,
        space: Space,
        looked: u64,
        mark: Ticks,
        acknowledged: &[SentPacket],
    )
        ensures detection { (c : Settings) (h : List AnEvent) → IsToleratedRun c h
            → IsMeasured self.old.connection c h → AreSent self.old.numbers h
            → self.new.connection.detection ≡ kept_of c (record {
              space = space;
              looked = looked;
              mark = mark;
              rtt = self.old.connection.rtt;
              before = self.old.connection.reno;
              acknowledged = fold with_bytes 0 acknowledged.now;
              far_end = far_end_of c h space;
            }) }
        ensures connection { self.new.connection
            ≡ record self.old.connection { detection = self.new.connection.detection } }
        ensures packets { self.new.packets ≡ self.old.packets }
        ensures numbers { self.new.numbers ≡ self.old.numbers }
        ensures watch { self.new.watch ≡ self.old.watch }
    {
        if self.connection.header.options().loss_by_number.is_may() {
            self.keep_whole(space, looked, mark, acknowledged);
            return;
        }
        self.connection.detection = None;
    }

    /// Keeps all of a detection, as `keep_detection` says. Few headers let packets be spared.
    #[cold]
    #[inline(never)]
    fn keep_whole(&mut self, space: Space, looked: u64, mark: Ticks, acknowledged: &[SentPacket])
        ensures detection { (c : Settings) (h : List AnEvent) → IsToleratedRun c h
            → IsMeasured self.old.connection c h → AreSent self.old.numbers h
            → self.new.connection.detection ≡ Some (record {
              space = space;
              looked = looked;
              mark = mark;
              rtt = self.old.connection.rtt;
              before = self.old.connection.reno;
              acknowledged = fold with_bytes 0 acknowledged.now;
              far_end = far_end_of c h space;
            }) }
        ensures connection { self.new.connection
            ≡ record self.old.connection { detection = self.new.connection.detection } }
        ensures packets { self.new.packets ≡ self.old.packets }
        ensures numbers { self.new.numbers ≡ self.old.numbers }
        ensures watch { self.new.watch ≡ self.old.watch }
    {
        let far_end = far_end(&self.connection, &self.numbers, space);
        let detection = self
            .connection
            .detected(space, looked, mark, acknowledged, far_end);
        self.connection.detection = Some(detection);
    }

    /// Looks for losses in a space as of a time, and takes in what they mean for the window, by an
    /// event of this mark (A.10 and B.8). Nothing may be owed before.
    #[inline(always)]
    fn find_losses(&mut self, space: Space, looked: u64, mark: Ticks)
        requires { NoneOwed self.old.packets.packets }
        ensures packets { (c : Settings) (h : List AnEvent) → IsToleratedRun c h
            → IsMeasured self.old.connection c h → AreSent self.old.numbers h
            → StandsOnceFound self.old.packets c h space looked → StandsFor self.new.packets c h }
        ensures connection { (c : Settings) (h : List AnEvent) → IsToleratedRun c h
            → LosesWhatIsOwed c h
            → IsMeasured self.old.connection c h → AreSent self.old.numbers h
            → StandsOnceFound self.old.packets c h space looked
            → self.new.connection
            ≡ with_persistent_congestion (loss.is_persistent c h)
            (with_congestion_event mark (last_sent c (loss.declared c h)) self.old.connection) }
        ensures range { AreInRange self.old.connection.header }
        ensures numbers { self.new.numbers ≡ self.old.numbers }
        ensures watch { self.new.watch ≡ self.old.watch }
    {
        self.detect(space, looked);
        let losses = losses(&self.packets, &self.connection.header, &self.connection.rtt);
        self.connection.lose(losses, mark);
    }

    /// Looks for losses in a space as of a time: what it finds is owed from now on. Mostly no
    /// packet in flight lies below the largest acknowledged number, and so none is lost.
    #[inline(always)]
    fn detect(&mut self, space: Space, looked: u64)
        requires { NoneOwed self.old.packets.packets }
        ensures packets { (c : Settings) (h : List AnEvent) → IsToleratedRun c h
            → IsMeasured self.old.connection c h → AreSent self.old.numbers h
            → StandsOnceFound self.old.packets c h space looked → StandsFor self.new.packets c h }
        ensures connection { self.new.connection ≡ self.old.connection }
        ensures numbers { self.new.numbers ≡ self.old.numbers }
        ensures watch { self.new.watch ≡ self.old.watch }
    {
        let end = self.connection.spaces.of(space).end_below_largest();
        if !self.packets.flies_below(space, end) {
            return;
        }
        self.detect_below(space, looked);
    }

    /// Looks for losses as `detect` does, also where some packet lies below the largest
    /// acknowledged number.
    #[inline(never)]
    fn detect_below(&mut self, space: Space, looked: u64)
        requires { NoneOwed self.old.packets.packets }
        ensures packets { (c : Settings) (h : List AnEvent) → IsToleratedRun c h
            → IsMeasured self.old.connection c h → AreSent self.old.numbers h
            → StandsOnceFound self.old.packets c h space looked → StandsFor self.new.packets c h }
        ensures connection { self.new.connection ≡ self.old.connection }
        ensures numbers { self.new.numbers ≡ self.old.numbers }
        ensures watch { self.new.watch ≡ self.old.watch }
    {
        let far_end = far_end(&self.connection, &self.numbers, space);
        let thresholds = thresholds(&self.connection, space, looked, far_end);
        self.packets.detect(space, &thresholds);
    }

    /// Ends an event that happened now and looked for losses in a space or did not: it is counted,
    /// packets that are of no more use are dropped, and the timer is set (A.8).
    ///
    /// It is a part of each kind of event, since only two of them look for losses.
    #[inline(always)]
    fn finish(&mut self, now: Ticks, searched: Option<Space>)
        ensures { (c : Settings) (e : AnEvent) (h : List AnEvent) → now ≡ time_of e
            → search_by searched self.old.connection.detection ≡ search_after c (e ∷ h)
            → IsProperToleratedRun c (e ∷ h)
            → self.old.connection.events ≡ length h
            → HasParts self.old.connection c (e ∷ h) → StandsFor self.old.packets c (e ∷ h)
            → AreSent self.old.numbers (e ∷ h) → IsWatched self.old.watch c h
            → Stands self.new c (e ∷ h) }
    {
        self.connection.count(now, searched);
        trim(&mut self.packets);
        self.watch.follow(&self.connection, &self.packets, now);
    }
}

/// Drops the packets that are of no more use, and sets others aside. The first that is left is open
/// or owed.
#[tactic(auto, using(crate::proofs::Dropping::stands_trimmed, crate::proofs::Dropping::first_stays))]
#[inline(always)]
fn trim(packets: &mut SentPackets)
    ensures stands { (c : Settings) (h : List AnEvent) → IsToleratedRun c h
        → StandsFor packets.old c h
        → StandsFor packets.new c h }
    ensures trimmed { IsTrimmed packets.new.packets }
{
    packets.drop_closed();
}

/// Covers the packets of the space that some span names. Returns those of them that were open, in
/// the order of sending. Nothing may be owed. `AllocError` comes where it is out of memory, and
/// leaves the packets as they were.
fn cover(
    alloc: Global,
    packets: &mut SentPackets,
    space: Space,
    spans: &[Span],
) -> Result<Vec<SentPacket>, AllocError>
    requires settled { NoneOwed packets.old.packets }
    ensures ok { OnOk result (packets.new ≡ steps.acknowledged space spans.now packets.old) }
    ensures found { IfOk result (λ found. found.items
        ≡ steps.newly_found space spans.now packets.old) }
    ensures err { OnErr result (packets.new ≡ packets.old) }
{
    let mut found = packets.lend_list();
    if are_falling(spans) {
        // They mostly do, and are in order by themselves, which takes no memory.
        packets.acknowledge(space, spans, true, &mut found)?;
        return Ok(found);
    }
    let in_order = Ranges::of_spans(alloc, spans)?;
    packets.acknowledge(space, in_order.as_slice(), false, &mut found)?;
    Ok(found)
}

/// As of when a loss timer looks for losses that goes off at a time: when it is due, if that is
/// later, but no later than it may be early.
fn looks_at(early: u64, time: Ticks, due: Option<u64>) -> u64
    requires { early ≤ 1000000000000 }
    ensures { result ≡ looks_at_of early time due }
{
    match due {
        None => time.get(),
        Some(due) => time.get().max(due.min(time.get() + early)),
    }
}

/// By what the event tells which packets of the space are past a threshold, as of a time.
fn thresholds(connection: &Connection, space: Space, now: u64, far_end: u64) -> Thresholds
    ensures { (c : Settings) (h : List AnEvent) → IsMeasured connection.now c h
        → far_end ≡ far_end_of c h space → AreThresholdsAt c h space now result }
{
    Thresholds {
        header: connection.header,
        rtt: connection.rtt,
        now,
        largest: connection.spaces.of(space).largest,
        far_end,
    }
}

/// What is lost by the last event: what is held as owed. The estimate is the one by which its
/// losses are found.
#[inline(always)]
fn losses(packets: &SentPackets, header: &Header, rtt: &Rtt) -> Losses
    ensures { (c : Settings) (h : List AnEvent) → HoldsLosses packets.now c h → IsToleratedRun c h
        → header.now ≡ c → rtt.now ≡ sampled c h → AreLosses result c h }
{
    Losses {
        last_lost: packets.last_owed(header.options().recovery_by_order),
        is_persistent: is_persistent(packets, header, rtt),
    }
}

/// Whether what is lost by the last event establishes persistent congestion (RFC 9002, section
/// 7.6), by the estimate by which its losses are found.
#[inline(always)]
fn is_persistent(packets: &SentPackets, header: &Header, rtt: &Rtt) -> bool
    ensures { (c : Settings) (h : List AnEvent) → HoldsLosses packets.now c h → IsToleratedRun c h
        → header.now ≡ c → rtt.now ≡ sampled c h → result ≡ loss.is_persistent c h }
{
    match rtt.first_rtt_sample {
        None => false,
        Some(first) => {
            let limit = rtt.persistent_after(
                header.granularity(),
                Ticks::of(header.max_ack_delay()),
            );
            packets.is_persistent(limit, first)
        }
    }
}
