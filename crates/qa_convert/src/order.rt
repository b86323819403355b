//! Events in the order in which things happened, for logs that have another.
ghost use Rattle.std.specs.Prelude.{◌≡◌, ◌++◌, ◌∷◌, [], OnOk, None, true, false};
ghost use Rattle.qa_convert.specs.Orders.{Follows, LetsGo, Waits, is_lost, is_received, is_sent};
ghost use Rattle.qa_convert.specs.Orders.{told};
ghost use Rattle.qa_convert.specs.declared.event.Said.TheVariants as said;

use crate::event::{At, LoggedEvent, Report, Said};
use qa_qlog::{ByteCounts, Rtts};
use std::alloc::{AllocError, Global};
use std::collections::VecDeque;
use std::marker::Model;

/// A report that waits for those of the other packets of a datagram.
#[derive(Clone, Copy)]
struct WaitingReport {
    at: At,
    report: Report,
}

/// Puts a packet that came in front of the losses, reports and keys that its frames caused.
///
/// Some stacks log a packet that came only after they handled its frames. What follows packets that
/// were sent stays with them: a packet in flight has at most one report, without a sample. Timers
/// that are only set are left out.
#[derive(Drop)]
struct PacketFirst {
    /// What waits for the packet that caused it.
    held: VecDeque<LoggedEvent>,
    /// How many packets in flight were sent whose report is still to come.
    awaited: u64,
    /// The reports of these so far, as one.
    of_sent: Option<WaitingReport>,
    /// Whether what follows was caused by a timer.
    is_timed: bool,
}

impl PacketFirst {
    /// Before the first event. Takes no memory.
    fn new(alloc: Global) -> PacketFirst
        ensures held { result.held.items ≡ [] }
        ensures timed { result.is_timed ≡ false }
    {
        PacketFirst {
            held: VecDeque::new(alloc),
            awaited: 0,
            of_sent: None,
            is_timed: false,
        }
    }

    /// Takes the next event, and appends those whose turn it is. After `AllocError` it is of no
    /// use.
    #[tactic(auto, using(crate::proofs::Ordered::timer_follows))]
    fn push(
        &mut self,
        event: LoggedEvent,
        out: &mut VecDeque<LoggedEvent>,
    ) -> Result<(), AllocError>
        requires waits { Waits self.old.is_timed self.old.held.items }
        ensures waits { OnOk result (Waits self.new.is_timed self.new.held.items) }
        ensures order { OnOk result (Follows (out.old.items ++ self.old.held.items)
            (event ∷ []) (out.new.items ++ self.new.held.items)) }
    {
        match &event.said {
            Said::Sent(packet) => {
                let is_in_flight = packet.content.is_in_flight();
                self.on_sent(event, is_in_flight, out)
            }
            Said::OtherSent => self.on_sent(event, false, out),
            Said::Received(packet) => {
                let has_acks = !packet.acks.is_empty();
                self.on_received(event, has_acks, out)
            }
            Said::OtherReceived(_) => self.on_received(event, false, out),
            Said::Expired(_) => self.on_expired(event, out),
            Said::Report(report) => {
                let report = *report;
                self.on_report(event, report, out)
            }
            Said::TimerSet => Ok(()),
            _ => self.on_other(event, out),
        }
    }

    /// The log ends. If it is torn off, the packet is missing for which what is held waits.
    fn end(&mut self, is_torn: bool, out: &mut VecDeque<LoggedEvent>) -> Result<(), AllocError>
        requires waits { Waits self.old.is_timed self.old.held.items }
        ensures order { OnOk result (LetsGo is_torn (out.old.items ++ self.old.held.items)
            out.new.items) }
        ensures held { OnOk result (self.new.held.items ≡ []) }
    {
        if is_torn {
            self.held.clear();
        }
        self.flush(out)
    }

    /// A packet was sent.
    fn on_sent(
        &mut self,
        event: LoggedEvent,
        is_in_flight: bool,
        out: &mut VecDeque<LoggedEvent>,
    ) -> Result<(), AllocError>
        requires waits { Waits self.old.is_timed self.old.held.items }
        ensures waits { OnOk result (Waits self.new.is_timed self.new.held.items) }
        ensures order { OnOk result (Follows (out.old.items ++ self.old.held.items)
            (event ∷ []) (out.new.items ++ self.new.held.items)) }
    {
        self.awaited = self.awaited.saturating_add(u64::from(is_in_flight));
        self.put(event, out)
    }

    /// A packet came: in front of what it caused, if it has ACK frames.
    fn on_received(
        &mut self,
        event: LoggedEvent,
        has_acks: bool,
        out: &mut VecDeque<LoggedEvent>,
    ) -> Result<(), AllocError>
        requires waits { Waits self.old.is_timed self.old.held.items }
        requires received { told is_lost (event ∷ []) ≡ [] }
        ensures waits { OnOk result (Waits self.new.is_timed self.new.held.items) }
        ensures order { OnOk result (Follows (out.old.items ++ self.old.held.items)
            (event ∷ []) (out.new.items ++ self.new.held.items)) }
    {
        self.awaited = 0;
        if has_acks {
            self.put_in_front(event, out)
        } else {
            self.put(event, out)
        }
    }

    /// A timer expired.
    fn on_expired(
        &mut self,
        event: LoggedEvent,
        out: &mut VecDeque<LoggedEvent>,
    ) -> Result<(), AllocError>
        requires waits { Waits self.old.is_timed self.old.held.items }
        ensures waits { OnOk result (Waits self.new.is_timed self.new.held.items) }
        ensures order { OnOk result (Follows (out.old.items ++ self.old.held.items)
            (event ∷ []) (out.new.items ++ self.new.held.items)) }
    {
        self.awaited = 0;
        self.put(event, out)?;
        self.is_timed = true;
        Ok(())
    }

    /// Lets go what waits, and then an event.
    fn put(&mut self, event: LoggedEvent, out: &mut VecDeque<LoggedEvent>) -> Result<(), AllocError>
        ensures held { OnOk result (self.new.held.items ≡ []) }
        ensures order { OnOk result (Follows (out.old.items ++ self.old.held.items)
            (event ∷ []) (out.new.items ++ [])) }
    {
        self.flush(out)?;
        out.push_back(event)?;
        Ok(())
    }

    /// Lets go a packet that came, and then what it caused.
    fn put_in_front(
        &mut self,
        event: LoggedEvent,
        out: &mut VecDeque<LoggedEvent>,
    ) -> Result<(), AllocError>
        requires waits { Waits self.old.is_timed self.old.held.items }
        requires received { told is_lost (event ∷ []) ≡ [] }
        ensures held { OnOk result (self.new.held.items ≡ []) }
        ensures order { OnOk result (Follows (out.old.items ++ self.old.held.items)
            (event ∷ []) (out.new.items ++ [])) }
    {
        self.is_timed = false;
        self.flush_report(out)?;
        let time = self.first_time(event.at.time);
        out.push_back(LoggedEvent {
            at: At { time, ..event.at },
            said: event.said,
        })?;
        self.flush_held(out)?;
        Ok(())
    }

    /// A time, or that of the first event that is held if it is earlier.
    fn first_time(&self, time: u64) -> u64 {
        match self.held.front() {
            Some(first) => time.min(first.at.time),
            None => time,
        }
    }

    /// A report: of a timer, of packets that were sent, or of a packet that is still to come.
    #[tactic(auto, using(crate::proofs::Ordered::last_follows, crate::proofs::Ordered::report_follows, crate::proofs::Ordered::joined_follows))]
    fn on_report(
        &mut self,
        event: LoggedEvent,
        report: Report,
        out: &mut VecDeque<LoggedEvent>,
    ) -> Result<(), AllocError>
        requires waits { Waits self.old.is_timed self.old.held.items }
        requires report { event.said ≡ said.Report report }
        ensures waits { OnOk result (Waits self.new.is_timed self.new.held.items) }
        ensures order { OnOk result (Follows (out.old.items ++ self.old.held.items)
            (event ∷ []) (out.new.items ++ self.new.held.items)) }
    {
        let has_sample = report.has_sample();
        if report.has_only_pto_count || (self.is_timed && !has_sample) {
            out.push_back(event)?;
            return Ok(());
        }
        if has_sample || self.awaited == 0 {
            self.is_timed = false;
            return self.hold(event);
        }
        self.awaited -= 1;
        self.wait(event, report);
        if self.awaited == 0 {
            return self.flush_report(out);
        }
        Ok(())
    }

    /// Holds an event that is no packet.
    #[tactic(auto, using(crate::proofs::Ordered::none_told))]
    fn hold(&mut self, event: LoggedEvent) -> Result<(), AllocError>
        requires sent { told is_sent (event ∷ []) ≡ [] }
        requires received { told is_received (event ∷ []) ≡ [] }
        ensures held { OnOk result (self.new.held.items ≡ self.old.held.items ++ event ∷ []) }
        ensures timed { self.new.is_timed ≡ self.old.is_timed }
        ensures quiet_sent { OnOk result (told is_sent self.old.held.items ≡ []
            → told is_sent self.new.held.items ≡ []) }
        ensures quiet_received { OnOk result (told is_received self.old.held.items ≡ []
            → told is_received self.new.held.items ≡ []) }
    {
        self.held.push_back(event)?;
        Ok(())
    }

    /// Joins a report with those of the packets that were sent before.
    fn wait(&mut self, event: LoggedEvent, report: Report)
        ensures held { self.new.held.items ≡ self.old.held.items }
        ensures timed { self.new.is_timed ≡ self.old.is_timed }
    {
        let report = match self.of_sent {
            Some(before) => report.behind(before.report),
            None => report,
        };
        self.of_sent = Some(WaitingReport {
            at: event.at,
            report,
        });
    }

    /// Losses, states and keys. Keys that go between the reports of one datagram's packets go in
    /// front of all of these, since the last of them no longer counts what went.
    #[tactic(auto, using(crate::proofs::Ordered::last_follows))]
    fn on_other(
        &mut self,
        event: LoggedEvent,
        out: &mut VecDeque<LoggedEvent>,
    ) -> Result<(), AllocError>
        requires waits { Waits self.old.is_timed self.old.held.items }
        requires sent { told is_sent (event ∷ []) ≡ [] }
        requires received { told is_received (event ∷ []) ≡ [] }
        ensures waits { OnOk result (Waits self.new.is_timed self.new.held.items) }
        ensures order { OnOk result (Follows (out.old.items ++ self.old.held.items)
            (event ∷ []) (out.new.items ++ self.new.held.items)) }
    {
        if self.has_caused(&event) {
            self.hold(event)
        } else {
            out.push_back(event)?;
            Ok(())
        }
    }

    /// Whether an event was caused by a packet that is still to come.
    fn has_caused(&self, event: &LoggedEvent) -> bool
        requires waits { Waits self.now.is_timed self.now.held.items }
        ensures caused { result ≡ true → self.now.is_timed ≡ false }
        ensures other { result ≡ false → self.now.is_timed ≡ false
            → told is_lost (event.now ∷ []) ≡ [] }
    {
        match &event.said {
            Said::Lost(_) => !self.is_timed,
            Said::OtherLost => !self.is_timed,
            Said::State(_) => !self.is_timed && self.awaited == 0,
            Said::KeysCame(_) => !self.held.is_empty(),
            Said::KeysGone(_) => !self.held.is_empty(),
            _ => false,
        }
    }

    /// Lets go what waits, if no packet came for it.
    #[tactic(auto, using(crate::proofs::Ordered::kept_follows))]
    fn flush(&mut self, out: &mut VecDeque<LoggedEvent>) -> Result<(), AllocError>
        ensures order { OnOk result (Follows (out.old.items ++ self.old.held.items) []
            out.new.items) }
        ensures held { OnOk result (self.new.held.items ≡ []) }
        ensures timed { OnOk result (self.new.is_timed ≡ false) }
    {
        self.is_timed = false;
        self.flush_report(out)?;
        self.flush_held(out)
    }

    /// Lets go what is held.
    fn flush_held(&mut self, out: &mut VecDeque<LoggedEvent>) -> Result<(), AllocError>
        ensures out { OnOk result (out.new.items ≡ out.old.items ++ self.old.held.items) }
        ensures held { OnOk result (self.new.held.items ≡ []) }
        ensures timed { self.new.is_timed ≡ self.old.is_timed }
    {
        while let Some(event) = self.held.pop_front() {
            out.push_back(event)?;
        }
        Ok(())
    }

    /// Lets go the report of packets that were sent.
    #[tactic(auto, using(crate::proofs::Ordered::same_follows, crate::proofs::Ordered::quiet_follows))]
    fn flush_report(&mut self, out: &mut VecDeque<LoggedEvent>) -> Result<(), AllocError>
        ensures order { OnOk result (Follows out.old.items [] out.new.items) }
        ensures held { self.new.held.items ≡ self.old.held.items }
        ensures timed { self.new.is_timed ≡ self.old.is_timed }
    {
        let Some(waiting) = self.of_sent.take() else {
            return Ok(());
        };
        out.push_back(LoggedEvent {
            at: waiting.at,
            said: Said::Report(waiting.report),
        })?;
        Ok(())
    }
}

/// Events in the order in which things happened. Contracts see those that wait for the packet that
/// caused them.
#[derive(Drop)]
pub(crate) struct InOrder {
    alloc: Global,
    first: PacketFirst,
}

impl Model for InOrder {
    ghost use Rattle.std.specs.Prelude.{List};
    ghost use Rattle.qa_convert.specs.Orders.{Waits};
    ghost use Rattle.qa_convert.specs.declared.event.LoggedEvent.{LoggedEvent as AnEvent};

    ghost Value = { List AnEvent };

    ghost view = { λ o. o.first.held.items };

    ghost invariant = { λ o. Waits o.first.is_timed o.first.held.items };
}

impl InOrder {
    /// Before the first event. Takes no memory.
    pub(crate) fn new(alloc: Global) -> InOrder
        ensures { result ≡ [] }
    {
        InOrder {
            alloc,
            first: PacketFirst::new(alloc),
        }
    }

    /// Takes the next event, and appends those whose turn it is. `AllocError` comes if it is out of
    /// memory; then events are lost, and it is of no use.
    pub(crate) fn push(
        &mut self,
        event: LoggedEvent,
        out: &mut VecDeque<LoggedEvent>,
    ) -> Result<(), AllocError>
        ensures { OnOk result (Follows (out.old.items ++ self.old) (event ∷ [])
            (out.new.items ++ self.new)) }
    {
        match self.first.push(event, out) {
            Ok(()) => Ok(()),
            Err(fault) => {
                self.first = PacketFirst::new(self.alloc);
                Err(fault)
            }
        }
    }

    /// The log ends. If it is torn off, the packet is missing for which what is held waits.
    /// `AllocError` comes if it is out of memory; then events are lost, and it is of no use.
    pub(crate) fn end(
        &mut self,
        is_torn: bool,
        out: &mut VecDeque<LoggedEvent>,
    ) -> Result<(), AllocError>
        ensures { OnOk result (LetsGo is_torn (out.old.items ++ self.old) out.new.items) }
    {
        let result = self.first.end(is_torn, out);
        self.first = PacketFirst::new(self.alloc);
        result
    }
}

impl Report {
    /// Whether it has a sample of the round-trip time.
    fn has_sample(self) -> bool {
        is_some_time(self.rtts.latest) || is_some_time(self.rtts.smoothed)
    }

    /// What both reports say, this one behind the other.
    fn behind(self, before: Report) -> Report {
        Report {
            rtts: Rtts {
                latest: self.rtts.latest.or(before.rtts.latest),
                min: self.rtts.min.or(before.rtts.min),
                smoothed: self.rtts.smoothed.or(before.rtts.smoothed),
                variance: self.rtts.variance.or(before.rtts.variance),
            },
            bytes: ByteCounts {
                window: self.bytes.window.or(before.bytes.window),
                ssthresh: self.bytes.ssthresh.or(before.bytes.ssthresh),
                in_flight: self.bytes.in_flight.or(before.bytes.in_flight),
            },
            pto_count: self.pto_count.or(before.pto_count),
            has_only_pto_count: self.has_only_pto_count && before.has_only_pto_count,
        }
    }
}

/// Whether a time is said that is not 0.
fn is_some_time(time: Option<u64>) -> bool {
    match time {
        Some(time) => time != 0,
        None => false,
    }
}
