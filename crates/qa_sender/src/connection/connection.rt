//! What is kept of a connection beside the packets that were sent.
ghost use Rattle.std.specs.Prelude.{◌≡◌, [], fold, min};
ghost use Rattle.qa_base.specs.machine.Window.{ssthresh_by, window_by};
ghost use Rattle.qa_base.specs.values.Settings.{AreInRange};
ghost use Rattle.qa_sender.specs.connection.Changes as steps;
ghost use Rattle.qa_sender.specs.connection.Changes.{with_persistent_congestion, with_collapse_of};
ghost use Rattle.qa_sender.specs.connection.Changes.{with_congestion_event, with_hit_since};
ghost use Rattle.qa_sender.specs.connection.Changes.{marked, with_sample};
ghost use Rattle.qa_base.specs.values.Limits.{max_lines};
ghost use Rattle.qa_sender.specs.connection.Detecting.{search_in, whole_of};
ghost use Rattle.qa_sender.specs.connection.Known.{IsOf};
ghost use Rattle.qa_sender.specs.connection.Reporting.{with_bytes};

use crate::connection::allowances::Allowances;
use crate::connection::congestion::Losses;
use crate::connection::detection::Detection;
use crate::connection::handshake::HandshakeState;
use crate::connection::reported::{ReportedWindow, with_all};
use crate::connection::spaces::SpaceState;
use crate::connection::timer::TimerState;
use crate::connection::{congestion, sampling, spaces};
use qa_base::limits::MAX_LINES;
use qa_base::{Controller, Header, PacketNumber, PerSpace, Permission, Space, Ticks};
use qa_recovery::{Reno, Rtt};
use qa_sent_packets::SentPacket;

/// What is kept of a connection beside the packets that were sent (RFC 9002, A.3 and B.2). Each
/// call is a step of an event, and changes the parts that it names.
#[derive(Clone, Copy)]
pub struct Connection {
    /// The header of the trace.
    pub header: Header,
    /// How many events there were.
    pub events: u64,
    /// When the last event happened.
    pub last_time: Option<Ticks>,
    /// The space in which the last event looked for losses, where it did.
    pub searched: Option<Space>,
    /// The last event that looked for losses, where the header lets packets be spared.
    pub detection: Option<Detection>,
    /// How far the handshake is.
    pub handshake: HandshakeState,
    /// The estimate of the round-trip time.
    pub rtt: Rtt,
    /// The congestion window of NewReno.
    pub reno: Reno,
    /// The one that the sender reports.
    pub reported: ReportedWindow,
    /// What is kept of the loss detection timer.
    pub timer: TimerState,
    /// What was sent past the congestion window.
    pub allowances: Allowances,
    /// What is kept of each packet number space.
    pub spaces: PerSpace<SpaceState>,
}

impl Connection {
    /// Before any event.
    pub fn start(header: Header) -> Connection
        ensures { IsOf result header [] }
    {
        Connection {
            header,
            events: 0,
            last_time: None,
            searched: None,
            detection: None,
            handshake: HandshakeState::start(),
            rtt: sampling::start(&header),
            reno: congestion::start(&header),
            reported: ReportedWindow::start(&header),
            timer: TimerState::start(),
            allowances: Allowances::start(),
            spaces: spaces::start(),
        }
    }

    /// The congestion window by which packets are judged, in bytes: NewReno's or the reported one.
    pub fn window(&self) -> u64
        ensures { result ≡ window_by self.now.header.options.controller self.now.reno.window
            self.now.reported.window }
    {
        match self.header.options().controller {
            Controller::NewReno => self.reno.window,
            Controller::Reported => self.reported.window,
        }
    }

    /// NewReno's slow start threshold, in bytes; None where there is none yet, and where the window
    /// is the reported one.
    pub fn ssthresh(&self) -> Option<u64>
        ensures { result ≡ ssthresh_by self.now.header.options.controller self.now.reno.ssthresh }
    {
        match self.header.options().controller {
            Controller::NewReno => self.reno.ssthresh,
            Controller::Reported => None,
        }
    }

    /// When an event happens at this time, by which recovery is told: then, or at the place of its
    /// line where the header says that the order of the lines decides (RFC 9002, section 7.3.2).
    pub fn mark(&self, time: Ticks) -> Ticks
        ensures { result ≡ marked self.now time }
    {
        if self.header.options().recovery_by_order {
            Ticks::of(u64::from(self.place()))
        } else {
            time
        }
    }

    /// How many events came before the next one. No trace has more than that has room for.
    pub fn place(&self) -> u32
        ensures { result ≡ min self.now.events max_lines }
    {
        self.events.min(MAX_LINES) as u32
    }

    /// Takes the sample of the round-trip time that an acknowledgment gives of the packets that it
    /// newly acknowledges, which stand in the order of sending (RFC 9002, sections 5.1 and 5.3).
    /// `largest` is the largest number that it acknowledges, `delay` what the peer reports.
    pub fn sample(
        &mut self,
        acknowledged: &[SentPacket],
        largest: PacketNumber,
        delay: u64,
        now: Ticks,
    )
        ensures { self.new ≡ with_sample now delay largest acknowledged.now self.old }
    {
        let delay = sampling::limited_delay(&self.header, self.handshake.confirmed, delay);
        let only = self.header.options().sample_eliciting_only;
        let sent = sampling::sampled_at(acknowledged, largest, only);
        let less_delay = self.header.options().latest_rtt_less_delay;
        sampling::sample(&mut self.rtt, less_delay, sent, delay, now);
    }

    /// Packets are lost by a detection, the last of which was sent at `last_sent`, where there are
    /// any (RFC 9002, B.6): the window falls where that was after recovery began, and a recovery
    /// packet may go out where it was by what NewReno was before the detection.
    fn on_congestion_event(&mut self, last_sent: Option<Ticks>, detected: Ticks, before: &Reno)
        ensures { self.new ≡ with_hit_since before.now detected last_sent self.old }
    {
        let Some(last_sent) = last_sent else {
            return;
        };
        self.reno
            .on_congestion_event(last_sent, detected, self.header.max_datagram_size());
        if before.is_outside_recovery(last_sent) {
            self.allowances.recovery_spent = Some(0);
        }
    }

    /// What is lost by a detection that newly acknowledged so many bytes establishes persistent
    /// congestion, or not (B.8). It resets the estimate of the round-trip time or refreshes its
    /// minimum, where the header asks for that (section 5.2).
    fn on_persistent_congestion(&mut self, is_persistent: bool, acknowledged: u64)
        ensures value { self.new ≡ with_collapse_of acknowledged is_persistent self.old }
        ensures range { AreInRange self.old.header }
    {
        sampling::on_persistent_congestion(&mut self.rtt, &self.header, is_persistent);
        congestion::on_persistent_congestion(
            &mut self.reno,
            is_persistent,
            self.header.max_datagram_size(),
        );
        self.reported
            .on_persistent_congestion(is_persistent, acknowledged);
    }

    /// Takes in what a detection found lost (B.8), before what it newly acknowledged.
    pub fn lose(&mut self, losses: Losses, now: Ticks)
        ensures value { self.new
            ≡ with_persistent_congestion losses.is_persistent
            (with_congestion_event now losses.last_lost self.old) }
        ensures range { AreInRange self.old.header }
    {
        let before = self.reno;
        self.on_congestion_event(losses.last_lost, now, &before);
        self.on_persistent_congestion(losses.is_persistent, 0);
    }

    /// Takes in what is lost by the detection of the event before, once a Lost line declares
    /// packets beyond what was owed: as if the detection had found all of them (B.8).
    pub fn complete(&mut self, losses: Losses, detection: &Detection)
        ensures value { self.new
            ≡ steps.completed detection.now losses.last_lost losses.is_persistent self.old }
        ensures range { AreInRange self.old.header }
    {
        self.on_congestion_event(losses.last_lost, detection.mark, &detection.before);
        self.on_persistent_congestion(losses.is_persistent, detection.acknowledged);
    }

    /// What is kept of a detection in a space, as of `looked`, by an event that newly acknowledges
    /// these packets and happens now, at this mark. The estimate is the one with the event's
    /// sample, and NewReno is what it was before the event. The numbers that lie far below the
    /// largest acknowledged one are those below `far_end`.
    pub fn detected(
        &self,
        space: Space,
        looked: u64,
        mark: Ticks,
        acknowledged: &[SentPacket],
        far_end: u64,
    ) -> Detection
        ensures { result ≡ record {
          space = space;
          looked = looked;
          mark = mark;
          rtt = self.now.rtt;
          before = self.now.reno;
          acknowledged = fold with_bytes 0 acknowledged.now;
          far_end = far_end;
        } }
    {
        Detection {
            space,
            looked,
            mark,
            rtt: self.rtt,
            before: self.reno,
            acknowledged: with_all(0, acknowledged),
            far_end,
        }
    }

    /// The last event, where it looked for losses and the header lets packets be spared.
    pub fn last_detection(&self) -> Option<Detection>
        ensures { result ≡ whole_of (search_in self.now) }
    {
        match self.searched {
            None => None,
            Some(_) => self.detection,
        }
    }

    /// The window grows by the packets that an acknowledgment newly acknowledges, in the order of
    /// sending, unless the sender was limited by less than the window (B.5; section 7.8). Their
    /// bytes count in what a reported window may be, limited or not.
    pub fn grow(&mut self, acknowledged: &[SentPacket], app_limited: bool)
        ensures { self.new ≡ steps.grown app_limited acknowledged.now self.old }
    {
        self.reported.acknowledge(acknowledged);
        if app_limited {
            return;
        }
        congestion::grow(&mut self.reno, acknowledged, &self.header);
    }

    /// Numbers of a space were acknowledged, of which this is the largest (A.7).
    pub fn acknowledge(&mut self, space: Space, largest: PacketNumber)
        ensures { self.new ≡ steps.acknowledged space largest self.old }
    {
        self.spaces.of_mut(space).raise(largest);
        self.handshake.acknowledge(space);
    }

    /// A packet was sent that is ack-eliciting or not: where it is, the probe of its space is not
    /// due any more.
    fn elicit(&mut self, packet: &SentPacket)
        ensures { self.new ≡ steps.elicited packet.now self.old }
    {
        if !packet.eliciting {
            return;
        }
        self.spaces.of_mut(packet.space).last_eliciting = Some(packet.time);
        self.timer.elicit(packet.space);
    }

    /// A packet was sent that is in flight or not: where it is, it sets the timer, and what it may
    /// leave by past the window is spent.
    fn launch(&mut self, packet: &SentPacket, permission: Permission)
        ensures { self.new ≡ steps.launched packet.now permission self.old }
    {
        if !packet.in_flight {
            return;
        }
        self.timer.last_set = Some(packet.time);
        self.allowances.spend(permission, packet.size);
    }

    /// A packet was sent (RFC 9002, A.5).
    pub fn send(&mut self, packet: &SentPacket, permission: Permission)
        ensures { self.new ≡ steps.sent packet.now permission self.old }
    {
        self.elicit(packet);
        self.launch(packet, permission);
        self.handshake.send(packet.space);
    }

    /// A probe timeout of a space (A.9): two datagrams of probes may go out, and one is due.
    pub fn probe(&mut self, space: Space, now: Ticks)
        ensures { self.new ≡ steps.probing space now self.old }
    {
        self.timer.probe(space, now);
        self.allowances.probe_spent = Some(0);
    }

    /// The keys of a space were discarded (A.11).
    pub fn discard(&mut self, space: Space, now: Ticks)
        ensures { self.new ≡ steps.discarded space now self.old }
    {
        self.spaces.of_mut(space).discarded = true;
        self.timer.restart(now, true);
        self.handshake.discard(space);
    }

    /// Something new was acknowledged: the timer is set anew, no probe is due, and the PTO count is
    /// 0 from now on where the peer has validated the sender's address (A.7; section 6.2.1).
    pub fn restart(&mut self, now: Ticks)
        ensures { self.new ≡ steps.restarted now self.old }
    {
        let is_validated = self.handshake.is_validated(self.header.role());
        self.timer.restart(now, is_validated);
    }

    /// The sender reported a window, or none.
    pub fn report(&mut self, window: Option<u64>)
        ensures { self.new ≡ steps.reported window self.old }
    {
        self.reported.report(window);
    }

    /// One event more happened, at this time, which looked for losses or did not.
    #[inline(always)]
    pub fn count(&mut self, now: Ticks, searched: Option<Space>)
        ensures { self.new ≡ steps.counted now searched self.old }
    {
        self.events = self.events.saturating_add(1);
        self.last_time = Some(now);
        self.searched = searched;
    }
}
