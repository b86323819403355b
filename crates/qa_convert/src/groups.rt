//! Events that belong together: a packet or a timer, and what the log says of it beside it.
ghost use Rattle.std.specs.Prelude.{◌≡◌, ◌++◌, ◌∷◌, [], Bool, IfOk, List, OnOk, option_to_list};
ghost use Rattle.std.specs.Prelude.{false, true};
ghost use Rattle.qa_convert.specs.Gathering.{AreFit, BeginsWith, Cut, Goes, GoesOn, HandsLast};
ghost use Rattle.qa_convert.specs.Gathering.{IsCut, IsLeft, IsOpen, IsSingle, IsSure, held};
ghost use Rattle.qa_convert.specs.Groups as groups;
ghost use Rattle.qa_convert.specs.Groups.{Ends, Gathers, IsGroup};
ghost use Rattle.qa_convert.specs.Orders.{is_lost, is_sent};
ghost use Rattle.qa_convert.specs.declared.groups.Group.{Group as AGroup};
ghost use Rattle.qa_convert.specs.declared.groups.Takes.TheVariants as takes;

use crate::dialects::Dialect;
use crate::event::{At, Expiry, LoggedEvent, LostPacket, Said};
use crate::packet::LoggedPacket;
use qa_base::Space;
use std::alloc::{AllocError, Global};
use std::collections::VecDeque;
use std::marker::Model;
use std::mem;

/// A packet, and where and when its record is.
#[derive(Drop)]
pub(crate) struct PacketAt {
    pub(crate) at: At,
    pub(crate) packet: LoggedPacket,
}

/// A loss, and where and when its record is.
#[derive(Clone, Copy)]
pub(crate) struct LostAt {
    pub(crate) at: At,
    pub(crate) lost: LostPacket,
}

/// What a group is about.
#[derive(Drop)]
pub(crate) enum About {
    /// Packets that were sent: those of a datagram, or of several.
    Sent(Vec<PacketAt>),
    /// A packet that came, and the losses in front of it.
    Received(PacketAt, Vec<LostAt>),
    /// Losses.
    Lost(Vec<LostAt>),
    /// A loss detection timer that expired.
    Expired(At, Expiry),
    /// Any other event.
    Other(LoggedEvent),
}

/// Events that belong together.
#[derive(Drop)]
pub(crate) struct Group {
    pub(crate) about: About,
    /// What the log says beside it: reports, states, losses.
    pub(crate) beside: Vec<LoggedEvent>,
}

/// Which events a group takes beside what it is about.
#[derive(Clone, Copy, PartialEq, Eq)]
enum Takes {
    /// None.
    Nothing,
    /// Reports that can be read.
    Reports,
    /// These and losses.
    ReportsAndLosses,
    /// Reports, states, and timers that are set.
    OfSent,
    /// These and losses.
    All,
}

/// A group that may go on.
#[derive(Drop)]
struct Open {
    group: Group,
    takes: Takes,
}

/// Gathers the events of a log in groups, up to the packet that closes the connection.
#[derive(Drop)]
struct Gathering {
    alloc: Global,
    dialect: Dialect,
    open: Option<Open>,
    /// A report that may be of the packet behind it.
    report: Option<LoggedEvent>,
    /// The last group that ended: if the log is torn off behind it, part of it is missing.
    last: Option<Group>,
    is_closed: bool,
}

impl Takes {
    /// Whether it takes this event.
    fn has(self, said: &Said) -> bool
        ensures beside { result ≡ true → groups.is_beside said.now ≡ true }
        ensures nothing { self ≡ takes.Nothing → result ≡ false }
    {
        match said {
            Said::Report(_) => self != Takes::Nothing,
            Said::State(_) => self.has_states(),
            Said::UnreadReport => self.has_states(),
            Said::TimerSet => self.has_states(),
            Said::Lost(_) => self.has_losses(),
            Said::OtherLost => self.has_losses(),
            _ => false,
        }
    }

    /// Whether it takes states, and timers that are set.
    fn has_states(self) -> bool
        ensures { self ≡ takes.Nothing → result ≡ false }
    {
        self == Takes::OfSent || self == Takes::All
    }

    /// Whether it takes losses.
    fn has_losses(self) -> bool
        ensures { self ≡ takes.Nothing → result ≡ false }
    {
        self == Takes::ReportsAndLosses || self == Takes::All
    }
}

impl LoggedPacket {
    /// Whether it says or shows that a probe timeout sent it.
    pub(crate) fn shows_probe(&self) -> bool {
        self.is_probe || self.keeps_room
    }

    /// Whether it is an Initial or Handshake packet with a PING: one of 1-RTT may be that of a
    /// program, or keep the connection alive.
    pub(crate) fn has_ping_of_handshake(&self) -> bool {
        self.space != Space::App && self.content.has_ping
    }
}

impl Gathering {
    /// Before the first event. Takes no memory.
    fn new(alloc: Global, dialect: Dialect) -> Gathering
        ensures fit { AreFit result }
        ensures held { held result ≡ groups.at_start dialect.metrics_stand_before }
    {
        Gathering {
            alloc,
            dialect,
            open: None,
            report: None,
            last: None,
            is_closed: false,
        }
    }

    /// Takes the next event, and appends the groups that are complete. After `AllocError` it is of
    /// no use.
    fn push(&mut self, event: LoggedEvent, out: &mut VecDeque<Group>) -> Result<(), AllocError>
        requires fit { AreFit self.old }
        ensures { OnOk result (Goes self.old (event ∷ []) self.new out.old.items out.new.items) }
    {
        if !self.dialect.metrics_stand_before {
            return self.take(event, out);
        }
        match self.report.take() {
            None => self.keep_report(event, out),
            Some(report) => self.behind_report(report, event, out),
        }
    }

    /// Takes an event, but for a report, which may be of the packet behind it.
    fn keep_report(
        &mut self,
        event: LoggedEvent,
        out: &mut VecDeque<Group>,
    ) -> Result<(), AllocError>
        requires fit { AreFit self.old }
        requires report { self.old.report ≡ None }
        requires first { self.old.dialect.metrics_stand_before ≡ true }
        ensures { OnOk result (Goes self.old (event ∷ []) self.new out.old.items out.new.items) }
    {
        if matches!(&event.said, Said::Report(_)) {
            self.report = Some(event);
            return Ok(());
        }
        self.take(event, out)
    }

    /// Takes a report and the event behind it: those of a packet are a group.
    fn behind_report(
        &mut self,
        report: LoggedEvent,
        event: LoggedEvent,
        out: &mut VecDeque<Group>,
    ) -> Result<(), AllocError>
        requires fit { AreFit self.old }
        requires none { self.old.report ≡ None }
        requires first { self.old.dialect.metrics_stand_before ≡ true }
        requires report { groups.is_report report.said ≡ true }
        ensures { OnOk result (Goes self.old (report ∷ event ∷ []) self.new out.old.items
            out.new.items) }
    {
        let LoggedEvent { at, said } = event;
        match said {
            Said::Sent(packet) => {
                self.close(out)?;
                self.begin_reported(report, PacketAt { at, packet })
            }
            said => {
                self.take(report, out)?;
                self.keep_report(LoggedEvent { at, said }, out)
            }
        }
    }

    /// Begins the group of a packet whose report is in front of it.
    fn begin_reported(&mut self, report: LoggedEvent, packet: PacketAt) -> Result<(), AllocError>
        requires fit { AreFit self.old }
        requires none { self.old.report ≡ None }
        requires first { self.old.dialect.metrics_stand_before ≡ true }
        requires begun { self.old.open ≡ None }
        requires report { groups.is_report report.said ≡ true }
        ensures { OnOk result ((out : List AGroup) → Goes self.old
            (report ∷ groups.sent packet ∷ []) self.new out out) }
    {
        if self.is_closed {
            return Ok(());
        }
        let mut packets = Vec::new(self.alloc);
        packets.push(packet)?;
        let mut beside = Vec::new(self.alloc);
        beside.push(report)?;
        self.open = Some(Open {
            group: Group {
                about: About::Sent(packets),
                beside,
            },
            takes: Takes::Nothing,
        });
        Ok(())
    }

    /// Takes an event: the open group goes on with it, or it begins one.
    fn take(&mut self, event: LoggedEvent, out: &mut VecDeque<Group>) -> Result<(), AllocError>
        requires fit { AreFit self.old }
        requires report { self.old.report ≡ None }
        ensures goes { OnOk result (Goes self.old (event ∷ []) self.new out.old.items
            out.new.items) }
        ensures report { OnOk result (self.new.report ≡ None) }
    {
        if self.is_closed {
            return Ok(());
        }
        let Some(open) = &mut self.open else {
            return self.begin(event);
        };
        match open.with(event, &self.dialect, self.alloc)? {
            None => Ok(()),
            Some(other) => {
                self.close(out)?;
                self.begin(other)
            }
        }
    }

    /// Begins a group with an event.
    fn begin(&mut self, event: LoggedEvent) -> Result<(), AllocError>
        requires fit { AreFit self.old }
        requires report { self.old.report ≡ None }
        requires begun { self.old.open ≡ None }
        ensures goes { OnOk result ((out : List AGroup) → Goes self.old (event ∷ []) self.new
            out out) }
        ensures report { OnOk result (self.new.report ≡ None) }
    {
        if self.is_closed {
            return Ok(());
        }
        let takes = takes_of(&event.said, &self.dialect);
        let about = about_of(self.alloc, event)?;
        self.open = Some(Open {
            group: Group {
                about,
                beside: Vec::new(self.alloc),
            },
            takes,
        });
        Ok(())
    }

    /// The open group is complete, if there is one.
    fn close(&mut self, out: &mut VecDeque<Group>) -> Result<(), AllocError>
        requires fit { AreFit self.old }
        requires report { self.old.report ≡ None }
        ensures goes { OnOk result (Goes self.old [] self.new out.old.items out.new.items) }
        ensures report { OnOk result (self.new.report ≡ None) }
        ensures begun { OnOk result (self.new.open ≡ None) }
    {
        match self.open.take() {
            None => Ok(()),
            Some(open) => self.finish(open.group, out),
        }
    }

    /// A group is complete: the one before it is appended. Of packets that were sent only those
    /// before the one that closes are kept.
    fn finish(&mut self, group: Group, out: &mut VecDeque<Group>) -> Result<(), AllocError>
        requires fit { AreFit self.old }
        requires report { self.old.report ≡ None }
        requires begun { self.old.open ≡ None }
        requires unclosed { self.old.is_closed ≡ false }
        requires group { IsGroup group }
        requires single { IsSingle self.old.dialect.metrics_stand_before group.about
            group.beside.items }
        ensures goes { OnOk result (Goes self.old
            (groups.events_of self.old.dialect.metrics_stand_before group) self.new out.old.items
            out.new.items) }
        ensures report { OnOk result (self.new.report ≡ None) }
        ensures begun { OnOk result (self.new.open ≡ None) }
    {
        if !group.closes() {
            return self.keep(group, out);
        }
        self.is_closed = true;
        match group.before_closing(self.alloc)? {
            None => Ok(()),
            Some(left) => self.keep(left, out),
        }
    }

    /// Keeps a group, and appends the one before it.
    fn keep(&mut self, group: Group, out: &mut VecDeque<Group>) -> Result<(), AllocError>
        ensures last { OnOk result (self.new ≡ record self.old { last = Some group }) }
        ensures out { OnOk result (out.new.items ≡ out.old.items
            ++ option_to_list self.old.last) }
    {
        if let Some(last) = self.last.replace(group) {
            out.push_back(last)?;
        }
        Ok(())
    }

    /// The log ends. If it is torn off, more may have followed of the last group.
    fn end(&mut self, is_torn: bool, out: &mut VecDeque<Group>) -> Result<(), AllocError>
        requires fit { AreFit self.old }
        ensures { OnOk result (Ends is_torn (held self.old) out.old.items out.new.items) }
    {
        self.take_report(out)?;
        self.close(out)?;
        self.hand_last(is_torn, out)
    }

    /// Takes the report that is held, if there is one: no packet is behind it.
    fn take_report(&mut self, out: &mut VecDeque<Group>) -> Result<(), AllocError>
        requires fit { AreFit self.old }
        ensures goes { OnOk result (Goes self.old [] self.new out.old.items out.new.items) }
        ensures report { OnOk result (self.new.report ≡ None) }
    {
        match self.report.take() {
            None => Ok(()),
            Some(report) => self.take(report, out),
        }
    }

    /// Appends the last group, or what is sure of it.
    fn hand_last(&mut self, is_torn: bool, out: &mut VecDeque<Group>) -> Result<(), AllocError>
        ensures { OnOk result (HandsLast is_torn self.old.is_closed self.old.last out.old.items
            out.new.items) }
    {
        let Some(last) = self.last.take() else {
            return Ok(());
        };
        if !is_torn || self.is_closed {
            out.push_back(last)?;
            return Ok(());
        }
        if let Some(kept) = last.without_end(self.alloc) {
            out.push_back(kept)?;
        }
        Ok(())
    }
}

/// The groups of a log, up to the packet that closes the connection. Contracts see the events that
/// are held, and whether the connection has closed.
///
/// What a connection does once it is closing is no part of loss recovery, and neither is the packet
/// by which it closes: it may be sent whatever the window is.
#[derive(Drop)]
pub(crate) struct Groups {
    gathering: Gathering,
}

impl Model for Groups {
    ghost use Rattle.qa_convert.specs.Gathering.{AreFit, held};
    ghost use Rattle.qa_convert.specs.Groups.{Held};

    ghost Value = { Held };

    ghost view = { λ g. held g.gathering };

    ghost invariant = { λ g. AreFit g.gathering };
}

impl Groups {
    /// Before the first event. Takes no memory.
    pub(crate) fn new(alloc: Global, dialect: Dialect) -> Groups
        ensures { result ≡ groups.at_start dialect.metrics_stand_before }
    {
        Groups {
            gathering: Gathering::new(alloc, dialect),
        }
    }

    /// Takes the next event, and appends the groups that are complete. `AllocError` comes if it is
    /// out of memory; then events are lost, and it is of no use.
    pub(crate) fn push(
        &mut self,
        event: LoggedEvent,
        out: &mut VecDeque<Group>,
    ) -> Result<(), AllocError>
        ensures { OnOk result (Gathers self.old (event ∷ []) self.new out.old.items
            out.new.items) }
    {
        match self.gathering.push(event, out) {
            Ok(()) => Ok(()),
            Err(fault) => {
                self.gathering = Gathering::new(self.gathering.alloc, self.gathering.dialect);
                Err(fault)
            }
        }
    }

    /// The log ends. If it is torn off, more may have followed of the last group. `AllocError`
    /// comes if it is out of memory; then events are lost, and it is of no use.
    pub(crate) fn end(&mut self, is_torn: bool, out: &mut VecDeque<Group>) -> Result<(), AllocError>
        ensures { OnOk result (Ends is_torn self.old out.old.items out.new.items) }
    {
        let result = self.gathering.end(is_torn, out);
        self.gathering = Gathering::new(self.gathering.alloc, self.gathering.dialect);
        result
    }
}

impl Open {
    /// Goes on with an event, if it is of the group; or else gives it back, and stays as it was.
    /// After `AllocError` it is of no use.
    fn with(
        &mut self,
        event: LoggedEvent,
        dialect: &Dialect,
        alloc: Global,
    ) -> Result<Option<LoggedEvent>, AllocError>
        requires { IsOpen dialect.now self.old }
        ensures { IfOk result (GoesOn dialect.now self.old event self.new) }
    {
        if self.takes.has(&event.said) {
            self.group.beside.push(event)?;
            return Ok(None);
        }
        let LoggedEvent { at, said } = event;
        match said {
            Said::Sent(packet) => self.with_sent(PacketAt { at, packet }, dialect),
            Said::Lost(lost) => self.with_lost(LostAt { at, lost }, dialect),
            Said::Received(packet) => Ok(self.with_received(
                PacketAt { at, packet },
                dialect,
                alloc,
            )),
            said => Ok(Some(LoggedEvent { at, said })),
        }
    }

    /// Goes on with a packet that was sent, if it may be of the same datagram: it is in front of
    /// the reports, and may not be that of a probe timeout.
    fn with_sent(
        &mut self,
        packet: PacketAt,
        dialect: &Dialect,
    ) -> Result<Option<LoggedEvent>, AllocError>
        requires { IsOpen dialect.now self.old }
        ensures { IfOk result (GoesOn dialect.now self.old (groups.sent packet) self.new) }
    {
        let is_alone = dialect.metrics_stand_before || may_be_probe(&packet.packet, dialect);
        if !is_alone && self.group.beside.is_empty() {
            if let About::Sent(packets) = &mut self.group.about {
                packets.push(packet)?;
                return Ok(None);
            }
        }
        Ok(Some(packet.sent()))
    }

    /// Goes on with a loss, if it may be of the same detection, which names packets downwards.
    fn with_lost(
        &mut self,
        lost: LostAt,
        dialect: &Dialect,
    ) -> Result<Option<LoggedEvent>, AllocError>
        requires { IsOpen dialect.now self.old }
        ensures { IfOk result (GoesOn dialect.now self.old (groups.lost lost) self.new) }
    {
        if dialect.losses_stand_before {
            if let About::Lost(losses) = &mut self.group.about {
                if goes_on(losses, lost.lost) {
                    losses.push(lost)?;
                    return Ok(None);
                }
            }
        }
        Ok(Some(LoggedEvent {
            at: lost.at,
            said: Said::Lost(lost.lost),
        }))
    }

    /// Goes on with a packet that came, if losses of its space are in front of it.
    fn with_received(
        &mut self,
        packet: PacketAt,
        dialect: &Dialect,
        alloc: Global,
    ) -> Option<LoggedEvent>
        requires { IsOpen dialect.now self.old }
        ensures { GoesOn dialect.now self.old (groups.received packet) self.new result }
    {
        if dialect.losses_stand_before {
            if let About::Lost(losses) = &mut self.group.about {
                if is_of(losses, packet.packet.space) {
                    let losses = mem::replace(losses, Vec::new(alloc));
                    self.group.about = About::Received(packet, losses);
                    self.takes = Takes::Reports;
                    return None;
                }
            }
        }
        Some(packet.received())
    }
}

impl PacketAt {
    /// The event that it was sent.
    fn sent(self) -> LoggedEvent
        ensures { result ≡ groups.sent self }
    {
        let PacketAt { at, packet } = self;
        let said = Said::Sent(packet);
        LoggedEvent { at, said }
    }

    /// The event that it came.
    fn received(self) -> LoggedEvent
        ensures { result ≡ groups.received self }
    {
        let PacketAt { at, packet } = self;
        let said = Said::Received(packet);
        LoggedEvent { at, said }
    }
}

/// Whether a packet may be that of a probe timeout.
fn may_be_probe(packet: &LoggedPacket, dialect: &Dialect) -> bool {
    packet.shows_probe() || (dialect.probes_by_room && packet.has_ping_of_handshake())
}

/// Whether a loss is of the same detection as those before it.
fn goes_on(losses: &[LostAt], lost: LostPacket) -> bool {
    match losses.last() {
        Some(last) => last.lost.space == lost.space && lost.number < last.lost.number,
        None => false,
    }
}

/// Whether losses are of a space.
fn is_of(losses: &[LostAt], space: Space) -> bool {
    match losses.first() {
        Some(first) => first.lost.space == space,
        None => false,
    }
}

/// What a group takes beside an event.
fn takes_of(said: &Said, dialect: &Dialect) -> Takes
    ensures sent { dialect.now.metrics_stand_before ≡ true → is_sent said.now ≡ true
        → result ≡ takes.Nothing }
    ensures lost { dialect.now.losses_stand_before ≡ true → is_lost said.now ≡ true
        → result ≡ takes.Nothing }
{
    match said {
        Said::Sent(_) if !dialect.metrics_stand_before => Takes::OfSent,
        Said::Received(_) if dialect.losses_stand_before => Takes::OfSent,
        Said::Received(_) => Takes::All,
        Said::Lost(_) if !dialect.losses_stand_before => Takes::ReportsAndLosses,
        Said::Expired(_) => Takes::All,
        _ => Takes::Nothing,
    }
}

/// What the group is about that begins with an event.
fn about_of(alloc: Global, event: LoggedEvent) -> Result<About, AllocError>
    ensures { IfOk result (BeginsWith event) }
{
    let LoggedEvent { at, said } = event;
    match said {
        Said::Sent(packet) => {
            let mut packets = Vec::new(alloc);
            packets.push(PacketAt { at, packet })?;
            Ok(About::Sent(packets))
        }
        Said::Received(packet) => Ok(About::Received(PacketAt { at, packet }, Vec::new(alloc))),
        Said::Lost(lost) => {
            let mut losses = Vec::new(alloc);
            losses.push(LostAt { at, lost })?;
            Ok(About::Lost(losses))
        }
        Said::Expired(expiry) => Ok(About::Expired(at, expiry)),
        said => Ok(About::Other(LoggedEvent { at, said })),
    }
}

impl Group {
    /// Whether a packet of it closes the connection.
    fn closes(&self) -> bool
        ensures { result ≡ groups.closes self.now }
    {
        match &self.about {
            About::Sent(packets) => packets.iter().any(|packet| packet.packet.content.closes),
            About::Received(packet, _) => packet.packet.content.closes,
            _ => false,
        }
    }

    /// The packets before the one by which the connection closes, without what was said then, if
    /// there are any; a packet that came, as it is.
    fn before_closing(self, alloc: Global) -> Result<Option<Group>, AllocError>
        requires closes { groups.closes self ≡ true }
        requires group { IsGroup self }
        ensures { IfOk result (λ left. (first : Bool) → IsSingle first self.about self.beside.items
            → IsLeft first (groups.events_of first self) left) }
    {
        let Group { about, beside } = self;
        match about {
            About::Sent(packets) => sent_before(alloc, packets),
            about => Ok(Some(Group { about, beside })),
        }
    }

    /// What is sure of the last group of a torn log, of which more may have followed.
    fn without_end(self, alloc: Global) -> Option<Group>
        ensures { IsSure self result }
    {
        let Group { about, .. } = self;
        match about {
            About::Sent(packets) => {
                let about = About::Sent(packets);
                let beside = Vec::new(alloc);
                Some(Group { about, beside })
            }
            _ => None,
        }
    }
}

/// The group of the packets before the first by which the connection closes, if there are any.
fn sent_before(alloc: Global, packets: Vec<PacketAt>) -> Result<Option<Group>, AllocError>
    ensures { IfOk result (IsCut packets.items) }
{
    let kept = packets_before(alloc, packets)?;
    if kept.is_empty() {
        return Ok(None);
    }
    Ok(Some(Group {
        about: About::Sent(kept),
        beside: Vec::new(alloc),
    }))
}

/// The packets before the first by which the connection closes.
fn packets_before(alloc: Global, packets: Vec<PacketAt>) -> Result<Vec<PacketAt>, AllocError>
    ensures { IfOk result (λ kept. Cut packets.items kept.items) }
{
    let mut kept = Vec::new(alloc);
    for packet in packets {
        if packet.packet.content.closes {
            return Ok(kept);
        }
        kept.push(packet)?;
    }
    Ok(kept)
}
