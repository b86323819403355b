//! The estimates of the round-trip time after a history (RFC 9002, section 5).
ghost use Rattle.std.specs.Prelude.{◌≡◌, ◌∷◌, [], List};
ghost use Rattle.qa_base.specs.declared.event.Event.{Event as AnEvent};
ghost use Rattle.qa_base.specs.machine.Estimates as estimates;
ghost use Rattle.qa_base.specs.machine.Packets.{history_of};
ghost use Rattle.qa_base.specs.machine.Rtt as steps;
ghost use Rattle.qa_reference.specs.Estimated.{AreEstimates, AreSampled, asks};
ghost use Rattle.qa_reference.specs.Looks.{AreSeen};

use crate::congestion::is_persistent;
use crate::declared::{Losses, losses_at};
use crate::losses::look_at;
use crate::sampling::{sample_of, start, updated};
use qa_base::{Event, Header, Ticks};
use qa_recovery::Rtt;

/// Whether the header asks that persistent congestion changes the estimate.
fn asks(header: &Header) -> bool
    ensures { result ≡ asks header.now }
{
    let options = header.options();
    options.reset_rtt || options.refresh_min_rtt
}

/// What persistent congestion makes of the estimate (RFC 9002, section 5.2): it is reset, or its
/// `min_rtt` is the latest sample.
fn on_persistent_congestion(header: &Header, rtt: Rtt) -> Rtt
    ensures { result ≡ steps.on_persistent_congestion header.now rtt }
{
    let options = header.options();
    let mut more = rtt;
    if options.reset_rtt {
        more.reset(Ticks::of(header.initial_rtt()));
        return more;
    }
    if options.refresh_min_rtt {
        more.refresh();
    }
    more
}

/// The estimates of the round-trip time after a history.
#[derive(Clone, Copy)]
pub struct Estimates {
    /// The one by which the losses of the last event, and persistent congestion, are found: with
    /// its own sample. A Lost line's is that of the event in front of it, whose detection it
    /// completes.
    pub sampled: Rtt,
    /// The one after the last event.
    pub rtt: Rtt,
}

impl Estimates {
    /// Before the first event.
    pub fn start(header: &Header) -> Estimates
        ensures { AreEstimates header.now [] result }
    {
        let rtt = start(header);
        Estimates { sampled: rtt, rtt }
    }

    /// With the sample of one more event, and before what persistent congestion does.
    pub fn with_sample(self, header: &Header, before: &[Event], event: &Event) -> Estimates
        requires known { AreEstimates header.now (history_of before.now) self }
        ensures { AreSampled header.now event.now (history_of before.now) result }
    {
        let rtt = updated(header, self.rtt, sample_of(header, before, event));
        let sampled = match event {
            Event::Lost { .. } => self.sampled,
            _ => rtt,
        };
        Estimates { sampled, rtt }
    }

    /// After what persistent congestion does, if the last event establishes any.
    pub fn after_congestion(self, header: &Header, events: &[Event], losses: Losses) -> Estimates
        requires seen { AreSeen header.now (history_of events.now) losses }
        ensures { (e : AnEvent) (h : List AnEvent) → history_of events.now ≡ e ∷ h
            → AreSampled header.now e h self
            → AreEstimates header.now (history_of events.now) result }
    {
        if !asks(header) || !is_persistent(header, events, losses) {
            return self;
        }
        Estimates {
            sampled: self.sampled,
            rtt: on_persistent_congestion(header, self.rtt),
        }
    }
}

/// What is lost by one more event, by the estimate by which its losses are found.
pub fn losses_after(
    header: &Header,
    before: &[Event],
    event: &Event,
    after: &[Event],
    sampled: Rtt,
) -> Losses
    requires whole { history_of after.now ≡ event.now ∷ history_of before.now }
    requires known { sampled ≡ estimates.sampled header.now (event.now ∷ history_of before.now) }
    ensures { AreSeen header.now (history_of after.now) result }
{
    let look = look_at(header, after, sampled);
    losses_at(header, before, event, after, look)
}

/// The estimates after one more event. Only where the header asks for it is it asked what the event
/// found lost.
fn estimates_after(
    header: &Header,
    before: &[Event],
    event: &Event,
    after: &[Event],
    estimates: Estimates,
) -> Estimates
    requires whole { history_of after.now ≡ event.now ∷ history_of before.now }
    requires known { AreEstimates header.now (history_of before.now) estimates }
    ensures { AreEstimates header.now (event.now ∷ history_of before.now) result }
{
    let own = estimates.with_sample(header, before, event);
    if !asks(header) {
        return own;
    }
    let losses = losses_after(header, before, event, after, own.sampled);
    own.after_congestion(header, after, losses)
}

/// The estimates of the round-trip time after the events (RFC 9002, section 5, A.7).
///
/// An acknowledgment gives a sample where it newly acknowledges both the packet with its largest
/// number and an ack-eliciting one. The peer's delay counts up to its `max_ack_delay` once the
/// handshake is confirmed. Where the header asks for it, an event that establishes persistent
/// congestion resets the estimate or sets `min_rtt` to the latest sample, after its own sample
/// (section 5.2).
pub fn estimates_of(header: &Header, events: &[Event]) -> Estimates
    ensures { AreEstimates header.now (history_of events.now) result }
{
    let mut estimates = Estimates::start(header);
    for (place, event) in events.iter().enumerate() {
        estimates = estimates_after(
            header,
            &events[..place],
            event,
            &events[..place + 1],
            estimates,
        );
    }
    estimates
}

/// The estimate of the round-trip time after the events.
pub fn rtt(header: &Header, events: &[Event]) -> Rtt
    ensures { result ≡ estimates.rtt header.now (history_of events.now) }
{
    estimates_of(header, events).rtt
}

/// The one by which the losses of the last event are found, before what persistent congestion does.
pub fn sampled(header: &Header, events: &[Event]) -> Rtt
    ensures { result ≡ estimates.sampled header.now (history_of events.now) }
{
    estimates_of(header, events).sampled
}
