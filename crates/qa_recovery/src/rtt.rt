//! The estimate of the round-trip time (RFC 9002, section 5).
ghost use Rattle.std.specs.Prelude.{◌≡◌, ◌≤◌, ◌-◌, ◌+◌, ◌*◌, ◌/◌};
ghost use Rattle.qa_base.specs.values.Constants.{persistent_congestion_threshold};
ghost use Rattle.qa_base.specs.values.Limits.{max_time};
ghost use Rattle.qa_base.specs.machine.Rtt as estimates;

use qa_base::constants::{PERSISTENT_CONGESTION_THRESHOLD, TIME_THRESHOLD_DIVISOR};
use qa_base::{Header, Ticks};
use std::marker::Model;

/// What a sender knows of the round-trip time. All times are in the unit of the trace.
#[derive(Clone, Copy)]
pub struct Rtt {
    /// The latest sample; 0 before the first.
    pub latest_rtt: Ticks,
    /// The least sample; 0 before the first.
    pub min_rtt: Ticks,
    /// The smoothed round-trip time.
    pub smoothed_rtt: Ticks,
    /// The variation of the round-trip time.
    pub rttvar: Ticks,
    /// When the first sample was taken.
    pub first_rtt_sample: Option<Ticks>,
}

impl Model for Rtt {
    ghost use Rattle.qa_base.specs.machine.Rtt.{Estimate, loss_delay as loss_delay_of};

    ghost Value = { Estimate };

    ghost view = { λ r. record {
      latest_rtt = r.latest_rtt;
      min_rtt = r.min_rtt;
      smoothed_rtt = r.smoothed_rtt;
      rttvar = r.rttvar;
      first_rtt_sample = r.first_rtt_sample;
    } };

    ghost inverse = { λ r. record {
      latest_rtt = r.latest_rtt;
      min_rtt = r.min_rtt;
      smoothed_rtt = r.smoothed_rtt;
      rttvar = r.rttvar;
      first_rtt_sample = r.first_rtt_sample;
    } };
}

impl Rtt {
    /// The estimate before the first sample: the initial RTT, and half of it as its variation
    /// (RFC 9002, section 5.3).
    pub fn start(initial_rtt: Ticks) -> Rtt
        ensures { result ≡ estimates.start initial_rtt }
    {
        let none = Ticks::of(0);
        Rtt {
            latest_rtt: none,
            min_rtt: none,
            smoothed_rtt: initial_rtt,
            rttvar: Ticks::of(initial_rtt.get() / 2),
            first_rtt_sample: None,
        }
    }

    /// Takes a sample (RFC 9002, sections 5.2 and 5.3, in the order of A.7): `latest_rtt` is the
    /// time that the packet with the largest acknowledged number took, `ack_delay` the peer's delay
    /// in the same unit, already limited, and `now` the time of the acknowledgment.
    ///
    /// The delay is taken off the sample unless that leaves less than `min_rtt`. `rttvar` is
    /// computed by the smoothed RTT before the sample. With `less_delay` the latest RTT is the
    /// sample without the delay, too, unless the sample is the first.
    pub fn sample(&mut self, less_delay: bool, latest_rtt: Ticks, ack_delay: u64, now: Ticks)
        ensures { self.new ≡ estimates.with_sample less_delay self.old latest_rtt ack_delay now }
    {
        if self.first_rtt_sample.is_none() {
            *self = Rtt {
                latest_rtt,
                min_rtt: latest_rtt,
                smoothed_rtt: latest_rtt,
                rttvar: Ticks::of(latest_rtt.get() / 2),
                first_rtt_sample: Some(now),
            };
            return;
        }
        let min_rtt = self.min_rtt.min(latest_rtt);
        let adjusted_rtt = adjusted(min_rtt.get(), latest_rtt.get(), ack_delay);
        let smoothed_rtt = self.smoothed_rtt.get();
        *self = Rtt {
            latest_rtt: if less_delay {
                Ticks::of(adjusted_rtt)
            } else {
                latest_rtt
            },
            min_rtt,
            smoothed_rtt: Ticks::of((7 * smoothed_rtt + adjusted_rtt) / 8),
            rttvar: Ticks::of((3 * self.rttvar.get() + smoothed_rtt.abs_diff(adjusted_rtt)) / 4),
            first_rtt_sample: self.first_rtt_sample,
        };
    }

    /// Sets `min_rtt` to the latest sample, as a sender should after persistent congestion (RFC
    /// 9002, section 5.2).
    pub fn refresh(&mut self)
        ensures { self.new ≡ estimates.refreshed self.old }
    {
        self.min_rtt = self.latest_rtt;
    }

    /// Begins the estimate again after persistent congestion, as a sender may (RFC 9002, section
    /// 5.2): but for the latest sample it is as before the first, and the next is a first one.
    pub fn reset(&mut self, initial_rtt: Ticks)
        ensures { self.new ≡ estimates.reset initial_rtt self.old }
    {
        *self = Rtt {
            latest_rtt: self.latest_rtt,
            ..Rtt::start(initial_rtt)
        };
    }

    /// How long after it was sent a packet below the largest acknowledged number is lost: the
    /// header's time threshold of the greater of the latest and the smoothed RTT, rounded up, and
    /// the granularity at least, in the unit of the trace (RFC 9002, section 6.1.2).
    pub fn loss_delay(&self, header: &Header) -> u64
        ensures value { result ≡ estimates.loss_delay header.now self.now }
        ensures bound { result ≤ 4 * max_time }
    {
        let rtt = self.latest_rtt.get().max(self.smoothed_rtt.get());
        let parts = header.time_threshold_eighths() * rtt + (TIME_THRESHOLD_DIVISOR - 1);
        (parts / TIME_THRESHOLD_DIVISOR).max(header.granularity().get())
    }

    /// The probe timeout before the peer's delay and the backoff, in the unit: the smoothed
    /// RTT, and four times `rttvar` or the granularity (RFC 9002, section 6.2.1).
    pub fn pto_base(&self, granularity: Ticks) -> u64
        ensures value { result ≡ estimates.pto_base granularity self.now }
        ensures bound { result ≤ 5 * max_time }
    {
        self.smoothed_rtt.get() + (4 * self.rttvar.get()).max(granularity.get())
    }

    /// How far apart in the unit two lost packets have to be sent for persistent congestion,
    /// with the peer's `max_ack_delay`: more than three times that and the probe timeout's base
    /// (RFC 9002, section 7.6.1).
    pub fn persistent_after(&self, granularity: Ticks, max_ack_delay: Ticks) -> u64
        ensures value { result ≡ estimates.persistent_after granularity self.now max_ack_delay }
        ensures bound { result ≤ persistent_congestion_threshold * (6 * max_time) }
    {
        PERSISTENT_CONGESTION_THRESHOLD * (self.pto_base(granularity) + max_ack_delay.get())
    }
}

/// A sample without the peer's delay, unless that leaves less than `min_rtt`.
fn adjusted(min_rtt: u64, latest_rtt: u64, ack_delay: u64) -> u64
    requires { min_rtt ≤ latest_rtt }
    ensures value { result ≡ estimates.adjusted min_rtt latest_rtt ack_delay }
    ensures bound { result ≤ latest_rtt }
{
    if ack_delay <= latest_rtt - min_rtt {
        latest_rtt - ack_delay
    } else {
        latest_rtt
    }
}
