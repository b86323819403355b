//! The congestion window of NewReno (RFC 9002, section 7 and appendix B).
ghost use Rattle.std.specs.Prelude.{◌≡◌, ◌≤◌, ◌^◌};
ghost use Rattle.qa_base.specs.machine.Reno as steps;
ghost use Rattle.qa_base.specs.values.Limits.{min_datagram_size, max_packet_size};
ghost use Rattle.qa_base.specs.values.Limits.{max_initial_window};

use qa_base::Ticks;
use qa_base::constants::{LOSS_REDUCTION_DIVISOR, minimum_window};
use std::marker::Model;

/// The state of the congestion controller.
///
/// Every call asks for what its `requires` says: a maximum datagram size from 1200 to 65527 bytes,
/// a packet size from 1 to 65527 bytes, and a window that is not 0 and not past its bound.
#[derive(Clone, Copy, Debug, PartialEq, Eq)]
pub struct Reno {
    /// The congestion window, in bytes.
    pub window: u64,
    /// The slow start threshold in bytes, where there is one.
    pub ssthresh: Option<u64>,
    /// When recovery began, where the sender is in recovery: packets sent later are not.
    pub recovery_start_time: Option<Ticks>,
}

impl Model for Reno {
    ghost use Rattle.qa_base.specs.machine.Reno.{Control};

    ghost Value = { Control };

    ghost view = { λ r. record {
      window = r.window;
      ssthresh = r.ssthresh;
      recovery_start_time = r.recovery_start_time;
    } };

    ghost inverse = { λ r.
        record {
          window = r.window;
          ssthresh = r.ssthresh;
          recovery_start_time = r.recovery_start_time;
        } };
}

impl Reno {
    /// The state at the start: this window in bytes, 1 to 4294967295, no threshold, no recovery
    /// (RFC 9002, B.3).
    pub fn start(window: u64) -> Reno
        requires some { 1 ≤ window }
        requires small { window ≤ max_initial_window }
        ensures { result ≡ steps.start window }
    {
        Reno {
            window,
            ssthresh: None,
            recovery_start_time: None,
        }
    }

    /// Whether a packet that was sent then was sent after recovery began, or there is no recovery
    /// (RFC 9002, B.5).
    pub fn is_outside_recovery(&self, sent: Ticks) -> bool
        ensures { result ≡ steps.is_outside_recovery self.now.recovery_start_time sent }
    {
        match self.recovery_start_time {
            None => true,
            Some(began) => began < sent,
        }
    }

    /// A loss was found now, of packets the last of which was sent at `last_sent` (RFC 9002,
    /// section 7.3.2, B.6). `max_datagram_size` is 1200 to 65527 bytes.
    ///
    /// Where that packet was sent after recovery began, or there is no recovery, this enters
    /// recovery and returns true: `ssthresh` is half the window, and the window is that, but at
    /// least two datagrams. Else nothing changes and it returns false.
    pub fn on_congestion_event(
        &mut self,
        last_sent: Ticks,
        now: Ticks,
        max_datagram_size: u64,
    ) -> bool
        requires datagram_low { min_datagram_size ≤ max_datagram_size }
        requires datagram_high { max_datagram_size ≤ max_packet_size }
        ensures entered { result
            ≡ steps.is_outside_recovery self.old.recovery_start_time last_sent }
        ensures state { self.new
            ≡ steps.on_congestion_event max_datagram_size last_sent now self.old }
    {
        if !self.is_outside_recovery(last_sent) {
            return false;
        }
        let ssthresh = self.window / LOSS_REDUCTION_DIVISOR;
        *self = Reno {
            window: ssthresh.max(minimum_window(max_datagram_size)),
            ssthresh: Some(ssthresh),
            recovery_start_time: Some(now),
        };
        true
    }

    /// Persistent congestion: the window falls to two datagrams, and recovery ends (RFC 9002,
    /// section 7.6.2, B.8). `max_datagram_size` is 1200 to 65527 bytes.
    pub fn on_persistent_congestion(&mut self, max_datagram_size: u64)
        requires datagram_low { min_datagram_size ≤ max_datagram_size }
        requires datagram_high { max_datagram_size ≤ max_packet_size }
        ensures { self.new ≡ steps.on_persistent_congestion max_datagram_size self.old }
    {
        *self = Reno {
            window: minimum_window(max_datagram_size),
            ssthresh: self.ssthresh,
            recovery_start_time: None,
        };
    }

    /// An in-flight packet of `size` bytes, 1 to 65527, was acknowledged that was sent at `sent`
    /// (RFC 9002, B.5). The window is at least 1 and at most 2^62 bytes, and `max_datagram_size` is
    /// 1200 to 65527.
    ///
    /// A packet that was sent at recovery's beginning or before changes nothing. Below the
    /// threshold the window grows by the packet's size (section 7.3.1), and else by its part of a
    /// datagram for each window, rounded down (7.3.3).
    pub fn grow(&mut self, size: u64, sent: Ticks, max_datagram_size: u64)
        requires window_low { 1 ≤ self.old.window }
        requires window_high { self.old.window ≤ 2 ^ 62 }
        requires datagram_low { min_datagram_size ≤ max_datagram_size }
        requires datagram_high { max_datagram_size ≤ max_packet_size }
        requires size_low { 1 ≤ size }
        requires size_high { size ≤ max_packet_size }
        ensures { self.new ≡ steps.grow max_datagram_size size sent self.old }
    {
        if !self.is_outside_recovery(sent) {
            return;
        }
        let growth = if is_slow_start(self.window, self.ssthresh) {
            size
        } else {
            max_datagram_size * size / self.window
        };
        *self = Reno {
            window: self.window + growth,
            ssthresh: self.ssthresh,
            recovery_start_time: self.recovery_start_time,
        };
    }
}

/// Whether the window is below the threshold, or there is none.
fn is_slow_start(window: u64, ssthresh: Option<u64>) -> bool
    ensures { result ≡ steps.is_below_ssthresh window ssthresh }
{
    match ssthresh {
        None => true,
        Some(ssthresh) => window < ssthresh,
    }
}
