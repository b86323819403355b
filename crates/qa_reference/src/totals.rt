//! What the machine holds after a history.
ghost use Rattle.std.specs.Prelude.{◌≡◌, ◌<◌, ◌^◌, length};
ghost use Rattle.std.specs.List.{All};
ghost use Rattle.qa_base.specs.machine.Loss as loss;
ghost use Rattle.qa_base.specs.machine.Packets.{history_of};
ghost use Rattle.qa_base.specs.machine.State as state;
ghost use Rattle.qa_base.specs.machine.Widths.{Fits};
ghost use Rattle.qa_base.specs.machine.Window as windows;

use crate::estimates::rtt;
use crate::questions::{self, owed_count};
use crate::reported::{reported_window, ssthresh_by, window_by};
use crate::timer::pto_count;
use crate::window::reno;
use qa_base::{Event, Header, Totals};
use qa_ledger::Quantities;

/// The bytes in flight, which 64 bits hold.
#[tactic(auto, using(qa_base::proofs::machine::WindowBound::bytes_bound))]
pub fn bytes_in_flight(header: &Header, events: &[Event]) -> u64
    requires few { length events.now < 2 ^ 32 }
    requires fit { All Fits events.now }
    ensures { result ≡ loss.bytes_in_flight header.now (history_of events.now) }
{
    questions::bytes_in_flight(header, events) as u64
}

/// The congestion window in bytes by which packets are judged.
pub fn window(header: &Header, events: &[Event]) -> u64
    requires few { length events.now < 2 ^ 32 }
    requires fit { All Fits events.now }
    ensures { result ≡ windows.window header.now (history_of events.now) }
{
    let controller = header.options().controller;
    let reported = reported_window(header, events);
    window_by(controller, reno(header, events).window, reported)
}

/// The state of the machine after these events.
pub fn totals(header: &Header, events: &[Event]) -> Totals
    requires few { length events.now < 2 ^ 32 }
    requires fit { All Fits events.now }
    ensures { result ≡ state.totals header.now (history_of events.now) }
{
    let controller = header.options().controller;
    let reno = reno(header, events);
    let quantities = Quantities {
        events: events.len() as u64,
        window: window_by(controller, reno.window, reported_window(header, events)),
        ssthresh: ssthresh_by(controller, reno),
        rtt: rtt(header, events),
        bytes_in_flight: bytes_in_flight(header, events),
        pto_count: pto_count(header, events),
        owed: owed_count(header, events),
    };
    quantities.totals()
}
