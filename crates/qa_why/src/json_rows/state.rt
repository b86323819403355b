//! The state of the machine as a JSON object.
ghost use Rattle.std.specs.Prelude.{◌≡◌, ◌++◌, false, List, IfOk, OnOk};
ghost use Rattle.qa_base.specs.declared.event.Event.{Event as AnEvent};
ghost use Rattle.qa_base.specs.values.Settings.{Settings};
ghost use Rattle.qa_explain.specs.members.Object.{text_of};
ghost use Rattle.qa_why.specs.json_rows.State as text;

use qa_base::{Due, TimeUnit, Totals};
use qa_explain::members::{Object, push_bytes, push_due, push_owed_runs};
use qa_ledger::{Explains, Owed};
use std::alloc::{AllocError, Global};

/// The unit of a number of bytes, at the end of a key.
const BYTES: &str = "bytes";

/// The object, with how many events there are.
#[tactic(auto, unfolding(crate::specs::json_rows::State::begun))]
fn begun(alloc: Global, events: u64) -> Result<Object, AllocError>
    ensures { IfOk result (λ object. object ≡ text.begun events) }
{
    let mut object = Object::new(alloc)?;
    object.number("events", u128::from(events))?;
    Ok(object)
}

/// The congestion controller (RFC 9002, section 7).
#[tactic(auto, unfolding(crate::specs::json_rows::State::congestion))]
fn push_congestion(out: &mut Object, totals: &Totals) -> Result<(), AllocError>
    ensures { OnOk result (out.new ≡ out.old ++ text.congestion totals.now) }
{
    out.amount("window", BYTES, u128::from(totals.window))?;
    push_bytes(out, "ssthresh", totals.ssthresh)?;
    out.amount("in_flight", BYTES, u128::from(totals.bytes_in_flight))
}

/// The latest and the least sample of the RTT (RFC 9002, section 5).
#[tactic(auto, unfolding(crate::specs::json_rows::State::samples))]
fn push_samples(out: &mut Object, unit: &str, totals: &Totals) -> Result<(), AllocError>
    ensures { OnOk result (out.new ≡ out.old ++ text.samples unit.now totals.now) }
{
    out.amount("latest_rtt", unit, u128::from(totals.latest_rtt))?;
    out.amount("min_rtt", unit, u128::from(totals.min_rtt))
}

/// The estimate of the RTT, and how many probe timeouts there were (RFC 9002, sections 5.3 and
/// 6.2.1).
#[tactic(auto, unfolding(crate::specs::json_rows::State::estimate))]
fn push_estimate(out: &mut Object, unit: &str, totals: &Totals) -> Result<(), AllocError>
    ensures { OnOk result (out.new ≡ out.old ++ text.estimate unit.now totals.now) }
{
    out.amount("smoothed_rtt", unit, u128::from(totals.smoothed_rtt))?;
    out.amount("rttvar", unit, u128::from(totals.rttvar))?;
    out.number("pto_count", u128::from(totals.pto_count))
}

/// The object of a state: its totals, what is owed and what the timer is set for, with times in the
/// unit.
#[tactic(auto, unfolding(crate::specs::json_rows::State::state_members))]
fn state_object(
    alloc: Global,
    unit: TimeUnit,
    totals: &Totals,
    owed: &Owed,
    due: Option<Due>,
) -> Result<Object, AllocError>
    ensures { IfOk result (λ object. object ≡ text.state_members unit totals.now owed.now due) }
{
    let mut object = begun(alloc, totals.events)?;
    push_congestion(&mut object, totals)?;
    push_samples(&mut object, unit.name(), totals)?;
    push_estimate(&mut object, unit.name(), totals)?;
    push_owed_runs(&mut object, owed)?;
    push_due(&mut object, unit, due)?;
    Ok(object)
}

/// Its text, without LF.
fn text_of_state(
    alloc: Global,
    unit: TimeUnit,
    totals: &Totals,
    owed: &Owed,
    due: Option<Due>,
) -> Result<Vec<u8>, AllocError>
    ensures { IfOk result (λ bytes. bytes.items
        ≡ text_of (text.state_members unit totals.now owed.now due)) }
{
    state_object(alloc, unit, totals, owed, due)?.into_text()
}

/// The text of the state behind the events that a ledger admitted, without LF. `AllocError` comes
/// where it is out of memory.
pub(crate) fn state_text<L: Explains>(alloc: Global, ledger: &L) -> Result<Vec<u8>, AllocError>
    ensures { L.has_failed ledger.now ≡ false → IfOk result (λ bytes. (c : Settings)
        (h : List AnEvent) → L.stands ledger.now c h → bytes.items ≡ text.state_text c h) }
{
    let totals = ledger.totals();
    let owed = ledger.owed()?;
    text_of_state(alloc, ledger.unit(), &totals, &owed, ledger.deadline())
}
