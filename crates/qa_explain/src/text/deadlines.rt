//! Deadlines, and the sums that they are.
ghost use Rattle.std.specs.Prelude.{◌≡◌, ◌++◌, ◌-◌, OnOk, string_bytes};
ghost use Rattle.qa_base.specs.values.Names.{space_name};
ghost use Rattle.qa_explain.specs.text.Deadlines as text;

use crate::text::pieces::{push_name, push_number, push_wide, push_words};
use qa_base::{Due, Event, PacketNumber, Ticks};
use qa_ledger::Basis;
use std::alloc::AllocError;

/// The deadline's time.
pub fn due_time(due: Option<Due>) -> u128
    ensures { result ≡ text.due_time due }
{
    match due {
        None => 0,
        Some(due) => due.time,
    }
}

/// How long after a time the deadline is.
fn delay_after(due: Due, time: Ticks) -> u128
    ensures { result ≡ due.time - time }
{
    due.time.saturating_sub(u128::from(time.get()))
}

// ---- how long after a packet

fn push_greater_rtt(out: &mut String, latest: u64, smoothed: u64) -> Result<(), AllocError>
    ensures { OnOk result (string_bytes out.new
        ≡ string_bytes out.old ++ text.greater_rtt latest smoothed) }
{
    if latest < smoothed {
        return push_number(out, "/8 of smoothed_rtt ", smoothed);
    }
    push_number(out, "/8 of latest_rtt ", latest)
}

fn push_part_of_rtt(
    out: &mut String,
    eighths: u64,
    latest: u64,
    smoothed: u64,
) -> Result<(), AllocError>
    ensures { OnOk result (string_bytes out.new
        ≡ string_bytes out.old ++ text.part_of_rtt eighths latest smoothed) }
{
    push_number(out, " (", eighths)?;
    push_greater_rtt(out, latest, smoothed)
}

/// Which RTT makes a loss delay (RFC 9002, section 6.1.2).
fn push_delay_words(
    out: &mut String,
    delay: u128,
    eighths: u64,
    latest: u64,
    smoothed: u64,
) -> Result<(), AllocError>
    ensures { OnOk result (string_bytes out.new
        ≡ string_bytes out.old ++ text.delay_words delay eighths latest smoothed) }
{
    let of_rtt = (u128::from(eighths) * u128::from(latest.max(smoothed)) + 7) / 8;
    if delay <= of_rtt {
        return push_part_of_rtt(out, eighths, latest, smoothed);
    }
    push_words(out, " (kGranularity")
}

#[tactic(auto, unfolding(crate::specs::text::Deadlines::delay_text))]
fn push_delay(
    out: &mut String,
    delay: u128,
    eighths: u64,
    latest: u64,
    smoothed: u64,
) -> Result<(), AllocError>
    ensures { OnOk result (string_bytes out.new
        ≡ string_bytes out.old ++ text.delay_text delay eighths latest smoothed) }
{
    push_delay_words(out, delay, eighths, latest, smoothed)?;
    push_words(out, ")\n")
}

/// What a probe timeout is the sum of (RFC 9002, section 6.2.1).
#[tactic(auto, unfolding(crate::specs::text::Deadlines::timeout_text))]
fn push_timeout(
    out: &mut String,
    smoothed: u64,
    rttvar: u64,
    peer_delay: u64,
    count: u64,
) -> Result<(), AllocError>
    ensures { OnOk result (string_bytes out.new
        ≡ string_bytes out.old ++ text.timeout_text smoothed rttvar peer_delay count) }
{
    push_number(out, " (2^", count)?;
    push_number(out, " * (smoothed_rtt ", smoothed)?;
    push_number(out, " + max(4 * rttvar ", rttvar)?;
    push_number(out, ", kGranularity) + max_ack_delay ", peer_delay)?;
    push_words(out, "))\n")
}

// ---- sums

#[tactic(auto, unfolding(crate::specs::text::Deadlines::packet_sum))]
fn push_packet_sum(
    out: &mut String,
    sent: u64,
    number: u64,
    space: &str,
    delay: u128,
) -> Result<(), AllocError>
    ensures { OnOk result (string_bytes out.new
        ≡ string_bytes out.old ++ text.packet_sum sent number space.now delay) }
{
    push_number(out, " = ", sent)?;
    push_number(out, " (packet ", number)?;
    push_name(out, " of ", space)?;
    push_wide(out, " was sent) + ", delay)
}

#[tactic(auto, unfolding(crate::specs::text::Deadlines::eliciting_sum))]
fn push_eliciting_sum(
    out: &mut String,
    sent: u64,
    space: &str,
    delay: u128,
) -> Result<(), AllocError>
    ensures { OnOk result (string_bytes out.new
        ≡ string_bytes out.old ++ text.eliciting_sum sent space.now delay) }
{
    push_number(out, " = ", sent)?;
    push_name(out, " (the last ack-eliciting packet of ", space)?;
    push_wide(out, " was sent) + ", delay)
}

#[tactic(auto, unfolding(crate::specs::text::Deadlines::kept_sum))]
fn push_kept_sum(out: &mut String, set: u64, delay: u128) -> Result<(), AllocError>
    ensures { OnOk result (string_bytes out.new
        ≡ string_bytes out.old ++ text.kept_sum set delay) }
{
    push_number(out, " = ", set)?;
    push_wide(out, " (the timer was set) + ", delay)
}

/// What a deadline is the sum of.
fn push_sum(out: &mut String, due: Due, basis: Basis) -> Result<(), AllocError>
    ensures { OnOk result (string_bytes out.new
        ≡ string_bytes out.old ++ text.sum_text due.time (space_name due.space) basis) }
{
    let space = due.space.name();
    match basis {
        Basis::Packet {
            number,
            sent,
            latest_rtt,
            smoothed_rtt,
            eighths,
        } => {
            let delay = delay_after(due, sent);
            push_packet_sum(out, sent.get(), number.get(), space, delay)?;
            push_delay(out, delay, eighths, latest_rtt, smoothed_rtt)
        }
        Basis::Eliciting {
            sent,
            smoothed_rtt,
            rttvar,
            peer_delay,
            pto_count,
        } => {
            push_eliciting_sum(out, sent.get(), space, delay_after(due, sent))?;
            push_timeout(out, smoothed_rtt, rttvar, peer_delay, pto_count)
        }
        Basis::Kept {
            set,
            smoothed_rtt,
            rttvar,
            pto_count,
        } => {
            push_kept_sum(out, set.get(), delay_after(due, set))?;
            push_timeout(out, smoothed_rtt, rttvar, 0, pto_count)
        }
    }
}

fn push_known_sum(out: &mut String, due: Due, basis: Option<Basis>) -> Result<(), AllocError>
    ensures { OnOk result (string_bytes out.new
        ≡ string_bytes out.old ++ text.known_sum_text due basis) }
{
    match basis {
        None => push_words(out, "\n"),
        Some(basis) => push_sum(out, due, basis),
    }
}

// ---- lines

#[tactic(auto, unfolding(crate::specs::text::Deadlines::deadline_line))]
fn push_deadline(out: &mut String, due: Due, basis: Option<Basis>) -> Result<(), AllocError>
    ensures { OnOk result (string_bytes out.new
        ≡ string_bytes out.old ++ text.deadline_line due basis) }
{
    push_wide(out, "  deadline ", due.time)?;
    push_known_sum(out, due, basis)
}

/// V13: the deadline, and what it is the sum of.
pub fn push_early(
    out: &mut String,
    due: Option<Due>,
    basis: Option<Basis>,
) -> Result<(), AllocError>
    ensures { OnOk result (string_bytes out.new
        ≡ string_bytes out.old ++ text.early_text due basis) }
{
    match due {
        None => Ok(()),
        Some(due) => push_deadline(out, due, basis),
    }
}

#[tactic(auto, unfolding(crate::specs::text::Deadlines::due_text))]
fn push_due(out: &mut String, words: &str, due: Due) -> Result<(), AllocError>
    ensures { OnOk result (string_bytes out.new
        ≡ string_bytes out.old ++ text.due_text words.now due) }
{
    push_name(out, words, due.kind.name())?;
    push_name(out, " ", due.space.name())?;
    push_wide(out, " at ", due.time)
}

/// V12: what the timer is set for.
pub fn push_set(out: &mut String, due: Option<Due>) -> Result<(), AllocError>
    ensures { OnOk result (string_bytes out.new ≡ string_bytes out.old ++ text.set_text due) }
{
    match due {
        None => Ok(()),
        Some(due) => {
            push_due(out, "  set: ", due)?;
            push_words(out, "\n")
        }
    }
}

#[tactic(auto, unfolding(crate::specs::text::Deadlines::late_line))]
fn push_late_line(
    out: &mut String,
    due: Due,
    since: u64,
    limit: u128,
    now: u64,
) -> Result<(), AllocError>
    ensures { OnOk result (string_bytes out.new
        ≡ string_bytes out.old ++ text.late_line due since limit now) }
{
    push_due(out, "  set: ", due)?;
    push_number(out, ", since ", since)?;
    push_wide(out, "; limit ", limit)?;
    push_number(out, "; this event at ", now)?;
    push_words(out, "\n")
}

/// V18: the deadline, since when it is the timer's, how late the timer may be, and when the event
/// came.
pub fn push_late(
    out: &mut String,
    event: &Event,
    due: Option<Due>,
    since: Ticks,
    limit: Option<u128>,
) -> Result<(), AllocError>
    ensures { OnOk result (string_bytes out.new
        ≡ string_bytes out.old ++ text.late_text event.now due since limit) }
{
    match due {
        None => Ok(()),
        Some(due) => push_late_line(
            out,
            due,
            since.get(),
            limit.unwrap_or(0),
            event.time().get(),
        ),
    }
}
