//! The auditor for C: what `include/qaudit.h` declares.
//!
//! No call asks for more than its types say: each wrong order of calls has an answer.
#![tactic(auto)]

ghost use Rattle.std.specs.Prelude.{◌≡◌, ◌≢◌, ◌⊎◌, [], List, ℕ, None, Some, IfSome, is_some};
ghost use Rattle.std.specs.Prelude.{length};
ghost use Rattle.qa_format.specs.format.Reading.{reading};
ghost use Rattle.qa_format.specs.verdicts.Report as text;
ghost use Rattle.qa_format.specs.verdicts.Verdict.{strict, verdict};
ghost use Rattle.qaudit_c.specs.Calls.{Feeds, Finishes, Hands, HasNoMemory, HoldsFed, Tells};
ghost use Rattle.qaudit_c.specs.Calls.{status, text_kept, verdict_known};
ghost use Rattle.qaudit_c.specs.Events as said;
ghost use Rattle.qaudit_c.specs.Numbers as numbers;
ghost use Rattle.qaudit_c.specs.Reasons as reasons;
ghost use Rattle.qaudit_c.specs.Statuses as statuses;
ghost use Rattle.qaudit_c.specs.Telling as telling;

mod calls;
mod events;
mod handle;
mod header;
mod kept;
mod numbers;
mod parts;
mod reasons;
mod resting;
mod structs;
mod telling;
mod texts;
mod with_ranges;

use calls::{CLOSED, OPEN, hand_event, hand_header, number, out_of_range};
use events::{moment_of, sent_values, timer_values, values_of};
pub use handle::Handle;
use header::header_of;
pub use kept::Qaudit;
use kept::{close, put, take, try_open, try_open_recorded};
use qa_base::{Event, Ticks};
use qa_check::Verdict;
use reasons::tell_why;
use resting::tell_allowed;
use std::alloc::Global;
pub use structs::{Acknowledgment, FiredTimer, Metrics, PacketRange, SentPacket, TraceHeader};
use telling::for_c;
pub use telling::{Told, ToldAllowance, ToldTotals};
use texts::{put_fault_name, put_key_name, put_line, put_report, put_rule_name};
use with_ranges::{ack_to, lost_to};

// ---- opening and closing

/// Opens a session that was handed nothing; what was open before is closed. It is closed where it
/// is out of memory.
#[unsafe(no_mangle)]
pub extern "C" fn qaudit_open(alloc: Global, qaudit: &mut Qaudit) -> u32
    ensures status { result ≡ status qaudit.new.handle.held }
    ensures answer { (result ≡ statuses.still_open) ⊎ (result ≡ statuses.closed) }
    ensures fed { result ≡ statuses.still_open → HoldsFed qaudit.new.handle.held [] }
    ensures off { IfSome qaudit.new.handle.held (λ run. run.recorded ≡ None) }
{
    close(alloc, qaudit);
    match try_open(alloc) {
        Some(session) => {
            put(qaudit, session);
            OPEN
        }
        None => CLOSED,
    }
}

/// Opens a session as `qaudit_open` does, which keeps the text of what it is handed: pieces as they
/// are, and of an event the line that says it, with an LF. Where there is no memory for more text,
/// it keeps none from then on.
#[unsafe(no_mangle)]
pub extern "C" fn qaudit_open_recorded(alloc: Global, qaudit: &mut Qaudit) -> u32
    ensures status { result ≡ status qaudit.new.handle.held }
    ensures answer { (result ≡ statuses.still_open) ⊎ (result ≡ statuses.closed) }
    ensures fed { result ≡ statuses.still_open → HoldsFed qaudit.new.handle.held [] }
    ensures on { IfSome qaudit.new.handle.held (λ run. run.recorded ≡ Some []) }
{
    close(alloc, qaudit);
    match try_open_recorded(alloc) {
        Some(session) => {
            put(qaudit, session);
            OPEN
        }
        None => CLOSED,
    }
}

/// Closes it, and gives its memory back.
#[unsafe(no_mangle)]
pub extern "C" fn qaudit_close(alloc: Global, qaudit: &mut Qaudit)
    ensures { qaudit.new.handle.held ≡ None }
{
    close(alloc, qaudit);
}

// ---- what is handed in

/// Takes the next bytes. After `qaudit_finish` it changes nothing.
#[unsafe(no_mangle)]
pub extern "C" fn qaudit_feed(alloc: Global, qaudit: &mut Qaudit, piece: &[u8]) -> u32
    ensures { Feeds piece.now result qaudit.old.handle.held qaudit.new.handle.held }
{
    let Some(mut session) = take(alloc, qaudit) else {
        return CLOSED;
    };
    let phase = session.feed(piece);
    put(qaudit, session);
    number(phase)
}

/// Takes a header by its fields.
#[unsafe(no_mangle)]
pub extern "C" fn qaudit_header(alloc: Global, qaudit: &mut Qaudit, header: &TraceHeader) -> u32
    ensures handed { Hands
        (said.line_of_header (said.header_said header.now)) result qaudit.old.handle.held
        qaudit.new.handle.held }
    ensures memory { result ≢ statuses.not_taken }
{
    hand_header(alloc, qaudit, header_of(header))
}

/// Takes a packet that was sent.
#[unsafe(no_mangle)]
pub extern "C" fn qaudit_sent(alloc: Global, qaudit: &mut Qaudit, packet: &SentPacket) -> u32
    ensures handed { Hands
        (said.line_of_event (said.sent_said packet.now)) result qaudit.old.handle.held
        qaudit.new.handle.held }
    ensures memory { result ≢ statuses.not_taken }
{
    match sent_values(packet) {
        Some((time, space, number, permission)) => {
            let event = Event::Sent(qa_base::SentPacket {
                time,
                space,
                number,
                size: packet.size,
                eliciting: packet.eliciting,
                in_flight: packet.in_flight,
                permission,
            });
            hand_event(alloc, qaudit, event)
        }
        None => out_of_range(alloc, qaudit),
    }
}

/// Takes an acknowledgment.
#[unsafe(no_mangle)]
pub extern "C" fn qaudit_ack(
    alloc: Global,
    qaudit: &mut Qaudit,
    ack: &Acknowledgment,
    ranges: &[PacketRange],
) -> u32
    ensures { Hands (said.line_of_event (said.ack_said ack.now ranges.now)) result
        qaudit.old.handle.held qaudit.new.handle.held }
{
    let Some(mut session) = take(alloc, qaudit) else {
        return CLOSED;
    };
    let status = ack_to(alloc, &mut session, ack, ranges);
    put(qaudit, session);
    status
}

/// Takes packets that were declared lost.
#[unsafe(no_mangle)]
pub extern "C" fn qaudit_lost(
    alloc: Global,
    qaudit: &mut Qaudit,
    time: u64,
    space: u32,
    ranges: &[PacketRange],
) -> u32
    ensures { Hands (said.line_of_event (said.lost_said time space ranges.now)) result
        qaudit.old.handle.held qaudit.new.handle.held }
{
    let Some(mut session) = take(alloc, qaudit) else {
        return CLOSED;
    };
    let status = lost_to(alloc, &mut session, time, space, ranges);
    put(qaudit, session);
    status
}

/// Takes a timer that fired.
#[unsafe(no_mangle)]
pub extern "C" fn qaudit_timer(alloc: Global, qaudit: &mut Qaudit, timer: &FiredTimer) -> u32
    ensures handed { Hands
        (said.line_of_event (said.timer_said timer.now)) result qaudit.old.handle.held
        qaudit.new.handle.held }
    ensures memory { result ≢ statuses.not_taken }
{
    match timer_values(timer) {
        Some((time, kind, space)) => hand_event(alloc, qaudit, Event::Timer { time, kind, space }),
        None => out_of_range(alloc, qaudit),
    }
}

/// Takes keys that were discarded.
#[unsafe(no_mangle)]
pub extern "C" fn qaudit_discard(alloc: Global, qaudit: &mut Qaudit, time: u64, space: u32) -> u32
    ensures handed { Hands
        (said.line_of_event (said.discard_said time space)) result qaudit.old.handle.held
        qaudit.new.handle.held }
    ensures memory { result ≢ statuses.not_taken }
{
    match moment_of(time, space) {
        Some((time, space)) => hand_event(alloc, qaudit, Event::Discard { time, space }),
        None => out_of_range(alloc, qaudit),
    }
}

/// Takes a handshake that was confirmed.
#[unsafe(no_mangle)]
pub extern "C" fn qaudit_confirmed(alloc: Global, qaudit: &mut Qaudit, time: u64) -> u32
    ensures handed { Hands
        (said.line_of_event (said.confirmed_said time)) result qaudit.old.handle.held
        qaudit.new.handle.held }
    ensures memory { result ≢ statuses.not_taken }
{
    match Ticks::new(time) {
        Some(time) => hand_event(alloc, qaudit, Event::Confirmed { time }),
        None => out_of_range(alloc, qaudit),
    }
}

/// Takes Handshake keys that are there.
#[unsafe(no_mangle)]
pub extern "C" fn qaudit_keys(alloc: Global, qaudit: &mut Qaudit, time: u64) -> u32
    ensures handed { Hands
        (said.line_of_event (said.keys_said time)) result qaudit.old.handle.held
        qaudit.new.handle.held }
    ensures memory { result ≢ statuses.not_taken }
{
    match Ticks::new(time) {
        Some(time) => hand_event(alloc, qaudit, Event::Keys { time }),
        None => out_of_range(alloc, qaudit),
    }
}

/// Takes what a sender reports of itself.
#[unsafe(no_mangle)]
pub extern "C" fn qaudit_metrics(alloc: Global, qaudit: &mut Qaudit, metrics: &Metrics) -> u32
    ensures handed { Hands
        (said.line_of_event (said.metrics_said metrics.now)) result qaudit.old.handle.held
        qaudit.new.handle.held }
    ensures memory { result ≢ statuses.not_taken }
{
    match Ticks::new(metrics.time) {
        Some(time) => {
            let values = values_of(metrics);
            hand_event(alloc, qaudit, Event::Metrics { time, values })
        }
        None => out_of_range(alloc, qaudit),
    }
}

/// Says that nothing follows.
#[unsafe(no_mangle)]
pub extern "C" fn qaudit_finish(alloc: Global, qaudit: &mut Qaudit) -> u32
    ensures { Finishes result qaudit.old.handle.held qaudit.new.handle.held }
{
    let Some(mut session) = take(alloc, qaudit) else {
        return CLOSED;
    };
    let phase = session.finish();
    put(qaudit, session);
    number(phase)
}

// ---- what is told

/// How far it is; it stays as it is.
#[unsafe(no_mangle)]
pub extern "C" fn qaudit_status(alloc: Global, qaudit: &mut Qaudit) -> u32
    ensures status { result ≡ status qaudit.old.handle.held }
    ensures kept { qaudit.new.handle.held ≡ qaudit.old.handle.held }
{
    let Some(session) = take(alloc, qaudit) else {
        return CLOSED;
    };
    let phase = session.phase();
    put(qaudit, session);
    number(phase)
}

/// The verdict that is known of what C keeps, which stays as it is.
fn known(alloc: Global, qaudit: &mut Qaudit) -> Option<Verdict>
    ensures kept { qaudit.new.handle.held ≡ qaudit.old.handle.held }
    ensures known { result ≡ verdict_known qaudit.old.handle.held }
    ensures verdict { IfSome result (λ v. (bytes : List ℕ) → HoldsFed qaudit.old.handle.held bytes
        → v ≡ verdict (strict reading) bytes) }
{
    let session = take(alloc, qaudit)?;
    let verdict = session.verdict();
    put(qaudit, session);
    verdict
}

/// Tells the verdict, where it is fixed or finished: returns whether it is. It is that of what was
/// handed in.
#[unsafe(no_mangle)]
pub extern "C" fn qaudit_verdict(alloc: Global, qaudit: &mut Qaudit, out: &mut Told) -> bool
    ensures known { result ≡ is_some (verdict_known qaudit.old.handle.held) }
    ensures kept { qaudit.new.handle.held ≡ qaudit.old.handle.held }
    ensures told { IfSome (verdict_known qaudit.old.handle.held) (λ v. (out.new ≡ telling.told v)
        × ((bytes : List ℕ) → HoldsFed qaudit.old.handle.held bytes
        → v ≡ verdict (strict reading) bytes)) }
    ensures untold { verdict_known qaudit.old.handle.held ≡ None → out.new ≡ out.old }
{
    match known(alloc, qaudit) {
        Some(verdict) => {
            *out = for_c(&verdict);
            true
        }
        None => false,
    }
}

/// Puts the report's text at the front of `out`, and returns how long it is: 0 where no verdict is
/// known or it is out of memory. Where `out` is shorter, nothing is put there.
#[unsafe(no_mangle)]
pub extern "C" fn qaudit_report(alloc: Global, qaudit: &mut Qaudit, out: &mut [u8]) -> usize
    ensures kept { qaudit.new.handle.held ≡ qaudit.old.handle.held }
    ensures length { length out.new ≡ length out.old }
    ensures none { result ≡ 0 → out.new ≡ out.old }
    ensures unknown { verdict_known qaudit.old.handle.held ≡ None → result ≡ 0 }
    ensures told { result ≢ 0 → (bytes : List ℕ) → HoldsFed qaudit.old.handle.held bytes
        → Tells result out.old out.new (text.report (verdict (strict reading) bytes)) }
{
    match known(alloc, qaudit) {
        Some(verdict) => put_report(alloc, &verdict, out),
        None => 0,
    }
}

/// Puts the first line of the report at the front of `out`, as `qaudit_report` puts all of it.
#[unsafe(no_mangle)]
pub extern "C" fn qaudit_first_line(alloc: Global, qaudit: &mut Qaudit, out: &mut [u8]) -> usize
    ensures kept { qaudit.new.handle.held ≡ qaudit.old.handle.held }
    ensures length { length out.new ≡ length out.old }
    ensures none { result ≡ 0 → out.new ≡ out.old }
    ensures unknown { verdict_known qaudit.old.handle.held ≡ None → result ≡ 0 }
    ensures told { result ≢ 0 → (bytes : List ℕ) → HoldsFed qaudit.old.handle.held bytes
        → Tells result out.old out.new (text.verdict_text (verdict (strict reading) bytes)) }
{
    match known(alloc, qaudit) {
        Some(verdict) => put_line(alloc, &verdict, out),
        None => 0,
    }
}

/// Puts why what was recorded is refused at the front of `out`, as `qaudit-why` tells it of a trace
/// on standard input that ends there, and returns how long it is: 0 where nothing is recorded or it
/// is out of memory. Where `out` is shorter, nothing is put there.
#[unsafe(no_mangle)]
pub extern "C" fn qaudit_why(alloc: Global, qaudit: &mut Qaudit, out: &mut [u8]) -> usize
    ensures kept { qaudit.new.handle.held ≡ qaudit.old.handle.held }
    ensures length { length out.new ≡ length out.old }
    ensures none { result ≡ 0 → out.new ≡ out.old }
    ensures memory { HasNoMemory qaudit.old.handle.held → result ≡ 0 }
    ensures nothing { text_kept qaudit.old.handle.held ≡ None → result ≡ 0 }
    ensures told { result ≢ 0 → (bytes : List ℕ) × HoldsFed qaudit.old.handle.held bytes
        × (text_kept qaudit.old.handle.held ≡ Some bytes)
        × Tells result out.old out.new (reasons.why bytes) }
{
    tell_why(alloc, qaudit, 0, out)
}

/// Puts the same at the front of `out`, with so many of the last good lines before, as
/// `qaudit-why --around` tells it.
#[unsafe(no_mangle)]
pub extern "C" fn qaudit_around(
    alloc: Global,
    qaudit: &mut Qaudit,
    rows: u16,
    out: &mut [u8],
) -> usize
    ensures kept { qaudit.new.handle.held ≡ qaudit.old.handle.held }
    ensures length { length out.new ≡ length out.old }
    ensures none { result ≡ 0 → out.new ≡ out.old }
    ensures memory { HasNoMemory qaudit.old.handle.held → result ≡ 0 }
    ensures nothing { text_kept qaudit.old.handle.held ≡ None → result ≡ 0 }
    ensures told { result ≢ 0 → (bytes : List ℕ) × HoldsFed qaudit.old.handle.held bytes
        × (text_kept qaudit.old.handle.held ≡ Some bytes)
        × Tells result out.old out.new (reasons.around rows bytes) }
{
    tell_why(alloc, qaudit, rows, out)
}

/// Puts what the header allowed past each rule at the front of `out`, in the order of the rules,
/// and returns how much that is: 0 where nothing was allowed, where what was recorded is not
/// accepted as a trace that ends there, where nothing is recorded or it is out of memory. Where
/// `out` is shorter, nothing is put there.
#[unsafe(no_mangle)]
pub extern "C" fn qaudit_allowed(
    alloc: Global,
    qaudit: &mut Qaudit,
    out: &mut [ToldAllowance],
) -> usize
    ensures kept { qaudit.new.handle.held ≡ qaudit.old.handle.held }
    ensures length { length out.new ≡ length out.old }
    ensures none { result ≡ 0 → out.new ≡ out.old }
    ensures memory { HasNoMemory qaudit.old.handle.held → result ≡ 0 }
    ensures nothing { text_kept qaudit.old.handle.held ≡ None → result ≡ 0 }
    ensures told { result ≢ 0 → (bytes : List ℕ) × HoldsFed qaudit.old.handle.held bytes
        × (text_kept qaudit.old.handle.held ≡ Some bytes)
        × Tells result out.old out.new (telling.told_allowances bytes) }
{
    tell_allowed(alloc, qaudit, out)
}

/// Puts the name of the rule of this number, 1 for V1, at the front of `out`, where it fits, and
/// returns how long it is; 0 where there is none.
#[unsafe(no_mangle)]
pub extern "C" fn qaudit_rule_name(rule: u32, out: &mut [u8]) -> usize
    ensures length { length out.new ≡ length out.old }
    ensures told { Tells result out.old out.new (numbers.rule_named (numbers.rule_numbered rule)) }
{
    put_rule_name(rule, out)
}

/// Puts the name of the fault of this number, 1 for F1, as `qaudit_rule_name` puts that of a rule.
#[unsafe(no_mangle)]
pub extern "C" fn qaudit_fault_name(fault: u32, out: &mut [u8]) -> usize
    ensures length { length out.new ≡ length out.old }
    ensures told { Tells result out.old out.new
        (numbers.fault_named (numbers.fault_numbered fault)) }
{
    put_fault_name(fault, out)
}

/// Puts the name of the key of this number, as `qaudit_rule_name` puts that of a rule.
#[unsafe(no_mangle)]
pub extern "C" fn qaudit_key_name(key: u32, out: &mut [u8]) -> usize
    ensures length { length out.new ≡ length out.old }
    ensures told { Tells result out.old out.new (numbers.key_named (numbers.key_numbered key)) }
{
    put_key_name(key, out)
}
