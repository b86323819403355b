//! What is told of a verdict, by the judge of the events before.
ghost use Rattle.std.specs.Prelude.{◌≡◌, List, ℕ, false, true, Some, Option, IfOk, IfErr, IfSome};
ghost use Rattle.std.specs.Prelude.{IsSome, OnOk, option_map};
ghost use Rattle.std.specs.Option.{ForSome, option_copied};
ghost use Rattle.qa_base.specs.declared.event.Event.{Event as AnEvent};
ghost use Rattle.qa_base.specs.values.Settings.{Settings};
ghost use Rattle.qa_check.specs.Standing.{HoldsRun, by};
ghost use Rattle.qa_check.specs.Walking.{IsEnd};
ghost use Rattle.qa_why.specs.Ending.{CanRefuse, IsEvent, event_of, refusal_of, told_of_end};
ghost use Rattle.qa_why.specs.Why.{TellsBy, good_lines};
ghost use Rattle.qa_why.specs.caveats.Caveats.{AreCaveats, guessed_in};
ghost use Rattle.qa_why.specs.Objects.{object_line as object_line_of};
ghost use Rattle.qa_why.specs.Why as defined;

use crate::caveats::{Caveats, Guessed};
use crate::objects::{
    accepted_members, object_line, owed_at_end_members, refused_members, unreadable_members,
};
use crate::reasons::Reasons;
use crate::texts::{Heading, accepted, broken, owed_at_end, unreadable};
use qa_base::{Rule, Totals};
use qa_check::{AuditFault, Ended, LastLine, Outcome};
use qa_format::{Fault, Form, Line, Verdict};
use std::alloc::{AllocError, Global};

/// What is told of a trace, and the kind of its verdict.
#[derive(Drop)]
pub struct Why {
    /// The kind of its verdict.
    pub outcome: Outcome,
    /// What is told of it: a text, or the members of an object.
    pub text: Vec<u8>,
    /// How many of its good lines were guessed.
    pub guessed: Guessed,
}

/// What is written of it: members stand in the line of an object, behind the name of its file.
pub fn whole(alloc: Global, form: Form, name: &str, told: Why) -> Result<Why, AuditFault>
    ensures whole { IfOk result
        (λ why. (why.text.items ≡ defined.whole form name.now told.text.items)
        × (why.outcome ≡ told.outcome) × (why.guessed ≡ told.guessed)) }
    ensures memory { IfErr result (λ fault. fault ≡ AuditFault.OutOfMemory) }
{
    match form {
        Form::Text => Ok(told),
        Form::Json => in_line(alloc, name, &told),
    }
}

/// The same, of members.
fn in_line(alloc: Global, name: &str, told: &Why) -> Result<Why, AuditFault>
    ensures whole { IfOk result
        (λ why. (why.text.items ≡ object_line_of name.now told.now.text.items)
        × (why.outcome ≡ told.now.outcome) × (why.guessed ≡ told.now.guessed)) }
    ensures memory { IfErr result (λ fault. fault ≡ AuditFault.OutOfMemory) }
{
    let Ok(text) = object_line(alloc, name, &told.text) else {
        return Err(AuditFault::OutOfMemory);
    };
    Ok(Why {
        outcome: told.outcome,
        text,
        guessed: told.guessed,
    })
}

/// Where a trace is refused, and by what.
#[derive(Clone, Copy)]
struct Refusal {
    /// The line whose event is refused, or the last line where the end of the trace is.
    n: u64,
    /// The rule that is broken.
    rule: Rule,
}

/// Why the judge refuses the event that this line says.
fn of_line<J: Reasons + Drop>(
    alloc: Global,
    form: Form,
    name: &str,
    ledger: &J,
    refusal: Refusal,
    line: &LastLine,
) -> Result<Vec<u8>, AllocError>
    requires event { IfSome line.now.said IsEvent × IsSome line.now.said }
    ensures { J.has_failed ledger.now ≡ false → IfOk result (λ text. (c : Settings)
        (h : List AnEvent) → J.judges.stands ledger.now c h
        → text.items ≡ defined.event_text form name.now refusal.n refusal.rule (Some c) h
        (event_of line.now.said) line.now.bytes.items) }
{
    let Refusal { n, rule } = refusal;
    match &line.said {
        Some(Line::Event(event)) => {
            let cause = ledger.reason(event, rule)?;
            match form {
                Form::Text => {
                    let heading = Heading {
                        name,
                        n,
                        word: "refused",
                        rule,
                        unit: ledger.time_unit(),
                    };
                    broken(alloc, &heading, event, &cause, &line.bytes)
                }
                Form::Json => refused_members(alloc, ledger.time_unit(), n, rule, event, &cause),
            }
        }
        _ => unreachable!(),
    }
}

/// Why the end of the trace is refused.
fn of_end<J: Reasons + Drop>(
    alloc: Global,
    form: Form,
    name: &str,
    ledger: &J,
    n: u64,
) -> Result<Vec<u8>, AllocError>
    ensures { J.has_failed ledger.now ≡ false → IfOk result (λ text. (c : Settings)
        (h : List AnEvent) → J.judges.stands ledger.now c h
        → text.items ≡ defined.end_text form name.now n (Some c) h) }
{
    let owed = ledger.debt()?;
    match form {
        Form::Text => owed_at_end(alloc, name, n, &owed),
        Form::Json => owed_at_end_members(alloc, n, &owed),
    }
}

/// Why the event of the line is refused that ended the walk, or the end of the trace.
fn of_refusal<J: Reasons + Drop>(
    alloc: Global,
    form: Form,
    name: &str,
    ended: &Ended<J>,
    refusal: Refusal,
) -> Result<Vec<u8>, AllocError>
    requires works { ForSome ended.now.judge (λ j. J.has_failed j ≡ false) }
    requires judged { IsSome ended.now.judge }
    requires event { IfSome ended.now.line (λ line. IfSome line.said IsEvent × IsSome line.said) }
    ensures { IfOk result (λ text. (header : Option Settings) (h : List AnEvent)
        → HoldsRun J.judges ended.now.judge header h
        → text.items ≡ refusal_of form name.now refusal.n refusal.rule header h ended.now.line) }
{
    match (&ended.judge, &ended.line) {
        (Some(ledger), Some(line)) => of_line(alloc, form, name, ledger, refusal, line),
        (Some(ledger), None) => of_end(alloc, form, name, ledger, refusal.n),
        (None, _) => unreachable!(),
    }
}

/// What is told of an accepted trace.
fn of_accepted(
    alloc: Global,
    form: Form,
    name: &str,
    totals: &Totals,
) -> Result<Vec<u8>, AllocError>
    ensures { IfOk result (λ text. text.items ≡ defined.accepted_in form name.now totals.now) }
{
    match form {
        Form::Text => accepted(alloc, name, totals),
        Form::Json => accepted_members(alloc, totals),
    }
}

/// A line that cannot be read.
#[derive(Clone, Copy)]
struct Unread {
    /// Which it is, counted from 1.
    n: u64,
    /// Why not.
    fault: Fault,
    /// Whether a header stands before it.
    headed: bool,
}

/// Why the line cannot be read, by its bytes.
fn of_fault(
    alloc: Global,
    form: Form,
    name: &str,
    unread: Unread,
    line: Option<&[u8]>,
) -> Result<Vec<u8>, AllocError>
    ensures { IfOk result (λ text. text.items
        ≡ defined.unreadable_in form name.now unread.n unread.fault unread.headed
        (option_copied line.entry)) }
{
    let Unread { n, fault, headed } = unread;
    match form {
        Form::Text => unreadable(alloc, name, n, fault, headed, line),
        Form::Json => unreadable_members(alloc, n, fault, headed),
    }
}

/// The bytes of the line that ended the walk.
fn line_of<J>(ended: &Ended<J>) -> Option<&[u8]>
    ensures { option_copied result ≡ option_map (λ line. line.bytes.items) ended.now.line }
{
    match &ended.line {
        Some(line) => Some(&line.bytes),
        None => None,
    }
}

/// What is told of the verdict that the walk has come to.
fn of_verdict<J: Reasons + Drop>(
    alloc: Global,
    form: Form,
    name: &str,
    ended: &Ended<J>,
) -> Result<Vec<u8>, AllocError>
    requires works { ForSome ended.now.judge (λ j. J.has_failed j ≡ false) }
    requires refusal { CanRefuse ended.now.verdict ended.now.judge ended.now.line }
    ensures { IfOk result (λ text. (header : Option Settings) (h : List AnEvent)
        → HoldsRun J.judges ended.now.judge header h
        → text.items ≡ told_of_end form name.now ended.now.verdict header h ended.now.line) }
{
    match &ended.verdict {
        Verdict::Accepted(totals) => of_accepted(alloc, form, name, totals),
        Verdict::Refused(n, rule, _) => {
            let refusal = Refusal { n: *n, rule: *rule };
            of_refusal(alloc, form, name, ended, refusal)
        }
        Verdict::Unreadable(n, fault, totals) => {
            let unread = Unread {
                n: *n,
                fault: *fault,
                headed: totals.is_some(),
            };
            of_fault(alloc, form, name, unread, line_of(ended))
        }
    }
}

/// Appends what a refusal may rest on besides the sender, in a text.
fn push_caveats<J>(
    form: Form,
    ended: &Ended<J>,
    caveats: &Caveats,
    out: &mut Vec<u8>,
) -> Result<(), AllocError>
    ensures { OnOk result ((ls : List (List ℕ)) → AreCaveats caveats.now ls → out.new.items
        ≡ defined.with_caveats ended.now.verdict form
        (ls, option_map (λ line. line.bytes.items) ended.now.line) out.old.items) }
{
    match (form, &ended.verdict) {
        (Form::Text, Verdict::Refused(n, rule, _)) => {
            caveats.push(out, *n, *rule, line_of(ended).unwrap_or(&[]))
        }
        _ => Ok(()),
    }
}

/// What is told of the verdict that a walk has come to, which kept the line that ended it, and of
/// whose good lines these are the caveats.
///
/// `AuditFault::OutOfMemory` comes where it is out of memory.
pub fn why_of<J: Reasons + Drop>(
    alloc: Global,
    form: Form,
    name: &str,
    ended: &Ended<J>,
    caveats: &Caveats,
) -> Result<Why, AuditFault>
    requires works { ForSome ended.now.judge (λ j. J.has_failed j ≡ false) }
    requires end { (bytes : List ℕ) × IsEnd J.judges true ended.now bytes }
    ensures told { IfOk result (λ why. (bytes : List ℕ) → IsEnd J.judges true ended.now bytes
        → AreCaveats caveats.now (good_lines (by J.judges) bytes)
        → TellsBy (by J.judges) form name.now why.outcome why.text.items bytes
        × (why.guessed ≡ guessed_in (good_lines (by J.judges) bytes))) }
    ensures memory { IfErr result (λ fault. fault ≡ AuditFault.OutOfMemory) }
{
    let Ok(mut text) = of_verdict(alloc, form, name, ended) else {
        return Err(AuditFault::OutOfMemory);
    };
    let Ok(()) = push_caveats(form, ended, caveats, &mut text) else {
        return Err(AuditFault::OutOfMemory);
    };
    Ok(Why {
        outcome: Outcome::of(&ended.verdict),
        text,
        guessed: caveats.guessed(),
    })
}
