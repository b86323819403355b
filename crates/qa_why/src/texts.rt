//! What is written of a trace, by its verdict.
ghost use Rattle.std.specs.Prelude.{◌≡◌, ◌++◌, IfOk, OnOk, string_bytes};
ghost use Rattle.std.specs.Option.{option_copied};
ghost use Rattle.qa_why.specs.Texts as text;

use crate::caveats::push_remarks;
use crate::faults::push_fault;
use crate::hints::hint;
use crate::lines::{extend, push_line};
use crate::meant::push_meant;
use crate::values::push_wrong_value;
use qa_base::{Event, Rule, TimeUnit, Totals};
use qa_check::shown_name;
use qa_explain::text::{
    push_facts, push_name, push_number, push_owed, push_sentence, push_source, push_words,
    rounding_hint,
};
use qa_format::Fault;
use qa_ledger::{Cause, Owed};
use std::alloc::{AllocError, Global};

/// What stands behind the name: the line, the verdict in a word, and the rule or the fault.
#[tactic(auto, unfolding(crate::specs::Texts::head_tail))]
fn head_tail(alloc: Global, n: u64, word: &str, what: &str) -> Result<String, AllocError>
    ensures { IfOk result (λ tail. string_bytes tail ≡ text.head_tail n word.now what.now) }
{
    let mut tail = String::new(alloc);
    push_number(&mut tail, ":", n)?;
    push_name(&mut tail, ": ", word)?;
    push_name(&mut tail, " ", what)?;
    push_words(&mut tail, ": ")?;
    Ok(tail)
}

#[tactic(auto, unfolding(crate::specs::Texts::head))]
fn head(alloc: Global, name: &str, n: u64, word: &str, what: &str) -> Result<Vec<u8>, AllocError>
    ensures { IfOk result (λ head. head.items ≡ text.head name.now n word.now what.now) }
{
    let mut head = shown_name(alloc, name)?;
    let tail = head_tail(alloc, n, word, what)?;
    extend(&mut head, tail.as_bytes())?;
    Ok(head)
}

// ---- accepted

#[tactic(auto, unfolding(crate::specs::Texts::accepted_tail))]
fn accepted_tail(alloc: Global, events: u64) -> Result<String, AllocError>
    ensures { IfOk result (λ tail. string_bytes tail ≡ text.accepted_tail events) }
{
    let mut tail = String::new(alloc);
    push_number(&mut tail, ": accepted, ", events)?;
    push_words(&mut tail, " events\n")?;
    Ok(tail)
}

/// What is written of an accepted trace. `AllocError` comes where it is out of memory, here and in
/// the other texts.
#[tactic(auto, unfolding(crate::specs::Texts::accepted_text))]
pub fn accepted(alloc: Global, name: &str, totals: &Totals) -> Result<Vec<u8>, AllocError>
    ensures { IfOk result (λ told. told.items ≡ text.accepted_text name.now totals.now) }
{
    let mut told = shown_name(alloc, name)?;
    let tail = accepted_tail(alloc, totals.events)?;
    extend(&mut told, tail.as_bytes())?;
    Ok(told)
}

// ---- refused

#[tactic(auto, unfolding(crate::specs::Texts::refused_sentence))]
fn refused_sentence(
    alloc: Global,
    unit: TimeUnit,
    rule: Rule,
    event: &Event,
    cause: &Cause,
) -> Result<String, AllocError>
    ensures { IfOk result (λ sentence. string_bytes sentence
        ≡ text.refused_sentence unit rule event.now cause.now) }
{
    let mut sentence = String::new(alloc);
    push_sentence(&mut sentence, unit, event, rule, cause)?;
    push_words(&mut sentence, "\n")?;
    Ok(sentence)
}

#[tactic(auto, unfolding(crate::specs::Texts::grounds))]
fn grounds(
    alloc: Global,
    unit: TimeUnit,
    rule: Rule,
    event: &Event,
    cause: &Cause,
) -> Result<String, AllocError>
    ensures { IfOk result (λ grounds. string_bytes grounds
        ≡ text.grounds unit rule event.now cause.now) }
{
    let mut grounds = String::new(alloc);
    push_facts(&mut grounds, event, cause)?;
    push_source(&mut grounds, rule)?;
    push_words(&mut grounds, rounding_hint(unit, event, rule, cause))?;
    Ok(grounds)
}

/// Where a rule is broken, as a text says it first.
#[derive(Clone, Copy)]
pub struct Heading<'t> {
    /// The name of the file.
    pub name: &'t str,
    /// The line whose event breaks the rule.
    pub n: u64,
    /// A word for what follows from it.
    pub word: &'t str,
    /// The rule.
    pub rule: Rule,
    /// The unit of the trace's times.
    pub unit: TimeUnit,
}

/// What is told of a line, which says an event that breaks a rule for this cause. `AllocError`
/// comes where it is out of memory.
#[tactic(auto, unfolding(crate::specs::Texts::broken_text))]
pub fn broken(
    alloc: Global,
    heading: &Heading<'_>,
    event: &Event,
    cause: &Cause,
    line: &[u8],
) -> Result<Vec<u8>, AllocError>
    ensures { IfOk result (λ told. told.items
        ≡ text.broken_text heading.now.word.now heading.now.name.now heading.now.n
        heading.now.unit heading.now.rule event.now cause.now line.now) }
{
    let (n, rule, unit) = (heading.n, heading.rule, heading.unit);
    let what = format!(in alloc; "{rule}")?;
    let sentence = refused_sentence(alloc, unit, rule, event, cause)?;
    let grounds = grounds(alloc, unit, rule, event, cause)?;
    let mut told = head(alloc, heading.name, n, heading.word, what.as_str())?;
    extend(&mut told, sentence.as_bytes())?;
    push_line(alloc, &mut told, n, line)?;
    push_remarks(alloc, &mut told, "  in the log: ", "x_place", line)?;
    extend(&mut told, grounds.as_bytes())?;
    Ok(told)
}

#[tactic(auto, unfolding(crate::specs::Texts::debt_tail))]
fn debt_tail(alloc: Global, owed: &Owed) -> Result<String, AllocError>
    ensures { IfOk result (λ tail. string_bytes tail ≡ text.debt_tail owed.now) }
{
    let mut tail = String::new(alloc);
    push_words(&mut tail, "the trace ends while a loss is owed\n")?;
    push_owed(&mut tail, owed)?;
    push_source(&mut tail, Rule::OwedAtEnd)?;
    Ok(tail)
}

/// V17: why a trace is refused that ends while a loss is owed, its last event on line n.
#[tactic(auto, unfolding(crate::specs::Texts::owed_at_end_text))]
pub fn owed_at_end(alloc: Global, name: &str, n: u64, owed: &Owed) -> Result<Vec<u8>, AllocError>
    ensures { IfOk result (λ told. told.items ≡ text.owed_at_end_text name.now n owed.now) }
{
    let what = format!(in alloc; "{}", Rule::OwedAtEnd)?;
    let tail = debt_tail(alloc, owed)?;
    let mut told = head(alloc, name, n, "refused", what.as_str())?;
    extend(&mut told, tail.as_bytes())?;
    Ok(told)
}

// ---- unreadable

/// The line, where it is shown: not where there is one too many, or too much of it.
fn seen(fault: Fault, line: Option<&[u8]>) -> Option<&[u8]>
    ensures { option_copied result ≡ text.seen fault (option_copied line.entry) }
{
    match fault {
        Fault::LineTooLong | Fault::TooManyLines => None,
        _ => line,
    }
}

fn push_seen(
    alloc: Global,
    out: &mut Vec<u8>,
    n: u64,
    line: Option<&[u8]>,
) -> Result<(), AllocError>
    ensures { OnOk result (out.new.items
        ≡ out.old.items ++ text.seen_text n (option_copied line.entry)) }
{
    match line {
        None => Ok(()),
        Some(line) => push_line(alloc, out, n, line),
    }
}

/// What the file may be, where no header stands before the line.
fn hint_text(headed: bool, line: Option<&[u8]>) -> &'static str
    ensures { result.now ≡ text.hint_text headed (option_copied line.entry) }
{
    match line {
        Some(line) if !headed => hint(line),
        _ => "",
    }
}

#[tactic(auto, unfolding(crate::specs::Texts::unreadable_tail))]
fn push_unreadable(
    alloc: Global,
    out: &mut Vec<u8>,
    fault: Fault,
    headed: bool,
    n: u64,
    line: Option<&[u8]>,
) -> Result<(), AllocError>
    ensures { OnOk result (out.new.items
        ≡ out.old.items ++ text.unreadable_tail fault headed n (option_copied line.entry)) }
{
    let mut sentence = String::new(alloc);
    push_fault(&mut sentence, fault, headed, n, line)?;
    extend(out, sentence.as_bytes())?;
    push_wrong_value(alloc, out, fault, line)?;
    extend(out, b"\n")?;
    push_seen(alloc, out, n, line)?;
    push_meant(alloc, out, fault, line)?;
    extend(out, hint_text(headed, line).as_bytes())
}

/// Why line n cannot be read: by whether a header stands before, and by the line, where it is
/// there.
#[tactic(auto, unfolding(crate::specs::Texts::unreadable_text))]
pub fn unreadable(
    alloc: Global,
    name: &str,
    n: u64,
    fault: Fault,
    headed: bool,
    line: Option<&[u8]>,
) -> Result<Vec<u8>, AllocError>
    ensures { IfOk result (λ told. told.items
        ≡ text.unreadable_text name.now n fault headed (option_copied line.entry)) }
{
    let what = format!(in alloc; "{fault}")?;
    let mut told = head(alloc, name, n, "unreadable", what.as_str())?;
    push_unreadable(alloc, &mut told, fault, headed, n, seen(fault, line))?;
    Ok(told)
}
