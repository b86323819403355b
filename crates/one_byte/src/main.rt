//! A test over standard input, by its argument: what lines say, what each call over a trace answers
//! when it is out of memory, or the report of an audit that moves one byte a call.
//!
//! - With `lines` it writes what each line says, ended by LF.
//! - With `calls` it makes each call over a trace, to be run with each allocation refused, and
//!   writes what it answers, a line for each call.
//! - Else it audits a trace as `qaudit check` does, but by a reader that returns one byte a call
//!   and a writer that takes one byte a call, so that no report depends on how reads and writes
//!   are cut. It ends with the status of `qaudit`.
//!
//! The traces and the lines of the conformance corpus are run through it. Lines and calls end with
//! status 0, or with 3 where a stream fails or it is out of memory.
#![tactic(auto)]

mod calls;
mod lines;
mod moving;

use calls::tell_all;
use lines::answer_input;
use moving::OneByte;
use qa_check::{AuditFault, Metered, Outcome, audit};
use qa_reference::Whole;
use std::env;
use std::process::ExitCode;
use std::rt::Env;

/// The exit status where a stream fails or it is out of memory.
const FAULT: u8 = 3;

/// What is tested.
#[derive(Clone, Copy, Debug)]
enum Part {
    OneByte,
    Lines,
    Calls,
}

fn main(rt: HostRuntime) -> ExitCode {
    let Some(part) = part_of(&rt) else {
        return ExitCode::from(FAULT);
    };
    ExitCode::from(match part {
        Part::OneByte => {
            let mut reader = OneByte {
                inner: Metered::new(rt.stdin()),
            };
            let mut writer = OneByte {
                inner: Metered::new(rt.stdout()),
            };
            status_of(audit::<Whole, _, _>(rt.alloc(), &mut reader, &mut writer))
        }
        Part::Lines => match answer_input(rt.alloc(), &mut rt.stdin(), rt.stdout()) {
            Ok(()) => 0,
            Err(failure) => {
                // A failure of standard error changes nothing.
                let _ = eprintln!(rt; "one_byte: {failure}");
                FAULT
            }
        },
        Part::Calls => status_if(tell_all(rt.alloc(), &mut rt.stdin(), rt.stdout())),
    })
}

/// What the argument names; none where the arguments cannot be read.
fn part_of(rt: &(impl Env + AllocGlobal)) -> Option<Part> {
    let Ok(arguments) = env::args(rt) else {
        return None;
    };
    let Ok(words) = arguments.skip(1).collect::<Vec<String>>(rt.alloc()) else {
        return None;
    };
    Some(match words.first() {
        Some(word) if word.as_str() == "lines" => Part::Lines,
        Some(word) if word.as_str() == "calls" => Part::Calls,
        _ => Part::OneByte,
    })
}

/// The exit status of `qaudit`.
fn status_of(ended: Result<Outcome, AuditFault>) -> u8 {
    match ended {
        Ok(Outcome::Accepted) => 0,
        Ok(Outcome::Refused) => 1,
        Ok(Outcome::Unreadable) => 2,
        Err(_) => FAULT,
    }
}

/// The exit status where all was told, or not.
fn status_if(is_told: bool) -> u8 {
    if is_told { 0 } else { FAULT }
}
