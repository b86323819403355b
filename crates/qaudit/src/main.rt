//! The program `qaudit`: audits traces, and writes their reports, or what explains them, to
//! standard output.
#![tactic(auto)]

use qa_arguments::read_arguments;
use qa_check::Metered;
use qa_commands::{command, refuse};
use std::process::ExitCode;

fn main(rt: HostRuntime) -> ExitCode {
    let mut input = Metered::new(rt.stdin());
    let mut output = Metered::new(rt.stdout());
    let mut error = Metered::new(rt.stderr());
    ExitCode::from(match read_arguments(&rt) {
        Ok(arguments) => command(
            &rt,
            rt.alloc(),
            &arguments,
            &mut input,
            &mut output,
            &mut error,
        ),
        Err(fault) => refuse(fault, &mut error),
    })
}
