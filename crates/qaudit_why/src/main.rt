//! The program `qaudit-why`: says of each trace why it is refused, or cannot be read.
#![tactic(auto)]

use qa_arguments::read_arguments;
use qa_check::Metered;
use qa_why_command::{announce, command, refuse};
use std::io::IsTerminal;
use std::process::ExitCode;

fn main(rt: HostRuntime) -> ExitCode {
    let mut input = Metered::new(rt.stdin());
    let mut output = Metered::new(rt.stdout());
    let mut error = Metered::new(rt.stderr());
    ExitCode::from(match read_arguments(&rt) {
        Ok(arguments) => {
            let is_terminal = rt.stdin().is_terminal();
            let _waits = announce(rt.alloc(), &arguments, is_terminal, &mut error);
            command(
                &rt,
                rt.alloc(),
                &arguments,
                &mut input,
                &mut output,
                &mut error,
            )
        }
        Err(fault) => refuse(fault, &mut error),
    })
}
