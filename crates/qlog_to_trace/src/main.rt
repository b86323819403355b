//! The program `qlog-to-trace`: makes a trace for `qaudit` of the qlog of a QUIC connection.
#![tactic(auto)]

use qa_arguments::read_arguments;
use qa_check::Metered;
use qa_log_command::{Streams, command, refuse};
use std::io::IsTerminal;
use std::process::ExitCode;

fn main(rt: HostRuntime) -> ExitCode {
    let mut streams = Streams {
        is_terminal: rt.stdin().is_terminal(),
        input: Metered::new(rt.stdin()),
        output: Metered::new(rt.stdout()),
        error: Metered::new(rt.stderr()),
    };
    ExitCode::from(match read_arguments(&rt) {
        Ok(arguments) => command(&rt, rt.alloc(), &arguments, &mut streams),
        Err(fault) => refuse(fault, &mut streams.error),
    })
}
