//! What is told before a terminal is read.
use qa_check::Metered;
use qa_why_command::announce;
use std::alloc::AllocError;

const WAITS: &str = "qaudit-why: reading standard input\n";

/// What is told of these arguments, and whether they wait for a terminal.
fn told(
    rt: &HostRuntime,
    words: &[&str],
    is_terminal: bool,
) -> Result<(bool, Vec<u8>), AllocError> {
    let mut arguments = Vec::new(rt.alloc());
    for word in words {
        arguments.push(String::from_str(rt.alloc(), word)?)?;
    }
    let mut error = Metered::new(Vec::new(rt.alloc()));
    let waits = announce(rt.alloc(), &arguments, is_terminal, &mut error)?;
    Ok((waits, error.into_inner()))
}

/// Whether this is told of these arguments, and they wait exactly if it is anything.
fn tells(rt: &HostRuntime, words: &[&str], is_terminal: bool, text: &str) -> bool {
    match told(rt, words, is_terminal) {
        Ok((waits, found)) => waits != text.is_empty() && found.as_slice() == text.as_bytes(),
        Err(_) => false,
    }
}

#[test]
fn a_terminal_is_read(rt: HostRuntime) {
    assert!(rt; tells(&rt, &[], true, WAITS));
    assert!(rt; tells(&rt, &["--all"], true, WAITS));
    assert!(rt; tells(&rt, &["a", "-"], true, WAITS));
}

#[test]
fn no_terminal_is_read(rt: HostRuntime) {
    assert!(rt; tells(&rt, &[], false, ""));
    assert!(rt; tells(&rt, &["a", "b"], true, ""));
    assert!(rt; tells(&rt, &["--help"], true, ""));
    assert!(rt; tells(&rt, &["--nothing"], true, ""));
}
