//! The whole command, over streams in memory and a file.
use qa_arguments::{ArgumentsFault, Subcommand, parse, read_arguments};
use qa_check::{AuditFault, Metered, Outcome};
use qa_commands::{command, refuse, status, write_lines};
use std::alloc::{AllocError, Global};
use std::fs;

/// A trace of a header alone.
const TRACE: &str =
    "{\"event\":\"header\",\"version\":1,\"role\":\"client\",\"max_datagram_size\":1200}\n";

/// Its report.
const REPORT: &str =
    "accepted\nevents 0\nwindow 12000\nssthresh none\nbytes_in_flight 0\nlatest_rtt 0\nmin_rtt 0\nsmoothed_rtt 333000\nrttvar 166500\npto_count 0\nowed 0\n";

fn arguments_of(alloc: Global, words: &[&str]) -> Result<Vec<String>, AllocError> {
    let mut arguments = Vec::new(alloc);
    for word in words {
        arguments.push(String::from_str(alloc, word)?)?;
    }
    Ok(arguments)
}

/// Runs the command with these arguments and the trace on standard input, and tells whether it
/// returns this status, leaves so many bytes of the trace unread, and writes these reports and
/// lines.
fn ends_so(
    rt: &HostRuntime,
    arguments: &[String],
    ended: (u8, usize),
    reports: &str,
    lines: &str,
) -> bool {
    let mut input = Metered::new(TRACE.as_bytes());
    let mut output = Metered::new(Vec::new(rt.alloc()));
    let mut error = Metered::new(Vec::new(rt.alloc()));
    let status = command(
        rt,
        rt.alloc(),
        arguments,
        &mut input,
        &mut output,
        &mut error,
    );
    let is_reported = output.into_inner().as_slice() == reports.as_bytes();
    let is_told = error.into_inner().as_slice() == lines.as_bytes();
    (status, input.into_inner().len()) == ended && is_reported && is_told
}

/// The same of arguments that are yet to be copied.
fn runs(rt: &HostRuntime, words: &[&str], ended: (u8, usize), reports: &str, lines: &str) -> bool {
    match arguments_of(rt.alloc(), words) {
        Ok(arguments) => ends_so(rt, &arguments, ended, reports, lines),
        Err(_) => false,
    }
}

/// What the shell could take for text is hidden in an answer.
const HIDDEN: &str = "qaudit: cannot open x\\x0Ay\u{E9}\\xE2\\x80\\xAE\n";

const USAGE: &str = "usage: qaudit check [FILE...] or qaudit explain [FILE]\n";

/// How many bytes the trace has.
const WHOLE: usize = TRACE.len();

/// Whether a file of this name is there then, with this text.
fn is_there(rt: &HostRuntime, name: &str, text: &str) -> bool {
    fs::write(rt, name, text).is_ok()
}

/// Whether the trace is audited, on standard input and in a file. Where a file is named, nothing of
/// standard input is read.
fn audits(rt: &HostRuntime) -> bool {
    is_there(rt, "a", TRACE)
        && runs(rt, &["check"], (0, 0), REPORT, "")
        && runs(rt, &["check", "a"], (0, WHOLE), REPORT, "")
}

#[test]
fn a_command_audits(rt: HostRuntime) {
    assert!(rt; audits(&rt));
}

/// Whether a failure and a refusal are told on standard error, and no report is written.
fn tells(rt: &HostRuntime) -> bool {
    runs(
        rt,
        &["explain", "x\ny\u{E9}\u{202E}"],
        (3, WHOLE),
        "",
        HIDDEN,
    ) && runs(rt, &["help"], (64, WHOLE), "", USAGE)
}

#[test]
fn a_command_tells(rt: HostRuntime) {
    assert!(rt; tells(&rt));
}

/// Thirteen arguments, of which the last names no file.
const MANY: &[&str] = &[
    "check", "b", "b", "b", "b", "b", "b", "b", "b", "b", "b", "b", "c",
];

/// The reports of eleven empty files.
const REPORTS: &str =
    "file b\nunreadable line 1 F7 header-place\nfile b\nunreadable line 1 F7 header-place\nfile b\nunreadable line 1 F7 header-place\nfile b\nunreadable line 1 F7 header-place\nfile b\nunreadable line 1 F7 header-place\nfile b\nunreadable line 1 F7 header-place\nfile b\nunreadable line 1 F7 header-place\nfile b\nunreadable line 1 F7 header-place\nfile b\nunreadable line 1 F7 header-place\nfile b\nunreadable line 1 F7 header-place\nfile b\nunreadable line 1 F7 header-place\n";

/// Whether each of them is audited, and that file looked for.
fn audits_many(rt: &HostRuntime) -> bool {
    is_there(rt, "b", "") && runs(rt, MANY, (3, WHOLE), REPORTS, "qaudit: cannot open c\n")
}

#[test]
fn a_command_has_many_arguments(rt: HostRuntime) {
    assert!(rt; audits_many(&rt));
}

/// A text of two lines that is longer than most, with a tab.
const LONG: &str =
    "a text that has more than two hundred bytes, as the help of a program may have, a text that has more than two hundred bytes, as the help of a program may have,\na text that has more than two hundred bytes\tand a tab";

/// The same with the tab by its byte.
const SHOWN: &str =
    "a text that has more than two hundred bytes, as the help of a program may have, a text that has more than two hundred bytes, as the help of a program may have,\na text that has more than two hundred bytes\\x09and a tab";

/// Whether a text of several lines is written so.
fn is_shown(alloc: Global, text: &str, expected: &str) -> bool {
    let mut output = Metered::new(Vec::new(alloc));
    let is_written = write_lines(text, &mut output).is_ok();
    is_written && output.into_inner().as_slice() == expected.as_bytes()
}

/// Hidden characters of a long text are shown by their bytes.
#[test]
fn a_long_text_is_shown(rt: HostRuntime) {
    assert!(rt; is_shown(rt.alloc(), LONG, SHOWN));
}

#[test]
fn arguments_are_read(rt: HostRuntime) {
    assert!(rt; read_arguments(&rt).is_ok());
}

/// Whether an explanation of one file is asked for.
fn explains_a_file(alloc: Global) -> Option<bool> {
    let arguments = arguments_of(alloc, &["explain", "a"]).ok()?;
    Some(matches!(
        &parse(alloc, &arguments),
        Ok(Subcommand::Explain(Some("a")))
    ))
}

/// Whether two files are refused.
fn refuses_two_files(alloc: Global) -> Option<bool> {
    let arguments = arguments_of(alloc, &["explain", "a", "b"]).ok()?;
    Some(matches!(&parse(alloc, &arguments), Err(ArgumentsFault::Refused)))
}

#[test]
fn arguments_are_parsed(rt: HostRuntime) {
    assert!(rt; explains_a_file(rt.alloc()) == Some(true));
    assert!(rt; refuses_two_files(rt.alloc()) == Some(true));
}

/// The status of a refusal for want of memory, and whether it says so.
fn refuse_without_memory(alloc: Global) -> (u8, bool) {
    let mut error = Metered::new(Vec::new(alloc));
    let status = refuse(ArgumentsFault::OutOfMemory, &mut error);
    let lines = error.into_inner();
    (
        status,
        lines.as_slice() == b"qaudit: out of memory\n".as_slice(),
    )
}

/// The statuses of a trace that is unreadable, and of a failed write.
fn statuses() -> [u8; 2] {
    [
        status(&Ok(Outcome::Unreadable)),
        status(&Err(AuditFault::Write)),
    ]
}

#[test]
fn an_end_has_a_status(rt: HostRuntime) {
    assert!(rt; statuses() == [2, 3]);
    assert!(rt; refuse_without_memory(rt.alloc()) == (3, true));
}
