//! What a trace is warned of.
use qa_check::{Metered, Outcome};
use qa_format::Form;
use qa_sender::Running;
use qa_violations::{Manner, why_around};
use qa_why_command::Warnings;
use std::test::Fail;

/// A key of another name in the header, and a packet of a byte more than its datagrams have.
const TRACE: &str =
    "{\"event\":\"header\",\"version\":1,\"role\":\"server\",\"max_datagram_size\":1200,\"mss\":1200}\n{\"event\":\"sent\",\"time\":0,\"space\":\"app\",\"number\":0,\"size\":1201,\"eliciting\":true,\"in_flight\":true}\n";

const WARNED: &str =
    "a:1: warning: the header has a key mss, which does nothing; is it max_datagram_size?\na:2: warning: packet 0 of app has 1201 bytes, more than max_datagram_size 1200\n";

/// The notes of an accepted trace have both.
#[test]
fn a_trace_is_warned_of(rt: HostRuntime) -> Result<(), Fail> {
    let mut reader = Metered::new(TRACE.as_bytes());
    let mut writer = Metered::new(Vec::new(rt.alloc()));
    let notes = Warnings::new(rt.alloc());
    let manner = Manner {
        form: Form::Text,
        quiet: true,
        around: 0,
    };
    let told = why_around::<Running, _, _, _>(
        rt.alloc(),
        manner,
        "a",
        notes,
        &mut reader,
        &mut writer,
    );
    let (outcome, warnings) = told?;
    assert!(rt; outcome == Outcome::Accepted);
    assert_eq!(rt; warnings.text(), WARNED.as_bytes());
    Ok(())
}
