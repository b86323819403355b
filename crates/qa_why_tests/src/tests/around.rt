//! The rows of the last good lines before a trace is refused, as conformance/ has them.
use qa_check::{Metered, Outcome};
use qa_format::Form;
use qa_sender::Running;
use qa_violations::{Manner, why_around};
use qa_why::NoNotes;
use std::alloc::Global;

/// A packet number that is sent twice, which breaks V6, behind a blank line.
const TRACE: &str =
    "{\"event\":\"header\",\"version\":1,\"role\":\"client\",\"max_datagram_size\":1200}\n{\"event\":\"sent\",\"time\":10,\"space\":\"initial\",\"number\":0,\"size\":1200,\"eliciting\":true,\"in_flight\":true}\n\n{\"event\":\"sent\",\"time\":11,\"space\":\"initial\",\"number\":0,\"size\":1200,\"eliciting\":true,\"in_flight\":true}\n";

/// Why it is refused, and the row of the packet, the last line that is not blank. The timer is set
/// for a probe timeout: 333,000 and four times 166,500 after the packet.
const ONE_ROW: &str =
    "a:4: refused V6 number-not-higher: packet 0 of initial is not above all that were sent in its space\n  4 | {\"event\":\"sent\",\"time\":11,\"space\":\"initial\",\"number\":0,\"size\":1200,\"eliciting\":true,\"in_flight\":true}\n  greatest sent: initial 0\n  RFC 9000, 12.3, MUST: increase the packet number within a space.\n  before it:\n  line 2 sent at 10: window 12000 bytes_in_flight 1200 ssthresh none latest_rtt 0 min_rtt 0 smoothed_rtt 333000 rttvar 166500 pto_count 0 owed 0 timer pto initial 999010\n";

/// The same, and the row of the header before that.
const ALL_ROWS: &str =
    "a:4: refused V6 number-not-higher: packet 0 of initial is not above all that were sent in its space\n  4 | {\"event\":\"sent\",\"time\":11,\"space\":\"initial\",\"number\":0,\"size\":1200,\"eliciting\":true,\"in_flight\":true}\n  greatest sent: initial 0\n  RFC 9000, 12.3, MUST: increase the packet number within a space.\n  before it:\n  line 1 header: window 12000 bytes_in_flight 0 ssthresh none latest_rtt 0 min_rtt 0 smoothed_rtt 333000 rttvar 166500 pto_count 0 owed 0 no timer\n  line 2 sent at 10: window 12000 bytes_in_flight 1200 ssthresh none latest_rtt 0 min_rtt 0 smoothed_rtt 333000 rttvar 166500 pto_count 0 owed 0 timer pto initial 999010\n";

/// The same as an object, with one row.
const OBJECT: &str =
    "{\"file\":\"a\",\"verdict\":\"refused\",\"line\":4,\"rule\":\"V6\",\"name\":\"number-not-higher\",\"requirement\":\"MUST\",\"section\":\"RFC 9000, 12.3\",\"event\":\"sent\",\"time_us\":11,\"space\":\"initial\",\"number\":0,\"size_bytes\":1200,\"greatest_sent\":0,\"around\":[{\"line\":2,\"event\":{\"eliciting\":true,\"event\":\"sent\",\"in_flight\":true,\"leave\":\"window\",\"number\":0,\"size\":1200,\"space\":\"initial\",\"time\":10},\"state\":{\"events\":1,\"window_bytes\":12000,\"ssthresh_bytes\":null,\"in_flight_bytes\":1200,\"latest_rtt_us\":0,\"min_rtt_us\":0,\"smoothed_rtt_us\":333000,\"rttvar_us\":166500,\"pto_count\":0,\"owed_space\":null,\"owed\":[],\"set_kind\":\"pto\",\"set_space\":\"initial\",\"deadline_us\":999010}}]}\n";

/// Whether this is what is told of the trace, with so many rows before the refusal.
fn tells(alloc: Global, form: Form, around: u16, text: &str) -> bool {
    let manner = Manner {
        form,
        quiet: false,
        around,
    };
    let mut reader = Metered::new(TRACE.as_bytes());
    let mut writer = Metered::new(Vec::new(alloc));
    let told = why_around::<Running, _, _, _>(
        alloc,
        manner,
        "a",
        NoNotes,
        &mut reader,
        &mut writer,
    );
    let is_refused = match told {
        Ok((outcome, _)) => outcome == Outcome::Refused,
        Err(_) => false,
    };
    is_refused && writer.into_inner().as_slice() == text.as_bytes()
}

/// The last line that is not blank stands behind the text, and no more where one row is asked for.
#[test]
fn one_row_stands_before(rt: HostRuntime) {
    assert!(rt; tells(rt.alloc(), Form::Text, 1, ONE_ROW));
}

/// Of all lines there is a row, where they are fewer than are asked for.
#[test]
fn all_rows_stand_before(rt: HostRuntime) {
    assert!(rt; tells(rt.alloc(), Form::Text, 5, ALL_ROWS));
}

/// In an object the last line that is not blank is the member behind the others.
#[test]
fn one_object_stands_before(rt: HostRuntime) {
    assert!(rt; tells(rt.alloc(), Form::Json, 1, OBJECT));
}
