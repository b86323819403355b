//! What is wrong with a line that cannot be read.
ghost use Rattle.std.specs.Prelude.{◌≡◌, ◌++◌, OnOk, string_bytes};
ghost use Rattle.std.specs.Option.{option_copied};
ghost use Rattle.qa_why.specs.Faults as text;

use qa_base::Key;
use qa_explain::text::{push_name, push_words};
use qa_format::Fault;
use std::alloc::AllocError;

/// What the value of a key has to be.
#[tactic(auto, unfolding(crate::specs::Faults::wanted))]
pub fn wanted(key: Key) -> &'static str
    ensures { result.now ≡ text.wanted key }
{
    match key {
        Key::Event => {
            "the string header, sent, ack, lost, timer, discard, confirmed, keys or metrics"
        }
        Key::Version => "the integer 1, 2 or 3",
        Key::Role => "the string client or server",
        Key::Unit => "the string us or ns",
        Key::Window => "the string newreno or reported",
        Key::MaxDatagramSize => "an integer from 1200 to 65527",
        Key::MaxAckDelay => "an integer from 0 to 16383000, or to 16383000000 where the unit is ns",
        Key::InitialRtt => {
            "an integer from 1 to 1000000000, or to 1000000000000 where the unit is ns"
        }
        Key::InitialWindow => "an integer from twice max_datagram_size to 4294967295",
        Key::TimerLateUs | Key::Time => "an integer from 0 to 1000000000000000",
        Key::RefreshMinRtt
        | Key::WindowOvershoot
        | Key::SampleElicitingOnly
        | Key::ResetRtt
        | Key::LatestRttLessDelay
        | Key::RecoveryByOrder
        | Key::Eliciting
        | Key::InFlight
        | Key::Limited => { "true or false" }
        Key::ReportSlackUs | Key::TimerEarlyUs => "an integer from 0 to 1000000000",
        Key::ReportSlackBytes => "an integer from 0 to 4294967295",
        Key::PacketThreshold => "an integer from 3 to 65535",
        Key::LossByNumber => "the string must, or may where window is reported",
        Key::ThresholdCounts => "the string numbers or packets",
        Key::TimeThresholdEighths => "an integer from 9 to 32",
        Key::Space => "the string initial, handshake or app; to discard, initial or handshake",
        Key::Number => "an integer from 0 to 4611686018427387903",
        Key::Size => "an integer from 1 to 65527",
        Key::Leave => "the string window, probe or recovery",
        Key::Ranges => {
            "a list of ranges [lo,hi], lo not above hi and hi at most 4611686018427387903"
        }
        Key::Delay | Key::Metric(_) => "an integer from 0 to 18446744073709551615",
        Key::Kind => "the string loss or pto",
    }
}

#[tactic(auto, unfolding(crate::specs::Faults::key_sentence))]
fn push_key_sentence(
    out: &mut String,
    before: &str,
    key: Key,
    between: &str,
) -> Result<(), AllocError>
    ensures { OnOk result (string_bytes out.new
        ≡ string_bytes out.old ++ text.key_sentence before.now key between.now) }
{
    push_name(out, before, key.name())?;
    push_name(out, between, wanted(key))
}

/// Where a header is out of place, or none is there.
fn place_sentence(headed: bool, n: u64, line: Option<&[u8]>) -> &'static str
    ensures { result.now ≡ text.place_sentence headed n (option_copied line.entry) }
{
    if headed {
        return "a header stands before this one: are these two logs, one behind the other?";
    }
    match line {
        Some(_) => "the first line that is not blank has to be the header",
        None if n == 1 => "the input is empty",
        None => "the input has only blank lines",
    }
}

/// Appends what is wrong with line n: by whether a header stands before, and by the line, where it
/// is there.
#[tactic(auto, unfolding(crate::specs::Faults::fault_sentence))]
pub fn push_fault(
    out: &mut String,
    fault: Fault,
    headed: bool,
    n: u64,
    line: Option<&[u8]>,
) -> Result<(), AllocError>
    ensures { OnOk result (string_bytes out.new
        ≡ string_bytes out.old ++ text.fault_sentence fault headed n (option_copied line.entry)) }
{
    match fault {
        Fault::NotJson => push_words(out, "the line is not JSON"),
        Fault::NotObject => push_words(out, "the line is JSON, but no object"),
        Fault::Missing(key) => {
            push_key_sentence(out, "the key ", key, " is missing, whose value is ")
        }
        Fault::WrongKind(key) => {
            push_key_sentence(out, "the value of ", key, " is of another kind than ")
        }
        Fault::OutOfRange(key) => push_key_sentence(out, "the value of ", key, " is other than "),
        Fault::UnknownEvent => push_name(
            out,
            "the string at event names no event; it has to be ",
            wanted(Key::Event),
        ),
        Fault::HeaderPlace => push_words(out, place_sentence(headed, n, line)),
        Fault::LineTooLong => push_words(out, "the line has more than 65536 bytes"),
        Fault::FlagsClash => push_words(
            out,
            "an ack-eliciting packet is in flight, and in_flight is false",
        ),
        Fault::Version => push_name(out, "the version has to be ", wanted(Key::Version)),
        Fault::TooManyLines => push_words(out, "a trace has at most 4294967295 lines"),
    }
}
