//! Values by themselves.
use qa_base::{PacketNumber, Space, Ticks};
use qa_check::report;
use qa_format::{Fault, Verdict};
use std::alloc::Global;

/// Whether packet numbers rise as they should.
fn numbers_rise() -> Option<bool> {
    Some(PacketNumber::new(999)? < PacketNumber::new(1000)?)
}

/// Whether spaces and times do.
fn spaces_and_times_rise() -> bool {
    let spaces = Space::Initial < Space::Handshake && Space::Handshake < Space::App;
    spaces && Ticks::of(999) < Ticks::of(1000)
}

#[test]
fn spaces_and_numbers_are_ordered(rt: HostRuntime) {
    assert!(rt; spaces_and_times_rise());
    assert!(rt; numbers_rise() == Some(true));
}

/// Whether the report of such a trace names that line.
fn is_told_of_the_line(alloc: Global) -> bool {
    let verdict = Verdict::Unreadable(4_294_967_296, Fault::TooManyLines, None);
    match report(alloc, &verdict) {
        Ok(text) => text.as_str() == "unreadable line 4294967296 F11 too-many-lines\n",
        Err(_) => false,
    }
}

/// A trace with that many lines is too long for the corpus.
#[test]
fn a_line_too_many(rt: HostRuntime) {
    assert!(rt; is_told_of_the_line(rt.alloc()));
}
