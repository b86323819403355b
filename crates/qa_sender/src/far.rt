//! Which numbers lie below the largest acknowledged one by the packet threshold (RFC 9002, section
//! 6.1.1).
ghost use Rattle.std.specs.Prelude.{◌≡◌, List, Some};
ghost use Rattle.qa_base.specs.declared.event.Event.{Event as AnEvent};
ghost use Rattle.qa_base.specs.machine.Violations.{IsToleratedRun};
ghost use Rattle.qa_base.specs.values.Settings.{Settings};
ghost use Rattle.qa_packet_numbers.specs.Sent.{AreSent};
ghost use Rattle.qa_sender.specs.Thresholds.{far_end as far_end_of, far_end_below};
ghost use Rattle.qa_sender.specs.connection.Known.{IsMeasured};

use crate::connection::Connection;
use qa_base::{Header, PacketNumber, Space, ThresholdCounts};
use qa_packet_numbers::SentNumbers;

/// Above the numbers of the space that lie below the largest acknowledged one by the packet
/// threshold. 0 where none do.
pub(crate) fn far_end(connection: &Connection, numbers: &SentNumbers, space: Space) -> u64
    ensures { (c : Settings) (h : List AnEvent) → IsToleratedRun c h → IsMeasured connection.now c h
        → AreSent numbers.now h → result ≡ far_end_of c h space }
{
    match connection.spaces.of(space).largest {
        None => 0,
        Some(largest) => end_below(&connection.header, numbers, space, largest),
    }
}

/// Above those that lie below this number by it: as many numbers, or as many packets that were sent
/// with them.
fn end_below(header: &Header, numbers: &SentNumbers, space: Space, largest: PacketNumber) -> u64
    ensures { (h : List AnEvent) → IsToleratedRun header.now h → AreSent numbers.now h
        → result ≡ far_end_below header.now h space (Some largest) }
{
    let options = header.options();
    match options.threshold_counts {
        ThresholdCounts::Numbers => (largest.get() + 1).saturating_sub(options.packet_threshold),
        ThresholdCounts::Packets => numbers.end_below(space, largest, options.packet_threshold),
    }
}
