//! What the next Lost line may name beyond what is owed (RFC 9002, section 6.1.1).
ghost use Rattle.std.specs.Prelude.{◌≡◌};
ghost use Rattle.qa_sender.specs.Freeing.{end_of, free_of};

use crate::connection::{Connection, Detection};
use qa_base::Space;
use qa_sent_packets::FreePackets;

/// What it may name: where the last event looked for losses, the packets of its space that lie
/// below the largest acknowledged number by the packet threshold and were not found lost, if the
/// header says that such packets may be spared. Behind any other event there are none.
pub(crate) fn free_packets(connection: &Connection) -> FreePackets
    ensures { result ≡ free_of connection.now }
{
    match connection.searched {
        None => FreePackets {
            space: Space::Initial,
            end: 0,
        },
        Some(space) => FreePackets {
            space,
            end: end_of_free(&connection.detection),
        },
    }
}

/// Above the numbers that lie below the largest acknowledged one by the packet threshold; 0 where
/// such packets must be lost.
fn end_of_free(detection: &Option<Detection>) -> u64
    ensures { result ≡ end_of detection.now }
{
    match detection {
        None => 0,
        Some(detection) => detection.far_end,
    }
}
