//! What is kept of each packet number space.
ghost use Rattle.std.specs.Prelude.{◌≡◌, unwrap_or};
ghost use Rattle.qa_base.specs.declared.space.Space.{Space};
ghost use Rattle.qa_sender.specs.connection.Spaces as steps;
ghost use Rattle.qa_base.specs.values.PerSpace.{of_space};

use qa_base::{PacketNumber, PerSpace, Ticks};

/// What is kept of a packet number space beside its packets.
#[derive(Clone, Copy)]
pub struct SpaceState {
    /// Whether its keys were discarded (RFC 9002, section 6.4).
    pub discarded: bool,
    /// The largest number that was acknowledged in it (A.3, `largest_acked_packet`).
    pub largest: Option<PacketNumber>,
    /// When the last ack-eliciting packet was sent in it (A.3,
    /// `time_of_last_ack_eliciting_packet`).
    pub last_eliciting: Option<Ticks>,
}

/// The greater of the two, where there are two.
fn raised(number: Option<PacketNumber>, most: Option<PacketNumber>) -> Option<PacketNumber>
    ensures { result ≡ steps.raised number most }
{
    match (number, most) {
        (None, most) => most,
        (Some(number), None) => Some(number),
        (Some(number), Some(most)) => Some(number.max(most)),
    }
}

impl SpaceState {
    /// Of a space in which nothing was sent yet.
    fn start() -> SpaceState
        ensures { result ≡ steps.empty }
    {
        SpaceState {
            discarded: false,
            largest: None,
            last_eliciting: None,
        }
    }

    /// An acknowledgment of this number and of none above it came.
    pub(crate) fn raise(&mut self, number: PacketNumber)
        ensures { self.new ≡ steps.with_largest number self.old }
    {
        self.largest = raised(Some(number), self.largest);
    }

    /// Above the numbers that lie below the largest acknowledged one; 0 where there are none.
    pub(crate) fn end_below_largest(&self) -> u64
        ensures { result ≡ unwrap_or self.now.largest 0 }
    {
        match self.largest {
            None => 0,
            Some(largest) => largest.get(),
        }
    }
}

/// Of each packet number space, before any event.
#[tactic(auto, using(crate::proofs::connection_lemmas::States::same_of_all))]
pub(crate) fn start() -> PerSpace<SpaceState>
    ensures { (s : Space) → of_space s result ≡ steps.empty }
{
    PerSpace {
        initial: SpaceState::start(),
        handshake: SpaceState::start(),
        app: SpaceState::start(),
    }
}
