//! How far the handshake is.
ghost use Rattle.std.specs.Prelude.{◌≡◌, []};
ghost use Rattle.qa_sender.specs.connection.Handshaking as steps;

use qa_base::{Role, Space};

/// How far the handshake is.
#[derive(Clone, Copy)]
pub struct HandshakeState {
    /// Whether it is confirmed (RFC 9001, section 4.1.2).
    pub confirmed: bool,
    /// Whether a packet of the Handshake space was acknowledged.
    pub acknowledged: bool,
    /// Whether the keys of the Handshake space are there.
    pub has_keys: bool,
}

impl HandshakeState {
    /// Before any event.
    pub(crate) fn start() -> HandshakeState
        ensures { result ≡ steps.handshake_after [] }
    {
        HandshakeState {
            confirmed: false,
            acknowledged: false,
            has_keys: false,
        }
    }

    /// Whether the peer has validated the address of a sender of this role (RFC 9002, A.8).
    pub(crate) fn is_validated(&self, role: Role) -> bool
        ensures { result ≡ steps.is_validated role self.now }
    {
        role == Role::Server || self.acknowledged || self.confirmed
    }

    /// A packet of the space was acknowledged.
    pub(crate) fn acknowledge(&mut self, space: Space)
        ensures { self.new ≡ steps.acknowledged_in space self.old }
    {
        if space == Space::Handshake {
            self.acknowledged = true;
        }
    }

    /// A packet of the space was sent, so its keys are there.
    pub(crate) fn send(&mut self, space: Space)
        ensures { self.new ≡ steps.sent_in space self.old }
    {
        if space == Space::Handshake {
            self.has_keys = true;
        }
    }

    /// The keys of the space were discarded. Those of the Initial space are once there are keys of
    /// the Handshake space.
    pub(crate) fn discard(&mut self, space: Space)
        ensures { self.new ≡ steps.discarded_in space self.old }
    {
        if space == Space::Initial {
            self.has_keys = true;
        }
    }
}
