//! Keys of the handshake: when they come, when they go, and when the handshake is confirmed.
//!
//! If the log tells of no discard, a client drops the Initial keys with its first Handshake packet
//! and the Handshake keys when HANDSHAKE_DONE comes (RFC 9001, section 4.9). A server drops them
//! with the first Handshake packet that comes, and at the end of the handshake, each at the event
//! behind which the reported bytes in flight have lost those of the space.
ghost use Rattle.std.specs.Prelude.{◌≡◌, OnOk, true};
ghost use Rattle.qa_base.specs.declared.space.Space.TheVariants as a_space;
ghost use Rattle.qa_convert.specs.AckDelays.{is_gone};
ghost use Rattle.qa_convert.specs.KeyLines.{Discards, OnlyKeys, Retires, come_of, known_by, no_keys};
ghost use Rattle.qa_convert.specs.KeyLines.{retired_at, with_come};
ghost use Rattle.qa_convert.specs.Telling.{told_in};

use crate::event::At;
use crate::packet::LoggedPacket;
use crate::place::Place;
use crate::size::PacketSize;
use crate::survey::Survey;
use crate::writing::{NoLine, Writing};
use qa_base::{PerSpace, Role, Space};

/// Which keys are there and which are gone.
#[derive(Clone, Copy)]
pub(crate) struct Keys {
    is_client: bool,
    pub(crate) is_confirmed: bool,
    pub(crate) has_keys: bool,
    initial_is_gone: bool,
    handshake_is_gone: bool,
    /// Where the log told that the keys of a space are gone. If it says so of a client's Initial
    /// keys in front of its first Handshake packet, they are gone once the Initial packet of the
    /// same datagram is logged.
    retired: PerSpace<Option<Place>>,
    has_sent: bool,
    /// Whether the log tells of no discard.
    initial_is_untold: bool,
    handshake_is_untold: bool,
    /// Discards that are due once the bytes in flight show them: that of Initial comes first.
    initial_is_pending: bool,
    handshake_is_pending: bool,
}

/// The records that make discards due.
#[derive(Clone, Copy)]
pub(crate) struct Turns {
    pub(crate) first_handshake_received: Option<u64>,
    pub(crate) last_crypto_before_done: Option<u64>,
    pub(crate) has_done: bool,
}

impl Turns {
    /// Those of a log.
    pub(crate) fn of(survey: &Survey) -> Turns {
        Turns {
            first_handshake_received: survey.first_handshake_received,
            last_crypto_before_done: survey.last_crypto_before_done,
            has_done: survey.handshake_done.is_some(),
        }
    }
}

impl Keys {
    /// At the beginning of a log.
    pub(crate) fn new(role: Role, survey: &Survey) -> Keys
        ensures { known_by result ≡ no_keys }
    {
        Keys {
            is_client: role == Role::Client,
            is_confirmed: false,
            has_keys: false,
            initial_is_gone: false,
            handshake_is_gone: false,
            retired: PerSpace {
                initial: None,
                handshake: None,
                app: None,
            },
            has_sent: false,
            initial_is_untold: !survey.retired.initial,
            handshake_is_untold: !survey.retired.handshake,
            initial_is_pending: false,
            handshake_is_pending: false,
        }
    }

    /// Whether a discard is due once the bytes in flight show it.
    pub(crate) fn awaits_discard(self) -> bool {
        self.initial_is_pending || self.handshake_is_pending
    }

    /// Whether the keys of a space are gone.
    pub(crate) fn are_gone(self, space: Space) -> bool
        ensures { result ≡ is_gone self space }
    {
        match space {
            Space::Initial => self.initial_is_gone,
            Space::Handshake => self.handshake_is_gone,
            Space::App => false,
        }
    }

    /// The Handshake keys are there.
    pub(crate) fn take_keys(&mut self, writing: &mut Writing, at: At) -> Result<(), NoLine>
        ensures keys { OnOk result (OnlyKeys (known_by self.new) (told_in writing.old)
            (told_in writing.new)) }
        ensures unit { OnOk result (writing.new.output.unit ≡ writing.old.output.unit) }
        ensures known { OnOk result (known_by self.new ≡ with_come true (known_by self.old)) }
    {
        if self.has_keys {
            return Ok(());
        }
        self.has_keys = true;
        if self.is_client {
            writing.keys(at)?;
        }
        Ok(())
    }

    /// The handshake is confirmed. If the log told that the Handshake keys are gone, `told` is
    /// where it did; otherwise the line says that it is a guess.
    fn confirm(&mut self, writing: &mut Writing, at: At, told: Option<Place>) -> Result<(), NoLine>
        ensures told { OnOk result (Discards told a_space.Handshake (told_in writing.old)
            (told_in writing.new)) }
        ensures unit { OnOk result (writing.new.output.unit ≡ writing.old.output.unit) }
        ensures known { OnOk result (known_by self.new ≡ known_by self.old) }
    {
        if self.is_confirmed {
            return Ok(());
        }
        self.is_confirmed = true;
        writing.confirmed(at, told)
    }

    /// The Initial keys are gone. If the log told it, `told` is where it did; otherwise the line
    /// says that it is a guess.
    pub(crate) fn discard_initial(
        &mut self,
        writing: &mut Writing,
        at: At,
        told: Option<Place>,
    ) -> Result<(), NoLine>
        ensures told { OnOk result (Discards told a_space.Initial (told_in writing.old)
            (told_in writing.new)) }
        ensures unit { OnOk result (writing.new.output.unit ≡ writing.old.output.unit) }
        ensures known { OnOk result (known_by self.new ≡ known_by self.old) }
    {
        if self.initial_is_gone {
            return Ok(());
        }
        self.initial_is_gone = true;
        writing.discard(at, Space::Initial, told)
    }

    /// The Handshake keys are gone, and the handshake is confirmed. If the log told it, `told` is
    /// where it did; otherwise the lines say that it is a guess.
    fn discard_handshake(
        &mut self,
        writing: &mut Writing,
        at: At,
        told: Option<Place>,
    ) -> Result<(), NoLine>
        ensures told { OnOk result (Discards told a_space.Handshake (told_in writing.old)
            (told_in writing.new)) }
        ensures unit { OnOk result (writing.new.output.unit ≡ writing.old.output.unit) }
        ensures known { OnOk result (known_by self.new ≡ known_by self.old) }
    {
        if self.handshake_is_gone {
            return Ok(());
        }
        self.confirm(writing, at, told)?;
        self.handshake_is_gone = true;
        writing.discard(at, Space::Handshake, told)
    }

    /// The log tells that keys came.
    pub(crate) fn on_keys_came(
        &mut self,
        writing: &mut Writing,
        at: At,
        space: Option<Space>,
    ) -> Result<(), NoLine>
        ensures keys { OnOk result (OnlyKeys (known_by self.new) (told_in writing.old)
            (told_in writing.new)) }
        ensures unit { OnOk result (writing.new.output.unit ≡ writing.old.output.unit) }
        ensures known { OnOk result (known_by self.new
            ≡ with_come (come_of space) (known_by self.old)) }
    {
        if space == Some(Space::Handshake) {
            self.take_keys(writing, at)
        } else {
            Ok(())
        }
    }

    /// The log tells that keys are gone.
    pub(crate) fn on_keys_gone(
        &mut self,
        writing: &mut Writing,
        at: At,
        space: Option<Space>,
    ) -> Result<(), NoLine>
        ensures told { OnOk result (Retires self.new.retired (told_in writing.old)
            (told_in writing.new)) }
        ensures came { OnOk result (self.new.has_keys ≡ self.old.has_keys) }
        ensures unit { OnOk result (writing.new.output.unit ≡ writing.old.output.unit) }
        ensures retired { OnOk result (self.new.retired
            ≡ retired_at at.place space self.old.retired) }
    {
        let Some(space) = space else {
            return Ok(());
        };
        *self.retired.of_mut(space) = Some(at.place);
        let told = *self.retired.of(space);
        match space {
            Space::Initial if self.is_client && !self.has_sent => Ok(()),
            Space::Initial => self.discard_initial(writing, at, told),
            Space::Handshake => self.discard_handshake(writing, at, told),
            Space::App => Ok(()),
        }
    }

    /// Makes the discards that are due by the bytes in flight that are reported behind an event,
    /// which itself adds some, or takes some out.
    pub(crate) fn settle(
        &mut self,
        writing: &mut Writing,
        at: At,
        reported: Option<u64>,
        change: Change,
    ) -> Result<(), NoLine>
        ensures told { OnOk result (told_in writing.new ≡ told_in writing.old) }
        ensures unit { OnOk result (writing.new.output.unit ≡ writing.old.output.unit) }
        ensures known { OnOk result (known_by self.new ≡ known_by self.old) }
    {
        if self.initial_is_pending {
            if !self.is_shown(writing, Space::Initial, reported, change) {
                return Ok(());
            }
            self.initial_is_pending = false;
            self.discard_initial(writing, at, None)?;
        }
        if self.handshake_is_pending && self.is_shown(writing, Space::Handshake, reported, change) {
            self.handshake_is_pending = false;
            self.discard_handshake(writing, at, None)?;
        }
        Ok(())
    }

    /// Whether the bytes in flight show the discard of a space: they have lost its bytes, or those
    /// of all discards that are due.
    fn is_shown(
        self,
        writing: &Writing,
        space: Space,
        reported: Option<u64>,
        change: Change,
    ) -> bool {
        let held = writing.flights.of(space).bytes();
        let Some(reported) = reported else {
            return true;
        };
        if held == 0 {
            return true;
        }
        let total = self.pending_bytes(writing);
        let left = writing
            .flights
            .bytes()
            .saturating_add(u128::from(change.added));
        let reported = u128::from(reported).saturating_add(change.taken);
        left == reported.saturating_add(held) || left == reported.saturating_add(total)
    }

    /// The bytes in flight of all spaces whose discard is due.
    fn pending_bytes(self, writing: &Writing) -> u128 {
        let initial = writing.flights.of(Space::Initial).bytes();
        let handshake = writing.flights.of(Space::Handshake).bytes();
        match (self.initial_is_pending, self.handshake_is_pending) {
            (true, true) => initial.saturating_add(handshake),
            (true, false) => initial,
            (false, true) => handshake,
            (false, false) => 0,
        }
    }

    /// Makes the discards that a packet shows that is sent; whether that of Initial is due behind
    /// it.
    pub(crate) fn before_sent(
        &mut self,
        writing: &mut Writing,
        at: At,
        packet: &SentPacket<'_>,
        reported: Option<u64>,
    ) -> Result<bool, NoLine>
        ensures told { OnOk result (Retires self.old.retired (told_in writing.old)
            (told_in writing.new)) }
        ensures unit { OnOk result (writing.new.output.unit ≡ writing.old.output.unit) }
        ensures known { OnOk result (known_by self.new ≡ known_by self.old) }
    {
        let mut is_late = false;
        let is_handshake = packet.packet.space == Space::Handshake;
        if is_handshake && self.is_client && !self.initial_is_gone {
            is_late = self.is_late(writing, packet, reported);
            let told = self.retired.initial;
            if !is_late && (told.is_some() || self.initial_is_untold) {
                self.discard_initial(writing, at, told)?;
            }
        }
        self.has_sent = self.has_sent || is_handshake;
        if packet.packet.content.has_handshake_done && self.handshake_is_untold {
            self.initial_is_pending = false;
            self.handshake_is_pending = false;
            self.discard_handshake(writing, at, None)?;
        }
        Ok(is_late)
    }

    /// Whether the report behind a Handshake packet still has the bytes of the Initial space.
    fn is_late(self, writing: &Writing, packet: &SentPacket<'_>, reported: Option<u64>) -> bool {
        let Some(reported) = reported else {
            return false;
        };
        if self.retired.initial.is_some() || !self.initial_is_untold {
            return false;
        }
        let added = if packet.is_in_flight {
            packet.size.get()
        } else {
            0
        };
        u128::from(reported) == writing.flights.bytes().saturating_add(u128::from(added))
    }

    /// A client took in HANDSHAKE_DONE.
    pub(crate) fn on_done(&mut self, writing: &mut Writing, at: At) -> Result<(), NoLine>
        ensures told { OnOk result (told_in writing.new ≡ told_in writing.old) }
        ensures unit { OnOk result (writing.new.output.unit ≡ writing.old.output.unit) }
        ensures known { OnOk result (known_by self.new ≡ known_by self.old) }
    {
        if self.is_client && self.handshake_is_untold {
            self.discard_handshake(writing, at, None)?;
        }
        Ok(())
    }

    /// A packet that came may make discards due at a server.
    pub(crate) fn after_received(&mut self, at: At, turns: Turns)
        ensures { known_by self.new ≡ known_by self.old }
    {
        if self.is_client {
            return;
        }
        if turns.first_handshake_received == Some(at.index) && self.initial_is_untold {
            self.initial_is_pending = true;
        }
        let is_last = turns.last_crypto_before_done == Some(at.index);
        if is_last && turns.has_done && self.handshake_is_untold {
            self.handshake_is_pending = true;
        }
    }
}

/// By how many bytes an event itself changes the bytes in flight.
#[derive(Clone, Copy)]
pub(crate) struct Change {
    pub(crate) added: u64,
    pub(crate) taken: u128,
}

/// A packet that is sent, with the size that it has by now.
#[derive(Clone, Copy)]
pub(crate) struct SentPacket<'p> {
    pub(crate) packet: &'p LoggedPacket,
    pub(crate) size: PacketSize,
    pub(crate) is_in_flight: bool,
}
