//! Memory that an acknowledgment leaves to the next.
ghost use Rattle.std.specs.Prelude.{◌≡◌, ◌≤◌, []};
ghost use Rattle.std.specs.Vec.{vec_capacity};
ghost use Rattle.qa_sent_packets.specs.Held.{kept_room, room_kept};

use crate::packet::SentPacket;
use std::alloc::Global;
use std::marker::Model;

/// How many packets the list that is kept has room for at most.
pub(crate) const KEPT_ROOM: usize = 1_024;

/// An empty list, with the room that an acknowledgment left: for at most 1,024 packets, so that one
/// large acknowledgment does not keep its memory to the end of the trace. Contracts see the room.
#[derive(Drop)]
pub(crate) struct Spare {
    list: Vec<SentPacket>,
}

impl Model for Spare {
    ghost use Rattle.std.specs.Prelude.{◌≡◌, ◌≤◌, [], ℕ};
    ghost use Rattle.std.specs.Vec.{vec_capacity};
    ghost use Rattle.qa_sent_packets.specs.Held.{kept_room};

    ghost Value = { ℕ };

    ghost view = { λ s. vec_capacity s.list };

    ghost invariant = { λ s. (s.list.items ≡ []) × (vec_capacity s.list ≤ kept_room) };
}

impl Spare {
    /// With no room. Takes no memory.
    pub(crate) fn new(alloc: Global) -> Spare
        ensures { result ≡ 0 }
    {
        Spare {
            list: Vec::new(alloc),
        }
    }

    /// The room of a list that nobody wants any more; none where it is for more packets than are
    /// kept.
    pub(crate) fn of(alloc: Global, mut list: Vec<SentPacket>) -> Spare
        ensures { result ≡ room_kept (vec_capacity list) }
    {
        if KEPT_ROOM < list.capacity() {
            return Spare::new(alloc);
        }
        list.clear();
        Spare { list }
    }

    /// The list.
    pub(crate) fn into_list(self) -> Vec<SentPacket>
        ensures empty { result.items ≡ [] }
        ensures room { vec_capacity result ≡ self }
        ensures small { vec_capacity result ≤ kept_room }
    {
        self.list
    }
}
