//! What a cause asks of the events before an event, answered by what is kept.
use crate::answers::due_by_packets;
use crate::freeing::free_packets;
use crate::running::Running;
use qa_base::{Due, Event, PacketNumber, Rule, Space, Span, Ticks, TimeUnit};
use qa_ledger::{Cause, Counted, Explains, Facts, Oldest, Owed, State, cause_of, owed_of};
use std::alloc::AllocError;

impl Facts for Running {
    fn owed_numbers(&self) -> Result<Vec<PacketNumber>, AllocError> {
        self.machine.packets.owed_numbers()
    }

    fn nameable_numbers(&self) -> Result<Vec<PacketNumber>, AllocError> {
        let free = free_packets(&self.machine.connection);
        self.machine.packets.nameable_numbers(free)
    }

    fn free_numbers(&self) -> Result<Vec<PacketNumber>, AllocError> {
        let free = free_packets(&self.machine.connection);
        self.machine.packets.free_numbers(free)
    }

    fn searched(&self) -> Option<Space> {
        self.machine.connection.searched
    }

    fn owed_space(&self) -> Option<Space> {
        self.machine.packets.owed_space()
    }

    fn counted(&self, space: Space, number: PacketNumber) -> Option<Counted> {
        let machine = &self.machine;
        let options = machine.connection.header.options();
        if !options.threshold_counts.counts_packets() {
            return None;
        }
        match machine.connection.spaces.of(space).largest {
            None => None,
            Some(largest) => Some(Counted {
                number,
                largest,
                packets: machine.numbers.count_between(space, number, largest),
                threshold: options.packet_threshold,
            }),
        }
    }

    fn greatest_sent(&self, space: Space) -> Option<PacketNumber> {
        self.machine.numbers.greatest_sent(space)
    }

    fn first_unsent(&self, space: Space, ranges: &[Span]) -> Option<PacketNumber> {
        self.machine.numbers.first_unsent(space, ranges)
    }

    fn oldest(&self, space: Space) -> Option<Oldest> {
        match self.machine.packets.first_flying(space) {
            None => None,
            Some(packet) => Some(Oldest {
                number: packet.number,
                sent: packet.time,
            }),
        }
    }

    fn last_eliciting(&self, space: Space) -> Option<Ticks> {
        self.machine.connection.spaces.of(space).last_eliciting
    }

    fn last_set(&self) -> Option<Ticks> {
        self.machine.connection.timer.last_set
    }

    fn packet_deadline(&self) -> Option<Due> {
        due_by_packets(&self.machine.connection, &self.machine.packets)
    }

    fn set_since(&self) -> Ticks {
        match self.machine.connection.header.options().timer_late {
            None => Ticks::of(0),
            Some(_) => self.machine.watch.since,
        }
    }

    fn probe_due(&self) -> Option<Space> {
        self.machine.connection.timer.probe_due
    }
}

impl Explains for Running {
    fn cause(&self, event: &Event, rule: Rule) -> Result<Cause, AllocError> {
        cause_of(self.alloc, self, event, rule)
    }

    fn owed(&self) -> Result<Owed, AllocError> {
        owed_of(self.alloc, self)
    }

    fn unit(&self) -> TimeUnit {
        self.header().unit()
    }

    fn deadline(&self) -> Option<Due> {
        State::deadline(self)
    }

    fn packet_deadline(&self) -> Option<Due> {
        Facts::packet_deadline(self)
    }

    fn anti_deadlock(&self) -> Option<Due> {
        self.machine.connection.anti_deadlock()
    }

    fn acknowledged_since_collapse(&self) -> Option<u64> {
        State::acknowledged_since_collapse(self)
    }
}
