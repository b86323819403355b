//! The order of a log, and whether it may be misread, by what was counted.
ghost use Rattle.std.specs.Prelude.{IfSome};
ghost use Rattle.qa_convert.specs.Dialects.{IsLike};

use crate::dialects::{Absent, Dialect};
use crate::looking::{LEAST_VALUES, Looking, Order};
use itoa::Buffer;
use std::alloc::{AllocError, Global};

/// How many reports or losses there have to be for a finding.
const LEAST: u64 = 2;
/// How many if a dialect says another.
const LEAST_AGAINST_DIALECT: u64 = 5;
/// How many times as many as there are against it.
const MANY: u64 = 2;
/// How far off reports and timers are by a clock of whole milliseconds, in microseconds.
const SLACK_OF_MILLISECONDS: u64 = 2_000;

const EARLY_OF_MILLISECONDS: u64 = 3_000;

/// Reports of which fewer than half agree with the packets: the log may be misread.
#[derive(Clone, Copy, PartialEq, Eq)]
pub(crate) struct Doubt {
    /// How many reports there are.
    count: u64,
    /// How many of them agree.
    agree: u64,
    /// Whether they are reports of `latest_rtt`, and not of the bytes in flight.
    is_of_times: bool,
}

impl Doubt {
    /// What is said of it.
    pub(crate) fn text(self, alloc: Global) -> Result<String, AllocError> {
        let mut text = String::from_str(alloc, "of ")?;
        text.push_str(Buffer::new().format(self.count))?;
        text.push_str(if self.is_of_times {
            " reports of latest_rtt "
        } else {
            " reports beside acknowledgments "
        })?;
        text.push_str(Buffer::new().format(self.agree))?;
        text.push_str(if self.is_of_times {
            " agree with the times of the packets"
        } else {
            " agree with the packets that were sent"
        })?;
        text.push_str(": the log may be misread, and a refusal be the reading's and not the ")?;
        text.push_str("sender's")?;
        Ok(text)
    }
}

/// Whether it is the ones and not the others, if there are enough of either.
fn against(ones: u64, others: u64, least: u64) -> Option<bool> {
    if least.max(others.saturating_mul(MANY)) <= ones {
        Some(true)
    } else if least.max(ones.saturating_mul(MANY)) <= others {
        Some(false)
    } else {
        None
    }
}

impl Looking {
    /// Whether reports are in front of the packet that caused them: by the bytes in flight, or if
    /// these do not say it, by the round-trip times.
    fn are_before(&self, least: u64) -> Option<bool> {
        let by_bytes = against(self.counts.before, self.counts.behind, least);
        by_bytes.or(against(self.samples.before, self.samples.behind, least))
    }

    /// The order of the log, or the one that is taken if too little of it says another.
    fn order(&self, taken: Order, least: u64) -> Order {
        let losses = against(self.counts.losses_before, self.counts.losses_behind, least);
        if self.are_before(least).unwrap_or(taken == Order::Before) {
            Order::Before
        } else if losses.unwrap_or(taken == Order::LossesBefore) {
            Order::LossesBefore
        } else {
            Order::Behind
        }
    }

    /// A dialect that the log names, in the order of the log if its reports say another.
    ///
    /// Losses by themselves do not: in the tick of a clock they are often as near to the one packet
    /// as to the other.
    pub(crate) fn corrected(&self, dialect: Dialect) -> Option<Dialect>
        ensures { IfSome result (λ found. IsLike dialect found) }
    {
        let taken = Order::of(&dialect);
        match self.are_before(LEAST_AGAINST_DIALECT) {
            Some(is_before) if is_before != (taken == Order::Before) => {
                Some(self.order(taken, LEAST_AGAINST_DIALECT).of_dialect(dialect))
            }
            _ => None,
        }
    }

    /// The dialect of a log that names none.
    pub(crate) fn dialect(&self, generic: Dialect, has_milliseconds: bool) -> Dialect
        ensures { IsLike generic result }
    {
        let ordered = self.order(Order::of(&generic), LEAST).of_dialect(generic);
        let absent = if self.leaves_out_zeros() {
            Absent::SameOrZero
        } else {
            ordered.absent
        };
        let has_whole = LEAST_VALUES <= self.fineness.whole && !self.fineness.has_parts;
        let slack_us = if has_whole || (has_milliseconds && self.fineness.has_parts_of_latest) {
            SLACK_OF_MILLISECONDS
        } else {
            ordered.slack_us
        };
        let timer_early_us = if has_milliseconds && slack_us == SLACK_OF_MILLISECONDS {
            EARLY_OF_MILLISECONDS
        } else {
            ordered.timer_early_us
        };
        Dialect {
            absent,
            slack_us,
            timer_early_us,
            ..ordered
        }
    }

    /// What to say if most reports agree with the packets in no order.
    pub(crate) fn doubt(&self) -> Option<Doubt> {
        let by_bytes = self.counts.behind.max(self.counts.before);
        let alike = self.samples.behind.max(self.samples.before);
        let by_times = self.samples.either.saturating_add(alike);
        doubt_of(self.counts.acknowledgments, by_bytes, false).or(doubt_of(
            self.samples.count(),
            by_times,
            true,
        ))
    }
}

/// Whether fewer than half of so many reports agree, if there are enough of them.
fn doubt_of(count: u64, agree: u64, is_of_times: bool) -> Option<Doubt> {
    if LEAST_AGAINST_DIALECT <= count && agree.saturating_mul(2) < count {
        Some(Doubt {
            count,
            agree,
            is_of_times,
        })
    } else {
        None
    }
}
