//! What is decided by the parts of a millisecond that a log cuts off.
//!
//! A sender subtracts the delay of an acknowledgment unless that leaves less than the minimum (RFC
//! 9002, section 5.3), and declares a packet lost once it is as old as the loss delay (6.1.2). If
//! both sides are equal but for what a log of whole milliseconds cuts off, its numbers can decide
//! this the other way than the sender did. What the log says next shows how the sender decided.
ghost use Rattle.std.specs.Prelude.{◌≡◌, ◌≤◌, None, Some};
ghost use Rattle.qa_convert.specs.Rounding as rounding;
ghost use Rattle.qa_convert.specs.Rounding.{least_of};

use std::marker::Model;

/// A millisecond in nanoseconds.
const MILLISECOND: u128 = 1_000_000;
/// What was cut off a value is taken to be half of what it can be.
const HALF: u128 = MILLISECOND / 2;
/// A sample and the minimum are each off by less than a millisecond, and so is the delay.
const CUT_OFF: u128 = 2 * MILLISECOND;
/// How much nearer to the reports the other decision has to be.
const NEARER: u128 = MILLISECOND / 2;
/// A microsecond in nanoseconds.
const MICROSECOND: u64 = 1_000;
/// By how much a packet may be younger than the loss delay by the log, and be older.
const YOUNGER: u128 = MILLISECOND / 2;
/// By how much it may be older, and be younger.
const OLDER: u128 = 3 * MILLISECOND;
/// The time threshold is in so many parts of the round-trip time.
const PARTS_OF_RTT: u128 = 8;

/// An estimate that was reported: the smoothed RTT and its variation, in nanoseconds.
#[derive(Clone, Copy)]
pub struct Estimate {
    /// The smoothed RTT.
    pub smoothed_rtt: u64,
    /// Its variation.
    pub rttvar: u64,
}

/// A sample and the minimum by the times of a log, and the delay as it counts, in nanoseconds.
#[derive(Clone, Copy)]
pub struct Sample {
    /// The sample.
    pub latest: u64,
    /// The minimum of the samples so far.
    pub minimum: u64,
    /// The delay that the peer said.
    pub delay: u64,
}

/// How far two numbers are apart.
fn apart(here: u128, there: u128) -> u128
    ensures { result ≡ rounding.apart here there }
{
    if here < there {
        there - here
    } else {
        here - there
    }
}

impl Sample {
    /// Whether the delay is subtracted by these numbers (RFC 9002, section 5.3).
    pub fn is_subtracted(self) -> bool
        ensures { result ≡ rounding.is_subtracted self }
    {
        u128::from(self.minimum) + u128::from(self.delay) <= u128::from(self.latest)
    }

    /// How far what follows from the estimate before is from the one after it.
    fn distance(self, before: Estimate, after: Estimate, is_subtracted: bool) -> u128
        ensures { result ≡ rounding.distance self before after is_subtracted }
    {
        let latest = u128::from(self.latest);
        let adjusted = if is_subtracted {
            latest.saturating_sub(u128::from(self.delay))
        } else {
            latest
        };
        let held = u128::from(before.smoothed_rtt) + HALF;
        let smoothed = (7 * held + adjusted) / 8;
        let rttvar = (3 * (u128::from(before.rttvar) + HALF) + apart(held, adjusted)) / 4;
        apart(smoothed, u128::from(after.smoothed_rtt) + HALF)
            + apart(rttvar, u128::from(after.rttvar) + HALF)
    }

    /// Whether the estimates before and after it show that the sender decided the other way.
    pub fn is_otherwise(self, before: Estimate, after: Estimate) -> bool
        ensures { result ≡ rounding.is_otherwise self before after }
    {
        let bound = u128::from(self.minimum) + u128::from(self.delay);
        if CUT_OFF < apart(u128::from(self.latest), bound) {
            return false;
        }
        let is_subtracted = self.is_subtracted();
        let here = self.distance(before, after, is_subtracted);
        self.distance(before, after, !is_subtracted) + NEARER < here
    }

    /// The delay that decides as the reports show: the one that is said, or another if it is not
    /// too long.
    fn settled(self, delay: u64, longest: Option<u64>, reports: Reports) -> u64
        requires { self.minimum ≤ self.latest }
        ensures { result ≡ rounding.settled_by self delay longest reports }
    {
        if !self.is_otherwise(reports.before, reports.after) {
            return delay;
        }
        let other = self.other();
        if shorter_of(other, longest) < other {
            delay
        } else {
            other
        }
    }

    /// The delay by which the other decision comes: the longest that would be subtracted, or one
    /// that is longer by a microsecond.
    fn other(self) -> u64
        requires { self.minimum ≤ self.latest }
        ensures { result ≡ rounding.other self }
    {
        let most = self.latest - self.minimum;
        if self.is_subtracted() {
            most.saturating_add(MICROSECOND)
        } else {
            most
        }
    }
}

/// The estimates that are reported before an acknowledgment and after it.
#[derive(Clone, Copy)]
pub struct Reports {
    /// The one before.
    pub before: Estimate,
    /// The one after.
    pub after: Estimate,
}

/// The delays of acknowledgments, by the minimum of the samples so far. Contracts see that minimum.
#[derive(Drop)]
pub struct Delays {
    minimum: Option<u64>,
}

impl Model for Delays {
    ghost use Rattle.std.specs.Prelude.{ℕ, Option};

    ghost Value = { Option ℕ };

    ghost view = { λ d. d.minimum };
}

impl Delays {
    /// Before a sample.
    pub fn new() -> Delays
        ensures { result ≡ None }
    {
        Delays { minimum: None }
    }

    /// The delay that decides as the reports show, if there are two, once a sample was taken.
    ///
    /// `longest` is what counts of a delay at most, once the handshake is confirmed.
    pub fn settled(
        &mut self,
        latest: u64,
        delay: u64,
        longest: Option<u64>,
        reports: Option<Reports>,
    ) -> u64
        ensures minimum { self.new ≡ Some (least_of self.old latest) }
        ensures delay { result ≡ rounding.settled self.old latest delay longest reports }
    {
        let Some(held) = self.minimum else {
            self.minimum = Some(latest);
            return delay;
        };
        let minimum = held.min(latest);
        self.minimum = Some(minimum);
        let sample = Sample {
            latest,
            minimum,
            delay: shorter_of(delay, longest),
        };
        match reports {
            None => delay,
            Some(reports) => sample.settled(delay, longest, reports),
        }
    }
}

/// A duration, or the longest one there may be.
fn shorter_of(duration: u64, longest: Option<u64>) -> u64
    ensures { result ≡ rounding.shorter_of duration longest }
{
    match longest {
        None => duration,
        Some(longest) => duration.min(longest),
    }
}

/// How old a packet is at some time, by a log whose times are whole milliseconds, and the
/// round-trip time and the eighths of it by which it is lost. Times are in nanoseconds.
#[derive(Clone, Copy)]
pub struct Age {
    /// How old it is.
    pub age: u64,
    /// The round-trip time.
    pub rtt: u64,
    /// The time threshold, in eighths.
    pub eighths: u64,
}

impl Age {
    /// The loss delay (RFC 9002, section 6.1.2).
    fn loss_delay(self) -> u128
        ensures { result ≡ rounding.loss_delay self }
    {
        u128::from(self.rtt) * u128::from(self.eighths) / PARTS_OF_RTT
    }

    /// Whether it is younger than the loss delay, whatever was cut off.
    pub fn is_young(self) -> bool
        ensures { result ≡ rounding.is_young self }
    {
        u128::from(self.age) + YOUNGER < self.loss_delay()
    }

    /// Whether it is younger or older by what was cut off.
    pub fn is_open(self) -> bool
        ensures { result ≡ rounding.is_open self }
    {
        !self.is_young() && u128::from(self.age) <= self.loss_delay() + OLDER
    }
}
