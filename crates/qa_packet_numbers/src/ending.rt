//! Which number has so many of a set above it.
ghost use Rattle.std.specs.Prelude.{◌≡◌, ◌≤◌, ℕ, List, length, nat_le, nat_lt, sum_by, take};
ghost use Rattle.qa_base.specs.machine.Numbers.{Names};
ghost use Rattle.qa_packet_numbers.specs.Counting.{count_in, total_in};
ghost use Rattle.qa_packet_numbers.specs.Runs.{AreDistinct};

use crate::Ranges;
use qa_base::PacketNumber;

impl Ranges {
    /// The number below which those lie that have at least so many numbers of the set above them
    /// and up to `top`: the greatest such number is the one before it. 0 where there is none.
    ///
    /// A binary search, and then a step for each run that has some of these numbers.
    pub fn end_below(&self, top: PacketNumber, count: u64) -> u64
        requires { 1 ≤ count }
        ensures { (numbers : List ℕ) → Names self.now numbers → AreDistinct numbers
            → (n : ℕ) → nat_lt n result ≡ nat_le count (count_in numbers n top) }
    {
        let mut left = count;
        let mut at = self.count_to(top);
        while 0 < at {
            let run = self.runs[at - 1];
            let end = run.hi().get().min(top.get()) + 1;
            let size = end.saturating_sub(run.lo().get());
            if left <= size {
                return end - left;
            }
            left -= size;
            at -= 1;
        }
        0
    }

    /// How many numbers of the set lie above one and up to another.
    ///
    /// A step for each run.
    pub fn count_between(&self, number: PacketNumber, top: PacketNumber) -> u64
        ensures { (numbers : List ℕ) → Names self.now numbers → AreDistinct numbers
            → result ≡ count_in numbers number top }
    {
        let mut count = 0;
        for run in &self.runs {
            let end = run.hi().get().min(top.get()) + 1;
            count += end.saturating_sub(run.lo().get().max(number.get() + 1));
        }
        count
    }

    /// How many runs do not begin above the number.
    fn count_to(&self, top: PacketNumber) -> usize
        ensures within { result ≤ length self.now }
        ensures total { (n : ℕ) → total_in n top self.now ≡ total_in n top (take result self.now) }
    {
        self.runs.partition_point(|run| run.lo() <= top)
    }
}
