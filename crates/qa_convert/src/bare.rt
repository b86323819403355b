//! The last packets of a space that were sent and are not in flight.
ghost use Rattle.std.specs.Prelude.{◌≡◌, ◌||◌, ℕ, OnOk, false, nat_eq, true};
ghost use Rattle.std.specs.BTreeSet.{contains};
ghost use Rattle.std.specs.Ordering.{nat_cmp};

use std::alloc::{AllocError, Global};
use std::collections::{BTreeSet, VecDeque};

/// How many are kept.
const KEPT: usize = 4_096;

/// The last packets of a space that were sent and are not in flight.
#[derive(Drop)]
pub(crate) struct Bare {
    numbers: BTreeSet<u64>,
    /// The same, in the order in which they were sent.
    order: VecDeque<u64>,
}

impl Bare {
    /// None. Takes no memory.
    pub(crate) fn new(alloc: Global) -> Bare
        ensures { (n : ℕ) → contains nat_cmp result.numbers n ≡ false }
    {
        Bare {
            numbers: BTreeSet::new(alloc),
            order: VecDeque::new(alloc),
        }
    }

    /// A packet was sent.
    pub(crate) fn add(&mut self, number: u64) -> Result<(), AllocError>
        ensures { OnOk result ((n : ℕ) → contains nat_cmp self.new.numbers n ≡ true
            → (contains nat_cmp self.old.numbers n || nat_eq n number) ≡ true) }
    {
        if !self.numbers.insert(number)? {
            return Ok(());
        }
        self.order.push_back(number)?;
        if KEPT < self.order.len() {
            if let Some(first) = self.order.pop_front() {
                self.numbers.remove(&first);
            }
        }
        Ok(())
    }

    /// Whether it is one of them.
    pub(crate) fn has(&self, number: u64) -> bool
        ensures { result ≡ contains nat_cmp self.now.numbers number }
    {
        self.numbers.contains(&number)
    }
}
