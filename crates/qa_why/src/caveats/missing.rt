//! Packet numbers that a log skips. A sender may skip numbers (RFC 9000, 21.4); or the log lost
//! lines.
ghost use Rattle.std.specs.Prelude.{◌≡◌, ◌≤◌, ◌<◌, ◌^◌, ◌++◌, [], OnOk, string_bytes};
ghost use Rattle.qa_why.specs.caveats.Missing as text;

use qa_base::Space;
use qa_explain::text::{push_name, push_number, push_words};
use std::alloc::AllocError;

/// What is missing of a packet number space, in sum.
#[derive(Clone, Copy)]
pub struct Missing {
    /// The number behind that of the last packet.
    pub next: u64,
    /// How many runs of numbers were skipped; it stays at 2^64 - 1.
    pub runs: u64,
    /// How many numbers those are; it stays at 2^64 - 1.
    pub count: u64,
    /// The least number of the first run; 0 where there is none.
    pub least: u64,
    /// The greatest number of the last run; 0 where there is none.
    pub greatest: u64,
}

impl Missing {
    /// Nothing, before any packet.
    pub(crate) fn new() -> Missing
        ensures { (space : Space) → result ≡ text.missing [] space }
    {
        Missing {
            next: 0,
            runs: 0,
            count: 0,
            least: 0,
            greatest: 0,
        }
    }

    /// Notes a run of numbers that was skipped, up to below this number.
    fn skip_to(&mut self, number: u64)
        requires above { self.now.next < number }
        ensures { self.new ≡ text.with_run self.old number }
    {
        if self.runs == 0 {
            self.least = self.next;
        }
        self.greatest = number - 1;
        self.runs = self.runs.saturating_add(1);
        self.count = self.count.saturating_add(number - self.next);
    }

    /// Notes a packet with this number.
    pub(crate) fn note(&mut self, number: u64)
        requires bound { number < 2 ^ 62 }
        ensures { self.new ≡ text.with_number self.old number }
    {
        if self.next < number {
            self.skip_to(number);
        }
        self.next = number + 1;
    }
}

// ---- in a text

#[tactic(auto, unfolding(crate::specs::caveats::Missing::of_space))]
fn push_space(out: &mut String, space: Space) -> Result<(), AllocError>
    ensures { OnOk result (string_bytes out.new ≡ string_bytes out.old ++ text.of_space space) }
{
    push_name(out, " of ", space.name())
}

/// Appends that one number is not in the log.
#[tactic(auto, unfolding(crate::specs::caveats::Missing::number_text))]
fn push_one(out: &mut String, space: Space, number: u64) -> Result<(), AllocError>
    ensures { OnOk result (string_bytes out.new
        ≡ string_bytes out.old ++ text.number_text space number) }
{
    push_number(out, "  number ", number)?;
    push_space(out, space)?;
    push_words(out, " is not in the log; it may have lost lines\n")
}

/// Appends that a run of numbers is not in the log.
#[tactic(auto, unfolding(crate::specs::caveats::Missing::run_text))]
fn push_run(out: &mut String, space: Space, missing: &Missing) -> Result<(), AllocError>
    ensures { OnOk result (string_bytes out.new
        ≡ string_bytes out.old ++ text.run_text space missing.now.least missing.now.greatest) }
{
    push_number(out, "  numbers ", missing.least)?;
    push_number(out, " to ", missing.greatest)?;
    push_space(out, space)?;
    push_words(out, " are not in the log; it may have lost lines\n")
}

/// Appends that several runs of numbers are not in the log.
#[tactic(auto, unfolding(crate::specs::caveats::Missing::runs_text))]
fn push_runs(out: &mut String, space: Space, missing: &Missing) -> Result<(), AllocError>
    ensures { OnOk result (string_bytes out.new ≡ string_bytes out.old
        ++ text.runs_text space missing.now.count missing.now.least missing.now.greatest) }
{
    push_number(out, "  ", missing.count)?;
    push_words(out, " numbers")?;
    push_space(out, space)?;
    push_number(out, " from ", missing.least)?;
    push_number(out, " to ", missing.greatest)?;
    push_words(out, " are not in the log; it may have lost lines\n")
}

/// Appends which numbers of the space are not in the log; nothing where none is missing.
/// `AllocError` comes where it is out of memory.
#[tactic(auto, unfolding(crate::specs::caveats::Missing::missing_text))]
pub(crate) fn push_missing(
    out: &mut String,
    space: Space,
    missing: &Missing,
) -> Result<(), AllocError>
    ensures { OnOk result (string_bytes out.new
        ≡ string_bytes out.old ++ text.missing_text space missing.now) }
{
    if missing.runs == 0 {
        return Ok(());
    }
    if missing.count == 1 {
        return push_one(out, space, missing.least);
    }
    if missing.runs == 1 {
        return push_run(out, space, missing);
    }
    push_runs(out, space, missing)
}
