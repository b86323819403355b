//! What C is told of a verdict, and of what it rests on.
ghost use Rattle.std.specs.Prelude.{◌≡◌};
ghost use Rattle.qaudit_c.specs.Telling as telling;

use crate::numbers::{fault_number, fault_subject, key_subject, rule_number, rule_subject};
use qa_base::Totals;
use qa_format::Verdict;
use qa_violations::Allowance;

/// The totals of a verdict.
#[repr(C)]
#[derive(Clone, Copy, Debug, PartialEq, Eq)]
pub struct ToldTotals {
    pub events: u64,
    pub window: u64,
    pub ssthresh: u64,
    pub bytes_in_flight: u64,
    pub latest_rtt: u64,
    pub min_rtt: u64,
    pub smoothed_rtt: u64,
    pub rttvar: u64,
    pub pto_count: u64,
    pub owed: u64,
    pub has_ssthresh: bool,
}

/// A verdict. `kind` is 1 for accepted, 2 for refused, 3 for unreadable; `code` the number of the
/// rule or the fault, and `subject` that of the key or the reported value that it is about, 0 where
/// there is none.
#[repr(C)]
#[derive(Clone, Copy, Debug, PartialEq, Eq)]
pub struct Told {
    pub kind: u32,
    pub code: u32,
    pub line: u64,
    pub subject: u32,
    pub totals: ToldTotals,
    pub has_totals: bool,
}

fn told_totals(totals: &Totals) -> ToldTotals
    ensures { result ≡ telling.told_totals totals.now }
{
    ToldTotals {
        events: totals.events,
        window: totals.window,
        ssthresh: totals.ssthresh.unwrap_or(0),
        bytes_in_flight: totals.bytes_in_flight,
        latest_rtt: totals.latest_rtt,
        min_rtt: totals.min_rtt,
        smoothed_rtt: totals.smoothed_rtt,
        rttvar: totals.rttvar,
        pto_count: totals.pto_count,
        owed: totals.owed,
        has_ssthresh: totals.ssthresh.is_some(),
    }
}

fn told_totals_if(totals: &Option<Totals>) -> ToldTotals
    ensures { result ≡ telling.told_totals_if totals.now }
{
    match totals {
        Some(totals) => told_totals(totals),
        None => ToldTotals {
            events: 0,
            window: 0,
            ssthresh: 0,
            bytes_in_flight: 0,
            latest_rtt: 0,
            min_rtt: 0,
            smoothed_rtt: 0,
            rttvar: 0,
            pto_count: 0,
            owed: 0,
            has_ssthresh: false,
        },
    }
}

/// A verdict, for C.
pub fn for_c(verdict: &Verdict) -> Told
    ensures { result ≡ telling.told verdict.now }
{
    match verdict {
        Verdict::Accepted(totals) => Told {
            kind: 1,
            code: 0,
            line: 0,
            subject: 0,
            totals: told_totals(totals),
            has_totals: true,
        },
        Verdict::Refused(line, rule, totals) => Told {
            kind: 2,
            code: rule_number(*rule),
            line: *line,
            subject: rule_subject(*rule),
            totals: told_totals(totals),
            has_totals: true,
        },
        Verdict::Unreadable(line, fault, totals) => Told {
            kind: 3,
            code: fault_number(*fault),
            line: *line,
            subject: fault_subject(*fault),
            totals: told_totals_if(totals),
            has_totals: totals.is_some(),
        },
    }
}

/// What a header allowed past a rule. `rule` is its number, `subject` that of the reported value,
/// and `key` that of the key that allows it.
#[repr(C)]
#[derive(Clone, Copy, Debug, PartialEq, Eq)]
pub struct ToldAllowance {
    pub count: u64,
    pub first: u64,
    pub last: u64,
    pub greatest: u64,
    pub limit: u64,
    pub rule: u32,
    pub subject: u32,
    pub key: u32,
    pub has_limit: bool,
}

/// An amount in 64 bits: the most that they hold, where it is more; 0 where there is none.
fn in_word(amount: Option<u128>) -> u64
    ensures { result ≡ telling.in_word amount }
{
    match amount {
        Some(amount) => amount.min(u128::from(u64::MAX)) as u64,
        None => 0,
    }
}

/// What a header allowed, for C.
pub fn allowance_for_c(allowance: &Allowance) -> ToldAllowance
    ensures { result ≡ telling.told_allowance allowance.now }
{
    let row = &allowance.row;
    ToldAllowance {
        count: row.count,
        first: row.first,
        last: row.last,
        greatest: in_word(row.greatest),
        limit: in_word(allowance.limit),
        rule: rule_number(row.rule),
        subject: rule_subject(row.rule),
        key: key_subject(allowance.key),
        has_limit: allowance.limit.is_some(),
    }
}
