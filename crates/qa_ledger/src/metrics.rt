//! The totals of a history, and what a sender reports compared with them.
ghost use Rattle.std.specs.Prelude.{◌≡◌, List};
ghost use Rattle.qa_base.specs.declared.event.Event.{Event as AnEvent};
ghost use Rattle.qa_base.specs.machine.Metrics as metrics;
ghost use Rattle.qa_base.specs.machine.Rules as rules;
ghost use Rattle.qa_base.specs.values.Settings.{Settings};
ghost use Rattle.qa_ledger.specs.Tests.{totals_of};

use crate::state::State;
use qa_base::{Event, Field, Header, MetricValues, Rule, Totals};
use qa_recovery::Rtt;

/// Whether a value is reported that differs by more than the slack from the machine's, which may
/// have none.
fn differs(slack: u128, reported: Option<u64>, own: Option<u64>) -> bool
    ensures { result ≡ metrics.differs slack reported own }
{
    match (reported, own) {
        (None, _) => false,
        (Some(_), None) => true,
        (Some(reported), Some(own)) => slack < u128::from(reported.abs_diff(own)),
    }
}

/// Whether each of the reported values differs from the machine's by more than the header's slack,
/// of bytes or of times, beside the rule that it breaks then. The window and `ssthresh` are
/// compared where they are NewReno's.
pub(crate) fn differences(
    header: Header,
    values: &MetricValues,
    totals: &Totals,
) -> [(bool, Rule); 7]
    ensures { result ≡ metrics.tests header values.now totals.now }
{
    let options = header.options();
    let bytes = u128::from(options.report_slack_bytes);
    let times = header.unit().of_microseconds(options.report_slack_us);
    let chosen = options.controller.is_reported();
    let window = !chosen && differs(bytes, values.window, Some(totals.window));
    let ssthresh = !chosen && differs(bytes, values.ssthresh, totals.ssthresh);
    let in_flight = differs(bytes, values.bytes_in_flight, Some(totals.bytes_in_flight));
    let latest_rtt = differs(times, values.latest_rtt, Some(totals.latest_rtt));
    let min_rtt = differs(times, values.min_rtt, Some(totals.min_rtt));
    let smoothed_rtt = differs(times, values.smoothed_rtt, Some(totals.smoothed_rtt));
    let rttvar = differs(times, values.rttvar, Some(totals.rttvar));
    [
        (window, Rule::Metric(Field::Window)),
        (ssthresh, Rule::Metric(Field::Ssthresh)),
        (in_flight, Rule::Metric(Field::BytesInFlight)),
        (latest_rtt, Rule::Metric(Field::LatestRtt)),
        (min_rtt, Rule::Metric(Field::MinRtt)),
        (smoothed_rtt, Rule::Metric(Field::SmoothedRtt)),
        (rttvar, Rule::Metric(Field::Rttvar)),
    ]
}

/// The quantities of the machine after a history, each in the type in which a ledger has it.
#[derive(Clone, Copy)]
pub struct Quantities {
    /// How many events there were.
    pub events: u64,
    /// The congestion window in bytes.
    pub window: u64,
    /// The slow start threshold in bytes, where there is one.
    pub ssthresh: Option<u64>,
    /// The estimate of the round-trip time.
    pub rtt: Rtt,
    /// The sum of the sizes of open in-flight packets.
    pub bytes_in_flight: u64,
    /// How many probe timeouts there were since the last reset.
    pub pto_count: u64,
    /// How many packets are detected as lost and not yet declared.
    pub owed: u64,
}

impl Quantities {
    /// The totals, as they are reported.
    pub fn totals(&self) -> Totals
        ensures { result ≡ totals_of self.now.events self.now.window self.now.ssthresh self.now.rtt
            self.now.bytes_in_flight self.now.pto_count self.now.owed }
    {
        Totals {
            events: self.events,
            window: self.window,
            ssthresh: self.ssthresh,
            bytes_in_flight: self.bytes_in_flight,
            latest_rtt: self.rtt.latest_rtt.get(),
            min_rtt: self.rtt.min_rtt.get(),
            smoothed_rtt: self.rtt.smoothed_rtt.get(),
            rttvar: self.rtt.rttvar.get(),
            pto_count: self.pto_count,
            owed: self.owed,
        }
    }
}

/// The rule of the first test that is so.
pub(crate) fn first_so(tests: &[(bool, Rule)]) -> Option<Rule>
    ensures { result ≡ rules.first_of tests.now }
{
    for (is_so, rule) in tests {
        if *is_so {
            return Some(*rule);
        }
    }
    None
}

/// V16: the first reported value that is not the machine's, by more than the header's slack.
pub fn metrics_rule<S: State>(state: &S, event: &Event) -> Option<Rule>
    ensures { (c : Settings) (h : List AnEvent) → S.tells state.now c h
        → result ≡ rules.first_of (metrics.metric_tests c h event.now) }
{
    match event {
        Event::Metrics { values, .. } => {
            first_so(&differences(state.header(), values, &state.totals()))
        }
        _ => None,
    }
}
