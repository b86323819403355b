//! Whether the round-trip times that a log reports are those of the packet in front of the report,
//! or of the one behind it.

/// How far off a sample of the round-trip time may be by the times of a log, in nanoseconds.
const ROUNDING_OF_TIMES: u64 = 2_000_000;
/// By what a delay on the wire is multiplied, if its sender does not say it (RFC 9000, 18.2).
const SHIFT_BY_DEFAULT: u64 = 8;

/// A round-trip time by the times of a log, and the delay that a sender may subtract from it, in
/// nanoseconds.
#[derive(Clone, Copy)]
pub(crate) struct Measured {
    pub(crate) latest: u64,
    pub(crate) delay: u64,
}

impl Measured {
    /// Whether a report may be of this sample.
    fn agrees(self, reported: u64) -> bool {
        self.distance(reported) <= ROUNDING_OF_TIMES
    }

    /// How far a report is from this sample, with the delay or without it. Some logs have it as it
    /// is on the wire.
    fn distance(self, reported: u64) -> u64 {
        let whole = apart(self.latest, reported);
        let less = apart(self.latest, reported.saturating_add(self.delay));
        let shifted = self.delay.saturating_mul(SHIFT_BY_DEFAULT);
        let least = apart(self.latest, reported.saturating_add(shifted));
        whole.min(less).min(least)
    }
}

/// How far two numbers are apart.
fn apart(here: u64, there: u64) -> u64 {
    if here < there {
        there - here
    } else {
        here - there
    }
}

/// What was counted of reports of the latest round-trip time.
#[derive(Clone, Copy)]
pub(crate) struct Samples {
    /// Those that agree with the packet before them alone.
    pub(crate) behind: u64,
    /// Those that agree with the one behind them alone.
    pub(crate) before: u64,
    /// Those that agree with either.
    pub(crate) either: u64,
    /// Those that agree with none.
    pub(crate) neither: u64,
    /// Those that agree with the packet before them, and are not its sample to the last digit.
    pub(crate) cut: u64,
    last: Option<Measured>,
    /// The last value that was reported.
    reported: u64,
    /// Whether it awaits the sample behind it.
    is_awaited: bool,
}

impl Samples {
    /// Before the first report.
    pub(crate) fn new() -> Samples {
        Samples {
            behind: 0,
            before: 0,
            either: 0,
            neither: 0,
            cut: 0,
            last: None,
            reported: 0,
            is_awaited: false,
        }
    }

    /// How many reports there are between two samples.
    pub(crate) fn count(self) -> u64 {
        let alone = self.behind.saturating_add(self.before);
        alone
            .saturating_add(self.either)
            .saturating_add(self.neither)
    }

    /// A report. One that repeats the value of the report before says nothing.
    pub(crate) fn report(&mut self, reported: u64) {
        self.is_awaited = reported != self.reported;
        self.reported = reported;
    }

    /// A packet that gives a sample.
    pub(crate) fn take(&mut self, sample: Measured) {
        if self.is_awaited {
            self.compare(sample);
        }
        self.is_awaited = false;
        self.last = Some(sample);
    }

    /// Compares the last report with the sample before it, and with the one behind it.
    fn compare(&mut self, sample: Measured) {
        let (is_behind, is_exact) = match self.last {
            Some(last) => (
                last.agrees(self.reported),
                last.distance(self.reported) == 0,
            ),
            None => (false, false),
        };
        if is_behind && !is_exact {
            self.cut = self.cut.saturating_add(1);
        }
        let count = match (is_behind, sample.agrees(self.reported)) {
            (true, true) => &mut self.either,
            (true, false) => &mut self.behind,
            (false, true) => &mut self.before,
            (false, false) => &mut self.neither,
        };
        *count = count.saturating_add(1);
    }
}
