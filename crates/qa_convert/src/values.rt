//! What a log has reported of the state of the sender so far.
use crate::dialects::Absent;
use crate::event::Report;
use qa_qlog::{ByteCounts, Rtts};

/// The latest value of each metric, round-trip times in nanoseconds.
#[derive(Clone, Copy, PartialEq, Eq)]
pub(crate) struct Values {
    pub(crate) rtts: Rtts,
    pub(crate) bytes: ByteCounts,
}

impl Values {
    /// None.
    pub(crate) fn none() -> Values {
        Values {
            rtts: no_rtts(),
            bytes: ByteCounts {
                window: None,
                ssthresh: None,
                in_flight: None,
            },
        }
    }

    /// With those of a report, by what it means that others are absent there.
    pub(crate) fn with(self, report: Report, absent: Absent) -> Values {
        let before = match absent {
            Absent::Same => self,
            Absent::SameOrZero => self.without_level(),
            Absent::Unknown => Values::none(),
        };
        Values {
            rtts: Rtts {
                latest: report.rtts.latest.or(before.rtts.latest),
                min: report.rtts.min.or(before.rtts.min),
                smoothed: report.rtts.smoothed.or(before.rtts.smoothed),
                variance: report.rtts.variance.or(before.rtts.variance),
            },
            bytes: ByteCounts {
                window: report.bytes.window.or(before.bytes.window),
                ssthresh: report.bytes.ssthresh.or(before.bytes.ssthresh),
                in_flight: report.bytes.in_flight.or(before.bytes.in_flight),
            },
        }
    }

    /// Without the bytes in flight.
    fn without_level(self) -> Values {
        Values {
            bytes: ByteCounts {
                in_flight: None,
                ..self.bytes
            },
            ..self
        }
    }

    /// Bytes in flight that are left out are 0.
    pub(crate) fn with_zero(self) -> Values {
        Values {
            bytes: ByteCounts {
                in_flight: self.bytes.in_flight.or(Some(0)),
                ..self.bytes
            },
            ..self
        }
    }

    /// Without the round-trip times.
    pub(crate) fn without_rtts(self) -> Values {
        Values {
            rtts: no_rtts(),
            ..self
        }
    }

    /// The window alone.
    pub(crate) fn of_window(window: u64) -> Values {
        Values {
            rtts: no_rtts(),
            bytes: ByteCounts {
                window: Some(window),
                ssthresh: None,
                in_flight: None,
            },
        }
    }

    /// Whether there is any.
    pub(crate) fn are_some(self) -> bool {
        self != Values::none()
    }

    /// The greater of the latest round-trip time and the smoothed one; 0 if there is none.
    pub(crate) fn greater_rtt(self) -> u64 {
        self.rtts
            .latest
            .unwrap_or(0)
            .max(self.rtts.smoothed.unwrap_or(0))
    }
}

/// No round-trip times.
fn no_rtts() -> Rtts {
    Rtts {
        latest: None,
        min: None,
        smoothed: None,
        variance: None,
    }
}
