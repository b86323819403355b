//! Why a log gives no trace, or why its trace ends.
use qa_convert::{NoLine, NoMore, NoRecord, NoSurvey, NoTrace, Place, Stack};
use qa_qlog::{CutFault, NoHead, NoLog, NoValue, TextFault};
use std::alloc::AllocError;
use thiserror::Error;

/// Why a log gives no trace, or why its trace ends.
#[derive(Clone, Copy, Debug, PartialEq, Eq, Error)]
pub enum LogFault {
    /// The file is no log that can be read.
    #[error("{0}")]
    Kind(NoLog),
    /// The file is a log of Chromium's network stack.
    #[error("a netlog of Chromium: make a qlog of it by netlog-to-qlog")]
    Netlog,
    /// It has no text.
    #[error("no record")]
    Empty,
    /// A text cannot be taken.
    #[error("{0}")]
    Text(TextFault),
    /// A log that is one object cannot be cut into its records.
    #[error("{0}")]
    Cut(CutFault),
    /// The first text is no head. It begins there.
    #[error("{0}: {1}")]
    Head(Place, NoHead),
    /// The first text is torn off. It begins there.
    #[error("{0}: torn off")]
    Torn(Place),
    /// What is beside the records of a log that is one object is not JSON.
    #[error("what is beside its records is not JSON")]
    NotJson,
    /// The traces of a log that is one object cannot be read.
    #[error("{0}")]
    Traces(NoValue),
    /// The head of a trace cannot be read.
    #[error("{0}")]
    TraceHead(NoHead),
    /// A log that is one object has no traces.
    #[error("it has no traces")]
    NoTraces,
    /// No trace is of a client, though one is asked for.
    #[error("no trace of a client is in it")]
    NoClient,
    /// No trace is of a server, though one is asked for.
    #[error("no trace of a server is in it")]
    NoServer,
    /// No trace says of which endpoint it is.
    #[error("its vantage point is no client or server: say which by qlog-to-trace --vantage")]
    NoVantage,
    /// It has so many traces of which one could be meant, and not one of this number.
    #[error("it has {0} traces, and no number {1}")]
    NoTraceOf(u64, u64),
    /// It has so many connections or paths, and not one of this number.
    #[error("it has {0} connections or paths, and no number {1}")]
    NoConnection(u64, u64),
    /// A record cannot be read. It begins there.
    #[error("{0}: {1}")]
    Record(Place, NoRecord),
    /// The lines of a record cannot be written. It begins there.
    #[error("{0}: {1}")]
    Line(Place, NoLine),
    /// The lines of its end cannot be written.
    #[error("at its end: {0}")]
    LastLine(NoLine),
    /// It lacks what a trace needs.
    #[error("{0}")]
    Trace(NoTrace),
    /// It lacks the frames of packets, as all logs of its stack do, and this is what to do then.
    #[error("{0}. {1}")]
    NoFrames(NoSurvey, &'static str),
    /// Out of memory.
    #[error("out of memory")]
    OutOfMemory,
}

impl LogFault {
    /// What is wrong with the record that begins there.
    pub(crate) fn of_record(place: Place, fault: NoRecord) -> LogFault {
        match fault {
            NoRecord::OutOfMemory => LogFault::OutOfMemory,
            fault => LogFault::Record(place, fault),
        }
    }

    /// What is wrong with the lines of the record that begins there.
    pub(crate) fn of_line(place: Place, fault: NoLine) -> LogFault {
        match fault {
            NoLine::OutOfMemory => LogFault::OutOfMemory,
            fault => LogFault::Line(place, fault),
        }
    }

    /// Why the trace ends at the record that begins there.
    pub(crate) fn of_end(place: Place, fault: NoMore) -> LogFault {
        match fault {
            NoMore::Record(fault) => LogFault::of_record(place, fault),
            NoMore::Line(fault) => LogFault::of_line(place, fault),
        }
    }

    /// What a log of this stack lacks.
    pub(crate) fn of_survey(fault: NoSurvey, stack: Stack) -> LogFault {
        let advice = stack.advice();
        match fault {
            NoSurvey::NoFramesSent | NoSurvey::NoFramesReceived if !advice.is_empty() => {
                LogFault::NoFrames(fault, advice)
            }
            fault => LogFault::Trace(NoTrace::Survey(fault)),
        }
    }

    /// Why the head of a trace cannot be read.
    pub(crate) fn of_head(fault: NoHead) -> LogFault {
        match fault {
            NoHead::OutOfMemory => LogFault::OutOfMemory,
            fault => LogFault::TraceHead(fault),
        }
    }
}

impl From<AllocError> for LogFault {
    fn from(_refused: AllocError) -> Self {
        LogFault::OutOfMemory
    }
}

impl From<NoLog> for LogFault {
    fn from(fault: NoLog) -> Self {
        match fault {
            NoLog::OutOfMemory => LogFault::OutOfMemory,
            fault => LogFault::Kind(fault),
        }
    }
}

impl From<TextFault> for LogFault {
    fn from(fault: TextFault) -> Self {
        match fault {
            TextFault::OutOfMemory => LogFault::OutOfMemory,
            fault => LogFault::Text(fault),
        }
    }
}

impl From<CutFault> for LogFault {
    fn from(fault: CutFault) -> Self {
        match fault {
            CutFault::OutOfMemory => LogFault::OutOfMemory,
            fault => LogFault::Cut(fault),
        }
    }
}

impl From<NoTrace> for LogFault {
    fn from(fault: NoTrace) -> Self {
        match fault {
            NoTrace::OutOfMemory => LogFault::OutOfMemory,
            fault => LogFault::Trace(fault),
        }
    }
}
