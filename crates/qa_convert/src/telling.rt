//! What is told of a log beside its trace: what was guessed and left out, and why a refusal may be
//! due to the reading of the log or to what a trace cannot say.
use crate::dialects::{Absent, Dialect};
use crate::guess::Guess;
use crate::header::is_other;
use crate::looking::{Looking, Order};
use crate::notes::{Counted, Notes};
use crate::omission::{Limit, Omission};
use crate::place::Place;
use crate::survey::{Retry, Survey};
use qa_base::Options;
use std::alloc::{AllocError, Global};

/// A time threshold is in millionths.
const MILLIONTHS: u64 = 1_000_000;

impl Notes {
    /// What is told in any case: why a refusal may not be the sender's, and timers that were left
    /// out, since timers decide what may be sent.
    pub(crate) fn told(&self, alloc: Global) -> Result<Vec<String>, AllocError> {
        let mut told = Vec::new(alloc);
        push_texts(alloc, &self.doubts, &mut told)?;
        push_texts(alloc, &self.warnings, &mut told)?;
        push_limits(alloc, &self.limits, &mut told)?;
        for counted in &self.omissions {
            if counted.what.is_of_timer() {
                told.push(left_out(alloc, *counted)?)?;
            }
        }
        Ok(told)
    }

    /// What was found, guessed and left out, a line each.
    pub(crate) fn lines(&self, alloc: Global) -> Result<Vec<String>, AllocError> {
        let mut lines = Vec::new(alloc);
        for finding in &self.findings {
            lines.push(format!(in alloc; "found: {finding}")?)?;
        }
        push_guesses(alloc, &self.guesses, &mut lines)?;
        push_omissions(alloc, &self.omissions, &mut lines)?;
        Ok(lines)
    }

    /// The order of the log is not that of the dialect that it names.
    pub(crate) fn doubt_order(
        &mut self,
        alloc: Global,
        named: &Dialect,
        found: &Dialect,
    ) -> Result<(), AllocError> {
        let name = named.stack.name();
        let order = Order::of(found).text();
        let text = format!(in alloc; "its order is not that of {name}: {order}; it is read so")?;
        self.doubts.push(text)?;
        Ok(())
    }

    /// What the log says of the sender's choices, and a header cannot.
    pub(crate) fn warn(
        &mut self,
        alloc: Global,
        dialect: &Dialect,
        survey: &Survey,
        options: Options,
    ) -> Result<(), AllocError> {
        if let Some(said) = survey.recovery.packet_threshold {
            if said != options.packet_threshold {
                self.warnings.push(format!(in alloc;
                    "its reordering_threshold is {said}, which \
                    the header does not say; losses by number may be refused"
                )?)?;
            }
        }
        self.note_limits(dialect, survey)?;
        if let Some(said) = survey.recovery.time_threshold {
            if is_other(said, options.time_threshold_eighths) {
                self.warnings.push(other_threshold(alloc, said, options.time_threshold_eighths)?)?;
            }
        }
        Ok(())
    }

    /// What the log shows that no trace can say.
    fn note_limits(&mut self, dialect: &Dialect, survey: &Survey) -> Result<(), AllocError> {
        if dialect.cuts_times {
            self.limit(Limit::CutClock)?;
        }
        if survey.has_marks {
            self.limit(Limit::Marks)?;
        }
        if survey.has_ack_frequency {
            self.limit(Limit::AckFrequency)?;
        }
        Ok(())
    }

    /// What the first reading found of a log that names no dialect.
    pub(crate) fn find(
        &mut self,
        alloc: Global,
        looking: &Looking,
        found: &Dialect,
        has_milliseconds: bool,
    ) -> Result<(), AllocError> {
        self.findings.push(order_found(alloc, looking, found)?)?;
        let absent = absent_text(found.absent);
        self.findings.push(format!(in alloc; "a value that metrics leave out: {absent}")?)?;
        let times = if has_milliseconds {
            "whole milliseconds"
        } else {
            "finer than milliseconds"
        };
        let slack = found.slack_us;
        self.findings.push(format!(in alloc;
            "its times are {times}; reports may be off by {slack} microseconds"
        )?)?;
        Ok(())
    }
}

impl Retry {
    /// What is told of it, if so many packets were sent before it.
    pub(crate) fn text(&self, alloc: Global, count: u64) -> Result<String, AllocError> {
        let what = if self.is_logged {
            "the Retry"
        } else {
            "a Retry that is not in the log,"
        };
        let (unit, number) = match self.place {
            Place::Line(number) => ("line", number),
            Place::Byte(number) => ("byte", number),
        };
        format!(in alloc;
            "the trace begins after {what} at {unit} {number}; packets before it: \
            {count}"
        )
    }
}

/// What is said of a time threshold, in millionths, that is not that of the header.
fn other_threshold(alloc: Global, said: u64, eighths: u64) -> Result<String, AllocError> {
    let whole = said / MILLIONTHS;
    let thousandths = said % MILLIONTHS / 1_000;
    format!(in alloc;
        "its time_threshold is {whole}.{thousandths:03}, and that of the header \
        {eighths}/8; losses by time may be refused"
    )
}

/// In which order a log is, and by what.
fn order_found(alloc: Global, looking: &Looking, found: &Dialect) -> Result<String, AllocError> {
    let order = Order::of(found).text();
    let counts = looking.counts;
    let (count, behind, before) = (counts.acknowledgments, counts.behind, counts.before);
    let (losses_behind, losses_before) = (counts.losses_behind, counts.losses_before);
    let (times_behind, times_before) = (looking.samples.behind, looking.samples.before);
    format!(in alloc;
        "{order} (acknowledgments with a report: {count}, of which agree after \
        {behind}, before {before}; losses after {losses_behind}, before {losses_before}; \
        round-trip times after {times_behind}, before {times_before})"
    )
}

/// What is said of a value that metrics leave out.
fn absent_text(absent: Absent) -> &'static str {
    match absent {
        Absent::Same => "it is as it was",
        Absent::SameOrZero => "it is as it was, or 0",
        Absent::Unknown => "the sender has none",
    }
}

/// What is said of what was left out.
fn left_out(alloc: Global, counted: Counted<Omission>) -> Result<String, AllocError> {
    let (count, text) = (counted.count, counted.what.text());
    format!(in alloc; "left out {count}: {text}")
}

/// What is said of a guess.
fn guessed(alloc: Global, counted: Counted<Guess>) -> Result<String, AllocError> {
    let (count, text) = (counted.count, counted.what.text());
    format!(in alloc; "guessed {count}: {text}")
}

/// Appends copies of texts.
fn push_texts(alloc: Global, texts: &[String], told: &mut Vec<String>) -> Result<(), AllocError> {
    for text in texts {
        told.push(String::from_str(alloc, text.as_str())?)?;
    }
    Ok(())
}

/// Appends what is said of limits.
fn push_limits(alloc: Global, limits: &[Limit], told: &mut Vec<String>) -> Result<(), AllocError> {
    for limit in limits {
        told.push(String::from_str(alloc, limit.text())?)?;
    }
    Ok(())
}

/// Appends what is said of guesses.
fn push_guesses(
    alloc: Global,
    guesses: &[Counted<Guess>],
    lines: &mut Vec<String>,
) -> Result<(), AllocError> {
    for counted in guesses {
        lines.push(guessed(alloc, *counted)?)?;
    }
    Ok(())
}

/// Appends what is said of what was left out.
fn push_omissions(
    alloc: Global,
    omissions: &[Counted<Omission>],
    lines: &mut Vec<String>,
) -> Result<(), AllocError> {
    for counted in omissions {
        lines.push(left_out(alloc, *counted)?)?;
    }
    Ok(())
}
