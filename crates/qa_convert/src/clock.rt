//! The times of a log, as nanoseconds from its start.
ghost use Rattle.std.specs.Prelude.{◌≡◌, None, Some, pos};
ghost use Rattle.qa_convert.specs.Clocks.{begun, last_after, shown, start_of};

use qa_qlog::TimeForm;

/// Nanoseconds of ten years: no connection is so old, so a time that is greater counts from an
/// epoch.
const LEAST_OF_EPOCH: i64 = 315_360_000_000_000_000;

/// How far the times of a log have come.
#[derive(Drop)]
pub struct Clock {
    form: TimeForm,
    /// The time from which all count, once there was a record.
    start: Option<i64>,
    /// That of the last record, from the start.
    last: i64,
}

impl Clock {
    /// Before the first record of a log whose times have this form.
    pub fn new(form: TimeForm) -> Clock
        ensures form { result.form ≡ form }
        ensures start { result.start ≡ None }
        ensures last { result.last ≡ pos 0 }
    {
        Clock {
            form,
            start: None,
            last: 0,
        }
    }

    /// The nanoseconds from the start of the next record, by the time that it has. The first may
    /// count from an epoch also if the others count from the one before. A time before the start is
    /// 0, and one past 2^63 - 1 is that.
    pub fn next(&mut self, time: i64) -> u64
        ensures form { self.new.form ≡ self.old.form }
        ensures start { self.new.start ≡ Some (begun self.old.form time self.old.start) }
        ensures last { self.new.last
            ≡ last_after self.old.form time self.old.start self.old.last }
        ensures shown { result ≡ shown self.new.last }
    {
        self.last = match self.start {
            None => {
                let start = start_of(self.form, time);
                self.start = Some(start);
                time.saturating_sub(start)
            }
            Some(start) => match self.form {
                TimeForm::Delta => self.last.saturating_add(time),
                TimeForm::Absolute | TimeForm::Relative => time.saturating_sub(start),
            },
        };
        shown_of(self.last)
    }

    /// The nanoseconds from the start of the last record; 0 if there was none.
    pub fn last(&self) -> u64
        ensures { result ≡ shown self.now.last }
    {
        shown_of(self.last)
    }
}

/// From what the times of a log count, by its first one.
fn start_of(form: TimeForm, first: i64) -> i64
    ensures { result ≡ start_of form first }
{
    if form == TimeForm::Absolute || LEAST_OF_EPOCH <= first {
        first
    } else {
        0
    }
}

/// A time, or 0 if it is before the start.
fn shown_of(time: i64) -> u64
    ensures { result ≡ shown time }
{
    if time < 0 { 0 } else { time as u64 }
}
