//! That a reading takes the texts of the bytes of its log, whatever the parts are in which they
//! come.
ghost use Rattle.std.specs.Prelude.{◌≡◌, ◌++◌, ℕ, Bool, List, map};
ghost use Rattle.qa_logs.specs.Cutting.{Given, NextRecord, NextText, Steps, of_record, of_text};
ghost use Rattle.std.specs.List.{concat};
ghost use Rattle.qa_logs.specs.Opening as opening;
ghost use Rattle.qa_logs.specs.Surveying as surveying;
ghost use Rattle.qa_logs.specs.Tracing as tracing;
ghost use Rattle.qa_logs.specs.Whole.{FeedsEach};
ghost use Rattle.qa_logs.specs.declared.choosing.Chosen.{Chosen};
ghost use Rattle.qa_logs.specs.declared.log.Log.{Log};
ghost use Rattle.qa_qlog.specs.Cuts.{Cut, Uncut};
ghost use Rattle.qa_qlog.specs.Holding.{Holds};
ghost use Rattle.qa_qlog.specs.Standing.{Stands};
ghost use Rattle.qa_qlog.specs.Texts.{Numbered, Rest};
ghost use Rattle.qa_qlog.specs.declared.texts.Mark.{Mark as AMark};

use qa_qlog::{cuts_whatever_the_parts, texts_whatever_the_parts};

/// The law of what is handed on. If the texts that were handed on before are those of the bytes of
/// a log, in their order, none left out and none twice, so they are with those that come next.
/// `texts_whatever_the_parts` and `cuts_whatever_the_parts` say the same of a part that comes, and
/// of the end.
pub fn readings_take_what_the_log_has()
    ensures texts { (mark : AMark) (is_last : Bool) (old new : Rest) (ts : List Given)
        (taken : List Numbered) (log : List ℕ) → Steps (NextText mark is_last) old ts new
        → Stands taken old log → (more : List Numbered)
        × (ts ≡ map (of_text mark is_last) more) × Stands (taken ++ more) new log }
    ensures records { (old new : Uncut) (ts : List Given) (taken : List Cut) (log : List ℕ)
        → Steps NextRecord old ts new → Holds taken old log → (more : List Cut)
        × (ts ≡ map of_record more) × Holds (taken ++ more) new log }
{
    texts_whatever_the_parts();
    cuts_whatever_the_parts();
}

/// The law of a whole log. Whatever the parts are in which its bytes come, the look at it finds
/// what it says beside its records; and both readings take its texts, in their order, none left out
/// and none twice: all of them, or the first up to one after which no more is wanted. Between two
/// parts lines may be given away.
pub fn readings_take_whole_logs()
    ensures opening { (parts : List (List ℕ)) (o : opening.Opened) (log : Log)
        → FeedsEach opening.Feeds opening.unopened parts o → opening.Ends o log
        → opening.SaysBeside log.form (concat parts) log }
    ensures surveying { (log : Log) (it : Chosen) (first : surveying.First)
        (parts : List (List ℕ)) (old mid : surveying.Begun) (new : tracing.Traced)
        → surveying.Starts log it first old → FeedsEach surveying.Feeds old parts mid
        → (leads : surveying.Leads log mid new)
        → surveying.Surveys log.form (concat parts) old.records leads.last }
    ensures tracing { (log : Log) (number : ℕ) (second : tracing.Second)
        (parts : List (List ℕ)) (old last mid new : tracing.Traced)
        → tracing.Starts log number second old → FeedsEach tracing.FeedsNext old parts last
        → tracing.MayGive last mid → (closed : tracing.Closed mid new)
        → tracing.Writes log.form (concat parts) old.records closed.last }
{
    texts_whatever_the_parts();
    cuts_whatever_the_parts();
}
