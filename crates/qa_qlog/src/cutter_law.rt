//! That the records of a log and its skeleton are those of its bytes, whatever the parts are in
//! which it comes.
ghost use Rattle.std.specs.Prelude.{◌≡◌, ◌≢◌, ◌++◌, ℕ, List, [], ◌∷◌, Err};
ghost use Rattle.qa_qlog.specs.Cuts.{Cut, Uncut, cuts_of, empty, skeleton_of};
ghost use Rattle.qa_qlog.specs.Cutting.{Fails, Lacks, Takes};
ghost use Rattle.qa_qlog.specs.Holding.{Holds, fed};
ghost use Rattle.qa_qlog.specs.Places.{StandAtTheirPlaces};
ghost use Rattle.qa_qlog.specs.declared.cutter.CutFault.{CutFault};
ghost use Rattle.qa_qlog.specs.declared.cutter.CutFault.TheVariants.{OutOfMemory};

/// The law of `DocumentCutter`. It holds of a new one that no record of no bytes was returned; each
/// call keeps this, with the bytes that were fed and the records that were returned. Once all that
/// was fed was read, these are the records of these bytes, and the skeleton is theirs; where it
/// fails, the log has these records before its fault, whatever follows.
pub fn cuts_whatever_the_parts()
    ensures begun { Holds [] empty [] }
    ensures fed { (taken : List Cut) (rest : Uncut) (log part : List ℕ)
        → Holds taken rest log → Holds taken (fed rest part) (log ++ part) }
    ensures record_taken { (taken : List Cut) (old new : Uncut) (cut : Cut) (log : List ℕ)
        → Takes old cut new → Holds taken old log → Holds (taken ++ cut ∷ []) new log }
    ensures none { (taken : List Cut) (old new : Uncut) (log : List ℕ)
        → Lacks old new → Holds taken old log → Holds taken new log }
    ensures ended { (taken : List Cut) (old new : Uncut) (log : List ℕ)
        → Lacks old new → Holds taken old log
        → cuts_of log ≡ (taken, skeleton_of new.state) }
    ensures failed { (taken : List Cut) (old new : Uncut) (fault : CutFault) (log : List ℕ)
        → Fails old fault new → fault ≢ OutOfMemory → Holds taken old log
        → (more : List ℕ) → cuts_of (log ++ more) ≡ (taken, Err fault) }
{}

/// Each record of a log has the bytes that stand at its place in the log.
pub fn records_stand_at_their_places()
    ensures { StandAtTheirPlaces }
{}
