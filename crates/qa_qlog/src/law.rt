//! That the texts of a log are those of its bytes, whatever the parts are in which it comes.
ghost use Rattle.std.specs.Prelude.{◌≡◌, ◌++◌, ℕ, List, [], ◌∷◌, false, true, None, Some};
ghost use Rattle.qa_qlog.specs.Standing.{Stands, closed, fed};
ghost use Rattle.qa_qlog.specs.Taking.{IsTooLong, Lacks, MayFollow, TakesText};
ghost use Rattle.qa_qlog.specs.Texts.{Numbered, Rest, texts_by};
ghost use Rattle.qa_qlog.specs.declared.texts.TextFault.TheVariants.{TooLong};

/// The law of `Texts`. It holds of a new one that no text of no bytes was returned; each call keeps
/// this, with the bytes that were fed and the texts that were returned. At the end of a log that
/// was closed, the texts that were returned are the texts of all bytes that were fed; at a text
/// that is too long, they are those before it.
pub fn texts_whatever_the_parts()
    ensures begun { (rest : Rest) → rest.uncut.bytes ≡ [] → rest.line ≡ 1 → Stands [] rest [] }
    ensures fed { (taken : List Numbered) (rest : Rest) (log part : List ℕ)
        → rest.uncut.closed ≡ false → Stands taken rest log
        → Stands taken (fed rest part) (log ++ part) }
    ensures closed { (taken : List Numbered) (rest : Rest) (log : List ℕ)
        → Stands taken rest log → Stands taken (closed rest) log }
    ensures text { (taken : List Numbered) (old new : Rest) (text : Numbered) (log : List ℕ)
        → TakesText old text new → Stands taken old log → Stands (taken ++ text ∷ []) new log }
    ensures none { (taken : List Numbered) (old new : Rest) (log : List ℕ)
        → Lacks old new → Stands taken old log → Stands taken new log }
    ensures ended { (taken : List Numbered) (old new : Rest) (log : List ℕ)
        → Lacks old new → old.uncut.closed ≡ true → Stands taken old log
        → texts_by old.uncut.mark log ≡ (taken, None) }
    ensures too_long { (taken : List Numbered) (old : Rest) (n : ℕ) (log : List ℕ)
        → IsTooLong old (TooLong n) → Stands taken old log
        → (more : List ℕ) → MayFollow old more
        → texts_by old.uncut.mark (log ++ more) ≡ (taken, Some n) }
{}
