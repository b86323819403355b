//! That keys of the converter's own change nothing of what a line says, and that what it writes is
//! read as its lines.
ghost use Rattle.std.specs.Prelude.{◌≡◌, Ok, false, List, map};
ghost use Rattle.std.specs.List.{AllByRecursion};
ghost use Rattle.serde_json.specs.Data.{Members};
ghost use Rattle.qa_convert.specs.OwnKeys.{AreOwn, IsWritten, Noted, noted, texts_of};
ghost use Rattle.qa_format.specs.declared.line.Line.{Line};
ghost use Rattle.qa_format.specs.format.Lines.{ended, has_lf, lines};
ghost use Rattle.qa_format.specs.format.Proper.{IsProperLine};
ghost use Rattle.qa_format.specs.format.Reading.{reading};

/// The text of a line with keys behind its own that begin with `x_` is one line, and is read as the
/// line.
pub fn own_keys_are_passed_over()
    ensures read { (line : Line) (own : Members) → IsProperLine line → AreOwn own
        → reading (noted line own) ≡ Ok line }
    ensures one_line { (line : Line) (own : Members) → IsProperLine line → AreOwn own
        → has_lf (noted line own) ≡ false }
{}

/// The text of lines with own keys, each ended by LF, has these lines, and each is read as what it
/// says.
pub fn written_lines_are_read()
    ensures lines { (ns : List Noted) → AllByRecursion IsWritten ns
        → lines (ended (texts_of ns)) ≡ texts_of ns }
    ensures read { (ns : List Noted) → AllByRecursion IsWritten ns
        → map reading (lines (ended (texts_of ns))) ≡ map (λ n. Ok n.0) ns }
{}
