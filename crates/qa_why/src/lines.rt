//! How a line of a trace is shown.
ghost use Rattle.std.specs.Prelude.{◌≡◌, ◌++◌, IfOk, OnOk, map, string_bytes};
ghost use Rattle.qa_why.specs.Lines as text;

use std::alloc::{AllocError, Global};

/// Appends bytes.
pub fn extend(text: &mut Vec<u8>, bytes: &[u8]) -> Result<(), AllocError>
    ensures { OnOk result (text.new.items ≡ text.old.items ++ bytes.now) }
{
    text.extend_from_slice(bytes)
}

/// The byte as it is shown: a printable character of ASCII, or a question mark.
fn printable(byte: u8) -> u8
    ensures { result ≡ text.printable byte }
{
    if 32 <= byte && byte <= 126 {
        byte
    } else {
        b'?'
    }
}

/// Bytes as they are shown.
pub fn printed(alloc: Global, bytes: &[u8]) -> Result<Vec<u8>, AllocError>
    ensures { IfOk result (λ shown. shown.items ≡ map text.printable bytes.now) }
{
    bytes.iter().map(|byte| printable(*byte)).collect(alloc)
}

/// The number of a line, before it.
#[tactic(auto, unfolding(crate::specs::Lines::margin))]
fn margin(alloc: Global, n: u64) -> Result<String, AllocError>
    ensures { IfOk result (λ shown. string_bytes shown ≡ text.margin n) }
{
    format!(in alloc; "  {n} | ")
}

/// The most bytes of a line that are shown.
const SHOWN_BYTES: usize = 200;

/// The first bytes of a line.
pub fn first_bytes(line: &[u8], count: usize) -> &[u8]
    ensures { result.now ≡ text.first_bytes count line.now }
{
    if count < line.len() {
        &line[..count]
    } else {
        line
    }
}

/// What stands behind a line of so many bytes.
#[tactic(auto, unfolding(crate::specs::Lines::cut_text))]
fn cut_text(count: usize) -> &'static str
    ensures { result.now ≡ text.cut_text count }
{
    if SHOWN_BYTES < count { " ..\n" } else { "\n" }
}

/// Appends the line with its number; of a long one its first bytes.
#[tactic(auto, unfolding(crate::specs::Lines::line_text))]
pub fn push_line(alloc: Global, out: &mut Vec<u8>, n: u64, line: &[u8]) -> Result<(), AllocError>
    ensures { OnOk result (out.new.items ≡ out.old.items ++ text.line_text n line.now) }
{
    let margin = margin(alloc, n)?;
    let shown = printed(alloc, first_bytes(line, SHOWN_BYTES))?;
    extend(out, margin.as_bytes())?;
    extend(out, &shown)?;
    extend(out, cut_text(line.len()).as_bytes())
}
