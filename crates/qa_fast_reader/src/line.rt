//! A line.
ghost use Rattle.std.specs.Prelude.{◌≡◌, true};
ghost use Rattle.qa_fast_reader.specs.Found.{IsLineOf};

use crate::any_order::any_order;
use crate::exact::exact_lost;
use crate::reports::exact_report;
use qa_format::Line;
use std::alloc::Global;

/// Whether the bytes of a line have the form that most loggers write; the event that they say is
/// put where it is to stand, so that it is not handed from one function to the next.
///
/// The form is one object with the keys of an event, each with a value of its kind or null, and any
/// other keys, with any values that nest no deeper than JSON may. Lines in a usual order
/// (`usual_line`) are read here too, and more quickly there. A line with a fault is never of this
/// form, and neither are a header and a blank line. Only ranges take memory, and false comes if it
/// was refused. After false nothing is said of `into`.
#[inline(always)]
pub fn other_line(alloc: Global, bytes: &[u8], into: &mut Line) -> bool
    ensures { result ≡ true → IsLineOf bytes.now into.new }
{
    if is_like_lost_or_report(bytes) {
        if lost_or_report(alloc, bytes, into) {
            return true;
        }
    }
    any_order(alloc, bytes, into)
}

/// Whether a look at two bytes tells that the line may be a loss or a report in a usual order.
#[inline(always)]
fn is_like_lost_or_report(bytes: &[u8]) -> bool {
    let [_, _, first, _, _, _, _, _, _, _, kind, ..] = bytes else {
        return false;
    };
    *first == b'b' || *kind == b'l' || *kind == b'm'
}

/// Whether the bytes of a line say packets that were declared lost, or a report, in a usual order;
/// the line is put where it is to stand.
#[inline(never)]
fn lost_or_report(alloc: Global, bytes: &[u8], into: &mut Line) -> bool
    ensures { result ≡ true → IsLineOf bytes.now into.new }
{
    if let Some(line) = exact_lost(alloc, bytes) {
        *into = line;
        return true;
    }
    if let Some(line) = exact_report(bytes) {
        *into = line;
        return true;
    }
    false
}
