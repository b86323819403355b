//! Why what was recorded is refused, for C.
ghost use Rattle.std.specs.Prelude.{◌≡◌, ◌≢◌, List, ℕ, None, IfOk, length, Some};
ghost use Rattle.qa_embed.specs.Session.{IsFed, phase_of, recorded_of};
ghost use Rattle.qa_embed.specs.declared.Phase.TheVariants as phases;
ghost use Rattle.qaudit_c.specs.Calls.{HasNoMemory, HoldsFed, Tells, text_kept};
ghost use Rattle.qaudit_c.specs.Reasons as reasons;

use crate::kept::{Qaudit, put, take};
use crate::texts::put_text;
use qa_check::{AuditFault, Metered};
use qa_embed::Session;
use qa_format::Form;
use qa_sender::Running;
use qa_violations::{Manner, why_around};
use qa_why::NoNotes;
use std::alloc::Global;

/// The name of the trace: to `qaudit-why` this is standard input.
const NAME: &str = "-";

/// As text, with so many rows before.
fn manner(rows: u16) -> Manner
    ensures { result ≡ reasons.manner rows }
{
    Manner {
        form: Form::Text,
        quiet: false,
        around: rows,
    }
}

/// What `qaudit-why --around` tells of these bytes.
fn around(alloc: Global, rows: u16, bytes: &[u8]) -> Result<Vec<u8>, AuditFault>
    ensures { IfOk result (λ text. text.items ≡ reasons.around rows bytes.now) }
{
    let mut reader = Metered::new(bytes);
    let mut writer = Metered::new(Vec::new(alloc));
    why_around::<Running, _, _, _>(alloc, manner(rows), NAME, NoNotes, &mut reader, &mut writer)?;
    Ok(writer.into_inner())
}

/// Puts that of these bytes at the front of `out`, where it fits, and returns how long it is; 0
/// where it is out of memory.
fn put_around(alloc: Global, rows: u16, bytes: &[u8], out: &mut [u8]) -> usize
    ensures length { length out.new ≡ length out.old }
    ensures none { result ≡ 0 → out.new ≡ out.old }
    ensures told { result ≢ 0 → Tells result out.old out.new (reasons.around rows bytes.now) }
{
    match around(alloc, rows, bytes) {
        Ok(text) => put_text(&text, out),
        Err(_) => 0,
    }
}

/// Puts that of what a session has recorded; 0 where it has recorded nothing too.
fn put_recorded(alloc: Global, session: &Session, rows: u16, out: &mut [u8]) -> usize
    ensures length { length out.new ≡ length out.old }
    ensures none { result ≡ 0 → out.new ≡ out.old }
    ensures memory { phase_of session.now ≡ phases.OutOfMemory → result ≡ 0 }
    ensures nothing { recorded_of session.now ≡ None → result ≡ 0 }
    ensures told { result ≢ 0 → (bytes : List ℕ) × IsFed session.now bytes
        × (recorded_of session.now ≡ Some bytes)
        × Tells result out.old out.new (reasons.around rows bytes) }
{
    match session.recorded() {
        Some(bytes) => put_around(alloc, rows, bytes, out),
        None => 0,
    }
}

/// Puts that of what C keeps, which stays as it is; 0 where nothing is open too.
pub fn tell_why(alloc: Global, qaudit: &mut Qaudit, rows: u16, out: &mut [u8]) -> usize
    ensures kept { qaudit.new.handle.held ≡ qaudit.old.handle.held }
    ensures length { length out.new ≡ length out.old }
    ensures none { result ≡ 0 → out.new ≡ out.old }
    ensures memory { HasNoMemory qaudit.old.handle.held → result ≡ 0 }
    ensures nothing { text_kept qaudit.old.handle.held ≡ None → result ≡ 0 }
    ensures told { result ≢ 0 → (bytes : List ℕ) × HoldsFed qaudit.old.handle.held bytes
        × (text_kept qaudit.old.handle.held ≡ Some bytes)
        × Tells result out.old out.new (reasons.around rows bytes) }
{
    let Some(session) = take(alloc, qaudit) else {
        return 0;
    };
    let count = put_recorded(alloc, &session, rows, out);
    put(qaudit, session);
    count
}
