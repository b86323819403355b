//! What a recorded trace rests on that is accepted, for C.
ghost use Rattle.std.specs.Prelude.{◌≡◌, ◌≢◌, List, ℕ, None, IfOk, IfSome, length, map, Some};
ghost use Rattle.qa_embed.specs.Session.{IsFed, phase_of, recorded_of};
ghost use Rattle.qa_embed.specs.declared.Phase.TheVariants as phases;
ghost use Rattle.qa_format.specs.format.Reading.{reading};
ghost use Rattle.qa_format.specs.verdicts.Verdict.{strict};
ghost use Rattle.qa_violations.specs.allowed.Items.{allowances_behind};
ghost use Rattle.qa_violations.specs.allowed.Lines.{each};
ghost use Rattle.qa_violations.specs.around.Around.{outcome_by};
ghost use Rattle.qa_why.specs.Why.{good_lines};
ghost use Rattle.qaudit_c.specs.Calls.{HasNoMemory, HoldsFed, Tells, text_kept};
ghost use Rattle.qaudit_c.specs.Telling as telling;

use crate::kept::{Qaudit, put, take};
use crate::telling::{ToldAllowance, allowance_for_c};
use crate::texts::put_allowances;
use qa_check::Metered;
use qa_embed::Session;
use qa_sender::Running;
use qa_violations::{Allowance, header_allowed};
use std::alloc::{AllocError, Global};

/// What an accepted verdict of these bytes rests on; nothing where it is another. None comes where
/// it is out of memory.
fn allowed(alloc: Global, bytes: &[u8]) -> Option<Vec<Allowance>>
    ensures { IfSome result (λ items. items.items
        ≡ allowances_behind each (outcome_by bytes.now) (good_lines (strict reading) bytes.now)) }
{
    let mut reader = Metered::new(bytes);
    header_allowed::<Running, _>(alloc, &mut reader)
}

/// The same for C.
fn all_for_c(alloc: Global, items: &[Allowance]) -> Result<Vec<ToldAllowance>, AllocError>
    ensures { IfOk result (λ all. all.items ≡ map telling.told_allowance items.now) }
{
    let mut all = Vec::new(alloc);
    for item in items {
        all.push(allowance_for_c(item))?;
    }
    Ok(all)
}

/// Puts it at the front of `out`, where it fits, and returns how many items it has; 0 where it is
/// out of memory.
fn put_allowed(alloc: Global, bytes: &[u8], out: &mut [ToldAllowance]) -> usize
    ensures length { length out.new ≡ length out.old }
    ensures none { result ≡ 0 → out.new ≡ out.old }
    ensures told { result ≢ 0 → Tells result out.old out.new (telling.told_allowances bytes.now) }
{
    let Some(items) = allowed(alloc, bytes) else {
        return 0;
    };
    match all_for_c(alloc, &items) {
        Ok(all) => put_allowances(&all, out),
        Err(_) => 0,
    }
}

/// Puts that of what a session has recorded; 0 where it has recorded nothing too.
fn put_recorded(alloc: Global, session: &Session, out: &mut [ToldAllowance]) -> usize
    ensures length { length out.new ≡ length out.old }
    ensures none { result ≡ 0 → out.new ≡ out.old }
    ensures memory { phase_of session.now ≡ phases.OutOfMemory → result ≡ 0 }
    ensures nothing { recorded_of session.now ≡ None → result ≡ 0 }
    ensures told { result ≢ 0 → (bytes : List ℕ) × IsFed session.now bytes
        × (recorded_of session.now ≡ Some bytes)
        × Tells result out.old out.new (telling.told_allowances bytes) }
{
    match session.recorded() {
        Some(bytes) => put_allowed(alloc, bytes, out),
        None => 0,
    }
}

/// Puts that of what C keeps, which stays as it is; 0 where nothing is open too.
pub fn tell_allowed(alloc: Global, qaudit: &mut Qaudit, out: &mut [ToldAllowance]) -> usize
    ensures kept { qaudit.new.handle.held ≡ qaudit.old.handle.held }
    ensures length { length out.new ≡ length out.old }
    ensures none { result ≡ 0 → out.new ≡ out.old }
    ensures memory { HasNoMemory qaudit.old.handle.held → result ≡ 0 }
    ensures nothing { text_kept qaudit.old.handle.held ≡ None → result ≡ 0 }
    ensures told { result ≢ 0 → (bytes : List ℕ) × HoldsFed qaudit.old.handle.held bytes
        × (text_kept qaudit.old.handle.held ≡ Some bytes)
        × Tells result out.old out.new (telling.told_allowances bytes) }
{
    let Some(session) = take(alloc, qaudit) else {
        return 0;
    };
    let count = put_recorded(alloc, &session, out);
    put(qaudit, session);
    count
}
