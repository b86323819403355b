//! What C keeps of a session.
ghost use Rattle.std.specs.Prelude.{◌≡◌, [], None, Some, option_map, IfSome, is_some, false};
ghost use mathlib.Core.Bool.{Bool-set};
ghost use Rattle.qa_embed.specs.Session.{IsFed, phase_of};
ghost use Rattle.qa_embed.specs.declared.Phase.TheVariants as phases;

use crate::handle::Handle;
use crate::parts::Parts;
use qa_embed::Session;
use std::alloc::Global;
use std::mem::replace;

/// A session, or none. To C all zero is none.
#[repr(C)]
#[derive(Drop)]
pub struct Qaudit {
    pub handle: Handle,
    pub is_open: bool,
    ghost agrees: { is_open ≡ is_some handle.held } by { Bool-set _ _ },
}

/// None.
#[inline(always)]
fn closed(alloc: Global) -> Qaudit
    ensures { result.handle.held ≡ None }
{
    Qaudit {
        handle: Handle::closed(alloc),
        is_open: false,
    }
}

/// Takes the session out, where there is one.
#[inline(always)]
pub fn take(alloc: Global, qaudit: &mut Qaudit) -> Option<Box<Session, Global>>
    ensures taken { qaudit.old.handle.held ≡ option_map (λ b. b.value) result }
    ensures left { qaudit.new.handle.held ≡ None }
{
    let Qaudit { handle, is_open } = replace(qaudit, closed(alloc));
    if is_open {
        Some(handle.into_parts().into_box())
    } else {
        None
    }
}

/// Puts a session in, where there is none.
#[inline(always)]
pub fn put(qaudit: &mut Qaudit, session: Box<Session, Global>)
    ensures { qaudit.new.handle.held ≡ Some session.value }
{
    *qaudit = Qaudit {
        handle: Handle::of(Parts::of(session)),
        is_open: true,
    };
}

/// Gives the memory of the session back, where there is one.
pub fn close(alloc: Global, qaudit: &mut Qaudit)
    ensures { qaudit.new.handle.held ≡ None }
{
    drop(take(alloc, qaudit));
}

/// A session that was handed nothing; None where it is out of memory.
pub fn try_open(alloc: Global) -> Option<Box<Session, Global>>
    ensures open { IfSome result (λ b. phase_of b.value ≡ phases.Open) }
    ensures fed { IfSome result (λ b. IsFed b.value []) }
    ensures off { IfSome result (λ b. b.value.recorded ≡ None) }
{
    Box::new(alloc, Session::new(alloc)).ok()
}

/// The same, which keeps the text of what it is handed.
pub fn try_open_recorded(alloc: Global) -> Option<Box<Session, Global>>
    ensures open { IfSome result (λ b. phase_of b.value ≡ phases.Open) }
    ensures fed { IfSome result (λ b. IsFed b.value []) }
    ensures on { IfSome result (λ b. b.value.recorded ≡ Some []) }
{
    Box::new(alloc, Session::recording(alloc)).ok()
}
