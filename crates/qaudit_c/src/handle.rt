//! A handle that C keeps.
ghost use Rattle.std.specs.Prelude.{◌≡◌, None, Some, Option};
ghost use Rattle.qa_embed.specs.Session.{Run};
ghost use Rattle.qaudit_c.specs.Held.{IsOpen, held_coded};

use crate::parts::Parts;
use qa_embed::Session;
use std::alloc::Global;
use std::marker::Model;

/// A session in a block of its own, or none: one word for C.
#[repr(C)]
#[derive(Drop)]
pub struct Handle {
    at: *mut u8,
    alloc: Global,
    pub ghost held: { Option Run } by { held_coded },
}

impl Model for Handle {
    ghost use Rattle.qaudit_c.specs.Held.{held_owns};

    ghost also_owns = { λ h. held_owns h.alloc h.at h.held };
}

impl Handle {
    /// A handle that holds no session.
    #[inline(always)]
    pub fn closed(alloc: Global) -> Handle
        ensures { result.held ≡ None }
    {
        Handle {
            at: std::ptr::null_mut(),
            alloc,
        }
    }

    /// A handle that holds the session.
    #[inline(always)]
    pub fn of(parts: Parts<Session, Global>) -> Handle
        ensures { result.held ≡ Some parts.value }
    {
        let Parts { ptr, alloc } = parts;
        Handle {
            at: ptr as *mut u8,
            alloc,
        }
    }

    /// The session that it holds. Asks for a handle that holds one.
    #[inline(always)]
    pub fn into_parts(self) -> Parts<Session, Global>
        requires { IsOpen self.held }
        ensures { self.held ≡ Some result.value }
    {
        let Handle { at, alloc } = self;
        Parts {
            ptr: at as *mut Session,
            alloc,
        }
    }
}

unsafe impl Send for Handle {}
