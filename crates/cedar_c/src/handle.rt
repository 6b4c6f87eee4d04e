// What C keeps of a session.
ghost use Rattle.std.specs.Prelude.{◌≡◌, Option, None, Some, MatchOption};
ghost use Rattle.std.specs.contracts.impls.GlobalAllocator.TheImpl.{ghosts as heap};
ghost use Rattle.std.specs.Box.Ownership.{box_owns};
ghost use Rattle.std.specs.Coded.{coded_option};
ghost use Rattle.cedar_c.specs.Handles.{held_at};
ghost use Rattle.cedar_c.specs.declared.open_session.OpenSession.{OpenSession};
ghost use Rattle.cedar_c.specs.contracts.open_session.OpenSession.{the_row as session_row};

use crate::loose::Loose;
use crate::open_session::OpenSession;
use std::alloc::Global;
use std::marker::Model;
use std::mem;
use std::ptr::null_mut;

/// A pointer that owns an open session, or null where it is closed. C keeps it, and reads nothing of it.
#[repr(C)]
pub struct Handle {
    at: *mut u8,
    alloc: Global,
    pub ghost held: { Option OpenSession } by { coded_option session_row.coded },
}

impl Model for Handle {
    ghost also_owns = { λ h. held_at (box_owns (heap.dealloc_token h.alloc) session_row) h.at h.held };
}

impl Handle {
    /// One that is closed.
    fn closed(alloc: Global) -> Handle
        ensures { result.held ≡ None }
    {
        Handle {
            at: null_mut(),
            alloc,
        }
    }

    /// The one that owns what a box did.
    fn of(loose: Loose<OpenSession, Global>) -> Handle
        ensures { result.held ≡ Some loose.value }
    {
        let Loose { at, alloc } = loose;
        Handle {
            at: at as *mut u8,
            alloc,
        }
    }

    /// The box that it owns, or `None` where it is closed.
    fn into_loose(self) -> Option<Loose<OpenSession, Global>>
        ensures { MatchOption result (self.held ≡ None) (λ loose. self.held ≡ Some loose.value) }
    {
        let Handle { at, alloc } = self;
        if at.is_null() {
            None
        } else {
            Some(Loose {
                at: at as *mut OpenSession,
                alloc,
            })
        }
    }

    /// Opens it by a session, which ends the one that it has.
    pub(crate) fn put(&mut self, session: Box<OpenSession>)
        ensures { self.new.held ≡ Some session.value }
    {
        *self = Handle::of(Loose::of(session));
    }

    /// Closes it, and answers its session, or `None` where it is closed.
    pub(crate) fn take(&mut self, alloc: Global) -> Option<Box<OpenSession>>
        ensures closed { self.new.held ≡ None }
        ensures taken { MatchOption result (self.old.held ≡ None) (λ session. self.old.held ≡ Some session.value) }
    {
        match mem::replace(self, Handle::closed(alloc)).into_loose() {
            Some(loose) => Some(loose.into_box()),
            None => None,
        }
    }
}

impl Drop for Handle {
    fn drop(self) {
        if let Some(loose) = self.into_loose() {
            drop(loose.into_box());
        }
    }
}
