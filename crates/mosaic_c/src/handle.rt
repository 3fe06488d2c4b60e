//! The handle that C keeps between two calls.
ghost use Rattle.std.specs.Prelude.{◌≡◌, Option, None, Some, option_map, is_some, IsTrue};
ghost use Rattle.core.specs.Mem.{manually_drop_value};
ghost use Rattle.mosaic_c.specs.declared.session.Session.{Session};
ghost use Rattle.mosaic_c.specs.Owned.{kept_coded, owned};

use crate::session::Session;
use std::alloc::Global;
use std::marker::Model;
use std::mem::ManuallyDrop;

/// A pointer to a session on the heap. The ghost field says which session; None after it was taken back.
#[repr(C)]
#[derive(Drop)]
struct Kept {
    at: *mut u8,
    ghost session: { Option Session } by { kept_coded },
}

impl Model for Kept {
    ghost also_owns = { λ k. owned k.at k.session };
}

impl Kept {
    fn of(session: Box<ManuallyDrop<Session>>) -> Kept
        ensures { result.session ≡ Some (manually_drop_value session.value) }
    {
        let at = Box::into_raw(session);
        Kept { at: at as *mut u8 }
    }

    fn take(&mut self, alloc: Global) -> Box<ManuallyDrop<Session>>
        requires { IsTrue (is_some self.old.session) }
        ensures session { Some (manually_drop_value result.value) ≡ self.old.session }
        ensures left { self.new.session ≡ None }
    {
        unsafe { Box::from_raw(alloc, self.at as *mut ManuallyDrop<Session>) }
    }
}

/// A session, or none if `held` is false, as in a handle of zeros.
#[repr(C)]
#[derive(Drop)]
pub struct Handle {
    kept: Kept,
    held: bool,
    ghost agrees: { held ≡ is_some kept.session },
}

impl Handle {
    /// Takes the session out, if there is one. The handle is empty afterwards.
    pub(crate) fn take(&mut self, alloc: Global) -> Option<Box<ManuallyDrop<Session>>>
        ensures session { option_map (λ b. manually_drop_value b.value) result
            ≡ self.old.kept.session }
        ensures left { self.new.kept.session ≡ None }
    {
        if self.held {
            let session = self.kept.take(alloc);
            self.held = false;
            Some(session)
        } else {
            None
        }
    }

    /// Puts this session into the handle.
    pub(crate) fn put(&mut self, session: Box<ManuallyDrop<Session>>)
        ensures { self.new.kept.session ≡ Some (manually_drop_value session.value) }
    {
        self.kept = Kept::of(session);
        self.held = true;
    }
}
