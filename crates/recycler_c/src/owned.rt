//! A box behind a pointer that C may keep.
ghost use Rattle.std.specs.Prelude.{◌≡◌, Option, Some, None, IsSome};
ghost use Rattle.recycler_c.specs.declared.end.End.{End};

use crate::end::End;
use std::alloc::Global;
use std::marker::Model;
use std::ptr::null_mut;

/// A pointer to a box that it owns, or null. It is let go of without its box: only an empty one is.
#[repr(C)]
#[derive(Drop)]
pub struct Owned {
    at: *mut u8,
    pub ghost held: { Option End },
}

impl Model for Owned {
    ghost use Rattle.recycler_c.specs.Boxed.{boxed};

    ghost also_owns = { λ h. boxed h.at h.held };
}

impl Owned {
    /// Null.
    pub fn empty() -> Owned
        ensures { result.held ≡ None }
    {
        Owned { at: null_mut() }
    }

    /// The pointer to a box, which it owns from now on.
    pub fn of(whole: Box<End>) -> Owned
        ensures { result.held ≡ Some whole.value }
    {
        Owned {
            at: Box::into_raw(whole) as *mut u8,
        }
    }

    /// The box that it owns.
    pub fn into_box(self, alloc: Global) -> Box<End>
        requires { IsSome self.held }
        ensures { self.held ≡ Some result.value }
    {
        let Owned { at } = self;
        unsafe { Box::from_raw(alloc, at as *mut End) }
    }
}

// SAFETY: it is the one owner of its box, and an `End` is `Send`.
unsafe impl Send for Owned {}
