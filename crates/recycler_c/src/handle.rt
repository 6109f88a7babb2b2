//! What C holds.
ghost use Rattle.std.specs.Prelude.{◌≡◌, true, false, Some, None, is_some};

use crate::end::End;
use crate::owned::Owned;
use std::alloc::Global;
use std::mem::replace;

/// A handle: it is closed, or owns a box with what it stands for.
#[repr(C)]
#[derive(Drop)]
pub struct Handle {
    pub full: bool,
    pub owned: Owned,
    /// What keeps handles apart: no two of them lie in one line of memory, where the threads that call with them would hold up each other.
    pub apart: [u64; 6],
    pub ghost holds: { full ≡ is_some owned.held },
}

impl Handle {
    /// Takes its box out. It is closed then.
    #[inline(always)]
    pub fn take(&mut self, alloc: Global) -> Box<End>
        requires { self.old.full ≡ true }
        ensures was { self.old.owned.held ≡ Some result.value }
        ensures closed { self.new.owned.held ≡ None }
    {
        self.full = false;
        replace(&mut self.owned, Owned::empty()).into_box(alloc)
    }

    /// Puts a box in.
    #[inline(always)]
    pub fn put(&mut self, whole: Box<End>)
        requires { self.old.full ≡ false }
        ensures { self.new.owned.held ≡ Some whole.value }
    {
        self.owned = Owned::of(whole);
        self.full = true;
    }
}

/// Lets a box hold this, and lets go what it held.
pub fn fill(whole: &mut Box<End>, end: End)
    ensures { whole.new.value ≡ end }
{
    drop(Box::replace(whole, end));
}
