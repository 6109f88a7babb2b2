//! What follows from the definitions alone, each law as the contract of a function that does nothing.

ghost use Rattle.std.specs.Prelude.{ℕ, ◌<◌, Bool, List, length};
ghost use Rattle.rec_counts.specs.Counts.{State, IsKept};
ghost use Rattle.rec_release.specs.CycleFree.{IsFreeable};
ghost use Rattle.rec_release.specs.Freed.{HasFreed};
ghost use Rattle.rec_release.specs.Release.{IsReady};
ghost use Rattle.rec_release.specs.Released.{HasReleased};
ghost use Rattle.rec_counts.specs.Lists.{EachOnce};
ghost use Rattle.rec_release.specs.Sweep.{HasSwept};

/// Whatever words it is given, and whether it lowers orange targets or not, a release exchanges each field of each slot that
/// it releases once and in order, takes one off the count of each target that came out, releases none but zeros, and lists
/// an emptied slot exactly where it is in no buffer.
pub fn release_is_whole()
    ensures { (fields : ℕ) (lowers : Bool) (before : State) (words : List ℕ) → 0 < fields → IsReady before → HasReleased fields lowers before words }
{}

/// A sweep frees the headers of the free list from its front, one for each word that it is given. Each swept slot has one
/// reference, is Black and not released, and all else is as it was.
pub fn sweep_is_whole()
    ensures { (before : State) (words : List ℕ) → EachOnce (length before.slots) before.free → HasSwept before words }
{}

/// Whatever words it is given, the freeing of a set exchanges each field of each member once and in order, takes one off the
/// count of each target that came out, releases the members and no others, and lists them in the end.
pub fn cycle_is_whole()
    ensures { (fields : ℕ) (before : State) (words : List ℕ) → 0 < fields → IsKept before → IsFreeable before → HasFreed fields before words }
{}
