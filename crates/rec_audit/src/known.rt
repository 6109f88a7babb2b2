//! What is known of the reach in a block: which slots are out of it, as far as somebody asked.
//!
//! Within a block roots come by sweeping alone, and references only go. So what was once found out of reach stays so, but for
//! what is reached from slots that were swept since. Each slot is looked at once in both directions, unless a set is asked
//! about that was reached from a slot swept since: then all begins anew.

ghost use Rattle.std.specs.Prelude.{◌≡◌, ◌==◌, ◌||◌, ℕ, ◌<◌, true, false, [], List, length, map, nat_eq, All, IfOk, OnOk};
ghost use Rattle.std.specs.HashSet.{contains};
ghost use Rattle.rec_model.specs.Reach.{is_in};
ghost use Rattle.rec_audit.specs.Walks.{free_slots, live_in, ArePruned, AreWithin, Reaches};
ghost use Rattle.rec_audit.specs.Known.{IsKnownOf, IsRoomy};

use crate::reach::Marks;
use crate::references::Edge;
use std::alloc::{AllocError, Global};
use std::collections::HashSet;

/// What is known of the reach in the block that stands open.
#[derive(Drop)]
pub struct Known {
    /// The slots that were roots when it was begun.
    pub roots: Marks,
    /// The slots that were asked about, and all from which these are reached: none of them was a root.
    pub apart: Marks,
    /// The slots that were swept since, and all that is reached from these.
    pub back: Marks,
}

impl Known {
    /// Room for a heap with so many slots.
    pub fn open(alloc: Global, slots: u16) -> Result<Known, AllocError>
        ensures { IfOk result (IsRoomy slots) }
    {
        Ok(Known {
            roots: Marks::open(alloc, slots)?,
            apart: Marks::open(alloc, slots)?,
            back: Marks::open(alloc, slots)?,
        })
    }

    /// Begins anew, with the roots alone: the slots that aren't taken, and those that are named.
    pub fn begin(&mut self, taken: &[bool], named: &[u64]) -> Result<(), AllocError>
        requires roomy { IsRoomy (length taken.now) self.old }
        requires named { All (λ slot. slot < length taken.now) named.now }
        ensures roomy { OnOk result (IsRoomy (length taken.now) self.new) }
        ensures known { OnOk result ((roots : List ℕ) (children : ℕ → List ℕ) → ((slot : ℕ) → is_in slot roots ≡ (is_in slot (free_slots taken.now) || is_in slot named.now))
            → IsKnownOf roots children self.new) }
        ensures none { OnOk result (self.new.back.order.items ≡ []) }
    {
        self.roots.clear();
        self.apart.clear();
        self.back.clear();
        self.roots.mark_free(taken)?;
        self.roots.mark_each(named)?;
        Ok(())
    }

    /// A slot became a root: what is reached from it is no longer known to be out of reach.
    pub fn bring_back(
        &mut self,
        slot: u64,
        dead: &HashSet<u64>,
        edges: &mut Vec<Vec<Edge>>,
    ) -> Result<(), AllocError>
        requires roomy { IsRoomy (length edges.old.items) self.old }
        requires within { AreWithin (length edges.old.items) (map (λ v. v.items) edges.old.items) }
        requires slot { slot < length edges.old.items }
        ensures roomy { OnOk result (IsRoomy (length edges.old.items) self.new) }
        ensures pruned { OnOk result (ArePruned (contains nat_eq dead.now) (map (λ v. v.items) edges.old.items) (map (λ v. v.items) edges.new.items)) }
        ensures known { OnOk result ((roots more : List ℕ) (children : ℕ → List ℕ) → ((source : ℕ) → children source ≡ live_in (contains nat_eq dead.now) (map (λ v. v.items) edges.old.items) source)
            → ((n : ℕ) → is_in n roots ≡ true → is_in n more ≡ true) → ((n : ℕ) → is_in n more ≡ true → (is_in n roots || (slot == n)) ≡ true)
            → IsKnownOf roots children self.old → IsKnownOf more children self.new) }
    {
        let start = self.back.order.len();
        self.back.mark(slot)?;
        self.back.follow(start, dead, edges)?;
        Ok(())
    }

    /// A root was found from which one of some slots is reached.
    pub fn finds_root(
        &mut self,
        slots: &[u64],
        dead: &HashSet<u64>,
        into: &mut Vec<Vec<Edge>>,
    ) -> Result<bool, AllocError>
        requires roomy { IsRoomy (length into.old.items) self.old }
        requires within { AreWithin (length into.old.items) (map (λ v. v.items) into.old.items) }
        requires slots { All (λ slot. slot < length into.old.items) slots.now }
        ensures roomy { OnOk result (IsRoomy (length into.old.items) self.new) }
        ensures pruned { OnOk result (ArePruned (contains nat_eq dead.now) (map (λ v. v.items) into.old.items) (map (λ v. v.items) into.new.items)) }
        ensures same { OnOk result (self.new.back ≡ self.old.back) }
        ensures found { IfOk result (λ found. found ≡ true → (roots : List ℕ) (children : ℕ → List ℕ)
            → ((source slot : ℕ) → is_in slot (children source) ≡ is_in source (live_in (contains nat_eq dead.now) (map (λ v. v.items) into.old.items) slot))
            → IsKnownOf roots children self.old → Reaches roots children slots.now) }
        ensures apart { IfOk result (λ found. found ≡ false → (slot : ℕ) → is_in slot slots.now ≡ true → is_in slot self.new.apart.order.items ≡ true) }
        ensures known { IfOk result (λ found. found ≡ false → (roots : List ℕ) (children : ℕ → List ℕ)
            → ((source slot : ℕ) → is_in slot (children source) ≡ is_in source (live_in (contains nat_eq dead.now) (map (λ v. v.items) into.old.items) slot))
            → IsKnownOf roots children self.old → IsKnownOf roots children self.new) }
    {
        let start = self.apart.order.len();
        self.apart.mark_each(slots)?;
        self.apart.follow(start, dead, into)?;
        Ok(self.roots.has_any(&self.apart.order[start..]))
    }
}
