//! What a batch tells of the slots, and what becomes of them.
ghost use Rattle.std.specs.Prelude.{◌≡◌, ℕ, ◌+◌, ◌<◌, ◌≤◌, ◌^◌, List, [], ◌++◌, length, slice_index_or as item_at};
ghost use Rattle.rec_counts.specs.Batched.{batched_slots, new_roots, new_zeros};
ghost use Rattle.rec_counts.specs.Lists.{times};
ghost use Rattle.rec_counts.specs.Slot.{absent};
ghost use Rattle.rec_counts.specs.declared.slot.Slot.{Slot};
ghost use Rattle.rec_counts.specs.Touched.{Told, untouched};

use crate::queue::Queue;
use crate::slot::Slot;
use crate::touched::Touched;

/// What a batch tells of the slots: the leaves that were born, and the references that there are more and less.
pub trait Changes {
    // How often each slot was born a leaf.
    ghost born: { Self → ℕ → ℕ };

    // How many references to each slot there are more.
    ghost added: { Self → ℕ → ℕ };

    // The slots that a reference was taken off, one after another.
    ghost taken: { Self → List ℕ };

    // Whether they may be told of so many slots.
    ghost can_tell: { Self → ℕ → Type 0 };

    /// Tells all of it, of slots that were not touched yet.
    fn tell(&self, slots: &mut [Slot], touched: &mut Touched)
        requires can { can_tell self.now (length slots.old) }
        requires marked { length touched.old.marks ≡ length slots.old }
        ensures { (before : List Slot) → Told before (λ x. 0) (λ x. 0) [] slots.old touched.old → Told before (born self.now) (added self.now) (taken self.now) slots.new touched.new };
}

/// The changes are told, and each slot that they touch is settled.
#[inline(always)]
pub(crate) fn make_changes<C: Changes>(
    changes: &C,
    slots: &mut [Slot],
    touched: &mut Touched,
    roots: &mut Queue,
    zeros: &mut Queue,
)
    requires told { C.can_tell changes.now (length slots.old) }
    requires fits { (x : ℕ) → (item_at slots.old x absent).count + C.added changes.now x < 2 ^ 64 }
    requires covered { (x : ℕ) → times x (C.taken changes.now) ≤ (item_at slots.old x absent).count + C.added changes.now x }
    requires untouched { touched.old ≡ untouched (length slots.old) }
    requires roots_room { length roots.old.list + length slots.old ≤ roots.old.room }
    requires zeros_room { length zeros.old.list + length slots.old ≤ zeros.old.room }
    ensures slots { slots.new ≡ batched_slots slots.old (C.born changes.now) (C.added changes.now) (C.taken changes.now) }
    ensures touched { touched.new ≡ untouched (length slots.old) }
    ensures roots { roots.new ≡ record roots.old { list = roots.old.list ++ new_roots slots.old (C.born changes.now) (C.added changes.now) (C.taken changes.now) } }
    ensures zeros { zeros.new ≡ record zeros.old { list = zeros.old.list ++ new_zeros slots.old (C.born changes.now) (C.added changes.now) (C.taken changes.now) } }
{
    changes.tell(slots, touched);
    touched.settle(slots, roots, zeros);
}
