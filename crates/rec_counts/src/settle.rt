//! Slots that a batch touched are settled.
ghost use Rattle.std.specs.Prelude.{◌≡◌, ℕ, ◌+◌, ◌&&◌, ◌<◌, ◌≤◌, ◌∷◌, ◌++◌, [], if◌then◌else◌, nat_lt, length, replicate, slice_index_or as item_at, slice_set as changed_at};
ghost use Rattle.std.specs.List.{filter};
ghost use Rattle.rec_counts.specs.Batched.{is_root, is_zero};
ghost use Rattle.rec_counts.specs.Lists.{EachOnce, times};
ghost use Rattle.rec_counts.specs.Slot.{absent, settled_due};
ghost use Rattle.rec_counts.specs.Touched.{AreListed, is_added, mark_at, settled_at, settled_where, used_where};

use crate::queue::Queue;
use crate::slot::{Due, Slot};
use crate::touched::Mark;

/// Settles each slot that was touched, by its mark. No slot has a mark any more.
#[inline(always)]
pub(crate) fn settle_touched(
    marks: &mut [Mark],
    slots: &mut [Slot],
    added: &[u16],
    taken: &[u16],
    roots: &mut Queue,
    zeros: &mut Queue,
)
    requires listed { AreListed marks.old added.now (length slots.old) taken.now (length slots.old) }
    requires roots_room { length roots.old.list + length slots.old ≤ roots.old.room }
    requires zeros_room { length zeros.old.list + length slots.old ≤ zeros.old.room }
    ensures marks { marks.new ≡ replicate (length slots.old) Mark.Untouched }
    ensures slots { (x : ℕ) → item_at slots.new x absent ≡ settled_at (mark_at marks.old x) (item_at slots.old x absent) }
    ensures roots { roots.new ≡ record roots.old { list = roots.old.list ++ filter (λ x. is_root (settled_due (item_at slots.old x absent))) taken.now } }
    ensures zeros { zeros.new ≡ record zeros.old { list = zeros.old.list ++ filter (λ x. is_zero (settled_due (item_at slots.old x absent))) taken.now } }
{
    settle_taken(marks, slots, taken, roots, zeros);
    settle_added(marks, slots, added);
}

/// Settles the slots that something was taken off: each gets its colour, goes where it is due, and has no mark any more.
fn settle_taken(
    marks: &mut [Mark],
    slots: &mut [Slot],
    taken: &[u16],
    roots: &mut Queue,
    zeros: &mut Queue,
)
    requires once { EachOnce (length slots.old) taken.now }
    requires marked { length marks.old ≡ length slots.old }
    requires roots_room { length roots.old.list + length taken.now ≤ roots.old.room }
    requires zeros_room { length zeros.old.list + length taken.now ≤ zeros.old.room }
    ensures marks { (x : ℕ) → mark_at marks.new x ≡ (if nat_lt 0 (times x taken.now) then Mark.Untouched else mark_at marks.old x) }
    ensures slots { (x : ℕ) → item_at slots.new x absent ≡ settled_where (nat_lt 0 (times x taken.now)) (item_at slots.old x absent) }
    ensures roots { roots.new ≡ record roots.old { list = roots.old.list ++ filter (λ x. is_root (settled_due (item_at slots.old x absent))) taken.now } }
    ensures zeros { zeros.new ≡ record zeros.old { list = zeros.old.list ++ filter (λ x. is_zero (settled_due (item_at slots.old x absent))) taken.now } }
{
    for slot in taken {
        let place = *slot as usize;
        marks[place] = Mark::Untouched;
        let due = slots[place].settle();
        send(due, *slot, roots, zeros);
    }
}

/// Sends the slot where it is due.
#[inline(always)]
fn send(due: Due, slot: u16, roots: &mut Queue, zeros: &mut Queue)
    requires roots_room { length roots.old.list < roots.old.room }
    requires zeros_room { length zeros.old.list < zeros.old.room }
    ensures roots { roots.new ≡ record roots.old { list = roots.old.list ++ (if is_root due then slot ∷ [] else []) } }
    ensures zeros { zeros.new ≡ record zeros.old { list = zeros.old.list ++ (if is_zero due then slot ∷ [] else []) } }
{
    match due {
        Due::Nothing => {}
        Due::Zero => zeros.push(slot),
        Due::Root => roots.push(slot),
    }
}

/// Settles the slots that were only added to: each is in use, and has no mark any more. Others of the list have other marks.
fn settle_added(marks: &mut [Mark], slots: &mut [Slot], added: &[u16])
    requires once { EachOnce (length slots.old) added.now }
    requires marked { length marks.old ≡ length slots.old }
    ensures marks { (x : ℕ) → mark_at marks.new x ≡ (if nat_lt 0 (times x added.now) && is_added (mark_at marks.old x) then Mark.Untouched else mark_at marks.old x) }
    ensures slots { (x : ℕ) → item_at slots.new x absent ≡ used_where (nat_lt 0 (times x added.now) && is_added (mark_at marks.old x)) (item_at slots.old x absent) }
{
    for slot in added {
        use_added(marks, slots, *slot as usize);
    }
}

/// Settles the slot in this place, if it was only added to.
#[inline(always)]
fn use_added(marks: &mut [Mark], slots: &mut [Slot], place: usize)
    requires marked { place < length marks.old }
    requires in_range { place < length slots.old }
    ensures marks { marks.new ≡ changed_at marks.old place (if is_added (mark_at marks.old place) then Mark.Untouched else mark_at marks.old place) }
    ensures slots { slots.new ≡ changed_at slots.old place (used_where (is_added (mark_at marks.old place)) (item_at slots.old place absent)) }
{
    if let Mark::Added = marks[place] {
        marks[place] = Mark::Untouched;
        slots[place].colour = slots[place].colour.in_use();
    }
}
