//! Which slots a batch touched so far.
ghost use Rattle.std.specs.Prelude.{IfOk, ◌≡◌, ℕ, ◌+◌, ◌<◌, ◌≤◌, ◌++◌, length, slice_index_or as item_at};
ghost use Rattle.std.specs.List.{filter};
ghost use Rattle.rec_counts.specs.Batched.{is_root, is_zero};
ghost use Rattle.rec_counts.specs.Slot.{absent, settled_due};
ghost use Rattle.rec_counts.specs.Touched.{counted_less, counted_more, mark_at, settled_at, untouched, with_added, with_taken};

use crate::queue::Queue;
use crate::row::Row;
use crate::settle::settle_touched;
use crate::slot::Slot;
use std::alloc::{AllocError as NoMemory, Global};
use std::marker::Model;

/// What a batch told of a slot's references so far.
#[derive(Clone, Copy, Drop)]
pub enum Mark {
    /// Nothing.
    Untouched,
    /// There are more of them, and none was taken off.
    Added,
    /// One or more were taken off.
    Taken,
}

/// The slots that a batch touched so far. Each has a mark, and stands in a list: of the slots that a reference was taken off,
/// or of those that were added to first. A contract sees the marks and the first of these lists.
#[derive(Drop)]
pub struct Touched {
    marks: Vec<Mark>,
    added: Row,
    taken: Row,
}

impl Model for Touched {
    ghost use Rattle.rec_counts.specs.Touched.{AreListed, Touching};

    ghost Value = { Touching };

    ghost view = { λ t. record { marks = t.marks.items; taken = t.taken.list } };

    ghost invariant = { λ t. AreListed t.marks.items t.added.list t.added.room t.taken.list t.taken.room };
}

impl Touched {
    /// Nothing is told of so many slots. All memory is taken here.
    pub(crate) fn open(alloc: Global, slots: u16) -> Result<Touched, NoMemory>
        ensures { IfOk result (λ touched. touched ≡ untouched slots) }
    {
        let room = slots as usize;
        Ok(Touched {
            marks: vec![in alloc; Mark::Untouched; room]?,
            added: Row::open(alloc, room)?,
            taken: Row::open(alloc, room)?,
        })
    }

    /// There is one reference to `slot` more.
    #[inline(always)]
    pub fn add(&mut self, slots: &mut [Slot], slot: u16)
        requires marked { slot < length self.old.marks }
        requires in_range { slot < length slots.old }
        ensures marked { self.new ≡ with_added self.old slot }
        ensures counted { slots.new ≡ counted_more slots.old slot }
    {
        let place = slot as usize;
        slots[place].count = slots[place].count.wrapping_add(1);
        if let Mark::Untouched = self.marks[place] {
            self.marks[place] = Mark::Added;
            self.added.push(slot);
        }
    }

    /// There is one reference to `slot` less.
    #[inline(always)]
    pub fn take(&mut self, slots: &mut [Slot], slot: u16)
        requires marked { slot < length self.old.marks }
        requires in_range { slot < length slots.old }
        ensures marked { self.new ≡ with_taken self.old slot }
        ensures counted { slots.new ≡ counted_less slots.old slot }
    {
        let place = slot as usize;
        slots[place].count = slots[place].count.wrapping_sub(1);
        self.keep(slot);
    }

    /// There is one reference to `slot` less and one more, so it is touched, and its count stays.
    #[inline(always)]
    pub fn keep(&mut self, slot: u16)
        requires { slot < length self.old.marks }
        ensures { self.new ≡ with_taken self.old slot }
    {
        let place = slot as usize;
        if let Mark::Taken = self.marks[place] {
            return;
        }
        self.marks[place] = Mark::Taken;
        self.taken.push(slot);
    }

    /// Settles each slot that was touched, and forgets that it was.
    pub(crate) fn settle(&mut self, slots: &mut [Slot], roots: &mut Queue, zeros: &mut Queue)
        requires marked { length self.old.marks ≡ length slots.old }
        requires roots_room { length roots.old.list + length slots.old ≤ roots.old.room }
        requires zeros_room { length zeros.old.list + length slots.old ≤ zeros.old.room }
        ensures forgotten { self.new ≡ untouched (length slots.old) }
        ensures slots { (x : ℕ) → item_at slots.new x absent ≡ settled_at (mark_at self.old.marks x) (item_at slots.old x absent) }
        ensures roots { roots.new ≡ record roots.old { list = roots.old.list ++ filter (λ x. is_root (settled_due (item_at slots.old x absent))) self.old.taken } }
        ensures zeros { zeros.new ≡ record zeros.old { list = zeros.old.list ++ filter (λ x. is_zero (settled_due (item_at slots.old x absent))) self.old.taken } }
    {
        let added = self.added.as_slice();
        let taken = self.taken.as_slice();
        settle_touched(&mut self.marks, slots, added, taken, roots, zeros);
        self.taken.truncate(0);
        self.added.truncate(0);
    }
}
