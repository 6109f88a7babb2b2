//! The counts, colours, flags, buffers and lists of all slots.
ghost use Rattle.std.specs.Prelude.{IfOk, ◌≡◌, ℕ, ◌+◌, ◌-◌, ◌<◌, ◌≤◌, ◌^◌, true, false, Some, None, List, [], ◌∷◌, ◌++◌, length, drop, map, nat_lt, slice_get, slice_index_or as item_at};
ghost use Rattle.rec_counts.specs.Batched.{batched};
ghost use Rattle.rec_counts.specs.Counts.{IsKept, IsLastSetNew, counted_slots as counted_slots_of, decremented, given_up, opened, slot_at, unlisted, with_joined, with_slot, without_last_set, without_root};
ghost use Rattle.rec_counts.specs.Groups.{last_set};
ghost use Rattle.rec_counts.specs.Kept.{Kept};
ghost use Rattle.rec_counts.specs.Lists.{EachOnce, times};
ghost use Rattle.rec_counts.specs.Shelf.{empty};
ghost use Rattle.rec_counts.specs.Slot.{absent, lowered, raised, renewed_if, swept_clean, unbuffered_if, unrooted, white_if};

use crate::changes::{Changes, make_changes};
use crate::colour::Colour;
use crate::cycle_buffer::CycleBuffer;
use crate::queue::Queue;
use crate::row::Row;
use crate::slot::{Due, Slot};
use crate::touched::Touched;
use crate::unbuffer::{give_up, renew, unbuffer, whiten};
use std::alloc::{AllocError as NoMemory, Global};
use std::marker::Model;

/// What the collector keeps of all slots. A contract sees one record: the slots, and each list as a list of slots. Slots
/// are numbered from 0, and so are sets.
#[derive(Drop)]
pub struct Counts {
    slots: Vec<Slot>,
    roots: Queue,
    sets: CycleBuffer,
    marked: Row,
    work: Queue,
    zeros: Queue,
    free: Queue,
    // Empty between two batches, and so no part of what a contract sees.
    touched: Touched,
}

impl Model for Counts {
    ghost use Rattle.std.specs.Prelude.{length};
    ghost use Rattle.rec_counts.specs.Counts.{State};
    ghost use Rattle.rec_counts.specs.Kept.{Kept, HasRoom};

    ghost Value = { State };

    ghost view = { λ c. record {
      slots = c.slots.items;
      roots = c.roots.list;
      sets = c.sets.sets;
      marked = c.marked.list;
      work = c.work.list;
      zeros = c.zeros.list;
      free = c.free.list;
    } };

    ghost invariant = { λ c.
        Kept c.slots.items c.roots.list c.sets.sets c.marked.list c.work.list c.zeros.list c.free.list
        × HasRoom (length c.slots.items) c.roots.room c.sets.room c.marked.room c.work.room c.zeros.room c.free.room c.touched };
}

/// The slots at opening, of which the first have these counts.
fn counted_slots(alloc: Global, number: u16, counts: &[u64]) -> Result<Vec<Slot>, NoMemory>
    requires { length counts.now ≤ number }
    ensures { IfOk result (λ slots. slots.items ≡ counted_slots_of number counts.now) }
{
    let mut slots = Vec::with_capacity(alloc, usize::from(number))?;
    for count in counts {
        let mut slot = Slot::new();
        slot.count = *count;
        slots.push(slot)?;
    }
    for _ in counts.len()..usize::from(number) {
        slots.push(Slot::new())?;
    }
    Ok(slots)
}

/// The lists of slots that are no sets, as they are opened: empty. Those that are worked off have the same room.
#[derive(Drop)]
struct Queues {
    roots: Queue,
    marked: Row,
    work: Queue,
    zeros: Queue,
    free: Queue,
}

impl Queues {
    fn open(alloc: Global, room: usize, marks: usize) -> Result<Queues, NoMemory>
        ensures { IfOk result (λ queues. queues ≡ record { roots = empty room; marked = empty marks; work = empty room; zeros = empty room; free = empty room }) }
    {
        Ok(Queues {
            roots: Queue::open(alloc, room)?,
            marked: Row::open(alloc, marks)?,
            work: Queue::open(alloc, room)?,
            zeros: Queue::open(alloc, room)?,
            free: Queue::open(alloc, room)?,
        })
    }
}

impl Counts {
    /// Counts over these slots, which stand in no list.
    fn of_slots(alloc: Global, number: u16, slots: Vec<Slot>) -> Result<Counts, NoMemory>
        requires number { length slots.items ≡ number }
        requires kept { Kept slots.items [] [] [] [] [] [] }
        ensures { IfOk result (λ counts. counts ≡ unlisted slots.items) }
    {
        let sets = CycleBuffer::open(alloc, number)?;
        let touched = Touched::open(alloc, number)?;
        let queues = Queues::open(alloc, usize::from(number) * 2, usize::from(number))?;
        Ok(Counts {
            slots,
            roots: queues.roots,
            sets,
            marked: queues.marked,
            work: queues.work,
            zeros: queues.zeros,
            free: queues.free,
            touched,
        })
    }

    /// Counts for this many slots, of which the first have these true counts, and every other one. All slots are Black and in
    /// no buffer, and all lists are empty. All memory is taken here.
    pub fn open(alloc: Global, slots: u16, counts: &[u64]) -> Result<Counts, NoMemory>
        requires { length counts.now ≤ slots }
        ensures { IfOk result (λ made. made ≡ opened slots counts.now) }
    {
        Counts::of_slots(alloc, slots, counted_slots(alloc, slots, counts)?)
    }

    /// How many slots there are.
    pub fn slots(&self) -> u16
        ensures { result ≡ length self.now.slots }
    {
        self.slots.len() as u16
    }

    /// The true count of `slot`: how many references to it were counted.
    pub fn count(&self, slot: u16) -> u64
        requires { slot < length self.now.slots }
        ensures { result ≡ (slot_at self.now slot).count }
    {
        self.slots[slot as usize].count
    }

    /// The cyclic count of `slot`: what trial deletion left of the true count.
    pub fn cyclic(&self, slot: u16) -> u64
        requires { slot < length self.now.slots }
        ensures { result ≡ (slot_at self.now slot).cyclic }
    {
        self.slots[slot as usize].cyclic
    }

    /// The colour of `slot`.
    pub fn colour(&self, slot: u16) -> Colour
        requires { slot < length self.now.slots }
        ensures { result ≡ (slot_at self.now slot).colour }
    {
        self.slots[slot as usize].colour
    }

    /// Whether `slot` stands in the root buffer or in a set.
    pub fn buffered(&self, slot: u16) -> bool
        requires { slot < length self.now.slots }
        ensures { result ≡ (slot_at self.now slot).buffered }
    {
        self.slots[slot as usize].buffered
    }

    /// Whether `slot` was released, and not swept since.
    pub fn released(&self, slot: u16) -> bool
        requires { slot < length self.now.slots }
        ensures { result ≡ (slot_at self.now slot).released }
    {
        self.slots[slot as usize].released
    }

    /// The number of the set that `slot` is in, or None where it is in none.
    pub fn set_of(&self, slot: u16) -> Option<u16>
        requires { slot < length self.now.slots }
        ensures { result ≡ (slot_at self.now slot).set }
    {
        self.slots[slot as usize].set
    }

    /// The root buffer, the oldest root first.
    pub fn roots(&self) -> &[u16]
        ensures { result.now ≡ self.now.roots }
    {
        self.roots.as_slice()
    }

    /// The marked list, in the order of marking.
    pub fn marked(&self) -> &[u16]
        ensures { result.now ≡ self.now.marked }
    {
        self.marked.as_slice()
    }

    /// The work list.
    pub fn work(&self) -> &[u16]
        ensures { result.now ≡ self.now.work }
    {
        self.work.as_slice()
    }

    /// The slots whose count came to zero and that were not released yet.
    pub fn zeros(&self) -> &[u16]
        ensures { result.now ≡ self.now.zeros }
    {
        self.zeros.as_slice()
    }

    /// The slots that the next sweep frees.
    pub fn free_list(&self) -> &[u16]
        ensures { result.now ≡ self.now.free }
    {
        self.free.as_slice()
    }

    /// How many sets the cycle buffer has.
    pub fn sets(&self) -> u16
        ensures { result ≡ length self.now.sets }
    {
        self.sets.len() as u16
    }

    /// The members of set `i`, in the order of joining.
    pub fn set(&self, i: u16) -> &[u16]
        requires { i < length self.now.sets }
        ensures { result.now ≡ item_at self.now.sets i [] }
    {
        self.sets.set(i as usize)
    }

    /// The members of the last set, none where there is no set.
    pub fn last_set(&self) -> &[u16]
        ensures { result.now ≡ last_set self.now.sets }
    {
        self.sets.last()
    }

    /// What always holds of the slots and the lists. It does nothing: its contract is the fact.
    pub fn rules(&self)
        ensures { IsKept self.now }
    {
        let _slots = &self.slots;
    }

    /// Counts one reference to `slot` more, which is then Black, or stays Green.
    pub fn increment(&mut self, slot: u16)
        requires in_range { slot < length self.old.slots }
        requires fits { (slot_at self.old slot).count + 1 < 2 ^ 64 }
        ensures { self.new ≡ with_slot self.old slot (raised (slot_at self.old slot)) }
    {
        self.slots[slot as usize].raise();
    }

    /// Counts one reference to `slot` less. Where it was the last one, the slot is Black and goes to the zeros; else it is
    /// Purple, and goes into the root buffer where it is in no buffer. A released slot changes in nothing but its count. A
    /// Green one stays Green, and goes nowhere but to the zeros.
    #[inline(always)]
    pub fn decrement(&mut self, slot: u16)
        requires in_range { slot < length self.old.slots }
        requires counted { 0 < (slot_at self.old slot).count }
        requires new_zero { (slot_at self.old slot).released ≡ false → (slot_at self.old slot).count ≡ 1 → times slot self.old.zeros ≡ 0 }
        ensures { self.new ≡ decremented self.old slot }
    {
        match self.slots[slot as usize].lessen() {
            Due::Nothing => {}
            Due::Zero => self.zeros.push(slot),
            Due::Root => self.roots.push(slot),
        }
    }

    /// Counts a batch: the changes of all slots in one go. Each slot that they name is then changed once: it is Green where it was
    /// born a leaf, its count is what they come to, and it gets the colour that they call for. What has references more, and none
    /// taken off, is Black, or stays Green. What some were taken off is treated as by `decrement`, in the order in which that was
    /// first told.
    #[inline(always)]
    pub fn count_batch<C: Changes>(&mut self, changes: &C)
        requires told { C.can_tell changes.now (length self.old.slots) }
        requires fits { (x : ℕ) → (slot_at self.old x).count + C.added changes.now x < 2 ^ 64 }
        requires covered { (x : ℕ) → times x (C.taken changes.now) ≤ (slot_at self.old x).count + C.added changes.now x }
        requires zeros { self.old.zeros ≡ [] }
        ensures { self.new ≡ batched self.old (C.born changes.now) (C.added changes.now) (C.taken changes.now) }
    {
        make_changes(
            changes,
            &mut self.slots,
            &mut self.touched,
            &mut self.roots,
            &mut self.zeros,
        );
    }

    /// Counts one reference to `slot` less, in its true and in its cyclic count, which stays at zero where it is zero. The
    /// colour and the lists stay, also where the true count comes to zero.
    pub fn lower(&mut self, slot: u16)
        requires in_range { slot < length self.old.slots }
        requires counted { 0 < (slot_at self.old slot).count }
        ensures { self.new ≡ with_slot self.old slot (lowered (slot_at self.old slot)) }
    {
        self.slots[slot as usize].lower();
    }

    /// Gives `slot` the cyclic count `to`.
    pub fn set_cyclic(&mut self, slot: u16, to: u64)
        requires { slot < length self.old.slots }
        ensures { self.new ≡ with_slot self.old slot (record (slot_at self.old slot) { cyclic = to }) }
    {
        self.slots[slot as usize].cyclic = to;
    }

    /// Gives `slot` the colour `to`.
    pub fn set_colour(&mut self, slot: u16, to: Colour)
        requires { slot < length self.old.slots }
        ensures { self.new ≡ with_slot self.old slot (record (slot_at self.old slot) { colour = to }) }
    {
        self.slots[slot as usize].colour = to;
    }

    /// Gives `slot` the colour `to` and the cyclic count `cyclic`.
    pub fn shade(&mut self, slot: u16, to: Colour, cyclic: u64)
        requires { slot < length self.old.slots }
        ensures { self.new ≡ with_slot self.old slot (record (slot_at self.old slot) { colour = to; cyclic = cyclic }) }
    {
        let kept = &mut self.slots[slot as usize];
        kept.colour = to;
        kept.cyclic = cyclic;
    }

    /// Says that `slot` is released: it waits to be swept.
    pub fn release(&mut self, slot: u16)
        requires { slot < length self.old.slots }
        ensures { self.new ≡ with_slot self.old slot (record (slot_at self.old slot) { released = true }) }
    {
        self.slots[slot as usize].released = true;
    }

    /// Makes `slot`, which is in no buffer, one of the free slots: it has the count one, is Black and is not released.
    pub fn swept(&mut self, slot: u16)
        requires in_range { slot < length self.old.slots }
        requires unbuffered { (slot_at self.old slot).buffered ≡ false }
        ensures { self.new ≡ with_slot self.old slot (swept_clean (slot_at self.old slot)) }
    {
        self.slots[slot as usize].sweep();
    }

    /// Appends `slot`, which is in no buffer, to the root buffer. It is then buffered.
    pub fn push_root(&mut self, slot: u16)
        requires in_range { slot < length self.old.slots }
        requires unbuffered { (slot_at self.old slot).buffered ≡ false }
        ensures { self.new ≡ record (with_slot self.old slot (record (slot_at self.old slot) { buffered = true })) { roots = self.old.roots ++ slot ∷ [] } }
    {
        self.slots[slot as usize].buffered = true;
        self.roots.push(slot);
    }

    /// Appends `slot` to the marked list.
    pub fn push_marked(&mut self, slot: u16)
        requires in_range { slot < length self.old.slots }
        requires new { times slot self.old.marked ≡ 0 }
        ensures { self.new ≡ record self.old { marked = self.old.marked ++ slot ∷ [] } }
    {
        self.marked.push(slot);
    }

    /// Appends `slot` to the work list.
    pub fn push_work(&mut self, slot: u16)
        requires in_range { slot < length self.old.slots }
        requires new { times slot self.old.work ≡ 0 }
        ensures { self.new ≡ record self.old { work = self.old.work ++ slot ∷ [] } }
    {
        self.work.push(slot);
    }

    /// Appends `slot` to the zeros.
    pub fn push_zero(&mut self, slot: u16)
        requires in_range { slot < length self.old.slots }
        requires new { times slot self.old.zeros ≡ 0 }
        ensures { self.new ≡ record self.old { zeros = self.old.zeros ++ slot ∷ [] } }
    {
        self.zeros.push(slot);
    }

    /// Appends `slot` to the free list.
    pub fn push_free(&mut self, slot: u16)
        requires in_range { slot < length self.old.slots }
        requires new { times slot self.old.free ≡ 0 }
        ensures { self.new ≡ record self.old { free = self.old.free ++ slot ∷ [] } }
    {
        self.free.push(slot);
    }

    /// Takes the first slot out of the root buffer, or answers None where that is empty. The slot is then unbuffered.
    pub fn pop_root(&mut self) -> Option<u16>
        ensures first { result ≡ slice_get self.old.roots 0 }
        ensures rest { self.new ≡ without_root self.old.roots self.old }
    {
        let slot = self.roots.pop()?;
        self.slots[slot as usize].buffered = false;
        Some(slot)
    }

    /// Takes the first slot out of the work list, or answers None where that is empty.
    pub fn pop_work(&mut self) -> Option<u16>
        ensures first { result ≡ slice_get self.old.work 0 }
        ensures rest { self.new ≡ record self.old { work = drop 1 self.old.work } }
    {
        self.work.pop()
    }

    /// Takes the first slot out of the zeros, or answers None where they are empty.
    pub fn pop_zero(&mut self) -> Option<u16>
        ensures first { result ≡ slice_get self.old.zeros 0 }
        ensures rest { self.new ≡ record self.old { zeros = drop 1 self.old.zeros } }
    {
        self.zeros.pop()
    }

    /// Takes the first slot out of the free list, or answers None where that is empty.
    pub fn pop_free(&mut self) -> Option<u16>
        ensures first { result ≡ slice_get self.old.free 0 }
        ensures rest { self.new ≡ record self.old { free = drop 1 self.old.free } }
    {
        self.free.pop()
    }

    /// Empties the root buffer. Its slots are then in no buffer.
    pub fn clear_roots(&mut self)
        ensures { self.new ≡ record self.old { slots = map unrooted self.old.slots; roots = [] } }
    {
        unbuffer(&mut self.slots, self.roots.as_slice());
        self.roots.clear();
    }

    /// Empties the marked list.
    pub fn clear_marked(&mut self)
        ensures { self.new ≡ record self.old { marked = [] } }
    {
        self.marked.truncate(0);
    }

    /// Empties the work list.
    pub fn clear_work(&mut self)
        ensures { self.new ≡ record self.old { work = [] } }
    {
        self.work.clear();
    }

    /// Empties the zeros.
    pub fn clear_zeros(&mut self)
        ensures { self.new ≡ record self.old { zeros = [] } }
    {
        self.zeros.clear();
    }

    /// Empties the free list.
    pub fn clear_free(&mut self)
        ensures { self.new ≡ record self.old { free = [] } }
    {
        self.free.clear();
    }

    /// Moves the work list to the end of the free list, in its order.
    pub fn free_work(&mut self)
        requires { (x : ℕ) → 0 < times x self.old.work → times x self.old.free ≡ 0 }
        ensures { self.new ≡ record self.old { free = self.old.free ++ self.old.work; work = [] } }
    {
        self.free.push_all(self.work.as_slice());
        self.work.clear();
    }

    /// Gives each member of set `i` its true count as its cyclic count.
    pub fn renew_set(&mut self, i: u16)
        requires { i < length self.old.sets }
        ensures rest { self.new ≡ record self.old { slots = self.new.slots } }
        ensures many { length self.new.slots ≡ length self.old.slots }
        ensures slots { (x : ℕ) → slot_at self.new x ≡ renewed_if (nat_lt 0 (times x (item_at self.old.sets i []))) (slot_at self.old x) }
    {
        renew(&mut self.slots, self.sets.set(i as usize));
    }

    /// Makes each slot of the marked list White that is Gray.
    pub fn whiten_marked(&mut self)
        ensures rest { self.new ≡ record self.old { slots = self.new.slots } }
        ensures many { length self.new.slots ≡ length self.old.slots }
        ensures slots { (x : ℕ) → slot_at self.new x ≡ white_if (nat_lt 0 (times x self.old.marked)) (slot_at self.old x) }
    {
        whiten(&mut self.slots, self.marked.as_slice());
    }

    /// Begins a set without members, behind the others.
    pub fn begin_set(&mut self)
        requires { length self.old.sets < length self.old.slots }
        ensures { self.new ≡ record self.old { sets = self.old.sets ++ [] ∷ [] } }
    {
        self.sets.begin();
    }

    /// Lets `slot`, which is in no buffer, join the last set. It is then buffered, and `set_of` tells the set.
    pub fn join_set(&mut self, slot: u16)
        requires some { 0 < length self.old.sets }
        requires in_range { slot < length self.old.slots }
        requires unbuffered { (slot_at self.old slot).buffered ≡ false }
        ensures { self.new ≡ with_joined self.old slot }
    {
        let number = (self.sets.len() - 1) as u16;
        self.slots[slot as usize].join(number);
        self.sets.join(slot);
    }

    /// Takes the last set out of the cycle buffer and gives its members up: they are released and Black, in no buffer, and stand at
    /// the end of the work list in the order in which they joined.
    pub fn give_up_set(&mut self)
        requires some { 0 < length self.old.sets }
        requires new { IsLastSetNew self.old }
        ensures { self.new ≡ given_up self.old }
    {
        let members = self.sets.last();
        give_up(&mut self.slots, members);
        self.work.push_all(members);
        self.sets.drop_last();
    }

    /// Takes the last set out of the cycle buffer. Its members are then in no buffer, and stand at the end of the work list
    /// in the order in which they joined.
    pub fn drop_set(&mut self)
        requires some { 0 < length self.old.sets }
        requires new { IsLastSetNew self.old }
        ensures { self.new ≡ without_last_set self.old }
    {
        let members = self.sets.last();
        unbuffer(&mut self.slots, members);
        self.work.push_all(members);
        self.sets.drop_last();
    }
}
