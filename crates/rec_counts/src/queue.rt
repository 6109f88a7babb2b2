//! A list of slots that is worked off from its front.
ghost use Rattle.std.specs.Prelude.{IfOk, ◌≡◌, ℕ, ◌+◌, ◌-◌, ◌<◌, ◌≤◌, [], ◌∷◌, ◌++◌, length, take, drop, slice_get};
ghost use Rattle.rec_counts.specs.Shelf.{empty};

use std::alloc::{AllocError as NoMemory, Global};
use std::marker::Model;

/// A list of slots with a fixed room, which grows at its end and is worked off from its front. Where it meets the end
/// of its memory, it moves to the front of it. With a room of at least twice the greatest length that comes once in
/// so many pops at most, so a push takes constant time when spread over the pops before it.
#[derive(Drop)]
pub(crate) struct Queue {
    items: Vec<u16>,
    head: usize,
    end: usize,
}

impl Model for Queue {
    ghost use Rattle.std.specs.Prelude.{◌-◌, ◌≤◌, length, drop, take};
    ghost use Rattle.rec_counts.specs.Shelf.{Shelf};

    ghost Value = { Shelf };

    ghost view = { λ q. record { list = take (q.end - q.head) (drop q.head q.items.items); room = length q.items.items } };

    ghost invariant = { λ q. (q.head ≤ q.end) × (q.end ≤ length q.items.items) };
}

/// Moves what stands from `head` on to the front.
fn move_to_front(items: &mut [u16], head: usize)
    requires { head ≤ length items.old }
    ensures front { take (length items.old - head) items.new ≡ drop head items.old }
{
    let end = items.len();
    items.copy_within(head..end, 0);
}

/// Writes `slots` from this place on.
fn write_at(items: &mut [u16], place: usize, slots: &[u16])
    requires { place + length slots.now ≤ length items.old }
    ensures { take (place + length slots.now) items.new ≡ take place items.old ++ slots.now }
{
    let end = place + slots.len();
    items[place..end].copy_from_slice(slots);
}

impl Queue {
    /// An empty list with this room.
    pub fn open(alloc: Global, room: usize) -> Result<Queue, NoMemory>
        ensures { IfOk result (λ queue. queue ≡ empty room) }
    {
        let items = vec![in alloc; 0; room]?;
        Ok(Queue {
            items,
            head: 0,
            end: 0,
        })
    }

    /// The whole list.
    pub fn as_slice(&self) -> &[u16]
        ensures { result.now ≡ self.now.list }
    {
        &self.items[self.head..self.end]
    }

    /// Appends `slot`.
    pub fn push(&mut self, slot: u16)
        requires { length self.old.list < self.old.room }
        ensures { self.new ≡ record self.old { list = self.old.list ++ slot ∷ [] } }
    {
        let end = self.end;
        if end < self.items.len() {
            self.items[end] = slot;
            self.end = end + 1;
        } else {
            let len = end - self.head;
            move_to_front(&mut self.items, self.head);
            self.items[len] = slot;
            self.head = 0;
            self.end = len + 1;
        }
    }

    /// Appends all of `slots`, in their order.
    pub fn push_all(&mut self, slots: &[u16])
        requires { length self.old.list + length slots.now ≤ self.old.room }
        ensures { self.new ≡ record self.old { list = self.old.list ++ slots.now } }
    {
        let end = self.end;
        if slots.len() <= self.items.len() - end {
            write_at(&mut self.items, end, slots);
            self.end = end + slots.len();
        } else {
            self.push_each(slots);
        }
    }

    /// Appends all of `slots` one after another.
    fn push_each(&mut self, slots: &[u16])
        requires { length self.old.list + length slots.now ≤ self.old.room }
        ensures { self.new ≡ record self.old { list = self.old.list ++ slots.now } }
    {
        for slot in slots {
            self.push(*slot);
        }
    }

    /// Takes the first out, or answers None where there is none.
    pub fn pop(&mut self) -> Option<u16>
        ensures first { result ≡ slice_get self.old.list 0 }
        ensures rest { self.new ≡ record self.old { list = drop 1 self.old.list } }
    {
        if self.head == self.end {
            return None;
        }
        let slot = self.items[self.head];
        self.head += 1;
        if self.head == self.end {
            self.head = 0;
            self.end = 0;
        }
        Some(slot)
    }

    /// Takes all out.
    pub fn clear(&mut self)
        ensures { self.new ≡ record self.old { list = [] } }
    {
        self.head = 0;
        self.end = 0;
    }
}
