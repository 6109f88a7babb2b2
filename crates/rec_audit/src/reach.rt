//! What is reached from some slots along references.

ghost use Rattle.std.specs.Prelude.{◌≡◌, ◌↔◌, ℕ, ◌<◌, ◌≤◌, nat_eq, true, false, [], ◌∷◌, length, map, take, All, slice_index_or, IfOk, OnOk};
ghost use Rattle.std.specs.List.{list_any};
ghost use Rattle.std.specs.HashSet.{contains};
ghost use Rattle.rec_model.specs.Reach.{IsReached, is_in};
ghost use Rattle.rec_audit.specs.States.{IsMarking, MarksMore};
ghost use Rattle.rec_audit.specs.Walks.{free_slots, live_in, ArePruned, AreWithin, IsClosedTo};

use crate::references::{Edge, prune_at};
use std::alloc::{AllocError, Global};
use std::collections::HashSet;

/// Slots that are marked as reached.
#[derive(Drop)]
pub struct Marks {
    /// For each slot whether it is marked.
    pub marked: Vec<bool>,
    /// The marked slots, in the order in which they were marked.
    pub order: Vec<u64>,
}

impl Marks {
    /// No marks, of a heap with so many slots.
    pub fn open(alloc: Global, slots: u16) -> Result<Marks, AllocError>
        ensures marking { IfOk result IsMarking }
        ensures size { IfOk result (λ m. length m.marked.items ≡ slots) }
    {
        let marked = vec![in alloc; false; usize::from(slots)]?;
        let order = Vec::with_capacity(alloc, usize::from(slots))?;
        Ok(Marks { marked, order })
    }

    /// The slot is marked.
    pub fn is_marked(&self, slot: u64) -> bool
        requires { slot < length self.now.marked.items }
        ensures { result ≡ slice_index_or self.now.marked.items slot false }
    {
        self.marked[slot as usize]
    }

    /// Takes all marks away.
    pub fn clear(&mut self)
        ensures marking { IsMarking self.new }
        ensures size { length self.new.marked.items ≡ length self.old.marked.items }
        ensures none { self.new.order.items ≡ [] }
    {
        self.marked.fill(false);
        self.order.clear();
    }

    /// Marks a slot.
    pub fn mark(&mut self, slot: u64) -> Result<(), AllocError>
        requires marking { IsMarking self.old }
        requires within { slot < length self.old.marked.items }
        ensures { OnOk result (MarksMore self.old self.new (slot ∷ [])) }
    {
        if !self.marked[slot as usize] {
            self.order.push(slot)?;
            self.marked[slot as usize] = true;
        }
        Ok(())
    }

    /// Marks each of some slots.
    pub fn mark_each(&mut self, slots: &[u64]) -> Result<(), AllocError>
        requires marking { IsMarking self.old }
        requires within { All (λ slot. slot < length self.old.marked.items) slots.now }
        ensures { OnOk result (MarksMore self.old self.new slots.now) }
    {
        for slot in slots {
            self.mark(*slot)?;
        }
        Ok(())
    }

    /// Marks the slots that aren't taken.
    pub fn mark_free(&mut self, taken: &[bool]) -> Result<(), AllocError>
        requires marking { IsMarking self.old }
        requires size { length taken.now ≡ length self.old.marked.items }
        ensures { OnOk result (MarksMore self.old self.new (free_slots taken.now)) }
    {
        for (slot, is_taken) in taken.iter().enumerate() {
            if !*is_taken {
                self.mark(slot as u64)?;
            }
        }
        Ok(())
    }

    /// Marks where some references lead.
    fn mark_targets(&mut self, edges: &[Edge]) -> Result<(), AllocError>
        requires marking { IsMarking self.old }
        requires within { All (λ e. e.to < length self.old.marked.items) edges.now }
        ensures { OnOk result (MarksMore self.old self.new (map (λ e. e.to) edges.now)) }
    {
        for edge in edges {
            self.mark(edge.to)?;
        }
        Ok(())
    }

    /// Marks all that is reached from marked slots along references that aren't dead, which are given for each slot. What is
    /// reached from so many slots that were marked first has been marked.
    pub fn follow(
        &mut self,
        start: usize,
        dead: &HashSet<u64>,
        lists: &mut Vec<Vec<Edge>>,
    ) -> Result<(), AllocError>
        requires marking { IsMarking self.old }
        requires size { length lists.old.items ≡ length self.old.marked.items }
        requires within { AreWithin (length self.old.marked.items) (map (λ v. v.items) lists.old.items) }
        requires upto { start ≤ length self.old.order.items }
        ensures marking { OnOk result (IsMarking self.new) }
        ensures size { OnOk result (length self.new.marked.items ≡ length self.old.marked.items) }
        ensures front { OnOk result (take (length self.old.order.items) self.new.order.items ≡ self.old.order.items) }
        ensures reached { OnOk result (IsClosedTo start self.old.order.items (live_in (contains nat_eq dead.now) (map (λ v. v.items) lists.old.items))
            → (slot : ℕ) → is_in slot self.new.order.items ≡ true
            ↔ IsReached self.old.order.items (live_in (contains nat_eq dead.now) (map (λ v. v.items) lists.old.items)) slot) }
        ensures pruned { OnOk result (ArePruned (contains nat_eq dead.now) (map (λ v. v.items) lists.old.items) (map (λ v. v.items) lists.new.items)) }
    {
        let mut i = start;
        while i < self.order.len() {
            let slot = self.order[i] as usize;
            prune_at(dead, lists, slot);
            self.mark_targets(&lists[slot])?;
            i += 1;
        }
        Ok(())
    }

    /// One of some slots is marked.
    pub fn has_any(&self, slots: &[u64]) -> bool
        requires { All (λ slot. slot < length self.now.marked.items) slots.now }
        ensures { result ≡ list_any (λ slot. slice_index_or self.now.marked.items slot false) slots.now }
    {
        for slot in slots {
            if self.is_marked(*slot) {
                return true;
            }
        }
        false
    }
}
