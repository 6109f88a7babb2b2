//! A list of slots that grows and shrinks at its end.
ghost use Rattle.std.specs.Prelude.{IfOk, ◌≡◌, ℕ, ◌<◌, ◌≤◌, [], ◌∷◌, ◌++◌, length, take, slice_index};

use std::alloc::{AllocError as NoMemory, Global};
use std::marker::Model;

/// A list of numbers below 65,536 with a fixed room, which grows and shrinks at its end.
#[derive(Drop)]
pub(crate) struct Row {
    items: Vec<u16>,
    len: usize,
}

impl Model for Row {
    ghost use Rattle.std.specs.Prelude.{◌≤◌, length, take};
    ghost use Rattle.rec_counts.specs.Shelf.{Shelf};

    ghost Value = { Shelf };

    ghost view = { λ r. record { list = take r.len r.items.items; room = length r.items.items } };

    ghost invariant = { λ r. r.len ≤ length r.items.items };
}

impl Row {
    /// An empty list with this room.
    pub fn open(alloc: Global, room: usize) -> Result<Row, NoMemory>
        ensures { IfOk result (λ row. row ≡ record { list = []; room = room }) }
    {
        let items = vec![in alloc; 0; room]?;
        Ok(Row { items, len: 0 })
    }

    /// How many stand in it.
    pub fn len(&self) -> usize
        ensures { result ≡ length self.now.list }
    {
        self.len
    }

    /// The whole list.
    pub fn as_slice(&self) -> &[u16]
        ensures { result.now ≡ self.now.list }
    {
        &self.items[..self.len]
    }

    /// Appends `item`.
    pub fn push(&mut self, item: u16)
        requires { length self.old.list < self.old.room }
        ensures { self.new ≡ record self.old { list = self.old.list ++ item ∷ [] } }
    {
        self.items[self.len] = item;
        self.len += 1;
    }

    /// Keeps the first `len`.
    pub fn truncate(&mut self, len: usize)
        requires { len ≤ length self.old.list }
        ensures { self.new ≡ record self.old { list = take len self.old.list } }
    {
        self.len = len;
    }
}
