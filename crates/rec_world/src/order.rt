ghost use Rattle.std.specs.Prelude.{◌≡◌, ◌-◌, ◌<◌, ◌∷◌, ◌++◌, [], IfOk};

use std::alloc::{AllocError as NoMemory, Global};
use std::marker::Model;

/// The mutators in the order of their commands. Its memory is taken when it is opened.
#[derive(Drop)]
pub struct Order {
    list: Vec<u8>,
    room: u32,
}

impl Model for Order {
    ghost use Rattle.std.specs.Prelude.{◌+◌, ◌≤◌, vec_len, vec_capacity};
    ghost use Rattle.rec_world.specs.Order.{Turns};

    ghost Value = { Turns };

    ghost view = { λ order. record { list = order.list.items; room = order.room } };

    ghost invariant = { λ order. vec_len order.list + order.room ≤ vec_capacity order.list };
}

impl Order {
    /// An empty order with room for so many turns.
    pub fn open(alloc: Global, room: u32) -> Result<Order, NoMemory>
        ensures { IfOk result (λ order. order ≡ record { list = []; room = room }) }
    {
        Ok(Order {
            list: Vec::with_capacity(alloc, room as usize)?,
            room,
        })
    }

    /// Adds a mutator at the end.
    pub fn note(&mut self, t: u8)
        requires { 0 < self.old.room }

        ensures list { self.new.list ≡ self.old.list ++ t ∷ [] }
        ensures room { self.new.room ≡ self.old.room - 1 }
    {
        self.list.push_reserved(t);
        self.room -= 1;
    }

    /// The mutators so far, in order.
    pub fn list(&self) -> &[u8]
        ensures { result.now ≡ self.now.list }
    {
        self.list.as_slice()
    }

    /// How many more turns fit.
    pub fn room(&self) -> u32
        ensures { result ≡ self.now.room }
    {
        self.room
    }
}
