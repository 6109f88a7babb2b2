ghost use Rattle.std.specs.Prelude.{◌≡◌, ◌+◌, ◌-◌, ◌<◌, ◌≤◌, ◌∷◌, ◌++◌, [], IfOk, vec_len, vec_capacity};

use rec_model::{Cmd, Told};
use std::alloc::{AllocError as NoMemory, Global};
use std::marker::Model;

/// What one mutator was told, command by command. Its memory is taken when it is opened.
#[derive(Drop)]
pub struct Journal {
    lines: Vec<(Cmd, Told)>,
    room: u32,
}

impl Model for Journal {
    ghost use Rattle.std.specs.Prelude.{◌+◌, ◌≤◌, vec_len, vec_capacity};
    ghost use Rattle.rec_world.specs.Journal.{Notes};

    ghost Value = { Notes };

    ghost view = { λ j. record { lines = j.lines.items; room = j.room } };

    ghost invariant = { λ j. vec_len j.lines + j.room ≤ vec_capacity j.lines };
}

impl Journal {
    /// An empty journal with room for so many lines.
    pub fn open(alloc: Global, room: u32) -> Result<Journal, NoMemory>
        ensures { IfOk result (λ journal. journal ≡ record { lines = []; room = room }) }
    {
        Ok(Journal {
            lines: Vec::with_capacity(alloc, room as usize)?,
            room,
        })
    }

    /// Adds a line at the end.
    pub fn note(&mut self, cmd: Cmd, told: Told)
        requires { 0 < self.old.room }

        ensures lines { self.new.lines ≡ self.old.lines ++ (cmd, told) ∷ [] }
        ensures room { self.new.room ≡ self.old.room - 1 }
    {
        self.lines.push_reserved((cmd, told));
        self.room -= 1;
    }

    /// The lines so far, in order.
    pub fn lines(&self) -> &[(Cmd, Told)]
        ensures { result.now ≡ self.now.lines }
    {
        self.lines.as_slice()
    }

    /// How many more lines fit.
    pub fn room(&self) -> u32
        ensures { result ≡ self.now.room }
    {
        self.room
    }
}
