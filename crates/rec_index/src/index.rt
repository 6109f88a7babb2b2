ghost use Rattle.std.specs.Prelude.{◌≡◌, ℕ, ◌*◌, ◌^◌, ◌<◌, ◌≤◌, ◌==◌, if◌then◌else◌, length, replicate, IfOk, IfSome, IsNone};
ghost use Rattle.rec_index.specs.Sets.{bit, Holds, IsLowest};

use crate::level::Level;
use std::alloc::{AllocError as NoMemory, Global};
use std::marker::Model;

/// A set of slots, of which the lowest is found at once. Its memory, 8 kilobytes, is taken when it is opened.
#[derive(Drop)]
pub struct Index {
    slots: Level,
    // The words of `slots` that aren't 0, and in `groups` the words of `words` that aren't.
    words: Level,
    groups: Level,
}

impl Model for Index {
    ghost use Rattle.std.specs.Prelude.{ℕ, List};
    ghost use Rattle.rec_index.specs.Inside.{members, IsWhole};

    ghost Value = { List ℕ };

    ghost view = { members };

    ghost invariant = { IsWhole };
}

impl Index {
    /// An empty set, with room for slots of every number.
    pub fn open(alloc: Global) -> Result<Index, NoMemory>
        ensures { IfOk result (λ index. (s : ℕ) → bit index s ≡ 0) }
    {
        Ok(Index {
            slots: Level::open(alloc, 1024)?,
            words: Level::open(alloc, 16)?,
            groups: Level::open(alloc, 1)?,
        })
    }

    /// Makes the slot a member. One that is a member already stays so.
    pub fn insert(&mut self, slot: u16)
        ensures { (s : ℕ) → bit self.new s ≡ (if s == slot then 1 else bit self.old s) }
    {
        let slot = usize::from(slot);
        self.slots.insert(slot);
        self.words.insert(slot / 64);
        self.groups.insert(slot / 64 / 64);
    }

    /// Takes a member out.
    pub fn remove(&mut self, slot: u16)
        requires { Holds self.old slot }
        ensures { (s : ℕ) → bit self.new s ≡ (if s == slot then 0 else bit self.old s) }
    {
        let slot = usize::from(slot);
        if self.slots.remove(slot) && self.words.remove(slot / 64) {
            self.groups.remove(slot / 64 / 64);
        }
    }

    /// Takes every member out. The memory stays.
    pub fn clear(&mut self)
        ensures { (s : ℕ) → bit self.new s ≡ 0 }
    {
        self.slots.clear();
        self.words.clear();
        self.groups.clear();
    }

    /// The lowest member, or `None` where there is none.
    pub fn lowest(&self) -> Option<u16>
        ensures some { IfSome result (IsLowest self.now) }
        ensures none { IsNone result → (s : ℕ) → bit self.now s ≡ 0 }
    {
        let group = self.groups.lowest(0)?;
        let word = self.words.lowest(group)?;
        let slot = self.slots.lowest(word)?;
        Some(slot as u16)
    }
}
