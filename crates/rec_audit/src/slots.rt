//! Which slots are taken, and which are named as roots in the block that stands open.

ghost use Rattle.std.specs.Prelude.{◌≡◌, ℕ, ◌<◌, ◌==◌, ◌++◌, [], ◌∷◌, true, false, length, slice_index_or, slice_set, IfOk, OnOk};
ghost use Rattle.rec_audit.specs.Graph.{held};

use std::alloc::{AllocError, Global};

/// What a journal tells of its slots.
#[derive(Drop)]
pub struct Slots {
    /// For each slot whether it was born and not swept since.
    pub taken: Vec<bool>,
    /// The slots that were born or stand in snapshots in the block that stands open.
    pub named: Vec<u64>,
}

impl Slots {
    /// The slots at the opening, when slot 0 alone is taken.
    pub fn open(alloc: Global, slots: u16) -> Result<Slots, AllocError>
        ensures size { IfOk result (λ s. length s.taken.items ≡ slots) }
        ensures taken { IfOk result (λ s. (k : ℕ) → k < slots → slice_index_or s.taken.items k false ≡ (k == 0)) }
        ensures named { IfOk result (λ s. s.named.items ≡ []) }
    {
        let mut taken = Vec::with_capacity(alloc, usize::from(slots))?;
        for slot in 0..slots {
            taken.push(slot == 0)?;
        }
        Ok(Slots {
            taken,
            named: Vec::new(alloc),
        })
    }

    /// A slot was born.
    pub fn bear(&mut self, slot: u64) -> Result<(), AllocError>
        requires { slot < length self.old.taken.items }
        ensures taken { OnOk result (self.new.taken.items ≡ slice_set self.old.taken.items slot true) }
        ensures named { OnOk result (self.new.named.items ≡ self.old.named.items ++ slot ∷ []) }
    {
        self.named.push(slot)?;
        self.taken[slot as usize] = true;
        Ok(())
    }

    /// A slot was swept.
    pub fn sweep(&mut self, slot: u64)
        requires { slot < length self.old.taken.items }
        ensures taken { self.new.taken.items ≡ slice_set self.old.taken.items slot false }
        ensures named { self.new.named ≡ self.old.named }
    {
        self.taken[slot as usize] = false;
    }

    /// Registers hold these slots, each told by one more than its number, or by 0 for none.
    pub fn hold(&mut self, registers: &[u64]) -> Result<(), AllocError>
        ensures taken { OnOk result (self.new.taken ≡ self.old.taken) }
        ensures named { OnOk result (self.new.named.items ≡ self.old.named.items ++ held registers.now) }
    {
        for held in registers {
            if *held > 0 {
                self.named.push(*held - 1)?;
            }
        }
        Ok(())
    }

    /// A block begins.
    pub fn begin_block(&mut self)
        ensures taken { self.new.taken ≡ self.old.taken }
        ensures named { self.new.named.items ≡ [] }
    {
        self.named.clear();
    }
}
