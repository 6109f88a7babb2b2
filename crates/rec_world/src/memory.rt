ghost use Rattle.std.specs.Prelude.{◌≡◌, ℕ, ◌+◌, ◌^◌, ◌<◌, ◌≤◌, length, slice_index_or};
ghost use Rattle.rec_word.specs.Op.{atom_of, cell_of, written};
ghost use Rattle.rec_word.specs.declared.atom.Atom.TheVariants.{Load};
ghost use Rattle.rec_word.specs.declared.op.Op.TheVariants as ops;
ghost use Rattle.rec_core.specs.Cells.{IsWithin, cell, with_cell};
ghost use Rattle.rec_core.specs.Row.{row, cells_of_row, IsLayout};
ghost use Rattle.rec_world.specs.Indexed.{Finds, IsNoHeader};

use rec_core::Layout;
use rec_index::Index;
use rec_word::{Cell, Op};
use std::marker::Model;

/// The shared words of a heap in one row: the fields by place, a header for each slot, the epoch word, the freed word, and a
/// crossing word for each mutator.
#[derive(Drop)]
pub struct Memory {
    row: Vec<u64>,
    layout: Layout,
    // The slots whose headers are 0.
    free: Index,
}

impl Model for Memory {
    ghost use Rattle.rec_core.specs.Cells.{Cells};

    ghost Value = { Cells };

    ghost use Rattle.rec_world.specs.Indexed.{cells, IsLaidOut};

    ghost view = { cells };

    ghost invariant = { IsLaidOut };
}

impl Memory {
    /// The words that such a row holds. What the index has as its members is of no account.
    pub fn of_row(row: Vec<u64>, layout: Layout, mut free: Index) -> Memory
        requires layout { IsLayout layout }
        requires few_slots { layout.slots < 2 ^ 16 }
        requires long { layout.freed < length row.items }
        ensures { result ≡ cells_of_row layout.places layout.slots row.items }
    {
        list_free(&mut free, &row[layout.places..layout.places + layout.slots]);
        Memory { row, layout, free }
    }

    /// The row, and the index for whoever makes these words anew.
    pub fn into_row(self) -> (Vec<u64>, Index)
        ensures { result.0.items ≡ row self }
    {
        (self.row, self.free)
    }

    /// Carries out one operation, and answers the word that it found.
    #[inline(always)]
    pub fn perform(&mut self, op: Op) -> u64
        requires { IsWithin self.old op }

        ensures found { result ≡ cell self.old op }
        ensures left { self.new ≡ with_cell self.old op (written op result) }
    {
        match op {
            Op::LoadField(place) | Op::LoadChild(place) => self.load(Cell::Field(place), op),
            Op::SwapField(place, _) | Op::ClearField(place) => {
                self.exchange(Cell::Field(place), op)
            }
            Op::LoadHeader(slot) => self.load(Cell::Header(slot), op),
            Op::ClaimHeader(slot, header) => self.claim(slot, header),
            Op::FreeHeader(slot) => self.clear(slot),
            Op::LoadEpoch => self.load(Cell::Epoch, op),
            Op::StoreEpoch(_) => self.exchange(Cell::Epoch, op),
            Op::LoadFreed => self.load(Cell::Freed, op),
            Op::AddFreed => self.exchange(Cell::Freed, op),
            Op::LoadCross(t) => self.load(Cell::Crossing(t), op),
            Op::TakeBox(t, _) | Op::GiveBox(t, _) => self.exchange(Cell::Crossing(t), op),
            Op::LookBox(t, _) => self.exchange(Cell::Crossing(t), op),
            Op::ReturnBox(t, _) => self.exchange(Cell::Crossing(t), op),
            Op::ShiftBox(t, _) => self.exchange(Cell::Crossing(t), op),
        }
    }

    // The word that a load names, which it leaves.
    #[inline(always)]
    fn load(&self, at: Cell, op: Op) -> u64
        requires within { IsWithin self.now op }
        requires names { at ≡ cell_of op }
        requires load { atom_of op ≡ Load }

        ensures found { result ≡ cell self.now op }
        ensures left { self.now ≡ with_cell self.now op (written op result) }
    {
        self.row[self.layout.index(at)]
    }

    // Carries out an operation on a word that is no header.
    #[inline(always)]
    fn exchange(&mut self, at: Cell, op: Op) -> u64
        requires within { IsWithin self.old op }
        requires names { at ≡ cell_of op }
        requires other { IsNoHeader at }

        ensures found { result ≡ cell self.old op }
        ensures left { self.new ≡ with_cell self.old op (written op result) }
    {
        exchange(&mut self.row[self.layout.index(at)], op)
    }

    // Claims a slot, where it is free.
    #[inline(always)]
    fn claim(&mut self, slot: u16, header: u64) -> u64
        requires { IsWithin self.old (ops.ClaimHeader slot header) }

        ensures found { result ≡ cell self.old (ops.ClaimHeader slot header) }
        ensures left { self.new ≡ with_cell self.old (ops.ClaimHeader slot header) (written (ops.ClaimHeader slot header) result) }
    {
        let word = &mut self.row[self.layout.index(Cell::Header(slot))];
        let found = *word;
        if found == 0 {
            *word = header;
            self.free.remove(slot);
        }
        found
    }

    // Frees a slot.
    #[inline(always)]
    fn clear(&mut self, slot: u16) -> u64
        requires { IsWithin self.old (ops.FreeHeader slot) }

        ensures found { result ≡ cell self.old (ops.FreeHeader slot) }
        ensures left { self.new ≡ with_cell self.old (ops.FreeHeader slot) (written (ops.FreeHeader slot) result) }
    {
        self.free.insert(slot);
        exchange(
            &mut self.row[self.layout.index(Cell::Header(slot))],
            Op::FreeHeader(slot),
        )
    }

    /// The words of all fields, by place.
    pub fn words(&self) -> &[u64]
        ensures { result.now ≡ self.now.words }
    {
        &self.row[..self.layout.places]
    }

    /// The epoch word.
    pub fn epoch(&self) -> u64
        ensures { result ≡ self.now.epoch }
    {
        self.row[self.layout.index(Cell::Epoch)]
    }

    /// The freed word.
    pub fn freed(&self) -> u64
        ensures { result ≡ self.now.freed }
    {
        self.row[self.layout.freed]
    }

    /// The crossing words of the mutators, in order.
    pub fn crossing(&self) -> &[u64]
        ensures { result.now ≡ self.now.crossing }
    {
        &self.row[self.layout.freed + 1..]
    }

    /// The lowest slot whose header is 0, or how many slots there are where no header is.
    pub fn lowest_free(&self) -> u16
        requires { length self.now.headers < 2 ^ 16 }

        ensures there { result ≤ length self.now.headers }
        ensures lower { (s : ℕ) → s < result → 0 < slice_index_or self.now.headers s 0 }
        ensures free { result < length self.now.headers → slice_index_or self.now.headers result 0 ≡ 0 }
    {
        match self.free.lowest() {
            Some(slot) => slot,
            None => self.layout.slots as u16,
        }
    }

    /// The header of the slot.
    pub fn header(&self, slot: u16) -> u64
        requires { slot < length self.now.headers }
        ensures { result ≡ slice_index_or self.now.headers slot 0 }
    {
        self.row[self.layout.index(Cell::Header(slot))]
    }
}

// Puts there what the operation leaves, and answers the word that it found. `perform` has it seven times, and with a mark that takes it in
// always, a step and a turn would be too large for their own marks (`bench/README.md`). As it is, the compiler takes it in by itself.
fn exchange(word: &mut u64, op: Op) -> u64
    ensures found { result ≡ word.old }
    ensures left { word.new ≡ written op word.old }
{
    let found = *word;
    *word = op.written(found);
    found
}

// Makes the slots whose headers are 0 the members of the index, and no others.
fn list_free(free: &mut Index, headers: &[u64])
    requires { length headers.now < 2 ^ 16 }
    ensures { Finds headers.now free.new }
{
    free.clear();
    'slots: for slot in 0..headers.len() as u16 {
        if headers[usize::from(slot)] == 0 {
            free.insert(slot);
        }
    }
}
