ghost use Rattle.std.specs.Prelude.{◌≡◌, ◌<◌, length, replicate, slice_index_or, slice_set, IfOk};

use std::alloc::{AllocError as NoMemory, Global};
use std::marker::Model;

/// The registers of a mutator, numbered from 0. Their number never changes.
#[derive(Drop)]
pub struct Frame {
    registers: Vec<Option<u16>>,
}

impl Model for Frame {
    ghost use Rattle.std.specs.Prelude.{ℕ, List, Option};

    ghost Value = { List (Option ℕ) };

    ghost view = { λ frame. frame.registers.items };
}

impl Frame {
    /// So many registers, all null. All their memory is taken here.
    pub fn open(alloc: Global, regs: u8) -> Result<Frame, NoMemory>
        ensures { IfOk result (λ frame. frame ≡ replicate regs None) }
    {
        Ok(Frame {
            registers: vec![in alloc; None; usize::from(regs)]?,
        })
    }

    /// Registers that name these slots, in order. All their memory is taken here.
    pub fn of(alloc: Global, registers: &[Option<u16>]) -> Result<Frame, NoMemory>
        ensures { IfOk result (λ frame. frame ≡ registers.now) }
    {
        let mut own = vec![in alloc; None; registers.len()]?;
        own.copy_from_slice(registers);
        Ok(Frame { registers: own })
    }

    /// The slot that register `r` names, or `None` where it is null.
    pub fn read(&self, r: u8) -> Option<u16>
        requires { r < length self.now }
        ensures { result ≡ slice_index_or self.now r None }
    {
        let index = usize::from(r);
        self.registers[index]
    }

    /// What each register names, in order.
    pub fn registers(&self) -> &[Option<u16>]
        ensures { result.now ≡ self.now }
    {
        self.registers.as_slice()
    }

    /// Lets register `r` name a slot.
    pub fn set(&mut self, r: u8, slot: u16)
        requires { r < length self.old }
        ensures { self.new ≡ slice_set self.old r (Some slot) }
    {
        self.registers[usize::from(r)] = Some(slot);
    }

    /// Lets register `r` be null.
    pub fn clear(&mut self, r: u8)
        requires { r < length self.old }
        ensures { self.new ≡ slice_set self.old r None }
    {
        self.registers[usize::from(r)] = None;
    }

    /// Lets every register be null.
    pub fn clear_all(&mut self)
        ensures { self.new ≡ replicate (length self.old) None }
    {
        self.registers.fill(None);
    }

    /// Lets register `dst` be what register `src` is, null too.
    pub fn copy(&mut self, dst: u8, src: u8)
        requires dst { dst < length self.old }
        requires src { src < length self.old }

        ensures { self.new ≡ slice_set self.old dst (slice_index_or self.old src None) }
    {
        self.registers[usize::from(dst)] = self.registers[usize::from(src)];
    }
}
