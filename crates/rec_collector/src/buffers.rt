//! Rows of buffers, one for each mutator.
ghost use Rattle.std.specs.Prelude.{◌≡◌, ◌*◌, IfOk, Option, false, map, length, replicate};
ghost use Rattle.rec_collector.specs.Private.{blank, retired, retired_rows};
ghost use Rattle.rec_collector.specs.Took.{cleared};

use rec_log::{Buffer, Frame};
use std::alloc::{AllocError as NoMemory, Global};

// A buffer for each mutator, with room for so many entries, and this frame as its snapshot.
fn open_row(
    alloc: Global,
    mutators: u8,
    capacity: u32,
    registers: u8,
    frame: &Frame,
) -> Result<Vec<Buffer>, NoMemory>
    requires { length frame.now ≡ registers }
    ensures { IfOk result (λ row. row.items ≡ replicate mutators (retired frame.now capacity)) }
{
    let mut row = Vec::with_capacity(alloc, usize::from(mutators))?;
    for _ in 0..mutators {
        let buffer = open_retired(alloc, capacity, registers, frame)?;
        row.push(buffer)?;
    }
    Ok(row)
}

/// A spare buffer for each mutator, with room for so many entries, and whether it has left: none has.
pub(crate) fn open_spares(
    alloc: Global,
    mutators: u8,
    capacity: u32,
    registers: u8,
) -> Result<(Vec<Buffer>, Vec<bool>), NoMemory>
    ensures buffers { IfOk result (λ spares. spares.0.items ≡ replicate mutators (blank registers capacity)) }
    ensures left { IfOk result (λ spares. spares.1.items ≡ replicate mutators false) }
{
    let frame = Frame::open(alloc, registers)?;
    let row = open_row(alloc, mutators, capacity, registers, &frame);
    drop(frame);
    let row = row?;
    let left = vec![in alloc; false; usize::from(mutators)]?;
    Ok((row, left))
}

/// A buffer for each mutator, with room for so many entries, and its registers as its snapshot. The registers stand mutator
/// after mutator.
pub(crate) fn open_rows(
    alloc: Global,
    mutators: u8,
    capacity: u32,
    registers: u8,
    held: &[Option<u16>],
) -> Result<Vec<Buffer>, NoMemory>
    requires { length held.now ≡ mutators * registers }
    ensures { IfOk result (λ row. row.items ≡ retired_rows registers mutators capacity held.now) }
{
    let mut row = Vec::with_capacity(alloc, usize::from(mutators))?;
    let mut rest = held;
    for _ in 0..mutators {
        let (own, others) = rest.split_at(usize::from(registers));
        let buffer = open_own(alloc, capacity, registers, own)?;
        row.push(buffer)?;
        rest = others;
    }
    Ok(row)
}

// A buffer with room for so many entries, and these registers as its snapshot.
fn open_own(
    alloc: Global,
    capacity: u32,
    registers: u8,
    own: &[Option<u16>],
) -> Result<Buffer, NoMemory>
    requires { length own.now ≡ registers }
    ensures { IfOk result (λ buffer. buffer ≡ retired own.now capacity) }
{
    let frame = Frame::of(alloc, own)?;
    let buffer = open_retired(alloc, capacity, registers, &frame);
    drop(frame);
    buffer
}

// A buffer with room for so many entries, and this frame as its snapshot.
fn open_retired(
    alloc: Global,
    capacity: u32,
    registers: u8,
    frame: &Frame,
) -> Result<Buffer, NoMemory>
    requires { length frame.now ≡ registers }
    ensures { IfOk result (λ buffer. buffer ≡ retired frame.now capacity) }
{
    let mut buffer = Buffer::open(alloc, capacity, registers)?;
    buffer.retire(frame);
    Ok(buffer)
}

/// Clears each of these buffers.
pub(crate) fn clear_all(buffers: &mut [Buffer])
    ensures { buffers.new ≡ map cleared buffers.old }
{
    for buffer in buffers.iter_mut() {
        buffer.clear();
    }
}
