//! The lines that tell of a step of the collector.

ghost use Rattle.std.specs.Prelude.{◌≡◌, ◌++◌, ℕ, map, OnOk};
ghost use Rattle.rec_collector.specs.Shown.{HasTaken, batch_of, completed_of, passed_of, shown_of};
ghost use Rattle.rec_audit.specs.Lines.{text_of, text_of_line};
ghost use Rattle.rec_audit.specs.Journal.{batch_lines, completed_lines, entry_line, lines_of, op_lines, part_lines, parts_lines, passed_lines};

use crate::kind::Kind;
use crate::lines::{push_free, push_line, push_snap};
use rec_collector::Machine;
use rec_log::{Buffer, Entry};
use rec_word::Op;
use std::alloc::AllocError;

/// Writes what a mutator did as a line.
fn push_entry(text: &mut Vec<u8>, mutator: u64, entry: Entry) -> Result<(), AllocError>
    ensures { OnOk result (text.new.items ≡ text.old.items ++ text_of_line (entry_line mutator entry)) }
{
    match entry {
        Entry::Put { place, new, old } => {
            push_line(text, Kind::Put, &[mutator, u64::from(place), new, old])
        }
        Entry::Born { slot, .. } => push_line(text, Kind::Born, &[mutator, u64::from(slot)]),
    }
}

/// Writes a mutator's part of a block: its entries in their order, and what its registers held as it left the epoch.
fn push_part(text: &mut Vec<u8>, mutator: u64, buffer: &Buffer) -> Result<(), AllocError>
    ensures { OnOk result (text.new.items ≡ text.old.items ++ text_of (part_lines mutator buffer.now)) }
{
    push_entries(text, mutator, buffer.entries())?;
    push_snap(text, mutator, buffer.snapshot())?;
    Ok(())
}

/// Writes what a mutator did, in its order.
fn push_entries(text: &mut Vec<u8>, mutator: u64, entries: &[Entry]) -> Result<(), AllocError>
    ensures { OnOk result (text.new.items ≡ text.old.items ++ text_of (map (entry_line mutator) entries.now)) }
{
    for entry in entries {
        push_entry(text, mutator, *entry)?;
    }
    Ok(())
}

/// Writes the parts of all mutators, one after the other.
fn push_parts(text: &mut Vec<u8>, buffers: &[Buffer]) -> Result<(), AllocError>
    ensures { OnOk result (text.new.items ≡ text.old.items ++ text_of (parts_lines buffers.now)) }
{
    for (i, buffer) in buffers.iter().enumerate() {
        push_part(text, i as u64 + 1, buffer)?;
    }
    Ok(())
}

/// Writes the batch that the last step of the collector applied, if it did. `op` is the operation of that step.
fn push_batch(text: &mut Vec<u8>, collector: &Machine, op: Op) -> Result<(), AllocError>
    requires { (word : ℕ) × HasTaken op word collector.now }
    ensures { OnOk result (text.new.items ≡ text.old.items ++ text_of (batch_lines (batch_of op collector.now))) }
{
    let Some(batch) = collector.applied(op) else {
        return Ok(());
    };
    push_line(text, Kind::Epoch, &[u64::from(batch.epoch)])?;
    push_parts(text, batch.newer)?;
    Ok(())
}

/// Writes what a step took out of a field, or swept.
fn push_op(text: &mut Vec<u8>, op: Op, word: u64) -> Result<(), AllocError>
    ensures { OnOk result (text.new.items ≡ text.old.items ++ text_of (op_lines op word)) }
{
    match op {
        Op::ClearField(place) if word != 0 => push_line(text, Kind::Out, &[u64::from(place), word]),
        Op::FreeHeader(slot) => push_line(text, Kind::Sweep, &[u64::from(slot)]),
        _ => Ok(()),
    }
}

/// Writes the set that passed both tests in the collector's last step, if one did.
fn push_passed(text: &mut Vec<u8>, collector: &Machine) -> Result<(), AllocError>
    ensures { OnOk result (text.new.items ≡ text.old.items ++ text_of (passed_lines (passed_of collector.now))) }
{
    match collector.passed() {
        Some(members) => push_free(text, members),
        None => Ok(()),
    }
}

/// Writes the end of the collection that the last step completed, if it did.
fn push_completed(text: &mut Vec<u8>, collector: &Machine) -> Result<(), AllocError>
    ensures { OnOk result (text.new.items ≡ text.old.items ++ text_of (completed_lines (completed_of collector.now))) }
{
    match collector.completed() {
        Some(epoch) => push_line(text, Kind::End, &[u64::from(epoch)]),
        None => Ok(()),
    }
}

/// Writes the lines of the collector's last step, which was this operation and found this word.
pub fn push_step(
    text: &mut Vec<u8>,
    collector: &Machine,
    op: Op,
    word: u64,
) -> Result<(), AllocError>
    requires { HasTaken op word collector.now }
    ensures { OnOk result (text.new.items ≡ text.old.items ++ text_of (lines_of (shown_of op word collector.now))) }
{
    push_batch(text, collector, op)?;
    push_op(text, op, word)?;
    push_passed(text, collector)?;
    push_completed(text, collector)?;
    Ok(())
}
