//! Whether a world settles and is settled, by sums that this crate makes itself.
ghost use Rattle.rec_core.specs.Worked.{AreIdle};

use rec_settle::settle;
use rec_word::target;
use rec_world::{Numbering, World};
use std::alloc::{AllocError as NoMemory, Global};

/// Lets a world settle, and tells whether it came to that.
pub fn settles(alloc: Global, world: &mut World) -> Result<bool, NoMemory>
    requires { AreIdle world.old }
{
    if settle(world).is_err() {
        return Ok(false);
    }
    is_settled(alloc, world)
}

// Whether just the slots that registers reach are taken, each with as many holders as it counts.
fn is_settled(alloc: Global, world: &World) -> Result<bool, NoMemory> {
    let mut numbering = Numbering::open(alloc, world.slots())?;
    world.number(&mut numbering);
    let holders = holders(alloc, world)?;
    for slot in 0..world.slots() {
        let is_reached = numbering.number(slot).is_some();
        let has_count = holders.get(usize::from(slot)) == Some(&world.count(slot));
        if world.taken(slot) != is_reached || is_reached && !has_count {
            return Ok(false);
        }
    }
    Ok(true)
}

// For each slot, how many fields and registers hold it.
fn holders(alloc: Global, world: &World) -> Result<Vec<u64>, NoMemory> {
    let mut holders = vec![in alloc; 0; usize::from(world.slots())]?;
    count_fields(&mut holders, world.words());
    for t in 1..=world.mutators() {
        count_registers(&mut holders, world.registers(t));
    }
    Ok(holders)
}

fn count_fields(holders: &mut Vec<u64>, words: &[u64]) {
    for word in words {
        count_holder(holders, target(*word));
    }
}

fn count_registers(holders: &mut Vec<u64>, registers: &[Option<u16>]) {
    for register in registers {
        count_holder(holders, *register);
    }
}

fn count_holder(holders: &mut Vec<u64>, held: Option<u16>) {
    if let Some(slot) = held {
        if let Some(count) = holders.get_mut(usize::from(slot)) {
            *count = count.wrapping_add(1);
        }
    }
}
