//! Heaps that are settled.

use rec_settle::{Settled, settle};
use rec_word::target;
use rec_world::{Numbering, World};
use std::alloc::{AllocError as NoMemory, Global};

/// Settles a heap in which no mutator works, and sums its counts anew afterwards.
pub fn settled(alloc: Global, world: &mut World, live: bool) -> Result<String, NoMemory> {
    if !world.at_rest() {
        return String::from_str(alloc, "a mutator works");
    }
    match settle(world) {
        Err(spent) => format!(in alloc; "{spent}"),
        Ok(_) if !is_settled(alloc, world)? => String::from_str(alloc, "it isn't settled"),
        Ok(settled) if live => format!(in alloc; "{}", settled.live),
        Ok(settled) => {
            let Settled {
                epochs,
                freed,
                live,
            } = settled;
            format!(in alloc; "epochs {epochs} freed {freed} live {live}")
        }
    }
}

// Whether just the slots that registers reach are taken, each with its true count.
fn is_settled(alloc: Global, world: &World) -> Result<bool, NoMemory> {
    let mut numbering = Numbering::open(alloc, world.slots())?;
    world.number(&mut numbering);
    for slot in 0..world.slots() {
        let is_reached = numbering.number(slot).is_some();
        let count = if is_reached { held(world, slot) } else { 1 };
        if world.taken(slot) != is_reached || world.count(slot) != count {
            return Ok(false);
        }
    }
    Ok(true)
}

// How many fields and registers hold the slot.
fn held(world: &World, slot: u16) -> u64 {
    let mut held = fields_to(world.words(), slot);
    for t in 1..=world.mutators() {
        held = held.wrapping_add(registers_to(world.registers(t), slot));
    }
    held
}

fn fields_to(words: &[u64], slot: u16) -> u64 {
    words
        .iter()
        .filter(|word| target(**word) == Some(slot))
        .count() as u64
}

fn registers_to(registers: &[Option<u16>], slot: u16) -> u64 {
    registers
        .iter()
        .filter(|register| **register == Some(slot))
        .count() as u64
}
