//! Turns of the collector of a heap.

use crate::action::{Stage, Turns};
use crate::mutating::poll;
use crate::told::turn;
use rec_collector::Phase;
use rec_world::{Turn, World};
use std::alloc::{AllocError as NoMemory, Global};

// More turns than four collections of these heaps take.
const TURNS: u32 = 2000;

// What is told where so many turns don't lead to what was asked.
const NEVER: &str = "it never comes so far";

/// Makes turns, and tells what came of them. Where they only go on, nothing is told.
pub fn turns(alloc: Global, world: &mut World, turns: Turns) -> Result<String, NoMemory> {
    match turns {
        Turns::One => turn(alloc, world.turn()),
        Turns::Moves(turns) => move_on(alloc, world, turns),
        Turns::Collect => collect(alloc, world),
        Turns::Finish => finish(alloc, world),
        Turns::Sweep(word) => sweep(alloc, world, word),
        Turns::Reach(stage) => reach(alloc, world, stage),
    }
}

// So many turns, or up to one that doesn't go on.
fn move_on(alloc: Global, world: &mut World, turns: u32) -> Result<String, NoMemory> {
    for _ in 0..turns {
        let told = world.turn();
        if told != Turn::Moved {
            return turn(alloc, told);
        }
    }
    Ok(String::new(alloc))
}

// Turns to the end of a collection.
fn collect(alloc: Global, world: &mut World) -> Result<String, NoMemory> {
    for _ in 0..TURNS {
        if let Turn::Collected { epoch, freed } = world.turn() {
            return format!(in alloc; "{epoch} freed {freed}");
        }
    }
    String::from_str(alloc, NEVER)
}

// Turns to this freed word.
fn sweep(alloc: Global, world: &mut World, word: u64) -> Result<String, NoMemory> {
    for _ in 0..TURNS {
        if world.freed_word() == word {
            return Ok(String::new(alloc));
        }
        let told = world.turn();
        if told != Turn::Moved {
            return turn(alloc, told);
        }
    }
    String::from_str(alloc, NEVER)
}

// A turn, and a poll where it waits. How many slots the collection swept that it completed.
fn advance(world: &mut World) -> Option<u32> {
    match world.turn() {
        Turn::Waiting { mutator } => {
            poll(world, mutator);
            None
        }
        Turn::Collected { freed, .. } => Some(freed),
        _ => None,
    }
}

// Turns and polls to the end of a collection.
fn finish(alloc: Global, world: &mut World) -> Result<String, NoMemory> {
    for _ in 0..TURNS {
        if let Some(freed) = advance(world) {
            return format!(in alloc; "freed {freed}");
        }
    }
    String::from_str(alloc, NEVER)
}

// Turns and polls until a collection has come so far.
fn reach(alloc: Global, world: &mut World, stage: Stage) -> Result<String, NoMemory> {
    for _ in 0..TURNS {
        if is_at(world.collector().phase(), stage) {
            return Ok(String::new(alloc));
        }
        advance(world);
    }
    String::from_str(alloc, NEVER)
}

// Whether the collector has come so far.
fn is_at(phase: &Phase, stage: Stage) -> bool {
    match (stage, phase) {
        (Stage::Looks(t), Phase::Looking { mutator }) => t == *mutator,
        (Stage::Returns(t), Phase::Returning { mutator }) => t == *mutator,
        (Stage::Sweeps(slots), Phase::Sweeping { swept, .. }) => slots == *swept,
        (Stage::Releases, Phase::Releasing(_))
        | (Stage::Frees, Phase::Freeing(_))
        | (Stage::Tries, Phase::Trying(_))
        | (Stage::Prepares, Phase::Preparing(_))
        | (Stage::Opens, Phase::Opening)
        | (Stage::Closes, Phase::Closing { .. }) => true,
        _ => false,
    }
}
