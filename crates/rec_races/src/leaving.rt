//! Mutators that make rings and leave, while the collector turns.

use crate::crew::{End, Limits, Task};
use crate::race::race;
use crate::settled::settles;
use rec_model::Cmd;
use rec_model::limits::MOST_MUTATORS;
use rec_world::{Config, Policy, World};
use std::alloc::{AllocError as NoMemory, Global};
use std::process::Abort;
use std::test::Fail;
use std::thread::Threads;

// The collector turns as long as mutators work, however long one waits for a processor, and no set that it frees is enough.
const LIMITS: Limits = Limits {
    turns: 1_000_000_000,
    freed: u64::MAX,
};

const ROUNDS: u32 = 40;

// As many mutators as most races have, at most: a race of many threads on few processors takes long.
const FEW: u32 = 8;

// Makes a ring, shows it in the first object, takes it off there, and drops one of its two objects. The other is held at the end.
const RING: [Cmd; 7] = [
    Cmd::New { reg: 1, label: 1 },
    Cmd::New { reg: 2, label: 2 },
    Cmd::Put {
        src: 1,
        field: 0,
        val: 2,
    },
    Cmd::Put {
        src: 2,
        field: 0,
        val: 1,
    },
    Cmd::Put {
        src: 0,
        field: 0,
        val: 1,
    },
    Cmd::Null { reg: 1 },
    Cmd::Put {
        src: 0,
        field: 0,
        val: 1,
    },
];

// What is left once a heap whose mutators left has settled.
#[derive(Clone, Copy)]
struct Leftovers {
    // Whether a mutator was told that it may not leave yet.
    is_put_off: bool,
    // How many mutators are there still.
    present: u64,
    // How many slots are taken, and how many fields and registers hold them, as they are counted.
    taken: u64,
    held: u64,
}

fn count_leftovers(world: &World, is_put_off: bool) -> Leftovers {
    let mut leftovers = Leftovers {
        is_put_off,
        present: 0,
        taken: 0,
        held: 0,
    };
    for t in 1..=world.mutators() {
        if !world.left(t) {
            leftovers.present = leftovers.present.wrapping_add(1);
        }
    }
    for slot in 0..world.slots() {
        if world.taken(slot) {
            leftovers.taken = leftovers.taken.wrapping_add(1);
            leftovers.held = leftovers.held.wrapping_add(world.count(slot));
        }
    }
    leftovers
}

// The first `staying` mutators stay, without commands. Each of the others makes a ring and leaves.
fn leaving_tasks(alloc: Global, mutators: u32, staying: u32) -> Result<Vec<Task>, NoMemory> {
    let mut tasks = Vec::new(alloc);
    for place in 0..mutators {
        let stays = place < staying;
        tasks.push(Task {
            commands: Vec::from_array(alloc, RING)?,
            times: if stays { 0 } else { 1 },
            end: if stays { End::Polls } else { End::Leaves },
        })?;
    }
    Ok(tasks)
}

// One race, whose end is settled.
fn race_leaving<R: Abort + Threads + Sync>(
    rt: &R,
    alloc: Global,
    mutators: u32,
    staying: u32,
) -> Result<Leftovers, Fail> {
    let config = Config {
        slots: 64,
        fields: 1,
        registers: 3,
        mutators,
        log_entries: 16,
        first_epoch: 1,
        policy: Policy {
            steady: false,
            least_roots: 0,
            most_postponed: 0,
        },
    };
    let tasks = leaving_tasks(alloc, mutators, staying)?;
    let (mut world, seen) = race(rt, alloc, config, &tasks, LIMITS)?;
    let is_settled = settles(alloc, &mut world);
    let leftovers = count_leftovers(&world, seen.is_put_off);
    drop(world);
    assert!(rt; is_settled?);
    Ok(leftovers)
}

// How many mutators a race has: a few in most, and in the first ones up to as many as a heap has.
fn mutators_in(round: u32) -> u32 {
    match round {
        0 => 16,
        1 => 31,
        2 => 62,
        3 => u32::from(MOST_MUTATORS),
        _ => round % FEW + 1,
    }
}

// From one mutator to as many as a heap has, of which all leave or one stays. What is left is the first object, where one stays who holds it.
#[test]
fn nothing_is_left_of_those_that_leave(rt: HostRuntime) -> Result<(), Fail> {
    let alloc: Global = rt.alloc();
    let mut is_put_off = false;
    for round in 0..ROUNDS {
        let mutators = mutators_in(round);
        // By turns, and the other way round at each next walk through the few.
        let staying = (round + round / FEW) % 2;
        let left = race_leaving(&rt, alloc, mutators, staying)?;
        let present = u64::from(staying.min(mutators));
        assert_eq!(rt; left.present, present, "round {round}");
        assert_eq!(rt; left.taken, present, "round {round}");
        assert_eq!(rt; left.held, present, "round {round}");
        is_put_off = is_put_off || left.is_put_off;
    }
    assert!(rt; is_put_off);
    Ok(())
}
