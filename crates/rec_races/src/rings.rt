//! Mutators that make rings and drop them while the collector turns.

use crate::crew::{Limits, Task};
use crate::race::race_and_settle;
use crate::ring::once;
use rec_world::{Config, Policy};
use std::alloc::{AllocError as NoMemory, Global};
use std::process::Abort;
use std::test::Fail;
use std::thread::Threads;

// A mutator makes so many rings, unless enough are freed before.
const RINGS: u32 = 1_000;

// How many slots there are. A mutator's two registers keep four of them from freeing.
const SLOTS: u32 = 8;

// So many freed rings had more objects than there are slots.
const LIMITS: Limits = Limits {
    turns: 40_000,
    freed: 5,
};

fn rings(alloc: Global) -> Result<Task, NoMemory> {
    let mut rings = once(alloc)?;
    rings.times = RINGS;
    Ok(rings)
}

// One race. What it leaves settles; the answer is whether enough rings were freed while the mutators had commands, and slots were
// claimed again.
fn race_rings<R: Abort + Threads + Sync>(
    rt: &R,
    alloc: Global,
    tasks: &[Task],
) -> Result<bool, Fail> {
    let config = Config {
        slots: SLOTS,
        fields: 1,
        registers: 3,
        mutators: 2,
        log_entries: 16,
        first_epoch: 1,
        policy: Policy {
            steady: false,
            least_roots: 0,
            most_postponed: 0,
        },
    };
    let left = race_and_settle(rt, alloc, config, tasks, LIMITS)?;
    assert!(rt; left.is_settled);
    let is_reused = left.made > u64::from(SLOTS);
    Ok(left.seen.is_cut && is_reused)
}

#[test]
fn rings_are_freed_while_commands_run(rt: HostRuntime) -> Result<(), Fail> {
    let alloc: Global = rt.alloc();
    let tasks = [rings(alloc)?, rings(alloc)?];
    let mut is_freed = false;
    for _ in 0..1000 {
        if race_rings(&rt, alloc, &tasks)? {
            is_freed = true;
        }
    }
    assert!(rt; is_freed);
    Ok(())
}
