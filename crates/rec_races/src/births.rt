//! Two births at once.

use crate::crew::{End, Limits, Task};
use crate::race::race;
use rec_model::Cmd;
use rec_world::{Config, Policy, World};
use std::alloc::{AllocError as NoMemory, Global};
use std::process::Abort;
use std::test::Fail;
use std::thread::Threads;

// The collector makes no turn.
const NO_TURNS: Limits = Limits { turns: 0, freed: 0 };

// One birth of an object with this label.
fn birth(alloc: Global, label: u32) -> Result<Task, NoMemory> {
    let commands = vec![in alloc; Cmd::New { reg: 1, label }]?;
    Ok(Task {
        commands,
        times: 1,
        end: End::Stops,
    })
}

fn labels(world: &World) -> Option<(Option<u32>, Option<u32>)> {
    if world.slots() < 3 {
        return None;
    }
    Some((world.label(1), world.label(2)))
}

// What two births at once left.
#[derive(Clone, Copy)]
struct Born {
    is_refused: bool,
    labels: Option<(Option<u32>, Option<u32>)>,
    made: u64,
}

// A race of two births.
fn race_births<R: Abort + Threads + Sync>(
    rt: &R,
    alloc: Global,
    tasks: &[Task],
) -> Result<Born, Fail> {
    let config = Config {
        slots: 3,
        fields: 1,
        registers: 3,
        mutators: 2,
        log_entries: 16,
        first_epoch: 1,
        policy: Policy {
            steady: false,
            least_roots: 0,
            most_postponed: 0,
        },
    };
    let (world, seen) = race(rt, alloc, config, tasks, NO_TURNS)?;
    let labels = labels(&world);
    let made = world.made();
    drop(world);
    Ok(Born {
        is_refused: seen.is_refused,
        labels,
        made,
    })
}

#[test]
fn two_births_at_once_take_two_slots(rt: HostRuntime) -> Result<(), Fail> {
    let alloc: Global = rt.alloc();
    let tasks = [birth(alloc, 5)?, birth(alloc, 6)?];
    for round in 0..1000 {
        let born = race_births(&rt, alloc, &tasks)?;
        assert!(rt; !born.is_refused, "round {round}");
        assert!(rt;
            born.labels == Some((Some(5), Some(6))) || born.labels == Some((Some(6), Some(5))),
            "round {round}"
        );
        assert_eq!(rt; born.made, 3, "round {round}");
    }
    Ok(())
}
