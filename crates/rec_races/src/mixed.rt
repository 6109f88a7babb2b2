//! Mutators with commands of all kinds over shared fields.

ghost use Rattle.std.specs.Prelude.{◌<◌};

use crate::crew::{End, Limits, Task};
use crate::race::race_and_settle;
use rand_core::utils::NextWord;
use rand_pcg::Pcg32;
use rec_model::Cmd;
use rec_world::{Config, Policy};
use std::alloc::{AllocError as NoMemory, Global};
use std::process::Abort;
use std::test::Fail;
use std::thread::Threads;

// How many commands each mutator has, and how many times it goes through them.
const COMMANDS: u32 = 50;

const TIMES: u32 = 4;

// The collector turns beside them, and no set that it frees is enough.
const LIMITS: Limits = Limits {
    turns: 4_000,
    freed: u64::MAX,
};

fn draw(generator: &mut Pcg32, bound: u32) -> u8
    requires { (0 < bound) × (bound < 256) }
    ensures { result < bound }
{
    (generator.next_word() % bound) as u8
}

// A command over three registers, of which the first keeps the opening object, and two fields.
fn draw_command(generator: &mut Pcg32) -> Cmd {
    let written = draw(generator, 2) + 1;
    let read = draw(generator, 3);
    let field = draw(generator, 2);
    match draw(generator, 12) {
        0..=1 => Cmd::New {
            reg: written,
            label: 7,
        },
        2 => Cmd::Leaf {
            reg: written,
            label: 8,
        },
        3 => Cmd::Null { reg: written },
        4 => Cmd::Copy {
            dst: written,
            src: read,
        },
        5..=7 => Cmd::Get {
            dst: written,
            src: read,
            field,
        },
        _ => Cmd::Put {
            src: read,
            field,
            val: draw(generator, 3),
        },
    }
}

fn draw_task(alloc: Global, generator: &mut Pcg32) -> Result<Task, NoMemory> {
    let mut commands = Vec::new(alloc);
    for _ in 0..COMMANDS {
        commands.push(draw_command(generator))?;
    }
    Ok(Task {
        commands,
        times: TIMES,
        end: End::Stops,
    })
}

fn draw_tasks(alloc: Global, seed: u64, mutators: u32) -> Result<Vec<Task>, NoMemory> {
    let mut generator = Pcg32::new(seed, 1);
    let mut tasks = Vec::new(alloc);
    for _ in 0..mutators {
        tasks.push(draw_task(alloc, &mut generator)?)?;
    }
    Ok(tasks)
}

// One race of drawn commands. What it leaves settles.
fn race_drawn<R: Abort + Threads + Sync>(
    rt: &R,
    alloc: Global,
    seed: u64,
    mutators: u32,
) -> Result<(), Fail> {
    let config = Config {
        slots: 16,
        fields: 2,
        registers: 3,
        mutators,
        log_entries: 64,
        first_epoch: 1,
        policy: Policy {
            steady: false,
            least_roots: 0,
            most_postponed: 0,
        },
    };
    let tasks = draw_tasks(alloc, seed, mutators)?;
    let left = race_and_settle(rt, alloc, config, &tasks, LIMITS)?;
    assert!(rt; left.is_settled, "seed {seed}");
    Ok(())
}

#[test]
fn what_two_mutators_leave_settles(rt: HostRuntime) -> Result<(), Fail> {
    let alloc: Global = rt.alloc();
    for seed in 0..1000 {
        race_drawn(&rt, alloc, seed, 2)?;
    }
    Ok(())
}

#[test]
fn what_four_mutators_leave_settles(rt: HostRuntime) -> Result<(), Fail> {
    let alloc: Global = rt.alloc();
    for seed in 0..1000 {
        race_drawn(&rt, alloc, seed, 4)?;
    }
    Ok(())
}
