//! A mutator makes a garbage cycle: two objects that name each other, and that no register names afterwards.

ghost use Rattle.std.specs.Prelude.{◌≡◌};
ghost use Rattle.rec_races.specs.Ready.{IsReady};

use crate::crew::{End, Task};
use rec_world::{Cmd, World};
use std::alloc::{AllocError as NoMemory, Global};

/// Makes a ring of two objects, and drops it.
pub const RING: [Cmd; 6] = [
    Cmd::New { reg: 1, label: 10 },
    Cmd::New { reg: 2, label: 20 },
    Cmd::Put {
        src: 1,
        field: 0,
        val: 2,
    },
    Cmd::Put {
        src: 2,
        field: 0,
        val: 1,
    },
    Cmd::Null { reg: 1 },
    Cmd::Null { reg: 2 },
];

/// What a mutator of a running heap does that makes the cycle once.
pub fn once(alloc: Global) -> Result<Task, NoMemory> {
    let commands = Vec::from_array(alloc, RING)?;
    Ok(Task {
        commands,
        times: 1,
        end: End::Stops,
    })
}

/// Mutator 1 of a world makes the cycle. It touches no count, and nothing else of the collector's.
pub fn make(world: &mut World)
    requires { IsReady world.old }
    ensures ready { IsReady world.new }
    ensures collector { world.new.collector ≡ world.old.collector }
{
    for cmd in &RING {
        if world.valid(1, cmd) {
            world.command(1, *cmd);
        }
    }
}
