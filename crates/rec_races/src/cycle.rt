//! A garbage cycle on a heap that one thread drives.

ghost use Rattle.std.specs.Prelude.{◌≡◌, ◌%◌, All, IfOk};
ghost use Rattle.rec_core.specs.Worked.{AreIdle};
ghost use Rattle.rec_races.specs.Ready.{IsReady};

use rec_world::{Config, OpenError, Policy, Turn, World};
use std::alloc::Global;
use std::io;

// More turns than three collections of this heap take.
const TURNS: u32 = 100;

const ONE: Config = Config {
    slots: 8,
    fields: 1,
    registers: 3,
    mutators: 1,
    log_entries: 16,
    first_epoch: 1,
    policy: Policy {
        steady: false,
        least_roots: 0,
        most_postponed: 0,
    },
};

/// A heap with one mutator, in whose register 0 the first object stands.
pub fn open(alloc: Global) -> Result<World, OpenError>
    ensures { IfOk result IsReady }
{
    World::open(alloc, ONE)
}

/// The same with two mutators, neither of which works at anything.
pub fn open_for_two(alloc: Global) -> Result<World, OpenError>
    ensures idle { IfOk result AreIdle }
    ensures home { IfOk result (λ world. All (λ word. word % 2 ≡ 0) world.crossing) }
{
    World::open(alloc, Config { mutators: 2, ..ONE })
}

/// The collector turns until it has swept two slots in one collection, and the mutator polls where the collector waits for it. Each
/// turn is printed, with the counts of the first three slots after it.
pub fn watch(out: &impl Print, world: &mut World) -> io::Result<()>
    requires { IsReady world.old }
{
    for turn in 1..=TURNS {
        let told = world.turn();
        print_turn(out, turn, told, world)?;
        match told {
            Turn::Waiting { mutator } => {
                world.poll(mutator);
            }
            Turn::Collected { freed: 2, .. } => return Ok(()),
            _ => {}
        }
    }
    Ok(())
}

fn print_turn(out: &impl Print, turn: u32, told: Turn, world: &World) -> io::Result<()>
    requires { IsReady world.now }
{
    let (first, second, third) = (world.count(0), world.count(1), world.count(2));
    println!(out; "turn {turn}: counts {first} {second} {third}, {told:?}")
}
