//! A running heap, whose mutators and collector work on a thread each.

ghost use Rattle.std.specs.Prelude.{◌≡◌, ◌%◌, All, IfOk};
ghost use Rattle.std.specs.Thread.{IsSync};
ghost use Rattle.rec_core.specs.Worked.{AreIdle};
ghost use Rattle.rec_table.specs.Views.{AreMutatorsOf, IsCollectorOf, IsMutatorOf};
ghost use Rattle.rec_races.specs.Ran.{Ran};

use crate::crew::{Limits, Task, collect, mutate};
use crate::signals::Signals;
use rec_table::{Collector, Heap, Mutator};
use rec_world::World;
use std::alloc::{AllocError as NoMemory, Global};
use std::thread::{Threads, for_each_mut, join};

/// Sets a heap running, lets its threads work, and stops it once they have ended.
pub fn run<R: Threads + Sync>(
    rt: &R,
    alloc: Global,
    world: World,
    tasks: &[Task],
    limits: Limits,
    signals: &Signals,
) -> Result<World, NoMemory>
    requires idle { AreIdle world }
    requires home { All (λ word. word % 2 ≡ 0) world.crossing }
    ensures ran { IfOk result (Ran world) }
    ensures idle { IfOk result AreIdle }
{
    match Heap::start(alloc, world) {
        Ok((heap, mutators, collector)) => {
            let (mutators, collector) = work(
                rt, &heap, mutators, collector, tasks, limits, signals,
            );
            Ok(stop(alloc, heap, mutators, collector))
        }
        Err((world, error)) => {
            drop(world);
            Err(error)
        }
    }
}

/// The world that a heap is when it is stopped, which is never refused.
pub fn stop(alloc: Global, heap: Heap, mutators: Vec<Mutator>, collector: Collector) -> World
    requires mutators { AreMutatorsOf heap mutators.items }
    requires collector { IsCollectorOf heap collector }
    ensures ran { Ran heap.world result }
    ensures idle { AreIdle result }
{
    match heap.stop(alloc, mutators, collector) {
        Ok(world) => world,
        Err(_) => unreachable!(), // stopping is never refused memory
    }
}

// The mutators go through their tasks, and the collector makes its turns beside them.
fn work<R: Threads + Sync>(
    rt: &R,
    heap: &Heap,
    mutators: Vec<Mutator>,
    collector: Collector,
    tasks: &[Task],
    limits: Limits,
    signals: &Signals,
) -> (Vec<Mutator>, Collector)
    requires mutators { AreMutatorsOf heap.now mutators.items }
    requires collector { IsCollectorOf heap.now collector }
    ensures mutators { AreMutatorsOf heap.now result.0.items }
    ensures collector { IsCollectorOf heap.now result.1 }
{
    let (collector, mutators) = join(
        rt,
        || -> Collector
            requires { IsCollectorOf heap.now collector }
            ensures { IsCollectorOf heap.entry.now result }
        { collect(heap, collector, limits, signals) },
        || -> Vec<Mutator>
            requires { IsSync R.row × AreMutatorsOf heap.now mutators.items }
            ensures { AreMutatorsOf heap.entry.now result.items }
        { mutate_all(rt, heap, mutators, tasks, signals) },
    );
    (mutators, collector)
}

// Each mutator goes through its task on a thread of its own.
fn mutate_all<R: Threads + Sync>(
    rt: &R,
    heap: &Heap,
    mut mutators: Vec<Mutator>,
    tasks: &[Task],
    signals: &Signals,
) -> Vec<Mutator>
    requires { AreMutatorsOf heap.now mutators.items }
    ensures { AreMutatorsOf heap.now result.items }
{
    let threads = mutators.len().max(1);
    for_each_mut(
        rt,
        mutators.as_mut_slice(),
        threads,
        &|i: usize, mutator: &mut Mutator|
            requires { IsMutatorOf heap.now mutator.old }
            ensures { mutator.new ≡ record mutator.old { log = mutator.new.log } }
        {
            if let Some(task) = tasks.get(i) {
                mutate(heap, mutator, task, signals);
            }
        },
    );
    mutators
}
