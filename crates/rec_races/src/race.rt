//! A heap that is opened, raced over by its threads, and stopped.

ghost use Rattle.std.specs.Prelude.{IfOk};
ghost use Rattle.rec_core.specs.Worked.{AreIdle};
ghost use Rattle.rec_table.specs.Views.{AreMutatorsOf, IsCollectorOf};

use crate::crew::{Limits, Task};
use crate::settled::settles;
use crate::signals::Signals;
use crate::threads::run;
use rec_table::{Collector, Heap, Mutator};
use rec_world::{Config, World};
use std::alloc::Global;
use std::process::Abort;
use std::test::Fail;
use std::thread::Threads;

/// What was seen of a race.
#[derive(Clone, Copy)]
pub struct Seen {
    /// Whether as many sets were freed as were waited for, while a mutator had commands left.
    pub is_cut: bool,
    /// Whether an allocation found no slot.
    pub is_refused: bool,
    /// Whether a mutator was told that it may not leave yet.
    pub is_put_off: bool,
}

/// What a race came to.
#[derive(Clone, Copy)]
pub struct Left {
    pub seen: Seen,
    /// How many objects were made.
    pub made: u64,
    /// Whether what was left settled.
    pub is_settled: bool,
}

/// A race whose end is settled. What a world is dropped by is proved at each way out, so there is one.
pub fn race_and_settle<R: Abort + Threads + Sync>(
    rt: &R,
    alloc: Global,
    config: Config,
    tasks: &[Task],
    limits: Limits,
) -> Result<Left, Fail> {
    let (mut world, seen) = race(rt, alloc, config, tasks, limits)?;
    let made = world.made();
    let is_settled = settles(alloc, &mut world);
    drop(world);
    Ok(Left {
        seen,
        made,
        is_settled: is_settled?,
    })
}

/// Opens a heap and sets it running, with a thread for each mutator and for the collector, and stops it once they have ended.
pub fn race<R: Threads + Sync>(
    rt: &R,
    alloc: Global,
    config: Config,
    tasks: &[Task],
    limits: Limits,
) -> Result<(World, Seen), Fail>
    ensures { IfOk result (λ raced. AreIdle raced.0) }
{
    let signals = Signals::of(config.mutators);
    let world = World::open(alloc, config)?;
    if !world.at_rest() || !world.boxes_home() {
        drop(world);
        return Err(Fail::new("the world may not be started"));
    }
    let world = run(rt, alloc, world, tasks, limits, &signals)?;
    let seen = Seen {
        is_cut: signals.is_cut(),
        is_refused: signals.is_refused(),
        is_put_off: signals.is_put_off(),
    };
    Ok((world, seen))
}

/// A heap that was opened and set running.
pub fn start(
    rt: &impl Abort,
    alloc: Global,
    config: Config,
) -> Result<(Heap, Vec<Mutator>, Collector), Fail>
    ensures mutators { IfOk result (λ r. AreMutatorsOf r.0 r.1.items) }
    ensures collector { IfOk result (λ r. IsCollectorOf r.0 r.2) }
{
    let world = World::open(alloc, config)?;
    set_running(rt, alloc, world)
}

/// A heap that was set running, where its world is at rest with the mailboxes at home.
pub fn set_running(
    rt: &impl Abort,
    alloc: Global,
    world: World,
) -> Result<(Heap, Vec<Mutator>, Collector), Fail>
    ensures mutators { IfOk result (λ r. AreMutatorsOf r.0 r.1.items) }
    ensures collector { IfOk result (λ r. IsCollectorOf r.0 r.2) }
{
    assert!(rt;
        world.at_rest() && world.boxes_home(),
        "the world may not be started"
    );
    match Heap::start(alloc, world) {
        Ok(started) => Ok(started),
        Err((world, _)) => {
            drop(world);
            Err(Fail::new("no memory"))
        }
    }
}
