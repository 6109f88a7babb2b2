//! Callers of the library, to be read, and races of a running heap's threads, where no clause says what comes.
//!
//! The program carries out the callers. They open a heap, drive it, set it running on threads, and settle it:
//! - `cycle` drives a world by one thread, and watches the counts of a garbage cycle turn by turn. `docs/ONE-CYCLE.md` tells its turns.
//! - `threads` lets the mutators of a running heap go through their tasks (`crew`) while its collector turns, on a thread each. That this
//!   is one run of the core is a clause of `threads::run`, which passes on what stopping promises. `main` settles what they leave.
//! - `finalizer` is told of each freed object, and drops what that owned outside the heap.
//!
//! The races are tests of `threads`, a thousand times over, but those of `told` three hundred times, and those of `leaving` forty:
//! - `births`: two mutators make an object each at once, and take two slots.
//! - `mixed`: two and four mutators carry out commands of all kinds over shared fields, each its own, beside the collector.
//! - `leaving`: up to 63 mutators make rings and leave, each its own, beside the collector.
//! - `rings`: two mutators make rings and drop them, while the collector frees them and their slots are claimed again.
//! - `told`: four mutators make objects and drop them, and a listener hears the label of each that is freed, as often.
//!
//! No clause says which answers come on threads, or that a thread gets on. So the races look at what is left afterwards: the world
//! that `stop` gives settles, to just the slots that registers reach, with counts that a test sums anew. Every loop ends by a count,
//! and every thread is joined.
//!
//! Beside the races:
//! - `notices`: a row of telling turns, over a tube in memory and over a ring; the ring's listener also on a thread of its own.
//!
//! Nothing stands on this crate.
#![tactic(auto)]

#[cfg(test)]
mod births;
mod crew;
mod cycle;
mod finalizer;
#[cfg(test)]
mod leaving;
#[cfg(test)]
mod mixed;
#[cfg(test)]
mod notices;
#[cfg(test)]
mod race;
mod ring;
#[cfg(test)]
mod rings;
#[cfg(test)]
mod settled;
mod signals;
mod threads;
#[cfg(test)]
mod told;

ghost use Rattle.std.specs.Prelude.{◌≡◌, ◌%◌, All};
ghost use Rattle.rec_core.specs.Worked.{AreIdle};
ghost use Rattle.rec_races.specs.Ready.{IsReady};

use crew::{Limits, Task};
use rec_settle::settle;
use rec_world::World;
use signals::Signals;
use std::alloc::Global;
use std::thread::Threads;

// More turns than three collections of a small heap take. A collector that waits for a mutator spends turns too.
const LIMITS: Limits = Limits {
    turns: 1000,
    freed: u64::MAX,
};

fn main(rt: HostRuntime) -> anyhow::Result<()> {
    let alloc: Global = rt.alloc();
    on_one_thread(&rt, alloc)?;
    let (born, live) = on_three_threads(&rt, alloc)?;
    println!(rt; "on three threads: born {born}, live {live}")?;
    with_payloads(&rt, alloc)
}

// A world that one thread drives, watched turn by turn.
fn on_one_thread(out: &impl Print, alloc: Global) -> anyhow::Result<()> {
    match cycle::open(alloc) {
        Ok(mut world) => {
            let watched = make_and_watch(out, &mut world);
            drop(world);
            watched
        }
        Err(error) => Err(error.into()),
    }
}

fn make_and_watch(out: &impl Print, world: &mut World) -> anyhow::Result<()>
    requires { IsReady world.old }
{
    ring::make(world);
    cycle::watch(out, world)?;
    Ok(())
}

// A running heap whose objects own payloads outside of it.
fn with_payloads(out: &impl Print, alloc: Global) -> anyhow::Result<()> {
    match finalizer::open(alloc) {
        Ok(world) => finalizer::run(out, alloc, world),
        Err(error) => Err(error.into()),
    }
}

// A running heap, settled once its threads have ended: how many objects were born, and how many live.
fn on_three_threads<R: Threads + Sync>(rt: &R, alloc: Global) -> anyhow::Result<(u64, u32)> {
    let tasks = [ring::once(alloc)?, ring::once(alloc)?];
    match cycle::open_for_two(alloc) {
        Ok(world) => run_and_settle(rt, alloc, world, &tasks),
        Err(error) => Err(error.into()),
    }
}

fn run_and_settle<R: Threads + Sync>(
    rt: &R,
    alloc: Global,
    world: World,
    tasks: &[Task],
) -> anyhow::Result<(u64, u32)>
    requires idle { AreIdle world }
    requires home { All (λ word. word % 2 ≡ 0) world.crossing }
{
    let signals = Signals::of(world.mutators().into());
    match threads::run(rt, alloc, world, tasks, LIMITS, &signals) {
        Ok(mut stopped) => {
            let counted = born_and_live(&mut stopped);
            drop(stopped);
            counted
        }
        Err(error) => Err(error.into()),
    }
}

fn born_and_live(world: &mut World) -> anyhow::Result<(u64, u32)>
    requires { AreIdle world.old }
{
    let settled = settle(world)?;
    Ok((world.made(), settled.live))
}
