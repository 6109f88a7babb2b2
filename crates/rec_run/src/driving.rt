//! A script is driven: each mutator's commands are carried out on a thread of its own, with the collector beside them.
ghost use Rattle.std.specs.Prelude.{◌≡◌, ◌+◌, ◌≤◌, None, map, IfOk};
ghost use Rattle.rec_model.specs.declared.limits.TheConstants.{MOST_TURNS};
ghost use Rattle.rec_core.specs.Worked.{AreIdle};
ghost use Rattle.rec_table.specs.Ends.{IsStopped};
ghost use Rattle.rec_threads.specs.Done.{HasCollected, HaveDone, IsCrewFor};
ghost use Rattle.rec_table.specs.Views.{AreMutatorsOf, IsCollectorOf, collector_now};
ghost use Rattle.rec_play.specs.Start.{opening_of};
ghost use Rattle.rec_run.specs.Outcome.{IsOutcome};
ghost use Rattle.rec_run.specs.Running.{IsSetRunning, IsStarted};
ghost use Rattle.rec_request.specs.declared.request.How.TheVariants as hows;

use crate::answer::open_world;
use crate::outcome::Outcome;
use rec_play::journals_for;
use rec_script::Script;
use rec_table::{Collector, Heap, Mutator};
use rec_threads::{Crew, Gate, drive};
use std::alloc::{AllocError as NoMemory, Global};
use std::sync::Wait;
use std::thread::Threads;

/// Carries out a script's commands on threads: one for each mutator, and one for the collector.
pub fn drive_script<R: Threads + Wait + Sync, G: Gate>(
    rt: &R,
    alloc: Global,
    script: &Script,
    gate: &G,
) -> Result<Outcome, NoMemory>
    ensures outcome { IfOk result (IsOutcome script.now (opening_of script.now) hows.Threads) }

    // Each turn requests one epoch more at most.
    ensures epochs { IfOk result (λ outcome. outcome.world.epoch ≤ MOST_TURNS + 1) }
{
    let (heap, crew) = set_running(alloc, script)?;
    let crew = drive_crew(rt, alloc, &heap, crew, script, gate)?;
    Ok(stop(alloc, heap, crew))
}

// The crew behind the script's commands.
fn drive_crew<R: Threads + Wait + Sync, G: Gate>(
    rt: &R,
    alloc: Global,
    heap: &Heap,
    crew: Crew,
    script: &Script,
    gate: &G,
) -> Result<Crew, NoMemory>
    requires { IsCrewFor heap.now script.now crew }
    ensures done { IfOk result (λ after. HaveDone script.now.commands crew.mutators.items crew.journals.items after.mutators.items after.journals.items) }
    ensures mutators { IfOk result (λ after. AreMutatorsOf heap.now after.mutators.items) }
    ensures collector { IfOk result (λ after. IsCollectorOf heap.now after.collector) }
    ensures collected { IfOk result (λ after. HasCollected MOST_TURNS crew.collector after.collector) }
{
    drive(rt, alloc, heap, crew, script, gate).or(Err(NoMemory))
}

// What a heap and its crew leave when the heap is stopped, which is never refused.
fn stop(alloc: Global, heap: Heap, crew: Crew) -> Outcome
    requires mutators { AreMutatorsOf heap crew.mutators.items }
    requires collector { IsCollectorOf heap crew.collector }
    ensures stopped { IsStopped heap.world crew.collector.collecting.log (map (λ m. m.log) crew.mutators.items) result.world }
    ensures requested { result.world.epoch ≡ (collector_now crew.collector).epoch }
    ensures idle { AreIdle result.world }
    ensures journals { result.journals.items ≡ crew.journals.items }
    ensures order { result.order ≡ None }
{
    let Crew {
        mutators,
        collector,
        journals,
    } = crew;
    let Some(world) = heap.stop(alloc, mutators, collector).ok() else {
        unreachable!();
    };
    Outcome {
        world,
        journals,
        order: None,
    }
}

// A script's heap, set running, and those who carry it on.
fn set_running(alloc: Global, script: &Script) -> Result<(Heap, Crew), NoMemory>
    ensures running { IfOk result (λ r. IsSetRunning script.now r.0 r.1) }
{
    let journals = journals_for(alloc, script)?;
    let (heap, mutators, collector) = start(alloc, script)?;
    let crew = Crew {
        mutators,
        collector,
        journals,
    };
    Ok((heap, crew))
}

// A script's heap, started, with its mutators and its collector.
fn start(alloc: Global, script: &Script) -> Result<(Heap, Vec<Mutator>, Collector), NoMemory>
    ensures started { IfOk result (λ r. IsStarted script.now r.0 r.1.items r.2) }
{
    let world = open_world(alloc, script)?;
    Heap::start(alloc, world).or(Err(NoMemory))
}
