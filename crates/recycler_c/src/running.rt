//! A heap at rest is set running, and a running heap is stopped.
ghost use Rattle.std.specs.Prelude.{◌≡◌, ℕ, ◌+◌, ◌%◌, ◌<◌, ◌≤◌, All, IfOk, IfErr, IsSome, None, Some, [], length, map, slice_index_or, true};
ghost use Rattle.std.specs.Arc.{arc_value};
ghost use Rattle.rec_model.specs.declared.limits.TheConstants.{MOST_MUTATORS};
ghost use Rattle.rec_core.specs.Worked.{AreIdle};
ghost use Rattle.rec_table.specs.Ends.{IsStopped};
ghost use Rattle.rec_table.specs.Views.{AreMutatorsOf, MutatorView, IsCollectorOf, fresh, fresh_collector, collector_now};
ghost use Rattle.rec_world.specs.World.{IsWorld};
ghost use Rattle.recycler_c.specs.Calls.{AreGathered, IsFresh, IsOut, NotRun, Starts, Stops};
ghost use Rattle.recycler_c.specs.Standing.{AreTied, can_collect, held_at, seat_in};
ghost use Rattle.recycler_c.specs.declared.handle.Handle.{Handle as Handles};

use crate::code::Code;
use crate::end::{Collecting, End, Resting};
use crate::handle::{Handle, fill};
use crate::seating::{gather, hand_out};
use rec_table::{Collector, Heap, Mutator};
use rec_world::World;
use std::alloc::{AllocError as NoMemory, Global};
use std::sync::Arc;

/// Sets a heap at rest running, and gives each of its mutators into the handle with its number.
pub fn start(alloc: Global, collector: &mut Handle, mutators: &mut [Handle]) -> Code
    requires many { length mutators.old ≡ MOST_MUTATORS }
    requires collects { can_collect collector.old.owned.held ≡ true }
    requires tied { AreTied collector.old.owned.held mutators.old }

    ensures starts { Starts collector.old.owned.held mutators.old result collector.new.owned.held mutators.new }
    ensures collects { can_collect collector.new.owned.held ≡ true }
    ensures tied { AreTied collector.new.owned.held mutators.new }
{
    if !collector.full {
        return Code::Closed;
    }
    let mut whole = collector.take(alloc);
    let (end, code) = start_in(alloc, Box::replace(&mut whole, End::Vacant), mutators);
    fill(&mut whole, end);
    collector.put(whole);
    code
}

fn start_in(alloc: Global, end: End, mutators: &mut [Handle]) -> (End, Code)
    requires many { length mutators.old ≡ MOST_MUTATORS }
    requires collects { can_collect (Some end) ≡ true }
    requires tied { AreTied (Some end) mutators.old }

    ensures starts { Starts (Some end) mutators.old result.1 (Some result.0) mutators.new }
    ensures collects { can_collect (Some result.0) ≡ true }
    ensures tied { AreTied (Some result.0) mutators.new }
{
    match end {
        End::Resting(resting, teller) => match set_running(alloc, resting.into_world()) {
            Ok((running, heaps)) => {
                let running = send_out(alloc, running, heaps, mutators);
                (End::Collecting(running, teller), Code::Ok)
            }
            Err((refused, code)) => (refused.with_teller(teller), code),
        },
        other => (other, Code::Runs),
    }
}

// All mutators go out.
fn send_out(
    alloc: Global,
    mut running: Collecting,
    heaps: Vec<Arc<Heap>>,
    mutators: &mut [Handle],
) -> Collecting
    requires many { length mutators.old ≡ MOST_MUTATORS }
    requires all { length running.home.items ≡ running.count }
    requires heaps { (length heaps.items ≡ running.count) × All (λ heap. arc_value heap ≡ arc_value running.heap) heaps.items }
    requires open { (k : ℕ) (d : Handles) → k < running.count → IsSome (held_at mutators.old k d) }

    ensures heap { arc_value result.heap ≡ arc_value running.heap }
    ensures collector { result.collector ≡ running.collector }
    ensures home { result.home.items ≡ [] }
    ensures count { result.count ≡ running.count }
    ensures out { (k : ℕ) (d : Handles) (e : MutatorView) → k < running.count → IsOut (arc_value running.heap) (slice_index_or running.home.items k e) (held_at mutators.new k d) }
    ensures others { (k : ℕ) (d : Handles) → running.count ≤ k → held_at mutators.new k d ≡ held_at mutators.old k d }
{
    hand_out(alloc, mutators, &mut running.home, heaps);
    running
}

// The heap with all its mutators home, and a pointer to it for each of them.
fn set_running(alloc: Global, world: World) -> Result<(Collecting, Vec<Arc<Heap>>), (End, Code)>
    requires idle { AreIdle world }
    requires home { All (λ word. word % 2 ≡ 0) world.crossing }
    requires kept { IsWorld world }

    ensures fresh { IfOk result (λ r. IsFresh world r.0) }
    ensures count { IfOk result (λ r. length r.1.items ≡ r.0.count) }
    ensures heaps { IfOk result (λ r. All (λ other. arc_value other ≡ arc_value r.0.heap) r.1.items) }
    ensures refused { IfErr result (λ r. NotRun world r.1 r.0) }
{
    match Heap::start(alloc, world) {
        Ok((heap, home, collector)) => share(alloc, heap, home, collector),
        Err((world, _)) => Err((End::Resting(Resting::of(world), None), Code::NoMemory)),
    }
}

fn share(
    alloc: Global,
    heap: Heap,
    home: Vec<Mutator>,
    collector: Collector,
) -> Result<(Collecting, Vec<Arc<Heap>>), (End, Code)>
    requires mutators { AreMutatorsOf heap home.items }
    requires fresh { (k : ℕ) (e : MutatorView) → k < length home.items → slice_index_or home.items k e ≡ fresh heap (k + 1) }
    requires collector { IsCollectorOf heap collector × (collector ≡ fresh_collector heap) }
    requires home { All (λ word. word % 2 ≡ 0) heap.world.crossing }
    requires kept { IsWorld heap.world }

    ensures fresh { IfOk result (λ r. IsFresh heap.world r.0) }
    ensures count { IfOk result (λ r. length r.1.items ≡ r.0.count) }
    ensures heaps { IfOk result (λ r. All (λ other. arc_value other ≡ arc_value r.0.heap) r.1.items) }
    ensures refused { IfErr result (λ r. NotRun heap.world r.1 r.0) }
{
    let count = home.len();
    match Arc::new(alloc, heap) {
        Ok(heap) => {
            let heaps = copies(alloc, &heap, count);
            let running = Collecting {
                heap,
                collector,
                home,
                count,
            };
            match heaps {
                Ok(heaps) => Ok((running, heaps)),
                Err(_) => Err(stay(alloc, running)),
            }
        }
        Err(refused) => {
            let resting = rest(alloc, refused.value, home, collector);
            Err((End::Resting(resting, None), Code::NoMemory))
        }
    }
}

// So many pointers to it.
fn copies(alloc: Global, heap: &Arc<Heap>, count: usize) -> Result<Vec<Arc<Heap>>, NoMemory>
    ensures count { IfOk result (λ heaps. length heaps.items ≡ count) }
    ensures heaps { IfOk result (λ heaps. All (λ other. arc_value other ≡ arc_value heap.now) heaps.items) }
{
    let mut heaps = Vec::with_capacity(alloc, count)?;
    while heaps.len() < count {
        heaps.push_reserved(Arc::try_clone(heap)?);
    }
    Ok(heaps)
}

// A heap that can't be set running after all rests again.
fn stay(alloc: Global, running: Collecting) -> (End, Code)
    requires fresh { IsFresh (arc_value running.heap).world running }
    requires home { All (λ word. word % 2 ≡ 0) (arc_value running.heap).world.crossing }
    requires kept { IsWorld (arc_value running.heap).world }
    ensures { NotRun (arc_value running.heap).world result.1 result.0 }
{
    match unshare(alloc, running) {
        Ok(resting) => (End::Resting(resting, None), Code::NoMemory),
        Err(running) => (End::Collecting(running, None), Code::Shared),
    }
}

/// Stops a running heap: its mutators come home, and it rests.
pub fn stop(alloc: Global, collector: &mut Handle, mutators: &mut [Handle]) -> Code
    requires many { length mutators.old ≡ MOST_MUTATORS }
    requires collects { can_collect collector.old.owned.held ≡ true }
    requires tied { AreTied collector.old.owned.held mutators.old }

    ensures stops { Stops collector.old.owned.held mutators.old result collector.new.owned.held mutators.new }
    ensures collects { can_collect collector.new.owned.held ≡ true }
    ensures tied { AreTied collector.new.owned.held mutators.new }
{
    if !collector.full {
        return Code::Closed;
    }
    let mut whole = collector.take(alloc);
    let (end, code) = stop_in(alloc, Box::replace(&mut whole, End::Vacant), mutators);
    fill(&mut whole, end);
    collector.put(whole);
    code
}

fn stop_in(alloc: Global, end: End, mutators: &mut [Handle]) -> (End, Code)
    requires many { length mutators.old ≡ MOST_MUTATORS }
    requires collects { can_collect (Some end) ≡ true }
    requires tied { AreTied (Some end) mutators.old }

    ensures stops { Stops (Some end) mutators.old result.1 (Some result.0) mutators.new }
    ensures collects { can_collect (Some result.0) ≡ true }
    ensures tied { AreTied (Some result.0) mutators.new }
{
    match end {
        End::Collecting(running, teller) => {
            match unshare(alloc, call_home(alloc, running, mutators)) {
                Ok(resting) => (End::Resting(resting, teller), Code::Ok),
                Err(running) => (End::Collecting(running, teller), Code::Shared),
            }
        }
        other => (other, Code::Rests),
    }
}

// The mutators that are out come home.
fn call_home(alloc: Global, mut running: Collecting, mutators: &mut [Handle]) -> Collecting
    requires many { length mutators.old ≡ MOST_MUTATORS }
    requires tied { AreTied (Some (End.Collecting running None)) mutators.old }

    ensures heap { arc_value result.heap ≡ arc_value running.heap }
    ensures collector { result.collector ≡ running.collector }
    ensures count { result.count ≡ running.count }
    ensures gathered { AreGathered running mutators.old result.home.items }
    ensures low { (k : ℕ) (d : Handles) → k < running.count → seat_in (held_at mutators.new k d) ≡ Some None }
    ensures high { (k : ℕ) (d : Handles) → running.count ≤ k → k < MOST_MUTATORS → seat_in (held_at mutators.new k d) ≡ None }
{
    if !running.home.is_empty() {
        return running;
    }
    let count = running.count;
    gather(alloc, mutators, &mut running.home, count);
    running
}

// Stops a heap whose mutators are all home, where nothing else holds it.
fn unshare(alloc: Global, running: Collecting) -> Result<Resting, Collecting>
    requires { length running.home.items ≡ running.count }

    ensures stopped { IfOk result (λ world. IsStopped (arc_value running.heap).world running.collector.collecting.log (map (λ m. m.log) running.home.items) world) }
    ensures requested { IfOk result (λ world. world.epoch ≡ (collector_now running.collector).epoch) }
    ensures home { IfOk result (λ world. All (λ word. word % 2 ≡ 0) world.crossing) }
    ensures shared { IfErr result (λ other. (arc_value other.heap ≡ arc_value running.heap) × (other.collector ≡ running.collector) × (other.home.items ≡ running.home.items)) }
{
    let Collecting {
        heap,
        collector,
        home,
        count,
    } = running;
    match Arc::try_unwrap(heap) {
        Ok(heap) => Ok(rest(alloc, heap, home, collector)),
        Err(heap) => Err(Collecting {
            heap,
            collector,
            home,
            count,
        }),
    }
}

// Takes all ends of a heap back.
fn rest(alloc: Global, heap: Heap, home: Vec<Mutator>, collector: Collector) -> Resting
    requires mutators { AreMutatorsOf heap home.items }
    requires collector { IsCollectorOf heap collector }

    ensures stopped { IsStopped heap.world collector.collecting.log (map (λ m. m.log) home.items) result }
    ensures requested { result.epoch ≡ (collector_now collector).epoch }
    ensures home { All (λ word. word % 2 ≡ 0) result.crossing }
{
    match heap.stop(alloc, home, collector) {
        Ok(world) => Resting::of(world),
        Err(_) => unreachable!(),
    }
}
