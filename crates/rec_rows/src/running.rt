//! A running heap that one thread carries on.

ghost use Rattle.std.specs.Prelude.{◌≡◌, ◌%◌, All};
ghost use Rattle.rec_core.specs.Worked.{AreIdle};
ghost use Rattle.rec_table.specs.Views.{AreMutatorsOf, IsCollectorOf};

use crate::action::{Action, Deed, Turns};
use crate::failure::{Failure, check};
use crate::mutating::{asked, polled};
use crate::reading::Step;
use crate::told::turn;
use rec_model::{Cmd, Told};
use rec_table::{Collector, Heap, Mutator};
use rec_world::World;
use std::alloc::{AllocError as NoMemory, Global};

/// Sets a world running, makes these steps, and stops it. The world is given back where a step went otherwise too.
pub fn run(alloc: Global, world: World, steps: &[Step<'_>]) -> (World, Result<(), Failure>) {
    if world.at_rest() && world.boxes_home() {
        run_at_rest(alloc, world, steps)
    } else {
        (world, Err(refusal(alloc, first_line(steps))))
    }
}

// What a world comes to that may not run.
fn refusal(alloc: Global, line: u32) -> Failure {
    let wanted = String::new(alloc);
    match String::from_str(alloc, "the heap may not run") {
        Ok(told) => Failure::Otherwise { line, told, wanted },
        Err(error) => error.into(),
    }
}

fn first_line(steps: &[Step<'_>]) -> u32 {
    match steps {
        [] => 0,
        [first, ..] => first.line,
    }
}

// The same, of a world that may run.
fn run_at_rest(alloc: Global, world: World, steps: &[Step<'_>]) -> (World, Result<(), Failure>)
    requires idle { AreIdle world }
    requires home { All (λ word. word % 2 ≡ 0) world.crossing }
{
    match Heap::start(alloc, world) {
        Ok((heap, mutators, collector)) => run_on(alloc, heap, mutators, collector, steps),
        Err((world, error)) => (world, Err(error.into())),
    }
}

// The same, of a heap that was started.
fn run_on(
    alloc: Global,
    heap: Heap,
    mut mutators: Vec<Mutator>,
    mut collector: Collector,
    steps: &[Step<'_>],
) -> (World, Result<(), Failure>)
    requires mutators { AreMutatorsOf heap mutators.items }
    requires collector { IsCollectorOf heap collector }
{
    let went = go_on(alloc, &heap, &mut mutators, &mut collector, steps);
    match heap.stop(alloc, mutators, collector) {
        Ok(world) => (world, went),
        Err(_) => unreachable!(),
    }
}

// Makes these steps, up to one of which something else is told.
fn go_on(
    alloc: Global,
    heap: &Heap,
    mutators: &mut Vec<Mutator>,
    collector: &mut Collector,
    steps: &[Step<'_>],
) -> Result<(), Failure>
    requires mutators { AreMutatorsOf heap.now mutators.old.items }
    requires collector { IsCollectorOf heap.now collector.old }
    ensures mutators { AreMutatorsOf heap.now mutators.new.items }
    ensures collector { IsCollectorOf heap.now collector.new }
{
    'steps: for step in steps {
        let told = happen(alloc, heap, mutators, collector, step.action)?;
        check(alloc, step.line, step.told, told)?;
    }
    Ok(())
}

// What is told of a step.
fn happen(
    alloc: Global,
    heap: &Heap,
    mutators: &mut Vec<Mutator>,
    collector: &mut Collector,
    action: Action,
) -> Result<String, NoMemory>
    requires mutators { AreMutatorsOf heap.now mutators.old.items }
    requires collector { IsCollectorOf heap.now collector.old }
    ensures mutators { AreMutatorsOf heap.now mutators.new.items }
    ensures collector { IsCollectorOf heap.now collector.new }
{
    match action {
        Action::Mutator {
            mutator,
            deed: Deed::Ask { cmd, words },
        } => asked(alloc, ask(heap, mutators, mutator, cmd), words),
        Action::Mutator {
            mutator,
            deed: Deed::Poll,
        } => polled(alloc, poll(heap, mutators, mutator)),
        Action::Collector(Turns::One) => turn(alloc, collector.turn(heap)),
        _ => String::from_str(alloc, "a running heap isn't asked this"),
    }
}

// What mutator `t` is told, where there is one that may ask this. One that has left may ask nothing.
fn ask(heap: &Heap, mutators: &mut Vec<Mutator>, t: u8, cmd: Cmd) -> Option<Told>
    requires { AreMutatorsOf heap.now mutators.old.items }
    ensures { AreMutatorsOf heap.now mutators.new.items }
{
    let t = usize::from(t);
    if t < 1 || mutators.len() < t {
        return None;
    }
    let mutator = &mut mutators[t - 1];
    if !mutator.valid(&cmd) {
        return None;
    }
    Some(mutator.command(heap, cmd))
}

// What a poll of mutator `t` answers, where there is one that hasn't left.
fn poll(heap: &Heap, mutators: &mut Vec<Mutator>, t: u8) -> Option<Option<u32>>
    requires { AreMutatorsOf heap.now mutators.old.items }
    ensures { AreMutatorsOf heap.now mutators.new.items }
{
    let t = usize::from(t);
    if t < 1 || mutators.len() < t {
        return None;
    }
    let mutator = &mut mutators[t - 1];
    if mutator.left() {
        return None;
    }
    Some(mutator.poll(heap))
}
