//! What each thread does on a running heap.

ghost use Rattle.std.specs.Prelude.{◌≡◌};
ghost use Rattle.rec_table.specs.Views.{IsCollectorOf, IsMutatorOf};

use crate::signals::Signals;
use rec_collector::Turn;
use rec_model::{Answer, Cmd};
use rec_table::{Collector, Heap, Mutator};
use std::thread::yield_now;

/// The commands of a mutator, how many times it goes through them, and what it does then.
#[derive(Debug, Drop)]
pub struct Task {
    pub commands: Vec<Cmd>,
    pub times: u32,
    pub end: End,
}

/// What a mutator does once it has gone through its commands.
#[derive(Clone, Copy, Debug)]
pub enum End {
    /// Nothing more.
    Stops,
    /// It asks to leave, until it has left.
    Leaves,
    /// It polls as long as others work, so that the collector gets on.
    Polls,
}

// How often a mutator asks to leave, or polls for the sake of others, at most.
const TRIES: u32 = 1_000_000_000;

/// When a collector ends, if its mutators don't end before.
#[derive(Clone, Copy, Debug)]
pub struct Limits {
    /// After so many turns.
    pub turns: u32,
    /// Once so many sets were freed.
    pub freed: u64,
}

/// Meets the others, and goes through the commands of a task, as many times as it says or until it is enough. Then comes its end.
pub fn mutate(heap: &Heap, mutator: &mut Mutator, task: &Task, signals: &Signals)
    requires { IsMutatorOf heap.now mutator.old }
    ensures { mutator.new ≡ record mutator.old { log = mutator.new.log } }
{
    signals.meet();
    for _ in 0..task.times {
        if signals.is_enough() {
            break;
        }
        go_through(heap, mutator, task.commands.as_slice(), signals);
    }
    if matches!(task.end, End::Leaves) {
        leave(heap, mutator, signals);
    }
    signals.end();
    if matches!(task.end, End::Polls) {
        poll_on(heap, mutator, signals);
    }
}

// Carries out the commands in order, with a poll after each that it stays after. Where one is refused, others get a chance to run.
fn go_through(heap: &Heap, mutator: &mut Mutator, commands: &[Cmd], signals: &Signals)
    requires { IsMutatorOf heap.now mutator.old }
    ensures { mutator.new ≡ record mutator.old { log = mutator.new.log } }
{
    for cmd in commands {
        if mutator.valid(cmd) {
            let told = mutator.command(heap, *cmd);
            note(told.answer, signals);
        }
        if !mutator.left() {
            mutator.poll(heap);
        }
    }
}

// Puts down that no slot was free, or that a mutator may not leave yet.
fn note(answer: Answer, signals: &Signals) {
    match answer {
        Answer::Full | Answer::Busy { .. } => signals.refuse(),
        Answer::NotYet => signals.put_off(),
        _ => return,
    }
    yield_now();
}

// Asks to leave until it has left.
fn leave(heap: &Heap, mutator: &mut Mutator, signals: &Signals)
    requires { IsMutatorOf heap.now mutator.old }
    ensures { mutator.new ≡ record mutator.old { log = mutator.new.log } }
{
    for _ in 0..TRIES {
        if mutator.left() {
            break;
        }
        go_through(heap, mutator, &[Cmd::Leave], signals);
    }
}

/// Polls until nobody works.
pub fn poll_on(heap: &Heap, mutator: &mut Mutator, signals: &Signals)
    requires { IsMutatorOf heap.now mutator.old }
    ensures { mutator.new ≡ record mutator.old { log = mutator.new.log } }
{
    for _ in 0..TRIES {
        if mutator.left() || signals.is_over() {
            break;
        }
        mutator.poll(heap);
        yield_now();
    }
}

/// Meets the mutators, and turns within these limits, as long as they work.
pub fn collect(
    heap: &Heap,
    mut collector: Collector,
    limits: Limits,
    signals: &Signals,
) -> Collector
    requires { IsCollectorOf heap.now collector }
    ensures { IsCollectorOf heap.now result }
{
    signals.meet();
    for _ in 0..limits.turns {
        if signals.is_over() {
            break;
        }
        if matches!(collector.turn(heap), Turn::Waiting { .. }) {
            yield_now();
        }
        if limits.freed <= collector.sets().freed {
            signals.call_enough();
            break;
        }
    }
    collector
}
