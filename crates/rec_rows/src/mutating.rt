//! What the mutators of a heap do. What a call requires is asked before it.

ghost use Rattle.std.specs.Prelude.{◌≡◌, IsTrue, false};
ghost use Rattle.rec_mutator.specs.Private.{is_busy};
ghost use Rattle.rec_core.specs.Config.{IsMutator};
ghost use Rattle.rec_core.specs.Core.{mutator};

use crate::action::Deed;
use crate::fact::is_there;
use crate::told::{answer, crossing, made, told};
use rec_model::{Answer, Cmd, Told};
use rec_mutator::{Made, Work};
use rec_world::World;
use std::alloc::{AllocError as NoMemory, Global};

// What is told where a mutator isn't there, or where it may not do this now.
const REFUSED: &str = "it may not";

/// What is told of a deed of mutator `t`.
pub fn done(alloc: Global, world: &mut World, t: u8, deed: Deed) -> Result<String, NoMemory> {
    match deed {
        Deed::Ask { cmd, words } => asked(alloc, ask(world, t, cmd), words),
        Deed::Poll => polled(alloc, poll(world, t)),
        Deed::Step => match step(world, t) {
            Some(outcome) => made(alloc, outcome),
            None => String::from_str(alloc, REFUSED),
        },
        Deed::Begin(work) if begin(world, t, work) => Ok(String::new(alloc)),
        Deed::Begin(_) => String::from_str(alloc, REFUSED),
        Deed::Births(most) => {
            let births = births(world, t, most);
            format!(in alloc; "{births}")
        }
    }
}

/// What is told of a command, with or without its words.
pub fn asked(alloc: Global, outcome: Option<Told>, words: bool) -> Result<String, NoMemory> {
    match outcome {
        Some(outcome) if words => told(alloc, outcome),
        Some(outcome) => answer(alloc, outcome.answer),
        None => String::from_str(alloc, REFUSED),
    }
}

/// What is told of a poll.
pub fn polled(alloc: Global, outcome: Option<Option<u32>>) -> Result<String, NoMemory> {
    match outcome {
        Some(epoch) => crossing(alloc, epoch),
        None => String::from_str(alloc, REFUSED),
    }
}

// Whether this mutator is there, hasn't left, and is asked nothing at the moment.
fn is_idle(world: &World, t: u8) -> bool
    ensures mutator { IsTrue result → IsMutator world.now.config t }
    ensures present { IsTrue result → (mutator world.now t).left ≡ false }
    ensures idle { IsTrue result → is_busy (mutator world.now t) ≡ false }
{
    is_there(world, t) && !world.left(t) && !world.busy(t)
}

// What a mutator is told, of a command that it may ask.
fn ask(world: &mut World, t: u8, cmd: Cmd) -> Option<Told> {
    if !is_idle(world, t) || !world.valid(t, &cmd) {
        return None;
    }
    Some(world.command(t, cmd))
}

// Begins a work that may be begun, and answers whether it may be.
fn begin(world: &mut World, t: u8, work: Work) -> bool {
    if !is_idle(world, t) {
        return false;
    }
    if let Work::Command(cmd) = work {
        if !world.valid(t, &cmd) {
            return false;
        }
    }
    world.begin(t, work);
    true
}

// A step of a mutator that works.
fn step(world: &mut World, t: u8) -> Option<Option<Made>> {
    if !is_there(world, t) || !world.busy(t) {
        return None;
    }
    Some(world.step(t))
}

/// A poll of a mutator that is idle.
pub fn poll(world: &mut World, t: u8) -> Option<Option<u32>> {
    if !is_idle(world, t) {
        return None;
    }
    Some(world.poll(t))
}

// How many births into register 1 are done before one isn't, with labels from 1 and so many at most.
fn births(world: &mut World, t: u8, most: u32) -> u32 {
    for label in 1..=most {
        let birth = Cmd::New { reg: 1, label };
        match ask(world, t, birth) {
            Some(told) if told.answer == Answer::Done => {}
            _ => return label - 1,
        }
    }
    most
}
