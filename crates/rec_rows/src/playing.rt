//! Rows that are carried out.

use crate::action::{Action, Piece};
use crate::fact::shown;
use crate::failure::{Failure, check};
use crate::imaging::{read_back, restored, written};
use crate::mutating::done;
use crate::reading::{Opening, Row, Step};
use crate::running::run;
use crate::settled::settled;
use crate::told::{message, number, refusal};
use crate::traced::traced;
use crate::turning::turns;
use rec_world::{Parts, World};
use std::alloc::{AllocError as NoMemory, Global};
use std::thread::Threads;

/// Carries out a row.
pub fn play<R: Threads + Sync>(rt: &R, alloc: Global, row: &Row<'_>) -> Result<(), Failure> {
    if row.opening.is_cut {
        return play_cut(rt, alloc, row);
    }
    match open(alloc, &row.opening)? {
        Some(world) => play_on(rt, alloc, world, &row.steps),
        None => Ok(()),
    }
}

// Makes the steps of a row. Every second stretch is of the heap as it runs.
fn play_on<R: Threads + Sync>(
    rt: &R,
    alloc: Global,
    mut world: World,
    steps: &[Step<'_>],
) -> Result<(), Failure> {
    let stretches = steps.split(|step| matches!(step.action, Action::TurnOver));
    for (number, steps) in stretches.enumerate() {
        let went;
        (world, went) = if number % 2 == 0 {
            go_on(rt, alloc, world, steps)
        } else {
            run(alloc, world, steps)
        };
        if let Err(failure) = went {
            drop(world);
            return Err(failure);
        }
    }
    drop(world);
    Ok(())
}

// Carries out a row once for each place at which its heap can be taken apart and put together again.
fn play_cut<R: Threads + Sync>(rt: &R, alloc: Global, row: &Row<'_>) -> Result<(), Failure> {
    for cut in 0..=row.steps.len() {
        if let Some(world) = open(alloc, &row.opening)? {
            let (before, after) = row.steps.split_at(cut);
            play_apart(rt, alloc, world, before, after)?;
        }
    }
    Ok(())
}

// Takes the heap apart and puts it together again between these steps and those.
fn play_apart<R: Threads + Sync>(
    rt: &R,
    alloc: Global,
    world: World,
    before: &[Step<'_>],
    after: &[Step<'_>],
) -> Result<(), Failure> {
    let (world, went) = match go_on(rt, alloc, world, before) {
        (world, Ok(())) => go_on(rt, alloc, World::of_parts(world.into_parts()), after),
        failed => failed,
    };
    drop(world);
    went
}

// The heap of a row, or nothing where it is refused as it should be.
fn open(alloc: Global, opening: &Opening<'_>) -> Result<Option<World>, Failure> {
    match World::open(alloc, opening.config) {
        Ok(world) => opened(alloc, opening, world),
        Err(error) => {
            check_opening(alloc, opening, refusal(alloc, &error))?;
            Ok(None)
        }
    }
}

// A heap of which nothing is to be told. Where something is, the heap ends here by name: that is one step, and not one a part of it.
fn opened(alloc: Global, opening: &Opening<'_>, world: World) -> Result<Option<World>, Failure> {
    match check_opening(alloc, opening, Ok(String::new(alloc))) {
        Ok(()) => Ok(Some(world)),
        Err(failure) => {
            drop(world);
            Err(failure)
        }
    }
}

// What is told of the heap has to be what the row says.
fn check_opening(
    alloc: Global,
    opening: &Opening<'_>,
    told: Result<String, NoMemory>,
) -> Result<(), Failure> {
    check(alloc, opening.line, opening.told, told?)
}

// Makes these steps of a heap that doesn't run, up to one of which something else is told. The heap is given back then too: so it is
// let go in one place alone.
fn go_on<R: Threads + Sync>(
    rt: &R,
    alloc: Global,
    mut world: World,
    steps: &[Step<'_>],
) -> (World, Result<(), Failure>) {
    for step in steps {
        let told;
        (world, told) = make(rt, alloc, world, step);
        if let Err(failure) = check_told(alloc, step, told) {
            return (world, Err(failure));
        }
    }
    (world, Ok(()))
}

// What is told has to be what the step says.
fn check_told(
    alloc: Global,
    step: &Step<'_>,
    told: Result<String, NoMemory>,
) -> Result<(), Failure> {
    check(alloc, step.line, step.told, told?)
}

// Makes a step, and tells what comes of it.
fn make<R: Threads + Sync>(
    rt: &R,
    alloc: Global,
    mut world: World,
    step: &Step<'_>,
) -> (World, Result<String, NoMemory>) {
    if let Action::Apart(piece) = step.action {
        return take_apart(alloc, world, piece);
    }
    if let Action::Restore = step.action {
        return restored(alloc, world, step.asked);
    }
    let told = happen(rt, alloc, &mut world, step);
    (world, told)
}

// Takes a heap apart, and puts it together again. What is told is a number of it between the two.
fn take_apart(alloc: Global, world: World, piece: Piece) -> (World, Result<String, NoMemory>) {
    let parts = world.into_parts();
    let told = number(alloc, piece_of(&parts, piece), "not there");
    (World::of_parts(parts), told)
}

// The same, of a step for which the heap isn't taken apart.
fn happen<R: Threads + Sync>(
    rt: &R,
    alloc: Global,
    world: &mut World,
    step: &Step<'_>,
) -> Result<String, NoMemory> {
    match step.action {
        Action::Mutator { mutator, deed } => done(alloc, world, mutator, deed),
        Action::Collector(asked) => turns(alloc, world, asked),
        Action::Settle { live } => settled(alloc, world, live),
        Action::Trace(pieces) => traced(rt, alloc, world, pieces),
        Action::Write => written(alloc, world),
        Action::Read => read_back(alloc, step.asked),
        Action::Show(fact) => shown(alloc, world, fact),
        Action::Say(asked) => message(alloc, asked),
        Action::Offer => {
            world.offer_all();
            Ok(String::new(alloc))
        }
        // None of these comes here.
        Action::Apart(_) | Action::Restore | Action::TurnOver => Ok(String::new(alloc)),
    }
}

// A number of a heap that is taken apart.
fn piece_of(parts: &Parts, piece: Piece) -> Option<u64> {
    match piece {
        Piece::Word(index) => parts.row.get(index as usize).copied(),
        Piece::Words => Some(parts.row.len() as u64),
        Piece::Mailboxes => Some(parts.boxes.len() as u64),
        Piece::Made => Some(parts.made),
    }
}
