//! A move as text: in a line, between headings for what begins with it. The text is a function of the move's number, of the move, and
//! of what was seen before and behind it (`specs/Told`).

ghost use Rattle.std.specs.Prelude.{◌≡◌, ◌++◌, string_bytes, IfOk, OnOk};
ghost use Rattle.recycler_watch.specs.Seen.{collector_seen, seen};
ghost use Rattle.recycler_watch.specs.Told.{actor_words, headings, move_text, phase_line, placed};

use crate::state::{Collector, State};
use crate::words::add_sentence;
use rec_play::Move;
use std::alloc::{AllocError as NoMemory, Global};
use std::fmt::Write;

/// The move with this number in a line, with its headings.
pub fn move_text(
    alloc: Global,
    number: u64,
    made: Move,
    was: &State,
    is: &State,
) -> Result<String, NoMemory>
    ensures { IfOk result (λ text. string_bytes text ≡ move_text number made (seen was.now) (seen is.now)) }
{
    let mut text = String::new(alloc);
    add_move(&mut text, alloc, number, made, was, is)?;
    Ok(text)
}

// The move with its headings, behind a text.
fn add_move(
    text: &mut String,
    alloc: Global,
    number: u64,
    made: Move,
    was: &State,
    is: &State,
) -> Result<(), NoMemory>
    ensures { OnOk result (string_bytes text.new ≡ string_bytes text.old ++ move_text number made (seen was.now) (seen is.now)) }
{
    add_headings(text, &was.collector, &is.collector)?;
    add_number(text, number)?;
    add_actor(text, made)?;
    add_sentence(text, alloc, made, was, is)?;
    text.push_str("\n")?;
    add_phase(text, was.collector.phase, is.collector.phase)
}

// Headings for what begins with a move.
fn add_headings(text: &mut String, was: &Collector, is: &Collector) -> Result<(), NoMemory>
    ensures { OnOk result (string_bytes text.new ≡ string_bytes text.old ++ headings (collector_seen was.now) (collector_seen is.now)) }
{
    if is.settles && !was.settles {
        text.push_str("== the commands are made, the heap settles\n")?;
    }
    if is.epoch != was.epoch {
        write!(text, "== epoch {}\n", is.epoch)?;
    }
    Ok(())
}

// A number in five places, or as many more as it takes.
fn add_number(text: &mut String, number: u64) -> Result<(), NoMemory>
    ensures { OnOk result (string_bytes text.new ≡ string_bytes text.old ++ placed number) }
{
    write!(text, "{number:>5}")
}

// Who made the move.
fn add_actor(text: &mut String, made: Move) -> Result<(), NoMemory>
    ensures { OnOk result (string_bytes text.new ≡ string_bytes text.old ++ actor_words made) }
{
    match made {
        Move::Command { mutator, .. } => write!(text, " mutator {mutator}  "),
        Move::Step { .. } => text.push_str(" collector  "),
    }
}

// A heading behind the move that led to another phase.
fn add_phase(text: &mut String, was: &str, is: &str) -> Result<(), NoMemory>
    ensures { OnOk result (string_bytes text.new ≡ string_bytes text.old ++ phase_line was.now is.now) }
{
    if was == is || is == "rest" {
        return Ok(());
    }
    write!(text, "-- {is}\n")
}
