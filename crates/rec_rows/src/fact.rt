//! What a heap shows.

ghost use Rattle.std.specs.Prelude.{◌≡◌, ◌<◌, IsTrue};
ghost use Rattle.rec_core.specs.Config.{IsMutator};
ghost use Rattle.rec_world.specs.World.{IsWorld};

use crate::action::{Fact, Whole};
use crate::told::{listed, number, yes};
use rec_counts::Colour;
use rec_world::{Numbering, World};
use std::alloc::{AllocError as NoMemory, Global};

// What is told of a slot, a field, a register or a mutator that isn't there.
const ABSENT: &str = "not there";

/// What the heap shows of this.
pub fn shown(alloc: Global, world: &World, fact: Fact) -> Result<String, NoMemory> {
    match fact {
        Fact::Slot(at) => slot(alloc, world, at),
        Fact::Label(at) => label(alloc, world, at),
        Fact::Leaf(at) => leaf(alloc, world, at),
        Fact::Number(at) => number_of(alloc, world, at),
        Fact::Colour(at) => colour(alloc, world, at),
        Fact::Field(place) => field(alloc, world, place),
        Fact::Register(t, r) => register(alloc, world, t, r),
        Fact::Valid(t, cmd) => yes(alloc, world.valid(t, &cmd)),
        Fact::Busy(t) => busy(alloc, world, t),
        Fact::Left(t) => left(alloc, world, t),
        Fact::EpochOf(t) => epoch_of(alloc, world, t),
        Fact::Sets => sets(alloc, world),
        Fact::Roots => roots(alloc, world),
        Fact::Mailboxes => mailboxes(alloc, world),
        Fact::Whole(number) => format!(in alloc; "{}", whole(world, number)),
    }
}

fn whole(world: &World, whole: Whole) -> u64 {
    match whole {
        Whole::Epoch => u64::from(world.epoch()),
        Whole::FreedWord => world.freed_word(),
        Whole::Freed => world.freed(),
        Whole::Collections => u64::from(world.collections()),
        Whole::Made => world.made(),
        Whole::Mutators => u64::from(world.mutators()),
        Whole::Slots => u64::from(world.slots()),
    }
}

fn sets(alloc: Global, world: &World) -> Result<String, NoMemory> {
    let sets = world.sets();
    let (freed, delta, sigma) = (sets.freed, sets.delta, sets.sigma);
    format!(in alloc; "freed {freed} delta {delta} sigma {sigma}")
}

fn roots(alloc: Global, world: &World) -> Result<String, NoMemory> {
    let roots = world.collector().counts().roots();
    if roots.is_empty() {
        return String::from_str(alloc, "none");
    }
    listed(alloc, roots)
}

fn mailboxes(alloc: Global, world: &World) -> Result<String, NoMemory> {
    String::from_str(alloc, if world.boxes_home() { "home" } else { "away" })
}

/// Whether the heap has this mutator, also where it has left.
pub fn is_there(world: &World, t: u8) -> bool
    ensures mutator { IsTrue result → IsMutator world.now.config t }
    ensures kept { IsWorld world.now }
{
    (1..=world.mutators()).contains(&t)
}

// Whether this mutator is there, and has this register.
fn has_register(world: &World, t: u8, r: u8) -> bool
    ensures mutator { IsTrue result → IsMutator world.now.config t }
    ensures register { IsTrue result → r < world.now.config.registers }
{
    is_there(world, t) && usize::from(r) < world.mutator(t).registers().len()
}

fn slot(alloc: Global, world: &World, slot: u16) -> Result<String, NoMemory> {
    if slot >= world.slots() {
        return String::from_str(alloc, ABSENT);
    }
    let state = if world.taken(slot) { "taken" } else { "free" };
    let count = world.count(slot);
    format!(in alloc; "{state} count {count}")
}

fn label(alloc: Global, world: &World, slot: u16) -> Result<String, NoMemory> {
    if slot >= world.slots() {
        return String::from_str(alloc, ABSENT);
    }
    number(alloc, world.label(slot).map(u64::from), "none")
}

fn leaf(alloc: Global, world: &World, slot: u16) -> Result<String, NoMemory> {
    if slot >= world.slots() {
        return String::from_str(alloc, ABSENT);
    }
    yes(alloc, world.leaf(slot))
}

fn colour(alloc: Global, world: &World, slot: u16) -> Result<String, NoMemory> {
    let counts = world.collector().counts();
    if slot >= counts.slots() {
        return String::from_str(alloc, ABSENT);
    }
    String::from_str(alloc, colour_name(counts.colour(slot)))
}

fn colour_name(colour: Colour) -> &'static str {
    match colour {
        Colour::Black => "black",
        Colour::Purple => "purple",
        Colour::Gray => "gray",
        Colour::White => "white",
        Colour::Orange => "orange",
        Colour::Green => "green",
    }
}

fn field(alloc: Global, world: &World, place: u32) -> Result<String, NoMemory> {
    if place as usize >= world.words().len() {
        return String::from_str(alloc, ABSENT);
    }
    let word = world.field(place);
    format!(in alloc; "{word}")
}

fn busy(alloc: Global, world: &World, t: u8) -> Result<String, NoMemory> {
    if !is_there(world, t) {
        return String::from_str(alloc, ABSENT);
    }
    yes(alloc, world.busy(t))
}

fn left(alloc: Global, world: &World, t: u8) -> Result<String, NoMemory> {
    if !is_there(world, t) {
        return String::from_str(alloc, ABSENT);
    }
    yes(alloc, world.left(t))
}

fn epoch_of(alloc: Global, world: &World, t: u8) -> Result<String, NoMemory> {
    if !is_there(world, t) {
        return String::from_str(alloc, ABSENT);
    }
    let epoch = world.epoch_of(t);
    format!(in alloc; "{epoch}")
}

// What a register names. Its place in the list of registers has the same.
fn register(alloc: Global, world: &World, t: u8, r: u8) -> Result<String, NoMemory> {
    if !has_register(world, t, r) {
        return String::from_str(alloc, ABSENT);
    }
    let slot = world.register(t, r);
    if world.registers(t).get(usize::from(r)) != Some(&slot) {
        return String::from_str(alloc, "another in the list");
    }
    number(alloc, slot.map(u64::from), "null")
}

// The slot's number, in a list that has the slot there.
fn number_of(alloc: Global, world: &World, slot: u16) -> Result<String, NoMemory> {
    let mut numbering = Numbering::open(alloc, world.slots())?;
    world.number(&mut numbering);
    let Some(found) = numbering.number(slot) else {
        return String::from_str(alloc, "none");
    };
    let at = usize::from(found).saturating_sub(1);
    if numbering.list().get(at) != Some(&slot) {
        return String::from_str(alloc, "another in the list");
    }
    format!(in alloc; "{found}")
}
