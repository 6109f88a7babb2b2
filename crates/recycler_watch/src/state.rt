//! A heap as it is seen between two moves. Text, data, graph and page are all made from it.

ghost use Rattle.std.specs.Prelude.{◌≡◌, ◌<◌, ◌++◌, map, slice_index_or, string_bytes, IfOk, OnOk};
ghost use Rattle.rec_core.specs.Config.{IsMutator};
ghost use Rattle.rec_core.specs.Core.{mutator};
ghost use Rattle.rec_counts.specs.Counts.{slot_at};
ghost use Rattle.rec_word.specs.Word.{target_of};
ghost use Rattle.recycler_watch.specs.Seen.{collector_of, collector_seen, colour_name, counted_slot, mutator_of, mutator_seen, mutators_of, phase_name, seen, seen_of, slot_of, slot_seen, slots_of};
ghost use Rattle.recycler_watch.specs.Sentence.{field_words, register_of, seen_mutator, target_words};

use rec_collector::Phase;
use rec_counts::{Colour, Counts};
use rec_log::{Buffer, Entry};
use rec_play::{Stage, Walk};
use rec_word::target;
use rec_world::World;
use serde::Serialize;
use std::alloc::{AllocError as NoMemory, Global};
use std::fmt::Write;

// Where a mailbox is, by the last two bits of its mutator's crossing word.
const MAILBOXES: [&str; 4] = ["spare", "with the mutator", "retired", "with the collector"];

/// A slot: the label of its object, where it holds one, whether that is a leaf, what the collector keeps of it, and what its fields lead to.
#[derive(Drop, PartialEq, Serialize)]
pub struct Slot {
    pub slot: u16,
    pub label: Option<u32>,
    pub leaf: bool,
    pub count: u64,
    pub cyclic: u64,
    pub colour: &'static str,
    pub root: bool,
    pub released: bool,
    pub set: Option<u16>,
    pub fields: Vec<Option<u16>>,
}

/// A mutator with its registers, its log and its mailbox, whether it has left, and how many entries the collector gathered of its last two epochs.
#[derive(Drop, PartialEq, Serialize)]
pub struct Mutator {
    pub mutator: u8,
    pub epoch: u32,
    pub left: bool,
    pub mailbox: &'static str,
    pub posted: usize,
    pub newer: usize,
    pub older: usize,
    pub registers: Vec<Option<u16>>,
    pub logged: usize,
    pub log: Vec<String>,
}

/// Whether the heap settles, how far the collector is, and what it has come to so far.
#[derive(Clone, Copy, Serialize)]
pub struct Collector {
    pub settles: bool,
    pub phase: &'static str,
    pub epoch: u32,
    pub collections: u32,
    pub swept: u64,
    pub sets_freed: u64,
    pub sets_touched: u64,
    pub sets_held: u64,
}

/// The lists of the collector.
#[derive(Drop, PartialEq, Serialize)]
pub struct Lists {
    pub roots: Vec<u16>,
    pub marked: Vec<u16>,
    pub work: Vec<u16>,
    pub zeros: Vec<u16>,
    pub free: Vec<u16>,
    pub sets: Vec<Vec<u16>>,
}

/// A heap as it is seen, whose objects have so many fields.
#[derive(Drop)]
pub struct State {
    pub slots: Vec<Slot>,
    pub mutators: Vec<Mutator>,
    pub collector: Collector,
    pub lists: Lists,
    pub fields: u32,
}

impl State {
    /// What is seen of the heap of a run.
    pub fn of(alloc: Global, walk: &Walk<'_>) -> Result<State, NoMemory>
        ensures { IfOk result (λ state. seen state ≡ seen_of walk.now) }
    {
        let (world, fields) = (walk.world(), walk.script().fields());
        Ok(State {
            slots: slots_of(alloc, world, fields as usize)?,
            mutators: mutators_of(alloc, world, fields)?,
            collector: collector_of(world, walk.stage()),
            lists: lists_of(alloc, world.collector().counts())?,
            fields,
        })
    }

    /// What register `reg` of mutator `t` names.
    pub fn register(&self, t: u8, reg: u8) -> Option<u16>
        ensures { result ≡ register_of (seen self.now) t reg }
    {
        let seen = self.mutators.get(usize::from(t).saturating_sub(1))?;
        *seen.registers.get(usize::from(reg))?
    }

    /// The epoch that mutator `t` is in.
    pub fn epoch(&self, t: u8) -> u32
        ensures { result ≡ (seen_mutator (seen self.now) t).epoch }
    {
        match self.mutators.get(usize::from(t).saturating_sub(1)) {
            None => 0,
            Some(seen) => seen.epoch,
        }
    }
}

fn collector_of(world: &World, stage: Stage) -> Collector
    ensures { collector_seen result ≡ collector_of world.now stage }
{
    let sets = world.sets();
    Collector {
        settles: stage != Stage::Playing,
        phase: phase_name(world.collector().phase()),
        epoch: world.epoch(),
        collections: world.collections(),
        swept: world.freed(),
        sets_freed: sets.freed,
        sets_touched: sets.delta,
        sets_held: sets.sigma,
    }
}

fn slots_of(alloc: Global, world: &World, fields: usize) -> Result<Vec<Slot>, NoMemory>
    requires { fields ≡ world.now.config.fields }
    ensures { IfOk result (λ slots. map slot_seen slots.items ≡ slots_of world.now world.now.config.slots) }
{
    let mut slots = Vec::with_capacity(alloc, usize::from(world.slots()))?;
    for slot in 0..world.slots() {
        slots.push(slot_of(alloc, world, slot, fields)?)?;
    }
    Ok(slots)
}

fn slot_of(alloc: Global, world: &World, slot: u16, fields: usize) -> Result<Slot, NoMemory>
    requires fields { fields ≡ world.now.config.fields }
    requires there { slot < world.now.config.slots }
    ensures { IfOk result (λ seen. slot_seen seen ≡ slot_of world.now slot) }
{
    let words = world.words();
    let first = usize::from(slot) * fields;
    let leads = targets_of(alloc, &words[first..first + fields])?;
    Ok(slot_with(world, slot, leads))
}

// Where these words lead.
fn targets_of(alloc: Global, words: &[u64]) -> Result<Vec<Option<u16>>, NoMemory>
    ensures { IfOk result (λ targets. targets.items ≡ map target_of words.now) }
{
    let mut targets = Vec::with_capacity(alloc, words.len())?;
    for word in words {
        targets.push(target(*word))?;
    }
    Ok(targets)
}

// The slot whose fields lead to these.
fn slot_with(world: &World, slot: u16, fields: Vec<Option<u16>>) -> Slot
    requires { slot < world.now.config.slots }
    ensures { slot_seen result ≡ counted_slot (slot_at world.now.collector.counts slot) slot (slice_index_or world.now.headers slot 0) fields.items }
{
    let counts = world.collector().counts();
    let set = counts.set_of(slot);
    Slot {
        slot,
        label: world.label(slot),
        leaf: world.leaf(slot),
        count: counts.count(slot),
        cyclic: counts.cyclic(slot),
        colour: colour_name(counts.colour(slot)),
        root: counts.buffered(slot) && set.is_none(),
        released: counts.released(slot),
        set,
        fields,
    }
}

fn mutators_of(alloc: Global, world: &World, fields: u32) -> Result<Vec<Mutator>, NoMemory>
    ensures { IfOk result (λ mutators. map mutator_seen mutators.items ≡ mutators_of world.now world.now.config.mutators) }
{
    let mut mutators = Vec::new(alloc);
    for index in 0..world.mutators() {
        mutators.push(mutator_of(alloc, world, index + 1, fields)?)?;
    }
    Ok(mutators)
}

fn mutator_of(alloc: Global, world: &World, t: u8, fields: u32) -> Result<Mutator, NoMemory>
    requires { IsMutator world.now.config t }
    ensures { IfOk result (λ seen. mutator_seen seen ≡ mutator_of world.now t) }
{
    let place = usize::from(t - 1);
    let entries = world.mutator(t).entries();
    let crossing = world.crossing().get(place).copied().unwrap_or(0);
    let mailbox = world.mailboxes().get(place).and_then(Option::as_ref);
    let registers = registers_of(alloc, world, t)?;
    let log = last_of(alloc, entries, fields)?;
    Ok(Mutator {
        mutator: t,
        epoch: world.epoch_of(t),
        left: world.left(t),
        mailbox: MAILBOXES[(crossing % 4) as usize],
        posted: length_of(mailbox),
        newer: length_of(world.collector().newer().get(place)),
        older: length_of(world.collector().older().get(place)),
        registers,
        logged: entries.len(),
        log,
    })
}

// What each register of a mutator names.
fn registers_of(alloc: Global, world: &World, t: u8) -> Result<Vec<Option<u16>>, NoMemory>
    requires { IsMutator world.now.config t }
    ensures { IfOk result (λ registers. registers.items ≡ (mutator world.now t).registers) }
{
    let registers = world.mutator(t).registers();
    Ok(registers.to_vec(alloc)?)
}

fn length_of(buffer: Option<&Buffer>) -> usize {
    buffer.map_or(0, |buffer| buffer.entries().len())
}

// The last sixteen entries of a log, in words.
fn last_of(alloc: Global, entries: &[Entry], fields: u32) -> Result<Vec<String>, NoMemory> {
    let mut last = Vec::new(alloc);
    let before = entries.len().saturating_sub(16);
    for entry in entries.iter().skip(before) {
        last.push(entry_text(alloc, *entry, fields)?)?;
    }
    Ok(last)
}

fn entry_text(alloc: Global, entry: Entry, fields: u32) -> Result<String, NoMemory> {
    let mut text = String::new(alloc);
    add_entry(&mut text, entry, fields)?;
    Ok(text)
}

fn add_entry(text: &mut String, entry: Entry, fields: u32) -> Result<(), NoMemory> {
    match entry {
        Entry::Born { slot, leaf: false } => write!(text, "#{slot} born"),
        Entry::Born { slot, leaf: true } => write!(text, "#{slot} born, a leaf"),
        Entry::Put { place, new, old } => {
            add_field(text, "", place, fields)?;
            add_target(text, ": ", target(old))?;
            add_target(text, " -> ", target(new))
        }
    }
}

/// An object, or null, behind some words.
pub fn add_target(text: &mut String, words: &str, to: Option<u16>) -> Result<(), NoMemory>
    ensures { OnOk result (string_bytes text.new ≡ string_bytes text.old ++ (words.now ++ target_words to)) }
{
    match to {
        None => write!(text, "{words}null"),
        Some(slot) => write!(text, "{words}#{slot}"),
    }
}

/// A field by its place behind some words, as `#3.0`, where objects have so many.
pub fn add_field(text: &mut String, words: &str, place: u32, fields: u32) -> Result<(), NoMemory>
    ensures { OnOk result (string_bytes text.new ≡ string_bytes text.old ++ (words.now ++ field_words place fields)) }
{
    let fields = fields.max(1);
    write!(text, "{words}#{}.{}", place / fields, place % fields)
}

fn lists_of(alloc: Global, counts: &Counts) -> Result<Lists, NoMemory> {
    Ok(Lists {
        roots: counts.roots().to_vec(alloc)?,
        marked: counts.marked().to_vec(alloc)?,
        work: counts.work().to_vec(alloc)?,
        zeros: counts.zeros().to_vec(alloc)?,
        free: counts.free_list().to_vec(alloc)?,
        sets: sets_of(alloc, counts)?,
    })
}

fn sets_of(alloc: Global, counts: &Counts) -> Result<Vec<Vec<u16>>, NoMemory> {
    let mut sets = Vec::new(alloc);
    for number in 0..counts.sets() {
        sets.push(counts.set(number).to_vec(alloc)?)?;
    }
    Ok(sets)
}

fn phase_name(phase: &Phase) -> &'static str
    ensures { result.now ≡ phase_name phase.now }
{
    match phase {
        Phase::Idle => "rest",
        Phase::Looking { .. } | Phase::Swapping { .. } | Phase::Returning { .. } => "gather",
        Phase::Releasing(_) => "release",
        Phase::Freeing(_) => "free",
        Phase::Trying(_) => "trial",
        Phase::Preparing(_) => "prepare",
        Phase::Opening | Phase::Sweeping { .. } | Phase::Closing { .. } => "sweep",
    }
}

fn colour_name(colour: Colour) -> &'static str
    ensures { result.now ≡ colour_name colour }
{
    match colour {
        Colour::Black => "Black",
        Colour::Purple => "Purple",
        Colour::Gray => "Gray",
        Colour::White => "White",
        Colour::Orange => "Orange",
        Colour::Green => "Green",
    }
}
