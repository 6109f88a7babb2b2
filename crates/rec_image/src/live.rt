//! What a world holds in reach of its registers, in the rows that an image keeps.

ghost use Rattle.std.specs.Prelude.{◌≡◌, ◌++◌, ℕ, List, Option, map, length, IfOk, OnOk};
ghost use Rattle.std.specs.List.{flat_map};
ghost use Rattle.rec_word.specs.Word.{target_of};
ghost use Rattle.rec_model.specs.Sight.{NumbersSlots};
ghost use Rattle.rec_world.specs.World.{IsWorld, sight};
ghost use Rattle.rec_report.specs.Report.{IsNumbered};
ghost use Rattle.rec_image.specs.Restored.{fields_in, mark_of};
ghost use Rattle.rec_image.specs.Standing.{held_of, listed_place, node_of};

use crate::line::Heap;
use rec_word::target;
use rec_world::{Numbering, World};
use std::alloc::{AllocError as NoMemory, Global};

/// The numbers of a world's heap.
pub(crate) fn heap_of(world: &World) -> Heap
    ensures slots { result.slots ≡ world.now.config.slots }
    ensures fields { result.fields ≡ world.now.config.fields }
    ensures registers { result.registers ≡ world.now.config.registers }
    ensures mutators { result.mutators ≡ world.now.config.mutators }
    ensures kept { IsWorld world.now }
{
    Heap {
        slots: u32::from(world.slots()),
        fields: u32::from(world.fields()),
        registers: world.registers(1).len() as u32,
        mutators: u32::from(world.mutators()),
    }
}

/// The slots that a world's registers reach, numbered.
pub(crate) fn numbered(alloc: Global, world: &World) -> Result<Numbering, NoMemory>
    ensures kept { IsWorld world.now }
    ensures numbers { IfOk result (λ numbering. NumbersSlots (sight world.now) numbering.list) }
    ensures slots { IfOk result (λ numbering. numbering.slots ≡ world.now.config.slots) }
{
    let mut numbering = Numbering::open(alloc, world.slots())?;
    world.number(&mut numbering);
    Ok(numbering)
}

/// The objects in the order of their numbers: the label and the leaf mark of each, and which object each field leads to.
pub(crate) fn object_rows(
    alloc: Global,
    world: &World,
    fields: u8,
    numbering: &Numbering,
) -> Result<(Vec<(u32, bool)>, Vec<Option<u16>>), NoMemory>
    requires kept { IsWorld world.now }
    requires numbered { IsNumbered world.now fields numbering.now }
    ensures nodes { IfOk result (λ rows. rows.0.items ≡ map mark_of (map (node_of (sight world.now) numbering.now.list) numbering.now.list)) }
    ensures fields { IfOk result (λ rows. rows.1.items ≡ flat_map fields_in (map (node_of (sight world.now) numbering.now.list) numbering.now.list)) }
{
    let nodes = marks(alloc, world, fields, numbering)?;
    let targets = field_rows(alloc, world, fields, numbering)?;
    Ok((nodes, targets))
}

// The label and the leaf mark of each object.
fn marks(
    alloc: Global,
    world: &World,
    fields: u8,
    numbering: &Numbering,
) -> Result<Vec<(u32, bool)>, NoMemory>
    requires kept { IsWorld world.now }
    requires numbered { IsNumbered world.now fields numbering.now }
    ensures { IfOk result (λ nodes. nodes.items ≡ map mark_of (map (node_of (sight world.now) numbering.now.list) numbering.now.list)) }
{
    let slots = numbering.list();
    let mut nodes = Vec::with_capacity(alloc, slots.len())?;
    for (i, slot) in slots.iter().enumerate() {
        let label = world.label(*slot).unwrap_or(0);
        let leaf = world.leaf(*slot);
        nodes.push((label, leaf))?;
    }
    Ok(nodes)
}

// Which object each field leads to, object after object.
fn field_rows(
    alloc: Global,
    world: &World,
    fields: u8,
    numbering: &Numbering,
) -> Result<Vec<Option<u16>>, NoMemory>
    requires { IsNumbered world.now fields numbering.now }
    ensures { IfOk result (λ targets. targets.items ≡ flat_map fields_in (map (node_of (sight world.now) numbering.now.list) numbering.now.list)) }
{
    let words = world.words();
    let slots = numbering.list();
    let room = slots.len().saturating_mul(usize::from(fields));
    let mut targets = Vec::with_capacity(alloc, room)?;
    for (i, slot) in slots.iter().enumerate() {
        let first = usize::from(*slot) * usize::from(fields);
        let own = &words[first..first + usize::from(fields)];
        add_fields(&mut targets, own, numbering)?;
    }
    Ok(targets)
}

/// Which object each register names, mutator after mutator.
pub(crate) fn register_rows(
    alloc: Global,
    world: &World,
    fields: u8,
    numbering: &Numbering,
) -> Result<Vec<Option<u16>>, NoMemory>
    requires { IsNumbered world.now fields numbering.now }
    ensures { IfOk result (λ rows. rows.items ≡ flat_map (λ own. own) (held_of (sight world.now) numbering.now.list)) }
{
    let mut held = Vec::new(alloc);
    for t in 0..world.mutators() {
        add_registers(&mut held, world.registers(t + 1), numbering)?;
    }
    Ok(held)
}

// Which object each field with these words leads to.
fn add_fields(
    targets: &mut Vec<Option<u16>>,
    words: &[u64],
    numbering: &Numbering,
) -> Result<(), NoMemory>
    ensures { OnOk result (targets.new.items ≡ targets.old.items ++ map (λ word. listed_place numbering.now.list (target_of word)) words.now) }
{
    for word in words {
        targets.push(place(target(*word), numbering))?;
    }
    Ok(())
}

// Which object each of these registers names.
fn add_registers(
    held: &mut Vec<Option<u16>>,
    registers: &[Option<u16>],
    numbering: &Numbering,
) -> Result<(), NoMemory>
    ensures { OnOk result (held.new.items ≡ held.old.items ++ map (listed_place numbering.now.list) registers.now) }
{
    for register in registers {
        held.push(place(*register, numbering))?;
    }
    Ok(())
}

// The number, from 0, of the object in the slot.
fn place(slot: Option<u16>, numbering: &Numbering) -> Option<u16>
    ensures { result ≡ listed_place numbering.now.list slot }
{
    match numbering.number(slot?) {
        Some(number) => Some(number - 1),
        None => None,
    }
}
