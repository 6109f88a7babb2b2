//! Writing the image of a settled world.

ghost use Rattle.std.specs.Prelude.{◌≡◌, ◌≤◌, ◌++◌, ℕ, List, [], map, length, IfOk, OnOk};
ghost use Rattle.std.specs.List.{flat_map};
ghost use Rattle.rec_core.specs.Settled.{IsSettled};
ghost use Rattle.rec_model.specs.Sight.{NumbersSlots};
ghost use Rattle.rec_world.specs.World.{sight};
ghost use Rattle.rec_report.specs.Report.{IsNumbered};
ghost use Rattle.rec_image.specs.Image.{ImageContents, IsImage, header_line, heap_line, object_line, registers_line, text};
ghost use Rattle.rec_image.specs.Standing.{IsOfWorld, StandsFor, held_of, image_of, node_of};

use crate::line::Heap;
use crate::live::{heap_of, numbered};
use crate::spelling::Line;
use rec_world::{Numbering, World};
use std::alloc::{AllocError as NoMemory, Global};

// How many bytes a line has at most beside its words, and a word at most: ` #65535`. An object has a label of ten digits.
const LINE: usize = 18;

const WORD: usize = 7;

// How many bytes the first two lines and the last one have at most.
const FRAME: usize = 64;

/// How many bytes an image of this heap has at most, with so many objects.
fn most_bytes(objects: usize, heap: Heap) -> usize {
    let of_object = (heap.fields as usize)
        .saturating_mul(WORD)
        .saturating_add(LINE);
    let of_mutator = (heap.registers as usize)
        .saturating_mul(WORD)
        .saturating_add(LINE);
    let of_objects = objects.saturating_mul(of_object);
    let of_mutators = (heap.mutators as usize).saturating_mul(of_mutator);
    of_objects.saturating_add(of_mutators).saturating_add(FRAME)
}

/// The lines of the objects.
fn add_objects(
    text: &mut Vec<u8>,
    world: &World,
    fields: u8,
    numbering: &Numbering,
) -> Result<(), NoMemory>
    requires { IsNumbered world.now fields numbering.now }
    ensures { OnOk result (text.new.items ≡ text.old.items
        ++ flat_map object_line (map (node_of (sight world.now) numbering.now.list) numbering.now.list)) }
{
    let words = world.words();
    let mut line = Line::new();
    for (i, slot) in numbering.list().iter().enumerate() {
        let label = world.label(*slot).unwrap_or(0);
        let leaf = world.leaf(*slot);
        let first = usize::from(*slot) * usize::from(fields);
        let own = &words[first..first + usize::from(fields)];
        line.spell_node(leaf, label, own, numbering);
        text.extend_from_slice(line.bytes())?;
    }
    Ok(())
}

/// The lines of the mutators.
fn add_registers(
    text: &mut Vec<u8>,
    world: &World,
    fields: u8,
    numbering: &Numbering,
) -> Result<(), NoMemory>
    requires { IsNumbered world.now fields numbering.now }
    ensures { OnOk result (text.new.items ≡ text.old.items
        ++ flat_map registers_line (held_of (sight world.now) numbering.now.list)) }
{
    let mut line = Line::new();
    let mutators = world.mutators();
    for t in 0..mutators {
        line.spell_registers(world.registers(t + 1), numbering);
        text.extend_from_slice(line.bytes())?;
    }
    Ok(())
}

/// The lines in front of the objects.
fn add_front(text: &mut Vec<u8>, heap: Heap) -> Result<(), NoMemory>
    ensures { OnOk result (text.new.items ≡ (text.old.items ++ header_line)
        ++ heap_line heap.slots heap.fields heap.registers heap.mutators) }
{
    text.extend_from_slice(b"recycler image 1\n")?;
    let mut line = Line::new();
    line.spell_heap(heap.slots, heap.fields, heap.registers, heap.mutators);
    text.extend_from_slice(line.bytes())
}

/// All lines of the image.
fn add_lines(
    lines: &mut Vec<u8>,
    world: &World,
    heap: Heap,
    numbering: &Numbering,
) -> Result<(), NoMemory>
    requires slots { heap.slots ≡ world.now.config.slots }
    requires fields { heap.fields ≡ world.now.config.fields }
    requires registers { heap.registers ≡ world.now.config.registers }
    requires mutators { heap.mutators ≡ world.now.config.mutators }
    requires numbers { NumbersSlots (sight world.now) numbering.now.list }
    requires none { lines.old.items ≡ [] }
    ensures { OnOk result (text (image_of world.now numbering.now.list) ≡ lines.new.items) }
{
    add_front(lines, heap)?;
    let fields = world.fields();
    add_objects(lines, world, fields, numbering)?;
    add_registers(lines, world, fields, numbering)?;
    lines.extend_from_slice(b"end\n")?;
    Ok(())
}

/// The image of a settled world, as text.
pub fn write(alloc: Global, world: &World) -> Result<Vec<u8>, NoMemory>
    requires settled { IsSettled world.now }

    // The bytes are the text of an image. It is of the world's numbers, and stands for its heap in all but the field words.
    ensures image { IfOk result (λ bytes. (v : ImageContents) × IsImage v × (text v ≡ bytes.items)
        × IsOfWorld world.now v × StandsFor v (sight world.now)) }
    // Its objects are the slots in the order of a listing.
    ensures listed { IfOk result (λ bytes. (slots : List ℕ) × NumbersSlots (sight world.now) slots
        × (text (image_of world.now slots) ≡ bytes.items)) }
{
    let numbering = numbered(alloc, world)?;
    let heap = heap_of(world);
    let room = most_bytes(numbering.list().len(), heap);
    let mut text = Vec::with_capacity(alloc, room)?;
    add_lines(&mut text, world, heap, &numbering)?;
    Ok(text)
}
