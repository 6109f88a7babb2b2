//! An image that was read.

ghost use Rattle.std.specs.Prelude.{◌≡◌, ◌≤◌, IfErr, IfOk, length};
ghost use Rattle.rec_core.specs.Objects.{described};
ghost use Rattle.rec_core.specs.Settled.{IsSettled};
ghost use Rattle.rec_core.specs.Worked.{AreIdle};
ghost use Rattle.rec_model.specs.Sight.{NumbersSlots, Represents};
ghost use Rattle.rec_world.specs.OpenError.{IsRefused};
ghost use Rattle.rec_world.specs.World.{IsWorld, sight};
ghost use Rattle.rec_image.specs.Restored.{config_of, objects_in as objects_of_image, restored};
ghost use Rattle.rec_image.specs.Renewed.{IsSlots, in_slots};
ghost use Rattle.rec_image.specs.Standing.{IsImageOf, StandsFor, image_of};
ghost use Rattle.rec_image.specs.Drafts.{AreHeld, AreObjects, draft, held_in, objects_in};
ghost use Rattle.rec_image.specs.Image.{IsImage};

use crate::held::Held;
use crate::line::Heap;
use crate::live::{heap_of, numbered, object_rows, register_rows};
use crate::objects::Objects;
use rec_world::{Config, Numbering, OpenError, Policy, World};
use std::alloc::{AllocError as NoMemory, Global};
use std::marker::Model;

/// An image. Contracts see the numbers of its heap, its live objects, and what each mutator's registers name.
// The fields of all objects stand in one list, and so do the registers of all mutators: a heap is opened with these.
#[derive(Drop)]
pub struct Image {
    heap: Heap,
    nodes: Vec<(u32, bool)>,
    fields: Vec<Option<u16>>,
    registers: Vec<Option<u16>>,
}

impl Model for Image {
    ghost use Rattle.rec_image.specs.Image.{ImageContents};
    ghost use Rattle.rec_image.specs.Fields.{contents, IsKept};

    ghost Value = { ImageContents };

    ghost view = { contents };

    ghost invariant = { IsKept };
}

impl Image {
    /// The image of this heap with these objects and registers.
    pub(crate) fn of(heap: Heap, objects: Objects, held: Held) -> Image
        requires objects { AreObjects heap objects }
        requires held { AreHeld heap (objects_in heap objects) held }
        requires all { held.rows ≡ heap.mutators }
        ensures { result ≡ draft heap (objects_in heap objects) (held_in heap held) }
    {
        Image {
            heap,
            nodes: objects.nodes,
            fields: objects.targets,
            registers: held.registers,
        }
    }

    /// The image of what a world's registers reach.
    pub(crate) fn of_world(alloc: Global, world: &World) -> Result<Image, NoMemory>
        ensures image { IfOk result (λ image. IsImageOf world.now image) }
        ensures kept { IsWorld world.now }
    {
        let numbering = numbered(alloc, world)?;
        let image = Image::of_listed(alloc, world, &numbering);
        drop(numbering);
        image
    }

    // The image of the world's slots in this numbering.
    fn of_listed(alloc: Global, world: &World, numbering: &Numbering) -> Result<Image, NoMemory>
        requires kept { IsWorld world.now }
        requires numbers { NumbersSlots (sight world.now) numbering.now.list }
        ensures { IfOk result (λ image. image ≡ image_of world.now numbering.now.list) }
    {
        let fields = world.fields();
        let (nodes, targets) = object_rows(alloc, world, fields, numbering)?;
        let Ok(registers) = register_rows(alloc, world, fields, numbering) else {
            return Err(NoMemory);
        };
        Ok(Image {
            heap: heap_of(world),
            nodes,
            fields: targets,
            registers,
        })
    }

    /// The image of a heap with so many slots, which hold all its objects.
    pub(crate) fn with_slots(self, slots: u32) -> Image
        requires slots { IsSlots slots }
        requires room { length self.objects ≤ slots }
        ensures { result ≡ in_slots self slots }
    {
        Image {
            heap: Heap { slots, ..self.heap },
            nodes: self.nodes,
            fields: self.fields,
            registers: self.registers,
        }
    }

    /// How many objects there are.
    pub(crate) fn count(&self) -> u32
        ensures { result ≡ length self.now.objects }
    {
        self.nodes.len() as u32
    }

    /// How many slots the heap has, from 1 to 65,535.
    pub fn slots(&self) -> u32
        ensures value { result ≡ self.now.slots }
        ensures valid { IsImage self.now }
    {
        self.heap.slots
    }

    /// How many fields an object has, from 1 to 16.
    pub fn fields(&self) -> u32
        ensures value { result ≡ self.now.fields }
        ensures valid { IsImage self.now }
    {
        self.heap.fields
    }

    /// How many registers a mutator has, from 1 to 64.
    pub fn registers(&self) -> u32
        ensures value { result ≡ self.now.registers }
        ensures valid { IsImage self.now }
    {
        self.heap.registers
    }

    /// How many mutators there are, from 1 to 63.
    pub fn mutators(&self) -> u32
        ensures value { result ≡ self.now.mutators }
        ensures valid { IsImage self.now }
    {
        self.heap.mutators
    }
}

/// The settled heap that the image is of, with logs for so many entries and epochs from 1, collected by `policy`: object n stands in slot n - 1.
/// All its memory is taken here.
pub fn restore(
    alloc: Global,
    image: &Image,
    log_entries: u32,
    policy: Policy,
) -> Result<World, OpenError>
    // An image's numbers are in their ranges, so no other one than the log's is refused.
    ensures refused { IfErr result (λ error. IsRefused (config_of image.now log_entries policy) error) }
    ensures opened { IfOk result (λ world. world ≡ restored image.now log_entries policy) }
    // Its births are the image's objects.
    ensures made { IfOk result (λ world. world.made ≡ length image.now.objects) }
    // The image stands for it in all but the field words, and the heap that the image describes does with those that are written.
    ensures stands { IfOk result (λ world. StandsFor image.now (sight world)) }
    ensures heap { IfOk result (λ world. Represents (described (config_of image.now log_entries policy) (objects_of_image image.now)) (sight world)) }
    // Just what registers reach is taken, with true counts; and no mutator works.
    ensures settled { IfOk result IsSettled }
    ensures idle { IfOk result AreIdle }
    ensures kept { IfOk result IsWorld }
{
    let config = Config {
        slots: image.heap.slots,
        fields: image.heap.fields,
        registers: image.heap.registers,
        mutators: image.heap.mutators,
        log_entries,
        first_epoch: 1,
        policy,
    };
    let opened = World::open_from(
        alloc,
        config,
        image.nodes.as_slice(),
        image.fields.as_slice(),
        image.registers.as_slice(),
    );
    match opened {
        Ok(world) => Ok(world),
        Err(error) => Err(error),
    }
}
