//! The registers of an image, while they are read.

ghost use Rattle.std.specs.Prelude.{◌≡◌, ◌+◌, ◌*◌, ◌<◌, ◌≤◌, [], length, IfOk, IfNone, IfSome};
ghost use Rattle.rec_image.specs.Drafts.{AreHeld, AreObjects, IsRowRead, NoRowNext, held_in, objects_in, unmet};

use crate::line::{Heap, registers_line};
use crate::meeting::Meeting;
use crate::objects::Objects;
use std::alloc::{AllocError as NoMemory, Global};

/// The registers so far, of so many mutators in one list, and which objects they name.
#[derive(Drop)]
pub(crate) struct Held {
    pub(crate) registers: Vec<Option<u16>>,
    pub(crate) rows: u32,
    pub(crate) naming: Meeting,
}

impl Held {
    /// No registers.
    pub(crate) fn new(alloc: Global) -> Held
        ensures registers { result.registers.items ≡ [] }
        ensures rows { result.rows ≡ 0 }
        ensures naming { result.naming ≡ unmet }
    {
        Held {
            registers: Vec::new(alloc),
            rows: 0,
            naming: Meeting::new(),
        }
    }

    /// The registers of the mutator whose line is at the front, where an image goes on with it. Gives what is behind it.
    pub(crate) fn add<'b>(
        &mut self,
        heap: Heap,
        objects: &Objects,
        bytes: &'b [u8],
    ) -> Result<Option<&'b [u8]>, NoMemory>
        requires objects { AreObjects heap objects.now }
        requires held { AreHeld heap (objects_in heap objects.now) self.old }
        requires left { self.old.rows < heap.mutators }
        ensures found { IfOk result (λ found. IfSome found (λ rest.
            IsRowRead heap (objects_in heap objects.now) bytes.now rest.now self.old self.new)) }
        ensures none { IfOk result (λ found. IfNone found
            (NoRowNext heap (objects_in heap objects.now) (held_in heap self.old) bytes.now)) }
    {
        let Some(rest) = registers_line(heap, bytes, &mut self.registers, &mut self.naming)? else {
            return Ok(None);
        };
        self.rows += 1;
        let left = (heap.mutators - self.rows) * heap.registers;
        let least = objects.least();
        if self.naming.names_enough(objects.count(), least, left) {
            Ok(Some(rest))
        } else {
            Ok(None)
        }
    }
}
