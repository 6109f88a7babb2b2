//! The objects of an image, while they are read.

ghost use Rattle.std.specs.Prelude.{◌≡◌, ◌≢◌, ℕ, ◌+◌, ◌*◌, ◌<◌, ◌≤◌, ◌++◌, [], ◌∷◌, List, None, IfSome, IfNone, IfOk, OnOk, length, replicate};
ghost use Rattle.rec_image.specs.Drafts.{AreFieldsRead, AreFieldsUnread, AreObjects, IsNodeRead, IsObjectRead, NoObjectNext, least, objects_in};
ghost use Rattle.rec_image.specs.Image.{IsNode, IsSized, Node, object_line};

use crate::line::{Heap, node_head, words};
use crate::meeting::Meeting;
use crate::piece::numeral;
use rec_io::behind_byte;
use std::alloc::{AllocError as NoMemory, Global};

/// The objects so far: their labels and leaf marks, the fields of all in one list, and what is met by them.
#[derive(Drop)]
pub(crate) struct Objects {
    pub(crate) nodes: Vec<(u32, bool)>,
    pub(crate) targets: Vec<Option<u16>>,
    pub(crate) meeting: Meeting,
}

/// So many null fields more.
fn add_nulls(count: u32, targets: &mut Vec<Option<u16>>) -> Result<(), NoMemory>
    ensures { OnOk result (targets.new.items ≡ targets.old.items ++ replicate count None) }
{
    for _ in 0..count {
        targets.push(None)?;
    }
    Ok(())
}

impl Objects {
    /// No objects.
    pub(crate) fn new(alloc: Global, heap: Heap) -> Objects
        requires { IsSized heap.slots heap.fields heap.registers heap.mutators }
        ensures are { AreObjects heap result }
        ensures none { objects_in heap result ≡ [] }
    {
        Objects {
            nodes: Vec::new(alloc),
            targets: Vec::new(alloc),
            meeting: Meeting::new(),
        }
    }

    /// How many objects there are.
    pub(crate) fn count(&self) -> u32
        requires { length self.now.nodes.items ≤ 65535 }
        ensures { result ≡ length self.now.nodes.items }
    {
        self.nodes.len() as u32
    }

    /// How many of them registers have to name at least, where there are no more.
    pub(crate) fn least(&self) -> u32
        requires { length self.now.nodes.items ≤ 65535 }
        ensures { result ≡ least self.now.meeting (length self.now.nodes.items) }
    {
        let count = self.count();
        if self.meeting.met < count {
            count
        } else {
            self.meeting.due
        }
    }

    /// The fields of an object at the front, which end its line. Gives what is behind it.
    #[inline(always)]
    fn add_fields<'b>(
        &mut self,
        leaf: bool,
        heap: Heap,
        bytes: &'b [u8],
    ) -> Result<Option<&'b [u8]>, NoMemory>
        requires { heap.slots ≤ 65535 }
        ensures found { IfOk result (λ found. IfSome found (λ rest.
            AreFieldsRead heap.slots heap.fields leaf bytes.now rest.now self.old self.new)) }
        ensures none { IfOk result (λ found. IfNone found (AreFieldsUnread heap.slots heap.fields leaf bytes.now)) }
    {
        if !leaf {
            return words(
                heap.fields,
                heap.slots,
                bytes,
                &mut self.targets,
                &mut self.meeting,
            );
        }
        let Some(rest) = behind_byte(b'\n', bytes) else {
            return Ok(None);
        };
        add_nulls(heap.fields, &mut self.targets)?;
        Ok(Some(rest))
    }

    /// The object whose line is at the front. Gives what is behind it.
    #[inline(always)]
    fn add_node<'b>(&mut self, heap: Heap, bytes: &'b [u8]) -> Result<Option<&'b [u8]>, NoMemory>
        requires { heap.slots ≤ 65535 }
        ensures found { IfOk result (λ found. IfSome found (λ rest.
            IsNodeRead heap.slots heap.fields bytes.now rest.now self.old self.new)) }
        ensures none { IfOk result (λ found. IfNone found ((node : Node) (t : List ℕ)
            → IsNode heap.slots heap.fields node → bytes.now ≢ object_line node ++ t)) }
    {
        let Some((leaf, rest)) = node_head(bytes) else {
            return Ok(None);
        };
        let Some((label, rest)) = numeral(rest) else {
            return Ok(None);
        };
        let Some(rest) = self.add_fields(leaf, heap, rest)? else {
            return Ok(None);
        };
        self.nodes.push((label, leaf))?;
        Ok(Some(rest))
    }

    /// The object whose line is at the front, where an image goes on with it. Gives what is behind it.
    pub(crate) fn add<'b>(
        &mut self,
        heap: Heap,
        bytes: &'b [u8],
    ) -> Result<Option<&'b [u8]>, NoMemory>
        requires { AreObjects heap self.old }
        ensures found { IfOk result (λ found. IfSome found (λ rest.
            IsObjectRead heap bytes.now rest.now self.old self.new)) }
        ensures none { IfOk result (λ found. IfNone found (NoObjectNext heap (objects_in heap self.old) bytes.now)) }
    {
        let count = self.nodes.len() as u32;
        if count == heap.slots {
            return Ok(None);
        }
        self.meeting.begin(count);
        let Some(rest) = self.add_node(heap, bytes)? else {
            return Ok(None);
        };
        if self.meeting.due > heap.mutators * heap.registers {
            return Ok(None);
        }
        Ok(Some(rest))
    }
}
