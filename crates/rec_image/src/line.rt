//! The lines of an image, each read from the front.

ghost use Rattle.std.specs.Prelude.{◌≡◌, ◌≢◌, ℕ, ◌+◌, ◌<◌, ◌≤◌, ◌++◌, [], ◌∷◌, List, Option, Bool, IfSome, IfNone, IfOk, MatchOption, length};
ghost use Rattle.rec_image.specs.Drafts.{AreRead, AreRegistersRead, AreUnread};
ghost use Rattle.rec_image.specs.Image.{AreRegisters, IsSized, heap_line as heap_line_of, node_head as node_head_of, registers_line as registers_line_of};

use crate::meeting::Meeting;
use crate::piece::{behind, two_sizes, word};
use rec_io::behind_byte;
use rec_model::limits::{MOST_FIELDS, MOST_MUTATORS, MOST_REGISTERS, MOST_SLOTS};
use std::alloc::AllocError as NoMemory;

/// How large the heap of an image is.
#[derive(Clone, Copy)]
pub(crate) struct Heap {
    pub(crate) slots: u32,
    pub(crate) fields: u32,
    pub(crate) registers: u32,
    pub(crate) mutators: u32,
}

/// The heap's line at the front, and what is behind it.
pub(crate) fn heap_line(bytes: &[u8]) -> Option<(Heap, &[u8])>
    ensures found { IfSome result (λ x. bytes.now ≡ heap_line_of x.0.slots x.0.fields x.0.registers x.0.mutators ++ x.1.now) }
    ensures sized { IfSome result (λ x. IsSized x.0.slots x.0.fields x.0.registers x.0.mutators) }
    ensures none { IfNone result ((slots fields registers mutators : ℕ) (t : List ℕ) → IsSized slots fields registers mutators
        → bytes.now ≢ heap_line_of slots fields registers mutators ++ t) }
{
    let rest = behind(b"heap ", bytes)?;
    let (slots, fields, rest) = two_sizes((MOST_SLOTS, MOST_FIELDS), b' ', rest)?;
    let most = (MOST_REGISTERS, u32::from(MOST_MUTATORS));
    let (registers, mutators, rest) = two_sizes(most, b'\n', rest)?;
    let heap = Heap {
        slots,
        fields,
        registers,
        mutators,
    };
    Some((heap, rest))
}

/// What stands before an object's label at the front: whether it is a leaf, and what is behind.
#[inline(always)]
pub(crate) fn node_head(bytes: &[u8]) -> Option<(bool, &[u8])>
    ensures { MatchOption result ((leaf : Bool) (t : List ℕ) → bytes.now ≢ node_head_of leaf ++ t)
        (λ x. bytes.now ≡ node_head_of x.0 ++ x.1.now) }
{
    if let Some(rest) = behind(b"object ", bytes) {
        return Some((false, rest));
    }
    let rest = behind(b"leaf ", bytes)?;
    Some((true, rest))
}

/// So many words that end a line at the front: what each field or register leads to. They are added to the others, and met
/// in order. Gives what is behind the line.
#[inline(always)]
pub(crate) fn words<'b>(
    count: u32,
    slots: u32,
    bytes: &'b [u8],
    others: &mut Vec<Option<u16>>,
    meeting: &mut Meeting,
) -> Result<Option<&'b [u8]>, NoMemory>
    requires { slots ≤ 65535 }
    ensures found { IfOk result (λ found. IfSome found (λ rest.
        AreRead count slots bytes.now rest.now others.old.items others.new.items meeting.old meeting.new)) }
    ensures none { IfOk result (λ found. IfNone found (AreUnread count slots bytes.now)) }
{
    let mut rest = bytes;
    for _ in 0..count {
        let Some((target, behind)) = word(slots, rest) else {
            return Ok(None);
        };
        others.push(target)?;
        meeting.meet_target(target);
        rest = behind;
    }
    Ok(behind_byte(b'\n', rest))
}

/// The registers' line of a mutator at the front: they are added to the others, and met in order. Gives what is behind it.
pub(crate) fn registers_line<'b>(
    heap: Heap,
    bytes: &'b [u8],
    others: &mut Vec<Option<u16>>,
    naming: &mut Meeting,
) -> Result<Option<&'b [u8]>, NoMemory>
    requires { heap.slots ≤ 65535 }
    ensures found { IfOk result (λ found. IfSome found (λ rest. AreRegistersRead heap.slots heap.registers bytes.now
        rest.now others.old.items others.new.items naming.old naming.new)) }
    ensures none { IfOk result (λ found. IfNone found ((own : List (Option ℕ)) (t : List ℕ)
        → AreRegisters heap.slots heap.registers own → bytes.now ≢ registers_line_of own ++ t)) }
{
    let Some(rest) = behind(b"registers", bytes) else {
        return Ok(None);
    };
    words(heap.registers, heap.slots, rest, others, naming)
}
