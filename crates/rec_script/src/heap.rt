//! The line that says how large a heap is.

ghost use Rattle.std.specs.Prelude.{◌≡◌, ◌≢◌, ℕ, ◌<◌, ◌≤◌, List, [], ◌∷◌, IfSome, IfNone, MatchOption};
ghost use Rattle.std.specs.Fmt.{decimal};
ghost use Rattle.rec_script.specs.Lines.{words};
ghost use Rattle.rec_script.specs.Script.{IsHeap, IsNumeralOf, heap_line};

use crate::operand::{is_name, numeral, three_words};
use rec_model::limits::{MOST_FIELDS, MOST_REGISTERS, MOST_SLOTS};

/// How large the heap of a script is.
#[derive(Clone, Copy)]
pub struct Heap {
    pub slots: u32,
    pub fields: u32,
    pub registers: u32,
}

/// A number from 1 to the greatest one.
pub fn size(most: u32, word: &[u8]) -> Option<u32>
    ensures found { IfSome result (λ n. (1 ≤ n) × (n ≤ most) × (word.now ≡ decimal n)) }
    ensures none { IfNone result ((n : ℕ) → 1 ≤ n → n ≤ most → word.now ≢ decimal n) }
{
    let number = numeral(word)?;
    if number == 0 {
        return None;
    }
    if number > most {
        return None;
    }
    Some(number)
}

/// The heap with the numbers that three words spell.
fn heap_of(slots: &[u8], fields: &[u8], registers: &[u8]) -> Option<Heap>
    ensures limits { IfSome result (λ x. IsHeap x.slots x.fields x.registers) }
    ensures found { IfSome result (λ x. (slots.now ≡ decimal x.slots)
        × (fields.now ≡ decimal x.fields) × (registers.now ≡ decimal x.registers)) }
    ensures none { IfNone result ((s f r : ℕ) → IsHeap s f r
        → slots.now ≡ decimal s → fields.now ≡ decimal f → registers.now ≢ decimal r) }
{
    let slots = size(MOST_SLOTS, slots)?;
    let fields = size(MOST_FIELDS, fields)?;
    let registers = size(MOST_REGISTERS, registers)?;
    Some(Heap {
        slots,
        fields,
        registers,
    })
}

/// The heap of a line with this first word and what is behind it.
pub fn read_heap(word: &[u8], rest: &[u8]) -> Option<Heap>
    ensures limits { IfSome result (λ x. IsHeap x.slots x.fields x.registers) }
    ensures found { IfSome result (λ x.
        word.now ∷ words rest.now ≡ heap_line x.slots x.fields x.registers) }
    ensures none { IfNone result ((slots fields registers : ℕ) → IsHeap slots fields registers
        → word.now ∷ words rest.now ≢ heap_line slots fields registers) }
{
    if !is_name(word, b"heap") {
        return None;
    }
    let (slots, fields, registers) = three_words(rest)?;
    heap_of(slots, fields, registers)
}
