//! A line of a journal, read from the front of a text.

ghost use Rattle.std.specs.Prelude.{◌≡◌, ◌≢◌, ℕ, List, ◌∷◌, ◌++◌, IfOk, IfSome, IfNone};
ghost use Rattle.rec_audit.specs.Lines.{AreNumbers, Line, name_of, numerals, text_of_line};
ghost use Rattle.rec_audit.specs.declared.kind.Kind.{Kind as KindOfLine};

use crate::kind::Kind;
use rec_io::{behind_byte, numeral};
use std::alloc::AllocError;

/// Each kind once, the frequent ones first.
const KINDS: [Kind; 10] = [
    Kind::Put,
    Kind::Born,
    Kind::Out,
    Kind::Snap,
    Kind::Free,
    Kind::Sweep,
    Kind::Epoch,
    Kind::End,
    Kind::Heap,
    Kind::Title,
];

/// Reads numerals at the front, each with one space before it, up to an LF, and gives what is behind that. They take the place
/// of the numbers.
fn read_numbers<'b>(numbers: &mut Vec<u64>, bytes: &'b [u8]) -> Result<Option<&'b [u8]>, AllocError>
    ensures found { IfOk result (λ found. IfSome found (λ rest.
        bytes.now ≡ numerals numbers.new.items ++ 10 ∷ rest.now)) }
    ensures fit { IfOk result (λ found. IfSome found (λ rest. AreNumbers numbers.new.items)) }
    ensures none { IfOk result (λ found. IfNone found ((ns rest : List ℕ) → AreNumbers ns
        → bytes.now ≢ numerals ns ++ 10 ∷ rest)) }
{
    numbers.clear();
    let mut rest = bytes;
    while let Some(word) = behind_byte(b' ', rest) {
        let Some((number, next)) = numeral(u64::MAX, word) else {
            return Ok(None);
        };
        numbers.push(number)?;
        rest = next;
    }
    Ok(behind_byte(b'\n', rest))
}

/// The kind of the line at the front, by the word that it begins with, and what is behind that.
fn read_kind(bytes: &[u8]) -> Option<(Kind, &[u8])>
    ensures found { IfSome result (λ x. bytes.now ≡ name_of x.0 ++ x.1.now) }
    ensures none { IfNone result ((kind : KindOfLine) (rest : List ℕ) → bytes.now ≢ name_of kind ++ rest) }
{
    for kind in KINDS {
        if let Some(rest) = bytes.strip_prefix(kind.name()) {
            return Some((kind, rest));
        }
    }
    None
}

/// Reads the line at the front: gives its kind and what is behind it, and leaves its numbers. None where no line's text stands
/// there.
pub fn read_line<'b>(
    numbers: &mut Vec<u64>,
    bytes: &'b [u8],
) -> Result<Option<(Kind, &'b [u8])>, AllocError>
    ensures found { IfOk result (λ found. IfSome found (λ x. bytes.now
        ≡ text_of_line (record { kind = x.0; numbers = numbers.new.items }) ++ x.1.now)) }
    ensures fit { IfOk result (λ found. IfSome found (λ x. AreNumbers numbers.new.items)) }
    ensures none { IfOk result (λ found. IfNone found ((line : Line) (rest : List ℕ)
        → AreNumbers line.numbers → bytes.now ≢ text_of_line line ++ rest)) }
{
    let Some((kind, rest)) = read_kind(bytes) else {
        return Ok(None);
    };
    match read_numbers(numbers, rest)? {
        Some(rest) => Ok(Some((kind, rest))),
        None => Ok(None),
    }
}
