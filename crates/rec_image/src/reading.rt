//! Reading an image's text, a line at a time.

ghost use Rattle.std.specs.Prelude.{◌≡◌, ◌↔◌, ◌<◌, ◌≤◌, ◌++◌, ℕ, List, [], ◌∷◌, Err, IfErr, IfOk, IsTrue, length};
ghost use Rattle.std.specs.List.{flat_map};
ghost use Rattle.rec_image.specs.declared.error.ImageError.TheVariants.{Bad};
ghost use Rattle.rec_image.specs.Drafts.{AreHeld, AreObjects, BeginsObject, draft, held_in, objects_in, so_far};
ghost use Rattle.rec_image.specs.Image.{ImageContents, IsImage, IsSized, StopsAt, header_line, heap_line as heap_line_of, object_line, registers_line, text};

use crate::error::ImageError;
use crate::held::Held;
use crate::image::Image;
use crate::line::{Heap, heap_line};
use crate::objects::Objects;
use crate::piece::behind;
use std::alloc::Global;

/// Whether the bytes begin as the line of an object.
fn begins_object(bytes: &[u8]) -> bool
    ensures { IsTrue result ↔ BeginsObject bytes.now }
{
    match bytes {
        [first, ..] => *first == b'o' || *first == b'l',
        [] => false,
    }
}

/// The objects whose lines are at the front, behind the heap's line, and what is behind them.
fn read_objects(alloc: Global, heap: Heap, bytes: &[u8]) -> Result<(Objects, &[u8]), ImageError>
    requires { IsSized heap.slots heap.fields heap.registers heap.mutators }
    ensures found { IfOk result (λ x. AreObjects heap x.0) }
    ensures lines { IfOk result (λ x. bytes.now ≡ flat_map object_line (objects_in heap x.0) ++ x.1.now) }
    ensures ends { IfOk result (λ x. ¬ BeginsObject x.1.now) }
    ensures bad { (line : ℕ) → result ≡ Err (Bad line) → StopsAt (so_far (draft heap [] []) ++ bytes.now) line }
{
    let mut objects = Objects::new(alloc, heap);
    let mut rest = bytes;
    while begins_object(rest) {
        let line = objects.count() + 3;
        rest = match objects.add(heap, rest) {
            Ok(Some(behind)) => behind,
            Ok(None) => return Err(ImageError::Bad { line }),
            Err(_) => return Err(ImageError::NoMemory),
        };
    }
    Ok((objects, rest))
}

/// The registers whose lines are at the front, behind the objects, and what is behind them.
fn read_held<'b>(
    alloc: Global,
    heap: Heap,
    objects: &Objects,
    bytes: &'b [u8],
) -> Result<(Held, &'b [u8]), ImageError>
    requires objects { AreObjects heap objects.now }
    requires ends { ¬ BeginsObject bytes.now }
    ensures found { IfOk result (λ x. AreHeld heap (objects_in heap objects.now) x.0) }
    ensures all { IfOk result (λ x. x.0.rows ≡ heap.mutators) }
    ensures lines { IfOk result (λ x. bytes.now ≡ flat_map registers_line (held_in heap x.0) ++ x.1.now) }
    ensures bad { (line : ℕ) → result ≡ Err (Bad line)
        → StopsAt (so_far (draft heap (objects_in heap objects.now) []) ++ bytes.now) line }
{
    let first = objects.count() + 3;
    if objects.meeting.met > objects.count() {
        return Err(ImageError::Bad { line: first });
    }
    let mut held = Held::new(alloc);
    let mut rest = bytes;
    while held.rows < heap.mutators {
        let line = first + held.rows;
        rest = match held.add(heap, objects, rest) {
            Ok(Some(behind)) => behind,
            Ok(None) => return Err(ImageError::Bad { line }),
            Err(_) => return Err(ImageError::NoMemory),
        };
    }
    Ok((held, rest))
}

/// The image whose text the bytes are.
pub fn read(alloc: Global, bytes: &[u8]) -> Result<Image, ImageError>
    // What is read is an image, and its text is the bytes.
    ensures found { IfOk result (λ image. IsImage image × (text image ≡ bytes.now)) }
    // It is the only image of which they are the text.
    ensures only { IfOk result (λ image. (other : ImageContents) → IsImage other → text other ≡ bytes.now → other ≡ image) }
    // What is refused is no image's text, and the line is the first with which no image goes on.
    ensures refused { (line : ℕ) → result ≡ Err (Bad line) → StopsAt bytes.now line }
{
    let Some(rest) = behind(b"recycler image 1\n", bytes) else {
        return Err(ImageError::Bad { line: 1 });
    };
    let Some((heap, rest)) = heap_line(rest) else {
        return Err(ImageError::Bad { line: 2 });
    };
    let (objects, rest) = match read_objects(alloc, heap, rest) {
        Ok(found) => found,
        Err(error) => return Err(error),
    };
    let (held, rest) = match read_held(alloc, heap, &objects, rest) {
        Ok(found) => found,
        Err(error) => return Err(error),
    };
    let line = objects.count() + heap.mutators + 3;
    let Some(rest) = behind(b"end\n", rest) else {
        return Err(ImageError::Bad { line });
    };
    if !rest.is_empty() {
        return Err(ImageError::Bad { line: line + 1 });
    }
    Ok(Image::of(heap, objects, held))
}
