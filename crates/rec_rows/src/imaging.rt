//! Images of heaps, written and read. In a row each LF of an image is spelled `/`.

use crate::told::refusal;
use rec_image::{ImageError, read, restore, write};
use rec_settle::settle;
use rec_world::{Policy, World};
use std::alloc::{AllocError as NoMemory, Global};

// How many entries a log of a heap has that an image makes.
const LOG_ENTRIES: u32 = 16;

/// Settles a heap in which no mutator works, and tells its image.
pub fn written(alloc: Global, world: &mut World) -> Result<String, NoMemory> {
    if !world.at_rest() {
        return String::from_str(alloc, "a mutator works");
    }
    match settle(world) {
        Err(spent) => format!(in alloc; "{spent}"),
        Ok(_) => in_a_row(alloc, &write(alloc, world)?),
    }
}

// A text as it is spelled in a row.
fn in_a_row(alloc: Global, text: &[u8]) -> Result<String, NoMemory> {
    let mut row = String::new(alloc);
    for byte in text {
        row.push(if *byte == b'\n' {
            '/'
        } else {
            char::from(*byte)
        })?;
    }
    Ok(row)
}

// The bytes that a line spells behind its first word.
fn spelled(alloc: Global, asked: &str) -> Result<Vec<u8>, NoMemory> {
    let (_, spelled) = asked.split_once(' ').unwrap_or((asked, ""));
    let mut bytes = Vec::new(alloc);
    for byte in spelled.as_bytes() {
        bytes.push(if *byte == b'/' { b'\n' } else { *byte })?;
    }
    Ok(bytes)
}

/// Reads the image that a line spells behind its first word, and tells its numbers, or the line that is refused.
pub fn read_back(alloc: Global, asked: &str) -> Result<String, NoMemory> {
    let bytes = spelled(alloc, asked)?;
    told(alloc, read(alloc, &bytes))
}

/// The heap of the image that a line spells behind its first word, with logs for 16 entries. Where there is none it is this one, and
/// what is told is why.
pub fn restored(alloc: Global, world: World, asked: &str) -> (World, Result<String, NoMemory>) {
    match heap_of(alloc, asked) {
        Ok(heap) => {
            drop(world);
            (heap, Ok(String::new(alloc)))
        }
        Err(told) => (world, told),
    }
}

// The heap of the image that a line spells, or what is told where there is none.
fn heap_of(alloc: Global, asked: &str) -> Result<World, Result<String, NoMemory>> {
    match spelled(alloc, asked) {
        Ok(bytes) => {
            let heap = heap_in(alloc, &bytes);
            drop(bytes);
            heap
        }
        Err(error) => Err(Err(error)),
    }
}

// The same, of an image's bytes.
fn heap_in(alloc: Global, bytes: &[u8]) -> Result<World, Result<String, NoMemory>> {
    match read(alloc, bytes) {
        Ok(image) => {
            let plain = Policy {
                steady: false,
                least_roots: 0,
                most_postponed: 0,
            };
            let heap = restore(alloc, &image, LOG_ENTRIES, plain);
            drop(image);
            heap.map_err(|error| refusal(alloc, &error))
        }
        Err(error) => Err(told(alloc, Err(error))),
    }
}

fn told(alloc: Global, found: Result<rec_image::Image, ImageError>) -> Result<String, NoMemory> {
    match found {
        Ok(image) => {
            let (slots, fields) = (image.slots(), image.fields());
            let (registers, mutators) = (image.registers(), image.mutators());
            format!(in alloc;
                "slots {slots} fields {fields} registers {registers} mutators {mutators}"
            )
        }
        Err(ImageError::Bad { line }) => {
            let error = ImageError::Bad { line };
            format!(in alloc; "{error}: line {line}")
        }
        Err(ImageError::NoMemory) => format!(in alloc; "{}", ImageError::NoMemory),
    }
}
