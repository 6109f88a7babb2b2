//! All bytes of a source, up to a limit.
ghost use Rattle.std.specs.Prelude.{◌≡◌, ℕ, ◌+◌, ◌<◌, ◌≤◌, ◌++◌, List, false, length, IsTrue, IfOk, OnOk, IsErrOf, vec_len};
ghost use Rattle.rec_io.specs.Faults.{Rose};
ghost use Rattle.rec_io.specs.Source.{Passes, IsSpent};
ghost use Rattle.rec_io.specs.Whole.{IsAtEnd};

use crate::source::{Given, Source};
use std::alloc::{AllocError, Global};

// How many bytes are asked for at once.
const CHUNK: usize = 65_536;

/// Why the bytes could not be had.
#[derive(Clone, Copy)]
pub enum ReadStop {
    /// A read failed.
    Fault,
    NoMemory,
}

impl From<AllocError> for ReadStop {
    ghost use Rattle.rec_io.specs.declared.reader.ReadStop.TheVariants.{NoMemory};

    ghost from_gives = { λ _ e. e ≡ NoMemory };

    fn from(_: AllocError) -> ReadStop {
        ReadStop::NoMemory
    }
}

// A buffer for one read. Its size is a parameter, so that a proof doesn't lay the zeros out.
fn buffer(alloc: Global, size: usize) -> Result<Vec<u8>, AllocError>
    ensures { IfOk result (λ chunk. vec_len chunk ≡ size) }
{
    vec![in alloc; 0u8; size]
}

// Reads once, and keeps what came. The answer is whether there may be more.
fn read_more<S: Source>(
    source: &mut S,
    chunk: &mut [u8],
    bytes: &mut Vec<u8>,
) -> Result<bool, ReadStop>
    requires { 0 < length chunk.old }

    ensures passed { OnOk result ((piece : List ℕ) × Passes (S.rest source.old) (S.rest source.new) piece × (bytes.new.items ≡ bytes.old.items ++ piece)) }
    ensures more { IfOk result (λ more. IsTrue more → vec_len bytes.old < vec_len bytes.new) }
    ensures end { IfOk result (λ more. more ≡ false → IsSpent (S.rest source.old) (S.rest source.new)) }
    ensures few { OnOk result (vec_len bytes.new ≤ vec_len bytes.old + length chunk.old) }
    ensures left { (piece : List ℕ) × Passes (S.rest source.old) (S.rest source.new) piece }
    ensures fault { IsErrOf result ReadStop.Fault → Rose (S.faults source.old) (S.faults source.new) }
    ensures uncounted { ¬ IsErrOf result ReadStop.Fault → S.faults source.new ≡ S.faults source.old }
{
    match source.read(chunk) {
        Given::Bytes(count) => {
            bytes.extend_from_slice(chunk.split_at(count).0)?;
            Ok(true)
        }
        Given::End => Ok(false),
        Given::Failed => Err(ReadStop::Fault),
    }
}

/// Reads a source to its end, or past this many bytes: then it stops. It asks for a piece of 65,536 bytes at a time, so at most one piece
/// was read past the limit.
pub fn read_all<S: Source>(alloc: Global, source: &mut S, most: usize) -> Result<Vec<u8>, ReadStop>
    ensures passed { IfOk result (λ bytes. Passes (S.rest source.old) (S.rest source.new) bytes.items) }
    ensures whole { IfOk result (λ bytes. length bytes.items ≤ most → IsAtEnd (S.rest source.old) (S.rest source.new)) }
    ensures few { IfOk result (λ bytes. length bytes.items ≤ most + 65536) }
    ensures left { (bytes : List ℕ) × Passes (S.rest source.old) (S.rest source.new) bytes }

    // A read that fails ends it, and no other read is counted.
    ensures fault { IsErrOf result ReadStop.Fault → Rose (S.faults source.old) (S.faults source.new) }
    ensures uncounted { ¬ IsErrOf result ReadStop.Fault → S.faults source.new ≡ S.faults source.old }
{
    let mut chunk = buffer(alloc, CHUNK)?;
    let mut bytes = Vec::new(alloc);
    while bytes.len() <= most {
        if !read_more(source, &mut chunk, &mut bytes)? {
            return Ok(bytes);
        }
    }
    Ok(bytes)
}
