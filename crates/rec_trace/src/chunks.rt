//! A frontier that is cut into chunks, and what threads find in them.

ghost use Rattle.std.specs.Prelude.{◌≡◌, ℕ, ◌+◌, ◌*◌, ◌<◌, ◌≤◌, ◌++◌, List, map, length, IfOk, OnOk};
ghost use Rattle.std.specs.List.{flat_map};
ghost use Rattle.rec_word.specs.Word.{target_of};
ghost use Rattle.rec_model.specs.Numbering.{joined};
ghost use Rattle.rec_model.specs.Reach.{named};
ghost use Rattle.rec_trace.specs.Children.{all_children, unmet, AreBelow, AreFieldsOf};

use crate::fields::Fields;
use rayon::prelude::*;
use rec_word::target;
use rec_world::Numbering;
use std::alloc::{AllocError as NoMemory, Global};
use std::thread::Threads;

/// What the fields of the frontier lead to, in order and chunk by chunk, without what is found already. Threads look at the chunks side
/// by side; they share the words and what was found before.
pub(super) fn gather<R: Threads + Sync>(
    rt: &R,
    alloc: Global,
    fields: Fields<'_>,
    pieces: u16,
    frontier: &[u16],
    found: &Numbering,
) -> Result<Vec<Vec<u16>>, NoMemory>
    requires pieces { 1 ≤ pieces }
    requires some { 0 < length frontier.now }
    requires fields { AreFieldsOf found.now.slots fields.words.now fields.each }
    requires frontier { AreBelow found.now.slots frontier.now }

    ensures { IfOk result (λ chunks. flat_map (λ chunk. chunk.items) chunks.items ≡ unmet found.now.list (all_children fields.entry.words.now fields.entry.each frontier.now)) }
{
    frontier
        .par_chunks(chunk_length(frontier.len(), pieces))
        .with_min_len(1)
        .map(
            move |chunk: &[u16]| -> Result<Vec<u16>, NoMemory>
                requires { AreBelow found.now.slots chunk.now × AreFieldsOf found.now.slots fields.words.now fields.each }
                ensures { IfOk result (λ children. children.items ≡ unmet found.entry.now.list (all_children fields.entry.words.now fields.entry.each chunk.now)) }
            { unmet_children(alloc, fields, found, chunk) },
        )
        .collect::<Result<Vec<Vec<u16>>, NoMemory>>(rt, alloc)?
}

// How many slots a chunk has where a frontier is cut into as many as `pieces` says, at most.
fn chunk_length(frontier: usize, pieces: u16) -> usize
    requires pieces { 1 ≤ pieces }
    requires some { 0 < frontier }

    ensures some { 0 < result }
    ensures few { frontier ≤ result * pieces }
{
    frontier.div_ceil(usize::from(pieces))
}

// What the fields of a chunk lead to, in order, without what is found already.
fn unmet_children(
    alloc: Global,
    fields: Fields<'_>,
    found: &Numbering,
    chunk: &[u16],
) -> Result<Vec<u16>, NoMemory>
    requires fields { AreFieldsOf found.now.slots fields.words.now fields.each }
    requires chunk { AreBelow found.now.slots chunk.now }

    ensures { IfOk result (λ children. children.items ≡ unmet found.now.list (all_children fields.entry.words.now fields.entry.each chunk.now)) }
{
    let mut children = Vec::with_capacity(alloc, chunk.len().saturating_mul(fields.each))?;
    for slot in chunk {
        push_unmet(&mut children, found, fields.of(*slot))?;
    }
    Ok(children)
}

// Adds what the words of a slot's fields lead to, without what is found already.
fn push_unmet(children: &mut Vec<u16>, found: &Numbering, words: &[u64]) -> Result<(), NoMemory>
    ensures { OnOk result (children.new.items ≡ children.old.items ++ unmet found.now.list (named (map target_of words.now))) }
{
    for word in words {
        if let Some(slot) = target(*word) {
            if found.number(slot).is_none() {
                children.push(slot)?;
            }
        }
    }
    Ok(())
}

/// Numbers the slots of all chunks, in order, each where it is first met.
pub(super) fn meet_chunks(found: &mut Numbering, chunks: &[Vec<u16>])
    requires { AreBelow found.old.slots (flat_map (λ chunk. chunk.items) chunks.now) }

    ensures slots { found.new.slots ≡ found.old.slots }
    ensures joined { found.new.list ≡ joined found.old.list (flat_map (λ chunk. chunk.items) chunks.now) }
{
    for chunk in chunks {
        meet_chunk(found, chunk);
    }
}

// Numbers the slots of a chunk, in order, each where it is first met.
fn meet_chunk(found: &mut Numbering, chunk: &[u16])
    requires { AreBelow found.old.slots chunk.now }

    ensures slots { found.new.slots ≡ found.old.slots }
    ensures joined { found.new.list ≡ joined found.old.list chunk.now }
{
    for slot in chunk {
        found.meet(Some(*slot));
    }
}
