//! What the fields of a frontier lead to.

ghost use Rattle.std.specs.Prelude.{◌≡◌, ◌<◌, ◌≤◌, drop, length, IfOk};
ghost use Rattle.rec_model.specs.Numbering.{joined};
ghost use Rattle.rec_trace.specs.Children.{all_children, AreBelow, AreFieldsOf};

use crate::chunks::{gather, meet_chunks};
use crate::fields::Fields;
use rec_world::Numbering;
use std::alloc::{AllocError as NoMemory, Global};
use std::thread::Threads;

/// How many fields a frontier has at least that is cut into chunks: a thread costs more than it saves over a shorter one.
const LEAST_CUT: usize = 262_144;

/// Numbers what the fields of the frontier lead to, in order, each slot where it is first met. The frontier is the list from its slot
/// number `first` on, and a long one is cut into as many chunks as `pieces` says, at most.
pub(super) fn follow<R: Threads + Sync>(
    rt: &R,
    alloc: Global,
    fields: Fields<'_>,
    pieces: u16,
    first: usize,
    found: Numbering,
) -> Result<Numbering, NoMemory>
    requires pieces { 1 ≤ pieces }
    requires fields { AreFieldsOf found.slots fields.words.now fields.each }
    requires list { AreBelow found.slots found.list }
    requires first { first < length found.list }

    ensures slots { IfOk result (λ next. next.slots ≡ found.slots) }
    ensures joined { IfOk result (λ next. next.list ≡ joined found.list (all_children fields.entry.words.now fields.entry.each (drop first found.list))) }
{
    let frontier = found.list().len() - first;
    if pieces == 1 || frontier.saturating_mul(fields.each) < LEAST_CUT {
        Ok(follow_alone(fields, first, found))
    } else {
        follow_in_chunks(rt, alloc, fields, pieces, first, found)
    }
}

// The same in this thread, slot by slot. The numbering is passed by value, since the compiler keeps where it lies in registers then.
#[inline(always)]
fn follow_alone(fields: Fields<'_>, first: usize, mut found: Numbering) -> Numbering
    requires fields { AreFieldsOf found.slots fields.words.now fields.each }
    requires list { AreBelow found.slots found.list }
    requires first { first ≤ length found.list }

    ensures slots { result.slots ≡ found.slots }
    ensures joined { result.list ≡ joined found.list (all_children fields.entry.words.now fields.entry.each (drop first found.list)) }
{
    for i in first..found.list().len() {
        let slot = found.list()[i];
        found.meet_fields(fields.of(slot));
    }
    found
}

// The same by threads, a chunk for each.
fn follow_in_chunks<R: Threads + Sync>(
    rt: &R,
    alloc: Global,
    fields: Fields<'_>,
    pieces: u16,
    first: usize,
    mut found: Numbering,
) -> Result<Numbering, NoMemory>
    requires pieces { 1 ≤ pieces }
    requires fields { AreFieldsOf found.slots fields.words.now fields.each }
    requires list { AreBelow found.slots found.list }
    requires first { first < length found.list }

    ensures slots { IfOk result (λ next. next.slots ≡ found.slots) }
    ensures joined { IfOk result (λ next. next.list ≡ joined found.list (all_children fields.entry.words.now fields.entry.each (drop first found.list))) }
{
    let chunks = gather(rt, alloc, fields, pieces, &found.list()[first..], &found)?;
    meet_chunks(&mut found, &chunks);
    Ok(found)
}
