//! A heap is opened and closed.
ghost use Rattle.std.specs.Prelude.{◌≡◌, ℕ, ◌<◌, ◌≤◌, All, IfOk, IfErr, IsSome, IsTrue, ◌↔◌, None, Some, length, nat_lt, true, if◌then◌else◌};
ghost use Rattle.rec_model.specs.declared.limits.TheConstants.{MOST_MUTATORS};
ghost use Rattle.rec_core.specs.Core.{opened};
ghost use Rattle.rec_core.specs.Config.{IsConfig};
ghost use Rattle.rec_world.specs.OpenError.{IsRefused};
ghost use Rattle.recycler_c.specs.Calls.{Closes, Opens};
ghost use Rattle.recycler_c.specs.Standing.{AreTied, can_collect, collects_in, held_at};
ghost use Rattle.recycler_c.specs.declared.end.End.TheVariants as ends;
ghost use Rattle.recycler_c.specs.declared.handle.Handle.{Handle as Handles};

use crate::code::{Code, refusal};
use crate::end::{End, Resting};
use crate::handle::Handle;
use rec_world::{Config, OpenError, World};
use std::alloc::{AllocError as NoMemory, Global};

/// Opens a heap at rest, with one object in slot 0 and in register 0 of each mutator. Its memory is taken here, and a box for each
/// handle that it needs.
pub fn open(alloc: Global, collector: &mut Handle, mutators: &mut [Handle], config: Config) -> Code
    requires many { length mutators.old ≡ MOST_MUTATORS }
    requires collects { can_collect collector.old.owned.held ≡ true }
    requires tied { AreTied collector.old.owned.held mutators.old }

    ensures opens { Opens config collector.old.owned.held mutators.old result collector.new.owned.held mutators.new }
    ensures collects { can_collect collector.new.owned.held ≡ true }
    ensures tied { AreTied collector.new.owned.held mutators.new }
{
    if collector.full {
        return Code::Open;
    }
    match make(alloc, config) {
        Ok((whole, seats)) => {
            seat_all(mutators, seats);
            collector.put(whole);
            Code::Ok
        }
        Err(error) => refusal(error),
    }
}

// A heap in its box, and a vacant box for each of its mutators.
fn make(alloc: Global, config: Config) -> Result<(Box<End>, Vec<Box<End>>), OpenError>
    ensures refused { IfErr result (λ error. IsRefused config error) }
    ensures config { IfOk result (λ made. IsConfig config) }
    ensures opened { IfOk result (λ made. made.0.value ≡ ends.Resting (opened config) None) }
    ensures seats { IfOk result (λ made. length made.1.items ≡ config.mutators) }
    ensures vacant { IfOk result (λ made. All (λ seat. seat.value ≡ ends.Vacant) made.1.items) }
{
    let world = World::open(alloc, config)?;
    let whole = boxed(alloc, End::Resting(Resting::of(world), None))?;
    let seats = make_seats(alloc, config.mutators as usize)?;
    Ok((whole, seats))
}

fn boxed(alloc: Global, end: End) -> Result<Box<End>, NoMemory>
    ensures { IfOk result (λ whole. whole.value ≡ end) }
{
    Ok(Box::new(alloc, end)?)
}

fn make_seats(alloc: Global, count: usize) -> Result<Vec<Box<End>>, NoMemory>
    ensures count { IfOk result (λ seats. length seats.items ≡ count) }
    ensures vacant { IfOk result (λ seats. All (λ seat. seat.value ≡ ends.Vacant) seats.items) }
{
    let mut seats = Vec::with_capacity(alloc, count)?;
    while seats.len() < count {
        seats.push_reserved(boxed(alloc, End::Vacant)?);
    }
    Ok(seats)
}

// Gives the first handles a box each.
fn seat_all(handles: &mut [Handle], mut seats: Vec<Box<End>>)
    requires room { length seats.items ≤ length handles.old }
    requires closed { (k : ℕ) (d : Handles) → k < length handles.old → held_at handles.old k d ≡ None }
    requires vacant { All (λ seat. seat.value ≡ ends.Vacant) seats.items }
    ensures { (k : ℕ) (d : Handles) → k < length handles.new → held_at handles.new k d ≡ (if nat_lt k (length seats.items) then Some ends.Vacant else None) }
{
    while let Some(seat) = seats.pop() {
        let last = seats.len();
        handles[last].put(seat);
    }
}

/// Closes a heap at rest, and gives back its memory and that of its handles.
pub fn close(
    alloc: Global,
    collector: &mut Handle,
    mutators: &mut [Handle],
    listener: &mut Handle,
) -> Code
    requires collects { can_collect collector.old.owned.held ≡ true }
    requires tied { AreTied collector.old.owned.held mutators.old }

    ensures closes { Closes collector.old.owned.held mutators.old listener.old result collector.new.owned.held mutators.new listener.new }
    ensures collects { can_collect collector.new.owned.held ≡ true }
    ensures tied { AreTied collector.new.owned.held mutators.new }
{
    if !collector.full {
        return Code::Closed;
    }
    let whole = collector.take(alloc);
    if runs(&whole) {
        collector.put(whole);
        return Code::Runs;
    }
    drop(whole);
    empty_all(alloc, mutators);
    empty(alloc, listener);
    Code::Ok
}

// Whether a heap runs in it.
fn runs(end: &End) -> bool
    ensures { IsTrue result ↔ IsSome (collects_in (Some end.now)) }
{
    match end {
        End::Collecting(_, _) => true,
        _ => false,
    }
}

// Gives the box of a handle back.
fn empty(alloc: Global, handle: &mut Handle)
    ensures { handle.new.owned.held ≡ None }
{
    if handle.full {
        drop(handle.take(alloc));
    }
}

// Gives all boxes back.
fn empty_all(alloc: Global, handles: &mut [Handle])
    ensures { (k : ℕ) (d : Handles) → k < length handles.new → held_at handles.new k d ≡ None }
{
    for k in 0..handles.len() {
        if handles[k].full {
            drop(handles[k].take(alloc));
        }
    }
}
