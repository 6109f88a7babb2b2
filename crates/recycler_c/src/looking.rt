//! A heap at rest settles, and is looked at.
ghost use Rattle.std.specs.Prelude.{◌≡◌, Option, Some, true};
ghost use Rattle.recycler_c.specs.Calls.{Counts, Looks, Settles, Tallies, totals_in};
ghost use Rattle.recycler_c.specs.Standing.{Tellers, can_collect};

use crate::code::Code;
use crate::end::{End, Resting};
use crate::handle::{Handle, fill};
use crate::told::{Settled, Slot, Totals, show_slot};
use rec_settle::{count_taken, settle};
use rec_world::World;
use std::alloc::Global;

/// Settles a heap at rest: afterwards just the slots that registers reach hold objects, with true counts.
pub fn settle_in(alloc: Global, handle: &mut Handle, told: &mut Settled) -> Code
    requires { can_collect handle.old.owned.held ≡ true }
    ensures { Settles handle.old.owned.held told.old result handle.new.owned.held told.new }
{
    if !handle.full {
        return Code::Closed;
    }
    let mut whole = handle.take(alloc);
    let (end, code) = settle_end(Box::replace(&mut whole, End::Vacant), told);
    fill(&mut whole, end);
    handle.put(whole);
    code
}

fn settle_end(end: End, told: &mut Settled) -> (End, Code)
    requires { can_collect (Some end) ≡ true }
    ensures { Settles (Some end) told.old result.1 (Some result.0) told.new }
{
    match end {
        End::Resting(resting, teller) => {
            let (settled, code) = settle_world(resting, told);
            (End::Resting(settled, teller), code)
        }
        other => (other, Code::Runs),
    }
}

fn settle_world(resting: Resting, told: &mut Settled) -> (Resting, Code)
    ensures { (t : Option Tellers) → Settles (Some (End.Resting resting t)) told.old result.1 (Some (End.Resting result.0 t)) told.new }
{
    let mut world = resting.into_world();
    match settle(&mut world) {
        Ok(done) => {
            *told = Settled {
                epochs: done.epochs,
                freed: done.freed,
                live: done.live,
            };
            (Resting::of(world), Code::Ok)
        }
        Err(_) => (Resting::of(world), Code::EpochsSpent),
    }
}

/// Looks at a slot of a heap at rest.
pub fn look(alloc: Global, handle: &mut Handle, slot: u32, told: &mut Slot) -> Code
    requires { can_collect handle.old.owned.held ≡ true }
    ensures looks { Looks handle.old.owned.held slot told.old result told.new }
    ensures same { handle.new.owned.held ≡ handle.old.owned.held }
{
    if !handle.full {
        return Code::Closed;
    }
    let whole = handle.take(alloc);
    let code = match &*whole {
        End::Resting(resting, _) => look_at(resting.world(), slot, told),
        _ => Code::Runs,
    };
    handle.put(whole);
    code
}

fn look_at(world: &World, slot: u32, told: &mut Slot) -> Code
    ensures { (t : Option Tellers) → Looks (Some (End.Resting world.now t)) slot told.old result told.new }
{
    if slot >= u32::from(world.slots()) {
        return Code::Range;
    }
    let slot = slot as u16;
    *told = show_slot(world.label(slot), world.count(slot));
    Code::Ok
}

/// Counts the slots of a heap at rest that hold objects.
pub fn count(alloc: Global, handle: &mut Handle, taken: &mut u32) -> Code
    requires { can_collect handle.old.owned.held ≡ true }
    ensures counts { Counts handle.old.owned.held taken.old result taken.new }
    ensures same { handle.new.owned.held ≡ handle.old.owned.held }
{
    if !handle.full {
        return Code::Closed;
    }
    let whole = handle.take(alloc);
    let code = match &*whole {
        End::Resting(resting, _) => {
            *taken = count_taken(resting.world());
            Code::Ok
        }
        _ => Code::Runs,
    };
    handle.put(whole);
    code
}

/// Tells the totals of a heap at rest.
pub fn total(alloc: Global, handle: &mut Handle, told: &mut Totals) -> Code
    requires { can_collect handle.old.owned.held ≡ true }
    ensures tallies { Tallies handle.old.owned.held told.old result told.new }
    ensures same { handle.new.owned.held ≡ handle.old.owned.held }
{
    if !handle.full {
        return Code::Closed;
    }
    let whole = handle.take(alloc);
    let code = match &*whole {
        End::Resting(resting, _) => {
            *told = totals_of(resting.world());
            Code::Ok
        }
        _ => Code::Runs,
    };
    handle.put(whole);
    code
}

fn totals_of(world: &World) -> Totals
    ensures { result ≡ totals_in world.now }
{
    let sets = world.sets();
    Totals {
        born: world.made(),
        freed: world.freed(),
        epoch: world.epoch(),
        collections: world.collections(),
        cycles_freed: sets.freed,
        cycles_refused_delta: sets.delta,
        cycles_refused_sigma: sets.sigma,
    }
}
