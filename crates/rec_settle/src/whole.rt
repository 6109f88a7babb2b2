//! Settling as a whole.

ghost use Rattle.std.specs.Prelude.{◌≡◌, ◌+◌, ◌<◌, ◌≤◌, List, [], IfErr, IfOk};
ghost use Rattle.rec_word.specs.declared.word.TheConstants.{LAST_EPOCH};
ghost use Rattle.rec_io.specs.Faults.{Rose};
ghost use Rattle.rec_collector.specs.Shown.{Shown};
ghost use Rattle.rec_core.specs.Shown.{Shows};
ghost use Rattle.rec_world.specs.World.{IsWorld};
ghost use Rattle.rec_settle.specs.Collecting.{AreIdle, taken_slots};
ghost use Rattle.rec_settle.specs.Shown.{IsShownTo, StopsBehind};
ghost use Rattle.rec_settle.specs.Whole.{HasSettled, StaysSeen};
ghost use Rattle.rec_settle.specs.declared.turns.Settling as stages;

use crate::turns::{EpochsSpent, Settling};
use rec_world::{Unwatched, Watch, World};
use std::alloc::AllocError as NoMemory;

/// What settling came to: how many collections it completed, how many slots they swept, and how many slots hold objects.
#[derive(Clone, Copy, Debug, PartialEq, Eq)]
pub struct Settled {
    pub epochs: u32,
    pub freed: u32,
    pub live: u32,
}

/// Settles the heap, in which no mutator works: afterwards just the slots that registers reach hold objects, each with its true
/// count. Where fewer than four epochs are left, that is the answer, and nothing changes.
pub fn settle(world: &mut World) -> Result<Settled, EpochsSpent>
    requires idle { AreIdle world.old }

    ensures spent { IfErr result (λ error. (LAST_EPOCH < world.old.epoch + 4) × (error.requested ≡ world.old.epoch) × (world.new ≡ world.old)) }

    // Just what registers reach is taken, with true counts; and how it came to that.
    ensures done { IfOk result (HasSettled world.old world.new) }

    // Registers stay, and whatever heap that never frees stood for the world still does, by the same numbers of its objects.
    ensures stays { StaysSeen world.old world.new }
    ensures idle { AreIdle world.new }
    ensures config { world.new.config ≡ world.old.config }
    ensures kept { IsWorld world.new }
{
    match settle_watched(world, &mut Unwatched) {
        Ok(settled) => settled,
        Err(_) => unreachable!(),
    }
}

/// Settles the heap, as `settle` does, and shows the watch every step of the collector, once, in order, and right behind it, if that asks
/// to be shown steps at all. Where the watch refuses one, the heap is as that step left it.
pub fn settle_watched<W: Watch>(
    world: &mut World,
    watch: &mut W,
) -> Result<Result<Settled, EpochsSpent>, NoMemory>
    requires idle { AreIdle world.old }

    // What `settle` promises.
    ensures spent { IfOk result (λ settled. IfErr settled (λ error. (LAST_EPOCH < world.old.epoch + 4) × (error.requested ≡ world.old.epoch) × (world.new ≡ world.old))) }
    ensures done { IfOk result (λ settled. IfOk settled (HasSettled world.old world.new)) }
    ensures stays { IfOk result (λ settled. StaysSeen world.old world.new) }
    ensures idle { AreIdle world.new }
    ensures config { world.new.config ≡ world.old.config }
    ensures kept { IsWorld world.new }

    // What the watch was shown: all turns up to the settled heap, which is what a watch is shown of the moves that they make up; or,
    // where it refused one, all turns before that.
    ensures shown { IfOk result (λ settled. IfOk settled (λ told. (shown : List Shown) × IsShownTo world.old shown stages.Settling.Settled world.new × W.WasShown watch.old shown watch.new × Shows world.old shown world.new)) }
    ensures unshown { IfOk result (λ settled. IfErr settled (λ error. W.WasShown watch.old [] watch.new)) }
    ensures refused { IfErr result (λ error. (shown : List Shown) × StopsBehind world.old shown world.new × W.WasShown watch.old shown watch.new) }
    ensures rose { IfErr result (λ error. Rose (W.refused watch.old) (W.refused watch.new)) }
    ensures never_falls { W.refused watch.old ≤ W.refused watch.new }
{
    let mut settling = match Settling::start(world) {
        Ok(settling) => settling,
        Err(spent) => return Ok(Err(spent)),
    };
    let collections = world.collections();
    let swept = world.freed();
    while settling.go_on(world, watch)? {}
    Ok(Ok(Settled {
        epochs: world.collections() - collections,
        freed: (world.freed() - swept) as u32,
        live: count_taken(world),
    }))
}

/// How many slots hold an object.
pub fn count_taken(world: &World) -> u32
    ensures { result ≡ taken_slots world.now }
{
    let mut taken = 0;
    for slot in 0..world.slots() {
        if world.taken(slot) {
            taken += 1;
        }
    }
    taken
}
