//! The commands of a script, carried out in the order of the playing rule.

ghost use Rattle.std.specs.Prelude.{◌≡◌, ◌+◌, ◌≤◌, List, IfErr, IfOk, length};
ghost use Rattle.rec_io.specs.Faults.{Rose};
ghost use Rattle.rec_model.specs.LegalOrder.{Event};
ghost use Rattle.rec_model.specs.Sight.{Represents};
ghost use Rattle.rec_collector.specs.Shown.{Shown};
ghost use Rattle.rec_core.specs.Core.{sight};
ghost use Rattle.rec_core.specs.Shown.{Shows};
ghost use Rattle.rec_order.specs.Legal.{AreIdle};
ghost use Rattle.rec_play.specs.Played.{IsPlayed, MayNote, config_of, last_moment, lengths_of, lines_of};
ghost use Rattle.rec_play.specs.Playing.{order as order_of};
ghost use Rattle.rec_play.specs.Start.{IsStartOf, MayBegin, Start};
ghost use Rattle.rec_play.specs.Shown.{IsShownWhole, WasRefused};
ghost use Rattle.rec_world.specs.World.{IsWorld};

use crate::{Move, Playing};
use rec_script::Script;
use rec_world::{Journal, Order, Unwatched, Watch, World};
use std::alloc::AllocError as NoMemory;

/// Runs the commands of a script on a heap on which they may begin, by the playing rule with this seed and at most so many
/// drawn turns; a turn of the collector is one step of its collection. Each mutator's journal gets its commands with what was
/// told, and `order` the mutators, turn by turn. It can't be refused memory.
pub fn play(
    script: &Script,
    seed: u64,
    turns: u32,
    world: &mut World,
    journals: &mut [Journal],
    order: &mut Order,
)
    // The heap is opened with the script's numbers, with one object or from objects, and nothing was done on it; there is one journal
    // per mutator, empty, with room for its commands; the order is empty and has room for all commands.
    requires begins { MayBegin script.now world.old }
    requires notes { MayNote script.now journals.old order.old }

    // From whatever heap stands for the world, some legal order explains what was told. Its answers stand in the order of the rule,
    // and its heap stands for the world afterwards. Its events are what the run tells that the turns of the rule make up, and the world
    // is the one at its end.
    ensures played { (start : Start) → start.world ≡ world.old → IsStartOf script.now start → (events : List Event)
        × IsPlayed script.now start seed turns (lines_of journals.new) events world.new
        × Represents (last_moment script.now start events).heap (sight world.new)
        × (world.new.made ≡ length (last_moment script.now start events).heap.objects) }
    ensures order { order.new.list ≡ order_of (lengths_of script.now) seed turns }
    ensures config { world.new.config ≡ config_of script.now }
    ensures idle { AreIdle world.new }

    // Each of the collector's turns requests one epoch more at most.
    ensures epochs { world.new.epoch ≤ world.old.epoch + turns }
{
    match play_watched(script, seed, turns, world, journals, order, &mut Unwatched) {
        Ok(()) => {}
        Err(_) => unreachable!(),
    }
}

/// Runs the commands of a script, as `play` does, and shows the watch every step of the collector, once, in order, and right behind it.
/// Where the watch refuses one, the heap is as that step left it.
pub fn play_watched<W: Watch>(
    script: &Script,
    seed: u64,
    turns: u32,
    world: &mut World,
    journals: &mut [Journal],
    order: &mut Order,
    watch: &mut W,
) -> Result<(), NoMemory>
    requires begins { MayBegin script.now world.old }
    requires notes { MayNote script.now journals.old order.old }

    // What `play` promises.
    ensures played { IfOk result (λ done. (start : Start) → start.world ≡ world.old → IsStartOf script.now start → (events : List Event)
        × IsPlayed script.now start seed turns (lines_of journals.new) events world.new
        × Represents (last_moment script.now start events).heap (sight world.new)
        × (world.new.made ≡ length (last_moment script.now start events).heap.objects)) }
    ensures order { IfOk result (λ done. order.new.list ≡ order_of (lengths_of script.now) seed turns) }
    ensures config { world.new.config ≡ config_of script.now }
    ensures idle { AreIdle world.new }
    ensures epochs { IfOk result (λ done. world.new.epoch ≤ world.old.epoch + turns) }
    ensures kept { IsWorld world.new }

    // What the watch was shown: all of the collector's steps, which is what a watch is shown of the moves that the turns make up; or,
    // where it refused one, those before it. The journals and the order tell the turns before that step then, whichever objects the slots
    // held at first.
    ensures shown { IfOk result (λ done. (shown : List Shown) × IsShownWhole script.now seed turns world.old shown world.new × W.WasShown watch.old shown watch.new × Shows world.old shown world.new) }
    ensures refused { IfErr result (λ error. WasRefused script.now seed turns world.old (λ shown. W.WasShown watch.old shown watch.new) (lines_of journals.new) order.new.list world.new) }
    ensures rose { IfErr result (λ error. Rose (W.refused watch.old) (W.refused watch.new)) }
    ensures never_falls { W.refused watch.old ≤ W.refused watch.new }
{
    // A clause of the call: the world is kept.
    let _epoch = world.epoch();
    let mut playing = Playing::start(script, seed, turns);
    while let Some(made) = playing.next_watched(world, watch)? {
        if let Move::Command { mutator, cmd, told } = made {
            journals[usize::from(mutator) - 1].note(cmd, told);
            order.note(mutator);
        }
    }
    Ok(())
}
