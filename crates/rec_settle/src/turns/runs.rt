//! Many turns of settling by one call.

ghost use Rattle.std.specs.Prelude.{◌≡◌, ◌≤◌, List, [], IfErr, IfOk};
ghost use Rattle.rec_io.specs.Faults.{Rose};
ghost use Rattle.rec_collector.specs.Shown.{Shown};
ghost use Rattle.rec_core.specs.Moves.{turned};
ghost use Rattle.rec_world.specs.World.{IsWorld};
ghost use Rattle.rec_settle.specs.Collecting.{AreIdle};
ghost use Rattle.rec_settle.specs.Shown.{HasGone};
ghost use Rattle.rec_settle.specs.Stages.{offered};
ghost use Rattle.rec_settle.specs.declared.turns.Settling as stages;

use super::{Settling, follow};
use rec_world::{Watch, World};
use std::alloc::AllocError as NoMemory;

impl Settling {
    /// Makes turns that come next, at least one, as so many calls of `next` do. It answers whether there was any: none is left once the
    /// heap is settled.
    pub fn run(&mut self, world: &mut World) -> bool
        requires idle { AreIdle world.old }

        ensures gone { (shown : List Shown) × HasGone self.old world.old shown result self.new world.new }
        ensures idle { AreIdle world.new }
        ensures config { world.new.config ≡ world.old.config }
        ensures kept { IsWorld world.new }
    {
        if let Settling::Settled = self {
            // A clause of the call: the world is kept.
            let _epoch = world.epoch();
            return false;
        }
        self.offer(world);
        let (_, turn) = world.turns(u32::MAX);
        follow(world, turn);
        *self = self.after(turn, world.epoch());
        true
    }

    // Makes the turn that comes next and shows it to the watch, or makes a run of turns if the watch asks to be shown none. It answers
    // whether there was any.
    #[inline(always)]
    pub(crate) fn go_on<W: Watch>(
        &mut self,
        world: &mut World,
        watch: &mut W,
    ) -> Result<bool, NoMemory>
        requires idle { AreIdle world.old }

        ensures gone { IfOk result (λ more. (shown : List Shown) × HasGone self.old world.old shown more self.new world.new × W.WasShown watch.old shown watch.new) }
        ensures refused { IfErr result (λ error. (self.old ≡ stages.Settling.Settled → ⊥) × (world.new ≡ turned (offered self.old world.old))) }
        ensures unshown { IfErr result (λ error. W.WasShown watch.old [] watch.new) }
        ensures rose { IfErr result (λ error. Rose (W.refused watch.old) (W.refused watch.new)) }
        ensures never_falls { W.refused watch.old ≤ W.refused watch.new }
        ensures idle { AreIdle world.new }
        ensures config { world.new.config ≡ world.old.config }
        ensures kept { IsWorld world.new }
    {
        if !watch.watches() {
            return Ok(self.run(world));
        }
        match self.next_watched(world, watch)? {
            Some(_) => Ok(true),
            None => Ok(false),
        }
    }
}
