//! Settling, turn by turn.

ghost use Rattle.std.specs.Prelude.{◌≡◌, ℕ, ◌+◌, ◌<◌, ◌≤◌, false, [], IfErr, IfOk, IfSome, IsNone};
ghost use Rattle.rec_word.specs.declared.word.TheConstants.{LAST_EPOCH};
ghost use Rattle.rec_io.specs.Faults.{Rose};
ghost use Rattle.rec_collector.specs.declared.turn.Turn as answers;
ghost use Rattle.rec_core.specs.Config.{IsMutator};
ghost use Rattle.rec_core.specs.Core.{Core, mutator};
ghost use Rattle.rec_core.specs.Moves.{turned};
ghost use Rattle.rec_core.specs.Turn.{IsTurn, step_seen};
ghost use Rattle.rec_world.specs.World.{IsWorld};
ghost use Rattle.rec_settle.specs.Collecting.{Anyone, AreIdle, HasStepped};
ghost use Rattle.rec_settle.specs.Left.{left_in};
ghost use Rattle.rec_settle.specs.Shown.{Goes, told_shown};
ghost use Rattle.rec_settle.specs.Stages.{HasCome, begun, offered, stage_after, stage_turned};
ghost use Rattle.rec_settle.specs.declared.turns.Settling as stages;

mod runs;

use rec_collector::Turn;
use rec_word::{LAST_EPOCH, Op};
use rec_world::{Unwatched, Watch, World};
use std::alloc::AllocError as NoMemory;
use thiserror::Error;

// The epochs that settling may ask for.
const SETTLING_EPOCHS: u32 = 4;

/// There are fewer than four epochs left after the requested one: 16,777,215 is the last.
#[derive(Clone, Copy, Debug, Drop, PartialEq, Eq, Error)]
#[error("fewer than four epochs are left after epoch {requested}")]
pub struct EpochsSpent {
    pub requested: u32,
}

/// How far settling has come. Each call of `next` makes one turn more.
#[derive(Clone, Copy, Debug, PartialEq, Eq)]
pub enum Settling {
    /// Settling began with this epoch requested. Its collection goes on, behind the one that may have been under way.
    Finishing { requested: u32 },
    /// That collection is complete. Every slot will be offered to the next trial.
    Offering,
    /// The collection goes on whose trial is offered every slot.
    Trying,
    /// The collection goes on that tests and frees the sets of that trial.
    Freeing,
    /// The heap is settled.
    Settled,
}

impl Settling {
    /// Settling at its beginning. Where fewer than four epochs are left, that is the answer.
    pub fn start(world: &World) -> Result<Settling, EpochsSpent>
        ensures spent { IfErr result (λ error. (LAST_EPOCH < world.now.epoch + 4) × (error.requested ≡ world.now.epoch)) }
        ensures left { IfOk result (λ settling. world.now.epoch + 4 ≤ LAST_EPOCH) }
        ensures stage { IfOk result (λ settling. settling ≡ stages.Settling.Finishing world.now.epoch) }
        ensures begins { IfOk result (λ settling. AreIdle world.now → HasCome world.now settling world.now) }
        ensures kept { IsWorld world.now }
    {
        let requested = world.epoch();
        if LAST_EPOCH - requested < SETTLING_EPOCHS {
            return Err(EpochsSpent { requested });
        }
        Ok(Settling::Finishing { requested })
    }

    /// Makes the next turn of the collector; whoever it waits for polls. The answer is that of the step, with its operation and the
    /// word that this found. There is none once the heap is settled.
    pub fn next(&mut self, world: &mut World) -> Option<(Turn, Option<(Op, u64)>)>
        requires idle { AreIdle world.old }

        // The step that was made, and what it found.
        ensures stepped { IfSome result (λ told. HasStepped Anyone (offered self.old world.old) told.0 world.new) }
        ensures seen { IfSome result (λ told. told.1 ≡ step_seen (offered self.old world.old)) }

        // From wherever settling began, it has come a turn further, and has fewer to come.
        ensures comes { (first : Core) → HasCome first self.old world.old → HasCome first self.new world.new }
        ensures nearer { IfSome result (λ told. (first : Core) → HasCome first self.old world.old → left_in self.new world.new < left_in self.old world.old) }
        ensures ended { IsNone result → self.old ≡ stages.Settling.Settled }
        ensures stays { self.old ≡ stages.Settling.Settled → IsNone result × (self.new ≡ self.old) × (world.new ≡ world.old) }
        ensures idle { AreIdle world.new }
        ensures config { world.new.config ≡ world.old.config }
        ensures kept { IsWorld world.new }
    {
        match self.next_watched(world, &mut Unwatched) {
            Ok(told) => told,
            Err(_) => unreachable!(),
        }
    }

    /// Makes the next turn, as `next` does, and shows it to the watch, right behind the collector's step and before anyone polls. Where the
    /// watch refuses it, nothing follows that step.
    #[inline(always)]
    pub fn next_watched<W: Watch>(
        &mut self,
        world: &mut World,
        watch: &mut W,
    ) -> Result<Option<(Turn, Option<(Op, u64)>)>, NoMemory>
        requires idle { AreIdle world.old }

        ensures goes { IfOk result (λ told. Goes self.old world.old told self.new world.new) }
        ensures shown { IfOk result (λ told. W.WasShown watch.old (told_shown self.old world.old told) watch.new) }

        // Where it was refused, the step is made, and the stage is that of the step: whether it completed a collection isn't told.
        ensures refused { IfErr result (λ error. (self.old ≡ stages.Settling.Settled → ⊥) × (self.new ≡ begun self.old) × (world.new ≡ turned (offered self.old world.old))) }
        ensures unshown { IfErr result (λ error. W.WasShown watch.old [] watch.new) }
        ensures rose { IfErr result (λ error. Rose (W.refused watch.old) (W.refused watch.new)) }
        ensures never_falls { W.refused watch.old ≤ W.refused watch.new }
        ensures idle { AreIdle world.new }
        ensures config { world.new.config ≡ world.old.config }
        ensures kept { IsWorld world.new }
    {
        if let Settling::Settled = self {
            // A clause of the call: the world is kept.
            let _epoch = world.epoch();
            return Ok(None);
        }
        self.offer(world);
        let (turn, seen) = world.turn_watched(watch)?;
        follow(world, turn);
        *self = self.after(turn, world.epoch());
        Ok(Some((turn, seen)))
    }

    // Offers every slot, where the next collection is the one whose trial is offered them.
    fn offer(&mut self, world: &mut World)
        ensures stage { self.new ≡ begun self.old }
        ensures offered { world.new ≡ offered self.old world.old }
        ensures kept { IsWorld world.new }
    {
        // A clause of the call: the world is kept.
        let _epoch = world.epoch();
        if let Settling::Offering = self {
            world.offer_all();
            *self = Settling::Trying;
        }
    }

    // What comes behind a turn, where this epoch is requested then.
    fn after(self, turn: Turn, epoch: u32) -> Settling
        ensures { result ≡ stage_turned self turn epoch }
    {
        match turn {
            Turn::Collected { .. } => self.after_collection(epoch),
            _ => self,
        }
    }

    // What comes behind a collection that is complete. One that was under way as settling began is of the epoch before.
    fn after_collection(self, epoch: u32) -> Settling
        ensures { result ≡ stage_after self epoch }
    {
        match self {
            Settling::Finishing { requested } if epoch == requested => self,
            Settling::Finishing { .. } => Settling::Offering,
            Settling::Trying => Settling::Freeing,
            _ => Settling::Settled,
        }
    }
}

// Behind a turn of the collector whoever it waits for polls.
fn follow(world: &mut World, turn: Turn)
    requires idle { AreIdle world.old }
    requires awaited { (t : ℕ) → turn ≡ answers.Turn.Waiting t → IsMutator world.old.config t × ((mutator world.old t).left ≡ false) }
    requires kept { IsWorld world.old }

    // With the turn it is a step of settling.
    ensures stepped { (before : Core) → IsTurn before world.old turn → HasStepped Anyone before turn world.new }
    ensures requested { world.new.epoch ≡ world.old.epoch }
    ensures idle { AreIdle world.new }
    ensures config { world.new.config ≡ world.old.config }
    ensures kept { IsWorld world.new }
{
    if let Turn::Waiting { mutator } = turn {
        world.poll(mutator);
    }
}
