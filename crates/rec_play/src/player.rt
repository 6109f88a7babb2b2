//! The run of a script by the playing rule, turn by turn.

ghost use Rattle.std.specs.Prelude.{◌≡◌, ◌≢◌, ℕ, ◌+◌, ◌<◌, ◌≤◌, false, [], ◌∷◌, IfErr, IfOk, IfSome, IsNone, length, replicate};
ghost use Rattle.rec_model.specs.declared.limits.TheConstants.{MOST_MUTATORS};
ghost use Rattle.rec_io.specs.Faults.{Rose};
ghost use Rattle.rec_collector.specs.declared.turn.Turn as answers;
ghost use Rattle.rec_core.specs.Config.{IsMutator};
ghost use Rattle.rec_core.specs.Core.{Core, mutator};
ghost use Rattle.rec_core.specs.Moves.{turned};
ghost use Rattle.rec_core.specs.Shown.{turn_shown};
ghost use Rattle.rec_core.specs.Worked.{AreIdle};
ghost use Rattle.rec_settle.specs.Collecting.{HasStepped};
ghost use Rattle.rec_core.specs.Turn.{IsTurn, step_seen};
ghost use Rattle.rec_world.specs.World.{IsWorld};
ghost use Rattle.rec_play.specs.Moves.{AreDue, Carries, HasTurned, IsSpent, MayGoOn};
ghost use Rattle.rec_play.specs.Numbers.{config_of};
ghost use Rattle.rec_play.specs.Played.{lengths_of};
ghost use Rattle.rec_play.specs.Playing.{generator_of, to_come};
ghost use Rattle.rec_play.specs.Run.{HasCommand, commands_of};
ghost use Rattle.rec_play.specs.Shown.{told_shown};

use crate::opening::lengths_of;
use crate::schedule::{MOST_MUTATORS, Schedule};
use crate::{Actor, Move};
use rec_collector::Turn;
use rec_script::Script;
use rec_word::Op;
use rec_world::{Cmd, Told, Unwatched, Watch, World};
use std::alloc::AllocError as NoMemory;
use std::marker::Model;

/// A run of a script in the middle. It is seen as its script, what the rule still has, and how many commands each mutator has made.
#[derive(Drop)]
pub struct Playing<'a> {
    script: &'a Script,
    schedule: Schedule,
    made: [usize; MOST_MUTATORS],
}

impl<'a> Model for Playing<'a> {
    ghost use Rattle.rec_play.specs.Moves.{Player};

    ghost Value = { Player };

    ghost use Rattle.rec_play.specs.InsidePlaying.{player, AreAllDue};

    ghost view = { player };

    ghost invariant = { AreAllDue };
}

impl<'a> Playing<'a> {
    /// The run before its first turn, with this seed and at most so many drawn turns.
    pub fn start(script: &'a Script, seed: u64, turns: u32) -> Playing<'a>
        ensures script { result.script ≡ script.now }
        ensures rest { result.rest ≡ record { left = lengths_of script.now; generator = generator_of seed; turns = turns } }
        ensures made { result.made ≡ replicate MOST_MUTATORS 0 }
        ensures due { AreDue result }
    {
        Playing {
            script,
            schedule: Schedule::new(lengths_of(script), seed, turns),
            made: [0; MOST_MUTATORS],
        }
    }

    /// Makes the next turn of the rule: a mutator polls and makes its next command, or the collector makes a step. There is none once
    /// all commands are made.
    #[inline(always)]
    pub fn next(&mut self, world: &mut World) -> Option<Move>
        requires { MayGoOn self.old.script self.old.made world.old }

        ensures turned { HasTurned self.old self.new world.old world.new result }
        ensures script { self.new.script ≡ self.old.script }
        ensures due { AreDue self.old × AreDue self.new }
        ensures goes { MayGoOn self.new.script self.new.made world.new }
        ensures kept { IsWorld world.new }
    {
        match self.next_watched(world, &mut Unwatched) {
            Ok(told) => told,
            Err(_) => unreachable!(),
        }
    }

    /// Makes the next turn of the rule, as `next` does, and shows a step of the collector to the watch, right behind it and before
    /// anyone polls. Where the watch refuses it, nothing follows that step.
    #[inline(always)]
    pub fn next_watched<W: Watch>(
        &mut self,
        world: &mut World,
        watch: &mut W,
    ) -> Result<Option<Move>, NoMemory>
        requires { MayGoOn self.old.script self.old.made world.old }

        ensures turned { IfOk result (HasTurned self.old self.new world.old world.new) }
        ensures shown { IfOk result (λ told. W.WasShown watch.old (told_shown world.old told) watch.new) }

        ensures refused { IfErr result (λ error. (to_come self.old.rest ≡ Actor.Collector ∷ to_come self.new.rest) × (world.new ≡ turned world.old)) }
        ensures unshown { IfErr result (λ error. W.WasShown watch.old [] watch.new) }
        ensures rose { IfErr result (λ error. Rose (W.refused watch.old) (W.refused watch.new)) }
        ensures never_falls { W.refused watch.old ≤ W.refused watch.new }

        ensures script { self.new.script ≡ self.old.script }
        ensures due { AreDue self.old × AreDue self.new }
        ensures goes { MayGoOn self.new.script self.new.made world.new }
        ensures kept { IsWorld world.new }
    {
        let told = self.turn(world, watch);
        self.rules();
        // A clause of the call: the world is kept.
        let _epoch = world.epoch();
        told
    }

    // The next turn.
    #[inline(always)]
    fn turn<W: Watch>(&mut self, world: &mut World, watch: &mut W) -> Result<Option<Move>, NoMemory>
        requires { MayGoOn self.old.script self.old.made world.old }

        ensures turned { IfOk result (HasTurned self.old self.new world.old world.new) }
        ensures shown { IfOk result (λ told. W.WasShown watch.old (told_shown world.old told) watch.new) }
        ensures refused { IfErr result (λ error. (to_come self.old.rest ≡ Actor.Collector ∷ to_come self.new.rest) × (world.new ≡ turned world.old)) }
        ensures unshown { IfErr result (λ error. W.WasShown watch.old [] watch.new) }
        ensures rose { IfErr result (λ error. Rose (W.refused watch.old) (W.refused watch.new)) }
        ensures never_falls { W.refused watch.old ≤ W.refused watch.new }
        ensures script { self.new.script ≡ self.old.script }
        ensures due { AreDue self.old }
        ensures goes { MayGoOn self.new.script self.new.made world.new }
    {
        match self.schedule.next_turn() {
            Some(Actor::Mutator(mutator)) => {
                let made = &mut self.made[usize::from(mutator) - 1];
                let (cmd, told) = give_turn(self.script, mutator, *made, world);
                *made += 1;
                Ok(Some(Move::Command { mutator, cmd, told }))
            }
            Some(Actor::Collector) => {
                let (turn, seen) = turn_collector(self.script, &self.made, world, watch)?;
                Ok(Some(Move::Step { seen, turn }))
            }
            None => Ok(None),
        }
    }

    /// The script whose run it is.
    pub fn script(&self) -> &Script
        ensures { result.now ≡ self.now.script }
    {
        self.script
    }

    // What always holds of a run in the middle. It does nothing: its contract is the fact.
    #[inline(always)]
    fn rules(&self)
        ensures { AreDue self.now }
    {
        let _script = self.script;
    }
}

// Mutator `t`, which has made so many commands, polls and makes its next one. It is there until its last one, and no other mutator
// changes.
#[inline(always)]
fn give_turn(script: &Script, t: u8, made: usize, world: &mut World) -> (Cmd, Told)
    requires next { HasCommand script.now t made }
    requires config { world.old.config ≡ config_of script.now }
    requires idle { AreIdle world.old }
    requires present { (mutator world.old t).left ≡ false }

    ensures carried { Carries script.now t made world.old result.0 result.1 world.new }
    ensures requested { world.new.epoch ≡ world.old.epoch }
    ensures present { made + 1 < length (commands_of script.now t) → (mutator world.new t).left ≡ false }
    ensures others { (s : ℕ) → s ≢ t → 1 ≤ s → mutator world.new s ≡ mutator world.old s }
    ensures idle { AreIdle world.new }
    ensures config { world.new.config ≡ config_of script.now }
    ensures kept { IsWorld world.new }
{
    let cmd = script.commands(t)[made];
    world.poll(t);
    let told = world.command(t, cmd);
    (cmd, told)
}

// The collector makes a step. Where it waits for a mutator that has no command left, that mutator polls: no turn of its own comes in
// which it could cross. Whoever has left isn't waited for. The answer is that of the step, with its operation and the word that this
// found.
#[inline(always)]
fn turn_collector<W: Watch>(
    script: &Script,
    made: &[usize; MOST_MUTATORS],
    world: &mut World,
    watch: &mut W,
) -> Result<(Turn, Option<(Op, u64)>), NoMemory>
    requires few { length script.now.commands ≤ MOST_MUTATORS }
    requires goes { MayGoOn script.now made.now world.old }

    ensures seen { IfOk result (λ told. told.1 ≡ step_seen world.old) }
    ensures stepped { IfOk result (λ told. HasStepped (IsSpent script.now made.now) world.old told.0 world.new) }
    ensures shown { IfOk result (λ told. W.WasShown watch.old (turn_shown world.old) watch.new) }
    ensures refused { IfErr result (λ error. world.new ≡ turned world.old) }
    ensures unshown { IfErr result (λ error. W.WasShown watch.old [] watch.new) }
    ensures rose { IfErr result (λ error. Rose (W.refused watch.old) (W.refused watch.new)) }
    ensures never_falls { W.refused watch.old ≤ W.refused watch.new }
    ensures requested { world.new.epoch ≤ world.old.epoch + 1 }
    ensures goes { MayGoOn script.now made.now world.new }
    ensures kept { IsWorld world.new }
{
    let (turn, seen) = world.turn_watched(watch)?;
    follow(script, made, world, turn);
    Ok((turn, seen))
}

// Where the collector waits behind its step for a mutator that has no command left, that mutator polls.
#[inline(always)]
fn follow(script: &Script, made: &[usize; MOST_MUTATORS], world: &mut World, turn: Turn)
    requires few { length script.now.commands ≤ MOST_MUTATORS }
    requires goes { MayGoOn script.now made.now world.old }
    requires awaited { (t : ℕ) → turn ≡ answers.Turn.Waiting t → IsMutator world.old.config t × ((mutator world.old t).left ≡ false) }
    requires kept { IsWorld world.old }

    ensures stepped { (before : Core) → IsTurn before world.old turn → HasStepped (IsSpent script.now made.now) before turn world.new }
    ensures requested { world.new.epoch ≡ world.old.epoch }
    ensures goes { MayGoOn script.now made.now world.new }
    ensures kept { IsWorld world.new }
{
    if let Turn::Waiting { mutator } = turn {
        if made[usize::from(mutator) - 1] >= script.commands(mutator).len() {
            world.poll(mutator);
        }
    }
}
