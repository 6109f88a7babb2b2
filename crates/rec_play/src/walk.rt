//! A run that is made move by move.

ghost use Rattle.std.specs.Prelude.{◌≡◌, ◌<◌, [], IfErr, IfOk, IfSome, IsNone};
ghost use Rattle.rec_core.specs.Core.{opened};
ghost use Rattle.rec_world.specs.declared.open_error.OpenError as errors;
ghost use Rattle.rec_play.specs.Left.{moves_left};
ghost use Rattle.rec_play.specs.Numbers.{config_of};
ghost use Rattle.rec_play.specs.Played.{lengths_of as lengths_in};
ghost use Rattle.rec_play.specs.Playing.{generator_of, to_come};
ghost use Rattle.rec_play.specs.Watched.{IsOver, IsWatched, Tells};
ghost use Rattle.rec_play.specs.declared.stage.Stage as stages;

use crate::opening::{config_for, lengths_of};
use crate::{Move, Playing, Schedule, Stage};
use rec_script::Script;
use rec_settle::Settling;
use rec_world::{OpenError, World};
use std::alloc::Global;
use std::marker::Model;
use std::snapshot::Snapshot;

/// A run in the middle, and its settling. It is seen as its script, the playing rule at its start and now, how far it has come, and
/// the heap.
#[derive(Drop)]
pub struct Walk<'a> {
    rule: Snapshot<Schedule>,
    playing: Playing<'a>,
    stage: Stage,
    world: World,
}

impl<'a> Model for Walk<'a> {
    ghost use Rattle.rec_play.specs.Watched.{Watched};

    ghost Value = { Watched };

    ghost use Rattle.rec_play.specs.InsideWalk.{watched, IsKept};

    ghost view = { watched };

    ghost invariant = { IsKept };
}

impl<'a> Walk<'a> {
    /// The run of a script at its opening, with this seed and at most so many drawn turns. All its memory is taken here.
    pub fn open(
        alloc: Global,
        script: &'a Script,
        seed: u64,
        turns: u32,
    ) -> Result<Walk<'a>, OpenError>
        ensures refused { IfErr result (λ error. error ≡ errors.OpenError.NoMemory) }
        ensures script { IfOk result (λ walk. walk.script ≡ script.now) }
        ensures rule { IfOk result (λ walk. walk.rule ≡ record { left = lengths_in script.now; generator = generator_of seed; turns = turns }) }
        ensures rest { IfOk result (λ walk. walk.rest ≡ walk.rule) }
        ensures stage { IfOk result (λ walk. walk.stage ≡ stages.Stage.Playing) }
        ensures world { IfOk result (λ walk. walk.world ≡ opened (config_of script.now)) }
        ensures watched { IfOk result IsWatched }
    {
        let world = World::open(alloc, config_for(script))?;
        let rule = Schedule::new(lengths_of(script), seed, turns);
        Ok(Walk {
            rule: Snapshot::of(&rule),
            playing: Playing::start(script, seed, turns),
            stage: Stage::Playing,
            world,
        })
    }

    /// Makes the next move. There is none once the heap is settled, or where fewer than four epochs are left to settle it.
    pub fn make_move(&mut self) -> Option<Move>
        ensures script { self.new.script ≡ self.old.script }
        ensures rule { self.new.rule ≡ self.old.rule }

        // What is told is what was done, and the heap is the one to which the rule's turns and their settling have come.
        ensures told { IfSome result (Tells self.old self.new) }
        ensures watched { IsWatched self.new }

        // A run ends: each move leaves fewer to come.
        ensures nearer { IfSome result (λ told. moves_left self.new < moves_left self.old) }
        ensures ended { IsNone result → IsOver self.new.stage }
        ensures stays { IsOver self.old.stage → IsNone result × (self.new ≡ self.old) }
    {
        let made = match self.stage {
            Stage::Playing => self.play(),
            Stage::Settling(to) => self.settle(to),
            Stage::EpochsSpent => None,
        };
        self.rules();
        made
    }

    // The next turn of the rule; where none is left, the first of settling.
    fn play(&mut self) -> Option<Move>
        requires { self.old.stage ≡ stages.Stage.Playing }

        ensures script { self.new.script ≡ self.old.script }
        ensures rule { self.new.rule ≡ self.old.rule }
        ensures told { IfSome result (Tells self.old self.new) }
        ensures nearer { IfSome result (λ told. moves_left self.new < moves_left self.old) }
        ensures ended { IsNone result → IsOver self.new.stage }
    {
        match self.playing.next(&mut self.world) {
            Some(told) => Some(told),
            None => self.begin_settling(),
        }
    }

    // The first turn of settling, where the rule has none left.
    fn begin_settling(&mut self) -> Option<Move>
        requires stage { self.old.stage ≡ stages.Stage.Playing }
        requires none { to_come self.old.rest ≡ [] }

        ensures script { self.new.script ≡ self.old.script }
        ensures rule { self.new.rule ≡ self.old.rule }
        ensures told { IfSome result (Tells self.old self.new) }
        ensures nearer { IfSome result (λ told. moves_left self.new < moves_left self.old) }
        ensures ended { IsNone result → IsOver self.new.stage }
    {
        match Settling::start(&self.world) {
            Ok(settling) => {
                self.stage = Stage::Settling(settling);
                self.settle(settling)
            }
            Err(_) => {
                self.stage = Stage::EpochsSpent;
                None
            }
        }
    }

    // The next turn of settling, which has come so far.
    fn settle(&mut self, to: Settling) -> Option<Move>
        requires { self.old.stage ≡ stages.Stage.Settling to }

        ensures script { self.new.script ≡ self.old.script }
        ensures rule { self.new.rule ≡ self.old.rule }
        ensures told { IfSome result (Tells self.old self.new) }
        ensures nearer { IfSome result (λ told. moves_left self.new < moves_left self.old) }
        ensures ended { IsNone result → IsOver self.new.stage }
        ensures stays { IsOver self.old.stage → IsNone result × (self.new ≡ self.old) }
    {
        let mut settling = to;
        match settling.next(&mut self.world) {
            Some((turn, seen)) => {
                self.stage = Stage::Settling(settling);
                Some(Move::Step { seen, turn })
            }
            None => None,
        }
    }

    /// The script whose run it is.
    pub fn script(&self) -> &Script
        ensures { result.now ≡ self.now.script }
    {
        self.playing.script()
    }

    /// How far the run has come.
    pub fn stage(&self) -> Stage
        ensures { result ≡ self.now.stage }
    {
        self.stage
    }

    /// The heap as the moves so far have left it.
    pub fn world(&self) -> &World
        ensures world { result.now ≡ self.now.world }
        ensures watched { IsWatched self.now }
    {
        &self.world
    }

    // What always holds of a walk. It does nothing: its contract is the fact.
    fn rules(&self)
        ensures { IsWatched self.now }
    {
        let _stage = self.stage;
    }
}
