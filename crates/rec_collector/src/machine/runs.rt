//! Runs of turns of one kind, with what the machine at work has kept in locals.
ghost use Rattle.std.specs.Prelude.{◌≡◌, ◌≢◌, ◌<◌, ◌≤◌};
ghost use Rattle.rec_collector.specs.Given.{IsFreeingIn, IsPreparingIn, IsSweepingIn, IsTryingIn};
ghost use Rattle.rec_collector.specs.Kept.{IsMachine, KeepsSizes};
ghost use Rattle.rec_collector.specs.Kind.{HasLoop, kind_of};
ghost use Rattle.rec_collector.specs.Running.{Turned};

use crate::kind::Kind;
use crate::machine::Machine;
use crate::phase::Phase;
use crate::turn::Turn;
use crate::turns::Turns;
use crate::words::{Freeing, Preparing, Starting, Sweeping, Trying};
use std::marker::Brand;

impl Machine {
    /// Makes turns of this kind, at least one and at most so many, each on the word that `T` finds. It tells how many it made, and what
    /// the last one came to. Only that one may come to something else than `Moved`, or to a phase of another kind.
    #[inline(always)]
    pub fn run_as<B, S, T: Turns<B, S>>(
        &mut self,
        kind: Kind,
        board: &B,
        seat: &mut S,
        most: u32,
    ) -> (u32, Turn)
        requires kind { kind ≡ kind_of self.old.phase }
        requires looped { HasLoop kind }
        requires some { 0 < most }
        requires stands { T.StandsAt board.now seat.old 0 self.old Turn.Moved }

        // Whatever a heap's machine has become that made the same turns, this one is now.
        ensures turned { Turned self.old result.0 self.new result.1 }
        ensures stands { T.StandsAt board.now seat.new result.0 self.new result.1 }
        ensures some { 0 < result.0 }
        ensures few { result.0 ≤ most }
        // Only a sweep frees slots.
        ensures unfreed { kind ≢ Kind.Sweeping → self.new.freed ≡ self.old.freed }
        ensures same { KeepsSizes self.old self.new }
        ensures kept { IsMachine self.new }
    {
        self.rules();
        match kind {
            Kind::Freeing => self.run_freeing::<B, S, T, Brand>(board, seat, most),
            Kind::Trying => self.run_trial::<B, S, T, Brand>(board, seat, most),
            Kind::Preparing => self.run_prep::<B, S, T, Brand>(board, seat, most),
            Kind::Sweeping => self.run_sweep::<B, S, T, Brand>(board, seat, most),
            _ => unreachable!(),
        }
    }

    // Fields of members of the set that is freed are cleared.
    #[inline(always)]
    fn run_freeing<B, S, T: Turns<B, S>, W: Starting>(
        &mut self,
        board: &B,
        seat: &mut S,
        most: u32,
    ) -> (u32, Turn)
        requires freeing { IsFreeingIn self.old.phase }
        requires start { W.start ≡ self.old }
        requires some { 0 < most }
        requires stands { T.StandsAt board.now seat.old 0 self.old Turn.Moved }

        ensures turned { Turned self.old result.0 self.new result.1 }
        ensures stands { T.StandsAt board.now seat.new result.0 self.new result.1 }
        ensures some { 0 < result.0 }
        ensures few { result.0 ≤ most }
        ensures unfreed { self.new.freed ≡ self.old.freed }
        ensures same { KeepsSizes self.old self.new }
        ensures kept { IsMachine self.new }
    {
        let made = self
            .parts
            .run_freeing::<B, S, Freeing<T, W>>(&mut self.phase, board, seat, most);
        self.turns += u64::from(made);
        (made, self.end_if_nothing_is_free())
    }

    // Fields are loaded for the trial.
    #[inline(always)]
    fn run_trial<B, S, T: Turns<B, S>, W: Starting>(
        &mut self,
        board: &B,
        seat: &mut S,
        most: u32,
    ) -> (u32, Turn)
        requires trying { IsTryingIn self.old.phase }
        requires start { W.start ≡ self.old }
        requires some { 0 < most }
        requires stands { T.StandsAt board.now seat.old 0 self.old Turn.Moved }

        ensures turned { Turned self.old result.0 self.new result.1 }
        ensures stands { T.StandsAt board.now seat.new result.0 self.new result.1 }
        ensures some { 0 < result.0 }
        ensures few { result.0 ≤ most }
        ensures unfreed { self.new.freed ≡ self.old.freed }
        ensures same { KeepsSizes self.old self.new }
        ensures kept { IsMachine self.new }
    {
        let made = self
            .parts
            .run_trial::<B, S, Trying<T, W>>(&mut self.phase, board, seat, most);
        self.turns += u64::from(made);
        (made, self.end_if_nothing_is_free())
    }

    // Fields are loaded for the preparation.
    #[inline(always)]
    fn run_prep<B, S, T: Turns<B, S>, W: Starting>(
        &mut self,
        board: &B,
        seat: &mut S,
        most: u32,
    ) -> (u32, Turn)
        requires preparing { IsPreparingIn self.old.phase }
        requires start { W.start ≡ self.old }
        requires some { 0 < most }
        requires stands { T.StandsAt board.now seat.old 0 self.old Turn.Moved }

        ensures turned { Turned self.old result.0 self.new result.1 }
        ensures stands { T.StandsAt board.now seat.new result.0 self.new result.1 }
        ensures some { 0 < result.0 }
        ensures few { result.0 ≤ most }
        ensures unfreed { self.new.freed ≡ self.old.freed }
        ensures same { KeepsSizes self.old self.new }
        ensures kept { IsMachine self.new }
    {
        let made = self
            .parts
            .run_prep::<B, S, Preparing<T, W>>(&mut self.phase, board, seat, most);
        self.turns += u64::from(made);
        (made, self.end_if_nothing_is_free())
    }

    // Slots are swept.
    #[inline(always)]
    fn run_sweep<B, S, T: Turns<B, S>, W: Starting>(
        &mut self,
        board: &B,
        seat: &mut S,
        most: u32,
    ) -> (u32, Turn)
        requires sweeping { IsSweepingIn self.old.phase }
        requires start { W.start ≡ self.old }
        requires some { 0 < most }
        requires stands { T.StandsAt board.now seat.old 0 self.old Turn.Moved }

        ensures turned { Turned self.old result.0 self.new result.1 }
        ensures stands { T.StandsAt board.now seat.new result.0 self.new result.1 }
        ensures some { 0 < result.0 }
        ensures few { result.0 ≤ most }
        ensures same { KeepsSizes self.old self.new }
        ensures kept { IsMachine self.new }
    {
        let Phase::Sweeping { sweep, swept } = &mut self.phase else {
            unreachable!()
        };
        let made = sweep.run::<B, S, Sweeping<T, W>>(&mut self.parts.counts, board, seat, most);
        self.parts.counts.rules();
        *swept += made;
        let swept = *swept;
        if sweep.next().is_none() {
            self.phase = Phase::Closing { swept };
        }
        self.freed += u64::from(made);
        self.turns += u64::from(made);
        (made, Turn::Moved)
    }
}
