//! Who watches a collector, and a turn of the collector that is watched.
ghost use Rattle.std.specs.Prelude.{◌≡◌, ℕ, ◌≤◌, false, List, [], ◌∷◌, ◌++◌, IfOk, IfErr};
ghost use Rattle.rec_io.specs.Faults.{Rose};
ghost use Rattle.rec_collector.specs.Shown.{HasTaken, Shown, shown_of};
ghost use Rattle.rec_collector.specs.declared.turn.Turn as answers;
ghost use Rattle.rec_core.specs.Shown.{turn_shown};
ghost use Rattle.rec_core.specs.Turn.{IsTurn, step_seen};
ghost use Rattle.rec_world.specs.World.{IsWorld};

use crate::World;
use rec_collector::Turn;
use rec_word::Op;
use std::alloc::AllocError as NoMemory;

/// Who is shown each step of a collector. An entry stands for a step: its operation and the word that this found, the batch that it
/// applied, the set that passed both tests in it, and the epoch whose collection it completed.
pub trait Watch {
    // From one moment to a later one it was shown just these entries, in order.
    ghost WasShown: { Self → List Shown → Self → Type 0 };

    // How many entries it refused, up to the last value of a `u64`.
    ghost refused: { Self → ℕ };

    /// Whether steps have to be shown to it, one by one. To a watch that keeps nothing of them, any steps count as shown.
    fn watches(&self) -> bool
        ensures { result ≡ false → (shown : List Shown) → WasShown self.now shown self.now };

    /// Is shown a step of the world's collector, right behind it: its operation, and the word that this found.
    fn after(&mut self, world: &World, op: Op, word: u64) -> Result<(), NoMemory>
        requires { HasTaken op word world.now.collector }

        ensures shown { IfOk result (λ done. WasShown self.old (shown_of op word world.now.collector ∷ []) self.new) }

        // Where its memory runs out it was shown nothing, and that is counted.
        ensures unshown { IfErr result (λ error. WasShown self.old [] self.new) }
        ensures rose { IfErr result (λ error. Rose (refused self.old) (refused self.new)) }

        // On each answer.
        ensures never_falls { refused self.old ≤ refused self.new };

    ghost none_shown: { (watch : Self) → WasShown watch [] watch };

    ghost shown_then: { (a b c : Self) (first later : List Shown) → WasShown a first b → WasShown b later c → WasShown a (first ++ later) c };
}

/// A watch that keeps nothing of what it is shown, and refuses nothing.
#[derive(Clone, Copy, Debug, Drop)]
pub struct Unwatched;

impl Watch for Unwatched {
    ghost use Rattle.std.specs.Prelude.{IsOk};

    ghost WasShown = { λ before shown after. Unit {0} };

    ghost refused = { λ watch. 0 };

    #[inline(always)]
    fn watches(&self) -> bool {
        false
    }

    fn after(&mut self, world: &World, op: Op, word: u64) -> Result<(), NoMemory>
        ensures shown { IfOk result (λ done. Unit {0}) }
        ensures unshown { IfErr result (λ error. Unit {0}) }
        ensures rose { IfErr result (λ error. Rose 0 0) }
        ensures never_falls { 0 ≤ 0 }

        // There is nothing that could fail.
        ensures done { IsOk result }
    {
        Ok(())
    }

    ghost none_shown = { λ watch. tt };

    ghost shown_then = { λ a b c first later x y. tt };
}

impl World {
    /// Makes one turn of the collector, as `turn_seen` does, and shows its step to the watch, if there was one. Where the watch refuses
    /// it the turn was made all the same.
    #[inline(always)]
    pub fn turn_watched<W: Watch>(
        &mut self,
        watch: &mut W,
    ) -> Result<(Turn, Option<(Op, u64)>), NoMemory>
        ensures turn { IfOk result (λ made. IsTurn self.old self.new made.0) }
        ensures seen { IfOk result (λ made. made.1 ≡ step_seen self.old) }
        ensures shown { IfOk result (λ made. W.WasShown watch.old (turn_shown self.old) watch.new) }

        ensures refused { IfErr result (λ error. (answer : answers.Turn) × IsTurn self.old self.new answer) }
        ensures unshown { IfErr result (λ error. W.WasShown watch.old [] watch.new) }
        ensures rose { IfErr result (λ error. Rose (W.refused watch.old) (W.refused watch.new)) }
        ensures never_falls { W.refused watch.old ≤ W.refused watch.new }
        ensures kept { IsWorld self.new }
    {
        let (turn, seen) = self.turn_seen();
        if let Some((op, word)) = seen {
            watch.after(self, op, word)?;
        }
        Ok((turn, seen))
    }
}
