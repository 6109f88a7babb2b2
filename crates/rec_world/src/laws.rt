//! What holds of every world, as the contract of a function that does nothing.

ghost use Rattle.rec_core.specs.Core.{Core};
ghost use Rattle.rec_core.specs.Moves.{EndsRun};
ghost use Rattle.rec_world.specs.World.{IsWorld};

/// A world is the end of some run from its opening.
pub fn worlds_end_runs()
    ensures { (w : Core) → IsWorld w → EndsRun w }
{}
