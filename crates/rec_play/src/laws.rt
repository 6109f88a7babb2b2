//! What follows from the playing rule alone and from the definitions of a run, each law as the contract of a function that does nothing.

ghost use Rattle.std.specs.Prelude.{◌≡◌, ◌≤◌, ℕ, List, length};
ghost use Rattle.std.specs.List.{sum};
ghost use Rattle.rec_model.specs.LegalOrder.{Event, Line};
ghost use Rattle.rec_core.specs.Core.{Core};
ghost use Rattle.rec_play.specs.Played.{IsPlayed, lengths_of};
ghost use Rattle.rec_play.specs.Playing.{IsOrderFor, by_mutator, drawn, generator_of, order};
ghost use Rattle.rec_play.specs.Start.{opening_of};
ghost use Rattle.rec_play.specs.Watched.{IsWatched, Watched};
ghost use Rattle.rec_play.specs.declared.stage.Stage.TheVariants.{Settling};
ghost use Rattle.rec_settle.specs.Collecting.{IsSettling};
ghost use Rattle.rec_settle.specs.declared.turns.Settling.TheVariants.{Settled};

/// An order names each mutator just as often as it has commands, and nobody else.
pub fn orders_name_each_command()
    ensures names { (lengths : List ℕ) (seed turns : ℕ) → IsOrderFor lengths (order lengths seed turns) }
    ensures long { (lengths : List ℕ) (seed turns : ℕ) → length (order lengths seed turns) ≡ sum lengths }
{}

/// No more turns are drawn than told; where none is, the commands run mutator by mutator.
pub fn turns_are_drawn_as_told()
    ensures few { (lengths : List ℕ) (seed turns : ℕ) → length (drawn lengths seed turns) ≤ turns }
    ensures none { (lengths : List ℕ) (seed : ℕ) → order lengths seed 0 ≡ by_mutator lengths }
{}

/// A walk that is settled has come to the heap that `play` and then `settle` come to, with the same script, seed and drawn turns:
/// there is just one that their contracts allow.
pub fn walks_end_as_played()
    ensures { (w : Watched) (seed turns : ℕ) (journals : List (List Line)) (events : List Event) (played settled : Core)
        → IsWatched w → w.stage ≡ Settling Settled → w.rule ≡ record { left = lengths_of w.script; generator = generator_of seed; turns = turns }
        → IsPlayed w.script (opening_of w.script) seed turns journals events played → IsSettling played settled → w.world ≡ settled }
{}
