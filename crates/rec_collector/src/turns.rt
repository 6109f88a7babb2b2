//! Where a run of turns is made.
ghost use Rattle.std.specs.Prelude.{◌≡◌, ◌+◌, ℕ, Some};
ghost use Rattle.rec_collector.specs.Given.{IsGiven, IsLooped};
ghost use Rattle.rec_collector.specs.Next.{next_of};
ghost use Rattle.rec_collector.specs.Private.{Private};
ghost use Rattle.rec_collector.specs.Took.{took_of, turn_of};
ghost use Rattle.rec_collector.specs.declared.turn.Turn.{Turn};
ghost use Rattle.rec_collector.specs.declared.turn.Turn.TheVariants.{Moved};

use rec_word::Op;

/// How the turns of a run are made, from a seat at a board: a heap with a machine of its own.
pub trait Turns<B, S> {
    // So many turns were made in this run. The heap's machine has come to this record, and the last turn answered this.
    ghost StandsAt: { B → S → ℕ → Private → Turn → Type 0 };

    /// Makes the operation that comes next, in a phase with a loop of its own. So the heap's machine has learnt the word that it found.
    fn make(board: &B, seat: &mut S, op: Op) -> u64
        requires { (n : ℕ) × (p : Private) × StandsAt board.now seat.old n p Moved × IsLooped p.phase × (next_of p ≡ Some op) }
        ensures { (n : ℕ) (p : Private) → StandsAt board.now seat.old n p Moved → IsLooped p.phase → next_of p ≡ Some op → IsGiven p result × StandsAt board.now seat.new (n + 1) (took_of p result) (turn_of p result) };
}
