//! Where a run of a trial finds its words.
ghost use Rattle.std.specs.Prelude.{◌≡◌, ◌+◌, ℕ, Some};
ghost use Rattle.rec_word.specs.declared.op.Op.TheVariants.{LoadChild};
ghost use Rattle.rec_trial.specs.Rules.{LeadsToUnreleased, visible};
ghost use Rattle.rec_trial.specs.Trial.{Work, next_of, took_of};

/// How words are loaded for a run of a trial, from a seat at a board: a heap on which the trial is the one at work.
pub trait Loads<B, S> {
    // So many words were loaded in this run, and the trial of the heap is at this work.
    ghost StandsAt: { B → S → ℕ → Work → Type 0 };

    /// Loads the word at this place, which is the trial's next one. So the trial of the heap has learnt it.
    fn load(board: &B, seat: &mut S, place: u32) -> u64
        requires { (n : ℕ) × (w : Work) × StandsAt board.now seat.old n w × (next_of w.machine ≡ Some (LoadChild place)) }
        ensures { (n : ℕ) (w : Work) → StandsAt board.now seat.old n w → next_of w.machine ≡ Some (LoadChild place) → LeadsToUnreleased w.counts result × StandsAt board.now seat.new (n + 1) (took_of w (visible w.counts result)) };
}
