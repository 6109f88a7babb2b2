//! Where a run of a preparation finds its words.
ghost use Rattle.std.specs.Prelude.{◌≡◌, ◌+◌, ◌<◌, ℕ, Some, IfSome, length};
ghost use Rattle.rec_word.specs.Word.{target_of};
ghost use Rattle.rec_word.specs.declared.op.Op.TheVariants.{LoadChild};
ghost use Rattle.rec_sigma.specs.Prepare.{Work, next_of, took_of};

/// How words are loaded for a run of a preparation, from a seat at a board: a heap on which the preparation is the one at work.
pub trait Loads<B, S> {
    // So many words were loaded in this run, and the preparation of the heap is at this work.
    ghost StandsAt: { B → S → ℕ → Work → Type 0 };

    /// Loads the word at this place, which is the preparation's next one. So the preparation of the heap has learnt it.
    fn load(board: &B, seat: &mut S, place: u32) -> u64
        requires { (n : ℕ) × (w : Work) × StandsAt board.now seat.old n w × (next_of w.machine ≡ Some (LoadChild place)) }
        ensures { (n : ℕ) (w : Work) → StandsAt board.now seat.old n w → next_of w.machine ≡ Some (LoadChild place) → IfSome (target_of result) (λ slot. slot < length w.counts.slots) × StandsAt board.now seat.new (n + 1) (took_of w result) };
}
