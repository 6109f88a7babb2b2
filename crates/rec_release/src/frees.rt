//! Where a sweep frees its headers.
ghost use Rattle.std.specs.Prelude.{◌≡◌, ◌+◌, ℕ, Some};
ghost use Rattle.rec_word.specs.declared.op.Op.TheVariants.{FreeHeader};
ghost use Rattle.rec_release.specs.Sweep.{Work, next_of, took_of};

/// How headers are freed for a run of a sweep, from a seat at a board: a heap on which the sweep is the one at work.
pub trait Frees<B, S> {
    // So many headers were freed in this run, and the sweep of the heap is at this work.
    ghost StandsAt: { B → S → ℕ → Work → Type 0 };

    /// Stores 0 in the header of this slot, which is the sweep's next one, and answers what stood there. So the sweep of the heap has
    /// learnt that.
    fn free(board: &B, seat: &mut S, slot: u16) -> u64
        requires { (n : ℕ) × (w : Work) × StandsAt board.now seat.old n w × (next_of w.due ≡ Some (FreeHeader slot)) }
        ensures { (n : ℕ) (w : Work) → StandsAt board.now seat.old n w → next_of w.due ≡ Some (FreeHeader slot) → StandsAt board.now seat.new (n + 1) (took_of w result) };
}
