//! Where the freeing of a set finds the words of its members.
ghost use Rattle.std.specs.Prelude.{◌≡◌, ◌+◌, ◌<◌, ℕ, Some, IfSome};
ghost use Rattle.rec_word.specs.Word.{target_of};
ghost use Rattle.rec_word.specs.declared.op.Op.TheVariants.{ClearField};
ghost use Rattle.rec_counts.specs.Counts.{slot_at};
ghost use Rattle.rec_release.specs.CycleFree.{Work, next_of, took_of};

/// How fields are cleared for a run of a freeing, from a seat at a board: a heap on which the freeing is the one at work.
pub trait Clears<B, S> {
    // So many fields were cleared in this run, and the freeing of the heap is at this work.
    ghost StandsAt: { B → S → ℕ → Work → Type 0 };

    /// Exchanges the field at this place for 0, which is the freeing's next one. So the freeing of the heap has learnt what came out.
    fn clear(board: &B, seat: &mut S, place: u32) -> u64
        requires { (n : ℕ) × (w : Work) × StandsAt board.now seat.old n w × (next_of w.machine ≡ Some (ClearField place)) }
        ensures { (n : ℕ) (w : Work) → StandsAt board.now seat.old n w → next_of w.machine ≡ Some (ClearField place) → IfSome (target_of result) (λ slot. 0 < (slot_at w.counts slot).count) × StandsAt board.now seat.new (n + 1) (took_of w result) };
}
