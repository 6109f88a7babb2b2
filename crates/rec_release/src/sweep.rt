ghost use Rattle.std.specs.Prelude.{◌≡◌, ◌<◌, ◌≤◌, ◌↔◌, None, Some, length, IsNone, IsSome, IsTrue};
ghost use Rattle.rec_word.specs.declared.op.Op.TheVariants.{FreeHeader};
ghost use Rattle.rec_release.specs.Sweep.{AreUnbuffered, IsAtWork, Work, next_of, started_of, took_of};
ghost use Rattle.rec_release.specs.Ran.{RanSweep};

use crate::frees::Frees;
use rec_counts::Counts;
use rec_word::Op;
use std::marker::Model;

/// The sweep of the free list. No call of it can be refused memory.
#[derive(Drop)]
pub struct Sweep {
    due: Option<u16>,
}

impl Model for Sweep {
    ghost use Rattle.std.specs.Prelude.{ℕ, Option};

    ghost Value = { Option ℕ };

    ghost view = { λ sweep. sweep.due };
}

impl Sweep {
    /// A sweep with no work.
    #[tactic(auto, unfolding(crate::specs::Sweep::next_of))]
    pub fn idle() -> Sweep
        ensures idle { result ≡ None }
        ensures none { IsNone (next_of result) }
    {
        Sweep { due: None }
    }

    /// Begins to sweep the free list.
    #[tactic(auto, unfolding(crate::specs::Sweep::started_of, crate::specs::Sweep::next_of))]
    pub fn start(&mut self, counts: &mut Counts)
        requires idle { IsNone (next_of self.old) }
        requires unbuffered { AreUnbuffered counts.old }

        ensures started { record { due = self.new; counts = counts.new } ≡ started_of counts.old }
        ensures kept { IsAtWork self.new counts.new }
        ensures slots { length counts.new.slots ≡ length counts.old.slots }
    {
        self.due = counts.free_list().first().copied();
    }

    /// What comes next: 0 is stored in a header. None where the work is done.
    #[tactic(auto, unfolding(crate::specs::Sweep::next_of))]
    pub fn next(&self) -> Option<Op>
        ensures next { result ≡ next_of self.now }
        ensures none { IsNone result ↔ IsNone self.now }
    {
        let slot = self.due?;
        Some(Op::FreeHeader(slot))
    }

    /// Learns that the header is freed: the slot leaves the free list with one reference, Black and not released.
    #[inline(always)]
    #[tactic(auto, unfolding(crate::specs::Sweep::took_of, crate::specs::Sweep::next_of))]
    pub fn took(&mut self, counts: &mut Counts, _word: u64)
        requires busy { IsSome (next_of self.old) }
        requires kept { IsAtWork self.old counts.old }

        ensures took { record { due = self.new; counts = counts.new } ≡ took_of (record { due = self.old; counts = counts.old }) _word }
        ensures kept { IsAtWork self.new counts.new }
        ensures slots { length counts.new.slots ≡ length counts.old.slots }
    {
        counts.rules();
        if let Some(slot) = counts.pop_free() {
            counts.swept(slot);
        }
        self.due = counts.free_list().first().copied();
    }

    /// Frees headers and learns that, at least one and at most so many, as long as something comes next. It answers how many.
    #[inline(always)]
    pub fn run<B, S, F: Frees<B, S>>(
        &mut self,
        counts: &mut Counts,
        board: &B,
        seat: &mut S,
        most: u32,
    ) -> u32
        requires busy { IsSome (next_of self.old) }
        requires kept { IsAtWork self.old counts.old }
        requires some { 0 < most }
        requires stands { F.StandsAt board.now seat.old 0 (record { due = self.old; counts = counts.old }) }

        ensures ran { RanSweep (record { due = self.old; counts = counts.old }) result (record { due = self.new; counts = counts.new }) }
        ensures some { 0 < result }
        ensures few { result ≤ most }
        ensures stands { F.StandsAt board.now seat.new result (record { due = self.new; counts = counts.new }) }
    {
        let mut sweep = Sweep { due: self.due };
        let made = sweep.run_on::<B, S, F>(counts, board, seat, most);
        *self = sweep;
        made
    }

    // The loop of `run`.
    #[inline(always)]
    fn run_on<B, S, F: Frees<B, S>>(
        &mut self,
        counts: &mut Counts,
        board: &B,
        seat: &mut S,
        most: u32,
    ) -> u32
        requires busy { IsSome (next_of self.old) }
        requires kept { IsAtWork self.old counts.old }
        requires some { 0 < most }
        requires stands { F.StandsAt board.now seat.old 0 (record { due = self.old; counts = counts.old }) }

        ensures ran { RanSweep (record { due = self.old; counts = counts.old }) result (record { due = self.new; counts = counts.new }) }
        ensures some { 0 < result }
        ensures few { result ≤ most }
        ensures stands { F.StandsAt board.now seat.new result (record { due = self.new; counts = counts.new }) }
    {
        for made in 0..most {
            let word = F::free(board, seat, self.slot());
            self.took(counts, word);
            if !self.is_busy() {
                return made + 1;
            }
        }
        most
    }

    // The slot whose header is freed next.
    #[inline(always)]
    fn slot(&self) -> u16
        requires { IsSome (next_of self.now) }
        ensures { next_of self.now ≡ Some (FreeHeader result) }
    {
        let Some(slot) = self.due else { unreachable!() };
        slot
    }

    #[inline(always)]
    fn is_busy(&self) -> bool
        ensures { IsTrue result ↔ IsSome (next_of self.now) }
    {
        self.next().is_some()
    }
}
