ghost use Rattle.std.specs.Prelude.{◌≡◌, ℕ, ◌+◌, [], flat_map};
ghost use Rattle.rec_counts.specs.Counts.{slot_at};
ghost use Rattle.rec_counts.specs.Targets.{added, leaves, slots_in, taken, taken_targets, told_buffers};
ghost use Rattle.rec_counts.specs.Batch.{applied, AreAlike, IsApplied, IsCovered};

use crate::telling::{tell_newer, tell_older};
use crate::{Changes, Counts, Slot, Touched};
use rec_log::Buffer;

/// Counts a batch: each leaf that was born in the newer buffers becomes Green, what they refer to is added, and what the older
/// ones no longer refer to is taken off. Both lists are in order of mutator. A register that names the same slot in both snapshots
/// leaves the count of that slot as it is. It touches the slot all the same, but in a `steady` heap, where it is left out.
pub fn apply(counts: &mut Counts, newer: &[Buffer], older: &[Buffer], steady: bool)
    requires zeros { counts.old.zeros ≡ [] }
    requires covered { IsCovered counts.old newer.now older.now }
    requires alike { AreAlike newer.now older.now }

    ensures batch { IsApplied steady counts.old newer.now older.now counts.new }

    // Steady or not, each true count is the old one, plus all that the newer buffers refer to, less all that the older ones no longer do.
    ensures count { (x : ℕ) → (slot_at counts.new x).count + taken x older.now ≡ (slot_at counts.old x).count + added x newer.now }

    // The order of the lists, too, and each slot whole: it is changed once, by all that names it.
    ensures order { counts.new ≡ applied steady counts.old newer.now older.now }
{
    counts.count_batch(&Batch {
        newer,
        older,
        steady,
    });
}

/// The buffers of two epochs, in order of mutator, and whether registers that didn't change are left out.
#[derive(Drop)]
struct Batch<'a> {
    newer: &'a [Buffer],
    older: &'a [Buffer],
    steady: bool,
}

impl Changes for Batch<'_> {
    ghost use Rattle.rec_counts.specs.Telling.{CanTell};

    ghost born = { λ b x. leaves x (told_buffers b.steady b.newer.now b.older.now) };

    ghost added = { λ b x. added x (told_buffers b.steady b.newer.now b.older.now) };

    ghost taken = { λ b. slots_in (flat_map taken_targets (told_buffers b.steady b.older.now b.newer.now)) };

    ghost can_tell = { λ b slots. CanTell slots b.newer.now b.older.now };

    #[inline(always)]
    fn tell(&self, slots: &mut [Slot], touched: &mut Touched) {
        tell_newer(slots, touched, self.newer);
        tell_older(slots, touched, self.newer, self.older, self.steady);
    }
}
