//! A trial is postponed: nothing is marked, and candidate roots wait for a later one.
ghost use Rattle.std.specs.Prelude.{◌≡◌, ◌<◌, true, false, length};
ghost use Rattle.rec_counts.specs.Counts.{slot_at};
ghost use Rattle.rec_counts.specs.Lists.{times};
ghost use Rattle.rec_trial.specs.Postponed.{AreUnlisted, postponed, returned, rotated};
ghost use Rattle.rec_trial.specs.Rules.{IsReady};

use rec_counts::Counts;

/// Postpones a trial. Released roots go to the free list, and all others stay in the root buffer, in their order.
pub fn postpone(counts: &mut Counts)
    requires { IsReady counts.old }
    ensures { counts.new ≡ postponed counts.old }
{
    counts.rules();
    for place in 0..counts.roots().len() {
        rotate(counts);
    }
}

// The first root leaves the root buffer: it goes to the free list, or is the last root again.
fn rotate(counts: &mut Counts)
    requires { AreUnlisted counts.old }
    ensures { counts.new ≡ rotated counts.old }
{
    counts.rules();
    if let Some(slot) = counts.pop_root() {
        put_back(counts, slot);
    }
}

// A slot that left the root buffer goes to the free list where it is released; else it is the last root again.
fn put_back(counts: &mut Counts, slot: u16)
    requires in_range { slot < length counts.old.slots }
    requires unbuffered { (slot_at counts.old slot).buffered ≡ false }
    requires unlisted { (slot_at counts.old slot).released ≡ true → times slot counts.old.free ≡ 0 }
    ensures { counts.new ≡ returned counts.old slot }
{
    if counts.released(slot) {
        counts.push_free(slot);
    } else {
        counts.push_root(slot);
    }
}
