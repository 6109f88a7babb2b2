//! Marking: roots are dropped, and what is reached becomes Gray.
ghost use Rattle.std.specs.Prelude.{◌≡◌, ◌<◌, true, false, length, IfSome};
ghost use Rattle.rec_counts.specs.Counts.{slot_at};
ghost use Rattle.rec_counts.specs.Lists.{times};
ghost use Rattle.rec_counts.specs.Colour.{is_gray};
ghost use Rattle.rec_trial.specs.Moves.{dropped, marked_by, one_off, touched};
ghost use Rattle.rec_trial.specs.Rules.{CanMark};

use rec_counts::{Colour, Counts};

// A slot that is not Gray becomes Gray, its cyclic count is its true count, and it is marked.
fn touch(counts: &mut Counts, slot: u16)
    requires in_range { slot < length counts.old.slots }
    requires new { is_gray (slot_at counts.old slot).colour ≡ false → times slot counts.old.marked ≡ 0 }
    ensures { counts.new ≡ touched counts.old slot }
{
    match counts.colour(slot) {
        Colour::Gray => {}
        _ => {
            counts.shade(slot, Colour::Gray, counts.count(slot));
            counts.push_marked(slot);
        }
    }
}

// The same, with one taken off its cyclic count. What it was is written once.
fn mark_slot(counts: &mut Counts, slot: u16)
    requires in_range { slot < length counts.old.slots }
    requires new { is_gray (slot_at counts.old slot).colour ≡ false → times slot counts.old.marked ≡ 0 }
    ensures { counts.new ≡ one_off (touched counts.old slot) slot }
{
    match counts.colour(slot) {
        Colour::Gray => counts.set_cyclic(slot, counts.cyclic(slot).saturating_sub(1)),
        _ => {
            counts.shade(slot, Colour::Gray, counts.count(slot).saturating_sub(1));
            counts.push_marked(slot);
        }
    }
}

/// Marks what a field leads to, and takes one off its cyclic count, which stays at zero where it is zero.
pub(crate) fn mark(counts: &mut Counts, target: Option<u16>)
    requires in_range { IfSome target (λ slot. slot < length counts.old.slots) }
    requires rules { CanMark counts.old }
    ensures { counts.new ≡ marked_by counts.old target }
{
    counts.rules();
    if let Some(slot) = target {
        mark_slot(counts, slot);
    }
}

/// Deals with a slot that left the root buffer: a released one goes to the free list, a Purple one is marked.
pub(crate) fn drop_root(counts: &mut Counts, slot: u16)
    requires in_range { slot < length counts.old.slots }
    requires new { is_gray (slot_at counts.old slot).colour ≡ false → times slot counts.old.marked ≡ 0 }
    requires unlisted { (slot_at counts.old slot).released ≡ true → times slot counts.old.free ≡ 0 }
    ensures { counts.new ≡ dropped counts.old slot }
{
    if counts.released(slot) {
        counts.push_free(slot);
        return;
    }
    match counts.colour(slot) {
        Colour::Purple => touch(counts, slot),
        _ => {}
    }
}
