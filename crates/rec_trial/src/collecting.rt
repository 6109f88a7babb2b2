//! Collecting: what is White goes into sets.
ghost use Rattle.std.specs.Prelude.{◌≡◌, ◌<◌, true, false, length, IfSome};
ghost use Rattle.rec_counts.specs.Counts.{slot_at};
ghost use Rattle.rec_counts.specs.Groups.{last_set};
ghost use Rattle.rec_counts.specs.Colour.{is_white};
ghost use Rattle.rec_trial.specs.Moves.{collected_by, joined_if, with_new_set};
ghost use Rattle.rec_trial.specs.Rules.{CanCollect};

use rec_counts::{Colour, Counts};

// A slot that is in no buffer becomes Orange and joins the last set.
fn join(counts: &mut Counts, slot: u16)
    requires in_range { slot < length counts.old.slots }
    requires some { 0 < length counts.old.sets }
    requires unbuffered { (slot_at counts.old slot).buffered ≡ false }
    ensures { counts.new ≡ joined_if true counts.old slot }
{
    counts.set_colour(slot, Colour::Orange);
    counts.join_set(slot);
}

/// Lets what a field of a member leads to join the last set, where it is White.
pub(crate) fn collect(counts: &mut Counts, target: Option<u16>)
    requires in_range { IfSome target (λ slot. slot < length counts.old.slots) }
    requires some { 0 < length counts.old.sets }
    requires rules { CanCollect counts.old }
    ensures { counts.new ≡ collected_by counts.old target }
{
    counts.rules();
    if let Some(slot) = target {
        match counts.colour(slot) {
            Colour::White => join(counts, slot),
            _ => {}
        }
    }
}

/// Begins a set with a White slot.
pub(crate) fn begin(counts: &mut Counts, slot: u16)
    requires in_range { slot < length counts.old.slots }
    requires white { is_white (slot_at counts.old slot).colour ≡ true }
    requires rules { CanCollect counts.old }
    ensures { counts.new ≡ joined_if true (with_new_set counts.old) slot }
{
    counts.rules();
    counts.begin_set();
    join(counts, slot);
}

/// The members of the last set, none where there is no set.
pub(crate) fn last_members(counts: &Counts) -> &[u16]
    ensures { result.now ≡ last_set counts.now.sets }
{
    counts.last_set()
}
