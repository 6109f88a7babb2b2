//! Every slot is offered to a trial.
ghost use Rattle.std.specs.Prelude.{◌≡◌, ◌<◌, length};
ghost use Rattle.rec_counts.specs.Counts.{slot_at};
ghost use Rattle.rec_counts.specs.Slot.{stays};
ghost use Rattle.rec_collector.specs.Offered.{offered, offered_one};

use rec_counts::{Colour, Counts};

/// Makes each slot that is neither released nor Green a candidate root: it is Purple, and goes into the root buffer where it is in no
/// buffer.
pub(crate) fn offer_slots(counts: &mut Counts)
    ensures { counts.new ≡ offered counts.old }
{
    for slot in 0..counts.slots() {
        offer(counts, slot);
    }
}

// One slot is offered. A released one stays as it is, and a Green one.
fn offer(counts: &mut Counts, slot: u16)
    requires { slot < length counts.old.slots }
    ensures { counts.new ≡ offered_one counts.old slot }
{
    if keeps_colour(counts, slot) {
        return;
    }
    counts.set_colour(slot, Colour::Purple);
    if !counts.buffered(slot) {
        counts.push_root(slot);
    }
}

// Whether a slot is released or Green.
fn keeps_colour(counts: &Counts, slot: u16) -> bool
    requires { slot < length counts.now.slots }
    ensures { result ≡ stays (slot_at counts.now slot) }
{
    counts.released(slot) || counts.colour(slot).is_green()
}
