//! Slots that are changed together.
ghost use Rattle.std.specs.Prelude.{◌≡◌, ℕ, nat_lt, length, slice_index_or as item_at};
ghost use Rattle.rec_counts.specs.Lists.{EachOnce, times};
ghost use Rattle.rec_counts.specs.Slot.{absent, given_up_if, renewed_if, unbuffered_if, white_if};

use crate::colour::Colour;
use crate::slot::Slot;

/// Takes the members out of their buffer.
pub(crate) fn unbuffer(slots: &mut [Slot], members: &[u16])
    requires { EachOnce (length slots.old) members.now }
    ensures { (x : ℕ) → item_at slots.new x absent ≡ unbuffered_if (nat_lt 0 (times x members.now)) (item_at slots.old x absent) }
{
    for slot in members {
        slots[*slot as usize].leave();
    }
}

/// Gives the members their true counts as their cyclic counts.
pub(crate) fn renew(slots: &mut [Slot], members: &[u16])
    requires { EachOnce (length slots.old) members.now }
    ensures { (x : ℕ) → item_at slots.new x absent ≡ renewed_if (nat_lt 0 (times x members.now)) (item_at slots.old x absent) }
{
    for slot in members {
        let kept = &mut slots[*slot as usize];
        kept.cyclic = kept.count;
    }
}

/// Takes the members out of their buffer, says that they are released, and makes them Black.
pub(crate) fn give_up(slots: &mut [Slot], members: &[u16])
    requires { EachOnce (length slots.old) members.now }
    ensures { (x : ℕ) → item_at slots.new x absent ≡ given_up_if (nat_lt 0 (times x members.now)) (item_at slots.old x absent) }
{
    for slot in members {
        let kept = &mut slots[*slot as usize];
        kept.leave();
        kept.released = true;
        kept.colour = Colour::Black;
    }
}

/// Makes those members White that are Gray.
pub(crate) fn whiten(slots: &mut [Slot], members: &[u16])
    requires { EachOnce (length slots.old) members.now }
    ensures { (x : ℕ) → item_at slots.new x absent ≡ white_if (nat_lt 0 (times x members.now)) (item_at slots.old x absent) }
{
    for slot in members {
        let kept = &mut slots[*slot as usize];
        kept.colour = kept.colour.whitened();
    }
}
