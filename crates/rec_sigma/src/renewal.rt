ghost use Rattle.std.specs.Prelude.{◌≡◌, ◌+◌, ◌<◌, true, false, length};
ghost use Rattle.rec_word.specs.Word.{is_slot};
ghost use Rattle.rec_counts.specs.Counts.{slot_at};
ghost use Rattle.rec_counts.specs.Lists.{times};
ghost use Rattle.rec_counts.specs.Rest.{AreZeros};
ghost use Rattle.rec_sigma.specs.Refurbish.{AreReleased, IsRefusable, LastRefurbished, fate_of, is_free, is_zero};
ghost use Rattle.rec_sigma.specs.Settling.{refurbished_of, settled};

use crate::fate::Fate;
use rec_counts::{Colour, Counts};

/// Takes set `set`, the last one, out of the cycle buffer, and gives each of its members its place, in the order of the set.
/// A released member goes to the free list. A member with true count zero is Black and goes to the zeros. A purple member,
/// and the first member where it is orange, is Purple and goes into the root buffer. Any other member is Black. All but the
/// roots are then in no buffer.
pub fn refurbish(counts: &mut Counts, set: u16)
    requires last { set + 1 ≡ length counts.old.sets }
    requires refusable { IsRefusable counts.old }

    ensures refurbished { LastRefurbished counts.old counts.new }
    ensures settled { counts.new ≡ refurbished_of counts.old }

    // The lists are as a release wants them.
    ensures zeros { AreZeros counts.old → AreZeros counts.new }
    ensures free { AreReleased counts.old → AreReleased counts.new }
{
    counts.rules();
    let first = counts.set(set).first().copied();
    counts.drop_set();
    while let Some(slot) = counts.pop_work() {
        let fate = fate_of_member(counts, slot, is_the(first, slot));
        settle(counts, slot, fate);
    }
    counts.rules();
}

// Whether the slot is the first member.
fn is_the(first: Option<u16>, slot: u16) -> bool
    ensures { result ≡ is_slot slot first }
{
    match first {
        None => false,
        Some(first) => slot == first,
    }
}

// Where a member belongs, which is or isn't the first of its set.
fn fate_of_member(counts: &Counts, slot: u16, is_first: bool) -> Fate
    requires { slot < length counts.now.slots }
    ensures { result ≡ fate_of is_first (slot_at counts.now slot) }
{
    if counts.released(slot) {
        return Fate::Free;
    }
    if counts.count(slot) == 0 {
        return Fate::Zero;
    }
    match counts.colour(slot) {
        Colour::Purple => Fate::Root,
        Colour::Orange if is_first => Fate::Root,
        _ => Fate::Plain,
    }
}

// Gives a slot that is in no buffer its place.
fn settle(counts: &mut Counts, slot: u16, fate: Fate)
    requires in_range { slot < length counts.old.slots }
    requires unbuffered { (slot_at counts.old slot).buffered ≡ false }
    requires free { is_free fate ≡ true → times slot counts.old.free ≡ 0 }
    requires zeros { is_zero fate ≡ true → times slot counts.old.zeros ≡ 0 }
    ensures { counts.new ≡ settled fate counts.old slot }
{
    match fate {
        Fate::Free => counts.push_free(slot),
        Fate::Zero => {
            counts.set_colour(slot, counts.colour(slot).in_use());
            counts.push_zero(slot);
        }
        Fate::Root => {
            counts.set_colour(slot, Colour::Purple);
            counts.push_root(slot);
        }
        Fate::Plain => counts.set_colour(slot, counts.colour(slot).in_use()),
    }
}
