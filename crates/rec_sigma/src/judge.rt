ghost use Rattle.std.specs.Prelude.{◌≡◌, ◌<◌, ◌↔◌, length, IsTrue};
ghost use Rattle.rec_counts.specs.declared.colour.Colour.TheVariants.{Orange};
ghost use Rattle.rec_counts.specs.Counts.{slot_at};
ghost use Rattle.rec_sigma.specs.Judged.{AreOrange, cyclic_sum};

use rec_counts::{Colour, Counts};

/// Whether each member of set `set` is Orange. Only colours are looked at, no count and no field.
pub fn delta(counts: &Counts, set: u16) -> bool
    requires { set < length counts.now.sets }
    ensures { IsTrue result ↔ AreOrange counts.now set }
{
    counts.rules();
    for slot in counts.set(set) {
        if !is_orange(counts.colour(*slot)) {
            return false;
        }
    }
    true
}

/// Whether the cyclic counts of the members of set `set` sum to zero: no reference was left to a member, but those seen in
/// fields of members. A sum is zero where each part is, so nothing is added up.
pub fn sigma(counts: &Counts, set: u16) -> bool
    requires { set < length counts.now.sets }
    ensures { IsTrue result ↔ (cyclic_sum counts.now set ≡ 0) }
{
    counts.rules();
    for slot in counts.set(set) {
        if is_counted(counts, *slot) {
            return false;
        }
    }
    true
}

// Whether the slot has a cyclic count.
fn is_counted(counts: &Counts, slot: u16) -> bool
    requires { slot < length counts.now.slots }
    ensures { IsTrue result ↔ (0 < (slot_at counts.now slot).cyclic) }
{
    counts.cyclic(slot) > 0
}

// Whether the colour is Orange.
fn is_orange(colour: Colour) -> bool
    ensures { IsTrue result ↔ (colour ≡ Orange) }
{
    matches!(colour, Colour::Orange)
}
