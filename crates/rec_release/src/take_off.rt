ghost use Rattle.std.specs.Prelude.{◌≡◌, ◌<◌, IfSome};
ghost use Rattle.rec_counts.specs.Counts.{slot_at};
ghost use Rattle.rec_counts.specs.Rest.{AreZeros};
ghost use Rattle.rec_release.specs.TakenOff.{taken_off};

use rec_counts::{Colour, Counts};

/// The reference that came out is counted no more: an orange target is lowered, where `lowers` says so, and any other is
/// decremented.
#[inline(always)]
pub(crate) fn take_off(counts: &mut Counts, target: Option<u16>, lowers: bool)
    requires counted { IfSome target (λ slot. 0 < (slot_at counts.old slot).count) }
    requires zeros { AreZeros counts.old }
    ensures { counts.new ≡ taken_off lowers counts.old target }
{
    let Some(slot) = target else {
        return;
    };
    match counts.colour(slot) {
        Colour::Orange if lowers => counts.lower(slot),
        _ => counts.decrement(slot),
    }
}
