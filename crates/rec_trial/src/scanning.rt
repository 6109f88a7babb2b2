//! Scanning: what something outside holds becomes Black again, and the rest White.
ghost use Rattle.std.specs.Prelude.{◌≡◌, ◌<◌, true, length, IfSome};
ghost use Rattle.rec_counts.specs.Counts.{slot_at};
ghost use Rattle.rec_counts.specs.Lists.{times};
ghost use Rattle.rec_trial.specs.Moves.{all_whitened, blackened_if, has_rest, scanned_by};
ghost use Rattle.rec_trial.specs.Rules.{CanScan};

use rec_counts::{Colour, Counts};

// A Gray slot becomes Black, and its fields are to be loaded.
fn blacken(counts: &mut Counts, slot: u16)
    requires in_range { slot < length counts.old.slots }
    requires new { times slot counts.old.work ≡ 0 }
    ensures { counts.new ≡ blackened_if true counts.old slot }
{
    counts.set_colour(slot, Colour::Black);
    counts.push_work(slot);
}

/// Blackens what a field of a Black slot leads to, where that is Gray.
pub(crate) fn scan(counts: &mut Counts, target: Option<u16>)
    requires in_range { IfSome target (λ slot. slot < length counts.old.slots) }
    requires rules { CanScan counts.old }
    ensures { counts.new ≡ scanned_by counts.old target }
{
    if let Some(slot) = target {
        match counts.colour(slot) {
            Colour::Gray => blacken(counts, slot),
            _ => {}
        }
    }
}

/// Blackens a marked slot which something holds that no marked slot accounts for.
pub(crate) fn blacken_held(counts: &mut Counts, slot: u16)
    requires in_range { slot < length counts.old.slots }
    requires rules { CanScan counts.old }
    ensures { counts.new ≡ blackened_if (has_rest (slot_at counts.old slot)) counts.old slot }
{
    match counts.colour(slot) {
        Colour::Gray => {
            if counts.cyclic(slot) > 0 {
                blacken(counts, slot);
            }
        }
        _ => {}
    }
}

/// Makes every Gray slot White: all of them are marked.
pub(crate) fn whiten(counts: &mut Counts)
    requires rules { CanScan counts.old }
    ensures { counts.new ≡ all_whitened counts.old }
{
    counts.whiten_marked();
}
