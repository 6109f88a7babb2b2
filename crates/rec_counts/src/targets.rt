//! What an entry names.
ghost use Rattle.std.specs.Prelude.{◌≡◌};
ghost use Rattle.rec_counts.specs.Targets.{old_target};

use rec_log::Entry;
use rec_word::target;

/// What the entry no longer refers to.
#[inline(always)]
pub(crate) fn old_target(entry: Entry) -> Option<u16>
    ensures { result ≡ old_target entry }
{
    match entry {
        Entry::Put { old, .. } => target(old),
        Entry::Born { slot, .. } => Some(slot),
    }
}
