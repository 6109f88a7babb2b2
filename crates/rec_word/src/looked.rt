ghost use Rattle.std.specs.Prelude.{◌≡◌};

use crate::{Mailbox, crossing, crossing_of, past_part};

/// What comes of the collector's look at a mutator's crossing word, and which word the look leaves there.
#[derive(Clone, Copy, Debug, PartialEq, Eq)]
pub enum Looked {
    /// The mailbox for the log of the epoch before is taken: with what the mutator retired there, or with the deposit of a parked
    /// mutator, for which the collector crosses.
    Takes(u64),
    /// The collector crosses for a parked mutator that left no deposit. No mailbox is taken.
    Crosses(u64),
    /// The mutator has still to cross: the word stays.
    Waits,
}

impl Looked {
    ghost use Rattle.rec_word.specs.Looked.{left_by, looked};

    /// What comes of a look, in the collection of this epoch, that finds this word.
    #[inline(always)]
    pub fn at(epoch: u32, found: u64) -> Looked
        ensures { result ≡ looked epoch found }
    {
        if past_part(found) == crossing(epoch, Mailbox::Retired) {
            return Looked::Takes(found + 1);
        }
        // A parked mutator that has still to cross: its word names the epoch before.
        let parked = found.wrapping_add(4);
        if parked == crossing_of(epoch, Mailbox::Spare, true, true) {
            Looked::Takes(crossing_of(epoch, Mailbox::WithCollector, false, true))
        } else if parked == crossing_of(epoch, Mailbox::Spare, false, true) {
            Looked::Crosses(crossing_of(epoch, Mailbox::Spare, false, true))
        } else {
            Looked::Waits
        }
    }

    /// The word that the look leaves, where it found this one.
    #[inline(always)]
    pub fn leaves(self, found: u64) -> u64
        ensures { result ≡ left_by self found }
    {
        match self {
            Looked::Takes(word) | Looked::Crosses(word) => word,
            Looked::Waits => found,
        }
    }
}
