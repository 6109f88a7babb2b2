ghost use Rattle.std.specs.Prelude.{◌≡◌};
ghost use Rattle.rec_word.specs.Atom.{leaves};

use crate::Looked;

/// What an atomic operation does to the word that it finds. Each answers that word.
#[derive(Clone, Copy, Debug, PartialEq, Eq)]
pub enum Atom {
    /// Leave the word as it is.
    Load,
    /// Put this word there.
    Exchange(u64),
    /// Where the expected word stands there, put the new one there.
    CompareExchange {
        /// The word that has to stand there.
        expected: u64,
        /// The word that comes there.
        new: u64,
    },
    /// Add so much; past the greatest word it goes on at 0.
    Add(u64),
    /// Where a crossing word lets the collector take a mailbox or cross for a mutator, in the collection of this epoch, put there
    /// what tells so.
    Look {
        /// The epoch of the collection.
        epoch: u32,
    },
}

impl Atom {
    /// The word that stands there afterwards, where this one was found.
    #[inline(always)]
    pub fn leaves(self, found: u64) -> u64
        ensures { result ≡ leaves self found }
    {
        match self {
            Atom::Load => found,
            Atom::Exchange(new) => new,
            Atom::CompareExchange { expected, new } if found == expected => new,
            Atom::CompareExchange { .. } => found,
            Atom::Add(amount) => found.wrapping_add(amount),
            Atom::Look { epoch } => Looked::at(epoch, found).leaves(found),
        }
    }
}
