ghost use Rattle.std.specs.Prelude.{◌≡◌};

use crate::{Atom, Cell, Mailbox, Shift, crossing, is_held};
use std::fmt;

/// What is added to a crossing word to bring its past mailbox home from the collector, from 3 to 0 in bits 0 and 1.
pub const RETURNS: u64 = u64::MAX - 2;

/// One atomic operation on one shared word: `cell` tells which word that is, and `atom` what is done to it.
#[derive(Clone, Copy, PartialEq, Eq)]
pub enum Op {
    /// Load a field.
    LoadField(u32),
    /// Exchange a field for a word.
    SwapField(u32, u64),
    /// Load the header of a held slot.
    LoadHeader(u16),
    /// Load the epoch word, the requested epoch.
    LoadEpoch,
    /// Load the crossing word of a mutator.
    LoadCross(u8),
    /// Compare a header with 0, and where it is 0 put this header there.
    ClaimHeader(u16, u64),
    /// Load the freed word, which is odd exactly during a sweep.
    LoadFreed,
    /// Load a field of a slot that trial deletion looks at.
    LoadChild(u32),
    /// Exchange a field of a released slot for 0.
    ClearField(u32),
    /// Store 0 in the header of a slot, which is free then.
    FreeHeader(u16),
    /// Move a mutator's own crossing word on from the epoch before: it is crossing into this epoch, and holds its mailbox.
    TakeBox(u8, u32),
    /// Store in a mutator's own crossing word that it is in this epoch, and that its mailbox is home with what it retired.
    GiveBox(u8, u32),
    /// Store this epoch in the epoch word: it is requested.
    StoreEpoch(u32),
    /// Look at a mutator's crossing word, in the collection of this epoch: take the mailbox if it is home with what the mutator
    /// retired, or cross for the mutator if it is parked and still has to cross.
    LookBox(u8, u32),
    /// Let a mutator's crossing word, which is of this epoch, say that its past mailbox is home with a spare. Its other parts stay.
    ReturnBox(u8, u32),
    /// Add one to the freed word: a sweep begins or ends.
    AddFreed,
    /// Add to a mutator's own crossing word what this step of parking or unparking is worth.
    ShiftBox(u8, Shift),
}

impl Op {
    ghost use Rattle.rec_word.specs.Op.{atom_of, berth_of, cell_of, mailbox_of, written};

    /// The word that it names.
    #[inline(always)]
    pub fn cell(self) -> Cell
        ensures { result ≡ cell_of self }
    {
        match self {
            Op::LoadField(place)
            | Op::SwapField(place, _)
            | Op::LoadChild(place)
            | Op::ClearField(place) => Cell::Field(place),
            Op::LoadHeader(slot) | Op::ClaimHeader(slot, _) | Op::FreeHeader(slot) => {
                Cell::Header(slot)
            }
            Op::LoadEpoch | Op::StoreEpoch(_) => Cell::Epoch,
            Op::LoadFreed | Op::AddFreed => Cell::Freed,
            Op::LoadCross(t)
            | Op::TakeBox(t, _)
            | Op::GiveBox(t, _)
            | Op::LookBox(t, _)
            | Op::ReturnBox(t, _)
            | Op::ShiftBox(t, _) => Cell::Crossing(t),
        }
    }

    /// What it does to the word that it names.
    #[inline(always)]
    pub fn atom(self) -> Atom
        ensures { result ≡ atom_of self }
    {
        match self {
            Op::LoadField(_)
            | Op::LoadHeader(_)
            | Op::LoadEpoch
            | Op::LoadCross(_)
            | Op::LoadChild(_)
            | Op::LoadFreed => Atom::Load,
            Op::SwapField(_, word) => Atom::Exchange(word),
            Op::ClaimHeader(_, header) => Atom::CompareExchange {
                expected: 0,
                new: header,
            },
            Op::ClearField(_) | Op::FreeHeader(_) => Atom::Exchange(0),
            Op::TakeBox(_, epoch) => Atom::Exchange(crossing(epoch, Mailbox::WithMutator)),
            Op::GiveBox(_, epoch) => Atom::Exchange(crossing(epoch, Mailbox::Retired)),
            Op::StoreEpoch(epoch) => Atom::Exchange(u64::from(epoch)),
            Op::LookBox(_, epoch) => Atom::Look { epoch },
            Op::ReturnBox(_, _) => Atom::Add(RETURNS),
            Op::AddFreed => Atom::Add(1),
            Op::ShiftBox(_, shift) => Atom::Add(shift.amount()),
        }
    }

    /// The word that it leaves there, where it found this one.
    #[inline(always)]
    pub fn written(self, found: u64) -> u64
        ensures { result ≡ written self found }
    {
        self.atom().leaves(found)
    }

    /// The mutator whose past mailbox it takes, or `None` where it takes none. A look takes it only where the word found says that
    /// the mailbox is home with what was retired.
    #[inline(always)]
    pub fn mailbox(self) -> Option<u8>
        ensures { result ≡ mailbox_of self }
    {
        match self {
            Op::TakeBox(t, _) | Op::LookBox(t, _) => Some(t),
            _ => None,
        }
    }

    /// The mutator whose present mailbox it takes where it found this word, or `None` where it takes none. Whoever unparks takes it
    /// only where the word says that its deposit is still there.
    #[inline(always)]
    pub fn berth(self, found: u64) -> Option<u8>
        ensures { result ≡ berth_of self found }
    {
        match self {
            Op::ShiftBox(t, Shift::Hold) => Some(t),
            Op::ShiftBox(t, Shift::Unpark) if is_held(found) => Some(t),
            _ => None,
        }
    }
}

/// Shows the word that it names, and what it does to that.
impl fmt::Debug for Op {
    fn fmt<W: fmt::Write>(&self, f: &mut fmt::Formatter<W>) -> fmt::Result {
        f.debug_struct("Op")
            .field("cell", &self.cell())
            .field("atom", &self.atom())
            .finish()
    }
}
