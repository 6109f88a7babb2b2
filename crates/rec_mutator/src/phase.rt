use crate::passage::Passage;
use crate::{Made, Work};

/// How far a mutator's work has come.
#[derive(Clone, Copy)]
pub enum Phase {
    /// No work was begun yet.
    Idle,
    /// The first step comes next.
    Begun {
        work: Work,
    },
    /// An allocation, of a leaf or not, found this freed word, and has probed so many slots; each of them was taken when it was probed.
    Scanning {
        reg: u8,
        label: u32,
        leaf: bool,
        before: u64,
        probed: u16,
    },
    /// An allocation found this freed word and no free slot, and loads the freed word once more.
    Scanned {
        reg: u8,
        label: u32,
        leaf: bool,
        before: u64,
    },
    /// A write found that the object in this slot is no leaf, and exchanges its field next.
    Storing {
        src: u8,
        field: u8,
        val: u8,
        slot: u16,
    },
    /// A poll found an epoch requested that isn't the own one. The own mailbox is taken next.
    Crossing,
    /// The own mailbox is held, and its buffer is still to be swapped for the log. It is a phase within a step.
    Swapping,
    /// The own mailbox is held, with the retired log in it, and is given back next.
    Giving,
    /// A mutator that leaves found its mailbox home with a spare. The mailbox is taken next.
    Leaving,
    /// The own mailbox of a mutator that leaves is held, and its buffer is still to be swapped for the log. It is a phase within a step.
    Retiring,
    /// The own mailbox of a mutator that leaves is held, with its last log in it, and is given back next.
    Parting,
    /// The work is done, and this came of it.
    Finished {
        work: Work,
        made: Made,
    },
    /// The mutator parks or unparks, and has come so far.
    Passing {
        passage: Passage,
    },
}
