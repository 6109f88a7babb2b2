use rec_release::{CycleFree, Release, Sweep};
use rec_sigma::Prep;
use rec_trial::Trial;

/// How far a collection has come, with the machine that is at work.
#[derive(Drop)]
pub enum Phase {
    /// No collection is under way; the next epoch is requested next.
    Idle,
    /// The mailbox of this mutator is looked at next.
    Looking { mutator: u8 },
    /// The mailbox of this mutator is held, and its buffer is still to be swapped. It is a phase within a step.
    Swapping { mutator: u8 },
    /// The mailbox of this mutator is held, with a spare in it, and is given back next.
    Returning { mutator: u8 },
    /// The zeros are released, a field at a time.
    Releasing(Release),
    /// A set that passed its tests is freed, a field at a time.
    Freeing(CycleFree),
    /// A trial is at work, and a field is loaded next.
    Trying(Trial),
    /// The sets that a trial found are prepared for their tests, and a field is loaded next.
    Preparing(Prep),
    /// A sweep begins next.
    Opening,
    /// The free list is swept, a slot at a time; so many were.
    Sweeping { sweep: Sweep, swept: u32 },
    /// The sweep of so many slots ends next.
    Closing { swept: u32 },
}
