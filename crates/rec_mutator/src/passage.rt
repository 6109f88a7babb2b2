/// How far a mutator has come that parks or unparks.
#[derive(Clone, Copy)]
pub enum Passage {
    /// Parking was begun. The present mailbox is taken next.
    Parks,
    /// The present mailbox is held, and its spare is still to be swapped for the log. It is a phase within a step.
    Holds,
    /// The present mailbox is held, with the log in it as the deposit. It is given back next, and the mutator is parked.
    Deposits,
    /// Unparking was begun. The mutator is parked until its next step.
    Unparks,
    /// The present mailbox is held, and its deposit is still to be swapped for the spare. It is a phase within a step.
    Reopens,
    /// The present mailbox is held, with a spare in it, and is given back next.
    Frees,
}
