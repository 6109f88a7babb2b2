/// What a phase is at work on, where many turns follow one another: it tells the phases apart that a collection spends its turns in.
#[derive(Clone, Copy, Debug, PartialEq, Eq)]
pub enum Kind {
    /// The zeros are released.
    Releasing,
    /// A set is freed.
    Freeing,
    /// A trial is at work.
    Trying,
    /// Sets are prepared.
    Preparing,
    /// The free list is swept.
    Sweeping,
    /// None of these.
    Other,
}
