use rec_mutator::Work;

/// A work that is to begin, and the slot with which its scan begins, if it makes one.
#[derive(Clone, Copy)]
pub struct Start {
    pub work: Work,
    pub from: u16,
}
