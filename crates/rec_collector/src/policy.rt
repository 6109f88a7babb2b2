/// How a heap is collected. It never changes.
#[derive(Clone, Copy, Debug, PartialEq, Eq)]
pub struct Policy {
    /// Whether a batch leaves out registers that name the same slot at the end of an epoch as at its beginning. Their counts stay either
    /// way. In a heap that isn't steady such a slot is a candidate root of the next trial, if it isn't a leaf.
    pub steady: bool,
    /// A collection makes a trial only if at least so many slots wait in the root buffer, if every slot is offered, or if the collections
    /// before it postponed theirs as often as the policy lets them. Else its trial is postponed: candidate roots wait on, and garbage cycles
    /// with them. With 0 each collection makes one.
    pub least_roots: u32,
    /// At most so many collections in a row postpone their trial. With 0 none does.
    pub most_postponed: u32,
}
