/// One of the numbers of a heap, in the order of `Config`.
#[derive(Clone, Copy, Debug, PartialEq, Eq)]
pub enum Part {
    /// How many objects fit.
    Slots,
    /// How many fields each object has.
    Fields,
    /// How many registers each mutator has.
    Registers,
    /// How many mutators there are.
    Mutators,
    /// How many entries a mutator's log can hold.
    LogEntries,
    /// The epoch in which the mutators begin.
    FirstEpoch,
}
