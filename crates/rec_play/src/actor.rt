/// Who has a turn.
#[derive(Clone, Copy, Debug, PartialEq, Eq)]
pub enum Actor {
    /// A mutator, by its number from 1: it makes its next command.
    Mutator(u8),
    /// The collector.
    Collector,
}
