/// What a turn of the collector came to.
#[derive(Clone, Copy, Debug, PartialEq, Eq)]
pub enum Turn {
    /// The collection has gone on.
    Moved,
    /// This mutator, from 1, hasn't crossed into the requested epoch yet. Nothing changed.
    Waiting { mutator: u8 },
    /// The collection of this epoch is complete, with so many slots swept.
    Collected { epoch: u32, freed: u32 },
    /// The next epoch would be 16,777,216, which no word can hold. Nothing changed.
    EpochsSpent,
}
