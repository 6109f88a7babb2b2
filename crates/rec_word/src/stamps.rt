/// Names the log entry that put a value into a field. No two entries ever have the same stamp.
#[derive(Clone, Copy, Debug, PartialEq, Eq)]
pub struct Stamp {
    /// The mutator that wrote it, from 1 to 63; 0 is nobody.
    pub writer: u8,
    /// The epoch that the writer was in, below 2^24.
    pub epoch: u32,
    /// The number of the entry in the writer's log of that epoch, below 2^18.
    pub index: u32,
}
