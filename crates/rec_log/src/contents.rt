use crate::Entry;
use std::collections::LinkedList;

/// What a buffer is to its callers. No value of this type is made: clauses speak of it, and so do the views of heaps that
/// hold buffers.
#[derive(Drop)]
pub struct Contents {
    /// The entries, in the order in which they were pushed.
    pub entries: LinkedList<Entry>,
    /// What the registers named when the buffer was retired, in order; all null before.
    pub snapshot: LinkedList<Option<u16>>,
    /// How many entries the buffer can hold.
    pub capacity: u32,
    /// Whether its mutator retired it as its last one, as it left.
    pub last: bool,
    /// Whether the collector wrote it for a parked mutator that logged nothing in its epoch and kept its registers.
    pub still: bool,
}
