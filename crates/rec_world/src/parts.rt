use crate::Config;
use rec_collector::Machine as Collector;
use rec_index::Index;
use rec_log::Buffer;
use rec_mutator::Machine;

/// What a heap is made of, for one whose steps are made by other means.
#[derive(Drop)]
pub struct Parts {
    /// The numbers that it was opened with.
    pub config: Config,
    /// The shared words in one row: the fields by place, a header for each slot, the epoch word, the freed word, and a
    /// crossing word for each mutator.
    pub row: Vec<u64>,
    /// Each mutator's mailbox, with its buffer.
    pub boxes: Vec<Option<Buffer>>,
    /// The machines of the mutators, in order.
    pub machines: Vec<Machine>,
    /// The machine of the collector.
    pub collector: Collector,
    /// How many objects were born, with the opening one.
    pub made: u64,
    /// Memory for the index of free slots. Its members are of no account: a heap that is put together lists them anew.
    pub free: Index,
}
