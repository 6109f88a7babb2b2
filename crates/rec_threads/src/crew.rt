//! Those who carry a running heap on.

use rec_table::{Collector, Mutator};
use rec_world::Journal;

/// The mutators of a running heap in order of number, its collector, and a journal for each mutator.
#[derive(Drop)]
pub struct Crew {
    pub mutators: Vec<Mutator>,
    pub collector: Collector,
    pub journals: Vec<Journal>,
}
