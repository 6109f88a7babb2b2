//! A heap as C holds it.
ghost use Rattle.std.specs.Prelude.{◌≡◌, true};
ghost use Rattle.recycler_c.specs.Standing.{AreTied, can_collect};

use crate::handle::Handle;

/// How many mutators' handles there are: as many as a heap has mutators at most.
pub const MOST_MUTATORS: usize = rec_model::limits::MOST_MUTATORS as usize;

/// A heap's handles: the collector's, which is the heap's while it rests, its mutators', in order of number, and the one of who hears what
/// the collector frees.
#[repr(C)]
#[derive(Drop)]
pub struct Recycler {
    pub collector: Handle,
    pub mutators: [Handle; MOST_MUTATORS],
    pub listener: Handle,
    pub ghost collects: { can_collect collector.owned.held ≡ true },
    pub ghost tied: { AreTied collector.owned.held mutators },
}
