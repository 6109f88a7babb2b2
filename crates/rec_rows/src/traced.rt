//! Heaps that are traced.

use crate::told::listed;
use rec_trace::trace;
use rec_world::World;
use std::alloc::{AllocError as NoMemory, Global};
use std::thread::Threads;

/// The slots that a trace lists, in order, where a frontier is cut into so many pieces at most.
pub fn traced<R: Threads + Sync>(
    rt: &R,
    alloc: Global,
    world: &World,
    pieces: u16,
) -> Result<String, NoMemory> {
    if pieces == 0 {
        return String::from_str(alloc, "no pieces");
    }
    listed(alloc, &trace(rt, alloc, world, pieces)?)
}
