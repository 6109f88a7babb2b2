//! What a trace tells of a heap that isn't settled yet.
ghost use Rattle.std.specs.Prelude.{◌≡◌, IfOk};
ghost use Rattle.rec_run.specs.Headline.{is_traced};
ghost use Rattle.rec_run.specs.Tracing.{IsTold};

use rec_request::How;
use rec_settle::count_taken;
use rec_trace::trace;
use rec_world::World;
use std::alloc::{AllocError as NoMemory, Global};
use std::thread::Threads;

/// How many chunks a frontier of the trace is cut into at most.
const PIECES: u16 = 8;

/// What a trace told of a heap.
#[derive(Clone, Copy)]
pub struct Traced {
    /// How many slots registers reach.
    pub reached: usize,
    /// How many slots hold objects.
    pub taken: u32,
}

/// What a trace tells of the heap that a script's commands left, where one is asked for.
pub fn trace_world<R: Threads + Sync>(
    rt: &R,
    alloc: Global,
    how: How,
    world: &World,
) -> Result<Option<Traced>, NoMemory>
    ensures { IfOk result (IsTold (is_traced how) world.now) }
{
    // A clause of the call: the heap is one.
    let _epoch = world.epoch();
    if !wants_trace(how) {
        return Ok(None);
    }
    let slots = trace(rt, alloc, world, PIECES)?;
    Ok(Some(Traced {
        reached: slots.len(),
        taken: count_taken(world),
    }))
}

// Whether a trace is asked for.
fn wants_trace(how: How) -> bool
    ensures { result ≡ is_traced how }
{
    match how {
        How::Play(play) => play.trace,
        How::Threads => false,
    }
}
