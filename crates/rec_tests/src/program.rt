//! The program, as tests call it.

use rec_io::{Flush, Source};
use rec_run::{Status, run};
use rec_threads::Gate;
use std::sync::Wait;
use std::thread::Threads;

/// A run of the program with these words. What its clauses say stays in here: a test looks at what came, and is proved in less time.
pub fn run_with<R: AllocGlobal + Threads + Wait + Sync, S: Source, K: Flush, G: Gate>(
    rt: &R,
    words: &[&str],
    source: &mut S,
    sink: &mut K,
    gate: &G,
) -> Status {
    run(rt, rt.alloc(), words, source, sink, gate)
}
