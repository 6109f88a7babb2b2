//! What the threads of a race tell one another.

use std::sync::atomic::{AtomicBool, AtomicU64, Ordering};
use std::thread::yield_now;

// How often a thread that came first looks for the others, at most.
const LOOKS: u32 = 1_000;

/// Who has come and who is done, and what was seen. A race that a signal ends early, or that no signal ends, still ends by a count.
#[derive(Drop)]
pub struct Signals {
    /// How many threads have still to come.
    awaited: AtomicU64,
    /// How many workers aren't done.
    working: AtomicU64,
    enough: AtomicBool,
    is_cut: AtomicBool,
    is_refused: AtomicBool,
    is_put_off: AtomicBool,
}

impl Signals {
    /// So many workers of mutators and a collector are awaited.
    pub fn of(workers: u32) -> Signals {
        let working = u64::from(workers);
        Signals {
            awaited: AtomicU64::new(working + 1),
            working: AtomicU64::new(working),
            enough: AtomicBool::new(false),
            is_cut: AtomicBool::new(false),
            is_refused: AtomicBool::new(false),
            is_put_off: AtomicBool::new(false),
        }
    }

    /// Comes, and lets the others come too, so that they start at once. Where they don't come for long, it goes on without them.
    pub fn meet(&self) {
        self.awaited.fetch_sub(1, Ordering::SeqCst);
        for _ in 0..LOOKS {
            if self.awaited.load(Ordering::SeqCst) == 0 {
                return;
            }
            yield_now();
        }
    }

    /// A worker is done.
    pub fn end(&self) {
        self.working.fetch_sub(1, Ordering::SeqCst);
    }

    /// Whether all workers are done.
    pub fn is_over(&self) -> bool {
        self.working.load(Ordering::SeqCst) == 0
    }

    /// As many sets were freed as were waited for.
    pub fn call_enough(&self) {
        self.enough.store(true, Ordering::SeqCst);
    }

    /// Whether it is enough. A mutator asks that has commands left, which is put down.
    pub fn is_enough(&self) -> bool {
        let is_enough = self.enough.load(Ordering::SeqCst);
        if is_enough {
            self.is_cut.store(true, Ordering::SeqCst);
        }
        is_enough
    }

    /// An allocation found no slot.
    pub fn refuse(&self) {
        self.is_refused.store(true, Ordering::SeqCst);
    }

    /// A mutator was told that it may not leave yet.
    pub fn put_off(&self) {
        self.is_put_off.store(true, Ordering::SeqCst);
    }

    /// Whether a mutator had commands left when it was enough.
    pub fn is_cut(&self) -> bool {
        self.is_cut.load(Ordering::SeqCst)
    }

    /// Whether an allocation found no slot.
    pub fn is_refused(&self) -> bool {
        self.is_refused.load(Ordering::SeqCst)
    }

    /// Whether a mutator was told that it may not leave yet.
    pub fn is_put_off(&self) -> bool {
        self.is_put_off.load(Ordering::SeqCst)
    }
}
