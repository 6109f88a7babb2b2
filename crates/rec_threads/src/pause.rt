//! How the collector waits.

use std::hint::spin_loop;
use std::thread::yield_now;

// The longest pause between two looks without letting others run, in rounds of a loop that does nothing.
const LONGEST: u32 = 1024;

/// The pauses of a worker that waits. Each is twice as long as the one before, up to a limit; from then on others run in it.
#[derive(Drop)]
pub struct Pause {
    rounds: u32,
}

impl Pause {
    /// The shortest pause.
    pub fn new() -> Pause {
        Pause { rounds: 1 }
    }

    /// Pauses. The next pause is longer.
    pub fn wait(&mut self) {
        for _ in 0..self.rounds {
            spin_loop();
        }
        if self.rounds < LONGEST {
            self.rounds = (self.rounds * 2).min(LONGEST);
        } else {
            yield_now();
        }
    }

    /// Whether it has paused since it was new or reset.
    pub fn has_begun(&self) -> bool {
        self.rounds > 1
    }

    /// The next pause is the shortest again.
    pub fn reset(&mut self) {
        self.rounds = 1;
    }
}
