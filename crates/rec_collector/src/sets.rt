ghost use Rattle.std.specs.Prelude.{◌≡◌, ◌+◌, ◌<◌, ◌^◌};
ghost use Rattle.rec_collector.specs.Testing.{counted_by, told};

use crate::verdict::Verdict;

/// What became of the sets that were tested since the opening.
#[derive(Clone, Copy, Debug, PartialEq, Eq)]
pub struct Sets {
    /// How many passed both tests and were freed.
    pub freed: u64,
    /// How many were refused by the Delta test: a member was touched since it was found.
    pub delta: u64,
    /// How many were refused by the Sigma test alone: references from outside were left.
    pub sigma: u64,
}

impl Sets {
    // One set more, by what its tests said.
    pub(crate) fn count(&mut self, verdict: Verdict)
        requires { told self.old + 1 < 2 ^ 64 }
        ensures { self.new ≡ counted_by verdict self.old }
    {
        match verdict {
            Verdict::Passed => self.freed += 1,
            Verdict::Touched => self.delta += 1,
            Verdict::Held => self.sigma += 1,
        }
    }
}
