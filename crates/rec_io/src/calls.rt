//! The calls of a source or a sink in memory: their number, and which of them fail.
ghost use Rattle.std.specs.Prelude.{◌≡◌, ◌↔◌, ◌≤◌, IfOk, IsTrue};
ghost use Rattle.rec_io.specs.Calls.{NextFails};
ghost use Rattle.rec_io.specs.Faults.{counted_up, last_count};

use std::alloc::{AllocError as NoMemory, Global};

/// The numbers of the calls that fail, from 1, how many calls were made and how many failed.
#[derive(Drop)]
pub(crate) struct Calls {
    pub(crate) fails: Vec<u64>,
    pub(crate) made: u64,
    pub(crate) faults: u64,
}

impl Calls {
    pub(crate) fn open(alloc: Global, fails: &[u64]) -> Result<Calls, NoMemory>
        ensures fails { IfOk result (λ calls. calls.fails.items ≡ fails.now) }
        ensures made { IfOk result (λ calls. calls.made ≡ 0) }
        ensures faults { IfOk result (λ calls. calls.faults ≡ 0) }
    {
        Ok(Calls {
            fails: Vec::from_slice(alloc, fails)?,
            made: 0,
            faults: 0,
        })
    }

    // Counts one more call, and says whether it is one that fails.
    pub(crate) fn next_fails(&mut self) -> bool
        ensures listed { IsTrue result ↔ NextFails self.old.fails.items self.old.made }
        ensures made { self.new.made ≡ counted_up self.old.made }
        ensures fails { self.new.fails.items ≡ self.old.fails.items }
        ensures faults { self.new.faults ≡ self.old.faults }
    {
        let listed = is_next_listed(self.fails.as_slice(), self.made);
        self.made = self.made.saturating_add(1);
        listed
    }

    // Counts one more fault.
    pub(crate) fn count_fault(&mut self)
        ensures faults { self.new.faults ≡ counted_up self.old.faults }
        ensures fails { self.new.fails.items ≡ self.old.fails.items }
        ensures made { self.new.made ≡ self.old.made }
    {
        self.faults = self.faults.saturating_add(1);
    }
}

// Whether the number of the call after `made` calls is listed. No `u64` is the number of a call past the
// last value of the count, so none of those is listed.
fn is_next_listed(fails: &[u64], made: u64) -> bool
    ensures { IsTrue result ↔ NextFails fails.now made }
{
    match made.checked_add(1) {
        Some(number) => fails.contains(&number),
        None => false,
    }
}
