//! A source over std's reader.
ghost use Rattle.std.specs.Prelude.{◌≡◌, ◌<◌, ◌≤◌, ℕ, None, length};
ghost use Rattle.rec_io.specs.Faults.{Rose, counted_up, last_count};
ghost use Rattle.rec_io.specs.Source.{IfGiven, OnEnd, OnReadFailed};

use crate::source::{Given, Source};
use std::io::Read;
use std::marker::Model;

/// A reader of std, as a file or standard input. It is seen as its count of faults: what it will give is not
/// told. A read is tried once, so an interrupted one has failed, and a read of no bytes is the end.
#[derive(Drop)]
pub struct StdSource<R> {
    reader: R,
    faults: u64,
}

impl<R> Model for StdSource<R> {
    ghost use Rattle.std.specs.Prelude.{ℕ, ◌≤◌};
    ghost use Rattle.rec_io.specs.Faults.{last_count};

    ghost Value = { ℕ };

    ghost view = { λ s. s.faults };

    ghost invariant = { λ s. s.faults ≤ last_count };
}

impl<R: Read> StdSource<R> {
    /// A source of what this reader gives, with no faults so far.
    pub fn over(reader: R) -> StdSource<R>
        ensures { result ≡ 0 }
    {
        StdSource { reader, faults: 0 }
    }

    /// How many reads failed, up to the last value of a `u64`.
    pub fn fault_count(&self) -> u64
        ensures { result ≡ self.now }
    {
        self.faults
    }
}

impl<R: Read> Source for StdSource<R> {
    ghost rest = { λ _. None };

    ghost faults = { λ s. s };

    fn read(&mut self, into: &mut [u8]) -> Given
        requires { 0 < length into.old }

        // What each source promises. That no reader gives more than fits is in the contract of
        // std's `Read`.
        ensures some { IfGiven result (λ n. 1 ≤ n) }
        ensures fits { IfGiven result (λ n. n ≤ length into.new) }
        ensures rose { OnReadFailed result (Rose self.old self.new) }
        ensures never_falls { self.old ≤ self.new }
        ensures within_count { self.new ≤ last_count }

        // The count rises by one at each failure, and at nothing else.
        ensures after_bytes { IfGiven result (λ _. self.new ≡ self.old) }
        ensures after_end { OnEnd result (self.new ≡ self.old) }
        ensures after_failed { OnReadFailed result (self.new ≡ counted_up self.old) }
    {
        match self.reader.read(into) {
            Ok(0) => Given::End,
            Ok(count) => Given::Bytes(count),
            Err(_) => {
                self.faults = self.faults.saturating_add(1);
                Given::Failed
            }
        }
    }
}
