//! A source in memory, with calls that fail.
ghost use Rattle.std.specs.Prelude.{◌≡◌, ◌<◌, ◌≤◌, ℕ, IfOk, Some, length};
ghost use Rattle.rec_io.specs.BytesSource.{Gives, after_read};
ghost use Rattle.rec_io.specs.Faults.{Rose, last_count};
ghost use Rattle.rec_io.specs.Source.{IfGiven, OnEnd, OnReadFailed, GivesFront, IsSpent};
ghost use Rattle.rec_io.specs.Told.{KeepsTold, StaysTold};

use crate::calls::Calls;
use crate::copy::copy_front;
use crate::source::{Given, Source};
use std::alloc::{AllocError as NoMemory, Global};
use std::marker::Model;

/// Bytes in memory, read from the front. The calls whose numbers are listed fail, and no others.
#[derive(Drop)]
pub struct BytesSource {
    bytes: Vec<u8>,
    at: usize,
    calls: Calls,
}

impl Model for BytesSource {
    ghost use Rattle.std.specs.Prelude.{◌≤◌, drop, vec_len};
    ghost use Rattle.rec_io.specs.BytesSource.{BytesState};
    ghost use Rattle.rec_io.specs.Faults.{last_count};

    ghost Value = { BytesState };

    ghost view = { λ s. record {
      rest = drop s.at s.bytes.items;
      fails = s.calls.fails.items;
      calls = s.calls.made;
      faults = s.calls.faults;
    } };

    ghost invariant = { λ s. (s.at ≤ vec_len s.bytes) × (s.calls.faults ≤ last_count) };
}

impl BytesSource {
    /// A source of these bytes, of which none is read yet. `fails` lists the numbers of the calls that fail,
    /// where the first call is number 1; their order does not matter.
    pub fn open(alloc: Global, bytes: &[u8], fails: &[u64]) -> Result<BytesSource, NoMemory>
        ensures rest { IfOk result (λ source. source.rest ≡ bytes.now) }
        ensures fails { IfOk result (λ source. source.fails ≡ fails.now) }
        ensures calls { IfOk result (λ source. source.calls ≡ 0) }
        ensures faults { IfOk result (λ source. source.faults ≡ 0) }
    {
        Ok(BytesSource {
            bytes: Vec::from_slice(alloc, bytes)?,
            at: 0,
            calls: Calls::open(alloc, fails)?,
        })
    }
}

impl Source for BytesSource {
    ghost rest = { λ s. Some s.rest };

    ghost faults = { λ s. s.faults };

    fn read(&mut self, into: &mut [u8]) -> Given
        requires { 0 < length into.old }

        // What each source promises.
        ensures some { IfGiven result (λ n. 1 ≤ n) }
        ensures fits { IfGiven result (λ n. n ≤ length into.new) }
        ensures in_order { IfGiven result (λ n.
            GivesFront (Some self.old.rest) (Some self.new.rest) n into.new) }
        ensures ended { OnEnd result (IsSpent (Some self.old.rest) (Some self.new.rest)) }
        ensures kept { OnReadFailed result (KeepsTold (Some self.old.rest) (Some self.new.rest)) }
        ensures rose { OnReadFailed result (Rose self.old.faults self.new.faults) }
        ensures never_falls { self.old.faults ≤ self.new.faults }
        ensures within_count { self.new.faults ≤ last_count }
        ensures stays_told { StaysTold (Some self.old.rest) (Some self.new.rest) }

        // It fails at the calls that are listed and at no others, and else gives as much as fits.
        ensures gives { Gives self.old (length into.old) result }

        // What it holds afterwards.
        ensures after { self.new ≡ after_read result self.old }
    {
        if self.calls.next_fails() {
            self.calls.count_fault();
            return Given::Failed;
        }
        let count = copy_front(&self.bytes[self.at..], into);
        if count == 0 {
            return Given::End;
        }
        self.at += count;
        Given::Bytes(count)
    }
}
