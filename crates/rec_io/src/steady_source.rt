//! A source over bytes that never fails.
ghost use Rattle.std.specs.Prelude.{◌≡◌, ◌≢◌, ◌↔◌, ◌<◌, ◌≤◌, [], Some, length, min};
ghost use Rattle.rec_io.specs.Source.{IfGiven, OnEnd, GivesFront, IsSpent};

use crate::copy::copy_front;
use crate::source::{Given, Source};
use std::marker::Model;

/// The bytes of a slice, from its front. It is seen as the bytes that are not yet read.
#[derive(Drop)]
pub struct SteadySource<'a> {
    rest: &'a [u8],
}

impl<'a> Model for SteadySource<'a> {
    ghost use Rattle.std.specs.Prelude.{ℕ, List};

    ghost Value = { List ℕ };

    ghost view = { λ s. s.rest.now };
}

impl<'a> SteadySource<'a> {
    /// A source of these bytes, of which none is read yet.
    pub fn over(bytes: &'a [u8]) -> SteadySource<'a>
        ensures { result ≡ bytes.now }
    {
        SteadySource { rest: bytes }
    }
}

impl<'a> Source for SteadySource<'a> {
    ghost rest = { λ s. Some s };

    ghost faults = { λ _. 0 };

    fn read(&mut self, into: &mut [u8]) -> Given
        requires { 0 < length into.old }

        // What each source promises of bytes and of the end.
        ensures some { IfGiven result (λ n. 1 ≤ n) }
        ensures fits { IfGiven result (λ n. n ≤ length into.new) }
        ensures in_order { IfGiven result (λ n.
            GivesFront (Some self.old) (Some self.new) n into.new) }
        ensures ended { OnEnd result (IsSpent (Some self.old) (Some self.new)) }

        // It never fails, and gives as much as fits.
        ensures never_fails { result ≢ Given.Failed }
        ensures ends { (result ≡ Given.End) ↔ (self.old ≡ []) }
        ensures gives { IfGiven result (λ n. n ≡ min (length into.old) (length self.old)) }
    {
        let count = copy_front(self.rest, into);
        if count == 0 {
            return Given::End;
        }
        self.rest = &self.rest[count..];
        Given::Bytes(count)
    }
}
