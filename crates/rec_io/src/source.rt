//! Where bytes come from.
ghost use Rattle.std.specs.Prelude.{◌≡◌, ◌≢◌, ℕ, ◌<◌, ◌≤◌, List, Option, length};
ghost use Rattle.rec_io.specs.Faults.{Rose, last_count};
ghost use Rattle.rec_io.specs.Source.{IfGiven, OnEnd, OnReadFailed, GivesFront, IsSpent};
ghost use Rattle.rec_io.specs.Told.{KeepsTold, StaysTold};

/// What a read gave.
#[derive(Clone, Copy, Debug, PartialEq, Eq)]
pub enum Given {
    /// This many bytes, from 1 to the length of the buffer, in its front.
    Bytes(usize),
    /// Nothing, since nothing is left.
    End,
    /// Nothing, since the read failed: the count of faults rose.
    Failed,
}

/// A place that bytes are read from, in order.
pub trait Source {
    // The bytes that are not yet read, where the type tells them.
    ghost rest: { Self → Option (List ℕ) };

    // How many reads failed, up to the last value of a `u64`.
    ghost faults: { Self → ℕ };

    /// Reads the next bytes into the front of `into`. What it leaves behind them is not said.
    fn read(&mut self, into: &mut [u8]) -> Given
        requires { 0 < length into.old }

        // At least one byte is given, no more than there is place for, and those at the front of
        // the rest.
        ensures some { IfGiven result (λ n. 1 ≤ n) }
        ensures fits { IfGiven result (λ n. n ≤ length into.new) }
        ensures in_order { IfGiven result (λ n.
            GivesFront (rest self.old) (rest self.new) n into.new) }

        // The end comes only where nothing is left.
        ensures ended { OnEnd result (IsSpent (rest self.old) (rest self.new)) }

        // A failed read takes nothing, and is counted.
        ensures kept { OnReadFailed result (KeepsTold (rest self.old) (rest self.new)) }
        ensures rose { OnReadFailed result (Rose (faults self.old) (faults self.new)) }

        // No other read is counted.
        ensures uncounted { result ≢ Given.Failed → faults self.new ≡ faults self.old }

        // On every answer.
        ensures never_falls { faults self.old ≤ faults self.new }
        ensures within_count { faults self.new ≤ last_count }
        ensures stays_told { StaysTold (rest self.old) (rest self.new) };
}
