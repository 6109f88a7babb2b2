//! Where bytes go.
ghost use Rattle.std.specs.Prelude.{◌≡◌, ◌≢◌, ℕ, ◌<◌, ◌≤◌, List, Option, length, take};
ghost use Rattle.rec_io.specs.Faults.{Rose, last_count};
ghost use Rattle.rec_io.specs.Sink.{IfTaken, OnWriteFailed, Appends};
ghost use Rattle.rec_io.specs.Told.{KeepsTold, StaysTold};

/// What a write took.
#[derive(Clone, Copy, Debug, PartialEq, Eq)]
pub enum Taken {
    /// This many bytes, from the front of the piece: all, or some from 1 on; 0 of an empty piece.
    Bytes(usize),
    /// Nothing, since the write failed: the count of faults rose.
    Failed,
}

/// A place that bytes are written to, in order.
pub trait Sink {
    // The bytes written so far, where the type tells them.
    ghost written: { Self → Option (List ℕ) };

    // How many writes failed, up to the last value of a `u64`.
    ghost faults: { Self → ℕ };

    /// Writes bytes from the front of `piece`.
    fn write(&mut self, piece: &[u8]) -> Taken
        // Of a piece that is not empty at least one byte is taken, no more than it has, and those
        // at its front.
        ensures some { IfTaken result (λ n. 0 < length piece.now → 1 ≤ n) }
        ensures fits { IfTaken result (λ n. n ≤ length piece.now) }
        ensures appends { IfTaken result (λ n.
            Appends (written self.old) (written self.new) (take n piece.now)) }

        // A failed write takes nothing, and is counted.
        ensures kept { OnWriteFailed result (KeepsTold (written self.old) (written self.new)) }
        ensures rose { OnWriteFailed result (Rose (faults self.old) (faults self.new)) }

        // No other write is counted.
        ensures uncounted { result ≢ Taken.Failed → faults self.new ≡ faults self.old }

        // On every answer.
        ensures never_falls { faults self.old ≤ faults self.new }
        ensures within_count { faults self.new ≤ last_count }
        ensures stays_told { StaysTold (written self.old) (written self.new) };
}
