//! A sink over std's writer.
ghost use Rattle.std.specs.Prelude.{◌≡◌, ◌<◌, ◌≤◌, None, OnOk, OnErr, length};
ghost use Rattle.rec_io.specs.Faults.{Rose, counted_up, last_count};
ghost use Rattle.rec_io.specs.Sink.{IfTaken, OnWriteFailed};

use crate::flush::Flush;
use crate::flush_fault::FlushFault;
use crate::sink::{Sink, Taken};
use std::io::Write;
use std::marker::Model;

/// A writer of std, as a file or standard output. It is seen as its count of faults: what it holds is not
/// told. A write is tried once, so an interrupted one has failed. A write that takes nothing of a piece that is
/// not empty has failed too.
#[derive(Drop)]
pub struct StdSink<W> {
    writer: W,
    faults: u64,
}

impl<W> Model for StdSink<W> {
    ghost use Rattle.std.specs.Prelude.{ℕ, ◌≤◌};
    ghost use Rattle.rec_io.specs.Faults.{last_count};

    ghost Value = { ℕ };

    ghost view = { λ s. s.faults };

    ghost invariant = { λ s. s.faults ≤ last_count };
}

impl<W: Write> StdSink<W> {
    /// A sink into this writer, with no faults so far.
    pub fn over(writer: W) -> StdSink<W>
        ensures { result ≡ 0 }
    {
        StdSink { writer, faults: 0 }
    }

    /// How many writes and flushes failed, up to the last value of a `u64`.
    pub fn fault_count(&self) -> u64
        ensures { result ≡ self.now }
    {
        self.faults
    }
}

impl<W: Write> Sink for StdSink<W> {
    ghost written = { λ _. None };

    ghost faults = { λ s. s };

    fn write(&mut self, piece: &[u8]) -> Taken
        // What each sink promises. That no writer takes more than the piece is in the contract of
        // std's `Write`.
        ensures some { IfTaken result (λ n. 0 < length piece.now → 1 ≤ n) }
        ensures fits { IfTaken result (λ n. n ≤ length piece.now) }
        ensures rose { OnWriteFailed result (Rose self.old self.new) }
        ensures never_falls { self.old ≤ self.new }
        ensures within_count { self.new ≤ last_count }

        // The count rises by one at each failure, and at nothing else; a piece that is empty never
        // fails.
        ensures after_bytes { IfTaken result (λ _. self.new ≡ self.old) }
        ensures after_failed { OnWriteFailed result (self.new ≡ counted_up self.old) }
        ensures nothing { length piece.now ≡ 0 → result ≡ Taken.Bytes 0 }
    {
        let writer = &mut self.writer;
        if piece.is_empty() {
            return Taken::Bytes(0);
        }
        match writer.write(piece) {
            Ok(0) | Err(_) => {
                self.faults = self.faults.saturating_add(1);
                Taken::Failed
            }
            Ok(count) => Taken::Bytes(count),
        }
    }
}

impl<W: Write> Flush for StdSink<W> {
    ghost passed_on = { λ _. None };

    // That a writer whose flush succeeds holds nothing back is trusted.
    fn flush(&mut self) -> Result<(), FlushFault>
        // What each sink that may hold bytes back promises of faults.
        ensures rose { OnErr result (Rose self.old self.new) }
        ensures never_falls { self.old ≤ self.new }

        // The count rises by one at each flush that fails, and at no other.
        ensures ok { OnOk result (self.new ≡ self.old) }
        ensures err { OnErr result (self.new ≡ counted_up self.old) }
    {
        match self.writer.flush() {
            Ok(()) => Ok(()),
            Err(_) => {
                self.faults = self.faults.saturating_add(1);
                Err(FlushFault)
            }
        }
    }
}
