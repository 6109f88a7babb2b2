//! Sinks that may hold bytes back.

ghost use Rattle.std.specs.Prelude.{◌≡◌, ◌≤◌, ℕ, List, Option, OnOk, OnErr};
ghost use Rattle.rec_io.specs.Faults.{Rose};
ghost use Rattle.rec_io.specs.Told.{KeepsTold};

use crate::flush_fault::FlushFault;
use crate::sink::Sink;

/// A sink that may hold back bytes that it took, as a buffered one does, until it is told to pass them on.
pub trait Flush: Sink {
    // The bytes that were passed on so far, where the type tells them.
    ghost passed_on: { Self → Option (List ℕ) };

    /// Passes on what is held back.
    fn flush(&mut self) -> Result<(), FlushFault>
        // All bytes written are passed on then, and no fault is counted.
        ensures passed { OnOk result (KeepsTold (Self.written self.new) (passed_on self.new)) }
        ensures faultless { OnOk result (Self.faults self.new ≡ Self.faults self.old) }

        // A flush that fails is counted. What it passed on before it failed is not said.
        ensures rose { OnErr result (Rose (Self.faults self.old) (Self.faults self.new)) }

        // On either answer. What was written stays written.
        ensures kept { KeepsTold (Self.written self.old) (Self.written self.new) }
        ensures never_falls { Self.faults self.old ≤ Self.faults self.new };
}
