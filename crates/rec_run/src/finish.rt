//! The end of a run: what the sink holds back is passed on.
ghost use Rattle.std.specs.Prelude.{◌≡◌, ◌≢◌, ◌⊎◌};
ghost use Rattle.rec_io.specs.Faults.{Rose};
ghost use Rattle.rec_io.specs.Told.{KeepsTold};

use crate::status::Status;
use rec_io::Flush;

/// Where the run is done, has the sink pass on what it holds back, and tells how the run ended: a text that stayed behind was
/// not written.
pub fn finish<K: Flush>(status: Status, sink: &mut K) -> Status
    // A run that is done was done before, and all that was written is passed on without a fault.
    ensures done { result ≡ Status.Done → status ≡ Status.Done }
    ensures passed { result ≡ Status.Done → KeepsTold (K.written sink.new) (K.passed_on sink.new) }
    ensures faultless { result ≡ Status.Done → K.faults sink.new ≡ K.faults sink.old }

    // A flush that fails leaves a run that was done with a fault of writing. What was written stays written.
    ensures fault { status ≡ Status.Done → (result ≡ Status.Done)
        ⊎ ((result ≡ Status.WriteFault) × Rose (K.faults sink.old) (K.faults sink.new)) }
    ensures written { status ≡ Status.Done → KeepsTold (K.written sink.old) (K.written sink.new) }

    // Every other status stays, and the sink is left as it was.
    ensures other { status ≢ Status.Done → (result ≡ status) × (sink.new ≡ sink.old) }
{
    if status != Status::Done {
        return status;
    }
    match sink.flush() {
        Ok(()) => Status::Done,
        Err(_) => Status::WriteFault,
    }
}
