//! The lines of a text into a sink.
ghost use Rattle.std.specs.Prelude.{◌≡◌, ℕ, ◌≤◌, ◌++◌, List, OnOk, OnErr};
ghost use Rattle.std.specs.List.{flat_map};
ghost use Rattle.rec_io.specs.Faults.{Rose};
ghost use Rattle.rec_io.specs.Sink.{Appends};

use rec_io::{Sink, WriteFault, write_all};
use rec_report::Text;

/// Writes the lines of a text in order.
pub fn write_lines<K: Sink>(sink: &mut K, text: &Text) -> Result<(), WriteFault>
    ensures written { OnOk result (Appends (K.written sink.old) (K.written sink.new) (flat_map (λ line. line) text.now)) }
    ensures fault { OnErr result (Rose (K.faults sink.old) (K.faults sink.new)) }
    ensures front { OnErr result ((front back : List ℕ) × (flat_map (λ line. line) text.now ≡ front ++ back) × Appends (K.written sink.old) (K.written sink.new) front) }
    ensures faultless { OnOk result (K.faults sink.new ≡ K.faults sink.old) }
    ensures never_falls { K.faults sink.old ≤ K.faults sink.new }
{
    for line in text.lines() {
        write_all(sink, line)?;
    }
    Ok(())
}
