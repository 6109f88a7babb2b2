//! All bytes of a text into a sink.
ghost use Rattle.std.specs.Prelude.{◌≡◌, ℕ, ◌<◌, ◌≤◌, ◌++◌, List, length, OnOk, OnErr};
ghost use Rattle.rec_io.specs.Faults.{Rose};
ghost use Rattle.rec_io.specs.Sink.{Appends};

use crate::sink::{Sink, Taken};

/// A write failed.
#[derive(Clone, Copy)]
pub struct WriteFault;

/// Offers a piece, and its rest again, until all of it is taken.
pub fn write_all<K: Sink>(sink: &mut K, piece: &[u8]) -> Result<(), WriteFault>
    ensures written { OnOk result (Appends (K.written sink.old) (K.written sink.new) piece.now) }
    ensures fault { OnErr result (Rose (K.faults sink.old) (K.faults sink.new)) }
    ensures front { OnErr result ((front back : List ℕ) × (piece.now ≡ front ++ back) × Appends (K.written sink.old) (K.written sink.new) front) }
    ensures faultless { OnOk result (K.faults sink.new ≡ K.faults sink.old) }
    ensures never_falls { K.faults sink.old ≤ K.faults sink.new }
{
    let mut rest = piece;
    while !rest.is_empty() {
        match sink.write(rest) {
            Taken::Bytes(count) => rest = rest.split_at(count).1,
            Taken::Failed => return Err(WriteFault),
        }
    }
    Ok(())
}

// How long the first line of a text is, with its LF, or the whole text where no LF is left.
fn line_length(text: &[u8]) -> usize
    requires { 0 < length text.now }
    ensures { (0 < result) × (result ≤ length text.now) }
{
    match text.iter().position(|byte| *byte == b'\n') {
        Some(at) => at + 1,
        None => text.len(),
    }
}

/// Writes a text, line by line.
pub fn write_text<K: Sink>(sink: &mut K, text: &[u8]) -> Result<(), WriteFault>
    ensures written { OnOk result (Appends (K.written sink.old) (K.written sink.new) text.now) }
    ensures fault { OnErr result (Rose (K.faults sink.old) (K.faults sink.new)) }
    ensures front { OnErr result ((front back : List ℕ) × (text.now ≡ front ++ back) × Appends (K.written sink.old) (K.written sink.new) front) }
    ensures faultless { OnOk result (K.faults sink.new ≡ K.faults sink.old) }
    ensures never_falls { K.faults sink.old ≤ K.faults sink.new }
{
    let mut rest = text;
    while !rest.is_empty() {
        let (line, behind) = rest.split_at(line_length(rest));
        write_all(sink, line)?;
        rest = behind;
    }
    Ok(())
}
