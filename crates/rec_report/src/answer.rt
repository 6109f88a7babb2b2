//! The line of an answer, written from its end to its front, as digits come.

ghost use Rattle.std.specs.Prelude.{◌≡◌, ◌+◌, ◌≤◌, ◌++◌, codes, decimal, drop, length};
ghost use Rattle.rec_report.specs.Text.{answer_line, answer_word, line_feed};

use itoa::write_digits;
use rec_model::Answer;

/// No line of an answer has more bytes: four numbers of at most 20 digits, ` busy `, a point, a space and the line feed.
pub(super) const LONGEST: usize = 89;

/// Writes the answer to command `i` of mutator `t` so that its line ends with the buffer, and tells where it starts.
#[inline(always)]
#[tactic(auto, using(crate::proofs::Numbers::twenty_digits))]
pub(super) fn write_answer(t: usize, i: usize, answer: Answer, buffer: &mut [u8; LONGEST]) -> usize
    ensures within { result ≤ 89 }
    ensures line { drop result buffer.new ≡ answer_line t i answer }
{
    let end = write_word(answer, buffer);
    let point = write_digits(i as u64, buffer, end) - 1;
    buffer[point] = b'.';
    write_digits(t as u64, buffer, point)
}

// Writes an answer's word between a space and the line feed, and leaves room for what stands before it: two numbers of
// at most 20 digits, and the point between them.
#[inline(always)]
fn write_word(answer: Answer, buffer: &mut [u8; LONGEST]) -> usize
    ensures room { (41 ≤ result) × (result ≤ 89) }
    ensures word { drop result buffer.new ≡ codes " " ++ answer_word answer ++ line_feed }
{
    match answer {
        Answer::Done => write_last(b" done\n", buffer),
        Answer::Null => write_last(b" null\n", buffer),
        Answer::Object => write_last(b" object\n", buffer),
        Answer::Value(label) => write_value(label, buffer),
        Answer::Yes => write_last(b" yes\n", buffer),
        Answer::No => write_last(b" no\n", buffer),
        Answer::NoObject => write_last(b" none\n", buffer),
        Answer::Full => write_last(b" full\n", buffer),
        Answer::Busy { before, after } => write_busy(before, after, buffer),
        Answer::NoField => write_last(b" nofield\n", buffer),
        Answer::NotYet => write_last(b" notyet\n", buffer),
        Answer::LogFull => write_last(b" logfull\n", buffer),
    }
}

// The end of a line that tells a label.
#[tactic(auto, using(crate::proofs::Numbers::twenty_digits))]
fn write_value(label: u32, buffer: &mut [u8; LONGEST]) -> usize
    ensures room { (41 ≤ result) × (result ≤ 89) }
    ensures word { drop result buffer.new ≡ codes " value " ++ decimal label ++ line_feed }
{
    let feed = write_last(b"\n", buffer);
    let digits = write_digits(u64::from(label), buffer, feed);
    write_piece(b" value ", buffer, digits)
}

// The end of a line that tells the freed word before and after.
#[tactic(auto, using(crate::proofs::Numbers::twenty_digits))]
fn write_busy(before: u64, after: u64, buffer: &mut [u8; LONGEST]) -> usize
    ensures room { (41 ≤ result) × (result ≤ 89) }
    ensures word { drop result buffer.new ≡ codes " busy " ++ decimal before ++ codes " " ++ decimal after ++ line_feed }
{
    let feed = write_last(b"\n", buffer);
    let digits = write_digits(after, buffer, feed);
    let space = write_piece(b" ", buffer, digits);
    let digits = write_digits(before, buffer, space);
    write_piece(b" busy ", buffer, digits)
}

// Writes a piece so that it ends with the buffer.
fn write_last(piece: &[u8], buffer: &mut [u8; LONGEST]) -> usize
    requires { length piece.now ≤ 89 }
    ensures start { result + length piece.now ≡ 89 }
    ensures written { drop result buffer.new ≡ piece.now }
{
    write_piece(piece, buffer, LONGEST)
}

// Writes a piece before what starts at `end`, and tells where the piece starts.
fn write_piece(piece: &[u8], buffer: &mut [u8], end: usize) -> usize
    requires { (length piece.now ≤ end) × (end ≤ length buffer.old) }
    ensures start { result + length piece.now ≡ end }
    ensures written { drop result buffer.new ≡ piece.now ++ drop end buffer.old }
{
    let start = end - piece.len();
    buffer[start..end].copy_from_slice(piece);
    start
}
